//! What the notation can't say: descriptions and sources.

use crate::schemas::building::{PLAIN, told};
use graphql_ast::definition::Definition;
use graphql_ast::directive::DirectiveList;
use graphql_ast::document::Document;
use graphql_ast::type_system::ObjectTypeDefinition;
use graphql_nodes::collections::items::Items;
use graphql_nodes::collections::shared::Shared;
use graphql_nodes::name::Name;
use graphql_nodes::node::Node;
use graphql_nodes::node_str::NodeStr;
use graphql_nodes::source::{FileId, SourceFile, SourceSpan};
use std::alloc::{AllocError, Global};

const PLACE: SourceSpan = SourceSpan {
    file: FileId(2),
    start: 8,
    end: 90,
};

/// The definition of `Query`, with a description.
fn query(alloc: Global) -> Result<Definition, AllocError> {
    let query = ObjectTypeDefinition {
        description: Some(NodeStr::new(alloc, "Where queries begin.")?),
        name: Name::new_unchecked(alloc, "Query")?,
        implements_interfaces: Items::new(alloc),
        directives: DirectiveList::new(alloc),
        fields: Items::new(alloc),
    };
    let node = Node::new_opt_location(alloc, query, Some(PLACE))?;
    Ok(Definition::ObjectTypeDefinition(node))
}

/// A document of a file of this path, with the definition of `Query`.
fn document(alloc: Global, path: &str) -> Result<Document, AllocError> {
    let file = SourceFile::new(alloc, path, "type Query")?;
    let mut document = Document::new(alloc);
    document
        .sources
        .insert(PLACE.file, Shared::new(alloc, file)?)?;
    document.definitions.push(query(alloc)?)?;
    Ok(document)
}

#[test]
fn the_last_file_of_a_number_stays(rt: HostRuntime) {
    let first = document(rt.alloc(), "first.graphql").expect(&rt, "memory");
    let second = document(rt.alloc(), "second.graphql").expect(&rt, "memory");
    let text = told(rt.alloc(), &PLAIN, &[first, second]).expect(&rt, "memory");
    assert_eq!(rt;
        text.as_str(),
        "- the type `Query` is defined multiple times in the schema; - - \nfaults copied equal: true\npartial schema copied equal: true\nfile 2 \"second.graphql\" \"type Query\"\n- schema \nquery definition Query - \nQuery - 2:8-90 object \"Where queries begin.\" - Query - \ndefinition Query - \nquery is Query, an object type: true\ndef object Query\nrebuilt equal: true\ncopied equal: true, true, true\n0 is next\n"
    );
}
