//! A document made by calls, with the names of callers, and what its schema is and is written out as.

use crate::schemas::building::{PLAIN, told};
use graphql_ast::{Document, FieldDefinition, Name, Node, ObjectTypeDefinition, Type};
use std::alloc::Global;
use std::slice;
use std::test::Fail;

/// A field of this name and type.
fn field(alloc: Global, name: &str, ty: Type) -> Result<Node<FieldDefinition>, Fail> {
    let name = Name::new(alloc, name)?;
    Ok(Node::new(alloc, FieldDefinition::new(alloc, name, ty))?)
}

/// The type `Query`, of a title and a list of pages.
fn query(alloc: Global) -> Result<Node<ObjectTypeDefinition>, Fail> {
    let title = Type::named(Name::new(alloc, "String")?);
    let pages = Type::named(Name::new(alloc, "Int")?)
        .non_null()
        .list(alloc)?;
    let mut query = ObjectTypeDefinition::new(alloc, Name::new(alloc, "Query")?);
    query.fields.push(field(alloc, "title", title)?)?;
    query.fields.push(field(alloc, "pages", pages)?)?;
    Ok(Node::new(alloc, query)?)
}

#[test]
fn a_document_made_by_calls_is_built_and_written_out(rt: HostRuntime) -> Result<(), Fail> {
    let alloc = rt.alloc();
    let definitions = vec![in alloc; query(alloc)?.into()]?;
    let document = Document::from_definitions(alloc, definitions);
    let text = told(alloc, &PLAIN, slice::from_ref(&document))?;
    assert_eq!(rt;
        text.as_str(),
        "- schema \nquery definition Query - \nQuery - - object Query - \ntitle - definition - title - String - \npages - definition - pages - [ Int - ! ] \ndefinition Query - \nquery is Query, an object type: true\ndef object Query\nfield title String\nfield pages [Int!]\nrebuilt equal: true\ncopied equal: true, true, true\n0 is next\n"
    );
    Ok(())
}
