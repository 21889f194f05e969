//! Documents and their sources.

use crate::nodes::samples::PLACE;
use graphql_ast::{Document, SchemaDefinition};
use graphql_nodes::{FileId, Node, Shared, SourceFile, SourceMap, SourceSpan, Table};
use likeness::{are_equal, is_copied_so};
use std::alloc::{AllocError, Global};

/// A document of a definition of the schema at this location alone, without sources.
fn document(alloc: Global, location: Option<SourceSpan>) -> Result<Document, AllocError> {
    let schema = Node::new_opt_location(alloc, SchemaDefinition::new(alloc), location)?;
    let mut definitions = Vec::new(alloc);
    definitions.push(schema.into())?;
    Ok(Document::from_definitions(alloc, definitions))
}

fn sources(alloc: Global) -> Result<SourceMap, AllocError> {
    let file = SourceFile::new(alloc, "schema.graphql", "schema { query: Query }")?;
    let mut sources = Table::new(alloc);
    sources.insert(FileId(3), Shared::new(alloc, file)?)?;
    Ok(sources)
}

/// That document with a source, and the definition at the location.
fn with_source(alloc: Global) -> Result<Document, AllocError> {
    let mut document = document(alloc, Some(PLACE))?;
    document.sources = sources(alloc)?;
    Ok(document)
}

/// Whether the document has the source, by its path, and its definition is at the location.
fn is_whole(document: &Document) -> bool {
    match (
        document.sources.get(&FileId(3)),
        document.definitions.get(0),
    ) {
        (Some(file), Some(first)) => {
            file.path.as_str() == "schema.graphql" && first.location() == Some(PLACE)
        }
        _ => false,
    }
}

#[test]
fn sources_are_left_out_where_documents_are_compared_and_are_copied(rt: HostRuntime) {
    let alloc = rt.alloc();
    assert!(rt; are_equal(with_source(alloc), document(alloc, None)) == Some(true));
    assert!(rt; are_equal(with_source(alloc), Ok(Document::new(alloc))) == Some(false));
    assert!(rt; is_copied_so(with_source(alloc), is_whole));
}
