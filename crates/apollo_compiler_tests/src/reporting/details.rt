//! Details of faults, as callers get them.

use crate::reporting::leaves::on_leaf;
use apollo_compiler::text::{ParseError, ParseErrorKind};
use apollo_compiler::{FileId, Name, SourceSpan, executable, schema};
use apollo_reporting::detail::Detail;
use apollo_reporting::reported::Reported;
use graphql_nodes::collections::text::Text;
use std::alloc::{AllocError, Global};

/// Those of a fault of a schema.
fn of_schema(alloc: Global) -> Result<Vec<Detail>, AllocError> {
    let fault = schema::BuildError::OrphanTypeExtension {
        name: Name::new_unchecked(alloc, "Book")?,
    };
    fault.details(alloc)
}

/// Those of a fault of a document.
fn of_document(alloc: Global) -> Result<Vec<Detail>, AllocError> {
    let fault = executable::BuildError::FragmentNameCollision {
        name_at_previous_location: Name::new_unchecked(alloc, "Cover")?,
    };
    fault.details(alloc)
}

/// Those of a text that is refused.
fn of_text(alloc: Global) -> Result<Vec<Detail>, AllocError> {
    let error = ParseError {
        location: SourceSpan {
            file: FileId(7),
            start: 0,
            end: 0,
        },
        kind: ParseErrorKind::VariableInConstant(Text::from_str(alloc, "isbn")?),
    };
    error.details(alloc)
}

/// Those of a leaf fault.
fn of_leaf(alloc: Global) -> Result<Vec<Detail>, AllocError> {
    let fault = on_leaf(alloc)?;
    fault.details(alloc)
}

/// One text that isn't there.
fn of_nothing(alloc: Global) -> Result<Vec<Detail>, AllocError> {
    Ok(vec![in alloc; Detail::optional_text(alloc, "describe", None)?]?)
}

/// Whether the first of some details has this name.
fn begin_with(details: Result<Vec<Detail>, AllocError>, name: &str) -> bool {
    match details {
        Ok(details) => match details.as_slice() {
            [first, ..] => first.name.as_str() == name,
            [] => false,
        },
        Err(_) => false,
    }
}

#[test]
fn details_have_names(rt: HostRuntime) {
    let alloc = rt.alloc();
    assert!(rt; begin_with(of_schema(alloc), "name"));
    assert!(rt; begin_with(of_document(alloc), "name_at_previous_location"));
    assert!(rt; begin_with(of_text(alloc), "name"));
    assert!(rt; begin_with(of_leaf(alloc), "response_key"));
    assert!(rt; begin_with(of_nothing(alloc), "describe"));
}
