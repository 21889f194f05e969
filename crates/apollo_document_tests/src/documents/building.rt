//! What documents build, and what the write-out of that builds again.

use crate::documents::inputs::{Account, Given};
use apollo_document::{BuilderError, ExecutableDocumentBuilder, Fault, Faults};
use apollo_executable::ExecutableDocument;
use apollo_schema::schema::Schema;
use graphql_ast::document::Document;
use std::alloc::{AllocError, Global};
use std::slice;
use telling::Tell;
use telling::containers::tell_all;

/// Adds a document, unless it is refused. The contract of the call stays here, so that no loop carries it
/// along.
fn add(
    builder: &mut ExecutableDocumentBuilder<'_>,
    document: &Document,
    type_system_definitions_are_errors: bool,
) {
    // After a refusal the build is refused.
    let _ = builder.add_ast_document(document, type_system_definitions_are_errors);
}

/// What documents build, one after the other.
fn build(
    alloc: Global,
    schema: Option<&Schema>,
    documents: &[Document],
    type_system_definitions_are_errors: bool,
) -> Result<(ExecutableDocument, Faults), BuilderError> {
    let mut builder = ExecutableDocumentBuilder::new(alloc, schema);
    for document in documents {
        add(&mut builder, document, type_system_definitions_are_errors);
    }
    builder.build()
}

/// A document that was built over a schema or without one, with its faults, beside the schema of the input.
#[derive(Drop)]
pub struct Seen<'input> {
    pub alloc: Global,
    pub schema: &'input Schema,
    pub over: Option<&'input Schema>,
    pub document: &'input ExecutableDocument,
    pub faults: &'input [Fault],
}

/// What is looked at of a document that was built.
pub trait View {
    /// Adds what is said of it. The error is out of memory.
    fn view(&self, seen: &Seen<'_>, text: &mut String) -> Result<(), AllocError>;
}

/// A view of what documents build over the schema of the input, or without one: then definitions of the type
/// system are no faults.
#[derive(Drop)]
pub struct Built<V> {
    is_over: bool,
    view: V,
}

/// A view of what documents build over the schema of the input.
pub fn over<V>(view: V) -> Built<V> {
    Built {
        is_over: true,
        view,
    }
}

/// A view of what they build without a schema.
pub fn without<V>(view: V) -> Built<V> {
    Built {
        is_over: false,
        view,
    }
}

impl<V: View> Account for Built<V> {
    fn tell(&self, given: &Given<'_>, text: &mut String) -> Result<(), AllocError> {
        let Given {
            alloc,
            schema,
            documents,
        } = *given;
        let over = if self.is_over { Some(schema) } else { None };
        match build(alloc, over, documents, self.is_over) {
            Ok((document, faults)) => {
                let seen = Seen {
                    alloc,
                    schema,
                    over,
                    document: &document,
                    faults: faults.as_slice(),
                };
                self.view.view(&seen, text)
            }
            Err(error) => write!(text, "{error}\n"),
        }
    }
}

/// The document and its faults, and what its write-out builds over the same schema or without one.
#[derive(Drop)]
pub struct Whole;

/// Adds whether the write-out of a document builds it again, and the faults of that.
fn tell_again(seen: &Seen<'_>, text: &mut String) -> Result<(), AllocError> {
    let written = seen.document.to_ast(seen.alloc)?;
    match build(seen.alloc, seen.over, slice::from_ref(&written), true) {
        Ok((again, faults)) => {
            let is_equal = again == *seen.document;
            write!(text, "again: {is_equal}\n")?;
            tell_all(faults.as_slice(), text)
        }
        Err(error) => write!(text, "{error}\n"),
    }
}

impl View for Whole {
    fn view(&self, seen: &Seen<'_>, text: &mut String) -> Result<(), AllocError> {
        seen.document.tell(text)?;
        tell_all(seen.faults, text)?;
        tell_again(seen, text)
    }
}
