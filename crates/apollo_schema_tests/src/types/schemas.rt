//! Schemas that texts build, and copies of their types.

use apollo_schema::schema::Schema;
use apollo_schema::schema_builder::SchemaBuilder;
use apollo_types::extended_type::ExtendedType;
use bench_notation::documents::read;
use graphql_ast::document::Document;
use std::alloc::{AllocError, Global};

/// Adds a document, and answers whether that was done. What the call promises stays here, so that no loop
/// carries it along.
fn is_added(builder: &mut SchemaBuilder, document: &Document) -> bool {
    builder.add_ast(document).is_ok()
}

/// The schema of the documents that a text says, if it says documents, and they have no fault.
pub fn schema_of(alloc: Global, input: &str) -> Option<Schema> {
    let documents = read(alloc, input).ok()?;
    let mut builder = Schema::builder(alloc).ok()?;
    for document in documents.as_slice() {
        if !is_added(&mut builder, document) {
            return None;
        }
    }
    builder.build().ok()
}

/// A type made of a copy of this one's value, in a node of its own. A copy of the type shares its node.
pub fn made_again(alloc: Global, ty: &ExtendedType) -> Result<ExtendedType, AllocError> {
    match ty {
        ExtendedType::Scalar(node) => ExtendedType::of_scalar(alloc, (**node).clone()?),
        ExtendedType::Object(node) => ExtendedType::of_object(alloc, (**node).clone()?),
        ExtendedType::Interface(node) => ExtendedType::of_interface(alloc, (**node).clone()?),
        ExtendedType::Union(node) => ExtendedType::of_union(alloc, (**node).clone()?),
        ExtendedType::Enum(node) => ExtendedType::of_enum(alloc, (**node).clone()?),
        ExtendedType::InputObject(node) => ExtendedType::of_input_object(alloc, (**node).clone()?),
    }
}
