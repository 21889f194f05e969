//! What a build that found faults says of them.

use crate::reporting::made::read;
use apollo_compiler::schema::{BuildFailure, SchemaBuilder};
use apollo_compiler::{Document, FileId};
use std::alloc::Global;

/// A definition that must be omitted, and an extension of no type.
static STORE: &str = "scalar Int\nextend type A @d";

/// Why a document builds no schema without faults.
fn failure_of(alloc: Global, document: &Document) -> Option<BuildFailure> {
    let mut builder = SchemaBuilder::new(alloc).ok()?;
    builder.add_ast(document).ok()?;
    builder.build().err()
}

/// The texts of what was found in a document, and of the failure.
fn texts_of(alloc: Global, failure: &BuildFailure) -> Option<[String; 2]> {
    let BuildFailure::Faults(found) = failure else {
        return None;
    };
    Some([found.to_string(alloc).ok()?, failure.to_string(alloc).ok()?])
}

#[test]
fn a_failure_is_the_sentences_of_its_faults(rt: HostRuntime) {
    let alloc = rt.alloc();
    let document = read(alloc, FileId(1), "store.graphql", STORE).expect(&rt, "a document");
    let failure = failure_of(alloc, &document).expect(&rt, "a failure");
    let texts = texts_of(alloc, &failure).expect(&rt, "faults");
    let wanted =
        "built-in scalar definitions must be omitted\ntype extension for undefined type `A`";
    assert_eq!(rt; texts[0].as_str(), wanted);
    assert_eq!(rt; texts[1].as_str(), wanted);
}
