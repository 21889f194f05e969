//! GraphQL text that is compiled.

use crate::compilation::compiling::PLAIN;
use crate::compilation::making::name;
use apollo_compiler::executable::FieldSet;
use apollo_compiler::text::{ParseOptions, definitions_text, parse_document, parse_selections};
use apollo_compiler::{CompileOptions, Document, FileId, HashKeys, SourceFile, build_schema};
use graphql_nodes::collections::shared::Shared;
use std::alloc::Global;
use std::slice;

/// Extensions need no definition.
const ADOPTING: CompileOptions = CompileOptions {
    adopt_orphan_extensions: true,
    ignore_builtin_redefinitions: false,
};

static SCHEMA: &str =
    "type Query { product: Product }\n\"\"\"\nWhat is sold.\n\"\"\"\ntype Product { id: ID }\nextend type Product { organization: Organization }\ntype Organization { id: ID }";

/// The document of a text, that of the file of this number.
pub fn read(alloc: Global, number: FileId, text: &str) -> Option<Document> {
    let file = SourceFile::new(alloc, "store.graphql", text).ok()?;
    let source = Shared::new(alloc, file).ok()?;
    parse_document(alloc, number, &source, ParseOptions::new()).ok()
}

/// Whether the fields that a key names are all there, with braces or without.
fn is_key_typed(alloc: Global) -> Option<bool> {
    let document = read(alloc, FileId(1), SCHEMA)?;
    let documents = slice::from_ref(&document);
    let (schema, faults) = build_schema(alloc, HashKeys::FIXED, PLAIN, documents).ok()?;
    let options = ParseOptions::new();
    let bare = parse_selections(alloc, FileId(2), "id organization { id }", options).ok()?;
    let braced = parse_selections(alloc, FileId(2), "{ id organization { id } }", options).ok()?;
    let ty = name(alloc, "Product").ok()?;
    let (set, lost) = FieldSet::from_ast(alloc, &schema, ty, bare.as_slice()).ok()?;
    let is_same = bare == braced;
    Some(is_same && faults.is_empty() && lost.is_empty() && set.selection_set.selections.len() == 2)
}

/// The text of the schema that a text means, where extensions need no definition.
fn schema_text(alloc: Global, text: &str) -> Option<String> {
    let document = read(alloc, FileId(1), text)?;
    let documents = slice::from_ref(&document);
    let (schema, _faults) = build_schema(alloc, HashKeys::FIXED, ADOPTING, documents).ok()?;
    let written = schema.to_ast(alloc).ok()?;
    definitions_text(alloc, written.as_slice()).ok()
}

#[test]
fn the_text_of_a_schema_is_its_canonical_form(rt: HostRuntime) {
    let once = schema_text(rt.alloc(), SCHEMA).expect(&rt, "a schema");
    let twice = schema_text(rt.alloc(), once.as_str()).expect(&rt, "a schema");
    assert_eq!(rt; once.as_str(), twice.as_str());
    assert!(rt; once.contains("\"\"\"What is sold.\"\"\"\ntype Product {\n  id: ID\n}"));
}

#[test]
fn a_field_set_of_text_is_typed_over_a_schema_of_text(rt: HostRuntime) {
    assert!(rt; is_key_typed(rt.alloc()) == Some(true));
}
