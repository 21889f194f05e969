//! Schemas and typed documents of files.

use apollo_compiler::files::FilesInMemory;
use apollo_compiler::{
    CompileOptions, ExecutableOptions, HashKeys, LoadedDocument, LoadedSchema, Schema,
    load_document, load_schema,
};
use std::alloc::Global;

/// Two files of a schema, a document over it, and files that are refused: one is no text, two are no GraphQL.
pub(crate) const FILES: FilesInMemory<'static> = FilesInMemory(&[
    (
        "types.graphql",
        b"type Query { book: Book }\ntype Book { title: String }",
    ),
    ("more.graphql", b"extend type Book { title: Int }"),
    ("page.graphql", b"{ book { pages } }"),
    ("bytes.graphql", b"type \xff"),
    ("open.graphql", b"type Query {"),
    ("word.graphql", b"typo A"),
]);

/// The schema of the files of these paths.
fn loaded(alloc: Global, paths: &[&str]) -> Option<LoadedSchema> {
    load_schema(
        alloc,
        HashKeys::FIXED,
        CompileOptions::none(),
        &FILES,
        paths,
    )
    .ok()
}

/// The schema of a file without faults.
fn types(alloc: Global) -> Option<Schema> {
    loaded(alloc, &["types.graphql"])?.schema
}

/// The typed document of the files of these paths, over that schema.
fn loaded_document(alloc: Global, paths: &[&str]) -> Option<LoadedDocument> {
    let schema = types(alloc)?;
    load_document(alloc, &schema, ExecutableOptions::none(), &FILES, paths).ok()
}

/// Whether there is a schema of these files, and the reports.
fn reported(alloc: Global, paths: &[&str]) -> Option<(bool, String)> {
    let loaded = loaded(alloc, paths)?;
    Some((loaded.schema.is_some(), loaded.reports(alloc).ok()?))
}

/// Whether there is a typed document of these files, and the reports.
fn reported_document(alloc: Global, paths: &[&str]) -> Option<(bool, String)> {
    let loaded = loaded_document(alloc, paths)?;
    Some((loaded.document.is_some(), loaded.reports(alloc).ok()?))
}

/// What is wrong with the two files that are a schema.
static FAULTS: &str = "error: duplicate definitions for the `title` field of object type `Book`
  --> more.graphql:1:20
   |
 1 | extend type Book { title: Int }
   |                    ^^^^^^^^^^
note: first defined here
  --> types.graphql:2:13
   |
 2 | type Book { title: String }
   |             ^^^^^

";

/// What is wrong with the files that are none, in the order in which they are named.
static REFUSALS: &str = "error: expected a field definition, found the end of the text
  --> open.graphql:1:13
   |
 1 | type Query {
   |             ^

error: cannot read `none.graphql`: entity not found

error: cannot read `bytes.graphql`: not UTF-8

error: expected a definition, found `typo`
  --> word.graphql:1:1
   |
 1 | typo A
   | ^^^^

";

/// What is wrong with the document.
static PAGE: &str = "error: type `Book` does not have a field `pages`
  --> page.graphql:1:10
   |
 1 | { book { pages } }
   |          ^^^^^
   = path: query → book → pages

";

#[test]
fn files_without_faults_are_a_schema(rt: HostRuntime) {
    let (has_schema, reports) = reported(rt.alloc(), &["types.graphql"]).expect(&rt, "memory");
    assert!(rt; has_schema);
    assert_eq!(rt; reports.as_str(), "");
}

#[test]
fn no_files_are_a_schema(rt: HostRuntime) {
    let (has_schema, reports) = reported(rt.alloc(), &[]).expect(&rt, "memory");
    assert!(rt; has_schema);
    assert_eq!(rt; reports.as_str(), "");
}

#[test]
fn faults_stand_beside_what_could_be_built(rt: HostRuntime) {
    let paths = ["types.graphql", "more.graphql"];
    let (has_schema, reports) = reported(rt.alloc(), &paths).expect(&rt, "memory");
    assert!(rt; has_schema);
    assert_eq!(rt; reports.as_str(), FAULTS);
}

#[test]
fn with_a_file_refused_there_is_no_schema(rt: HostRuntime) {
    let paths = [
        "more.graphql",
        "open.graphql",
        "none.graphql",
        "bytes.graphql",
        "word.graphql",
    ];
    let (has_schema, reports) = reported(rt.alloc(), &paths).expect(&rt, "memory");
    assert!(rt; !has_schema);
    assert_eq!(rt; reports.as_str(), REFUSALS);
}

#[test]
fn a_document_is_typed_over_a_schema(rt: HostRuntime) {
    let (has_document, reports) = reported_document(rt.alloc(), &["page.graphql"]).expect(
        &rt, "memory",
    );
    assert!(rt; has_document);
    assert_eq!(rt; reports.as_str(), PAGE);
}

#[test]
fn with_a_file_refused_there_is_no_document(rt: HostRuntime) {
    let paths = [
        "open.graphql",
        "none.graphql",
        "bytes.graphql",
        "word.graphql",
    ];
    let (has_document, reports) = reported_document(rt.alloc(), &paths).expect(&rt, "memory");
    assert!(rt; !has_document);
    assert_eq!(rt; reports.as_str(), REFUSALS);
}
