//! The keys that the tables of what is built and compiled hash by.

use crate::compilation::compiling::PLAIN;
use apollo_compiler::{CompileOptions, Document, HashKeys, build_schema, compile_with_keys};
use bench_notation::documents::read_divided;
use bench_notation::refusal::ReadError;
use graphql_nodes::collections::shared::Shared;
use graphql_nodes::source::{FileId, SourceFile};
use std::alloc::{AllocError, Global};
use std::slice;
use telling::keys::{is_document_keyed, is_schema_keyed};

/// Bytes that a system may have drawn.
const DRAWN: [u8; 16] = [17, 7, 250, 3, 4, 95, 6, 7, 180, 9, 10, 11, 112, 13, 214, 15];

const ADOPTING: CompileOptions = CompileOptions {
    adopt_orphan_extensions: true,
    ignore_builtin_redefinitions: true,
};

/// Definitions of each kind, one with more fields than a table first has room for, and extensions before
/// their definition, behind it, and without one. Behind the division operations and a fragment.
const INPUT: &str =
    "ext object Query\nfield late Int\ndef object Query\nfield node Node\nimplements Node\ndef interface Node\nfield id ID!\nimplements Node\ndef union Hit\nmember Query\ndef enum Tone\nvalue LOW\next enum Tone\nvalue HIGH\ndef input Wide\nfield a Int\nfield b Int\nfield c Int\nfield d Int\nfield e Int\nfield f Int\nfield g Int\nfield h Int\nfield i Int\nfield j Int\ndef scalar Date\ndirective key\non OBJECT\next object Left\nfield over Int\next enum Gone\nvalue A\n===\noperation query One\nsel 0 field late\nsel 0 spread F\noperation query Two\nsel 0 field late\nfragment F Query\nsel 0 field node\nsel 1 field id\n";

/// Whether the schema that the documents build hashes by the keys that the call is handed.
fn is_built_keyed(alloc: Global, options: CompileOptions, documents: &[Document]) -> bool {
    let keys = HashKeys::from_bytes(DRAWN);
    match build_schema(alloc, keys, options, documents) {
        Ok((schema, _)) => is_schema_keyed(&schema, keys),
        Err(_) => false,
    }
}

/// Which of all that is built and compiled hash by these keys. That is the schema that is built, the one that
/// is compiled, the one that is rebuilt, and the typed document.
fn keyed_parts(
    alloc: Global,
    options: CompileOptions,
    schema: &[Document],
    executable: &[Document],
) -> [bool; 4] {
    let keys = HashKeys::from_bytes(DRAWN);
    match compile_with_keys(alloc, keys, options, schema, executable, true) {
        Ok(compiled) => [
            is_built_keyed(alloc, options, schema),
            is_schema_keyed(&compiled.schema, keys),
            is_schema_keyed(&compiled.rebuilt, keys),
            is_document_keyed(&compiled.document, keys),
        ],
        Err(_) => [false; 4],
    }
}

/// Which of these of the input do.
fn keyed_parts_of_input(alloc: Global, options: CompileOptions) -> Result<[bool; 4], ReadError> {
    let documents = read_divided(alloc, INPUT)?;
    let (schema, executable) = (documents.schema.as_slice(), documents.executable.as_slice());
    Ok(keyed_parts(alloc, options, schema, executable))
}

/// Which of these of a document of one file, without definitions, do.
fn keyed_parts_of_file(alloc: Global) -> Result<[bool; 4], AllocError> {
    let file = SourceFile::new(alloc, "a.graphql", "")?;
    let mut document = Document::new(alloc);
    document
        .sources
        .insert(FileId(3), Shared::new(alloc, file)?)?;
    let documents = slice::from_ref(&document);
    Ok(keyed_parts(alloc, PLAIN, documents, documents))
}

#[test]
fn all_that_is_built_and_compiled_and_its_sources_hash_by_the_keys_handed_in(rt: HostRuntime) {
    assert!(rt; keyed_parts_of_input(rt.alloc(), PLAIN) == Ok([true; 4]));
    assert!(rt; keyed_parts_of_input(rt.alloc(), ADOPTING) == Ok([true; 4]));
    assert!(rt; keyed_parts_of_file(rt.alloc()) == Ok([true; 4]));
}
