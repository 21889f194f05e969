//! Runs under keys that were drawn, beside the same under fixed ones, and the keys of what is built for a
//! run.

use crate::over_notation::running::ended;
use apollo_compiler::{CompileOptions, Compiled};
use gqltool_run::building::{build_input, compile_input};
use gqltool_run::document_building::compile_documents;
use gqltool_run::failure::Failure;
use gqltool_run::running::run_with_keys;
use graphql_nodes::collections::hash_keys::HashKeys;
use program_io::status::Status;
use std::alloc::Global;
use std::process::Abort;
use telling::keys::{is_document_keyed, is_schema_keyed};

/// Bytes that a system may have drawn.
const DRAWN: [u8; 16] = [
    201, 14, 3, 77, 250, 9, 130, 41, 5, 66, 187, 20, 99, 240, 8, 173,
];

/// How a run under drawn keys ends, and what it writes.
fn run_drawn(alloc: Global, words: &[&str], input: &str, output: &mut Vec<u8>) -> Status {
    let keys = HashKeys::from_bytes(DRAWN);
    let mut reader = input.as_bytes();
    let mut said = Vec::new(alloc);
    run_with_keys(alloc, keys, words, &mut reader, output, &mut said)
}

/// Expects a run to end so and to write something, and to do the same under drawn keys.
fn expect_same(rt: &(impl Abort + AllocGlobal), words: &[&str], input: &str, status: Status) {
    let mut fixed = Vec::new(rt.alloc());
    let mut said = Vec::new(rt.alloc());
    let mut reader = input.as_bytes();
    let ended = ended(rt.alloc(), words, &mut reader, &mut fixed, &mut said);
    assert_eq!(rt; ended, status);
    assert!(rt; !fixed.is_empty());
    let mut drawn = Vec::new(rt.alloc());
    let ended = run_drawn(rt.alloc(), words, input, &mut drawn);
    assert_eq!(rt; ended, status);
    assert_eq!(rt; drawn.as_slice(), fixed.as_slice());
}

/// Definitions of each kind, extensions on either side of them, and names that are there already.
const SCHEMA: &str =
    "ext object Query\nfield late Int\nfield node ID\ndirective key\non OBJECT\nschema\nroot query Query\nroot mutation Gone\ndef object Query\nfield node Node\nfield all [Hit]\nfield b Int\nfield c Int\nfield d Int\nfield e Int\nfield f Int\nfield g Int\nfield h Int\nfield i Int\ndef interface Node\nfield id ID!\ndef object User\nimplements Node\nfield id ID!\nfield id Int\nfield node Node\narg to Int\n---\ndef union Hit\nmember User\nmember Query\ndef enum Tone\nvalue LOW\nvalue HIGH\next enum Tone\nvalue MID\nvalue LOW\ndef input Filter\nfield tone Tone\ndef scalar Date\next object User\n@ key\nfield since Date\next object Left\nfield over Int\next-schema\nroot query Query\n";

#[test]
fn schemas_are_written_the_same_under_any_keys(rt: HostRuntime) {
    expect_same(&rt, &["schema"], SCHEMA, Status::Faults);
    expect_same(&rt, &["schema", "--adopt"], SCHEMA, Status::Faults);
    expect_same(&rt, &["coord", "User.node(to:)"], SCHEMA, Status::Faults);
}

/// Operations and fragments behind a schema, which lead to one another, with names that are there already and
/// a field that lacks subselections.
const DIVIDED: &str =
    "def object Query\nfield a Int\nfield b Query\n===\noperation query One\nsel 0 field b\nsel 1 spread F\nsel 1 field a first\nsel 1 field gone\noperation query Two\nsel 0 spread G\nsel 0 spread F\n---\noperation query One\nfragment F Query\nsel 0 field a\nsel 0 field b\nsel 1 spread G\nfragment G Query\nsel 0 inline Query\nsel 1 field b\nsel 2 spread F\nfragment H Query\nsel 0 field a\nsel 0 field b\nfragment G Query\nsel 0 spread H\n";

#[test]
fn documents_walks_and_leaf_faults_are_written_the_same_under_any_keys(rt: HostRuntime) {
    expect_same(&rt, &["doc"], DIVIDED, Status::Faults);
    expect_same(&rt, &["walk"], DIVIDED, Status::Faults);
    expect_same(&rt, &["leaf"], DIVIDED, Status::Faults);
}

/// Whether the schema that an input builds hashes by the keys that the call is handed.
fn is_built_keyed(alloc: Global, input: &str) -> bool {
    let keys = HashKeys::from_bytes(DRAWN);
    match build_input(alloc, keys, CompileOptions::none(), input) {
        Ok((schema, _)) => is_schema_keyed(&schema, keys),
        Err(_) => false,
    }
}

/// Whether both schemas and the document of what was compiled hash by these keys.
fn is_compiled_keyed(compiled: Result<Compiled, Failure>, keys: HashKeys) -> bool {
    match compiled {
        Ok(compiled) => {
            is_schema_keyed(&compiled.schema, keys)
                && is_schema_keyed(&compiled.rebuilt, keys)
                && is_document_keyed(&compiled.document, keys)
        }
        Err(_) => false,
    }
}

#[test]
fn what_an_input_builds_hashes_by_the_keys_handed_in(rt: HostRuntime) {
    let keys = HashKeys::from_bytes(DRAWN);
    assert!(rt; is_built_keyed(rt.alloc(), SCHEMA));
    let compiled = compile_input(rt.alloc(), keys, CompileOptions::none(), SCHEMA);
    assert!(rt; is_compiled_keyed(compiled, keys));
    let compiled = compile_documents(rt.alloc(), keys, DIVIDED);
    assert!(rt; is_compiled_keyed(compiled, keys));
}
