//! What documents are compiled to, looked at part by part.

use crate::compilation::compiling::{PLAIN, TYPING, expect_told};
use apollo_compiler::{
    Compiled, Definition, HashKeys, build_executable_document, build_schema, compile,
    compile_with_keys,
};
use bench_notation::documents::read_divided;
use bench_notation::refusal::ReadError;
use std::alloc::{AllocError, Global};
use std::process::Abort;
use std::test::Fail;
use telling::Tell;

/// Adds definitions and the faults beside them, each with its locations.
fn push_part<F: Tell>(
    text: &mut String,
    title: &str,
    definitions: &[Definition],
    faults: &[F],
) -> Result<(), AllocError> {
    write!(text, "{title}\n")?;
    definitions.tell(text)?;
    faults.tell(text)
}

/// Adds each part of what documents are compiled to.
fn push_parts(text: &mut String, compiled: &Compiled) -> Result<(), AllocError> {
    let (ast, faults) = (&compiled.ast, &compiled.schema_faults);
    push_part(text, "schema", ast.as_slice(), faults.as_slice())?;
    let (ast, faults) = (&compiled.rebuilt_ast, &compiled.rebuilt_faults);
    push_part(text, "rebuilt", ast.as_slice(), faults.as_slice())?;
    let (ast, faults) = (&compiled.erased.definitions, &compiled.document_faults);
    push_part(text, "document", ast.as_slice(), faults.as_slice())?;
    compiled.document.tell(text)?;
    compiled.rebuilt.schema_definition.tell(text)?;
    let is_equal = compiled.rebuilt == compiled.schema;
    write!(text, "equal: {is_equal}\n")
}

/// What the parts are of what an input says behind and before its division, compiled under fixed keys, or
/// under other ones.
fn told(
    alloc: Global,
    keys: Option<HashKeys>,
    input: &str,
    type_system_definitions_are_errors: bool,
) -> Result<String, ReadError> {
    let documents = read_divided(alloc, input)?;
    let (schema, queries) = (documents.schema.as_slice(), documents.executable.as_slice());
    let are_errors = type_system_definitions_are_errors;
    let compiled = match keys {
        Some(keys) => compile_with_keys(alloc, keys, PLAIN, schema, queries, are_errors),
        None => compile(alloc, PLAIN, schema, queries, are_errors),
    };
    let mut text = String::new(alloc);
    match compiled {
        Ok(compiled) => push_parts(&mut text, &compiled)?,
        Err(error) => write!(&mut text, "{error}\n")?,
    }
    Ok(text)
}

/// An implied definition of the schema, and schema extensions of which one names a root.
const IMPLIED: &str =
    "def object Query\nfield a Int\next-schema\n@ d\next-schema\nroot mutation M\ndef object M\n===\n";

#[test]
fn an_implied_definition_is_written_for_its_extensions(rt: HostRuntime) {
    expect_told(
        &rt,
        told(rt.alloc(), None, IMPLIED, true),
        "schema\n- schema - query Query - \n1:3 ext-schema 1:4 @ d 1:4 \n1:5 ext-schema 1:6 mutation M 1:6 \n1:1 def Object Query 1:1 ( 1:2 a 1:2 Int 1:2 ) \n1:7 def Object M 1:7 \nrebuilt\n- schema - query Query - \n1:3 ext-schema 1:4 @ d 1:4 \n1:5 ext-schema 1:6 mutation M 1:6 \n1:1 def Object Query 1:1 ( 1:2 a 1:2 Int 1:2 ) \n1:7 def Object M 1:7 \ndocument\n- schema \nextension 0 of 1:3 1:4 @ d 1:4 \nquery definition Query - \nmutation extension 1 of 1:5 M 1:6 \nequal: true\n",
    );
}

#[test]
fn a_schema_definition_without_a_root_is_rebuilt_with_one(rt: HostRuntime) {
    let input = "schema\n@ d\ndirective d\non SCHEMA\ndef object Query\nfield a Int\n===\n";
    expect_told(
        &rt,
        told(rt.alloc(), None, input, true),
        "schema\n1:3 directive d 1:3 false [Schema]\n1:5 def Object Query 1:5 ( 1:6 a 1:6 Int 1:6 ) \nrebuilt\n1:3 directive d 1:3 false [Schema]\n1:5 def Object Query 1:5 ( 1:6 a 1:6 Int 1:6 ) \ndocument\n- schema \nquery definition Query - \nequal: false\n",
    );
}

/// A schema with a fault, and documents of which one has a fault, a definition of the type system, and a
/// field of no type.
const FAULTY: &str =
    "def object Query\nfield a Int\nfield a Int\n===\noperation query Q\nsel 0 field a\nsel 0 field gone\n---\ndef object T\n";

/// Expects the parts of that under these keys, where definitions of the type system are errors.
fn expect_faulty(rt: &(impl Abort + AllocGlobal), keys: Option<HashKeys>) {
    expect_told(
        rt,
        told(rt.alloc(), keys, FAULTY, true),
        "schema\n1:1 def Object Query 1:1 ( 1:2 a 1:2 Int 1:2 ) \n1:3 duplicate definitions for the `a` field of object type `Query`; 1:2 1:1 \nrebuilt\n1:1 def Object Query 1:1 ( 1:2 a 1:2 Int 1:2 ) \ndocument\n1:5 query Q 1:5 { 1:6 a 1:6 { } }\n1:7 type `Query` does not have a field `gone`; 1:1 1:7 (query Q → gone)\n1:9 an executable document must not contain an object type definition; T 1:9 \nQ 1:5 1:5 query Q 1:5 -> Query - { 1:6 a 1:6 is 1:2 a 1:2 Int 1:2 -> Int 1:2 { } } \n- schema \nquery definition Query - \nequal: true\n",
    );
}

#[test]
fn each_build_has_its_faults_and_the_flag_counts(rt: HostRuntime) {
    expect_faulty(&rt, None);
    expect_told(
        &rt,
        told(rt.alloc(), None, FAULTY, false),
        "schema\n1:1 def Object Query 1:1 ( 1:2 a 1:2 Int 1:2 ) \n1:3 duplicate definitions for the `a` field of object type `Query`; 1:2 1:1 \nrebuilt\n1:1 def Object Query 1:1 ( 1:2 a 1:2 Int 1:2 ) \ndocument\n1:5 query Q 1:5 { 1:6 a 1:6 { } }\n1:7 type `Query` does not have a field `gone`; 1:1 1:7 (query Q → gone)\nQ 1:5 1:5 query Q 1:5 -> Query - { 1:6 a 1:6 is 1:2 a 1:2 Int 1:2 -> Int 1:2 { } } \n- schema \nquery definition Query - \nequal: true\n",
    );
}

/// The two builds of an input, each by its own call, written as those of [`told`].
fn told_of_builds(alloc: Global, input: &str) -> Result<String, Fail> {
    let mut text = String::new(alloc);
    let documents = read_divided(alloc, input)?;
    let (schema, faults) = build_schema(
        alloc,
        HashKeys::FIXED,
        PLAIN,
        documents.schema.as_slice(),
    )?;
    let ast = schema.to_ast(alloc)?;
    push_part(&mut text, "schema", ast.as_slice(), faults.as_slice())?;
    let queries = documents.executable.as_slice();
    let (document, faults) = build_executable_document(alloc, &schema, TYPING, queries)?;
    let erased = document.to_ast(alloc)?;
    let definitions = erased.definitions.as_slice();
    push_part(&mut text, "document", definitions, faults.as_slice())?;
    Ok(text)
}

#[test]
fn each_build_has_a_call_of_its_own(rt: HostRuntime) -> Result<(), Fail> {
    let text = told_of_builds(rt.alloc(), FAULTY)?;
    assert_eq!(rt;
        text.as_str(),
        "schema\n1:1 def Object Query 1:1 ( 1:2 a 1:2 Int 1:2 ) \n1:3 duplicate definitions for the `a` field of object type `Query`; 1:2 1:1 \ndocument\n1:5 query Q 1:5 { 1:6 a 1:6 { } }\n1:7 type `Query` does not have a field `gone`; 1:1 1:7 (query Q → gone)\n1:9 an executable document must not contain an object type definition; T 1:9 \n"
    );
    Ok(())
}

/// Bytes that a system may have drawn.
const DRAWN: [u8; 16] = [9, 7, 250, 3, 4, 95, 6, 7, 180, 9, 10, 11, 112, 13, 214, 15];

#[test]
fn other_keys_change_nothing(rt: HostRuntime) {
    expect_faulty(&rt, Some(HashKeys::from_bytes(DRAWN)));
}
