//! Whether what documents are compiled to is rebuilt without fault, equal and written out the same.

use crate::compilation::compiling::{EQUAL, PLAIN, told_of};
use apollo_compiler::CompileOptions;
use bench_notation::refusal::ReadError;
use std::alloc::{AllocError, Global};
use std::process::Abort;

const ADOPTING: CompileOptions = CompileOptions {
    adopt_orphan_extensions: true,
    ..PLAIN
};

const IGNORING: CompileOptions = CompileOptions {
    ignore_builtin_redefinitions: true,
    ..PLAIN
};

const BOTH: CompileOptions = CompileOptions {
    adopt_orphan_extensions: true,
    ..IGNORING
};

/// Expects each input's write-out to build an equal schema, without fault, with the same write-out.
fn expect_each(rt: &(impl Abort + AllocGlobal), options: CompileOptions, inputs: &[(&str, &str)]) {
    for (title, input) in inputs {
        match told_of(rt.alloc(), options, *input) {
            Ok(text) => assert!(rt; text.as_str().ends_with(EQUAL), "{title}: {text}"),
            Err(error) => assert!(rt; false, "{title}: {error}"),
        }
    }
}

/// Inputs that are built without adoption, each with what it shows.
const BUILT_PLAINLY: [(&str, &str); 23] = [
    ("nothing", ""),
    (
        "extensions around their definition, one of them with a name alone",
        "ext object Query\nfield b Int\ndef object Query\nfield a Int\next object Query\nimplements N",
    ),
    (
        "the extensions behind it, the one with a name alone first",
        "def object Query\nfield a Int\next object Query\nimplements N\next object Query\nfield b Int",
    ),
    (
        "extensions with directives, names and fields, and a field with a directive and an argument",
        "ext object Query\nfield withArg String\nfield@ deprecated\narg arg Boolean\ndef object Query\nfield int Int\next object Query\nimplements Inter\ndef interface Inter\nfield string String\next object Query\n@ customDirective\next object Query\nfield string String\ndirective customDirective\non OBJECT",
    ),
    (
        "a field of an early extension that the definition has",
        "ext object T\nfield a Int\ndef object T\nfield a String",
    ),
    (
        "an early extension of another kind",
        "ext enum T\nvalue A\ndef object T\nfield x Int",
    ),
    (
        "an extension of a built-in type",
        "directive d\non SCALAR\next scalar String\n@ d",
    ),
    (
        "a built-in directive that is replaced, and defined again",
        "directive z\non OBJECT\ndirective deprecated\non OBJECT\ndirective deprecated\non SCALAR",
    ),
    (
        "built-in scalars that are defined again",
        "def scalar String\ndef scalar Int\ndef scalar Float\ndef scalar Boolean\ndef scalar ID\ndef object Query\nfield foo String",
    ),
    ("a schema extension alone", "ext-schema\n@ d"),
    (
        "a schema extension of an implied definition",
        "ext-schema\n@ d\ndef object Query\nfield a Int",
    ),
    (
        "six faults on one type, and an extension of no type",
        "ext object T\nimplements I\nfield a Int\next enum T\nvalue X\ndef object T\nimplements I\nimplements I\nfield a String\nfield a Int\ndef interface T\next object T\nfield a ID\next union U\nmember T",
    ),
    (
        "an implied definition, and schema extensions of which one names a root",
        "def object Query\nfield a Int\next-schema\n@ d\next-schema\nroot mutation M\ndef object M",
    ),
    (
        "an argument, an enum and a union of nothing",
        "def object Query\nfield f Int\narg a Int\ndef enum E\nvalue A\ndef union U",
    ),
    (
        "an interface of an interface, and a union of a type that is not defined",
        "def interface Foo\nfield me String\ndef interface Bar\nimplements Foo\nfield me String\ndef object Obj\nimplements Bar\nfield me String\ndef union U\nmember Obj\nmember Gone",
    ),
    ("a type of one field", "def object Query\nfield a Int"),
    (
        "a type of two fields",
        "def object Query\nfield a Int\nfield b Int",
    ),
    (
        "a type of three fields",
        "def object Query\nfield a Int\nfield b Int\nfield c Int",
    ),
    (
        "a type with an extension",
        "def object T\next object T\nfield a Int",
    ),
    (
        "a type with two extensions",
        "def object T\next object T\nfield a Int\next object T\nfield b Int",
    ),
    (
        "a field of a scalar type with an argument",
        "def object Query\ndef object User\nfield id ID\nfield name String\nfield profilePic URL\narg size Int\ndef scalar URL",
    ),
    (
        "two types without extensions",
        "def object Query\nfield id ID\nfield user User\ndef object User\nfield id ID",
    ),
    (
        "built-in types that are defined again and extended, and a built-in directive that is replaced",
        "def object __Schema\ndef object String\ndef scalar Int\next object __Type\nfield extra Int\nfield name Int\next object ID\ndirective skip\non FIELD",
    ),
];

#[test]
fn plain_builds_are_rebuilt_equal(rt: HostRuntime) {
    expect_each(&rt, PLAIN, &BUILT_PLAINLY);
}

/// Inputs that are built with adoption, each with what it shows.
const BUILT_WITH_ADOPTION: [(&str, &str); 8] = [
    (
        "extensions of two kinds and one name",
        "ext object T\n@ dir\next interface T\n@ dir\ndirective dir\nrepeatable\non SCHEMA\non OBJECT",
    ),
    (
        "a schema extension of a definition with the default roots",
        "directive something\non SCHEMA\next-schema\n@ something\ndef object Query\nfield field Int",
    ),
    (
        "a schema extension that names a root, and a type with the default name of another",
        "ext-schema\nroot query Query\ndef object Query\nfield viruses [Virus]\ndef object Virus\nfield mutations [Mutation]\ndef object Mutation\nfield something String",
    ),
    (
        "adopted types with default names of roots",
        "ext object Query\nfield foo String\next object Mutation\nfield bar String",
    ),
    (
        "schema extensions before their definition, which drops a root of theirs",
        "ext-schema\nroot query Query\next-schema\nroot subscription S\nschema\nroot mutation Mutation\nroot query AnotherQuery\ndef object Query\ndef object Mutation\ndef object S\ndef object AnotherQuery",
    ),
    (
        "extensions alone, of the schema and of two types",
        "ext-schema\n@ d\nroot query A\next-schema\nroot query B\next interface B\nfield x Int\next object A\nfield y Int",
    ),
    (
        "a schema extension without a root, and no type",
        "ext-schema\n@ d",
    ),
    ("an extension with nothing in it", "ext object T"),
];

#[test]
fn adopting_builds_are_rebuilt_equal(rt: HostRuntime) {
    expect_each(&rt, ADOPTING, &BUILT_WITH_ADOPTION);
    // The same without adoption.
    expect_each(&rt, PLAIN, &BUILT_WITH_ADOPTION);
}

#[test]
fn with_ignored_built_in_types_builds_are_rebuilt_equal(rt: HostRuntime) {
    expect_each(&rt, IGNORING, &BUILT_PLAINLY);
    expect_each(&rt, BOTH, &BUILT_PLAINLY);
}

/// How many extensions there are of one type.
const EXTENSIONS: u32 = 2000;

/// Adds extensions that give the field `f` of their number each, in order, all but the last one.
fn push_extensions(text: &mut String) -> Result<(), AllocError> {
    for number in 1..EXTENSIONS {
        write!(text, "ext object T\nfield f{number} Int\n")?;
    }
    Ok(())
}

/// The definition and its extensions, of which the last one has a directive too, and stands last or first.
fn extended(alloc: Global, is_last: bool) -> Result<String, AllocError> {
    let mut text = String::new(alloc);
    text.push_str("def object T\n")?;
    if is_last {
        push_extensions(&mut text)?;
    }
    write!(&mut text, "ext object T\n@ d\nfield f{EXTENSIONS} Int\n")?;
    if !is_last {
        push_extensions(&mut text)?;
    }
    Ok(text)
}

/// Whether the last extension comes first in the write-out, and that is rebuilt equal.
fn is_last_put_first(alloc: Global) -> Result<bool, ReadError> {
    let input = extended(alloc, true)?;
    let told = told_of(alloc, PLAIN, input.as_str())?;
    let written = extended(alloc, false)?;
    Ok(told.as_str().strip_suffix(EQUAL) == Some(written.as_str()))
}

#[test]
fn a_directive_puts_the_last_of_many_extensions_first(rt: HostRuntime) {
    assert!(rt; is_last_put_first(rt.alloc()) == Ok(true));
}
