//! GraphQL text that is read, GraphQL text that is refused, and documents that are printed as GraphQL text.

use crate::stop::{Stop, Told, tell_line};
use apollo_compiler::text::{
    ParseError, ParseErrorKind, ParseOptions, document_text, parse_document, parse_selections,
    parse_type, parse_value,
};
use apollo_compiler::{Document, FileId, SourceFile};
use graphql_nodes::collections::shared::Shared;
use std::alloc::Global;
use telling::Tell;

/// Each definition of the type system, with each part that it may have.
const TYPE_SYSTEM: &str = "\
\"s\" schema @d(x: 1) { query: Query mutation: M }
\"\"\"
  in lines
    that \\\"\"\" go on
\"\"\" scalar Date @d
\"o\" type Query implements & Node & Named @d { \"f\" f(\"a\" a: [[Int!]!] = [[1] []] @d): String! @d g: ID }
\"i\" interface Node implements Named @d { f: Int }
\"u\" union Hit @d = | Query | M
\"e\" enum Tone @d { \"v\" LOW @d HIGH }
\"n\" input Filter @d { \"f\" tone: Tone = LOW @d }
\"d\" directive @d(\"x\" x: Int = 0 @e) repeatable on | SCHEMA | FIELD
";

/// Each extension, with each part that it may have.
const EXTENSIONS: &str = "\
extend schema @d { subscription: S }
extend scalar Date @d
extend type Query implements Other @d { more: Int }
extend interface Node implements Other @d { more: Int }
extend union Hit @d = Other
extend enum Tone @d { MID }
extend input Filter @d { date: Date }
";

/// Each operation and a fragment, with each part that they may have, and each sort of selection and value.
const EXECUTABLE: &str = "\
query Q($a: Int = 1 @d, $b: [ID!]!) @d { b: a(x: $a) @d { ... on T @d { c } ... @d { c } ... { c } ...F @d } }
mutation {
  a(v: [-1 2.5e-3 \"\\\"\\u00e9\\u{1f600}\\ud83d\\ude00\\n\" \"\"\"b\"\"\" true false null RED [] {} {x: 1 y: {z: 2}}])
}
subscription S { a }
fragment F on T @d { a }
";

/// Documents, and texts that are none, for each cause.
static DOCUMENTS: [&str; 13] = [
    TYPE_SYSTEM,
    EXTENSIONS,
    EXECUTABLE,
    "{ a }",
    "{ a \u{e9} }",
    "{ a # \u{7}",
    "{ a(b: \"c",
    "\"d\" scalar S @d(a: \"\\x\")",
    "{ a(b: 01) }",
    "\"d\" type T { f(a: Int) Int }",
    "fragment on on T { a }",
    "\"d\" directive @d on FIELD | NOWHERE",
    "\"d\" query { a }",
];

/// Documents with all that can be printed.
static PRINTED: [&str; 3] = [TYPE_SYSTEM, EXTENSIONS, EXECUTABLE];

static SELECTIONS: [&str; 4] = [
    "id organization { id }",
    "{ id organization { id } }",
    "{ a } b",
    "a(b: [$c",
];

static TYPES: [&str; 5] = ["T", "T!", "[[T!]]!", "[T", "[T] \"b\""];

static VALUES: [&str; 8] = [
    "[1 2.5 A true null]",
    "{a: {b: []} c: {}}",
    "\"a\\tb\"",
    "\"\"\"\n  a\n    b\n\"\"\"",
    "\"\"",
    "[{a: $b}]",
    "{a: $}",
    "1 2",
];

/// The call that a text is read by.
#[derive(Clone, Copy)]
pub enum Form {
    /// `parse_document`.
    Document,
    /// `parse_selections`.
    Selections,
    /// `parse_type`.
    Type,
    /// `parse_value`.
    Value,
}

impl Form {
    fn texts(self) -> &'static [&'static str] {
        match self {
            Form::Document => &DOCUMENTS,
            Form::Selections => &SELECTIONS,
            Form::Type => &TYPES,
            Form::Value => &VALUES,
        }
    }
}

/// The number of the files that are read.
const FILE: FileId = FileId(7);

/// The document of a file of this text.
fn document(alloc: Global, input: &str) -> Result<Document, ParseError> {
    let source = Shared::new(alloc, SourceFile::new(alloc, "a.graphql", input)?)?;
    parse_document(alloc, FILE, &source, ParseOptions::new())
}

/// Tells what a text is read as, or why it is refused.
fn tell_read<T: Tell + Drop>(text: &mut String, read: Result<T, ParseError>) -> Told {
    match read {
        Ok(read) => tell_line(text, Ok(read)),
        Err(error) if error.kind == ParseErrorKind::Memory => Err(Stop::Memory),
        Err(error) => Ok(write!(text, "{error} {error:?}\n")?),
    }
}

fn read_as(alloc: Global, text: &mut String, input: &str, form: Form) -> Told {
    let options = ParseOptions::new();
    match form {
        Form::Document => tell_read(text, document(alloc, input)),
        Form::Selections => tell_read(text, parse_selections(alloc, FILE, input, options)),
        Form::Type => tell_read(text, parse_type(alloc, FILE, input, options)),
        Form::Value => tell_read(text, parse_value(alloc, FILE, input, options)),
    }
}

/// Reads each text of a form.
pub fn read_all(alloc: Global, text: &mut String, form: Form) -> Told {
    for input in form.texts() {
        read_as(alloc, text, *input, form)?;
    }
    Ok(())
}

/// Tells what a document that was read is printed as.
fn tell_printed(alloc: Global, text: &mut String, read: Result<Document, ParseError>) -> Told {
    match read {
        Ok(document) => {
            let printed = document_text(alloc, &document)?;
            Ok(write!(text, "{printed}\n")?)
        }
        Err(error) if error.kind == ParseErrorKind::Memory => Err(Stop::Memory),
        Err(error) => Ok(write!(text, "{error}\n")?),
    }
}

/// Reads each document that is printed, and prints it.
pub fn print_all(alloc: Global, text: &mut String) -> Told {
    for input in &PRINTED {
        tell_printed(alloc, text, document(alloc, *input))?;
    }
    Ok(())
}
