//! What is read from lines: extensions as they stand, before a schema is built of them, and the locations of
//! nodes.

use bench_notation::documents::{read, read_divided};
use bench_notation::printing::print;
use bench_notation::refusal::ReadError;
use graphql_ast::definition::Definition;
use graphql_ast::document::Document;
use graphql_ast::type_system::{InputObjectTypeDefinition, SchemaDefinition};
use graphql_nodes::node::Node;
use graphql_nodes::source::SourceSpan;
use likeness::{is_printed, push_location};
use std::alloc::{AllocError, Global};
use std::process::Abort;

/// The prints of documents, parted as documents are.
fn printed(alloc: Global, documents: &[Document]) -> Result<String, AllocError> {
    let mut text = String::new(alloc);
    for document in documents {
        if !text.is_empty() {
            text.push_str("---\n")?;
        }
        let printed = print(alloc, document.definitions.as_slice())?;
        text.push_str(printed.as_str())?;
    }
    Ok(text)
}

/// The prints of the documents that a text says.
fn read_again(alloc: Global, input: &str) -> Result<String, ReadError> {
    let documents = read(alloc, input)?;
    Ok(printed(alloc, documents.as_slice())?)
}

/// The prints of the documents of both sorts that a text says, divided as they are.
fn divided_again(alloc: Global, input: &str) -> Result<String, ReadError> {
    let documents = read_divided(alloc, input)?;
    let mut text = printed(alloc, documents.schema.as_slice())?;
    text.push_str("===\n")?;
    let executable = printed(alloc, documents.executable.as_slice())?;
    text.push_str(executable.as_str())?;
    Ok(text)
}

/// Expects what is said of a text that is read, or that the error says so.
fn expect_told(rt: &(impl Abort + AllocGlobal), told: Result<String, ReadError>, wanted: &str) {
    match told {
        Ok(text) => assert_eq!(rt; text.as_str(), wanted),
        Err(error) => assert!(rt; is_printed(rt.alloc(), &error, wanted), "at {wanted}"),
    }
}

/// Documents of the schema, and executable ones, that are printed as they are read.
const SAME: [&str; 2] = [
    "ext scalar S\n@ d\n---\next interface I\nimplements J\nimplements J\nfield a Int\n---\next union U\nmember A\nmember A\n---\next enum E\nvalue true\n---\next input P\nfield a Int\n---\next object T\n@ d\nimplements I\nfield a Int\narg x Int\n---\nschema\n---\next-schema\n---\next-schema\n@ d\nroot query A\nroot query B\nroot query A\n---\nschema\nroot query query\next-schema\nroot mutation root\ndef object schema\nschema\n---\next-schema\nroot query A\nschema\n@ d\nroot query B\n",
    "operation query -\n@ d\nsel 0 field a\nsel 0 field a b\nsel 1 field c\nsel 2 spread F\nsel 2 inline T\nsel 3 field d\nsel 1 inline\nsel 2 spread G\nsel 0 spread F\n---\nfragment F T\n@ d\n@ d\nsel 0 field a\noperation subscription S\n---\nfragment G T\n",
];

#[test]
fn documents_of_both_sorts_are_printed_as_they_are_read(rt: HostRuntime) {
    for text in SAME {
        expect_told(&rt, read_again(rt.alloc(), text), text);
    }
}

/// Texts, and how the documents of each are printed and divided, or why it is refused.
const DIVIDED: &[(&str, &str)] = &[
    (
        "def object A\n---\n\n===\noperation query Q\nsel 0 field a\n---\n",
        "def object A\n---\n===\noperation query Q\nsel 0 field a\n---\n",
    ),
    ("def object T\n---\n", "missing ==="),
    ("===\n---\n=== x\n", "line 3: misplaced line"),
    ("=== x\n", "line 1: wrong number of words"),
    ("def object T\nfoo\n", "line 2: unknown line"),
];

#[test]
fn a_text_is_divided_once_into_schema_documents_and_executable_ones(rt: HostRuntime) {
    for (input, wanted) in DIVIDED {
        expect_told(&rt, divided_again(rt.alloc(), input), wanted);
    }
}

/// Adds the locations of a node and of its name.
fn push_both(
    text: &mut String,
    node: Option<SourceSpan>,
    name: Option<SourceSpan>,
) -> Result<(), AllocError> {
    push_location(text, node)?;
    push_location(text, name)
}

/// Adds the locations of an input object type, its name, its fields and their parts.
fn push_input_locations(
    text: &mut String,
    node: &Node<InputObjectTypeDefinition>,
) -> Result<(), AllocError> {
    push_both(text, node.location(), node.name.location())?;
    for field in node.fields.as_slice() {
        push_both(text, field.location(), field.name.location())?;
        push_location(text, field.ty.location())?;
    }
    Ok(())
}

/// Adds the locations of a schema definition, its directives and its roots.
fn push_schema_locations(
    text: &mut String,
    node: &Node<SchemaDefinition>,
) -> Result<(), AllocError> {
    push_location(text, node.location())?;
    for directive in node.directives.as_slice() {
        push_both(text, directive.location(), directive.name.location())?;
    }
    for root in node.root_operations.as_slice() {
        let (operation, name) = &**root;
        write!(text, "{operation} {name} ")?;
        push_both(text, root.location(), name.location())?;
    }
    Ok(())
}

/// The locations of what stands in the input object types and schema definitions that a text says.
fn located(alloc: Global, input: &str) -> Result<String, ReadError> {
    let documents = read(alloc, input)?;
    let mut text = String::new(alloc);
    for document in documents.as_slice() {
        for definition in document.definitions.as_slice() {
            match definition {
                Definition::InputObjectTypeDefinition(node) => {
                    push_input_locations(&mut text, node)?
                }
                Definition::SchemaDefinition(node) => push_schema_locations(&mut text, node)?,
                _ => {}
            }
        }
    }
    Ok(text)
}

#[test]
fn nodes_stand_at_their_lines(rt: HostRuntime) {
    let input = "\ndef input P\n\nfield a Int\n\nschema\n@ d\n\nroot mutation M";
    let wanted = "1:2 1:2 1:4 1:4 1:4 1:6 1:7 1:7 mutation M 1:9 1:9 ";
    expect_told(&rt, located(rt.alloc(), input), wanted);
}
