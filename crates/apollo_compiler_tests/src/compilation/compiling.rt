//! What is said of what documents are compiled to. One function owns what is compiled, which is dear to
//! prove.

use apollo_compiler::{CompileOptions, Compiled, Document, ExecutableOptions, compile};
use bench_notation::documents::read;
use bench_notation::printing::print;
use bench_notation::refusal::ReadError;
use likeness::both;
use std::alloc::{AllocError, Global};
use std::process::Abort;
use std::slice;
use telling::Tell;

/// What is said of a rebuild without fault, of an equal schema with the same write-out.
pub const EQUAL: &str = "no fault: true\nequal: true\nsame definitions: true\nsame text: true\n";

pub const PLAIN: CompileOptions = CompileOptions {
    adopt_orphan_extensions: false,
    ignore_builtin_redefinitions: false,
};

/// A definition of the type system in an executable document is a fault.
pub const TYPING: ExecutableOptions = ExecutableOptions {
    type_system_definitions_are_errors: true,
};

/// Adds the write-out, and then whether there is no fault in the rebuild, and what is the same in it.
fn push_schema(alloc: Global, text: &mut String, compiled: &Compiled) -> Result<(), AllocError> {
    let printed = print(alloc, compiled.ast.as_slice())?;
    let rebuilt = print(alloc, compiled.rebuilt_ast.as_slice())?;
    let is_faultless = compiled.rebuilt_faults.is_empty();
    let is_equal = compiled.rebuilt == compiled.schema;
    let is_same = compiled.rebuilt_ast == compiled.ast;
    let is_printed_so = rebuilt.as_str() == printed.as_str();
    text.push_str(printed.as_str())?;
    write!(text, "no fault: {is_faultless}\nequal: {is_equal}\n")?;
    write!(
        text,
        "same definitions: {is_same}\nsame text: {is_printed_so}\n"
    )
}

/// Adds whether the executable documents are without fault and equal to the first of them. Adds the typed
/// document, each field with its definition, that with its directives.
fn push_document(
    text: &mut String,
    compiled: &Compiled,
    document: &Document,
) -> Result<(), AllocError> {
    let is_faultless = compiled.document_faults.is_empty();
    let is_kept = compiled.erased == *document;
    write!(text, "no fault: {is_faultless}, equal: {is_kept}\n")?;
    compiled.document.tell(text)
}

/// What is said of documents of both sorts, or the error.
pub fn told(
    alloc: Global,
    options: CompileOptions,
    schema: &[Document],
    documents: &[Document],
) -> Result<String, AllocError> {
    let mut text = String::new(alloc);
    match compile(alloc, options, schema, documents, true) {
        Ok(compiled) => {
            push_schema(alloc, &mut text, &compiled)?;
            if let Some(document) = documents.first() {
                push_document(&mut text, &compiled, document)?;
            }
        }
        Err(error) => write!(&mut text, "{error}\n")?,
    }
    Ok(text)
}

/// What is said of the documents of the type system that a text says.
pub fn told_of(alloc: Global, options: CompileOptions, input: &str) -> Result<String, ReadError> {
    let documents = read(alloc, input)?;
    Ok(told(alloc, options, documents.as_slice(), &[])?)
}

/// What is said of one document of each sort, if there was memory for both.
pub fn told_of_both(
    alloc: Global,
    schema: Result<Document, AllocError>,
    document: Result<Document, AllocError>,
) -> Result<String, ReadError> {
    let (schema, document) = both(schema, document)?;
    let documents = slice::from_ref(&document);
    Ok(told(alloc, PLAIN, slice::from_ref(&schema), documents)?)
}

/// Expects this text, if there was one to be read and memory for it.
pub fn expect_told(rt: &impl Abort, told: Result<String, ReadError>, wanted: &str) {
    match told {
        Ok(text) => assert_eq!(rt; text.as_str(), wanted),
        Err(error) => assert!(rt; false, "{error}"),
    }
}
