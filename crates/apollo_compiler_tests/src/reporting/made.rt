//! What is reported of texts.

use apollo_compiler::schema::Schema;
use apollo_compiler::text::{ParseOptions, parse_document};
use apollo_compiler::{
    CompileOptions, Document, ExecutableDocument, ExecutableOptions, FileId, HashKeys, SourceFile,
    SourceMap, SourceSpan, build_executable_document, build_schema,
};
use apollo_reporting::fault_json::to_json;
use apollo_reporting::report::report_text;
use apollo_reporting::reported::Reported;
use apollo_reporting::source_lines::SourceLines;
use apollo_reporting::sources::Sources;
use graphql_nodes::collections::shared::Shared;
use graphql_nodes::collections::table::Table;
use leafcheck::{LeafFault, leaf_faults};
use std::alloc::{AllocError, Global};
use std::slice;

/// The schema of documents.
static STORE: &str =
    "type Query { book: Book }\ntype Book { title: String sort: Sort }\nenum Sort { A }";

/// The options that every build has.
const PLAIN: CompileOptions = CompileOptions {
    adopt_orphan_extensions: false,
    ignore_builtin_redefinitions: false,
};

const TYPING: ExecutableOptions = ExecutableOptions {
    type_system_definitions_are_errors: true,
};

/// The limits that texts to be refused have.
const LIMITS: ParseOptions = ParseOptions {
    max_depth: 3,
    max_tokens: 12,
};

/// How a fault is reported.
#[derive(Clone, Copy)]
pub(crate) enum Form {
    Text,
    Json,
}

/// What is reported of a fault.
pub(crate) fn reported<S: Sources, E: Reported>(
    alloc: Global,
    form: Form,
    sources: &S,
    location: Option<SourceSpan>,
    fault: &E,
) -> Result<String, AllocError> {
    match form {
        Form::Text => report_text(alloc, sources, location, fault),
        Form::Json => to_json(alloc, sources, location, fault),
    }
}

/// What is reported of faults, one behind the other.
fn all_reported<E: Reported>(
    alloc: Global,
    form: Form,
    sources: &SourceMap,
    faults: &[(Option<SourceSpan>, E)],
) -> Result<String, AllocError> {
    let lines = SourceLines::new(alloc, sources)?;
    let mut text = String::new(alloc);
    for fault in faults {
        text.push_str(reported(alloc, form, &lines, fault.0, &fault.1)?.as_str())?;
    }
    Ok(text)
}

/// A file of this text.
fn file(alloc: Global, path: &str, text: &str) -> Result<Shared<SourceFile>, AllocError> {
    let file = SourceFile::new(alloc, path, text)?;
    Ok(Shared::new(alloc, file)?)
}

/// Sources whose one file, that of the number 7, has this text.
pub(crate) fn sources_of(alloc: Global, path: &str, text: &str) -> Result<SourceMap, AllocError> {
    let mut sources = Table::new(alloc);
    sources.insert(FileId(7), file(alloc, path, text)?)?;
    Ok(sources)
}

/// The document of a text, that of the file of this number.
pub(crate) fn read(alloc: Global, number: FileId, path: &str, text: &str) -> Option<Document> {
    let source = file(alloc, path, text).ok()?;
    parse_document(alloc, number, &source, ParseOptions::new()).ok()
}

/// What is reported of the refusal of a text.
pub(crate) fn reported_of_text(alloc: Global, form: Form, text: &str) -> Option<String> {
    let source = file(alloc, "refused.graphql", text).ok()?;
    let Err(error) = parse_document(alloc, FileId(7), &source, LIMITS) else {
        return None;
    };
    let sources = sources_of(alloc, "refused.graphql", text).ok()?;
    reported(alloc, form, &sources, Some(error.location), &error).ok()
}

/// What is reported of the faults of a schema.
pub(crate) fn reported_of_schema(alloc: Global, form: Form, text: &str) -> Option<String> {
    let document = read(alloc, FileId(1), "store.graphql", text)?;
    let documents = slice::from_ref(&document);
    let (schema, faults) = build_schema(alloc, HashKeys::FIXED, PLAIN, documents).ok()?;
    all_reported(alloc, form, &schema.sources, faults.as_slice()).ok()
}

/// What is reported of the faults of a document over a schema.
fn reported_over(alloc: Global, form: Form, schema: &Schema, text: &str) -> Option<String> {
    let document = read(alloc, FileId(2), "page.graphql", text)?;
    let documents = slice::from_ref(&document);
    let (typed, faults) = build_executable_document(alloc, schema, TYPING, documents).ok()?;
    all_reported(alloc, form, &typed.sources, faults.as_slice()).ok()
}

/// The schema of [`STORE`].
fn store(alloc: Global) -> Option<Schema> {
    let document = read(alloc, FileId(1), "store.graphql", STORE)?;
    let documents = slice::from_ref(&document);
    let (schema, _faults) = build_schema(alloc, HashKeys::FIXED, PLAIN, documents).ok()?;
    Some(schema)
}

/// What is reported of the faults of a document over the schema of [`STORE`].
pub(crate) fn reported_of_document(alloc: Global, form: Form, text: &str) -> Option<String> {
    reported_over(alloc, form, &store(alloc)?, text)
}

/// The leaf faults of a document over the schema of [`STORE`], with the document.
fn leaves(alloc: Global, text: &str) -> Option<(ExecutableDocument, Vec<LeafFault>)> {
    let schema = store(alloc)?;
    let document = read(alloc, FileId(2), "page.graphql", text)?;
    let documents = slice::from_ref(&document);
    let (typed, _faults) = build_executable_document(alloc, &schema, TYPING, documents).ok()?;
    let faults = leaf_faults(alloc, &schema, &typed).ok()?;
    Some((typed, faults))
}

/// What is reported of the first leaf fault of a document over the schema of [`STORE`].
pub(crate) fn reported_of_leaf(alloc: Global, form: Form, text: &str) -> Option<String> {
    let (typed, faults) = leaves(alloc, text)?;
    let fault = faults.first()?;
    reported(alloc, form, &typed.sources, fault.location, fault).ok()
}
