//! The builder of schemas.

use crate::inputs::Input;
use crate::stop::{Stop, Told, expect};
use apollo_component::extension::ExtensionSource;
use apollo_schema::BuilderError;
use apollo_schema::build_failure::{BuildFailure, WithErrors};
use apollo_schema::schema::Schema;
use apollo_schema::schema_builder::SchemaBuilder;
use bench_notation::documents::read;
use graphql_ast::document::Document;
use std::alloc::{AllocError, Global};
use telling::Tell;

/// What is asked of a builder.
#[derive(Clone, Copy)]
pub enum OfBuilder {
    /// `SchemaBuilder::add_ast`.
    AddAst,
    /// `SchemaBuilder::build`.
    Build,
    /// `SchemaBuilder::with_source` and `SchemaBuilder::build_with_source`, from the input's number on.
    WithSource,
    /// `clone` of a builder, which builds the same.
    Copied,
}

/// A builder that has taken nothing, over a source that starts at this number, or over one of its own.
fn empty_builder(
    alloc: Global,
    adopts: bool,
    first: Option<u64>,
) -> Result<SchemaBuilder, AllocError> {
    let builder = match first {
        Some(first) => SchemaBuilder::with_source(alloc, ExtensionSource::starting_at(first))?,
        None => SchemaBuilder::new(alloc)?,
    };
    if adopts {
        return Ok(builder.adopt_orphan_extensions());
    }
    Ok(builder)
}

/// A builder that has failed is built to that alone. What was refused is memory.
fn failed(builder: SchemaBuilder) -> Stop {
    match builder.build() {
        Err(BuildFailure::Failed) => Stop::Memory,
        _ => Stop::Wrong("a builder is built after a refusal"),
    }
}

/// Expects what a refusal of memory comes to: from then on the builder answers `Failed`, and has no orphan
/// names.
fn expect_failed(builder: &mut SchemaBuilder, document: &Document) -> Told {
    let has_names = builder.iter_orphan_extension_types().next().is_some();
    expect(!has_names, "orphan names after a refusal")?;
    let is_failed = builder.add_ast(document) == Err(BuilderError::Failed);
    expect(is_failed, "a builder goes on after a refusal")
}

/// Adds the names that are extended and not defined so far.
fn push_orphans(text: &mut String, builder: &SchemaBuilder) -> Told {
    text.push_str("orphans ")?;
    for name in builder.iter_orphan_extension_types() {
        name.tell(text)?;
    }
    Ok(text.push_str("\n")?)
}

/// Adds why a document was refused, and what comes of it when it is added again.
fn push_refused(
    text: &mut String,
    builder: &mut SchemaBuilder,
    document: &Document,
    error: BuilderError,
) -> Told {
    let is_failed = builder.add_ast(document) == Err(BuilderError::Failed);
    Ok(write!(text, "{error}, and failed from then on: {is_failed}\n")?)
}

/// Has a builder take these documents, and tells its orphan names after each, or why one is refused. Answers
/// whether memory was refused to the builder, which has failed then.
fn take_all(
    text: &mut String,
    builder: &mut SchemaBuilder,
    documents: &[Document],
) -> Result<bool, Stop> {
    for document in documents {
        match builder.add_ast(document) {
            Ok(()) => push_orphans(text, builder)?,
            Err(BuilderError::Memory) => {
                expect_failed(builder, document)?;
                return Ok(true);
            }
            Err(error) => push_refused(text, builder, document, error)?,
        }
    }
    Ok(false)
}

/// A builder that has taken these documents.
fn taken(
    alloc: Global,
    text: &mut String,
    adopts: bool,
    first: Option<u64>,
    documents: &[Document],
) -> Result<SchemaBuilder, Stop> {
    let mut builder = empty_builder(alloc, adopts, first)?;
    if take_all(text, &mut builder, documents)? {
        return Err(failed(builder));
    }
    Ok(builder)
}

/// Tells a copy of what could be built, and of its faults: `WithErrors::clone`.
fn tell_found(text: &mut String, found: &WithErrors<Schema>) -> Told {
    let copy = found.clone()?;
    expect(copy.partial == found.partial, "a copy differs")?;
    copy.partial.tell(text)?;
    Ok(copy.errors.tell(text)?)
}

/// Tells the schema that was built, and its faults, or why there is none.
fn tell_built(text: &mut String, built: Result<Schema, BuildFailure>) -> Told {
    match built {
        Ok(schema) => Ok(schema.tell(text)?),
        Err(BuildFailure::Faults(found)) => tell_found(text, &found),
        Err(BuildFailure::Memory) => Err(Stop::Memory),
        Err(BuildFailure::ExtensionIds) => Ok(text.push_str("extension identities spent\n")?),
        Err(BuildFailure::Failed) => Ok(text.push_str("builder has failed\n")?),
    }
}

/// Adds the number that a source gives next, if it has one, which is at least the first.
fn push_drawn(text: &mut String, source: ExtensionSource, first: u64) -> Told {
    let mut source = source;
    let next = source.next_number();
    expect(next >= first, "a source goes back")?;
    let is_drawn = match source.draw(None) {
        Ok(id) => id.number() == next,
        Err(_) => false,
    };
    Ok(write!(text, "next number {next}, drawn: {is_drawn}\n")?)
}

/// Tells what a builder builds, and the number that its source gives next.
fn tell_with_source(text: &mut String, builder: SchemaBuilder, first: u64) -> Told {
    let (built, source) = builder.build_with_source();
    tell_built(text, built)?;
    push_drawn(text, source, first)
}

/// Tells what is asked of a builder that has taken documents.
fn tell_end(text: &mut String, builder: SchemaBuilder, first: u64, question: OfBuilder) -> Told {
    match question {
        OfBuilder::AddAst | OfBuilder::WithSource => tell_with_source(text, builder, first),
        OfBuilder::Build => tell_built(text, builder.build()),
        OfBuilder::Copied => {
            tell_with_source(text, builder.clone()?, first)?;
            tell_with_source(text, builder, first)
        }
    }
}

/// Asks something of a builder that has taken the documents of an input.
pub fn ask(alloc: Global, text: &mut String, input: Input, question: OfBuilder) -> Told {
    let documents = read(alloc, input.text)?;
    let first = match question {
        OfBuilder::WithSource => Some(input.first),
        _ => None,
    };
    let builder = taken(alloc, text, input.adopts, first, documents.as_slice())?;
    tell_end(text, builder, first.unwrap_or(0), question)
}

/// `SchemaBuilder::new`: its orphan names, and what is built of no document.
pub fn new(alloc: Global, text: &mut String) -> Told {
    let builder = SchemaBuilder::new(alloc)?;
    push_orphans(text, &builder)?;
    tell_built(text, builder.build())
}

/// The schema of documents, whatever is at fault.
pub fn schema_of(alloc: Global, adopts: bool, documents: &[Document]) -> Result<Schema, Stop> {
    let mut orphans = String::new(alloc);
    match taken(alloc, &mut orphans, adopts, None, documents)?.build() {
        Ok(schema) => Ok(schema),
        Err(BuildFailure::Faults(found)) => Ok(found.partial),
        Err(BuildFailure::Memory) => Err(Stop::Memory),
        Err(_) => Err(Stop::Wrong("no schema was built")),
    }
}
