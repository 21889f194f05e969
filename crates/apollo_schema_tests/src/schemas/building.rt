//! What documents build, as text.

use crate::types::schemas::made_again;
use apollo_component::extension::ExtensionSource;
use apollo_schema::BuilderError;
use apollo_schema::build_failure::{BuildFailure, WithErrors};
use apollo_schema::schema::Schema;
use apollo_schema::schema_builder::SchemaBuilder;
use bench_notation::printing::print;
use graphql_ast::document::Document;
use graphql_nodes::operation_type::OperationType;
use likeness::{is_copied, is_made};
use std::alloc::{AllocError, Global};
use std::slice;
use telling::Tell;
use telling::schemas::push_own;

/// How documents are built.
pub struct Settings {
    /// The number of the first extension.
    pub first_number: u64,
    pub adopts: bool,
}

pub const PLAIN: Settings = Settings {
    first_number: 0,
    adopts: false,
};

pub const ADOPTING: Settings = Settings {
    first_number: 0,
    adopts: true,
};

/// What a builder builds: a schema, or else why there is none, or none without faults.
pub type Built = Result<Schema, BuildFailure>;

/// The schema that was built, whatever is at fault.
pub fn schema_in(built: &Built) -> Option<&Schema> {
    match built {
        Ok(schema) => Some(schema),
        Err(BuildFailure::Faults(found)) => Some(&found.partial),
        Err(_) => None,
    }
}

/// A builder with these settings.
pub fn builder_with(alloc: Global, settings: &Settings) -> Result<SchemaBuilder, AllocError> {
    let source = ExtensionSource::starting_at(settings.first_number);
    if settings.adopts {
        return Ok(SchemaBuilder::with_source(alloc, source)?.adopt_orphan_extensions());
    }
    SchemaBuilder::with_source(alloc, source)
}

/// What `add_ast` answers. Its contract stays here, so that no loop carries it along.
fn add(builder: &mut SchemaBuilder, document: &Document) -> Result<(), BuilderError> {
    builder.add_ast(document)
}

/// Adds each document.
pub fn add_all(builder: &mut SchemaBuilder, documents: &[Document]) {
    for document in documents {
        // After a refusal no schema is built.
        let _ = add(builder, document);
    }
}

/// What documents build with these settings.
pub fn built_of(
    alloc: Global,
    settings: &Settings,
    documents: &[Document],
) -> Result<Built, AllocError> {
    let mut builder = builder_with(alloc, settings)?;
    add_all(&mut builder, documents);
    Ok(builder.build())
}

/// Whether documents build this schema with these settings.
pub fn is_built_of(
    alloc: Global,
    settings: &Settings,
    schema: &Schema,
    documents: &[Document],
) -> Result<bool, AllocError> {
    let built = built_of(alloc, settings, documents)?;
    Ok(match schema_in(&built) {
        Some(other) => *other == *schema,
        None => false,
    })
}

/// Adds what a schema has besides the built-in definitions, and its roots: as its definition has them,
/// and as lookups answer.
fn push_schema(text: &mut String, schema: &Schema) -> Result<(), AllocError> {
    push_own(text, schema)?;
    for operation_type in [
        OperationType::Query,
        OperationType::Mutation,
        OperationType::Subscription,
    ] {
        if let Some(root) = schema.schema_definition.root_operation(operation_type) {
            root.tell(text)?;
        }
        if let Some(root) = schema.root_operation(operation_type) {
            let is_object = schema.get_object(root).is_some();
            write!(
                text,
                "{operation_type} is {root}, an object type: {is_object}\n"
            )?;
        }
    }
    Ok(())
}

/// Adds the write-out of a schema, and whether it builds the same schema.
fn push_write_out(alloc: Global, text: &mut String, schema: &Schema) -> Result<(), AllocError> {
    let written = Document::from_definitions(alloc, schema.to_ast(alloc)?);
    text.push_str(print(alloc, written.definitions.as_slice())?.as_str())?;
    let is_rebuilt = is_built_of(alloc, &ADOPTING, schema, slice::from_ref(&written))?;
    write!(text, "rebuilt equal: {is_rebuilt}\n")
}

/// Adds whether copies of a schema and of its parts are equal to them: of its types, and of what these hold.
fn push_copies(alloc: Global, text: &mut String, schema: &Schema) -> Result<(), AllocError> {
    let mut types = true;
    for ty in schema.types.values() {
        types = types && is_copied(ty) && is_made(made_again(alloc, ty), ty);
    }
    let definition = is_copied(&*schema.schema_definition);
    let whole = is_copied(schema);
    write!(text, "copied equal: {types}, {definition}, {whole}\n")
}

/// Adds the faults that a copy of what was found has, and whether copies of these and of the schema are
/// equal.
fn push_found(text: &mut String, found: &WithErrors<Schema>) -> Result<(), AllocError> {
    let copy = found.clone()?;
    copy.errors.tell(text)?;
    let faults = is_copied(&copy.errors);
    let schema = copy.partial == found.partial;
    write!(
        text,
        "faults copied equal: {faults}\npartial schema copied equal: {schema}\n"
    )
}

/// Adds all that is said of what is built.
pub fn push_built(alloc: Global, text: &mut String, built: &Built) -> Result<(), AllocError> {
    match built {
        Ok(_) => {}
        Err(BuildFailure::Faults(found)) => push_found(text, found)?,
        Err(BuildFailure::Failed) => text.push_str("failed\n")?,
        Err(BuildFailure::ExtensionIds) => text.push_str("no number is left\n")?,
        Err(BuildFailure::Memory) => text.push_str("not built\n")?,
    }
    if let Some(schema) = schema_in(built) {
        push_schema(text, schema)?;
        push_write_out(alloc, text, schema)?;
        push_copies(alloc, text, schema)?;
    }
    Ok(())
}

/// Adds all that is said of what a builder builds, and the number that its source gives next.
fn push_account(
    alloc: Global,
    text: &mut String,
    builder: SchemaBuilder,
) -> Result<(), AllocError> {
    let (built, source) = builder.build_with_source();
    push_built(alloc, text, &built)?;
    let next = source.next_number();
    write!(text, "{next} is next\n")
}

/// Adds documents to the builder, and to the text each refusal and then the names that are not defined.
fn push_adding(
    text: &mut String,
    builder: &mut SchemaBuilder,
    documents: &[Document],
) -> Result<(), AllocError> {
    for document in documents {
        if let Err(error) = add(builder, document) {
            write!(text, "{error}\n")?;
        }
    }
    for name in builder.iter_orphan_extension_types() {
        write!(text, "{name} waits\n")?;
    }
    Ok(())
}

/// Adds what a builder of the documents says, and what it builds, and to another text what a copy of it
/// builds.
fn tell(
    alloc: Global,
    text: &mut String,
    of_copy: &mut String,
    settings: &Settings,
    documents: &[Document],
) -> Result<(), AllocError> {
    let mut builder = builder_with(alloc, settings)?;
    let added = push_adding(text, &mut builder, documents);
    let copy: Result<SchemaBuilder, AllocError> = builder.clone();
    let told = push_account(alloc, text, builder);
    match copy {
        Ok(copy) => push_account(alloc, of_copy, copy).and(told).and(added),
        Err(error) => Err(error),
    }
}

/// What a builder of the documents says and builds.
pub fn told(
    alloc: Global,
    settings: &Settings,
    documents: &[Document],
) -> Result<String, AllocError> {
    let mut text = String::new(alloc);
    let mut of_copy = String::new(alloc);
    tell(alloc, &mut text, &mut of_copy, settings, documents)?;
    if !text.as_str().ends_with(of_copy.as_str()) {
        text.push_str("a copy of the builder builds otherwise\n")?;
    }
    Ok(text)
}
