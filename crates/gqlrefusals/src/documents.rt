//! The builder of typed documents, field sets, the parts of typed documents as syntax, and leaf faults.

use crate::builders::schema_of;
use crate::inputs::Input;
use crate::sets::{OfSet, ask_set};
use crate::stop::{Stop, Told, expect, tell_line, tell_made};
use apollo_document::ExecutableDocumentBuilder;
use apollo_document::build_error::Faults;
use apollo_document::field_set::FieldSet;
use apollo_executable::ExecutableDocument;
use apollo_schema::BuilderError;
use apollo_schema::schema::Schema;
use bench_notation::documents::read_divided;
use graphql_ast::definition::Definition;
use graphql_ast::document::Document;
use graphql_ast::selection::Selection;
use graphql_nodes::name::Name;
use leafcheck::leaf_faults;
use std::alloc::Global;
use telling::Tell;

/// What is asked of executable documents over a schema.
#[derive(Clone, Copy)]
pub enum OfDocuments {
    /// `ExecutableDocumentBuilder::add_ast_document` and `ExecutableDocumentBuilder::build`, over the schema
    /// and without one.
    Build,
    /// `FieldSet::from_ast` and `FieldSet::to_ast`, of the selections of each operation and fragment.
    FieldSets,
    /// Something of the typed document that is built.
    Built(OfBuilt),
}

/// What is asked of a typed document.
#[derive(Clone, Copy)]
pub enum OfBuilt {
    /// `ExecutableDocument::to_ast`.
    Written,
    /// `Operation::to_ast`.
    OperationsWritten,
    /// `Fragment::to_ast`.
    FragmentsWritten,
    /// `clone` of documents.
    Copied,
    /// `Operation::is_introspection`.
    Introspection,
    /// `leaf_faults`.
    Leaves,
    /// Something of the set of each operation and fragment.
    Sets(OfSet),
}

/// Has a builder take these documents. Answers whether memory was refused to it: from then on it answers
/// `Failed`.
fn take_all(
    builder: &mut ExecutableDocumentBuilder<'_>,
    documents: &[Document],
) -> Result<bool, Stop> {
    for document in documents {
        if let Err(error) = builder.add_ast_document(document, true) {
            expect(error == BuilderError::Memory, "a builder was refused")?;
            let is_failed = builder.add_ast_document(document, true) == Err(BuilderError::Failed);
            expect(is_failed, "a builder goes on after a refusal")?;
            return Ok(true);
        }
    }
    Ok(false)
}

/// What documents build.
fn built(
    alloc: Global,
    schema: Option<&Schema>,
    documents: &[Document],
) -> Result<(ExecutableDocument, Faults), Stop> {
    let mut builder = ExecutableDocumentBuilder::new(alloc, schema);
    let is_refused = take_all(&mut builder, documents)?;
    match builder.build() {
        Err(BuilderError::Failed) if is_refused => Err(Stop::Memory),
        _ if is_refused => Err(Stop::Wrong("a builder is built after a refusal")),
        built => Ok(built?),
    }
}

fn tell_built(
    alloc: Global,
    text: &mut String,
    schema: Option<&Schema>,
    documents: &[Document],
) -> Told {
    let built = built(alloc, schema, documents)?;
    built.0.tell(text)?;
    Ok(built.1.tell(text)?)
}

fn tell_field_set(
    alloc: Global,
    text: &mut String,
    schema: &Schema,
    selections: &[Selection],
) -> Told {
    let ty = Name::new_unchecked(alloc, "Query")?;
    let made = FieldSet::from_ast(alloc, schema, ty, selections)?;
    made.0.tell(text)?;
    made.1.tell(text)?;
    tell_line(text, made.0.to_ast(alloc))
}

/// The selections of a definition, if it is executable.
fn selections_of(definition: &Definition) -> &[Selection] {
    match definition {
        Definition::OperationDefinition(node) => node.selection_set.as_slice(),
        Definition::FragmentDefinition(node) => node.selection_set.as_slice(),
        _ => &[],
    }
}

fn tell_field_sets(
    alloc: Global,
    text: &mut String,
    schema: &Schema,
    documents: &[Document],
) -> Told {
    for document in documents {
        for definition in &document.definitions {
            tell_field_set(alloc, text, schema, selections_of(definition))?;
        }
    }
    Ok(())
}

fn ask_operations(
    alloc: Global,
    text: &mut String,
    document: &ExecutableDocument,
    question: OfBuilt,
) -> Told {
    for operation in document.operations.iter() {
        match question {
            OfBuilt::OperationsWritten => {
                tell_made(text, operation.to_ast(alloc, operation.location()))?
            }
            OfBuilt::Introspection => {
                let is_introspection = operation.is_introspection(alloc, document)?;
                write!(text, "{is_introspection}\n")?;
            }
            OfBuilt::Sets(of_set) => {
                ask_set(alloc, text, document, &operation.selection_set, of_set)?
            }
            _ => {}
        }
    }
    Ok(())
}

fn ask_fragments(
    alloc: Global,
    text: &mut String,
    document: &ExecutableDocument,
    question: OfBuilt,
) -> Told {
    for fragment in document.fragments.values() {
        match question {
            OfBuilt::FragmentsWritten => tell_made(
                text,
                fragment.to_ast(alloc, fragment.location()),
            )?,
            OfBuilt::Sets(of_set) => {
                ask_set(alloc, text, document, &fragment.selection_set, of_set)?
            }
            _ => {}
        }
    }
    Ok(())
}

fn tell_copy(text: &mut String, document: &ExecutableDocument) -> Told {
    let copy = document.clone()?;
    expect(copy == *document, "a copy differs")?;
    Ok(copy.tell(text)?)
}

fn tell_leaves(
    alloc: Global,
    text: &mut String,
    schema: &Schema,
    document: &ExecutableDocument,
) -> Told {
    for fault in leaf_faults(alloc, schema, document)? {
        write!(text, "{fault} {fault:?}\n")?;
    }
    Ok(())
}

fn ask_built(
    alloc: Global,
    text: &mut String,
    schema: &Schema,
    document: &ExecutableDocument,
    question: OfBuilt,
) -> Told {
    match question {
        OfBuilt::Written => tell_made(text, document.to_ast(alloc)),
        OfBuilt::Copied => tell_copy(text, document),
        OfBuilt::Leaves => tell_leaves(alloc, text, schema, document),
        _ => {
            ask_operations(alloc, text, document, question)?;
            ask_fragments(alloc, text, document, question)
        }
    }
}

fn ask_documents(
    alloc: Global,
    text: &mut String,
    schema: &Schema,
    documents: &[Document],
    question: OfDocuments,
) -> Told {
    match question {
        OfDocuments::Build => {
            tell_built(alloc, text, Some(schema), documents)?;
            tell_built(alloc, text, None, documents)
        }
        OfDocuments::FieldSets => tell_field_sets(alloc, text, schema, documents),
        OfDocuments::Built(of_built) => {
            let built = built(alloc, Some(schema), documents)?;
            ask_built(alloc, text, schema, &built.0, of_built)
        }
    }
}

/// Asks something of the documents of an input.
pub fn ask(alloc: Global, text: &mut String, input: Input, question: OfDocuments) -> Told {
    let documents = read_divided(alloc, input.text)?;
    let schema = schema_of(alloc, input.adopts, documents.schema.as_slice())?;
    let executable = documents.executable.as_slice();
    ask_documents(alloc, text, &schema, executable, question)
}
