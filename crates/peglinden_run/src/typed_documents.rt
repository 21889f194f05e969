//! Documents of files, typed over the schema of files.
ghost use Rattle.std.specs.Prelude.{IfErr, IfOk};
ghost use Rattle.peglinden_run.specs.Documents.{texts_of};
ghost use Rattle.peglinden_run.specs.TypedDocuments.{IsTyped, IsTypedCause};

use crate::documents::read_documents;
use crate::echoes::without_echoes;
use crate::failure::Failure;
use crate::findings::Findings;
use crate::form::Form;
use crate::schema_hints::schema_hints;
use apollo_compiler::building::build_schema;
use apollo_compiler::compile_options::CompileOptions;
use apollo_compiler::document_building::build_executable_document;
use apollo_compiler::executable_options::ExecutableOptions;
use apollo_executable::document::ExecutableDocument;
use apollo_schema::schema::Schema;
use graphql_nodes::collections::hash_keys::HashKeys;
use graphql_nodes::source::merge_sources;
use leafcheck::checking::leaf_faults;
use program_io::files::Files;
use std::alloc::Global;

/// A typed document over its schema, and what is at fault in both.
#[derive(Drop)]
pub(crate) struct TypedDocument {
    pub schema: Schema,
    pub document: ExecutableDocument,
    pub findings: Findings,
    /// What hints at documents that look like files of a schema.
    pub hints: String,
}

/// The documents of files as one typed document, over the schema of other files, which has no options.
/// Definitions of the type system in the documents are at fault. The files of the schema are numbered
/// from 1, and the others after them. Leaf faults that only repeat other faults are left out.
///
/// `Files` comes where a file of either sort can't be read or is no document. `Exhausted` comes where memory
/// ran out, or where the numbers don't suffice for the extensions of the schema. There is no other error.
pub(crate) fn type_documents<F: Files>(
    alloc: Global,
    keys: HashKeys,
    form: Form,
    files: &F,
    schema_paths: &[&str],
    document_paths: &[&str],
) -> Result<TypedDocument, Failure>
    ensures typed { IfOk result
        (IsTyped (F.holds files.now) (texts_of schema_paths.now) (texts_of document_paths.now)) }
    ensures causes { IfErr result
        (IsTypedCause form (F.holds files.now) (F.may_fail files.now) (texts_of schema_paths.now)
        (texts_of document_paths.now)) }
{
    let mut paths = Vec::new(alloc);
    paths.extend_from_slice(schema_paths)?;
    paths.extend_from_slice(document_paths)?;
    let documents = read_documents(alloc, form, files, paths.as_slice())?;
    let (of_schema, executable) = documents.as_slice().split_at(schema_paths.len());
    let hints = schema_hints(alloc, executable)?;
    let (schema, schema_faults) = build_schema(alloc, keys, CompileOptions::none(), of_schema)?;
    let options = ExecutableOptions {
        type_system_definitions_are_errors: true,
    };
    let (document, document_faults) = build_executable_document(
        alloc, &schema, options, executable,
    )?;
    let leaves = leaf_faults(alloc, &schema, &document)?;
    let leaf_faults = without_echoes(alloc, leaves, document_faults.as_slice())?;
    let mut sources = schema.sources.clone()?;
    merge_sources(&mut sources, &document.sources)?;
    let findings = Findings {
        sources,
        schema_faults,
        document_faults,
        leaf_faults,
    };
    Ok(TypedDocument {
        schema,
        document,
        findings,
        hints,
    })
}
