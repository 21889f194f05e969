//! The command `schema`.
ghost use Rattle.std.specs.Prelude.{◌≡◌, IfErr, IfOk};
ghost use Rattle.apollo_schema.specs.SchemaWriteOut.{write_schema};
ghost use Rattle.peglinden_run.specs.Documents.{texts_of};
ghost use Rattle.peglinden_run.specs.Forms.{form_of};
ghost use Rattle.peglinden_run.specs.SchemaCommand.{IsSchemaAnswer, IsSchemaCause, IsSchemaOf};

use crate::answer::Answer;
use crate::documents::read_documents;
use crate::ended::ended_text;
use crate::failure::Failure;
use crate::findings::Findings;
use crate::form::{Form, form_of};
use crate::lines::form_text;
use apollo_compiler::building::build_schema;
use apollo_compiler::compile_options::CompileOptions;
use apollo_meaning::build_error::Faults;
use apollo_schema::schema::Schema;
use graphql_ast::definition::Definition;
use graphql_nodes::collections::hash_keys::HashKeys;
use graphql_nodes::source::SourceMap;
use peglinden_words::request::Reporting;
use program_io::files::Files;
use std::alloc::{AllocError, Global};

/// The answer of `schema` with these options to files. It is the write-out of the schema of their documents,
/// and what is said of its faults.
///
/// `Files` comes where a file can't be read or is no document. `Exhausted` comes where memory ran out, or
/// where the numbers don't suffice for the extensions. There is no other error.
pub(crate) fn schema_answer<F: Files>(
    alloc: Global,
    keys: HashKeys,
    options: CompileOptions,
    reporting: &Reporting,
    files: &F,
    paths: &[&str],
) -> Result<Answer, Failure>
    ensures means { IfOk result
        (IsSchemaAnswer (F.holds files.now) options reporting.now (texts_of paths.now)) }
    ensures causes { IfErr result
        (IsSchemaCause (form_of reporting.now) (F.holds files.now) (F.may_fail files.now) options
        (texts_of paths.now)) }
{
    let form = form_of(reporting);
    let (schema, faults) = read_schema(alloc, keys, options, form, files, paths)?;
    let (written, sources) = written_out(alloc, schema)?;
    let text = ended_text(alloc, written.as_slice())?;
    let output = form_text(alloc, form, text)?;
    let findings = Findings::of_schema(alloc, sources, faults);
    Ok(findings.answer(alloc, reporting, paths.len(), output)?)
}

/// The schema of the documents of files with these options, and its faults. The documents are freed. The
/// errors are those of [`schema_answer`].
fn read_schema<F: Files>(
    alloc: Global,
    keys: HashKeys,
    options: CompileOptions,
    form: Form,
    files: &F,
    paths: &[&str],
) -> Result<(Schema, Faults), Failure>
    ensures means { IfOk result (λ built.
        IsSchemaOf (F.holds files.now) options (texts_of paths.now) built.0 built.1.items) }
    ensures causes { IfErr result
        (IsSchemaCause form (F.holds files.now) (F.may_fail files.now) options (texts_of paths.now)) }
{
    let documents = read_documents(alloc, form, files, paths)?;
    let (schema, faults) = build_schema(alloc, keys, options, documents.as_slice())?;
    Ok((schema, faults))
}

/// The write-out of a schema, and its sources. The schema is freed, before a text takes memory. The error
/// is out of memory.
fn written_out(alloc: Global, schema: Schema) -> Result<(Vec<Definition>, SourceMap), AllocError>
    ensures written { IfOk result (λ out. out.0.items ≡ write_schema schema) }
    ensures sources { IfOk result (λ out. out.1 ≡ schema.sources) }
{
    let written = schema.to_ast(alloc)?;
    let sources = schema.sources.clone()?;
    Ok((written, sources))
}
