//! The commands on documents over a schema: `check`, `typed` and `fields`.
ghost use Rattle.std.specs.Prelude.{◌≡◌, IfErr, IfOk, string_bytes};
ghost use Rattle.peglinden_run.specs.DocumentCommands.{IsDocumentAnswer, IsTypingCause, form_fields};
ghost use Rattle.peglinden_run.specs.DocumentCommands.{named_files, notes_of, output_of};

use crate::answer::Answer;
use crate::ended::ended_text;
use crate::failure::Failure;
use crate::field_lines::field_lines;
use crate::fields_command::fields_text;
use crate::form::{Form, form_of};
use crate::lines::form_text;
use crate::notes::with_notes;
use crate::typed_documents::{TypedDocument, type_documents};
use apollo_reporting::source_lines::SourceLines;
use graphql_nodes::collections::hash_keys::HashKeys;
use peglinden_words::request::Typing;
use program_io::files::Files;
use std::alloc::{AllocError, Global};

/// What of a typed document goes to standard output.
#[derive(Debug, Clone, Copy, PartialEq, Eq)]
pub enum Shown {
    /// Nothing.
    Nothing,
    /// Its write-out.
    WriteOut,
    /// The fields that each operation reaches.
    Fields,
}

/// The answer of a command that types these documents over their schema. It is what it shows of the typed
/// document, and what is said of its faults, with notes in front of that.
///
/// The errors are those of [`type_documents`].
pub(crate) fn document_answer<F: Files>(
    alloc: Global,
    keys: HashKeys,
    shown: Shown,
    typing: &Typing<'_>,
    files: &F,
) -> Result<Answer, Failure>
    ensures means { IfOk result (IsDocumentAnswer (F.holds files.now) shown typing.now) }
    ensures causes { IfErr result (IsTypingCause (F.holds files.now) (F.may_fail files.now) typing.now) }
{
    let schema_paths = typing.schema.as_slice();
    let document_paths = typing.documents.as_slice();
    let form = form_of(&typing.reporting);
    let typed = type_documents(alloc, keys, form, files, schema_paths, document_paths)?;
    let output = shown_text(alloc, form, shown, &typed)?;
    let count = named_files(typing);
    let answer = typed
        .findings
        .answer(alloc, &typing.reporting, count, output)?;
    let notes = notes_text(alloc, form, &typed)?;
    Ok(with_notes(answer, notes)?)
}

/// The notes on a typed document, in a form. The error is out of memory.
fn notes_text(alloc: Global, form: Form, typed: &TypedDocument) -> Result<String, AllocError>
    ensures { IfOk result (λ notes. string_bytes notes ≡ notes_of form typed.now) }
{
    match form {
        Form::Words => typed.hints.clone(),
        Form::Json | Form::Github => Ok(String::new(alloc)),
    }
}

/// How many files are named, or the greatest number where they are more.
fn named_files(typing: &Typing<'_>) -> usize
    ensures { result ≡ named_files typing.now }
{
    typing.schema.len().saturating_add(typing.documents.len())
}

/// What a command shows of a typed document, in a form. The error is out of memory.
fn shown_text(
    alloc: Global,
    form: Form,
    shown: Shown,
    typed: &TypedDocument,
) -> Result<String, AllocError>
    ensures { IfOk result (λ text. string_bytes text ≡ output_of form shown typed.now) }
{
    match shown {
        Shown::Nothing => Ok(String::new(alloc)),
        Shown::WriteOut => {
            let written = typed.document.to_ast(alloc)?;
            form_text(
                alloc,
                form,
                ended_text(alloc, written.definitions.as_slice())?,
            )
        }
        Shown::Fields => form_fields(alloc, form, typed),
    }
}

/// The fields that the operations of a typed document reach, in a form. The error is out of memory.
fn form_fields(alloc: Global, form: Form, typed: &TypedDocument) -> Result<String, AllocError>
    ensures { IfOk result (λ text. string_bytes text ≡ form_fields form typed.now) }
{
    match form {
        Form::Json => {
            let lines = SourceLines::new(alloc, &typed.findings.sources)?;
            field_lines(alloc, &lines, &typed.schema, &typed.document)
        }
        Form::Words | Form::Github => fields_text(alloc, &typed.document),
    }
}
