//! The command `format`.
ghost use Rattle.std.specs.Prelude.{◌≡◌, IfErr, IfOk, option_map, string_bytes};
ghost use Rattle.std.specs.List.{flat_map};
ghost use Rattle.peglinden_run.specs.Documents.{texts_of};
ghost use Rattle.peglinden_run.specs.FormatCommand.{IsCheckShown, IsChecked, IsFaultless, IsFormatAnswer};
ghost use Rattle.peglinden_run.specs.FormatCommand.{all_definitions, changed_in, changed_text, document_line};
ghost use Rattle.peglinden_run.specs.FormatCommand.{document_path, form_documents, rest_line};
ghost use Rattle.peglinden_run.specs.Forms.{form_of};
ghost use Rattle.peglinden_run.specs.Layouts.{changed_bytes};
ghost use Rattle.peglinden_run.specs.RefusedFiles.{IsFilesCause};

use crate::answer::Answer;
use crate::documents::read_documents;
use crate::ended::ended_text;
use crate::failure::Failure;
use crate::findings::at_most;
use crate::form::{Form, form_of};
use crate::layouts::{ChangedFile, changed_files};
use crate::lines::{changed_line, on_a_line, text_line};
use crate::printed::{Printed, Tally, arranged, tally_line};
use apollo_reporting::github::github_command;
use graphql_ast::definition::Definition;
use graphql_ast::document::Document;
use graphql_nodes::collections::items::Items;
use graphql_nodes::visible_text::visible;
use peglinden_words::request::Reporting;
use program_io::files::Files;
use std::alloc::{AllocError, Global};

/// What is said of a file whose text differs.
const DIFFERS: &str = "the text differs from its layout";

/// The answer of `format` to files: the text of all their definitions in our layout, with a line end. It is
/// read again as one document. In JSON it is the text of each file. With `check` it says in this form of each
/// file whose text differs from its layout; for people that is its name, as [`visible`] shows it, on a line.
/// Such a file is at fault.
///
/// `Files` comes where a file can't be read or is no document, and `Exhausted` where memory ran out. There
/// is no other error.
pub(crate) fn format_answer<F: Files>(
    alloc: Global,
    check: bool,
    reporting: &Reporting,
    files: &F,
    paths: &[&str],
) -> Result<Answer, Failure>
    ensures means { IfOk result
        (IsFormatAnswer (F.holds files.now) check reporting.now (texts_of paths.now)) }
    ensures causes { IfErr result (IsFilesCause (form_of reporting.now) (F.holds files.now)
        (F.may_fail files.now) (texts_of paths.now)) }
{
    let form = form_of(reporting);
    let documents = read_documents(alloc, form, files, paths)?;
    if check {
        return Ok(check_answer(alloc, form, reporting.max_faults, paths.len(), &documents)?);
    }
    let output = form_documents(alloc, form, documents)?;
    Ok(faultless(alloc, form, paths.len(), output)?)
}

/// The answer that prints this output of a form, and finds nothing at fault in so many files. The error is
/// out of memory.
pub(crate) fn faultless(
    alloc: Global,
    form: Form,
    files: usize,
    output: String,
) -> Result<Answer, AllocError>
    ensures { IfOk result (IsFaultless form files (string_bytes output)) }
{
    let tally = Tally {
        faults: 0,
        shown: 0,
        files,
    };
    Ok(Answer {
        printed: arranged(alloc, form, tally, output, String::new(alloc))?,
        has_faults: false,
    })
}

/// What a form has of documents in our layout. The error is out of memory.
fn form_documents(alloc: Global, form: Form, documents: Vec<Document>) -> Result<String, AllocError>
    ensures { IfOk result (λ text. string_bytes text ≡ form_documents form documents.items) }
{
    match form {
        Form::Json => document_lines(alloc, documents.as_slice()),
        Form::Words | Form::Github => {
            let definitions = all_definitions(alloc, documents)?;
            ended_text(alloc, definitions.as_slice())
        }
    }
}

/// The definitions of documents, one behind the other. The error is out of memory.
fn all_definitions(alloc: Global, documents: Vec<Document>) -> Result<Items<Definition>, AllocError>
    ensures { IfOk result (λ all. all ≡ all_definitions documents.items) }
{
    let mut all = Items::new(alloc);
    for mut document in documents {
        all.append(&mut document.definitions)?;
    }
    Ok(all)
}

/// A line of JSON for each document, with its text in our layout. The error is out of memory.
fn document_lines(alloc: Global, documents: &[Document]) -> Result<String, AllocError>
    ensures { IfOk result (λ lines. string_bytes lines ≡ flat_map document_line documents.now) }
{
    let mut lines = String::new(alloc);
    for document in documents {
        lines.push_str(document_line(alloc, document)?.as_str())?;
    }
    Ok(lines)
}

/// The line of JSON of a document, with its text in our layout. The error is out of memory.
fn document_line(alloc: Global, document: &Document) -> Result<String, AllocError>
    ensures { IfOk result (λ line. string_bytes line ≡ document_line document.now) }
{
    let formatted = ended_text(alloc, document.definitions.as_slice())?;
    text_line(alloc, document_path(document), formatted.as_str())
}

/// The path of the first file of a document.
fn document_path(document: &Document) -> Option<&str>
    ensures { option_map (λ path. path.now) result ≡ document_path document.now }
{
    let (_, file) = document.sources.first()?;
    Some(file.path.as_str())
}

/// The answer of `format --check` to so many files of these documents, in a form, with at most so many
/// faults. The error is out of memory.
fn check_answer(
    alloc: Global,
    form: Form,
    most: Option<usize>,
    files: usize,
    documents: &[Document],
) -> Result<Answer, AllocError>
    ensures { IfOk result (IsChecked form most files documents.now) }
{
    let changed = changed_files(alloc, documents)?;
    let differing = changed.as_slice();
    let shown = at_most(differing, most);
    let tally = Tally {
        faults: differing.len(),
        shown: shown.len(),
        files,
    };
    let said = changed_text(alloc, form, shown)?;
    Ok(Answer {
        printed: checked_printed(alloc, form, tally, said)?,
        has_faults: tally.faults != 0,
    })
}

/// What is printed of what a form says of the files that differ. The error is out of memory.
fn checked_printed(
    alloc: Global,
    form: Form,
    tally: Tally,
    said: String,
) -> Result<Printed, AllocError>
    ensures { IfOk result (IsCheckShown form tally (string_bytes said)) }
{
    match form {
        Form::Words => Ok(Printed {
            output: said,
            errors: rest_line(alloc, tally)?,
        }),
        Form::Json | Form::Github => arranged(alloc, form, tally, String::new(alloc), said),
    }
}

/// How many files differ, on a line, where not all of them are shown. The error is out of memory.
fn rest_line(alloc: Global, tally: Tally) -> Result<String, AllocError>
    ensures { IfOk result (λ line. string_bytes line ≡ rest_line tally) }
{
    if tally.shown == tally.faults {
        return Ok(String::new(alloc));
    }
    tally_line(alloc, tally)
}

/// What a form says of files that differ. The error is out of memory.
pub(crate) fn changed_text(
    alloc: Global,
    form: Form,
    files: &[ChangedFile<'_>],
) -> Result<String, AllocError>
    ensures { IfOk result (λ text. string_bytes text ≡ changed_text form (changed_bytes files.now)) }
{
    let mut text = String::new(alloc);
    for file in files {
        text.push_str(changed_in(alloc, form, file.path)?.as_str())?;
    }
    Ok(text)
}

/// What a form says of a file that differs. The error is out of memory.
fn changed_in(alloc: Global, form: Form, path: &str) -> Result<String, AllocError>
    ensures { IfOk result (λ text. string_bytes text ≡ changed_in form path.now) }
{
    match form {
        Form::Words => on_a_line(visible(path).to_string(alloc)?),
        Form::Json => changed_line(alloc, path),
        Form::Github => on_a_line(github_command(alloc, Some(path), None, DIFFERS)?),
    }
}
