//! What is said of what is at fault, in each form.
ghost use Rattle.std.specs.Prelude.{◌≡◌, ◌++◌, ◌∷◌, [], IfOk, OnOk, Some, string_bytes};
ghost use Rattle.apollo_reporting.specs.TextErrors.{parse_error_about, parse_error_details};
ghost use Rattle.peglinden_run.specs.Printed.{IsArranged};
ghost use Rattle.peglinden_run.specs.RefusedFiles.{IsUnreadReport, unread_command, unread_sentence, unread_text};
ghost use Rattle.peglinden_run.specs.UnwrittenFiles.{unwritten_command, unwritten_in, unwritten_sentence};
ghost use Rattle.peglinden_run.specs.UnwrittenFiles.{unwritten_tally, unwritten_text};
ghost use Rattle.peglinden_run.specs.Reports.{Adds, IsFormText, IsSaid, SaysEach};

use crate::form::Form;
use crate::lines::{on_a_line, unread_line, unwritten_line};
use crate::printed::{Printed, Tally, arranged};
use apollo_reporting::fault_json::{refusal_to_json, to_json};
use apollo_reporting::github::{github_command, to_github_command};
use apollo_reporting::report::report_text;
use apollo_reporting::reported::Reported;
use apollo_reporting::sources::Sources;
use graphql_nodes::collections::shared::Shared;
use graphql_nodes::collections::table::Table;
use graphql_nodes::line_column::LineColumn;
use graphql_nodes::source::{FileId, SourceFile, SourceSpan};
use graphql_nodes::visible_text::visible;
use graphql_text::parse_error::ParseError;
use program_io::file_error::FileError;
use std::alloc::{AllocError, Global};

/// What is said of.
#[derive(Debug, Clone, Copy)]
pub(crate) enum Subject {
    /// A fault of what could be read.
    Fault,
    /// A text that is refused.
    Refusal,
}

/// What a form says of a file of this path that isn't read, with the words of the system. The error is out of
/// memory.
pub(crate) fn unread_report(
    alloc: Global,
    form: Form,
    path: &str,
    error: &FileError,
) -> Result<String, AllocError>
    ensures { IfOk result (λ report. IsUnreadReport form path.now (string_bytes report)) }
{
    let why = error.to_string(alloc)?;
    match form {
        Form::Words => unread_text(alloc, path, why.as_str()),
        Form::Json => unread_line(alloc, path, why.as_str()),
        Form::Github => unread_command(alloc, path, why.as_str()),
    }
}

/// What a form says of a file of this path that isn't written: of which kind that is, where what keeps it
/// begins, if that is known, and why. The error is out of memory.
pub(crate) fn unwritten_report(
    alloc: Global,
    form: Form,
    kind: &str,
    path: &str,
    at: Option<LineColumn>,
    why: &str,
) -> Result<String, AllocError>
    ensures { IfOk result (λ report.
        string_bytes report ≡ unwritten_in form kind.now path.now at why.now) }
{
    match form {
        Form::Words => unwritten_text(alloc, path, why),
        Form::Json => unwritten_line(alloc, kind, path, at, why),
        Form::Github => unwritten_command(alloc, path, at, why),
    }
}

/// What is printed of what a form says of files that are not written, which are so many of so many. The error
/// is out of memory.
pub(crate) fn unwritten_printed(
    alloc: Global,
    form: Form,
    count: usize,
    files: usize,
    said: String,
) -> Result<Printed, AllocError>
    ensures { IfOk result (IsArranged form (unwritten_tally count files) [] (string_bytes said)) }
{
    let tally = Tally {
        faults: count,
        shown: count,
        files,
    };
    arranged(alloc, form, tally, String::new(alloc), said)
}

/// The report that the file of this path isn't written, with these words, and an empty line. The error is out
/// of memory.
fn unwritten_text(alloc: Global, path: &str, why: &str) -> Result<String, AllocError>
    ensures { IfOk result (λ report. string_bytes report ≡ unwritten_text path.now why.now) }
{
    format!(in alloc;
        "error: cannot write `{}`: {}\n\n",
        visible(path),
        visible(why)
    )
}

/// The workflow command which says that the file of this path isn't written, at a place of it, with these
/// words. The error is out of memory.
fn unwritten_command(
    alloc: Global,
    path: &str,
    at: Option<LineColumn>,
    why: &str,
) -> Result<String, AllocError>
    ensures { IfOk result (λ command. string_bytes command ≡ unwritten_command path.now at why.now) }
{
    let sentence = unwritten_sentence(alloc, path, why)?;
    on_a_line(github_command(alloc, Some(path), at, sentence.as_str())?)
}

/// The sentence of that. The error is out of memory.
fn unwritten_sentence(alloc: Global, path: &str, why: &str) -> Result<String, AllocError>
    ensures { IfOk result (λ sentence. string_bytes sentence ≡ unwritten_sentence path.now why.now) }
{
    format!(in alloc; "cannot write `{path}`: {why}")
}

/// The report that the file of this path isn't read, with these words, and an empty line. The error is out of
/// memory.
fn unread_text(alloc: Global, path: &str, why: &str) -> Result<String, AllocError>
    ensures { IfOk result (λ report. string_bytes report ≡ unread_text path.now why.now) }
{
    format!(in alloc;
        "error: cannot read `{}`: {}\n\n",
        visible(path),
        visible(why)
    )
}

/// The workflow command which says that the file of this path isn't read, with these words. The error is out
/// of memory.
fn unread_command(alloc: Global, path: &str, why: &str) -> Result<String, AllocError>
    ensures { IfOk result (λ command. string_bytes command ≡ unread_command path.now why.now) }
{
    let sentence = unread_sentence(alloc, path, why)?;
    on_a_line(github_command(alloc, Some(path), None, sentence.as_str())?)
}

/// The sentence of that. The error is out of memory.
fn unread_sentence(alloc: Global, path: &str, why: &str) -> Result<String, AllocError>
    ensures { IfOk result (λ sentence. string_bytes sentence ≡ unread_sentence path.now why.now) }
{
    format!(in alloc; "cannot read `{path}`: {why}")
}

/// What a form says of a text that is refused. The error is out of memory.
pub(crate) fn parse_report(
    alloc: Global,
    form: Form,
    number: FileId,
    source: &Shared<SourceFile>,
    error: &ParseError,
) -> Result<String, AllocError>
    ensures { IfOk result (λ report.
        IsSaid Subject.Refusal form ((number, source.now) ∷ []) (Some error.now.location)
        (parse_error_about error.now) (Some (parse_error_details error.now)) (string_bytes report)) }
{
    let mut sources = Table::new(alloc);
    sources.insert(number, source.clone()?)?;
    let mut report = String::new(alloc);
    let location = Some(error.location);
    push_said(
        alloc,
        &mut report,
        Subject::Refusal,
        form,
        &sources,
        location,
        error,
    )?;
    Ok(report)
}

/// What a form says of this subject, without the line end behind it. The error is out of memory.
fn said_text<S: Sources, E: Reported>(
    alloc: Global,
    subject: Subject,
    form: Form,
    sources: &S,
    location: Option<SourceSpan>,
    fault: &E,
) -> Result<String, AllocError>
    ensures { IfOk result (λ text.
        IsFormText subject form E.output E.said_about E.said_details (S.files sources.now) location fault.now
        (string_bytes text)) }
{
    match (form, subject) {
        (Form::Words, _) => report_text(alloc, sources, location, fault),
        (Form::Json, Subject::Fault) => to_json(alloc, sources, location, fault),
        (Form::Json, Subject::Refusal) => refusal_to_json(alloc, sources, location, fault),
        (Form::Github, _) => to_github_command(alloc, sources, location, fault),
    }
}

/// Adds what a form says of this subject. The error is out of memory.
pub(crate) fn push_said<S: Sources, E: Reported>(
    alloc: Global,
    text: &mut String,
    subject: Subject,
    form: Form,
    sources: &S,
    location: Option<SourceSpan>,
    fault: &E,
) -> Result<(), AllocError>
    ensures { OnOk result
        (Adds (IsSaid subject form (S.files sources.now) location (E.said_about fault.now)
        (E.said_details fault.now)) (string_bytes text.old) (string_bytes text.new)) }
{
    text.push_str(said_text(alloc, subject, form, sources, location, fault)?.as_str())?;
    text.push_str("\n")
}

/// Adds what a form says of faults, in order. The error is out of memory.
pub(crate) fn push_each<S: Sources, E: Reported>(
    alloc: Global,
    text: &mut String,
    form: Form,
    sources: &S,
    faults: &[(Option<SourceSpan>, E)],
) -> Result<(), AllocError>
    ensures { OnOk result
        (Adds (SaysEach (λ fault. IsSaid Subject.Fault form (S.files sources.now) fault.0
        (E.said_about fault.1) (E.said_details fault.1)) faults.now) (string_bytes text.old)
        (string_bytes text.new)) }
{
    for fault in faults {
        push_said(
            alloc,
            text,
            Subject::Fault,
            form,
            sources,
            fault.0,
            &fault.1,
        )?;
    }
    Ok(())
}
