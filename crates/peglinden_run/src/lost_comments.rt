//! Files whose comments would be lost where they are written.
ghost use Rattle.std.specs.Prelude.{◌≡◌, ◌++◌, IfErr, IfOk, OnOk, string_bytes};
ghost use Rattle.std.specs.List.{filter_map};
ghost use Rattle.graphql_nodes.specs.LineColumns.{line_column_of};
ghost use Rattle.peglinden_run.specs.LostComments.{IsLossCause, IsLossPrinted, IsLossReport, KeepsComments};
ghost use Rattle.peglinden_run.specs.LostComments.{comment_words, commented_file, commented_files, lent_files};
ghost use Rattle.peglinden_run.specs.LostComments.{lines_words, loss_words, more_words};

use crate::comment_places::comment_places;
use crate::failure::Failure;
use crate::findings::at_most;
use crate::form::Form;
use crate::printed::Printed;
use crate::reports::{unwritten_printed, unwritten_report};
use graphql_ast::document::Document;
use graphql_nodes::line_column::LineColumn;
use graphql_nodes::source::SourceFile;
use graphql_tokens::comments::has_comment;
use std::alloc::{AllocError, Global};

/// So many comments of a file are named by their lines.
const MOST_NAMED: usize = 5;

/// Whether documents of so many files may be written: no text has a comment, or they are to be dropped.
///
/// `Files` says in this form of each file with a comment that it would be lost, and in which lines comments
/// begin. `Exhausted` comes where memory ran out. There is no other error.
pub(crate) fn refuse_comments(
    alloc: Global,
    form: Form,
    dropped: bool,
    files: usize,
    documents: &[Document],
) -> Result<(), Failure>
    ensures kept { OnOk result (KeepsComments dropped documents.now) }
    ensures causes { IfErr result (IsLossCause form dropped files documents.now) }
{
    if dropped {
        return Ok(());
    }
    let commented = commented_files(alloc, documents)?;
    if commented.is_empty() {
        return Ok(());
    }
    let printed = loss_printed(alloc, form, files, commented.as_slice())?;
    Err(Failure::Files(printed))
}

/// The files of documents whose texts have comments, in order. The error is out of memory.
fn commented_files<'d>(
    alloc: Global,
    documents: &'d [Document],
) -> Result<Vec<&'d SourceFile>, AllocError>
    ensures { IfOk result (λ files. lent_files files.items ≡ commented_files documents.now) }
{
    let mut files = Vec::new(alloc);
    for document in documents {
        push_commented(&mut files, document)?;
    }
    Ok(files)
}

/// Adds the file of a document, if its text has a comment. The error is out of memory.
fn push_commented<'d>(
    files: &mut Vec<&'d SourceFile>,
    document: &'d Document,
) -> Result<(), AllocError>
    ensures { OnOk result
        (lent_files files.new.items ≡ lent_files files.old.items ++ commented_file document.now) }
{
    let Some((_, file)) = document.sources.first() else {
        return Ok(());
    };
    let file: &SourceFile = file;
    if has_comment(file.text.as_str()) {
        files.push(file)?;
    }
    Ok(())
}

/// What is printed of these files, whose comments would be lost. The error is out of memory.
fn loss_printed(
    alloc: Global,
    form: Form,
    files: usize,
    commented: &[&SourceFile],
) -> Result<Printed, AllocError>
    ensures { IfOk result (IsLossPrinted form files (lent_files commented.now)) }
{
    let mut said = String::new(alloc);
    for file in commented {
        said.push_str(loss_report(alloc, form, file)?.as_str())?;
    }
    unwritten_printed(alloc, form, commented.len(), files, said)
}

/// What a form says of a file whose comments would be lost. The error is out of memory.
fn loss_report(alloc: Global, form: Form, file: &SourceFile) -> Result<String, AllocError>
    ensures { IfOk result (λ report. IsLossReport form file.now (string_bytes report)) }
{
    let offsets = comment_places(alloc, file.text.as_str())?;
    let named = at_most(offsets.as_slice(), Some(MOST_NAMED));
    let more = offsets.len().saturating_sub(named.len());
    let places = line_columns(alloc, file, named)?;
    let why = loss_words(alloc, places.as_slice(), more)?;
    let at = places.first().copied();
    let path = file.path.as_str();
    unwritten_report(alloc, form, "LosesComments", path, at, why.as_str())
}

/// The lines and columns of offsets in a file; there is none of one beyond the end. The error is out of
/// memory.
fn line_columns(
    alloc: Global,
    file: &SourceFile,
    offsets: &[usize],
) -> Result<Vec<LineColumn>, AllocError>
    ensures { IfOk result (λ places.
        places.items ≡ filter_map (line_column_of file.now.text) offsets.now) }
{
    offsets
        .iter()
        .filter_map(|offset| file.get_line_column(*offset))
        .collect(alloc)
}

/// Why a file isn't written whose comments begin at these places and at so many more. The error is out of
/// memory.
fn loss_words(alloc: Global, places: &[LineColumn], more: usize) -> Result<String, AllocError>
    ensures { IfOk result (λ words. string_bytes words ≡ loss_words more places.now) }
{
    let mut words = String::from_str(alloc, comment_words(places, more))?;
    push_lines(&mut words, places, more)?;
    words.push_str(" would be lost, unless `--drop-comments` is given")?;
    Ok(words)
}

/// What is said before the lines of comments that begin at these places and at so many more.
fn comment_words(places: &[LineColumn], more: usize) -> &'static str
    ensures { result.now ≡ comment_words more places.now }
{
    if places.len() == 1 && more == 0 {
        "its comment in line "
    } else {
        "its comments in lines "
    }
}

/// Adds the lines of places, and how many more there are, if any. The error is out of memory.
fn push_lines(text: &mut String, places: &[LineColumn], more: usize) -> Result<(), AllocError>
    ensures { OnOk result
        (string_bytes text.new ≡ string_bytes text.old ++ lines_words more places.now) }
{
    match places {
        [] => Ok(()),
        [at] => {
            write!(text, "{}", at.line)?;
            push_more(text, more)
        }
        [at, last] if more == 0 => write!(text, "{} and {}", at.line, last.line),
        [at, rest @ ..] => {
            write!(text, "{}, ", at.line)?;
            push_lines(text, rest, more)
        }
    }
}

/// Adds how many more there are, if any. The error is out of memory.
fn push_more(text: &mut String, more: usize) -> Result<(), AllocError>
    ensures { OnOk result (string_bytes text.new ≡ string_bytes text.old ++ more_words more) }
{
    if more == 0 {
        return Ok(());
    }
    write!(text, " and {more} more")
}
