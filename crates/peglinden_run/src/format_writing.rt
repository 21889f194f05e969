//! The command `format --write`.
ghost use Rattle.std.specs.Prelude.{IfErr, IfOk, OnErr, OnOk, option_map, string_bytes};
ghost use Rattle.program_io.specs.Replaced.{ReplacesNothing};
ghost use Rattle.peglinden_run.specs.Documents.{texts_of};
ghost use Rattle.peglinden_run.specs.Layouts.{changed_bytes, changed_pair};
ghost use Rattle.peglinden_run.specs.UnwrittenFiles.{IsUnwrittenReport};
ghost use Rattle.peglinden_run.specs.WriteCommand.{IsReplaceCause, IsTried, IsWriteAnswer, IsWriteCause};
ghost use Rattle.peglinden_run.specs.WriteCommand.{ReplacesEach};

use crate::answer::Answer;
use crate::documents::read_documents;
use crate::failure::Failure;
use crate::form::{Form, form_of};
use crate::format_command::{changed_text, faultless};
use crate::layouts::{ChangedFile, changed_files};
use crate::lost_comments::refuse_comments;
use crate::reports::{unwritten_printed, unwritten_report};
use peglinden_words::request::Reporting;
use program_io::file_error::FileError;
use program_io::files::Files;
use program_io::replacing::Replacing;
use std::alloc::{AllocError, Global};

/// The answer of `format --write` to files. Each whose text differs from its layout is replaced by that.
/// Their names are printed as `--check` prints them, and nothing is at fault.
///
/// `Files` says in this form of each file that it can't be read or is no document; or that it has comments,
/// which are not to be dropped. Then no file is replaced. Or it says of each that it can't be replaced; then
/// all others are. `Exhausted` comes where memory ran out; then the first of the files may be replaced. There
/// is no other error.
pub(crate) fn write_answer<F: Files, W: Replacing>(
    alloc: Global,
    drop_comments: bool,
    reporting: &Reporting,
    files: &F,
    writer: &mut W,
    paths: &[&str],
) -> Result<Answer, Failure>
    ensures means { IfOk result (IsWriteAnswer (F.holds files.now) drop_comments reporting.now
        (texts_of paths.now) (W.replaced writer.old) (W.replaced writer.new)) }
    ensures causes { IfErr result (IsWriteCause (F.holds files.now) (F.may_fail files.now) drop_comments
        reporting.now (texts_of paths.now) (W.replaced writer.old) (W.replaced writer.new)) }
{
    let form = form_of(reporting);
    let documents = read_documents(alloc, form, files, paths)?;
    refuse_comments(
        alloc,
        form,
        drop_comments,
        paths.len(),
        documents.as_slice(),
    )?;
    let changed = changed_files(alloc, documents.as_slice())?;
    let names = changed_text(alloc, form, changed.as_slice())?;
    let answer = faultless(alloc, form, paths.len(), names)?;
    replace_files(alloc, form, paths.len(), writer, changed.as_slice())?;
    Ok(answer)
}

/// Replaces files by their layouts; the words name so many files.
///
/// `Files` says in this form of each of these that it can't be replaced; all others are. `Exhausted` comes
/// where memory ran out; then the first of them may be replaced. There is no other error.
fn replace_files<W: Replacing>(
    alloc: Global,
    form: Form,
    files: usize,
    writer: &mut W,
    changed: &[ChangedFile<'_>],
) -> Result<(), Failure>
    ensures replaced { OnOk result
        (ReplacesEach (changed_bytes changed.now) (W.replaced writer.old) (W.replaced writer.new)) }
    ensures causes { IfErr result (IsReplaceCause form files (changed_bytes changed.now)
        (W.replaced writer.old) (W.replaced writer.new)) }
{
    let mut said = String::new(alloc);
    let mut left: usize = 0;
    for file in changed {
        if let Some(report) = replace_file(alloc, form, writer, file)? {
            said.push_str(report.as_str())?;
            left += 1;
        }
    }
    if left == 0 {
        return Ok(());
    }
    Err(Failure::Files(unwritten_printed(alloc, form, left, files, said)?))
}

/// Replaces a file by its layout; or what the form says of why it can't be replaced. The error is out of
/// memory; then it isn't replaced.
fn replace_file<W: Replacing>(
    alloc: Global,
    form: Form,
    writer: &mut W,
    file: &ChangedFile<'_>,
) -> Result<Option<String>, AllocError>
    ensures tried { IfOk result (λ report. IsTried form (changed_pair file.now)
        (option_map string_bytes report) (W.replaced writer.old) (W.replaced writer.new)) }
    ensures kept { OnErr result (ReplacesNothing (W.replaced writer.old) (W.replaced writer.new)) }
{
    match writer.replace(alloc, file.path, file.layout.as_str()) {
        Ok(()) => Ok(None),
        Err(FileError::Memory) => Err(AllocError),
        Err(error) => Ok(Some(failed_report(alloc, form, file.path, &error)?)),
    }
}

/// What a form says of a file of this path that can't be replaced, with the words of the system. The error is
/// out of memory.
fn failed_report(
    alloc: Global,
    form: Form,
    path: &str,
    error: &FileError,
) -> Result<String, AllocError>
    ensures { IfOk result (λ report. IsUnwrittenReport form path.now (string_bytes report)) }
{
    let why = error.to_string(alloc)?;
    unwritten_report(alloc, form, "CannotWrite", path, None, why.as_str())
}
