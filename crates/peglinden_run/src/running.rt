//! The run of the program.
ghost use Rattle.std.specs.Prelude.{◌≡◌, ◌≢◌, ◌⊎◌, [], OnErr, OnOk};
ghost use Rattle.clap.specs.Walk.{texts};
ghost use Rattle.program_io.specs.Writing.{IsBegun};
ghost use Rattle.peglinden_run.specs.Naming.{names_input};
ghost use Rattle.peglinden_words.specs.Requests.{asked, asked_of, asked_of_task};
ghost use Rattle.peglinden_run.specs.Runs.{AppendsAny, AsksForWords, EndsAs, IsFailureWritten, IsInWords};
ghost use Rattle.peglinden_run.specs.Runs.{IsTextWritten, IsUnanswered, IsWritten, MayEnd};
ghost use Rattle.peglinden_run.specs.Forms.{form_of};
ghost use Rattle.peglinden_run.specs.Status.{message_of, output_of, status_of};
ghost use Rattle.peglinden_run.specs.Tasks.{EndsNoted, EndsOver, EndsWriting, IsRunOn, RunsOut};

use crate::answer::Answer;
use crate::answering::answer_to;
use crate::failure::Failure;
use crate::form::Form;
use crate::format_writing::write_answer;
use crate::named_task::{NamedTask, named_task, task_names};
use crate::naming::names_input;
use apollo_compiler::compile_error::CompileError;
use graphql_nodes::collections::hash_keys::HashKeys;
use graphql_nodes::visible_text::visible;
use named_files::with_refusals::WithRefusals;
use peglinden_words::command_line::read_words;
use peglinden_words::request::Request;
use peglinden_words::task::{Task, Writing};
use peglinden_words::words_error::WordsError;
use program_io::files::Files;
use program_io::folders::Folders;
use program_io::input::Input;
use program_io::replacing::Replacing;
use program_io::status::Status;
use program_io::with_input::WithInput;
use program_io::writing::{write_out, write_text};
use std::alloc::Global;
use std::io::{self, ErrorKind, Write};

/// Runs the program on the words that follow its name, and answers how that ended. Words that name folders
/// and patterns stand for files in `files`, and files are replaced by `writer`.
///
/// `Done` and `Faults`: exactly the answer to what the words ask for stands on `output`, behind what was
/// there, and all of it is done. Or with `Done` it is the text of `--help` or of `--version`. With `Faults`
/// there are on `errors` the reports of what is at fault, and how many faults there are. With `--json` all
/// that stands on `output`, one object a line, a summary last, and nothing on `errors`. With `--github` there
/// are commands on `output`, and on `errors` how many faults there are. The output is written only once all
/// of it is there.
///
/// `Refused`: the words ask for nothing, or a text is no coordinate, which `errors` says, or a file, or
/// standard input, can't be read, is no document, or can't be written. Each such file is said, in words on
/// `errors`, with `--json` or `--github` on `output`, as faults are. `Exhausted`: memory or the numbers of
/// extensions ran out, which `errors` says. Nothing else was written on `output`.
///
/// `NotWritten`: something was to be written on `output`, and the writer failed, or its flush did. What went
/// out is a beginning of it, perhaps all. `errors` says so, unless the writer is a closed pipe.
///
/// First of all `errors` says which files are named more than once. Where it fails, a beginning of what it
/// should say stands there, and that changes nothing else. All tables hash by these keys, and what is written
/// is the same under any.
pub fn run<F: Folders, W: Replacing, R: Input, O: Write, E: Write>(
    alloc: Global,
    keys: HashKeys,
    words: &[&str],
    files: &F,
    writer: &mut W,
    reader: &mut R,
    output: &mut O,
    errors: &mut E,
) -> Status
    ensures run { IsRunOn (texts words.now) (F.stands files.now) (F.lists files.now) (F.may_hide files.now)
        (R.holds reader.old) (R.may_fail reader.old) (F.holds files.now) (F.may_fail files.now) reader.old
        reader.new writer.old writer.new (W.replaced writer.old) (W.replaced writer.new)
        (O.contents output.old) (O.contents output.new) errors.old errors.new (E.contents errors.old)
        (E.contents errors.new) result }
    ensures unanswered { IsUnanswered result → AsksForWords (asked (texts words.now))
        → output.new ≡ output.old }
{
    match read_words(alloc, words) {
        Ok(task) => run_task(alloc, keys, &task, files, writer, reader, output, errors),
        Err(WordsError::Help(text)) => end_with_help(text.as_str(), output, errors),
        Err(WordsError::Usage(text)) => end_with_usage(text.as_str(), errors),
        Err(WordsError::Memory) => end_without_memory(output, errors),
    }
}

/// Runs a task, and answers how that ended.
fn run_task<F: Folders, W: Replacing, R: Input, O: Write, E: Write>(
    alloc: Global,
    keys: HashKeys,
    task: &Task<'_>,
    files: &F,
    writer: &mut W,
    reader: &mut R,
    output: &mut O,
    errors: &mut E,
) -> Status
    ensures ends { EndsOver (F.stands files.now) (F.lists files.now) (F.may_hide files.now)
        (R.holds reader.old) (R.may_fail reader.old) (F.holds files.now) (F.may_fail files.now)
        (asked_of_task task.now) reader.old reader.new writer.old writer.new (W.replaced writer.old)
        (W.replaced writer.new)
        (O.contents output.old) (O.contents output.new) errors.old errors.new (E.contents errors.old)
        (E.contents errors.new) result
        ⊎ RunsOut reader.old reader.new writer.old writer.new (O.contents output.old) (O.contents output.new)
        (E.contents errors.old) (E.contents errors.new) result }
    ensures unanswered { IsUnanswered result → IsInWords (asked_of_task task.now) → output.new ≡ output.old }
{
    let Ok(names) = task_names(alloc, files, task) else {
        return end_without_memory(output, errors);
    };
    let Ok(named) = named_task(alloc, task, &names) else {
        return end_without_memory(output, errors);
    };
    run_named(alloc, keys, named, files, writer, reader, output, errors)
}

/// Says which files are named more than once, runs a task over its files, and answers how that ended.
fn run_named<F: Files, W: Replacing, R: Input, O: Write, E: Write>(
    alloc: Global,
    keys: HashKeys,
    named: NamedTask<'_>,
    files: &F,
    writer: &mut W,
    reader: &mut R,
    output: &mut O,
    errors: &mut E,
) -> Status
    ensures ends { EndsNoted named.entry (R.holds reader.old) (R.may_fail reader.old) (F.holds files.now)
        (F.may_fail files.now) reader.old reader.new writer.old writer.new (W.replaced writer.old)
        (W.replaced writer.new) (O.contents output.old) (O.contents output.new) errors.old errors.new
        (E.contents errors.old) (E.contents errors.new) result }
    ensures unanswered { IsUnanswered result → IsInWords (asked_of_task named.entry.task)
        → output.new ≡ output.old }
{
    let NamedTask {
        task,
        refused,
        notes,
    } = named;
    write_note(notes.as_str(), errors);
    let files = WithRefusals { files, refused };
    match &task {
        Task::Answer(request) => run_request(alloc, keys, request, &files, reader, output, errors),
        Task::Write(writing) => run_writing(alloc, writing, &files, writer, output, errors),
    }
}

/// Puts files in the layout of the printer, and answers how that ended.
fn run_writing<F: Files, W: Replacing, O: Write, E: Write>(
    alloc: Global,
    writing: &Writing<'_>,
    files: &F,
    writer: &mut W,
    output: &mut O,
    errors: &mut E,
) -> Status
    ensures ends { EndsWriting writing.now (F.holds files.now) (F.may_fail files.now) (W.replaced writer.old)
        (W.replaced writer.new) (O.contents output.old) (O.contents output.new) (E.contents errors.old)
        (E.contents errors.new) result }
    ensures unanswered { IsUnanswered result → form_of writing.now.reporting ≡ Form.Words
        → output.new ≡ output.old }
    ensures quiet { result ≡ Status.Done → errors.new ≡ errors.old }
{
    let paths = writing.files.as_slice();
    match write_answer(
        alloc,
        writing.drop_comments,
        &writing.reporting,
        files,
        writer,
        paths,
    ) {
        Ok(written) => end_with_answer(&written, output, errors),
        Err(refused) => end_with_failure(&refused, output, errors),
    }
}

/// Runs a request, and answers how that ended. Standard input is read where the request names it, before the
/// files. Where that fails, it is reported as a file that can't be read is.
pub fn run_request<F: Files, R: Input, O: Write, E: Write>(
    alloc: Global,
    keys: HashKeys,
    request: &Request<'_>,
    files: &F,
    reader: &mut R,
    output: &mut O,
    errors: &mut E,
) -> Status
    ensures ends { EndsAs (names_input request.now) request.now (R.holds reader.old) (R.may_fail reader.old)
        (F.holds files.now) (F.may_fail files.now) reader.old reader.new (O.contents output.old)
        (O.contents output.new) (E.contents errors.old) (E.contents errors.new) result }
    ensures unanswered { IsUnanswered result → IsInWords (asked_of request.now) → output.new ≡ output.old }
    ensures quiet { result ≡ Status.Done → errors.new ≡ errors.old }
{
    if !names_input(request) {
        return run_over(alloc, keys, request, files, output, errors);
    }
    let input = reader.read_all(alloc);
    run_over(
        alloc,
        keys,
        request,
        &WithInput { files, input },
        output,
        errors,
    )
}

/// Runs a request over these files, and answers how that ended.
fn run_over<F: Files, O: Write, E: Write>(
    alloc: Global,
    keys: HashKeys,
    request: &Request<'_>,
    files: &F,
    output: &mut O,
    errors: &mut E,
) -> Status
    ensures ends { MayEnd request.now (F.holds files.now) (F.may_fail files.now) (O.contents output.old)
        (O.contents output.new) (E.contents errors.old) (E.contents errors.new) result }
    ensures unanswered { IsUnanswered result → IsInWords (asked_of request.now) → output.new ≡ output.old }
    ensures quiet { result ≡ Status.Done → errors.new ≡ errors.old }
{
    match answer_to(alloc, keys, request, files) {
        Ok(answer) => end_with_answer(&answer, output, errors),
        Err(failure) => end_with_failure(&failure, output, errors),
    }
}

/// Says that memory ran out, and ends so.
fn end_without_memory<O: Write, E: Write>(output: &mut O, errors: &mut E) -> Status
    ensures ends { result ≡ Status.Exhausted }
    ensures says { IsBegun (message_of (Failure.Exhausted CompileError.Memory)) (E.contents errors.old)
        (E.contents errors.new) }
    ensures unwritten { output.new ≡ output.old }
{
    end_with_failure(&Failure::Exhausted(CompileError::Memory), output, errors)
}

/// Writes an answer, and ends as that went.
fn end_with_answer<O: Write, E: Write>(answer: &Answer, output: &mut O, errors: &mut E) -> Status
    ensures written { IsWritten answer.now (O.contents output.old) (O.contents output.new)
        (E.contents errors.old) (E.contents errors.new) result }
    ensures quiet { result ≡ Status.Done → errors.new ≡ errors.old }
{
    match write_out(output, answer.printed.output.as_str()) {
        Ok(()) if answer.has_faults => {
            write_report(answer.printed.errors.as_str(), errors);
            Status::Faults
        }
        Ok(()) => Status::Done,
        Err(error) => end_unwritten(error, errors),
    }
}

/// Writes the text that the words ask for, as of `--help`, and ends as that went.
fn end_with_help<O: Write, E: Write>(text: &str, output: &mut O, errors: &mut E) -> Status
    ensures written { IsTextWritten text.now (O.contents output.old) (O.contents output.new) result }
    ensures quiet { result ≡ Status.Done → errors.new ≡ errors.old }
{
    match write_out(output, text) {
        Ok(()) => Status::Done,
        Err(error) => end_unwritten(error, errors),
    }
}

/// Says that the output isn't written, and ends so. A closed pipe is no message.
fn end_unwritten<E: Write>(error: io::Error, errors: &mut E) -> Status
    ensures { result ≡ Status.NotWritten }
{
    if error.kind() != ErrorKind::BrokenPipe {
        let _ = writeln!(errors, "error: cannot write output: {error}");
    }
    Status::NotWritten
}

/// Says why a request has no answer, and ends so.
fn end_with_failure<O: Write, E: Write>(failure: &Failure, output: &mut O, errors: &mut E) -> Status
    ensures written { IsFailureWritten failure.now (O.contents output.old) (O.contents output.new)
        (E.contents errors.old) (E.contents errors.new) result }
    ensures unwritten { output_of failure.now ≡ [] → output.new ≡ output.old }
    ensures ends { output_of failure.now ≡ [] → result ≡ status_of failure.now }
    ensures quiet { result ≡ Status.Done → errors.new ≡ errors.old }
{
    if let Err(error) = write_if_any(output, failure.output()) {
        return end_unwritten(error, errors);
    }
    write_report(failure.message(), errors);
    failure.status()
}

/// Writes all of a text, and has it written through, where it isn't empty. The error is the writer's, after
/// which a beginning of the text is written.
fn write_if_any<O: Write>(output: &mut O, text: &str) -> io::Result<()>
    ensures written { OnOk result (AppendsAny (O.contents output.old) (O.contents output.new) text.now) }
    ensures begun { OnErr result (IsBegun text.now (O.contents output.old) (O.contents output.new)) }
    ensures unwritten { text.now ≡ [] → output.new ≡ output.old }
    ensures some { OnErr result (text.now ≢ []) }
{
    if text.is_empty() {
        return Ok(());
    }
    write_out(output, text)
}

/// Says in which way the words are a mistake, and ends so.
fn end_with_usage<E: Write>(message: &str, errors: &mut E) -> Status
    ensures { result ≡ Status.Refused }
{
    let _ = write_visible_lines(errors, message);
    Status::Refused
}

/// Writes a text that may hold words of the command line, each of its lines as [`visible`] shows it.
fn write_visible_lines<E: Write>(errors: &mut E, text: &str) -> io::Result<()> {
    for line in text.lines() {
        writeln!(errors, "{}", visible(line))?;
    }
    Ok(())
}

/// Writes a text for standard error. Where that fails, a beginning of it is written, and nothing says so.
fn write_report<E: Write>(text: &str, errors: &mut E)
    ensures { IsBegun text.now (E.contents errors.old) (E.contents errors.new) }
{
    let _ = write_text(errors, text);
}

/// Writes what standard error says first, if anything.
fn write_note<E: Write>(text: &str, errors: &mut E)
    ensures written { IsBegun text.now (E.contents errors.old) (E.contents errors.new) }
    ensures quiet { text.now ≡ [] → errors.new ≡ errors.old }
{
    if !text.is_empty() {
        write_report(text, errors);
    }
}
