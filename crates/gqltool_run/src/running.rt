//! The run of the program.
ghost use Rattle.std.specs.Prelude.{◌≡◌, ℕ, List, string_bytes};
ghost use Rattle.bench_notation.specs.Line.{texts_of};
ghost use Rattle.gqltool_run.specs.Prepared.{AreLinesOf, has_fault};
ghost use Rattle.gqltool_run.specs.Runs.{IsRun, IsSentOut, IsWritten};
ghost use Rattle.gqltool_run.specs.Status.{Writes, status_of};

use crate::answer::Answer;
use crate::answering::prepare;
use crate::failure::Failure;
use crate::leaving::leave_to_exit;
use crate::outlet::CutShort;
use crate::prepared::Prepared;
use crate::walk_command::walk_answer;
use apollo_compiler::compile_error::CompileError;
use apollo_compiler::compiled::Compiled;
use graphql_nodes::collections::hash_keys::HashKeys;
use program_io::input::Input;
use program_io::status::Status;
use program_io::writing::write_out;
use std::alloc::Global;
use std::io::Write;

/// Runs the program on the words that follow its name, and answers how that ended.
///
/// `Done` and `Faults`: exactly the answer of [`answer_to`](crate::answering::answer_to) stands on `output`,
/// behind what was there, and nothing was written on `errors`. The output is written only once all of it is
/// there. But that of `walk`, which may be long, goes out piece by piece while it is made, once nothing can
/// be refused any more.
///
/// `Refused` and `Exhausted`: nothing was written on `output`, for an error that `answer_to` has. Where
/// memory runs out while the answer of `walk` is made, a beginning of it may be written. The message of the
/// error is written on `errors`, as one line, or as more where the text of `coord` has line feeds. Words that
/// are no command, and `coord` with a text of no coordinate, are refused before anything is read.
///
/// `NotWritten`: there was an answer, and the writer failed, or its flush did. What went out is a beginning
/// of the answer, perhaps all of it. `cannot write output` is written on `errors`.
///
/// That something cannot be said on `errors` changes nothing, and but for `Done` and `Faults` no clause says
/// what stands there. Tables hash by fixed keys: for an input from strangers, take [`run_with_keys`].
///
/// A program ends after its run, so what was built of the input is left to the end of the process. That is
/// faster by a third. A process that goes on takes the calls of `apollo_compiler`, which free what they make.
pub fn run<R: Input, O: Write, E: Write>(
    alloc: Global,
    words: &[&str],
    reader: &mut R,
    output: &mut O,
    errors: &mut E,
) -> Status
    ensures { IsRun (texts_of words.now) (R.holds reader.old) (R.may_fail reader.old) O.contents reader.old
        reader.new output.old output.new errors.old errors.new result }
{
    run_with_keys(alloc, HashKeys::FIXED, words, reader, output, errors)
}

/// The same as [`run`], for an input from strangers: its tables hash by these keys. What is written is the
/// same under any keys.
pub fn run_with_keys<R: Input, O: Write, E: Write>(
    alloc: Global,
    keys: HashKeys,
    words: &[&str],
    reader: &mut R,
    output: &mut O,
    errors: &mut E,
) -> Status
    ensures { IsRun (texts_of words.now) (R.holds reader.old) (R.may_fail reader.old) O.contents reader.old
        reader.new output.old output.new errors.old errors.new result }
{
    match prepare(alloc, keys, words, reader) {
        Ok(Prepared::Answer(answer)) => end_with_answer(&answer, output, errors),
        Ok(Prepared::Walks(compiled)) => end_with_walks(alloc, compiled, output, errors),
        Err(failure) => end_without_answer(failure, errors),
    }
}

/// Says why there is nothing to write, and ends so.
fn end_without_answer<E: Write>(failure: Failure, errors: &mut E) -> Status
    ensures { result ≡ status_of failure }
{
    let _ = writeln!(errors, "{failure}");
    failure.status()
}

/// Writes an answer, and ends as that went.
fn end_with_answer<O: Write, E: Write>(answer: &Answer, output: &mut O, errors: &mut E) -> Status
    ensures written { IsWritten (string_bytes answer.now.text) answer.now.has_faults (O.contents output.old)
        (O.contents output.new) result }
    ensures quiet { Writes result → errors.new ≡ errors.old }
{
    match write_out(output, answer.text.as_str()) {
        Ok(()) if answer.has_faults => Status::Faults,
        Ok(()) => Status::Done,
        Err(_) => end_unwritten(errors),
    }
}

/// Says the answer of `walk` on what the input is compiled to, piece by piece, and ends as that went.
fn end_with_walks<O: Write, E: Write>(
    alloc: Global,
    compiled: Compiled,
    output: &mut O,
    errors: &mut E,
) -> Status
    ensures sent { (text : List ℕ)
        × (AreLinesOf compiled text
        × IsSentOut text (has_fault compiled) (O.contents output.old) (O.contents output.new) result) }
    ensures quiet { Writes result → errors.new ≡ errors.old }
{
    match walk_answer(alloc, &compiled, output) {
        Ok(last) => {
            leave_to_exit(compiled);
            end_with_answer(&last, output, errors)
        }
        Err(CutShort::Memory) => end_without_answer(
            Failure::Exhausted(CompileError::Memory),
            errors,
        ),
        Err(CutShort::NotWritten) => end_unwritten(errors),
    }
}

/// Says that the output can't be written, and ends so.
fn end_unwritten<E: Write>(errors: &mut E) -> Status
    ensures { result ≡ Status.NotWritten }
{
    let _ = writeln!(errors, "cannot write output");
    Status::NotWritten
}
