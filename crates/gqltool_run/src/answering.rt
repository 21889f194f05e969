//! The answer to the words of the command line and an input.
ghost use Rattle.std.specs.Prelude.{◌≡◌, All, Err, IfErr, IfOk, IsErr, OnOk, false, string_bytes};
ghost use Rattle.program_io.specs.Files.{HoldsSome};
ghost use Rattle.bench_notation.specs.Line.{IsLine, lines_of, texts_of};
ghost use Rattle.gqltool_run.specs.Commands.{IsAnswerTo, IsCauseOf, IsPrintTo};
ghost use Rattle.gqltool_run.specs.Prepared.{IsReadyOf, IsReadyTo};
ghost use Rattle.gqltool_run.specs.Runs.{IsCauseTo};
ghost use Rattle.gqltool_run.specs.Tasks.{AreNoCommand, AskNoCoordinate};

use crate::answer::Answer;
use crate::coord_command::coord_answer;
use crate::doc_command::doc_answer;
use crate::document_building::compile_documents;
use crate::failure::Failure;
use crate::leaf_command::leaf_answer;
use crate::prepared::Prepared;
use crate::schema_command::schema_answer;
use crate::task::{Task, read_task};
use crate::walk_command::whole_walk_answer;
use apollo_coordinate::laws::coordinates;
use graphql_nodes::collections::hash_keys::HashKeys;
use program_io::input::Input;
use program_io::texts::read_text;
use std::alloc::Global;

/// The answer to these words and all that there is to read.
///
/// `Usage` and `NoCoordinate` come for words that [`read_task`] refuses, and nothing is read then.
/// `CannotRead` comes where the input can't be read as a text: of
/// [`BytesInMemory`](program_io::input::BytesInMemory) only where it isn't UTF-8. `RefusedLine` names the
/// first line of it that says nothing where it stands, and `NoDivision` that none divides it, for `doc`,
/// `walk` and `leaf`. `Exhausted` comes with `ExtensionIds` only where the numbers don't suffice for the
/// extensions of the input. With `Memory` it is out of memory, and says nothing of the words or the input.
/// There is no other error. What was built is left to the end of the process.
pub fn answer_to<R: Input>(
    alloc: Global,
    keys: HashKeys,
    words: &[&str],
    reader: &mut R,
) -> Result<Answer, Failure>
    ensures means { IfOk result (λ answer.
        HoldsSome (R.holds reader.old) (λ input.
        IsAnswerTo (texts_of words.now) input (string_bytes answer.text) answer.has_faults)) }
    ensures prints { IfOk result (λ answer. answer.has_faults ≡ false
        → IsPrintTo (texts_of words.now) (string_bytes answer.text)) }
    ensures causes { IfErr result
        (IsCauseTo (texts_of words.now) (R.holds reader.old) (R.may_fail reader.old)) }

    // Words that are no command are refused before anything is read, and so is a text of no coordinate,
    // unless memory ran out.
    ensures usage { AreNoCommand (texts_of words.now) → (result ≡ Err Failure.Usage)
        × (reader.new ≡ reader.old) }
    ensures no_coordinate { AskNoCoordinate (texts_of words.now) → IsErr result × (reader.new ≡ reader.old) }
{
    match prepare(alloc, keys, words, reader) {
        Ok(Prepared::Answer(answer)) => Ok(answer),
        Ok(Prepared::Walks(compiled)) => whole_walk_answer(alloc, compiled),
        Err(failure) => Err(failure),
    }
}

/// What is ready to be said to these words and all that there is to read: after it nothing is refused any
/// more.
///
/// The errors are those of [`answer_to`].
pub(crate) fn prepare<R: Input>(
    alloc: Global,
    keys: HashKeys,
    words: &[&str],
    reader: &mut R,
) -> Result<Prepared, Failure>
    ensures ready { IfOk result (IsReadyTo (texts_of words.now) (R.holds reader.old)) }
    ensures causes { IfErr result
        (IsCauseTo (texts_of words.now) (R.holds reader.old) (R.may_fail reader.old)) }
    ensures usage { AreNoCommand (texts_of words.now) → (result ≡ Err Failure.Usage)
        × (reader.new ≡ reader.old) }
    ensures no_coordinate { AskNoCoordinate (texts_of words.now) → IsErr result × (reader.new ≡ reader.old) }
{
    coordinates();
    let task = read_task(alloc, words)?;
    let input = read_text(alloc, reader)?;
    prepare_task(alloc, keys, &task, input.as_str())
}

/// What is ready to be said to what was asked and an input.
///
/// The errors are those of [`build_input`](crate::building::build_input), and of `doc`, `walk` and `leaf`
/// those of [`compile_documents`].
fn prepare_task(
    alloc: Global,
    keys: HashKeys,
    task: &Task,
    input: &str,
) -> Result<Prepared, Failure>
    ensures read { OnOk result (All IsLine (lines_of input.now)) }
    ensures ready { IfOk result (IsReadyOf task.now input.now) }
    ensures causes { IfErr result (IsCauseOf task.now input.now) }
{
    match task {
        Task::Schema(options) => match schema_answer(alloc, keys, *options, input) {
            Ok(answer) => Ok(Prepared::Answer(answer)),
            Err(failure) => Err(failure),
        },
        Task::Coord(coordinate) => match coord_answer(alloc, keys, coordinate, input) {
            Ok(answer) => Ok(Prepared::Answer(answer)),
            Err(failure) => Err(failure),
        },
        Task::Doc => match doc_answer(alloc, keys, input) {
            Ok(answer) => Ok(Prepared::Answer(answer)),
            Err(failure) => Err(failure),
        },
        Task::Walk => match compile_documents(alloc, keys, input) {
            Ok(compiled) => Ok(Prepared::Walks(compiled)),
            Err(failure) => Err(failure),
        },
        Task::Leaf => match leaf_answer(alloc, keys, input) {
            Ok(answer) => Ok(Prepared::Answer(answer)),
            Err(failure) => Err(failure),
        },
    }
}
