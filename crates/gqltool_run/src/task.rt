//! What the words of the command line ask for.
ghost use Rattle.std.specs.Prelude.{◌≡◌, ℕ, List, Err, IfErr, IfOk, MatchOption, OnOk};
ghost use Rattle.bench_notation.specs.Line.{texts_of};
ghost use Rattle.apollo_compiler.specs.declared.compile_options.CompileOptions.{CompileOptions};
ghost use Rattle.apollo_coordinate.specs.CoordinateText.{IsCoordinateText, SaysCoordinate};
ghost use Rattle.gqltool_run.specs.SchemaOptions.{AreSchemaWords};
ghost use Rattle.gqltool_run.specs.Tasks.{AreCoordWords, AreNoCommand, AreNoDocumentWords, Ask, IsRefusalOf};
ghost use Rattle.gqltool_run.specs.Tasks.{IsTextRefusal};

use crate::failure::Failure;
use crate::schema_options::read_options;
use apollo_compiler::compile_error::CompileError;
use apollo_compiler::compile_options::CompileOptions;
use apollo_coordinate::SchemaCoordinate;
use apollo_coordinate::parse_error::SchemaCoordinateParseError;
use std::alloc::Global;

/// What the words after the program's name ask for.
#[derive(Debug, Drop)]
pub enum Task {
    /// `schema` and its options: the schema of the input's documents, and its faults.
    Schema(CompileOptions),
    /// `coord` and a text: what its coordinate points to in the schema of the input's documents, and the
    /// schema's faults.
    Coord(SchemaCoordinate),
    /// `doc`: the typed document of the input's executable documents, and the faults of its schema and its
    /// own.
    Doc,
    /// `walk`: what walks over the operations and fragments of that document give, and the same faults.
    Walk,
    /// `leaf`: the leaf faults of that document over its schema, and the same faults.
    Leaf,
}

/// What these words ask for.
///
/// `Usage` comes exactly for words that are no command, and `NoCoordinate` for `coord` with a text of no
/// coordinate. `NoCoordinate` carries that text whole, but for the `@` that it may begin with. `Exhausted` is
/// out of memory, and comes only for `coord`. There is no other error.
pub fn read_task(alloc: Global, words: &[&str]) -> Result<Task, Failure>
    ensures asked { IfOk result (Ask (texts_of words.now)) }
    ensures refused { IfErr result (IsRefusalOf (texts_of words.now)) }
    ensures usage { AreNoCommand (texts_of words.now) → result ≡ Err Failure.Usage }
{
    if let Some(task) = document_task(words) {
        return Ok(task);
    }
    if let Some(options) = schema_options(words) {
        return Ok(Task::Schema(options));
    }
    let Some(text) = coordinate_text(words) else {
        return Err(Failure::Usage);
    };
    match read_coordinate(alloc, text) {
        Ok(coordinate) => Ok(Task::Coord(coordinate)),
        Err(failure) => Err(failure),
    }
}

/// The task of `doc`, `walk` or `leaf`, where the words are one of these commands.
fn document_task(words: &[&str]) -> Option<Task>
    ensures { MatchOption result (AreNoDocumentWords (texts_of words.now)) (Ask (texts_of words.now)) }
{
    match words {
        ["doc"] => Some(Task::Doc),
        ["walk"] => Some(Task::Walk),
        ["leaf"] => Some(Task::Leaf),
        _ => None,
    }
}

/// The options of `schema`, where the words are this command.
fn schema_options(words: &[&str]) -> Option<CompileOptions>
    ensures { MatchOption result ((options : CompileOptions)
        → ¬ AreSchemaWords (texts_of words.now) options) (AreSchemaWords (texts_of words.now)) }
{
    match words {
        ["schema", options @ ..] => read_options(options),
        _ => None,
    }
}

/// The text of `coord`, where the words are this command.
fn coordinate_text<'a>(words: &[&'a str]) -> Option<&'a str>
    ensures { MatchOption result ((text : List ℕ)
        → ¬ AreCoordWords (texts_of words.now) text) (λ text. AreCoordWords (texts_of words.now) text.now) }
{
    match words {
        ["coord", text] => Some(*text),
        _ => None,
    }
}

/// The coordinate of a text.
fn read_coordinate(alloc: Global, text: &str) -> Result<SchemaCoordinate, Failure>
    ensures says { IfOk result (SaysCoordinate text.now) }
    ensures grammar { OnOk result (IsCoordinateText text.now) }
    ensures refused { IfErr result (IsTextRefusal text.now) }
{
    match SchemaCoordinate::from_str(alloc, text) {
        Ok(coordinate) => Ok(coordinate),
        Err(SchemaCoordinateParseError::InvalidName(error)) => Err(Failure::NoCoordinate(error)),
        Err(SchemaCoordinateParseError::Memory) => Err(Failure::Exhausted(CompileError::Memory)),
        // A text of no coordinate is refused as no name.
        Err(SchemaCoordinateParseError::InvalidFormat) => unreachable!(),
    }
}
