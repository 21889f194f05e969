//! The commands of the program.

use apollo_compiler::compile_options::CompileOptions;
use gqltool_run::schema_options::read_options;

/// What is timed.
#[derive(Clone, Copy)]
pub enum Work {
    /// A schema built, written out, built again from that, and freed.
    Schema,
    /// Lookups in a schema that is built once.
    Lookups,
    /// A typed document built over a schema that is built once, written out, and freed.
    Documents,
    /// Walks over a typed document that is built once.
    Walks,
    /// The leaf faults of a typed document that is built once.
    LeafFaults,
    /// Documents compiled in one call, and beside it each phase of that.
    Compilation,
    /// GraphQL text read, what was read written as GraphQL text, and both freed.
    Text,
}

const COMPILATION: &str =
    "compile all-phases schema-build to_ast rebuild rebuild-to_ast doc-build doc-to_ast drop";

/// What the words after the program's name say.
#[derive(Clone, Copy)]
pub struct Command {
    pub work: Work,
    /// The names of its phases, with a blank between two, in the order in which they are printed.
    pub phases: &'static str,
    /// `--json`: a JSON object a line, in place of a line for those who read it.
    pub json: bool,
    /// `--random-keys`: tables hash by keys that are drawn for this run.
    pub random_keys: bool,
    pub options: CompileOptions,
    /// How many times the work is done.
    pub repeat: usize,
}

/// The command that these words are. They are the word of its work, then `--json` or not, `--random-keys` or
/// not, the options of a build, and a number from 1 on. Other words are none. It takes no memory.
pub fn read_command(words: &[&str]) -> Option<Command> {
    let (word, rest) = words.split_first()?;
    let (number, choices) = rest.split_last()?;
    let (work, phases) = read_work(*word)?;
    let (json, choices) = without("--json", choices);
    let (random_keys, choices) = without("--random-keys", choices);
    Some(Command {
        work,
        phases,
        json,
        random_keys,
        options: read_options(choices)?,
        repeat: number.parse().ok().filter(|repeat| *repeat > 0)?,
    })
}

/// The work that a word has timed, and its phases.
fn read_work(word: &str) -> Option<(Work, &'static str)> {
    match word {
        "schema" => Some((Work::Schema, "schema-build to_ast rebuild+eq drop")),
        "lookups" => Some((Work::Lookups, "type_field is_subtype")),
        "doc" => Some((Work::Documents, "doc-build doc-to_ast drop")),
        "walk" => Some((Work::Walks, "root-walks all-walks")),
        "leaf" => Some((Work::LeafFaults, "leaf_faults")),
        "compile" => Some((Work::Compilation, COMPILATION)),
        "text" => Some((Work::Text, "parse print drop")),
        _ => None,
    }
}

/// Whether this word comes first, and the words behind it.
fn without<'a>(word: &str, words: &'a [&'a str]) -> (bool, &'a [&'a str]) {
    match words.split_first() {
        Some((first, rest)) if *first == word => (true, rest),
        _ => (false, words),
    }
}
