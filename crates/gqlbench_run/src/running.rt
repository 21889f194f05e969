//! The run of the program.

use crate::bench::Bench;
use crate::command::read_command;
use crate::failure::Failure;
use crate::memory::{ProcessStatus, peak_memory};
use crate::phases::time;
use crate::report::{Value, report_text};
use gqltool_run::failure::Failure as InputFailure;
use graphql_nodes::collections::hash_keys::HashKeys;
use program_io::status::Status;
use program_io::texts::read_text;
use program_io::writing::write_out;
use std::alloc::Global;
use std::io::{Read, Write};
use std::random::RandomSource;
use std::time::Clock;

/// Runs the program on the words that follow its name: reads the input once, takes the times, and writes the
/// report.
///
/// `Done`: the report stands on `output`, behind what was there. `Refused` and `Exhausted`: nothing was
/// written on `output`. Words that are no command are refused before anything is read. `NotWritten`: there
/// was a report, and the writer failed, or its flush did; nothing is said of what went out. `Faults` doesn't
/// come: a report says how many faults there are.
///
/// The output is written only once all of it is there. What is wrong is said on `errors`, in one line, and so
/// is how far a long run is. That it cannot be said there changes nothing. A clock that can't be read ends
/// the run as running out of memory does. So does a system that gives no random keys where the words ask for
/// them. They are drawn once, before anything is read; without the word nothing is drawn, and tables hash by
/// fixed keys. How much memory the process had is asked last; where the system doesn't say, the report has no
/// line of it.
pub fn run<S: Clock + RandomSource + ProcessStatus, R: Read, O: Write, E: Write>(
    alloc: Global,
    system: &S,
    words: &[&str],
    reader: &mut R,
    output: &mut O,
    errors: &mut E,
) -> Status {
    let text = match report(alloc, system, words, reader, errors) {
        Ok(text) => text,
        Err(failure) => {
            let _ = writeln!(errors, "{failure}");
            return failure.status();
        }
    };
    match write_out(output, text.as_str()) {
        Ok(()) => Status::Done,
        Err(_) => {
            let _ = writeln!(errors, "cannot write output");
            Status::NotWritten
        }
    }
}

/// The text of the report that the words ask for.
fn report<S: Clock + RandomSource + ProcessStatus, R: Read, E: Write>(
    alloc: Global,
    system: &S,
    words: &[&str],
    reader: &mut R,
    errors: &mut E,
) -> Result<String, Failure> {
    let command = read_command(words).ok_or(Failure::Usage)?;
    let keys = if command.random_keys {
        HashKeys::drawn(system).map_err(|_| Failure::Randomness)?
    } else {
        HashKeys::FIXED
    };
    let bench = Bench {
        alloc,
        keys,
        command,
    };
    let input = read_text(alloc, reader).map_err(InputFailure::from)?;
    let ready = bench.read(input.as_str())?;
    let mut items = time(&bench, system, &ready, errors)?;
    if let Some(kilobytes) = peak_memory(alloc, system) {
        items.push((" kB\n", "memory_kb", Value::Memory(kilobytes)))?;
    }
    Ok(report_text(alloc, command.json, items.as_slice())?)
}
