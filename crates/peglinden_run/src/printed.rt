//! What a run prints.
ghost use Rattle.std.specs.Prelude.{◌≡◌, ◌++◌, IfOk, OnOk, string_bytes};
ghost use Rattle.peglinden_run.specs.Printed.{IsArranged, shown_note, tally_line};

use crate::form::Form;
use crate::lines::summary_line;
use apollo_reporting::counts::faults_line;
use std::alloc::{AllocError, Global};

/// What is to be written on standard output and on standard error, each whole.
#[derive(Debug, Drop)]
pub struct Printed {
    pub output: String,
    pub errors: String,
}

/// How much is at fault, and in how many files.
#[derive(Debug, Clone, Copy)]
pub struct Tally {
    /// How many faults there are, or the greatest number where they are more.
    pub faults: usize,
    /// How many of them are shown.
    pub shown: usize,
    /// How many files the words name.
    pub files: usize,
}

/// What is printed in a form: the output of a command, and what is said of its faults, which are so many. The
/// error is out of memory.
pub(crate) fn arranged(
    alloc: Global,
    form: Form,
    tally: Tally,
    output: String,
    said: String,
) -> Result<Printed, AllocError>
    ensures { IfOk result (IsArranged form tally (string_bytes output) (string_bytes said)) }
{
    match form {
        Form::Words => Ok(Printed {
            output,
            errors: joined(said, tally_line(alloc, tally)?.as_str())?,
        }),
        Form::Json => {
            let lines = joined(said, output.as_str())?;
            Ok(Printed {
                output: joined(lines, summary_line(alloc, tally)?.as_str())?,
                errors: String::new(alloc),
            })
        }
        Form::Github => Ok(Printed {
            output: said,
            errors: tally_line(alloc, tally)?,
        }),
    }
}

/// A text with another behind it. The error is out of memory.
fn joined(mut text: String, behind: &str) -> Result<String, AllocError>
    ensures { IfOk result (λ whole. string_bytes whole ≡ string_bytes text ++ behind.now) }
{
    text.push_str(behind)?;
    Ok(text)
}

/// How many faults there are, on a line, and how many of them are shown, if not all; nothing where there is
/// none. The error is out of memory.
pub(crate) fn tally_line(alloc: Global, tally: Tally) -> Result<String, AllocError>
    ensures { IfOk result (λ line. string_bytes line ≡ tally_line tally) }
{
    if tally.faults == 0 {
        return Ok(String::new(alloc));
    }
    let mut line = faults_line(tally.faults).to_string(alloc)?;
    push_shown(&mut line, tally)?;
    line.push_str("\n")?;
    Ok(line)
}

/// Adds how many of the faults are shown, where that is not all. The error is out of memory.
fn push_shown(line: &mut String, tally: Tally) -> Result<(), AllocError>
    ensures { OnOk result (string_bytes line.new ≡ string_bytes line.old ++ shown_note tally) }
{
    if tally.shown == tally.faults {
        return Ok(());
    }
    write!(line, ", {} shown", tally.shown)
}
