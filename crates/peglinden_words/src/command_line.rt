//! What the words of a command line ask for.
ghost use Rattle.std.specs.Prelude.{◌≡◌, IfErr, IfOk, Some};
ghost use Rattle.clap.specs.Matches.{found_of};
ghost use Rattle.clap.specs.Walk.{rows_of, texts};
ghost use Rattle.peglinden_words.specs.Refusals.{IsRefusal};
ghost use Rattle.peglinden_words.specs.Requests.{IsTyping, asked, asked_by, asked_of_task, formats};
ghost use Rattle.peglinden_words.specs.Requests.{reporting_by};

use crate::commands::peglinden;
use crate::contradictions::contradiction;
use crate::request::{Reporting, Request, Typing};
use crate::task::{Task, Writing};
use crate::values::{is_given, number, value, values};
use crate::words_error::{WordsError, words_error};
use clap::ArgMatches;
use clap::error::ErrorKind;
use std::alloc::{AllocError, Global};

/// What the words behind the program's name ask for.
///
/// `Help` comes only where the words call for help or for the version, and `Usage` only where they are a
/// mistake. That is a command or an argument that there isn't, one that is missing or given again, a number
/// that is none, two forms of reports, standard input named more than once, or `--write` with `--check` or
/// with standard input. `Memory` is out of memory. There is no other error.
pub fn read_words<'w>(alloc: Global, words: &'w [&'w str]) -> Result<Task<'w>, WordsError>
    ensures asked { IfOk result (λ task.
        asked (texts words.entry.now) ≡ Some (asked_of_task task)) }
    ensures refused { IfErr result (IsRefusal (texts words.entry.now)) }
{
    let mut command = peglinden(alloc)?;
    let matches = match command.try_get_matches_from_mut(words) {
        Ok(matches) => matches,
        Err(refused) => return Err(words_error(alloc, refused)),
    };
    let (name, found) = matches.subcommand().unwrap();
    let task = task(alloc, name, found)?;
    if let Some(sentence) = contradiction(&task) {
        let refused = command.error(ErrorKind::ArgumentConflict, sentence)?;
        return Err(words_error(alloc, refused));
    }
    Ok(task)
}

/// The task of the command of this name with what was found for its arguments. The error is out of
/// memory.
fn task<'w>(alloc: Global, name: &str, found: &ArgMatches<'w>) -> Result<Task<'w>, AllocError>
    ensures { IfOk result (λ task.
        asked_of_task task ≡ asked_by name.now (rows_of (found_of found.now))) }
{
    match name {
        "schema" => Ok(Task::Answer(Request::Schema {
            adopt: is_given(found, "adopt"),
            ignore_builtin: is_given(found, "ignore-builtin"),
            reporting: reporting(found),
            files: values(alloc, found, "files")?,
        })),
        "check" => Ok(Task::Answer(Request::Check(typing(alloc, found)?))),
        "typed" => Ok(Task::Answer(Request::Typed(typing(alloc, found)?))),
        "fields" => Ok(Task::Answer(Request::Fields(typing(alloc, found)?))),
        "lookup" => Ok(Task::Answer(Request::Lookup {
            coordinate: value(found, "coordinate"),
            reporting: reporting(found),
            files: values(alloc, found, "files")?,
        })),
        _ => format_task(alloc, found),
    }
}

/// The task of `format` with what was found for its arguments. The error is out of memory.
fn format_task<'w>(alloc: Global, found: &ArgMatches<'w>) -> Result<Task<'w>, AllocError>
    ensures { IfOk result (λ task. asked_of_task task ≡ formats (rows_of (found_of found.now))) }
{
    let check = is_given(found, "check");
    let reporting = reporting(found);
    let files = values(alloc, found, "files")?;
    if !is_given(found, "write") {
        return Ok(Task::Answer(Request::Format {
            check,
            reporting,
            files,
        }));
    }
    Ok(Task::Write(Writing {
        check,
        drop_comments: is_given(found, "drop-comments"),
        reporting,
        files,
    }))
}

/// What was found for the arguments of a command that types documents. The error is out of memory.
fn typing<'w>(alloc: Global, found: &ArgMatches<'w>) -> Result<Typing<'w>, AllocError>
    ensures { IfOk result (λ typing. IsTyping typing (rows_of (found_of found.now))) }
{
    Ok(Typing {
        reporting: reporting(found),
        schema: values(alloc, found, "schema")?,
        documents: values(alloc, found, "documents")?,
    })
}

/// How what is at fault is to be reported, by what was found for the arguments of a command.
fn reporting(found: &ArgMatches<'_>) -> Reporting
    ensures { result ≡ reporting_by (rows_of (found_of found.now)) }
{
    Reporting {
        json: is_given(found, "json"),
        github: is_given(found, "github"),
        max_faults: number(found, "max-faults"),
    }
}
