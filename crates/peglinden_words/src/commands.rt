//! The program and its commands, as `clap` reads them.
ghost use Rattle.std.specs.Prelude.{◌≡◌, ◌∷◌, [], IfOk, false};
ghost use Rattle.clap.specs.Simple.{Shape};
ghost use Rattle.clap.specs.Walk.{rule_of};
ghost use Rattle.peglinden_words.specs.Commands.{IsCommand, IsProgram, command, document_command};
ghost use Rattle.peglinden_words.specs.Commands.{format_command, peglinden, program, reporting_before};
ghost use Rattle.peglinden_words.specs.Commands.{schema_command, with_reporting};

use crate::arguments::{
    coordinate, files, flag, github_flag, json_flag, max_faults_option, schema_option,
};
use clap::{Arg, Command};
use std::alloc::{AllocError, Global};

/// What the help of the program ends with.
const STATUSES: &str = "Exit status:
  0  nothing is at fault
  1  something is at fault
  2  a file, a text or the words of the command line are refused
  3  out of memory
  4  the output can't be written";

/// What the help of `check` ends with.
const CHECK_STATUSES: &str =
    "It reports what building the schema and typing the documents find. It is not the validation
of the GraphQL specification of October 2021, section 5.

Exit status:
  0  there is no fault
  1  there are faults
  2  a file can't be read or its text is refused, or the words of the command line are
  3  out of memory
  4  the output can't be written";

/// What the help of `schema`, `typed` and `fields` ends with.
const FAULT_STATUSES: &str = "Exit status:
  0  there is no fault
  1  there are faults
  2  a file can't be read or its text is refused, or the words of the command line are
  3  out of memory
  4  the output can't be written";

/// What the help of `lookup` ends with.
const LOOKUP_STATUSES: &str = "Exit status:
  0  the coordinate points to something
  1  the coordinate points to nothing
  2  a file can't be read or its text is refused, or the words of the command line are
  3  out of memory
  4  the output can't be written";

/// What the help of `format` ends with.
const FORMAT_STATUSES: &str = "Exit status:
  0  the files are printed, or with `--check` none differs
  1  with `--check`, a file differs
  2  a file can't be read or its text is refused, or the words of the command line are
  3  out of memory
  4  the output can't be written";

/// `peglinden` with its commands.
pub fn peglinden<'w>(alloc: Global) -> Result<Command<'w>, AllocError>
    ensures { IfOk result (λ command. IsProgram command peglinden) }
{
    let program = program(alloc)?;
    let schema = schema_command(alloc)?;
    let check = document_command(
        alloc,
        "check",
        "Report the faults of a schema and of documents over it",
        CHECK_STATUSES,
    )?;
    let typed = document_command(
        alloc,
        "typed",
        "Print documents as they are typed over a schema",
        FAULT_STATUSES,
    )?;
    let fields = document_command(
        alloc,
        "fields",
        "Print the fields that each operation reaches, and how often they stand there",
        FAULT_STATUSES,
    )?;
    let lookup = command_on_files(
        alloc,
        "lookup",
        "Print the definition that a schema coordinate points to, and where it stands",
        LOOKUP_STATUSES,
        coordinate(alloc),
        files(alloc, "files", "FILE", "The files of the schema"),
    )?;
    let format = format_command(alloc)?;
    program
        .subcommand(schema)?
        .subcommand(check)?
        .subcommand(typed)?
        .subcommand(fields)?
        .subcommand(lookup)?
        .subcommand(format)
}

/// `peglinden` without its commands.
fn program<'w>(alloc: Global) -> Result<Command<'w>, AllocError>
    ensures { IfOk result (λ command. IsProgram command (record { top = program; subs = [] })) }
{
    let command = Command::new(alloc, "peglinden")
        .version("0.1.0")
        .about(
            "Work on files of GraphQL text. The file `-` is standard input, and can be named once",
        )
        .after_help(STATUSES)
        .no_binary_name(true)
        .subcommand_required(true)
        .arg_required_else_help(true);
    command.bin_name("peglinden")
}

/// A command that takes nothing. Its help says this of it, and ends with these statuses.
fn bare_command<'w>(alloc: Global, name: &'w str, about: &'w str, statuses: &'w str) -> Command<'w>
    ensures { IsCommand result (command name.entry.now []) }
{
    Command::new(alloc, name).about(about).after_help(statuses)
}

/// A command that takes the options of reports besides.
fn with_reporting<'w>(alloc: Global, command: Command<'w>) -> Result<Command<'w>, AllocError>
    ensures { (takes : Shape) → IsCommand command.entry takes
        → IfOk result (λ made. IsCommand made (with_reporting takes)) }
{
    command
        .arg(json_flag(alloc))?
        .arg(github_flag(alloc))?
        .arg(max_faults_option(alloc))
}

/// A command that takes an argument, the options of reports, and the words behind them. Its help ends with
/// these statuses.
fn command_on_files<'w>(
    alloc: Global,
    name: &'w str,
    about: &'w str,
    statuses: &'w str,
    first: Arg<'w>,
    files: Arg<'w>,
) -> Result<Command<'w>, AllocError>
    requires first { first.global ≡ false }
    requires files { files.global ≡ false }
    ensures { IfOk result (λ made.
        IsCommand made (command name.entry.now
        (rule_of first.entry ∷ reporting_before (rule_of files.entry ∷ [])))) }
{
    let command = bare_command(alloc, name, about, statuses).arg(first)?;
    with_reporting(alloc, command)?.arg(files)
}

/// `schema`.
fn schema_command<'w>(alloc: Global) -> Result<Command<'w>, AllocError>
    ensures { IfOk result (λ command. IsCommand command schema_command) }
{
    let command = bare_command(
        alloc,
        "schema",
        "Build the schema of files, and print it",
        FAULT_STATUSES,
    )
    .arg(flag(
        alloc,
        "adopt",
        "Take what is extended and not defined as defined",
    ))?
    .arg(flag(
        alloc,
        "ignore-builtin",
        "Pass over further definitions of built-in types",
    ))?;
    with_reporting(alloc, command)?.arg(files(alloc, "files", "FILE", "The files of the schema"))
}

/// `format`.
fn format_command<'w>(alloc: Global) -> Result<Command<'w>, AllocError>
    ensures { IfOk result (λ command. IsCommand command format_command) }
{
    let command = bare_command(
        alloc,
        "format",
        "Print files in the usual layout, without their comments",
        FORMAT_STATUSES,
    )
    .arg(flag(
        alloc,
        "check",
        "Print only the names of the files whose text differs",
    ))?
    .arg(flag(
        alloc,
        "write",
        "Put each file whose text differs in the layout in its place, and print its name",
    ))?
    .arg(flag(
        alloc,
        "drop-comments",
        "With `--write`, write files that have comments too, without them",
    ))?;
    with_reporting(alloc, command)?.arg(files(alloc, "files", "FILE", "The files"))
}

/// A command on documents over a schema. Its help ends with these statuses.
fn document_command<'w>(
    alloc: Global,
    name: &'w str,
    about: &'w str,
    statuses: &'w str,
) -> Result<Command<'w>, AllocError>
    ensures { IfOk result (λ command. IsCommand command (document_command name.entry.now)) }
{
    let command = bare_command(alloc, name, about, statuses).arg(schema_option(alloc))?;
    let documents = files(alloc, "documents", "DOCUMENT", "The files of the documents");
    with_reporting(alloc, command)?.arg(documents)
}
