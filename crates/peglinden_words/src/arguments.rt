//! The arguments of the commands.
ghost use Rattle.std.specs.Prelude.{◌≡◌, codes, false};
ghost use Rattle.clap.specs.Walk.{rule_of};
ghost use Rattle.peglinden_words.specs.Commands.{flag, number_option, other_word, other_words, repeated_option};

use clap::builder::ValueParser;
use clap::{Arg, ArgAction};
use std::alloc::Global;

/// The flag `--name`, which may be given once.
pub fn flag<'w>(alloc: Global, name: &'w str, help: &'w str) -> Arg<'w>
    ensures rule { rule_of result ≡ flag name.entry.now }
    ensures local { result.global ≡ false }
{
    Arg::new(alloc, name)
        .long(name)
        .action(ArgAction::SetTrue)
        .help(help)
}

/// `--json`.
pub fn json_flag<'w>(alloc: Global) -> Arg<'w>
    ensures rule { rule_of result ≡ flag (codes "json") }
    ensures local { result.global ≡ false }
{
    flag(
        alloc,
        "json",
        "Write JSON to standard output, one object a line, and nothing else there",
    )
}

/// `--github`.
pub fn github_flag<'w>(alloc: Global) -> Arg<'w>
    ensures rule { rule_of result ≡ flag (codes "github") }
    ensures local { result.global ≡ false }
{
    flag(
        alloc,
        "github",
        "Write a workflow command of GitHub for each fault to standard output, and nothing else there",
    )
}

/// `--max-faults N`.
pub fn max_faults_option<'w>(alloc: Global) -> Arg<'w>
    ensures rule { rule_of result ≡ number_option (codes "max-faults") }
    ensures local { result.global ≡ false }
{
    Arg::new(alloc, "max-faults")
        .long("max-faults")
        .value_parser(ValueParser::unsigned(0, u64::MAX))
        .value_name("N")
        .help("Report N faults at most, and count the others")
}

/// `--schema FILE`, which is given at least once.
pub fn schema_option<'w>(alloc: Global) -> Arg<'w>
    ensures rule { rule_of result ≡ repeated_option (codes "schema") }
    ensures local { result.global ≡ false }
{
    Arg::new(alloc, "schema")
        .long("schema")
        .action(ArgAction::Append)
        .required(true)
        .value_name("FILE")
        .help("A file of the schema; given once for each of its files")
}

/// The words that are no options, of which there is at least one.
pub fn files<'w>(alloc: Global, name: &'w str, value_name: &'w str, help: &'w str) -> Arg<'w>
    ensures rule { rule_of result ≡ other_words name.entry.now }
    ensures local { result.global ≡ false }
{
    Arg::new(alloc, name)
        .action(ArgAction::Append)
        .required(true)
        .value_name(value_name)
        .help(help)
}

/// The coordinate to be looked up.
pub fn coordinate<'w>(alloc: Global) -> Arg<'w>
    ensures rule { rule_of result ≡ other_word (codes "coordinate") }
    ensures local { result.global ≡ false }
{
    Arg::new(alloc, "coordinate")
        .required(true)
        .value_name("COORDINATE")
        .help(
            "A schema coordinate, as `Book`, `Book.title`, `Query.books(first:)` or `@deprecated`",
        )
}
