//! Faults as workflow commands of GitHub.
ghost use Rattle.std.specs.Prelude.{◌≡◌, ◌++◌, IfOk, OnOk, option_map, string_bytes};
ghost use Rattle.apollo_reporting.specs.GithubCommands.{IsFaultCommand, command_text, escaped, escaped_char};
ghost use Rattle.apollo_reporting.specs.GithubCommands.{file_properties, place_properties};
ghost use Rattle.graphql_nodes.specs.VisibleTexts.{visible};

use crate::json_members::file_path;
use crate::places::start;
use crate::reported::Reported;
use crate::sources::Sources;
use graphql_nodes::line_column::LineColumn;
use graphql_nodes::source::SourceSpan;
use graphql_nodes::visible_text::visible;
use std::alloc::{AllocError, Global};

/// The workflow command of GitHub that reports a fault: `::error file=F,line=L,col=C::SENTENCE`, without a
/// line end. What isn't known is left out. The path and the sentence are written as [`visible`] shows them,
/// and signs that mean something in a command by their numbers. The error is out of memory.
///
/// For many faults make [`SourceLines`](crate::source_lines::SourceLines) of the sources first.
#[tactic(auto, using(crate::proofs::SaidLemmas::of_said))]
pub fn to_github_command<S: Sources, E: Reported>(
    alloc: Global,
    sources: &S,
    location: Option<SourceSpan>,
    fault: &E,
) -> Result<String, AllocError>
    ensures { IfOk result (λ text.
        IsFaultCommand E.output (S.files sources.now) location fault.now (string_bytes text)) }
{
    let said = fault.to_string(alloc)?;
    let path = file_path(sources, location);
    github_command(alloc, path, start(sources, location), said.as_str())
}

/// The workflow command of GitHub that reports a sentence, at a place of the file of this path, as
/// [`to_github_command`] writes it. The error is out of memory.
#[tactic(auto, unfolding(crate::specs::GithubCommands::command_text))]
pub fn github_command(
    alloc: Global,
    path: Option<&str>,
    at: Option<LineColumn>,
    sentence: &str,
) -> Result<String, AllocError>
    ensures { IfOk result (λ text.
        string_bytes text ≡ command_text (option_map (λ path. path.now) path.entry) at sentence.now) }
{
    let mut text = String::from_str(alloc, "::error")?;
    push_file(alloc, &mut text, path, at)?;
    text.push_str("::")?;
    push_escaped(alloc, &mut text, false, sentence)?;
    Ok(text)
}

/// Adds the path of a file, where it is known, and a line and a column in it. The error is out of memory.
fn push_file(
    alloc: Global,
    text: &mut String,
    path: Option<&str>,
    at: Option<LineColumn>,
) -> Result<(), AllocError>
    ensures { OnOk result (string_bytes text.new ≡ string_bytes text.old
        ++ file_properties (option_map (λ path. path.now) path.entry) at) }
{
    let Some(path) = path else {
        return Ok(());
    };
    text.push_str(" file=")?;
    push_escaped(alloc, text, true, path)?;
    push_place(text, at)
}

/// Adds a line and a column, where they are known. The error is out of memory.
fn push_place(text: &mut String, at: Option<LineColumn>) -> Result<(), AllocError>
    ensures { OnOk result (string_bytes text.new ≡ string_bytes text.old ++ place_properties at) }
{
    match at {
        Some(at) => write!(text, ",line={},col={}", at.line, at.column),
        None => Ok(()),
    }
}

/// Adds a text as it is shown, with the signs that mean something in a command by their numbers. The error is
/// out of memory.
fn push_escaped(
    alloc: Global,
    text: &mut String,
    in_property: bool,
    value: &str,
) -> Result<(), AllocError>
    ensures { OnOk result (string_bytes text.new
        ≡ string_bytes text.old ++ escaped in_property (visible value.now)) }
{
    let shown = visible(value).to_string(alloc)?;
    push_characters(text, in_property, shown.as_str())
}

/// Adds the characters of a text, with the signs that mean something in a command by their numbers. The error
/// is out of memory.
fn push_characters(text: &mut String, in_property: bool, value: &str) -> Result<(), AllocError>
    ensures { OnOk result (string_bytes text.new ≡ string_bytes text.old ++ escaped in_property value.now) }
{
    for character in value.chars() {
        push_character(text, in_property, character)?;
    }
    Ok(())
}

/// Adds a character, or its number where it means something in a command. The error is out of memory.
fn push_character(text: &mut String, in_property: bool, character: char) -> Result<(), AllocError>
    ensures { OnOk result (string_bytes text.new
        ≡ string_bytes text.old ++ escaped_char in_property character) }
{
    match character {
        '%' => text.push_str("%25"),
        '\r' => text.push_str("%0D"),
        '\n' => text.push_str("%0A"),
        ':' if in_property => text.push_str("%3A"),
        ',' if in_property => text.push_str("%2C"),
        other => text.push(other),
    }
}
