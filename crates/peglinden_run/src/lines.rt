//! Lines of JSON that commands write, and texts on lines. The error of each call is out of memory.
ghost use Rattle.std.specs.Prelude.{◌≡◌, ◌++◌, IfOk, codes, option_map, string_bytes};
ghost use Rattle.apollo_reporting.specs.JsonObjects.{json_members, placed_members};
ghost use Rattle.graphql_nodes.specs.declared.line_column.LineColumn.{LineColumn};
ghost use Rattle.peglinden_run.specs.Lines.{changed_line, form_text, object_line, summary_line, text_line};
ghost use Rattle.peglinden_run.specs.Lines.{unread_line, unwritten_line};

use crate::form::Form;
use crate::printed::Tally;
use apollo_reporting::json_object::{JsonValue, object_to_json, placed_to_json};
use apollo_reporting::sources::Sources;
use graphql_nodes::line_column::LineColumn;
use graphql_nodes::source::SourceSpan;
use std::alloc::{AllocError, Global};

/// A text with a line end behind it.
pub(crate) fn on_a_line(mut text: String) -> Result<String, AllocError>
    ensures { IfOk result (λ line. string_bytes line ≡ string_bytes text ++ codes "\n") }
{
    text.push_str("\n")?;
    Ok(text)
}

/// The line of an object of this type with these members.
#[tactic(auto, unfolding(crate::specs::Lines::object_line))]
fn object_line(
    alloc: Global,
    of_type: &str,
    members: &[(&str, JsonValue<'_>)],
) -> Result<String, AllocError>
    ensures { IfOk result (λ line.
        string_bytes line ≡ object_line of_type.now (json_members members.now)) }
{
    on_a_line(object_to_json(alloc, of_type, members)?)
}

/// The line of an object of this type with these members, and where something stands.
#[tactic(auto, unfolding(crate::specs::Lines::object_line))]
pub(crate) fn placed_line<S: Sources>(
    alloc: Global,
    of_type: &str,
    members: &[(&str, JsonValue<'_>)],
    sources: &S,
    location: Option<SourceSpan>,
) -> Result<String, AllocError>
    ensures { IfOk result (λ line. string_bytes line ≡ object_line of_type.now
        (json_members members.now ++ placed_members location (S.files sources.now))) }
{
    on_a_line(placed_to_json(alloc, of_type, members, sources, location)?)
}

/// The line of a text, under the path of its file, if it has one.
pub(crate) fn text_line(alloc: Global, file: Option<&str>, text: &str) -> Result<String, AllocError>
    ensures { IfOk result (λ line.
        string_bytes line ≡ text_line (option_map (λ file. file.now) file.entry) text.now) }
{
    object_line(
        alloc,
        "text",
        &[
            ("file", JsonValue::Words(file)),
            ("text", JsonValue::Words(Some(text))),
        ],
    )
}

/// What a form has of a text of no file: in JSON it is the line of that.
pub(crate) fn form_text(alloc: Global, form: Form, text: String) -> Result<String, AllocError>
    ensures { IfOk result (λ shown. string_bytes shown ≡ form_text form (string_bytes text)) }
{
    match form {
        Form::Json => text_line(alloc, None, text.as_str()),
        Form::Words | Form::Github => Ok(text),
    }
}

/// The line of a file whose text differs from its layout.
pub(crate) fn changed_line(alloc: Global, file: &str) -> Result<String, AllocError>
    ensures { IfOk result (λ line. string_bytes line ≡ changed_line file.now) }
{
    object_line(alloc, "changed", &[("file", JsonValue::Words(Some(file)))])
}

/// The line of how much is at fault, and in how many files.
pub(crate) fn summary_line(alloc: Global, tally: Tally) -> Result<String, AllocError>
    ensures { IfOk result (λ line. string_bytes line ≡ summary_line tally) }
{
    object_line(
        alloc,
        "summary",
        &[
            ("faults", JsonValue::Number(Some(tally.faults))),
            ("files", JsonValue::Number(Some(tally.files))),
        ],
    )
}

/// The line that says that the file of this path isn't read, and why.
pub(crate) fn unread_line<'x>(
    alloc: Global,
    path: &'x str,
    why: &'x str,
) -> Result<String, AllocError>
    ensures { IfOk result (λ line. string_bytes line ≡ unread_line path.now why.now) }
{
    object_line(
        alloc,
        "refusal",
        &[
            ("kind", JsonValue::Words(Some("CannotRead"))),
            ("message", JsonValue::Words(Some(why))),
            ("file", JsonValue::Words(Some(path))),
            ("line", JsonValue::Number(None)),
            ("column", JsonValue::Number(None)),
            ("end_line", JsonValue::Number(None)),
            ("end_column", JsonValue::Number(None)),
            ("path", JsonValue::Words(None)),
        ],
    )
}

/// The line that says that the file of this path isn't written: of which kind that is, where what keeps it
/// begins, if that is known, and why.
pub(crate) fn unwritten_line<'x>(
    alloc: Global,
    kind: &'x str,
    path: &'x str,
    at: Option<LineColumn>,
    why: &'x str,
) -> Result<String, AllocError>
    ensures { IfOk result (λ line. string_bytes line ≡ unwritten_line kind.now path.now at why.now) }
{
    let (line, column) = numbers(at);
    object_line(
        alloc,
        "refusal",
        &[
            ("kind", JsonValue::Words(Some(kind))),
            ("message", JsonValue::Words(Some(why))),
            ("file", JsonValue::Words(Some(path))),
            ("line", JsonValue::Number(line)),
            ("column", JsonValue::Number(column)),
            ("end_line", JsonValue::Number(None)),
            ("end_column", JsonValue::Number(None)),
            ("path", JsonValue::Words(None)),
        ],
    )
}

/// The line and the column of a place, where it is known.
fn numbers(at: Option<LineColumn>) -> (Option<usize>, Option<usize>)
    ensures line { result.0 ≡ option_map (λ (at : LineColumn). at.line) at }
    ensures column { result.1 ≡ option_map (λ (at : LineColumn). at.column) at }
{
    match at {
        Some(at) => (Some(at.line), Some(at.column)),
        None => (None, None),
    }
}
