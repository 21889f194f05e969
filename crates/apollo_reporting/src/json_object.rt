//! Objects of JSON with members of a caller's own.
ghost use Rattle.std.specs.Prelude.{◌≡◌, ◌++◌, IfOk, OnOk, string_bytes};
ghost use Rattle.serde_json.specs.Written.{compact_text};
ghost use Rattle.apollo_reporting.specs.JsonObjects.{json_data, json_members, placed_members, typed_data};
ghost use Rattle.apollo_reporting.specs.MemberTexts.{data_text, members_behind};

use crate::json_members::JsonOfSources;
use crate::json_values::{push_definition, push_key, push_number, push_string_member, push_text};
use crate::sources::Sources;
use graphql_nodes::source::SourceSpan;
use std::alloc::{AllocError, Global};

/// What stands under a name in an object of JSON.
#[derive(Debug, Clone, Copy)]
pub enum JsonValue<'a> {
    /// A string, or null where there is none.
    Words(Option<&'a str>),
    /// A number, or null where there is none.
    Number(Option<usize>),
    /// A definition: an object with the members `kind`, as `query`, and `name`, which is null where there is
    /// none.
    Definition(&'a str, Option<&'a str>),
}

/// An object of JSON, in one line without a line end. Its member `type` is this, and its other members are
/// these, in order. The error is out of memory.
pub fn object_to_json(
    alloc: Global,
    of_type: &str,
    members: &[(&str, JsonValue<'_>)],
) -> Result<String, AllocError>
    ensures { IfOk result (λ text.
        string_bytes text ≡ compact_text (typed_data of_type.now (json_members members.now))) }
{
    let mut text = String::new(alloc);
    push_string_member(alloc, &mut text, "{", "type", of_type)?;
    push_members(alloc, &mut text, members)?;
    text.push_str("}")?;
    Ok(text)
}

/// The same, and behind these members where a location is: `file`, `line`, `column`, `end_line` and
/// `end_column`, as in [`to_json`](crate::fault_json::to_json). The error is out of memory.
pub fn placed_to_json<S: Sources>(
    alloc: Global,
    of_type: &str,
    members: &[(&str, JsonValue<'_>)],
    sources: &S,
    location: Option<SourceSpan>,
) -> Result<String, AllocError>
    ensures { IfOk result (λ text. string_bytes text ≡ compact_text (typed_data of_type.now
        (json_members members.now ++ placed_members location (S.files sources.now)))) }
{
    let json = JsonOfSources { alloc, sources };
    let mut text = String::new(alloc);
    push_string_member(alloc, &mut text, "{", "type", of_type)?;
    push_members(alloc, &mut text, members)?;
    json.push_file(&mut text, ",", location)?;
    json.push_span(&mut text, location)?;
    text.push_str("}")?;
    Ok(text)
}

/// Adds members, each behind a comma. The error is out of memory.
fn push_members(
    alloc: Global,
    text: &mut String,
    members: &[(&str, JsonValue<'_>)],
) -> Result<(), AllocError>
    ensures { OnOk result (string_bytes text.new
        ≡ string_bytes text.old ++ members_behind (json_members members.now)) }
{
    for member in members {
        push_key(alloc, text, ",", member.0)?;
        push_value(alloc, text, member.1)?;
    }
    Ok(())
}

/// Adds a value. The error is out of memory.
fn push_value(alloc: Global, text: &mut String, value: JsonValue<'_>) -> Result<(), AllocError>
    ensures { OnOk result (string_bytes text.new
        ≡ string_bytes text.old ++ data_text (json_data value.entry)) }
{
    match value {
        JsonValue::Words(words) => push_text(alloc, text, words),
        JsonValue::Number(number) => push_number(text, number),
        JsonValue::Definition(kind, name) => push_definition(alloc, text, kind, name),
    }
}
