//! Values and members of JSON, added to its text. The error of each call is out of memory.
ghost use Rattle.std.specs.Prelude.{◌≡◌, ◌++◌, OnOk, option_map, string_bytes};
ghost use Rattle.serde_json.specs.Data.{string};
ghost use Rattle.apollo_reporting.specs.FaultData.{definition_data, number_data, text_data};
ghost use Rattle.apollo_reporting.specs.MemberTexts.{data_text, key_text, member_text, members_behind};

use serde_json::Value;
use std::alloc::{AllocError, Global};

/// Adds a string.
#[tactic(auto, unfolding(crate::specs::MemberTexts::data_text))]
pub(crate) fn push_string(alloc: Global, text: &mut String, value: &str) -> Result<(), AllocError>
    ensures { OnOk result (string_bytes text.new ≡ string_bytes text.old ++ data_text (string value.now)) }
{
    let quoted = Value::try_from_str(alloc, value)?.to_string(alloc)?;
    text.push_str(quoted.as_str())
}

/// Adds a string, or null where there is none.
#[tactic(auto, unfolding(crate::specs::MemberTexts::data_text))]
pub(crate) fn push_text(
    alloc: Global,
    text: &mut String,
    value: Option<&str>,
) -> Result<(), AllocError>
    ensures { OnOk result (string_bytes text.new
        ≡ string_bytes text.old ++ data_text (text_data (option_map (λ value. value.now) value.entry))) }
{
    match value {
        Some(value) => push_string(alloc, text, value),
        None => text.push_str("null"),
    }
}

/// Adds a number, or null where there is none.
#[tactic(auto, unfolding(crate::specs::MemberTexts::data_text))]
pub(crate) fn push_number(text: &mut String, value: Option<usize>) -> Result<(), AllocError>
    ensures { OnOk result (string_bytes text.new ≡ string_bytes text.old ++ data_text (number_data value)) }
{
    match value {
        Some(value) => write!(text, "{value}"),
        None => text.push_str("null"),
    }
}

/// Adds a name with its colon, behind a sign.
#[tactic(auto, unfolding(crate::specs::MemberTexts::data_text, crate::specs::MemberTexts::key_text))]
pub(crate) fn push_key(
    alloc: Global,
    text: &mut String,
    sign: &str,
    key: &str,
) -> Result<(), AllocError>
    ensures { OnOk result (string_bytes text.new ≡ string_bytes text.old ++ key_text sign.now key.now) }
{
    text.push_str(sign)?;
    push_string(alloc, text, key)?;
    text.push_str(":")
}

/// Adds a member that is a string, behind a sign.
pub(crate) fn push_string_member(
    alloc: Global,
    text: &mut String,
    sign: &str,
    key: &str,
    value: &str,
) -> Result<(), AllocError>
    ensures { OnOk result (string_bytes text.new
        ≡ string_bytes text.old ++ member_text sign.now (key.now, string value.now)) }
{
    push_key(alloc, text, sign, key)?;
    push_string(alloc, text, value)
}

/// Adds a definition as an object: what it is, and its name, or null where it has none.
pub(crate) fn push_definition(
    alloc: Global,
    text: &mut String,
    kind: &str,
    name: Option<&str>,
) -> Result<(), AllocError>
    ensures { OnOk result (string_bytes text.new ≡ string_bytes text.old
        ++ data_text (definition_data kind.now (option_map (λ name. name.now) name.entry))) }
{
    push_string_member(alloc, text, "{", "kind", kind)?;
    push_key(alloc, text, ",", "name")?;
    push_text(alloc, text, name)?;
    text.push_str("}")?;
    Ok(())
}
