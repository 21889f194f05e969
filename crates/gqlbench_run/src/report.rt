//! What a report says, and its text.

use std::alloc::{AllocError, Global};

/// Something that a report says.
#[derive(Clone, Copy)]
pub enum Value {
    /// How many there are of something.
    Count(usize),
    /// Whether two things are equal.
    Equality(bool),
    /// The name of a phase.
    Phase(&'static str),
    /// Nanoseconds.
    Time(u64),
    /// Kilobytes of memory.
    Memory(u64),
}

/// What stands behind a value in a line, its key in a JSON object, and the value. Where the text ends a
/// line, the object ends.
pub type Item = (&'static str, &'static str, Value);

/// The text of a report: lines for those who read it, or a JSON object in the place of each. The error is
/// out of memory.
pub fn report_text(alloc: Global, json: bool, items: &[Item]) -> Result<String, AllocError> {
    let mut text = String::new(alloc);
    for item in items {
        push_item(&mut text, json, *item)?;
    }
    Ok(text)
}

fn push_item(text: &mut String, json: bool, item: Item) -> Result<(), AllocError> {
    let (words, key, value) = item;
    if json {
        let is_first = text.is_empty() || text.as_str().ends_with('\n');
        let begin = if is_first { '{' } else { ',' };
        write!(text, "{begin}\"{key}\":")?;
    }
    push_value(text, json, value)?;
    match (json, words.ends_with('\n')) {
        (true, true) => text.push_str("}\n"),
        (true, false) => Ok(()),
        (false, _) => text.push_str(words),
    }
}

fn push_value(text: &mut String, json: bool, value: Value) -> Result<(), AllocError> {
    match value {
        Value::Equality(is_equal) if json => write!(text, "{is_equal}"),
        Value::Equality(true) => text.push_str("equal"),
        Value::Equality(false) => text.push_str("unequal"),
        Value::Phase(name) if json => write!(text, "\"{name}\""),
        Value::Phase(name) => write!(text, "{name:<14}"),
        Value::Time(nanoseconds) if !json => write!(text, "{nanoseconds:>12}"),
        Value::Memory(kilobytes) if !json => write!(text, "memory {kilobytes}"),
        Value::Count(count) => write!(text, "{count}"),
        Value::Time(number) | Value::Memory(number) => write!(text, "{number}"),
    }
}
