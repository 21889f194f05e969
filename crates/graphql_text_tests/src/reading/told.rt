//! What a text is read as, or why it is refused, as a text.

use graphql_nodes::source::FileId;
use graphql_text::parse_error::ParseError;
use graphql_text::parsing::{
    ParseOptions, parse_definitions, parse_selections, parse_type, parse_value,
};
use std::alloc::{AllocError, Global};
use std::fmt::Debug;

/// The number of the files that are read.
pub(crate) const FILE: FileId = FileId(7);

/// What a text is read as.
#[derive(Clone, Copy)]
pub(crate) enum Whole {
    Definitions,
    Selections,
    Type,
    Value,
}

/// Where a text is refused, in bytes, and the message.
fn told_error(alloc: Global, error: &ParseError) -> Result<String, AllocError> {
    let mut text = String::new(alloc);
    if error.location.file != FILE {
        text.push_str("in another file: ")?;
    }
    let start = error.location.start;
    let end = error.location.end;
    write!(text, "{start}..{end} {}", error.kind)?;
    Ok(text)
}

/// What is read, without locations, or why it isn't.
fn told<T: Debug + Drop>(alloc: Global, read: Result<T, ParseError>) -> Result<String, AllocError> {
    match read {
        Ok(read) => {
            let mut text = String::new(alloc);
            write!(text, "{read:?}")?;
            Ok(text)
        }
        Err(error) => told_error(alloc, &error),
    }
}

/// What this text is read as, or why it isn't.
fn told_text(
    alloc: Global,
    whole: Whole,
    options: ParseOptions,
    text: &str,
) -> Result<String, AllocError> {
    match whole {
        Whole::Definitions => told(alloc, parse_definitions(alloc, FILE, text, options)),
        Whole::Selections => told(alloc, parse_selections(alloc, FILE, text, options)),
        Whole::Type => told(alloc, parse_type(alloc, FILE, text, options)),
        Whole::Value => told(alloc, parse_value(alloc, FILE, text, options)),
    }
}

/// Whether each text is read, or refused, as is said beside it.
pub(crate) fn are_told(
    alloc: Global,
    whole: Whole,
    options: ParseOptions,
    rows: &[(&str, &str)],
) -> Result<bool, AllocError> {
    each_gives!(rows; text => told_text(alloc, whole, options, *text)?)
}
