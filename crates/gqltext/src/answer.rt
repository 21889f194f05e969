//! The answer to a text: a line.

use crate::readable::Readable;
use crate::tree::push_string;
use graphql_ast::definition::Definition;
use graphql_ast::selection::Selection;
use graphql_ast::type_reference::Type;
use graphql_ast::value::Value;
use graphql_nodes::collections::items::Items;
use graphql_nodes::node::Node;
use graphql_text::parse_error::{ParseError, ParseErrorKind};
use graphql_text::parsing::ParseOptions;
use std::alloc::{AllocError, Global};

/// What a text is read as.
#[derive(Clone, Copy)]
pub(crate) enum Sort {
    Document,
    Selections,
    Type,
    Value,
}

impl Sort {
    /// The sort of this name, if there is one.
    pub(crate) fn of(name: &str) -> Option<Sort> {
        match name {
            "document" => Some(Sort::Document),
            "selections" => Some(Sort::Selections),
            "type" => Some(Sort::Type),
            "value" => Some(Sort::Value),
            _ => None,
        }
    }
}

/// What is asked of each text.
#[derive(Clone, Copy)]
pub(crate) struct Asked {
    pub(crate) sort: Sort,
    /// Whether it is printed, or else written as a tree.
    pub(crate) prints: bool,
    pub(crate) options: ParseOptions,
}

/// Adds where and why a text is refused. The error is out of memory, there too.
fn push_refusal(line: &mut String, error: ParseError) -> Result<(), AllocError> {
    if error.kind == ParseErrorKind::Memory {
        return Err(AllocError);
    }
    let (start, end) = (error.location.start, error.location.end);
    write!(line, "refused {start} {end} {error}")
}

/// The limits of a text that is printed. Selections stand in braces there, which they may be read without.
fn limits_of_printed(options: ParseOptions) -> ParseOptions {
    ParseOptions {
        max_depth: options.max_depth.saturating_add(1),
        max_tokens: usize::MAX,
    }
}

/// Adds whether a tree, and what is printed of it, are those that were before.
fn push_again<T: Readable>(
    alloc: Global,
    line: &mut String,
    before: &T,
    printed: &str,
    again: &T,
) -> Result<(), AllocError> {
    if *again != *before {
        return line.push_str("another tree");
    }
    let text = again.printed(alloc)?;
    if text.as_str() == printed {
        line.push_str("again")
    } else {
        line.push_str("another text")
    }
}

/// Adds the text that is printed of a tree, and what that is read as.
fn push_printed<T: Readable>(
    alloc: Global,
    line: &mut String,
    tree: &T,
    options: ParseOptions,
) -> Result<(), AllocError> {
    let printed = tree.printed(alloc)?;
    line.push_str("text ")?;
    push_string(line, printed.as_str())?;
    match T::read(alloc, printed.as_str(), limits_of_printed(options)) {
        Ok(again) => push_again(alloc, line, tree, printed.as_str(), &again),
        Err(error) => push_refusal(line, error),
    }
}

/// Adds what a text is, or where and why it is refused. The error is out of memory.
fn push_read<T: Readable>(
    alloc: Global,
    line: &mut String,
    asked: Asked,
    text: &str,
) -> Result<(), AllocError> {
    match T::read(alloc, text, asked.options) {
        Ok(tree) => {
            if asked.prints {
                return push_printed(alloc, line, &tree, asked.options);
            }
            line.push_str("tree ")?;
            tree.tell(line)
        }
        Err(error) => push_refusal(line, error),
    }
}

/// Adds the line of a text of which this is asked.
pub(crate) fn push_answer(
    alloc: Global,
    line: &mut String,
    asked: Asked,
    text: &str,
) -> Result<(), AllocError> {
    match asked.sort {
        Sort::Document => push_read::<Items<Definition>>(alloc, line, asked, text)?,
        Sort::Selections => push_read::<Items<Selection>>(alloc, line, asked, text)?,
        Sort::Type => push_read::<Type>(alloc, line, asked, text)?,
        Sort::Value => push_read::<Node<Value>>(alloc, line, asked, text)?,
    }
    line.push_str("\n")
}
