//! The lines of a block string: GraphQL specification of October 2021, section 2.9.4.
ghost use Rattle.std.specs.Prelude.{◌≡◌, ◌++◌, ◌∷◌, ◌≤◌, None, length, map, string_bytes, unwrap_or, IfOk};
ghost use Rattle.std.specs.Prelude.{OnOk};
ghost use Rattle.std.specs.List.{prefix_len};
ghost use Rattle.graphql_tokens.specs.BlockStringValues.{behind_feeds, common_indent, dedented, indent};
ghost use Rattle.graphql_tokens.specs.BlockStringValues.{is_blank_line, is_in_line, is_white, joined};
ghost use Rattle.graphql_tokens.specs.BlockStringValues.{least_indent, line_end, lines, lines_left};
ghost use Rattle.graphql_tokens.specs.BlockStringValues.{unindented, without_blank_end, without_blank_start};
ghost use Rattle.graphql_tokens.specs.BlockStringValues.{without_indent};
ghost use Rattle.graphql_tokens.specs.Texts.{bytes_left, texts_of};

use crate::ignored::is_line_end;
use crate::long_runs::{ByteSort, has_none_below_space, long_run};
use std::alloc::{AllocError, Global};
use std::simd::prelude::*;

/// Whether a byte is a tab or a space.
fn is_white(byte: u8) -> bool
    ensures { result ≡ is_white byte }
{
    byte == b'\t' || byte == b' '
}

/// How many tabs and spaces a line begins with.
fn indent(line: &str) -> usize
    ensures same { result ≡ indent line.now }
    ensures within { result ≤ length line.now }
{
    line.as_bytes()
        .iter()
        .take_while(|byte| is_white(**byte))
        .count()
}

/// Whether a line has nothing else.
fn is_blank_line(line: &str) -> bool
    ensures { result ≡ is_blank_line line.now }
{
    indent(line) == line.len()
}

/// The bytes that end no line.
struct InLine;

impl ByteSort for InLine {
    ghost test = { is_in_line };

    fn has(byte: u8) -> bool {
        !is_line_end(byte)
    }

    #[tactic(auto, using(crate::proofs::RunLemmas::whole_line))]
    fn has_all(bytes: u8x16) -> bool {
        has_none_below_space(bytes)
    }
}

/// How many bytes the first line has.
fn line_bytes(text: &[u8]) -> usize
    ensures same { result ≡ prefix_len is_in_line text.now }
    ensures within { result ≤ length text.now }
{
    long_run::<InLine>(text)
}

/// How many bytes of a line end stand at the front.
fn line_end(text: &[u8]) -> usize
    ensures same { result ≡ line_end text.now }
    ensures within { result ≤ length text.now }
{
    match text {
        [b'\r', b'\n', ..] => 2,
        [b'\n' | b'\r', ..] => 1,
        _ => 0,
    }
}

/// The first line, and what stands behind its line end, if it has one.
fn first_line<'a>(text: &'a str) -> (&'a str, Option<&'a str>)
    ensures lines { lines text.now ≡ result.0.now ∷ lines_left result.1 }
    ensures shorter { bytes_left result.1 ≤ length text.now }
{
    let bytes = text.as_bytes();
    let size = line_bytes(bytes);
    let end = size + line_end(&bytes[size..]);
    if end == size {
        (text, None)
    } else {
        (&text[..size], Some(&text[end..]))
    }
}

/// The least indent so far, where this line comes next.
fn least_indent(found: Option<usize>, line: &str) -> Option<usize>
    ensures { result ≡ least_indent found line.now }
{
    if is_blank_line(line) {
        return found;
    }
    match found {
        Some(least) => Some(indent(line).min(least)),
        None => Some(indent(line)),
    }
}

/// The least indent of the lines of a text, if there is a text and one of them is not blank.
fn common_indent(text: Option<&str>) -> Option<usize>
    ensures { result ≡ common_indent None (lines_left text.entry) }
{
    let mut found = None;
    let mut left = text;
    'lines: while let Some(rest) = left {
        let (line, behind) = first_line(rest);
        found = least_indent(found, line);
        left = behind;
    }
    found
}

/// A line without so many of its tabs and spaces at the front, or without all where it has fewer.
fn unindented<'a>(count: usize, line: &'a str) -> &'a str
    ensures { result.now ≡ unindented count line.now }
{
    &line[indent(line).min(count)..]
}

/// Adds the lines of a text, if there is one, without an indent. The error is out of memory.
fn push_unindented<'a>(
    list: &mut Vec<&'a str>,
    count: usize,
    text: Option<&'a str>,
) -> Result<(), AllocError>
    ensures { OnOk result (texts_of list.new.items
        ≡ texts_of list.old.items ++ map (unindented count) (lines_left text.entry)) }
{
    let mut left = text;
    'lines: while let Some(rest) = left {
        let (line, behind) = first_line(rest);
        list.push(unindented(count, line))?;
        left = behind;
    }
    Ok(())
}

/// The lines of a text without the common indent of all but the first, which keeps its own. The error is out
/// of memory.
fn without_indent<'a>(alloc: Global, text: &'a str) -> Result<Vec<&'a str>, AllocError>
    ensures { IfOk result (λ list. texts_of list.items ≡ without_indent (lines text.now)) }
{
    let mut list = Vec::new(alloc);
    let (first, others) = first_line(text);
    list.push(first)?;
    push_unindented(&mut list, common_indent(others).unwrap_or(0), others)?;
    Ok(list)
}

/// Lines without the blank ones in front.
fn without_blank_start<'b, 'a>(list: &'b [&'a str]) -> &'b [&'a str]
    ensures { texts_of result.now ≡ without_blank_start (texts_of list.now) }
{
    let mut rest = list;
    'lines: while let [line, more @ ..] = rest {
        if !is_blank_line(*line) {
            return rest;
        }
        rest = more;
    }
    rest
}

/// Lines without the blank ones at the end.
fn without_blank_end<'b, 'a>(list: &'b [&'a str]) -> &'b [&'a str]
    ensures { texts_of result.now ≡ without_blank_end (texts_of list.now) }
{
    let mut rest = list;
    'lines: while let [more @ .., line] = rest {
        if !is_blank_line(*line) {
            return rest;
        }
        rest = more;
    }
    rest
}

/// Adds lines, each behind a line feed. The error is out of memory.
fn push_lines(value: &mut String, list: &[&str]) -> Result<(), AllocError>
    ensures { OnOk result (string_bytes value.new
        ≡ string_bytes value.old ++ behind_feeds (texts_of list.now)) }
{
    for line in list {
        value.push('\n')?;
        value.push_str(*line)?;
    }
    Ok(())
}

/// Lines with a line feed between each two, in a text with room for so many bytes. The error is out of
/// memory.
fn joined(alloc: Global, list: &[&str], capacity: usize) -> Result<String, AllocError>
    ensures { IfOk result (λ value. string_bytes value ≡ joined (texts_of list.now)) }
{
    let mut value = String::with_capacity(alloc, capacity)?;
    if let [first, others @ ..] = list {
        value.push_str(*first)?;
        push_lines(&mut value, others)?;
    }
    Ok(value)
}

/// What a block string says whose characters say this. The error is out of memory.
pub(crate) fn dedented(alloc: Global, text: &str) -> Result<String, AllocError>
    ensures { IfOk result (λ value. string_bytes value ≡ dedented text.now) }
{
    let list = without_indent(alloc, text)?;
    joined(
        alloc,
        without_blank_end(without_blank_start(list.as_slice())),
        text.len(),
    )
}
