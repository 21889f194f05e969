//! Descriptions: GraphQL specification of October 2021, sections 2.9.4 and 3.2.
ghost use Rattle.std.specs.Prelude.{◌≡◌, ◌&&◌, ◌||◌, [], if◌then◌else◌, not};
ghost use Rattle.std.specs.Fmt.{WritesOnOk};
ghost use Rattle.std.specs.List.{list_any};
ghost use Rattle.graphql_tokens.specs.BlockStringValues.{is_white, lines};
ghost use Rattle.graphql_tokens.specs.Bytes.{begins, is_line_end};
ghost use Rattle.graphql_tokens.specs.Strings.{begins_with_quotes};
ghost use Rattle.graphql_printing.specs.BlockTest.{first_is_blank, is_outer, is_rare, last_is_blank};
ghost use Rattle.graphql_printing.specs.BlockTest.{passes_test};
ghost use Rattle.graphql_printing.specs.Descriptions.{begins_at_once, begins_unprintable, block};
ghost use Rattle.graphql_printing.specs.Descriptions.{description_text, ends, fits_one_line, has_line_feed};
ghost use Rattle.graphql_printing.specs.Descriptions.{has_unprintable, inside, is_block, is_mark};
ghost use Rattle.graphql_printing.specs.Descriptions.{is_unprintable};
ghost use Rattle.graphql_printing.specs.Layout.{line_end};

use crate::layout::write_line_end;
use crate::strings::write_quoted;
use crate::widths::is_wider;
use std::fmt;
use std::fmt::{Formatter, Write};

/// Writes a description that stands further in by so many blanks. It is a block string where that is read as
/// the text again and has no control character but tabs and line feeds. Else it is a quoted string.
pub fn write_description<W: Write>(f: &mut Formatter<W>, text: &str, indent: usize) -> fmt::Result
    ensures { WritesOnOk W.write_str_gives f.old result (description_text indent text.now) f.new }
{
    if is_block(text) {
        write_block(f, text, indent)
    } else {
        write_quoted(f, text)
    }
}

/// Whether a description is a block string.
#[tactic(auto, using(crate::proofs::BlockTestLaws::is_block_is))]
fn is_block(text: &str) -> bool
    ensures { result ≡ is_block text.now }
{
    let bytes = text.as_bytes();
    passes_test(bytes) && !has_unprintable(bytes)
}

/// Whether a text is empty, or has lines that a block string keeps. It keeps them if the first and the last
/// aren't blank, and where there are several, one has no indent.
fn passes_test(text: &[u8]) -> bool
    ensures { result ≡ passes_test text.now }
{
    text.is_empty()
        || (ends_with_text(text)
            && (!has_line_feed(text) || (begins_with_text(text) && has_outer_line(text))))
}

fn is_white(byte: u8) -> bool
    ensures { result ≡ is_white byte }
{
    byte == b'\t' || byte == b' '
}

fn is_line_end(byte: u8) -> bool
    ensures { result ≡ is_line_end byte }
{
    byte == b'\n' || byte == b'\r'
}

/// Whether a byte is a control character but a tab and a line feed.
fn is_unprintable(byte: u8) -> bool
    ensures { result ≡ is_unprintable byte }
{
    (byte < b' ' && !(byte == b'\t' || byte == b'\n')) || byte == 0x7f
}

/// Whether a control character but a tab and a line feed stands at the front.
fn begins_unprintable(text: &[u8]) -> bool
    ensures { result ≡ begins_unprintable text.now }
{
    match text {
        [0xc2, 0x80..=0x9f, ..] => true,
        [byte, ..] => is_unprintable(*byte),
        [] => false,
    }
}

/// Whether a byte is none that most texts have: no character of ASCII that is printed, no tab and no line
/// feed.
fn is_rare(byte: u8) -> bool
    ensures { result ≡ is_rare byte }
{
    !(b' '..=b'~').contains(&byte) && byte != b'\t' && byte != b'\n'
}

/// Whether such a byte stands anywhere. It looks at each byte, which is faster than to stop at one.
fn has_rare(text: &[u8]) -> bool
    ensures { result ≡ list_any is_rare text.now }
{
    let mut found = false;
    for byte in text {
        found |= is_rare(*byte);
    }
    found
}

/// Whether a control character but a tab and a line feed stands anywhere.
fn has_unprintable(text: &[u8]) -> bool
    ensures { result ≡ has_unprintable text.now }
{
    has_rare(text) && finds_unprintable(text)
}

/// The same, by a look at each character.
fn finds_unprintable(text: &[u8]) -> bool
    ensures { result ≡ has_unprintable text.now }
{
    let mut rest = text;
    'bytes: while let [_, more @ ..] = rest {
        if begins_unprintable(rest) {
            return true;
        }
        rest = more;
    }
    false
}

/// Whether a text has more lines than one. It looks at each byte, which is faster than to stop at one.
fn has_line_feed(text: &[u8]) -> bool
    ensures { result ≡ has_line_feed text.now }
{
    let mut found = false;
    for byte in text {
        found |= *byte == b'\n';
    }
    found
}

/// Whether the first line has more than tabs and blanks.
fn begins_with_text(text: &[u8]) -> bool
    ensures { result ≡ not (first_is_blank (lines text.now)) }
{
    for byte in text {
        if !is_white(*byte) {
            return !is_line_end(*byte);
        }
    }
    false
}

/// Whether the last line has more than tabs and blanks.
fn ends_with_text(text: &[u8]) -> bool
    ensures { result ≡ not (last_is_blank (lines text.now)) }
{
    let mut rest = text;
    'bytes: while let [front @ .., last] = rest {
        if !is_white(*last) {
            return !is_line_end(*last);
        }
        rest = front;
    }
    false
}

/// Whether a line begins here with neither a tab nor a blank, and isn't empty.
fn stands_out(begins: bool, byte: u8) -> bool
    ensures { result ≡ (begins && not (is_white byte || is_line_end byte)) }
{
    begins && !(is_white(byte) || is_line_end(byte))
}

/// Whether some line begins with neither a tab nor a blank, and isn't empty.
fn has_outer_line(text: &[u8]) -> bool
    ensures { result ≡ list_any is_outer (lines text.now) }
{
    let mut begins = true;
    for byte in text {
        if stands_out(begins, *byte) {
            return true;
        }
        begins = is_line_end(*byte);
    }
    false
}

/// Whether a byte is a quote or `\`.
fn is_mark(byte: u8) -> bool
    ensures { result ≡ is_mark byte }
{
    byte == b'"' || byte == b'\\'
}

/// Whether a text ends in a quote or in `\`.
fn ends_in_mark(text: &[u8]) -> bool
    ensures { result ≡ ends is_mark text.now }
{
    match text {
        [.., last] => is_mark(*last),
        [] => false,
    }
}

/// Whether a text stands in one line with the quotes of its block string.
fn fits_one_line(text: &[u8]) -> bool
    ensures { result ≡ fits_one_line text.now }
{
    !is_wider(text, 70) && !ends_in_mark(text) && !has_line_feed(text)
}

/// Whether a text begins behind the quotes at once, though it doesn't fit.
fn begins_at_once(text: &[u8]) -> bool
    ensures { result ≡ begins_at_once text.now }
{
    begins_white(text) && !has_line_feed(text)
}

fn begins_white(text: &[u8]) -> bool
    ensures { result ≡ begins is_white text.now }
{
    match text {
        [first, ..] => is_white(*first),
        [] => false,
    }
}

/// Writes a block string.
fn write_block<W: Write>(f: &mut Formatter<W>, text: &str, indent: usize) -> fmt::Result
    ensures { WritesOnOk W.write_str_gives f.old result (block indent text.now) f.new }
{
    f.write_str("\"\"\"")?;
    if fits_one_line(text.as_bytes()) {
        write_inside(f, text, indent)?;
        return f.write_str("\"\"\"");
    }
    write_start(f, text.as_bytes(), indent)?;
    write_inside(f, text, indent)?;
    write_line_end(f, indent)?;
    f.write_str("\"\"\"")
}

/// Writes a line end, if the text doesn't begin at once.
fn write_start<W: Write>(f: &mut Formatter<W>, text: &[u8], indent: usize) -> fmt::Result
    ensures { WritesOnOk W.write_str_gives f.old result (if begins_at_once text.now then []
        else line_end indent) f.new }
{
    if begins_at_once(text) {
        return Ok(());
    }
    write_line_end(f, indent)
}

/// Whether `"""` stands at the front.
fn begins_with_quotes(text: &[u8]) -> bool
    ensures { result ≡ begins_with_quotes text.now }
{
    matches!(text, [b'"', b'"', b'"', ..])
}

/// Writes what a block string has of its text between the quotes.
fn write_inside<W: Write>(f: &mut Formatter<W>, text: &str, indent: usize) -> fmt::Result
    ensures { WritesOnOk W.write_str_gives f.old result (inside indent text.now) f.new }
{
    let bytes = text.as_bytes();
    let mut start = 0;
    let mut at = 0;
    'bytes: while at < bytes.len() {
        let byte = bytes[at];
        if byte == b'\n' {
            f.write_str(&text[start..at])?;
            write_line_end(f, indent)?;
            at += 1;
            start = at;
        } else if byte == b'"' && begins_with_quotes(&bytes[at..]) {
            f.write_str(&text[start..at])?;
            f.write_str("\\")?;
            start = at;
            at += 3;
        } else {
            at += 1;
        }
    }
    f.write_str(&text[start..])
}
