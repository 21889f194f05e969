//! Quoted strings: GraphQL specification of October 2021, section 2.9.4.
ghost use Rattle.std.specs.Prelude.{◌≡◌, ◌<◌, ◌≤◌, ◌%◌, length, true};
ghost use Rattle.std.specs.Fmt.{WritesOnOk, digit_glyph};
ghost use Rattle.graphql_printing.specs.Escapes.{escape, escaped_size, wants_escape};
ghost use Rattle.graphql_printing.specs.Strings.{escape_letter, number_escape, quoted, quoted_bytes};

use std::fmt;
use std::fmt::{Formatter, Write};

/// Writes a text as a quoted string.
pub(crate) fn write_quoted<W: Write>(f: &mut Formatter<W>, text: &str) -> fmt::Result
    ensures { WritesOnOk W.write_str_gives f.old result (quoted text.now) f.new }
{
    f.write_str("\"")?;
    write_characters(f, text)?;
    f.write_str("\"")
}

fn write_characters<W: Write>(f: &mut Formatter<W>, text: &str) -> fmt::Result
    ensures { WritesOnOk W.write_str_gives f.old result (quoted_bytes text.now) f.new }
{
    let bytes = text.as_bytes();
    let mut start = 0;
    let mut at = 0;
    'bytes: while at < bytes.len() {
        let size = escaped_size(&bytes[at..]);
        if size == 0 {
            at += 1;
        } else {
            f.write_str(&text[start..at])?;
            at += size;
            start = at;
            write_escape(f, char::from(bytes[at - 1]))?;
        }
    }
    f.write_str(&text[start..])
}

/// Whether a byte of ASCII is escaped.
fn wants_escape(byte: u8) -> bool
    ensures { result ≡ wants_escape byte }
{
    byte < b' ' || byte == 0x7f || byte == b'"' || byte == b'\\'
}

/// How many bytes at the front are a character that is escaped, whose number the last of them is.
fn escaped_size(text: &[u8]) -> usize
    ensures value { result ≡ escaped_size text.now }
    ensures within { result ≤ length text.now }
{
    match text {
        [0xc2, 0x80..=0x9f, ..] => 2,
        [byte, ..] => usize::from(wants_escape(*byte)),
        [] => 0,
    }
}

/// Writes the escape of a character.
fn write_escape<W: Write>(f: &mut Formatter<W>, c: char) -> fmt::Result
    ensures { WritesOnOk W.write_str_gives f.old result (escape c) f.new }
{
    let letter = escape_letter(c);
    if letter > 0 {
        f.write_str("\\")?;
        f.write_char(char::from(letter))
    } else {
        write_number(f, c)
    }
}

/// The letter of the escape of a character, or 0 where it has none.
fn escape_letter(c: char) -> u8
    ensures value { result ≡ escape_letter c }
    ensures ascii { result < 128 }
{
    match c {
        '\u{8}' => b'b',
        '\t' => b't',
        '\n' => b'n',
        '\u{c}' => b'f',
        '\r' => b'r',
        '"' => b'"',
        '\\' => b'\\',
        _ => 0,
    }
}

/// Writes the escape of a character by its number, of which no more than two digits count.
fn write_number<W: Write>(f: &mut Formatter<W>, c: char) -> fmt::Result
    ensures { WritesOnOk W.write_str_gives f.old result (number_escape c) f.new }
{
    let number = u32::from(c);
    f.write_str("\\u00")?;
    f.write_char(digit(number / 16))?;
    f.write_char(digit(number))
}

/// The last hexadecimal digit of a number.
fn digit(number: u32) -> char
    ensures value { result ≡ digit_glyph true (number % 16) }
    ensures ascii { result < 128 }
{
    let value = (number % 16) as u8;
    char::from(if value < 10 {
        b'0' + value
    } else {
        b'A' - 10 + value
    })
}
