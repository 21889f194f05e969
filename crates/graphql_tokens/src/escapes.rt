//! The characters that escapes of strings stand for: GraphQL specification of October 2021, section 2.9.4.
ghost use Rattle.std.specs.Prelude.{◌≡◌, ◌++◌, string_bytes, IsTrue, OnOk};
ghost use Rattle.graphql_tokens.specs.Strings.{is_leading};
ghost use Rattle.graphql_tokens.specs.StringValues.{braced_character, bytes_of, escaped, letter, numbered};
ghost use Rattle.graphql_tokens.specs.StringValues.{pair, scalar_of, unit_character};

use crate::runs::hex_digits;
use crate::strings::{hex_number, is_escaped, is_leading, is_trailing, unit_at};
use std::alloc::AllocError;

/// The character that a byte stands for behind a `\`.
fn letter(byte: u8) -> char
    ensures { result ≡ letter byte }
{
    match byte {
        b'b' => '\u{8}',
        b'f' => '\u{c}',
        b'n' => '\n',
        b'r' => '\r',
        b't' => '\t',
        _ => char::from(byte),
    }
}

/// The character of a number, if it has one.
fn scalar_of(number: u32) -> Option<char>
    ensures { result ≡ scalar_of number }
{
    char::from_u32(number)
}

/// The character of a leading surrogate and a trailing one.
fn pair(leading: u32, trailing: u32) -> Option<char>
    requires { IsTrue (is_leading leading) }
    ensures { result ≡ pair leading trailing }
{
    if is_trailing(trailing) {
        scalar_of(0x1_0000 + (leading - 0xD800) * 0x400 + (trailing - 0xDC00))
    } else {
        None
    }
}

/// The character of a code unit, to which the one behind it belongs where it is a leading surrogate.
fn unit_character(unit: u32, behind: &[u8]) -> Option<char>
    ensures { result ≡ unit_character unit behind.now }
{
    if !is_leading(unit) {
        return scalar_of(unit);
    }
    match unit_at(behind) {
        Some(next) => pair(unit, next),
        None => None,
    }
}

/// The character whose number stands in braces, behind `\u{`.
fn braced_character(text: &[u8]) -> Option<char>
    ensures { result ≡ braced_character text.now }
{
    match text {
        [_, _, _, rest @ ..] => scalar_of(hex_number(&rest[..hex_digits(rest)])),
        _ => None,
    }
}

/// The character of an escape by its number.
fn numbered(text: &[u8]) -> Option<char>
    ensures { result ≡ numbered text.now }
{
    match unit_at(text) {
        Some(unit) => unit_character(unit, &text[6..]),
        None => braced_character(text),
    }
}

/// The character of the escape at the front.
fn escaped(text: &[u8]) -> Option<char>
    ensures { result ≡ escaped text.now }
{
    match text {
        [_, byte, ..] if is_escaped(*byte) => Some(letter(*byte)),
        [_, _, ..] => numbered(text),
        _ => None,
    }
}

/// Adds the character of the escape at the front. The error is out of memory.
pub(crate) fn push_escaped(value: &mut String, text: &[u8]) -> Result<(), AllocError>
    ensures { OnOk result (string_bytes value.new ≡ string_bytes value.old ++ bytes_of (escaped text.now)) }
{
    match escaped(text) {
        Some(character) => value.push(character),
        None => Ok(()),
    }
}
