//! Strings and block strings: GraphQL specification of October 2021, section 2.9.4.
ghost use Rattle.std.specs.Prelude.{◌≡◌, ◌≤◌, ◌<◌, ◌+◌, drop, length, min, IfSome, IsTrue};
ghost use Rattle.graphql_tokens.specs.Bytes.{begins};
ghost use Rattle.graphql_tokens.specs.Strings.{begins_with_quotes, block_character_size, braced_size};
ghost use Rattle.graphql_tokens.specs.Strings.{character_size, escape_size, hex_digit, hex_number, in_braces};
ghost use Rattle.graphql_tokens.specs.Strings.{is_escaped, is_leading, is_scalar, is_trailing, names_scalar};
ghost use Rattle.graphql_tokens.specs.Strings.{number_size, unit_at, unit_size};

use crate::ignored::{is_control, is_line_end};
use crate::numbers::begins;
use crate::pieces::Piece;
use crate::plain::{plain_block_bytes, plain_bytes};
use crate::runs::{hex_digits, is_hex};

/// The first number that is no Unicode scalar value, nor any behind it.
const BEYOND: u32 = 0x11_0000;

/// The value of a hexadecimal digit.
fn hex_digit(byte: u8) -> u32
    ensures same { result ≡ hex_digit byte }
    ensures small { result < 256 }
{
    let value = if byte.is_ascii_digit() {
        byte - b'0'
    } else if byte >= b'a' {
        byte - b'a' + 10
    } else {
        byte.saturating_sub(b'A' - 10)
    };
    u32::from(value)
}

/// The number of hexadecimal digits, if it is at most [`BEYOND`], or else that.
pub(crate) fn hex_number(digits: &[u8]) -> u32
    ensures { result ≡ min (hex_number 0 digits.now) 1114112 }
{
    let mut number = 0;
    for byte in digits {
        number = (number * 16 + hex_digit(*byte)).min(BEYOND);
    }
    number
}

/// The code unit of four hexadecimal digits, if `\u` and such digits stand at the front.
pub(crate) fn unit_at(text: &[u8]) -> Option<u32>
    ensures same { result ≡ unit_at text.now }
    ensures long { IfSome result (λ _. 6 ≤ length text.now) }
{
    match text {
        [b'\\', b'u', a, b, c, d, ..] if is_hex(*a) && is_hex(*b) && is_hex(*c) && is_hex(*d) => {
            let high = hex_digit(*a) * 16 + hex_digit(*b);
            let low = hex_digit(*c) * 16 + hex_digit(*d);
            Some(high * 256 + low)
        }
        _ => None,
    }
}

/// Whether a number is of a leading surrogate.
pub(crate) fn is_leading(number: u32) -> bool
    ensures { result ≡ is_leading number }
{
    0xD800 <= number && number < 0xDC00
}

/// Whether a number is of a trailing surrogate.
pub(crate) fn is_trailing(number: u32) -> bool
    ensures { result ≡ is_trailing number }
{
    0xDC00 <= number && number < 0xE000
}

/// Whether a number is a Unicode scalar value.
fn is_scalar(number: u32) -> bool
    ensures { result ≡ is_scalar number }
{
    number < 0xD800 || 0xE000 <= number && number < BEYOND
}

/// How many bytes the escape of a code unit takes, with what stands behind it.
fn unit_size(unit: u32, behind: &[u8]) -> usize
    ensures same { result ≡ unit_size unit behind.now }
    ensures within { result ≤ length behind.now + 6 }
{
    if is_scalar(unit) {
        return 6;
    }
    match unit_at(behind) {
        Some(next) if is_leading(unit) && is_trailing(next) => 12,
        _ => 0,
    }
}

/// Whether a byte stands for a character behind a `\`.
pub(crate) fn is_escaped(byte: u8) -> bool
    ensures { result ≡ is_escaped byte }
{
    matches!(byte, b'"' | b'\\' | b'/' | b'b' | b'f' | b'n' | b'r' | b't')
}

/// Whether `"""` stands at the front.
pub(crate) fn begins_with_quotes(text: &[u8]) -> bool
    ensures { result ≡ begins_with_quotes text.now }
{
    match text {
        [b'"', b'"', b'"', ..] => true,
        _ => false,
    }
}

/// Whether hexadecimal digits are of a Unicode scalar value.
#[tactic(auto, using(crate::proofs::HexLemmas::scalar_cut))]
fn names_scalar(digits: &[u8]) -> bool
    ensures { result ≡ names_scalar digits.now }
{
    is_scalar(hex_number(digits))
}

/// How many bytes hexadecimal digits and `}` take, if they stand at the front, and are of a Unicode scalar
/// value.
fn in_braces(text: &[u8]) -> usize
    ensures same { result ≡ in_braces text.now }
    ensures within { result ≤ length text.now }
{
    let count = hex_digits(text);
    if count == 0 || !begins(&text[count..], b'}') {
        return 0;
    }
    if names_scalar(&text[..count]) {
        count + 1
    } else {
        0
    }
}

/// How many bytes `\u{..}` takes, if it stands at the front.
fn braced_size(text: &[u8]) -> usize
    ensures same { result ≡ braced_size text.now }
    ensures within { result ≤ length text.now }
{
    match text {
        [b'\\', b'u', b'{', rest @ ..] => match in_braces(rest) {
            0 => 0,
            size => size + 3,
        },
        _ => 0,
    }
}

/// Whether a byte behind the first one stands for a character there.
fn is_short_escape(text: &[u8]) -> bool
    ensures same { result ≡ begins is_escaped (drop 1 text.now) }
    ensures long { IsTrue result → 2 ≤ length text.now }
{
    match text {
        [_, byte, ..] => is_escaped(*byte),
        _ => false,
    }
}

/// How many bytes an escape by its number takes.
fn number_size(text: &[u8]) -> usize
    ensures same { result ≡ number_size text.now }
    ensures within { result ≤ length text.now }
{
    match unit_at(text) {
        Some(unit) => unit_size(unit, &text[6..]),
        None => braced_size(text),
    }
}

/// How many bytes the escape at the front takes.
fn escape_size(text: &[u8]) -> usize
    ensures same { result ≡ escape_size text.now }
    ensures within { result ≤ length text.now }
{
    if is_short_escape(text) {
        2
    } else {
        number_size(text)
    }
}

/// The characters of a string.
pub(crate) struct Characters;

impl Piece for Characters {
    ghost size = { character_size };

    fn single(text: &[u8]) -> usize {
        plain_bytes(text)
    }

    fn size(text: &[u8]) -> usize {
        match text {
            [] | [b'"', ..] => 0,
            [byte, ..] if is_line_end(*byte) || is_control(*byte) => 0,
            [b'\\', ..] => escape_size(text),
            _ => 1,
        }
    }
}

/// The characters of a block string.
pub(crate) struct BlockCharacters;

impl Piece for BlockCharacters {
    ghost size = { block_character_size };

    fn single(text: &[u8]) -> usize {
        plain_block_bytes(text)
    }

    fn size(text: &[u8]) -> usize {
        match text {
            [] => 0,
            [byte, ..] if is_control(*byte) => 0,
            [b'\\', rest @ ..] if begins_with_quotes(rest) => 4,
            _ if begins_with_quotes(text) => 0,
            _ => 1,
        }
    }
}
