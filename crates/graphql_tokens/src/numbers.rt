//! Numbers: GraphQL specification of October 2021, sections 2.9.1 and 2.9.2.
ghost use Rattle.std.specs.Prelude.{◌≡◌, ◌<◌, ◌≤◌, ◌+◌, ◌^◌, length, nat_eq};
ghost use Rattle.graphql_tokens.specs.Bytes.{begins};
ghost use Rattle.graphql_tokens.specs.Numbers.{IsPartOf, decimal, exponent, fraction, goes_on, integer};
ghost use Rattle.graphql_tokens.specs.Numbers.{number, scientific, then_part, with_digits};

use crate::runs::{digits, is_name_byte};

/// A part of a number at the front. It says how many bytes can be of it, whether they are all of one, and
/// whether it is a float.
#[derive(Clone, Copy)]
pub(crate) struct Part {
    pub(crate) size: usize,
    pub(crate) is_whole: bool,
    pub(crate) is_float: bool,
}

/// No part, which is one too.
const NO_PART: Part = Part {
    size: 0,
    is_whole: true,
    is_float: false,
};

/// Whether the first byte is this one.
pub(crate) fn begins(text: &[u8], byte: u8) -> bool
    ensures { result ≡ begins (nat_eq byte) text.now }
{
    text.first() == Some(&byte)
}

/// So many bytes, and digits behind them, at least one.
fn with_digits(count: usize, text: &[u8]) -> Part
    requires { count ≤ length text.now }
    ensures same { result ≡ with_digits count text.now }
    ensures within { IsPartOf text.now result }
{
    let more = digits(&text[count..]);
    Part {
        size: count + more,
        is_whole: more > 0,
        is_float: false,
    }
}

/// An integer.
fn integer(text: &[u8]) -> Part
    ensures same { result ≡ integer text.now }
    ensures within { IsPartOf text.now result }
{
    let minus = usize::from(begins(text, b'-'));
    if begins(&text[minus..], b'0') {
        return Part {
            size: minus + 1,
            is_whole: true,
            is_float: false,
        };
    }
    with_digits(minus, text)
}

/// A fraction, if there is one.
fn fraction(text: &[u8]) -> Part
    ensures same { result ≡ fraction text.now }
    ensures within { result.size ≤ length text.now }
{
    if begins(text, b'.') {
        with_digits(1, text)
    } else {
        NO_PART
    }
}

/// An exponent, if there is one.
fn exponent(text: &[u8]) -> Part
    ensures same { result ≡ exponent text.now }
    ensures within { result.size ≤ length text.now }
{
    if !begins(text, b'e') && !begins(text, b'E') {
        return NO_PART;
    }
    let rest = &text[1..];
    let sign = usize::from(begins(rest, b'+') || begins(rest, b'-'));
    with_digits(1 + sign, text)
}

/// A part, and, if it is whole, the next one, which makes a float.
fn joined(first: Part, next: Part) -> Part
    requires { first.size + next.size < 2 ^ 64 }
    ensures { result ≡ then_part first next }
{
    if !first.is_whole {
        return first;
    }
    Part {
        size: first.size + next.size,
        is_whole: next.is_whole,
        is_float: first.is_float || next.size > 0,
    }
}

/// An integer, and a fraction behind it.
fn decimal(text: &[u8]) -> Part
    ensures same { result ≡ decimal text.now }
    ensures within { IsPartOf text.now result }
{
    let integer = integer(text);
    joined(integer, fraction(&text[integer.size..]))
}

/// That, and an exponent behind it.
fn scientific(text: &[u8]) -> Part
    ensures same { result ≡ scientific text.now }
    ensures within { IsPartOf text.now result }
{
    let decimal = decimal(text);
    joined(decimal, exponent(&text[decimal.size..]))
}

/// Whether what stands here may not follow a number at once.
fn goes_on(text: &[u8]) -> bool
    ensures { result ≡ goes_on text.now }
{
    match text.first() {
        Some(byte) => is_name_byte(*byte) || *byte == b'.',
        None => false,
    }
}

/// The number at the front, as far as there is one.
pub(crate) fn number(text: &[u8]) -> Part
    ensures same { result ≡ number text.now }
    ensures within { IsPartOf text.now result }
{
    let scientific = scientific(text);
    if goes_on(&text[scientific.size..]) {
        return Part {
            is_whole: false,
            ..scientific
        };
    }
    scientific
}
