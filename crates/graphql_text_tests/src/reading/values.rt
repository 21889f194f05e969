//! The values of strings and block strings, written by hand.

use graphql_tokens::values::{block_string_value, string_value};
use std::alloc::{AllocError, Global};
use std::test::Fail;

const STRINGS: [(&str, &str); 7] = [
    ("\"\"", ""),
    ("\"é, plain\"", "é, plain"),
    ("\"\\\"\\\\\\/\\b\\f\\n\\r\\t\"", "\"\\/\u{8}\u{c}\n\r\t"),
    ("\"\\u00e9\\u0041\\uFFFD\"", "éA\u{fffd}"),
    ("\"<\\uD83D\\uDE00>\"", "<\u{1f600}>"),
    (
        "\"\\u{1F600}\\u{000041}\\u{10ffff}\"",
        "\u{1f600}A\u{10ffff}",
    ),
    (
        "\"0123456789abcdef0123456789abcde\\n0123456789abcdef\"",
        "0123456789abcdef0123456789abcde\n0123456789abcdef",
    ),
];

const BLOCK_STRINGS: [(&str, &str); 9] = [
    ("\"\"\"\"\"\"", ""),
    ("\"\"\"one line\"\"\"", "one line"),
    ("\"\"\"\n    one\n      two\n    \"\"\"", "one\n  two"),
    (
        "\"\"\"  one\n    two\n\tthree\r\n  \r   four\r\r\"\"\"",
        "  one\n   two\nthree\n \n  four",
    ),
    ("\"\"\"\r\n\r\n\té\r\n\t\té\r\n\"\"\"", "é\n\té"),
    ("\"\"\"a \\\"\"\" \\n \"\" b\"\"\"", "a \"\"\" \\n \"\" b"),
    ("\"\"\" \n\t\r\n \"\"\"", ""),
    ("\"\"\"\n  a\n\n b\"\"\"", " a\n\nb"),
    (
        "\"\"\"\n  0123456789abcdef0123456789abcdef\n 0123456789abcdef\"\n   0123456789 \\\"\"\" 0123456789\n\"\"\"",
        " 0123456789abcdef0123456789abcdef\n0123456789abcdef\"\n  0123456789 \"\"\" 0123456789",
    ),
];

/// Whether each string has the value that is said beside it.
fn strings_mean(alloc: Global, rows: &[(&str, &str)]) -> Result<bool, AllocError> {
    each_gives!(rows; token => string_value(alloc, *token)?)
}

/// Whether each block string has the value that is said beside it.
fn block_strings_mean(alloc: Global, rows: &[(&str, &str)]) -> Result<bool, AllocError> {
    each_gives!(rows; token => block_string_value(alloc, *token)?)
}

#[test]
fn strings_have_their_values(rt: HostRuntime) {
    assert!(rt; strings_mean(rt.alloc(), &STRINGS) == Ok(true));
}

#[test]
fn block_strings_have_their_values(rt: HostRuntime) {
    assert!(rt; block_strings_mean(rt.alloc(), &BLOCK_STRINGS) == Ok(true));
}
