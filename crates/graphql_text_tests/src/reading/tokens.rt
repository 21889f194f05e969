//! Texts as tokens: each sort of token, what says nothing, and what is wrong first.

use graphql_nodes::collections::items::Items;
use graphql_tokens::lexing::tokens;
use graphql_tokens::token::Token;
use graphql_tokens::tokens_error::TokensError;
use std::alloc::{AllocError, Global};
use std::test::Fail;

/// Adds each token, with the bytes that it takes.
fn push_tokens(text: &mut String, list: &Items<Token>) -> Result<(), AllocError> {
    for token in list.as_slice() {
        let Token { kind, start, end } = *token;
        write!(text, "{kind:?} {start}..{end} ")?;
    }
    Ok(())
}

/// What a text is read as.
fn told(alloc: Global, input: &str) -> Result<String, AllocError> {
    let mut text = String::new(alloc);
    match tokens(alloc, input) {
        Ok(list) => push_tokens(&mut text, &list)?,
        Err(TokensError::Wrong(wrong)) => {
            let kind = wrong.kind;
            let at = wrong.at;
            write!(text, "{kind:?} at {at}")?;
        }
        Err(TokensError::Memory) => return Err(AllocError),
    }
    Ok(text)
}

/// Whether each text is read as is said beside it.
fn are_read(alloc: Global, rows: &[(&str, &str)]) -> Result<bool, AllocError> {
    each_gives!(rows; input => told(alloc, *input)?)
}

const TOKENS: [(&str, &str); 13] = [
    ("", ""),
    ("\u{feff} \t,\r\n# a comment, to the end of its line\n#", ""),
    ("{a}", "LeftBrace 0..1 Name 1..2 RightBrace 2..3 "),
    ("_a1é", "UnexpectedCharacter at 3"),
    (
        "!$&()...:=@[]{|}",
        "Bang 0..1 Dollar 1..2 Ampersand 2..3 LeftParen 3..4 RightParen 4..5 Spread 5..8 Colon 8..9 Equals 9..10 At 10..11 LeftBracket 11..12 RightBracket 12..13 LeftBrace 13..14 Pipe 14..15 RightBrace 15..16 ",
    ),
    ("0 -0 12 -90", "Int 0..1 Int 2..4 Int 5..7 Int 8..11 "),
    (
        "0.0 -1.5 1e3 2E+10 0.25e-7",
        "Float 0..3 Float 4..8 Float 9..12 Float 13..18 Float 19..26 ",
    ),
    (
        "\"\" \"é, # no comment\" \"\\\"\\\\\\/\\b\\f\\n\\r\\t\"",
        "String 0..2 String 3..21 String 22..40 ",
    ),
    (
        "\"\\u00e9\\uD83D\\uDE00\\u{1f600}\\u{000041}\"",
        "String 0..39 ",
    ),
    (
        "\"\"\"\"\"\" \"\"\"a\n\\\"\"\" \\ \"b\"\"\"",
        "BlockString 0..6 BlockString 7..24 ",
    ),
    ("a#b\rc", "Name 0..1 Name 4..5 "),
    ("a b,c\u{feff}d", "Name 0..1 Name 2..3 Name 4..5 Name 8..9 "),
    (
        "on true false null",
        "Name 0..2 Name 3..7 Name 8..13 Name 14..18 ",
    ),
];

const WRONG: [(&str, &str); 22] = [
    ("{a(b:01)}", "InvalidNumber at 6"),
    ("{a(b:1x)}", "InvalidNumber at 6"),
    ("{a(b:1.)}", "InvalidNumber at 7"),
    ("{a(b:-)}", "InvalidNumber at 6"),
    ("1.5.2", "InvalidNumber at 3"),
    ("1e+", "InvalidNumber at 3"),
    ("1_", "InvalidNumber at 1"),
    ("{a(b:\"\\ud83d\")}", "InvalidEscape at 6"),
    ("\"\\ude00\"", "InvalidEscape at 1"),
    ("\"\\u{}\"", "InvalidEscape at 1"),
    ("\"\\u{110000}\"", "InvalidEscape at 1"),
    ("\"\\u{ffffffffff}\"", "InvalidEscape at 1"),
    ("\"\\x\"", "InvalidEscape at 1"),
    ("\"a\nb\"", "UnterminatedString at 2"),
    ("\"a", "UnterminatedString at 2"),
    ("\"\"\"a\"\"", "UnterminatedString at 6"),
    ("\"\u{7}\"", "UnexpectedCharacter at 1"),
    ("# \u{7}", "UnexpectedCharacter at 2"),
    ("a ..", "UnexpectedCharacter at 2"),
    (
        "\"0123456789abcdef0123\u{7}0123456789abcdef\"",
        "UnexpectedCharacter at 21",
    ),
    (
        "\"0123456789abcdef0123\n0123456789abcdef\"",
        "UnterminatedString at 21",
    ),
    ("#0123456789abcdef0123\u{7}", "UnexpectedCharacter at 21"),
];

#[test]
fn texts_are_read_as_tokens(rt: HostRuntime) {
    assert!(rt; are_read(rt.alloc(), &TOKENS) == Ok(true));
    assert!(rt; are_read(rt.alloc(), &WRONG) == Ok(true));
}
