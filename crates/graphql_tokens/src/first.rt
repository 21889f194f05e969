//! The token that comes first in a text: GraphQL specification of October 2021, section 2.1.
ghost use Rattle.std.specs.Prelude.{◌≡◌};
ghost use Rattle.graphql_tokens.specs.First.{first_of, seen_first};

use crate::ignored::ignored;
use crate::lexemes::first_token;
use crate::token::{TokenError, TokenKind};

/// The token that comes first in a text, and what stands behind it.
#[derive(Clone, Copy)]
pub struct FirstToken<'a> {
    /// How many bytes before it say nothing.
    pub passed: usize,
    /// What it is.
    pub kind: TokenKind,
    /// Its bytes.
    pub text: &'a str,
    /// All that stands behind it.
    pub rest: &'a str,
}

/// The token that comes first in a text, none where the text has no token any more.
///
/// The error says what is wrong where no token stands; its place counts from the front of the text, in bytes.
pub fn first_token_of<'a>(text: &'a str) -> Result<Option<FirstToken<'a>>, TokenError>
    ensures { seen_first result ≡ first_of text.now }
{
    let bytes = text.as_bytes();
    let passed = ignored(bytes);
    if passed == bytes.len() {
        return Ok(None);
    }
    match first_token(&bytes[passed..]) {
        Ok(found) => {
            let end = passed + found.size;
            Ok(Some(FirstToken {
                passed,
                kind: found.kind,
                text: &text[passed..end],
                rest: &text[end..],
            }))
        }
        Err(wrong) => Err(TokenError {
            kind: wrong.kind,
            at: passed + wrong.at,
        }),
    }
}
