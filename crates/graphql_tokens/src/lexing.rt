//! Texts as lists of tokens: GraphQL specification of October 2021, section 2.1.
ghost use Rattle.std.specs.Prelude.{◌≡◌, ◌<◌, ◌≤◌, drop, length, IfOk, IfErr, Ok};
ghost use Rattle.graphql_tokens.specs.Refusals.{IsRefused};
ghost use Rattle.graphql_tokens.specs.Lexemes.{lexeme};
ghost use Rattle.graphql_tokens.specs.Tokens.{placed, tokens_of};

use crate::ignored::ignored;
use crate::lexemes::first_token;
use crate::token::{Token, TokenError};
use crate::tokens_error::TokensError;
use graphql_nodes::collections::items::Items;
use std::alloc::Global;

/// The token at a place where nothing is to be passed over.
fn token_at(text: &[u8], at: usize) -> Result<Token, TokenError>
    requires { at < length text.now }
    ensures same { result ≡ placed at (lexeme (drop at text.now)) }
    ensures within { IfOk result (λ token. (at < token.end) × (token.end ≤ length text.now)) }
{
    match first_token(&text[at..]) {
        Ok(found) => Ok(Token {
            kind: found.kind,
            start: at,
            end: at + found.size,
        }),
        Err(wrong) => Err(TokenError {
            kind: wrong.kind,
            at: at + wrong.at,
        }),
    }
}

/// The tokens of a text, in order, each with the bytes that it takes.
///
/// `Wrong` says what is wrong first, from the left: then the text has no tokens. `Memory`: memory ran out.
pub fn tokens(alloc: Global, text: &str) -> Result<Items<Token>, TokensError>
    ensures read { IfOk result (λ list. tokens_of text.now ≡ Ok list) }
    ensures refused { IfErr result (IsRefused (tokens_of text.now)) }
{
    let bytes = text.as_bytes();
    let mut list = Items::new(alloc);
    let mut at = ignored(bytes);
    'tokens: while at < bytes.len() {
        let token = token_at(bytes, at)?;
        list.push(token)?;
        at = token.end + ignored(&bytes[token.end..]);
    }
    Ok(list)
}
