//! The token at the front of a text: GraphQL specification of October 2021, sections 2.1.6 to 2.1.9, 2.9.1,
//! 2.9.2 and 2.9.4.
ghost use Rattle.std.specs.Prelude.{◌≡◌, ◌<◌, ◌≤◌, ◌+◌, ◌^◌, length, true, IfSome};
ghost use Rattle.graphql_tokens.specs.Bytes.{begins, is_name_byte, is_name_start};
ghost use Rattle.std.specs.List.{prefix_len};
ghost use Rattle.graphql_tokens.specs.declared.token.TokenKind.TheVariants as k;
ghost use Rattle.graphql_tokens.specs.Lexemes.{FitsIn, block_string_token, first_sign, is_number_start};
ghost use Rattle.graphql_tokens.specs.Lexemes.{is_spread, lexeme, number_token, quoted_token, sign_kind};
ghost use Rattle.graphql_tokens.specs.Lexemes.{sign_token, string_fault, string_token};
ghost use Rattle.graphql_tokens.specs.Numbers.{number};

use crate::ignored::is_control;
use crate::numbers::{begins, number};
use crate::pieces::pieces;
use crate::runs::{is_name_start, name_bytes};
use crate::strings::{BlockCharacters, Characters, begins_with_quotes};
use crate::token::{TokenError, TokenErrorKind, TokenKind};

/// What a token is, and how many bytes it has.
#[derive(Clone, Copy)]
pub(crate) struct Lexeme {
    pub(crate) kind: TokenKind,
    pub(crate) size: usize,
}

/// The punctuator that a byte is alone.
fn sign_kind(byte: u8) -> Option<TokenKind>
    ensures { result ≡ sign_kind byte }
{
    match byte {
        b'!' => Some(TokenKind::Bang),
        b'$' => Some(TokenKind::Dollar),
        b'&' => Some(TokenKind::Ampersand),
        b'(' => Some(TokenKind::LeftParen),
        b')' => Some(TokenKind::RightParen),
        b':' => Some(TokenKind::Colon),
        b'=' => Some(TokenKind::Equals),
        b'@' => Some(TokenKind::At),
        b'[' => Some(TokenKind::LeftBracket),
        b']' => Some(TokenKind::RightBracket),
        b'{' => Some(TokenKind::LeftBrace),
        b'|' => Some(TokenKind::Pipe),
        b'}' => Some(TokenKind::RightBrace),
        _ => None,
    }
}

/// Whether `...` stands at the front.
fn is_spread(text: &[u8]) -> bool
    ensures same { result ≡ is_spread text.now }
{
    match text {
        [b'.', b'.', b'.', ..] => true,
        _ => false,
    }
}

/// The number at the front.
fn number_token(text: &[u8]) -> Result<Lexeme, TokenError>
    ensures same { result ≡ number_token (number text.now) }
    ensures within { FitsIn (length text.now) result }
{
    let part = number(text);
    if !part.is_whole {
        return Err(TokenError {
            kind: TokenErrorKind::InvalidNumber,
            at: part.size,
        });
    }
    Ok(Lexeme {
        kind: if part.is_float {
            TokenKind::Float
        } else {
            TokenKind::Int
        },
        size: part.size,
    })
}

/// What is wrong where the characters of a string or block string end without quotes behind them.
fn string_fault(text: &[u8]) -> TokenErrorKind
    ensures { result ≡ string_fault text.now }
{
    match text {
        [b'\\', ..] => TokenErrorKind::InvalidEscape,
        [byte, ..] if is_control(*byte) => TokenErrorKind::UnexpectedCharacter,
        _ => TokenErrorKind::UnterminatedString,
    }
}

/// The token with so many quotes on each side, whose characters take so many bytes. It is closed where the
/// quotes stand behind them.
fn quoted_token(
    kind: TokenKind,
    quotes: usize,
    count: usize,
    is_closed: bool,
    rest: &[u8],
) -> Result<Lexeme, TokenError>
    requires { count + (quotes + quotes) < 2 ^ 64 }
    ensures { result ≡ quoted_token kind quotes count is_closed rest.now }
{
    if !is_closed {
        return Err(TokenError {
            kind: string_fault(rest),
            at: count + quotes,
        });
    }
    Ok(Lexeme {
        kind,
        size: count + (quotes + quotes),
    })
}

/// The string whose characters these are, behind its quote.
fn string_token(text: &[u8]) -> Result<Lexeme, TokenError>
    ensures same { result ≡ string_token text.now }
    ensures within { FitsIn (length text.now + 1) result }
{
    let count = pieces::<Characters>(text);
    let rest = &text[count..];
    quoted_token(TokenKind::String, 1, count, begins(rest, b'"'), rest)
}

/// The block string whose characters these are, behind its quotes.
fn block_string_token(text: &[u8]) -> Result<Lexeme, TokenError>
    ensures same { result ≡ block_string_token text.now }
    ensures within { FitsIn (length text.now + 3) result }
{
    let count = pieces::<BlockCharacters>(text);
    let rest = &text[count..];
    quoted_token(
        TokenKind::BlockString,
        3,
        count,
        begins_with_quotes(rest),
        rest,
    )
}

/// The punctuator that the first byte is alone.
fn first_sign(text: &[u8]) -> Option<TokenKind>
    ensures same { result ≡ first_sign text.now }
    ensures some { IfSome result (λ _. 1 ≤ length text.now) }
{
    match text {
        [byte, ..] => sign_kind(*byte),
        [] => None,
    }
}

/// That punctuator.
fn sign_token(text: &[u8]) -> Result<Lexeme, TokenError>
    ensures same { result ≡ sign_token (first_sign text.now) }
    ensures within { FitsIn (length text.now) result }
{
    match first_sign(text) {
        Some(kind) => Ok(Lexeme { kind, size: 1 }),
        None => Err(TokenError {
            kind: TokenErrorKind::UnexpectedCharacter,
            at: 0,
        }),
    }
}

/// Whether a name begins at the front.
fn begins_name(text: &[u8]) -> bool
    ensures { result ≡ begins is_name_start text.now }
{
    match text {
        [byte, ..] => is_name_start(*byte),
        [] => false,
    }
}

/// The name at the front.
fn name_token(text: &[u8]) -> Lexeme
    requires { begins is_name_start text.now ≡ true }
    ensures same { result ≡ record { kind = k.Name; size = prefix_len is_name_byte text.now } }
    ensures within { (0 < result.size) × (result.size ≤ length text.now) }
{
    Lexeme {
        kind: TokenKind::Name,
        size: name_bytes(text),
    }
}

/// Whether a number begins at the front.
fn begins_number(text: &[u8]) -> bool
    ensures { result ≡ begins is_number_start text.now }
{
    match text {
        [byte, ..] => *byte == b'-' || byte.is_ascii_digit(),
        [] => false,
    }
}

/// The token at the front of a text, or what is wrong there.
pub(crate) fn first_token(text: &[u8]) -> Result<Lexeme, TokenError>
    ensures same { result ≡ lexeme text.now }
    ensures within { FitsIn (length text.now) result }
{
    if begins_name(text) {
        Ok(name_token(text))
    } else if begins_number(text) {
        number_token(text)
    } else if begins_with_quotes(text) {
        block_string_token(&text[3..])
    } else if begins(text, b'"') {
        string_token(&text[1..])
    } else if is_spread(text) {
        Ok(Lexeme {
            kind: TokenKind::Spread,
            size: 3,
        })
    } else {
        sign_token(text)
    }
}
