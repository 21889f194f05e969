//! The values of strings and block strings: GraphQL specification of October 2021, section 2.9.4.
ghost use Rattle.std.specs.Prelude.{◌≡◌, ◌++◌, ◌≤◌, drop, length, string_bytes, take, IfOk, IfSome, OnOk};
ghost use Rattle.std.specs.Str.{IsCharBoundary};
ghost use Rattle.graphql_tokens.specs.BlockStringValues.{behind_quotes, block_characters_say, block_says};
ghost use Rattle.graphql_tokens.specs.BlockStringValues.{block_string_value};
ghost use Rattle.graphql_tokens.specs.StringValues.{behind_quote, characters_say, string_value};

use crate::escapes::push_escaped;
use crate::lines::dedented;
use crate::numbers::begins;
use crate::pieces::Piece;
use crate::plain::{plain_block_bytes, plain_bytes};
use crate::spoken::{Says, spoken};
use crate::strings::{BlockCharacters, Characters, begins_with_quotes};
use graphql_nodes::collections::text::Text;
use std::alloc::{AllocError, Global};

/// Adds so many bytes from the front of a text. Answers what stands behind them. The error is out of memory.
fn push_front<'a>(value: &mut String, text: &'a str, count: usize) -> Result<&'a str, AllocError>
    requires { IsCharBoundary text.now count }
    ensures added { OnOk result (string_bytes value.new ≡ string_bytes value.old ++ take count text.now) }
    ensures behind { IfOk result (λ rest. rest.now ≡ drop count text.now) }
{
    value.push_str(&text[..count])?;
    Ok(&text[count..])
}

impl Says for Characters {
    ghost say = { characters_say };

    fn push<'a>(value: &mut String, text: &'a str) -> Result<Option<&'a str>, AllocError> {
        let plain = plain_bytes(text.as_bytes());
        if plain > 0 {
            return Ok(Some(push_front(value, text, plain)?));
        }
        let size = Characters::size(text.as_bytes());
        if size == 0 {
            return Ok(None);
        }
        push_escaped(value, text.as_bytes())?;
        Ok(Some(&text[size..]))
    }
}

/// Adds what a character of a block string says. The error is out of memory.
fn push_block_character(value: &mut String, character: &str) -> Result<(), AllocError>
    ensures { OnOk result (string_bytes value.new ≡ string_bytes value.old ++ block_says character.now) }
{
    value.push_str(if character.len() == 4 {
        "\"\"\""
    } else {
        character
    })
}

impl Says for BlockCharacters {
    ghost say = { block_characters_say };

    fn push<'a>(value: &mut String, text: &'a str) -> Result<Option<&'a str>, AllocError> {
        let plain = plain_block_bytes(text.as_bytes());
        if plain > 0 {
            return Ok(Some(push_front(value, text, plain)?));
        }
        let size = BlockCharacters::size(text.as_bytes());
        if size == 0 {
            return Ok(None);
        }
        let (character, rest) = text.split_at(size);
        push_block_character(value, character)?;
        Ok(Some(rest))
    }
}

/// What stands behind a string's first quote.
fn behind_quote<'a>(token: &'a str) -> &'a str
    ensures { result.now ≡ behind_quote token.now }
{
    if begins(token.as_bytes(), b'"') {
        &token[1..]
    } else {
        ""
    }
}

/// What stands behind a block string's first quotes.
fn behind_quotes<'a>(token: &'a str) -> &'a str
    ensures { result.now ≡ behind_quotes token.now }
{
    if begins_with_quotes(token.as_bytes()) {
        &token[3..]
    } else {
        ""
    }
}

/// The characters of a block string, where each says itself.
fn plain_block<'a>(text: &'a str) -> Option<&'a str>
    ensures { IfSome result (λ plain. plain.now ≡ block_characters_say text.now) }
{
    let plain = plain_block_bytes(text.as_bytes());
    if BlockCharacters::size(&text.as_bytes()[plain..]) > 0 {
        return None;
    }
    Some(&text[..plain])
}

/// The value of a string token, of its bytes with the quotes. Of a text that is no such token it means
/// nothing. The error is out of memory.
pub fn string_value(alloc: Global, token: &str) -> Result<Text, AllocError>
    ensures { IfOk result (λ value. value ≡ string_value token.now) }
{
    let value = spoken::<Characters>(alloc, behind_quote(token))?;
    Ok(Text::from_string(value))
}

/// The value of a block string token, of its bytes with the quotes. Of a text that is no such token it means
/// nothing. The error is out of memory.
pub fn block_string_value(alloc: Global, token: &str) -> Result<Text, AllocError>
    ensures { IfOk result (λ value. value ≡ block_string_value token.now) }
{
    let text = behind_quotes(token);
    let value = match plain_block(text) {
        Some(plain) => dedented(alloc, plain)?,
        None => dedented(alloc, spoken::<BlockCharacters>(alloc, text)?.as_str())?,
    };
    Ok(Text::from_string(value))
}
