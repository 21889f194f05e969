//! What a text is refused with.
ghost use Rattle.std.specs.Prelude.{◌≡◌, ◌++◌, codes, length, IfOk};
ghost use Rattle.graphql_grammar.specs.declared.fault.FaultKind.TheVariants.{VariableInConstant};
ghost use Rattle.graphql_grammar.specs.Standing.{standing};
ghost use Rattle.graphql_text.specs.Parses.{Parsed, Reports, span_of};
ghost use Rattle.graphql_text.specs.Said.{IsUnexpectedCharacter, Says, SaysNoToken, fault_said, first_text};
ghost use Rattle.graphql_text.specs.Said.{found_text, item_text, unexpected};

use crate::parse_error::{ParseError, ParseErrorKind};
use graphql_grammar::fault::{FaultKind, Item, ReadError};
use graphql_grammar::kind::Kind;
use graphql_grammar::words::Words;
use graphql_nodes::collections::text::Text;
use graphql_nodes::source::{FileId, SourceSpan};
use std::alloc::{AllocError, Global};

/// The item that was expected, in words.
fn item_text(item: Item) -> &'static str
    ensures { result.now ≡ item_text item }
{
    match item {
        Item::Definition => "a definition",
        Item::ExtensionPart => "something that extends",
        Item::Extended => "what is extended",
        Item::FieldDefinition => "a field definition",
        Item::InputValue => "an input value definition",
        Item::EnumValue => "an enum value definition",
        Item::VariableDefinition => "a variable definition",
        Item::RootOperation => "a root operation type",
        Item::DirectiveLocation => "a directive location",
        Item::Selection => "a selection",
        Item::Argument => "an argument",
        Item::Value => "a value",
        Item::ObjectField => "an object field",
        Item::Type => "a type",
        Item::Name => "a name",
        Item::End => "the end of the text",
        Item::Word(kind) => match kind {
            Kind::On => "`on`",
            Kind::Schema => "`schema`",
            Kind::Implements => "`implements`",
            Kind::LeftParen => "`(`",
            Kind::RightParen => "`)`",
            Kind::Colon => "`:`",
            Kind::Equals => "`=`",
            Kind::At => "`@`",
            Kind::LeftBracket => "`[`",
            Kind::RightBracket => "`]`",
            Kind::LeftBrace => "`{`",
            Kind::RightBrace => "`}`",
            Kind::Dollar => "`$`",
            _ => "a keyword",
        },
    }
}

/// These bytes in backquotes.
fn in_backquotes(alloc: Global, inner: &str) -> Result<Text, AllocError>
    ensures { IfOk result (λ text. text ≡ codes "`" ++ inner.now ++ codes "`") }
{
    let mut text = String::new(alloc);
    text.push_str("`")?;
    text.push_str(inner)?;
    text.push_str("`")?;
    Ok(Text::from_string(text))
}

/// The next word as it was found.
fn found_text(alloc: Global, words: &Words<'_>) -> Result<Text, AllocError>
    ensures { IfOk result (λ text. text ≡ found_text (standing words.now).left) }
{
    match words.next() {
        None => Text::from_str(alloc, "the end of the text"),
        Some(word) if word.kind.is(Kind::String) => Text::from_str(alloc, "a string"),
        Some(word) if word.kind.is(Kind::BlockString) => Text::from_str(alloc, "a block string"),
        Some(word) => in_backquotes(alloc, word.text),
    }
}

/// The text of the next word, and none where there is no word.
fn first_text<'a>(words: &Words<'a>) -> &'a str
    ensures { result.now ≡ first_text (standing words.now).left }
{
    match words.next() {
        Some(word) => word.text,
        None => "",
    }
}

/// The character that stands at a byte of a text, and U+FFFD where none does.
fn character_at(text: &str, at: usize) -> char {
    let mut place: usize = 0;
    for character in text.chars() {
        if place >= at {
            return character;
        }
        place = place.saturating_add(character.len_utf8());
    }
    '\u{fffd}'
}

/// A hexadecimal digit of these four bits.
fn hex_digit(bits: u32) -> char {
    char::from_digit(bits % 16, 16)
        .unwrap_or('0')
        .to_ascii_uppercase()
}

/// A character in backquotes, or, of a control character, its number.
fn shown(alloc: Global, character: char) -> Result<Text, AllocError> {
    let mut text = String::new(alloc);
    let number = u32::from(character);
    if number < 32 {
        text.push_str("U+00")?;
        text.push(hex_digit(number / 16))?;
        text.push(hex_digit(number))?;
    } else {
        text.push('`')?;
        text.push(character)?;
        text.push('`')?;
    }
    Ok(Text::from_string(text))
}

/// An unexpected character, which stands at this byte of the text.
fn unexpected_character(alloc: Global, text: &str, at: usize) -> Result<ParseErrorKind, AllocError>
    ensures { IfOk result IsUnexpectedCharacter }
{
    let character = character_at(text, at);
    let shown = shown(alloc, character)?;
    Ok(ParseErrorKind::UnexpectedCharacter { character, shown })
}

/// This was expected, and the next word was found.
fn unexpected(alloc: Global, words: &Words<'_>, item: Item) -> Result<ParseErrorKind, AllocError>
    ensures { IfOk result (λ kind. kind ≡ unexpected item (standing words.now).left) }
{
    let expected = Text::from_str(alloc, item_text(item))?;
    let found = found_text(alloc, words)?;
    Ok(ParseErrorKind::Unexpected { expected, found })
}

/// What is wrong with a variable where values are constant: its name, if it has one, or its `$`.
fn variable_kind(alloc: Global, words: &Words<'_>) -> Result<ParseErrorKind, AllocError>
    ensures { IfOk result (λ kind. kind ≡ fault_said VariableInConstant (standing words.now).left) }
{
    match words.second() {
        Some(word) if word.kind.is_name() => Ok(ParseErrorKind::VariableInConstant(Text::from_str(
            alloc, word.text,
        )?)),
        _ => unexpected(alloc, words, Item::Value),
    }
}

/// What a fault says of the next word.
fn fault_said(
    alloc: Global,
    words: &Words<'_>,
    fault: FaultKind,
) -> Result<ParseErrorKind, AllocError>
    ensures { IfOk result (λ kind. kind ≡ fault_said fault (standing words.now).left) }
{
    match fault {
        FaultKind::Expected(item) => unexpected(alloc, words, item),
        FaultKind::ReservedName => {
            let name = Text::from_str(alloc, first_text(words))?;
            Ok(ParseErrorKind::ReservedName(name))
        }
        FaultKind::VariableInConstant => variable_kind(alloc, words),
        FaultKind::UnknownDirectiveLocation => {
            let name = Text::from_str(alloc, first_text(words))?;
            Ok(ParseErrorKind::UnknownDirectiveLocation(name))
        }
        FaultKind::DescriptionNotAllowed => Ok(ParseErrorKind::DescriptionNotAllowed),
        FaultKind::TooDeep => Ok(ParseErrorKind::TooDeep),
    }
}

/// What is wrong where no token stands, or one more than are allowed: at this byte, by the kind of the word
/// there.
fn no_token(alloc: Global, text: &str, at: usize, word: Kind) -> Result<ParseErrorKind, AllocError>
    ensures { IfOk result (SaysNoToken word) }
{
    match word {
        Kind::UnexpectedCharacter => unexpected_character(alloc, text, at),
        Kind::UnterminatedString => Ok(ParseErrorKind::UnterminatedString),
        Kind::InvalidEscape => Ok(ParseErrorKind::InvalidEscape),
        Kind::InvalidNumber => Ok(ParseErrorKind::InvalidNumber),
        _ => Ok(ParseErrorKind::TooManyTokens),
    }
}

/// What is wrong with the next word, or with the text there.
fn refused_kind(
    alloc: Global,
    text: &str,
    words: &Words<'_>,
    fault: FaultKind,
) -> Result<ParseErrorKind, AllocError>
    ensures { IfOk result (Says fault (standing words.now).left) }
{
    match words.next_kind() {
        Some(word) if !word.is_token() => no_token(alloc, text, words.start(), word),
        _ => fault_said(alloc, words, fault),
    }
}

/// Where the next word stands, in a text of so many bytes.
fn next_span(file: FileId, words: &Words<'_>, total: usize) -> SourceSpan
    ensures { result ≡ span_of file total (standing words.now).left }
{
    match words.next() {
        Some(word) => SourceSpan {
            file,
            start: word.start,
            end: word.end,
        },
        None => SourceSpan {
            file,
            start: total,
            end: total,
        },
    }
}

/// What a text is refused with, by what is wrong with the next word.
fn refusal(
    alloc: Global,
    file: FileId,
    text: &str,
    words: &Words<'_>,
    fault: FaultKind,
) -> Result<ParseError, AllocError>
    ensures { IfOk result
        (Reports file (length text.now) (record { kind = fault; left = (standing words.now).left })) }
{
    let kind = refused_kind(alloc, text, words, fault)?;
    let location = next_span(file, words, text.len());
    Ok(ParseError { location, kind })
}

/// What was read of a text, or what it is refused with.
pub(crate) fn parsed<T: Drop>(
    alloc: Global,
    file: FileId,
    text: &str,
    words: &Words<'_>,
    read: Result<T, ReadError>,
) -> Result<T, ParseError>
    ensures { Parsed file (length text.now) (standing words.now).left read result }
{
    match read {
        Ok(value) => Ok(value),
        Err(ReadError::Memory) => Err(ParseError::from(AllocError)),
        Err(ReadError::Fault(fault)) => Err(refusal(alloc, file, text, words, fault)?),
    }
}
