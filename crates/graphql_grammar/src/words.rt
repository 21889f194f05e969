//! The words of a text that are left to read. They are made one by one, as they are taken.
ghost use Rattle.std.specs.Prelude.{◌≡◌, ◌-◌, [], length, IfOk, Option, None, Some};
ghost use Rattle.graphql_grammar.specs.Kinds.{is_name, names_of, only};
ghost use Rattle.graphql_grammar.specs.Pieces.{Gives, GivesSeen, take_sign, take_word};
ghost use Rattle.graphql_grammar.specs.Standing.{before, standing, words_of_split};
ghost use Rattle.graphql_grammar.specs.Words.{begins, first_kind, first_word, second_word, seen_word};
ghost use Rattle.graphql_grammar.specs.Words.{starting, word_view};
ghost use Rattle.graphql_grammar.specs.WordsOfText.{error_kind, word_kind, word_of, words_at};
ghost use Rattle.graphql_grammar.specs.WordsOfText.{words_of, wrong};
ghost use Rattle.graphql_grammar.specs.declared.kind.Kind.TheVariants.{TooMany};
ghost use Rattle.graphql_tokens.specs.First.{seen};

use crate::fault::{FaultKind, ReadError};
use crate::keywords::name_kind;
use crate::kind::{Kind, Names};
use crate::word::Word;
use graphql_nodes::name::Name;
use graphql_nodes::name::seen_names::SeenNames;
use graphql_nodes::source::SourceSpan;
use graphql_tokens::first::{FirstToken, first_token_of};
use graphql_tokens::token::{TokenError, TokenErrorKind, TokenKind};
use std::alloc::{AllocError, Global};

/// The words of a text that are left, and where the last one before them ended.
#[derive(Drop)]
pub struct Words<'a> {
    /// The byte behind the last word that was taken, and 0 where none was.
    pub last: usize,
    next: Option<Word<'a>>,
    /// What stands behind the next word.
    rest: &'a str,
    /// How many bytes the whole text has.
    total: usize,
    /// How many words are allowed behind the next one.
    allowed: usize,
    /// The names that were made of words, from the first one on.
    seen: Option<SeenNames>,
}

/// A word, and what stands behind it.
#[derive(Clone, Copy)]
struct Split<'a> {
    word: Word<'a>,
    rest: &'a str,
}

/// The kind of the word that a token is.
fn word_kind(kind: TokenKind, text: &str) -> Kind
    ensures { result ≡ word_kind kind text.now }
{
    match kind {
        TokenKind::Name => name_kind(text),
        TokenKind::Bang => Kind::Bang,
        TokenKind::Dollar => Kind::Dollar,
        TokenKind::Ampersand => Kind::Ampersand,
        TokenKind::LeftParen => Kind::LeftParen,
        TokenKind::RightParen => Kind::RightParen,
        TokenKind::Spread => Kind::Spread,
        TokenKind::Colon => Kind::Colon,
        TokenKind::Equals => Kind::Equals,
        TokenKind::At => Kind::At,
        TokenKind::LeftBracket => Kind::LeftBracket,
        TokenKind::RightBracket => Kind::RightBracket,
        TokenKind::LeftBrace => Kind::LeftBrace,
        TokenKind::Pipe => Kind::Pipe,
        TokenKind::RightBrace => Kind::RightBrace,
        TokenKind::Int => Kind::Int,
        TokenKind::Float => Kind::Float,
        TokenKind::String => Kind::String,
        TokenKind::BlockString => Kind::BlockString,
    }
}

/// The word that a token is, in a text of so many bytes.
fn word_of<'a>(total: usize, token: FirstToken<'a>) -> Word<'a>
    ensures { word_view result ≡ word_of total (seen token.entry) }
{
    let end = total.saturating_sub(token.rest.len());
    Word {
        kind: word_kind(token.kind, token.text),
        text: token.text,
        start: end.saturating_sub(token.text.len()),
        end,
    }
}

/// What stands there where no more words are allowed, in place of this one.
fn too_many<'a>(word: Word<'a>) -> Word<'a>
    ensures { word_view result ≡ record (word_view word.entry) { kind = TooMany; text = [] } }
{
    Word {
        kind: Kind::TooMany,
        text: "",
        ..word
    }
}

/// The kind of what stands there where a text stops being tokens.
fn error_kind(kind: TokenErrorKind) -> Kind
    ensures { result ≡ error_kind kind }
{
    match kind {
        TokenErrorKind::UnexpectedCharacter => Kind::UnexpectedCharacter,
        TokenErrorKind::UnterminatedString => Kind::UnterminatedString,
        TokenErrorKind::InvalidEscape => Kind::InvalidEscape,
        TokenErrorKind::InvalidNumber => Kind::InvalidNumber,
    }
}

/// What stands there where a text stops being tokens.
fn wrong<'a>(total: usize, text: &'a str, error: TokenError) -> Word<'a>
    ensures { word_view result ≡ wrong total text.now error }
{
    let at = total.saturating_sub(text.len().saturating_sub(error.at));
    Word {
        kind: error_kind(error.kind),
        text: "",
        start: at,
        end: at,
    }
}

/// The first word of the end of a text of so many bytes, where so many are allowed, and what stands behind
/// it. Behind what is no token nothing stands.
fn split_first<'a>(total: usize, allowed: usize, text: &'a str) -> Option<Split<'a>>
    ensures { words_of_split allowed total result ≡ words_at allowed total text.now }
{
    match first_token_of(text) {
        Ok(None) => None,
        Err(error) => Some(Split {
            word: wrong(total, text, error),
            rest: "",
        }),
        Ok(Some(token)) => {
            let word = word_of(total, token);
            if allowed == 0 {
                return Some(Split {
                    word: too_many(word),
                    rest: "",
                });
            }
            Some(Split {
                word,
                rest: token.rest,
            })
        }
    }
}

impl<'a> Words<'a> {
    /// The words of a text, of which so many are allowed.
    pub fn new(text: &'a str, allowed: usize) -> Words<'a>
        ensures { standing result ≡ record { last = 0; left = words_of allowed text.now } }
    {
        let mut words = Words {
            last: 0,
            next: None,
            rest: text,
            total: text.len(),
            allowed,
            seen: None,
        };
        words.advance();
        words
    }

    /// Makes the word that stands at the front of the rest the next one.
    fn advance(&mut self)
        ensures last { self.new.last ≡ self.old.last }
        ensures left { (standing self.new).left ≡ words_at self.old.allowed self.old.total self.old.rest.now }
    {
        match split_first(self.total, self.allowed, self.rest) {
            Some(split) => {
                self.next = Some(split.word);
                self.rest = split.rest;
                self.allowed = self.allowed.saturating_sub(1);
            }
            None => {
                self.next = None;
            }
        }
    }

    /// The next word, if there is one.
    pub fn next(&self) -> Option<Word<'a>>
        ensures { seen_word result ≡ first_word (standing self.now).left }
    {
        self.next
    }

    /// The word behind the next one, if there is one.
    pub fn second(&self) -> Option<Word<'a>>
        ensures { seen_word result ≡ second_word (standing self.now).left }
    {
        match self.next {
            Some(_) => match split_first(self.total, self.allowed, self.rest) {
                Some(split) => Some(split.word),
                None => None,
            },
            None => None,
        }
    }

    /// The kind of the next word, if there is one.
    pub fn next_kind(&self) -> Option<Kind>
        ensures { result ≡ first_kind (standing self.now).left }
    {
        match &self.next {
            Some(word) => Some(word.kind),
            None => None,
        }
    }

    /// Whether the next word is of this kind.
    pub fn next_is(&self, kind: Kind) -> bool
        ensures { result ≡ begins (only kind) (standing self.now).left }
    {
        match &self.next {
            Some(word) => word.kind.is(kind),
            None => false,
        }
    }

    /// Whether the next word is such a name.
    pub fn next_is_name(&self, names: Names) -> bool
        ensures { result ≡ begins (names_of names) (standing self.now).left }
    {
        match &self.next {
            Some(word) => names.has(word.kind),
            None => false,
        }
    }

    /// Where the next word starts, and 0 where there is none.
    pub fn start(&self) -> usize
        ensures { result ≡ starting (standing self.now).left }
    {
        match &self.next {
            Some(word) => word.start,
            None => 0,
        }
    }

    /// Takes the next word, which is of this kind; else this is wrong.
    pub fn expect(&mut self, kind: Kind, fault: FaultKind) -> Result<(), ReadError>
        ensures { Gives result (standing self.new) (take_sign kind fault (standing self.old).left) }
    {
        self.expect_word(kind, fault)?;
        Ok(())
    }

    /// Takes the next word, which is of this kind; else this is wrong.
    pub fn expect_word(&mut self, kind: Kind, fault: FaultKind) -> Result<Word<'a>, ReadError>
        ensures { GivesSeen word_view result (standing self.new)
            (take_word (only kind) fault (standing self.old).left) }
    {
        match self.next {
            Some(word) if word.kind.is(kind) => {
                self.last = word.end;
                self.advance();
                Ok(word)
            }
            _ => Err(ReadError::Fault(fault)),
        }
    }

    /// Takes the next word, which is such a name; else this is wrong.
    pub fn expect_name(&mut self, names: Names, fault: FaultKind) -> Result<Word<'a>, ReadError>
        ensures { GivesSeen word_view result (standing self.new)
            (take_word (names_of names) fault (standing self.old).left) }
    {
        match self.next {
            Some(word) if names.has(word.kind) => {
                self.last = word.end;
                self.advance();
                Ok(word)
            }
            _ => Err(ReadError::Fault(fault)),
        }
    }

    /// The name of this text at this location. A name that comes again shares its text with the first one, if
    /// that was kept. The error is out of memory.
    pub fn name(
        &mut self,
        alloc: Global,
        text: &str,
        location: SourceSpan,
    ) -> Result<Name, AllocError>
        ensures name { IfOk result (λ name. name ≡ record { text = text.now; location = Some location }) }
        ensures stands { standing self.new ≡ standing self.old }
    {
        if self.seen.is_none() {
            self.seen = Some(SeenNames::new(alloc, self.total)?);
        }
        let name = match &mut self.seen {
            Some(seen) => seen.name(alloc, text)?,
            None => Name::new_unchecked(alloc, text)?,
        };
        Ok(name.with_location(location))
    }
}
