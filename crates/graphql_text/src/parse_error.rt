//! Why a text is refused.
ghost use Rattle.std.specs.Prelude.{◌≡◌};
ghost use Rattle.graphql_text.specs.declared.parse_error.ParseErrorKind.TheVariants.{Memory};

use graphql_nodes::collections::text::Text;
use graphql_nodes::source::{FileId, SourceSpan};
use std::alloc::AllocError;
use thiserror::Error;

/// Why a text is refused: what is wrong with it first, and where.
#[derive(Debug, Drop, PartialEq, Eq, Clone, Error)]
#[error("{kind}")]
pub struct ParseError {
    /// The bytes of the token that can't stand there. Where no token stands, it begins where the text stops
    /// being one, and is empty, as it is at the end of the text. `BuiltInFile` and `Memory` say nothing of a
    /// place: theirs is the empty one at the start of file 0.
    pub location: SourceSpan,
    pub kind: ParseErrorKind,
}

impl From<AllocError> for ParseError {
    ghost from_gives = { λ _ error. error.kind ≡ Memory };

    /// `Memory`.
    fn from(_: AllocError) -> ParseError {
        ParseError {
            location: SourceSpan {
                file: FileId::BUILT_IN,
                start: 0,
                end: 0,
            },
            kind: ParseErrorKind::Memory,
        }
    }
}

/// What is wrong with a text. `Display` says it in a sentence.
#[derive(Debug, Drop, PartialEq, Eq, Clone, Error)]
pub enum ParseErrorKind {
    /// A character that begins no token, or that stands nowhere in a text.
    /// `shown` is the character in backquotes, or, of a control character, its number, as `U+0007`.
    #[error("unexpected character {shown}")]
    UnexpectedCharacter { character: char, shown: Text },
    /// A string without its closing quote in its line, or a block string without its closing quotes.
    #[error("unterminated string")]
    UnterminatedString,
    /// A `\` in a string with something else than an escape behind it.
    #[error("invalid escape sequence")]
    InvalidEscape,
    /// A number that ends where none may end.
    #[error("invalid number")]
    InvalidNumber,
    /// A token that can't stand there. `expected` is what alone may stand there, or the item that is being
    /// read. `found` is the token in backquotes, `a string`, `a block string` or `the end of the text`.
    #[error("expected {expected}, found {found}")]
    Unexpected { expected: Text, found: Text },
    /// `on` as the name of a fragment, or `true`, `false` or `null` as an enum value in a definition.
    #[error("the name `{0}` is reserved here")]
    ReservedName(Text),
    /// A variable, by its name, where the value is constant.
    #[error("variable `${0}` in a constant value")]
    VariableInConstant(Text),
    /// A name that is no directive location.
    #[error("unknown directive location `{0}`")]
    UnknownDirectiveLocation(Text),
    /// What stands behind a description is no definition of the type system.
    #[error("a description stands before a definition of the type system alone")]
    DescriptionNotAllowed,
    /// More `{`, `[` and `(` are open than are allowed.
    #[error("nested too deeply")]
    TooDeep,
    /// The text has more tokens than are allowed.
    #[error("too many tokens")]
    TooManyTokens,
    /// Files of texts have other numbers than 0.
    #[error("file number 0 is that of the built-in definitions")]
    BuiltInFile,
    /// Memory ran out, which says nothing of the text.
    #[error("out of memory")]
    Memory,
}
