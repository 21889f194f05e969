//! Tokens, and why a text has none at a place: GraphQL specification of October 2021, section 2.1.6.

/// What a token is. A name is any word: the grammar tells keywords apart.
#[derive(Clone, Copy, Debug, PartialEq, Eq)]
pub enum TokenKind {
    /// `!`
    Bang,
    /// `$`
    Dollar,
    /// `&`
    Ampersand,
    /// `(`
    LeftParen,
    /// `)`
    RightParen,
    /// `...`
    Spread,
    /// `:`
    Colon,
    /// `=`
    Equals,
    /// `@`
    At,
    /// `[`
    LeftBracket,
    /// `]`
    RightBracket,
    /// `{`
    LeftBrace,
    /// `|`
    Pipe,
    /// `}`
    RightBrace,
    /// A name: section 2.1.9.
    Name,
    /// An integer: section 2.9.1.
    Int,
    /// A number with a fraction or an exponent: section 2.9.2.
    Float,
    /// A string in quotes: section 2.9.4.
    String,
    /// A string in `"""`: section 2.9.4.
    BlockString,
}

/// A token: what it is, and the bytes of the text from `start` up to, and without, `end`.
#[derive(Clone, Copy, Debug, PartialEq, Eq)]
pub struct Token {
    pub kind: TokenKind,
    pub start: usize,
    pub end: usize,
}

/// Why no token stands at a place of a text.
#[derive(Clone, Copy, Debug, PartialEq, Eq)]
pub enum TokenErrorKind {
    /// A character that begins no token, or that stands nowhere in a text.
    UnexpectedCharacter,
    /// A string that ends with its line, or a string or block string that ends with the text.
    UnterminatedString,
    /// A `\` in a string with something else than an escape behind it.
    InvalidEscape,
    /// A number that ends where it can't end.
    InvalidNumber,
}

/// Why a text has no tokens from a place on: what is wrong, and the byte where it is.
#[derive(Clone, Copy, Debug, PartialEq, Eq)]
pub struct TokenError {
    pub kind: TokenErrorKind,
    pub at: usize,
}
