//! Kinds of words: GraphQL specification of October 2021, section 2.1.6. The words that the grammar tells
//! apart from other names have kinds of their own.
ghost use Rattle.std.specs.Prelude.{◌≡◌};
ghost use Rattle.graphql_grammar.specs.Kinds.{is_name, is_token, names_of, only, tag};

/// What a word is.
#[derive(Clone, Copy, Debug, PartialEq, Eq)]
pub enum Kind {
    /// A name that is none of the words below.
    Name,
    /// `true`
    True,
    /// `false`
    False,
    /// `null`
    Null,
    /// `on`
    On,
    /// `query`
    Query,
    /// `mutation`
    Mutation,
    /// `subscription`
    Subscription,
    /// `fragment`
    Fragment,
    /// `schema`
    Schema,
    /// `scalar`
    Scalar,
    /// `type`
    Type,
    /// `interface`
    Interface,
    /// `union`
    Union,
    /// `enum`
    Enum,
    /// `input`
    Input,
    /// `directive`
    Directive,
    /// `extend`
    Extend,
    /// `implements`
    Implements,
    /// `repeatable`
    Repeatable,
    /// `!`
    Bang,
    /// `$`
    Dollar,
    /// `&`
    Ampersand,
    /// `(`
    LeftParen,
    /// `)`
    RightParen,
    /// `...`
    Spread,
    /// `:`
    Colon,
    /// `=`
    Equals,
    /// `@`
    At,
    /// `[`
    LeftBracket,
    /// `]`
    RightBracket,
    /// `{`
    LeftBrace,
    /// `|`
    Pipe,
    /// `}`
    RightBrace,
    /// An integer.
    Int,
    /// A number with a fraction or an exponent.
    Float,
    /// A string in quotes.
    String,
    /// A string in `"""`.
    BlockString,
    /// Where a text stops being tokens: a character that begins none, or that stands nowhere in a text.
    /// Nothing is spelled with this kind, nor with those below.
    UnexpectedCharacter,
    /// The same: a string without its end.
    UnterminatedString,
    /// The same: a `\` without an escape.
    InvalidEscape,
    /// The same: a number that ends where none may end.
    InvalidNumber,
    /// The token behind as many as are allowed.
    TooMany,
}

impl Kind {
    /// The number of the kind.
    pub fn tag(self) -> u8
        ensures { result ≡ tag self }
    {
        match self {
            Kind::Name => 0,
            Kind::True => 1,
            Kind::False => 2,
            Kind::Null => 3,
            Kind::On => 4,
            Kind::Query => 5,
            Kind::Mutation => 6,
            Kind::Subscription => 7,
            Kind::Fragment => 8,
            Kind::Schema => 9,
            Kind::Scalar => 10,
            Kind::Type => 11,
            Kind::Interface => 12,
            Kind::Union => 13,
            Kind::Enum => 14,
            Kind::Input => 15,
            Kind::Directive => 16,
            Kind::Extend => 17,
            Kind::Implements => 18,
            Kind::Repeatable => 19,
            Kind::Bang => 20,
            Kind::Dollar => 21,
            Kind::Ampersand => 22,
            Kind::LeftParen => 23,
            Kind::RightParen => 24,
            Kind::Spread => 25,
            Kind::Colon => 26,
            Kind::Equals => 27,
            Kind::At => 28,
            Kind::LeftBracket => 29,
            Kind::RightBracket => 30,
            Kind::LeftBrace => 31,
            Kind::Pipe => 32,
            Kind::RightBrace => 33,
            Kind::Int => 34,
            Kind::Float => 35,
            Kind::String => 36,
            Kind::BlockString => 37,
            Kind::UnexpectedCharacter => 38,
            Kind::UnterminatedString => 39,
            Kind::InvalidEscape => 40,
            Kind::InvalidNumber => 41,
            Kind::TooMany => 42,
        }
    }

    /// Whether this is the other kind.
    pub fn is(self, other: Kind) -> bool
        ensures { result ≡ only other self }
    {
        self.tag() == other.tag()
    }

    /// Whether words of the kind are tokens: not where a text stops being tokens, or has more than are
    /// allowed.
    pub fn is_token(self) -> bool
        ensures { result ≡ is_token self }
    {
        self.tag() < 38
    }

    /// Whether words of the kind are names, the words that the grammar tells apart among them.
    pub fn is_name(self) -> bool
        ensures { result ≡ is_name self }
    {
        self.tag() < 20
    }
}

/// Which words are names at a place: section 2.1.9 and appendix B.
#[derive(Clone, Copy, Debug, PartialEq, Eq)]
pub enum Names {
    /// Each word.
    Any,
    /// Each but `on`: the name of a fragment.
    Fragment,
    /// Each but `true`, `false` and `null`: the name of an enum value.
    EnumValue,
}

impl Names {
    /// Whether words of the kind are such names.
    pub fn has(self, kind: Kind) -> bool
        ensures { result ≡ names_of self kind }
    {
        match self {
            Names::Any => kind.is_name(),
            Names::Fragment => kind.is_name() && !kind.is(Kind::On),
            Names::EnumValue => kind.is_name() && (kind.tag() == 0 || kind.tag() > 3),
        }
    }
}
