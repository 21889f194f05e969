//! The words that the grammar tells apart from other names: GraphQL specification of October 2021, section
//! 2.1.9 and appendix B.
ghost use Rattle.std.specs.Prelude.{◌≡◌};
ghost use Rattle.graphql_grammar.specs.WordsOfText.{keywords, kind_among, name_kind, of_length};

use crate::kind::Kind;

/// The kind of a text that is one of these words, or else `Name`.
macro_rules! kind_among {
    ($text:expr, $($word:literal => $kind:ident),+) => {
        match $text {
            $($word => Kind::$kind,)+
            _ => Kind::Name,
        }
    };
}

/// The kind of a name of two bytes.
fn kind_of_two(text: &str) -> Kind
    ensures { result ≡ kind_among (of_length 2 keywords) text.now }
{
    kind_among!(text, "on" => On)
}

/// The kind of a name of four bytes.
fn kind_of_four(text: &str) -> Kind
    ensures { result ≡ kind_among (of_length 4 keywords) text.now }
{
    kind_among!(text, "true" => True, "null" => Null, "type" => Type, "enum" => Enum)
}

/// The kind of a name of five bytes.
fn kind_of_five(text: &str) -> Kind
    ensures { result ≡ kind_among (of_length 5 keywords) text.now }
{
    kind_among!(text, "false" => False, "query" => Query, "union" => Union, "input" => Input)
}

/// The kind of a name of six bytes.
fn kind_of_six(text: &str) -> Kind
    ensures { result ≡ kind_among (of_length 6 keywords) text.now }
{
    kind_among!(text, "schema" => Schema, "scalar" => Scalar, "extend" => Extend)
}

/// The kind of a name of eight bytes.
fn kind_of_eight(text: &str) -> Kind
    ensures { result ≡ kind_among (of_length 8 keywords) text.now }
{
    kind_among!(text, "mutation" => Mutation, "fragment" => Fragment)
}

/// The kind of a name of nine bytes.
fn kind_of_nine(text: &str) -> Kind
    ensures { result ≡ kind_among (of_length 9 keywords) text.now }
{
    kind_among!(text, "interface" => Interface, "directive" => Directive)
}

/// The kind of a name of ten bytes.
fn kind_of_ten(text: &str) -> Kind
    ensures { result ≡ kind_among (of_length 10 keywords) text.now }
{
    kind_among!(text, "implements" => Implements, "repeatable" => Repeatable)
}

/// The kind of a name of twelve bytes.
fn kind_of_twelve(text: &str) -> Kind
    ensures { result ≡ kind_among (of_length 12 keywords) text.now }
{
    kind_among!(text, "subscription" => Subscription)
}

/// The kind of a name: the words that the grammar tells apart have kinds of their own. A name is compared
/// with those of its length alone.
pub(crate) fn name_kind(text: &str) -> Kind
    ensures { result ≡ name_kind text.now }
{
    match text.len() {
        2 => kind_of_two(text),
        4 => kind_of_four(text),
        5 => kind_of_five(text),
        6 => kind_of_six(text),
        8 => kind_of_eight(text),
        9 => kind_of_nine(text),
        10 => kind_of_ten(text),
        12 => kind_of_twelve(text),
        _ => Kind::Name,
    }
}
