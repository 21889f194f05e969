//! Laws of tokens and of errors.
ghost use Rattle.graphql_nodes.specs.Clones.{IsExact};
ghost use Rattle.graphql_nodes.specs.Comparing.{ComparesBy};
ghost use Rattle.std.specs.Prelude.{◌≡◌, [], codes, false, true};
ghost use Rattle.graphql_tokens.specs.Comments.{has_comment};
ghost use Rattle.graphql_tokens.specs.WholeTexts.{TextsAreMadeOfTokens};

use crate::token::{Token, TokenError, TokenErrorKind, TokenKind};
use crate::tokens_error::TokensError;

/// Tokens are equal exactly where they are one, and so are their kinds, and errors.
pub fn equality_of_tokens_and_errors()
    ensures kind { ComparesBy ⟦<TokenKind as PartialEq>⟧.eq (λ kind. kind) }
    ensures token { ComparesBy ⟦<Token as PartialEq>⟧.eq (λ token. token) }
    ensures error_kind { ComparesBy ⟦<TokenErrorKind as PartialEq>⟧.eq (λ kind. kind) }
    ensures token_error { ComparesBy ⟦<TokenError as PartialEq>⟧.eq (λ error. error) }
    ensures tokens_error { ComparesBy ⟦<TokensError as PartialEq>⟧.eq (λ error. error) }
{}

/// Each clone of a token is the original, and so is each clone of its kind, and of an error.
pub fn clones_are_exact()
    ensures kind { IsExact ⟦<TokenKind as Clone>⟧.is_clone }
    ensures token { IsExact ⟦<Token as Clone>⟧.is_clone }
    ensures error_kind { IsExact ⟦<TokenErrorKind as Clone>⟧.is_clone }
    ensures token_error { IsExact ⟦<TokenError as Clone>⟧.is_clone }
    ensures tokens_error { IsExact ⟦<TokensError as Clone>⟧.is_clone }
{}

/// The tokens of a text and what says nothing make up the whole text. The tokens stand in order, each has a
/// byte at least, and all before, between and behind them says nothing.
pub fn tokens_make_up_the_text()
    ensures { TextsAreMadeOfTokens }
{}

/// Texts with a comment, and texts without one.
pub fn worked_comments()
    ensures alone { has_comment (codes "# all of it") ≡ true }
    ensures behind { has_comment (codes "type A { a: Int # why") ≡ true }
    ensures between { has_comment (codes "{ a,#\nb }") ≡ true }
    ensures in_string { has_comment (codes "{ a(b: \"#\") }") ≡ false }
    ensures in_block_string { has_comment (codes "\"\"\"#\"\"\" type A") ≡ false }
    ensures none { has_comment (codes "{ a, b }") ≡ false }
    ensures empty { has_comment [] ≡ false }
    ensures behind_a_fault { has_comment (codes "~ # not seen") ≡ false }
{}
