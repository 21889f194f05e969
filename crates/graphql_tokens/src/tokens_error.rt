//! Why a text has no list of tokens.
ghost use Rattle.std.specs.Prelude.{◌≡◌};
ghost use Rattle.graphql_tokens.specs.declared.tokens_error.TokensError.TheVariants.{Memory, Wrong};

use crate::token::TokenError;
use std::alloc::AllocError;

/// Why [`tokens`](crate::lexing::tokens) answers no list.
#[derive(Clone, Copy, Debug, PartialEq, Eq)]
pub enum TokensError {
    /// What is wrong with the text first.
    Wrong(TokenError),
    /// Memory ran out, which says nothing of the text.
    Memory,
}

impl From<TokenError> for TokensError {
    ghost from_gives = { λ wrong error. error ≡ Wrong wrong };

    /// `Wrong` of this error.
    fn from(wrong: TokenError) -> TokensError {
        TokensError::Wrong(wrong)
    }
}

impl From<AllocError> for TokensError {
    ghost from_gives = { λ _ error. error ≡ Memory };

    /// `Memory`.
    fn from(_: AllocError) -> TokensError {
        TokensError::Memory
    }
}
