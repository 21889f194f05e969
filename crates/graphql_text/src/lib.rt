//! GraphQL text as documents: the grammar of the GraphQL specification of October 2021, appendix B.
//!
//! Proved: a tree is answered exactly where the whole text spells it, with every location; a refusal names
//! the first word that can't stand there.
//!
//! No clause: `character_at`, `hex_digit` and `shown`, which find and show the character of a refusal. Tests
//! and `tools/fuzz` compare it.
#![tactic(auto)]

pub mod parse_error;
pub mod parsing;
mod reading;
mod refusals;
