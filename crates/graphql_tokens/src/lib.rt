//! Texts as tokens: the lexical grammar of the GraphQL specification of October 2021, section 2.1 and
//! appendix B.
//!
//! Proved: a text is read as the tokens of the lexical grammar, with the bytes of each, or the first thing
//! wrong is reported. Strings have the values that their tokens say.
#![tactic(auto)]

pub mod comments;
mod escapes;
pub mod first;
mod ignored;
pub mod laws;
mod lexemes;
pub mod lexing;
mod lines;
mod long_runs;
mod numbers;
mod pieces;
mod plain;
mod runs;
mod spoken;
mod strings;
pub mod token;
pub mod tokens_error;
pub mod values;
