//! What a grammar over the words of a text is made of: words, the cursor that goes along them, and pieces
//! with their laws.
//!
//! Proved: a reader that is made of others reads what these spell, one behind another, and in one way at
//! most.
#![tactic(auto)]

pub mod fault;
mod keywords;
pub mod kind;
pub mod word;
pub mod words;
