//! The bench notation: a line notation for GraphQL documents, which has no GraphQL text in it.
//!
//! [`read`](documents::read) makes documents of a text, and [`print`](printing::print) makes a text of
//! definitions.
//!
//! Proved: what is read is what the lines say; no line that could be read is refused; printing is exact.
//!
//! Not proved: why a line is refused, which tests compare.
//!
//! No clause: `Names::new`, `Names::alloc`, `hash_of`, `mixed` and `index_of`, as which names are kept, and
//! where, changes no answer.
#![tactic(auto)]

pub mod above;
mod directive_parts;
pub mod documents;
pub mod executable_header;
mod executable_line;
mod item;
pub mod kind_words;
pub mod laws;
pub mod line;
mod name_words;
pub mod names;
mod nesting;
mod nodes;
mod open_field;
pub mod printing;
pub mod pushing;
pub mod refusal;
pub mod selection_line;
pub mod selection_printing;
pub mod type_notation;
pub mod words;
