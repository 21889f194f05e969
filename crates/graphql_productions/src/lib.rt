//! The productions of GraphQL documents over words: the grammar of the GraphQL specification of October 2021,
//! appendix B. The crate has definitions and laws alone.
//!
//! Proved: words spell at most one tree; it is well-formed, and its locations lie within them. A refused word
//! is the first with which no tree goes on.
#![tactic(auto)]

pub mod laws;
