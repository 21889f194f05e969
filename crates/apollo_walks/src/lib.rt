//! Walks over selections, as a theory: what is reached, in which order, and in how many turns. GraphQL
//! specification of October 2021, sections 2.8 and 6.3.2.
//!
//! It speaks of selections as plain values. What walks over those of a document stands in a crate above.
//!
//! Proved: a walk opens each fragment once and gives each field in reach as often as it is written. For N
//! selections it takes at most 2N + 1 turns.
#![tactic(auto)]

pub mod laws;
