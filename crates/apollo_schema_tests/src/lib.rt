//! Tests of types, of schemas and their builder, and of coordinates, of what the proofs don't show.
//!
//! What stands here serves tests: calls have no clause.
#![tactic(auto)]

#[cfg(test)]
mod coordinates;
#[cfg(test)]
mod schemas;
#[cfg(test)]
mod types;
