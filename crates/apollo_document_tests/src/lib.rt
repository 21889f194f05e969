//! Tests of typed documents, made by calls and built, of walks over them and of leaf faults, of what no clause
//! says.
//!
//! What stands here serves tests: calls have no clause.
#![tactic(auto)]

#[cfg(test)]
mod documents;
#[cfg(test)]
mod executable;
