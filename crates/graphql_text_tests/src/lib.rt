//! Tests of GraphQL text: what is read of it, and what is printed of trees.
//!
//! What stands here serves tests: calls have no clause.
#![tactic(auto)]

#[cfg(test)]
mod printing;
#[cfg(test)]
mod reading;
