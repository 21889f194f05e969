//! Tests of what trees are made of, of trees and of the notation, of what no clause says.
//!
//! What stands here serves tests: calls have no clause.
#![tactic(auto)]

#[cfg(test)]
mod nodes;
#[cfg(test)]
mod trees;
