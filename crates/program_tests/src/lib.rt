//! Tests of the runs of the programs, and of the tools.
//!
//! What stands here serves tests: calls have no clause.
#![tactic(auto)]

#[cfg(test)]
mod for_people;
#[cfg(test)]
mod named;
#[cfg(test)]
mod over_notation;
#[cfg(test)]
mod tools;
