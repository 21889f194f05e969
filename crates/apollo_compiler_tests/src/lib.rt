//! Tests of documents that are compiled, and of reports, of what no clause says.
//!
//! What stands here serves tests: calls have no clause.
#![tactic(auto)]

#[cfg(test)]
mod compilation;
#[cfg(test)]
mod loading;
#[cfg(test)]
mod reporting;
