//! What a list of definitions means: its types, its directive definitions, its schema definition and its
//! faults. GraphQL specification of October 2021, section 3.
//!
//! The meaning stands in `specs/`. Here are the faults as values, and the laws of the definitions.
//!
//! Proved: which schema a list of definitions means, and which faults it has; the built-in definitions are
//! those of one written table.
#![tactic(auto)]

pub mod build_error;
pub mod built_in;
mod built_in_nodes;
pub mod collision;
pub mod laws;
