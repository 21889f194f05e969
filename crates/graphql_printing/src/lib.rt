//! GraphQL trees as text, in the layout of `print` of graphql-js 16.
//!
//! Proved: trees are written exactly as their text, without memory of their own.
//!
//! Not proved: that graphql-js prints the same, which `tools/fuzz` compares.
#![tactic(auto)]

pub mod arguments;
pub mod descriptions;
pub mod documents;
pub mod fields;
mod layout;
mod lists;
pub mod members;
pub mod operations;
pub mod printing;
pub mod selections;
mod strings;
mod type_system;
mod types;
mod values;
mod widths;
