//! The steps of a build: a definition made into a type, an extension folded into one, what waits, is adopted,
//! or is left over. GraphQL specification of October 2021, section 3.
//!
//! Most are calls on the state that folding changes, a [`Fold`](crate::fold::Fold). After a refusal nothing is
//! said of what a step was to change: types, tables, and that state. Drop them. What is read stays.
//!
//! Proved: each step of a build does what the meaning says of it, with its faults.
#![tactic(auto)]

pub mod adoption;
pub mod builder_error;
pub mod extension;
mod faults;
pub mod fold;
mod from_ast;
pub mod waiting;
