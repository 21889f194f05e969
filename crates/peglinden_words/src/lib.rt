//! The words of the command line of `peglinden`: what they ask for, and the texts of help and of mistakes.
//!
//! Proved: what each command line asks for, or that it asks for nothing.
#![tactic(auto)]

mod arguments;
pub mod command_line;
mod commands;
mod contradictions;
pub mod laws;
pub mod request;
pub mod task;
mod values;
pub mod words_error;
