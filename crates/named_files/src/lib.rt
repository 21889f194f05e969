//! Which files the words of a command line name: files, folders and patterns.
//!
//! Proved: which paths a pattern matches. Which files words name, in which order, each once: by what their
//! folders may have in them, which is known of files in memory, and not of the system.
#![tactic(auto)]

pub mod found;
pub mod laws;
pub mod naming;
mod order;
pub mod patterns;
mod prefixes;
pub mod refusal;
mod rows;
pub mod walks;
pub mod wanted;
pub mod with_refusals;
