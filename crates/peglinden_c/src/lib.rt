//! The library for C: one call for each command of `peglinden`, over files in memory. A call opens an answer,
//! which C then reads, and closes.
//!
//! Proved: what an answer holds is the answer to the call over its files, or why these are refused. A call
//! that opens none leaves the answer as it was. What is read of an answer is what it holds.
#![tactic(auto)]

pub mod answered;
pub mod answers;
mod asking;
pub mod calls;
mod copying;
pub mod files;
mod flags;
pub mod handle;
pub mod held;
mod keys;
mod loose;
mod opening;
pub mod refusal;
pub mod slot;
