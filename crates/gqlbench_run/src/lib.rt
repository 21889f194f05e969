//! The whole run of the program `gqlbench`: [`run`](running::run). No function has a clause: it is a tool.
#![tactic(auto)]

mod bench;
mod command;
mod failure;
pub mod memory;
pub mod phases;
mod questions;
mod report;
pub mod running;
mod walked;
