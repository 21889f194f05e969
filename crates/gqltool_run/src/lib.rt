//! The whole run of the program `gqltool`: [`run`](running::run).
//!
//! Proved: standard output is exactly the answer to the words and the input; a refused run writes nothing
//! there, and has a cause.
//!
//! No clause: `words`, `run_on_words` and `run_program`, as no contract sees the words of the process, and
//! `leave_to_exit`, which answers nothing.
#![tactic(auto)]

pub mod answer;
pub mod answering;
pub mod arguments;
pub mod building;
pub mod coord_command;
pub mod doc_command;
pub mod document_building;
pub mod failure;
mod fault_printing;
pub mod laws;
pub mod leaf_command;
mod leaving;
mod outlet;
mod output_line;
mod prepared;
pub mod running;
pub mod schema_command;
pub mod schema_options;
pub mod task;
mod walk_command;
