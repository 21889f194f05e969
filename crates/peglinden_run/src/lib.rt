//! The whole run of the program `peglinden`: [`run`](running::run).
//!
//! Proved: standard output is exactly the answer to the words and the files that they name; a refused run has
//! a cause, and writes nothing there but what `--json` and `--github` say of it. `format --write` replaces
//! exactly the files whose text differs from its layout, and none where one of them is refused.
//!
//! No clause: `no_coordinate`, `why_missing` and `write_visible_lines`, which make and write sentences for
//! people.
#![tactic(auto)]

pub mod answer;
pub mod answering;
mod comment_places;
mod coordinates;
mod document_commands;
pub mod documents;
mod echoes;
mod ended;
pub mod failure;
mod field_lines;
mod fields_command;
mod findings;
pub mod form;
mod format_command;
mod format_writing;
mod layouts;
mod lines;
mod looked_up;
mod lookup_command;
mod lost_comments;
mod missing;
pub mod named_task;
mod naming;
mod notes;
pub mod printed;
mod reports;
pub mod running;
mod schema_command;
mod schema_hints;
mod typed_documents;
