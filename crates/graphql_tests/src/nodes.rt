//! Tests of names, nodes, containers and enums: printed texts, examples from the specification, that calls and
//! copies succeed with enough memory, and that a write leaves the other node.

mod containers;
mod hash_keys;
mod line_columns;
mod line_indexes;
mod lists;
mod names;
pub mod samples;
mod shared_nodes;
mod shown;
mod single_values;
mod sources;
mod tables;
mod texts;
