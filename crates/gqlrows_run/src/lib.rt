//! The whole run of the program `gqlrows`: [`run_rows`](running::run_rows). No function has a clause: it
//! serves a tool, and its tests compare whole reports.
#![tactic(auto)]

mod report;
pub mod row;
pub mod running;
pub mod stop;
