//! `gqltool`: schemas and documents from standard input, written to standard output.
#![tactic(auto)]

use gqltool_run::arguments::{Program, run_program};
use gqltool_run::running::run_with_keys;
use graphql_nodes::collections::hash_keys::HashKeys;
use program_io::status::Status;
use std::process::ExitCode;

/// Keys of the system's randomness, so that nobody can make names that collide, or fixed ones where it gives
/// none.
fn drawn_keys(rt: &HostRuntime) -> HashKeys {
    HashKeys::drawn(rt).unwrap_or(HashKeys::FIXED)
}

struct Tool;

impl Program for Tool {
    fn run(&self, rt: &HostRuntime, words: &[&str]) -> Status {
        run_with_keys(
            rt.alloc(),
            drawn_keys(rt),
            words,
            &mut rt.stdin(),
            &mut rt.stdout(),
            &mut rt.stderr(),
        )
    }
}

fn main(rt: HostRuntime) -> ExitCode {
    run_program(&rt, &Tool)
}
