//! `gqlbench`: the times of work on the schema and the documents that standard input says, written to
//! standard output.
#![tactic(auto)]

use gqlbench_run::running::run;
use gqltool_run::arguments::{Program, run_program};
use program_io::status::Status;
use std::process::ExitCode;

struct Bench;

impl Program for Bench {
    fn run(&self, rt: &HostRuntime, words: &[&str]) -> Status {
        run(
            rt.alloc(),
            rt,
            words,
            &mut rt.stdin(),
            &mut rt.stdout(),
            &mut rt.stderr(),
        )
    }
}

fn main(rt: HostRuntime) -> ExitCode {
    run_program(&rt, &Bench)
}
