//! `gqlrows`: runs of `gqltool`, read as rows, and which of them differ, written to standard output. The rows
//! are read from the files that the words name, or without a word from standard input.
#![tactic(auto)]

use gqlrows_run::running::run_rows;
use gqltool_run::arguments::words;
use program_io::status::Status;
use std::process::ExitCode;

fn main(rt: HostRuntime) -> ExitCode {
    let status = match words(&rt, rt.alloc()) {
        Ok(files) => run_rows(
            &rt,
            files.as_slice(),
            rt.stdin(),
            &mut rt.stdout(),
            &mut rt.stderr(),
        ),
        // Running out of memory is all that can be wrong here.
        Err(_) => Status::Exhausted,
    };
    ExitCode::from(status.code())
}
