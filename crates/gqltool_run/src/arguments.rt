//! The words of a command line, and the programs that run on them.

use program_io::status::Status;
use std::alloc::Global;
use std::process::ExitCode;
use std::{env, io};

/// The words after the program's name. Where one of them is not UTF-8 there are none, which no command takes.
/// The error is out of memory.
pub fn words(rt: &HostRuntime, alloc: Global) -> io::Result<Vec<String>> {
    match env::args(rt) {
        Ok(arguments) => Ok(arguments.skip(1).collect(alloc)?),
        Err(error) if error.kind() == io::ErrorKind::InvalidData => Ok(Vec::new(alloc)),
        Err(error) => Err(error),
    }
}

/// What a program does on the words after its name.
pub trait Program {
    /// Runs it on the streams of the process, and answers how that ended.
    fn run(&self, rt: &HostRuntime, words: &[&str]) -> Status;
}

/// Runs a program on the words of the process. Where there is no memory for these, it says so.
pub fn run_program<P: Program>(rt: &HostRuntime, program: &P) -> ExitCode {
    let status = match run_on_words(rt, program) {
        Ok(status) => status,
        // The words are all that can fail here, and only because memory ran out.
        Err(_) => {
            let _ = rt.eprintln("out of memory");
            Status::Exhausted
        }
    };
    ExitCode::from(status.code())
}

fn run_on_words<P: Program>(rt: &HostRuntime, program: &P) -> io::Result<Status> {
    let owned = words(rt, rt.alloc())?;
    let words: Vec<&str> = owned.iter().map(|word| word.as_str()).collect(rt.alloc())?;
    Ok(program.run(rt, words.as_slice()))
}
