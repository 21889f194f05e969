//! `peglinden`: files of GraphQL text, for people.
#![tactic(auto)]

use graphql_nodes::collections::hash_keys::HashKeys;
use peglinden_run::running::run;
use program_io::status::Status;
use program_io::system::SystemFiles;
use std::process::ExitCode;
use std::{env, io};

/// Keys of the system's randomness, so that nobody can make names that collide, or fixed ones where it
/// gives none.
fn drawn_keys(rt: &HostRuntime) -> HashKeys {
    HashKeys::drawn(rt).unwrap_or(HashKeys::FIXED)
}

fn run_on_streams(rt: &HostRuntime) -> io::Result<Status> {
    let alloc = rt.alloc();
    let owned: Vec<String> = env::args(rt)?.skip(1).collect(alloc)?;
    let words: Vec<&str> = owned.iter().map(|word| word.as_str()).collect(alloc)?;
    Ok(run(
        alloc,
        drawn_keys(rt),
        words.as_slice(),
        &SystemFiles(rt),
        &mut SystemFiles(rt),
        &mut rt.stdin(),
        &mut rt.stdout(),
        &mut rt.stderr(),
    ))
}

/// How a run ends whose words can't be had.
fn unread_words(rt: &HostRuntime, error: io::Error) -> Status {
    if error.kind() == io::ErrorKind::InvalidData {
        let _ = rt.eprintln("error: a word of the command line is not UTF-8");
        Status::Refused
    } else {
        let _ = rt.eprintln("error: out of memory");
        Status::Exhausted
    }
}

fn main(rt: HostRuntime) -> ExitCode {
    let status = run_on_streams(&rt).unwrap_or_else(|error| unread_words(&rt, error));
    ExitCode::from(status.code())
}
