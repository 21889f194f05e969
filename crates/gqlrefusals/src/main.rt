//! `gqlrefusals`: calls that can run out of memory, each in a scenario. The scenario writes its answer in
//! full, or, where a request for memory was refused, looks at what is promised after that. No function has a
//! clause: the program is a test, whose answers are compared, with ample memory and with each request refused
//! in turn.
#![tactic(auto)]

mod builders;
mod changing;
mod compiling;
mod containers;
mod coordinates;
mod documents;
mod in_a_set;
mod inputs;
mod making;
mod parts;
mod scenario;
mod schemas;
mod sets;
mod stop;
mod texts;

use crate::scenario::{SCENARIOS, Scenario};
use crate::stop::{Stop, Told};
use gqltool_run::arguments::words;
use program_io::status::Status;
use std::alloc::Global;
use std::io::{self, Write};
use std::process::ExitCode;

const USAGE: &str = "usage: gqlrefusals SCENARIO | --all";

/// Adds a scenario: a line `* NAME`, and then its answer, whose lines stand behind `> `.
fn push_scenario(alloc: Global, text: &mut String, name: &str, scenario: Scenario) -> Told {
    let mut answer = String::new(alloc);
    scenario.tell(alloc, &mut answer)?;
    write!(text, "* {name}\n")?;
    for line in answer.lines() {
        write!(text, "> {line}\n")?;
    }
    Ok(())
}

/// Tells the scenario of this name, or for `--all` each one behind its name. Answers whether there is any.
fn tell_named(alloc: Global, text: &mut String, word: &str) -> Result<bool, Stop> {
    let mut is_known = false;
    for (name, scenario) in &SCENARIOS {
        if word == "--all" {
            push_scenario(alloc, text, *name, *scenario)?;
            is_known = true;
        } else if word == *name {
            scenario.tell(alloc, text)?;
            is_known = true;
        }
    }
    Ok(is_known)
}

fn told(alloc: Global, words: &[String], text: &mut String) -> Result<bool, Stop> {
    match words {
        [word] => tell_named(alloc, text, word.as_str()),
        _ => Ok(false),
    }
}

fn write_out(rt: &HostRuntime, text: &str) -> io::Result<()> {
    let mut output = rt.stdout();
    output.write_all(text.as_bytes())?;
    output.flush()
}

/// Writes what was said, or says why nothing was. `Done` is the answer where memory was ample. `Exhausted`
/// where a request was refused and all stands that is promised after that; `Faults` where something else
/// came.
fn ended(rt: &HostRuntime, told: Result<bool, Stop>, text: &str) -> Status {
    match told {
        Ok(true) if write_out(rt, text).is_ok() => Status::Done,
        Ok(true) => Status::NotWritten,
        Ok(false) => {
            let _ = rt.eprintln(USAGE);
            Status::Refused
        }
        Err(Stop::Memory) => Status::Exhausted,
        Err(Stop::Wrong(why)) => {
            let _ = rt.eprintln(why);
            Status::Faults
        }
    }
}

fn main(rt: HostRuntime) -> ExitCode {
    let status = match words(&rt, rt.alloc()) {
        Ok(words) => {
            let mut text = String::new(rt.alloc());
            let told = told(rt.alloc(), words.as_slice(), &mut text);
            ended(&rt, told, text.as_str())
        }
        // The words are all that can fail here, and only because memory ran out.
        Err(_) => Status::Exhausted,
    };
    ExitCode::from(status.code())
}
