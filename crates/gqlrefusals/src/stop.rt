//! Why a scenario comes to no answer.

use apollo_schema::BuilderError;
use bench_notation::refusal::ReadError;
use std::alloc::{AllocError, AllocFailed};
use telling::Tell;

/// Why a scenario comes to no answer.
#[derive(Drop)]
pub enum Stop {
    /// A request for memory was refused, and what is promised after that stands.
    Memory,
    /// Something else came than what is promised, and this is what.
    Wrong(&'static str),
}

/// What a scenario comes to.
pub type Told = Result<(), Stop>;

impl From<AllocError> for Stop {
    fn from(_error: AllocError) -> Stop {
        Stop::Memory
    }
}

impl<T: Drop> From<AllocFailed<T>> for Stop {
    fn from(_error: AllocFailed<T>) -> Stop {
        Stop::Memory
    }
}

impl From<ReadError> for Stop {
    fn from(error: ReadError) -> Stop {
        match error {
            ReadError::Memory => Stop::Memory,
            _ => Stop::Wrong("an input was refused"),
        }
    }
}

impl From<BuilderError> for Stop {
    fn from(error: BuilderError) -> Stop {
        match error {
            BuilderError::Memory => Stop::Memory,
            _ => Stop::Wrong("a builder was refused"),
        }
    }
}

/// Goes on where this is so, and is wrong where it isn't.
pub fn expect(holds: bool, otherwise: &'static str) -> Told {
    if holds {
        Ok(())
    } else {
        Err(Stop::Wrong(otherwise))
    }
}

/// What a refusal of memory comes to, where this is so of what the call hands back or left as it was.
pub fn handed_back(is_right: bool) -> Stop {
    if is_right {
        Stop::Memory
    } else {
        Stop::Wrong("another one is handed back")
    }
}

/// Tells what was made.
pub fn tell_made<T: Tell + Drop>(text: &mut String, made: Result<T, AllocError>) -> Told {
    match made {
        Ok(value) => Ok(value.tell(text)?),
        Err(_) => Err(Stop::Memory),
    }
}

/// Tells what was made, on a line of its own.
pub fn tell_line<T: Tell + Drop>(text: &mut String, made: Result<T, AllocError>) -> Told {
    tell_made(text, made)?;
    Ok(text.push_str("\n")?)
}
