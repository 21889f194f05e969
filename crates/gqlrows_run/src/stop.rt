//! Why no row is run.

use program_io::status::Status;
use std::alloc::AllocError;
use thiserror::Error;

/// Why no row is run.
#[derive(Debug, Drop, Error)]
pub enum Stop {
    /// A file or a line of it is refused, for this reason.
    #[error("{0}")]
    Refused(String),
    /// Out of memory.
    #[error("out of memory")]
    Memory(#[from(alloc)] AllocError),
}

impl Stop {
    /// How the run ends.
    pub fn status(&self) -> Status {
        match self {
            Stop::Refused(_) => Status::Refused,
            Stop::Memory(_) => Status::Exhausted,
        }
    }
}
