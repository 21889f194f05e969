//! Why a run has nothing to write.

use apollo_compiler::compile_error::CompileError;
use apollo_compiler::text::{ParseError, ParseErrorKind};
use gqltool_run::failure::Failure as InputFailure;
use program_io::status::Status;
use std::alloc::AllocError;
use std::io;
use thiserror::Error;

/// Why a run has nothing to write.
#[derive(Debug, Drop, Error)]
pub enum Failure {
    /// The words are none that the program takes.
    #[error("usage: gqlbench schema|lookups|doc|walk|leaf|compile|text [--json] [--random-keys] [--adopt] [--ignore-builtin] REPEAT (without --random-keys tables hash by fixed keys)")]
    Usage,
    /// The input is refused, as in a run of `gqltool`.
    #[error(transparent)]
    Input(#[from] InputFailure),
    /// The input is no GraphQL text: what is wrong first, at this byte.
    #[error("byte {start}: {kind}")]
    Text { start: usize, kind: ParseErrorKind },
    /// Memory or numbers ran out.
    #[error(transparent)]
    Compile(#[from] CompileError),
    #[error("out of memory")]
    Memory(#[from(alloc)] AllocError),
    /// The clock can't be read.
    #[error("cannot read the clock")]
    Clock(#[from] io::Error),
    /// The words ask for random keys, and the system gives none.
    #[error("cannot draw random keys")]
    Randomness,
}

impl From<ParseError> for Failure {
    fn from(error: ParseError) -> Failure {
        match error.kind {
            ParseErrorKind::Memory => Failure::Memory(AllocError),
            kind => Failure::Text {
                start: error.location.start,
                kind,
            },
        }
    }
}

impl Failure {
    /// How the run ends.
    pub fn status(&self) -> Status {
        match self {
            Failure::Usage | Failure::Text { .. } => Status::Refused,
            Failure::Input(failure) => failure.status(),
            _ => Status::Exhausted,
        }
    }
}
