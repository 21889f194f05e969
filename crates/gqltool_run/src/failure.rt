//! Why a run has nothing to write.
ghost use Rattle.std.specs.Prelude.{◌≡◌};
ghost use Rattle.apollo_compiler.specs.declared.compile_error.CompileError.{CompileError};
ghost use Rattle.gqltool_run.specs.Status.{failure_of_input, failure_of_read, status_of};
ghost use Rattle.gqltool_run.specs.declared.failure.Failure.{Failure};

use apollo_compiler::compile_error::CompileError;
use bench_notation::refusal::{ReadError, RefusedLine};
use graphql_nodes::name::InvalidNameError;
use program_io::file_error::FileError;
use program_io::status::Status;
use std::alloc::AllocError;
use thiserror::Error;

/// Why a run has nothing to write.
#[derive(Debug, Drop, Error)]
pub enum Failure {
    /// The words are none that the program takes.
    #[error("usage: gqltool schema [--adopt] [--ignore-builtin] | doc | walk | leaf | coord TEXT")]
    Usage,
    /// The text of `coord` is of no coordinate.
    #[error(transparent)]
    NoCoordinate(InvalidNameError),
    /// The input cannot be read, or is not UTF-8.
    #[error("cannot read input")]
    CannotRead,
    /// This line of the input says nothing where it stands.
    #[error(transparent)]
    RefusedLine(RefusedLine),
    /// No line divides the input, which is to be divided.
    #[error("missing ===")]
    NoDivision,
    /// Out of memory, or the extensions of the input would pass the largest number.
    #[error(transparent)]
    Exhausted(CompileError),
}

impl From<AllocError> for Failure {
    ghost from_gives = { λ _ failure. failure ≡ Failure.Exhausted CompileError.Memory };

    fn from(_error: AllocError) -> Failure {
        Failure::Exhausted(CompileError::Memory)
    }
}

impl From<FileError> for Failure {
    ghost from_gives = { λ error failure. failure ≡ failure_of_input error };

    fn from(error: FileError) -> Failure {
        match error {
            FileError::CannotRead(_) | FileError::NotText => Failure::CannotRead,
            FileError::Memory => Failure::Exhausted(CompileError::Memory),
        }
    }
}

impl From<CompileError> for Failure {
    ghost from_gives = { λ error failure. failure ≡ Failure.Exhausted error };

    fn from(error: CompileError) -> Failure {
        Failure::Exhausted(error)
    }
}

impl From<ReadError> for Failure {
    ghost from_gives = { λ error failure. failure ≡ failure_of_read error };

    fn from(error: ReadError) -> Failure {
        match error {
            ReadError::Refused(line) => Failure::RefusedLine(line),
            ReadError::NoDivision => Failure::NoDivision,
            ReadError::Memory => Failure::Exhausted(CompileError::Memory),
        }
    }
}

impl Failure {
    /// How the run ends: `Exhausted` for what ran out, and `Refused` for all others.
    pub fn status(&self) -> Status
        ensures { result ≡ status_of self.now }
    {
        match self {
            Failure::Usage
            | Failure::NoCoordinate(_)
            | Failure::CannotRead
            | Failure::RefusedLine(_)
            | Failure::NoDivision => Status::Refused,
            Failure::Exhausted(_) => Status::Exhausted,
        }
    }
}
