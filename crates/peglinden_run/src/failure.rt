//! Why a request has no answer.
ghost use Rattle.std.specs.Prelude.{◌≡◌};
ghost use Rattle.apollo_compiler.specs.declared.compile_error.CompileError.{CompileError};
ghost use Rattle.peglinden_run.specs.Status.{message_of, output_of, status_of};
ghost use Rattle.peglinden_run.specs.declared.failure.Failure.{Failure};

use crate::printed::Printed;
use apollo_compiler::compile_error::CompileError;
use program_io::status::Status;
use std::alloc::AllocError;

/// Why a request has no answer.
#[derive(Debug, Drop)]
pub enum Failure {
    /// A file can't be read, or is no document. What is printed of it says so of each such file, and how many
    /// they are, in the form that is asked for. Each line has its end.
    Files(Printed),
    /// The text of `lookup` is no coordinate: a sentence that says so, for standard error, with its line
    /// end.
    NoCoordinate(String),
    /// Memory ran out, or the extensions of the schema would pass the largest number.
    Exhausted(CompileError),
}

impl From<CompileError> for Failure {
    ghost from_gives = { λ error failure. failure ≡ Failure.Exhausted error };

    fn from(error: CompileError) -> Failure {
        Failure::Exhausted(error)
    }
}

impl From<AllocError> for Failure {
    ghost from_gives = { λ _ failure. failure ≡ Failure.Exhausted CompileError.Memory };

    fn from(_error: AllocError) -> Failure {
        Failure::Exhausted(CompileError::Memory)
    }
}

impl Failure {
    /// How the run ends: `Exhausted` for what ran out, and `Refused` for the others.
    pub fn status(&self) -> Status
        ensures { result ≡ status_of self.now }
    {
        match self {
            Failure::Files(_) | Failure::NoCoordinate(_) => Status::Refused,
            Failure::Exhausted(_) => Status::Exhausted,
        }
    }

    /// What standard output is to say of it: something only where files are refused, in a form for
    /// programs.
    pub fn output(&self) -> &str
        ensures { result.now ≡ output_of self.now }
    {
        match self {
            Failure::Files(printed) => printed.output.as_str(),
            Failure::NoCoordinate(_) | Failure::Exhausted(_) => "",
        }
    }

    /// What standard error is to say of it, with its line end.
    pub fn message(&self) -> &str
        ensures { result.now ≡ message_of self.now }
    {
        match self {
            Failure::Files(printed) => printed.errors.as_str(),
            Failure::NoCoordinate(sentence) => sentence.as_str(),
            Failure::Exhausted(CompileError::Memory) => "error: out of memory\n",
            Failure::Exhausted(CompileError::ExtensionIds) => {
                "error: extension identities spent\n"
            }
        }
    }
}
