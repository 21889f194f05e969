//! Why nothing is compiled.
ghost use Rattle.std.specs.Prelude.{◌≡◌};
ghost use Rattle.apollo_compiler.specs.declared.compile_error.CompileError.{CompileError};

use std::alloc::AllocError;
use thiserror::Error;

/// Why nothing is compiled. All that was built is then dropped, and the documents are as they were.
#[derive(Debug, Clone, Copy, PartialEq, Eq, Error)]
pub enum CompileError {
    /// Out of memory.
    #[error("out of memory")]
    Memory,
    /// The extensions that the schema documents fold would pass the largest number.
    #[error("extension identities spent")]
    ExtensionIds,
}

impl From<AllocError> for CompileError {
    ghost from_gives = { λ _ error. error ≡ CompileError.Memory };

    /// `Memory`.
    fn from(_error: AllocError) -> CompileError {
        CompileError::Memory
    }
}
