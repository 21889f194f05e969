//! Why a step of a builder is refused.
ghost use Rattle.std.specs.Prelude.{◌≡◌};
ghost use Rattle.apollo_folding.specs.declared.builder_error.BuilderError.TheVariants as errors;

use apollo_component::extension::IdsSpent;
use std::alloc::{AllocError, AllocFailed};
use thiserror::Error;

/// Why a builder stopped. It answers [`Failed`](BuilderError::Failed) from then on.
#[derive(Debug, Drop, PartialEq, Eq, Error)]
pub enum BuilderError {
    /// Out of memory.
    #[error("out of memory")]
    Memory,
    /// The extensions that are to be folded need more numbers than the source has left.
    #[error("extension identities spent")]
    ExtensionIds,
    /// A call of this builder was refused before, or of the one that it was cloned from.
    #[error("builder has failed")]
    Failed,
}

impl From<AllocError> for BuilderError {
    ghost from_gives = { λ _ error. error ≡ errors.Memory };

    /// `Memory`.
    fn from(_error: AllocError) -> BuilderError {
        BuilderError::Memory
    }
}

impl<T: Drop> From<AllocFailed<T>> for BuilderError {
    ghost from_gives = { λ _ error. error ≡ errors.Memory };

    /// `Memory`. What the error gives back is dropped.
    fn from(_error: AllocFailed<T>) -> BuilderError {
        BuilderError::Memory
    }
}

impl From<IdsSpent> for BuilderError {
    ghost from_gives = { λ _ error. error ≡ errors.ExtensionIds };

    /// `ExtensionIds`.
    fn from(_error: IdsSpent) -> BuilderError {
        BuilderError::ExtensionIds
    }
}
