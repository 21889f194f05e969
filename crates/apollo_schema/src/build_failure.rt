//! What a build answers where it has no schema without faults: GraphQL specification of October 2021, section
//! 3.
ghost use Rattle.std.specs.Prelude.{◌≡◌};
ghost use Rattle.apollo_schema.specs.BuildAnswers.{failure_of};

use crate::schema::Schema;
use apollo_folding::builder_error::BuilderError;
use apollo_meaning::build_error::Faults;
use apollo_meaning::laws::clones_are_exact;
use std::alloc::AllocError;
use std::fmt::{self, Write};
use thiserror::Error;

/// What could be built, and the faults, of which there is at least one. `{:?}` prints the faults alone, and
/// so does `{}`: the sentence of each, in order, on a line of its own.
#[derive(Drop)]
#[derive_where(Debug)]
pub struct WithErrors<T> {
    #[derive_where(skip)]
    pub partial: T,
    pub errors: Faults,
}

/// A copy has a copy of what could be built, and the same faults in the same order, with their locations. The
/// error is out of memory.
impl<T: Clone + Drop> Clone for WithErrors<T> {
    ghost use Rattle.std.specs.Prelude.{◌≡◌};

    ghost is_clone = { λ a b. T.is_clone a.partial b.partial × (b.errors.items ≡ a.errors.items) };

    fn clone(&self) -> Result<WithErrors<T>, AllocError> {
        clones_are_exact();
        let partial = self.partial.clone()?;
        let errors = self.errors.clone()?;
        Ok(WithErrors { partial, errors })
    }
}

impl<T> fmt::Display for WithErrors<T> {
    fn fmt<W: fmt::Write>(&self, f: &mut fmt::Formatter<W>) -> fmt::Result {
        for (at, fault) in self.errors.iter().enumerate() {
            if at > 0 {
                f.write_str("\n")?;
            }
            write!(f, "{}", fault.1)?;
        }
        Ok(())
    }
}

/// Why a build answers no schema without faults. `{}` is the sentences of the faults, one a line, or why
/// nothing could be built.
#[derive(Debug, Drop, Error)]
pub enum BuildFailure {
    /// What was added has faults: these, and the schema that could be built, with its sources.
    #[error("{0}")]
    Faults(WithErrors<Schema>),
    /// Out of memory.
    #[error("{}", BuilderError::Memory)]
    Memory,
    /// The extensions that are folded would pass the largest number.
    #[error("{}", BuilderError::ExtensionIds)]
    ExtensionIds,
    /// A call of the builder was refused before, or of the one that it was cloned from.
    #[error("{}", BuilderError::Failed)]
    Failed,
}

/// A refusal, as that of a build.
pub(crate) fn refusal(error: BuilderError) -> BuildFailure
    ensures { result ≡ failure_of error }
{
    match error {
        BuilderError::Memory => BuildFailure::Memory,
        BuilderError::ExtensionIds => BuildFailure::ExtensionIds,
        BuilderError::Failed => BuildFailure::Failed,
    }
}
