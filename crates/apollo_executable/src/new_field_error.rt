//! Why a field isn't made: GraphQL specification of October 2021, section 2.5.
ghost use Rattle.std.specs.Prelude.{◌≡◌};

use apollo_schema::field_lookup_error::FieldLookupError;
use std::alloc::AllocError;
use thiserror::Error;

/// Why [`SelectionSet::new_field`](crate::selection::SelectionSet::new_field) answers no field.
#[derive(Debug, Drop, PartialEq, Eq, Error)]
pub enum NewFieldError<'schema> {
    /// The schema has no such type, or the type no such field: the error of `Schema::type_field`.
    #[error("{0}")]
    Lookup(FieldLookupError<'schema>),
    /// Out of memory. The schema has the field.
    #[error("out of memory")]
    Memory,
}

impl<'schema> From<FieldLookupError<'schema>> for NewFieldError<'schema> {
    ghost use Rattle.apollo_executable.specs.declared.new_field_error.NewFieldError.TheVariants.{Lookup};

    ghost from_gives = { λ reason error. error ≡ Lookup reason };

    /// `Lookup` of this reason.
    fn from(reason: FieldLookupError<'schema>) -> NewFieldError<'schema> {
        NewFieldError::Lookup(reason)
    }
}

impl<'schema> From<AllocError> for NewFieldError<'schema> {
    ghost use Rattle.apollo_executable.specs.declared.new_field_error.NewFieldError.TheVariants.{Memory};

    ghost from_gives = { λ _ error. error ≡ Memory };

    /// `Memory`.
    fn from(_: AllocError) -> NewFieldError<'schema> {
        NewFieldError::Memory
    }
}
