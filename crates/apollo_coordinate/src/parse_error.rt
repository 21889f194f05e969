//! Why a text is not read as a coordinate.
ghost use Rattle.std.specs.Prelude.{◌≡◌};
ghost use Rattle.apollo_coordinate.specs.declared.parse_error.SchemaCoordinateParseError.TheVariants.{InvalidName};
ghost use Rattle.apollo_coordinate.specs.declared.parse_error.SchemaCoordinateParseError.TheVariants.{Memory};
ghost use Rattle.apollo_coordinate.specs.Refusals.{error_of_name};

use graphql_nodes::name::{InvalidNameError, NameError};
use std::alloc::AllocError;
use thiserror::Error;

/// Why a text is not read as a coordinate.
///
/// `From` of a [`NameError`] is `InvalidName` or `Memory`, as that is.
#[derive(Debug, Drop, Clone, Error)]
pub enum SchemaCoordinateParseError {
    /// A mark of the coordinate's form is missing, or stands elsewhere. It takes no memory.
    #[error("invalid schema coordinate")]
    InvalidFormat,
    /// A part is no name (section 2.1.9 of the GraphQL specification of October 2021). The error has a copy
    /// of the part, and no location.
    #[error(transparent)]
    InvalidName(InvalidNameError),
    /// Memory ran out, which says of the text only that its format is not refused.
    #[error("out of memory")]
    Memory,
}

impl From<InvalidNameError> for SchemaCoordinateParseError {
    ghost from_gives = { λ refused error. error ≡ InvalidName refused };

    fn from(error: InvalidNameError) -> SchemaCoordinateParseError {
        SchemaCoordinateParseError::InvalidName(error)
    }
}

impl From<NameError> for SchemaCoordinateParseError {
    ghost from_gives = { λ refused error. error ≡ error_of_name refused };

    fn from(error: NameError) -> SchemaCoordinateParseError {
        match error {
            NameError::Invalid(error) => error.into(),
            NameError::Memory => SchemaCoordinateParseError::Memory,
        }
    }
}

impl From<AllocError> for SchemaCoordinateParseError {
    ghost from_gives = { λ _ error. error ≡ Memory };

    fn from(_error: AllocError) -> SchemaCoordinateParseError {
        SchemaCoordinateParseError::Memory
    }
}
