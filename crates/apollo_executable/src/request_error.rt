//! Why no operation is answered for a request: GraphQL specification of October 2021, section 6.1.
ghost use Rattle.std.specs.Prelude.{◌≡◌};

use graphql_nodes::name::Name;
use std::alloc::AllocError;
use thiserror::Error;

/// Why [`OperationMap::get`](crate::operation_map::OperationMap::get) or
/// [`get_mut`](crate::operation_map::OperationMap::get_mut) answers no operation.
///
/// Errors are equal where they are of one sort, and their names have one text.
#[derive(Clone, Copy, Debug, PartialEq, Eq, Error)]
pub enum RequestError<'n> {
    /// The document has no operation of this name.
    #[error("No operation named '{0}'")]
    NoSuchOperation(&'n Name),
    /// No name was given, and the document has no operation or several.
    #[error("Ambiguous request: multiple operations but no specified `operationName`")]
    Ambiguous,
    /// Out of memory: from `get_mut` alone.
    #[error("out of memory")]
    Memory,
}

impl<'n> From<AllocError> for RequestError<'n> {
    ghost use Rattle.apollo_executable.specs.declared.request_error.RequestError.TheVariants.{Memory};

    ghost from_gives = { λ _ error. error ≡ Memory };

    /// `Memory`.
    fn from(_: AllocError) -> RequestError<'n> {
        RequestError::Memory
    }
}
