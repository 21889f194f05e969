//! Why a text is no coordinate, seen from what stands in the text: only the error that is answered takes
//! memory.
ghost use Rattle.std.specs.Prelude.{◌≡◌};
ghost use Rattle.apollo_coordinate.specs.Parts.{error_of};
ghost use Rattle.apollo_coordinate.specs.Refusals.{WhenRefused};

use crate::parse_error::SchemaCoordinateParseError;
use graphql_nodes::collections::text::Text;
use graphql_nodes::name::InvalidNameError;
use std::alloc::Global;

/// Why a text is not of a form.
#[derive(Clone, Copy)]
pub(crate) enum Refusal<'a> {
    /// A mark of the form is missing, or stands elsewhere.
    Format,
    /// This part is no name.
    Name(&'a str),
}

impl<'a> Refusal<'a> {
    /// The error that is answered, with a copy of the part that is no name; or out of memory, where there is
    /// none for that.
    pub(crate) fn into_error(self, alloc: Global) -> SchemaCoordinateParseError
        ensures answered { WhenRefused (λ error. error ≡ error_of self.entry) result }
        ensures format { error_of self.entry ≡ SchemaCoordinateParseError.InvalidFormat
            → result ≡ SchemaCoordinateParseError.InvalidFormat }
    {
        match self {
            Refusal::Format => SchemaCoordinateParseError::InvalidFormat,
            Refusal::Name(part) => match Text::from_str(alloc, part) {
                Ok(name) => SchemaCoordinateParseError::InvalidName(InvalidNameError {
                    name,
                    location: None,
                }),
                Err(error) => error.into(),
            },
        }
    }
}
