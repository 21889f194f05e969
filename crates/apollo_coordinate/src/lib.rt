//! Schema coordinates, read, printed and looked up in schemas: the Schema Coordinates RFC of GraphQL.
//!
//! Proved: coordinates are read and printed exactly; what each lookup finds, and each error.
#![tactic(auto)]

pub mod directive_argument_coordinate;
pub mod directive_coordinate;
pub mod field_argument_coordinate;
pub mod laws;
pub mod lookup_answers;
mod lookups;
pub mod parse_error;
mod refusal;
pub mod schema_coordinate;
mod text_parts;
pub mod type_attribute_coordinate;
pub mod type_coordinate;

pub use crate::directive_argument_coordinate::DirectiveArgumentCoordinate;
pub use crate::directive_coordinate::DirectiveCoordinate;
pub use crate::field_argument_coordinate::FieldArgumentCoordinate;
pub use crate::lookup_answers::{SchemaCoordinateLookup, SchemaLookupError, TypeAttributeLookup};
pub use crate::parse_error::SchemaCoordinateParseError;
pub use crate::schema_coordinate::SchemaCoordinate;
pub use crate::type_attribute_coordinate::TypeAttributeCoordinate;
pub use crate::type_coordinate::TypeCoordinate;
