//! Why a field isn't found: GraphQL specification of October 2021, sections 3.6, 3.7 and 4.1.

use apollo_types::extended_type::ExtendedType;
use graphql_nodes::name::NamedType;
use thiserror::Error;

/// Why [`Schema::type_field`](crate::schema::Schema::type_field) answers no field.
///
/// Errors are equal where both say that there is no type, or name one key, by its text, and equal types.
#[derive(Clone, Copy, Debug, PartialEq, Eq, Error)]
pub enum FieldLookupError<'schema> {
    /// The schema has no type of the name.
    #[error("the schema has no such type")]
    NoSuchType,
    /// The type, which the schema has under this key, has no field of the name.
    #[error("type `{0}` has no such field")]
    NoSuchField(&'schema NamedType, &'schema ExtendedType),
}
