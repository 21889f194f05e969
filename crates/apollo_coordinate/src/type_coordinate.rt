//! Coordinates of types: the Schema Coordinates RFC of GraphQL.
ghost use Rattle.std.specs.Prelude.{◌≡◌, Some, IfOk, IfErr};
ghost use Rattle.apollo_schema.specs.Lookups.{type_at};
ghost use Rattle.apollo_coordinate.specs.CoordinateLookups.{IsMissingType};
ghost use Rattle.apollo_coordinate.specs.CoordinateText.{SaysCoordinate, type_coordinate_text};
ghost use Rattle.apollo_coordinate.specs.Refusals.{WhenRefused, IsNoName};
ghost use Rattle.apollo_coordinate.specs.declared.schema_coordinate.SchemaCoordinate.TheVariants as any;

use crate::lookup_answers::SchemaLookupError;
use crate::lookups::find_type;
use crate::parse_error::SchemaCoordinateParseError;
use crate::text_parts::name_part;
use crate::type_attribute_coordinate::TypeAttributeCoordinate;
use apollo_schema::schema::Schema;
use apollo_types::extended_type::ExtendedType;
use graphql_nodes::name::{Name, NamedType};
use graphql_nodes::take_apart;
use std::alloc::Global;
use std::fmt;

/// The coordinate of a type: `Type`.
#[derive(Debug, Clone, PartialEq, Eq, Hash)]
pub struct TypeCoordinate {
    pub ty: NamedType,
}

impl Drop for TypeCoordinate {
    fn drop(self) {
        take_apart!(self: ty);
    }
}

impl TypeCoordinate {
    /// The coordinate of this attribute of the type.
    pub fn with_attribute(self, attribute: Name) -> TypeAttributeCoordinate
        ensures { result ≡ record { ty = self.ty; attribute = attribute } }
    {
        let Self { ty } = self;
        TypeAttributeCoordinate { ty, attribute }
    }

    /// The coordinate that a text `Type` says, whose name has no location.
    ///
    /// A text that is no name is refused with [`InvalidName`](SchemaCoordinateParseError::InvalidName) of the
    /// text; [`Memory`](SchemaCoordinateParseError::Memory) is out of memory. `InvalidFormat` doesn't come.
    pub fn from_str(alloc: Global, text: &str) -> Result<TypeCoordinate, SchemaCoordinateParseError>
        ensures says { IfOk result (λ c. SaysCoordinate text.now (any.Ty c)) }
        ensures refused { IfErr result (WhenRefused (IsNoName text.now)) }
    {
        match name_part(text) {
            Ok(ty) => Ok(TypeCoordinate {
                ty: Name::new_unchecked(alloc, ty)?,
            }),
            Err(refusal) => Err(refusal.into_error(alloc)),
        }
    }

    /// The type that the coordinate points to. [`MissingType`](SchemaLookupError::MissingType) is a name
    /// without a type.
    pub fn lookup<'coord, 'schema>(
        &'coord self,
        schema: &'schema Schema,
    ) -> Result<&'schema ExtendedType, SchemaLookupError<'coord, 'schema>>
        ensures found { IfOk result (λ found. type_at schema.now.types self.now.ty ≡ Some found.now) }
        ensures missing { IfErr result (IsMissingType schema.now.types self.now.ty) }
    {
        find_type(&self.ty, schema)
    }
}

impl fmt::Display for TypeCoordinate {
    ghost output = { λ c. Some (type_coordinate_text c) };

    fn fmt<W: fmt::Write>(&self, f: &mut fmt::Formatter<W>) -> fmt::Result {
        let Self { ty } = self;
        write!(f, "{ty}")
    }
}
