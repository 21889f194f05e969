//! Coordinates of any form: the Schema Coordinates RFC of GraphQL. What follows holds of each form.
//!
//! Coordinates are equal and hashed by the texts of their names. A clone is the original, with the locations
//! of its names; its error is out of memory. `Display` is the text of the form, which reads back as the
//! coordinate where the parts are names.
//!
//! A text is first read into its parts, in place. Only if all of it is of the form are they made names, from
//! the left. A text that is read takes memory for its names alone. A refused text takes memory for the one
//! text that `InvalidName` carries, and for `InvalidFormat` none. Where the format is refused, it is whatever
//! memory there is. `Memory` says nothing more of the text than that.
//!
//! Lookups find meta-fields, too. They borrow from the schema and take no memory.
ghost use Rattle.std.specs.Prelude.{◌≡◌, Some, IfOk, IfErr, OnOk};
ghost use Rattle.apollo_coordinate.specs.CoordinateLookups.{PointsTo, PointsToNothing};
ghost use Rattle.apollo_coordinate.specs.CoordinateText.{IsCoordinateText, coordinate_text};
ghost use Rattle.apollo_coordinate.specs.Readings.{IsReadingOf};
ghost use Rattle.apollo_coordinate.specs.declared.schema_coordinate.SchemaCoordinate.TheVariants as any;

use crate::directive_argument_coordinate::DirectiveArgumentCoordinate;
use crate::directive_coordinate::DirectiveCoordinate;
use crate::field_argument_coordinate::FieldArgumentCoordinate;
use crate::lookup_answers::{SchemaCoordinateLookup, SchemaLookupError};
use crate::parse_error::SchemaCoordinateParseError;
use crate::text_parts::{CoordinateParts, Parts};
use crate::type_attribute_coordinate::TypeAttributeCoordinate;
use crate::type_coordinate::TypeCoordinate;
use apollo_schema::schema::Schema;
use std::alloc::Global;
use std::fmt;

/// Any coordinate. `From` of each form is that coordinate, and takes no memory.
#[derive(Debug, Drop, Clone, PartialEq, Eq, Hash)]
pub enum SchemaCoordinate {
    Ty(TypeCoordinate),
    TypeAttribute(TypeAttributeCoordinate),
    FieldArgument(FieldArgumentCoordinate),
    Directive(DirectiveCoordinate),
    DirectiveArgument(DirectiveArgumentCoordinate),
}

impl From<TypeCoordinate> for SchemaCoordinate {
    ghost from_gives = { λ c coordinate. coordinate ≡ any.Ty c };

    fn from(inner: TypeCoordinate) -> SchemaCoordinate {
        SchemaCoordinate::Ty(inner)
    }
}

impl From<TypeAttributeCoordinate> for SchemaCoordinate {
    ghost from_gives = { λ c coordinate. coordinate ≡ any.TypeAttribute c };

    fn from(inner: TypeAttributeCoordinate) -> SchemaCoordinate {
        SchemaCoordinate::TypeAttribute(inner)
    }
}

impl From<FieldArgumentCoordinate> for SchemaCoordinate {
    ghost from_gives = { λ c coordinate. coordinate ≡ any.FieldArgument c };

    fn from(inner: FieldArgumentCoordinate) -> SchemaCoordinate {
        SchemaCoordinate::FieldArgument(inner)
    }
}

impl From<DirectiveCoordinate> for SchemaCoordinate {
    ghost from_gives = { λ c coordinate. coordinate ≡ any.Directive c };

    fn from(inner: DirectiveCoordinate) -> SchemaCoordinate {
        SchemaCoordinate::Directive(inner)
    }
}

impl From<DirectiveArgumentCoordinate> for SchemaCoordinate {
    ghost from_gives = { λ c coordinate. coordinate ≡ any.DirectiveArgument c };

    fn from(inner: DirectiveArgumentCoordinate) -> SchemaCoordinate {
        SchemaCoordinate::DirectiveArgument(inner)
    }
}

impl SchemaCoordinate {
    /// The coordinate that a text of any form says, whose names have no location.
    ///
    /// A text of no form is refused with [`InvalidName`](SchemaCoordinateParseError::InvalidName) of the
    /// whole text, but for the `@` that it may begin with. [`Memory`](SchemaCoordinateParseError::Memory) is
    /// out of memory, and is answered at once. `InvalidFormat` doesn't come.
    pub fn from_str(
        alloc: Global,
        text: &str,
    ) -> Result<SchemaCoordinate, SchemaCoordinateParseError>
        ensures reading { IsReadingOf text.now result }
        ensures grammar { OnOk result (IsCoordinateText text.now) }
    {
        match Parts::read(text) {
            Ok(parts) => Ok(parts.into_coordinate(alloc)?),
            Err(refusal) => Err(refusal.into_error(alloc)),
        }
    }

    /// What the coordinate points to, as the lookup of its form finds it. The errors are that lookup's.
    pub fn lookup<'coord, 'schema>(
        &'coord self,
        schema: &'schema Schema,
    ) -> Result<SchemaCoordinateLookup<'schema>, SchemaLookupError<'coord, 'schema>>
        ensures found { IfOk result (PointsTo schema.now self.now) }
        ensures missing { IfErr result (PointsToNothing schema.now self.now) }
    {
        match self {
            SchemaCoordinate::Ty(coordinate) => Ok(coordinate.lookup(schema)?.into()),
            SchemaCoordinate::TypeAttribute(coordinate) => Ok(coordinate.lookup(schema)?.into()),
            SchemaCoordinate::FieldArgument(coordinate) => Ok(coordinate.lookup(schema)?.into()),
            SchemaCoordinate::Directive(coordinate) => Ok(coordinate.lookup(schema)?.into()),
            SchemaCoordinate::DirectiveArgument(coordinate) => {
                Ok(coordinate.lookup(schema)?.into())
            }
        }
    }
}

impl fmt::Display for SchemaCoordinate {
    ghost output = { λ c. Some (coordinate_text c) };

    fn fmt<W: fmt::Write>(&self, f: &mut fmt::Formatter<W>) -> fmt::Result {
        match self {
            SchemaCoordinate::Ty(inner) => fmt::Display::fmt(inner, f),
            SchemaCoordinate::TypeAttribute(inner) => fmt::Display::fmt(inner, f),
            SchemaCoordinate::FieldArgument(inner) => fmt::Display::fmt(inner, f),
            SchemaCoordinate::Directive(inner) => fmt::Display::fmt(inner, f),
            SchemaCoordinate::DirectiveArgument(inner) => fmt::Display::fmt(inner, f),
        }
    }
}
