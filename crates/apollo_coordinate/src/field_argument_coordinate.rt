//! Coordinates of arguments of fields: the Schema Coordinates RFC of GraphQL.
ghost use Rattle.std.specs.Prelude.{◌≡◌, Some, Err, IfOk, IfErr};
ghost use Rattle.apollo_coordinate.specs.CoordinateLookups.{IsFieldName, field_argument_at};
ghost use Rattle.apollo_coordinate.specs.CoordinateLookups.{IsMissingFieldArgument};
ghost use Rattle.apollo_coordinate.specs.CoordinateText.{SaysCoordinate, field_argument_coordinate_text};
ghost use Rattle.apollo_coordinate.specs.Refusals.{WhenRefused, IsNoFieldArgument};
ghost use Rattle.apollo_coordinate.specs.declared.schema_coordinate.SchemaCoordinate.TheVariants as any;

use crate::lookup_answers::{SchemaLookupError, TypeAttributeLookup};
use crate::lookups::find_attribute;
use crate::parse_error::SchemaCoordinateParseError;
use crate::text_parts::{FieldArgumentParts, answered};
use crate::type_attribute_coordinate::TypeAttributeCoordinate;
use crate::type_coordinate::TypeCoordinate;
use apollo_schema::schema::Schema;
use graphql_ast::type_system::InputValueDefinition;
use graphql_nodes::name::{Name, NamedType};
use graphql_nodes::node::Node;
use graphql_nodes::take_apart;
use std::alloc::{AllocError, Global};
use std::fmt;

/// The coordinate of an argument of a field: `Type.field(argument:)`.
#[derive(Debug, Clone, PartialEq, Eq, Hash)]
pub struct FieldArgumentCoordinate {
    pub ty: NamedType,
    pub field: Name,
    pub argument: Name,
}

impl Drop for FieldArgumentCoordinate {
    fn drop(self) {
        take_apart!(self: ty, field, argument);
    }
}

impl FieldArgumentCoordinate {
    /// The coordinate of the type that the field belongs to. The error is out of memory.
    pub fn type_coordinate(&self) -> Result<TypeCoordinate, AllocError>
        ensures { IfOk result (λ c. c ≡ record { ty = self.now.ty }) }
    {
        Ok(TypeCoordinate {
            ty: self.ty.clone()?,
        })
    }

    /// The coordinate of the field that the argument belongs to. The error is out of memory.
    pub fn field_coordinate(&self) -> Result<TypeAttributeCoordinate, AllocError>
        ensures { IfOk result (λ c. c ≡ record { ty = self.now.ty; attribute = self.now.field }) }
    {
        Ok(TypeAttributeCoordinate {
            ty: self.ty.clone()?,
            attribute: self.field.clone()?,
        })
    }

    /// The coordinate that a text `Type.field(argument:)` says, whose names have no location.
    ///
    /// A text without a `(` is refused with [`InvalidFormat`](SchemaCoordinateParseError::InvalidFormat).
    /// What stands before the first one is read as a [`TypeAttributeCoordinate`], with its refusals. Then
    /// what stands after it is read: no `:`, or anything but `)` alone after the first one, is
    /// `InvalidFormat`. An argument that is no name is
    /// [`InvalidName`](SchemaCoordinateParseError::InvalidName) of it.
    /// [`Memory`](SchemaCoordinateParseError::Memory) is out of memory.
    pub fn from_str(
        alloc: Global,
        text: &str,
    ) -> Result<FieldArgumentCoordinate, SchemaCoordinateParseError>
        ensures says { IfOk result (λ c. SaysCoordinate text.now (any.FieldArgument c)) }
        ensures refused { IfErr result (WhenRefused (IsNoFieldArgument text.now)) }
        ensures format { IsNoFieldArgument text.now SchemaCoordinateParseError.InvalidFormat
            → result ≡ Err SchemaCoordinateParseError.InvalidFormat }
    {
        answered(alloc, FieldArgumentParts::read(text))
    }

    /// The argument that the coordinate points to: the first of its name of the field, which may be a
    /// meta-field.
    ///
    /// Where the type has no attribute of the field's name, the error is that of
    /// [`TypeAttributeCoordinate::lookup`]. An enum value or input field is
    /// [`InvalidArgumentAttribute`](SchemaLookupError::InvalidArgumentAttribute), and a field without such an
    /// argument [`MissingArgument`](SchemaLookupError::MissingArgument).
    pub fn lookup<'coord, 'schema>(
        &'coord self,
        schema: &'schema Schema,
    ) -> Result<&'schema Node<InputValueDefinition>, SchemaLookupError<'coord, 'schema>>
        ensures field { IfOk result (λ _. IsFieldName schema.now self.now.ty self.now.field) }
        ensures found { IfOk result
            (λ argument. field_argument_at schema.now self.now.ty self.now.field self.now.argument
            ≡ Some (Some argument.now)) }
        ensures missing { IfErr result
            (IsMissingFieldArgument schema.now self.now.ty self.now.field self.now.argument) }
    {
        match find_attribute(&self.ty, &self.field, schema)? {
            TypeAttributeLookup::Field(field) => match field.argument_by_name(&self.argument) {
                Some(argument) => Ok(argument),
                None => Err(SchemaLookupError::MissingArgument(&self.argument)),
            },
            TypeAttributeLookup::InputField(_) | TypeAttributeLookup::EnumValue(_) => {
                Err(SchemaLookupError::InvalidArgumentAttribute(&self.field))
            }
        }
    }
}

impl fmt::Display for FieldArgumentCoordinate {
    ghost output = { λ c. Some (field_argument_coordinate_text c) };

    fn fmt<W: fmt::Write>(&self, f: &mut fmt::Formatter<W>) -> fmt::Result {
        let Self {
            ty,
            field,
            argument,
        } = self;
        write!(f, "{ty}.{field}({argument}:)")
    }
}
