//! Coordinates of fields, input fields and enum values: the Schema Coordinates RFC of GraphQL.
ghost use Rattle.std.specs.Prelude.{◌≡◌, Some, None, Err, IfOk, IfErr, OnErr};
ghost use Rattle.apollo_types.specs.TypeKinds.{is_enum, is_input_object};
ghost use Rattle.apollo_schema.specs.Lookups.{field_at};
ghost use Rattle.apollo_coordinate.specs.CoordinateLookups.{enum_value_at, input_field_at};
ghost use Rattle.apollo_coordinate.specs.CoordinateLookups.{declares_fields, declares_attributes};
ghost use Rattle.apollo_coordinate.specs.CoordinateLookups.{IsAttribute, HasNoAttribute, IsMissingAttribute};
ghost use Rattle.apollo_coordinate.specs.CoordinateText.{SaysCoordinate, attribute_coordinate_text};
ghost use Rattle.apollo_coordinate.specs.Refusals.{WhenRefused, IsNoAttribute};
ghost use Rattle.apollo_coordinate.specs.declared.schema_coordinate.SchemaCoordinate.TheVariants as any;

use crate::field_argument_coordinate::FieldArgumentCoordinate;
use crate::lookup_answers::{SchemaLookupError, TypeAttributeLookup};
use crate::lookups::{
    declared_enum_value, declared_input_field, find_attribute, find_type, missing,
};
use crate::parse_error::SchemaCoordinateParseError;
use crate::text_parts::{AttributeParts, answered};
use crate::type_coordinate::TypeCoordinate;
use apollo_component::component::Component;
use apollo_schema::field_lookup_error::FieldLookupError;
use apollo_schema::schema::Schema;
use apollo_types::extended_type::ExtendedType;
use graphql_ast::type_system::{EnumValueDefinition, FieldDefinition, InputValueDefinition};
use graphql_nodes::name::{Name, NamedType};
use graphql_nodes::take_apart;
use std::alloc::{AllocError, Global};
use std::fmt;

/// The coordinate of a field, an input field or an enum value: `Type.attribute`.
#[derive(Debug, Clone, PartialEq, Eq, Hash)]
pub struct TypeAttributeCoordinate {
    pub ty: NamedType,
    pub attribute: Name,
}

impl Drop for TypeAttributeCoordinate {
    fn drop(self) {
        take_apart!(self: ty, attribute);
    }
}

/// Whether the type is of a kind that declares fields.
fn declares_fields(ty: &ExtendedType) -> bool
    ensures { result ≡ declares_fields ty.now }
{
    matches!(ty, ExtendedType::Object(_) | ExtendedType::Interface(_))
}

impl TypeAttributeCoordinate {
    /// The coordinate of the type that the attribute belongs to. The error is out of memory.
    pub fn type_coordinate(&self) -> Result<TypeCoordinate, AllocError>
        ensures { IfOk result (λ c. c ≡ record { ty = self.now.ty }) }
    {
        Ok(TypeCoordinate {
            ty: self.ty.clone()?,
        })
    }

    /// The coordinate of this argument of the attribute, which is taken for a field.
    pub fn with_argument(self, argument: Name) -> FieldArgumentCoordinate
        ensures { result ≡ record { ty = self.ty; field = self.attribute; argument = argument } }
    {
        let Self { ty, attribute } = self;
        FieldArgumentCoordinate {
            ty,
            field: attribute,
            argument,
        }
    }

    /// The coordinate that a text `Type.attribute` says, whose names have no location.
    ///
    /// A text without a `.` is refused with [`InvalidFormat`](SchemaCoordinateParseError::InvalidFormat). Of
    /// what stands before and after the first `.` the first that is no name is refused with
    /// [`InvalidName`](SchemaCoordinateParseError::InvalidName) of it.
    /// [`Memory`](SchemaCoordinateParseError::Memory) is out of memory.
    pub fn from_str(
        alloc: Global,
        text: &str,
    ) -> Result<TypeAttributeCoordinate, SchemaCoordinateParseError>
        ensures says { IfOk result (λ c. SaysCoordinate text.now (any.TypeAttribute c)) }
        ensures refused { IfErr result (WhenRefused (IsNoAttribute text.now)) }
        ensures format { IsNoAttribute text.now SchemaCoordinateParseError.InvalidFormat
            → result ≡ Err SchemaCoordinateParseError.InvalidFormat }
    {
        answered(alloc, AttributeParts::read(text))
    }

    /// The attribute that the coordinate points to. It is an enum value or an input field of the name, or
    /// else the field that [`Schema::type_field`] finds, which may be a meta-field.
    ///
    /// [`MissingType`](SchemaLookupError::MissingType) is a name without a type. Where the type has no such
    /// attribute, the error is [`InvalidType`](SchemaLookupError::InvalidType) for a scalar or a union, and
    /// [`MissingAttribute`](SchemaLookupError::MissingAttribute) for any other.
    pub fn lookup<'coord, 'schema>(
        &'coord self,
        schema: &'schema Schema,
    ) -> Result<TypeAttributeLookup<'schema>, SchemaLookupError<'coord, 'schema>>
        ensures found { IfOk result (IsAttribute schema.now self.now.ty self.now.attribute) }
        ensures none { OnErr result (HasNoAttribute schema.now self.now.ty self.now.attribute) }
        ensures missing { IfErr result
            (IsMissingAttribute declares_attributes schema.now.types self.now.ty self.now.attribute) }
    {
        find_attribute(&self.ty, &self.attribute, schema)
    }

    /// The field that the coordinate points to, as [`Schema::type_field`] finds it: it may be a meta-field.
    ///
    /// [`MissingType`](SchemaLookupError::MissingType) is a name without a type. Where the type has no such
    /// field, the error is [`MissingAttribute`](SchemaLookupError::MissingAttribute) for an object or
    /// interface, and [`InvalidType`](SchemaLookupError::InvalidType) for any other.
    pub fn lookup_field<'coord, 'schema>(
        &'coord self,
        schema: &'schema Schema,
    ) -> Result<&'schema Component<FieldDefinition>, SchemaLookupError<'coord, 'schema>>
        ensures found { IfOk result (λ field. field_at schema.now self.now.ty self.now.attribute
            ≡ Some field.now) }
        ensures none { OnErr result (field_at schema.now self.now.ty self.now.attribute ≡ None) }
        ensures missing { IfErr result
            (IsMissingAttribute declares_fields schema.now.types self.now.ty self.now.attribute) }
    {
        match schema.type_field(&self.ty, &self.attribute) {
            Ok(field) => Ok(field),
            Err(FieldLookupError::NoSuchType) => Err(SchemaLookupError::MissingType(&self.ty)),
            Err(FieldLookupError::NoSuchField(_, ty)) => {
                Err(missing(declares_fields(ty), ty, &self.attribute))
            }
        }
    }

    /// The input field that the coordinate points to.
    ///
    /// [`MissingType`](SchemaLookupError::MissingType) is a name without a type. Where the type has no such
    /// input field, the error is [`MissingAttribute`](SchemaLookupError::MissingAttribute) for an input
    /// object, and [`InvalidType`](SchemaLookupError::InvalidType) for any other.
    pub fn lookup_input_field<'coord, 'schema>(
        &'coord self,
        schema: &'schema Schema,
    ) -> Result<&'schema Component<InputValueDefinition>, SchemaLookupError<'coord, 'schema>>
        ensures found { IfOk result (λ field. input_field_at schema.now.types self.now.ty self.now.attribute
            ≡ Some field.now) }
        ensures none { OnErr result (input_field_at schema.now.types self.now.ty self.now.attribute ≡ None) }
        ensures missing { IfErr result
            (IsMissingAttribute is_input_object schema.now.types self.now.ty self.now.attribute) }
    {
        let ty = find_type(&self.ty, schema)?;
        match declared_input_field(ty, &self.attribute) {
            Some(field) => Ok(field),
            None => Err(missing(ty.is_input_object(), ty, &self.attribute)),
        }
    }

    /// The enum value that the coordinate points to.
    ///
    /// [`MissingType`](SchemaLookupError::MissingType) is a name without a type. Where the type has no such
    /// value, the error is [`MissingAttribute`](SchemaLookupError::MissingAttribute) for an enum, and
    /// [`InvalidType`](SchemaLookupError::InvalidType) for any other.
    pub fn lookup_enum_value<'coord, 'schema>(
        &'coord self,
        schema: &'schema Schema,
    ) -> Result<&'schema Component<EnumValueDefinition>, SchemaLookupError<'coord, 'schema>>
        ensures found { IfOk result (λ value. enum_value_at schema.now.types self.now.ty self.now.attribute
            ≡ Some value.now) }
        ensures none { OnErr result (enum_value_at schema.now.types self.now.ty self.now.attribute ≡ None) }
        ensures missing { IfErr result
            (IsMissingAttribute is_enum schema.now.types self.now.ty self.now.attribute) }
    {
        let ty = find_type(&self.ty, schema)?;
        match declared_enum_value(ty, &self.attribute) {
            Some(value) => Ok(value),
            None => Err(missing(ty.is_enum(), ty, &self.attribute)),
        }
    }
}

impl fmt::Display for TypeAttributeCoordinate {
    ghost output = { λ c. Some (attribute_coordinate_text c) };

    fn fmt<W: fmt::Write>(&self, f: &mut fmt::Formatter<W>) -> fmt::Result {
        let Self { ty, attribute } = self;
        write!(f, "{ty}.{attribute}")
    }
}
