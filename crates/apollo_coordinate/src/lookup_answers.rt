//! What lookups of coordinates in schemas answer: the Schema Coordinates RFC of GraphQL.
ghost use Rattle.std.specs.Prelude.{◌≡◌};
ghost use Rattle.apollo_coordinate.specs.CoordinateLookups.{of_attribute};
ghost use Rattle.apollo_coordinate.specs.declared.lookup_answers.SchemaCoordinateLookup.TheVariants as answers;

use apollo_component::component::Component;
use apollo_types::extended_type::ExtendedType;
use graphql_ast::type_system::{
    DirectiveDefinition, EnumValueDefinition, FieldDefinition, InputValueDefinition,
};
use graphql_nodes::name::{Name, NamedType};
use graphql_nodes::node::Node;
use thiserror::Error;

/// What an attribute of a type is, lent by the schema.
///
/// Answers are equal where they are of one sort and what is found is equal: locations and origins are left
/// out.
#[derive(Debug, Clone, Copy, PartialEq, Eq)]
pub enum TypeAttributeLookup<'schema> {
    /// A field of an object or interface type, or a meta-field.
    Field(&'schema Component<FieldDefinition>),
    /// A field of an input object type.
    InputField(&'schema Component<InputValueDefinition>),
    /// A value of an enum type.
    EnumValue(&'schema Component<EnumValueDefinition>),
}

/// What a coordinate of any form points to, lent by the schema. `From` of what is found is the answer of its
/// sort.
///
/// Answers are equal where they are of one sort and what is found is equal: locations and origins are left
/// out.
#[derive(Debug, Clone, Copy, PartialEq, Eq)]
pub enum SchemaCoordinateLookup<'schema> {
    Ty(&'schema ExtendedType),
    Directive(&'schema Node<DirectiveDefinition>),
    Field(&'schema Component<FieldDefinition>),
    InputField(&'schema Component<InputValueDefinition>),
    EnumValue(&'schema Component<EnumValueDefinition>),
    /// An argument of a field or of a directive.
    Argument(&'schema Node<InputValueDefinition>),
}

/// Why a coordinate points to nothing in a schema. The names are lent by the coordinate, the type by the
/// schema.
#[derive(Debug, Clone, Copy, Error)]
pub enum SchemaLookupError<'coord, 'schema> {
    /// The schema has no type, or no directive, of this name.
    #[error("type `{0}` does not exist")]
    MissingType(&'coord NamedType),
    /// The type has no attribute of this name, and is of a kind that declares such.
    #[error("type does not have attribute `{0}`")]
    MissingAttribute(&'coord Name),
    /// The attribute of this name, which is to have an argument, is an input field or an enum value.
    #[error("type attribute `{0}` is not a field and can not have arguments")]
    InvalidArgumentAttribute(&'coord Name),
    /// The field or directive has no argument of this name.
    #[error("field or directive does not have argument `{0}`")]
    MissingArgument(&'coord Name),
    /// This type has no such attribute, and is of a kind without attributes, or without those that are looked
    /// for.
    #[error("type does not have attributes")]
    InvalidType(&'schema ExtendedType),
}

impl<'schema> From<&'schema ExtendedType> for SchemaCoordinateLookup<'schema> {
    ghost from_gives = { λ found answer. answer ≡ answers.Ty found };

    fn from(inner: &'schema ExtendedType) -> SchemaCoordinateLookup<'schema> {
        SchemaCoordinateLookup::Ty(inner)
    }
}

impl<'schema> From<&'schema Node<DirectiveDefinition>> for SchemaCoordinateLookup<'schema> {
    ghost from_gives = { λ found answer. answer ≡ answers.Directive found };

    fn from(inner: &'schema Node<DirectiveDefinition>) -> SchemaCoordinateLookup<'schema> {
        SchemaCoordinateLookup::Directive(inner)
    }
}

impl<'schema> From<&'schema Component<FieldDefinition>> for SchemaCoordinateLookup<'schema> {
    ghost from_gives = { λ found answer. answer ≡ answers.Field found };

    fn from(inner: &'schema Component<FieldDefinition>) -> SchemaCoordinateLookup<'schema> {
        SchemaCoordinateLookup::Field(inner)
    }
}

impl<'schema> From<&'schema Component<InputValueDefinition>> for SchemaCoordinateLookup<'schema> {
    ghost from_gives = { λ found answer. answer ≡ answers.InputField found };

    fn from(inner: &'schema Component<InputValueDefinition>) -> SchemaCoordinateLookup<'schema> {
        SchemaCoordinateLookup::InputField(inner)
    }
}

impl<'schema> From<&'schema Component<EnumValueDefinition>> for SchemaCoordinateLookup<'schema> {
    ghost from_gives = { λ found answer. answer ≡ answers.EnumValue found };

    fn from(inner: &'schema Component<EnumValueDefinition>) -> SchemaCoordinateLookup<'schema> {
        SchemaCoordinateLookup::EnumValue(inner)
    }
}

impl<'schema> From<&'schema Node<InputValueDefinition>> for SchemaCoordinateLookup<'schema> {
    ghost from_gives = { λ found answer. answer ≡ answers.Argument found };

    fn from(inner: &'schema Node<InputValueDefinition>) -> SchemaCoordinateLookup<'schema> {
        SchemaCoordinateLookup::Argument(inner)
    }
}

impl<'schema> From<TypeAttributeLookup<'schema>> for SchemaCoordinateLookup<'schema> {
    ghost from_gives = { λ found answer. answer ≡ of_attribute found };

    fn from(attribute: TypeAttributeLookup<'schema>) -> SchemaCoordinateLookup<'schema> {
        match attribute {
            TypeAttributeLookup::Field(field) => SchemaCoordinateLookup::Field(field),
            TypeAttributeLookup::InputField(field) => SchemaCoordinateLookup::InputField(field),
            TypeAttributeLookup::EnumValue(value) => SchemaCoordinateLookup::EnumValue(value),
        }
    }
}
