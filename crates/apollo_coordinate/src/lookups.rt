//! What lookups of several forms share: the Schema Coordinates RFC, and the GraphQL specification of October
//! 2021, sections 3.5 to 3.10, 3.13, 4.1 and 4.2.
ghost use Rattle.std.specs.Prelude.{◌≡◌, Some, IfOk, IfErr, OnErr};
ghost use Rattle.std.specs.Option.{option_copied};
ghost use Rattle.apollo_schema.specs.Lookups.{type_at};
ghost use Rattle.apollo_coordinate.specs.CoordinateLookups.{declared_enum_value, declared_input_field};
ghost use Rattle.apollo_coordinate.specs.CoordinateLookups.{declares_attributes, directive_at};
ghost use Rattle.apollo_coordinate.specs.CoordinateLookups.{IsAttribute, HasNoAttribute};
ghost use Rattle.apollo_coordinate.specs.CoordinateLookups.{IsMissingHere, IsMissingType, IsMissingAttribute};
ghost use Rattle.apollo_coordinate.specs.CoordinateLookups.{IsMissingDirective};

use crate::lookup_answers::{SchemaLookupError, TypeAttributeLookup};
use apollo_component::component::Component;
use apollo_schema::schema::Schema;
use apollo_types::extended_type::ExtendedType;
use graphql_ast::type_system::{DirectiveDefinition, EnumValueDefinition, InputValueDefinition};
use graphql_nodes::name::{Name, NamedType};
use graphql_nodes::node::Node;

/// The value of this name that the type declares.
pub(crate) fn declared_enum_value<'a>(
    ty: &'a ExtendedType,
    name: &Name,
) -> Option<&'a Component<EnumValueDefinition>>
    ensures { option_copied result ≡ declared_enum_value ty.now name.now }
{
    match ty {
        ExtendedType::Enum(node) => node.values.get(name),
        _ => None,
    }
}

/// The input field of this name that the type declares.
pub(crate) fn declared_input_field<'a>(
    ty: &'a ExtendedType,
    name: &Name,
) -> Option<&'a Component<InputValueDefinition>>
    ensures { option_copied result ≡ declared_input_field ty.now name.now }
{
    match ty {
        ExtendedType::InputObject(node) => node.fields.get(name),
        _ => None,
    }
}

/// Whether the type is of a kind that declares fields, input fields or values.
fn declares_attributes(ty: &ExtendedType) -> bool
    ensures { result ≡ declares_attributes ty.now }
{
    !matches!(ty, ExtendedType::Scalar(_) | ExtendedType::Union(_))
}

/// Why a type doesn't have the attribute, by whether it is of a kind that declares such.
pub(crate) fn missing<'coord, 'schema>(
    declares: bool,
    ty: &'schema ExtendedType,
    attribute: &'coord Name,
) -> SchemaLookupError<'coord, 'schema>
    ensures { IsMissingHere declares ty.now attribute.now result }
{
    if declares {
        SchemaLookupError::MissingAttribute(attribute)
    } else {
        SchemaLookupError::InvalidType(ty)
    }
}

/// The type of this name.
pub(crate) fn find_type<'coord, 'schema>(
    ty: &'coord NamedType,
    schema: &'schema Schema,
) -> Result<&'schema ExtendedType, SchemaLookupError<'coord, 'schema>>
    ensures found { IfOk result (λ found. type_at schema.now.types ty.now ≡ Some found.now) }
    ensures missing { IfErr result (IsMissingType schema.now.types ty.now) }
{
    match schema.types.get(ty) {
        Some(found) => Ok(found),
        None => Err(SchemaLookupError::MissingType(ty)),
    }
}

/// The attribute of this name in the type of this name: an enum value or an input field, or else a field.
pub(crate) fn find_attribute<'coord, 'schema>(
    ty: &'coord NamedType,
    attribute: &'coord Name,
    schema: &'schema Schema,
) -> Result<TypeAttributeLookup<'schema>, SchemaLookupError<'coord, 'schema>>
    ensures found { IfOk result (IsAttribute schema.now ty.now attribute.now) }
    ensures none { OnErr result (HasNoAttribute schema.now ty.now attribute.now) }
    ensures missing { IfErr result
        (IsMissingAttribute declares_attributes schema.now.types ty.now attribute.now) }
{
    let found = find_type(ty, schema)?;
    if let Some(value) = declared_enum_value(found, attribute) {
        return Ok(TypeAttributeLookup::EnumValue(value));
    }
    if let Some(field) = declared_input_field(found, attribute) {
        return Ok(TypeAttributeLookup::InputField(field));
    }
    match schema.type_field(ty, attribute) {
        Ok(field) => Ok(TypeAttributeLookup::Field(field)),
        Err(_) => Err(missing(declares_attributes(found), found, attribute)),
    }
}

/// The directive of this name.
pub(crate) fn find_directive<'coord, 'schema>(
    directive: &'coord Name,
    schema: &'schema Schema,
) -> Result<&'schema Node<DirectiveDefinition>, SchemaLookupError<'coord, 'schema>>
    ensures found { IfOk result (λ found. directive_at schema.now directive.now ≡ Some found.now) }
    ensures missing { IfErr result (IsMissingDirective schema.now directive.now) }
{
    match schema.directive_definitions.get(directive) {
        Some(found) => Ok(found),
        None => Err(SchemaLookupError::MissingType(directive)),
    }
}
