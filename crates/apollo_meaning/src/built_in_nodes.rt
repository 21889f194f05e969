//! Nodes in the file of built-in definitions, with no description and no directive. Each error is out of
//! memory.
ghost use Rattle.std.specs.Prelude.{◌≡◌, ◌∷◌, [], ◌++◌, map, option_map, IfOk, OnOk};
ghost use Rattle.apollo_meaning.specs.BuiltInNodes as nodes;
ghost use Rattle.apollo_meaning.specs.BuiltInRows.{row_type, row_field, row_definition};
ghost use Rattle.apollo_meaning.specs.BuiltInTable.{include_deprecated};

use graphql_ast::definition::Definition;
use graphql_ast::directive::DirectiveList;
use graphql_ast::type_reference::Type;
use graphql_ast::type_system::{
    DirectiveDefinition, EnumTypeDefinition, EnumValueDefinition, FieldDefinition,
    InputValueDefinition, ObjectTypeDefinition, ScalarTypeDefinition,
};
use graphql_ast::value::Value;
use graphql_nodes::collections::boxed::Boxed;
use graphql_nodes::collections::items::Items;
use graphql_nodes::directive_location::DirectiveLocation;
use graphql_nodes::name::Name;
use graphql_nodes::node::Node;
use graphql_nodes::source::{FileId, SourceSpan};
use std::alloc::{AllocError, Global};

const PLACE: SourceSpan = SourceSpan {
    file: FileId::BUILT_IN,
    start: 0,
    end: 0,
};

/// A type as rows of the table write it: `T`, `T!`, `[T!]` or `[T!]!`.
#[derive(Clone, Copy)]
pub enum TypeRow {
    Named(&'static str),
    NonNull(&'static str),
    ListOf(&'static str),
    NonNullListOf(&'static str),
}

/// A field as a row of the table: one without arguments, or one with `includeDeprecated: Boolean = false`.
#[derive(Clone, Copy)]
pub enum FieldRow {
    Field(&'static str, TypeRow),
    Filtered(&'static str, TypeRow),
}

/// The definition of a type as a row of the table: its name, and its fields or values.
#[derive(Clone, Copy)]
pub enum DefinitionRow {
    Scalar(&'static str),
    Object(&'static str, &'static [FieldRow]),
    Enumeration(&'static str, &'static [&'static str]),
}

/// A node in the file of built-in definitions.
fn node<T: Drop>(alloc: Global, value: T) -> Result<Node<T>, AllocError>
    ensures { IfOk result (λ made. made ≡ nodes.node value) }
{
    Node::new_opt_location(alloc, value, Some(PLACE))
}

/// A name in the file of built-in definitions.
fn name(alloc: Global, text: &str) -> Result<Name, AllocError>
    ensures { IfOk result (λ made. made ≡ nodes.name text.now) }
{
    let name = Name::new_unchecked(alloc, text)?;
    Ok(name.with_location(PLACE))
}

/// A node in the file of built-in definitions: a definition of this name, with these fields.
macro_rules! named_node {
    ($alloc:ident, $definition:ident, $text:expr $(, $field:ident $(: $value:expr)?)*) => {
        node(
            $alloc,
            $definition {
                description: None,
                name: name($alloc, $text)?,
                directives: DirectiveList::new($alloc),
                $($field $(: $value)?,)*
            },
        )
    };
}

/// The type that a row writes.
fn type_reference(alloc: Global, row: TypeRow) -> Result<Type, AllocError>
    ensures { IfOk result (λ made. made ≡ row_type row) }
{
    match row {
        TypeRow::Named(text) => Ok(Type::Named(name(alloc, text)?)),
        TypeRow::NonNull(text) => Ok(Type::NonNullNamed(name(alloc, text)?)),
        TypeRow::ListOf(text) => {
            let inner = Type::NonNullNamed(name(alloc, text)?);
            Ok(Type::List(Boxed::new(alloc, inner)?))
        }
        TypeRow::NonNullListOf(text) => {
            let inner = Type::NonNullNamed(name(alloc, text)?);
            Ok(Type::NonNullList(Boxed::new(alloc, inner)?))
        }
    }
}

/// A default value as a node, if there is one.
fn default_node(alloc: Global, value: Option<Value>) -> Result<Option<Node<Value>>, AllocError>
    ensures { IfOk result (λ made. made ≡ option_map nodes.node value) }
{
    match value {
        Some(value) => Ok(Some(node(alloc, value)?)),
        None => Ok(None),
    }
}

/// An argument with its default value, if it has one.
pub fn argument(
    alloc: Global,
    text: &str,
    ty: TypeRow,
    default_value: Option<Value>,
) -> Result<Node<InputValueDefinition>, AllocError>
    ensures { IfOk result (λ made. made ≡ nodes.argument text.now (row_type ty) default_value) }
{
    let default_value = default_node(alloc, default_value)?;
    let ty = node(alloc, type_reference(alloc, ty)?)?;
    named_node!(alloc, InputValueDefinition, text, ty, default_value)
}

/// A list of one argument.
fn only(
    alloc: Global,
    argument: Node<InputValueDefinition>,
) -> Result<Items<Node<InputValueDefinition>>, AllocError>
    ensures { IfOk result (λ made. made ≡ argument ∷ []) }
{
    let mut arguments = Items::new(alloc);
    arguments.push(argument)?;
    Ok(arguments)
}

/// The argument `includeDeprecated: Boolean = false`.
fn include_deprecated(alloc: Global) -> Result<Node<InputValueDefinition>, AllocError>
    ensures { IfOk result (λ made. made ≡ include_deprecated) }
{
    argument(
        alloc,
        "includeDeprecated",
        TypeRow::Named("Boolean"),
        Some(Value::Boolean(false)),
    )
}

/// The field that a row writes.
fn field(alloc: Global, row: FieldRow) -> Result<Node<FieldDefinition>, AllocError>
    ensures { IfOk result (λ made. made ≡ row_field row) }
{
    match row {
        FieldRow::Field(text, ty) => {
            let ty = type_reference(alloc, ty)?;
            named_node!(alloc, FieldDefinition, text, arguments: Items::new(alloc), ty)
        }
        FieldRow::Filtered(text, ty) => {
            let ty = type_reference(alloc, ty)?;
            let arguments = only(alloc, include_deprecated(alloc)?)?;
            named_node!(alloc, FieldDefinition, text, arguments, ty)
        }
    }
}

/// The fields that rows write, in order.
fn fields(alloc: Global, rows: &[FieldRow]) -> Result<Items<Node<FieldDefinition>>, AllocError>
    ensures { IfOk result (λ made. made ≡ map row_field rows.now) }
{
    let mut fields = Items::new(alloc);
    for row in rows {
        fields.push(field(alloc, *row)?)?;
    }
    Ok(fields)
}

/// An object type with the fields of these rows.
fn object(alloc: Global, text: &str, rows: &[FieldRow]) -> Result<Definition, AllocError>
    ensures { IfOk result (λ made. made ≡ nodes.object text.now (map row_field rows.now)) }
{
    let fields = fields(alloc, rows)?;
    let implements_interfaces = Items::new(alloc);
    let object = named_node!(
        alloc,
        ObjectTypeDefinition,
        text,
        implements_interfaces,
        fields
    )?;
    Ok(Definition::ObjectTypeDefinition(object))
}

/// A value of an enum type.
fn enum_value(alloc: Global, text: &str) -> Result<Node<EnumValueDefinition>, AllocError>
    ensures { IfOk result (λ made. made ≡ nodes.enum_value text.now) }
{
    let definition = EnumValueDefinition {
        description: None,
        value: name(alloc, text)?,
        directives: DirectiveList::new(alloc),
    };
    node(alloc, definition)
}

/// Values of an enum type, in order.
fn enum_values(
    alloc: Global,
    texts: &[&str],
) -> Result<Items<Node<EnumValueDefinition>>, AllocError>
    ensures { IfOk result (λ made. made ≡ map (λ text. nodes.enum_value text.now) texts.now) }
{
    let mut values = Items::new(alloc);
    for text in texts {
        values.push(enum_value(alloc, text)?)?;
    }
    Ok(values)
}

/// An enum type with these values.
fn enumeration(alloc: Global, text: &str, values: &[&str]) -> Result<Definition, AllocError>
    ensures { IfOk result (λ made. made
        ≡ nodes.enumeration text.now (map (λ value. nodes.enum_value value.now) values.now)) }
{
    let values = enum_values(alloc, values)?;
    let enumeration = named_node!(alloc, EnumTypeDefinition, text, values)?;
    Ok(Definition::EnumTypeDefinition(enumeration))
}

/// A scalar type.
fn scalar(alloc: Global, text: &str) -> Result<Definition, AllocError>
    ensures { IfOk result (λ made. made ≡ nodes.scalar text.now) }
{
    let scalar = named_node!(alloc, ScalarTypeDefinition, text)?;
    Ok(Definition::ScalarTypeDefinition(scalar))
}

/// The definition that a row writes.
fn definition(alloc: Global, row: DefinitionRow) -> Result<Definition, AllocError>
    ensures { IfOk result (λ made. made ≡ row_definition row) }
{
    match row {
        DefinitionRow::Scalar(text) => scalar(alloc, text),
        DefinitionRow::Object(text, rows) => object(alloc, text, rows),
        DefinitionRow::Enumeration(text, values) => enumeration(alloc, text, values),
    }
}

/// Adds the definitions that rows write at the end, in order.
pub fn add_definitions(
    alloc: Global,
    definitions: &mut Items<Definition>,
    rows: &[DefinitionRow],
) -> Result<(), AllocError>
    ensures { OnOk result (definitions.new ≡ definitions.old ++ map row_definition rows.now) }
{
    for row in rows {
        definitions.push(definition(alloc, *row)?)?;
    }
    Ok(())
}

/// A directive with one argument, at these locations.
pub fn directive(
    alloc: Global,
    text: &str,
    argument: Node<InputValueDefinition>,
    locations: Vec<DirectiveLocation>,
) -> Result<Definition, AllocError>
    ensures { IfOk result (λ made. made ≡ nodes.directive text.now argument locations.items) }
{
    let arguments = only(alloc, argument)?;
    let definition = DirectiveDefinition {
        description: None,
        name: name(alloc, text)?,
        arguments,
        repeatable: false,
        locations: Items::from_vec(locations),
    };
    Ok(Definition::DirectiveDefinition(node(alloc, definition)?))
}
