//! The definitions that every schema has: GraphQL specification of October 2021, sections 3.5 (scalars), 3.13
//! (directives) and 4.2 (schema introspection).
ghost use Rattle.std.specs.Prelude.{◌≡◌, ◌++◌, IfOk, OnOk};
ghost use Rattle.apollo_meaning.specs.BuiltInTable as table;

use crate::built_in_nodes::DefinitionRow::{Enumeration, Object, Scalar};
use crate::built_in_nodes::FieldRow::{Field, Filtered};
use crate::built_in_nodes::TypeRow::{ListOf, Named, NonNull, NonNullListOf};
use crate::built_in_nodes::{DefinitionRow, add_definitions, argument, directive};
use graphql_ast::definition::Definition;
use graphql_ast::value::Value;
use graphql_nodes::collections::items::Items;
use graphql_nodes::collections::text::Text;
use graphql_nodes::directive_location::DirectiveLocation;
use std::alloc::{AllocError, Global};

/// The scalar types.
const SCALARS: [DefinitionRow; 5] = [
    Scalar("Int"),
    Scalar("Float"),
    Scalar("String"),
    Scalar("Boolean"),
    Scalar("ID"),
];

/// The type that GraphQL writes so, but for the quotes of its name, as the table has it.
macro_rules! type_row {
    ([$ty:literal!]!) => { NonNullListOf($ty) };
    ([$ty:literal!]) => { ListOf($ty) };
    ($ty:literal!) => { NonNull($ty) };
    ($ty:literal) => { Named($ty) };
}

/// The fields that GraphQL writes so, as rows of the table, behind those that stand in brackets.
macro_rules! fields_after {
    ([$($row:expr,)*]) => { &[$($row,)*] };
    ([$($row:expr,)*] $field:ident(includeDeprecated: Boolean = false): $ty:tt $($rest:tt)*) => {
        fields_after!([$($row,)* Filtered(stringify!($field), type_row!($ty)),] $($rest)*)
    };
    ([$($row:expr,)*] $field:ident: $ty:tt! $($rest:tt)*) => {
        fields_after!([$($row,)* Field(stringify!($field), type_row!($ty!)),] $($rest)*)
    };
    ([$($row:expr,)*] $field:ident: $ty:tt $($rest:tt)*) => {
        fields_after!([$($row,)* Field(stringify!($field), type_row!($ty)),] $($rest)*)
    };
}

/// The fields of a type, as GraphQL writes them, but for the quotes of names of types.
macro_rules! fields {
    ($($field:tt)*) => { fields_after!([] $($field)*) };
}

/// The types of introspection.
const INTROSPECTION_TYPES: [DefinitionRow; 8] = [
    Object(
        "__Schema",
        fields! {
            description: "String"
            types: ["__Type"!]!
            queryType: "__Type"!
            mutationType: "__Type"
            subscriptionType: "__Type"
            directives: ["__Directive"!]!
        },
    ),
    Object(
        "__Type",
        fields! {
            kind: "__TypeKind"!
            name: "String"
            description: "String"
            fields(includeDeprecated: Boolean = false): ["__Field"!]
            interfaces: ["__Type"!]
            possibleTypes: ["__Type"!]
            enumValues(includeDeprecated: Boolean = false): ["__EnumValue"!]
            inputFields: ["__InputValue"!]
            ofType: "__Type"
            specifiedByURL: "String"
        },
    ),
    Enumeration(
        "__TypeKind",
        &[
            "SCALAR",
            "OBJECT",
            "INTERFACE",
            "UNION",
            "ENUM",
            "INPUT_OBJECT",
            "LIST",
            "NON_NULL",
        ],
    ),
    Object(
        "__Field",
        fields! {
            name: "String"!
            description: "String"
            args: ["__InputValue"!]!
            type: "__Type"!
            isDeprecated: "Boolean"!
            deprecationReason: "String"
        },
    ),
    Object(
        "__InputValue",
        fields! {
            name: "String"!
            description: "String"
            type: "__Type"!
            defaultValue: "String"
        },
    ),
    Object(
        "__EnumValue",
        fields! {
            name: "String"!
            description: "String"
            isDeprecated: "Boolean"!
            deprecationReason: "String"
        },
    ),
    Object(
        "__Directive",
        fields! {
            name: "String"!
            description: "String"
            locations: ["__DirectiveLocation"!]!
            args: ["__InputValue"!]!
            isRepeatable: "Boolean"!
        },
    ),
    Enumeration(
        "__DirectiveLocation",
        &[
            "QUERY",
            "MUTATION",
            "SUBSCRIPTION",
            "FIELD",
            "FRAGMENT_DEFINITION",
            "FRAGMENT_SPREAD",
            "INLINE_FRAGMENT",
            "VARIABLE_DEFINITION",
            "SCHEMA",
            "SCALAR",
            "OBJECT",
            "FIELD_DEFINITION",
            "ARGUMENT_DEFINITION",
            "INTERFACE",
            "UNION",
            "ENUM",
            "ENUM_VALUE",
            "INPUT_OBJECT",
            "INPUT_FIELD_DEFINITION",
        ],
    ),
];

/// A directive of selections that has the argument `if: Boolean!`.
fn condition_directive(alloc: Global, text: &str) -> Result<Definition, AllocError>
    ensures { IfOk result (λ made. made ≡ table.condition_directive text.now) }
{
    let locations = vec![in alloc;
        DirectiveLocation::Field,
        DirectiveLocation::FragmentSpread,
        DirectiveLocation::InlineFragment,
    ]?;
    let argument = argument(alloc, "if", NonNull("Boolean"), None)?;
    directive(alloc, text, argument, locations)
}

fn deprecated_directive(alloc: Global) -> Result<Definition, AllocError>
    ensures { IfOk result (λ made. made ≡ table.deprecated_directive) }
{
    let locations = vec![in alloc;
        DirectiveLocation::FieldDefinition,
        DirectiveLocation::EnumValue,
    ]?;
    let reason = Value::String(Text::from_str(alloc, "No longer supported")?);
    let argument = argument(alloc, "reason", Named("String"), Some(reason))?;
    directive(alloc, "deprecated", argument, locations)
}

fn specified_by_directive(alloc: Global) -> Result<Definition, AllocError>
    ensures { IfOk result (λ made. made ≡ table.specified_by_directive) }
{
    let locations = vec![in alloc; DirectiveLocation::Scalar]?;
    let argument = argument(alloc, "url", NonNull("String"), None)?;
    directive(alloc, "specifiedBy", argument, locations)
}

/// Adds the directives at the end.
fn add_directives(alloc: Global, definitions: &mut Items<Definition>) -> Result<(), AllocError>
    ensures { OnOk result (definitions.new ≡ definitions.old ++ table.built_in_directives) }
{
    definitions.push(condition_directive(alloc, "skip")?)?;
    definitions.push(condition_directive(alloc, "include")?)?;
    definitions.push(deprecated_directive(alloc)?)?;
    definitions.push(specified_by_directive(alloc)?)?;
    Ok(())
}

/// The definitions that every schema has, in this order: the scalars `Int`, `Float`, `String`, `Boolean` and
/// `ID` (section 3.5). Then the directives `@skip`, `@include`, `@deprecated` and `@specifiedBy` (section
/// 3.13), and the types of introspection (section 4.2).
///
/// Each node and name is in file number 0, [`FileId::BUILT_IN`](graphql_nodes::source::FileId::BUILT_IN).
/// None has a description. The error is out of memory.
#[tactic(auto, unfolding(crate::specs::BuiltInTable::built_in_definitions))]
pub fn built_in_definitions(alloc: Global) -> Result<Items<Definition>, AllocError>
    ensures { IfOk result (λ definitions. definitions ≡ table.built_in_definitions) }
{
    let mut definitions = Items::new(alloc);
    add_definitions(alloc, &mut definitions, &SCALARS)?;
    add_directives(alloc, &mut definitions)?;
    add_definitions(alloc, &mut definitions, &INTROSPECTION_TYPES)?;
    Ok(definitions)
}
