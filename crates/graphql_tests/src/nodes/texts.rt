//! The texts of the small enums.

use crate::nodes::tables::expect_at;
use graphql_nodes::directive_location::DirectiveLocation;
use graphql_nodes::operation_type::OperationType;
use graphql_nodes::type_kind::TypeKind;
use likeness::is_printed;
use std::alloc::Global;

/// What messages call each kind of a type.
const KINDS: &[(&str, TypeKind)] = &[
    ("a scalar type", TypeKind::Scalar),
    ("an object type", TypeKind::Object),
    ("an interface type", TypeKind::Interface),
    ("a union type", TypeKind::Union),
    ("an enum type", TypeKind::Enum),
    ("an input object type", TypeKind::InputObject),
];

#[test]
fn kinds(rt: HostRuntime) {
    for (text, kind) in KINDS {
        expect_at(&rt, text, kind.describe() == *text);
    }
}

/// Whether the operation has this keyword, and this default name of its root, without a location.
fn is_operation(alloc: Global, operation: OperationType, keyword: &str, root: &str) -> bool {
    match operation.default_type_name(alloc) {
        Ok(name) => {
            (name.as_str(), name.location()) == (root, None)
                && operation.name() == keyword
                && is_printed(alloc, &operation, keyword)
        }
        Err(_) => false,
    }
}

/// Each operation, with its keyword and the default name of its root.
const OPERATIONS: &[(OperationType, &str, &str)] = &[
    (OperationType::Query, "query", "Query"),
    (OperationType::Mutation, "mutation", "Mutation"),
    (OperationType::Subscription, "subscription", "Subscription"),
];

#[test]
fn operations(rt: HostRuntime) {
    let alloc = rt.alloc();
    for (operation, keyword, root) in OPERATIONS {
        expect_at(&rt, keyword, is_operation(alloc, *operation, keyword, root));
    }
}

/// Each location of a directive, with its name.
const LOCATIONS: &[(DirectiveLocation, &str)] = &[
    (DirectiveLocation::Query, "QUERY"),
    (DirectiveLocation::Mutation, "MUTATION"),
    (DirectiveLocation::Subscription, "SUBSCRIPTION"),
    (DirectiveLocation::Field, "FIELD"),
    (DirectiveLocation::FragmentDefinition, "FRAGMENT_DEFINITION"),
    (DirectiveLocation::FragmentSpread, "FRAGMENT_SPREAD"),
    (DirectiveLocation::InlineFragment, "INLINE_FRAGMENT"),
    (DirectiveLocation::VariableDefinition, "VARIABLE_DEFINITION"),
    (DirectiveLocation::Schema, "SCHEMA"),
    (DirectiveLocation::Scalar, "SCALAR"),
    (DirectiveLocation::Object, "OBJECT"),
    (DirectiveLocation::FieldDefinition, "FIELD_DEFINITION"),
    (DirectiveLocation::ArgumentDefinition, "ARGUMENT_DEFINITION"),
    (DirectiveLocation::Interface, "INTERFACE"),
    (DirectiveLocation::Union, "UNION"),
    (DirectiveLocation::Enum, "ENUM"),
    (DirectiveLocation::EnumValue, "ENUM_VALUE"),
    (DirectiveLocation::InputObject, "INPUT_OBJECT"),
    (
        DirectiveLocation::InputFieldDefinition,
        "INPUT_FIELD_DEFINITION",
    ),
];

/// Whether the location of a directive has this name, and is found by it.
fn is_location(alloc: Global, location: DirectiveLocation, text: &str) -> bool {
    location.name() == text
        && is_printed(alloc, &location, text)
        && DirectiveLocation::from_name(text) == Some(location)
}

#[test]
fn directive_locations_are_found_by_their_names_alone(rt: HostRuntime) {
    let alloc = rt.alloc();
    for (location, text) in LOCATIONS {
        expect_at(&rt, text, is_location(alloc, *location, text));
    }
    for text in &["", "NOWHERE", "query", "QUERY ", "FIELD_", "ENUM_VALUES"] {
        expect_at(&rt, text, DirectiveLocation::from_name(text).is_none());
    }
}
