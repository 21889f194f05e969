//! Definitions of all kinds: their texts, what they are, and copies.

use crate::nodes::samples::PLACE;
use graphql_ast::{
    Definition, DirectiveDefinition, EnumTypeDefinition, EnumTypeExtension, FragmentDefinition,
    InputObjectTypeDefinition, InputObjectTypeExtension, InterfaceTypeDefinition,
    InterfaceTypeExtension, ObjectTypeDefinition, ObjectTypeExtension, OperationDefinition,
    ScalarTypeDefinition, ScalarTypeExtension, SchemaDefinition, SchemaExtension,
    UnionTypeDefinition, UnionTypeExtension,
};
use graphql_nodes::{Name, Node, OperationType};
use likeness::{is_copied, is_copied_so};
use std::alloc::Global;

/// The text of the first call that has the definition as one of its kind.
macro_rules! first_of {
    ($definition:ident: $($call:ident: $text:literal),*) => {{
        $(if $definition.$call().is_some() {
            return $text;
        })*
        "no definition"
    }};
}

/// How the definition is described, by what it can be taken as.
fn kind_of(definition: &Definition) -> &'static str {
    first_of!(definition:
        as_operation_definition: "an operation definition",
        as_fragment_definition: "a fragment definition",
        as_directive_definition: "a directive definition",
        as_schema_definition: "a schema definition",
        as_scalar_type_definition: "a scalar type definition",
        as_object_type_definition: "an object type definition",
        as_interface_type_definition: "an interface type definition",
        as_union_type_definition: "a union type definition",
        as_enum_type_definition: "an enum type definition",
        as_input_object_type_definition: "an input object type definition",
        as_schema_extension: "a schema extension",
        as_scalar_type_extension: "a scalar type extension",
        as_object_type_extension: "an object type extension",
        as_interface_type_extension: "an interface type extension",
        as_union_type_extension: "a union type extension",
        as_enum_type_extension: "an enum type extension",
        as_input_object_type_extension: "an input object type extension")
}

/// Whether what the definition can be taken as, and where it is one, goes with how it is described.
fn is_of_kind(definition: &Definition, text: &str) -> bool {
    let is_executable = text == "an operation definition" || text == "a fragment definition";
    kind_of(definition) == text
        && definition.is_executable_definition() == is_executable
        && definition.is_extension_definition() == text.ends_with("extension")
        && definition.directives().is_none() == (text == "a directive definition")
}

/// Whether this is how the definition is described, and it is at the location.
fn is_described(definition: &Definition, text: &str) -> bool {
    is_of_kind(definition, text)
        && definition.describe() == text
        && definition.location() == Some(PLACE)
}

/// Whether the value has an equal copy, and so has the definition of it at the location, which is described
/// so. A copy of the definition shares the value.
fn is_defined<T: Clone + PartialEq + Drop>(alloc: Global, value: T, text: &str) -> bool
where
    Definition: From<Node<T>>,
{
    let is_value_copied = is_copied(&value);
    let definition = Node::new_opt_location(alloc, value, Some(PLACE)).map(Definition::from);
    is_copied_so(definition, |definition| is_described(definition, text)) && is_value_copied
}

/// Whether what is made of a name is so defined.
fn is_named<T: Clone + PartialEq + Drop, F: FnOnce(Global, Name) -> T + Drop>(
    alloc: Global,
    make: F,
    text: &str,
) -> bool
where
    Definition: From<Node<T>>,
    requires { F.IsAlwaysCallable make }
{
    match Name::new_unchecked(alloc, "n") {
        Ok(name) => is_defined(alloc, make(alloc, name), text),
        Err(_) => false,
    }
}

/// Whether a fragment of a name, on a type, is defined.
fn is_fragment_defined(alloc: Global) -> bool {
    match Name::new_unchecked(alloc, "T") {
        Ok(ty) => is_named(
            alloc,
            |alloc, name| FragmentDefinition::new(alloc, name, ty),
            "a fragment definition",
        ),
        Err(_) => false,
    }
}

#[test]
fn definitions_without_a_type(rt: HostRuntime) {
    let alloc = rt.alloc();
    let operation = OperationDefinition::new(alloc, OperationType::Query);
    assert!(rt; is_defined(alloc, operation, "an operation definition"));
    assert!(rt; is_fragment_defined(alloc));
    assert!(rt; is_named(alloc, DirectiveDefinition::new, "a directive definition"));
    assert!(rt; is_defined(alloc, SchemaDefinition::new(alloc), "a schema definition"));
    assert!(rt; is_defined(alloc, SchemaExtension::new(alloc), "a schema extension"));
}

/// Expects that what each type makes of a name is so defined.
macro_rules! expect_named {
    ($rt:ident: $($ty:ident: $text:literal),*) => {
        $(assert!($rt; is_named($rt.alloc(), $ty::new, $text));)*
    };
}

#[test]
fn definitions_of_types(rt: HostRuntime) {
    expect_named!(rt:
        ScalarTypeDefinition: "a scalar type definition",
        ObjectTypeDefinition: "an object type definition",
        InterfaceTypeDefinition: "an interface type definition",
        UnionTypeDefinition: "a union type definition",
        EnumTypeDefinition: "an enum type definition",
        InputObjectTypeDefinition: "an input object type definition");
}

#[test]
fn extensions_of_types(rt: HostRuntime) {
    expect_named!(rt:
        ScalarTypeExtension: "a scalar type extension",
        ObjectTypeExtension: "an object type extension",
        InterfaceTypeExtension: "an interface type extension",
        UnionTypeExtension: "a union type extension",
        EnumTypeExtension: "an enum type extension",
        InputObjectTypeExtension: "an input object type extension");
}
