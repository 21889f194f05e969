//! Definitions and extensions of the type system: GraphQL specification of October 2021, section 3.
//!
//! What `new` makes has what it can't be without, and is else empty. None but `InputValueDefinition::new`
//! takes memory.
ghost use Rattle.std.specs.Prelude.{◌≡◌, [], IfOk, None, false};
ghost use Rattle.std.specs.Option.{option_copied};
ghost use Rattle.graphql_ast.specs.ArgumentsByName.{defined_argument, requires_value};
ghost use Rattle.graphql_ast.specs.Declarations.{placed};
ghost use Rattle.graphql_ast.specs.TypeSystem.{directive_definition_of, enum_extension_of, enum_type_of};
ghost use Rattle.graphql_ast.specs.TypeSystem.{enum_value_of, field_of, input_object_extension_of};
ghost use Rattle.graphql_ast.specs.TypeSystem.{input_object_type_of, input_value_of};
ghost use Rattle.graphql_ast.specs.TypeSystem.{interface_extension_of, interface_type_of, no_directives};
ghost use Rattle.graphql_ast.specs.TypeSystem.{object_extension_of, object_type_of, scalar_extension_of};
ghost use Rattle.graphql_ast.specs.TypeSystem.{scalar_type_of, schema_extension_of, schema_of};
ghost use Rattle.graphql_ast.specs.TypeSystem.{union_extension_of, union_type_of};

use crate::directive::DirectiveList;
use crate::else_empty::else_empty;
use crate::type_reference::Type;
use crate::value::Value;
use graphql_nodes::collections::items::Items;
use graphql_nodes::directive_location::DirectiveLocation;
use graphql_nodes::name::{Name, NamedType};
use graphql_nodes::named::first_of_name;
use graphql_nodes::node::Node;
use graphql_nodes::node_str::NodeStr;
use graphql_nodes::operation_type::OperationType;
use graphql_nodes::take_apart;
use std::alloc::{AllocError, Global};

/// A field of an object or interface type (section 3.6).
#[derive(Debug, PartialEq, Eq, Hash, Clone)]
pub struct FieldDefinition {
    pub description: Option<NodeStr>,
    pub name: Name,
    pub arguments: Items<Node<InputValueDefinition>>,
    pub ty: Type,
    pub directives: DirectiveList,
}

impl FieldDefinition {
    /// A field of this name and type, without description, arguments and directives.
    pub fn new(alloc: Global, name: Name, ty: Type) -> FieldDefinition
        ensures { result ≡ field_of None name [] ty no_directives }
    {
        else_empty!(alloc: name, ty; description, directives, arguments)
    }

    /// The first argument definition that has the name's text, if there is one. It takes no memory.
    pub fn argument_by_name(&self, name: &Name) -> Option<&Node<InputValueDefinition>>
        ensures { option_copied result ≡ defined_argument self.now.arguments name.now }
    {
        first_of_name(self.arguments.as_slice(), name)
    }
}

/// An argument of a field or directive (section 3.6.1), or a field of an input object type (section 3.10).
#[derive(Debug, PartialEq, Eq, Hash, Clone)]
pub struct InputValueDefinition {
    pub description: Option<NodeStr>,
    pub name: Name,
    pub ty: Node<Type>,
    pub default_value: Option<Node<Value>>,
    pub directives: DirectiveList,
}

impl InputValueDefinition {
    /// An argument or input field of this name and type, without description, default value and directives.
    /// The node of the type has no location. The error is out of memory.
    pub fn new(alloc: Global, name: Name, ty: Type) -> Result<InputValueDefinition, AllocError>
        ensures { IfOk result (λ value. value
            ≡ input_value_of None name (placed None ty) None no_directives) }
    {
        let ty = Node::new(alloc, ty)?;
        let default_value = None;
        Ok(else_empty!(alloc: name, ty, default_value; description, directives))
    }

    /// Whether a value has to be given: the type is non-null, and there is no default value (section
    /// 5.4.2.1).
    pub fn is_required(&self) -> bool
        ensures { result ≡ requires_value self.now }
    {
        self.ty.is_non_null() && self.default_value.is_none()
    }
}

/// A value of an enum type (section 3.9).
#[derive(Debug, PartialEq, Eq, Hash, Clone)]
pub struct EnumValueDefinition {
    pub description: Option<NodeStr>,
    pub value: Name,
    pub directives: DirectiveList,
}

impl EnumValueDefinition {
    /// An enum value of this name, without description and directives.
    pub fn new(alloc: Global, value: Name) -> EnumValueDefinition
        ensures { result ≡ enum_value_of None value no_directives }
    {
        else_empty!(alloc: value; description, directives)
    }
}

/// The definition of a directive (section 3.13).
#[derive(Debug, PartialEq, Eq, Hash, Clone)]
pub struct DirectiveDefinition {
    pub description: Option<NodeStr>,
    pub name: Name,
    pub arguments: Items<Node<InputValueDefinition>>,
    pub repeatable: bool,
    pub locations: Items<DirectiveLocation>,
}

impl DirectiveDefinition {
    /// The definition of a directive of this name that is not repeatable, without description, arguments and
    /// locations.
    pub fn new(alloc: Global, name: Name) -> DirectiveDefinition
        ensures { result ≡ directive_definition_of None name [] false [] }
    {
        DirectiveDefinition {
            description: None,
            name,
            arguments: Items::new(alloc),
            repeatable: false,
            locations: Items::new(alloc),
        }
    }

    /// The first argument definition that has the name's text, if there is one. It takes no memory.
    pub fn argument_by_name(&self, name: &Name) -> Option<&Node<InputValueDefinition>>
        ensures { option_copied result ≡ defined_argument self.now.arguments name.now }
    {
        first_of_name(self.arguments.as_slice(), name)
    }
}

/// The definition of the schema, which names its root types (section 3.3).
#[derive(Debug, PartialEq, Eq, Hash, Clone)]
pub struct SchemaDefinition {
    pub description: Option<NodeStr>,
    pub directives: DirectiveList,
    pub root_operations: Items<Node<(OperationType, NamedType)>>,
}

impl SchemaDefinition {
    /// A definition of the schema without description, directives and root operations.
    pub fn new(alloc: Global) -> SchemaDefinition
        ensures { result ≡ schema_of None no_directives [] }
    {
        else_empty!(alloc:; description, directives, root_operations)
    }
}

/// The definition of a scalar type (section 3.5).
#[derive(Debug, PartialEq, Eq, Hash, Clone)]
pub struct ScalarTypeDefinition {
    pub description: Option<NodeStr>,
    pub name: Name,
    pub directives: DirectiveList,
}

impl ScalarTypeDefinition {
    /// The definition of a scalar type of this name, without description and directives.
    pub fn new(alloc: Global, name: Name) -> ScalarTypeDefinition
        ensures { result ≡ scalar_type_of None name no_directives }
    {
        else_empty!(alloc: name; description, directives)
    }
}

/// The definition of an object type (section 3.6).
#[derive(Debug, PartialEq, Eq, Hash, Clone)]
pub struct ObjectTypeDefinition {
    pub description: Option<NodeStr>,
    pub name: Name,
    pub implements_interfaces: Items<Name>,
    pub directives: DirectiveList,
    pub fields: Items<Node<FieldDefinition>>,
}

impl ObjectTypeDefinition {
    /// The definition of an object type of this name, without description, interfaces, directives and fields.
    pub fn new(alloc: Global, name: Name) -> ObjectTypeDefinition
        ensures { result ≡ object_type_of None name [] no_directives [] }
    {
        else_empty!(alloc: name; description, directives, implements_interfaces, fields)
    }
}

/// The definition of an interface type (section 3.7).
#[derive(Debug, PartialEq, Eq, Hash, Clone)]
pub struct InterfaceTypeDefinition {
    pub description: Option<NodeStr>,
    pub name: Name,
    pub implements_interfaces: Items<Name>,
    pub directives: DirectiveList,
    pub fields: Items<Node<FieldDefinition>>,
}

impl InterfaceTypeDefinition {
    /// The definition of an interface type of this name, without description, interfaces, directives and
    /// fields.
    pub fn new(alloc: Global, name: Name) -> InterfaceTypeDefinition
        ensures { result ≡ interface_type_of None name [] no_directives [] }
    {
        else_empty!(alloc: name; description, directives, implements_interfaces, fields)
    }
}

/// The definition of a union type (section 3.8).
#[derive(Debug, PartialEq, Eq, Hash, Clone)]
pub struct UnionTypeDefinition {
    pub description: Option<NodeStr>,
    pub name: Name,
    pub directives: DirectiveList,
    pub members: Items<NamedType>,
}

impl UnionTypeDefinition {
    /// The definition of a union type of this name, without description, directives and members.
    pub fn new(alloc: Global, name: Name) -> UnionTypeDefinition
        ensures { result ≡ union_type_of None name no_directives [] }
    {
        else_empty!(alloc: name; description, directives, members)
    }
}

/// The definition of an enum type (section 3.9).
#[derive(Debug, PartialEq, Eq, Hash, Clone)]
pub struct EnumTypeDefinition {
    pub description: Option<NodeStr>,
    pub name: Name,
    pub directives: DirectiveList,
    pub values: Items<Node<EnumValueDefinition>>,
}

impl EnumTypeDefinition {
    /// The definition of an enum type of this name, without description, directives and values.
    pub fn new(alloc: Global, name: Name) -> EnumTypeDefinition
        ensures { result ≡ enum_type_of None name no_directives [] }
    {
        else_empty!(alloc: name; description, directives, values)
    }
}

/// The definition of an input object type (section 3.10).
#[derive(Debug, PartialEq, Eq, Hash, Clone)]
pub struct InputObjectTypeDefinition {
    pub description: Option<NodeStr>,
    pub name: Name,
    pub directives: DirectiveList,
    pub fields: Items<Node<InputValueDefinition>>,
}

impl InputObjectTypeDefinition {
    /// The definition of an input object type of this name, without description, directives and fields.
    pub fn new(alloc: Global, name: Name) -> InputObjectTypeDefinition
        ensures { result ≡ input_object_type_of None name no_directives [] }
    {
        else_empty!(alloc: name; description, directives, fields)
    }
}

/// An extension of the schema (section 3.3.2).
#[derive(Debug, PartialEq, Eq, Hash, Clone)]
pub struct SchemaExtension {
    pub directives: DirectiveList,
    pub root_operations: Items<Node<(OperationType, NamedType)>>,
}

impl SchemaExtension {
    /// An extension of the schema without directives and root operations.
    pub fn new(alloc: Global) -> SchemaExtension
        ensures { result ≡ schema_extension_of no_directives [] }
    {
        else_empty!(alloc:; directives, root_operations)
    }
}

/// An extension of a scalar type (section 3.5.6).
#[derive(Debug, PartialEq, Eq, Hash, Clone)]
pub struct ScalarTypeExtension {
    pub name: Name,
    pub directives: DirectiveList,
}

impl ScalarTypeExtension {
    /// An extension of the scalar type of this name, without directives.
    pub fn new(alloc: Global, name: Name) -> ScalarTypeExtension
        ensures { result ≡ scalar_extension_of name no_directives }
    {
        else_empty!(alloc: name; directives)
    }
}

/// An extension of an object type (section 3.6.3).
#[derive(Debug, PartialEq, Eq, Hash, Clone)]
pub struct ObjectTypeExtension {
    pub name: Name,
    pub implements_interfaces: Items<Name>,
    pub directives: DirectiveList,
    pub fields: Items<Node<FieldDefinition>>,
}

impl ObjectTypeExtension {
    /// An extension of the object type of this name, without interfaces, directives and fields.
    pub fn new(alloc: Global, name: Name) -> ObjectTypeExtension
        ensures { result ≡ object_extension_of name [] no_directives [] }
    {
        else_empty!(alloc: name; directives, implements_interfaces, fields)
    }
}

/// An extension of an interface type (section 3.7.1).
#[derive(Debug, PartialEq, Eq, Hash, Clone)]
pub struct InterfaceTypeExtension {
    pub name: Name,
    pub implements_interfaces: Items<Name>,
    pub directives: DirectiveList,
    pub fields: Items<Node<FieldDefinition>>,
}

impl InterfaceTypeExtension {
    /// An extension of the interface type of this name, without interfaces, directives and fields.
    pub fn new(alloc: Global, name: Name) -> InterfaceTypeExtension
        ensures { result ≡ interface_extension_of name [] no_directives [] }
    {
        else_empty!(alloc: name; directives, implements_interfaces, fields)
    }
}

/// An extension of a union type (section 3.8.1).
#[derive(Debug, PartialEq, Eq, Hash, Clone)]
pub struct UnionTypeExtension {
    pub name: Name,
    pub directives: DirectiveList,
    pub members: Items<NamedType>,
}

impl UnionTypeExtension {
    /// An extension of the union type of this name, without directives and members.
    pub fn new(alloc: Global, name: Name) -> UnionTypeExtension
        ensures { result ≡ union_extension_of name no_directives [] }
    {
        else_empty!(alloc: name; directives, members)
    }
}

/// An extension of an enum type (section 3.9.1).
#[derive(Debug, PartialEq, Eq, Hash, Clone)]
pub struct EnumTypeExtension {
    pub name: Name,
    pub directives: DirectiveList,
    pub values: Items<Node<EnumValueDefinition>>,
}

impl EnumTypeExtension {
    /// An extension of the enum type of this name, without directives and values.
    pub fn new(alloc: Global, name: Name) -> EnumTypeExtension
        ensures { result ≡ enum_extension_of name no_directives [] }
    {
        else_empty!(alloc: name; directives, values)
    }
}

/// An extension of an input object type (section 3.10.1).
#[derive(Debug, PartialEq, Eq, Hash, Clone)]
pub struct InputObjectTypeExtension {
    pub name: Name,
    pub directives: DirectiveList,
    pub fields: Items<Node<InputValueDefinition>>,
}

impl InputObjectTypeExtension {
    /// An extension of the input object type of this name, without directives and fields.
    pub fn new(alloc: Global, name: Name) -> InputObjectTypeExtension
        ensures { result ≡ input_object_extension_of name no_directives [] }
    {
        else_empty!(alloc: name; directives, fields)
    }
}

impl Drop for FieldDefinition {
    fn drop(self) {
        take_apart!(self: description, name, arguments, ty, directives);
    }
}

impl Drop for InputValueDefinition {
    fn drop(self) {
        take_apart!(self: description, name, ty, default_value, directives);
    }
}

impl Drop for EnumValueDefinition {
    fn drop(self) {
        take_apart!(self: description, value, directives);
    }
}

impl Drop for DirectiveDefinition {
    fn drop(self) {
        take_apart!(self: description, name, arguments, repeatable, locations);
    }
}

impl Drop for SchemaDefinition {
    fn drop(self) {
        take_apart!(self: description, directives, root_operations);
    }
}

impl Drop for ScalarTypeDefinition {
    fn drop(self) {
        take_apart!(self: description, name, directives);
    }
}

impl Drop for ObjectTypeDefinition {
    fn drop(self) {
        take_apart!(self: description, name, implements_interfaces, directives, fields);
    }
}

impl Drop for InterfaceTypeDefinition {
    fn drop(self) {
        take_apart!(self: description, name, implements_interfaces, directives, fields);
    }
}

impl Drop for UnionTypeDefinition {
    fn drop(self) {
        take_apart!(self: description, name, directives, members);
    }
}

impl Drop for EnumTypeDefinition {
    fn drop(self) {
        take_apart!(self: description, name, directives, values);
    }
}

impl Drop for InputObjectTypeDefinition {
    fn drop(self) {
        take_apart!(self: description, name, directives, fields);
    }
}

impl Drop for SchemaExtension {
    fn drop(self) {
        take_apart!(self: directives, root_operations);
    }
}

impl Drop for ScalarTypeExtension {
    fn drop(self) {
        take_apart!(self: name, directives);
    }
}

impl Drop for ObjectTypeExtension {
    fn drop(self) {
        take_apart!(self: name, implements_interfaces, directives, fields);
    }
}

impl Drop for InterfaceTypeExtension {
    fn drop(self) {
        take_apart!(self: name, implements_interfaces, directives, fields);
    }
}

impl Drop for UnionTypeExtension {
    fn drop(self) {
        take_apart!(self: name, directives, members);
    }
}

impl Drop for EnumTypeExtension {
    fn drop(self) {
        take_apart!(self: name, directives, values);
    }
}

impl Drop for InputObjectTypeExtension {
    fn drop(self) {
        take_apart!(self: name, directives, fields);
    }
}
