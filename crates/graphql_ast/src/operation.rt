//! Operations and fragments: GraphQL specification of October 2021, sections 2.3, 2.8 and 2.10.
ghost use Rattle.std.specs.Prelude.{◌≡◌, [], IfOk, None};
ghost use Rattle.graphql_ast.specs.Declarations.{placed};
ghost use Rattle.graphql_ast.specs.Operations.{fragment_of, operation_of, variable_of};
ghost use Rattle.graphql_ast.specs.TypeSystem.{no_directives};

use crate::directive::DirectiveList;
use crate::else_empty::else_empty;
use crate::selection::Selection;
use crate::type_reference::Type;
use crate::value::Value;
use graphql_nodes::collections::items::Items;
use graphql_nodes::name::{Name, NamedType};
use graphql_nodes::node::Node;
use graphql_nodes::operation_type::OperationType;
use graphql_nodes::take_apart;
use std::alloc::{AllocError, Global};

/// A query, mutation or subscription, anonymous where it has no name (section 2.3).
#[derive(Debug, PartialEq, Eq, Hash, Clone)]
pub struct OperationDefinition {
    pub operation_type: OperationType,
    pub name: Option<Name>,
    pub variables: Items<Node<VariableDefinition>>,
    pub directives: DirectiveList,
    pub selection_set: Items<Selection>,
}

impl OperationDefinition {
    /// An anonymous operation of this type, without variables, directives and selections.
    pub fn new(alloc: Global, operation_type: OperationType) -> OperationDefinition
        ensures { result ≡ operation_of operation_type None [] no_directives [] }
    {
        let name = None;
        else_empty!(alloc: operation_type, name; directives, variables, selection_set)
    }
}

/// A variable of an operation (section 2.10).
#[derive(Debug, PartialEq, Eq, Hash, Clone)]
pub struct VariableDefinition {
    pub name: Name,
    pub ty: Node<Type>,
    pub default_value: Option<Node<Value>>,
    pub directives: DirectiveList,
}

impl VariableDefinition {
    /// A variable of this name and type, without default value and directives. The node of the type has no
    /// location. The error is out of memory.
    pub fn new(alloc: Global, name: Name, ty: Type) -> Result<VariableDefinition, AllocError>
        ensures { IfOk result (λ variable. variable ≡ variable_of name (placed None ty) None no_directives) }
    {
        let ty = Node::new(alloc, ty)?;
        let default_value = None;
        Ok(else_empty!(alloc: name, ty, default_value; directives))
    }
}

/// A named fragment (section 2.8).
#[derive(Debug, PartialEq, Eq, Hash, Clone)]
pub struct FragmentDefinition {
    pub name: Name,
    pub type_condition: NamedType,
    pub directives: DirectiveList,
    pub selection_set: Items<Selection>,
}

impl FragmentDefinition {
    /// A fragment of this name on this type, without directives and selections.
    pub fn new(alloc: Global, name: Name, type_condition: NamedType) -> FragmentDefinition
        ensures { result ≡ fragment_of name type_condition no_directives [] }
    {
        else_empty!(alloc: name, type_condition; directives, selection_set)
    }
}

impl Drop for OperationDefinition {
    fn drop(self) {
        take_apart!(self: operation_type, name, variables, directives, selection_set);
    }
}

impl Drop for VariableDefinition {
    fn drop(self) {
        take_apart!(self: name, ty, default_value, directives);
    }
}

impl Drop for FragmentDefinition {
    fn drop(self) {
        take_apart!(self: name, type_condition, directives, selection_set);
    }
}
