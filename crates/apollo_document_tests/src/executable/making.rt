//! Parts of typed documents, made by calls.

use apollo_executable::{Field, Operation, SelectionSet};
use graphql_ast::directive::DirectiveList;
use graphql_ast::type_reference::Type;
use graphql_ast::type_system::FieldDefinition;
use graphql_nodes::collections::items::Items;
use graphql_nodes::name::Name;
use graphql_nodes::node::Node;
use graphql_nodes::operation_type::OperationType;
use std::alloc::{AllocError, Global};

/// A name of this text.
pub fn name(alloc: Global, text: &str) -> Result<Name, AllocError> {
    Name::new_unchecked(alloc, text)
}

/// No selections, of the type `Query`.
pub fn empty(alloc: Global) -> Result<SelectionSet, AllocError> {
    Ok(SelectionSet::new(alloc, name(alloc, "Query")?))
}

/// A field of this name, with a definition of its own, of the type `Query`.
pub fn field(alloc: Global, text: &str) -> Result<Field, AllocError> {
    let definition = FieldDefinition {
        description: None,
        name: name(alloc, text)?,
        arguments: Items::new(alloc),
        ty: Type::Named(name(alloc, "Query")?),
        directives: DirectiveList::new(alloc),
    };
    Field::new(alloc, name(alloc, text)?, Node::new(alloc, definition)?)
}

/// An operation with these selections.
pub fn operation(
    alloc: Global,
    operation_type: OperationType,
    name: Option<Name>,
    selection_set: SelectionSet,
) -> Result<Node<Operation>, AllocError> {
    let operation = Operation {
        operation_type,
        name,
        variables: Items::new(alloc),
        directives: DirectiveList::new(alloc),
        selection_set,
    };
    Node::new(alloc, operation)
}
