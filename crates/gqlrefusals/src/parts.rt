//! Parts that calls are made on, each with locations.

use apollo_executable::{FragmentSpread, Operation, Selection, SelectionSet};
use graphql_ast::directive::{Directive, DirectiveList};
use graphql_ast::type_reference::Type;
use graphql_ast::type_system::FieldDefinition;
use graphql_nodes::collections::items::Items;
use graphql_nodes::name::Name;
use graphql_nodes::node::Node;
use graphql_nodes::operation_type::OperationType;
use graphql_nodes::source::{FileId, SourceSpan};
use std::alloc::{AllocError, Global};

/// A location.
fn location(line: usize) -> SourceSpan {
    SourceSpan {
        file: FileId(7),
        start: line,
        end: line.saturating_add(1),
    }
}

/// A node at a location.
pub fn node<T: Drop>(alloc: Global, value: T, line: usize) -> Result<Node<T>, AllocError> {
    Node::new_opt_location(alloc, value, Some(location(line)))
}

/// A name with a location.
pub fn name(alloc: Global, text: &str) -> Result<Name, AllocError> {
    Ok(Name::new_unchecked(alloc, text)?.with_location(location(text.len())))
}

/// The definition of a field, with locations.
pub fn definition(alloc: Global) -> Result<Node<FieldDefinition>, AllocError> {
    let definition = FieldDefinition {
        description: None,
        name: name(alloc, "a")?,
        arguments: Items::new(alloc),
        ty: Type::named(name(alloc, "Int")?),
        directives: DirectiveList::new(alloc),
    };
    node(alloc, definition, 3)
}

/// A spread, with locations.
pub fn spread(alloc: Global, text: &str) -> Result<Selection, AllocError> {
    let spread = FragmentSpread::new(alloc, name(alloc, text)?);
    Ok(Selection::FragmentSpread(node(alloc, spread, 4)?))
}

/// A set without selections.
pub fn empty_set(alloc: Global) -> Result<SelectionSet, AllocError> {
    Ok(SelectionSet::new(alloc, name(alloc, "Query")?))
}

/// A directive, with locations.
pub fn directive(alloc: Global, text: &str) -> Result<Node<Directive>, AllocError> {
    node(alloc, Directive::new(alloc, name(alloc, text)?), 6)
}

fn operation_of(
    alloc: Global,
    name: Option<Name>,
    selection_set: SelectionSet,
) -> Result<Node<Operation>, AllocError> {
    let operation = Operation {
        operation_type: OperationType::Query,
        name,
        variables: Items::new(alloc),
        directives: DirectiveList::new(alloc),
        selection_set,
    };
    node(alloc, operation, 9)
}

/// The name of an operation, or none for `-`.
pub fn operation_name(alloc: Global, text: &str) -> Result<Option<Name>, AllocError> {
    if text == "-" {
        return Ok(None);
    }
    Ok(Some(name(alloc, text)?))
}

/// An operation of this name, or an anonymous one for `-`.
pub fn operation(alloc: Global, text: &str) -> Result<Node<Operation>, AllocError> {
    let name = operation_name(alloc, text)?;
    let mut set = empty_set(alloc)?;
    set.push(spread(alloc, "F")?)?;
    operation_of(alloc, name, set)
}

/// Whether two operations are the same, at the same location.
pub fn are_same(first: &Node<Operation>, second: &Node<Operation>) -> bool {
    *first == *second && first.location() == second.location()
}
