//! Nodes and their locations.

use crate::nodes::samples::{PLACE, name, node};
use crate::nodes::shown::is_shown;
use graphql_nodes::name::Name;
use graphql_nodes::node::Node;
use graphql_nodes::source::{FileId, SourceFile, SourceSpan};
use likeness::{are_alike, are_equal, both};
use std::alloc::{AllocError, Global};
use std::mem::size_of;

/// A location in the file of built-in definitions.
const BUILT_IN: SourceSpan = SourceSpan {
    file: FileId::BUILT_IN,
    start: 0,
    end: 0,
};

/// A location that takes more than 32 bits.
const FAR: SourceSpan = SourceSpan {
    file: FileId(u64::MAX),
    start: usize::MAX,
    end: 0,
};

/// Whether a node of 7 is at this location and is shown as 7. And whether it is equal to a node of 7 at none,
/// and hashed the same.
fn is_at(
    alloc: Global,
    location: Option<SourceSpan>,
    is_built_in: bool,
) -> Result<bool, AllocError> {
    let located = Node::new_opt_location(alloc, 7, location);
    let (nowhere, node) = both(Node::new(alloc, 7), located)?;
    let is_placed = (node.location(), node.is_built_in()) == (location, is_built_in)
        && (nowhere.location(), nowhere.is_built_in()) == (None, false);
    Ok(is_placed && is_shown(alloc, &node, "7") && are_alike(&nowhere, &node))
}

/// Whether a node of `a` can be made at the location of another.
fn is_beside(alloc: Global) -> Result<bool, AllocError> {
    let seven = Node::new_opt_location(alloc, 7, Some(PLACE))?;
    let beside = seven.same_location(alloc, 'a')?;
    Ok((*beside, beside.location()) == ('a', Some(PLACE)))
}

#[test]
fn nodes_are_one_pointer_wide_and_equal_without_locations(rt: HostRuntime) {
    let alloc = rt.alloc();
    assert!(rt; size_of::<Node<SourceFile>>() == size_of::<usize>());
    assert!(rt; is_at(alloc, None, false) == Ok(true));
    assert!(rt; is_at(alloc, Some(PLACE), false) == Ok(true));
    assert!(rt; is_at(alloc, Some(BUILT_IN), true) == Ok(true));
    assert!(rt; is_at(alloc, Some(FAR), false) == Ok(true));
    assert!(rt; is_beside(alloc) == Ok(true));
    assert!(rt; are_equal(Node::new(alloc, 7), Node::new(alloc, 8)) == Some(false));
}

/// Writes another name to the node.
fn rename(alloc: Global, node: &mut Node<Name>, text: &str) -> Result<(), AllocError> {
    let held = node.make_mut()?;
    *held = name(alloc, text, None)?;
    Ok(())
}

/// Whether the nodes have these names, both at the location.
fn are_named(first: &Node<Name>, second: &Node<Name>, names: (&str, &str)) -> bool {
    let locations = (first.location(), second.location());
    (first.as_str(), second.as_str()) == names && locations == (Some(PLACE), Some(PLACE))
}

/// Whether a write to the second of two nodes that share a name leaves the first, and another makes them
/// equal again.
fn is_write_apart(alloc: Global) -> Result<bool, AllocError> {
    let first = node(alloc, name(alloc, "before", None), Some(PLACE))?;
    let mut second = first.clone()?;
    let is_shared = first == second;
    rename(alloc, &mut second, "after")?;
    let is_apart = are_named(&first, &second, ("before", "after")) && first != second;
    rename(alloc, &mut second, "before")?;
    Ok(is_shared && is_apart && first == second)
}

#[test]
fn a_write_leaves_the_other_node(rt: HostRuntime) {
    assert!(rt; is_write_apart(rt.alloc()) == Ok(true));
}
