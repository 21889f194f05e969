//! Parts that the trees of several tests have.

use graphql_nodes::collections::items::Items;
use graphql_nodes::name::Name;
use graphql_nodes::node::Node;
use graphql_nodes::source::{FileId, SourceSpan};
use likeness::both;
use std::alloc::{AllocError, Global};

/// The location of what the tests put at one.
pub const PLACE: SourceSpan = SourceSpan {
    file: FileId(3),
    start: 14,
    end: 17,
};

/// The node of this value, if there was memory for the value, at a location if one is given.
pub fn node<T: Drop>(
    alloc: Global,
    value: Result<T, AllocError>,
    location: Option<SourceSpan>,
) -> Result<Node<T>, AllocError> {
    Node::new_opt_location(alloc, value?, location)
}

/// The name of this text, at a location if one is given.
pub fn name(alloc: Global, text: &str, location: Option<SourceSpan>) -> Result<Name, AllocError> {
    let name = Name::new_unchecked(alloc, text)?;
    match location {
        Some(location) => Ok(name.with_location(location)),
        None => Ok(name),
    }
}

/// A list of this value alone, if there was memory for the value.
pub fn list<T: Drop>(alloc: Global, value: Result<T, AllocError>) -> Result<Items<T>, AllocError> {
    let mut list = Items::new(alloc);
    list.push(value?)?;
    Ok(list)
}

/// A list of both values, if there was memory for each.
pub fn pair<T: Drop>(
    alloc: Global,
    first: Result<T, AllocError>,
    second: Result<T, AllocError>,
) -> Result<Items<T>, AllocError> {
    let (first, second) = both(first, second)?;
    let mut pair = list(alloc, Ok(first))?;
    pair.push(second)?;
    Ok(pair)
}
