//! What tests ask of values: whether they are made, equal, copied and printed, and where they stand. The
//! functions own what is made, so that a test need not. None has a clause, since no proof goes by what a test
//! sees.
#![tactic(auto)]

use graphql_nodes::collections::items::Items;
use graphql_nodes::node::Node;
use graphql_nodes::source::SourceSpan;
use std::alloc::{AllocError, Global};
use std::fmt::Display;
use std::hash::{DefaultHasher, Hash, Hasher};

fn hash_of<T: Hash>(value: &T) -> u64 {
    let mut state = DefaultHasher::new();
    value.hash(&mut state);
    state.finish()
}

/// Whether the values are equal, and so are their hashes.
pub fn are_alike<T: PartialEq + Hash>(first: &T, second: &T) -> bool {
    *first == *second && hash_of(first) == hash_of(second)
}

/// Whether there was memory for both values, and they are equal and so are their hashes.
pub fn are_made_alike<T: PartialEq + Hash + Drop>(
    first: Result<T, AllocError>,
    second: Result<T, AllocError>,
) -> bool {
    match (first, second) {
        (Ok(first), Ok(second)) => are_alike(&first, &second),
        _ => false,
    }
}

/// Whether the values are equal, if there are both: if there was memory for them, or if both were found.
pub fn are_equal<T: PartialEq + Drop, E: Drop>(
    first: Result<T, E>,
    second: Result<T, E>,
) -> Option<bool> {
    match (first, second) {
        (Ok(first), Ok(second)) => Some(first == second),
        _ => None,
    }
}

/// Whether there was memory, and what was made is equal to the value.
pub fn is_made<T: PartialEq + Drop>(made: Result<T, AllocError>, value: &T) -> bool {
    match made {
        Ok(other) => other == *value,
        Err(_) => false,
    }
}

/// Whether there was memory for the value, and it is right.
pub fn is_made_right<T: Drop, F: FnOnce(&T) -> bool + Drop>(
    made: Result<T, AllocError>,
    is_right: F,
) -> bool
    requires { F.IsAlwaysCallable is_right }
{
    match made {
        Ok(value) => is_right(&value),
        Err(_) => false,
    }
}

/// Whether a copy is made, and is equal.
pub fn is_copied<T: Clone + PartialEq + Drop>(value: &T) -> bool {
    is_made(value.clone(), value)
}

/// Whether there was memory for the value, and it has an equal copy.
pub fn is_made_copied<T: Clone + PartialEq + Drop>(made: Result<T, AllocError>) -> bool {
    match made {
        Ok(value) => is_copied(&value),
        Err(_) => false,
    }
}

/// Whether there was memory for the node, and what it holds has an equal copy. A copy of the node shares it.
pub fn is_held_copied<T: Clone + PartialEq + Drop>(made: Result<Node<T>, AllocError>) -> bool {
    match made {
        Ok(node) => is_copied(&*node),
        Err(_) => false,
    }
}

/// Whether there was memory for the value, and it has an equal copy, which is right.
pub fn is_copied_so<T: Clone + PartialEq + Drop, F: FnOnce(&T) -> bool + Drop>(
    made: Result<T, AllocError>,
    is_right: F,
) -> bool
    requires { F.IsAlwaysCallable is_right }
{
    match made {
        Ok(value) => match value.clone() {
            Ok(copy) => copy == value && is_right(&copy),
            Err(_) => false,
        },
        Err(_) => false,
    }
}

/// Whether there is memory to print the value, and this is how it is printed.
pub fn is_printed<T: Display>(alloc: Global, value: &T, text: &str) -> bool {
    match value.to_string(alloc) {
        Ok(printed) => printed.as_str() == text,
        Err(_) => false,
    }
}

/// Adds a location: the number of its file, and from where to where it goes, or where it is if both are the
/// same. `-` is none.
pub fn push_location(text: &mut String, location: Option<SourceSpan>) -> Result<(), AllocError> {
    match location {
        Some(span) => {
            let SourceSpan { file, start, end } = span;
            let number = file.0;
            if start == end {
                write!(text, "{number}:{start} ")
            } else {
                write!(text, "{number}:{start}-{end} ")
            }
        }
        None => text.push_str("- "),
    }
}

/// Adds a copy of a value to a list.
pub fn push_copy<T: Clone + Drop>(list: &mut Items<T>, value: &T) -> Result<(), AllocError> {
    let copy = value.clone()?;
    list.push(copy)
}

/// Both values, if there was memory for each.
pub fn both<A: Drop, B: Drop>(
    first: Result<A, AllocError>,
    second: Result<B, AllocError>,
) -> Result<(A, B), AllocError> {
    match (first, second) {
        (Ok(first), Ok(second)) => Ok((first, second)),
        _ => Err(AllocError),
    }
}
