//! Walks over more selections than could ever be counted.

use crate::executable::making::{empty, field, name, operation};
use apollo_executable::{
    AllFields, ExecutableDocument, InlineFragment, Operation, Selection, SelectionSet,
};
use graphql_nodes::node::Node;
use graphql_nodes::operation_type::OperationType;
use std::alloc::{AllocError, Global};
use std::test::Fail;

/// How deep the selections stand, one in another.
const DEPTH: u32 = 100;

/// A set with a selection twice, which both share what is in it.
fn twice(alloc: Global, selection: Selection) -> Result<SelectionSet, AllocError> {
    let mut outer = empty(alloc)?;
    outer.push(selection.clone()?)?;
    outer.push(selection)?;
    Ok(outer)
}

/// A set with two selections of one field at this depth, whose set is this one.
fn doubled(alloc: Global, depth: u32, set: SelectionSet) -> Result<SelectionSet, AllocError> {
    let text = format!(in alloc; "a{depth}")?;
    let mut field = field(alloc, text.as_str())?;
    field.selection_set = set;
    twice(alloc, Selection::of_field(alloc, field)?)
}

/// Such a set in such a set, down to the deepest.
fn nested(alloc: Global) -> Result<SelectionSet, AllocError> {
    let mut set = empty(alloc)?;
    for above in 0..DEPTH {
        set = doubled(alloc, DEPTH.wrapping_sub(above), set)?;
    }
    Ok(set)
}

/// Adds the key of the next field of a walk. The contract of the call stays here, so that no loop carries it
/// along.
fn push_next(text: &mut String, walk: &mut AllFields<'_>) -> Result<(), AllocError> {
    match walk.next() {
        Some(Ok(field)) => {
            let key = field.response_key();
            write!(text, "{key}\n")
        }
        Some(Err(error)) => Err(error),
        None => text.push_str("an end\n"),
    }
}

/// The keys of the first thousand items.
fn first_keys(alloc: Global) -> Result<String, AllocError> {
    let set = nested(alloc)?;
    let document = ExecutableDocument::new(alloc);
    let mut walk = set.all_fields(alloc, &document);
    let mut text = String::new(alloc);
    for _ in 0..1000 {
        push_next(&mut text, &mut walk)?;
    }
    Ok(text)
}

/// The keys of the first thousand fields, those in a field behind it. Below a deepest field is none. So the
/// next one is the second of the two at the depth where the fewest are left. How often two goes into the
/// number of deepest ones so far says which depth that is.
fn expected_keys(alloc: Global) -> Result<String, AllocError> {
    let mut text = String::new(alloc);
    let (mut depth, mut deepest) = (1, 0_u32);
    for _ in 0..1000 {
        write!(text, "a{depth}\n")?;
        if depth < DEPTH {
            depth = depth.wrapping_add(1);
        } else {
            deepest = deepest.wrapping_add(1);
            depth = DEPTH.wrapping_sub(deepest.trailing_zeros());
        }
    }
    Ok(text)
}

#[test]
fn a_walk_over_shared_fields_is_given_up(rt: HostRuntime) -> Result<(), Fail> {
    let keys = first_keys(rt.alloc())?;
    let expected = expected_keys(rt.alloc())?;
    assert_eq!(rt; keys.as_str(), expected.as_str());
    Ok(())
}

/// A set with two selections of one inline fragment, whose set is this one.
fn inlined(alloc: Global, set: SelectionSet) -> Result<SelectionSet, AllocError> {
    let mut inline = InlineFragment::without_type_condition(alloc, name(alloc, "Query")?);
    inline.selection_set = set;
    twice(alloc, Selection::of_inline_fragment(alloc, inline)?)
}

/// A query with one field in such a set in such a set.
fn query(alloc: Global) -> Result<Node<Operation>, AllocError> {
    let mut set = empty(alloc)?;
    set.push(Selection::of_field(alloc, field(alloc, "name")?)?)?;
    for _ in 0..DEPTH {
        set = inlined(alloc, set)?;
    }
    operation(alloc, OperationType::Query, None, set)
}

#[test]
fn is_introspection_stops_at_the_first_other_field(rt: HostRuntime) -> Result<(), Fail> {
    let operation = query(rt.alloc())?;
    let document = ExecutableDocument::new(rt.alloc());
    assert!(rt; !operation.is_introspection(rt.alloc(), &document)?);
    Ok(())
}
