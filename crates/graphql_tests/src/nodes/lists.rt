//! Lists: made, read, walked, written to, copied and shown.

use crate::nodes::shown::is_shown;
use graphql_nodes::collections::items::Items;
use likeness::is_copied;
use std::alloc::{AllocError, Global};

/// Whether the elements are these.
pub fn are(items: &[i32], wanted: &[i32]) -> bool {
    items == wanted
}

/// Whether the list of 1, 2 and 3 reads so, is shown so, and is walked from both ends, by each of its walks.
fn are_numbers(alloc: Global, items: &Items<i32>) -> bool {
    (items.len(), items.is_empty(), items.get(2), items.get(3)) == (3, false, Some(&3), None)
        && is_shown(alloc, items, "[1, 2, 3]")
        && items.iter().eq([1, 2, 3].iter())
        && items.iter().rev().eq([3, 2, 1].iter())
        && items.into_iter().eq([1, 2, 3].iter())
}

/// Whether the list of 1 and 2 is walked by value.
fn is_walked_by_value(alloc: Global) -> Result<bool, AllocError> {
    let mut walk = Items::from_array(alloc, [1, 2])?.into_iter();
    Ok((walk.next(), walk.next(), walk.next()) == (Some(1), Some(2), None))
}

/// Whether the list of 1, 2 and 3 is made, read and copied.
fn are_numbers_kept(alloc: Global) -> Result<bool, AllocError> {
    let mut items = Items::from_vec([1, 2].to_vec(alloc)?);
    items.push(3)?;
    let is_read = are_numbers(alloc, &items) && is_copied(&items);
    Ok(is_read && are(items.as_slice(), &[1, 2, 3]) && are(items.into_vec().as_slice(), &[1, 2, 3]))
}

/// Writes 7 to each element.
fn write_each(items: &mut Items<i32>) {
    for item in items {
        *item = 7;
    }
}

/// Writes 8 to the first element, and answers what stands in the second.
fn write_first(items: &mut Items<i32>) -> Option<i32> {
    if items.len() != 2 {
        return None;
    }
    items[0] = 8;
    Some(items[1])
}

/// Whether the list of 1 and 2 is written to: each element, the first, and as a `Vec`.
fn is_written(alloc: Global) -> Result<bool, AllocError> {
    let mut items = Items::from_array(alloc, [1, 2])?;
    write_each(&mut items);
    let is_read = write_first(&mut items) == Some(7) && are(items.as_slice(), &[8, 7]);
    items.truncate(1);
    Ok(is_read && are(items.as_slice(), &[8]))
}

/// Whether the list of 4 and 5 is collected, and can be extended.
fn is_extended(alloc: Global) -> Result<bool, AllocError> {
    let mut items: Items<i32> = [4, 5].iter().copied().collect(alloc)?;
    let is_collected = are(items.as_slice(), &[4, 5]);
    items.extend([6].iter().copied())?;
    Ok(is_collected && are(items.as_slice(), &[4, 5, 6]))
}

#[test]
fn lists_are_read_walked_written_to_and_collected(rt: HostRuntime) {
    let alloc = rt.alloc();
    assert!(rt; Items::<u8>::new(alloc).is_empty());
    assert!(rt; are_numbers_kept(alloc) == Ok(true));
    assert!(rt; is_walked_by_value(alloc) == Ok(true));
    assert!(rt; is_written(alloc) == Ok(true));
    assert!(rt; is_extended(alloc) == Ok(true));
}
