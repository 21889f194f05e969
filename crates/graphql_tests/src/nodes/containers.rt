//! Tables and sets, by their keys and by place.

use crate::nodes::lists::are;
use crate::nodes::shown::is_shown;
use crate::nodes::tables::expect_at;
use graphql_nodes::collections::hash_keys::HashKeys;
use graphql_nodes::collections::key_set::KeySet;
use graphql_nodes::collections::table::Table;
use likeness::both;
use std::alloc::{AllocError, Global};

/// Whether three calls answer what they replace. Then one value is written.
fn are_inserted(table: &mut Table<i32, char>) -> bool {
    let old = [
        table.insert(5, 'a').ok(),
        table.insert(3, 'b').ok(),
        table.insert(5, 'c').ok(),
    ];
    if let Some(value) = table.get_mut(&3) {
        *value = 'e';
    }
    old == [Some(None), Some(None), Some(Some('a'))]
}

/// Whether the table reads as 5 with `c` and then 3 with `e`.
fn are_entries(table: &Table<i32, char>) -> bool {
    let found = (table.get(&5), table.get(&9));
    let are_keys = table.keys().eq([5, 3].iter());
    let are_values = table.values().eq(['c', 'e'].iter());
    are_keys && are_values && found == (Some(&'c'), None)
}

/// Whether that table reads so by place.
fn are_places(table: &Table<i32, char>) -> bool {
    let entries = (table.first(), table.get_index(1), table.get_index(2));
    let full = (table.get_full(&3), table.get_full(&9));
    let places = (table.get_index_of(&3), table.get_index_of(&9));
    entries == (Some((&5, &'c')), Some((&3, &'e')), None)
        && full == (Some((1, &3, &'e')), None)
        && places == (Some(1), None)
}

/// Whether the second entry of that table can be written by place, and no third.
fn is_written(table: &mut Table<i32, char>) -> bool {
    if let Some(value) = table.get_index_mut(1) {
        *value = 'z';
    }
    table.get_index_mut(2).is_none() && table.values().eq(['c', 'z'].iter())
}

/// Whether the table has an equal copy, which the first entry can be taken out of, and is made again of its
/// map.
fn is_table_kept(table: Table<i32, char>) -> Result<bool, AllocError> {
    let mut copy = table.clone()?;
    let is_copied = copy == table;
    let is_removed = (copy.shift_remove(&5), copy.len()) == (Some('c'), 1);
    let alloc = table.allocator();
    let back = Table::from_index_map(Box::new(alloc, table.into_index_map()?)?);
    Ok(is_copied && is_removed && back.len() == 2)
}

#[test]
fn tables_by_key_and_by_place(rt: HostRuntime) {
    let mut table = Table::new(rt.alloc());
    assert!(rt; are_inserted(&mut table) && are_entries(&table));
    assert!(rt; are_places(&table) && is_shown(rt.alloc(), &table, "{5: 'c', 3: 'e'}"));
    assert!(rt; is_written(&mut table) && is_table_kept(table) == Ok(true));
}

/// The table of these entries.
fn table_of(alloc: Global, entries: &[(i32, char)]) -> Result<Table<i32, char>, AllocError> {
    let mut table = Table::new(alloc);
    for (key, value) in entries.iter() {
        table.insert(*key, *value)?;
    }
    Ok(table)
}

/// Whether `==` answers so, whichever of the two stands first, if there was memory for both.
fn compares<T: PartialEq + Drop>(
    first: Result<T, AllocError>,
    second: Result<T, AllocError>,
    equal: bool,
) -> bool {
    match (first, second) {
        (Ok(first), Ok(second)) => (first == second) == equal && (second == first) == equal,
        _ => false,
    }
}

/// The table of the tables of these entries, under these keys.
fn nested(
    alloc: Global,
    keys: [i32; 2],
    first: &[(i32, char)],
    second: &[(i32, char)],
) -> Result<Table<i32, Table<i32, char>>, AllocError> {
    let (first, second) = both(table_of(alloc, first), table_of(alloc, second))?;
    let mut table = Table::new(alloc);
    table.insert(keys[0], first)?;
    table.insert(keys[1], second)?;
    Ok(table)
}

const FIVE: (i32, char) = (5, 'a');

const THREE: (i32, char) = (3, 'b');

const NINE: (i32, char) = (9, 'c');

const SEVEN: (i32, char) = (7, 'd');

const ENTRIES: [(i32, char); 4] = [FIVE, THREE, NINE, SEVEN];

/// Lists of entries, how they go, and whether a table of them is equal to that of the entries.
const OTHERS: &[(&str, &[(i32, char)], bool)] = &[
    ("the same", &ENTRIES, true),
    ("turned", &[SEVEN, NINE, THREE, FIVE], true),
    ("late turned", &[FIVE, THREE, SEVEN, NINE], true),
    ("a late value", &[FIVE, THREE, NINE, (7, 'e')], false),
    ("a late key", &[FIVE, THREE, NINE, (8, 'd')], false),
    (
        "late turned, a value",
        &[FIVE, THREE, SEVEN, (9, 'e')],
        false,
    ),
    (
        "turned, a late value",
        &[SEVEN, NINE, THREE, (5, 'e')],
        false,
    ),
    ("none", &[], false),
    ("fewer", &[FIVE, THREE], false),
];

/// Tables, and tables of tables at both levels.
#[test]
fn tables_are_equal_in_any_order(rt: HostRuntime) {
    let alloc = rt.alloc();
    for (title, other, equal) in OTHERS {
        let table = table_of(alloc, &ENTRIES);
        expect_at(&rt, title, compares(table, table_of(alloc, other), *equal));
        let first = nested(alloc, [1, 2], &[(5, 'b')], &ENTRIES);
        let second = nested(alloc, [2, 1], other, &[(5, 'b')]);
        expect_at(&rt, title, compares(first, second, *equal));
    }
}

/// Whether three calls answer which keys are new.
fn are_keys_inserted(set: &mut KeySet<i32>) -> bool {
    let is_new = [set.insert(5).ok(), set.insert(3).ok(), set.insert(5).ok()];
    is_new == [Some(true), Some(true), Some(false)]
}

/// Whether the keys are 5 and 3, by place too.
fn are_keys(set: &KeySet<i32>) -> bool {
    let keys = (set.first(), set.get_index(1), set.get_index(2));
    let places = (set.get_index_of(&3), set.get_index_of(&9));
    set.iter().eq([5, 3].iter())
        && keys == (Some(&5), Some(&3), None)
        && places == (Some(1), None)
        && (set.get_full(&3), set.get_full(&9)) == (Some((1, &3)), None)
}

/// Whether the set of 5 and 3 has an equal copy, and is made again of its set. And whether the first key can
/// be taken out of the copy.
fn is_set_kept(alloc: Global, set: KeySet<i32>) -> Result<bool, AllocError> {
    let mut copy = set.clone()?;
    let is_copied = copy == set;
    let is_removed = copy.shift_remove(&5) && are(copy.as_slice(), &[3]);
    let back = KeySet::from_index_set(Box::new(alloc, set.into_index_set()?)?);
    Ok(is_copied && is_removed && are(back.as_slice(), &[5, 3]))
}

#[test]
fn sets_by_key_and_by_place(rt: HostRuntime) {
    let mut set = KeySet::new(rt.alloc());
    assert!(rt; are_keys_inserted(&mut set) && are_keys(&set));
    assert!(rt; is_shown(rt.alloc(), &set, "{5, 3}") && is_set_kept(rt.alloc(), set) == Ok(true));
}

/// The set of these keys.
fn set_of(alloc: Global, keys: &[i32]) -> Result<KeySet<i32>, AllocError> {
    let mut set = KeySet::new(alloc);
    for key in keys.iter() {
        set.insert(*key)?;
    }
    Ok(set)
}

/// Lists of keys, how they go, and whether a set of them is equal to that of 5, 3 and 9.
const OTHER_KEYS: &[(&str, &[i32], bool)] = &[
    ("the same", &[5, 3, 9], true),
    ("late turned", &[5, 9, 3], true),
    ("a late key", &[5, 3, 7], false),
    ("fewer", &[5, 3], false),
];

#[test]
fn sets_are_equal_in_any_order(rt: HostRuntime) {
    for (title, other, equal) in OTHER_KEYS {
        let set = set_of(rt.alloc(), &[5, 3, 9]);
        expect_at(&rt, title, compares(set, set_of(rt.alloc(), other), *equal));
    }
}

/// Whether a table of so many entries reads, compares and shrinks as a table does, with room at once or not.
fn is_table_of(alloc: Global, count: usize) -> Result<bool, AllocError> {
    let mut table = Table::with_capacity(alloc, HashKeys::FIXED, count)?;
    let mut other = Table::new(alloc);
    for key in 0..count {
        table.insert(key, 'a')?;
        other.insert(key, 'a')?;
    }
    let is_read = table.get_full(&3) == Some((3, &3, &'a')) && table.get(&count).is_none();
    let is_equal = table == other && table.keys().len() == count;
    let is_removed = other.shift_remove(&0) == Some('a') && other.first() == Some((&1, &'a'));
    table.append(&mut other)?;
    Ok(is_read && is_equal && is_removed && other.is_empty() && table.len() == count)
}

/// Whether a set of so many keys reads, compares and shrinks as a set does.
fn is_set_of(alloc: Global, count: usize) -> Result<bool, AllocError> {
    let mut set = KeySet::new(alloc);
    for key in 0..count {
        set.insert(key)?;
    }
    let mut copy = set.clone()?;
    let is_read = set.get_full(&3) == Some((3, &3)) && !set.contains(&count);
    let is_removed = copy.shift_remove(&0) && copy.first() == Some(&1) && copy != set;
    Ok(is_read && is_removed && copy.insert(count)? && set.len() == count)
}

/// From the ninth on they are hashed.
#[test]
fn tables_and_sets_grow_past_eight(rt: HostRuntime) {
    for count in [8, 9, 40] {
        assert!(rt; is_table_of(rt.alloc(), count) == Ok(true));
        assert!(rt; is_set_of(rt.alloc(), count) == Ok(true));
    }
}
