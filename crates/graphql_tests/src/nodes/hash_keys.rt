//! The keys that tables and sets hash by.

use crate::nodes::shown::is_shown;
use graphql_nodes::collections::hash_keys::HashKeys;
use graphql_nodes::collections::key_set::KeySet;
use graphql_nodes::collections::table::Table;
use likeness::both;
use std::alloc::{AllocError, Global};
use std::io::{self, Error, ErrorKind};
use std::random::RandomSource;

/// Bytes that a system may have drawn.
const DRAWN: [u8; 16] = [7, 1, 200, 3, 99, 5, 6, 17, 8, 91, 10, 240, 12, 13, 140, 15];

/// Texts that a hasher takes in by each of its ways.
const TEXTS: [&str; 9] = [
    "",
    "a",
    "abc",
    "abcd",
    "abcdefgh",
    "abcdefghi",
    "abcdefghijklmnop",
    "abcdefghijklmnopq",
    "abcdefghijklmnopqrstuvwxyzabcdefghijklmnopqrstuvwxyz",
];

/// The texts under their lengths, in a table that hashes by these keys.
fn lengths(alloc: Global, keys: HashKeys) -> Result<Table<&'static str, usize>, AllocError> {
    let mut table = Table::with_keys(alloc, keys);
    for text in TEXTS.iter() {
        table.insert(*text, text.len())?;
    }
    Ok(table)
}

/// Whether the table and its copy hash by these keys, and are equal.
fn keeps(table: &Table<&'static str, usize>, keys: HashKeys) -> bool {
    match table.clone() {
        Ok(copy) => { table.hash_keys() == keys && copy.hash_keys() == keys && copy == *table }
        Err(_) => false,
    }
}

/// Whether tables keep the fixed keys and others, and each text of the one is found in the other.
fn are_tables_keyed(alloc: Global, drawn: HashKeys) -> Result<bool, AllocError> {
    let tables = both(lengths(alloc, HashKeys::FIXED), lengths(alloc, drawn))?;
    let (fixed_table, drawn_table) = tables;
    let are_kept = keeps(&fixed_table, HashKeys::FIXED) && keeps(&drawn_table, drawn);
    Ok(are_kept && fixed_table == drawn_table && drawn_table == fixed_table)
}

/// Whether a set of 5 and its copy hash by these keys.
fn is_set_keyed(alloc: Global, keys: HashKeys) -> Result<bool, AllocError> {
    let mut set = KeySet::with_keys(alloc, keys);
    set.insert(5)?;
    let copy = set.clone()?;
    Ok(copy.hash_keys() == keys && copy.contains(&5))
}

#[test]
fn tables_and_sets_keep_their_keys(rt: HostRuntime) {
    let alloc = rt.alloc();
    let drawn = HashKeys::from_bytes(DRAWN);
    assert!(rt; drawn != HashKeys::FIXED && are_tables_keyed(alloc, drawn) == Ok(true));
    assert!(rt; is_set_keyed(alloc, drawn) == Ok(true));
    assert!(rt; KeySet::<u8>::new(alloc).hash_keys() == HashKeys::FIXED);
}

#[test]
fn keys_are_told_by_each_of_their_bytes_and_not_by_their_print(rt: HostRuntime) {
    let none = HashKeys::from_bytes([0; 16]);
    for place in 0..16 {
        let mut bytes = [0; 16];
        bytes[place] = 1;
        assert!(rt; HashKeys::from_bytes(bytes) != none);
    }
    assert!(rt; is_shown(rt.alloc(), &HashKeys::from_bytes(DRAWN), "HashKeys { .. }"));
}

/// A source that gives the drawn bytes, or nothing.
#[derive(Drop)]
struct Source {
    is_empty: bool,
}

impl RandomSource for Source {
    fn fill_bytes(&self, buf: &mut [u8]) -> io::Result<()> {
        if self.is_empty {
            return Err(Error::from(ErrorKind::PermissionDenied));
        }
        for (to, from) in buf.iter_mut().zip(DRAWN) {
            *to = from;
        }
        Ok(())
    }
}

/// The keys that are drawn from the source, or the kind of its error.
fn drawn_from(source: &Source) -> Result<HashKeys, ErrorKind> {
    match HashKeys::drawn(source) {
        Ok(keys) => Ok(keys),
        Err(error) => Err(error.kind()),
    }
}

#[test]
fn drawn_keys_are_those_of_the_bytes_of_the_source(rt: HostRuntime) {
    let drawn = drawn_from(&Source { is_empty: false });
    assert!(rt; drawn == Ok(HashKeys::from_bytes(DRAWN)));
}

#[test]
fn the_error_of_a_source_is_handed_on(rt: HostRuntime) {
    let drawn = drawn_from(&Source { is_empty: true });
    assert!(rt; drawn == Err(ErrorKind::PermissionDenied));
}
