//! What tables hold: a few entries, or a map of many.
ghost use Rattle.std.specs.Prelude.{◌≡◌, ◌≤◌, IfOk, IfErr};
ghost use Rattle.graphql_nodes.specs.TableEntries.{entries_held};
ghost use Rattle.indexmap.specs.IndexMap.{spare, IsEmpty};

use super::few_entries::FewEntries;
use crate::collections::hash_keys::HashKeys;
use indexmap::IndexMap;
use std::alloc::{AllocError, AllocFailed, Global};
use std::hash::Hash;

/// A map of many entries, behind a pointer, so that a table of a few takes no room for it.
pub(crate) type Map<K, V> = Box<IndexMap<K, V, HashKeys>>;

/// What a table holds. A few entries are found by comparing keys, without a hash, and take no more room than
/// they need.
#[derive(Drop)]
pub(crate) enum Held<K: Eq + Hash, V> {
    Few(FewEntries<K, V>, HashKeys),
    Many(Map<K, V>),
}

/// The most entries that are held as a few.
pub(crate) const FEW: usize = 8;

/// A map without entries, with room for so many. The error is out of memory.
pub(crate) fn map_with_room<K: Eq + Hash + Drop, V: Drop>(
    alloc: Global,
    keys: HashKeys,
    capacity: usize,
) -> Result<Map<K, V>, AllocError>
    ensures empty { IfOk result (λ map. IsEmpty map.value) }
    ensures room { IfOk result (λ map. capacity ≤ spare map.value) }
{
    let map = IndexMap::with_capacity_and_hasher(alloc, capacity, keys)?;
    Ok(Box::new(alloc, map)?)
}

impl<K: Eq + Hash + Drop, V: Drop> Held<K, V> {
    /// The entries as a map with room for so many more. The error is out of memory, and gives them back.
    pub(crate) fn into_map(self, additional: usize) -> Result<Map<K, V>, AllocFailed<Held<K, V>>>
        ensures entries { IfOk result (λ map. map.value.entries ≡ entries_held self) }
        ensures value_returned { IfErr result (λ y. entries_held y.value ≡ entries_held self) }
    {
        match self {
            Held::Few(few, keys) => {
                let capacity = few.len().saturating_add(additional);
                match map_with_room(few.allocator(), keys, capacity) {
                    Ok(mut map) => {
                        few.move_to(&mut map);
                        Ok(map)
                    }
                    Err(AllocError) => Err(AllocFailed {
                        value: Held::Few(few, keys),
                    }),
                }
            }
            Held::Many(mut map) => match map.reserve(additional) {
                Ok(()) => Ok(map),
                Err(AllocError) => Err(AllocFailed {
                    value: Held::Many(map),
                }),
            },
        }
    }
}
