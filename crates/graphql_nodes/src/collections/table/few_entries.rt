//! A few entries, found by comparing one key after another.
ghost use Rattle.std.specs.Prelude.{◌≡◌, ◌<◌, ◌≤◌, ◌^◌, [], ◌∷◌, ◌++◌, length, position, slice_get};
ghost use Rattle.std.specs.Prelude.{Some, None, IfSome, IfOk, IfErr, OnOk, OnErr};
ghost use Rattle.std.specs.Borrow.{sem};
ghost use Rattle.std.specs.Prelude.{option_map};
ghost use Rattle.std.specs.Map.Iter.{deref_pair};
ghost use Rattle.std.specs.Option.{option_copied, option_copied_mut};
ghost use Rattle.graphql_nodes.specs.Tables.{keys_of, values_of, lookup, lookup_key, remove_entry};
ghost use Rattle.graphql_nodes.specs.Tables.{insert_entry, set_value_at, HasUniqueKeys, AreClones};
ghost use Rattle.indexmap.specs.IndexMap.{spare, IsEmpty};

use crate::collections::hash_keys::HashKeys;
use indexmap::IndexMap;
use std::alloc::{AllocError, AllocFailed, Global};
use std::hash::Hash;
use std::marker::Model;
use std::mem::replace;

/// Entries in the order of insertion, which contracts see as their list. No two keys are equal.
pub(crate) struct FewEntries<K: Eq, V> {
    keys: Vec<K>,
    values: Vec<V>,
}

impl<K: Eq + Drop, V: Drop> Drop for FewEntries<K, V> {
    fn drop(self) {
        let Self { keys: _, values: _ } = self;
    }
}

impl<K: Eq, V> Model for FewEntries<K, V> {
    ghost use Rattle.std.specs.Prelude.{◌≡◌, List, length, zip};
    ghost use Rattle.std.specs.Coded.{coded_list, coded×};
    ghost use Rattle.std.specs.List.{IsDistinct};

    ghost Value = { List (K × V) };

    ghost coded = { coded_list (coded× K.code V.code) };

    ghost view = { λ it. zip it.keys.items it.values.items };

    ghost invariant = { λ it. (length it.values.items ≡ length it.keys.items)
        × IsDistinct K.eq it.keys.items };
}

impl<K: Eq, V> FewEntries<K, V> {
    ghost use Rattle.graphql_nodes.specs.TableLending.{LendsFewEntry, LendsFewPlace};

    /// No entry.
    pub(crate) fn new(alloc: Global) -> FewEntries<K, V>
        ensures { result ≡ [] }
    {
        FewEntries {
            keys: Vec::new(alloc),
            values: Vec::new(alloc),
        }
    }

    /// The allocator of the entries.
    pub(crate) fn allocator(&self) -> Global {
        *self.keys.allocator()
    }

    /// The keys, in order.
    pub(crate) fn keys(&self) -> &[K]
        ensures keys { result.now ≡ keys_of self.now }
        ensures small { length self.now < 2 ^ 63 }
        ensures unique { HasUniqueKeys K.eq self.now }
    {
        self.keys.as_slice()
    }

    /// The values, in the order of their keys.
    pub(crate) fn values(&self) -> &[V]
        ensures values { result.now ≡ values_of self.now }
        ensures small { length self.now < 2 ^ 63 }
    {
        self.values.as_slice()
    }

    /// How many entries there are.
    pub(crate) fn len(&self) -> usize
        ensures len { result ≡ length self.now }
        ensures small { result < 2 ^ 63 }
        ensures unique { HasUniqueKeys K.eq self.now }
    {
        self.keys().len()
    }

    /// The place of the key, if there is an entry with it.
    pub(crate) fn place_of(&self, key: &K) -> Option<usize>
        ensures place { result ≡ position (K.eq key.now) (keys_of self.now) }
        ensures unique { HasUniqueKeys K.eq self.now }
    {
        self.keys().iter().position(|there| key == there)
    }

    /// The entry at a place, if there is one, which is the one with its key.
    pub(crate) fn get_index(&self, place: usize) -> Option<(&K, &V)>
        ensures entry { option_map deref_pair result ≡ slice_get self.now place }
        ensures value { IfSome result (λ e. lookup (K.eq e.0.now) self.now ≡ Some e.1.now) }
    {
        let _len = self.len();
        self.pair_at(place)
    }

    /// The key and the value at a place, if there is an entry.
    fn pair_at(&self, place: usize) -> Option<(&K, &V)>
        ensures { option_map deref_pair result ≡ slice_get self.now place }
    {
        Some((self.keys().get(place)?, self.values().get(place)?))
    }

    /// The entry with the key, if there is one, and its place.
    pub(crate) fn get_full(&self, key: &K) -> Option<(usize, &K, &V)>
        ensures place { option_map (λ e. e.0) result ≡ position (K.eq key.now) (keys_of self.now) }
        ensures key { option_map (λ e. e.1.now) result ≡ lookup_key (K.eq key.now) self.now }
        ensures value { option_map (λ e. e.2.now) result ≡ lookup (K.eq key.now) self.now }
        ensures entry { IfSome result (λ e. slice_get self.now e.0 ≡ Some (e.1.now, e.2.now)) }
    {
        let place = self.place_of(key)?;
        let (key, value) = self.get_index(place)?;
        Some((place, key, value))
    }

    /// The value at the key, if there is one.
    pub(crate) fn get(&self, key: &K) -> Option<&V>
        ensures { option_copied result ≡ lookup (K.eq key.now) self.now }
    {
        let (_, _, value) = self.get_full(key)?;
        Some(value)
    }

    /// The value at a place, to write to, if there is an entry.
    pub(crate) fn get_index_mut(&mut self, place: usize) -> Option<&mut V>
        ensures* writes_back { sem 𝓛 (LendsFewPlace K.row V.row K.Eq self.entry place result) }
        ensures value { option_copied_mut result ≡ slice_get (values_of self.old) place }
    {
        self.values.get_mut(place)
    }

    /// The value at the key, to write to, if there is one.
    pub(crate) fn get_mut(&mut self, key: &K) -> Option<&mut V>
        ensures* writes_back { sem 𝓛 (LendsFewEntry K.row V.row K.Eq self.entry (K.eq key.now) result) }
        ensures value { option_copied_mut result ≡ lookup (K.eq key.now) self.old }
    {
        let place = self.place_of(key)?;
        self.get_index_mut(place)
    }

    /// Puts a value at a place, and answers the one that stood there.
    fn replace_value(&mut self, place: usize, value: V) -> V
        requires { place < length self.old }
        ensures took { slice_get (values_of self.old) place ≡ Some result }
        ensures entries { self.new ≡ set_value_at self.old place value }
    {
        replace(&mut self.values[place], value)
    }

    /// Adds an entry at the end. The error is out of memory: it gives the entry back, and nothing changes.
    fn push(&mut self, key: K, value: V) -> Result<(), AllocFailed<(K, V)>>
        requires { position (K.eq key) (keys_of self.old) ≡ None }
        ensures pushed { OnOk result (self.new ≡ self.old ++ (key, value) ∷ []) }
        ensures value_returned { IfErr result (λ y. y.value ≡ (key, value)) }
        ensures err { OnErr result (self.new ≡ self.old) }
    {
        if self.keys.reserve(1).is_err() || self.values.reserve(1).is_err() {
            return Err(AllocFailed {
                value: (key, value),
            });
        }
        self.keys.push_reserved(key);
        self.values.push_reserved(value);
        Ok(())
    }

    /// Puts the value at the key, as [`Table::insert`](super::Table::insert) does.
    pub(crate) fn insert(&mut self, key: K, value: V) -> Result<Option<V>, AllocFailed<(K, V)>>
    where
        K: Drop,
        ensures old { IfOk result (λ old. old ≡ lookup (K.eq key) self.old) }
        ensures entries { OnOk result (self.new ≡ insert_entry K.eq self.old key value) }
        ensures value_returned { IfErr result (λ y. y.value ≡ (key, value)) }
        ensures err { OnErr result (self.new ≡ self.old) }
        ensures absent { OnErr result (lookup (K.eq key) self.old ≡ None) }
        ensures unique { HasUniqueKeys K.eq self.new }
    {
        match self.place_of(&key) {
            Some(place) => Ok(Some(self.replace_value(place, value))),
            None => {
                self.push(key, value)?;
                Ok(None)
            }
        }
    }

    /// Takes out the entry with the key, as [`Table::shift_remove`](super::Table::shift_remove) does.
    pub(crate) fn shift_remove(&mut self, key: &K) -> Option<V>
    where
        K: Drop,
        ensures value { result ≡ lookup (K.eq key.now) self.old }
        ensures entries { self.new ≡ remove_entry (K.eq key.now) self.old }
        ensures unique { HasUniqueKeys K.eq self.new }
    {
        let place = self.place_of(key)?;
        let _key = self.keys.remove(place);
        Some(self.values.remove(place))
    }

    /// Moves the entries into a map that is empty and has room for them.
    pub(crate) fn move_to(self, map: &mut IndexMap<K, V, HashKeys>)
    where
        K: Hash + Drop,
        V: Drop,
        requires empty { IsEmpty map.old }
        requires room { length self ≤ spare map.old }
        ensures { map.new.entries ≡ self }
    {
        let FewEntries { keys, values } = self;
        let mut keys = keys.into_iter();
        let mut values = values.into_iter();
        while let (Some(key), Some(value)) = (keys.next(), values.next()) {
            let _none = map.insert(key, value).unwrap();
        }
    }
}

impl<K: Eq, V> FewEntries<K, V> {
    /// No entry, with room for so many. The error is out of memory.
    pub(crate) fn with_capacity(
        alloc: Global,
        capacity: usize,
    ) -> Result<FewEntries<K, V>, AllocError>
    where
        K: Drop,
        ensures { IfOk result (λ it. it ≡ []) }
    {
        let keys = Vec::with_capacity(alloc, capacity)?;
        let values = Vec::with_capacity(alloc, capacity)?;
        Ok(FewEntries { keys, values })
    }

    /// Clones of the entries, in order. The error is out of memory, or that a clone of a key differs from it:
    /// no law forbids that.
    pub(crate) fn try_clone(&self) -> Result<FewEntries<K, V>, AllocError>
    where
        K: Clone + Drop,
        V: Clone + Drop,
        ensures { IfOk result (λ it. AreClones K.is_clone V.is_clone self.now it) }
    {
        let keys = self.keys.clone()?;
        if keys != self.keys {
            return Err(AllocError);
        }
        let values = self.values.clone()?;
        Ok(FewEntries { keys, values })
    }
}
