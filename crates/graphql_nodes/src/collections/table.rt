//! Maps in the order of insertion.
ghost use Rattle.std.specs.Prelude.{◌≡◌, ◌==◌, ◌<◌, ◌+◌, ◌^◌, [], length, position, slice_get};
ghost use Rattle.std.specs.Prelude.{Some, None, IfSome, IfOk, IfErr, OnOk, OnErr, is_some};
ghost use Rattle.std.specs.Prelude.{option_map};
ghost use Rattle.std.specs.Borrow.{sem};
ghost use Rattle.std.specs.Cmp;
ghost use Rattle.std.specs.Cmp.{partial_equiv_from_equiv};
ghost use Rattle.std.specs.HashMap.Eq.{hash_map_eq_symm, hash_map_eq_trans, hash_map_eq_refl};
ghost use Rattle.std.specs.Map.Iter.{ShowsInOrder, ShowsValuesInOrder, deref, deref_pair};
ghost use Rattle.std.specs.List.{list_all};
ghost use Rattle.std.specs.Option.{option_copied, option_copied_mut, option_eq};
ghost use Rattle.graphql_nodes.specs.Tables.{keys_of, values_of, lookup, lookup_key, set_value, remove_entry};
ghost use Rattle.graphql_nodes.specs.Tables.{insert_entry, insert_all, set_value_at, as_map, table_eq};
ghost use Rattle.graphql_nodes.specs.Tables.{HasUniqueKeys, IsTableClone};

pub(crate) mod few_entries;
pub(crate) mod held;
pub mod iter;

use crate::collections::elements::Elements;
use crate::collections::hash_keys::HashKeys;
use few_entries::FewEntries;
use held::{FEW, Held, Map, map_with_room};
use indexmap::IndexMap;
use iter::Iter;
use std::alloc::{AllocError, AllocFailed, Global};
use std::fmt;
use std::hash::Hash;
use std::marker::Model;
use std::mem::replace;

/// A map in the order of insertion, which contracts see as the list of its entries. They see nothing of the
/// keys that it hashes by, nor that up to eight entries are found by comparing keys: only more are hashed.
///
/// Tables are equal where they have equal values under the same keys, in any order.
pub struct Table<K: Eq + Hash, V> {
    held: Held<K, V>,
}

impl<K: Eq + Hash + Drop, V: Drop> Drop for Table<K, V> {
    fn drop(self) {
        let Self { held: _ } = self;
    }
}

impl<K: Eq + Hash, V> Model for Table<K, V> {
    ghost use Rattle.std.specs.Prelude.{List};
    ghost use Rattle.std.specs.Coded.{coded_list, coded×};

    ghost Value = { List (K × V) };

    ghost coded = { coded_list (coded× K.code V.code) };

    ghost use Rattle.graphql_nodes.specs.TableEntries.{entries_held};

    ghost view = { λ t. entries_held t.held };
}

impl<K: Eq + Hash, V> Table<K, V> {
    ghost use Rattle.graphql_nodes.specs.TableLending.{LendsEntry, LendsPlace};

    /// No entry. The table hashes by fixed keys: for one that strangers fill, take
    /// [`with_keys`](Table::with_keys).
    pub fn new(alloc: Global) -> Table<K, V>
        ensures { result ≡ [] }
    {
        Table::with_keys(alloc, HashKeys::FIXED)
    }

    /// No entry. The table hashes by these keys, and so do its clones.
    pub fn with_keys(alloc: Global, keys: HashKeys) -> Table<K, V>
        ensures { result ≡ [] }
    {
        Table {
            held: Held::Few(FewEntries::new(alloc), keys),
        }
    }

    /// The keys that the table hashes by, for a table that is made beside it.
    pub fn hash_keys(&self) -> HashKeys {
        match &self.held {
            Held::Few(_, keys) => *keys,
            Held::Many(map) => *map.hasher(),
        }
    }

    /// The allocator that the table takes its memory from.
    pub fn allocator(&self) -> Global {
        match &self.held {
            Held::Few(few, _) => few.allocator(),
            Held::Many(map) => *map.allocator(),
        }
    }

    /// The entries of the map, in order. No two keys are equal. The table keeps the map in its box, and takes
    /// no memory.
    pub fn from_index_map(map: Box<IndexMap<K, V, HashKeys>>) -> Table<K, V>
        ensures entries { result ≡ map.value.entries }
        ensures unique { HasUniqueKeys K.eq result }
    {
        let _len = map.len();
        Table {
            held: Held::Many(map),
        }
    }

    /// How many entries there are.
    pub fn len(&self) -> usize
        ensures len { result ≡ length self.now }
        ensures small { result < 2 ^ 63 }
        ensures unique { HasUniqueKeys K.eq self.now }
    {
        match &self.held {
            Held::Few(few, _) => few.len(),
            Held::Many(map) => map.len(),
        }
    }

    /// Whether there is no entry.
    pub fn is_empty(&self) -> bool
        ensures { result ≡ (length self.now == 0) }
    {
        self.len() == 0
    }

    /// The value at the key, if there is one.
    pub fn get(&self, key: &K) -> Option<&V>
        ensures { option_copied result ≡ lookup (K.eq key.now) self.now }
    {
        match &self.held {
            Held::Few(few, _) => few.get(key),
            Held::Many(map) => map.get(key),
        }
    }

    /// The key that is there, with its value, if there is an entry with the key.
    pub fn get_key_value(&self, key: &K) -> Option<(&K, &V)>
        ensures key { option_map (λ e. e.0.now) result ≡ lookup_key (K.eq key.now) self.now }
        ensures value { option_map (λ e. e.1.now) result ≡ lookup (K.eq key.now) self.now }
    {
        let (_, key, value) = self.get_full(key)?;
        Some((key, value))
    }

    /// Whether there is an entry with the key.
    pub fn contains_key(&self, key: &K) -> bool
        ensures { result ≡ is_some (lookup (K.eq key.now) self.now) }
    {
        self.get(key).is_some()
    }

    /// The value at the key, to write to, if there is one. When the loan ends, the entry has what was
    /// written, and its key and the rest of the table are as they were.
    #[tactic(auto, using(crate::proofs::TableLemmas::as_found))]
    pub fn get_mut(&mut self, key: &K) -> Option<&mut V>
        ensures* writes_back { sem 𝓛 (LendsEntry K.row V.row K.Hash self.entry (K.eq key.now) result) }
        ensures value { option_copied_mut result ≡ lookup (K.eq key.now) self.old }
        ensures as_found { IfSome result (λ x. set_value (K.eq key.now) self.old x.now ≡ self.old) }
    {
        match &mut self.held {
            Held::Few(few, _) => few.get_mut(key),
            Held::Many(map) => map.get_mut(key),
        }
    }

    /// The place of the entry with the key, if there is one.
    pub fn get_index_of(&self, key: &K) -> Option<usize>
        ensures { result ≡ position (K.eq key.now) (keys_of self.now) }
    {
        match &self.held {
            Held::Few(few, _) => few.place_of(key),
            Held::Many(map) => map.get_index_of(key),
        }
    }

    /// The place of the entry with the key, the key that is there, and its value, if there is such an entry.
    pub fn get_full(&self, key: &K) -> Option<(usize, &K, &V)>
        ensures place { option_map (λ e. e.0) result ≡ position (K.eq key.now) (keys_of self.now) }
        ensures key { option_map (λ e. e.1.now) result ≡ lookup_key (K.eq key.now) self.now }
        ensures value { option_map (λ e. e.2.now) result ≡ lookup (K.eq key.now) self.now }
        ensures entry { IfSome result (λ e. slice_get self.now e.0 ≡ Some (e.1.now, e.2.now)) }
    {
        match &self.held {
            Held::Few(few, _) => few.get_full(key),
            Held::Many(map) => map.get_full(key),
        }
    }

    /// The entry at a place, if there is one.
    pub fn get_index(&self, index: usize) -> Option<(&K, &V)>
        ensures { option_map deref_pair result ≡ slice_get self.now index }
    {
        self.entry_at(index)
    }

    /// The entry at a place, if there is one, which is the one with its key.
    fn entry_at(&self, index: usize) -> Option<(&K, &V)>
        ensures entry { option_map deref_pair result ≡ slice_get self.now index }
        ensures value { IfSome result (λ e. lookup (K.eq e.0.now) self.now ≡ Some e.1.now) }
    {
        match &self.held {
            Held::Few(few, _) => few.get_index(index),
            Held::Many(map) => map.get_index(index),
        }
    }

    /// The value at a place, to write to, if there is an entry. When the loan ends, the entry has what was
    /// written, and its key and the rest of the table are as they were.
    #[tactic(auto, using(crate::proofs::TableLemmas::as_found_at))]
    pub fn get_index_mut(&mut self, index: usize) -> Option<&mut V>
        ensures* writes_back { sem 𝓛 (LendsPlace K.row V.row K.Hash self.entry index result) }
        ensures value { option_copied_mut result ≡ slice_get (values_of self.old) index }
        ensures as_found { IfSome result (λ x. set_value_at self.old index x.now ≡ self.old) }
    {
        match &mut self.held {
            Held::Few(few, _) => few.get_index_mut(index),
            Held::Many(map) => map.get_index_mut(index),
        }
    }

    /// The first entry, if there is one.
    pub fn first(&self) -> Option<(&K, &V)>
        ensures { option_map deref_pair result ≡ slice_get self.now 0 }
    {
        self.get_index(0)
    }

    /// The keys, in order.
    fn key_slice(&self) -> &[K]
        ensures keys { result.now ≡ keys_of self.now }
        ensures unique { HasUniqueKeys K.eq self.now }
        ensures fits { length self.now < 2 ^ 63 }
    {
        match &self.held {
            Held::Few(few, _) => few.keys(),
            Held::Many(map) => map.keys().as_slice(),
        }
    }

    /// The values, in the order of their keys.
    fn value_slice(&self) -> &[V]
        ensures values { result.now ≡ values_of self.now }
        ensures fits { length self.now < 2 ^ 63 }
    {
        match &self.held {
            Held::Few(few, _) => few.values(),
            Held::Many(map) => map.values().as_slice(),
        }
    }

    /// The entries, one by one, in order.
    #[tactic(auto, using(crate::proofs::TableLemmas::as_columns))]
    pub fn iter(&self) -> Iter<'_, K, V>
        ensures rest { result ≡ self.now }
        ensures runs { ShowsInOrder (deref_pair {K = K} {X = V}) }
        ensures values_run { ShowsValuesInOrder (deref_pair {K = K} {X = V}) }
        ensures unique { HasUniqueKeys K.eq self.now }
        ensures fits { length self.now < 2 ^ 63 }
    {
        Iter::of(self.key_slice(), self.value_slice())
    }

    /// The keys, one by one, in order.
    pub fn keys(&self) -> Elements<'_, K>
        ensures rest { result ≡ keys_of self.now }
        ensures runs { ShowsInOrder (deref {X = K}) }
        ensures unique { HasUniqueKeys K.eq self.now }
        ensures fits { length self.now < 2 ^ 63 }
    {
        Elements::of(self.key_slice())
    }

    /// The values, one by one, in order.
    pub fn values(&self) -> Elements<'_, V>
        ensures rest { result ≡ values_of self.now }
        ensures runs { ShowsInOrder (deref {X = V}) }
        ensures fits { length self.now < 2 ^ 63 }
    {
        Elements::of(self.value_slice())
    }

    /// The value at the key, if there is one, as [`get`](Table::get) finds it. No hash is made if its entry
    /// stands at the place.
    fn get_from(&self, place: usize, key: &K) -> Option<&V>
        ensures { option_copied result ≡ lookup (K.eq key.now) self.now }
    {
        match self.entry_at(place) {
            Some((there, value)) if key == there => Some(value),
            _ => self.get(key),
        }
    }

    /// Whether an equal value stands at the key. No hash is made if its entry stands at the place.
    fn has_from(&self, place: usize, key: &K, value: &V) -> bool
    where
        V: PartialEq,
        ensures { result ≡ option_eq V.eq (Some value.now) (lookup (K.eq key.now) self.now) }
    {
        match self.get_from(place, key) {
            Some(there) => value == there,
            None => false,
        }
    }

    /// Whether the other table has an equal value at each key of this one. That takes no hash where both have
    /// their keys in one order.
    fn has_its_values_in(&self, other: &Table<K, V>) -> bool
    where
        V: PartialEq,
        ensures { result
            ≡ list_all (λ k. option_eq V.eq (lookup (K.eq k) self.now) (lookup (K.eq k) other.now))
            (keys_of self.now) }
    {
        for place in 0..self.len() {
            let Some((key, value)) = self.entry_at(place) else {
                break;
            };
            if !other.has_from(place, key, value) {
                return false;
            }
        }
        true
    }
}

impl<K: Eq + Hash + Drop, V: Drop> Table<K, V> {
    /// No entry, with room for so many. The table hashes by these keys. The error is out of memory.
    pub fn with_capacity(
        alloc: Global,
        keys: HashKeys,
        capacity: usize,
    ) -> Result<Table<K, V>, AllocError>
        ensures { IfOk result (λ table. table ≡ []) }
    {
        let held = if capacity > FEW {
            Held::Many(map_with_room(alloc, keys, capacity)?)
        } else {
            Held::Few(FewEntries::with_capacity(alloc, capacity)?, keys)
        };
        Ok(Table { held })
    }

    /// The entries as an `IndexMap`. The error is out of memory, which only a table of a few entries meets.
    pub fn into_index_map(self) -> Result<IndexMap<K, V, HashKeys>, AllocError>
        ensures { IfOk result (λ map. map.entries ≡ self) }
    {
        let Table { held } = self;
        Ok(Box::into_inner(held.into_map(0)?))
    }

    /// Takes the entries out as a map with room for so many more. The error is out of memory, after which
    /// they are still there.
    fn take_map(&mut self, additional: usize) -> Result<Map<K, V>, AllocError>
        ensures taken { IfOk result (λ map. map.value.entries ≡ self.old) }
        ensures emptied { OnOk result (self.new ≡ []) }
        ensures err { OnErr result (self.new ≡ self.old) }
    {
        let empty = Held::Few(FewEntries::new(self.allocator()), self.hash_keys());
        match replace(&mut self.held, empty).into_map(additional) {
            Ok(map) => Ok(map),
            Err(AllocFailed { value }) => {
                self.held = value;
                Err(AllocError)
            }
        }
    }

    /// Puts the value at the key. An equal key that is there stays, in its place, and a new one goes last.
    /// Answers the value that stood there, if one did.
    ///
    /// The error is out of memory, which only a new key meets. It gives the key and the value back, and
    /// leaves the table as it was.
    pub fn insert(&mut self, key: K, value: V) -> Result<Option<V>, AllocFailed<(K, V)>>
        ensures old { IfOk result (λ old. old ≡ lookup (K.eq key) self.old) }
        ensures entries { OnOk result (self.new ≡ insert_entry K.eq self.old key value) }
        ensures value_returned { IfErr result (λ y. y.value ≡ (key, value)) }
        ensures err { OnErr result (self.new ≡ self.old) }
        ensures absent { OnErr result (lookup (K.eq key) self.old ≡ None) }
        ensures unique { HasUniqueKeys K.eq self.new }
    {
        if self.is_full_of_few() && !self.contains_key(&key) && self.hold_many(FEW).is_err() {
            return Err(AllocFailed {
                value: (key, value),
            });
        }
        match &mut self.held {
            Held::Few(few, _) => few.insert(key, value),
            Held::Many(map) => map.insert(key, value),
        }
    }

    /// Whether the next new key asks for a map.
    fn is_full_of_few(&self) -> bool
        ensures unique { HasUniqueKeys K.eq self.now }
    {
        let len = self.len();
        match &self.held {
            Held::Few(_, _) => len >= FEW,
            Held::Many(_) => false,
        }
    }

    /// Holds the entries in a map, with room for so many more. The error is out of memory, and the entries
    /// are the same in each case.
    fn hold_many(&mut self, additional: usize) -> Result<(), AllocError>
        ensures { self.new ≡ self.old }
    {
        let map = self.take_map(additional)?;
        self.held = Held::Many(map);
        Ok(())
    }

    /// Inserts each entry of the other table in turn, as [`insert`](Table::insert) does. The other table is
    /// then empty.
    ///
    /// The error is out of memory, and leaves both tables as they were.
    pub fn append(&mut self, other: &mut Table<K, V>) -> Result<(), AllocError>
        ensures entries { OnOk result (self.new ≡ insert_all K.eq self.old other.old) }
        ensures emptied { OnOk result (other.new ≡ []) }
        ensures err { OnErr result (self.new ≡ self.old) }
        ensures other_err { OnErr result (other.new ≡ other.old) }
        ensures unique { OnOk result (HasUniqueKeys K.eq self.new) }
    {
        let mut map = self.take_map(other.len())?;
        let mut others = match other.take_map(0) {
            Ok(others) => others,
            Err(refused) => {
                self.held = Held::Many(map);
                return Err(refused);
            }
        };
        let appended = map.append(&mut others);
        self.held = Held::Many(map);
        other.held = Held::Many(others);
        appended
    }

    /// Takes out the entry with the key, if there is one. Those after it move up. Answers its value.
    pub fn shift_remove(&mut self, key: &K) -> Option<V>
        ensures value { result ≡ lookup (K.eq key.now) self.old }
        ensures entries { self.new ≡ remove_entry (K.eq key.now) self.old }
        ensures unique { HasUniqueKeys K.eq self.new }
    {
        match &mut self.held {
            Held::Few(few, _) => few.shift_remove(key),
            Held::Many(map) => map.shift_remove(key),
        }
    }
}

impl<K: Eq + Hash + fmt::Debug, V: fmt::Debug> fmt::Debug for Table<K, V> {
    fn fmt<W: fmt::Write>(&self, f: &mut fmt::Formatter<W>) -> fmt::Result {
        f.debug_map().entries(self.iter()).finish()
    }
}

impl<K: Eq + Hash, V: PartialEq> PartialEq for Table<K, V> {
    ghost eq = { table_eq K.eq V.eq };

    ghost laws = { let v = V.laws in
        record {
          symm = λ a b. hash_map_eq_symm K.eq V.eq v.symm (as_map a) (as_map b);
          trans = λ a b c. hash_map_eq_trans K.eq V.eq K.Eq.laws v.trans (as_map a) (as_map b) (as_map c);
        } };

    #[tactic(auto, using(crate::proofs::SameLength::tables_by_length))]
    fn eq(&self, other: &Table<K, V>) -> bool {
        self.len() == other.len() && self.has_its_values_in(other)
    }
}

impl<K: Eq + Hash, V: Eq> Eq for Table<K, V> {
    ghost laws = { let v = V.Eq.laws in
        Cmp.equiv (record {
          symm = λ a b. hash_map_eq_symm K.eq V.eq v.symm (as_map a) (as_map b);
          trans = λ a b c.
              hash_map_eq_trans K.eq V.eq K.Eq.laws (partial_equiv_from_equiv v).trans (as_map a) (as_map b)
              (as_map c);
        }) (λ a. hash_map_eq_refl K.eq V.eq v.refl (as_map a)) };
}

impl<K: Eq + Hash + Clone + Drop, V: Clone + Drop> Clone for Table<K, V> {
    ghost is_clone = { IsTableClone K.is_clone V.is_clone };

    /// A table of clones. Where clones of the keys and the values are the originals, it has the same entries
    /// in the same order. The error is out of memory.
    #[tactic(auto, using(crate::proofs::TableLemmas::exact_clones))]
    fn clone(&self) -> Result<Table<K, V>, AllocError> {
        let held = match &self.held {
            Held::Few(few, keys) => Held::Few(few.try_clone()?, *keys),
            Held::Many(map) => Held::Many(map.clone()?),
        };
        Ok(Table { held })
    }
}
