//! A few keys in a list, where comparing them one by one takes less than hashing.
ghost use Rattle.std.specs.Prelude.{◌≡◌, ◌<◌, ◌≤◌, ◌^◌, [], length, position, slice_get, Some, option_map};
ghost use Rattle.std.specs.Prelude.{IfSome, not, IfOk, IfErr, OnOk, OnErr, IsFalse, false};
ghost use Rattle.std.specs.Option.{option_copied};
ghost use Rattle.std.specs.List.{find, IsDistinct};
ghost use Rattle.graphql_nodes.specs.KeySets.{insert_all, insert_key, remove_key, has_key};
ghost use Rattle.indexmap.specs.IndexSet.{spare};

use crate::collections::hash_keys::HashKeys;
use indexmap::IndexSet;
use std::alloc::{AllocError, AllocFailed, Global};
use std::hash::Hash;
use std::marker::Model;
use std::mem;

/// The most keys that are few.
const MOST_KEYS: usize = 8;

/// Keys in the order of insertion, no two equal, and what they are to hash by once they are many.
pub(crate) struct FewKeys<T: Eq> {
    keys: Vec<T>,
    hash_keys: HashKeys,
}

impl<T: Eq + Drop> Drop for FewKeys<T> {
    fn drop(self) {
        let Self {
            keys: _,
            hash_keys: _,
        } = self;
    }
}

impl<T: Eq> Model for FewKeys<T> {
    ghost use Rattle.std.specs.Prelude.{List};
    ghost use Rattle.std.specs.Coded.{coded_list};
    ghost use Rattle.std.specs.List.{IsDistinct};

    ghost Value = { List T };

    ghost coded = { coded_list T.code };

    ghost view = { λ few. few.keys.items };

    ghost invariant = { λ few. IsDistinct T.eq few.keys.items };
}

impl<T: Eq> FewKeys<T> {
    /// No key.
    pub fn new(alloc: Global, hash_keys: HashKeys) -> FewKeys<T>
        ensures { result ≡ [] }
    {
        FewKeys {
            keys: Vec::new(alloc),
            hash_keys,
        }
    }

    /// What the keys are to hash by.
    pub fn hash_keys(&self) -> HashKeys {
        self.hash_keys
    }

    /// How many keys there are.
    pub fn len(&self) -> usize
        ensures len { result ≡ length self.now }
        ensures small { result < 2 ^ 63 }
        ensures unique { IsDistinct T.eq self.now }
    {
        self.keys.len()
    }

    /// The keys, in order.
    pub fn as_slice(&self) -> &[T]
        ensures keys { result.now ≡ self.now }
        ensures unique { IsDistinct T.eq self.now }
    {
        self.keys.as_slice()
    }

    /// The place of the key equal to this one, if there is one.
    pub fn get_index_of(&self, key: &T) -> Option<usize>
        ensures { result ≡ position (T.eq key.now) self.now }
    {
        self.keys.iter().position(|there| key == there)
    }

    /// The place of the key equal to this one, and the key that is there, if there is one.
    pub fn get_full(&self, key: &T) -> Option<(usize, &T)>
        ensures place { option_map (λ k. k.0) result ≡ position (T.eq key.now) self.now }
        ensures key { option_map (λ k. k.1.now) result ≡ find (T.eq key.now) self.now }
        ensures stored { IfSome result (λ k. slice_get self.now k.0 ≡ Some k.1.now) }
    {
        let place = self.get_index_of(key)?;
        Some((place, &self.keys[place]))
    }

    /// The key that is there and equal to this one, if there is one.
    pub fn get(&self, key: &T) -> Option<&T>
        ensures { option_copied result ≡ find (T.eq key.now) self.now }
    {
        let (_, there) = self.get_full(key)?;
        Some(there)
    }

    /// Whether a key equal to this one is there.
    pub fn contains(&self, key: &T) -> bool
        ensures { result ≡ has_key (T.eq key.now) self.now }
    {
        self.keys.iter().any(|there| key == there)
    }

    /// Whether the keys stay few once this one is inserted.
    pub fn has_place_for(&self, key: &T) -> bool
        ensures { IsFalse result → has_key (T.eq key.now) self.now ≡ false }
    {
        self.keys.len() < MOST_KEYS || self.contains(key)
    }
}

impl<T: Eq + Drop> FewKeys<T> {
    /// Puts the key last, or leaves the equal one that is there. Answers whether there was none.
    ///
    /// The error is out of memory, which only a new key meets. It gives the key back, and leaves the keys as
    /// they were.
    pub fn insert(&mut self, key: T) -> Result<bool, AllocFailed<T>>
        ensures added { IfOk result (λ added. added ≡ not (has_key (T.eq key) self.old)) }
        ensures keys { OnOk result (self.new ≡ insert_key T.eq self.old key) }
        ensures value_returned { IfErr result (λ y. y.value ≡ key) }
        ensures err { OnErr result (self.new ≡ self.old) }
        ensures absent { OnErr result (has_key (T.eq key) self.old ≡ false) }
        ensures unique { IsDistinct T.eq self.new }
    {
        if self.contains(&key) {
            return Ok(false);
        }
        self.keys.push(key)?;
        Ok(true)
    }

    /// Takes out the key equal to this one. Those after it move up. Answers whether there was one.
    pub fn shift_remove(&mut self, key: &T) -> bool
        ensures found { result ≡ has_key (T.eq key.now) self.old }
        ensures keys { self.new ≡ remove_key (T.eq key.now) self.old }
        ensures unique { IsDistinct T.eq self.new }
    {
        match self.get_index_of(key) {
            Some(place) => {
                let _removed = self.keys.remove(place);
                true
            }
            None => false,
        }
    }

    /// Moves the keys to an `IndexSet` with room for one more. The error is out of memory, and leaves the
    /// keys as they were.
    pub fn move_to_index_set(&mut self) -> Result<Box<IndexSet<T, HashKeys>>, AllocError>
    where
        T: Hash,
        ensures keys { IfOk result (λ set. set.value.keys ≡ self.old) }
        ensures emptied { OnOk result (self.new ≡ []) }
        ensures err { OnErr result (self.new ≡ self.old) }
        ensures unique { IsDistinct T.eq self.new }
    {
        let alloc = *self.keys.allocator();
        let room = self.keys.len() + 1;
        let empty = IndexSet::with_capacity_and_hasher(alloc, room, self.hash_keys)?;
        let mut set = Box::new(alloc, empty)?;
        let keys = mem::replace(&mut self.keys, Vec::new(alloc));
        put_each(&mut set, keys);
        Ok(set)
    }
}

/// Puts each of the keys last in turn, or leaves the set as it was at one that is there.
fn put_each<T: Eq + Hash + Drop>(set: &mut IndexSet<T, HashKeys>, keys: Vec<T>)
    requires { length keys.items ≤ spare set.old }
    ensures { set.new.keys ≡ insert_all T.eq set.old.keys keys.items }
{
    for key in keys {
        set.insert(key).unwrap();
    }
}

impl<T: Eq + Clone + Drop> Clone for FewKeys<T> {
    ghost use Rattle.std.specs.List.{AllZip};

    ghost is_clone = { AllZip T.is_clone };

    /// The keys' clones. The error is out of memory, or a clone that isn't equal to its key.
    fn clone(&self) -> Result<FewKeys<T>, AllocError> {
        let keys = self.keys.clone()?;
        if keys != self.keys {
            return Err(AllocError);
        }
        Ok(FewKeys {
            keys,
            hash_keys: self.hash_keys,
        })
    }
}
