//! Sets in the order of insertion.
ghost use Rattle.std.specs.Prelude.{◌≡◌, ◌==◌, ◌<◌, ◌^◌, [], length, position, slice_get, Some, option_map};
ghost use Rattle.std.specs.Prelude.{IfSome, not, IfOk, IfErr, OnOk, OnErr, true, false};
ghost use Rattle.std.specs.Cmp;
ghost use Rattle.std.specs.Option.{option_copied};
ghost use Rattle.std.specs.Map.Iter.{ShowsInOrder, deref};
ghost use Rattle.std.specs.List.{find, list_all, IsDistinct};
ghost use Rattle.graphql_nodes.specs.KeySets.{set_eq, set_eq_equiv, insert_key, remove_key, has_key};
ghost use Rattle.graphql_nodes.specs.KeySets.{IsSetClone};

mod few_keys;

use crate::collections::elements::Elements;
use crate::collections::hash_keys::HashKeys;
use few_keys::FewKeys;
use indexmap::IndexSet;
use std::alloc::{AllocError, AllocFailed, Global};
use std::fmt;
use std::hash::Hash;
use std::marker::Model;

/// A set in the order of insertion, which contracts see as the list of its keys. They see nothing of the keys
/// that it hashes by, nor that up to eight keys are compared one by one, and only more are hashed.
///
/// Sets are equal where they have the same keys, in any order.
pub struct KeySet<T: Eq + Hash> {
    held: Held<T>,
}

/// Where a set keeps its keys. Many never become few again. They stand behind a pointer, so that few take no
/// room for them.
#[derive(Drop)]
enum Held<T: Eq + Hash> {
    Few(FewKeys<T>),
    Many(Box<IndexSet<T, HashKeys>>),
}

impl<T: Eq + Hash + Drop> Drop for KeySet<T> {
    fn drop(self) {
        let Self { held: _ } = self;
    }
}

impl<T: Eq + Hash> Model for KeySet<T> {
    ghost use Rattle.std.specs.Prelude.{List};
    ghost use Rattle.std.specs.Coded.{coded_list};

    ghost Value = { List T };

    ghost coded = { coded_list T.code };

    ghost use Rattle.graphql_nodes.specs.HeldKeys.{held_keys};

    ghost view = { λ s. held_keys s.held };
}

impl<T: Eq + Hash> KeySet<T> {
    /// No key. The set hashes by fixed keys: for one that strangers fill, take
    /// [`with_keys`](KeySet::with_keys).
    pub fn new(alloc: Global) -> KeySet<T>
        ensures { result ≡ [] }
    {
        KeySet::with_keys(alloc, HashKeys::FIXED)
    }

    /// No key. The set hashes by these keys, and so do its clones.
    pub fn with_keys(alloc: Global, keys: HashKeys) -> KeySet<T>
        ensures { result ≡ [] }
    {
        KeySet {
            held: Held::Few(FewKeys::new(alloc, keys)),
        }
    }

    /// The keys that the set hashes by, for a set that is made beside it.
    pub fn hash_keys(&self) -> HashKeys {
        match &self.held {
            Held::Few(few) => few.hash_keys(),
            Held::Many(set) => *set.hasher(),
        }
    }

    /// The keys of the set, in order. No two are equal. The set is kept in its box, and no memory is taken.
    pub fn from_index_set(set: Box<IndexSet<T, HashKeys>>) -> KeySet<T>
        ensures keys { result ≡ set.value.keys }
        ensures unique { IsDistinct T.eq result }
    {
        let _len = set.len();
        KeySet {
            held: Held::Many(set),
        }
    }

    /// How many keys there are.
    pub fn len(&self) -> usize
        ensures len { result ≡ length self.now }
        ensures small { result < 2 ^ 63 }
        ensures unique { IsDistinct T.eq self.now }
    {
        match &self.held {
            Held::Few(few) => few.len(),
            Held::Many(set) => set.len(),
        }
    }

    /// Whether there is no key.
    pub fn is_empty(&self) -> bool
        ensures { result ≡ (length self.now == 0) }
    {
        self.len() == 0
    }

    /// The key at a place, if there is one.
    pub fn get_index(&self, index: usize) -> Option<&T>
        ensures { option_copied result ≡ slice_get self.now index }
    {
        self.as_slice().get(index)
    }

    /// The place of the key equal to this one, if there is one.
    pub fn get_index_of(&self, key: &T) -> Option<usize>
        ensures { result ≡ position (T.eq key.now) self.now }
    {
        match &self.held {
            Held::Few(few) => few.get_index_of(key),
            Held::Many(set) => set.get_index_of(key),
        }
    }

    /// The place of the key equal to this one, and the key that is there, if there is one.
    pub fn get_full(&self, key: &T) -> Option<(usize, &T)>
        ensures place { option_map (λ k. k.0) result ≡ position (T.eq key.now) self.now }
        ensures key { option_map (λ k. k.1.now) result ≡ find (T.eq key.now) self.now }
        ensures stored { IfSome result (λ k. slice_get self.now k.0 ≡ Some k.1.now) }
    {
        match &self.held {
            Held::Few(few) => few.get_full(key),
            Held::Many(set) => set.get_full(key),
        }
    }

    /// The first key, if there is one.
    pub fn first(&self) -> Option<&T>
        ensures { option_copied result ≡ slice_get self.now 0 }
    {
        self.as_slice().first()
    }

    /// The keys, in order.
    pub fn as_slice(&self) -> &[T]
        ensures keys { result.now ≡ self.now }
        ensures unique { IsDistinct T.eq self.now }
    {
        match &self.held {
            Held::Few(few) => few.as_slice(),
            Held::Many(set) => set.as_slice(),
        }
    }

    /// The key that is there and equal to this one, if there is one.
    pub fn get(&self, key: &T) -> Option<&T>
        ensures { option_copied result ≡ find (T.eq key.now) self.now }
    {
        match &self.held {
            Held::Few(few) => few.get(key),
            Held::Many(set) => set.get(key),
        }
    }

    /// Whether a key equal to this one is there.
    pub fn contains(&self, key: &T) -> bool
        ensures { result ≡ has_key (T.eq key.now) self.now }
    {
        match &self.held {
            Held::Few(few) => few.contains(key),
            Held::Many(set) => set.contains(key),
        }
    }

    /// The keys, one by one, in order.
    pub fn iter(&self) -> Elements<'_, T>
        ensures rest { result ≡ self.now }
        ensures runs { ShowsInOrder (deref {X = T}) }
        ensures unique { IsDistinct T.eq self.now }
        ensures fits { length self.now < 2 ^ 63 }
    {
        let _len = self.len();
        Elements::of(self.as_slice())
    }

    /// Whether a key equal to this one is there, as [`contains`](KeySet::contains) answers. No hash is made
    /// if it stands at the place.
    fn contains_from(&self, place: usize, key: &T) -> bool
        ensures { result ≡ has_key (T.eq key.now) self.now }
    {
        match self.get_index(place) {
            Some(there) if key == there => true,
            _ => self.contains(key),
        }
    }

    /// Whether the other set has each key of this one. That takes no hash where both have their keys in one
    /// order.
    fn has_its_keys_in(&self, other: &KeySet<T>) -> bool
        ensures { result ≡ list_all (λ k. has_key (T.eq k) other.now) self.now }
    {
        for (place, key) in self.as_slice().iter().enumerate() {
            if !other.contains_from(place, key) {
                return false;
            }
        }
        true
    }
}

impl<T: Eq + Hash + Drop> KeySet<T> {
    /// The keys as an `IndexSet`. The error is out of memory, which only up to eight keys meet.
    pub fn into_index_set(self) -> Result<IndexSet<T, HashKeys>, AllocError>
        ensures { IfOk result (λ set. set.keys ≡ self) }
    {
        let KeySet { held } = self;
        let set = match held {
            Held::Few(mut few) => few.move_to_index_set()?,
            Held::Many(set) => set,
        };
        Ok(Box::into_inner(set))
    }

    /// Puts the key last, or leaves the equal one that is there. Answers whether there was none.
    ///
    /// The error is out of memory, which only a new key meets. It gives the key back, and leaves the set as
    /// it was.
    pub fn insert(&mut self, key: T) -> Result<bool, AllocFailed<T>>
        ensures added { IfOk result (λ added. added ≡ not (has_key (T.eq key) self.old)) }
        ensures keys { OnOk result (self.new ≡ insert_key T.eq self.old key) }
        ensures value_returned { IfErr result (λ y. y.value ≡ key) }
        ensures err { OnErr result (self.new ≡ self.old) }
        ensures absent { OnErr result (has_key (T.eq key) self.old ≡ false) }
        ensures unique { IsDistinct T.eq self.new }
    {
        match &mut self.held {
            Held::Many(set) => set.insert(key),
            Held::Few(few) => {
                if few.has_place_for(&key) {
                    few.insert(key)
                } else {
                    self.insert_past_few(key)
                }
            }
        }
    }

    /// Puts the key last, and has all keys hashed from then on. The error is as that of
    /// [`insert`](KeySet::insert). Premise: no equal key is there.
    #[inline(never)]
    fn insert_past_few(&mut self, key: T) -> Result<bool, AllocFailed<T>>
        requires { has_key (T.eq key) self.old ≡ false }
        ensures added { IfOk result (λ added. added ≡ true) }
        ensures keys { OnOk result (self.new ≡ insert_key T.eq self.old key) }
        ensures value_returned { IfErr result (λ y. y.value ≡ key) }
        ensures err { OnErr result (self.new ≡ self.old) }
        ensures unique { IsDistinct T.eq self.new }
    {
        let grown = match &mut self.held {
            Held::Few(few) => few.move_to_index_set(),
            Held::Many(set) => return set.insert(key),
        };
        match grown {
            Ok(mut set) => {
                let added = set.insert(key);
                self.held = Held::Many(set);
                added
            }
            Err(AllocError) => Err(AllocFailed { value: key }),
        }
    }

    /// Takes out the key equal to this one. Those after it move up. Answers whether there was one.
    pub fn shift_remove(&mut self, key: &T) -> bool
        ensures found { result ≡ has_key (T.eq key.now) self.old }
        ensures keys { self.new ≡ remove_key (T.eq key.now) self.old }
        ensures unique { IsDistinct T.eq self.new }
    {
        match &mut self.held {
            Held::Few(few) => few.shift_remove(key),
            Held::Many(set) => set.shift_remove(key),
        }
    }
}

impl<T: Eq + Hash + fmt::Debug> fmt::Debug for KeySet<T> {
    fn fmt<W: fmt::Write>(&self, f: &mut fmt::Formatter<W>) -> fmt::Result {
        f.debug_set().entries(self.iter()).finish()
    }
}

impl<T: Eq + Hash> PartialEq for KeySet<T> {
    ghost eq = { set_eq T.eq };

    ghost laws = { Cmp.partial_equiv_from_equiv (set_eq_equiv T.eq T.Eq.laws) };

    #[tactic(auto, using(crate::proofs::SameLength::sets_by_length))]
    fn eq(&self, other: &KeySet<T>) -> bool {
        self.len() == other.len() && self.has_its_keys_in(other)
    }
}

impl<T: Eq + Hash> Eq for KeySet<T> {
    ghost laws = { set_eq_equiv T.eq T.Eq.laws };
}

impl<T: Eq + Hash + Clone + Drop> Clone for KeySet<T> {
    ghost is_clone = { IsSetClone T.is_clone };

    /// A set of clones. Where clones of the keys are the originals, it has the same keys in the same order.
    /// The error is out of memory.
    #[tactic(auto, using(crate::proofs::KeySetClones::exact_keys))]
    fn clone(&self) -> Result<KeySet<T>, AllocError> {
        let held = match &self.held {
            Held::Few(few) => Held::Few(few.clone()?),
            Held::Many(set) => Held::Many(set.clone()?),
        };
        Ok(KeySet { held })
    }
}
