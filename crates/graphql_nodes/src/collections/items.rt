//! Lists.
ghost use Rattle.std.specs.Prelude.{◌≡◌, [], ◌∷◌, ◌++◌, ◌<◌, ◌^◌, length, ◌==◌, slice_get, Some, OnOk, OnErr};
ghost use Rattle.std.specs.Prelude.{IfOk, IfErr};
ghost use Rattle.std.specs.Borrow.{sem};
ghost use Rattle.std.specs.Option.{option_copied};
ghost use Rattle.std.proofs.Common.{rules};
ghost use Rattle.std.specs.Cmp.Rules.{hashing};
ghost use Rattle.std.specs.Cmp.Lexicographic.{pointwise, lists_per, lists_equiv};
ghost use Rattle.std.specs.List.{AllZip};
ghost use Rattle.std.specs.Hash as fed;
ghost use Rattle.std.specs.Fmt.{debug_list};
ghost use Rattle.std.specs.Iterator.Adapters.{IterYieldsInOrder, IterYieldsInReverse};
ghost use Rattle.std.specs.Iterator.Runs.{EveryRun, ItemsAre, ItemsMapTo};
ghost use Rattle.std.specs.Slice.Iter.{iter_rest, iter_steps, iter_mut_rest, iter_mut_steps};
ghost use Rattle.std.specs.Vec.Iter.{into_iter_items, into_iter_len, into_iter_steps};

use std::alloc::{AllocError, AllocFailed, Global};
use std::fmt;
use std::hash::{Hash, Hasher};
use std::marker::Model;
use std::ops::{Deref, DerefMut, Index, IndexMut};
use std::slice::{Iter, IterMut};
use std::vec::IntoIter;

/// A `Vec` that contracts see as the list of its elements. Lists are equal, and hashed, by their elements in
/// order.
pub struct Items<T> {
    items: Vec<T>,
}

impl<T: Drop> Drop for Items<T> {
    fn drop(self) {
        let Self { items: _ } = self;
    }
}

impl<T> Model for Items<T> {
    ghost use Rattle.std.specs.Prelude.{List};
    ghost use Rattle.std.specs.Coded.{coded_list};

    ghost Value = { List T };

    ghost coded = { coded_list T.code };

    ghost view = { λ it. it.items.items };
}

impl<T> Items<T> {
    /// No element.
    pub fn new(alloc: Global) -> Items<T>
        ensures { result ≡ [] }
    {
        Items {
            items: Vec::new(alloc),
        }
    }

    /// The elements of the array, in order. When memory runs out the error gives the array back.
    pub fn from_array<const N: usize>(
        alloc: Global,
        items: [T; N],
    ) -> Result<Items<T>, AllocFailed<[T; N]>>
        ensures ok { IfOk result (λ it. it ≡ items) }
        ensures value_returned { IfErr result (λ y. y.value ≡ items) }
    {
        let items = Vec::from_array(alloc, items)?;
        Ok(Items { items })
    }

    /// The elements of the `Vec`, in order.
    pub fn from_vec(items: Vec<T>) -> Items<T>
        ensures { result ≡ items.items }
    {
        Items { items }
    }

    /// The elements as a `Vec`.
    pub fn into_vec(self) -> Vec<T>
        ensures { result.items ≡ self }
    {
        let Items { items } = self;
        items
    }

    /// The elements as a slice.
    pub fn as_slice(&self) -> &[T]
        ensures { result.now ≡ self.now }
    {
        self.items.as_slice()
    }

    /// How many elements there are.
    pub fn len(&self) -> usize
        ensures { result ≡ length self.now }
    {
        self.as_slice().len()
    }

    /// Whether there is no element.
    pub fn is_empty(&self) -> bool
        ensures { result ≡ (length self.now == 0) }
    {
        self.as_slice().is_empty()
    }

    /// The element at a place, if there is one.
    pub fn get(&self, index: usize) -> Option<&T>
        ensures { option_copied result ≡ slice_get self.now index }
    {
        self.as_slice().get(index)
    }

    /// The elements, one by one, in order.
    pub fn iter(&self) -> Iter<'_, T>
        ensures rest { iter_rest result ≡ self.now }
        ensures len { length (iter_rest result) ≡ length self.now }
        ensures bound { length (iter_rest result) < 2 ^ 64 }
        ensures runs { IterYieldsInOrder T }
        ensures runs_back { IterYieldsInReverse T }
    {
        self.as_slice().iter()
    }

    /// Adds an element at the end. The error is out of memory: the list is as it was, and the element is
    /// dropped.
    pub fn push(&mut self, item: T) -> Result<(), AllocError>
    where
        T: Drop,
        ensures ok { OnOk result (self.new ≡ self.old ++ item ∷ []) }
        ensures err { OnErr result (self.new ≡ self.old) }
    {
        self.items.push(item)?;
        Ok(())
    }

    /// Moves all elements of the other list to the end. The other list is then empty.
    ///
    /// The error is out of memory, and leaves both lists as they were.
    pub fn append(&mut self, other: &mut Items<T>) -> Result<(), AllocError>
        ensures ok { OnOk result (self.new ≡ self.old ++ other.old) }
        ensures emptied { OnOk result (other.new ≡ []) }
        ensures err { OnErr result (self.new ≡ self.old) }
        ensures other_err { OnErr result (other.new ≡ other.old) }
    {
        self.items.append(&mut other.items)
    }
}

impl<T: fmt::Debug> fmt::Debug for Items<T> {
    ghost debug_output = { debug_list T.debug_output };

    fn fmt<W: fmt::Write>(&self, f: &mut fmt::Formatter<W>) -> fmt::Result {
        fmt::Debug::fmt(&self.items, f)
    }
}

impl<T: PartialEq> PartialEq for Items<T> {
    ghost eq = { pointwise T.eq };

    ghost laws = { lists_per T.laws };

    fn eq(&self, other: &Items<T>) -> bool {
        self.items == other.items
    }
}

impl<T: Eq> Eq for Items<T> {
    ghost laws = { lists_equiv T.Eq.laws };
}

impl<T: Hash> Hash for Items<T> {
    ghost hash_input = { λ it. fed.slice T.hash_input it };

    ghost respects_eq = { (fed.items_Alike (record { fed = T.respects_eq })).fed };

    fn hash<H: Hasher>(&self, state: &mut H) {
        self.items.hash(state)
    }
}

impl<T: Clone + Drop> Clone for Items<T> {
    ghost is_clone = { AllZip T.is_clone };

    /// A clone of each element, in order. The error is out of memory.
    fn clone(&self) -> Result<Items<T>, AllocError> {
        let items = self.items.clone()?;
        Ok(Items { items })
    }
}

impl<T> Deref for Items<T> {
    type Target = Vec<T>;

    ghost deref_gives = { λ it v. v.items ≡ it };

    /// The elements as a `Vec`.
    fn deref(&self) -> &Vec<T>
        ensures { result.now.items ≡ self.now }
    {
        &self.items
    }
}

impl<T> DerefMut for Items<T> {
    ghost use Rattle.graphql_nodes.specs.ItemsLending.{LendsVec};

    ghost deref_mut_gives = { λ it v. v.items ≡ it };

    /// The elements as a `Vec`, to write to. When the loan ends, the list has the elements that were written.
    fn deref_mut(&mut self) -> &mut Vec<T>
        ensures* writes_back { sem 𝓛 (LendsVec T.row self.entry result) }
        ensures value { result.now.items ≡ self.old }
    {
        &mut self.items
    }
}

impl<T> Index<usize> for Items<T> {
    type Output = T;

    ghost can_index = { λ it i. i < length it };

    ghost index_gives = { λ it i x. slice_get it i ≡ Some x };

    /// The element at a place. Premise: the list has that place, which [`get`](Items::get) doesn't ask.
    fn index(&self, index: usize) -> &T {
        &self.items[index]
    }
}

impl<T> IndexMut<usize> for Items<T> {
    ghost use Rattle.graphql_nodes.specs.ItemsLending.{LendsItem};

    /// The element at a place, to write to. Premise: the list has that place. When the loan ends, this
    /// element is what was written, and all others are as they were.
    fn index_mut(&mut self, index: usize) -> &mut T
        requires { index < length self.old }
        ensures* writes_back { sem 𝓛 (LendsItem T.row self.entry index result) }
        ensures value { slice_get self.old index ≡ Some result.now }
    {
        &mut self.items[index]
    }
}

impl<T: Drop> Extend<T> for Items<T> {
    ghost extend_gives = { λ it xs all. all ≡ it ++ xs };

    /// Adds what the iterator gives at the end, in order. Premise: the iterator may be called, and ends.
    ///
    /// The error is out of memory: the list then has what it had and, at the end, what the iterator gave
    /// before.
    fn extend<U: IntoIterator<Item = T>>(&mut self, iter: U) -> Result<(), AllocError> {
        self.items.extend(iter)
    }
}

impl<T: Drop> FromIterator<T> for Items<T> {
    type Alloc = Global;

    ghost from_iter_gives = { λ xs it. it ≡ xs };

    /// What the iterator gives, in order, as `collect` answers it. Premise: the iterator may be called, and
    /// ends. The error is out of memory, and drops what was given.
    fn from_iter<U: IntoIterator<Item = T>>(
        alloc: Global,
        iter: U,
    ) -> Result<Items<T>, AllocError> {
        let items = Vec::from_iter(alloc, iter)?;
        Ok(Items { items })
    }
}

impl<T: Drop> IntoIterator for Items<T> {
    ghost use Rattle.std.specs.declared.alloc.Global.{Global};

    type Item = T;

    type IntoIter = IntoIter<T>;

    ghost into_iter_gives = { λ it r. (into_iter_items r ≡ it) × (into_iter_len r ≡ length it)
        × (into_iter_len r < 2 ^ 64)
        × EveryRun (into_iter_steps {X = T} {Z = Global}) (λ p. ItemsAre p (into_iter_items p.from)) };

    /// The elements themselves, one by one, in order.
    fn into_iter(self) -> IntoIter<T> {
        self.into_vec().into_iter()
    }
}

impl<'a, T> IntoIterator for &'a Items<T> {
    type Item = &'a T;

    type IntoIter = Iter<'a, T>;

    ghost into_iter_gives = { λ it r. (iter_rest r ≡ it.now) × (length (iter_rest r) < 2 ^ 64)
        × EveryRun (iter_steps {A = T}) (λ p. ItemsMapTo p (λ y. y.now) (iter_rest p.from)) };

    /// The elements, one by one, in order, as [`iter`](Items::iter) gives them.
    fn into_iter(self) -> Iter<'a, T> {
        self.iter()
    }
}

impl<'a, T> IntoIterator for &'a mut Items<T> {
    ghost use Rattle.graphql_nodes.specs.ItemsLending.{LendsEach};

    type Item = &'a mut T;

    type IntoIter = IterMut<'a, T>;

    ghost into_iter_gives = { λ it r. (iter_mut_rest r ≡ it.now) × (length (iter_mut_rest r) < 2 ^ 64)
        × EveryRun (iter_mut_steps {A = T}) (λ p. ItemsMapTo p (λ y. y.now) (iter_mut_rest p.from)) };

    /// The elements, to write to, one by one, in order. When the walk ends, the list has what was written.
    fn into_iter(self) -> IterMut<'a, T>
        ensures* writes_back { sem 𝓛 (LendsEach T.row self.entry result) }
        ensures into_iter_gives { (iter_mut_rest result ≡ self.old) × (length (iter_mut_rest result) < 2 ^ 64)
            × EveryRun (iter_mut_steps {A = T}) (λ p. ItemsMapTo p (λ y. y.now) (iter_mut_rest p.from)) }
    {
        self.items.as_mut_slice().iter_mut()
    }
}
