//! The iterators over the entries of a table. Each is seen as the list of what it has left.
ghost use Rattle.std.specs.Prelude.{◌≡◌, length, zip, ⊤};
ghost use Rattle.std.specs.Iterator.{at_most};
ghost use Rattle.std.specs.Map.Iter.{TakesFirst, ShowsInOrder, ShowsValuesInOrder, deref_pair};

use std::alloc::AllocError;
use std::iter::FusedIterator;
use std::marker::Model;
use std::slice;

/// The entries in order, each as its key and its value.
#[derive(Drop)]
pub struct Iter<'a, K, V> {
    keys: slice::Iter<'a, K>,
    values: slice::Iter<'a, V>,
}

impl<'a, K, V> Model for Iter<'a, K, V> {
    ghost use Rattle.std.specs.Prelude.{◌≡◌, List, length, zip};
    ghost use Rattle.std.specs.Slice.Iter.{iter_rest};

    ghost Value = { List (K × V) };

    ghost view = { λ it. zip (iter_rest it.keys) (iter_rest it.values) };

    ghost invariant = { λ it. length (iter_rest it.values) ≡ length (iter_rest it.keys) };
}

impl<'a, K, V> Iter<'a, K, V> {
    /// These keys, each with the value at its place.
    pub(crate) fn of(keys: &'a [K], values: &'a [V]) -> Iter<'a, K, V>
        requires { length values.now ≡ length keys.now }
        ensures rest { result ≡ zip keys.now values.now }
        ensures runs { ShowsInOrder (deref_pair {K = K} {X = V}) }
        ensures values_run { ShowsValuesInOrder (deref_pair {K = K} {X = V}) }
    {
        Iter {
            keys: keys.iter(),
            values: values.iter(),
        }
    }
}

impl<'a, K, V> Iterator for Iter<'a, K, V> {
    type Item = (&'a K, &'a V);

    ghost next_gives = { TakesFirst deref_pair };

    ghost remaining = { λ left. at_most (length left) };

    /// The first entry that is left, after which the rest is left. Once none is left it answers none, from
    /// then on too.
    fn next(&mut self) -> Option<(&'a K, &'a V)> {
        let key = self.keys.next()?;
        Some((key, self.values.next().unwrap()))
    }

    fn size_hint(&self) -> (usize, Option<usize>) {
        let len = self.len();
        (len, Some(len))
    }
}

impl<'a, K, V> ExactSizeIterator for Iter<'a, K, V> {
    fn len(&self) -> usize {
        self.keys.len()
    }
}

impl<'a, K, V> FusedIterator for Iter<'a, K, V> {}

impl<'a, K, V> Clone for Iter<'a, K, V> {
    ghost is_clone = { λ s r. r ≡ s };

    ghost is_infallible = { λ _. ⊤ };

    fn clone(&self) -> Result<Iter<'a, K, V>, AllocError> {
        Ok(Iter {
            keys: self.keys.clone()?,
            values: self.values.clone()?,
        })
    }
}
