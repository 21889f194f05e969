//! An iterator over the elements of a slice: the keys of a set or a table, or the values of a table.
ghost use Rattle.std.specs.Prelude.{◌≡◌, length, ⊤};
ghost use Rattle.std.specs.Iterator.{at_most};
ghost use Rattle.std.specs.Map.Iter.{TakesFirst, TakesLast, ShowsInOrder, deref};

use std::alloc::AllocError;
use std::iter::FusedIterator;
use std::marker::Model;
use std::{fmt, slice};

/// The elements of a slice that are left, in order, which contracts see as their list.
#[derive(Drop)]
pub struct Elements<'a, T> {
    rest: slice::Iter<'a, T>,
}

impl<'a, T> Model for Elements<'a, T> {
    ghost use Rattle.std.specs.Prelude.{List};
    ghost use Rattle.std.specs.Coded.{coded_list};
    ghost use Rattle.std.specs.Slice.Iter.{iter_rest};

    ghost Value = { List T };

    ghost coded = { coded_list T.code };

    ghost view = { λ it. iter_rest it.rest };
}

impl<'a, T> Elements<'a, T> {
    /// All elements of the slice.
    pub(crate) fn of(elements: &'a [T]) -> Elements<'a, T>
        ensures rest { result ≡ elements.now }
        ensures runs { ShowsInOrder (deref {X = T}) }
    {
        Elements {
            rest: elements.iter(),
        }
    }

    /// The elements that are left.
    pub fn as_slice(&self) -> &'a [T]
        ensures { result.now ≡ self.now }
    {
        self.rest.as_slice()
    }
}

impl<'a, T> Iterator for Elements<'a, T> {
    type Item = &'a T;

    ghost next_gives = { TakesFirst deref };

    ghost remaining = { λ left. at_most (length left) };

    /// The first element that is left, after which the rest is left. Once none is left it answers none, from
    /// then on too.
    fn next(&mut self) -> Option<&'a T> {
        self.rest.next()
    }

    /// How many elements are left, as both bounds.
    fn size_hint(&self) -> (usize, Option<usize>) {
        let len = self.len();
        (len, Some(len))
    }
}

impl<'a, T> DoubleEndedIterator for Elements<'a, T> {
    ghost next_back_gives = { TakesLast deref };

    /// The last element that is left, after which those before it are left.
    fn next_back(&mut self) -> Option<&'a T> {
        self.rest.next_back()
    }
}

impl<'a, T> ExactSizeIterator for Elements<'a, T> {
    /// How many elements are left.
    fn len(&self) -> usize {
        self.rest.len()
    }
}

impl<'a, T> FusedIterator for Elements<'a, T> {}

impl<'a, T> Clone for Elements<'a, T> {
    ghost is_clone = { λ it copy. copy ≡ it };

    ghost is_infallible = { λ _. ⊤ };

    /// The same elements are left. It takes no memory.
    fn clone(&self) -> Result<Elements<'a, T>, AllocError> {
        Ok(Elements {
            rest: self.rest.clone()?,
        })
    }
}

impl<'a, T: fmt::Debug> fmt::Debug for Elements<'a, T> {
    fn fmt<W: fmt::Write>(&self, f: &mut fmt::Formatter<W>) -> fmt::Result {
        f.debug_list().entries(self.clone().unwrap()).finish()
    }
}
