//! Values that copies share.
ghost use Rattle.std.specs.Prelude.{◌≡◌, IfOk};
ghost use Rattle.std.specs.Cmp.Rules.{hashing};
ghost use Rattle.std.proofs.Common.{rules};

use std::alloc::{AllocError, Global};
use std::fmt;
use std::hash::{Hash, Hasher};
use std::marker::Model;
use std::ops::Deref;
use std::rc::Rc;

/// An `Rc` that contracts see as its value. Copies share the value. Equality and hash are the value's.
pub struct Shared<T> {
    inner: Rc<T>,
}

impl<T: Drop> Drop for Shared<T> {
    fn drop(self) {
        let Self { inner: _ } = self;
    }
}

impl<T> Model for Shared<T> {
    ghost Value = { T };

    ghost coded = { T.code };

    ghost view = { λ s. s.inner.value };
}

impl<T> Shared<T> {
    /// The value that the `Rc` holds.
    pub fn from_rc(inner: Rc<T>) -> Shared<T>
        ensures { result ≡ inner.value }
    {
        Shared { inner }
    }

    /// The `Rc` of the value.
    pub fn into_rc(self) -> Rc<T>
        ensures { result.value ≡ self }
    {
        let Shared { inner } = self;
        inner
    }
}

impl<T: Drop> Shared<T> {
    /// Puts a value where copies share it. The error is out of memory, and drops the value.
    pub fn new(alloc: Global, value: T) -> Result<Shared<T>, AllocError>
        ensures { IfOk result (λ s. s ≡ value) }
    {
        Ok(Shared {
            inner: Rc::new(alloc, value)?,
        })
    }
}

impl<T> Deref for Shared<T> {
    type Target = T;

    ghost deref_gives = { λ s x. x ≡ s };

    /// The value.
    fn deref(&self) -> &T
        ensures { result.now ≡ self.now }
    {
        Rc::as_ref(&self.inner)
    }
}

impl<T: fmt::Debug> fmt::Debug for Shared<T> {
    ghost debug_output = { T.debug_output };

    fn fmt<W: fmt::Write>(&self, f: &mut fmt::Formatter<W>) -> fmt::Result {
        fmt::Debug::fmt(&self.inner, f)
    }
}

impl<T: PartialEq> PartialEq for Shared<T> {
    ghost eq = { T.eq };

    ghost laws = { T.laws };

    fn eq(&self, other: &Shared<T>) -> bool {
        *self.inner == *other.inner
    }
}

impl<T: Eq> Eq for Shared<T> {
    ghost laws = { T.Eq.laws };
}

impl<T: Hash> Hash for Shared<T> {
    ghost hash_input = { T.hash_input };

    ghost respects_eq = { T.respects_eq };

    fn hash<H: Hasher>(&self, state: &mut H) {
        (*self.inner).hash(state)
    }
}

impl<T: Drop> Clone for Shared<T> {
    ghost is_clone = { λ a b. b ≡ a };

    /// A copy that shares the value. The error is out of memory.
    fn clone(&self) -> Result<Shared<T>, AllocError> {
        Ok(Shared {
            inner: self.inner.clone()?,
        })
    }
}
