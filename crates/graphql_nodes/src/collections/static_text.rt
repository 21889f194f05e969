//! Texts of the program.
ghost use Rattle.std.specs.Prelude.{◌≡◌, nat_eq, Some};
ghost use Rattle.std.specs.Cmp.Lexicographic.{pointwise, nat_list_eq_equiv};
ghost use Rattle.std.specs.Cmp;
ghost use Rattle.std.specs.Cmp.Rules.{hashing};
ghost use Rattle.std.specs.Hash as fed;
ghost use Rattle.std.specs.Fmt.{debug_str};
ghost use Rattle.std.proofs.Common.{rules};

use std::alloc::AllocError;
use std::fmt;
use std::hash::{Hash, Hasher};
use std::marker::Model;

/// A `&'static str` that contracts see as its bytes. Texts are equal and hashed by these. `Display` is the
/// text.
#[derive(Drop)]
pub struct StaticText {
    inner: &'static str,
}

impl Model for StaticText {
    ghost use Rattle.std.specs.Prelude.{List, ℕ};

    ghost Value = { List ℕ };

    ghost view = { λ t. t.inner.now };
}

impl StaticText {
    /// This text. It takes no memory.
    pub fn new(inner: &'static str) -> StaticText
        ensures { result ≡ inner.now }
    {
        StaticText { inner }
    }

    /// The text.
    pub fn as_str(&self) -> &'static str
        ensures { result.now ≡ self.now }
    {
        self.inner
    }
}

impl From<&'static str> for StaticText {
    ghost from_gives = { λ text t. t ≡ text.now };

    fn from(text: &'static str) -> StaticText {
        StaticText::new(text)
    }
}

impl Clone for StaticText {
    ghost is_clone = { λ a b. b ≡ a };

    /// The same text. It takes no memory.
    fn clone(&self) -> Result<StaticText, AllocError> {
        Ok(StaticText { inner: self.inner })
    }
}

impl PartialEq for StaticText {
    ghost eq = { pointwise nat_eq };

    ghost laws = { Cmp.partial_equiv_from_equiv nat_list_eq_equiv };

    fn eq(&self, other: &StaticText) -> bool {
        self.inner == other.inner
    }
}

impl Eq for StaticText {
    ghost laws = { nat_list_eq_equiv };
}

impl Hash for StaticText {
    ghost hash_input = { λ t. fed.str t };

    ghost respects_eq = { Prim.search (hashing, rules) };

    fn hash<H: Hasher>(&self, state: &mut H) {
        self.inner.hash(state)
    }
}

impl fmt::Display for StaticText {
    ghost output = { λ t. Some t };

    fn fmt<W: fmt::Write>(&self, f: &mut fmt::Formatter<W>) -> fmt::Result {
        fmt::Display::fmt(self.inner, f)
    }
}

impl fmt::Debug for StaticText {
    ghost debug_output = { debug_str };

    fn fmt<W: fmt::Write>(&self, f: &mut fmt::Formatter<W>) -> fmt::Result {
        fmt::Debug::fmt(&self.inner, f)
    }
}
