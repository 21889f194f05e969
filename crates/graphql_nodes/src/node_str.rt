//! Shared texts: descriptions of definitions, GraphQL specification of October 2021, sections 2.9.4 and 3.2.
ghost use Rattle.std.specs.Prelude.{◌≡◌, IfOk, None, Some, nat_eq};
ghost use Rattle.std.specs.Cmp.{on_equiv, on_per, partial_equiv_from_equiv};
ghost use Rattle.std.specs.Cmp.Rules.{hashing};
ghost use Rattle.std.specs.Cmp.Lexicographic.{pointwise, nat_list_eq_equiv};
ghost use Rattle.std.specs.Hash as fed;
ghost use Rattle.std.specs.Fmt.{debug_str};
ghost use Rattle.std.proofs.Common.{rules};

use crate::collections::boxed::Boxed;
use crate::source::SourceSpan;
use crate::take_apart;
use std::alloc::{AllocError, Global};
use std::fmt;
use std::hash::{Hash, Hasher};
use std::marker::Model;
use std::rc::RcStr;

/// A shared text, and the location of this copy of it.
struct Placed {
    shared: RcStr,
    location: Option<SourceSpan>,
}

impl Drop for Placed {
    fn drop(self) {
        take_apart!(self: shared, location);
    }
}

/// A text, and its location, if it is known. Copies share the text, and have the location.
///
/// Texts are equal and hashed without their locations. A text is one pointer wide, since most definitions
/// have none.
pub struct NodeStr {
    placed: Boxed<Placed>,
}

impl Drop for NodeStr {
    fn drop(self) {
        let Self { placed: _ } = self;
    }
}

impl Model for NodeStr {
    ghost use Rattle.std.specs.Rc.{rc_str_bytes};
    ghost use Rattle.graphql_nodes.specs.NameView.{NameView, name_view_code};

    ghost Value = { NameView };

    ghost coded = { name_view_code };

    ghost view = { λ n. record { text = rc_str_bytes n.placed.shared; location = n.placed.location } };
}

impl NodeStr {
    /// A copy of the text, with no location. The error is out of memory.
    pub fn new(alloc: Global, text: &str) -> Result<NodeStr, AllocError>
        ensures { IfOk result (λ n. n ≡ record { text = text.now; location = None }) }
    {
        let placed = Placed {
            shared: RcStr::from_str(alloc, text)?,
            location: None,
        };
        Ok(NodeStr {
            placed: Boxed::new(alloc, placed)?,
        })
    }

    /// The same text at this location.
    pub fn with_location(mut self, location: SourceSpan) -> NodeStr
        ensures { result ≡ record self { location = Some location } }
    {
        self.placed.location = Some(location);
        self
    }

    /// The text.
    pub fn as_str(&self) -> &str
        ensures { result.now ≡ self.now.text }
    {
        self.placed.shared.as_str()
    }

    /// Where the text stands in a source, if it is known.
    pub fn location(&self) -> Option<SourceSpan>
        ensures { result ≡ self.now.location }
    {
        self.placed.location
    }
}

impl Clone for NodeStr {
    ghost is_clone = { λ a b. b ≡ a };

    /// The same text, with its location. The error is out of memory.
    fn clone(&self) -> Result<NodeStr, AllocError> {
        let placed = Placed {
            shared: self.placed.shared.clone()?,
            location: self.placed.location,
        };
        Ok(NodeStr {
            placed: self.placed.same_allocator(placed)?,
        })
    }
}

impl PartialEq for NodeStr {
    ghost eq = { λ x y. pointwise nat_eq x.text y.text };

    ghost laws = { on_per (λ x. x.text) (partial_equiv_from_equiv nat_list_eq_equiv) };

    fn eq(&self, other: &NodeStr) -> bool {
        self.placed.shared == other.placed.shared
    }
}

impl Eq for NodeStr {
    ghost laws = { on_equiv (λ x. x.text) nat_list_eq_equiv };
}

impl Hash for NodeStr {
    ghost hash_input = { λ n. fed.str n.text };

    ghost respects_eq = { Prim.search (hashing, rules) };

    fn hash<H: Hasher>(&self, state: &mut H) {
        self.placed.shared.hash(state)
    }
}

impl fmt::Debug for NodeStr {
    ghost debug_output = { λ n. debug_str n.text };

    fn fmt<W: fmt::Write>(&self, f: &mut fmt::Formatter<W>) -> fmt::Result {
        fmt::Debug::fmt(&self.as_str(), f)
    }
}
