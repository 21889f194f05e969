//! Nodes of the syntax tree.
ghost use Rattle.std.specs.Prelude.{◌≡◌, IfOk, None, Some};
ghost use Rattle.std.specs.Borrow.{sem};
ghost use Rattle.graphql_nodes.specs.BuiltIn.{is_built_in};
ghost use Rattle.std.specs.Cmp.{on_equiv, on_per};
ghost use Rattle.std.specs.Cmp.Rules.{hashing};
ghost use Rattle.std.proofs.Common.{rules};

use crate::kept_location::KeptLocation;
use crate::source::{FileId, SourceSpan};
use crate::take_apart;
use std::alloc::{AllocError, Global};
use std::fmt;
use std::hash::{Hash, Hasher};
use std::marker::Model;
use std::ops::Deref;
use std::rc::Rc;

struct Held<T> {
    location: KeptLocation,
    value: T,
}

impl<T: Drop> Drop for Held<T> {
    fn drop(self) {
        take_apart!(self: location, value);
    }
}

impl<T: Clone + Drop> Clone for Held<T> {
    ghost is_clone = { λ a b. (b.location ≡ a.location) × T.is_clone a.value b.value };

    fn clone(&self) -> Result<Held<T>, AllocError> {
        Ok(Held {
            location: self.location.clone()?,
            value: self.value.clone()?,
        })
    }
}

/// A value that copies share, and its location in a source, if it is known.
///
/// Nodes are equal and hashed by their values: the location is left out. A node is one pointer wide.
pub struct Node<T> {
    shared: Rc<Held<T>>,
}

impl<T: Drop> Drop for Node<T> {
    fn drop(self) {
        let Self { shared: _ } = self;
    }
}

impl<T> Model for Node<T> {
    ghost use Rattle.graphql_nodes.specs.NodeView.{NodeView, node_view_code};

    ghost Value = { NodeView T };

    ghost coded = { node_view_code T.code };

    ghost view = { λ n. record { value = n.shared.value.value; location = n.shared.value.location } };
}

impl<T> Node<T> {
    /// A node with no location. The error is out of memory, and drops the value.
    pub fn new(alloc: Global, value: T) -> Result<Node<T>, AllocError>
    where
        T: Drop,
        ensures { IfOk result (λ n. n ≡ record { value = value; location = None }) }
    {
        Node::new_opt_location(alloc, value, None)
    }

    /// A node at this location, if one is given. The error is out of memory, and drops the value.
    pub fn new_opt_location(
        alloc: Global,
        value: T,
        location: Option<SourceSpan>,
    ) -> Result<Node<T>, AllocError>
    where
        T: Drop,
        ensures { IfOk result (λ n. n ≡ record { value = value; location = location }) }
    {
        let held = Held {
            location: KeptLocation::new(alloc, location)?,
            value,
        };
        Ok(Node {
            shared: Rc::new(alloc, held)?,
        })
    }

    /// Where the node stands in a source, if it is known.
    pub fn location(&self) -> Option<SourceSpan>
        ensures { result ≡ self.now.location }
    {
        self.shared.location.get()
    }

    /// Whether the node has a location in the file of the built-in definitions, [`FileId::BUILT_IN`].
    pub fn is_built_in(&self) -> bool
        ensures { result ≡ is_built_in self.now.location }
    {
        match self.location() {
            Some(span) => span.file == FileId::BUILT_IN,
            None => false,
        }
    }

    /// A node with another value at this node's location. The error is out of memory, and drops the value.
    pub fn same_location<U: Drop>(&self, alloc: Global, value: U) -> Result<Node<U>, AllocError>
        ensures { IfOk result (λ n. n ≡ record { value = value; location = self.now.location }) }
    {
        Node::new_opt_location(alloc, value, self.location())
    }
}

impl<T: Drop + Clone> Node<T> {
    ghost use Rattle.graphql_nodes.specs.NodeLending.{LendsValue};

    /// The value, to write to. When the loan ends, the node holds what was written, and its location stays.
    ///
    /// Where the value is shared, this node gets a copy of its own first, so the nodes that shared it keep
    /// what they have. Premise: a clone of a `T` is the original, which holds of each type of the syntax
    /// tree. The error is out of memory, and leaves the node as it was.
    pub fn make_mut(&mut self) -> Result<&mut T, AllocError>
        requires { (x y : T) → T.Clone.is_clone x y → y ≡ x }
        ensures* writes_back { sem 𝓛 (LendsValue T.row self.entry result) }
        ensures value { IfOk result (λ x. x.now ≡ self.old.value) }
    {
        let held = Rc::make_mut(&mut self.shared)?;
        Ok(&mut held.value)
    }
}

impl<T: fmt::Debug> fmt::Debug for Node<T> {
    ghost debug_output = { λ n. T.debug_output n.value };

    fn fmt<W: fmt::Write>(&self, f: &mut fmt::Formatter<W>) -> fmt::Result {
        fmt::Debug::fmt(&self.shared.value, f)
    }
}

impl<T: PartialEq> PartialEq for Node<T> {
    ghost eq = { λ x y. T.eq x.value y.value };

    ghost laws = { on_per (λ x. x.value) T.laws };

    fn eq(&self, other: &Node<T>) -> bool {
        self.shared.value == other.shared.value
    }
}

impl<T: Eq> Eq for Node<T> {
    ghost laws = { on_equiv (λ x. x.value) T.Eq.laws };
}

impl<T: Hash> Hash for Node<T> {
    ghost hash_input = { λ n. T.hash_input n.value };

    ghost respects_eq = { Prim.search (hashing, rules) };

    fn hash<H: Hasher>(&self, state: &mut H) {
        self.shared.value.hash(state)
    }
}

impl<T: Drop> Clone for Node<T> {
    ghost is_clone = { λ a b. b ≡ a };

    /// A node that shares the value, at the same location. The error is out of memory.
    fn clone(&self) -> Result<Node<T>, AllocError> {
        Ok(Node {
            shared: self.shared.clone()?,
        })
    }
}

impl<T> Deref for Node<T> {
    type Target = T;

    ghost deref_gives = { λ n x. x ≡ n.value };

    /// The value.
    fn deref(&self) -> &T
        ensures { result.now ≡ self.now.value }
    {
        &self.shared.value
    }
}
