//! Components of types, and names that are components: GraphQL specification of October 2021, sections 3.4
//! and 3.4.3.
ghost use Rattle.std.specs.Prelude.{◌≡◌, IfOk, Some, nat_eq};
ghost use Rattle.std.specs.Borrow.{sem};
ghost use Rattle.std.specs.Cmp;
ghost use Rattle.std.specs.Cmp.{on_equiv, on_per};
ghost use Rattle.std.specs.Cmp.Rules.{hashing};
ghost use Rattle.std.specs.Cmp.Lexicographic.{pointwise, nat_list_eq_equiv};
ghost use Rattle.std.specs.Hash as fed;
ghost use Rattle.std.proofs.Common.{rules};

use crate::extension::ComponentOrigin;
use graphql_nodes::name::Name;
use graphql_nodes::node::Node;
use graphql_nodes::take_apart;
use std::alloc::{AllocError, Global};
use std::fmt;
use std::hash::{Hash, Hasher};
use std::ops::{Deref, DerefMut};

/// A part of a type, and the definition or extension that it comes from.
///
/// Components are equal and hashed by their values: origins and locations are left out.
#[derive(Debug)]
pub struct Component<T> {
    pub origin: ComponentOrigin,
    pub node: Node<T>,
}

impl<T: Drop> Drop for Component<T> {
    fn drop(self) {
        take_apart!(self: origin, node);
    }
}

impl<T> Component<T> {
    /// A component of the definition, without a location. The error is out of memory, and drops the value.
    pub fn new(alloc: Global, value: T) -> Result<Component<T>, AllocError>
    where
        T: Drop,
        ensures { IfOk result (λ c. c
            ≡ record {
              origin = ComponentOrigin.Definition;
              node = record { value = value; location = None };
            }) }
    {
        Ok(Component {
            origin: ComponentOrigin::Definition,
            node: Node::new(alloc, value)?,
        })
    }

    /// A component that this node holds, of this origin. It takes no memory.
    pub fn with_origin(node: Node<T>, origin: ComponentOrigin) -> Component<T>
        ensures { result ≡ record { origin = origin; node = node } }
    {
        Component { origin, node }
    }
}

impl<T> From<Node<T>> for Component<T> {
    ghost use Rattle.std.specs.Prelude.{◌≡◌};
    ghost use Rattle.apollo_component.specs.declared.extension.ComponentOrigin.TheVariants.{Definition};

    ghost from_gives = { λ node component. component ≡ record { origin = Definition; node = node } };

    /// A component that this node holds, of the definition.
    fn from(node: Node<T>) -> Component<T> {
        Component {
            origin: ComponentOrigin::Definition,
            node,
        }
    }
}

impl<T> Deref for Component<T> {
    type Target = Node<T>;

    ghost deref_gives = { λ component node. node ≡ component.node };

    /// The node.
    fn deref(&self) -> &Node<T>
        ensures { result.now ≡ self.now.node }
    {
        &self.node
    }
}

impl<T> DerefMut for Component<T> {
    ghost use Rattle.apollo_component.specs.ComponentLending.{LendsNode};

    ghost deref_mut_gives = { λ component node. node ≡ component.node };

    /// The node, to write to. When the loan ends, the component has the node that was written, of the origin
    /// that it had.
    fn deref_mut(&mut self) -> &mut Node<T>
        ensures* writes_back { sem 𝓛 (LendsNode T.row self.entry result) }
        ensures value { result.now ≡ self.old.node }
    {
        &mut self.node
    }
}

impl<T: PartialEq> PartialEq for Component<T> {
    ghost eq = { λ x y. T.eq x.node.value y.node.value };

    ghost laws = { on_per (λ x. x.node.value) T.laws };

    fn eq(&self, other: &Component<T>) -> bool {
        self.node == other.node
    }
}

impl<T: Eq> Eq for Component<T> {
    ghost laws = { on_equiv (λ x. x.node.value) T.Eq.laws };
}

impl<T: Hash> Hash for Component<T> {
    ghost hash_input = { λ n. T.hash_input n.node.value };

    ghost respects_eq = { Prim.search (hashing, rules) };

    fn hash<H: Hasher>(&self, state: &mut H) {
        self.node.hash(state)
    }
}

impl<T: Drop> Clone for Component<T> {
    ghost is_clone = { λ a b. b ≡ a };

    /// The same component, with its origin and location. The value is shared. The error is out of memory.
    fn clone(&self) -> Result<Component<T>, AllocError> {
        Ok(Component {
            origin: self.origin,
            node: self.node.clone()?,
        })
    }
}

/// A name, and the definition or extension that it comes from. A type lists the name, as an interface or a
/// union member, or a schema has it as a root.
///
/// Component names are equal and hashed by their texts: origins and locations are left out. `Display` is the
/// text.
#[derive(Debug)]
pub struct ComponentName {
    pub origin: ComponentOrigin,
    pub name: Name,
}

impl Drop for ComponentName {
    fn drop(self) {
        take_apart!(self: origin, name);
    }
}

impl ComponentName {
    /// This name, of this origin. It takes no memory.
    pub fn with_origin(name: Name, origin: ComponentOrigin) -> ComponentName
        ensures { result ≡ record { origin = origin; name = name } }
    {
        ComponentName { origin, name }
    }

    /// A copy of the name, of the definition. The error is out of memory.
    pub fn from_name(name: &Name) -> Result<ComponentName, AllocError>
        ensures { IfOk result (λ c. c ≡ record { origin = ComponentOrigin.Definition; name = name.now }) }
    {
        Ok(ComponentName {
            origin: ComponentOrigin::Definition,
            name: name.clone()?,
        })
    }
}

impl From<Name> for ComponentName {
    ghost use Rattle.std.specs.Prelude.{◌≡◌};
    ghost use Rattle.apollo_component.specs.declared.extension.ComponentOrigin.TheVariants.{Definition};

    ghost from_gives = { λ name component. component ≡ record { origin = Definition; name = name } };

    /// This name, of the definition.
    fn from(name: Name) -> ComponentName {
        ComponentName {
            origin: ComponentOrigin::Definition,
            name,
        }
    }
}

impl Deref for ComponentName {
    type Target = Name;

    ghost deref_gives = { λ component name. name ≡ component.name };

    /// The name.
    fn deref(&self) -> &Name
        ensures { result.now ≡ self.now.name }
    {
        &self.name
    }
}

impl PartialEq for ComponentName {
    ghost eq = { λ x y. pointwise nat_eq x.name.text y.name.text };

    ghost laws = { on_per (λ x. x.name.text) (Cmp.partial_equiv_from_equiv nat_list_eq_equiv) };

    fn eq(&self, other: &ComponentName) -> bool {
        self.name == other.name
    }
}

impl Eq for ComponentName {
    ghost laws = { on_equiv (λ x. x.name.text) nat_list_eq_equiv };
}

impl Hash for ComponentName {
    ghost hash_input = { λ n. fed.str n.name.text };

    ghost respects_eq = { Prim.search (hashing, rules) };

    fn hash<H: Hasher>(&self, state: &mut H) {
        self.name.hash(state)
    }
}

impl fmt::Display for ComponentName {
    ghost output = { λ n. Some n.name.text };

    fn fmt<W: fmt::Write>(&self, f: &mut fmt::Formatter<W>) -> fmt::Result {
        fmt::Display::fmt(&self.name, f)
    }
}

impl Clone for ComponentName {
    ghost is_clone = { λ a b. b ≡ a };

    /// The same component name, with its origin and location. The error is out of memory.
    fn clone(&self) -> Result<ComponentName, AllocError> {
        Ok(ComponentName {
            origin: self.origin,
            name: self.name.clone()?,
        })
    }
}
