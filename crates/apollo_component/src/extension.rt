//! Identities of extensions: GraphQL specification of October 2021, sections 3.3.2 and 3.4.3.
ghost use Rattle.std.specs.Prelude.{◌≡◌, ◌+◌, ◌-◌, ◌^◌, IfOk, IsErr, OnErr, None, Some, nat_eq};
ghost use Rattle.std.specs.Cmp.{on_equiv, on_per};
ghost use Rattle.std.specs.Cmp.Rules.{hashing};
ghost use Rattle.std.specs.Cmp;
ghost use Rattle.std.specs.Hash as fed;
ghost use Rattle.std.specs.Option.{option_copied};
ghost use Rattle.std.proofs.Common.{rules};
ghost use Rattle.apollo_component.specs.Extensions.{extension_id, number_of, extension_location, next_number};
ghost use Rattle.apollo_component.specs.Extensions.{source_at, id_of};

use graphql_nodes::node::Node;
use graphql_nodes::source::SourceSpan;
use std::alloc::{AllocError, Global};
use std::hash::{Hash, Hasher};
use thiserror::Error;

/// A source has no further identity to give: its next number would pass `u64::MAX`.
#[derive(Clone, Copy, Debug, PartialEq, Eq, Error)]
#[error("extension identities spent")]
pub struct IdsSpent;

/// A source of identities. It answers its next number each time, so that the identities of one source are
/// distinct; those of two sources may be equal.
#[derive(Debug, Drop)]
pub struct ExtensionSource {
    next: u64,
}

impl ExtensionSource {
    /// A source whose first number is 0.
    pub fn new() -> ExtensionSource
        ensures { result ≡ source_at 0 }
    {
        ExtensionSource { next: 0 }
    }

    /// A source whose first number is `number`.
    pub fn starting_at(number: u64) -> ExtensionSource
        ensures { result ≡ source_at number }
    {
        ExtensionSource { next: number }
    }

    /// The number that the next identity will have.
    pub fn next_number(&self) -> u64
        ensures { result ≡ next_number self.now }
    {
        self.next
    }

    /// The identity of an extension at this location, with the source's next number, which then moves by one.
    ///
    /// At `u64::MAX`, and there alone, it is refused, and the source stays. So that number is never given.
    pub fn draw(&mut self, location: Option<SourceSpan>) -> Result<ExtensionId, IdsSpent>
        ensures drawn { IfOk result (λ id. (id ≡ extension_id (next_number self.old) location)
            × (self.new ≡ source_at (next_number self.old + 1))) }
        ensures spent { OnErr result (next_number self.old ≡ 2 ^ 64 - 1) }
        ensures last { next_number self.old ≡ 2 ^ 64 - 1 → IsErr result }
        ensures err { OnErr result (self.new ≡ self.old) }
    {
        let number = self.next;
        let Some(next) = number.checked_add(1) else {
            return Err(IdsSpent);
        };
        self.next = next;
        Ok(ExtensionId { number, location })
    }
}

/// The identity of an extension, and that extension's location, if it is known.
///
/// Identities are equal and hashed by their numbers: the location is left out.
#[derive(Clone, Copy, Debug)]
pub struct ExtensionId {
    number: u64,
    location: Option<SourceSpan>,
}

impl ExtensionId {
    /// The next identity of the source, at the location of this node, which holds the extension. It is
    /// refused as [`ExtensionSource::draw`] is.
    pub fn new<T>(
        source: &mut ExtensionSource,
        extension: &Node<T>,
    ) -> Result<ExtensionId, IdsSpent>
        ensures drawn { IfOk result (λ id. (id ≡ extension_id (next_number source.old) extension.now.location)
            × (source.new ≡ source_at (next_number source.old + 1))) }
        ensures spent { OnErr result (next_number source.old ≡ 2 ^ 64 - 1) }
        ensures last { next_number source.old ≡ 2 ^ 64 - 1 → IsErr result }
        ensures err { OnErr result (source.new ≡ source.old) }
    {
        source.draw(extension.location())
    }

    /// The number that the source answered.
    pub fn number(&self) -> u64
        ensures { result ≡ number_of self.now }
    {
        self.number
    }

    /// Where the extension stands in a source, if it is known.
    pub fn location(&self) -> Option<SourceSpan>
        ensures { result ≡ extension_location self.now }
    {
        self.location
    }

    /// A node at the location of the extension. The error is out of memory, and drops the value.
    pub fn same_location<T: Drop>(&self, alloc: Global, value: T) -> Result<Node<T>, AllocError>
        ensures { IfOk result (λ n. n ≡ record { value = value; location = extension_location self.now }) }
    {
        Node::new_opt_location(alloc, value, self.location)
    }
}

impl PartialEq for ExtensionId {
    ghost eq = { λ a b. nat_eq a.number b.number };

    ghost laws = { on_per (λ a. a.number) (Cmp.partial_equiv_from_equiv Cmp.nat_eq_equiv) };

    fn eq(&self, other: &ExtensionId) -> bool {
        self.number == other.number
    }
}

impl Eq for ExtensionId {
    ghost laws = { on_equiv (λ a. a.number) Cmp.nat_eq_equiv };
}

impl Hash for ExtensionId {
    ghost hash_input = { λ a. fed.u64 a.number };

    ghost respects_eq = { Prim.search (hashing, rules) };

    fn hash<H: Hasher>(&self, state: &mut H) {
        self.number.hash(state)
    }
}

/// Where a component comes from: the definition, or an extension, of its type or of the schema (sections
/// 3.3.2 and 3.4.3).
///
/// Origins are equal where both are the definition, or extensions of one number.
#[derive(Clone, Copy, Debug, PartialEq, Eq, Hash)]
pub enum ComponentOrigin {
    Definition,
    Extension(ExtensionId),
}

impl ComponentOrigin {
    /// The identity of the extension, if the origin is one.
    pub fn extension_id(&self) -> Option<&ExtensionId>
        ensures { option_copied result ≡ id_of self.now }
    {
        match self {
            ComponentOrigin::Definition => None,
            ComponentOrigin::Extension(id) => Some(id),
        }
    }
}
