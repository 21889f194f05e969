//! The operations of a document: GraphQL specification of October 2021, sections 2.3 and 6.1.
ghost use Rattle.std.specs.Prelude.{◌≡◌, ◌==◌, None, Some, length, IfOk, IfErr, OnOk, OnErr, IsSome};
ghost use Rattle.std.specs.Prelude.{option_map};
ghost use Rattle.std.specs.Borrow.{sem};
ghost use Rattle.std.specs.Option.{option_copied, option_copied_mut};
ghost use Rattle.apollo_executable.specs.Requests.{request_error};

use crate::operation::Operation;
use crate::operations::Operations;
use crate::request_error::RequestError;
use graphql_nodes::collections::hash_keys::HashKeys;
use graphql_nodes::collections::table::Table;
use graphql_nodes::name::Name;
use graphql_nodes::node::Node;
use graphql_nodes::take_apart;
use std::alloc::Global;

/// The anonymous operation of a document, if there is one, and its named operations under their names, in
/// order.
///
/// Maps are equal where their anonymous operations are, and those under each name, in any order. A clone is
/// the original, with locations; its error is out of memory.
#[derive(Debug, PartialEq, Eq, Clone)]
pub struct OperationMap {
    pub anonymous: Option<Node<Operation>>,
    pub named: Table<Name, Node<Operation>>,
}

impl Drop for OperationMap {
    fn drop(self) {
        take_apart!(self: anonymous, named);
    }
}

/// Why a request of this name is answered without an operation.
fn refusal<'n>(name: Option<&'n Name>) -> RequestError<'n>
    ensures { result ≡ request_error name.entry }
{
    match name {
        Some(name) => RequestError::NoSuchOperation(name),
        None => RequestError::Ambiguous,
    }
}

impl OperationMap {
    ghost use Rattle.apollo_executable.specs.Operations.{all_operations, OperationsInOrder, no_operations};
    ghost use Rattle.apollo_executable.specs.Operations.{operation_called, with_operation, the_only};
    ghost use Rattle.apollo_executable.specs.Requests.{requested, IsRefusal};
    ghost use Rattle.apollo_executable.specs.OperationLending.{LendsOperation, LendsNode};

    /// No operation, in a map that hashes by fixed keys. It takes no memory.
    pub fn new(alloc: Global) -> OperationMap
        ensures { result ≡ no_operations }
    {
        OperationMap::with_keys(alloc, HashKeys::FIXED)
    }

    /// No operation, in a map that hashes by these keys: those of a schema, for a document from strangers. It
    /// takes no memory.
    pub fn with_keys(alloc: Global, keys: HashKeys) -> OperationMap
        ensures { result ≡ no_operations }
    {
        OperationMap {
            anonymous: None,
            named: Table::with_keys(alloc, keys),
        }
    }

    /// One operation, under its name if it has one, in a map that hashes by fixed keys. When memory runs out,
    /// which an anonymous operation doesn't meet, the error is the operation.
    pub fn from_one(
        alloc: Global,
        operation: Node<Operation>,
    ) -> Result<OperationMap, Node<Operation>>
        ensures ok { IfOk result (λ map. map ≡ with_operation no_operations operation) }
        ensures handed_back { IfErr result (λ refused. refused ≡ operation) }
        ensures named { OnErr result (IsSome operation.value.name) }
    {
        let mut map = OperationMap::new(alloc);
        map.insert(operation)?;
        Ok(map)
    }

    /// Whether there is no operation.
    pub fn is_empty(&self) -> bool
        ensures { result ≡ (length (all_operations self.now) == 0) }
    {
        self.anonymous.is_none() && self.named.is_empty()
    }

    /// How many operations there are.
    pub fn len(&self) -> usize
        ensures { result ≡ length (all_operations self.now) }
    {
        match &self.anonymous {
            Some(_) => self.named.len() + 1,
            None => self.named.len(),
        }
    }

    /// The operations, one by one: the anonymous one, if there is one, and then the named ones, in order.
    pub fn iter(&self) -> Operations<'_>
        ensures rest { result ≡ all_operations self.now }
        ensures runs { OperationsInOrder }
    {
        Operations::new(self)
    }

    /// The operation that a request asks for (section 6.1): the one of the name, or without a name the only
    /// one of the document.
    ///
    /// [`RequestError::NoSuchOperation`] says that there is none of the name; without a name the error is
    /// [`RequestError::Ambiguous`], for no operation too. It takes no memory, so [`RequestError::Memory`]
    /// doesn't come.
    pub fn get<'n>(&self, name: Option<&'n Name>) -> Result<&Node<Operation>, RequestError<'n>>
        ensures found { IfOk result (λ operation. requested self.now (option_copied name.entry)
            ≡ Some operation.now) }
        ensures none { OnErr result (requested self.now (option_copied name.entry) ≡ None) }
        ensures error { IfErr result (λ error. error ≡ request_error name.entry) }
    {
        match self.requested(name) {
            Some(operation) => Ok(operation),
            None => Err(refusal(name)),
        }
    }

    /// The operation that a request asks for, if there is one.
    fn requested(&self, name: Option<&Name>) -> Option<&Node<Operation>>
        ensures { option_copied result ≡ requested self.now (option_copied name.entry) }
    {
        match name {
            Some(name) => self.named.get(name),
            None => self.only(),
        }
    }

    /// The operation of the document, if there is one and no other.
    fn only(&self) -> Option<&Node<Operation>>
        ensures { option_copied result ≡ the_only (all_operations self.now) }
    {
        if self.len() != 1 {
            return None;
        }
        self.iter().next()
    }

    /// The operation that a request asks for, to write to, as [`get`](OperationMap::get) finds it. When the
    /// loan ends, it is what was written. Its location, its place in the map and the key that it stands under
    /// stay, and so do all other operations.
    ///
    /// An operation that is shared is copied first: [`RequestError::Memory`] is out of memory for that, and
    /// comes only where `get` finds an operation. The other errors are those of `get`. After any error the
    /// map is as it was.
    pub fn get_mut<'n>(
        &mut self,
        name: Option<&'n Name>,
    ) -> Result<&mut Operation, RequestError<'n>>
        ensures* writes_back { sem 𝓛 (LendsOperation self.entry (option_copied name.entry) result) }
        ensures found { IfOk result
            (λ operation. option_map (λ o. o.value) (requested self.old (option_copied name.entry))
            ≡ Some operation.now) }
        ensures error { IfErr result (IsRefusal (requested self.old (option_copied name.entry)) name.entry) }
    {
        match self.requested_mut(name) {
            Some(node) => Ok(node.make_mut()?),
            None => Err(refusal(name)),
        }
    }

    /// The node of the operation that a request asks for, to write to.
    fn requested_mut(&mut self, name: Option<&Name>) -> Option<&mut Node<Operation>>
        ensures* writes_back { sem 𝓛 (LendsNode self.entry (option_copied name.entry) result) }
        ensures found { option_copied_mut result ≡ requested self.old (option_copied name.entry) }
    {
        match name {
            Some(name) => self.named.get_mut(name),
            None => self.only_mut(),
        }
    }

    /// The node of the operation of the document, if there is one and no other, to write to.
    fn only_mut(&mut self) -> Option<&mut Node<Operation>>
        ensures* writes_back { sem 𝓛 (LendsNode self.entry None result) }
        ensures found { option_copied_mut result ≡ the_only (all_operations self.old) }
    {
        if self.len() != 1 {
            return None;
        }
        if self.anonymous.is_some() {
            return self.anonymous.as_mut();
        }
        self.named.get_index_mut(0)
    }

    /// Puts the operation under its name, or makes it the anonymous one if it has none. Answers the operation
    /// that stood there, if one did. Under a name that is there it has that one's place, and under a new one
    /// it goes last.
    ///
    /// The error is out of memory: it is the operation, and the map is as it was. An anonymous operation
    /// takes no memory.
    pub fn insert(
        &mut self,
        operation: Node<Operation>,
    ) -> Result<Option<Node<Operation>>, Node<Operation>>
        ensures old { IfOk result (λ old. old ≡ operation_called self.old operation.value.name) }
        ensures stored { OnOk result (self.new ≡ with_operation self.old operation) }
        ensures handed_back { IfErr result (λ refused. refused ≡ operation) }
        ensures unchanged { OnErr result (self.new ≡ self.old) }
        ensures named { OnErr result (IsSome operation.value.name) }
    {
        let Some(name) = &operation.name else {
            return Ok(self.anonymous.replace(operation));
        };
        let Ok(name) = name.clone() else {
            return Err(operation);
        };
        match self.named.insert(name, operation) {
            Ok(old) => Ok(old),
            Err(refused) => Err(refused.value.1),
        }
    }
}
