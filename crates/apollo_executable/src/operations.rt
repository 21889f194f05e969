//! The operations of a document, one by one: GraphQL specification of October 2021, section 2.3.
ghost use Rattle.std.specs.Prelude.{◌≡◌, length};
ghost use Rattle.std.specs.Iterator.{at_most};
ghost use Rattle.std.specs.Map.Iter.{TakesFirst, deref};
ghost use Rattle.apollo_executable.specs.Operations.{OperationsInOrder, all_operations};
ghost use Rattle.apollo_executable.specs.declared.operation.Operation.{Operation};
ghost use Rattle.graphql_nodes.specs.NodeView.{NodeView};

use crate::operation::Operation;
use crate::operation_map::OperationMap;
use graphql_nodes::collections::elements::Elements;
use graphql_nodes::node::Node;
use std::iter::FusedIterator;
use std::marker::Model;

/// The operations of a document: the anonymous one, if there is one, and then the named ones. Contracts see
/// the list of those that are still to come.
#[derive(Drop)]
pub struct Operations<'a> {
    anonymous: Option<&'a Node<Operation>>,
    named: Elements<'a, Node<Operation>>,
}

impl<'a> Model for Operations<'a> {
    ghost use Rattle.std.specs.Prelude.{List, ◌++◌};
    ghost use Rattle.std.specs.Coded.{coded_list};
    ghost use Rattle.std.specs.Option.{option_copied};
    ghost use Rattle.graphql_nodes.specs.NodeView.{NodeView};
    ghost use Rattle.graphql_nodes.specs.contracts.node.Node as node;
    ghost use Rattle.apollo_executable.specs.contracts.operation.Operation as operation;
    ghost use Rattle.apollo_executable.specs.Listed.{listed};
    ghost use Rattle.apollo_executable.specs.declared.operation.Operation.{Operation};

    ghost Value = { List (NodeView Operation) };

    ghost coded = { coded_list (node.the_row operation.the_row).coded };

    ghost view = { λ operations. listed (option_copied operations.anonymous) ++ operations.named };
}

impl<'a> Operations<'a> {
    /// The operations of this map.
    pub(crate) fn new(map: &'a OperationMap) -> Operations<'a>
        ensures rest { result ≡ all_operations map.now }
        ensures runs { OperationsInOrder }
    {
        Operations {
            anonymous: map.anonymous.as_ref(),
            named: map.named.values(),
        }
    }
}

impl<'a> Iterator for Operations<'a> {
    type Item = &'a Node<Operation>;

    ghost next_gives = { TakesFirst (deref {X = NodeView Operation}) };

    ghost remaining = { λ left. at_most (length left) };

    /// The first operation that is left, after which the rest is left. Once none is left it answers none,
    /// from then on too.
    fn next(&mut self) -> Option<&'a Node<Operation>> {
        match self.anonymous.take() {
            Some(operation) => Some(operation),
            None => self.named.next(),
        }
    }
}

impl<'a> FusedIterator for Operations<'a> {}
