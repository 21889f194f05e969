//! The fields of a selection set, one by one: GraphQL specification of October 2021, section 2.5.
ghost use Rattle.std.specs.Prelude.{◌≡◌, length, filter_map};
ghost use Rattle.std.specs.Iterator.{at_most};
ghost use Rattle.std.specs.Map.Iter.{TakesFirst, deref};
ghost use Rattle.graphql_nodes.specs.NodeView.{NodeView};
ghost use Rattle.apollo_executable.specs.SelectionParts.{as_field, FieldsInOrder};
ghost use Rattle.apollo_executable.specs.declared.selection.Field as field;

use crate::selection::{Field, Selection};
use graphql_nodes::node::Node;
use std::iter::FusedIterator;
use std::marker::Model;
use std::slice::Iter;

/// The fields among some selections, in order. Contracts see the list of those that are still to come.
#[derive(Drop)]
pub struct Fields<'a> {
    selections: Iter<'a, Selection>,
}

impl<'a> Model for Fields<'a> {
    ghost use Rattle.std.specs.Prelude.{List, filter_map};
    ghost use Rattle.std.specs.Coded.{coded_list};
    ghost use Rattle.std.specs.Slice.Iter.{iter_rest};
    ghost use Rattle.graphql_nodes.specs.NodeView.{NodeView};
    ghost use Rattle.graphql_nodes.specs.contracts.node.Node as node;
    ghost use Rattle.apollo_executable.specs.SelectionParts.{as_field};
    ghost use Rattle.apollo_executable.specs.declared.selection.Field as field;
    ghost use Rattle.apollo_executable.specs.contracts.selection.Field as field_row;

    ghost Value = { List (NodeView field.Field) };

    ghost coded = { coded_list (node.the_row field_row.the_row).coded };

    ghost view = { λ fields. filter_map as_field (iter_rest fields.selections) };
}

impl<'a> Fields<'a> {
    /// The fields among these selections.
    pub(crate) fn new(selections: &'a [Selection]) -> Fields<'a>
        ensures rest { result ≡ filter_map as_field selections.now }
        ensures runs { FieldsInOrder }
    {
        Fields {
            selections: selections.iter(),
        }
    }
}

impl<'a> Iterator for Fields<'a> {
    type Item = &'a Node<Field>;

    ghost next_gives = { TakesFirst (deref {X = NodeView field.Field}) };

    ghost remaining = { λ left. at_most (length left) };

    /// The first field that is left, after which the rest is left. Once none is left it answers none, from
    /// then on too.
    fn next(&mut self) -> Option<&'a Node<Field>> {
        while let Some(selection) = self.selections.next() {
            if let Some(field) = selection.as_field() {
                return Some(field);
            }
        }
        None
    }
}

impl<'a> FusedIterator for Fields<'a> {}
