//! The roots of a schema's definition: GraphQL specification of October 2021, section 3.3.1.
ghost use Rattle.std.specs.Prelude.{◌≡◌, length, IfSome};
ghost use Rattle.std.specs.Iterator.{UpTo, at_most};
ghost use Rattle.std.specs.Iterator.SizeHint.{IsWithinCount, IsExactHint};
ghost use Rattle.std.specs.Map.Iter.{TakesFirst};
ghost use Rattle.apollo_types.specs.Components.{RootsInOrder};
ghost use Rattle.apollo_types.specs.SchemaRoots.{named_roots, deref_root};

use crate::schema_definition::{OPERATION_TYPES, SchemaDefinition};
use apollo_component::component::ComponentName;
use graphql_nodes::operation_type::OperationType;
use std::iter::FusedIterator;
use std::marker::Model;
use std::slice::Iter;

/// The roots of a schema's definition, each beside its operation type: query, mutation, subscription.
/// Contracts see the list of those that are still to come.
#[derive(Drop)]
pub struct RootOperations<'a> {
    definition: &'a SchemaDefinition,
    operation_types: Iter<'static, OperationType>,
}

impl<'a> Model for RootOperations<'a> {
    ghost use Rattle.std.specs.Prelude.{List, filter_map};
    ghost use Rattle.std.specs.Slice.Iter.{iter_rest};
    ghost use Rattle.graphql_nodes.specs.declared.operation_type.OperationType.{OperationType};
    ghost use Rattle.apollo_component.specs.declared.component.ComponentName.{ComponentName};

    ghost Value = { List (OperationType × ComponentName) };

    ghost use Rattle.apollo_types.specs.SchemaRoots.{named_root};

    ghost view = { λ roots. filter_map (named_root roots.definition.now) (iter_rest roots.operation_types) };
}

impl<'a> RootOperations<'a> {
    /// The roots of this definition.
    pub(crate) fn new(definition: &'a SchemaDefinition) -> RootOperations<'a>
        ensures rest { result ≡ named_roots definition.now }
        ensures runs { RootsInOrder }
    {
        RootOperations {
            definition,
            operation_types: OPERATION_TYPES.iter(),
        }
    }
}

impl<'a> Iterator for RootOperations<'a> {
    type Item = (OperationType, &'a ComponentName);

    ghost next_gives = { TakesFirst deref_root };

    ghost remaining = { λ left. at_most (length left) };

    /// The first root that is left, after which the rest is left. Once none is left it answers none, from
    /// then on too.
    fn next(&mut self) -> Option<(OperationType, &'a ComponentName)> {
        while let Some(operation_type) = self.operation_types.next() {
            if let Some(root) = self.definition.root_operation(*operation_type) {
                return Some((*operation_type, root));
            }
        }
        None
    }

    /// How many roots are left, as both bounds.
    fn size_hint(&self) -> (usize, Option<usize>)
        ensures lower { IsWithinCount result.0 (at_most (length self.now)) }
        ensures upper { IfSome result.1 (UpTo (at_most (length self.now))) }
        ensures exact { IsExactHint result (length self.now) }
    {
        let len = self.len();
        (len, Some(len))
    }
}

impl<'a> ExactSizeIterator for RootOperations<'a> {
    /// How many roots are left.
    fn len(&self) -> usize {
        let mut count = 0;
        for operation_type in self.operation_types.as_slice() {
            if self.definition.root_operation(*operation_type).is_some() {
                count += 1;
            }
        }
        count
    }
}

impl<'a> FusedIterator for RootOperations<'a> {}
