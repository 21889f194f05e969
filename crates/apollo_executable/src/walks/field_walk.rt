//! The fields of a walk, one by one: GraphQL specification of October 2021, sections 2.4, 2.8 and 6.3.2.
ghost use Rattle.std.specs.Prelude.{◌≡◌, ◌-◌, ◌^◌, min};
ghost use Rattle.std.specs.Iterator.{at_most};
ghost use Rattle.apollo_executable.specs.Walks.NextItem.{IsNext, most_items};
ghost use Rattle.apollo_executable.specs.Walks.WalkView.{IsWithinTurns};

use crate::selection::Field;
use crate::walks::walk::Walk;
use graphql_nodes::node::Node;
use std::alloc::AllocError;
use std::iter::FusedIterator;
use std::marker::Model;

/// A walk over the fields that a selection set reaches, through inline fragments and named ones.
/// [`RootFields`] and [`AllFields`] name its two sorts, which
/// [`root_fields`](crate::selection::SelectionSet::root_fields) and
/// [`all_fields`](crate::selection::SelectionSet::all_fields) make.
///
/// A fragment is opened at the first spread of its name, and spreads of names without a fragment are passed
/// over. An item may be the one error, that memory ran out. Nothing comes after it, and what came before is a
/// beginning of what the walk gives with memory. Contracts see what is still to come.
#[derive(Drop)]
pub struct FieldWalk<'doc> {
    pub(crate) walk: Walk<'doc>,
}

/// A walk over root fields: it goes through fragments, but below no field. GraphQL specification of October
/// 2021, section 6.3.2.
pub type RootFields<'doc> = FieldWalk<'doc>;

/// A walk over all fields, through fragments and below fields: each field comes before those below it.
/// GraphQL specification of October 2021, sections 2.4 and 2.8.
pub type AllFields<'doc> = FieldWalk<'doc>;

impl<'doc> Model for FieldWalk<'doc> {
    ghost use Rattle.graphql_nodes.specs.contracts.node.Node as node;
    ghost use Rattle.apollo_executable.specs.contracts.document.ExecutableDocument as document;
    ghost use Rattle.apollo_executable.specs.contracts.selection.SelectionSet as set;
    ghost use Rattle.apollo_executable.specs.contracts.selection.Field as field;
    ghost use Rattle.apollo_executable.specs.Walks.WalkView.{WalkView, walk_view_code};
    ghost use Rattle.apollo_executable.specs.Walks.Seen.{seen};

    ghost Value = { WalkView };

    ghost coded = { walk_view_code document.the_row.coded set.the_row.coded
        (node.the_row field.the_row).coded };

    ghost view = { λ fields. seen fields.walk };
}

impl<'doc> FieldWalk<'doc> {
    /// The turns so far, or `u64::MAX` where they are more. A turn is one look at the innermost open list:
    /// one selection taken, or one list found empty and closed.
    ///
    /// Before the first `next` there are none, and at the end they are all turns of the walk. They are at
    /// most two for each selection in reach, and one. In reach are the selections of the set and of the
    /// fragments that it leads to, of [`AllFields`] those below fields too. After the error they are more
    /// than before it.
    pub fn turns(&self) -> u64
        ensures turns { result ≡ min self.now.taken (2 ^ 64 - 1) }
        ensures few { IsWithinTurns self.now.deep self.now.document self.now.start self.now.taken }
    {
        self.walk.turns()
    }
}

impl<'doc> Iterator for FieldWalk<'doc> {
    type Item = Result<&'doc Node<Field>, AllocError>;

    ghost next_gives = { IsNext };

    ghost remaining = { λ walk. at_most (most_items walk) };

    /// The first field that is to come, or the one error, that memory ran out. None says that the walk has
    /// ended. After the error, or after none, there is none for good, and the walk stays as it is.
    fn next(&mut self) -> Option<Result<&'doc Node<Field>, AllocError>> {
        self.walk.advance()
    }
}

impl<'doc> FusedIterator for FieldWalk<'doc> {}
