//! A walk, whether below fields or not, with its turns counted.
ghost use Rattle.std.specs.Prelude.{◌≡◌, ◌<◌, ◌≤◌, ◌-◌, ◌^◌, min, false, is_err, OnOk};
ghost use Rattle.apollo_executable.specs.Walks.Left.{IsTurn, left_of, whole_walk};
ghost use Rattle.apollo_executable.specs.Walks.WalkView.{IsNewWalk, IsWithinTurns};
ghost use Rattle.apollo_executable.specs.Walks.Taken.{turns_taken};

use crate::document::ExecutableDocument;
use crate::selection::{Field, SelectionSet};
use crate::walks::left::walks_are_left_by_turn;
use crate::walks::open_lists::OpenLists;
use graphql_nodes::node::Node;
use std::alloc::{AllocError, Global};

/// A walk over the fields of a selection set. The turns that it took are those of the whole walk but those
/// that are left. The turn in which memory ran out, if it did, is one more. `turns` is their number, as far
/// as it can hold it.
#[derive(Drop)]
pub(crate) struct Walk<'doc> {
    start: &'doc SelectionSet,
    lists: OpenLists<'doc>,
    turns: u64,
    refused: bool,
    ghost left_over: { (left_of lists).turns ≤ (whole_walk lists.deep lists.document.now start.now).turns },
    ghost left_open: { (left_of lists).opened ≡ (whole_walk lists.deep lists.document.now start.now).opened },
    ghost counted: { turns ≡ min
        (turns_taken (whole_walk lists.deep lists.document.now start.now) (left_of lists) refused)
        (2 ^ 64 - 1) },
    ghost bounded: { turns_taken (whole_walk lists.deep lists.document.now start.now) (left_of lists) refused
        ≤ (whole_walk lists.deep lists.document.now start.now).turns },
}

impl<'doc> Walk<'doc> {
    ghost use Rattle.apollo_executable.specs.Walks.NextItem.{IsNext};
    ghost use Rattle.apollo_executable.specs.Walks.Seen.{seen};
    ghost use Rattle.apollo_executable.specs.Walks.Step.{IsStep};

    /// A walk over a set, which goes below fields if it is `deep`.
    pub(crate) fn new(
        alloc: Global,
        document: &'doc ExecutableDocument,
        set: &'doc SelectionSet,
        deep: bool,
    ) -> Walk<'doc>
        ensures { IsNewWalk deep document.now set.now (seen result) }
    {
        walks_are_left_by_turn();
        Walk {
            start: set,
            lists: OpenLists::new(alloc, document, set, deep),
            turns: 0,
            refused: false,
        }
    }

    /// The turns so far, as far as they can be said.
    pub(crate) fn turns(&self) -> u64
        ensures turns { result ≡ min (seen self.now).taken (2 ^ 64 - 1) }
        ensures few { IsWithinTurns self.now.lists.deep self.now.lists.document.now self.now.start.now
            (seen self.now).taken }
    {
        walks_are_left_by_turn();
        self.turns
    }

    /// One turn, counted. After the error, that memory ran out, no turn is to come.
    fn turn(&mut self) -> Result<Option<&'doc Node<Field>>, AllocError>
        requires going { self.old.lists.ended ≡ false }
        requires fine { self.old.refused ≡ false }
        ensures start { self.new.start ≡ self.old.start }
        ensures document { self.new.lists.document ≡ self.old.lists.document }
        ensures deep { self.new.lists.deep ≡ self.old.lists.deep }
        ensures turn { IsTurn self.old.lists result self.new.lists }
        ensures refused { self.new.refused ≡ is_err result }
        ensures step { IsStep (seen self.old) result (seen self.new) }
        ensures less { OnOk result ((left_of self.new.lists).turns < (left_of self.old.lists).turns) }
    {
        walks_are_left_by_turn();
        let turn = self.lists.turn();
        self.turns = self.turns.saturating_add(1);
        self.refused = turn.is_err();
        turn
    }

    /// The next field, after as many turns as it takes.
    pub(crate) fn advance(&mut self) -> Option<Result<&'doc Node<Field>, AllocError>>
        ensures { IsNext (seen self.old) result (seen self.new) }
    {
        walks_are_left_by_turn();
        if self.refused {
            return None;
        }
        while !self.lists.ended {
            match self.turn() {
                Ok(Some(field)) => return Some(Ok(field)),
                Ok(None) => {}
                Err(error) => return Some(Err(error)),
            }
        }
        None
    }
}
