//! The lists that a walk has open, and one turn over them.
ghost use Rattle.std.specs.Prelude.{◌≡◌, [], ◌∷◌, ◌++◌, OnOk, OnErr, false};
ghost use Rattle.apollo_walks.specs.Selections.{no_names};

use crate::document::ExecutableDocument;
use crate::selection::{Field, FragmentSpread, Selection, SelectionSet};
use crate::walks::flags;
use crate::walks::left::walks_are_left_by_turn;
use graphql_nodes::node::Node;
use std::alloc::{AllocError, Global};

/// The lists that a walk has open: the innermost one, and those that wait until it is closed. A fragment that
/// was opened is marked at its place in the map of fragments. There is room for the marks from the first
/// fragment on that is opened.
#[derive(Drop)]
pub(crate) struct OpenLists<'doc> {
    document: &'doc ExecutableDocument,
    current: &'doc [Selection],
    waiting: Vec<&'doc [Selection]>,
    opened: Vec<bool>,
    /// Whether the lists below fields are opened.
    deep: bool,
    pub(crate) ended: bool,
}

impl<'doc> OpenLists<'doc> {
    ghost use Rattle.apollo_executable.specs.Walks.Plain.{below_of};
    ghost use Rattle.apollo_executable.specs.Walks.Left.{lists_of, names_opened, AreSameLists, IsSpreadTurn};
    ghost use Rattle.apollo_executable.specs.Walks.Left.{IsTurn};

    /// The list of this set.
    pub(crate) fn new(
        alloc: Global,
        document: &'doc ExecutableDocument,
        set: &'doc SelectionSet,
        deep: bool,
    ) -> OpenLists<'doc>
        ensures document { result.document ≡ document.entry }
        ensures deep { result.deep ≡ deep }
        ensures ended { result.ended ≡ false }
        ensures lists { lists_of result ≡ set.now.selections ∷ [] }
        ensures opened { names_opened result ≡ no_names }
    {
        OpenLists {
            document,
            current: set.selections.as_slice(),
            waiting: Vec::new(alloc),
            opened: Vec::new(alloc),
            deep,
            ended: false,
        }
    }

    /// Opens a list, and leaves the rest of the innermost one for later. After the error, that memory ran
    /// out, all is as it was.
    fn open(&mut self, list: &'doc [Selection], rest: &'doc [Selection]) -> Result<(), AllocError>
        ensures document { self.new.document ≡ self.old.document }
        ensures opened { self.new.opened ≡ self.old.opened }
        ensures deep { self.new.deep ≡ self.old.deep }
        ensures ended { self.new.ended ≡ self.old.ended }
        ensures current { OnOk result (self.new.current.now ≡ list.now) }
        ensures waiting { OnOk result (self.new.waiting.items ≡ self.old.waiting.items ++ rest.entry ∷ []) }
        ensures refused { OnErr result (AreSameLists self.old self.new) }
    {
        self.waiting.push(rest)?;
        self.current = list;
        Ok(())
    }

    /// Opens the fragment of a spread, if there is one that is not opened yet, and leaves the rest of the
    /// innermost list for later. After the error, that memory ran out, all is as it was.
    fn open_fragment(
        &mut self,
        spread: &Node<FragmentSpread>,
        rest: &'doc [Selection],
    ) -> Result<(), AllocError>
        ensures document { self.new.document ≡ self.old.document }
        ensures deep { self.new.deep ≡ self.old.deep }
        ensures ended { self.new.ended ≡ self.old.ended }
        ensures turn { OnOk result (IsSpreadTurn self.old spread.now rest.now self.new) }
        ensures refused { OnErr result (AreSameLists self.old self.new) }
    {
        walks_are_left_by_turn();
        let fragments = &self.document.fragments;
        let Some((place, _, fragment)) = fragments.get_full(&spread.fragment_name) else {
            self.current = rest;
            return Ok(());
        };
        if flags::is_marked(self.opened.as_slice(), place) {
            self.current = rest;
            return Ok(());
        }
        flags::make_room(&mut self.opened, fragments.len())?;
        self.open(fragment.selection_set.selections.as_slice(), rest)?;
        flags::mark(&mut self.opened, place);
        Ok(())
    }

    /// What is opened below a field.
    fn below(&self, field: &'doc Field) -> &'doc [Selection]
        ensures { result.now ≡ below_of self.now.deep field.now }
    {
        if self.deep {
            field.selection_set.selections.as_slice()
        } else {
            &[]
        }
    }

    /// One turn: a look at the innermost open list. It answers the field that stands first there, if one
    /// does. After the error, that memory ran out, all is as it was.
    pub(crate) fn turn(&mut self) -> Result<Option<&'doc Node<Field>>, AllocError>
        requires { self.old.ended ≡ false }
        ensures document { self.new.document ≡ self.old.document }
        ensures deep { self.new.deep ≡ self.old.deep }
        ensures turn { IsTurn self.old result self.new }
    {
        walks_are_left_by_turn();
        match self.current.split_first() {
            None => {
                match self.waiting.pop() {
                    None => self.ended = true,
                    Some(list) => self.current = list,
                }
                Ok(None)
            }
            Some((first, rest)) => match first {
                Selection::Field(field) => {
                    let below = self.below(field);
                    if below.is_empty() {
                        self.current = rest;
                    } else {
                        self.open(below, rest)?;
                    }
                    Ok(Some(field))
                }
                Selection::InlineFragment(inline) => {
                    self.open(inline.selection_set.selections.as_slice(), rest)?;
                    Ok(None)
                }
                Selection::FragmentSpread(spread) => {
                    self.open_fragment(spread, rest)?;
                    Ok(None)
                }
            },
        }
    }
}
