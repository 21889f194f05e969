//! The sets that a walk over an operation has open, and one turn over them: GraphQL specification of
//! October 2021, sections 2.4 to 2.8.
ghost use Rattle.std.specs.Prelude.{◌≡◌, [], ◌∷◌, length, IfOk, OnOk, IfNone, IfSome};

use crate::marks;
use crate::occurrence::FieldOccurrence;
use apollo_executable::document::ExecutableDocument;
use apollo_executable::selection::{FragmentSpread, Selection, SelectionSet};
use graphql_nodes::name::NamedType;
use graphql_nodes::node::Node;
use std::alloc::{AllocError, Global};

/// What is left of a set: its type, and the selections that are still to be looked at.
#[derive(Drop)]
pub(crate) struct OpenSet<'doc> {
    ty: &'doc NamedType,
    rest: &'doc [Selection],
}

/// The sets that a walk has open, the innermost one last. A fragment that was opened is marked at its
/// place in the map of fragments.
#[derive(Drop)]
pub(crate) struct OpenSets<'doc> {
    document: &'doc ExecutableDocument,
    open: Vec<OpenSet<'doc>>,
    opened: Vec<bool>,
    ghost marks: { length opened.items ≡ length document.now.fragments },
}

impl<'doc> OpenSets<'doc> {
    ghost use Rattle.apollo_field_usage.specs.Left.{lists_of, left_of, all_to_come, IsSpreadTurn, IsTurn};
    ghost use Rattle.apollo_field_usage.specs.Seen.{seen_set};

    /// This set is open, and no fragment is opened. The error is that memory ran out.
    pub(crate) fn new(
        alloc: Global,
        document: &'doc ExecutableDocument,
        set: &'doc SelectionSet,
    ) -> Result<OpenSets<'doc>, AllocError>
        ensures { IfOk result (λ sets. left_of sets ≡ all_to_come document.now set.now) }
    {
        let mut sets = OpenSets {
            document,
            open: Vec::new(alloc),
            opened: marks::no_marks(alloc, document.fragments.len())?,
        };
        sets.open(set)?;
        Ok(sets)
    }

    /// Opens a set. The error is that memory ran out.
    fn open(&mut self, set: &'doc SelectionSet) -> Result<(), AllocError>
        ensures document { self.new.document ≡ self.old.document }
        ensures opened { self.new.opened ≡ self.old.opened }
        ensures lists { OnOk result
            (lists_of self.new ≡ (set.now.ty, set.now.selections) ∷ lists_of self.old) }
    {
        self.open.push(OpenSet {
            ty: &set.ty,
            rest: set.selections.as_slice(),
        })?;
        Ok(())
    }

    /// Opens the fragment of a spread, if there is one that is not opened yet. The error is that memory
    /// ran out.
    fn open_fragment(&mut self, spread: &Node<FragmentSpread>) -> Result<(), AllocError>
        ensures document { self.new.document ≡ self.old.document }
        ensures turn { OnOk result (IsSpreadTurn self.old spread.now self.new) }
    {
        let Some((place, _, fragment)) = self.document.fragments.get_full(&spread.fragment_name)
        else {
            return Ok(());
        };
        if self.opened[place] {
            return Ok(());
        }
        self.open(&fragment.selection_set)?;
        marks::mark(&mut self.opened, place);
        Ok(())
    }

    /// Takes out the innermost set.
    pub(crate) fn innermost(&mut self) -> Option<OpenSet<'doc>>
        ensures document { self.new.document ≡ self.old.document }
        ensures opened { self.new.opened ≡ self.old.opened }
        ensures none { IfNone result (lists_of self.old ≡ []) }
        ensures some { IfSome result (λ set. lists_of self.old ≡ seen_set set ∷ lists_of self.new) }
    {
        self.open.pop()
    }

    /// One turn: a look at a set that was the innermost one. It answers the field that stands first
    /// there, if one does. The error is that memory ran out.
    pub(crate) fn turn(
        &mut self,
        set: OpenSet<'doc>,
    ) -> Result<Option<FieldOccurrence<'doc>>, AllocError>
        ensures document { self.new.document ≡ self.old.document }
        ensures turn { IfOk result (λ found. IsTurn self.old (seen_set set.entry) found self.new) }
    {
        let OpenSet { ty, rest } = set;
        let Some((first, rest)) = rest.split_first() else {
            return Ok(None);
        };
        self.open.push(OpenSet { ty, rest })?;
        match first {
            Selection::Field(field) => {
                if !field.selection_set.is_empty() {
                    self.open(&field.selection_set)?;
                }
                Ok(Some(FieldOccurrence { ty, field }))
            }
            Selection::InlineFragment(inline) => {
                self.open(&inline.selection_set)?;
                Ok(None)
            }
            Selection::FragmentSpread(spread) => {
                self.open_fragment(spread)?;
                Ok(None)
            }
        }
    }
}
