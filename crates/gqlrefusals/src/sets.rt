//! Sets of selections as syntax, and walks over them, item by item and whole.

use crate::stop::{Stop, Told, expect, tell_line};
use apollo_executable::{ExecutableDocument, Field, FieldWalk, Selection, SelectionSet};
use graphql_nodes::node::Node;
use std::alloc::{AllocError, Global};
use telling::walks::{End, push_fields, push_walk};

/// What is asked of a set of selections.
#[derive(Clone, Copy)]
pub enum OfSet {
    /// `SelectionSet::to_ast`.
    Written,
    /// `Selection::to_ast`, `Field::to_ast`, `InlineFragment::to_ast` and `FragmentSpread::to_ast`.
    SelectionsWritten,
    /// `SelectionSet::root_fields`, beside `SelectionSet::collect_root`.
    RootFields,
    /// `SelectionSet::all_fields`, beside `SelectionSet::collect_all`.
    AllFields,
    /// `SelectionSet::collect_root`.
    CollectRoot,
    /// `SelectionSet::collect_all`.
    CollectAll,
}

/// Tells what a selection is written as, and what the field, spread or inline fragment itself is.
fn tell_selection(alloc: Global, text: &mut String, selection: &Selection) -> Told {
    tell_line(text, selection.to_ast(alloc))?;
    match selection {
        Selection::Field(node) => tell_line(text, node.to_ast(alloc)),
        Selection::InlineFragment(node) => tell_line(text, node.to_ast(alloc)),
        Selection::FragmentSpread(node) => tell_line(text, node.to_ast()),
    }
}

fn tell_selections(alloc: Global, text: &mut String, set: &SelectionSet) -> Told {
    for selection in &set.selections {
        tell_selection(alloc, text, selection)?;
    }
    Ok(())
}

/// Fields that were collected, as text.
fn collected(
    alloc: Global,
    fields: Result<Vec<&Node<Field>>, AllocError>,
) -> Result<String, AllocError> {
    let mut text = String::new(alloc);
    push_fields(&mut text, fields?.as_slice())?;
    Ok(text)
}

/// Tells fields that were collected.
fn tell_fields(text: &mut String, fields: Result<Vec<&Node<Field>>, AllocError>) -> Told {
    push_fields(text, fields?.as_slice())?;
    Ok(text.push_str("\n")?)
}

/// A walk that ended so gave these fields: they are those of the whole, or, if it ran out of memory, a
/// beginning of them.
fn tell_ended(text: &mut String, end: End, whole: &str, given: &str) -> Told {
    match end {
        End::Over => {
            expect(given == whole, "a walk gives other items")?;
            Ok(text.push_str(given)?)
        }
        End::Refused => {
            expect(whole.starts_with(given), "a walk began otherwise")?;
            Err(Stop::Memory)
        }
        End::Endless => Err(Stop::Wrong("a walk goes on and on")),
    }
}

/// Tells the fields of a walk, beside those of the whole. However it ended, it gives nothing more, now and
/// later.
fn tell_turns(alloc: Global, text: &mut String, whole: &str, walk: &mut FieldWalk<'_>) -> Told {
    let mut given = String::new(alloc);
    let end = push_walk(&mut given, walk)?;
    let is_over = walk.next().is_none() && walk.next().is_none();
    expect(is_over, "a walk goes on")?;
    tell_ended(text, end, whole, given.as_str())?;
    let turns = walk.turns();
    Ok(write!(text, "in {turns}\n")?)
}

/// Tells the fields of a walk, beside those that were collected.
fn tell_walk(
    alloc: Global,
    text: &mut String,
    whole: Result<Vec<&Node<Field>>, AllocError>,
    walk: FieldWalk<'_>,
) -> Told {
    let mut walk = walk;
    let whole = collected(alloc, whole)?;
    tell_turns(alloc, text, whole.as_str(), &mut walk)
}

/// Asks something of a set of a document.
pub fn ask_set(
    alloc: Global,
    text: &mut String,
    document: &ExecutableDocument,
    set: &SelectionSet,
    question: OfSet,
) -> Told {
    match question {
        OfSet::Written => tell_line(text, set.to_ast(alloc)),
        OfSet::SelectionsWritten => tell_selections(alloc, text, set),
        OfSet::RootFields => {
            let whole = set.collect_root(alloc, document);
            tell_walk(alloc, text, whole, set.root_fields(alloc, document))
        }
        OfSet::AllFields => {
            let whole = set.collect_all(alloc, document);
            tell_walk(alloc, text, whole, set.all_fields(alloc, document))
        }
        OfSet::CollectRoot => tell_fields(text, set.collect_root(alloc, document)),
        OfSet::CollectAll => tell_fields(text, set.collect_all(alloc, document)),
    }
}
