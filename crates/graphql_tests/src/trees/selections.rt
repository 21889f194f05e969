//! Selections with directives and arguments: what they are, their likeness, copies and writes.

use crate::nodes::samples::{PLACE, list, name, node};
use crate::trees::values::value;
use graphql_ast::{
    Argument, Directive, DirectiveList, Field, FragmentSpread, InlineFragment, Node, Selection,
};
use graphql_nodes::SourceSpan;
use likeness::{are_made_alike, both, is_copied_so, is_held_copied, is_made_copied};
use std::alloc::{AllocError, Global};

/// The argument `where: ..`, all at one location.
fn argument(alloc: Global, location: Option<SourceSpan>) -> Result<Node<Argument>, AllocError> {
    let value = node(alloc, value(alloc, location), location);
    let (name, value) = both(name(alloc, "where", location), value)?;
    Node::new_opt_location(alloc, Argument::new(name, value), location)
}

/// The directive `@on(where: ..)`, all at one location.
fn directive(alloc: Global, location: Option<SourceSpan>) -> Result<Node<Directive>, AllocError> {
    let arguments = list(alloc, argument(alloc, location));
    let (name, arguments) = both(name(alloc, "on", location), arguments)?;
    Node::new_opt_location(alloc, Directive { name, arguments }, location)
}

/// The field `other: key`, all at one location.
fn field(alloc: Global, location: Option<SourceSpan>) -> Result<Node<Field>, AllocError> {
    let (alias, name) = both(name(alloc, "other", location), name(alloc, "key", location))?;
    let mut field = Field::new(alloc, name);
    field.alias = Some(alias);
    Node::new_opt_location(alloc, field, location)
}

/// The fragment `... on T @on(..) { other: key }`, all at one location.
fn fragment(
    alloc: Global,
    location: Option<SourceSpan>,
) -> Result<Node<InlineFragment>, AllocError> {
    let selections = list(alloc, field(alloc, location).map(Selection::Field));
    let parts = both(list(alloc, directive(alloc, location)), selections);
    let (ty, (directives, selection_set)) = both(name(alloc, "T", location), parts)?;
    let mut fragment = InlineFragment::with_type_condition(alloc, ty);
    fragment.directives = DirectiveList(directives);
    fragment.selection_set = selection_set;
    Node::new_opt_location(alloc, fragment, location)
}

/// That fragment as a selection.
fn selection(alloc: Global, location: Option<SourceSpan>) -> Result<Selection, AllocError> {
    Ok(Selection::from(fragment(alloc, location)?))
}

#[test]
fn trees_are_equal_without_locations(rt: HostRuntime) {
    let alloc = rt.alloc();
    assert!(rt; are_made_alike(selection(alloc, Some(PLACE)), selection(alloc, None)));
}

/// Whether the first fragment has no directive, and the second has its one.
fn are_apart(first: &Node<InlineFragment>, second: &Node<InlineFragment>) -> bool {
    *first != *second && (first.directives.len(), second.directives.len()) == (0, 1)
}

/// Whether a write to a copy, which takes all directives off it, leaves the fragment.
fn is_write_apart(alloc: Global) -> Result<bool, AllocError> {
    let node = fragment(alloc, Some(PLACE))?;
    let mut copy = node.clone()?;
    let written = copy.make_mut()?;
    written.directives = DirectiveList::new(alloc);
    Ok(are_apart(&copy, &node))
}

#[test]
fn a_write_leaves_the_other_tree(rt: HostRuntime) {
    assert!(rt; is_write_apart(rt.alloc()) == Ok(true));
}

/// Whether the inline fragment and its type condition are at the location.
fn is_in_place(selection: &Selection) -> bool {
    match selection {
        Selection::InlineFragment(fragment) => match fragment.type_condition.as_ref() {
            Some(condition) => {
                (fragment.location(), condition.location()) == (Some(PLACE), Some(PLACE))
            }
            None => false,
        },
        _ => false,
    }
}

#[test]
fn trees_are_copied_with_their_locations(rt: HostRuntime) {
    let alloc = rt.alloc();
    assert!(rt; is_copied_so(selection(alloc, Some(PLACE)), is_in_place));
    assert!(rt; is_held_copied(fragment(alloc, Some(PLACE))));
    assert!(rt; is_held_copied(directive(alloc, Some(PLACE))));
    assert!(rt; is_held_copied(argument(alloc, Some(PLACE))));
    assert!(rt; is_held_copied(field(alloc, Some(PLACE))));
    let directives = list(alloc, directive(alloc, Some(PLACE)));
    assert!(rt; is_made_copied(directives.map(DirectiveList)));
}

/// The spread `...other`, at the location.
fn spread(alloc: Global) -> Result<Node<FragmentSpread>, AllocError> {
    let name = name(alloc, "other", None)?;
    Node::new_opt_location(alloc, FragmentSpread::new(alloc, name), Some(PLACE))
}

/// What the selection is taken as: the key of a field, the name of a spread, or the type of a fragment.
fn kind_of(selection: &Selection) -> (&'static str, &str) {
    if let Some(field) = selection.as_field() {
        return ("field", field.response_key().as_str());
    }
    if let Some(spread) = selection.as_fragment_spread() {
        return ("spread", spread.fragment_name.as_str());
    }
    match selection.as_inline_fragment() {
        Some(fragment) => match &fragment.type_condition {
            Some(condition) => ("fragment", condition.as_str()),
            None => ("fragment", ""),
        },
        None => ("none", ""),
    }
}

/// Whether there was memory for the selection, it is taken so, is at the location, and has so many
/// directives.
fn is_kind(made: Result<Selection, AllocError>, kind: &str, text: &str, directives: usize) -> bool {
    match made {
        Ok(selection) => {
            kind_of(&selection) == (kind, text)
                && selection.location() == Some(PLACE)
                && selection.directives().len() == directives
        }
        Err(_) => false,
    }
}

#[test]
fn selections_answer_as_their_kind(rt: HostRuntime) {
    let alloc = rt.alloc();
    let field = field(alloc, Some(PLACE)).map(Selection::Field);
    assert!(rt; is_kind(field, "field", "other", 0));
    assert!(rt;
        is_kind(
            spread(alloc).map(Selection::FragmentSpread),
            "spread",
            "other",
            0
        )
    );
    assert!(rt; is_kind(selection(alloc, Some(PLACE)), "fragment", "T", 1));
}
