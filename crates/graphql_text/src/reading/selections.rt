//! Reading selections: GraphQL specification of October 2021, sections 2.4 to 2.8.
ghost use Rattle.std.specs.Prelude.{◌≡◌, false};
ghost use Rattle.graphql_grammar.specs.Pieces.{Adds, many, optional, some};
ghost use Rattle.graphql_grammar.specs.Standing.{standing};
ghost use Rattle.graphql_productions.specs.Nodes.{or_none};
ghost use Rattle.graphql_productions.specs.Selections.{alias, field, field_of, field_selection, fragment};
ghost use Rattle.graphql_productions.specs.Selections.{fragment_name, inline_body, is_selection, nested_set};
ghost use Rattle.graphql_productions.specs.Selections.{selection, selection_set, selections_of, spread_body};
ghost use Rattle.graphql_productions.specs.Selections.{type_condition};
ghost use Rattle.graphql_text.specs.Reads.{Reads, next_begins};

use crate::reading::directives::{arguments, directives};
use crate::reading::target::{Reading, Target, sign};
use graphql_ast::directive::{Argument, DirectiveList};
use graphql_ast::selection::{Field, FragmentSpread, InlineFragment, Selection};
use graphql_grammar::fault::{FaultKind, Item, ReadError};
use graphql_grammar::kind::{Kind, Names};
use graphql_grammar::words::Words;
use graphql_nodes::collections::items::Items;
use graphql_nodes::name::Name;
use graphql_nodes::node::Node;

/// A selection was expected.
const NO_SELECTION: FaultKind = FaultKind::Expected(Item::Selection);

#[tactic(auto, unfolding(graphql_productions::specs::Selections::alias_body))]
fn optional_alias(target: Target, words: &mut Words<'_>) -> Reading<Option<Name>>
    ensures { Reads (optional (alias target.file)) words.old words.new result }
{
    optional!(
        words.next_is(Kind::Colon),
        target.name_behind(words, Kind::Colon)
    )
}

/// The field of these parts: its own name comes second where it has an alias.
fn field_of(
    first: Name,
    second: Option<Name>,
    arguments: Items<Node<Argument>>,
    directives: DirectiveList,
    selection_set: Items<Selection>,
) -> Field
    ensures { result ≡ field_of first second arguments directives selection_set }
{
    let (alias, name) = match second {
        Some(second) => (Some(first), second),
        None => (None, first),
    };
    Field {
        alias,
        name,
        arguments,
        directives,
        selection_set,
    }
}

/// A list that may be left out.
fn or_none(target: Target, selections: Option<Items<Selection>>) -> Items<Selection>
    ensures { result ≡ or_none selections }
{
    match selections {
        Some(selections) => selections,
        None => Items::new(target.alloc),
    }
}

/// Reads the name of a fragment.
#[tactic(auto, unfolding(graphql_productions::specs::Selections::fragment_name))]
pub(crate) fn fragment_name(target: Target, words: &mut Words<'_>) -> Reading<Name>
    ensures { Reads (fragment_name target.file) words.old words.new result }
{
    let fault = if words.next_is(Kind::On) {
        FaultKind::ReservedName
    } else {
        FaultKind::Expected(Item::Name)
    };
    let word = words.expect_name(Names::Fragment, fault)?;
    Ok(target.name_of(words, word)?)
}

#[tactic(auto, unfolding(graphql_productions::specs::Selections::spread_body))]
fn spread_body(target: Target, words: &mut Words<'_>) -> Reading<FragmentSpread>
    ensures { Reads (spread_body target.file target.depth) words.old words.new result }
{
    Ok(FragmentSpread {
        fragment_name: fragment_name(target, words)?,
        directives: directives(target.with_variables(), words)?,
    })
}

/// Reads a type condition.
#[tactic(auto, unfolding(graphql_productions::specs::Selections::condition_body))]
pub(crate) fn type_condition(target: Target, words: &mut Words<'_>) -> Reading<Name>
    ensures { Reads (type_condition target.file) words.old words.new result }
{
    target.name_behind(words, Kind::On)
}

fn optional_condition(target: Target, words: &mut Words<'_>) -> Reading<Option<Name>>
    ensures { Reads (optional (type_condition target.file)) words.old words.new result }
{
    optional!(words.next_is(Kind::On), type_condition(target, words))
}

/// Whether a selection comes next.
fn next_is_selection(words: &Words<'_>) -> bool
    ensures { result ≡ next_begins is_selection words.now }
{
    match words.next_kind() {
        Some(kind) => kind.is_name() || kind.is(Kind::Spread),
        None => false,
    }
}

/// Reads a selection set.
#[cycle(selections)]
#[tactic(auto, using(graphql_productions::proofs::NestedLemmas::no_set, graphql_productions::proofs::NestedLemmas::one_set))]
pub(crate) fn selection_set(target: Target, words: &mut Words<'_>) -> Reading<Items<Selection>>
    ensures { Reads (selection_set target.file target.depth) words.old words.new result }
{
    let inside = target.inside()?;
    selections(inside, words)
}

#[cycle(selections)]
#[tactic(auto, unfolding(graphql_productions::specs::Selections::selections_of))]
fn selections(target: Target, words: &mut Words<'_>) -> Reading<Items<Selection>>
    ensures { Reads (selections_of
        (selection target.file target.depth (selection_set target.file target.depth)))
        words.old words.new result }
{
    sign(words, Kind::LeftBrace)?;
    let selections = some_selections(target, words)?;
    words.expect(Kind::RightBrace, NO_SELECTION)?;
    Ok(selections)
}

/// Reads one selection or more.
#[cycle(selections)]
pub(crate) fn some_selections(target: Target, words: &mut Words<'_>) -> Reading<Items<Selection>>
    ensures { Reads (some (selection target.file target.depth (selection_set target.file target.depth)))
        words.old words.new result }
{
    one_or_more!(
        target,
        selection(target, words),
        selections,
        push_selections(target, words, &mut selections)
    )
}

/// Reads selections, and adds them.
#[cycle(selections)]
fn push_selections(
    target: Target,
    words: &mut Words<'_>,
    selections: &mut Items<Selection>,
) -> Reading<()>
    ensures { Adds result selections.old selections.new (standing words.new)
        ((many (selection target.file target.depth (selection_set target.file target.depth))).read
        (standing words.old)) }
{
    'selections: while next_is_selection(words) {
        let next = selection(target, words)?;
        selections.push(next)?;
    }
    Ok(())
}

/// Reads a selection, by its first word.
#[cycle(selections)]
fn selection(target: Target, words: &mut Words<'_>) -> Reading<Selection>
    ensures { Reads (selection target.file target.depth (selection_set target.file target.depth))
        words.old words.new result }
{
    match words.next_kind() {
        Some(Kind::Spread) => fragment(target, words),
        Some(kind) if kind.is_name() => field_selection(target, words),
        _ => Err(ReadError::Fault(NO_SELECTION)),
    }
}

#[cycle(selections)]
#[tactic(auto, unfolding(graphql_productions::specs::Selections::field_selection))]
fn field_selection(target: Target, words: &mut Words<'_>) -> Reading<Selection>
    ensures { Reads (field_selection target.file target.depth (selection_set target.file target.depth))
        words.old words.new result }
{
    Ok(Selection::Field(node!(target, words; field(target, words)?)))
}

#[cycle(selections)]
#[tactic(auto, unfolding(graphql_productions::specs::Selections::field))]
fn field(target: Target, words: &mut Words<'_>) -> Reading<Field>
    ensures { Reads (field target.file target.depth (selection_set target.file target.depth))
        words.old words.new result }
{
    let first = target.name(words)?;
    let second = optional_alias(target, words)?;
    let arguments = arguments(target.with_variables(), words)?;
    let directives = directives(target.with_variables(), words)?;
    let selections = optional_set(target, words)?;
    Ok(field_of(
        first,
        second,
        arguments,
        directives,
        or_none(target, selections),
    ))
}

#[cycle(selections)]
fn optional_set(target: Target, words: &mut Words<'_>) -> Reading<Option<Items<Selection>>>
    ensures { Reads (optional (selection_set target.file target.depth)) words.old words.new result }
{
    optional!(words.next_is(Kind::LeftBrace), selection_set(target, words))
}

#[cycle(selections)]
#[tactic(auto, unfolding(graphql_productions::specs::Selections::inline_body))]
fn inline_body(target: Target, words: &mut Words<'_>) -> Reading<InlineFragment>
    ensures { Reads (inline_body target.file target.depth (selection_set target.file target.depth))
        words.old words.new result }
{
    Ok(InlineFragment {
        type_condition: optional_condition(target, words)?,
        directives: directives(target.with_variables(), words)?,
        selection_set: selection_set(target, words)?,
    })
}

/// Reads a fragment spread or an inline fragment.
#[cycle(selections)]
#[tactic(auto, unfolding(graphql_productions::specs::Selections::fragment))]
fn fragment(target: Target, words: &mut Words<'_>) -> Reading<Selection>
    ensures { Reads (fragment target.file target.depth (selection_set target.file target.depth))
        words.old words.new result }
{
    let start = words.start();
    sign(words, Kind::Spread)?;
    match words.next_kind() {
        Some(Kind::On | Kind::At | Kind::LeftBrace) => {
            let inline = inline_body(target, words)?;
            Ok(Selection::InlineFragment(target.node(inline, start, words.last)?))
        }
        Some(kind) if kind.is_name() => {
            let spread = spread_body(target, words)?;
            Ok(Selection::FragmentSpread(target.node(spread, start, words.last)?))
        }
        _ => Err(ReadError::Fault(NO_SELECTION)),
    }
}
