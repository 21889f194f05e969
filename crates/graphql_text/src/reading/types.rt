//! Reading references to types: GraphQL specification of October 2021, section 2.11.
ghost use Rattle.std.specs.Prelude.{◌≡◌, false};
ghost use Rattle.graphql_grammar.specs.Pieces.{branch, headed};
ghost use Rattle.graphql_grammar.specs.Kinds.{only};
ghost use Rattle.graphql_grammar.specs.declared.kind.Kind.TheVariants.{LeftBracket};
ghost use Rattle.graphql_productions.specs.Nodes.{node};
ghost use Rattle.graphql_productions.specs.Types.{is_type, list_type_of, named_type, nested_list_type};
ghost use Rattle.graphql_productions.specs.Types.{no_type, type, type_pick};
ghost use Rattle.graphql_text.specs.Reads.{Reads};

use crate::reading::target::{Reading, Target, sign};
use graphql_ast::type_reference::Type;
use graphql_grammar::fault::{FaultKind, Item, ReadError};
use graphql_grammar::kind::Kind;
use graphql_grammar::words::Words;
use graphql_nodes::node::Node;

#[tactic(auto, unfolding(graphql_productions::specs::Types::named_type))]
fn named_type(target: Target, words: &mut Words<'_>) -> Reading<Type>
    ensures { Reads (named_type target.file) words.old words.new result }
{
    Ok(Type::named(target.name(words)?))
}

/// Reads a type, by its first word.
#[cycle(type_reference)]
pub(crate) fn type_reference(target: Target, words: &mut Words<'_>) -> Reading<Type>
    ensures { Reads (type target.file target.depth) words.old words.new result }
{
    let read = nullable_type(target, words)?;
    if !words.next_is(Kind::Bang) {
        return Ok(read);
    }
    sign(words, Kind::Bang)?;
    Ok(read.non_null())
}

/// Reads a name or a list.
#[cycle(type_reference)]
fn nullable_type(target: Target, words: &mut Words<'_>) -> Reading<Type>
    ensures { Reads (branch is_type (λ _. false)
        (type_pick target.file (headed (only LeftBracket) (nested_list_type target.file target.depth)))
        no_type) words.old words.new result }
{
    match words.next_kind() {
        Some(Kind::LeftBracket) => nested_list_type(target, words),
        Some(kind) if kind.is_name() => named_type(target, words),
        _ => Err(ReadError::Fault(FaultKind::Expected(Item::Type))),
    }
}

#[cycle(type_reference)]
#[tactic(auto, using(graphql_productions::proofs::NestedLemmas::no_list_type, graphql_productions::proofs::NestedLemmas::one_list_type))]
fn nested_list_type(target: Target, words: &mut Words<'_>) -> Reading<Type>
    ensures { Reads (nested_list_type target.file target.depth) words.old words.new result }
{
    let inside = target.inside()?;
    list_type(inside, words)
}

/// Reads a list type, whose items may be such.
#[cycle(type_reference)]
#[tactic(auto, unfolding(graphql_productions::specs::Types::list_type_of))]
fn list_type(target: Target, words: &mut Words<'_>) -> Reading<Type>
    ensures { Reads (list_type_of (type target.file target.depth)) words.old words.new result }
{
    sign(words, Kind::LeftBracket)?;
    let item = type_reference(target, words)?;
    sign(words, Kind::RightBracket)?;
    Ok(item.list(target.alloc)?)
}

/// Reads a type, at its location.
pub(crate) fn type_node(target: Target, words: &mut Words<'_>) -> Reading<Node<Type>>
    ensures { Reads (node target.file (type target.file target.depth)) words.old words.new result }
{
    Ok(node!(target, words; type_reference(target, words)?))
}
