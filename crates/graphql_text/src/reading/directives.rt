//! Reading arguments and directives: GraphQL specification of October 2021, sections 2.6 and 2.12.
ghost use Rattle.std.specs.Prelude.{◌≡◌};
ghost use Rattle.graphql_grammar.specs.Kinds.{is_name, only};
ghost use Rattle.graphql_grammar.specs.declared.kind.Kind.TheVariants.{At};
ghost use Rattle.graphql_productions.specs.Directives.{argument_node, arguments, directive_node, directives};
ghost use Rattle.graphql_productions.specs.Directives.{no_argument, no_directive};
ghost use Rattle.graphql_productions.proofs.DirectiveLaws.{argument_tame, directive_tame};
ghost use Rattle.graphql_text.specs.Reads.{Reads};

use crate::reading::lists::{Read, optional_items, push_items};
use crate::reading::target::{Reading, Target, sign};
use crate::reading::values::value_node;
use graphql_ast::directive::{Argument, Directive, DirectiveList};
use graphql_grammar::fault::{FaultKind, Item};
use graphql_grammar::kind::Kind;
use graphql_grammar::words::Words;
use graphql_nodes::collections::items::Items;
use graphql_nodes::node::Node;

impl Read for Node<Argument> {
    ghost piece = { argument_node };

    ghost first = { is_name };

    ghost wrong = { no_argument };

    ghost law = { λ file constant depth. (argument_tame file constant depth).law };

    fn begins(kind: Kind) -> bool {
        kind.is_name()
    }

    fn fault(_words: &Words<'_>) -> FaultKind {
        FaultKind::Expected(Item::Argument)
    }

    #[tactic(auto, unfolding(graphql_productions::specs::Directives::argument_node))]
    fn read(target: Target, words: &mut Words<'_>) -> Reading<Node<Argument>> {
        Ok(node!(target, words; {
            let name = target.name(words)?;
            sign(words, Kind::Colon)?;
            let value = value_node(target, words)?;
            Argument { name, value }
        }))
    }
}

/// Reads arguments between parentheses, if there are any.
#[tactic(auto, unfolding(graphql_productions::specs::Directives::arguments))]
pub(crate) fn arguments(target: Target, words: &mut Words<'_>) -> Reading<Items<Node<Argument>>>
    ensures { Reads (arguments target.file target.constant target.depth) words.old words.new result }
{
    optional_items(target, words, Kind::LeftParen, Kind::RightParen)
}

impl Read for Node<Directive> {
    ghost piece = { directive_node };

    ghost first = { only At };

    ghost wrong = { no_directive };

    ghost law = { λ file constant depth. (directive_tame file constant depth).law };

    fn begins(kind: Kind) -> bool {
        kind.is(Kind::At)
    }

    fn fault(_words: &Words<'_>) -> FaultKind {
        FaultKind::Expected(Item::Word(Kind::At))
    }

    #[tactic(auto, unfolding(graphql_productions::specs::Directives::directive_node))]
    fn read(target: Target, words: &mut Words<'_>) -> Reading<Node<Directive>> {
        Ok(node!(target, words; {
            sign(words, Kind::At)?;
            let name = target.name(words)?;
            let arguments = arguments(target, words)?;
            Directive { name, arguments }
        }))
    }
}

/// Reads directives, if there are any.
#[tactic(auto, unfolding(graphql_productions::specs::Directives::directives), using(graphql_grammar::proofs::LoopLaws::no_front))]
pub(crate) fn directives(target: Target, words: &mut Words<'_>) -> Reading<DirectiveList>
    ensures { Reads (directives target.file target.constant target.depth) words.old words.new result }
{
    let mut directives = Items::new(target.alloc);
    push_items(target, words, &mut directives)?;
    Ok(DirectiveList(directives))
}
