//! Reading operations and fragments: GraphQL specification of October 2021, sections 2.3, 2.8 and 2.10.
ghost use Rattle.std.specs.Prelude.{◌≡◌, false, true};
ghost use Rattle.graphql_grammar.specs.Kinds.{only};
ghost use Rattle.graphql_grammar.specs.Pieces.{optional};
ghost use Rattle.graphql_grammar.specs.declared.kind.Kind.TheVariants.{Dollar};
ghost use Rattle.graphql_productions.specs.Operations.{default_value, fragment_definition, no_variable};
ghost use Rattle.graphql_productions.specs.Operations.{operation, operation_name, operation_type, shorthand};
ghost use Rattle.graphql_productions.specs.Operations.{typed, variable_node, variables};
ghost use Rattle.graphql_text.specs.Seen.{seen_typed};
ghost use Rattle.graphql_productions.proofs.OperationLaws.{variable_definition_tame};
ghost use Rattle.graphql_text.specs.Reads.{Reads, ReadsSeen};

use crate::reading::directives::directives;
use crate::reading::lists::{Read, optional_items};
use crate::reading::selections::{fragment_name, selection_set, type_condition};
use crate::reading::target::{Reading, Target, sign};
use crate::reading::types::type_node;
use crate::reading::values::{value_node, variable};
use graphql_ast::directive::DirectiveList;
use graphql_ast::operation::{FragmentDefinition, OperationDefinition, VariableDefinition};
use graphql_ast::type_reference::Type;
use graphql_ast::value::Value;
use graphql_grammar::fault::{FaultKind, Item, ReadError};
use graphql_grammar::kind::{Kind, Names};
use graphql_grammar::words::Words;
use graphql_nodes::collections::items::Items;
use graphql_nodes::name::Name;
use graphql_nodes::node::Node;
use graphql_nodes::operation_type::OperationType;

/// Reads an operation type.
pub(crate) fn operation_type(words: &mut Words<'_>) -> Reading<OperationType>
    ensures { Reads operation_type words.old words.new result }
{
    match words.next_kind() {
        Some(Kind::Query) => {
            sign(words, Kind::Query)?;
            Ok(OperationType::Query)
        }
        Some(Kind::Mutation) => {
            sign(words, Kind::Mutation)?;
            Ok(OperationType::Mutation)
        }
        Some(Kind::Subscription) => {
            sign(words, Kind::Subscription)?;
            Ok(OperationType::Subscription)
        }
        _ => Err(ReadError::Fault(FaultKind::Expected(Item::RootOperation))),
    }
}

#[tactic(auto, unfolding(graphql_productions::specs::Operations::default_body))]
fn default_value(target: Target, words: &mut Words<'_>) -> Reading<Node<Value>>
    ensures { Reads (default_value target.file target.depth) words.old words.new result }
{
    sign(words, Kind::Equals)?;
    value_node(target.constant(), words)
}

fn optional_default(target: Target, words: &mut Words<'_>) -> Reading<Option<Node<Value>>>
    ensures { Reads (optional (default_value target.file target.depth)) words.old words.new result }
{
    optional!(words.next_is(Kind::Equals), default_value(target, words))
}

/// What stands behind the name of a variable or an input value.
#[derive(Drop)]
pub(crate) struct AfterName {
    pub(crate) ty: Node<Type>,
    pub(crate) default_value: Option<Node<Value>>,
    pub(crate) directives: DirectiveList,
}

/// Reads a type behind `:`, with a default value, if there is one, and directives.
#[tactic(auto, unfolding(graphql_productions::specs::Operations::typed))]
pub(crate) fn typed(target: Target, words: &mut Words<'_>) -> Reading<AfterName>
    ensures { ReadsSeen seen_typed (typed target.file target.depth) words.old words.new result }
{
    sign(words, Kind::Colon)?;
    let ty = type_node(target, words)?;
    let default_value = optional_default(target, words)?;
    let directives = directives(target.constant(), words)?;
    Ok(AfterName {
        ty,
        default_value,
        directives,
    })
}

impl Read for Node<VariableDefinition> {
    ghost piece = { λ file _ depth. variable_node file depth };

    ghost first = { only Dollar };

    ghost wrong = { no_variable };

    ghost law = { λ file _ depth. (variable_definition_tame file depth).law };

    fn begins(kind: Kind) -> bool {
        kind.is(Kind::Dollar)
    }

    fn fault(_words: &Words<'_>) -> FaultKind {
        FaultKind::Expected(Item::VariableDefinition)
    }

    #[tactic(auto, unfolding(graphql_productions::specs::Operations::variable_node))]
    fn read(target: Target, words: &mut Words<'_>) -> Reading<Node<VariableDefinition>> {
        Ok(node!(target, words; {
            let name = variable(target, words)?;
            let typed = typed(target, words)?;
            VariableDefinition {
                name,
                ty: typed.ty,
                default_value: typed.default_value,
                directives: typed.directives,
            }
        }))
    }
}

#[tactic(auto, unfolding(graphql_productions::specs::Operations::variables))]
fn variables(target: Target, words: &mut Words<'_>) -> Reading<Items<Node<VariableDefinition>>>
    ensures { Reads (variables target.file target.depth) words.old words.new result }
{
    optional_items(target, words, Kind::LeftParen, Kind::RightParen)
}

#[tactic(auto, unfolding(graphql_productions::specs::Nodes::name))]
fn optional_name(target: Target, words: &mut Words<'_>) -> Reading<Option<Name>>
    ensures { Reads (optional (operation_name target.file)) words.old words.new result }
{
    optional!(words.next_is_name(Names::Any), target.name(words))
}

/// Reads an operation.
#[tactic(auto, unfolding(graphql_productions::specs::Operations::operation))]
pub(crate) fn operation(target: Target, words: &mut Words<'_>) -> Reading<OperationDefinition>
    ensures { Reads (operation target.file target.depth) words.old words.new result }
{
    Ok(OperationDefinition {
        operation_type: operation_type(words)?,
        name: optional_name(target, words)?,
        variables: variables(target, words)?,
        directives: directives(target.with_variables(), words)?,
        selection_set: selection_set(target, words)?,
    })
}

/// Reads a selection set, which is a query.
#[tactic(auto, unfolding(graphql_productions::specs::Operations::shorthand))]
pub(crate) fn shorthand(target: Target, words: &mut Words<'_>) -> Reading<OperationDefinition>
    ensures { Reads (shorthand target.file target.depth) words.old words.new result }
{
    let mut query = OperationDefinition::new(target.alloc, OperationType::Query);
    query.selection_set = selection_set(target, words)?;
    Ok(query)
}

/// Reads a fragment.
#[tactic(auto, unfolding(graphql_productions::specs::Operations::fragment_definition))]
pub(crate) fn fragment_definition(
    target: Target,
    words: &mut Words<'_>,
) -> Reading<FragmentDefinition>
    ensures { Reads (fragment_definition target.file target.depth) words.old words.new result }
{
    sign(words, Kind::Fragment)?;
    Ok(FragmentDefinition {
        name: fragment_name(target, words)?,
        type_condition: type_condition(target, words)?,
        directives: directives(target.with_variables(), words)?,
        selection_set: selection_set(target, words)?,
    })
}
