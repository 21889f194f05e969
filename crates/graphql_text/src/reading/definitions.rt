//! Reading definitions: GraphQL specification of October 2021, section 2.2.
ghost use Rattle.std.specs.Prelude.{◌≡◌, false, true};
ghost use Rattle.graphql_productions.specs.Documents.{definition};
ghost use Rattle.graphql_productions.specs.TypeSystem.{extension, system_definition};
ghost use Rattle.graphql_text.specs.Reads.{Reads};

use crate::reading::bodies::{described, extended};
use crate::reading::descriptions::optional_description;
use crate::reading::operations::{fragment_definition, operation, shorthand};
use crate::reading::target::{Reading, Target, sign};
use graphql_ast::definition::Definition;
use graphql_grammar::fault::{FaultKind, Item, ReadError};
use graphql_grammar::kind::Kind;
use graphql_grammar::words::Words;

#[tactic(auto, unfolding(graphql_productions::specs::TypeSystem::system_definition))]
fn system_definition(target: Target, words: &mut Words<'_>) -> Reading<Definition>
    ensures { Reads (system_definition target.file target.depth) words.old words.new result }
{
    let start = words.start();
    let description = optional_description(target, words)?;
    let body = described(target, words)?;
    Ok(body.into_definition(
        target.alloc,
        description,
        Some(target.span(start, words.last)),
    )?)
}

#[tactic(auto, unfolding(graphql_productions::specs::TypeSystem::extension))]
fn extension(target: Target, words: &mut Words<'_>) -> Reading<Definition>
    ensures { Reads (extension target.file target.depth) words.old words.new result }
{
    let start = words.start();
    sign(words, Kind::Extend)?;
    let extension = extended(target, words)?;
    Ok(extension.into_definition(
        target.alloc,
        true,
        None,
        Some(target.span(start, words.last)),
    )?)
}

/// Reads a definition, by its first word.
#[tactic(auto, unfolding(graphql_productions::specs::Documents::fragment, graphql_productions::specs::Documents::operation_definition, graphql_productions::specs::Documents::shorthand_definition))]
pub(crate) fn definition(target: Target, words: &mut Words<'_>) -> Reading<Definition>
    ensures { Reads (definition target.file target.depth) words.old words.new result }
{
    match words.next_kind() {
        Some(Kind::LeftBrace) => {
            let operation = node!(target, words; shorthand(target, words)?);
            Ok(Definition::OperationDefinition(operation))
        }
        Some(Kind::Fragment) => {
            let fragment = node!(target, words; fragment_definition(target, words)?);
            Ok(Definition::FragmentDefinition(fragment))
        }
        Some(Kind::Extend) => extension(target, words),
        Some(Kind::Query | Kind::Mutation | Kind::Subscription) => {
            let operation = node!(target, words; operation(target, words)?);
            Ok(Definition::OperationDefinition(operation))
        }
        Some(
            Kind::String
            | Kind::BlockString
            | Kind::Schema
            | Kind::Scalar
            | Kind::Type
            | Kind::Interface
            | Kind::Union
            | Kind::Enum
            | Kind::Input
            | Kind::Directive,
        ) => system_definition(target, words),
        _ => Err(ReadError::Fault(FaultKind::Expected(Item::Definition))),
    }
}
