//! Reading directive locations: GraphQL specification of October 2021, section 3.13.
ghost use Rattle.std.specs.Prelude.{◌≡◌};
ghost use Rattle.graphql_grammar.specs.Standing.{standing};
ghost use Rattle.graphql_productions.specs.Locations.{location_of};
ghost use Rattle.graphql_productions.specs.TypeSystem.{location, no_location};
ghost use Rattle.graphql_text.specs.Seen.{next_location};
ghost use Rattle.graphql_productions.proofs.DefinitionLaws.{location_tame};

use crate::reading::separated::Single;
use crate::reading::target::{Reading, Target};
use graphql_grammar::fault::{FaultKind, Item, ReadError};
use graphql_grammar::kind::Names;
use graphql_grammar::words::Words;
use graphql_nodes::directive_location::DirectiveLocation;

/// The location of this name.
fn location_of(text: &str) -> Option<DirectiveLocation>
    ensures { result ≡ location_of text.now }
{
    DirectiveLocation::from_name(text)
}

/// What is wrong where no location is named.
fn no_location(words: &Words<'_>) -> FaultKind
    ensures { result ≡ no_location (standing words.now).left }
{
    if words.next_is_name(Names::Any) {
        FaultKind::UnknownDirectiveLocation
    } else {
        FaultKind::Expected(Item::DirectiveLocation)
    }
}

/// The location that the next word names, if it is one.
fn next_location(words: &Words<'_>) -> Option<DirectiveLocation>
    ensures { result ≡ next_location (standing words.now).left }
{
    match words.next() {
        Some(word) if word.kind.is_name() => location_of(word.text),
        _ => None,
    }
}

impl Single for DirectiveLocation {
    ghost piece = { λ _. location };

    ghost law = { λ _. location_tame.law };

    #[tactic(auto, unfolding(graphql_productions::specs::TypeSystem::location))]
    fn read(_target: Target, words: &mut Words<'_>) -> Reading<DirectiveLocation> {
        let fault = no_location(words);
        let Some(location) = next_location(words) else {
            return Err(ReadError::Fault(fault));
        };
        words.expect_name(Names::Any, fault)?;
        Ok(location)
    }
}
