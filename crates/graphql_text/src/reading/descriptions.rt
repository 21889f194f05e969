//! Reading descriptions: GraphQL specification of October 2021, section 3.2.
ghost use Rattle.std.specs.Prelude.{◌≡◌, IfOk};
ghost use Rattle.graphql_grammar.specs.Pieces.{optional};
ghost use Rattle.graphql_productions.specs.Nodes.{span_at};
ghost use Rattle.graphql_productions.specs.TypeSystem.{description, is_description};
ghost use Rattle.graphql_text.specs.Reads.{Reads, next_begins};

use crate::reading::target::{Reading, Target};
use graphql_grammar::fault::{FaultKind, Item, ReadError};
use graphql_grammar::kind::Kind;
use graphql_grammar::word::Word;
use graphql_grammar::words::Words;
use graphql_nodes::node_str::NodeStr;
use graphql_tokens::values::{block_string_value, string_value};
use std::alloc::AllocError;

/// Whether a description begins with words of a kind.
pub(crate) fn is_description(kind: Kind) -> bool
    ensures { result ≡ is_description kind }
{
    kind.is(Kind::String) || kind.is(Kind::BlockString)
}

/// Whether a description comes next.
fn next_is_description(words: &Words<'_>) -> bool
    ensures { result ≡ next_begins is_description words.now }
{
    match words.next_kind() {
        Some(kind) => is_description(kind),
        None => false,
    }
}

/// The text of these, at a word.
fn placed(target: Target, text: &str, word: Word<'_>) -> Result<NodeStr, AllocError>
    ensures { IfOk result (λ made. made
        ≡ record { text = text.now; location = span_at target.file (word.entry.start, word.entry.end) }) }
{
    let text = NodeStr::new(target.alloc, text)?;
    Ok(text.with_location(target.span(word.start, word.end)))
}

/// Reads a description.
#[tactic(auto, unfolding(graphql_productions::specs::TypeSystem::description_body))]
fn description(target: Target, words: &mut Words<'_>) -> Reading<NodeStr>
    ensures { Reads (description target.file) words.old words.new result }
{
    let fault = FaultKind::Expected(Item::Definition);
    match words.next_kind() {
        Some(Kind::String) => {
            let word = words.expect_word(Kind::String, fault)?;
            let text = string_value(target.alloc, word.text)?;
            Ok(placed(target, text.as_str(), word)?)
        }
        Some(Kind::BlockString) => {
            let word = words.expect_word(Kind::BlockString, fault)?;
            let text = block_string_value(target.alloc, word.text)?;
            Ok(placed(target, text.as_str(), word)?)
        }
        _ => Err(ReadError::Fault(fault)),
    }
}

/// Reads a description, if there is one.
pub(crate) fn optional_description(
    target: Target,
    words: &mut Words<'_>,
) -> Reading<Option<NodeStr>>
    ensures { Reads (optional (description target.file)) words.old words.new result }
{
    if next_is_description(words) {
        Ok(Some(description(target, words)?))
    } else {
        Ok(None)
    }
}
