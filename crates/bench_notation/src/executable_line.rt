//! The lines of operations and fragments, behind the first word: GraphQL specification of October 2021,
//! sections 2.3 to 2.8.
//!
//! Words that are none such are refused, with a reason. `Memory` is out of memory, and says nothing of them.
ghost use Rattle.std.specs.Prelude.{◌≡◌, ◌≢◌, ◌∷◌, ℕ, Option, true, IfErr, IfOk, MatchOption, decimal};
ghost use Rattle.std.specs.Prelude.{nat_lt};
ghost use Rattle.bench_notation.specs.declared.selection_line.Selected.{Selected};
ghost use Rattle.graphql_nodes.specs.NameView.{NameView};
ghost use Rattle.graphql_nodes.specs.declared.operation_type.OperationType.{OperationType};
ghost use Rattle.bench_notation.specs.Line.{AreFragment, AreOperation, AreSelected, AreSelection, IsDepth};
ghost use Rattle.bench_notation.specs.Line.{texts_of};
ghost use Rattle.bench_notation.specs.Places.{levels_above};
ghost use Rattle.bench_notation.specs.Refusals.{WhenRefused};

use crate::above::Above;
use crate::kind_words::operation_of_word;
use crate::name_words::{name_and_alias, only_name, optional_name};
use crate::names::Names;
use crate::refusal::{LineError, Reason};
use crate::selection_line::{MOST_DEPTH, Selected};
use crate::words::after;
use graphql_nodes::name::{Name, NamedType};
use graphql_nodes::operation_type::OperationType;
use graphql_nodes::source::SourceSpan;

/// The two words of an operation: its kind, and its name or `-`.
pub fn operation_and_its_name(
    names: &mut Names,
    words: &[&str],
    location: SourceSpan,
) -> Result<(OperationType, Option<Name>), LineError>
    ensures says { IfOk result (λ both. AreOperation location (texts_of words.now) both.0 both.1) }
    ensures refused { IfErr result (WhenRefused ((operation : OperationType) (name : Option NameView)
        → ¬ AreOperation location (texts_of words.now) operation name)) }
{
    let [operation, name] = words else {
        return Err(LineError::Refused(Reason::WrongNumberOfWords));
    };
    let Some(operation) = operation_of_word(*operation) else {
        return Err(LineError::Refused(Reason::BadWord));
    };
    match *name {
        "-" => Ok((operation, None)),
        name => Ok((operation, Some(names.read(name, location)?))),
    }
}

/// The two words of a fragment: its name, and the name of its type.
pub fn fragment_names(
    names: &mut Names,
    words: &[&str],
    location: SourceSpan,
) -> Result<(Name, NamedType), LineError>
    ensures says { IfOk result (λ both. AreFragment location (texts_of words.now) both.0 both.1) }
    ensures refused { IfErr result (WhenRefused ((name condition : NameView)
        → ¬ AreFragment location (texts_of words.now) name condition)) }
{
    let [name, condition] = words else {
        return Err(LineError::Refused(Reason::WrongNumberOfWords));
    };
    let name = names.read(*name, location)?;
    Ok((name, names.read(*condition, location)?))
}

/// The words of a selection: its depth, what it is, and its names.
pub fn selection(
    names: &mut Names,
    above: Above,
    words: &[&str],
    location: SourceSpan,
) -> Result<(u8, Selected), LineError>
    ensures says { IfOk result (λ both. AreSelection location (texts_of words.now) both.0 both.1) }
    ensures stands { IfOk result (λ both. nat_lt both.0 (levels_above above) ≡ true) }
    ensures refused { IfErr result (WhenRefused ((depth : ℕ) (selected : Selected)
        → AreSelection location (texts_of words.now) depth selected
        → ¬ (nat_lt depth (levels_above above) ≡ true))) }
{
    let levels = above.levels();
    if levels == 0 {
        return Err(LineError::Refused(Reason::MisplacedLine));
    }
    let Some((depth, rest)) = words.split_first() else {
        return Err(LineError::Refused(Reason::WrongNumberOfWords));
    };
    let Some((kind, rest)) = rest.split_first() else {
        return Err(LineError::Refused(Reason::WrongNumberOfWords));
    };
    let selected = selected(names, *kind, rest, location)?;
    let Some(depth) = depth_of_word(*depth) else {
        return Err(LineError::Refused(Reason::BadWord));
    };
    if u16::from(depth) >= levels {
        return Err(LineError::Refused(Reason::BadWord));
    }
    Ok((depth, selected))
}

/// What is selected, by the word that says what it is and the names behind it.
fn selected(
    names: &mut Names,
    kind: &str,
    words: &[&str],
    location: SourceSpan,
) -> Result<Selected, LineError>
    ensures says { IfOk result (AreSelected location (kind.now ∷ texts_of words.now)) }
    ensures refused { IfErr result (WhenRefused ((selected : Selected)
        → ¬ AreSelected location (kind.now ∷ texts_of words.now) selected)) }
{
    match kind {
        "field" => {
            let (name, alias) = name_and_alias(names, words, location)?;
            Ok(Selected::Field(name, alias))
        }
        "spread" => Ok(Selected::Spread(only_name(names, words, location)?)),
        "inline" => Ok(Selected::Inline(optional_name(names, words, location)?)),
        _ if words.len() > 2 => Err(LineError::Refused(Reason::WrongNumberOfWords)),
        _ => Err(LineError::Refused(Reason::BadWord)),
    }
}

/// The depth that a word is: a number up to the greatest depth, without a sign, and without a zero before
/// other digits.
fn depth_of_word(word: &str) -> Option<u8>
    ensures { MatchOption result ((depth : ℕ) → IsDepth depth
        → decimal depth ≢ word.now) (λ depth. IsDepth depth × (decimal depth ≡ word.now)) }
{
    if let Some(rest) = after(word, b'0') {
        if rest.is_empty() {
            return Some(0);
        }
        return None;
    }
    let None = after(word, b'+') else {
        return None;
    };
    match word.parse::<u8>() {
        Ok(depth) if depth <= MOST_DEPTH => Some(depth),
        _ => None,
    }
}
