//! Words that are names, and no more words. Words that are none such are refused, with a reason. `Memory` is
//! out of memory, and says nothing of them.
ghost use Rattle.std.specs.Prelude.{Option, IfErr, IfOk};
ghost use Rattle.graphql_nodes.specs.NameView.{NameView};
ghost use Rattle.bench_notation.specs.Line.{AreName, AreNameAndAlias, AreOptionalName, texts_of};
ghost use Rattle.bench_notation.specs.Refusals.{WhenRefused};

use crate::names::Names;
use crate::refusal::{LineError, Reason};
use graphql_nodes::name::Name;
use graphql_nodes::source::SourceSpan;

/// One name.
pub fn only_name(names: &mut Names, words: &[&str], location: SourceSpan) -> Result<Name, LineError>
    ensures says { IfOk result (AreName location (texts_of words.now)) }
    ensures refused { IfErr result (WhenRefused ((name : NameView)
        → ¬ AreName location (texts_of words.now) name)) }
{
    let [name] = words else {
        return Err(LineError::Refused(Reason::WrongNumberOfWords));
    };
    names.read(*name, location)
}

/// One name or none.
pub fn optional_name(
    names: &mut Names,
    words: &[&str],
    location: SourceSpan,
) -> Result<Option<Name>, LineError>
    ensures says { IfOk result (AreOptionalName location (texts_of words.now)) }
    ensures refused { IfErr result (WhenRefused ((name : Option NameView)
        → ¬ AreOptionalName location (texts_of words.now) name)) }
{
    match words {
        [] => Ok(None),
        [name] => Ok(Some(names.read(*name, location)?)),
        _ => Err(LineError::Refused(Reason::WrongNumberOfWords)),
    }
}

/// A name, and an alias behind it or none.
pub fn name_and_alias(
    names: &mut Names,
    words: &[&str],
    location: SourceSpan,
) -> Result<(Name, Option<Name>), LineError>
    ensures says { IfOk result (λ both. AreNameAndAlias location (texts_of words.now) both.0 both.1) }
    ensures refused { IfErr result (WhenRefused ((name : NameView) (alias : Option NameView)
        → ¬ AreNameAndAlias location (texts_of words.now) name alias)) }
{
    let Some((name, rest)) = words.split_first() else {
        return Err(LineError::Refused(Reason::WrongNumberOfWords));
    };
    if rest.len() > 1 {
        return Err(LineError::Refused(Reason::WrongNumberOfWords));
    }
    let name = names.read(*name, location)?;
    Ok((name, optional_name(names, rest, location)?))
}
