//! What JSON has of faults under names of their own.
ghost use Rattle.std.specs.Prelude.{◌≡◌, IfOk, option_map};
ghost use Rattle.apollo_reporting.specs.Details as spec;
ghost use Rattle.apollo_reporting.specs.Details.{place_detail, text_detail};

use graphql_nodes::collections::static_text::StaticText;
use graphql_nodes::collections::text::Text;
use graphql_nodes::source::SourceSpan;
use std::alloc::{AllocError, Global};

/// A text or a place, under a name.
#[derive(Drop)]
pub struct Detail {
    pub name: StaticText,
    pub value: DetailValue,
}

/// What stands under the name of a detail: JSON has null where it isn't there.
#[derive(Drop)]
pub enum DetailValue {
    /// A text, where there is one: JSON has it as a string.
    Words(Option<Text>),
    /// A place, where it is known: JSON has it as an object, with the members `file`, `line`, `column`,
    /// `end_line` and `end_column`.
    Place(Option<SourceSpan>),
}

impl Detail {
    /// A copy of a text. The error is out of memory.
    pub fn text(alloc: Global, name: &'static str, text: &str) -> Result<Detail, AllocError>
        ensures { IfOk result (λ detail. detail ≡ text_detail name.now text.now) }
    {
        Ok(Detail {
            name: StaticText::new(name),
            value: DetailValue::Words(Some(Text::from_str(alloc, text)?)),
        })
    }

    /// A copy of a text, where there is one. The error is out of memory.
    pub fn optional_text(
        alloc: Global,
        name: &'static str,
        text: Option<&str>,
    ) -> Result<Detail, AllocError>
        ensures { IfOk result (λ detail. detail
            ≡ spec.optional_text name.now (option_map (λ text. text.now) text.entry)) }
    {
        match text {
            Some(text) => Detail::text(alloc, name, text),
            None => Ok(Detail {
                name: StaticText::new(name),
                value: DetailValue::Words(None),
            }),
        }
    }

    /// A place, where it is known.
    pub fn place(name: &'static str, location: Option<SourceSpan>) -> Detail
        ensures { result ≡ place_detail name.now location }
    {
        Detail {
            name: StaticText::new(name),
            value: DetailValue::Place(location),
        }
    }
}

/// One text, under its name. The error is out of memory.
pub(crate) fn one_text(
    alloc: Global,
    name: &'static str,
    text: &str,
) -> Result<Vec<Detail>, AllocError>
    ensures { IfOk result (λ details. details.items ≡ spec.one_text name.now text.now) }
{
    let detail = Detail::text(alloc, name, text)?;
    Ok(vec![in alloc; detail]?)
}

/// Two texts, each behind its name. The error is out of memory.
pub(crate) fn two_texts(
    alloc: Global,
    first: (&'static str, &str),
    second: (&'static str, &str),
) -> Result<Vec<Detail>, AllocError>
    ensures { IfOk result (λ details. details.items
        ≡ spec.two_texts first.entry.0.now first.entry.1.now second.entry.0.now second.entry.1.now) }
{
    let first = Detail::text(alloc, first.0, first.1)?;
    let second = Detail::text(alloc, second.0, second.1)?;
    Ok(vec![in alloc; first, second]?)
}
