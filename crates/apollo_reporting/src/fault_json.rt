//! Faults as JSON.
ghost use Rattle.std.specs.Prelude.{IfOk, codes, string_bytes};
ghost use Rattle.apollo_reporting.specs.Said.{IsFaultJson};

use crate::json_members::JsonOfSources;
use crate::reported::Reported;
use crate::sources::Sources;
use graphql_nodes::source::SourceSpan;
use std::alloc::{AllocError, Global};

/// The JSON of a fault, in one line without a line end. It is an object with the members `type`, `kind`,
/// `message`, `file`, `line`, `column`, `end_line`, `end_column`, `path`, and the details of the fault, in
/// this order.
///
/// `type` is `fault`. `file` is the path of the file. Lines and columns count from 1, columns by characters.
/// `path` is an object: `root` has the `kind` of the definition, as `query` or `fragment`, and its `name`,
/// and `keys` the response keys. What is not known, or isn't there, is null. The error is out of memory.
///
/// For many faults make [`SourceLines`](crate::source_lines::SourceLines) of the sources first.
pub fn to_json<S: Sources, E: Reported>(
    alloc: Global,
    sources: &S,
    location: Option<SourceSpan>,
    fault: &E,
) -> Result<String, AllocError>
    ensures { IfOk result (λ text.
        IsFaultJson (codes "fault") E.output E.said_about E.said_details (S.files sources.now) location
        fault.now (string_bytes text)) }
{
    json_of_type(alloc, "fault", sources, location, fault)
}

/// The same of why a text is refused, whose `type` is `refusal`. The error is out of memory.
pub fn refusal_to_json<S: Sources, E: Reported>(
    alloc: Global,
    sources: &S,
    location: Option<SourceSpan>,
    refusal: &E,
) -> Result<String, AllocError>
    ensures { IfOk result (λ text.
        IsFaultJson (codes "refusal") E.output E.said_about E.said_details (S.files sources.now) location
        refusal.now (string_bytes text)) }
{
    json_of_type(alloc, "refusal", sources, location, refusal)
}

/// The JSON of a fault, an object of this type.
#[tactic(auto, unfolding(crate::specs::MemberTexts::data_text), using(crate::proofs::SaidLemmas::of_said))]
fn json_of_type<S: Sources, E: Reported>(
    alloc: Global,
    of_type: &str,
    sources: &S,
    location: Option<SourceSpan>,
    fault: &E,
) -> Result<String, AllocError>
    ensures { IfOk result (λ text.
        IsFaultJson of_type.now E.output E.said_about E.said_details (S.files sources.now) location fault.now
        (string_bytes text)) }
{
    let said = fault.to_string(alloc)?;
    let details = fault.details(alloc)?;
    let about = fault.about();
    let mut text = String::new(alloc);
    let json = JsonOfSources { alloc, sources };
    json.push_fault(
        &mut text,
        of_type,
        location,
        &about,
        said.as_str(),
        details.as_slice(),
    )?;
    Ok(text)
}
