//! The fields that a set reaches, with the types of their sets: GraphQL specification of October 2021,
//! sections 2.4 to 2.8.
ghost use Rattle.std.specs.Prelude.{◌≡◌, map, IfOk};
ghost use Rattle.apollo_field_usage.specs.Reached.{reached};
ghost use Rattle.apollo_field_usage.specs.Seen.{seen};

use crate::occurrence::FieldOccurrence;
use crate::open_sets::OpenSets;
use apollo_executable::document::ExecutableDocument;
use apollo_executable::selection::SelectionSet;
use std::alloc::{AllocError, Global};

/// Each field that a set reaches, as often as it stands there, in the order of walks. The error is that
/// memory ran out.
pub(crate) fn reached_fields<'doc>(
    alloc: Global,
    document: &'doc ExecutableDocument,
    set: &'doc SelectionSet,
) -> Result<Vec<FieldOccurrence<'doc>>, AllocError>
    ensures { IfOk result (λ fields. map seen fields.items ≡ reached document.now set.now) }
{
    let mut fields = Vec::new(alloc);
    let mut sets = OpenSets::new(alloc, document, set)?;
    while let Some(innermost) = sets.innermost() {
        if let Some(field) = sets.turn(innermost)? {
            fields.push(field)?;
        }
    }
    Ok(fields)
}
