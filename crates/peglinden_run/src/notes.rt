//! Notes in front of what is reported.
ghost use Rattle.std.specs.Prelude.{IfOk, string_bytes};
ghost use Rattle.peglinden_run.specs.Notes.{IsNoted};

use crate::answer::Answer;
use crate::printed::Printed;
use std::alloc::AllocError;

/// An answer with notes in front of what it has on standard error, where something is at fault. The error is
/// out of memory.
pub(crate) fn with_notes(answer: Answer, mut notes: String) -> Result<Answer, AllocError>
    ensures { IfOk result (IsNoted (string_bytes notes) answer) }
{
    if !answer.has_faults {
        return Ok(answer);
    }
    let Answer {
        printed,
        has_faults,
    } = answer;
    let Printed { output, errors } = printed;
    notes.push_str(errors.as_str())?;
    Ok(Answer {
        printed: Printed {
            output,
            errors: notes,
        },
        has_faults,
    })
}
