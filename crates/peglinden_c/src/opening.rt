//! Putting what came of a call behind a handle.
ghost use Rattle.std.specs.Prelude.{◌≡◌};
ghost use Rattle.peglinden_c.specs.Kept.{IsPut, said_of, said_of_refusal};

use crate::answered::Answered;
use crate::handle::PegAnswer;
use crate::held::Held;
use crate::refusal::Refusal;
use program_io::status::Status;
use std::alloc::Global;

/// A call that is done, and nothing is at fault.
pub(crate) const DONE: i32 = 0;
/// A call that is done, and something is at fault, or files are refused.
pub(crate) const FAULTS: i32 = 1;
/// Out of memory.
pub(crate) const EXHAUSTED: i32 = 3;
/// The buffer is too short.
pub(crate) const SHORT: i32 = 5;
/// The call may not be made so, or the handle is closed.
pub(crate) const MISUSE: i32 = 6;

/// What a call says that opened an answer.
fn said_of(status: Status) -> i32
    ensures { result ≡ said_of status }
{
    match status {
        Status::Done => DONE,
        _ => FAULTS,
    }
}

/// What a call says that opened none.
fn said_of_refusal(why: Refusal) -> i32
    ensures { result ≡ said_of_refusal why }
{
    match why {
        Refusal::Exhausted => EXHAUSTED,
        Refusal::Improper => MISUSE,
    }
}

/// Puts what came of a call behind a handle, whose own is dropped, and says how that went. Where nothing came
/// of it, or there is no room, the handle is as it was.
pub(crate) fn open(alloc: Global, made: Result<Answered, Refusal>, answer: &mut PegAnswer) -> i32
    ensures { IsPut made result answer.old.slot.held answer.new.slot.held }
{
    let kept = match made {
        Ok(kept) => kept,
        Err(why) => return said_of_refusal(why),
    };
    let said = said_of(kept.status);
    let Ok(held) = Box::new(alloc, Held::Answer(kept)) else {
        return EXHAUSTED;
    };
    drop(answer.take(alloc));
    *answer = PegAnswer::of(held);
    said
}
