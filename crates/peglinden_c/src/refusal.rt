//! Why a call opens no answer.
ghost use Rattle.std.specs.Prelude.{◌≡◌};
ghost use Rattle.peglinden_c.specs.declared.refusal.Refusal.{Refusal};

use std::alloc::AllocError;

/// Why a call opens no answer.
#[derive(Debug, Clone, Copy, PartialEq, Eq)]
pub enum Refusal {
    /// Out of memory, or the extensions of the schema would pass the largest number.
    Exhausted,
    /// The call may not be made so: the keys aren't sixteen bytes, a flag isn't one of the call's, two forms
    /// are asked for, or a path or a coordinate isn't UTF-8.
    Improper,
}

impl From<AllocError> for Refusal {
    ghost from_gives = { λ _ refusal. refusal ≡ Refusal.Exhausted };

    fn from(_error: AllocError) -> Refusal {
        Refusal::Exhausted
    }
}
