//! Handles: what C keeps of a value that Rattle owns.
ghost use Rattle.std.specs.Prelude.{◌≡◌, Option, None, Some, is_some};
ghost use Rattle.std.specs.Option.{MatchOption};

use crate::held::Held;
use crate::loose::Loose;
use crate::slot::Slot;
use std::alloc::Global;
use std::mem::replace;

/// What C keeps. All zero is a closed handle.
#[repr(C)]
#[derive(Drop)]
pub struct PegAnswer {
    pub slot: Slot,
    is_open: bool,
    ghost agrees: { is_open ≡ is_some slot.held },
}

impl PegAnswer {
    /// A handle with nothing behind it.
    pub fn closed(alloc: Global) -> PegAnswer
        ensures { result.slot.held ≡ None }
    {
        PegAnswer {
            slot: Slot::empty(alloc),
            is_open: false,
        }
    }

    /// A handle of what the box holds.
    pub fn of(held: Box<Held>) -> PegAnswer
        ensures { result.slot.held ≡ Some held.value }
    {
        PegAnswer {
            slot: Slot::of_loose(Loose::of(held)),
            is_open: true,
        }
    }

    /// The box again, if the handle is open.
    pub fn into_box(self) -> Option<Box<Held>>
        ensures { MatchOption result (self.slot.held ≡ None) (λ b. self.slot.held ≡ Some b.value) }
    {
        let PegAnswer { slot, is_open } = self;
        if is_open {
            Some(slot.into_loose().into_box())
        } else {
            None
        }
    }

    /// Closes the handle, and gives what it held.
    pub fn take(&mut self, alloc: Global) -> Option<Box<Held>>
        ensures closed { self.new.slot.held ≡ None }
        ensures value { MatchOption result (self.old.slot.held ≡ None) (λ b.
            self.old.slot.held ≡ Some b.value) }
    {
        replace(self, PegAnswer::closed(alloc)).into_box()
    }
}
