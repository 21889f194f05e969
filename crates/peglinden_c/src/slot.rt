//! A pointer that names no type, and what lies behind it.
ghost use Rattle.std.specs.Prelude.{◌≡◌, ◌≢◌, Option, None, Some};
ghost use Rattle.peglinden_c.specs.declared.held.Held.{Held};
ghost use Rattle.peglinden_c.specs.Owned.{slot_owns, held_coded};

use crate::held::Held;
use crate::loose::Loose;
use std::alloc::Global;
use std::marker::Model;
use std::ptr::null_mut;

/// A pointer to what is held, if something is. Its type names no type of Rattle's, so that it can be C's.
#[repr(C)]
#[derive(Drop)]
pub struct Slot {
    at: *mut u8,
    alloc: Global,
    pub ghost held: { Option Held } by { held_coded },
}

impl Model for Slot {
    ghost also_owns = { λ s. slot_owns s.alloc s.at s.held };
}

impl Slot {
    /// A slot with nothing behind it.
    pub fn empty(alloc: Global) -> Slot
        ensures { result.held ≡ None }
    {
        Slot {
            at: null_mut(),
            alloc,
        }
    }

    /// A slot of what is held.
    pub(crate) fn of_loose(loose: Loose<Held, Global>) -> Slot
        ensures { result.held ≡ Some loose.value }
    {
        let Loose { at, alloc } = loose;
        Slot {
            at: at as *mut u8,
            alloc,
        }
    }

    /// What is held, if it is known that something is.
    pub(crate) fn into_loose(self) -> Loose<Held, Global>
        requires { self.held ≢ None }
        ensures { self.held ≡ Some result.value }
    {
        let Slot { at, alloc } = self;
        Loose {
            at: at as *mut Held,
            alloc,
        }
    }
}
