//! What a session or texts lie behind: a pointer that C keeps and passes back.
ghost use Rattle.std.specs.Prelude.{◌≡◌, Option, Some};
ghost use Rattle.ft_c.specs.Owned.{owned_at};
ghost use Rattle.ft_c.specs.declared.held.Held.{Held};

mod lends;

use crate::held::Held;
use ft_loose::Loose;
use std::alloc::Global;
use std::marker::Model;

/// A pointer to nothing, or to what is held, which it owns.
#[repr(C)]
#[derive(Drop)]
pub struct FtHeld {
    at: *mut u8,
    alloc: Global,
    pub ghost value: { Option Held },
}

impl Model for FtHeld {
    ghost also_owns = { λ h. owned_at h.alloc h.at h.value };
}

impl FtHeld {
    /// The pointer to what is in the box.
    pub(crate) fn of(held: Loose<Held, Global>) -> FtHeld
        ensures { result.value ≡ Some held.value }
    {
        let Loose { at, alloc } = held;
        FtHeld {
            at: at as *mut u8,
            alloc,
        }
    }
}

/// A handle, filled or not. C makes the first with all bytes 0, and nothing is read through one that isn't filled.
#[repr(C)]
#[derive(Drop)]
pub struct FtHandle {
    pub(crate) held: FtHeld,
    pub(crate) filled: u32,
    pub(crate) pad: u32,
}
