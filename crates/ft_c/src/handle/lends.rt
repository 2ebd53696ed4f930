//! What a handle has, lent and taken back.
ghost use Rattle.std.specs.Prelude.{◌≡◌, Some};
ghost use types.Logic.{sem};
ghost use Rattle.ft_c.specs.Handles.{IsOpen, held_follows};

use super::FtHeld;
use crate::held::Held;
use ft_loose::Loose;
use std::alloc::Global;

impl FtHeld {
    /// What the handle has.
    pub(crate) fn held(&mut self) -> &mut Held
        requires { IsOpen self.old }
        ensures* writes_back { sem 𝓛 (held_follows self.entry result) }
        ensures value { self.old.value ≡ Some result.now }
    {
        unsafe { &mut *(self.at as *mut Held) }
    }

    /// What the handle has, by value.
    pub(crate) fn into_loose(self) -> Loose<Held, Global>
        requires { IsOpen self }
        ensures { self.value ≡ Some result.value }
    {
        let FtHeld { at, alloc } = self;
        Loose {
            at: at as *mut Held,
            alloc,
        }
    }
}
