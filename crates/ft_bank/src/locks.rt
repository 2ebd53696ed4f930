//! The locks of containers. A pass writes a container, and what it knows of its words is right, only
//! while it has the lock.
ghost use Rattle.std.specs.Prelude.{◌≡◌, ◌≢◌, ℕ, ◌<◌, ◌+◌, true, false, OnOk, IfErr};
ghost use Rattle.ft_trace.specs.declared.Act.TheVariants.{Lock, Unlock};
ghost use Rattle.ft_trace.specs.declared.Snap.{Snap};
ghost use Rattle.ft_trace.specs.Addresses.{container_count};
ghost use Rattle.ft_trace.specs.Acts.{has_lock, is_writing};
ghost use Rattle.ft_trace.specs.Pictures.{Represents};
ghost use Rattle.ft_trace.specs.Holds.{held_unboxed, known_state};
ghost use Rattle.ft_bank.specs.Locks.{lock_found, KeepsOthers};

use crate::bank::Bank;
use crate::pass::Pass;
use std::marker::Brand;

impl Bank {
    ghost use Rattle.ft_bank.specs.Passes.{shape_of, view, IsPassOf, Did};
    ghost use Rattle.ft_bank.specs.PassSections.{noted_in, stack_of};

    /// Tries to take the lock of a container. It is loaded first, and put only where it is 0; where
    /// another pass has it, that pass is answered. With the lock the pass knows the container's words
    /// and what they stand for.
    #[inline(always)]
    pub fn try_lock(&self, pass: &mut Pass, o: u32) -> Result<(), u32>
        requires pass { IsPassOf self.now pass.old }
        requires container { o < container_count (shape_of self.now) }
        requires free { has_lock o (view pass.old).log ≡ false }
        ensures did { (s : Snap) × Did (Lock o (lock_found result) s) pass.old pass.new }
        ensures other { IfErr result (λ q. (q + 1 ≢ (view pass.old).number) × (q < (shape_of self.now).passes)) }
        ensures lock { OnOk result (has_lock o (view pass.new).log ≡ true) }
        ensures stands { OnOk result (Represents (shape_of self.now).texts (held_unboxed o (view pass.new)) (known_state o (view pass.new))) }
        ensures keeps { KeepsOthers o (view pass.old) (view pass.new) }
    {
        let word = self.block_of(o);
        let seen = self.look_as::<Brand>(pass, word, o);
        if seen != 0 {
            return Err((seen - 1) as u32);
        }
        let found = self.lock_as::<Brand>(pass, word, o);
        if found != 0 {
            return Err((found - 1) as u32);
        }
        Ok(())
    }

    /// Whether the lock of a container is taken, as far as one load tells. It is for who waits: the lock may be let go
    /// or taken again at any time, so nothing is promised, and the pass learns nothing.
    #[inline(always)]
    pub fn seems_locked(&self, o: u32) -> bool
        requires { o < container_count (shape_of self.now) }
    {
        self.table.shared.peek(self.block_of(o) as usize) != 0
    }

    /// Lets go of the lock of a container, whose version is even. No open section notes it as taken.
    pub fn unlock(&self, pass: &mut Pass, o: u32)
        requires pass { IsPassOf self.now pass.old }
        requires container { o < container_count (shape_of self.now) }
        requires locked { has_lock o (view pass.old).log ≡ true }
        requires even { is_writing o (view pass.old).log ≡ false }
        requires struck { noted_in o (stack_of pass.old).sections ≡ 0 }
        ensures { Did (Unlock o) pass.old pass.new }
    {
        let word = self.block_of(o);
        self.store_as::<Brand>(pass, word, 0, o, 0, 0);
    }
}
