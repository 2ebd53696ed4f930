//! The announcements of a pass: that it goes online, that it holds on to no table, that it goes offline.
ghost use Rattle.std.specs.Prelude.{◌≡◌, ℕ, ◌<◌, [], ◌∷◌};
ghost use Rattle.ft_trace.specs.declared.Act.TheVariants.{Announce, WriteNumber};
ghost use Rattle.ft_trace.specs.Acts.{announces, debt, flight, view_after};
ghost use Rattle.ft_bank.specs.Passes.{view, IsPassOf};
ghost use Rattle.ft_bank.specs.PassSections.{stack_of};
ghost use Rattle.ft_bank.specs.Series.{DidAll};
ghost use Rattle.ft_bank.specs.Takings.{Each, KeepsHeld};
ghost use Rattle.ft_qsbr.specs.Collecting.{Collected};

use crate::collecting::collect;
use ft_bank::{Bank, Pass};

/// Goes online: announces the write number. From then on the pass may look without a lock.
pub fn enter(bank: &Bank, pass: &mut Pass)
    requires pass { IsPassOf bank.now pass.old }
    ensures pass { IsPassOf bank.now pass.new }
    ensures did { (n : ℕ) × DidAll (Announce (view pass.old).number n ∷ WriteNumber n ∷ []) pass.old pass.new }
    ensures online { 0 < announces (view pass.new).log }
    ensures keeps { KeepsHeld Each (view pass.old) (view pass.new) }
    ensures debt { debt (view pass.new).log ≡ debt (view pass.old).log }
{
    let number = bank.write_number(pass);
    bank.announce(pass, number);
}

/// Announces the write number anew, so that the pass holds on to no table that it has found before, and
/// collects.
pub fn quiesce(bank: &Bank, pass: &mut Pass)
    requires pass { IsPassOf bank.now pass.old }
    requires idle { flight (view pass.old).log ≡ 0 }
    ensures pass { IsPassOf bank.now pass.new }
    ensures did { (n : ℕ) × (freed : ℕ)
        × Collected (view_after (Announce (view pass.old).number n) (view_after (WriteNumber n) (view pass.old)))
        (view pass.new) freed }
    ensures online { 0 < announces (view pass.new).log }
    ensures sections { stack_of pass.new ≡ stack_of pass.old }
{
    enter(bank, pass);
    collect(bank, pass);
}

/// Goes offline, and collects.
pub fn leave(bank: &Bank, pass: &mut Pass)
    requires pass { IsPassOf bank.now pass.old }
    requires idle { flight (view pass.old).log ≡ 0 }
    ensures pass { IsPassOf bank.now pass.new }
    ensures did { (freed : ℕ)
        × Collected (view_after (Announce (view pass.old).number 0) (view pass.old)) (view pass.new) freed }
    ensures offline { announces (view pass.new).log ≡ 0 }
    ensures sections { stack_of pass.new ≡ stack_of pass.old }
{
    bank.announce(pass, 0);
    collect(bank, pass);
}
