//! A pass that goes round on one container, as a thread's work: nothing of it is left but what it loaded.
ghost use Rattle.std.specs.Prelude.{◌≡◌, ◌≤◌, ◌<◌};
ghost use Rattle.ft_trace.specs.Addresses.{container_count};
ghost use Rattle.ft_bank.specs.Passes.{shape_of, view, IsPassOf};
ghost use Rattle.ft_bank.specs.PassSections.{stack_of, no_sections};
ghost use Rattle.ft_bank_tests.specs.TestRounds.{IsIdlePass, IsOnwards};

use ft_bank::{Bank, Pass};

/// Tries to take the lock of container 0, loads its version under the lock, and lets it go. Says whether
/// the lock was free.
fn try_round(bank: &Bank, pass: &mut Pass) -> bool
    requires pass { IsPassOf bank.now pass.old }
    requires container { 0 < container_count (shape_of bank.now) }
    requires idle { IsIdlePass (view pass.old) }
    requires sections { stack_of pass.old ≡ no_sections }
    ensures pass { IsPassOf bank.now pass.new }
    ensures idle { IsIdlePass (view pass.new) }
    ensures sections { stack_of pass.new ≡ no_sections }
    ensures onwards { IsOnwards (view pass.old) (view pass.new) }
{
    let Ok(()) = bank.try_lock(pass, 0) else {
        return false;
    };
    bank.seq(pass, 0);
    bank.unlock(pass, 0);
    true
}

/// Does that in each round, and counts how often the lock was free.
pub fn go_round(bank: &Bank, pass: &mut Pass, rounds: u32) -> u32
    requires pass { IsPassOf bank.now pass.old }
    requires container { 0 < container_count (shape_of bank.now) }
    requires idle { IsIdlePass (view pass.old) }
    requires sections { stack_of pass.old ≡ no_sections }
    ensures count { result ≤ rounds }
    ensures pass { IsPassOf bank.now pass.new }
    ensures idle { IsIdlePass (view pass.new) }
    ensures sections { stack_of pass.new ≡ no_sections }
    ensures onwards { IsOnwards (view pass.old) (view pass.new) }
{
    let mut free = 0;
    for _ in 0..rounds {
        if try_round(bank, pass) {
            free += 1;
        }
    }
    free
}

/// The same for a pass of the caller's own, which it gets back.
pub fn go_round_with(bank: &Bank, mut pass: Pass, rounds: u32) -> (Pass, u32)
    requires pass { IsPassOf bank.now pass }
    requires container { 0 < container_count (shape_of bank.now) }
    requires idle { IsIdlePass (view pass) }
    requires sections { stack_of pass ≡ no_sections }
    ensures count { result.1 ≤ rounds }
    ensures pass { IsPassOf bank.now result.0 }
    ensures idle { IsIdlePass (view result.0) }
    ensures sections { stack_of result.0 ≡ no_sections }
    ensures onwards { IsOnwards (view pass) (view result.0) }
{
    let free = go_round(bank, &mut pass, rounds);
    (pass, free)
}
