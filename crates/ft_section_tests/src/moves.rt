//! What tests of sections begin with, and the moves that they share. Each move must be answered as its name says, and
//! else fails under the caller's label.
ghost use Rattle.std.specs.Prelude.{◌≡◌, ◌<◌, ◌+◌, length, IfOk, OnOk};
ghost use Rattle.ft_bank.specs.Passes.{shape_of, view};
ghost use Rattle.ft_bank.specs.PassSections.{stack_of, no_sections};
ghost use Rattle.ft_section.specs.declared.answers.Objects.TheVariants.{One};
ghost use Rattle.ft_section.specs.Ready.{IsReady, IsWaiting, MayTry};
ghost use Rattle.ft_section.specs.LockTakings.{AreIn};

use crate::steps::{begin, finish, take_up};
use ft_bank::{Bank, Pass, Shape};
use ft_bank_tests::{bank_of_two, small_shape};
use ft_model::Kind;
use ft_section::{Began, Ended, Objects, Resumed, new_passes_are_ready};
use std::alloc::Global;
use std::test::Fail;

/// Two lists, for two passes.
pub(crate) fn small(alloc: Global) -> Result<Shape, Fail>
    ensures { IfOk result (λ s. (length s.kinds.items ≡ 2) × (s.passes ≡ 2) × (s.calls ≡ 10)) }
{
    Ok(small_shape(alloc, vec![in alloc; Kind::List, Kind::List]?, 2, 10)?)
}

/// A bank of that shape, and its two passes, which are ready for a call.
pub(crate) fn ready_two(alloc: Global) -> Result<(Bank, Pass, Pass), Fail>
    ensures lists { IfOk result (λ made. length (shape_of made.0).starts ≡ 2) }
    ensures ready { IfOk result (λ made. IsReady made.0 made.1 × IsReady made.0 made.2) }
    ensures none { IfOk result (λ made. (stack_of made.1 ≡ no_sections) × (stack_of made.2 ≡ no_sections)) }
    ensures left { IfOk result (λ made. ((view made.1).left ≡ 10) × ((view made.2).left ≡ 10)) }
{
    let (bank, first, second) = bank_of_two(alloc, small(alloc)?)?;
    new_passes_are_ready(&bank, &first);
    new_passes_are_ready(&bank, &second);
    Ok((bank, first, second))
}

/// Begins a section at once, and goes on without having let anything go.
pub(crate) fn enter(bank: &Bank, pass: &mut Pass, objects: Objects, free: &str) -> Result<(), Fail>
    requires may { MayTry bank.now pass.old objects }
    requires containers { AreIn (shape_of bank.now) objects }
    requires depth { length (stack_of pass.old).sections < 16 }
    requires left { 0 < (view pass.old).left }
    ensures ready { OnOk result (IsReady bank.now pass.new) }
    ensures deeper { OnOk result (length (stack_of pass.new).sections ≡ length (stack_of pass.old).sections + 1) }
    ensures fewer { OnOk result ((view pass.new).left + 1 ≡ (view pass.old).left) }
{
    let Began::Entered(_) = begin(bank, pass, objects) else {
        return Err(Fail::from(free));
    };
    let Resumed::Back(None) = take_up(bank, pass) else {
        return Err(Fail::from("nothing was let go"));
    };
    Ok(())
}

/// Tries to begin a section on one container, and has to wait for its lock, which the pass of that number has.
pub(crate) fn wait(
    bank: &Bank,
    pass: &mut Pass,
    object: u32,
    owner: u32,
    taken: &str,
) -> Result<(), Fail>
    requires may { MayTry bank.now pass.old (One object) }
    requires containers { AreIn (shape_of bank.now) (One object) }
    requires depth { length (stack_of pass.old).sections < 16 }
    requires left { 0 < (view pass.old).left }
    ensures waits { OnOk result (IsWaiting bank.now pass.new (One object)) }
    ensures same { OnOk result (length (stack_of pass.new).sections ≡ length (stack_of pass.old).sections) }
    ensures left { OnOk result ((view pass.new).left ≡ (view pass.old).left) }
{
    let Began::NotYet(needed, other) = begin(bank, pass, Objects::One(object)) else {
        return Err(Fail::from(taken));
    };
    if needed != object || other != owner {
        return Err(Fail::from(taken));
    }
    Ok(())
}

/// Ends the innermost section, in which no call had to wait, and goes on with the one round it.
pub(crate) fn leave(bank: &Bank, pass: &mut Pass, kept: &str) -> Result<(), Fail>
    requires ready { IsReady bank.now pass.old }
    requires depth { 0 < length (stack_of pass.old).sections }
    requires left { 0 < (view pass.old).left }
    ensures ready { OnOk result (IsReady bank.now pass.new) }
    ensures depth { OnOk result (length (stack_of pass.new).sections + 1 ≡ length (stack_of pass.old).sections) }
    ensures left { OnOk result ((view pass.new).left + 1 ≡ (view pass.old).left) }
{
    let Ended::Kept(_) = finish(bank, pass) else {
        return Err(Fail::from(kept));
    };
    let Resumed::Back(None) = take_up(bank, pass) else {
        return Err(Fail::from("the end didn't wait"));
    };
    Ok(())
}
