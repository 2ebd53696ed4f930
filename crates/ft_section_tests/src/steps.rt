//! The calls of sections with what a test has to know after each: how deep the pass is, and how many calls are left.
ghost use Rattle.std.specs.Prelude.{◌≡◌, ◌<◌, ◌+◌, length};
ghost use Rattle.ft_bank.specs.Passes.{shape_of, view};
ghost use Rattle.ft_bank.specs.PassSections.{stack_of};
ghost use Rattle.ft_section.specs.AnswerFacts.{IfBack, IfBeginWaits, IfEntered, IfStillWaits};
ghost use Rattle.ft_section.specs.Ready.{IsReady, IsWaiting, MayResume, MayTry};
ghost use Rattle.ft_section.specs.LockTakings.{AreIn};

use ft_bank::{Bank, Pass};
use ft_section::{Began, Ended, Objects, Resumed, end, resume, try_begin};

/// `try_begin`: one section more where it is entered.
pub fn begin(bank: &Bank, pass: &mut Pass, objects: Objects) -> Began
    requires may { MayTry bank.now pass.old objects }
    requires containers { AreIn (shape_of bank.now) objects }
    requires depth { length (stack_of pass.old).sections < 16 }
    requires left { 0 < (view pass.old).left }
    ensures resume { IfEntered result (λ s. MayResume bank.now pass.new) }
    ensures deeper { IfEntered result (λ s. length (stack_of pass.new).sections ≡ length (stack_of pass.old).sections + 1) }
    ensures fewer { IfEntered result (λ s. (view pass.new).left + 1 ≡ (view pass.old).left) }
    ensures waits { IfBeginWaits result (λ o q. IsWaiting bank.now pass.new objects) }
    ensures same { IfBeginWaits result (λ o q. length (stack_of pass.new).sections ≡ length (stack_of pass.old).sections) }
    ensures left { IfBeginWaits result (λ o q. (view pass.new).left ≡ (view pass.old).left) }
{
    try_begin(bank, pass, objects)
}

/// `resume`: the pass is as deep as it was.
pub fn take_up(bank: &Bank, pass: &mut Pass) -> Resumed
    requires { MayResume bank.now pass.old }
    ensures ready { IfBack result (λ mark. IsReady bank.now pass.new) }
    ensures may { IfStillWaits result (λ o q. MayResume bank.now pass.new) }
    ensures depth { length (stack_of pass.new).sections ≡ length (stack_of pass.old).sections }
    ensures left { (view pass.new).left ≡ (view pass.old).left }
{
    resume(bank, pass)
}

/// `end`: one section less.
pub fn finish(bank: &Bank, pass: &mut Pass) -> Ended
    requires ready { IsReady bank.now pass.old }
    requires depth { 0 < length (stack_of pass.old).sections }
    requires left { 0 < (view pass.old).left }
    ensures resume { MayResume bank.now pass.new }
    ensures depth { length (stack_of pass.new).sections + 1 ≡ length (stack_of pass.old).sections }
    ensures left { (view pass.new).left + 1 ≡ (view pass.old).left }
{
    end(bank, pass)
}
