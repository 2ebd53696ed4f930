//! The locks of a call on containers: what each of them takes at its beginning and lets go at its end.
ghost use Rattle.std.specs.Prelude.{◌≡◌, ◌+◌, ℕ, Some, All, true};
ghost use Rattle.ft_bank.specs.declared.sections.Taking.{Taking};
ghost use Rattle.ft_bank.specs.Passes.{shape_of, view};
ghost use Rattle.ft_bank.specs.PassSections.{stack_of, nothing_taken, taken_in};
ghost use Rattle.ft_section.specs.declared.answers.Objects.{Objects};
ghost use Rattle.ft_section.specs.AnswerFacts.{IfHave, IfNotYet};
ghost use Rattle.ft_section.specs.Locking.{OnlyLocked, KeepsLocks, FoundOwner, LocksWithin, with_own, waiting, first_mark, marks_more};
ghost use Rattle.ft_section.specs.Ready.{IsInCall, HasMarks, AreSuspended, IsMaking, MayTry, MayResume, lock_count};
ghost use Rattle.ft_section.specs.Floors.{FindsSame, KnewOwners};
ghost use Rattle.ft_section.specs.Sectioning.{AreNoted};
ghost use Rattle.ft_section.specs.LockTakings.{IsOf, AreIn, HasLocks};
ghost use Rattle.ft_section.specs.Trying.{HasTaken, WaitsFor};
ghost use Rattle.ft_trace.specs.Addresses.{container_count};
ghost use Rattle.ft_trace.specs.Acts.{has_lock};
ghost use Rattle.ft_trace.specs.Owners.{SameOwners};

use crate::answers::{Got, Object, Objects, Owner};
use crate::letting::{let_all_go, let_taking_go};
use crate::locks::take_both;
use ft_bank::{Bank, Pass, Taking};

/// The pass that a call waited for first, where it has now found this one.
fn first_owner(mark: Option<Owner>, owner: Owner) -> Owner
    ensures { result ≡ first_mark mark owner }
{
    match mark {
        None => owner,
        Some(first) => first,
    }
}

/// How many marks more that makes.
fn more_marks(mark: Option<Owner>) -> u32
    ensures { result ≡ marks_more mark }
{
    match mark {
        None => 1,
        Some(_) => 0,
    }
}

/// The same as [`wait`], where a section is open. Its room for the sections is its own, so that a call outside of sections
/// doesn't pay for it.
#[inline(never)]
fn suspend_all(bank: &Bank, pass: &mut Pass, owner: Owner)
    requires inside { IsInCall bank.now pass.old }
    requires marked { (q : ℕ) → (stack_of pass.old).mark ≡ Some q → All HasMarks (stack_of pass.old).sections }
    ensures inside { IsInCall bank.now pass.new }
    ensures locked { OnlyLocked (view pass.old) (view pass.new) }
    ensures owners { SameOwners (view pass.old) (view pass.new) }
    ensures stack { stack_of pass.new ≡ waiting (stack_of pass.old) owner }
    ensures suspended { AreSuspended (stack_of pass.new).sections }
{
    let mark = pass.mark();
    let before = pass.sections().copied();
    let mut after = pass.sections().copied();
    after.suspend(more_marks(mark));
    pass.put_sections(after);
    pass.put_mark(Some(first_owner(mark, owner)));
    let_all_go(bank, pass, before.as_slice());
}

/// The call in flight has found another pass with a lock that it needs: all sections let their locks go.
/// The first pass that it found is its mark, which each section counts.
pub(crate) fn wait(bank: &Bank, pass: &mut Pass, owner: Owner)
    requires inside { IsInCall bank.now pass.old }
    requires marked { (q : ℕ) → (stack_of pass.old).mark ≡ Some q → All HasMarks (stack_of pass.old).sections }
    ensures inside { IsInCall bank.now pass.new }
    ensures locked { OnlyLocked (view pass.old) (view pass.new) }
    ensures owners { SameOwners (view pass.old) (view pass.new) }
    ensures stack { stack_of pass.new ≡ waiting (stack_of pass.old) owner }
    ensures suspended { AreSuspended (stack_of pass.new).sections }
{
    let depth = pass.sections().depth();
    if depth == 0 {
        let mark = pass.mark();
        pass.put_mark(Some(first_owner(mark, owner)));
        return;
    }
    suspend_all(bank, pass, owner);
}

/// Takes the locks of a call's containers, the lower one first, but for those that the pass has. Where a step
/// finds another pass with one of them, the locks of all open sections are let go, and at most the lower
/// lock of the call's two is kept; the same call comes next.
#[inline(always)]
pub fn take_for(bank: &Bank, pass: &mut Pass, objects: Objects) -> Got
    requires may { MayTry bank.now pass.old objects }
    requires containers { AreIn (shape_of bank.now) objects }
    ensures locked { OnlyLocked (view pass.old) (view pass.new) }
    ensures within { LocksWithin objects (view pass.old) (view pass.new) }
    ensures making { IfHave result (IsMaking bank.now pass.new) }
    ensures has { IfHave result (HasLocks (view pass.new) objects × KeepsLocks (view pass.old) (view pass.new)) }
    ensures took { IfHave result (HasTaken objects pass.old pass.new) }
    ensures noted { IfHave result (AreNoted objects (stack_of pass.new).own) }
    ensures found { IfNotYet result (λ o q. IsOf o objects × FoundOwner o q (view pass.old) (view pass.new)) }
    ensures waiting { IfNotYet result (λ o q. WaitsFor bank.now objects o q pass.old pass.new) }
    ensures known { KnewOwners objects (view pass.old) result }
    ensures finds { IfHave result (FindsSame (view pass.old) (view pass.new)) }
{
    let (lower, upper) = objects.in_order();
    match take_both(bank, pass, lower, upper) {
        Ok(()) => Got::Have,
        Err((o, owner)) => {
            wait(bank, pass, owner);
            Got::NotYet(o, owner)
        }
    }
}

/// Lets go of the locks that the call in flight took itself, and of no section's. The call has made its answer, or
/// it is tried again.
#[inline(always)]
pub fn let_go(bank: &Bank, pass: &mut Pass)
    requires { IsMaking bank.now pass.old }
    ensures locked { OnlyLocked (view pass.old) (view pass.new) }
    ensures owners { SameOwners (view pass.old) (view pass.new) }
    ensures count { (o : ℕ) → lock_count o (view pass.new) + taken_in o (stack_of pass.old).own ≡ lock_count o (view pass.old) }
    ensures stack { stack_of pass.new ≡ with_own (stack_of pass.old) nothing_taken }
    ensures may { (objects : Objects) → MayTry bank.now pass.new objects }
    ensures resume { MayResume bank.now pass.new }
{
    let own = pass.own();
    pass.put_own(Taking::NONE);
    let_taking_go(bank, pass, own);
}
