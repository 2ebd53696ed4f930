//! The locks that a pass has, and those that the call in flight takes: each is noted once, by the section or the
//! call that took it, so that whoever took it lets it go.
ghost use Rattle.std.specs.Prelude.{◌≡◌, ◌≢◌, ◌+◌, ◌<◌, ◌↔◌, ◌⊎◌, ℕ, IsTrue, Bool, true, false, not, if◌then◌else◌, None, OnOk, OnErr, IfOk, IfErr};
ghost use Rattle.ft_bank.specs.declared.sections.Taking.{Taking};
ghost use Rattle.ft_bank.specs.Passes.{shape_of, view, IsPassOf};
ghost use Rattle.ft_bank.specs.PassSections.{Stack, stack_of, taken_in, noted_in};
ghost use Rattle.ft_section.specs.Ready.{IsInCall, lock_count};
ghost use Rattle.ft_section.specs.Locking.{TookLocks, OnlyLocked, KeepsLocks, FoundOwner, KeepsLower, KeepsStack, at_one, with_own};
ghost use Rattle.ft_section.specs.Floors.{FindsSame, first_found, first_owned, owner_found, owner_of, owner_or};
ghost use Rattle.ft_section.specs.LockTakings.{IsOwnFor};
ghost use Rattle.ft_trace.specs.Addresses.{container_count};
ghost use Rattle.ft_trace.specs.Acts.{has_lock};
ghost use Rattle.ft_trace.specs.Owners.{LocksOnly};

use crate::answers::{Object, Owner};
use ft_bank::{Bank, OpenSection, Pass, Taking};

/// Whether the lock of a container was taken so.
#[inline(always)]
fn is_taken(taking: Taking, o: Object) -> bool
    ensures { IsTrue result ↔ (taken_in o taking ≢ 0) }
{
    (taking.took_lower && taking.lower == o) || (taking.took_upper && taking.upper == o)
}

/// Whether one of these sections notes the lock of a container as taken.
#[inline]
fn is_noted(sections: &[OpenSection], o: Object) -> bool
    ensures { IsTrue result ↔ (noted_in o sections.now ≢ 0) }
{
    for section in sections {
        if is_taken(section.locks, o) {
            return true;
        }
    }
    false
}

/// Whether the pass has the lock of a container.
#[inline(always)]
pub(crate) fn has(pass: &Pass, o: Object) -> bool
    requires { noted_in o (stack_of pass.now).sections + taken_in o (stack_of pass.now).own ≡ lock_count o (view pass.now) }
    ensures { result ≡ has_lock o (view pass.now).log }
{
    is_taken(pass.own(), o) || is_noted(pass.sections().as_slice(), o)
}

/// Takes the lock of a container, unless the pass has it, and answers whether it took it now; or the pass
/// that has it.
#[inline(always)]
fn take_one(bank: &Bank, pass: &mut Pass, o: Object) -> Result<bool, Owner>
    requires inside { IsInCall bank.now pass.old }
    requires container { o < container_count (shape_of bank.now) }
    ensures stack { KeepsStack pass.old pass.new }
    ensures took { IfOk result (λ now. TookLocks (λ p. if now then at_one o p else 0) (view pass.old) (view pass.new)) }
    ensures now { IfOk result (λ now. now ≡ not (has_lock o (view pass.old).log)) }
    ensures has { OnOk result (has_lock o (view pass.new).log ≡ true) }
    ensures none { OnErr result (TookLocks (λ p. 0) (view pass.old) (view pass.new)) }
    ensures found { IfErr result (λ q. FoundOwner o q (view pass.old) (view pass.new)) }
    ensures lacked { OnErr result (has_lock o (view pass.old).log ≡ false) }
    ensures known { (view pass.old).has_floor ≡ true → owner_found result ≡ owner_of o (view pass.old) }
    ensures finds { OnOk result (FindsSame (view pass.old) (view pass.new)) }
{
    if has(pass, o) {
        return Ok(false);
    }
    match bank.try_lock(pass, o) {
        Ok(()) => Ok(true),
        Err(owner) => Err(owner),
    }
}

/// The locks of a call, with that of the lower container where it was taken now.
fn noting_lower(own: Taking, now: bool) -> Taking
    requires { now ≡ true → own.took_lower ≡ false }
    ensures taken { (o : ℕ) → taken_in o result ≡ taken_in o own + (if now then at_one own.lower o else 0) }
    ensures rest { result ≡ record own { took_lower = result.took_lower } }
{
    if now {
        Taking {
            took_lower: true,
            ..own
        }
    } else {
        own
    }
}

/// The same of the upper one.
fn noting_upper(own: Taking, now: bool) -> Taking
    requires { now ≡ true → own.took_upper ≡ false }
    ensures taken { (o : ℕ) → taken_in o result ≡ taken_in o own + (if now then at_one own.upper o else 0) }
    ensures rest { result ≡ record own { took_upper = result.took_upper } }
    ensures none { now ≡ false → result ≡ own }
{
    if now {
        Taking {
            took_upper: true,
            ..own
        }
    } else {
        own
    }
}

/// Takes the lock of the lower one of the two containers of the call in flight, unless the pass has it, and notes both
/// containers as the call's; or answers the lower one and the pass that has it. The call has itself at most that lock
/// before, and where another pass has it, none.
#[inline(always)]
fn take_lower(
    bank: &Bank,
    pass: &mut Pass,
    lower: Object,
    upper: Object,
) -> Result<(), (Object, Owner)>
    requires inside { IsInCall bank.now pass.old }
    requires container { lower < container_count (shape_of bank.now) }
    requires own { IsOwnFor lower upper (stack_of pass.old).own }
    ensures inside { IsInCall bank.now pass.new }
    ensures locked { OnlyLocked (view pass.old) (view pass.new) }
    ensures keeps { KeepsLocks (view pass.old) (view pass.new) }
    ensures stack { (took : Bool) × (stack_of pass.new ≡ with_own (stack_of pass.old)
        (record { lower = lower; upper = upper; took_lower = took; took_upper = (stack_of pass.old).own.took_upper })) }
    ensures noted { OnOk result ((r : ℕ) → taken_in r (stack_of pass.new).own ≡ taken_in r (stack_of pass.old).own
        + (if has_lock lower (view pass.old).log then 0 else at_one lower r)) }
    ensures has { OnOk result (has_lock lower (view pass.new).log ≡ true) }
    ensures none { OnErr result ((r : ℕ) → taken_in r (stack_of pass.new).own ≡ taken_in r (stack_of pass.old).own) }
    ensures lacked { OnErr result (has_lock lower (view pass.old).log ≡ false) }
    ensures only { LocksOnly (λ o. o ≡ lower) (view pass.old) (view pass.new) }
    ensures found { IfErr result (λ e. (e.0 ≡ lower) × FoundOwner e.0 e.1 (view pass.old) (view pass.new)) }
    ensures known { (view pass.old).has_floor ≡ true → first_found result ≡
        owner_or lower (owner_of lower (view pass.old)) None }
    ensures finds { OnOk result (FindsSame (view pass.old) (view pass.new)) }
{
    let before = pass.own();
    let own = Taking {
        lower,
        upper,
        ..before
    };
    match take_one(bank, pass, lower) {
        Ok(now) => {
            pass.put_own(noting_lower(own, now));
            Ok(())
        }
        Err(owner) => {
            pass.put_own(own);
            Err((lower, owner))
        }
    }
}

/// The same of its upper one, which may be the same.
#[inline(always)]
fn take_upper(bank: &Bank, pass: &mut Pass) -> Result<(), (Object, Owner)>
    requires inside { IsInCall bank.now pass.old }
    requires container { (stack_of pass.old).own.upper < container_count (shape_of bank.now) }
    ensures inside { IsInCall bank.now pass.new }
    ensures locked { OnlyLocked (view pass.old) (view pass.new) }
    ensures keeps { KeepsLocks (view pass.old) (view pass.new) }
    ensures stack { (took : Bool) × (stack_of pass.new ≡ with_own (stack_of pass.old) (record (stack_of pass.old).own { took_upper = took })) }
    ensures has { OnOk result (has_lock (stack_of pass.old).own.upper (view pass.new).log ≡ true) }
    ensures once { has_lock (stack_of pass.old).own.upper (view pass.old).log ≡ true → stack_of pass.new ≡ stack_of pass.old }
    ensures none { OnErr result (stack_of pass.new ≡ stack_of pass.old) }
    ensures lacked { OnErr result (has_lock (stack_of pass.old).own.upper (view pass.old).log ≡ false) }
    ensures only { LocksOnly (λ o. o ≡ (stack_of pass.old).own.upper) (view pass.old) (view pass.new) }
    ensures found { IfErr result (λ e. (e.0 ≡ (stack_of pass.old).own.upper) × FoundOwner e.0 e.1 (view pass.old) (view pass.new)) }
    ensures known { (view pass.old).has_floor ≡ true → first_found result ≡
        owner_or (stack_of pass.old).own.upper (owner_of (stack_of pass.old).own.upper (view pass.old)) None }
    ensures finds { OnOk result (FindsSame (view pass.old) (view pass.new)) }
{
    let own = pass.own();
    match take_one(bank, pass, own.upper) {
        Ok(now) => {
            pass.put_own(noting_upper(own, now));
            Ok(())
        }
        Err(owner) => Err((own.upper, owner)),
    }
}

/// Takes the locks of two containers, which may be the same, the lower one first, but for those that the
/// pass has; or answers a container and the other pass that has it. The call in flight has itself at most
/// the lower one before, and where another pass has one of them, also after.
#[inline(always)]
pub(crate) fn take_both(
    bank: &Bank,
    pass: &mut Pass,
    lower: Object,
    upper: Object,
) -> Result<(), (Object, Owner)>
    requires inside { IsInCall bank.now pass.old }
    requires containers { (lower < container_count (shape_of bank.now)) × (upper < container_count (shape_of bank.now)) }
    requires own { IsOwnFor lower upper (stack_of pass.old).own }
    ensures inside { IsInCall bank.now pass.new }
    ensures locked { OnlyLocked (view pass.old) (view pass.new) }
    ensures keeps { KeepsLocks (view pass.old) (view pass.new) }
    ensures stack { stack_of pass.new ≡ with_own (stack_of pass.old) (stack_of pass.new).own }
    ensures containers { ((stack_of pass.new).own.lower ≡ lower) × ((stack_of pass.new).own.upper ≡ upper) }
    ensures has { OnOk result ((has_lock lower (view pass.new).log ≡ true) × (has_lock upper (view pass.new).log ≡ true)) }
    ensures once { lower ≡ upper → (stack_of pass.new).own.took_upper ≡ false }
    ensures none { OnErr result ((stack_of pass.new).own.took_upper ≡ false) }
    ensures kept { IfErr result (λ e. KeepsLower lower e.0 pass.old pass.new) }
    ensures lacked { OnErr result ((has_lock lower (view pass.old).log ≡ false) ⊎ (has_lock upper (view pass.old).log ≡ false)) }
    ensures only { LocksOnly (λ o. (o ≡ lower) ⊎ (o ≡ upper)) (view pass.old) (view pass.new) }
    ensures found { IfErr result (λ e. ((e.0 ≡ lower) ⊎ (e.0 ≡ upper)) × FoundOwner e.0 e.1 (view pass.old) (view pass.new)) }
    ensures known { (view pass.old).has_floor ≡ true → first_found result ≡ first_owned lower upper (view pass.old) }
    ensures finds { OnOk result (FindsSame (view pass.old) (view pass.new)) }
{
    take_lower(bank, pass, lower, upper)?;
    if lower == upper {
        return Ok(());
    }
    take_upper(bank, pass)
}
