//! The innermost section is taken up again before the next call (C API, critical sections).
ghost use Rattle.std.specs.Prelude.{◌≡◌, ◌≢◌, ◌≤◌, ◌+◌, ◌++◌, ◌∷◌, ◌⊎◌, [], ℕ, List, true, false};
ghost use Rattle.ft_bank.specs.declared.sections.OpenSection.{OpenSection};
ghost use Rattle.ft_bank.specs.Passes.{view};
ghost use Rattle.ft_bank.specs.PassSections.{stack_of, taken_in, nothing_taken};
ghost use Rattle.ft_section.specs.declared.answers.Resumed.TheVariants as resumed;
ghost use Rattle.ft_section.specs.AnswerFacts.{IfBack, IfStillWaits};
ghost use Rattle.ft_section.specs.Floors.{first_owned, resumed_by};
ghost use Rattle.ft_section.specs.Locking.{OnlyLocked, FoundOwner, KeepsLower, TakenUp, with_own, waiting};
ghost use Rattle.ft_section.specs.Ready.{HasTop, IsReady, MayResume};
ghost use Rattle.ft_trace.specs.Owners.{LocksOnly, SameOwners};

use crate::answers::Resumed;
use crate::calls::wait;
use crate::locks::take_both;
use ft_bank::{Bank, OpenSection, Pass, Taking};

/// The locks of a section, with those that were taken again.
fn joined(locks: Taking, own: Taking) -> Taking
    requires same { (own.lower ≡ locks.lower) × (own.upper ≡ locks.upper) }
    requires apart { (o : ℕ) → taken_in o locks + taken_in o own ≤ 1 }
    ensures taken { (o : ℕ) → taken_in o result ≡ taken_in o locks + taken_in o own }
    ensures rest { result ≡ record locks { took_lower = result.took_lower; took_upper = result.took_upper } }
    ensures once { locks.took_upper ≡ false → own.took_upper ≡ false → result.took_upper ≡ false }
{
    Taking {
        took_lower: locks.took_lower || own.took_lower,
        took_upper: locks.took_upper || own.took_upper,
        ..locks
    }
}

/// The same, where a section is open. Its room for the sections is its own, so that a call outside of sections
/// doesn't pay for it.
#[inline(never)]
fn resume_top(bank: &Bank, pass: &mut Pass) -> Resumed
    requires may { MayResume bank.now pass.old }
    requires open { (stack_of pass.old).sections ≢ [] }
    ensures locked { OnlyLocked (view pass.old) (view pass.new) }
    ensures only { (outer : List OpenSection) (top : OpenSection) → (stack_of pass.old).sections ≡ outer ++ top ∷ [] →
        LocksOnly (λ o. (o ≡ top.locks.lower) ⊎ (o ≡ top.locks.upper)) (view pass.old) (view pass.new) }
    ensures ready { IfBack result (λ mark. IsReady bank.now pass.new) }
    ensures mark { IfBack result (λ mark. mark ≡ (stack_of pass.old).mark) }
    ensures stack { IfBack result (λ mark. TakenUp (stack_of pass.old) (stack_of pass.new)) }
    ensures needed { IfStillWaits result (λ o q. (outer : List OpenSection) × (top : OpenSection) ×
        ((stack_of pass.old).sections ≡ outer ++ top ∷ []) × ((o ≡ top.locks.lower) ⊎ (o ≡ top.locks.upper))) }
    ensures found { IfStillWaits result (λ o q. FoundOwner o q (view pass.old) (view pass.new)) }
    ensures kept { IfStillWaits result (λ o q. (outer : List OpenSection) (top : OpenSection) →
        (stack_of pass.old).sections ≡ outer ++ top ∷ [] → KeepsLower top.locks.lower o pass.old pass.new) }
    ensures lacked { IfStillWaits result (λ o q. HasTop pass.old → ⊥) }
    ensures may { IfStillWaits result (λ o q. MayResume bank.now pass.new) }
    ensures known { (view pass.old).has_floor ≡ true → (outer : List OpenSection) (top : OpenSection) →
        (stack_of pass.old).sections ≡ outer ++ top ∷ [] →
        result ≡ resumed_by (stack_of pass.old).mark (first_owned top.locks.lower top.locks.upper (view pass.old)) }
    ensures waiting { IfStillWaits result (λ o q. stack_of pass.new ≡ waiting (with_own (stack_of pass.old) (stack_of pass.new).own) q) }
{
    let mark = pass.mark();
    // There is room for the innermost section to be put back.
    let depth = pass.sections().depth();
    prove!(depth <= 16);
    let mut sections = pass.sections().copied();
    let Some(top) = sections.pop() else {
        unreachable!()
    };
    match take_both(bank, pass, top.locks.lower, top.locks.upper) {
        Ok(()) => {
            sections.push(OpenSection {
                locks: joined(top.locks, pass.own()),
                marks: top.marks,
            });
            pass.put_sections(sections);
            pass.put_own(Taking::NONE);
            pass.put_mark(None);
            Resumed::Back(mark)
        }
        Err((o, owner)) => {
            wait(bank, pass, owner);
            Resumed::NotYet(o, owner)
        }
    }
}

/// Takes the locks of the innermost section again, but for those that the pass has; they count as that
/// section's. Then the call has finished, and its mark is answered. Where a step finds another pass with one
/// of them, the locks of all open sections are let go, and at most the lower lock of the two is kept; the
/// same call comes next.
pub fn resume(bank: &Bank, pass: &mut Pass) -> Resumed
    requires { MayResume bank.now pass.old }
    ensures locked { OnlyLocked (view pass.old) (view pass.new) }
    ensures only { (outer : List OpenSection) (top : OpenSection) → (stack_of pass.old).sections ≡ outer ++ top ∷ [] →
        LocksOnly (λ o. (o ≡ top.locks.lower) ⊎ (o ≡ top.locks.upper)) (view pass.old) (view pass.new) }
    ensures owners { (stack_of pass.old).sections ≡ [] → SameOwners (view pass.old) (view pass.new) }
    ensures ready { IfBack result (λ mark. IsReady bank.now pass.new) }
    ensures mark { IfBack result (λ mark. mark ≡ (stack_of pass.old).mark) }
    ensures stack { IfBack result (λ mark. TakenUp (stack_of pass.old) (stack_of pass.new)) }
    ensures needed { IfStillWaits result (λ o q. (outer : List OpenSection) × (top : OpenSection) ×
        ((stack_of pass.old).sections ≡ outer ++ top ∷ []) × ((o ≡ top.locks.lower) ⊎ (o ≡ top.locks.upper))) }
    ensures found { IfStillWaits result (λ o q. FoundOwner o q (view pass.old) (view pass.new)) }
    ensures kept { IfStillWaits result (λ o q. (outer : List OpenSection) (top : OpenSection) →
        (stack_of pass.old).sections ≡ outer ++ top ∷ [] → KeepsLower top.locks.lower o pass.old pass.new) }
    ensures lacked { IfStillWaits result (λ o q. HasTop pass.old → ⊥) }
    ensures may { IfStillWaits result (λ o q. MayResume bank.now pass.new) }
    ensures known { (view pass.old).has_floor ≡ true → (outer : List OpenSection) (top : OpenSection) →
        (stack_of pass.old).sections ≡ outer ++ top ∷ [] →
        result ≡ resumed_by (stack_of pass.old).mark (first_owned top.locks.lower top.locks.upper (view pass.old)) }
    ensures none { (stack_of pass.old).sections ≡ [] → result ≡ resumed.Back (stack_of pass.old).mark }
    ensures waiting { IfStillWaits result (λ o q. stack_of pass.new ≡ waiting (with_own (stack_of pass.old) (stack_of pass.new).own) q) }
{
    let depth = pass.sections().depth();
    if depth == 0 {
        let mark = pass.mark();
        pass.put_mark(None);
        return Resumed::Back(mark);
    }
    resume_top(bank, pass)
}
