//! How many sections a pass has open, and the begin of another one (C API, critical sections).
ghost use Rattle.std.specs.Prelude.{◌≡◌, ◌≤◌, ◌<◌, ◌++◌, ◌∷◌, [], ℕ, List, length, false, true};
ghost use Rattle.ft_bank.specs.declared.sections.Taking.{Taking};
ghost use Rattle.ft_bank.specs.NewPasses.{IsOpening};
ghost use Rattle.ft_bank.specs.Passes.{shape_of, view};
ghost use Rattle.ft_bank.specs.PassSections.{stack_of, nothing_taken};
ghost use Rattle.ft_model.specs.declared.reply.Reply.TheVariants as reply;
ghost use Rattle.ft_section.specs.AnswerFacts.{IfEntered, IfBeginWaits};
ghost use Rattle.ft_section.specs.Floors.{began_by, first_owned, floor_word};
ghost use Rattle.ft_section.specs.Locking.{OnlyLocked, KeepsLocks, FoundOwner, LocksWithin};
ghost use Rattle.ft_section.specs.Ready.{IsReady, IsMaking, MayTry, MayResume};
ghost use Rattle.ft_section.specs.Sectioning.{IsSaid, AreNoted, begin_of, answered_view};
ghost use Rattle.ft_section.specs.LockTakings.{IsOf, AreIn, HasLocks, lower_of, upper_of};
ghost use Rattle.ft_section.specs.Trying.{WaitsFor};
ghost use Rattle.ft_trace.specs.declared.Act.{Act};
ghost use Rattle.ft_trace.specs.declared.View.{View};
ghost use Rattle.ft_trace.specs.Acts.{seen_writes};
ghost use Rattle.ft_trace.specs.Addresses.{counter};

use crate::answers::{Began, Got, Objects, Stamp};
use crate::calls::take_for;
use crate::entries::make_entry;
use ft_bank::{Bank, OpenSection, Pass, Taking};
use ft_model::{Call, Reply};

/// How many sections the pass has open, at most 16.
pub fn depth(pass: &Pass) -> u32
    ensures depth { result ≡ length (stack_of pass.now).sections }
    ensures few { result ≤ 16 }
{
    pass.sections().depth()
}

/// A pass of a new bank is ready for its first call.
pub fn new_passes_are_ready(bank: &Bank, pass: &Pass)
    requires { (i : ℕ) × IsOpening bank.now i pass.now }
    ensures { IsReady bank.now pass.now }
{}

/// The call that begins a section on these containers.
fn begin_call(objects: Objects) -> Call
    ensures call { result ≡ begin_of objects }
    ensures said { (v : View) → IsSaid result reply.Entered v }
{
    match objects {
        Objects::One(first) => Call::Begin {
            first,
            second: None,
        },
        Objects::Two(first, second) => Call::Begin {
            first,
            second: Some(second),
        },
    }
}

/// Opens the section whose locks the call in flight has: its entry is made while they are held, and what the
/// call took counts as the section's.
fn enter(bank: &Bank, pass: &mut Pass, objects: Objects) -> Stamp
    requires making { IsMaking bank.now pass.old }
    requires containers { AreIn (shape_of bank.now) objects }
    requires has { HasLocks (view pass.old) objects }
    requires noted { AreNoted objects (stack_of pass.old).own }
    requires depth { length (stack_of pass.old).sections < 16 }
    requires left { 0 < (view pass.old).left }
    ensures entry { view pass.new ≡ answered_view (begin_of objects) reply.Entered result.number (view pass.old) }
    ensures seen { seen_writes (view pass.old) ≤ result.number }
    ensures read { result.wrote ≡ false }
    ensures section { stack_of pass.new ≡ record (stack_of pass.old) {
      sections = (stack_of pass.old).sections ++ record { locks = (stack_of pass.old).own; marks = 0 } ∷ [];
      own = nothing_taken;
    } }
    ensures known { (view pass.old).has_floor ≡ true → result.number ≡ floor_word counter (view pass.old) }
    ensures resume { MayResume bank.now pass.new }
{
    let call = begin_call(objects);
    let number = make_entry(bank, pass, &call, &Reply::Entered);
    let mut sections = pass.sections().copied();
    sections.push(OpenSection {
        locks: pass.own(),
        marks: 0,
    });
    pass.put_sections(sections);
    pass.put_own(Taking::NONE);
    Stamp {
        number,
        wrote: false,
    }
}

/// Begins a section: takes the locks of its containers that the pass doesn't have, the lower one first. Where a
/// step finds another pass with one of them, the locks of all open sections are let go, and at most the lower
/// lock of the section's two is kept; the same call comes next.
pub fn try_begin(bank: &Bank, pass: &mut Pass, objects: Objects) -> Began
    requires may { MayTry bank.now pass.old objects }
    requires containers { AreIn (shape_of bank.now) objects }
    requires depth { length (stack_of pass.old).sections < 16 }
    requires left { 0 < (view pass.old).left }
    ensures entry { IfEntered result (λ s. (v : View) × OnlyLocked (view pass.old) v × KeepsLocks (view pass.old) v
        × HasLocks v objects × (view pass.new ≡ answered_view (begin_of objects) reply.Entered s.number v)) }
    ensures within { LocksWithin objects (view pass.old) (view pass.new) }
    ensures seen { IfEntered result (λ s. seen_writes (view pass.old) ≤ s.number) }
    ensures read { IfEntered result (λ s. s.wrote ≡ false) }
    ensures section { IfEntered result (λ s. (own : Taking) × AreNoted objects own × (stack_of pass.new ≡ record (stack_of pass.old) {
      sections = (stack_of pass.old).sections ++ record { locks = own; marks = 0 } ∷ [];
      own = nothing_taken;
    })) }
    ensures resume { IfEntered result (λ s. MayResume bank.now pass.new) }
    ensures locked { IfBeginWaits result (λ o q. OnlyLocked (view pass.old) (view pass.new)) }
    ensures found { IfBeginWaits result (λ o q. IsOf o objects × FoundOwner o q (view pass.old) (view pass.new)) }
    ensures waiting { IfBeginWaits result (λ o q. WaitsFor bank.now objects o q pass.old pass.new) }
    ensures known { (view pass.old).has_floor ≡ true → result ≡ began_by (floor_word counter (view pass.old))
        (first_owned (lower_of objects) (upper_of objects) (view pass.old)) }
{
    match take_for(bank, pass, objects) {
        Got::Have => Began::Entered(enter(bank, pass, objects)),
        Got::NotYet(o, owner) => Began::NotYet(o, owner),
    }
}
