//! The end of a section, and whether it was kept (C API, critical sections).
ghost use Rattle.std.specs.Prelude.{◌≡◌, ◌≤◌, ◌<◌, ◌++◌, ◌∷◌, [], ℕ, List, true, false, length};
ghost use Rattle.ft_bank.specs.declared.sections.OpenSection.{OpenSection};
ghost use Rattle.ft_bank.specs.Passes.{view};
ghost use Rattle.ft_bank.specs.PassSections.{stack_of};
ghost use Rattle.ft_model.specs.declared.call.Call.TheVariants as call;
ghost use Rattle.ft_section.specs.AnswerFacts.{stamp_of, marks_in};
ghost use Rattle.ft_section.specs.Floors.{floor_word};
ghost use Rattle.ft_section.specs.Locking.{OnlyLocked};
ghost use Rattle.ft_section.specs.Ready.{IsReady, MayResume};
ghost use Rattle.ft_section.specs.Sectioning.{IsSaid, IsUntouched, ended_by, reply_of, answered_view};
ghost use Rattle.ft_trace.specs.declared.View.{View};
ghost use Rattle.ft_trace.specs.Acts.{seen_writes};
ghost use Rattle.ft_trace.specs.Addresses.{counter};
ghost use Rattle.ft_trace.specs.Owners.{SameOwners};
ghost use Rattle.ft_trace.specs.BegunSections.{Begun, begun, IsInnermostHeld};

use crate::answers::{Ended, Stamp};
use crate::entries::make_entry;
use crate::letting::let_taking_go;
use ft_bank::{Bank, Pass};
use ft_model::{Call, Reply};

/// What the entry of the `end` of a section says, of whose calls this many had to wait.
fn end_reply(marks: u32) -> Reply
    ensures said { (v : View) → (marks ≡ 0 → IsInnermostHeld (begun v.log)) → IsSaid call.End result v }
    ensures reply { (stamp : Stamp) → result ≡ reply_of (ended_by marks stamp) }
{
    if marks == 0 {
        Reply::Kept
    } else {
        Reply::Suspended(marks)
    }
}

/// What `end` answers then, with this stamp.
fn end_answer(marks: u32, stamp: Stamp) -> Ended
    ensures answer { result ≡ ended_by marks stamp }
    ensures stamp { stamp_of result ≡ stamp }
    ensures marks { marks_in result ≡ marks }
{
    if marks == 0 {
        Ended::Kept(stamp)
    } else {
        Ended::Suspended(marks, stamp)
    }
}

/// Ends the innermost section: it is kept exactly where none of the calls in it had to wait, and then the pass
/// has had its locks since its `begin`, and no other pass wrote on its containers. The entry is made while they are held; then the locks that the section
/// took itself are let go.
pub fn end(bank: &Bank, pass: &mut Pass) -> Ended
    requires ready { IsReady bank.now pass.old }
    requires depth { 0 < length (stack_of pass.old).sections }
    requires left { 0 < (view pass.old).left }
    ensures entry { OnlyLocked (answered_view call.End (reply_of result) (stamp_of result).number (view pass.old)) (view pass.new) }
    ensures owners { SameOwners (view pass.old) (view pass.new) }
    ensures seen { seen_writes (view pass.old) ≤ (stamp_of result).number }
    ensures read { (stamp_of result).wrote ≡ false }
    ensures section { (outer : List OpenSection) (top : OpenSection) → (stack_of pass.old).sections ≡ outer ++ top ∷ [] →
        (result ≡ ended_by top.marks (stamp_of result)) × (stack_of pass.new ≡ record (stack_of pass.old) { sections = outer }) }
    ensures kept { (b : Begun) (bs : List Begun) → begun (view pass.old).log ≡ b ∷ bs → marks_in result ≡ 0 →
        (b.held ≡ true) × IsUntouched b (view pass.old) }
    ensures known { (view pass.old).has_floor ≡ true → (stamp_of result).number ≡ floor_word counter (view pass.old) }
    ensures resume { MayResume bank.now pass.new }
{
    let mut sections = pass.sections().copied();
    let Some(section) = sections.pop() else {
        unreachable!();
    };
    let number = make_entry(bank, pass, &Call::End, &end_reply(section.marks));
    let stamp = Stamp {
        number,
        wrote: false,
    };
    pass.put_sections(sections);
    let_taking_go(bank, pass, section.locks);
    end_answer(section.marks, stamp)
}
