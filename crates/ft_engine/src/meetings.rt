//! Callers that meet: one makes a note of what it has seen, and another learns it; and one takes in another that
//! has made its last call.
ghost use Rattle.std.specs.Prelude.{◌≡◌, ◌≤◌, ◌+◌, ◌++◌, List, length, suc};
ghost use Rattle.ft_model.specs.declared.entry.Entry.{Entry as NamedEntry};
ghost use Rattle.ft_trace.specs.Acts.{announces, own_told, presence_of, shown};
ghost use Rattle.ft_trace.specs.Boxes.{HasMergedBoxes};
ghost use Rattle.ft_bank.specs.Notes.{says, told_by, writes_seen, IsNoteOf};
ghost use Rattle.ft_bank.specs.Passes.{view};
ghost use Rattle.ft_bank.specs.PassSections.{stack_of};
ghost use Rattle.ft_engine.specs.Callers.{IsCallerOf, IsIdle, bank_of, hands_of, left_of, pass_of, taken_of, thread_of};
ghost use Rattle.ft_engine.specs.DoneCallers.{WereAnswered, IsCallerDone};
ghost use Rattle.ft_engine.specs.Keeping.{WasAnswered};
ghost use Rattle.ft_engine.specs.declared.caller.Caller.{Caller as ACaller};
ghost use Rattle.ft_engine.specs.Presences.{WereOnline};
ghost use Rattle.ft_engine.specs.Resting.{IsRestingCallerOf, RestsAs, rests_in, token_count};
ghost use Rattle.ft_engine.specs.SoFar.{AreAnswersRight};
ghost use Rattle.ft_engine.specs.Visits.{SameCallerWork};

use crate::caller::Caller;
use crate::engine::Engine;
use crate::resting::RestingCaller;
use ft_bank::Note;

impl Engine {
    /// Makes a note of how many writes the caller has seen, and of the calls that it was answered.
    pub fn note(&self, caller: &mut Caller) -> Note
        requires caller { IsCallerOf self.now caller.old }
        requires idle { IsIdle caller.old }
        ensures caller { IsCallerOf self.now caller.new }
        ensures same { SameCallerWork caller.old caller.new }
        ensures announced { announces (view (pass_of caller.new)).log ≡ announces (view (pass_of caller.old)).log }
        ensures presence { presence_of (view (pass_of caller.new)).log ≡ presence_of (view (pass_of caller.old)).log }
        ensures kept { (mine : List NamedEntry) → WasAnswered caller.old mine → WasAnswered caller.new mine }
        ensures note { IsNoteOf (bank_of self.now) result × (says result ≡ writes_seen (pass_of caller.old)) }
        ensures told { told_by result ≡ own_told (view (pass_of caller.old)) }
    {
        self.bank.note(&mut caller.pass)
    }

    /// Makes a note of a caller that rests, as [`Engine::note`] does. The caller goes on resting.
    pub fn note_resting(&self, caller: &mut RestingCaller) -> Note
        requires caller { IsRestingCallerOf self.now caller.old }
        ensures caller { IsRestingCallerOf self.now caller.new }
        ensures same { rests_in caller.new ≡ rests_in caller.old }
        ensures rests { (c : ACaller) → RestsAs c caller.old → RestsAs c caller.new }
        ensures note { IsNoteOf (bank_of self.now) result × (says result ≡ shown (rests_in caller.old).log) }
        ensures told { told_by result ≡ own_told (rests_in caller.old) }
    {
        self.bank.note_resting(&mut caller.pass)
    }

    /// Learns the note of a caller of this engine: it has then seen all that the note's maker had, so each number
    /// that its calls are answered from now on is at least that.
    pub fn learn(&self, caller: &mut Caller, note: Note)
        requires caller { IsCallerOf self.now caller.old }
        requires idle { IsIdle caller.old }
        requires note { IsNoteOf (bank_of self.now) note }
        ensures caller { IsCallerOf self.now caller.new }
        ensures same { SameCallerWork caller.old caller.new }
        ensures announced { announces (view (pass_of caller.new)).log ≡ announces (view (pass_of caller.old)).log }
        ensures presence { presence_of (view (pass_of caller.new)).log ≡ presence_of (view (pass_of caller.old)).log }
        ensures kept { (mine : List NamedEntry) → WasAnswered caller.old mine → WasAnswered caller.new mine }
        ensures seen { (says note ≤ writes_seen (pass_of caller.new)) × (writes_seen (pass_of caller.old) ≤ writes_seen (pass_of caller.new)) }
    {
        self.bank.learn(&mut caller.pass, note);
    }

    /// Takes in the next caller, which has made its last call: it is in no call and in no section, has left, and has the
    /// number that follows that of the last one that the caller took in.
    pub fn join(&self, caller: &mut Caller, other: Caller)
        requires caller { IsCallerOf self.now caller.old }
        requires idle { IsIdle caller.old }
        requires other { IsCallerOf self.now other }
        requires done { IsCallerDone other }
        requires last { (view (pass_of other)).next ≡ 0 }
        ensures caller { IsCallerOf self.now caller.new }
        ensures thread { thread_of caller.new ≡ thread_of caller.old }
        ensures idle { IsIdle caller.new }
        ensures announced { announces (view (pass_of caller.new)).log ≡ announces (view (pass_of caller.old)).log }
        ensures presence { presence_of (view (pass_of caller.new)).log ≡ presence_of (view (pass_of caller.old)).log }
        ensures merged { HasMergedBoxes (view (pass_of caller.old)).log → HasMergedBoxes (view (pass_of caller.new)).log }
        ensures sections { stack_of (pass_of caller.new) ≡ stack_of (pass_of caller.old) }
        ensures cursors { hands_of caller.new ≡ hands_of caller.old }
        ensures left { left_of caller.new ≡ left_of caller.old }
        ensures entries { (view (pass_of caller.new)).entries ≡ (view (pass_of caller.old)).entries }
        ensures seen { (writes_seen (pass_of caller.old) ≤ writes_seen (pass_of caller.new)) × (writes_seen (pass_of other) ≤ writes_seen (pass_of caller.new)) }
        ensures parts { (view (pass_of caller.new)).parts ≡ (view (pass_of caller.old)).parts + (view (pass_of other)).parts }
        ensures tokens { token_count caller.new ≡ token_count caller.old + token_count other }
        ensures kept { (mine theirs : List (List NamedEntry)) → WereAnswered caller.old mine → WereAnswered other theirs →
            thread_of other ≡ thread_of caller.old + length mine → WereAnswered caller.new (mine ++ theirs) }
        ensures right { (mine theirs : List (List NamedEntry)) → WereAnswered caller.old mine → WereAnswered other theirs →
            thread_of other ≡ thread_of caller.old + length mine → AreAnswersRight caller.new (mine ++ theirs) }
        ensures online { WereOnline caller.old → WereOnline other →
            thread_of other ≡ suc (thread_of caller.old + length (taken_of caller.old)) → WereOnline caller.new }
    {
        let Caller {
            pass,
            cursors: _,
            calls: _,
            made: _,
            flight: _,
        } = other;
        self.bank.join(&mut caller.pass, pass);
    }
}
