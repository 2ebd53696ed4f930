//! Awaits: a caller learns a note of the caller of an earlier thread, and so stands after the call that it awaits.
ghost use Rattle.std.specs.Prelude.{◌≡◌, ◌<◌, ◌≤◌, ◌++◌, ◌∷◌, [], List, None, Option, false};
ghost use Rattle.ft_model.specs.declared.cursor.Cursor.{Cursor};
ghost use Rattle.ft_model.specs.declared.entry.Entry.{Entry as NamedEntry};
ghost use Rattle.ft_model.specs.declared.reply.Reply.TheVariants as reply;
ghost use Rattle.ft_bank.specs.Notes.{IsNoteOf, says, writes_seen};
ghost use Rattle.ft_bank.specs.Passes.{view};
ghost use Rattle.ft_bank_history.specs.SoFar.{MemoryErrorsAreFound};
ghost use Rattle.ft_section.specs.declared.answers.Step.TheVariants as step;
ghost use Rattle.ft_section.specs.Ready.{IsReady};
ghost use Rattle.ft_engine.specs.declared.attempts.Tried.TheVariants as tried;
ghost use Rattle.ft_engine.specs.Answering.{IsTryOfCall};
ghost use Rattle.ft_engine.specs.Awaiting.{IsAwaitTold, MayLearnAt};
ghost use Rattle.ft_engine.specs.Callers.{IsCallerOf, pass_of, thread_of};
ghost use Rattle.ft_engine.specs.Calling.{IsTried};
ghost use Rattle.ft_engine.specs.Keeping.{WasAnswered, named_entry};
ghost use Rattle.ft_engine.specs.SoFar.{IsAnsweredRight};

use crate::caller::Caller;
use crate::engine::Engine;
use ft_bank::{Bank, Note, Pass};
use ft_model::{Call, Reply};
use ft_section::Stamp;

/// `await`: the pass learns what the maker of the note had seen, and its stamp is no less.
fn learn_answer(bank: &Bank, pass: &mut Pass, call: &Call, note: Note) -> Stamp
    requires ready { IsReady bank.now pass.old }
    requires left { 0 < (view pass.old).left }
    requires note { IsNoteOf bank.now note }
    requires told { IsAwaitTold call.now note }
    ensures ready { IsReady bank.now pass.new }
    ensures tried { (hands : List (Option Cursor)) → IsTryOfCall bank.now hands call.now pass.old pass.new (step.Done reply.Done result) }
    ensures stamp { (result.wrote ≡ false) × (says note ≤ result.number) }
    ensures seen { says note ≤ writes_seen pass.new }
{
    bank.learn(pass, note);
    let number = bank.stamp(pass);
    bank.answer(pass, call, &Reply::Done, number);
    Stamp {
        number,
        wrote: false,
    }
}

impl Engine {
    /// Makes an `await` of a call of an earlier thread: the caller learns a note that tells of that call, and has then
    /// seen all that the note's maker had. It takes no lock and waits for nobody; the stamp is at least what the note
    /// says, so in the history the call that is awaited stands before this one.
    pub fn learn_at(&self, caller: &mut Caller, call: &Call, note: Note) -> Stamp
        requires caller { IsCallerOf self.now caller.old }
        requires may { MayLearnAt self.now caller.old call.now note }
        ensures tried { IsTried self.now call.now (tried.Done reply.Done result None) caller.old caller.new }
        ensures right { (mine : List NamedEntry) → WasAnswered caller.old mine → IsAnsweredRight caller.new
            (mine ++ named_entry (thread_of caller.old) mine call.now reply.Done result None ∷ []) }
        ensures stamp { (result.wrote ≡ false) × (says note ≤ result.number) }
        ensures seen { says note ≤ writes_seen (pass_of caller.new) }
        ensures found_none { MemoryErrorsAreFound (view (pass_of caller.new)) }
    {
        let stamp = learn_answer(&self.bank, &mut caller.pass, call, note);
        caller.made += 1;
        stamp
    }
}
