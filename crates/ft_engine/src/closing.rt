//! The end of an engine: one history of the entries that all its callers were answered.
ghost use Rattle.std.specs.Prelude.{◌≡◌, [], IfOk, List, map};
ghost use Rattle.std.specs.List.{flat_map};
ghost use Rattle.std.specs.List.Sorted.{IsPermutation, IsSorted};
ghost use Rattle.ft_model.specs.declared.reply.Shown.{Shown};
ghost use Rattle.ft_model.specs.declared.script.ScriptParts.{ScriptParts};
ghost use Rattle.ft_model.specs.Answers.{shown_of};
ghost use Rattle.ft_model.specs.Histories.{history_cmp};
ghost use Rattle.ft_model.specs.Scripts.{IsScript};
ghost use Rattle.ft_model.specs.Worlds.{empty_world};
ghost use Rattle.ft_bank.specs.Closings.{shape_in, lists_in, had_in, found_in, told_of, PassesWereOnline};
ghost use Rattle.ft_bank.specs.Passes.{shape_of, view};
ghost use Rattle.ft_bank_history.specs.Numbering.{HaveNamedEntries};
ghost use Rattle.ft_engine.specs.Callers.{IsCallerOf, bank_of, pass_of, thread_of};
ghost use Rattle.ft_bank_history.specs.Marks.{HaveScriptCalls};
ghost use Rattle.ft_engine.specs.Contents.{AreShownIn, IsLegalWith};
ghost use Rattle.ft_engine.specs.DoneCallers.{WereAnswered, IsCallerDone, AreNumberedFor, AreOfScript, IsLegalFor};
ghost use Rattle.ft_engine.specs.Resting.{HasFloor};
ghost use Rattle.ft_engine.specs.Presences.{WereOnline};

use crate::caller::Caller;
use crate::engine::Engine;
use ft_bank::Closed;
use ft_history::merge;
use ft_model::Entry;
use std::alloc::{AllocError, Global};

impl Engine {
    /// Closes the engine, by caller 0, which has taken in all others and is done. The lists are those of the entries
    /// that the callers were answered, in the order of the threads. It gives one history of all these entries, which
    /// is legal for each script whose threads make just these calls; and the closed bank, which has just these entries,
    /// marks aside. Where the caller has the floor, what it is shown of the containers is what these have after all
    /// writes of the history. It takes n log n comparisons for n entries.
    pub fn close(
        self,
        alloc: Global,
        caller: Caller,
        lists: Vec<Vec<Entry>>,
    ) -> Result<(Vec<Entry>, Closed), AllocError>
        requires caller { IsCallerOf self caller }
        requires done { IsCallerDone caller }
        requires first { thread_of caller ≡ 0 }
        requires all { (view (pass_of caller)).parts ≡ (shape_of (bank_of self)).passes }
        requires kept { WereAnswered caller (map (λ list. list.items) lists.items) }
        ensures entries { IfOk result (λ made. IsPermutation (flat_map (λ list. list.items) lists.items) made.0.items) }
        ensures order { IfOk result (λ made. IsSorted history_cmp made.0.items) }
        ensures shape { IfOk result (λ made. shape_in made.1 ≡ shape_of (bank_of self)) }
        ensures closed { IfOk result (λ made. HaveNamedEntries 0 (map (λ list. list.items) lists.items) (lists_in made.1) (had_in made.1) (found_in made.1) (told_of made.1)) }
        ensures online { IfOk result (λ made. WereOnline caller → PassesWereOnline made.1) }
        ensures numbered { IfOk result (λ made. (script : ScriptParts) →
            AreOfScript script (shape_of (bank_of self)) (map (λ list. list.items) lists.items) →
            AreNumberedFor script (map (λ list. list.items) lists.items)) }
        ensures legal { IfOk result (λ made. (script : ScriptParts) → IsScript script →
            AreOfScript script (shape_of (bank_of self)) (map (λ list. list.items) lists.items) →
            HaveScriptCalls script (map (λ list. list.items) lists.items) → IsLegalFor script made.0.items) }
        ensures contents { IfOk result (λ made. (script : ScriptParts) (all : List Shown) → IsScript script →
            AreOfScript script (shape_of (bank_of self)) (map (λ list. list.items) lists.items) →
            HaveScriptCalls script (map (λ list. list.items) lists.items) → HasFloor caller → AreShownIn caller all →
            IsLegalWith script made.0.items all) }
        ensures nothing { IfOk result (λ made. (all : List Shown) → made.0.items ≡ [] → HasFloor caller → AreShownIn caller all →
            ∥ (all ≡ map shown_of (empty_world (shape_of (bank_of self)).starts)) ∥₁) }
    {
        let Engine { bank, .. } = self;
        let Caller {
            pass,
            cursors: _,
            calls: _,
            made: _,
            flight: _,
        } = caller;
        ft_bank_history::contents_are_last(&pass);
        let closed = bank.close(pass);
        ft_bank_history::closed_entries_are_numbered(&closed);
        ft_bank_history::marks_are_right();
        closed.owners_are_known();
        closed.awaits_are_told();
        let history = merge(alloc, lists)?;
        Ok((history, closed))
    }
}
