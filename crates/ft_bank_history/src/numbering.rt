//! The entries that callers kept of their passes, beside those of a closed bank. The functions do nothing: their
//! contracts are laws.
ghost use Rattle.std.specs.Prelude.{◌≡◌, List, length};
ghost use Rattle.std.specs.List.{flat_map};
ghost use Rattle.std.specs.List.Sorted.{IsPermutation, IsSorted};
ghost use Rattle.ft_model.specs.declared.call.Call.{Call};
ghost use Rattle.ft_model.specs.declared.entry.Entry.{Entry};
ghost use Rattle.ft_model.specs.declared.entry.Storage.TheVariants as storage;
ghost use Rattle.ft_model.specs.declared.script.ScriptParts.{ScriptParts};
ghost use Rattle.ft_model.specs.Histories.{history_cmp};
ghost use Rattle.ft_model.specs.Numbers.{AreNumberedLists, IsHistoryOf};
ghost use Rattle.ft_model.specs.Scripts.{IsScript};
ghost use Rattle.ft_bank.specs.Closings.{shape_in, lists_in, had_in, found_in, told_of};
ghost use Rattle.ft_bank_history.specs.Marks.{HaveScriptCalls, AreOfFirst};
ghost use Rattle.ft_bank_history.specs.Numbering.{AskOwnCursors, EntriesAreNumbered, IsFor, HaveNamedEntries, MarksAreRight};

use ft_bank::Closed;

/// Entries that stand beside writes in their order, and in the order of their passes, with replies by the hands that each
/// pass had, are numbered entries, where each caller kept its own with its thread and index.
pub fn entries_are_numbered()
    ensures { EntriesAreNumbered }
{}

/// The marks of numbered entries are right where all calls are made: whoever was found with a lock had taken it, for a
/// call that names its container. And their awaits know of the calls that they name.
pub fn marks_are_right()
    ensures { MarksAreRight }
{}

/// The entries of a closed bank are numbered entries, where each caller kept its own with its thread and index, and the
/// passes were taken in in the order of the threads.
pub fn closed_entries_are_numbered(closed: &Closed)
    ensures { (script : ScriptParts) (kept : List (List Entry)) → IsFor script (shape_in closed.now) →
        HaveNamedEntries 0 kept (lists_in closed.now) (had_in closed.now) (found_in closed.now) (told_of closed.now) →
        AskOwnCursors script kept → length kept ≡ length script.threads →
        ∥ ((calls : List Call) × AreNumberedLists storage.Tables script calls kept) ∥₁ }
{
    let _ = closed;
}

/// So the entries of a closed bank, put in the order of a history, are a legal history of the script, where each caller
/// made all its calls.
pub fn closed_entries_are_legal(closed: &Closed)
    ensures { (script : ScriptParts) (kept : List (List Entry)) (history : List Entry) →
        IsScript script → IsFor script (shape_in closed.now) →
        HaveNamedEntries 0 kept (lists_in closed.now) (had_in closed.now) (found_in closed.now) (told_of closed.now) →
        AreOfFirst (length kept) (had_in closed.now) →
        AskOwnCursors script kept →
        length kept ≡ length script.threads → HaveScriptCalls script kept →
        IsPermutation (flat_map (λ mine. mine) kept) history → IsSorted history_cmp history →
        ∥ ((calls : List Call) × IsHistoryOf storage.Tables script calls history) ∥₁ }
{
    closed_entries_are_numbered(closed);
    closed.owners_are_known();
    closed.awaits_are_told();
    marks_are_right();
}
