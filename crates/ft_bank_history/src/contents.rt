//! What containers have in the end. The function does nothing: its contract is a law.
ghost use Rattle.std.specs.Prelude.{◌≡◌, [], List, length, map};
ghost use Rattle.ft_model.specs.declared.call.Call.{Call};
ghost use Rattle.ft_model.specs.declared.entry.Entry.{Entry};
ghost use Rattle.ft_model.specs.declared.entry.Storage.TheVariants as storage;
ghost use Rattle.ft_model.specs.declared.reply.Shown.{Shown};
ghost use Rattle.ft_model.specs.declared.script.ScriptParts.{ScriptParts};
ghost use Rattle.ft_model.specs.Answers.{shown_of, world_by};
ghost use Rattle.ft_model.specs.Numbers.{AreNumberedLists};
ghost use Rattle.ft_model.specs.Worlds.{starts_of};
ghost use Rattle.ft_trace.specs.Acts.{all_entries, all_lists, tells};
ghost use Rattle.ft_trace.specs.Owners.{found_owners, had_locks};
ghost use Rattle.ft_bank.specs.Passes.{view};
ghost use Rattle.ft_bank_history.specs.LastContents.{AreShownTo, IsLast};
ghost use Rattle.ft_bank_history.specs.Numbering.{AskOwnCursors, IsFor, HaveNamedEntries};

use ft_bank::Pass;

/// A pass that has taken in all others and has the floor knows all words: what these show of the containers is what the
/// plain containers have after all writes of its entries, in the order of their numbers.
pub fn contents_are_last(pass: &Pass)
    ensures last { IsLast (view pass.now) → (script : ScriptParts) (kept : List (List Entry)) (all : List Shown) →
        IsFor script (view pass.now).shape →
        HaveNamedEntries 0 kept (all_lists (view pass.now)) (had_locks (view pass.now).number (view pass.now).log) (found_owners (view pass.now).log) (tells (view pass.now)) →
        AskOwnCursors script kept → length kept ≡ length script.threads → AreShownTo (view pass.now) all →
        ∥ ((calls : List Call) × AreNumberedLists storage.Tables script calls kept
        × (all ≡ map shown_of (world_by (starts_of script.containers) calls))) ∥₁ }
    ensures none { IsLast (view pass.now) → (all : List Shown) → all_entries (view pass.now) ≡ [] → AreShownTo (view pass.now) all →
        ∥ (all ≡ map shown_of (world_by (view pass.now).shape.starts [])) ∥₁ }
{
    let _ = pass;
}
