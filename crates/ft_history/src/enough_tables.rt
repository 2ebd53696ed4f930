//! When no MemoryError comes. The function does nothing: its contract is the law.
ghost use Rattle.std.specs.Prelude.{◌≡◌, List, false, All};
ghost use Rattle.ft_model.specs.declared.entry.Entry.{Entry};
ghost use Rattle.ft_model.specs.declared.entry.Storage.TheVariants as storage;
ghost use Rattle.ft_model.specs.declared.script.ScriptParts.{ScriptParts};
ghost use Rattle.ft_model.specs.Answers.{is_memory};
ghost use Rattle.ft_model.specs.Histories.{IsLegal};
ghost use Rattle.ft_model.specs.Scripts.{IsScript};
ghost use Rattle.ft_history.specs.EnoughTables.{HasEnoughPlaces, HasEnoughTables, StaysWithinCaps};

/// Where of each class there are as many tables as the script has calls that can add, and one more
/// for each thread but one, and no thread makes more calls that would put a value in a box than its
/// heap has places, no call of a legal history raises a MemoryError, unless it would leave a container
/// with more than the largest table holds.
pub fn enough_tables_never_run_out()
    ensures { (script : ScriptParts) (history : List Entry) → IsScript script → IsLegal storage.Tables script history → HasEnoughTables script → StaysWithinCaps script history → HasEnoughPlaces script history → All (λ entry. is_memory entry.reply ≡ false) history }
{}
