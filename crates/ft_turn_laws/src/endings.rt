//! Callers after the last turn, and what their entries are. The functions do nothing: their contracts are laws.
ghost use Rattle.ft_turn_laws.specs.RisingEntries.{RisingEntriesAreChronicles};
ghost use Rattle.ft_turn_laws.specs.Endings.{LastTurnsFinish, TurnsAreOrderRuns};
ghost use Rattle.ft_turn_laws.specs.Runs.{AnsweredEntriesAreOrderRuns};

/// After all turns of a script no caller is in a call, and each was answered just the calls of its thread.
pub fn last_turns_finish()
    ensures { LastTurnsFinish }
{}

/// Entries with numbers are a chronicle in any order in which each knows of all writes that there were after each
/// earlier one, and each await stands after the call that it names.
pub fn rising_entries_are_chronicles()
    ensures { RisingEntriesAreChronicles }
{}

/// Entries that were answered as the machine's threads were, in its order, are a run in the order of the script's turns.
pub fn answered_entries_are_order_runs()
    ensures { AnsweredEntriesAreOrderRuns }
{}

/// So the entries of callers that took all turns of a script are a run in the order of the turns, where they are
/// numbered and done, as those of a closed bank are.
pub fn turns_are_order_runs()
    ensures { TurnsAreOrderRuns }
{}
