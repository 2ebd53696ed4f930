//! From the entries of threads that run beside each other to one history, for whoever notes them
//! thread by thread: each is right by its own thread's entries and by the numbers of the writes. The
//! functions do nothing: their contracts are the laws.
ghost use Rattle.std.specs.Prelude.{◌≡◌, ◌≢◌, ◌++◌, ◌∷◌, [], ℕ, List, Option, Some, length, replicate, slice_get, slice_set};
ghost use Rattle.std.specs.List.{flat_map};
ghost use Rattle.std.specs.List.Sorted.{IsPermutation, IsSorted};
ghost use Rattle.ft_model.specs.declared.call.Call.{Call};
ghost use Rattle.ft_model.specs.declared.call.Call.TheVariants.{Next};
ghost use Rattle.ft_model.specs.declared.content.Content.{Content};
ghost use Rattle.ft_model.specs.declared.cursor.Cursor.{Cursor};
ghost use Rattle.ft_model.specs.declared.entry.Entry.{Entry};
ghost use Rattle.ft_model.specs.declared.entry.Storage.{Storage};
ghost use Rattle.ft_model.specs.declared.script.ScriptParts.{ScriptParts};
ghost use Rattle.ft_model.specs.Answers.{answer};
ghost use Rattle.ft_model.specs.Worlds.{no_hands};
ghost use Rattle.ft_model.specs.Histories.{history_cmp};
ghost use Rattle.ft_model.specs.Scripts.{IsScript};
ghost use Rattle.ft_model.specs.Numbers.{calls_after, needs_after, IsRightAfter, IsNextEntry, AreNumbered, AreNumberedLists, AreDone, IsHistoryOf};

/// Entries with numbers of a script, put in the order of a history, are a legal history. Its writes are those
/// calls, in the order of their numbers, and each MemoryError of a class stands on a call that would
/// take a table of that class.
pub fn numbered_entries_are_legal()
    ensures { (storage : Storage) (script : ScriptParts) (calls : List Call) (entries history : List Entry) → IsScript script → AreNumbered storage script calls entries → IsPermutation entries history → IsSorted history_cmp history → IsHistoryOf storage script calls history }
{}

/// Nothing less would do: the entries of such a history have the numbers of its writes.
pub fn legal_histories_are_numbered()
    ensures { (storage : Storage) (script : ScriptParts) (calls : List Call) (history : List Entry) → IsHistoryOf storage script calls history → AreNumbered storage script calls history }
{}

/// Lists for each thread, once all threads are done, are entries with numbers.
pub fn numbered_lists_are_numbered()
    ensures { (storage : Storage) (script : ScriptParts) (calls : List Call) (lists : List (List Entry)) → AreNumberedLists storage script calls lists → AreDone script calls lists → AreNumbered storage script calls (flat_map (λ mine. mine) lists) }
{}

/// Lists for each thread grow one entry at a time, from none on: an entry that is right when it is
/// made leaves them right.
pub fn numbered_lists_grow()
    ensures start { (storage : Storage) (script : ScriptParts) → AreNumberedLists storage script [] (replicate (length script.threads) []) }
    ensures next { (storage : Storage) (script : ScriptParts) (calls : List Call) (lists : List (List Entry)) (thread : ℕ) (mine : List Entry) (entry : Entry) → AreNumberedLists storage script calls lists → slice_get lists thread ≡ Some mine → IsNextEntry storage script calls thread mine entry → AreNumberedLists storage script (calls_after calls entry) (slice_set lists thread (mine ++ entry ∷ [])) }
{}

/// What is right of an entry stays so as more writes are made, and what its call needs stays the same.
pub fn right_entries_stay_right()
    ensures needs { (storage : Storage) (script : ScriptParts) (calls more : List Call) (before : List Entry) (entry : Entry) → IsRightAfter storage script calls before entry → needs_after script calls before entry ≡ needs_after script (calls ++ more) before entry }
    ensures right { (storage : Storage) (script : ScriptParts) (calls more : List Call) (before : List Entry) (entry : Entry) → IsRightAfter storage script calls before entry → IsRightAfter storage script (calls ++ more) before entry }
{}

/// Only a `next` asks for the hands: what any other call replies is the same for all.
pub fn replies_ask_no_hands()
    ensures { (world : List Content) (hands : List (Option Cursor)) (called : Call) → ((number : ℕ) → called ≢ Next number) → (answer world hands called).reply ≡ (answer world no_hands called).reply }
{}
