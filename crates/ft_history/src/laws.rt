//! What holds of every legal history. The functions do nothing: their contracts are the laws.
ghost use Rattle.std.specs.Prelude.{◌≡◌, ◌≢◌, ◌↔◌, ◌∷◌, ℕ, List, map, filter, length, AllPairs, Some, slice_get, IsPermutation, IsSorted};
ghost use Rattle.std.specs.List.{range_with_len};
ghost use Rattle.std.specs.declared.cmp.Ordering.TheVariants.{Equal};
ghost use Rattle.ft_model.specs.declared.call.Call.TheVariants.{End};
ghost use Rattle.ft_model.specs.declared.reply.Reply.TheVariants.{Kept};
ghost use Rattle.ft_model.specs.declared.entry.Entry.{Entry};
ghost use Rattle.ft_model.specs.declared.entry.Storage.{Storage};
ghost use Rattle.ft_model.specs.declared.script.ScriptParts.{ScriptParts};
ghost use Rattle.ft_model.specs.Histories.{history_cmp, writes, entries_of, calls_of, sections_at, IsLegal};
ghost use Rattle.ft_model.specs.Judging.{IsUnbroken};
ghost use Rattle.ft_model.specs.Calls.{containers_of};
ghost use Rattle.ft_model.specs.Scripts.{IsScript};
ghost use Rattle.ft_history.specs.declared.verdict.Verdict.{Verdict};
ghost use Rattle.ft_history.specs.Verdicts.{IsVerdict};
ghost use Rattle.ft_history.specs.HistoryLaws.{Matches, IsUntouchedBetween};

/// A history is legal exactly where it breaks no rule at any place.
pub fn legal_is_unbroken()
    ensures { (storage : Storage) (script : ScriptParts) (entries : List Entry) → IsLegal storage script entries ↔ IsUnbroken storage script entries }
{}

/// Whether a history is legal can be told: it is, where it can't be that it isn't.
pub fn legal_can_be_told()
    ensures { (storage : Storage) (script : ScriptParts) (entries : List Entry) → ¬ (¬ (IsLegal storage script entries)) → IsLegal storage script entries }
{}

/// A history has no more than one verdict.
pub fn one_verdict()
    ensures { (storage : Storage) (script : ScriptParts) (entries : List Entry) (one other : Verdict) → IsVerdict storage script entries one → IsVerdict storage script entries other → one ≡ other }
{}

/// Of a legal history the entries of one thread are its calls, in its order, with the indexes 1, 2, 3
/// and so on.
pub fn threads_keep_their_order()
    ensures indexes { (storage : Storage) (script : ScriptParts) (entries : List Entry) (thread : ℕ) → IsLegal storage script entries → map (λ entry. entry.index) (entries_of thread entries) ≡ range_with_len 1 (length (calls_of script thread)) }
    ensures calls { (storage : Storage) (script : ScriptParts) (entries : List Entry) (thread : ℕ) → IsLegal storage script entries → map (λ entry. entry.call) (entries_of thread entries) ≡ calls_of script thread }
{}

/// The writes of a legal history are numbered 0, 1, 2 and so on, each once.
pub fn writes_are_numbered()
    ensures { (storage : Storage) (script : ScriptParts) (entries : List Entry) → IsLegal storage script entries → map (λ entry. entry.stamp) (filter (λ entry. entry.wrote) entries) ≡ range_with_len 0 (length (writes entries)) }
{}

/// In a legal history each `end` is that of one `begin`, and of no other; the section that it ends is
/// the innermost one that is open then.
pub fn each_end_matches_one_begin()
    ensures one { (storage : Storage) (script : ScriptParts) (entries : List Entry) (ended : ℕ) (end : Entry) → IsScript script → IsLegal storage script entries → slice_get entries ended ≡ Some end → end.call ≡ End → (begun : ℕ) × (begin : Entry) × Matches entries begun ended begin end }
    ensures only { (entries : List Entry) (one other ended : ℕ) (begin another end : Entry) → Matches entries one ended begin end → Matches entries other ended another end → one ≡ other }
    ensures section { (entries : List Entry) (begun ended : ℕ) (begin end : Entry) → Matches entries begun ended begin end → sections_at entries end.thread ended ≡ record { containers = containers_of begin.call; begun = begun } ∷ sections_at entries end.thread begun }
{}

/// Between an `end` that is reported kept and its `begin` no other thread's write names one of the
/// `begin`'s containers.
pub fn kept_sections_are_untouched()
    ensures { (storage : Storage) (script : ScriptParts) (entries : List Entry) (begun ended : ℕ) (begin end : Entry) → IsLegal storage script entries → Matches entries begun ended begin end → end.reply ≡ Kept → IsUntouchedBetween entries end.thread begun ended (containers_of begin.call) }
{}

/// Of one set of entries, no two of which are alike in the order, there is one list in the order of a
/// history; and no two entries of a legal history are alike.
pub fn one_order()
    ensures legal { (storage : Storage) (script : ScriptParts) (one other : List Entry) → IsLegal storage script one → IsPermutation one other → IsSorted history_cmp other → one ≡ other }
    ensures apart { (one other : List Entry) → IsPermutation one other → IsSorted history_cmp one → IsSorted history_cmp other → AllPairs (λ a b. history_cmp a b ≢ Equal) one → one ≡ other }
{}
