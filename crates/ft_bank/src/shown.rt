//! What the log of a pass has to show for the entry of a call that isn't a write, for whoever looks without
//! a lock, or answers under one: each law's conclusion is the condition of `Bank::answer`, so that no layer
//! above meets a trace.
ghost use Rattle.ft_bank.specs.Shown.{DictHitsAreShown, ValuesAreRead, SetHitsAreShown, MissesAreShown, ItemsAreShown, ItemsAreRead, PastItemsAreShown, LooksAreShown, LooksAtBothAreShown, RepliesUnderLocksAreShown, CursorsUnderLocksAreShown, HeapErrorsAreShown, MemoryErrorsAreShown, OversAreShown, AwaitsAreShown, SerialsHaveRoom};

/// A key that was found in a dict without the lock, with the value whose words were read: the condition of
/// `Bank::answer` for the calls that look it up.
pub fn dict_hits_are_shown()
    ensures { DictHitsAreShown }
{}

/// The words that were read of a key's value are those of one value.
pub fn values_are_read()
    ensures { ValuesAreRead }
{}

/// A key that was found in a set without the lock: the condition of `Bank::answer`.
pub fn set_hits_are_shown()
    ensures { SetHitsAreShown }
{}

/// A key that was not found without the lock: the condition of `Bank::answer`.
pub fn misses_are_shown()
    ensures { MissesAreShown }
{}

/// An item whose words were read without the lock: the condition of `Bank::answer`.
pub fn items_are_shown()
    ensures { ItemsAreShown }
{}

/// The words that were read of an item are those of one value, or of nothing.
pub fn items_are_read()
    ensures { ItemsAreRead }
{}

/// An index past the table of a list: the condition of `Bank::answer`.
pub fn past_items_are_shown()
    ensures { PastItemsAreShown }
{}

/// A reply that was read between two equal even loads of a container's version: the condition of
/// `Bank::answer`.
pub fn looks_are_shown()
    ensures { LooksAreShown }
{}

/// A reply that was read likewise of two containers: the condition of `Bank::answer`.
pub fn looks_at_both_are_shown()
    ensures { LooksAtBothAreShown }
{}

/// A reply of a pass that had its locks since it loaded the counter: the condition of `Bank::answer`.
pub fn replies_under_locks_are_shown()
    ensures { RepliesUnderLocksAreShown }
{}

/// An `iter` or a `next` of a pass that had its locks since it loaded the counter: the condition of
/// `Bank::answer_cursor`.
pub fn cursors_under_locks_are_shown()
    ensures { CursorsUnderLocksAreShown }
{}

/// A MemoryError of a class whose count was found 0: the condition of `Bank::answer`.
pub fn memory_errors_are_shown()
    ensures { MemoryErrorsAreShown }
{}

/// A MemoryError of a call that would leave more than the largest table holds: the condition of
/// `Bank::answer`.
pub fn overs_are_shown()
    ensures { OversAreShown }
{}

/// A MemoryError of a heap may be answered to a call that would put a value in a box, by a pass that found its heap full.
pub fn heap_errors_are_shown()
    ensures { HeapErrorsAreShown }
{}

/// An await of a call that the pass was told of: the condition of `Bank::answer`.
pub fn awaits_are_shown()
    ensures { AwaitsAreShown }
{}

/// A pass with the lock of a dict or set can draw 65,536 more serials, whatever was drawn before, and the
/// next one is still below 2^63.
pub fn serials_have_room()
    ensures { SerialsHaveRoom }
{}
