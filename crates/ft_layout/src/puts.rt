//! Laws on single puts into a table, for whoever writes one while others read: a value's two words, the
//! kind of a key that is deleted, an item, a version, a goal. Each says what the table holds after the put.

ghost use Rattle.std.specs.Prelude.{◌≡◌, ℕ, ◌≤◌, List, All, Some, slice_get, slice_set};
ghost use Rattle.ft_model.specs.declared.data.Key.{Key};
ghost use Rattle.ft_model.specs.declared.data.Value.{Value};
ghost use Rattle.ft_layout.specs.declared.slot.Stored.{Stored};
ghost use Rattle.ft_layout.specs.Words.{FitsStored};
ghost use Rattle.ft_layout.specs.Tables.{dict_room, entry_at, item_at, UsedEntry, deleted, HasNoVersions, HasNoItemVersions, IsTable, IsListTable};
ghost use Rattle.ft_layout.specs.WordChanges.{IsBlankTable, SameEntries, SameItems, ChangesItem, SaysStored, with_stored, with_deleted, with_item};

/// Where the kind and the payload of a value are put into a live entry, a table holds the entry with
/// that value; where the kind of its deleted key is put, it holds the deleted entry. All else is as it
/// was.
pub fn puts_change_one_entry()
    ensures stored { (walk : ℕ → List ℕ) (room : ℕ) (texts : List ℕ) (mask : ℕ) (used : List UsedEntry)
        (words : List ℕ) (place : ℕ) (key : Key) (serial : ℕ) (before after : Stored) →
        ((hash : ℕ) → All (λ slot. slot ≤ mask) (walk hash)) → room ≤ dict_room mask →
        IsTable walk room texts mask used words →
        slice_get used place ≡ Some (record { key = key; serial = serial; stored = Some before }) → FitsStored after →
        IsTable walk room texts mask
        (slice_set used place (record { key = key; serial = serial; stored = Some after }))
        (with_stored mask words place after) }
    ensures deleted { (walk : ℕ → List ℕ) (room : ℕ) (texts : List ℕ) (mask : ℕ) (used : List UsedEntry)
        (words : List ℕ) (place : ℕ) (key : Key) (serial : ℕ) (before : Stored) →
        ((hash : ℕ) → All (λ slot. slot ≤ mask) (walk hash)) → room ≤ dict_room mask →
        IsTable walk room texts mask used words →
        slice_get used place ≡ Some (record { key = key; serial = serial; stored = Some before }) →
        IsTable walk room texts mask
        (slice_set used place (deleted (record { key = key; serial = serial; stored = Some before })))
        (with_deleted mask words place key) }
{}

/// Where the kind and the payload of a value are put into an item, or those of nothing, only that item's
/// words change, and they say so.
pub fn puts_change_one_item()
    ensures { (mask : ℕ) (values : List Value) (words : List ℕ) (place : ℕ) (stored : Stored) → 7 ≤ mask →
        IsListTable mask values words → place ≤ mask → FitsStored stored →
        ChangesItem place words (with_item words place stored)
        × SaysStored (with_item words place stored) place stored }
{}

/// A table in which only the goal and the versions of entries or items differ holds what it held. A
/// version that is put, or a goal, makes no other difference. A blank table has no versions.
pub fn versions_change_nothing()
    ensures blank { (mask room : ℕ) (words : List ℕ) → IsBlankTable mask words →
        HasNoVersions room mask words × HasNoItemVersions mask words }
    ensures entries { (walk : ℕ → List ℕ) (room : ℕ) (texts : List ℕ) (mask : ℕ) (used : List UsedEntry)
        (old new : List ℕ) → ((hash : ℕ) → All (λ slot. slot ≤ mask) (walk hash)) → SameEntries mask old new →
        IsTable walk room texts mask used old → IsTable walk room texts mask used new }
    ensures items { (mask : ℕ) (values : List Value) (old new : List ℕ) → SameItems old new →
        IsListTable mask values old → IsListTable mask values new }
    ensures entry { (mask : ℕ) (words : List ℕ) (place version : ℕ) →
        SameEntries mask words (slice_set words (entry_at mask place 0) version) }
    ensures item { (words : List ℕ) (place version : ℕ) → SameItems words (slice_set words (item_at place 0) version) }
    ensures goal { (mask : ℕ) (words : List ℕ) (goal : ℕ) →
        SameEntries mask words (slice_set words 1 goal) × SameItems words (slice_set words 1 goal) }
{}
