//! What lists of calls on a table's words come to: laws, which run nothing.
ghost use Rattle.std.specs.Prelude.{◌≡◌, ◌≢◌, ℕ, ◌+◌, ◌^◌, ◌<◌, ◌≤◌, List, ◌++◌, length, Some, slice_index};
ghost use Rattle.ft_model.specs.declared.data.Key.{Key};
ghost use Rattle.ft_hash.specs.Probes.{IsMask};
ghost use Rattle.ft_layout.specs.declared.slot.Pair.{Pair};
ghost use Rattle.ft_layout.specs.Words.{FitsKey, FitsPair, entry_words};
ghost use Rattle.ft_keys.specs.declared.walk.Way.{Way};
ghost use Rattle.ft_keys.specs.Ways.{walk_slots, room};
ghost use Rattle.ft_keys.specs.declared.words.Access.{Access};
ghost use Rattle.ft_keys.specs.declared.search.Found.{Found};
ghost use Rattle.ft_keys.specs.declared.search.Found.TheVariants.{Free};
ghost use Rattle.ft_keys.specs.Accesses.{put_by, after, AreLoads, Follows, index_loads, AreAnswered};
ghost use Rattle.ft_keys.specs.Loads.{unpassed, last_loads, Loads};
ghost use Rattle.ft_keys.specs.WalkCosts.{IsBounded};
ghost use Rattle.ft_keys.specs.Puts.{IsPutOf, PutBelow, ArePutsInOrder};
ghost use Rattle.ft_layout.specs.Tables.{dict_room, table_length, index_word, entry_word};
ghost use Rattle.ft_layout.specs.Fields.{Field, IsField, field_at};
ghost use Rattle.ft_keys.specs.Searches.{EndsAt, Searched};
ghost use Rattle.ft_keys.specs.TableChanges.{FirstFree, place_puts, AddsPair};

/// Of every list of words that answers as the loads of a search were answered, the search came to
/// what is there: in the words of a table it finds the key exactly where it is.
pub fn searches_find_keys()
    ensures { (mask : ℕ) (key : Key) (first left : List ℕ) (found : Found) (calls : List Access) (words : List ℕ) →
        IsMask mask → FitsKey key → Loads mask key first left found calls → AreAnswered mask calls words →
        Searched mask words key first left found }
{}

/// A search loads the index words of the slots of its walk in their order: one for each slot that it
/// passed, and one more where it didn't try all. It puts nothing.
pub fn searches_load_slot_by_slot()
    ensures loads { (mask : ℕ) (key : Key) (first left : List ℕ) (found : Found) (calls : List Access) →
        Loads mask key first left found calls → AreLoads calls × Follows first calls left }
    ensures count { (mask : ℕ) (key : Key) (first left : List ℕ) (found : Found) (calls : List Access) →
        (loads : Loads mask key first left found calls) → index_loads calls ≡ length loads.passed + last_loads found }
{}

/// Where a search on a list of words ended at a slot never used, that slot is the first such one of
/// its walk: a new entry is named there.
pub fn searches_end_at_the_first_free_slot()
    ensures { (mask : ℕ) (words : List ℕ) (key : Key) (first left : List ℕ) (slot : ℕ) →
        EndsAt mask words key first left (Free slot) → FirstFree words first (Some slot) }
{}

/// A pair that is put at the place after the used entries, and named in the first slot of its hash
/// that was never used, is in the table after the others.
pub fn placed_pairs_are_of_a_table()
    ensures { (way : Way) (mask fill slot : ℕ) (pair : Pair) (words : List ℕ) → IsMask mask → pair.hash < 2 ^ 64 →
        FitsPair pair → fill < room way mask → FirstFree words (walk_slots way pair.hash mask) (Some slot) →
        AddsPair way mask fill pair words (after mask (place_puts slot fill (entry_words pair)) words) }
{}

/// A put leaves its number in its word and every other word of the table as it was, and a load leaves
/// all of them.
pub fn calls_leave_what_they_put()
    ensures put { (mask : ℕ) (words : List ℕ) (access : Access) (field : Field) (value : ℕ) →
        length words ≡ table_length mask → IsField mask field → IsPutOf access field value →
        slice_index (put_by mask access words) (field_at mask field) ≡ value }
    ensures rest { (mask : ℕ) (words : List ℕ) (access : Access) (field other : Field) (value : ℕ) →
        IsField mask field → IsField mask other → IsPutOf access field value → other ≢ field →
        slice_index (put_by mask access words) (field_at mask other) ≡ slice_index words (field_at mask other) }
    ensures loads { (mask : ℕ) (words : List ℕ) (calls : List Access) → AreLoads calls → after mask calls words ≡ words }
{}

/// Calls that put words of entries below a limit alone, and no version, leave each version as it was,
/// and every word of the entries from there on. So do those of a new entry, at its own place.
pub fn calls_keep_versions()
    ensures keep { (mask limit : ℕ) (words : List ℕ) (calls : List Access) (place : ℕ) → PutBelow mask limit calls →
        entry_word mask (after mask calls words) place 0 ≡ entry_word mask words place 0 }
    ensures rest { (mask limit : ℕ) (words : List ℕ) (calls : List Access) (place word : ℕ) → PutBelow mask limit calls →
        limit ≤ place → word < 8 → entry_word mask (after mask calls words) place word ≡ entry_word mask words place word }
    ensures loads { (mask limit : ℕ) (calls : List Access) → AreLoads calls → PutBelow mask limit calls }
    ensures placed { (mask slot place : ℕ) (entry : List ℕ) → slot ≤ mask → PutBelow mask (place + 1) (place_puts slot place entry) }
{}

/// Where neither the slot nor the entry was ever used, the words of a new entry are put before its
/// kind, and its kind before the index word that names it: a search that comes in between passes
/// nothing and finds nothing that isn't whole.
pub fn entries_are_put_in_order()
    ensures { (mask slot place : ℕ) (pair : Pair) (words : List ℕ) → length words ≡ table_length mask → slot ≤ mask →
        place < dict_room mask → index_word words slot ≡ 0 → entry_word mask words place 2 ≡ 0 →
        ArePutsInOrder mask (place_puts slot place (entry_words pair)) words }
{}

/// What all searches on one walk cost, whoever else writes: while index words that aren't 0 stay so,
/// and a slot that ended a search is loaded again once at most, they load no more index words than
/// twice the slots and 13 for a dict, or eleven times the slots and 130 for a set.
pub fn walk_cost()
    ensures { IsBounded }
{}
