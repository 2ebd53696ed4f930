//! Laws from the used entries of a table to what its dict or set has: what one change of an entry does
//! to the pairs or elements. Whoever writes a table shows with them what its words stand for then.

ghost use Rattle.std.specs.List.{find};
ghost use Rattle.ft_model.specs.Answers.{without_last, without_first};
ghost use Rattle.std.specs.Prelude.{Bool, ◌&&◌, ◌-◌, ◌<◌, slice_index_or, option_map, ◌≡◌, ◌≢◌, ℕ, ◌+◌, true, false, List, [], ◌∷◌, ◌++◌, length, filter, All, IsTrue, Some, slice_get, slice_set};
ghost use Rattle.ft_model.specs.declared.data.Key.{Key};
ghost use Rattle.ft_model.specs.declared.data.Value.{Value};
ghost use Rattle.ft_model.specs.declared.content.DictPair.{DictPair};
ghost use Rattle.ft_model.specs.declared.content.Element.{Element};
ghost use Rattle.ft_model.specs.Contents.{DictContent, SetContent, IsDict, IsSet, has_key, dict_get, dict_set, dict_del, has_element, set_add, set_discard};
ghost use Rattle.ft_layout.specs.declared.slot.Stored.TheVariants.{Plain};
ghost use Rattle.ft_layout.specs.Words.{FitsStored};
ghost use Rattle.ft_layout.specs.Tables.{UsedEntry, is_live, deleted, IsDictTable, IsSetTable};
ghost use Rattle.ft_layout.specs.WordChanges.{with_stored, with_deleted};
ghost use Rattle.ft_layout.specs.Containers.{class_mask, used_pair, used_element, IsBlock, AreDictEntries, AreSetEntries, IsDictWords, IsSetWords};

/// A live entry of a dict is that of a pair, whose value is the one at its key. Another value there is
/// `dict_set`, and the entry's deletion is `dict_del`. A key that no live entry has is missing, and its
/// entry at the end is `dict_set` with the next serial. The live entries alone are those of the same
/// dict. The first live entry that passes a test, as to come after a serial, is the first such pair's,
/// and the last live entry is the last pair's.
pub fn used_entries_follow_a_dict()
    ensures live { (used : List UsedEntry) (dict : DictContent) (place : ℕ) (entry : UsedEntry) →
        AreDictEntries used dict → IsDict dict.next dict.pairs → slice_get used place ≡ Some entry →
        IsTrue (is_live entry) →
        (pair : DictPair) × (entry ≡ used_pair pair) × (dict_get dict.pairs pair.key ≡ Some pair.value) }
    ensures missing { (used : List UsedEntry) (dict : DictContent) (key : Key) → AreDictEntries used dict →
        All (λ entry. entry.key ≢ key) (filter is_live used) → has_key dict.pairs key ≡ false }
    ensures changed { (used : List UsedEntry) (dict : DictContent) (place : ℕ) (pair : DictPair) (value : Value) →
        AreDictEntries used dict → IsDict dict.next dict.pairs → slice_get used place ≡ Some (used_pair pair) →
        AreDictEntries (slice_set used place (used_pair (record pair { value = value }))) (dict_set dict pair.key value)
        × (length (dict_set dict pair.key value).pairs ≡ length dict.pairs)
        × ((dict_set dict pair.key value).next ≡ dict.next) }
    ensures added { (used : List UsedEntry) (dict : DictContent) (key : Key) (value : Value) →
        AreDictEntries used dict → All (λ entry. entry.key ≢ key) (filter is_live used) →
        AreDictEntries
        (used ++ used_pair (record { serial = dict.next; key = key; value = value }) ∷ [])
        (dict_set dict key value)
        × (length (dict_set dict key value).pairs ≡ length dict.pairs + 1)
        × ((dict_set dict key value).next ≡ dict.next + 1) }
    ensures deleted { (used : List UsedEntry) (dict : DictContent) (place : ℕ) (pair : DictPair) →
        AreDictEntries used dict → IsDict dict.next dict.pairs → slice_get used place ≡ Some (used_pair pair) →
        AreDictEntries (slice_set used place (deleted (used_pair pair))) (dict_del dict pair.key)
        × (length (dict_del dict pair.key).pairs + 1 ≡ length dict.pairs) }
    ensures first { (used : List UsedEntry) (dict : DictContent) (test : UsedEntry → Bool) → AreDictEntries used dict →
        find (λ entry. is_live entry && test entry) used
        ≡ option_map used_pair (find (λ pair. test (used_pair pair)) dict.pairs) }
    ensures last { (used : List UsedEntry) (dict : DictContent) (place : ℕ) (pair : DictPair) →
        AreDictEntries used dict → IsDict dict.next dict.pairs → slice_get used place ≡ Some (used_pair pair) →
        ((later : ℕ) (any : UsedEntry) → place < later → later < length used →
        is_live (slice_index_or used later any) ≡ false) →
        (slice_get dict.pairs (length dict.pairs - 1) ≡ Some pair) × (dict_del dict pair.key ≡ without_last dict) }
    ensures live_alone { (used : List UsedEntry) (dict : DictContent) → AreDictEntries used dict →
        AreDictEntries (filter is_live used) dict × (length (filter is_live used) ≡ length dict.pairs) }
{}

/// A live entry of a set is that of an element, and a set with the element is the same after
/// `set_add`. The entry's deletion is `set_discard`. A key that no live entry has is missing, and its
/// entry at the end is `set_add` with the next serial. The live entries alone are those of the same
/// set. The first live entry that passes a test is the first such element's, and the first live entry
/// of all is the first element's.
pub fn used_entries_follow_a_set()
    ensures live { (used : List UsedEntry) (set : SetContent) (place : ℕ) (entry : UsedEntry) →
        AreSetEntries used set → IsSet set.next set.elements → slice_get used place ≡ Some entry →
        IsTrue (is_live entry) → (element : Element) × (entry ≡ used_element element)
        × (has_element set.elements element.key ≡ true) × (set_add set element.key ≡ set) }
    ensures missing { (used : List UsedEntry) (set : SetContent) (key : Key) → AreSetEntries used set →
        All (λ entry. entry.key ≢ key) (filter is_live used) → has_element set.elements key ≡ false }
    ensures added { (used : List UsedEntry) (set : SetContent) (key : Key) → AreSetEntries used set →
        All (λ entry. entry.key ≢ key) (filter is_live used) →
        AreSetEntries (used ++ used_element (record { serial = set.next; key = key }) ∷ []) (set_add set key)
        × (length (set_add set key).elements ≡ length set.elements + 1)
        × ((set_add set key).next ≡ set.next + 1) }
    ensures deleted { (used : List UsedEntry) (set : SetContent) (place : ℕ) (element : Element) →
        AreSetEntries used set → IsSet set.next set.elements → slice_get used place ≡ Some (used_element element) →
        AreSetEntries (slice_set used place (deleted (used_element element))) (set_discard set element.key)
        × (length (set_discard set element.key).elements + 1 ≡ length set.elements) }
    ensures first { (used : List UsedEntry) (set : SetContent) (test : UsedEntry → Bool) → AreSetEntries used set →
        find (λ entry. is_live entry && test entry) used
        ≡ option_map used_element (find (λ element. test (used_element element)) set.elements) }
    ensures first_of_all { (used : List UsedEntry) (set : SetContent) (place : ℕ) (element : Element) →
        AreSetEntries used set → IsSet set.next set.elements → slice_get used place ≡ Some (used_element element) →
        ((earlier : ℕ) (any : UsedEntry) → earlier < place → is_live (slice_index_or used earlier any) ≡ false) →
        (slice_get set.elements 0 ≡ Some element) × (set_discard set element.key ≡ without_first set) }
    ensures live_alone { (used : List UsedEntry) (set : SetContent) → AreSetEntries used set →
        AreSetEntries (filter is_live used) set × (length (filter is_live used) ≡ length set.elements) }
{}

/// Words that stand for a dict stand for `dict_set` of it after a value was put at a key that is there,
/// and for `dict_del` of it after a key was deleted and the block has one pair fewer. Where a table has a
/// dict's entries, all that were used or the live ones alone, and after them a new key's, it stands
/// with its block for `dict_set`.
pub fn words_follow_a_dict()
    ensures changed { (texts block words : List ℕ) (class fill : ℕ) (dict : DictContent)
        (says : IsDictWords texts block words (Some class) fill dict) (place : ℕ) (pair : DictPair) (value : Value) →
        slice_get says.used place ≡ Some (used_pair pair) → FitsStored (Plain value) →
        IsDictWords texts block (with_stored (class_mask class) words place (Plain value)) (Some class) fill
        (dict_set dict pair.key value) }
    ensures deleted { (texts block words other : List ℕ) (class fill : ℕ) (dict : DictContent)
        (says : IsDictWords texts block words (Some class) fill dict) (place : ℕ) (pair : DictPair) →
        slice_get says.used place ≡ Some (used_pair pair) →
        IsBlock other (Some class) (length (dict_del dict pair.key).pairs) fill dict.next →
        IsDictWords texts other (with_deleted (class_mask class) words place pair.key) (Some class) fill
        (dict_del dict pair.key) }
    ensures added { (texts block words : List ℕ) (class : ℕ) (used : List UsedEntry) (dict : DictContent)
        (key : Key) (value : Value) →
        AreDictEntries used dict → All (λ entry. entry.key ≢ key) (filter is_live used) →
        IsBlock block (Some class) (length dict.pairs + 1) (length used + 1) (dict.next + 1) →
        IsDictTable texts (class_mask class)
        (used ++ used_pair (record { serial = dict.next; key = key; value = value }) ∷ []) words →
        IsDictWords texts block words (Some class) (length used + 1) (dict_set dict key value) }
{}

/// Words that stand for a set stand for `set_discard` of it after a key was deleted and the block has
/// one element fewer. Where a table has a set's entries, all that were used or the live ones alone, and
/// after them a new key's, it stands with its block for `set_add`.
pub fn words_follow_a_set()
    ensures deleted { (texts block words other : List ℕ) (class fill : ℕ) (set : SetContent)
        (says : IsSetWords texts block words (Some class) fill set) (place : ℕ) (element : Element) →
        slice_get says.used place ≡ Some (used_element element) →
        IsBlock other (Some class) (length (set_discard set element.key).elements) fill set.next →
        IsSetWords texts other (with_deleted (class_mask class) words place element.key) (Some class) fill
        (set_discard set element.key) }
    ensures added { (texts block words : List ℕ) (class : ℕ) (used : List UsedEntry) (set : SetContent) (key : Key) →
        AreSetEntries used set → All (λ entry. entry.key ≢ key) (filter is_live used) →
        IsBlock block (Some class) (length set.elements + 1) (length used + 1) (set.next + 1) →
        IsSetTable texts (class_mask class)
        (used ++ used_element (record { serial = set.next; key = key }) ∷ []) words →
        IsSetWords texts block words (Some class) (length used + 1) (set_add set key) }
{}
