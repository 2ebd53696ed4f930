//! Laws on the words of a list's table: what the table holds after the words of one item changed, and
//! that an insertion or a removal is such changes, one by one. Whoever writes a list cites them.

ghost use Rattle.std.specs.Prelude.{◌≡◌, ℕ, ◌+◌, ◌<◌, ◌≤◌, List, [], ◌∷◌, ◌++◌, length, Some, slice_get, slice_set, insert, remove};
ghost use Rattle.ft_model.specs.declared.data.Value.{Value};
ghost use Rattle.ft_layout.specs.declared.slot.Stored.TheVariants.{Empty, Plain};
ghost use Rattle.ft_layout.specs.Tables.{IsListTable};
ghost use Rattle.ft_layout.specs.WordChanges.{IsBlankTable, ChangesItem, SaysStored};
ghost use Rattle.ft_layout.specs.Containers.{class_mask, IsBlock, IsListWords};

/// A blank table holds no items. Where the words of one item change, a list's table holds the changed
/// item in its place and every other as before; the words of the item after the last add it to the
/// end, and where the last item's words store nothing, it is gone.
pub fn changed_words_are_of_a_list()
    ensures blank { (mask : ℕ) (words : List ℕ) → IsBlankTable mask words → IsListTable mask [] words }
    ensures put { (mask : ℕ) (values : List Value) (old new : List ℕ) (place : ℕ) (value : Value) →
        IsListTable mask values old → place < length values →
        ChangesItem place old new → SaysStored new place (Plain value) →
        IsListTable mask (slice_set values place value) new }
    ensures appended { (mask : ℕ) (values : List Value) (old new : List ℕ) (value : Value) →
        IsListTable mask values old → length values ≤ mask →
        ChangesItem (length values) old new → SaysStored new (length values) (Plain value) →
        IsListTable mask (values ++ value ∷ []) new }
    ensures dropped { (mask : ℕ) (values : List Value) (old new : List ℕ) (value : Value) →
        IsListTable mask (values ++ value ∷ []) old →
        ChangesItem (length values) old new → SaysStored new (length values) Empty →
        IsListTable mask values new }
{}

/// An insertion at a place is an insertion at the place after it of the item that is there, and then a
/// put at the place. So items move up one by one, from an insertion at the end, which is an append. The
/// same steps the other way move items down, from the list itself, which is that without an item, and
/// the item inserted.
pub fn items_are_moved_one_by_one()
    ensures last { (values : List Value) (value : Value) →
        insert values (length values) value ≡ values ++ value ∷ [] }
    ensures up { (mask : ℕ) (values : List Value) (old new : List ℕ) (place : ℕ) (item value : Value) →
        slice_get values place ≡ Some item → IsListTable mask (insert values (place + 1) item) old →
        ChangesItem place old new → SaysStored new place (Plain value) →
        IsListTable mask (insert values place value) new }
    ensures first { (values : List Value) (place : ℕ) (item : Value) → slice_get values place ≡ Some item →
        insert (remove values place) place item ≡ values }
    ensures down { (mask : ℕ) (values : List Value) (old new : List ℕ) (place : ℕ) (item value : Value) →
        slice_get values place ≡ Some item → IsListTable mask (insert values place value) old →
        ChangesItem place old new → SaysStored new place (Plain item) →
        IsListTable mask (insert values (place + 1) item) new }
{}

/// Words that stand for a list stand for it with another item at a place once that item's words say so,
/// and with one item more or fewer at the end once the block counts it too.
pub fn words_follow_a_list()
    ensures put { (block words new : List ℕ) (class : ℕ) (values : List Value) (place : ℕ) (value : Value) →
        IsListWords block words (Some class) values → place < length values →
        ChangesItem place words new → SaysStored new place (Plain value) →
        IsListWords block new (Some class) (slice_set values place value) }
    ensures appended { (block words other new : List ℕ) (class : ℕ) (values : List Value) (value : Value) →
        IsListWords block words (Some class) values → length values ≤ class_mask class →
        IsBlock other (Some class) (length values + 1) 0 0 →
        ChangesItem (length values) words new → SaysStored new (length values) (Plain value) →
        IsListWords other new (Some class) (values ++ value ∷ []) }
    ensures dropped { (block words other new : List ℕ) (class : ℕ) (values : List Value) (value : Value) →
        IsListWords block words (Some class) (values ++ value ∷ []) →
        IsBlock other (Some class) (length values) 0 0 →
        ChangesItem (length values) words new → SaysStored new (length values) Empty →
        IsListWords other new (Some class) values }
{}
