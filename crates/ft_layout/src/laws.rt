//! Laws on the definitions, for the proofs of crates above: words stand for one content at most, each word
//! of a bank and of a table is of one part or field, and an entry that changes changes nothing else.

ghost use Rattle.std.specs.Prelude.{◌≡◌, ℕ, ◌+◌, ◌<◌, ◌≤◌, List, [], length, All, Option, None, slice_index_or, slice_set};
ghost use Rattle.ft_model.specs.declared.data.Value.{Value};
ghost use Rattle.ft_model.specs.declared.content.Content.{Content};
ghost use Rattle.ft_model.specs.declared.script.Kind.{Kind};
ghost use Rattle.ft_model.specs.Contents.{DictContent, SetContent, IsDict, IsSet};
ghost use Rattle.ft_model.specs.TableUses.{TableUse, no_table};
ghost use Rattle.ft_model.specs.Worlds.{empty_content, kind_of, length_of, serial_of};
ghost use Rattle.ft_model.specs.Classes.{IsClass, dict_entries, set_entries, list_items};
ghost use Rattle.ft_layout.specs.Sizes.{table_size};
ghost use Rattle.ft_layout.specs.Starts.{BankSizes, Part, HasWord, bank_size};
ghost use Rattle.ft_layout.specs.Tables.{dict_room, set_room, table_length, UsedEntry, IsTable};
ghost use Rattle.ft_layout.specs.WordChanges.{IsBlankTable, KeepsKey, ChangesEntry, SaysUsed};
ghost use Rattle.ft_layout.specs.Fields.{Field, IsField, field_at, ItemField, IsItemField, item_field_at};
ghost use Rattle.ft_layout.specs.Containers.{class_mask, IsBlank, IsBlock, StandsAs, IsDictWords, IsSetWords, IsListWords};

/// The words of a block and a table stand for at most one dict, with one class of the table and one
/// fill; and it is a dict: its keys are distinct, and its serials rise and are below the next one.
/// A blank block stands for an empty one.
pub fn dict_words_are_of_one_dict()
    ensures one { (texts block words : List ℕ) (class other : Option ℕ) (fill count : ℕ) (dict second : DictContent) →
        IsDictWords texts block words class fill dict → IsDictWords texts block words other count second →
        (class ≡ other) × (fill ≡ count) × (dict ≡ second) }
    ensures is_dict { (texts block words : List ℕ) (class : Option ℕ) (fill : ℕ) (dict : DictContent) →
        IsDictWords texts block words class fill dict → IsDict dict.next dict.pairs }
    ensures empty { (texts block words : List ℕ) → IsBlank block →
        IsDictWords texts block words None 0 (record { next = 0; pairs = [] }) }
{}

/// The words of a block and a table stand for at most one set, with one class of the table and one
/// fill; and it is a set: its keys are distinct, and its serials rise and are below the next one.
/// A blank block stands for an empty one.
pub fn set_words_are_of_one_set()
    ensures one { (texts block words : List ℕ) (class other : Option ℕ) (fill count : ℕ) (set second : SetContent) →
        IsSetWords texts block words class fill set → IsSetWords texts block words other count second →
        (class ≡ other) × (fill ≡ count) × (set ≡ second) }
    ensures is_set { (texts block words : List ℕ) (class : Option ℕ) (fill : ℕ) (set : SetContent) →
        IsSetWords texts block words class fill set → IsSet set.next set.elements }
    ensures empty { (texts block words : List ℕ) → IsBlank block →
        IsSetWords texts block words None 0 (record { next = 0; elements = [] }) }
{}

/// The words of a block and a table stand for at most one list, with one class of the table.
/// A blank block stands for an empty one.
pub fn list_words_are_of_one_list()
    ensures one { (block words : List ℕ) (class other : Option ℕ) (values second : List Value) →
        IsListWords block words class values → IsListWords block words other second →
        (class ≡ other) × (values ≡ second) }
    ensures empty { (block words : List ℕ) → IsBlank block → IsListWords block words None [] }
{}

/// Of contents of one kind, the words of a block and a table stand for at most one, with one class
/// and fill of the table. The block says how many pairs, items or elements there are, and the next
/// serial. A blank block stands for an empty content.
pub fn words_are_of_one_content()
    ensures one { (texts block words : List ℕ) (table other : TableUse) (content second : Content) →
        kind_of content ≡ kind_of second → StandsAs texts block words table content →
        StandsAs texts block words other second →
        (table.class ≡ other.class) × (table.fill ≡ other.fill) × (content ≡ second) }
    ensures head { (texts block words : List ℕ) (table : TableUse) (content : Content) →
        StandsAs texts block words table content →
        IsBlock block table.class (length_of content) table.fill (serial_of content) }
    ensures empty { (texts block words : List ℕ) (kind : Kind) → IsBlank block →
        StandsAs texts block words no_table (empty_content kind) }
{}

/// The parts of a bank lie one after the other: each word belongs to exactly one, and none has words
/// outside the bank.
pub fn bank_words_are_of_one_part()
    ensures one { (bank : BankSizes) (part other : Part) (word : ℕ) →
        HasWord bank part word → HasWord bank other word → part ≡ other }
    ensures some { (bank : BankSizes) (word : ℕ) → word < bank_size bank → (part : Part) × HasWord bank part word }
    ensures within { (bank : BankSizes) (part : Part) (word : ℕ) → HasWord bank part word → word < bank_size bank }
{}

/// The fields of a table lie one after the other: as a dict's, each word is of exactly one; as a
/// set's or a list's, of at most one.
pub fn table_words_are_of_one_field()
    ensures one { (mask : ℕ) (field other : Field) →
        IsField mask field → IsField mask other → field_at mask field ≡ field_at mask other → field ≡ other }
    ensures some { (mask word : ℕ) → word < table_length mask →
        (field : Field) × IsField mask field × (field_at mask field ≡ word) }
    ensures within { (mask : ℕ) (field : Field) → IsField mask field → field_at mask field < table_length mask }
    ensures set { (mask : ℕ) → set_room mask ≤ dict_room mask }
    ensures one_item { (mask : ℕ) (field other : ItemField) →
        IsItemField mask field → IsItemField mask other → item_field_at field ≡ item_field_at other → field ≡ other }
    ensures within_item { (mask : ℕ) → 7 ≤ mask → (field : ItemField) →
        IsItemField mask field → item_field_at field < table_length mask }
{}

/// What a table has by its class is what it has by its last slot.
pub fn sizes_are_by_class()
    ensures { (class : ℕ) → IsClass class →
        (dict_room (class_mask class) ≡ dict_entries class) × (set_room (class_mask class) ≡ set_entries class)
        × (class_mask class + 1 ≡ list_items class) × (table_length (class_mask class) ≡ table_size class) }
{}

/// A blank table holds no entry. Where the words of one entry change, and its key and serial stay, a
/// table holds the changed entry in its place, and every other as before.
pub fn changed_words_are_of_a_table()
    ensures blank { (walk : ℕ → List ℕ) (room : ℕ) (texts : List ℕ) (mask : ℕ) (words : List ℕ) →
        IsBlankTable mask words → IsTable walk room texts mask [] words }
    ensures changed { (walk : ℕ → List ℕ) (room : ℕ) (texts : List ℕ) (mask : ℕ) (used : List UsedEntry)
        (old new : List ℕ) (place : ℕ) (entry : UsedEntry) →
        ((hash : ℕ) → All (λ slot. slot ≤ mask) (walk hash)) → IsTable walk room texts mask used old →
        place < length used → ((any : UsedEntry) → KeepsKey (slice_index_or used place any) entry) →
        ChangesEntry mask place old new → SaysUsed texts mask new place entry →
        IsTable walk room texts mask (slice_set used place entry) new }
{}
