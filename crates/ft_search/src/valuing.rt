//! Another value is put at a key of a dict whose lock the pass has, as one whole write: the version of the
//! key's entry is odd while its two words change.
ghost use Rattle.std.specs.Prelude.{◌≡◌, ◌≢◌, ℕ, ◌+◌, ◌<◌, false, None};
ghost use Rattle.ft_layout.specs.declared.slot.Stored.TheVariants.{Plain};
ghost use Rattle.ft_layout.specs.Words.{FitsStored, stored_kind, stored_payload};
ghost use Rattle.ft_model.specs.declared.script.Kind.TheVariants as kind;
ghost use Rattle.ft_trace.specs.Acts.{has_committed};
ghost use Rattle.ft_trace.specs.Addresses.{class_of, slots};
ghost use Rattle.ft_trace.specs.Boxes.{names_box, place_use, references_held, use_taken};
ghost use Rattle.ft_trace.specs.Carefuls.{HasLiveKey};
ghost use Rattle.ft_trace.specs.EntryWrites.{value_puts};
ghost use Rattle.ft_trace.specs.Holds.{held_words, held_unboxed, known_state};
ghost use Rattle.ft_trace.specs.Kinds.{rows};
ghost use Rattle.ft_trace.specs.Pictures.{entry_field, root_in};
ghost use Rattle.ft_trace.specs.ContainerStates.{kind_in};
ghost use Rattle.ft_trace.specs.WholeWrites.{MayPuts, with_puts};
ghost use Rattle.ft_bank.specs.BoxSteps.{kind_read, payload_read, HasReferenceFor};
ghost use Rattle.ft_bank.specs.Passes.{shape_of, view, IsPassOf};
ghost use Rattle.ft_bank.specs.PassSections.{stack_of};
ghost use Rattle.ft_bank.specs.SameBoxes.{SameReferences};
ghost use Rattle.ft_bank.specs.TableNames.{table_id};
ghost use Rattle.ft_bank.specs.Whole.{OnlyWritten, Wrote};
ghost use Rattle.ft_search.specs.HeldValues.{ChangesValue, StoresBox};
ghost use Rattle.ft_search.specs.OneEntryWrites.{HasTable, IsLiveEntry, KeepsOtherEntries, Leaves, MayBeginEntries, MayWriteEntries, WritesEntries, are_of_value, with_value_at};

use crate::boxed::put_over;
use crate::entries::{raise_at, word_at};
use crate::finishing::{finish_entry, write_nothing};
use crate::tables::mask_of;
use ft_bank::{Bank, Pass, Table};
use ft_layout::{
    Stored, entry_word, stored_kind_of, stored_payload_of, used_entries_follow_a_dict,
    versions_change_nothing, words_follow_a_dict,
};
use ft_model::{Call, Key, Reply, Value};

/// Puts another value into the entry at a place, before the commit: in its place, or in a box for which the pass holds a
/// reference and whose value it knows. That reference is the entry's then, and that of a box which the old value named is
/// dropped. Other entries may be written too.
#[inline(always)]
fn put_stored(bank: &Bank, pass: &mut Pass, o: u32, table: Table, place: u64, stored: Stored)
    requires pass { IsPassOf bank.now pass.old }
    requires writes { WritesEntries (shape_of bank.now) o table (view pass.old) }
    requires place { place < rows (kind_in (shape_of bank.now).starts o) (class_of (table_id table)) }
    requires early { has_committed o (view pass.old).log ≡ false }
    requires fits { FitsStored stored }
    requires own { HasReferenceFor (view pass.old) (stored_kind stored) (stored_payload stored) }
    requires may { (value : Value) × MayPuts (kind_in (shape_of bank.now).starts o) (table_id table)
        (known_state o (view pass.old)).content false (held_unboxed o (view pass.old))
        (value_puts (slots (class_of (table_id table))) (held_unboxed o (view pass.old)).table place None value) }
    ensures pass { IsPassOf bank.now pass.new }
    ensures stack { stack_of pass.new ≡ stack_of pass.old }
    ensures writes { WritesEntries (shape_of bank.now) o table (view pass.new) }
    ensures only { OnlyWritten o (view pass.old) (view pass.new) }
    ensures references { (b : ℕ) → references_held (shape_of bank.now) b (view pass.new).log
        + names_box b (stored_kind stored) (stored_payload stored)
        ≡ references_held (shape_of bank.now) b (view pass.old).log }
    ensures raw { (entry_field (slots (class_of (table_id table))) (held_words o (view pass.new)).table place 4
        ≡ stored_kind stored)
        × (entry_field (slots (class_of (table_id table))) (held_words o (view pass.new)).table place 5
        ≡ stored_payload stored) }
    ensures others { KeepsOtherEntries o (table_id table) place (view pass.old) (view pass.new) }
    ensures words { (value : Value) →
        kind_read (view pass.old) (stored_kind stored) (stored_payload stored) ≡ stored_kind (Plain value) →
        payload_read (view pass.old) (stored_kind stored) (stored_payload stored) ≡ stored_payload (Plain value) →
        held_unboxed o (view pass.new) ≡ with_puts (held_unboxed o (view pass.old))
        (value_puts (slots (class_of (table_id table))) (held_unboxed o (view pass.old)).table place None value) }
{
    let kind_word = stored_kind_of(stored);
    let payload = stored_payload_of(stored);
    let start = bank.cell_of(table);
    raise_at(bank, pass, o, table, start, place);
    let word = word_at(mask_of(table.class), place, entry_word::VALUE_KIND);
    put_over(bank, pass, o, table, start, word, kind_word, payload);
}

/// Puts a value into the entry at a place, whose value was read, before the commit; the reference of a box that the old
/// value named is dropped. Other entries may be written too.
#[inline(always)]
pub fn put_value(
    bank: &Bank,
    pass: &mut Pass,
    o: u32,
    table: Table,
    place: u64,
    value: Value,
    old: (u64, u64),
)
    requires pass { IsPassOf bank.now pass.old }
    requires writes { WritesEntries (shape_of bank.now) o table (view pass.old) }
    requires place { place < rows (kind_in (shape_of bank.now).starts o) (class_of (table_id table)) }
    requires early { has_committed o (view pass.old).log ≡ false }
    requires old_kind { old.0 ≡ entry_field (slots (class_of (table_id table))) (held_unboxed o (view pass.old)).table place 4 }
    requires old_payload { old.1 ≡ entry_field (slots (class_of (table_id table))) (held_unboxed o (view pass.old)).table place 5 }
    requires may { MayPuts (kind_in (shape_of bank.now).starts o) (table_id table) (known_state o (view pass.old)).content false
        (held_unboxed o (view pass.old))
        (value_puts (slots (class_of (table_id table))) (held_unboxed o (view pass.old)).table place None value) }
    ensures pass { IsPassOf bank.now pass.new }
    ensures stack { stack_of pass.new ≡ stack_of pass.old }
    ensures writes { WritesEntries (shape_of bank.now) o table (view pass.new) }
    ensures only { OnlyWritten o (view pass.old) (view pass.new) }
    ensures references { SameReferences (view pass.old) (view pass.new) }
    ensures others { KeepsOtherEntries o (table_id table) place (view pass.old) (view pass.new) }
    ensures words { held_unboxed o (view pass.new) ≡ with_puts (held_unboxed o (view pass.old))
        (value_puts (slots (class_of (table_id table))) (held_unboxed o (view pass.old)).table place None value) }
{
    let _ = old;
    put_stored(bank, pass, o, table, place, Stored::Plain(value));
}

/// Whether these words of an entry, which were read, say a value.
pub fn says_value(words: (u64, u64), value: Value) -> bool
    ensures { result ≡ are_of_value words.0 words.1 value }
{
    let stored = Stored::Plain(value);
    words.0 == stored_kind_of(stored) && words.1 == stored_payload_of(stored)
}

/// Puts another value than the one that is there at a key, in the entry at a place, as the write of this call: in its
/// place, or in a box for which the pass holds a reference; that reference is the entry's then. A box that the pass has
/// made and that no write has stored is stored by this one. Answers the number of the write.
#[inline(always)]
pub fn store_entry(
    bank: &Bank,
    pass: &mut Pass,
    d: u32,
    table: Table,
    place: u64,
    stored: Stored,
    called: &Call,
    said: &Reply,
) -> u64
    requires pass { IsPassOf bank.now pass.old }
    requires may { MayBeginEntries (shape_of bank.now) d (view pass.old) }
    requires dict { kind_in (shape_of bank.now).starts d ≡ kind.Dict }
    requires table { HasTable (shape_of bank.now) d table (view pass.old) }
    requires fits { FitsStored stored }
    requires own { HasReferenceFor (view pass.old) (stored_kind stored) (stored_payload stored) }
    requires stores { StoresBox stored called.now (view pass.old) }
    requires changes { ChangesValue (shape_of bank.now) d table place stored called.now said.now (view pass.old) }
    ensures pass { IsPassOf bank.now pass.new }
    ensures stack { stack_of pass.new ≡ stack_of pass.old }
    ensures wrote { Wrote called.now said.now result (view pass.old) (view pass.new) }
    ensures root { root_in (held_unboxed d (view pass.new)) ≡ root_in (held_unboxed d (view pass.old)) }
    ensures references { (b : ℕ) → references_held (shape_of bank.now) b (view pass.new).log
        + names_box b (stored_kind stored) (stored_payload stored)
        ≡ references_held (shape_of bank.now) b (view pass.old).log }
    ensures stored { (b : ℕ) → place_use b (view pass.new).log ≢ use_taken }
    ensures live { (key : Key) →
        HasLiveKey (slots (class_of (table_id table))) (held_unboxed d (view pass.old)).table place key →
        HasLiveKey (slots (class_of (table_id table))) (held_unboxed d (view pass.new)).table place key }
    ensures raw { (entry_field (slots (class_of (table_id table))) (held_words d (view pass.new)).table place 4
        ≡ stored_kind stored)
        × (entry_field (slots (class_of (table_id table))) (held_words d (view pass.new)).table place 5
        ≡ stored_payload stored) }
{
    versions_change_nothing();
    used_entries_follow_a_dict();
    words_follow_a_dict();
    bank.start_write(pass, d);
    put_stored(bank, pass, d, table, place, stored);
    finish_entry(bank, pass, d, table, place, called, said)
}

/// Puts a value at a key that is there, as the write of this call: in the entry at a place, whose words were
/// read. An entry that has the value already is left alone. Answers the number of the write.
#[inline(always)]
pub fn set_entry(
    bank: &Bank,
    pass: &mut Pass,
    d: u32,
    table: Table,
    place: u64,
    key: Key,
    value: Value,
    old: (u64, u64),
    called: &Call,
    said: &Reply,
) -> u64
    requires pass { IsPassOf bank.now pass.old }
    requires may { MayWriteEntries (shape_of bank.now) d (view pass.old) }
    requires dict { kind_in (shape_of bank.now).starts d ≡ kind.Dict }
    requires table { HasTable (shape_of bank.now) d table (view pass.old) }
    requires entry { IsLiveEntry (shape_of bank.now) d table place key (view pass.old) }
    requires old_kind { old.0 ≡ entry_field (slots (class_of (table_id table))) (held_unboxed d (view pass.old)).table place 4 }
    requires old_payload { old.1 ≡ entry_field (slots (class_of (table_id table))) (held_unboxed d (view pass.old)).table place 5 }
    requires value { FitsStored (Plain value) }
    requires leaves { Leaves d called.now said.now (record {
      content = with_value_at (known_state d (view pass.old)).content key value;
      table = (known_state d (view pass.old)).table;
    })
        (view pass.old) }
    ensures pass { IsPassOf bank.now pass.new }
    ensures stack { stack_of pass.new ≡ stack_of pass.old }
    ensures wrote { Wrote called.now said.now result (view pass.old) (view pass.new) }
    ensures references { SameReferences (view pass.old) (view pass.new) }
    ensures root { root_in (held_unboxed d (view pass.new)) ≡ root_in (held_unboxed d (view pass.old)) }
{
    let _ = key;
    versions_change_nothing();
    used_entries_follow_a_dict();
    words_follow_a_dict();
    if says_value(old, value) {
        return write_nothing(bank, pass, d, called, said);
    }
    let stored = Stored::Plain(value);
    store_entry(bank, pass, d, table, place, stored, called, said)
}
