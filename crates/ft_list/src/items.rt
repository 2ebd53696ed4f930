//! Single items of a list that a pass writes, for the calls on lists: each put of an item keeps true that
//! its version is odd while its words differ from what the list had, so that readers without the lock
//! take no half of it.
ghost use Rattle.std.specs.Prelude.{◌≡◌, ◌≢◌, ℕ, ◌+◌, ◌<◌, ◌%◌, ◌≤◌, false, true};
ghost use Rattle.ft_layout.specs.declared.slot.Stored.{Stored};
ghost use Rattle.ft_layout.specs.Words.{FitsStored, IsStored, stored_kind, stored_payload};
ghost use Rattle.ft_trace.specs.Acts.{has_committed};
ghost use Rattle.ft_trace.specs.Addresses.{class_of, slots};
ghost use Rattle.ft_trace.specs.Boxes.{names_box, place_use, references_held, use_taken};
ghost use Rattle.ft_trace.specs.BoxWords.{box_kind};
ghost use Rattle.ft_trace.specs.Holds.{held_words, held_unboxed};
ghost use Rattle.ft_trace.specs.ItemWords.{said_at, words_at};
ghost use Rattle.ft_trace.specs.Pictures.{item_offset, item_field};
ghost use Rattle.ft_bank.specs.BoxSteps.{kind_read, payload_read, HasReferenceFor};
ghost use Rattle.ft_bank.specs.Passes.{shape_of, view, IsPassOf};
ghost use Rattle.ft_bank.specs.PassSections.{stack_of};
ghost use Rattle.ft_bank.specs.TableNames.{table_id, IsPlaceOf};
ghost use Rattle.ft_bank.specs.SameBoxes.{SameReferences};
ghost use Rattle.ft_bank.specs.Whole.{OnlyLoaded, OnlyPut, OnlyWritten, EndsWrite};
ghost use Rattle.ft_search.specs.Boxed.{KeepsOwn};
ghost use Rattle.ft_list.specs.Internal.Carrying.{CarriesValue, HoldsFewBut, KeepsItemValues, KeepsOtherItems};
ghost use Rattle.ft_list.specs.ListItemWrites.{WritesList, PutsItem, ClosesItem, IsChanging, MayFinishItems, ReadsAs, known_items, stored_words, with_word};

use crate::values::held_value;
use ft_bank::{Bank, Pass, Table};
use ft_layout::{
    Stored, item_at, item_word, stored_kind_of, stored_payload_of, versions_change_nothing,
};
use ft_model::{Call, Reply};
use ft_search::{exchange, put_over, read_value, release};

/// How many words of a table come before those that a bank counts.
const HEADER: u64 = 2;
/// The kind of a value that stands in a box.
const BOX_KIND: u64 = 4;

/// Which word of a table this word of an item is, counted from the header on.
pub(crate) fn word_at(place: u64, word: u64) -> u64
    requires place { place < 65536 }
    requires word { word < 4 }
    ensures { result ≡ item_offset place word }
{
    item_at(place, word) - HEADER
}

/// Loads the version of an item of a list that the pass writes.
fn read_version(bank: &Bank, pass: &mut Pass, o: u32, table: Table, start: u64, place: u64) -> u64
    requires pass { IsPassOf bank.now pass.old }
    requires list { WritesList (shape_of bank.now) o table (view pass.old) }
    requires start { IsPlaceOf (shape_of bank.now) table start }
    requires place { place < slots (class_of (table_id table)) }
    ensures pass { IsPassOf bank.now pass.new }
    ensures stack { stack_of pass.new ≡ stack_of pass.old }
    ensures list { WritesList (shape_of bank.now) o table (view pass.new) }
    ensures only { OnlyLoaded (view pass.old) (view pass.new) }
    ensures held { held_unboxed o (view pass.new) ≡ held_unboxed o (view pass.old) }
    ensures found { result ≡ item_field (held_unboxed o (view pass.old)).table place 0 }
{
    let _ = o;
    bank.read_word(pass, table, start, word_at(place, item_word::VERSION))
}

/// Makes the version of an item odd before the commit, where it is even.
fn open_item(bank: &Bank, pass: &mut Pass, o: u32, table: Table, start: u64, place: u64)
    requires pass { IsPassOf bank.now pass.old }
    requires list { WritesList (shape_of bank.now) o table (view pass.old) }
    requires early { has_committed o (view pass.old).log ≡ false }
    requires start { IsPlaceOf (shape_of bank.now) table start }
    requires place { place < slots (class_of (table_id table)) }
    ensures pass { IsPassOf bank.now pass.new }
    ensures stack { stack_of pass.new ≡ stack_of pass.old }
    ensures list { WritesList (shape_of bank.now) o table (view pass.new) }
    ensures only { OnlyWritten o (view pass.old) (view pass.new) }
    ensures references { SameReferences (view pass.old) (view pass.new) }
    ensures keeps { KeepsOwn (view pass.old) (view pass.new) }
    ensures words { (version : ℕ) × (version % 2 ≡ 1)
        × (held_unboxed o (view pass.new) ≡ with_word (held_unboxed o (view pass.old)) place 0 version) }
    ensures values { KeepsItemValues o (view pass.old) (view pass.new) }
{
    let version = read_version(bank, pass, o, table, start, place);
    if version % 2 == 0 {
        bank.put_word(
            pass,
            o,
            table,
            start,
            word_at(place, item_word::VERSION),
            version + 1,
        );
    }
}

/// Has an item store this, before the commit: a value in place, or in a box for which the pass holds a reference and
/// whose value, another one than the item's, it knows. Its version is made odd, and its words are put; the reference of
/// the box is theirs then, and that of a box which they named is dropped. An item that reads so already is left alone.
#[inline(always)]
pub(crate) fn put_item(
    bank: &Bank,
    pass: &mut Pass,
    o: u32,
    table: Table,
    start: u64,
    place: u64,
    stored: Stored,
)
    requires pass { IsPassOf bank.now pass.old }
    requires list { WritesList (shape_of bank.now) o table (view pass.old) }
    requires early { has_committed o (view pass.old).log ≡ false }
    requires start { IsPlaceOf (shape_of bank.now) table start }
    requires place { place < slots (class_of (table_id table)) }
    requires fits { FitsStored stored }
    requires own { HasReferenceFor (view pass.old) (stored_kind stored) (stored_payload stored) }
    requires fresh { stored_kind stored ≡ box_kind → (seen : Stored) → ReadsAs (view pass.old) stored seen →
        stored_words seen ≢ said_at (held_unboxed o (view pass.old)).table place }
    ensures pass { IsPassOf bank.now pass.new }
    ensures stack { stack_of pass.new ≡ stack_of pass.old }
    ensures list { WritesList (shape_of bank.now) o table (view pass.new) }
    ensures only { OnlyWritten o (view pass.old) (view pass.new) }
    ensures block { (held_unboxed o (view pass.new)).block ≡ (held_unboxed o (view pass.old)).block }
    ensures puts { (seen : Stored) → ReadsAs (view pass.old) stored seen →
        PutsItem place seen (held_unboxed o (view pass.old)) (held_unboxed o (view pass.new)) }
    ensures boxed { stored_kind stored ≡ box_kind →
        (item_field (held_words o (view pass.new)).table place 1 ≡ stored_kind stored)
        × (item_field (held_words o (view pass.new)).table place 2 ≡ stored_payload stored) }
    ensures references { (b : ℕ) → references_held (shape_of bank.now) b (view pass.new).log
        + names_box b (stored_kind stored) (stored_payload stored)
        ≡ references_held (shape_of bank.now) b (view pass.old).log }
{
    let kind = stored_kind_of(stored);
    let payload = stored_payload_of(stored);
    let (old_kind, old_payload) = held_value(bank, pass, o, table, start, place);
    if old_kind == kind && old_payload == payload && kind != BOX_KIND {
        return;
    }
    open_item(bank, pass, o, table, start, place);
    let word = word_at(place, item_word::VALUE_KIND);
    put_over(bank, pass, o, table, start, word, kind, payload);
}

/// Has an item have a value, before the commit, and answers the one that it had, each as its kind and its payload stand:
/// the value itself, or what names the box in which it stands, for which the pass holds a reference and whose value it
/// knows. An item that reads so already is left alone, and the value is answered; else the item's version is made odd, and
/// the reference of the new value is the words' then, and that of the old one the pass's.
pub(crate) fn carry_item(
    bank: &Bank,
    pass: &mut Pass,
    o: u32,
    table: Table,
    place: u64,
    value: (u64, u64),
) -> (u64, u64)
    requires pass { IsPassOf bank.now pass.old }
    requires list { WritesList (shape_of bank.now) o table (view pass.old) }
    requires early { has_committed o (view pass.old).log ≡ false }
    requires place { place < slots (class_of (table_id table)) }
    requires own { HasReferenceFor (view pass.old) value.0 value.1 }
    requires spare { HoldsFewBut (shape_of bank.now) value.0 value.1 (view pass.old) }
    ensures pass { IsPassOf bank.now pass.new }
    ensures stack { stack_of pass.new ≡ stack_of pass.old }
    ensures list { WritesList (shape_of bank.now) o table (view pass.new) }
    ensures only { OnlyWritten o (view pass.old) (view pass.new) }
    ensures block { (held_unboxed o (view pass.new)).block ≡ (held_unboxed o (view pass.old)).block }
    ensures puts { (seen : Stored) →
        IsStored (kind_read (view pass.old) value.0 value.1) (payload_read (view pass.old) value.0 value.1) seen →
        PutsItem place seen (held_unboxed o (view pass.old)) (held_unboxed o (view pass.new)) }
    ensures own { HasReferenceFor (view pass.new) result.0 result.1 }
    ensures spare { HoldsFewBut (shape_of bank.now) result.0 result.1 (view pass.new) }
    ensures found { (kind_read (view pass.new) result.0 result.1 ≡ item_field (held_unboxed o (view pass.old)).table place 1)
        × (payload_read (view pass.new) result.0 result.1 ≡ item_field (held_unboxed o (view pass.old)).table place 2) }
    ensures references { (b : ℕ) →
        references_held (shape_of bank.now) b (view pass.new).log + names_box b value.0 value.1
        ≡ references_held (shape_of bank.now) b (view pass.old).log + names_box b result.0 result.1 }
    ensures carries { CarriesValue o place value result (view pass.old) (view pass.new) }
    ensures others { KeepsOtherItems o place (view pass.old) (view pass.new) }
{
    let start = bank.cell_of(table);
    let (kind, payload) = read_value(bank, pass, value.0, value.1);
    let (old_kind, old_payload) = held_value(bank, pass, o, table, start, place);
    if old_kind == kind && old_payload == payload {
        return value;
    }
    open_item(bank, pass, o, table, start, place);
    let word = word_at(place, item_word::VALUE_KIND);
    exchange(bank, pass, o, table, word, value)
}

/// Drops the reference of a value that no item has, with this kind and this payload, where it names a box.
pub(crate) fn let_go(bank: &Bank, pass: &mut Pass, o: u32, table: Table, value: (u64, u64))
    requires pass { IsPassOf bank.now pass.old }
    requires list { WritesList (shape_of bank.now) o table (view pass.old) }
    requires own { HasReferenceFor (view pass.old) value.0 value.1 }
    ensures pass { IsPassOf bank.now pass.new }
    ensures stack { stack_of pass.new ≡ stack_of pass.old }
    ensures list { WritesList (shape_of bank.now) o table (view pass.new) }
    ensures only { OnlyWritten o (view pass.old) (view pass.new) }
    ensures held { held_unboxed o (view pass.new) ≡ held_unboxed o (view pass.old) }
    ensures words { held_words o (view pass.new) ≡ held_words o (view pass.old) }
    ensures references { (b : ℕ) →
        references_held (shape_of bank.now) b (view pass.new).log + names_box b value.0 value.1
        ≡ references_held (shape_of bank.now) b (view pass.old).log }
{
    let _ = (o, table);
    if value.0 == BOX_KIND {
        release(bank, pass, value.1);
    }
}

/// Makes the version of an item even after the commit, where it is odd: the item's words say what the
/// list has.
fn close_item(bank: &Bank, pass: &mut Pass, o: u32, table: Table, start: u64, place: u64)
    requires pass { IsPassOf bank.now pass.old }
    requires list { WritesList (shape_of bank.now) o table (view pass.old) }
    requires late { has_committed o (view pass.old).log ≡ true }
    requires start { IsPlaceOf (shape_of bank.now) table start }
    requires place { place < slots (class_of (table_id table)) }
    requires says { words_at (known_items o (view pass.old)) place ≡ said_at (held_unboxed o (view pass.old)).table place }
    ensures pass { IsPassOf bank.now pass.new }
    ensures stack { stack_of pass.new ≡ stack_of pass.old }
    ensures list { WritesList (shape_of bank.now) o table (view pass.new) }
    ensures only { OnlyPut o (view pass.old) (view pass.new) }
    ensures references { SameReferences (view pass.old) (view pass.new) }
    ensures item { ClosesItem place (held_unboxed o (view pass.old)) (held_unboxed o (view pass.new)) }
    ensures values { KeepsItemValues o (view pass.old) (view pass.new) }
{
    let version = read_version(bank, pass, o, table, start, place);
    if version % 2 == 1 {
        bank.put_word(
            pass,
            o,
            table,
            start,
            word_at(place, item_word::VERSION),
            version + 1,
        );
    }
}

/// Makes all versions of a list's items even after the commit, of which these alone can be odd.
#[inline(always)]
fn close_items(bank: &Bank, pass: &mut Pass, o: u32, table: Table, first: u64, past: u64)
    requires pass { IsPassOf bank.now pass.old }
    requires list { WritesList (shape_of bank.now) o table (view pass.old) }
    requires late { has_committed o (view pass.old).log ≡ true }
    requires places { past ≤ slots (class_of (table_id table)) }
    requires changing { IsChanging (class_of (table_id table)) (known_items o (view pass.old))
        (known_items o (view pass.old)) first past (held_unboxed o (view pass.old)).table }
    ensures pass { IsPassOf bank.now pass.new }
    ensures stack { stack_of pass.new ≡ stack_of pass.old }
    ensures list { WritesList (shape_of bank.now) o table (view pass.new) }
    ensures only { OnlyPut o (view pass.old) (view pass.new) }
    ensures references { SameReferences (view pass.old) (view pass.new) }
    ensures block { (held_unboxed o (view pass.new)).block ≡ (held_unboxed o (view pass.old)).block }
    ensures values { KeepsItemValues o (view pass.old) (view pass.new) }
    ensures closed { IsChanging (class_of (table_id table)) (known_items o (view pass.old))
        (known_items o (view pass.old)) past past (held_unboxed o (view pass.new)).table }
{
    versions_change_nothing();
    let start = bank.cell_of(table);
    for place in first..past {
        close_item(bank, pass, o, table, start, place);
    }
}

/// Raises the counter for this call, which is the write, and makes the versions of the items and of the
/// list even again. Answers the number of the write.
#[inline(always)]
pub(crate) fn finish(
    bank: &Bank,
    pass: &mut Pass,
    o: u32,
    table: Table,
    called: &Call,
    said: &Reply,
    first: u64,
    past: u64,
) -> u64
    requires pass { IsPassOf bank.now pass.old }
    requires list { WritesList (shape_of bank.now) o table (view pass.old) }
    requires places { (first ≤ past) × (past ≤ slots (class_of (table_id table))) }
    requires may { MayFinishItems o table called.now said.now first past (view pass.old) }
    ensures pass { IsPassOf bank.now pass.new }
    ensures stack { stack_of pass.new ≡ stack_of pass.old }
    ensures ends { EndsWrite called.now said.now result (view pass.old) (view pass.new) }
    ensures references { SameReferences (view pass.old) (view pass.new) }
    ensures values { KeepsItemValues o (view pass.old) (view pass.new) }
    ensures stored { (b : ℕ) → place_use b (view pass.new).log ≢ use_taken }
{
    let number = bank.commit(pass, called, said);
    close_items(bank, pass, o, table, first, past);
    bank.stop_write(pass, o);
    number
}
