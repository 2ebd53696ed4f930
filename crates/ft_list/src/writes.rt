//! What calls do to a list whose lock the pass has and whose table has room: each is one whole write, in
//! which the items that change are put one by one.
ghost use Rattle.std.specs.Prelude.{◌≡◌, ◌≢◌, ℕ, ◌+◌, ◌<◌, ◌≤◌, List, false, length, Some, slice_set, []};
ghost use Rattle.std.specs.List.{insert, remove};
ghost use Rattle.ft_model.specs.declared.call.Call.TheVariants as call;
ghost use Rattle.ft_model.specs.declared.call.ListCall.{ListCall};
ghost use Rattle.ft_model.specs.declared.content.Content.TheVariants as content;
ghost use Rattle.ft_model.specs.declared.data.Value.{Value};
ghost use Rattle.ft_model.specs.declared.reply.Reply.TheVariants as reply;
ghost use Rattle.ft_layout.specs.declared.slot.Stored.TheVariants.{Plain};
ghost use Rattle.ft_layout.specs.Containers.{IsBlock};
ghost use Rattle.ft_layout.specs.Words.{FitsStored, IsStored, stored_kind, stored_payload};
ghost use Rattle.ft_trace.specs.declared.Act.TheVariants.{StartWrite};
ghost use Rattle.ft_trace.specs.Acts.{has_committed};
ghost use Rattle.ft_trace.specs.Addresses.{class_of, slots};
ghost use Rattle.ft_trace.specs.Boxes.{names_box, place_use, references_held, use_taken};
ghost use Rattle.ft_trace.specs.BoxWords.{box_kind};
ghost use Rattle.ft_trace.specs.Holds.{held_words, held_unboxed, known_state};
ghost use Rattle.ft_trace.specs.Pictures.{item_field, root_in};
ghost use Rattle.ft_bank.specs.BoxSteps.{kind_read, payload_read, HasReferenceFor};
ghost use Rattle.ft_bank.specs.Passes.{shape_of, view, IsPassOf, Did};
ghost use Rattle.ft_bank.specs.PassSections.{stack_of};
ghost use Rattle.ft_bank.specs.TableNames.{table_id, IsPlaceOf};
ghost use Rattle.ft_bank.specs.SameBoxes.{SameReferences};
ghost use Rattle.ft_bank.specs.Whole.{OnlyLoaded, OnlyWritten, Wrote};
ghost use Rattle.ft_layout.specs.declared.slot.Stored.{Stored};
ghost use Rattle.ft_trace.specs.ItemWords.{said_at};
ghost use Rattle.ft_list.specs.HeldValues.{GivesReference, HasWordsFrom};
ghost use Rattle.ft_list.specs.ListItemWrites.{ReadsAs, WritesList, IsPutting, known_items, stored_item, stored_words};
ghost use Rattle.ft_list.specs.Internal.Carrying.{HoldsFewBut, HoldsSpare};
ghost use Rattle.ft_list.specs.Internal.Moving.{IsMoving};
ghost use Rattle.ft_search.specs.HeldValues.{StoresBox};
ghost use Rattle.ft_list.specs.ListWrites.{MayBeginList, MayWriteList, Changes};
ghost use Rattle.ft_list.specs.Internal.Additions.{count_in, stored_in, with_added, IsAddition, NamesAdded, StoresAddition};
ghost use Rattle.ft_search.specs.OneEntryWrites.{HasTable};

use crate::addition::{Addition, added_count, first_place, put_added};
use crate::items::{carry_item, finish, let_go, put_item};
use ft_bank::{Bank, Pass, Table};
use ft_layout::{Stored, block_word};
use ft_model::{Call, Reply, Value};

/// Which word of a block the length of a list is, as a bank counts them.
const LENGTH: u64 = block_word::USED - block_word::ROOT;

/// Makes the version of a list odd. Its items are as they were.
pub(crate) fn begin(bank: &Bank, pass: &mut Pass, o: u32, table: Table)
    requires pass { IsPassOf bank.now pass.old }
    requires may { MayBeginList (shape_of bank.now) o (view pass.old) }
    requires table { HasTable (shape_of bank.now) o table (view pass.old) }
    ensures pass { IsPassOf bank.now pass.new }
    ensures did { (f : ℕ) × Did (StartWrite o f) pass.old pass.new }
    ensures list { WritesList (shape_of bank.now) o table (view pass.new) }
    ensures putting { (first past : ℕ) →
        IsPutting (class_of (table_id table)) (known_items o (view pass.old)) first past
        (stored_item (known_items o (view pass.old))) (held_unboxed o (view pass.new)).table }
    ensures content { (known_state o (view pass.old)).content ≡ content.List (known_items o (view pass.old)) }
    ensures table { (known_state o (view pass.old)).table ≡ record { class = Some (class_of (table_id table)); fill = 0; keys = [] } }
    ensures head { IsBlock (held_unboxed o (view pass.new)).block (Some (class_of (table_id table)))
        (length (known_items o (view pass.old))) 0 0 }
    ensures few { length (known_items o (view pass.old)) ≤ slots (class_of (table_id table)) }
{
    let _ = table;
    bank.start_write(pass, o);
}

/// Has the item at a place store a value, as the write of this call: in place, or in a box for which the pass holds a
/// reference, where the item had another value; that reference is the list's then. A box that the pass has made and that
/// no write has stored is stored by this one. Answers the number of the write.
pub(crate) fn set_item(
    bank: &Bank,
    pass: &mut Pass,
    o: u32,
    table: Table,
    place: u64,
    value: Value,
    stored: Stored,
    called: &Call,
    said: &Reply,
) -> u64
    requires pass { IsPassOf bank.now pass.old }
    requires may { MayBeginList (shape_of bank.now) o (view pass.old) }
    requires table { HasTable (shape_of bank.now) o table (view pass.old) }
    requires place { place < length (known_items o (view pass.old)) }
    requires fits { FitsStored stored }
    requires own { HasReferenceFor (view pass.old) (stored_kind stored) (stored_payload stored) }
    requires reads { ReadsAs (view pass.old) stored (Plain value) }
    requires fresh { stored_kind stored ≡ box_kind → stored_item (known_items o (view pass.old)) place ≢ Plain value }
    requires stores { StoresBox stored called.now (view pass.old) }
    requires call { (lc : ListCall) × (called.now ≡ call.List o lc) × Changes o lc said.now
        (known_items o (view pass.old)) (slice_set (known_items o (view pass.old)) place value) (view pass.old) }
    ensures pass { IsPassOf bank.now pass.new }
    ensures stack { stack_of pass.new ≡ stack_of pass.old }
    ensures wrote { Wrote called.now said.now result (view pass.old) (view pass.new) }
    ensures root { root_in (held_unboxed o (view pass.new)) ≡ root_in (held_unboxed o (view pass.old)) }
    ensures references { (b : ℕ) → references_held (shape_of bank.now) b (view pass.new).log
        + names_box b (stored_kind stored) (stored_payload stored)
        ≡ references_held (shape_of bank.now) b (view pass.old).log }
    ensures boxed { stored_kind stored ≡ box_kind →
        (item_field (held_words o (view pass.new)).table place 1 ≡ stored_kind stored)
        × (item_field (held_words o (view pass.new)).table place 2 ≡ stored_payload stored) }
    ensures stored { (b : ℕ) → place_use b (view pass.new).log ≢ use_taken }
{
    let _ = value;
    begin(bank, pass, o, table);
    let start = bank.cell_of(table);
    put_item(bank, pass, o, table, start, place, stored);
    finish(bank, pass, o, table, called, said, place, place + 1)
}

/// Puts a value at a place, and carries each item from there on to the next one, with the box that it names. The value is
/// given as its kind and its payload stand: for a box that they name the pass holds a reference, which is the list's then.
#[inline(always)]
pub(crate) fn shift_up(
    bank: &Bank,
    pass: &mut Pass,
    o: u32,
    table: Table,
    place: u64,
    count: u64,
    given: (u64, u64),
)
    requires pass { IsPassOf bank.now pass.old }
    requires list { WritesList (shape_of bank.now) o table (view pass.old) }
    requires early { has_committed o (view pass.old).log ≡ false }
    requires place { (place ≤ count) × (count < slots (class_of (table_id table))) }
    requires own { HasReferenceFor (view pass.old) given.0 given.1 }
    requires spare { HoldsFewBut (shape_of bank.now) given.0 given.1 (view pass.old) }
    ensures pass { IsPassOf bank.now pass.new }
    ensures stack { stack_of pass.new ≡ stack_of pass.old }
    ensures list { WritesList (shape_of bank.now) o table (view pass.new) }
    ensures only { OnlyWritten o (view pass.old) (view pass.new) }
    ensures references { (b : ℕ) → references_held (shape_of bank.now) b (view pass.new).log + names_box b given.0 given.1
        ≡ references_held (shape_of bank.now) b (view pass.old).log }
    ensures block { (held_unboxed o (view pass.new)).block ≡ (held_unboxed o (view pass.old)).block }
    ensures moved { (value : Value) →
        IsStored (kind_read (view pass.old) given.0 given.1) (payload_read (view pass.old) given.0 given.1) (Plain value) →
        (values : List Value) → length values ≡ count →
        IsPutting (class_of (table_id table)) values place (count + 1) (stored_item values) (held_unboxed o (view pass.old)).table →
        IsMoving (class_of (table_id table)) values (insert values place value) place (count + 1) (count + 1)
        (held_unboxed o (view pass.new)).table }
    ensures named { (value : Value) →
        IsStored (kind_read (view pass.old) given.0 given.1) (payload_read (view pass.old) given.0 given.1) (Plain value) →
        (values : List Value) → length values ≡ count →
        IsPutting (class_of (table_id table)) values place (count + 1) (stored_item values) (held_unboxed o (view pass.old)).table →
        HasWordsFrom o values place value given.0 given.1 (view pass.new) }
{
    let mut carried = given;
    for at in place..count + 1 {
        carried = carry_item(bank, pass, o, table, at, carried);
    }
    let_go(bank, pass, o, table, carried);
}

/// Has the item after the last one, of that many, store this: a value in place, or in a box for which the pass holds a
/// reference and whose value it knows; that reference is the list's then.
#[inline(always)]
pub(crate) fn put_last(
    bank: &Bank,
    pass: &mut Pass,
    o: u32,
    table: Table,
    count: u64,
    stored: Stored,
)
    requires pass { IsPassOf bank.now pass.old }
    requires list { WritesList (shape_of bank.now) o table (view pass.old) }
    requires early { has_committed o (view pass.old).log ≡ false }
    requires room { count < slots (class_of (table_id table)) }
    requires fits { FitsStored stored }
    requires own { HasReferenceFor (view pass.old) (stored_kind stored) (stored_payload stored) }
    requires fresh { stored_kind stored ≡ box_kind → (seen : Stored) → ReadsAs (view pass.old) stored seen →
        stored_words seen ≢ said_at (held_unboxed o (view pass.old)).table count }
    ensures pass { IsPassOf bank.now pass.new }
    ensures stack { stack_of pass.new ≡ stack_of pass.old }
    ensures list { WritesList (shape_of bank.now) o table (view pass.new) }
    ensures only { OnlyWritten o (view pass.old) (view pass.new) }
    ensures references { GivesReference (shape_of bank.now) stored (view pass.old) (view pass.new) }
    ensures block { (held_unboxed o (view pass.new)).block ≡ (held_unboxed o (view pass.old)).block }
    ensures boxed { stored_kind stored ≡ box_kind →
        (item_field (held_words o (view pass.new)).table count 1 ≡ stored_kind stored)
        × (item_field (held_words o (view pass.new)).table count 2 ≡ stored_payload stored) }
    ensures moved { (value : Value) → ReadsAs (view pass.old) stored (Plain value) →
        (values : List Value) → length values ≡ count →
        IsPutting (class_of (table_id table)) values count (count + 1) (stored_item values) (held_unboxed o (view pass.old)).table →
        IsMoving (class_of (table_id table)) values (insert values count value) count (count + 1) (count + 1)
        (held_unboxed o (view pass.new)).table }
{
    let start = bank.cell_of(table);
    put_item(bank, pass, o, table, start, count, stored);
}

/// Adds to a list of that many items whose table has room, as the write of this call. Answers the number of the
/// write.
#[inline(always)]
pub(crate) fn add_items(
    bank: &Bank,
    pass: &mut Pass,
    o: u32,
    table: Table,
    addition: Addition,
    count: u64,
    called: &Call,
) -> u64
    requires pass { IsPassOf bank.now pass.old }
    requires may { MayBeginList (shape_of bank.now) o (view pass.old) }
    requires spare { HoldsSpare (shape_of bank.now) (view pass.old) }
    requires table { HasTable (shape_of bank.now) o table (view pass.old) }
    requires addition { IsAddition (shape_of bank.now) count addition (view pass.old) }
    requires stores { StoresAddition addition called.now (view pass.old) }
    requires count { count ≡ length (known_items o (view pass.old)) }
    requires room { count + count_in addition ≤ slots (class_of (table_id table)) }
    requires call { (lc : ListCall) × (called.now ≡ call.List o lc) × Changes o lc reply.Done
        (known_items o (view pass.old)) (with_added addition (view pass.old) (known_items o (view pass.old))) (view pass.old) }
    ensures pass { IsPassOf bank.now pass.new }
    ensures stack { stack_of pass.new ≡ stack_of pass.old }
    ensures wrote { Wrote called.now reply.Done result (view pass.old) (view pass.new) }
    ensures root { root_in (held_unboxed o (view pass.new)) ≡ root_in (held_unboxed o (view pass.old)) }
    ensures references { GivesReference (shape_of bank.now) (stored_in addition) (view pass.old) (view pass.new) }
    ensures named { NamesAdded o (known_items o (view pass.old)) addition (view pass.old) (view pass.new) }
    ensures stored { (b : ℕ) → place_use b (view pass.new).log ≢ use_taken }
{
    begin(bank, pass, o, table);
    put_added(bank, pass, o, table, addition, count);
    let past = count + added_count(addition);
    bank.put_block(pass, o, LENGTH, past);
    finish(
        bank,
        pass,
        o,
        table,
        called,
        &Reply::Done,
        first_place(addition, count),
        past,
    )
}

/// Takes out the item at a place: each item after it is carried one place down, with the box that it names, from the last
/// one on, and nothing is stored where that one was. The reference of a box which the item names that is taken out is
/// dropped.
fn shift_down(bank: &Bank, pass: &mut Pass, o: u32, table: Table, place: u64, count: u64)
    requires pass { IsPassOf bank.now pass.old }
    requires list { WritesList (shape_of bank.now) o table (view pass.old) }
    requires early { has_committed o (view pass.old).log ≡ false }
    requires place { (place < count) × (count ≤ slots (class_of (table_id table))) }
    requires spare { HoldsSpare (shape_of bank.now) (view pass.old) }
    ensures pass { IsPassOf bank.now pass.new }
    ensures stack { stack_of pass.new ≡ stack_of pass.old }
    ensures list { WritesList (shape_of bank.now) o table (view pass.new) }
    ensures only { OnlyWritten o (view pass.old) (view pass.new) }
    ensures references { SameReferences (view pass.old) (view pass.new) }
    ensures block { (held_unboxed o (view pass.new)).block ≡ (held_unboxed o (view pass.old)).block }
    ensures moved { (values : List Value) → length values ≡ count →
        IsPutting (class_of (table_id table)) values place count (stored_item values) (held_unboxed o (view pass.old)).table →
        IsMoving (class_of (table_id table)) values (remove values place) place count count
        (held_unboxed o (view pass.new)).table }
{
    let mut carried = (0, 0);
    for done in place..count {
        let at = place + (count - 1 - done);
        carried = carry_item(bank, pass, o, table, at, carried);
    }
    let_go(bank, pass, o, table, carried);
}

/// Takes the item at a place out of a list, as the write of this call: each item after it goes one place
/// down. Answers the number of the write.
pub(crate) fn remove_item(
    bank: &Bank,
    pass: &mut Pass,
    o: u32,
    table: Table,
    place: u64,
    count: u64,
    called: &Call,
    said: &Reply,
) -> u64
    requires pass { IsPassOf bank.now pass.old }
    requires may { MayWriteList (shape_of bank.now) o (view pass.old) }
    requires table { HasTable (shape_of bank.now) o table (view pass.old) }
    requires count { count ≡ length (known_items o (view pass.old)) }
    requires place { place < count }
    requires call { (lc : ListCall) × (called.now ≡ call.List o lc) × Changes o lc said.now
        (known_items o (view pass.old)) (remove (known_items o (view pass.old)) place) (view pass.old) }
    ensures pass { IsPassOf bank.now pass.new }
    ensures stack { stack_of pass.new ≡ stack_of pass.old }
    ensures wrote { Wrote called.now said.now result (view pass.old) (view pass.new) }
    ensures root { root_in (held_unboxed o (view pass.new)) ≡ root_in (held_unboxed o (view pass.old)) }
    ensures references { SameReferences (view pass.old) (view pass.new) }
{
    begin(bank, pass, o, table);
    shift_down(bank, pass, o, table, place, count);
    bank.put_block(pass, o, LENGTH, count - 1);
    finish(bank, pass, o, table, called, said, place, count)
}
