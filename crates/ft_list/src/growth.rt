//! Lists that get another table, under the lock. The new table is filled with what the list has before the
//! list's version is made odd; then it is put into the root, and the write goes on in it like any other. So who
//! looks without the lock finds the same items in either table until the counter is raised.
ghost use Rattle.std.specs.Prelude.{◌≡◌, ◌≢◌, ℕ, suc, ◌+◌, ◌<◌, ◌≤◌, [], ◌∷◌, Some, length};
ghost use Rattle.ft_model.specs.declared.call.Call.TheVariants as call;
ghost use Rattle.ft_model.specs.declared.call.ListCall.{ListCall};
ghost use Rattle.ft_model.specs.declared.content.Content.TheVariants as content;
ghost use Rattle.ft_model.specs.declared.reply.Reply.TheVariants as reply;
ghost use Rattle.ft_layout.specs.Containers.{IsBlock};
ghost use Rattle.ft_trace.specs.Acts.{stage};
ghost use Rattle.ft_trace.specs.Addresses.{class_of, slots};
ghost use Rattle.ft_trace.specs.Boxes.{place_use, use_taken};
ghost use Rattle.ft_bank.specs.declared.table.Table.{Table};
ghost use Rattle.ft_search.specs.Boxed.{KeepsOwn};
ghost use Rattle.ft_trace.specs.Holds.{held_words, held_unboxed, known_state, in_hand};
ghost use Rattle.ft_trace.specs.Pictures.{item_field, root_in};
ghost use Rattle.ft_bank.specs.Passes.{shape_of, view, IsPassOf};
ghost use Rattle.ft_bank.specs.PassSections.{stack_of};
ghost use Rattle.ft_bank.specs.TableNames.{table_id, IsPlaceOf, IsTableIn};
ghost use Rattle.ft_bank.specs.SameBoxes.{SameReferences};
ghost use Rattle.ft_bank.specs.Whole.{OnlyLoaded, Wrote};
ghost use Rattle.ft_table_calls.specs.Adding.{OnlyFilled};
ghost use Rattle.ft_list.specs.ListItemWrites.{WritesList, IsPutting, known_items, stored_item};
ghost use Rattle.ft_list.specs.ListWrites.{Grows};
ghost use Rattle.ft_list.specs.Internal.Carrying.{HoldsSpare};
ghost use Rattle.ft_list.specs.Internal.NewListTables.{CopiesItem, HasRooted, IsCopied, KnowsList, MayGrowList, with_new_item};
ghost use Rattle.ft_list.specs.HeldValues.{GivesReference};
ghost use Rattle.ft_list.specs.Internal.Additions.{count_in, stored_in, with_added, IsAddition, NamesAdded, StoresAddition};

use crate::addition::{Addition, added_count, first_place, put_added};
use crate::items::{finish, word_at};
use crate::locked::LENGTH;
use ft_bank::{Bank, Pass, Table};
use ft_layout::{item_word, list_items};
use ft_model::{Call, Reply};

/// The last word of an item, which says nothing and is 0.
const SPARE: u64 = item_word::VALUE + 1;

/// The kind and the payload of the value that an item has in the table of a list, as its words stand; 0 and 0 past the
/// table's items.
fn old_value(bank: &Bank, pass: &mut Pass, o: u32, old: Option<Table>, place: u64) -> (u64, u64)
    requires pass { IsPassOf bank.now pass.old }
    requires list { KnowsList (shape_of bank.now) o old (view pass.old) }
    ensures pass { IsPassOf bank.now pass.new }
    ensures stack { stack_of pass.new ≡ stack_of pass.old }
    ensures only { OnlyLoaded (view pass.old) (view pass.new) }
    ensures copies { CopiesItem old (held_words o (view pass.old)).table place result.0 result.1 }
{
    let _ = o;
    match old {
        Some(table) => {
            if place >= list_items(table.class) {
                return (0, 0);
            }
            let start = bank.cell_of(table);
            let kind = bank.read_word(pass, table, start, word_at(place, item_word::VALUE_KIND));
            let payload = bank.read_word(pass, table, start, word_at(place, item_word::VALUE));
            (kind, payload)
        }
        None => (0, 0),
    }
}

/// Has an item have a value with this kind and this payload in a table that is fresh in hand, with version 0.
fn fill_item(bank: &Bank, pass: &mut Pass, table: Table, start: u64, place: u64, value: (u64, u64))
    requires pass { IsPassOf bank.now pass.old }
    requires table { IsTableIn (shape_of bank.now) table }
    requires start { IsPlaceOf (shape_of bank.now) table start }
    requires fresh { stage (table_id table) (view pass.old).log ≡ 1 }
    requires place { place < slots (class_of (table_id table)) }
    ensures pass { IsPassOf bank.now pass.new }
    ensures stack { stack_of pass.new ≡ stack_of pass.old }
    ensures filled { OnlyFilled (view pass.old) (view pass.new) }
    ensures words { in_hand (table_id table) (view pass.new) ≡
        with_new_item (in_hand (table_id table) (view pass.old)) place value.0 value.1 }
    ensures keeps { KeepsOwn (view pass.old) (view pass.new) }
{
    let (kind, payload) = value;
    bank.put_fresh_word(pass, table, start, word_at(place, item_word::VERSION), 0);
    bank.put_fresh_word(
        pass,
        table,
        start,
        word_at(place, item_word::VALUE_KIND),
        kind,
    );
    bank.put_fresh_word(
        pass,
        table,
        start,
        word_at(place, item_word::VALUE),
        payload,
    );
    bank.put_fresh_word(pass, table, start, word_at(place, SPARE), 0);
}

/// Fills a table that is fresh in hand with the items of a list's table: the words of each value are copied as they stand,
/// so that they name the same boxes, and nothing is stored past them.
fn fill(bank: &Bank, pass: &mut Pass, o: u32, old: Option<Table>, table: Table)
    requires pass { IsPassOf bank.now pass.old }
    requires list { KnowsList (shape_of bank.now) o old (view pass.old) }
    requires table { IsTableIn (shape_of bank.now) table }
    requires fresh { stage (table_id table) (view pass.old).log ≡ 1 }
    ensures pass { IsPassOf bank.now pass.new }
    ensures stack { stack_of pass.new ≡ stack_of pass.old }
    ensures only { OnlyFilled (view pass.old) (view pass.new) }
    ensures keeps { KeepsOwn (view pass.old) (view pass.new) }
    ensures copied { IsCopied old (held_words o (view pass.old)).table (class_of (table_id table))
        (slots (class_of (table_id table))) (in_hand (table_id table) (view pass.new)) }
{
    let start = bank.cell_of(table);
    for place in 0..list_items(table.class) {
        let value = old_value(bank, pass, o, old, place);
        fill_item(bank, pass, table, start, place, value);
    }
}

/// Makes the version of a list odd and puts a table into its root that has the items which the list's table has: the
/// references for the boxes that they name are the new table's then.
fn begin_in(bank: &Bank, pass: &mut Pass, o: u32, old: Option<Table>, table: Table)
    requires pass { IsPassOf bank.now pass.old }
    requires may { MayGrowList (shape_of bank.now) o old table (view pass.old) }
    requires copied { IsCopied old (held_words o (view pass.old)).table (class_of (table_id table))
        (slots (class_of (table_id table))) (in_hand (table_id table) (view pass.old)) }
    requires wider { (t : Table) → old ≡ Some t → slots (class_of (table_id t)) ≤ slots (class_of (table_id table)) }
    requires room { length (known_items o (view pass.old)) ≤ slots (class_of (table_id table)) }
    ensures pass { IsPassOf bank.now pass.new }
    ensures stack { stack_of pass.new ≡ stack_of pass.old }
    ensures rooted { HasRooted o (suc (table_id table)) (view pass.old) (view pass.new) }
    ensures list { WritesList (shape_of bank.now) o table (view pass.new) }
    ensures references { SameReferences (view pass.old) (view pass.new) }
    ensures keeps { KeepsOwn (view pass.old) (view pass.new) }
    ensures putting { (first past : ℕ) →
        IsPutting (class_of (table_id table)) (known_items o (view pass.old)) first past
        (stored_item (known_items o (view pass.old))) (held_unboxed o (view pass.new)).table }
    ensures items { (place : ℕ) → place < length (known_items o (view pass.old)) →
        (item_field (held_words o (view pass.new)).table place 1
        ≡ item_field (held_words o (view pass.old)).table place 1)
        × (item_field (held_words o (view pass.new)).table place 2
        ≡ item_field (held_words o (view pass.old)).table place 2) }
    ensures content { (known_state o (view pass.old)).content ≡ content.List (known_items o (view pass.old)) }
    ensures head { IsBlock (held_unboxed o (view pass.new)).block (Some (class_of (table_id table)))
        (length (known_items o (view pass.old))) 0 0 }
{
    let _ = old;
    bank.start_write(pass, o);
    bank.put_root(pass, o, Some(table));
}

/// Adds to a list of that many items, which gets this table, as the write of this call. Answers the number of the
/// write.
pub(crate) fn add_in(
    bank: &Bank,
    pass: &mut Pass,
    o: u32,
    old: Option<Table>,
    table: Table,
    addition: Addition,
    count: u64,
    called: &Call,
) -> u64
    requires pass { IsPassOf bank.now pass.old }
    requires may { MayGrowList (shape_of bank.now) o old table (view pass.old) }
    requires other { root_in (held_unboxed o (view pass.old)) ≢ suc (table_id table) }
    requires wider { (t : Table) → old ≡ Some t → slots (class_of (table_id t)) ≤ slots (class_of (table_id table)) }
    requires spare { HoldsSpare (shape_of bank.now) (view pass.old) }
    requires addition { IsAddition (shape_of bank.now) count addition (view pass.old) }
    requires stores { StoresAddition addition called.now (view pass.old) }
    requires count { count ≡ length (known_items o (view pass.old)) }
    requires room { count + count_in addition ≤ slots (class_of (table_id table)) }
    requires call { (lc : ListCall) × (called.now ≡ call.List o lc) × Grows o lc (known_items o (view pass.old))
        (with_added addition (view pass.old) (known_items o (view pass.old))) (class_of (table_id table)) (view pass.old) }
    ensures pass { IsPassOf bank.now pass.new }
    ensures stack { stack_of pass.new ≡ stack_of pass.old }
    ensures wrote { Wrote called.now reply.Done result (view pass.old) (view pass.new) }
    ensures root { root_in (held_unboxed o (view pass.new)) ≡ suc (table_id table) }
    ensures references { GivesReference (shape_of bank.now) (stored_in addition) (view pass.old) (view pass.new) }
    ensures named { NamesAdded o (known_items o (view pass.old)) addition (view pass.old) (view pass.new) }
    ensures stored { (b : ℕ) → place_use b (view pass.new).log ≢ use_taken }
{
    fill(bank, pass, o, old, table);
    begin_in(bank, pass, o, old, table);
    put_added(bank, pass, o, table, addition, count);
    let past = count + added_count(addition);
    bank.put_block(pass, o, LENGTH, past);
    finish(
        bank,
        pass,
        o,
        table,
        called,
        &Reply::Done,
        first_place(addition, count),
        past,
    )
}
