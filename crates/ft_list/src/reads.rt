//! Reads of an item that an index names: by a pass without the list's lock, whose loads show it where no
//! write came between them, and by one with the lock.
ghost use Rattle.std.specs.Prelude.{◌≡◌, ◌<◌, suc, true};
ghost use Rattle.ft_layout.specs.declared.slot.Stored.{Stored};
ghost use Rattle.ft_layout.specs.Words.{IsStored};
ghost use Rattle.ft_trace.specs.Acts.{has_lock};
ghost use Rattle.ft_trace.specs.Addresses.{container_count, class_of, slots};
ghost use Rattle.ft_trace.specs.Holds.{held_unboxed};
ghost use Rattle.ft_trace.specs.Pictures.{item_field, root_in};
ghost use Rattle.ft_trace.specs.ContainerStates.{kind_in};
ghost use Rattle.ft_model.specs.declared.script.Kind.TheVariants as kind;
ghost use Rattle.ft_bank.specs.Passes.{shape_of, view, IsPassOf};
ghost use Rattle.ft_bank.specs.PassSections.{stack_of};
ghost use Rattle.ft_bank.specs.TableNames.{table_id, IsTableIn};
ghost use Rattle.ft_bank.specs.Whole.{OnlyLoaded};
ghost use Rattle.ft_list.specs.Indexes.{IsItemValue, IsItemAt, IsItemNamed};
ghost use Rattle.ft_reads.specs.Reads.{Reads};

use crate::gets::found_of;
use crate::items::word_at;
use crate::locked::{LENGTH, place_in};
use crate::values::held_value;
use ft_bank::{Bank, Pass, Table};
use ft_layout::{Stored, item_of, item_word, list_items};
use ft_model::Value;
use ft_search::{see_value, table_named};
use ft_section::Object;

/// Reads the value of an item in a table, in the box that it names where it names one.
fn read_value(bank: &Bank, pass: &mut Pass, l: Object, table: Table, place: u64) -> Option<Value>
    requires pass { IsPassOf bank.now pass.old }
    requires container { l < container_count (shape_of bank.now) }
    requires list { kind_in (shape_of bank.now).starts l ≡ kind.List }
    requires table { IsTableIn (shape_of bank.now) table }
    requires place { place < slots (class_of (table_id table)) }
    ensures pass { IsPassOf bank.now pass.new }
    ensures reads { Reads (shape_of bank.now) l (IsItemValue (table_id table) place result) pass.old pass.new }
{
    let _ = l;
    let kind = bank.read_table(pass, table, word_at(place, item_word::VALUE_KIND));
    let payload = bank.read_table(pass, table, word_at(place, item_word::VALUE));
    let seen = see_value(bank, pass, kind, payload);
    match found_of(seen.kind, seen.value) {
        Some(found) => found,
        None => None,
    }
}

/// What an item of a list's table stores, whose lock the pass has.
#[inline(always)]
pub(crate) fn read_stored(bank: &Bank, pass: &mut Pass, o: u32, table: Table, place: u64) -> Stored
    requires pass { IsPassOf bank.now pass.old }
    requires container { o < container_count (shape_of bank.now) }
    requires list { kind_in (shape_of bank.now).starts o ≡ kind.List }
    requires locked { has_lock o (view pass.old).log ≡ true }
    requires table { IsTableIn (shape_of bank.now) table }
    requires root { root_in (held_unboxed o (view pass.old)) ≡ suc (table_id table) }
    requires place { place < slots (class_of (table_id table)) }
    ensures pass { IsPassOf bank.now pass.new }
    ensures stack { stack_of pass.new ≡ stack_of pass.old }
    ensures only { OnlyLoaded (view pass.old) (view pass.new) }
    ensures stored { (stored : Stored) →
        IsStored (item_field (held_unboxed o (view pass.old)).table place 1) (item_field (held_unboxed o (view pass.old)).table place 2) stored →
        result ≡ stored }
{
    let start = bank.cell_of(table);
    let (kind, payload) = held_value(bank, pass, o, table, start, place);
    item_of(&[0, kind, payload, 0]).unwrap_or(Stored::Empty)
}

/// Reads the item at a place of a list. `None` where the table that the root names has no such place, or the
/// root names none.
pub(crate) fn read_item(bank: &Bank, pass: &mut Pass, l: Object, place: u64) -> Option<Value>
    requires pass { IsPassOf bank.now pass.old }
    requires container { l < container_count (shape_of bank.now) }
    requires list { kind_in (shape_of bank.now).starts l ≡ kind.List }
    ensures pass { IsPassOf bank.now pass.new }
    ensures reads { Reads (shape_of bank.now) l (IsItemAt (shape_of bank.now) place result) pass.old pass.new }
{
    let root = bank.read_block(pass, l, 0);
    match table_named(root) {
        Some(table) => {
            if place < list_items(table.class) {
                read_value(bank, pass, l, table, place)
            } else {
                None
            }
        }
        None => None,
    }
}

/// Reads the item that an index names, or none.
pub fn read_named(bank: &Bank, pass: &mut Pass, l: Object, index: i64) -> Option<Value>
    requires pass { IsPassOf bank.now pass.old }
    requires container { l < container_count (shape_of bank.now) }
    requires list { kind_in (shape_of bank.now).starts l ≡ kind.List }
    ensures pass { IsPassOf bank.now pass.new }
    ensures reads { Reads (shape_of bank.now) l (IsItemNamed (shape_of bank.now) index result) pass.old pass.new }
{
    let count = bank.read_block(pass, l, LENGTH);
    match place_in(count, index) {
        Some(place) => read_item(bank, pass, l, place),
        None => None,
    }
}
