//! Looks at a list without its lock.
//!
//! An item is looked up by its own version alone: what was read of it counts where its version was even
//! and the same before and after, and where the root still names the table then, since no table comes
//! back that the pass has found. Only where the root is read 0 does the version of the list decide. A value in a box is
//! read while the pass holds a reference for the box.
ghost use Rattle.std.specs.Prelude.{◌≡◌, ℕ, suc, ◌<◌, ◌≤◌, List, [], ◌∷◌};
ghost use Rattle.ft_model.specs.declared.script.Kind.TheVariants as kind;
ghost use Rattle.ft_trace.specs.declared.Act.{Act};
ghost use Rattle.ft_trace.specs.declared.Act.TheVariants.{ReadRoot, ReadTable};
ghost use Rattle.ft_trace.specs.Acts.{announces};
ghost use Rattle.ft_trace.specs.Addresses.{container_count, class_of, slots, IsTableName};
ghost use Rattle.ft_trace.specs.Boxes.{IsSettled};
ghost use Rattle.ft_trace.specs.ContainerStates.{kind_in};
ghost use Rattle.ft_trace.specs.Pictures.{item_offset};
ghost use Rattle.ft_bank.specs.Passes.{shape_of, view, IsPassOf};
ghost use Rattle.ft_bank.specs.SameBoxes.{HoldsFew};
ghost use Rattle.ft_bank.specs.Series.{DidAll};
ghost use Rattle.ft_bank.specs.TableNames.{table_id, IsPlaceOf, IsTableIn};
ghost use Rattle.ft_search.specs.LookSteps.{AreLookSteps, InRound, OnlyLooked, WasNamed};
ghost use Rattle.ft_list.specs.ItemLooks.{EndsItemTable, EndsItemRound, SeesItem, ShowsFound};

use crate::items::word_at;
use ft_bank::{Bank, Pass, Table};
use ft_layout::{item_word, list_items};
use ft_search::{SeenBox, see_in_box, table_at};

/// The kind of a value that stands in a box.
const BOX_KIND: u64 = 4;

/// What a look-up of one item without the lock came to.
#[derive(Clone, Copy)]
pub(crate) enum LookedItem {
    /// The kind and the payload that the item reads, and the stamp.
    Item(u64, u64, u64),
    /// The list's table has no such item, at this stamp.
    Past(u64),
    /// Two loads of one version, the first odd or the two different; or the count word of a box moved, or was that of a dead
    /// box.
    Contended(u64, u64),
}

/// What a round of a look-up came to.
#[derive(Clone, Copy)]
pub(crate) enum ItemRound {
    /// The look-up ends so.
    Ended(LookedItem),
    /// The root has changed to this.
    Moved(u64),
}

/// What was read of an item, between two loads of its version.
#[derive(Clone, Copy)]
pub(crate) struct SeenItem {
    /// The version at first.
    pub(crate) opened: u64,
    /// The kind of the value, read in its box where it has one.
    pub(crate) kind: u64,
    /// The payload of the value, read there too.
    pub(crate) value: u64,
    /// The counter.
    pub(crate) number: u64,
    /// The version at last.
    pub(crate) closed: u64,
}

/// What reading an item came to.
#[derive(Clone, Copy)]
pub(crate) enum ItemRead {
    /// It was read.
    Whole(SeenItem),
    /// Its value stands in a box, and its version, or the shared word of the box, was found to be the first number and then
    /// the second; or both are the shared word of a dead box.
    Stopped(u64, u64),
}

/// Loads a word of an item of the table whose words begin there.
fn load_word(bank: &Bank, pass: &mut Pass, table: Table, start: u64, index: u64, word: u64) -> u64
    requires pass { IsPassOf bank.now pass.old }
    requires table { IsTableIn (shape_of bank.now) table }
    requires place { IsPlaceOf (shape_of bank.now) table start }
    requires index { index < slots (class_of (table_id table)) }
    requires word { word < 4 }
    ensures pass { IsPassOf bank.now pass.new }
    ensures did { DidAll (ReadTable (table_id table) (item_offset index word) result ∷ []) pass.old pass.new }
{
    bank.read_word(pass, table, start, word_at(index, word))
}

/// Reads an item of the list, and the counter, between two loads of the item's version.
#[inline(always)]
fn see_item(bank: &Bank, pass: &mut Pass, o: u32, table: Table, index: u64) -> ItemRead
    requires pass { IsPassOf bank.now pass.old }
    requires container { o < container_count (shape_of bank.now) }
    requires list { kind_in (shape_of bank.now).starts o ≡ kind.List }
    requires table { IsTableIn (shape_of bank.now) table }
    requires index { index < slots (class_of (table_id table)) }
    requires settled { IsSettled (view pass.old).log }
    requires few { HoldsFew (view pass.old) }
    requires named { WasNamed o (table_id table) (view pass.old).log }
    ensures pass { IsPassOf bank.now pass.new }
    ensures looks { (acts : List Act) × InRound acts pass.old pass.new × DidAll acts pass.old pass.new
        × SeesItem (table_id table) index acts result }
{
    let _ = o;
    let start = bank.cell_of(table);
    let opened = load_word(bank, pass, table, start, index, item_word::VERSION);
    let kind = load_word(bank, pass, table, start, index, item_word::VALUE_KIND);
    let value = load_word(bank, pass, table, start, index, item_word::VALUE);
    if kind == BOX_KIND {
        return match see_in_box(
            bank,
            pass,
            table,
            word_at(index, item_word::VERSION),
            opened,
            value,
        ) {
            SeenBox::Read(found) => ItemRead::Whole(SeenItem {
                opened,
                kind: found.kind,
                value: found.value,
                number: found.number,
                closed: found.closed,
            }),
            SeenBox::Stopped(first, found) => ItemRead::Stopped(first, found),
        };
    }
    let number = bank.stamp(pass);
    let closed = load_word(bank, pass, table, start, index, item_word::VERSION);
    ItemRead::Whole(SeenItem {
        opened,
        kind,
        value,
        number,
        closed,
    })
}

/// A round over the table that the root named: the item, and then the root again.
#[inline(always)]
fn look_at(bank: &Bank, pass: &mut Pass, o: u32, index: u64, root: u64, table: Table) -> ItemRound
    requires pass { IsPassOf bank.now pass.old }
    requires container { o < container_count (shape_of bank.now) }
    requires list { kind_in (shape_of bank.now).starts o ≡ kind.List }
    requires online { 0 < announces (view pass.old).log }
    requires table { IsTableIn (shape_of bank.now) table }
    requires root { root ≡ suc (table_id table) }
    requires index { index < slots (class_of (table_id table)) }
    requires last { (rest : List Act) × ((view pass.old).log ≡ ReadRoot o root ∷ rest) }
    requires settled { IsSettled (view pass.old).log }
    requires few { HoldsFew (view pass.old) }
    ensures pass { IsPassOf bank.now pass.new }
    ensures ended { EndsItemTable (shape_of bank.now) o index (table_id table) pass.old pass.new result }
{
    let read = see_item(bank, pass, o, table, index);
    let again = bank.read_root(pass, o);
    if again != root {
        return ItemRound::Moved(again);
    }
    let seen = match read {
        ItemRead::Whole(whole) => whole,
        ItemRead::Stopped(first, found) => return ItemRound::Ended(LookedItem::Contended(
            first, found,
        )),
    };
    if seen.closed != seen.opened || seen.opened % 2 != 0 {
        return ItemRound::Ended(LookedItem::Contended(seen.opened, seen.closed));
    }
    ItemRound::Ended(LookedItem::Item(seen.kind, seen.value, seen.number))
}

/// A round over a table that has no such item: the counter, and then the root again.
fn look_past(bank: &Bank, pass: &mut Pass, o: u32, index: u64, root: u64, table: Table) -> ItemRound
    requires pass { IsPassOf bank.now pass.old }
    requires container { o < container_count (shape_of bank.now) }
    requires online { 0 < announces (view pass.old).log }
    requires table { IsTableIn (shape_of bank.now) table }
    requires root { root ≡ suc (table_id table) }
    requires index { slots (class_of (table_id table)) ≤ index }
    requires last { (rest : List Act) × ((view pass.old).log ≡ ReadRoot o root ∷ rest) }
    ensures pass { IsPassOf bank.now pass.new }
    ensures ended { EndsItemTable (shape_of bank.now) o index (table_id table) pass.old pass.new result }
{
    let _ = (index, table);
    let number = bank.stamp(pass);
    let again = bank.read_root(pass, o);
    if again != root {
        return ItemRound::Moved(again);
    }
    ItemRound::Ended(LookedItem::Past(number))
}

/// A round where the root was read 0: the list's version, the root again, the counter, and the version
/// again.
fn look_bare(bank: &Bank, pass: &mut Pass, o: u32) -> ItemRound
    requires pass { IsPassOf bank.now pass.old }
    requires container { o < container_count (shape_of bank.now) }
    requires online { 0 < announces (view pass.old).log }
    requires last { (rest : List Act) × ((view pass.old).log ≡ ReadRoot o 0 ∷ rest) }
    ensures pass { IsPassOf bank.now pass.new }
    ensures ended { (index : ℕ) → EndsItemRound (shape_of bank.now) o index 0 pass.old pass.new result }
{
    let opened = bank.seq(pass, o);
    let root = bank.read_root(pass, o);
    if root != 0 {
        return ItemRound::Moved(root);
    }
    let number = bank.stamp(pass);
    let closed = bank.seq(pass, o);
    if closed != opened || opened % 2 != 0 {
        return ItemRound::Ended(LookedItem::Contended(opened, closed));
    }
    ItemRound::Ended(LookedItem::Past(number))
}

/// A round at whatever the root was.
#[inline(always)]
fn look_round(bank: &Bank, pass: &mut Pass, o: u32, index: u64, root: u64) -> ItemRound
    requires pass { IsPassOf bank.now pass.old }
    requires container { o < container_count (shape_of bank.now) }
    requires list { kind_in (shape_of bank.now).starts o ≡ kind.List }
    requires online { 0 < announces (view pass.old).log }
    requires table { (t : ℕ) → root ≡ suc t → IsTableName (shape_of bank.now) t }
    requires last { (rest : List Act) × ((view pass.old).log ≡ ReadRoot o root ∷ rest) }
    requires settled { IsSettled (view pass.old).log }
    requires few { HoldsFew (view pass.old) }
    ensures pass { IsPassOf bank.now pass.new }
    ensures ended { EndsItemRound (shape_of bank.now) o index root pass.old pass.new result }
{
    match table_at(bank, root) {
        Some(table) => {
            if index < list_items(table.class) {
                look_at(bank, pass, o, index, root, table)
            } else {
                look_past(bank, pass, o, index, root, table)
            }
        }
        None => look_bare(bank, pass, o),
    }
}

/// Looks up an item without the lock; the pass is online. A root changes at most twice for each table, so
/// the rounds end.
#[inline(always)]
pub(crate) fn find_item(bank: &Bank, pass: &mut Pass, o: u32, index: u64) -> LookedItem
    requires pass { IsPassOf bank.now pass.old }
    requires container { o < container_count (shape_of bank.now) }
    requires list { kind_in (shape_of bank.now).starts o ≡ kind.List }
    requires online { 0 < announces (view pass.old).log }
    requires settled { IsSettled (view pass.old).log }
    requires few { HoldsFew (view pass.old) }
    ensures pass { IsPassOf bank.now pass.new }
    ensures keeps { OnlyLooked (view pass.old) (view pass.new) }
    ensures looked { (part : List Act) × AreLookSteps part × DidAll part pass.old pass.new
        × ShowsFound (shape_of bank.now) o index part (view pass.new).log result }
{
    let mut root = bank.read_root(pass, o);
    'rounds: loop {
        match look_round(bank, pass, o, index, root) {
            ItemRound::Ended(found) => return found,
            ItemRound::Moved(next) => root = next,
        }
    }
}
