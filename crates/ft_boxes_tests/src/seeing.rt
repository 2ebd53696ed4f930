//! The name of a box that an item of a list has, read without the lock of the list: what a pass has to have read before it
//! raises the box.
ghost use Rattle.std.specs.Prelude.{◌≡◌, ℕ, ◌+◌, ◌<◌, suc, List, [], ◌∷◌, IfSome};
ghost use Rattle.ft_model.specs.declared.script.Kind.TheVariants as kind;
ghost use Rattle.ft_trace.specs.declared.Act.{Act};
ghost use Rattle.ft_trace.specs.declared.Act.TheVariants.{ReadRoot, ReadTable};
ghost use Rattle.ft_trace.specs.Acts.{announces};
ghost use Rattle.ft_trace.specs.Addresses.{container_count, class_of, slots};
ghost use Rattle.ft_trace.specs.ContainerStates.{kind_in};
ghost use Rattle.ft_trace.specs.Pictures.{item_offset};
ghost use Rattle.ft_trace.specs.SeenBoxes.{SawBox};
ghost use Rattle.ft_bank.specs.BoxSteps.{box_id, IsBoxIn};
ghost use Rattle.ft_bank.specs.Passes.{shape_of, view, IsPassOf};
ghost use Rattle.ft_bank.specs.PassSections.{stack_of};
ghost use Rattle.ft_bank.specs.Series.{DidAll};
ghost use Rattle.ft_bank.specs.TableNames.{table_id, IsPlaceOf, IsTableIn};
ghost use Rattle.ft_bank.specs.Whole.{OnlyLoaded};
ghost use Rattle.ft_boxes_tests.specs.Seeing.{item_acts};

use ft_bank::{Bank, Pass, Table};
use ft_layout::{Ref, item_at, item_word, list_items};
use ft_search::table_at;

/// How many words of a table come before those that a bank counts.
const HEADER: u64 = 2;
/// The kind of a value that stands in a box.
const BOX_KIND: u64 = 4;
/// The step between the names of two passes' first boxes.
const NAMES: u64 = 65536;

/// What was loaded of an item, in the order of the loads.
#[derive(Clone, Copy)]
pub(crate) struct SeenItem {
    /// The version at first.
    pub(crate) opened: u64,
    /// The kind of the value.
    pub(crate) kind: u64,
    /// The payload of the value.
    pub(crate) payload: u64,
    /// The version at last.
    pub(crate) closed: u64,
}

/// Loads a word of an item of the table whose words begin there.
fn load_word(bank: &Bank, pass: &mut Pass, table: Table, start: u64, index: u64, word: u64) -> u64
    requires pass { IsPassOf bank.now pass.old }
    requires table { IsTableIn (shape_of bank.now) table }
    requires place { IsPlaceOf (shape_of bank.now) table start }
    requires index { index < slots (class_of (table_id table)) }
    requires word { word < 4 }
    ensures pass { IsPassOf bank.now pass.new }
    ensures did { DidAll (ReadTable (table_id table) (item_offset index word) result ∷ []) pass.old pass.new }
{
    bank.read_word(pass, table, start, item_at(index, word) - HEADER)
}

/// Loads the value of an item between two loads of its version.
fn see_item(bank: &Bank, pass: &mut Pass, table: Table, index: u64) -> SeenItem
    requires pass { IsPassOf bank.now pass.old }
    requires table { IsTableIn (shape_of bank.now) table }
    requires index { index < slots (class_of (table_id table)) }
    ensures pass { IsPassOf bank.now pass.new }
    ensures did { DidAll (item_acts (table_id table) index result) pass.old pass.new }
    ensures only { OnlyLoaded (view pass.old) (view pass.new) }
{
    let start = bank.cell_of(table);
    let opened = load_word(bank, pass, table, start, index, item_word::VERSION);
    let kind = load_word(bank, pass, table, start, index, item_word::VALUE_KIND);
    let payload = load_word(bank, pass, table, start, index, item_word::VALUE);
    let closed = load_word(bank, pass, table, start, index, item_word::VERSION);
    SeenItem {
        opened,
        kind,
        payload,
        closed,
    }
}

/// The box that a payload names, if the bank has its place.
fn box_named(bank: &Bank, payload: u64) -> Option<Ref>
    ensures name { IfSome result (IsBoxIn (shape_of bank.now)) }
    ensures is { IfSome result (λ b. box_id b ≡ payload) }
{
    let maker = payload / NAMES;
    let place = payload % NAMES;
    if u64::from(bank.passes()) <= maker || u64::from(bank.heap()) <= place {
        return None;
    }
    Some(Ref {
        pass: maker as u32,
        place: place as u32,
    })
}

/// Sees the name of the box that an item has, in the table that the root of the list was read last to name.
fn see_in(bank: &Bank, pass: &mut Pass, l: u32, index: u64, table: Table) -> Option<Ref>
    requires pass { IsPassOf bank.now pass.old }
    requires container { l < container_count (shape_of bank.now) }
    requires list { kind_in (shape_of bank.now).starts l ≡ kind.List }
    requires table { IsTableIn (shape_of bank.now) table }
    requires index { index < slots (class_of (table_id table)) }
    requires last { (rest : List Act) × ((view pass.old).log ≡ ReadRoot l (suc (table_id table)) ∷ rest) }
    ensures pass { IsPassOf bank.now pass.new }
    ensures stack { stack_of pass.new ≡ stack_of pass.old }
    ensures only { OnlyLoaded (view pass.old) (view pass.new) }
    ensures name { IfSome result (IsBoxIn (shape_of bank.now)) }
    ensures saw { IfSome result (λ b. SawBox (shape_of bank.now) (box_id b) (view pass.new).log) }
{
    let _ = l;
    let seen = see_item(bank, pass, table, index);
    if seen.closed != seen.opened {
        return None;
    }
    if seen.opened % 2 != 0 {
        return None;
    }
    if seen.kind != BOX_KIND {
        return None;
    }
    box_named(bank, seen.payload)
}

/// The box that an item of a list has, without the list's lock; the pass is online. Nothing where the list has no such
/// item, its value stands in place, or its version was odd or not the same before and after.
pub fn see_name(bank: &Bank, pass: &mut Pass, l: u32, index: u64) -> Option<Ref>
    requires pass { IsPassOf bank.now pass.old }
    requires container { l < container_count (shape_of bank.now) }
    requires list { kind_in (shape_of bank.now).starts l ≡ kind.List }
    requires online { 0 < announces (view pass.old).log }
    ensures pass { IsPassOf bank.now pass.new }
    ensures stack { stack_of pass.new ≡ stack_of pass.old }
    ensures only { OnlyLoaded (view pass.old) (view pass.new) }
    ensures name { IfSome result (IsBoxIn (shape_of bank.now)) }
    ensures saw { IfSome result (λ b. SawBox (shape_of bank.now) (box_id b) (view pass.new).log) }
{
    let root = bank.read_root(pass, l);
    let table = table_at(bank, root)?;
    if index < list_items(table.class) {
        see_in(bank, pass, l, index, table)
    } else {
        None
    }
}
