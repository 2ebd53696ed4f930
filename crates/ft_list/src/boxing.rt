//! Calls that put a value in a list which stands in a box that the caller made: the reference that the pass holds is the
//! list's then. Where the list has the value already, or the call isn't made, the reference is dropped.
ghost use Rattle.std.specs.List.{insert};
ghost use Rattle.std.specs.Prelude.{◌≡◌, ◌≢◌, ◌↔◌, IsTrue, ℕ, ℤ, ◌<◌, ◌≤◌, true, false, length, Some, None, slice_set};
ghost use Rattle.ft_model.specs.Boxings.{boxes, is_boxed};
ghost use Rattle.ft_model.specs.Lists.{clamped_in, index_in};
ghost use Rattle.ft_model.specs.TableUses.{StoredWorld};
ghost use Rattle.ft_model.specs.declared.call.Call.TheVariants as call;
ghost use Rattle.ft_model.specs.declared.call.ListCall.{ListCall};
ghost use Rattle.ft_model.specs.declared.call.ListCall.TheVariants as list;
ghost use Rattle.ft_model.specs.declared.reply.Raise.TheVariants as raise;
ghost use Rattle.ft_model.specs.declared.reply.Reply.TheVariants as reply;
ghost use Rattle.ft_layout.specs.declared.slot.Stored.TheVariants.{Plain};
ghost use Rattle.ft_layout.specs.Words.{FitsStored};
ghost use Rattle.ft_trace.specs.Acts.{flight, used};
ghost use Rattle.ft_trace.specs.Boxes.{IsSettled};
ghost use Rattle.ft_bank.specs.Passes.{shape_of, view, IsPassOf};
ghost use Rattle.ft_bank.specs.PassSections.{stack_of};
ghost use Rattle.ft_bank.specs.Whole.{OnlyLoaded};
ghost use Rattle.ft_search.specs.OneEntryWrites.{HasTable};
ghost use Rattle.ft_boxes.specs.References.{box_of};
ghost use Rattle.ft_search.specs.HeldValues.{HoldsValue};
ghost use Rattle.ft_list.specs.HeldValues.{AddsHeldItem, MadeHeld, NamesBoxAtPlace};
ghost use Rattle.ft_list.specs.Internal.StoredBoxes.{WroteHeld};
ghost use Rattle.ft_list.specs.ListItemWrites.{known_items, stored_item};
ghost use Rattle.ft_list.specs.ListWrites.{Adds, Changes, MayBeginList};

use crate::adding::{add_to, clamped};
use crate::addition::Addition;
use crate::locked::{LENGTH, place_in, raise, table_at_root, value_fits};
use crate::reads::read_stored;
use crate::writes::set_item;
use ft_bank::{Bank, Pass, Table};
use ft_boxes::{Held, keep, release};
use ft_layout::{Ref, Stored};
use ft_model::{Call, ListCall, Raise, Reply, Value};
use ft_section::{Object, Stamp};
use ft_table_calls::{Added, drop_unmade};

/// The table of a list that isn't empty.
fn table_in(bank: &Bank, pass: &mut Pass, l: Object) -> Table
    requires pass { IsPassOf bank.now pass.old }
    requires may { MayBeginList (shape_of bank.now) l (view pass.old) }
    requires some { length (known_items l (view pass.old)) ≢ 0 }
    ensures pass { IsPassOf bank.now pass.new }
    ensures stack { stack_of pass.new ≡ stack_of pass.old }
    ensures only { OnlyLoaded (view pass.old) (view pass.new) }
    ensures table { HasTable (shape_of bank.now) l result (view pass.new) }
{
    match table_at_root(bank, pass, l) {
        Some(table) => table,
        None => unreachable!(),
    }
}

/// Whether what an item stores is this value.
fn is_value(stored: Stored, value: Value) -> bool
    ensures { IsTrue result ↔ (stored ≡ Plain value) }
{
    match stored {
        Stored::Plain(found) => found == value,
        Stored::Empty | Stored::Boxed(_) => false,
    }
}

/// Has the item at a place store the value in the box, as the write of this call. An item that has the value already is
/// left alone, and the reference is dropped. Answers the number of the write.
fn set_box(
    bank: &Bank,
    pass: &mut Pass,
    l: Object,
    table: Table,
    place: u64,
    value: Value,
    held: Held,
    called: &Call,
) -> u64
    requires pass { IsPassOf bank.now pass.old }
    requires may { MayBeginList (shape_of bank.now) l (view pass.old) }
    requires held { HoldsValue (box_of held) value (view pass.old) }
    requires boxed { is_boxed value ≡ true }
    requires value { FitsStored (Plain value) }
    requires table { HasTable (shape_of bank.now) l table (view pass.old) }
    requires place { place < length (known_items l (view pass.old)) }
    requires call { (index : ℤ) × (called.now ≡ call.List l (list.Set index value)) × Changes l (list.Set index value)
        reply.Done (known_items l (view pass.old)) (slice_set (known_items l (view pass.old)) place value) (view pass.old) }
    ensures pass { IsPassOf bank.now pass.new }
    ensures stack { stack_of pass.new ≡ stack_of pass.old }
    ensures names { stored_item (known_items l (view pass.old)) place ≢ Plain value →
        NamesBoxAtPlace l place (box_of held) (view pass.new) }
    ensures wrote { WroteHeld (shape_of bank.now) l called.now result (view pass.old) (view pass.new) }
{
    let old = read_stored(bank, pass, l, table, place);
    if is_value(old, value) {
        release(bank, pass, held);
        let plain = Stored::Plain(value);
        return set_item(
            bank,
            pass,
            l,
            table,
            place,
            value,
            plain,
            called,
            &Reply::Done,
        );
    }
    let stored = Stored::Boxed(keep(bank, pass, held));
    set_item(
        bank,
        pass,
        l,
        table,
        place,
        value,
        stored,
        called,
        &Reply::Done,
    )
}

/// `l[i] = v`, under the lock, where `v` stands in a box for which the pass holds the one reference. The item names that box
/// then, unless it had an equal value already.
pub fn set_held(
    bank: &Bank,
    pass: &mut Pass,
    l: Object,
    index: i64,
    value: Value,
    held: Held,
) -> (Reply, Stamp)
    requires pass { IsPassOf bank.now pass.old }
    requires may { MayBeginList (shape_of bank.now) l (view pass.old) }
    requires held { HoldsValue (box_of held) value (view pass.old) }
    requires boxed { is_boxed value ≡ true }
    ensures pass { IsPassOf bank.now pass.new }
    ensures stack { stack_of pass.new ≡ stack_of pass.old }
    ensures made { MadeHeld (shape_of bank.now) (call.List l (list.Set index value)) result.0 result.1 (view pass.old)
        (view pass.new) }
    ensures done { (place : ℕ) → index_in (length (known_items l (view pass.old))) index ≡ Some place →
        (result.0 ≡ reply.Done) × (result.1.wrote ≡ true) }
    ensures names { (place : ℕ) → index_in (length (known_items l (view pass.old))) index ≡ Some place →
        stored_item (known_items l (view pass.old)) place ≢ Plain value → NamesBoxAtPlace l place (box_of held) (view pass.new) }
    ensures raises { index_in (length (known_items l (view pass.old))) index ≡ None →
        (result.0 ≡ reply.Raised raise.NoIndex) × (result.1.wrote ≡ false) }
{
    let called = Call::List {
        container: l,
        call: ListCall::Set { index, value },
    };
    let count = bank.read_block(pass, l, LENGTH);
    match place_in(count, index) {
        Some(place) => {
            value_fits(value);
            let table = table_in(bank, pass, l);
            let number = set_box(bank, pass, l, table, place, value, held, &called);
            (
                Reply::Done,
                Stamp {
                    number,
                    wrote: true,
                },
            )
        }
        None => {
            release(bank, pass, held); // no item is to name the box
            let said = Reply::Raised(Raise::NoIndex);
            let stamp = raise(bank, pass, l, &called, &said);
            (said, stamp)
        }
    }
}

/// A value in a box that is to be an item of a list.
#[derive(Clone, Copy)]
struct BoxedItem {
    /// The item before which it is added.
    place: u64,
    /// The value.
    value: Value,
    /// The box in which it stands.
    at: Ref,
}

/// Adds a value in a box, for which the pass holds the one reference, to a list of that many items, as the write of this
/// call. Where the call isn't made the reference is dropped.
fn add_box(
    bank: &Bank,
    pass: &mut Pass,
    l: Object,
    count: u64,
    item: BoxedItem,
    called: &Call,
) -> Added
    requires pass { IsPassOf bank.now pass.old }
    requires may { MayBeginList (shape_of bank.now) l (view pass.old) }
    requires used { used (view pass.old).log ≡ false }
    requires idle { flight (view pass.old).log ≡ 0 }
    requires held { HoldsValue item.at item.value (view pass.old) }
    requires boxed { is_boxed item.value ≡ true }
    requires count { (count ≡ length (known_items l (view pass.old))) × (item.place ≤ count) }
    requires call { (lc : ListCall) × (called.now ≡ call.List l lc) × Adds l lc (known_items l (view pass.old))
        (insert (known_items l (view pass.old)) item.place item.value) (view pass.old) }
    requires boxing { (world : StoredWorld) → boxes world.world called.now ≡ is_boxed item.value }
    ensures pass { IsPassOf bank.now pass.new }
    ensures stack { stack_of pass.new ≡ stack_of pass.old }
    ensures added { AddsHeldItem (shape_of bank.now) l item.place item.value item.at called.now (view pass.old) (view pass.new)
        result }
{
    let old = table_at_root(bank, pass, l);
    let addition = Addition::One {
        place: item.place,
        value: item.value,
        stored: Stored::Boxed(item.at),
    };
    let added = add_to(bank, pass, l, old, addition, count, called);
    drop_unmade(bank, pass, item.at, added);
    added
}

/// `l.append(v)`, under the lock, where `v` stands in a box for which the pass holds the one reference. The item names that
/// box then. Where the call isn't made the reference is dropped: who makes it again makes a box again.
///
/// # Errors
///
/// As those of `append_by`.
pub fn append_held(bank: &Bank, pass: &mut Pass, l: Object, value: Value, held: Held) -> Added
    requires pass { IsPassOf bank.now pass.old }
    requires may { MayBeginList (shape_of bank.now) l (view pass.old) }
    requires used { used (view pass.old).log ≡ false }
    requires idle { flight (view pass.old).log ≡ 0 }
    requires held { HoldsValue (box_of held) value (view pass.old) }
    requires boxed { is_boxed value ≡ true }
    ensures pass { IsPassOf bank.now pass.new }
    ensures stack { stack_of pass.new ≡ stack_of pass.old }
    ensures added { AddsHeldItem (shape_of bank.now) l (length (known_items l (view pass.old))) value (box_of held)
        (call.List l (list.Append value)) (view pass.old) (view pass.new) result }
{
    value_fits(value);
    let called = Call::List {
        container: l,
        call: ListCall::Append { value },
    };
    let count = bank.read_block(pass, l, LENGTH);
    let item = BoxedItem {
        place: count,
        value,
        at: keep(bank, pass, held),
    };
    add_box(bank, pass, l, count, item, &called)
}

/// `l.insert(i, v)`, under the lock, where `v` stands in a box for which the pass holds the one reference. The item names
/// that box then; where an equal value stood there already, and maybe at the next places, the first item after them does.
/// Where the call isn't made the reference is dropped: who makes it again makes a box again.
///
/// # Errors
///
/// As those of `append_by`.
pub fn insert_held(
    bank: &Bank,
    pass: &mut Pass,
    l: Object,
    index: i64,
    value: Value,
    held: Held,
) -> Added
    requires pass { IsPassOf bank.now pass.old }
    requires may { MayBeginList (shape_of bank.now) l (view pass.old) }
    requires used { used (view pass.old).log ≡ false }
    requires idle { flight (view pass.old).log ≡ 0 }
    requires held { HoldsValue (box_of held) value (view pass.old) }
    requires boxed { is_boxed value ≡ true }
    ensures pass { IsPassOf bank.now pass.new }
    ensures stack { stack_of pass.new ≡ stack_of pass.old }
    ensures added { AddsHeldItem (shape_of bank.now) l (clamped_in (length (known_items l (view pass.old))) index) value
        (box_of held) (call.List l (list.Insert index value)) (view pass.old) (view pass.new) result }
{
    value_fits(value);
    let called = Call::List {
        container: l,
        call: ListCall::Insert { index, value },
    };
    let count = bank.read_block(pass, l, LENGTH);
    let item = BoxedItem {
        place: clamped(count, index),
        value,
        at: keep(bank, pass, held),
    };
    add_box(bank, pass, l, count, item, &called)
}
