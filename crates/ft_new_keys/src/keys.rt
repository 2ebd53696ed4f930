//! A key that isn't there is added to a dict or a set by a pass that has the lock: in the table that the
//! container has, or in another one, or it isn't for want of a table.
ghost use Rattle.std.specs.Prelude.{◌≡◌, ℕ, ◌+◌, ◌^◌, ◌<◌, ◌≤◌, nat_lt, false, Option, Some, None, IfSome};
ghost use Rattle.ft_model.specs.declared.content.Content.{Content};
ghost use Rattle.ft_model.specs.declared.script.Kind.TheVariants as kind;
ghost use Rattle.ft_model.specs.Classes.{IsClass};
ghost use Rattle.ft_model.specs.Worlds.{kind_of, length_of, serial_of};
ghost use Rattle.ft_layout.specs.declared.slot.Stored.TheVariants.{Plain};
ghost use Rattle.ft_layout.specs.Words.{FitsKey, FitsStored};
ghost use Rattle.ft_keys.specs.declared.walk.Way.TheVariants as way;
ghost use Rattle.ft_trace.specs.Holds.{held_unboxed, known_state};
ghost use Rattle.ft_trace.specs.ContainerStates.{kind_in};
ghost use Rattle.ft_bank.specs.declared.table.Table.{Table};
ghost use Rattle.ft_bank.specs.KeyHashes.{IsKeyIn};
ghost use Rattle.ft_bank.specs.Passes.{shape_of, view, IsPassOf};
ghost use Rattle.ft_bank.specs.PassSections.{stack_of};
ghost use Rattle.ft_boxes.specs.References.{box_of};
ghost use Rattle.ft_search.specs.Held.{IsHeldAt};
ghost use Rattle.ft_search.specs.Rounds.{kind_by};
ghost use Rattle.ft_new_keys.specs.HeldKeys.{AddsHeldKey, HoldsFor, IsPut, MayPutKey, PutsInBox, PutsOne};
ghost use Rattle.ft_new_keys.specs.KeyGrowth.{AddsKey, AddsOne, IsFreeFor, MayAddKey, key_takes, keys_take, most_of, use_of};
ghost use Rattle.ft_new_keys.specs.Placing.{AreCounts, StoresAs};

use crate::counts::{Counts, read_counts};
use crate::growth::add_in_new;
use crate::naming::NewValue;
use crate::room::add_in_room;
use ft_bank::{Bank, Pass, Table, Took};
use ft_boxes::{Held, keep};
use ft_keys::Way;
use ft_layout::{Stored, words_are_of_one_content};
use ft_model::{
    Call, KeptTable, Key, MOST_ELEMENTS, MOST_PAIRS, Reply, Value, taken_by_dict, taken_by_set,
};
use ft_qsbr::take;
use ft_section::Stamp;
use ft_table_calls::{Added, answer_no_table, answer_over, drop_unmade, retire_old};

/// How many keys a container has at most that is searched this way: as many as the largest table holds.
pub fn most_keys(way: Way) -> u64
    ensures most { (content : Content) → kind_of content ≡ kind_by way → result ≡ most_of content }
    ensures few { result < 65536 }
{
    match way {
        Way::Dict => MOST_PAIRS as u64,
        Way::Set => MOST_ELEMENTS as u64,
    }
}

/// The class of the table that a dict or a set takes for that many more keys, which has this table or none.
pub fn class_wanted(way: Way, old: Option<Table>, counts: Counts, more: u64) -> Option<u32>
    requires table { (t : Table) → old ≡ Some t → IsClass t.class }
    requires few { counts.count + more ≤ 65536 }
    ensures class { (content : Content) → kind_of content ≡ kind_by way → length_of content ≡ counts.count →
        result ≡ keys_take content (use_of old counts.fill) more }
    ensures range { IfSome result (λ class. IsClass class) }
{
    let class = match old {
        Some(table) => Some(table.class),
        None => None,
    };
    let table = KeptTable {
        class,
        fill: counts.fill,
    };
    match way {
        Way::Dict => taken_by_dict(table, more, counts.count + more),
        Way::Set => taken_by_set(table, more, counts.count + more),
    }
}

/// Adds a key to a dict or a set whose table has room for it, as the write of this call.
fn add_here(
    bank: &Bank,
    pass: &mut Pass,
    o: u32,
    way: Way,
    old: Option<Table>,
    slot: u64,
    counts: Counts,
    key: Key,
    value: NewValue,
    called: &Call,
    said: &Reply,
) -> Added
    requires pass { IsPassOf bank.now pass.old }
    requires may { MayPutKey (shape_of bank.now) o old (view pass.old) }
    requires holds { HoldsFor value.boxed value.stored (view pass.old) }
    requires boxing { PutsInBox value.boxed called.now (view pass.old) }
    requires way { kind_in (shape_of bank.now).starts o ≡ kind_by way }
    requires key { IsKeyIn (shape_of bank.now) key }
    requires fits { FitsKey key }
    requires slot { (t : Table) → old ≡ Some t →
        IsFreeFor (shape_of bank.now).texts way t.class key (held_unboxed o (view pass.old)).table slot }
    requires absent { IsHeldAt (known_state o (view pass.old)).content key None }
    requires counts { AreCounts (held_unboxed o (view pass.old)).block counts }
    requires few { counts.count < most_of (known_state o (view pass.old)).content }
    requires serials { serial_of (known_state o (view pass.old)).content < 2 ^ 63 }
    requires stores { StoresAs (kind_by way) value.stored }
    requires value { FitsStored value.stored }
    requires adds { AddsKey o called.now said.now key value.stored (view pass.old) }
    requires room { key_takes (known_state o (view pass.old)).content (known_state o (view pass.old)).table ≡ None }
    ensures pass { IsPassOf bank.now pass.new }
    ensures stack { stack_of pass.new ≡ stack_of pass.old }
    ensures put { IsPut (shape_of bank.now) o key value.boxed None false called.now said.now (view pass.old)
        (view pass.new) result }
{
    words_are_of_one_content();
    match old {
        Some(table) => {
            let number = add_in_room(
                bank, pass, o, way, table, slot, counts, key, value, called, said,
            );
            Added::Made(Stamp {
                number,
                wrote: true,
            })
        }
        None => unreachable!(),
    }
}

/// Takes a table of a class for a dict or a set and adds a key there, as the write of this call; the table that
/// it had is retired.
fn add_in_taken(
    bank: &Bank,
    pass: &mut Pass,
    o: u32,
    way: Way,
    old: Option<Table>,
    class: u32,
    counts: Counts,
    key: Key,
    value: NewValue,
    called: &Call,
    said: &Reply,
) -> Added
    requires pass { IsPassOf bank.now pass.old }
    requires may { MayPutKey (shape_of bank.now) o old (view pass.old) }
    requires holds { HoldsFor value.boxed value.stored (view pass.old) }
    requires boxing { PutsInBox value.boxed called.now (view pass.old) }
    requires way { kind_in (shape_of bank.now).starts o ≡ kind_by way }
    requires key { IsKeyIn (shape_of bank.now) key }
    requires fits { FitsKey key }
    requires absent { IsHeldAt (known_state o (view pass.old)).content key None }
    requires counts { AreCounts (held_unboxed o (view pass.old)).block counts }
    requires few { counts.count < most_of (known_state o (view pass.old)).content }
    requires serials { serial_of (known_state o (view pass.old)).content < 2 ^ 63 }
    requires stores { StoresAs (kind_by way) value.stored }
    requires value { FitsStored value.stored }
    requires adds { AddsKey o called.now said.now key value.stored (view pass.old) }
    requires class { IsClass class }
    requires takes { key_takes (known_state o (view pass.old)).content (known_state o (view pass.old)).table
        ≡ Some class }
    ensures pass { IsPassOf bank.now pass.new }
    ensures stack { stack_of pass.new ≡ stack_of pass.old }
    ensures put { IsPut (shape_of bank.now) o key value.boxed (Some class) false called.now said.now (view pass.old)
        (view pass.new) result }
{
    words_are_of_one_content();
    match take(bank, pass, class) {
        Took::Taken(table) => {
            let number = add_in_new(
                bank, pass, o, way, old, table, counts, key, value, called, said,
            );
            retire_old(bank, pass, old);
            Added::Made(Stamp {
                number,
                wrote: true,
            })
        }
        Took::AllTaken => Added::NoTable(class, answer_no_table(bank, pass, called, class)),
        Took::Moved(first, second) => Added::Moved(first, second),
    }
}

/// Adds a key that isn't there to a dict or a set whose lock the pass has, as the write of this call, which replies so: see
/// [`add_key`]. Its value stands in a box for which the pass holds the one reference, which is the entry's then, or in its
/// place.
fn add_new(
    bank: &Bank,
    pass: &mut Pass,
    o: u32,
    way: Way,
    old: Option<Table>,
    slot: u64,
    key: Key,
    value: NewValue,
    called: &Call,
    said: &Reply,
) -> Added
    requires pass { IsPassOf bank.now pass.old }
    requires may { MayPutKey (shape_of bank.now) o old (view pass.old) }
    requires holds { HoldsFor value.boxed value.stored (view pass.old) }
    requires boxing { PutsInBox value.boxed called.now (view pass.old) }
    requires way { kind_in (shape_of bank.now).starts o ≡ kind_by way }
    requires key { IsKeyIn (shape_of bank.now) key }
    requires fits { FitsKey key }
    requires slot { (t : Table) → old ≡ Some t →
        IsFreeFor (shape_of bank.now).texts way t.class key (held_unboxed o (view pass.old)).table slot }
    requires absent { IsHeldAt (known_state o (view pass.old)).content key None }
    requires serials { serial_of (known_state o (view pass.old)).content < 2 ^ 63 }
    requires stores { StoresAs (kind_by way) value.stored }
    requires value { FitsStored value.stored }
    requires adds { AddsKey o called.now said.now key value.stored (view pass.old) }
    ensures pass { IsPassOf bank.now pass.new }
    ensures stack { stack_of pass.new ≡ stack_of pass.old }
    ensures put { PutsOne (shape_of bank.now) o key value.boxed called.now said.now (view pass.old) (view pass.new)
        result }
{
    words_are_of_one_content();
    let counts = read_counts(bank, pass, o);
    if counts.count >= most_keys(way) {
        return Added::Over(answer_over(bank, pass, called));
    }
    match class_wanted(way, old, counts, 1) {
        Some(class) => add_in_taken(
            bank, pass, o, way, old, class, counts, key, value, called, said,
        ),
        None => add_here(
            bank, pass, o, way, old, slot, counts, key, value, called, said,
        ),
    }
}

/// Adds a key that isn't there to a dict or a set whose lock the pass has, as the write of this call, which
/// replies so. The container's root names this table, and the slot is the first for the key there that was never
/// used; or it names none, and the slot says nothing.
///
/// # Errors
///
/// `NoTable` where the container needs another table, of the class for its new size, and the count of the class
/// was 0; `Over` where it has as many keys as the largest table holds; `Moved` where two steps found a word of
/// the class's free tables changed.
pub fn add_key(
    bank: &Bank,
    pass: &mut Pass,
    o: u32,
    way: Way,
    old: Option<Table>,
    slot: u64,
    key: Key,
    stored: Stored,
    called: &Call,
    said: &Reply,
) -> Added
    requires pass { IsPassOf bank.now pass.old }
    requires may { MayAddKey (shape_of bank.now) o old (view pass.old) }
    requires way { kind_in (shape_of bank.now).starts o ≡ kind_by way }
    requires key { IsKeyIn (shape_of bank.now) key }
    requires fits { FitsKey key }
    requires slot { (t : Table) → old ≡ Some t →
        IsFreeFor (shape_of bank.now).texts way t.class key (held_unboxed o (view pass.old)).table slot }
    requires absent { IsHeldAt (known_state o (view pass.old)).content key None }
    requires serials { serial_of (known_state o (view pass.old)).content < 2 ^ 63 }
    requires stores { StoresAs (kind_by way) stored }
    requires value { FitsStored stored }
    requires adds { AddsKey o called.now said.now key stored (view pass.old) }
    ensures pass { IsPassOf bank.now pass.new }
    ensures stack { stack_of pass.new ≡ stack_of pass.old }
    ensures added { AddsOne (shape_of bank.now) o called.now said.now (view pass.old) (view pass.new) result }
{
    let value = NewValue {
        stored,
        boxed: None,
    };
    add_new(bank, pass, o, way, old, slot, key, value, called, said)
}

/// Adds a key that isn't there to a dict whose lock the pass has, as [`add_key`] does, and has its value stand in a box for
/// which the pass holds the one reference: the new entry names the box. Where the write isn't made the reference is dropped.
/// `at` is the table that the root names and the slot there.
///
/// # Errors
///
/// Those of [`add_key`].
pub fn add_held(
    bank: &Bank,
    pass: &mut Pass,
    d: u32,
    at: (Option<Table>, u64),
    key: Key,
    value: Value,
    held: Held,
    called: &Call,
    said: &Reply,
) -> Added
    requires pass { IsPassOf bank.now pass.old }
    requires may { MayPutKey (shape_of bank.now) d at.0 (view pass.old) }
    requires holds { HoldsFor (Some (box_of held)) (Plain value) (view pass.old) }
    requires boxing { PutsInBox (Some (box_of held)) called.now (view pass.old) }
    requires dict { kind_in (shape_of bank.now).starts d ≡ kind.Dict }
    requires key { IsKeyIn (shape_of bank.now) key }
    requires fits { FitsKey key }
    requires slot { (t : Table) → at.0 ≡ Some t →
        IsFreeFor (shape_of bank.now).texts way.Dict t.class key (held_unboxed d (view pass.old)).table at.1 }
    requires absent { IsHeldAt (known_state d (view pass.old)).content key None }
    requires serials { serial_of (known_state d (view pass.old)).content < 2 ^ 63 }
    requires value { FitsStored (Plain value) }
    requires adds { AddsKey d called.now said.now key (Plain value) (view pass.old) }
    ensures pass { IsPassOf bank.now pass.new }
    ensures stack { stack_of pass.new ≡ stack_of pass.old }
    ensures put { AddsHeldKey (shape_of bank.now) d key (box_of held) called.now said.now (view pass.old) (view pass.new)
        result }
{
    let (old, slot) = at;
    let b = keep(bank, pass, held);
    let value = NewValue {
        stored: Stored::Plain(value),
        boxed: Some(b),
    };
    let added = add_new(
        bank,
        pass,
        d,
        Way::Dict,
        old,
        slot,
        key,
        value,
        called,
        said,
    );
    drop_unmade(bank, pass, b, added);
    added
}
