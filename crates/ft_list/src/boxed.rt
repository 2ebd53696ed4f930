//! Calls that put a value in a list which belongs in a box: an integer that isn't small, or a string. The pass makes the box
//! in its own heap, under the lock and before a table is taken.
ghost use Rattle.std.specs.Prelude.{◌≡◌, true, false, length};
ghost use Rattle.ft_model.specs.Boxings.{is_boxed};
ghost use Rattle.ft_model.specs.Lists.{clamped_in};
ghost use Rattle.ft_model.specs.declared.call.Call.TheVariants as call;
ghost use Rattle.ft_model.specs.declared.call.ListCall.TheVariants as list;
ghost use Rattle.ft_trace.specs.Acts.{flight, used};
ghost use Rattle.ft_trace.specs.Boxes.{IsDoneWithBoxes};
ghost use Rattle.ft_bank.specs.Passes.{shape_of, view, IsPassOf};
ghost use Rattle.ft_bank.specs.PassSections.{stack_of};
ghost use Rattle.ft_table_calls.specs.Adding.{KeepsCursors};
ghost use Rattle.ft_list.specs.BoxedCalls.{AddsBoxed, SetsBoxed};
ghost use Rattle.ft_list.specs.ListItemWrites.{known_items};
ghost use Rattle.ft_list.specs.ListWrites.{MayWriteList};

use crate::boxing::{append_held, insert_held, set_held};
use crate::locked::{count_of, place_in, raise, value_fits};
use ft_bank::{Bank, Pass};
use ft_boxes::{Made, make};
use ft_model::{Call, ListCall, MOST_ITEMS, Raise, Reply, Value};
use ft_section::{Object, Stamp};
use ft_table_calls::{Added, answer_full, answer_over};

/// `l.append(v)`, by a pass that has the list's lock (Python manual, Mutable Sequence Types), where `v` belongs in a box.
///
/// # Errors
///
/// `NoPlace` where no place of the pass's heap is free; else as those of `append_by`.
#[inline(never)]
pub fn append_boxed(bank: &Bank, pass: &mut Pass, l: Object, value: Value) -> Added
    requires pass { IsPassOf bank.now pass.old }
    requires may { MayWriteList (shape_of bank.now) l (view pass.old) }
    requires used { used (view pass.old).log ≡ false }
    requires idle { flight (view pass.old).log ≡ 0 }
    requires boxed { is_boxed value ≡ true }
    ensures pass { IsPassOf bank.now pass.new }
    ensures stack { stack_of pass.new ≡ stack_of pass.old }
    ensures added { AddsBoxed (shape_of bank.now) l (length (known_items l (view pass.old))) value
        (call.List l (list.Append value)) (view pass.old) (view pass.new) result }
    ensures cursors { KeepsCursors (view pass.old) (view pass.new) }
    ensures boxes { IsDoneWithBoxes (shape_of bank.now) (view pass.new).log }
{
    value_fits(value);
    let called = Call::List {
        container: l,
        call: ListCall::Append { value },
    };
    let count = count_of(bank, pass, l);
    if count + 1 > MOST_ITEMS as u64 {
        return Added::Over(answer_over(bank, pass, &called));
    }
    match make(bank, pass, value) {
        Made::Up(held) => append_held(bank, pass, l, value, held),
        Made::HeapFull => Added::NoPlace(answer_full(bank, pass, &called)),
    }
}

/// `l.insert(i, v)`, by a pass that has the list's lock (Python manual, Mutable Sequence Types), where `v` belongs in a box.
///
/// # Errors
///
/// As those of `append_boxed`.
#[inline(never)]
pub fn insert_boxed(bank: &Bank, pass: &mut Pass, l: Object, index: i64, value: Value) -> Added
    requires pass { IsPassOf bank.now pass.old }
    requires may { MayWriteList (shape_of bank.now) l (view pass.old) }
    requires used { used (view pass.old).log ≡ false }
    requires idle { flight (view pass.old).log ≡ 0 }
    requires boxed { is_boxed value ≡ true }
    ensures pass { IsPassOf bank.now pass.new }
    ensures stack { stack_of pass.new ≡ stack_of pass.old }
    ensures added { AddsBoxed (shape_of bank.now) l (clamped_in (length (known_items l (view pass.old))) index) value
        (call.List l (list.Insert index value)) (view pass.old) (view pass.new) result }
    ensures cursors { KeepsCursors (view pass.old) (view pass.new) }
    ensures boxes { IsDoneWithBoxes (shape_of bank.now) (view pass.new).log }
{
    value_fits(value);
    let called = Call::List {
        container: l,
        call: ListCall::Insert { index, value },
    };
    let count = count_of(bank, pass, l);
    if count + 1 > MOST_ITEMS as u64 {
        return Added::Over(answer_over(bank, pass, &called));
    }
    match make(bank, pass, value) {
        Made::Up(held) => insert_held(bank, pass, l, index, value, held),
        Made::HeapFull => Added::NoPlace(answer_full(bank, pass, &called)),
    }
}

/// `l[i] = v`, by a pass that has the list's lock (Python manual, Mutable Sequence Types), where `v` belongs in a box. An
/// index that names no item is told before a box is made.
#[inline(never)]
pub fn set_boxed(
    bank: &Bank,
    pass: &mut Pass,
    l: Object,
    index: i64,
    value: Value,
) -> (Reply, Stamp)
    requires pass { IsPassOf bank.now pass.old }
    requires may { MayWriteList (shape_of bank.now) l (view pass.old) }
    requires boxed { is_boxed value ≡ true }
    ensures pass { IsPassOf bank.now pass.new }
    ensures stack { stack_of pass.new ≡ stack_of pass.old }
    ensures made { SetsBoxed (shape_of bank.now) l index value result.0 result.1 (view pass.old) (view pass.new) }
    ensures boxes { IsDoneWithBoxes (shape_of bank.now) (view pass.new).log }
{
    let called = Call::List {
        container: l,
        call: ListCall::Set { index, value },
    };
    let count = count_of(bank, pass, l);
    match place_in(count, index) {
        Some(_) => {
            value_fits(value);
            match make(bank, pass, value) {
                Made::Up(held) => set_held(bank, pass, l, index, value, held),
                Made::HeapFull => {
                    let stamp = answer_full(bank, pass, &called);
                    (Reply::Raised(Raise::Heap), stamp)
                }
            }
        }
        None => {
            let said = Reply::Raised(Raise::NoIndex);
            let stamp = raise(bank, pass, l, &called, &said);
            (said, stamp)
        }
    }
}
