//! Copies of items, which take memory: `l[i:j]` and all items of a list.
ghost use Rattle.std.specs.Prelude.{◌≡◌, ◌≤◌, ◌<◌, drop, take, length};
ghost use Rattle.ft_model.specs.declared.call.Call.TheVariants as call;
ghost use Rattle.ft_model.specs.declared.call.ListCall.TheVariants as list;
ghost use Rattle.ft_model.specs.Lists.{clamped_in, list_slice};
ghost use Rattle.ft_trace.specs.Addresses.{container_count};
ghost use Rattle.ft_trace.specs.ContainerStates.{kind_in};
ghost use Rattle.ft_model.specs.declared.script.Kind.TheVariants as kind;
ghost use Rattle.ft_bank.specs.Passes.{shape_of, view, IsPassOf};
ghost use Rattle.ft_bank.specs.PassSections.{stack_of};
ghost use Rattle.ft_list.specs.ListWrites.{MayWriteList};
ghost use Rattle.ft_reads.specs.Reads.{Reads};
ghost use Rattle.ft_list.specs.Scans.{IsOfItems};
ghost use Rattle.ft_reads.specs.Copies.{AreCopied, IsCopied};

use crate::locked::LENGTH;
use crate::reads::read_item;
use ft_bank::{Bank, Pass};
use ft_model::{Call, ListCall, Reply, Value, Values};
use ft_search::answer_held;
use ft_section::{Object, Stamp};
use std::alloc::{AllocError, Global};

/// The place that an end of a slice names among that many items: a negative one counts from the end, and one
/// that is then outside is clamped (Python manual, Sequence Types).
fn clamp(count: u64, index: i64) -> u64
    ensures { result ≡ clamped_in count index }
{
    match u64::try_from(index) {
        Ok(place) => place.min(count),
        Err(_) => count.saturating_sub(index.unsigned_abs()),
    }
}

/// The items from one place on and before another. An `Err` says that there was no memory for them; none are copied
/// without any.
fn copy_part(
    bank: &Bank,
    pass: &mut Pass,
    alloc: Global,
    l: Object,
    first: u64,
    past: u64,
) -> Result<Vec<Value>, AllocError>
    requires pass { IsPassOf bank.now pass.old }
    requires container { l < container_count (shape_of bank.now) }
    requires list { kind_in (shape_of bank.now).starts l ≡ kind.List }
    ensures pass { IsPassOf bank.now pass.new }
    ensures reads { Reads (shape_of bank.now) l (IsOfItems (shape_of bank.now) (λ items. past ≤ length items →
        AreCopied result (drop first (take past items)))) pass.old pass.new }
{
    let mut part = Vec::new(alloc);
    for place in first..past {
        let item = read_item(bank, pass, l, place);
        part.push(item.unwrap_or(Value::Nothing))?;
    }
    Ok(part)
}

/// `l[i:j]`. An `Err` says that memory ran out.
fn copy_slice(
    bank: &Bank,
    pass: &mut Pass,
    alloc: Global,
    l: Object,
    start: i64,
    end: i64,
) -> Result<Vec<Value>, AllocError>
    requires pass { IsPassOf bank.now pass.old }
    requires container { l < container_count (shape_of bank.now) }
    requires list { kind_in (shape_of bank.now).starts l ≡ kind.List }
    ensures pass { IsPassOf bank.now pass.new }
    ensures reads { Reads (shape_of bank.now) l (IsOfItems (shape_of bank.now) (λ items.
        AreCopied result (list_slice items start end))) pass.old pass.new }
{
    let count = bank.read_block(pass, l, LENGTH);
    copy_part(bank, pass, alloc, l, clamp(count, start), clamp(count, end))
}

/// All items. An `Err` says that memory ran out.
pub fn copy_items(
    bank: &Bank,
    pass: &mut Pass,
    alloc: Global,
    l: Object,
) -> Result<Vec<Value>, AllocError>
    requires pass { IsPassOf bank.now pass.old }
    requires container { l < container_count (shape_of bank.now) }
    requires list { kind_in (shape_of bank.now).starts l ≡ kind.List }
    ensures pass { IsPassOf bank.now pass.new }
    ensures reads { Reads (shape_of bank.now) l (IsOfItems (shape_of bank.now) (AreCopied result)) pass.old
        pass.new }
{
    let count = bank.read_block(pass, l, LENGTH);
    copy_part(bank, pass, alloc, l, 0, count)
}

/// `l[i:j]`, by a pass that has the list's lock. An `Err` says that memory ran out; the pass only loaded
/// words then.
pub(crate) fn slice_locked(
    bank: &Bank,
    pass: &mut Pass,
    alloc: Global,
    l: Object,
    start: i64,
    end: i64,
) -> Result<(Reply, Stamp), AllocError>
    requires pass { IsPassOf bank.now pass.old }
    requires may { MayWriteList (shape_of bank.now) l (view pass.old) }
    ensures pass { IsPassOf bank.now pass.new }
    ensures stack { stack_of pass.new ≡ stack_of pass.old }
    ensures copied { IsCopied (call.List l (list.Slice start end)) (view pass.old) (view pass.new) result }
{
    let part = copy_slice(bank, pass, alloc, l, start, end)?;
    let called = Call::List {
        container: l,
        call: ListCall::Slice { start, end },
    };
    Ok(answer_held(bank, pass, &called, Reply::List(Values::from_vec(part))))
}

/// All items, by a pass that has the list's lock. An `Err` says that memory ran out; the pass only loaded
/// words then.
pub(crate) fn items_locked(
    bank: &Bank,
    pass: &mut Pass,
    alloc: Global,
    l: Object,
) -> Result<(Reply, Stamp), AllocError>
    requires pass { IsPassOf bank.now pass.old }
    requires may { MayWriteList (shape_of bank.now) l (view pass.old) }
    ensures pass { IsPassOf bank.now pass.new }
    ensures stack { stack_of pass.new ≡ stack_of pass.old }
    ensures copied { IsCopied (call.List l list.Items) (view pass.old) (view pass.new) result }
{
    let copy = copy_items(bank, pass, alloc, l)?;
    let called = Call::List {
        container: l,
        call: ListCall::Items,
    };
    Ok(answer_held(bank, pass, &called, Reply::List(Values::from_vec(copy))))
}
