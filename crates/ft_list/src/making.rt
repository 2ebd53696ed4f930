//! Each call on lists, made by a pass that has the locks of its lists.
ghost use Rattle.std.specs.Prelude.{◌≡◌, ◌<◌, is_some};
ghost use Rattle.ft_model.specs.declared.call.Call.TheVariants as calls;
ghost use Rattle.ft_model.specs.declared.call.ListCall.TheVariants as list;
ghost use Rattle.ft_bank.specs.Passes.{shape_of, view};
ghost use Rattle.ft_bank.specs.PassSections.{stack_of};
ghost use Rattle.ft_table_calls.specs.TriesUnderLocks.{objects_in};
ghost use Rattle.ft_section.specs.declared.answers.Objects.TheVariants.{One};
ghost use Rattle.ft_section.specs.LockTakings.{HasLocks};
ghost use Rattle.ft_section.specs.Ready.{IsMaking};
ghost use Rattle.ft_list.specs.ListMaking.{FitsList, IsListIn, ListCallMakes};

use crate::adding::{append_by, extend_by, insert_by};
use crate::boxed::{append_boxed, insert_boxed, set_boxed};
use crate::clearing::clear_by;
use crate::copies::{items_locked, slice_locked};
use crate::indexing::get_locked;
use crate::locked::{del_locked, set_locked};
use crate::pairs::eq_locked;
use crate::removals::{pop_locked, remove_locked};
use crate::searches::{count_locked, has_locked, index_locked};
use crate::turning::reverse_locked;
use ft_bank::{Bank, Pass};
use ft_model::{Call, ListCall, Reply, Value};
use ft_search::len_locked;
use ft_section::Object;
use ft_table_calls::{Made, Maker};
use std::alloc::Global;

/// Makes calls on lists.
#[derive(Clone, Copy)]
pub struct ListMaker {
    /// Whence the memory of copies comes.
    pub alloc: Option<Global>,
}

impl Maker for ListMaker {
    ghost use Rattle.std.specs.Prelude.{is_some};
    ghost use Rattle.ft_list.specs.ListMaking.{FitsList, MakesList};

    ghost fits = { λ it k called. FitsList (is_some it.alloc) k called };

    ghost makes = { λ it k called made v w. MakesList k called made v w };

    #[inline(always)]
    fn make(&self, bank: &Bank, pass: &mut Pass, called: &Call) -> Made {
        match called {
            Call::List { container, call } => {
                make_list(bank, pass, self.alloc, *container, call, called)
            }
            _ => unreachable!(),
        }
    }
}

/// Makes the call that appends an item, for whoever knows that it is this one: no other call is looked for under the
/// lock.
#[derive(Clone, Copy)]
pub struct Appender;

impl Maker for Appender {
    ghost use Rattle.ft_list.specs.ListMaking.{FitsAppend, MakesList};

    ghost fits = { λ it k called. FitsAppend k called };

    ghost makes = { λ it k called made v w. MakesList k called made v w };

    #[inline(always)]
    fn make(&self, bank: &Bank, pass: &mut Pass, called: &Call) -> Made {
        match *called {
            Call::List {
                container,
                call: ListCall::Append { value },
            } => append(bank, pass, container, value),
            _ => unreachable!(),
        }
    }
}

/// Appends an item to the list `l`, by a pass that has its lock.
#[inline(always)]
fn append(bank: &Bank, pass: &mut Pass, l: Object, value: Value) -> Made
    requires making { IsMaking bank.now pass.old }
    requires locks { HasLocks (view pass.old) (One l) }
    requires list { IsListIn (shape_of bank.now) l }
    requires left { 0 < (view pass.old).left }
    ensures making { IsMaking bank.now pass.new }
    ensures stack { stack_of pass.new ≡ stack_of pass.old }
    ensures made { ListCallMakes (shape_of bank.now) l (list.Append value) result (view pass.old) (view pass.new) }
{
    if value.is_boxed() {
        return Made::after(append_boxed(bank, pass, l, value), Reply::Done);
    }
    Made::after(append_by(bank, pass, l, value), Reply::Done)
}

/// The same, apart: room for all that it makes is cleared at the beginning of the function that it stands in.
#[inline(never)]
fn append_apart(bank: &Bank, pass: &mut Pass, l: Object, value: Value) -> Made
    requires making { IsMaking bank.now pass.old }
    requires locks { HasLocks (view pass.old) (One l) }
    requires list { IsListIn (shape_of bank.now) l }
    requires left { 0 < (view pass.old).left }
    ensures making { IsMaking bank.now pass.new }
    ensures stack { stack_of pass.new ≡ stack_of pass.old }
    ensures made { ListCallMakes (shape_of bank.now) l (list.Append value) result (view pass.old) (view pass.new) }
{
    append(bank, pass, l, value)
}

/// Inserts an item into the list `l`, by a pass that has its lock.
fn insert(bank: &Bank, pass: &mut Pass, l: Object, index: i64, value: Value) -> Made
    requires making { IsMaking bank.now pass.old }
    requires locks { HasLocks (view pass.old) (One l) }
    requires list { IsListIn (shape_of bank.now) l }
    requires left { 0 < (view pass.old).left }
    ensures making { IsMaking bank.now pass.new }
    ensures stack { stack_of pass.new ≡ stack_of pass.old }
    ensures made { ListCallMakes (shape_of bank.now) l (list.Insert index value) result (view pass.old) (view pass.new) }
{
    if value.is_boxed() {
        return Made::after(insert_boxed(bank, pass, l, index, value), Reply::Done);
    }
    Made::after(insert_by(bank, pass, l, index, value), Reply::Done)
}

/// Sets an item of the list `l`, by a pass that has its lock.
fn set(bank: &Bank, pass: &mut Pass, l: Object, index: i64, value: Value) -> Made
    requires making { IsMaking bank.now pass.old }
    requires locks { HasLocks (view pass.old) (One l) }
    requires list { IsListIn (shape_of bank.now) l }
    requires left { 0 < (view pass.old).left }
    ensures making { IsMaking bank.now pass.new }
    ensures stack { stack_of pass.new ≡ stack_of pass.old }
    ensures made { ListCallMakes (shape_of bank.now) l (list.Set index value) result (view pass.old) (view pass.new) }
{
    if value.is_boxed() {
        return Made::done(set_boxed(bank, pass, l, index, value));
    }
    Made::done(set_locked(bank, pass, l, index, value))
}

/// Makes a call on the list `l`, by a pass that has the locks of its lists.
#[tactic(auto, using(ft_search::proofs::ReadMidst::stands_in))]
#[inline(never)]
fn make_list(
    bank: &Bank,
    pass: &mut Pass,
    alloc: Option<Global>,
    l: Object,
    call: &ListCall,
    called: &Call,
) -> Made
    requires making { IsMaking bank.now pass.old }
    requires call { called.now ≡ calls.List l call.now }
    requires locks { HasLocks (view pass.old) (objects_in (calls.List l call.now)) }
    requires fits { FitsList (is_some alloc) (shape_of bank.now) (calls.List l call.now) }
    requires left { 0 < (view pass.old).left }
    ensures making { IsMaking bank.now pass.new }
    ensures stack { stack_of pass.new ≡ stack_of pass.old }
    ensures made { ListCallMakes (shape_of bank.now) l call.now result (view pass.old) (view pass.new) }
{
    match *call {
        ListCall::Append { value } => append_apart(bank, pass, l, value),
        ListCall::Insert { index, value } => insert(bank, pass, l, index, value),
        ListCall::Extend { other } => Made::after(extend_by(bank, pass, l, other), Reply::Done),
        ListCall::Get { index } => Made::done(get_locked(bank, pass, l, index)),
        ListCall::Set { index, value } => set(bank, pass, l, index, value),
        ListCall::Del { index } => Made::done(del_locked(bank, pass, l, index)),
        ListCall::Pop { index } => Made::done(pop_locked(bank, pass, l, index)),
        ListCall::Remove { value } => Made::done(remove_locked(bank, pass, l, value)),
        ListCall::Index { value } => Made::done(index_locked(bank, pass, l, value)),
        ListCall::Count { value } => Made::done(count_locked(bank, pass, l, value)),
        ListCall::Has { value } => Made::done(has_locked(bank, pass, l, value)),
        ListCall::Reverse => Made::done(reverse_locked(bank, pass, l)),
        ListCall::Slice { start, end } => match alloc {
            Some(alloc) => Made::copied(slice_locked(bank, pass, alloc, l, start, end)),
            None => unreachable!(),
        },
        ListCall::Clear => Made::Done(Reply::Done, clear_by(bank, pass, l)),
        ListCall::Len => Made::done(len_locked(bank, pass, l, called)),
        ListCall::Items => match alloc {
            Some(alloc) => Made::copied(items_locked(bank, pass, alloc, l)),
            None => unreachable!(),
        },
        ListCall::Eq { other } => Made::done(eq_locked(bank, pass, l, other)),
        ListCall::Iter { .. } | ListCall::Reversed { .. } => unreachable!(),
    }
}
