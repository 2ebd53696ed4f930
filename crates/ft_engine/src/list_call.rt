//! Tries of calls on lists: a look without the lock, where the call may be made so, and then the call under its
//! locks.
ghost use Rattle.std.specs.Prelude.{◌≡◌, ◌<◌, List, Option, None, is_some};
ghost use Rattle.ft_model.specs.declared.call.Call.TheVariants as calls;
ghost use Rattle.ft_model.specs.declared.call.ListCall.TheVariants as list;
ghost use Rattle.ft_model.specs.declared.cursor.Cursor.{Cursor};
ghost use Rattle.ft_model.specs.declared.script.Kind.TheVariants as kind;
ghost use Rattle.ft_model.specs.Calls.{cursor_of_list, other_list};
ghost use Rattle.ft_trace.specs.Acts.{announces};
ghost use Rattle.ft_trace.specs.Boxes.{IsSettled};
ghost use Rattle.ft_bank.specs.Passes.{shape_of, view, IsPassOf};
ghost use Rattle.ft_bank.specs.PassSections.{stack_of};
ghost use Rattle.ft_bank.specs.SameBoxes.{HoldsFew};
ghost use Rattle.ft_section.specs.declared.answers.Objects.TheVariants.{One};
ghost use Rattle.ft_section.specs.Ready.{MayTry};
ghost use Rattle.ft_engine.specs.Callers.{IsOfKindIn};
ghost use Rattle.ft_engine.specs.Answering.{IsTryOfCall, IsLookedIfAny};
ghost use Rattle.ft_engine.specs.Contentions.{may_look};
ghost use Rattle.ft_table_calls.specs.TriesUnderLocks.{objects_by};
ghost use Rattle.ft_engine.specs.Asked.{AreOfKindIn};

use ft_bank::{Bank, Pass};
use ft_list::{Appender, ListMaker, look_eq, look_get, look_has, look_items, look_len};
use ft_model::{Call, ListCall, Value};
use ft_section::{Look, Object, Objects, Step};
use ft_table_calls::{named_objects, try_under_locks};
use std::alloc::Global;

/// A look at a list without its lock, for each call. It stands apart from `look_list`, which has arms of its own for
/// the calls that are made most: room for the answers of all arms is cleared at the beginning of a function.
#[inline(never)]
fn look_any_list(
    bank: &Bank,
    pass: &mut Pass,
    alloc: Global,
    l: Object,
    call: &ListCall,
) -> Option<Look>
    requires pass { IsPassOf bank.now pass.old }
    requires names { AreOfKindIn (shape_of bank.now) kind.List l (other_list call.now) }
    requires online { 0 < announces (view pass.old).log }
    requires left { 0 < (view pass.old).left }
    requires settled { IsSettled (view pass.old).log }
    requires few { HoldsFew (view pass.old) }
    ensures pass { IsPassOf bank.now pass.new }
    ensures sections { stack_of pass.new ≡ stack_of pass.old }
    ensures looked { IsLookedIfAny (calls.List l call.now) pass.old pass.new result }
    ensures made { may_look (calls.List l call.now) ≡ is_some result }
{
    match *call {
        ListCall::Get { index } => Some(look_get(bank, pass, l, index)),
        ListCall::Has { value } => Some(look_has(bank, pass, l, value)),
        ListCall::Len => Some(look_len(bank, pass, l)),
        ListCall::Items => Some(look_items(bank, pass, alloc, l)),
        ListCall::Eq { other } => Some(look_eq(bank, pass, l, other)),
        ListCall::Append { .. }
        | ListCall::Insert { .. }
        | ListCall::Set { .. }
        | ListCall::Del { .. }
        | ListCall::Pop { .. }
        | ListCall::Remove { .. }
        | ListCall::Index { .. }
        | ListCall::Count { .. }
        | ListCall::Reverse
        | ListCall::Extend { .. }
        | ListCall::Slice { .. }
        | ListCall::Clear
        | ListCall::Iter { .. }
        | ListCall::Reversed { .. } => None,
    }
}

/// A look at a list without its lock, where the call may be made so (PEP 703, Optimistically avoiding locking).
#[inline(always)]
pub(crate) fn look_list(
    bank: &Bank,
    pass: &mut Pass,
    alloc: Global,
    l: Object,
    call: &ListCall,
) -> Option<Look>
    requires pass { IsPassOf bank.now pass.old }
    requires names { AreOfKindIn (shape_of bank.now) kind.List l (other_list call.now) }
    requires online { 0 < announces (view pass.old).log }
    requires left { 0 < (view pass.old).left }
    requires settled { IsSettled (view pass.old).log }
    requires few { HoldsFew (view pass.old) }
    ensures pass { IsPassOf bank.now pass.new }
    ensures sections { stack_of pass.new ≡ stack_of pass.old }
    ensures looked { IsLookedIfAny (calls.List l call.now) pass.old pass.new result }
    ensures made { may_look (calls.List l call.now) ≡ is_some result }
{
    match *call {
        ListCall::Get { index } => Some(look_get(bank, pass, l, index)),
        ListCall::Append { .. } => None,
        _ => look_any_list(bank, pass, alloc, l, call),
    }
}

/// A call on a list under its locks; none that makes a cursor.
#[inline(always)]
pub(crate) fn try_any_list(
    bank: &Bank,
    pass: &mut Pass,
    alloc: Global,
    l: Object,
    call: &ListCall,
    called: &Call,
) -> Step
    requires may { MayTry bank.now pass.old (objects_by l (other_list call.now)) }
    requires call { called.now ≡ calls.List l call.now }
    requires names { AreOfKindIn (shape_of bank.now) kind.List l (other_list call.now) }
    requires no_cursor { cursor_of_list call.now ≡ None }
    requires left { 0 < (view pass.old).left }
    ensures { (hands : List (Option Cursor)) → IsTryOfCall bank.now hands (calls.List l call.now) pass.old pass.new result }
{
    let objects = named_objects(l, call.other());
    let maker = ListMaker { alloc: Some(alloc) };
    try_under_locks(bank, pass, &maker, objects, called)
}

/// Appends an item to a list, under its lock: the call is known before the lock is taken.
#[inline(always)]
pub(crate) fn try_append(bank: &Bank, pass: &mut Pass, l: Object, value: Value) -> Step
    requires may { MayTry bank.now pass.old (One l) }
    requires list { IsOfKindIn (shape_of bank.now) kind.List l }
    requires left { 0 < (view pass.old).left }
    ensures { (hands : List (Option Cursor)) → IsTryOfCall bank.now hands (calls.List l (list.Append value)) pass.old pass.new result }
{
    let known = Call::List {
        container: l,
        call: ListCall::Append { value },
    };
    try_under_locks(bank, pass, &Appender, Objects::One(l), &known)
}

/// A call on a list under its locks; none that makes a cursor. The call that is made most has an arm of its own.
#[inline(always)]
pub(crate) fn try_list(
    bank: &Bank,
    pass: &mut Pass,
    alloc: Global,
    l: Object,
    call: &ListCall,
    called: &Call,
) -> Step
    requires may { MayTry bank.now pass.old (objects_by l (other_list call.now)) }
    requires call { called.now ≡ calls.List l call.now }
    requires names { AreOfKindIn (shape_of bank.now) kind.List l (other_list call.now) }
    requires no_cursor { cursor_of_list call.now ≡ None }
    requires left { 0 < (view pass.old).left }
    ensures { (hands : List (Option Cursor)) → IsTryOfCall bank.now hands (calls.List l call.now) pass.old pass.new result }
{
    match *call {
        ListCall::Append { value } => try_append(bank, pass, l, value),
        _ => try_any_list(bank, pass, alloc, l, call, called),
    }
}
