//! Tries of calls on sets.
ghost use Rattle.std.specs.Prelude.{◌≡◌, ◌<◌, None, List, Option, is_some};
ghost use Rattle.ft_model.specs.declared.call.Call.TheVariants as calls;
ghost use Rattle.ft_model.specs.declared.call.SetCall.TheVariants as set;
ghost use Rattle.ft_model.specs.declared.cursor.Cursor.{Cursor};
ghost use Rattle.ft_model.specs.declared.script.Kind.TheVariants as kind;
ghost use Rattle.ft_model.specs.Calls.{cursor_of_set, other_set};
ghost use Rattle.ft_trace.specs.Acts.{announces};
ghost use Rattle.ft_trace.specs.Boxes.{IsSettled};
ghost use Rattle.ft_bank.specs.Passes.{shape_of, view, IsPassOf};
ghost use Rattle.ft_bank.specs.PassSections.{stack_of};
ghost use Rattle.ft_bank.specs.SameBoxes.{HoldsFew};
ghost use Rattle.ft_bank.specs.KeyHashes.{IsKeyIn};
ghost use Rattle.ft_section.specs.declared.answers.Objects.TheVariants.{One};
ghost use Rattle.ft_section.specs.Ready.{MayTry};
ghost use Rattle.ft_engine.specs.Callers.{IsOfKindIn};
ghost use Rattle.ft_engine.specs.Answering.{IsTryOfCall, IsLookedIfAny};
ghost use Rattle.ft_engine.specs.Contentions.{may_look};
ghost use Rattle.ft_table_calls.specs.TriesUnderLocks.{objects_by};
ghost use Rattle.ft_set.specs.SetMaking.{key_of_set};
ghost use Rattle.ft_engine.specs.Asked.{AreOfKindIn, HasKeyIn};

use ft_bank::{Bank, Pass};
use ft_model::{Call, Key, SetCall};
use ft_section::{Look, Object, Objects, Step};
use ft_set::{ElementMaker, SetMaker, look_eq, look_has, look_items, look_len};
use ft_table_calls::{named_objects, try_under_locks};
use std::alloc::Global;

/// A look at a set without its lock, for each call. It stands apart from `look_set`, which has arms of its own for
/// the calls that are made most: room for the answers of all arms is cleared at the beginning of a function.
#[inline(never)]
fn look_any_set(
    bank: &Bank,
    pass: &mut Pass,
    alloc: Global,
    s: Object,
    call: &SetCall,
) -> Option<Look>
    requires pass { IsPassOf bank.now pass.old }
    requires names { AreOfKindIn (shape_of bank.now) kind.Set s (other_set call.now) }
    requires key { HasKeyIn (shape_of bank.now) (key_of_set call.now) }
    requires online { 0 < announces (view pass.old).log }
    requires left { 0 < (view pass.old).left }
    requires settled { IsSettled (view pass.old).log }
    requires few { HoldsFew (view pass.old) }
    ensures pass { IsPassOf bank.now pass.new }
    ensures sections { stack_of pass.new ≡ stack_of pass.old }
    ensures looked { IsLookedIfAny (calls.Set s call.now) pass.old pass.new result }
    ensures made { may_look (calls.Set s call.now) ≡ is_some result }
{
    match *call {
        SetCall::Has { key } => Some(look_has(bank, pass, s, key)),
        SetCall::Len => Some(look_len(bank, pass, s)),
        SetCall::Items => Some(look_items(bank, pass, alloc, s)),
        SetCall::Eq { other } => Some(look_eq(bank, pass, s, other)),
        SetCall::Add { .. }
        | SetCall::Discard { .. }
        | SetCall::Remove { .. }
        | SetCall::Pop
        | SetCall::Or { .. }
        | SetCall::And { .. }
        | SetCall::Sub { .. }
        | SetCall::Xor { .. }
        | SetCall::Subset { .. }
        | SetCall::Disjoint { .. }
        | SetCall::Clear
        | SetCall::Iter { .. } => None,
    }
}

/// A look at a set without its lock, where the call may be made so (PEP 703, Optimistically avoiding locking).
#[inline(always)]
pub(crate) fn look_set(
    bank: &Bank,
    pass: &mut Pass,
    alloc: Global,
    s: Object,
    call: &SetCall,
) -> Option<Look>
    requires pass { IsPassOf bank.now pass.old }
    requires names { AreOfKindIn (shape_of bank.now) kind.Set s (other_set call.now) }
    requires key { HasKeyIn (shape_of bank.now) (key_of_set call.now) }
    requires online { 0 < announces (view pass.old).log }
    requires left { 0 < (view pass.old).left }
    requires settled { IsSettled (view pass.old).log }
    requires few { HoldsFew (view pass.old) }
    ensures pass { IsPassOf bank.now pass.new }
    ensures sections { stack_of pass.new ≡ stack_of pass.old }
    ensures looked { IsLookedIfAny (calls.Set s call.now) pass.old pass.new result }
    ensures made { may_look (calls.Set s call.now) ≡ is_some result }
{
    match *call {
        SetCall::Has { key } => Some(look_has(bank, pass, s, key)),
        SetCall::Add { .. } | SetCall::Discard { .. } => None,
        _ => look_any_set(bank, pass, alloc, s, call),
    }
}

/// A call on a set under its locks; none that makes a cursor.
#[inline(always)]
fn try_any_set(
    bank: &Bank,
    pass: &mut Pass,
    alloc: Global,
    s: Object,
    call: &SetCall,
    called: &Call,
) -> Step
    requires may { MayTry bank.now pass.old (objects_by s (other_set call.now)) }
    requires call { called.now ≡ calls.Set s call.now }
    requires names { AreOfKindIn (shape_of bank.now) kind.Set s (other_set call.now) }
    requires key { HasKeyIn (shape_of bank.now) (key_of_set call.now) }
    requires no_cursor { cursor_of_set call.now ≡ None }
    requires left { 0 < (view pass.old).left }
    ensures { (hands : List (Option Cursor)) → IsTryOfCall bank.now hands (calls.Set s call.now) pass.old pass.new result }
{
    let objects = named_objects(s, call.other());
    let maker = SetMaker { alloc: Some(alloc) };
    try_under_locks(bank, pass, &maker, objects, called)
}

/// Adds an element under the lock of the set: the call is known before the lock is taken.
#[inline(always)]
pub(crate) fn try_add(bank: &Bank, pass: &mut Pass, s: Object, key: Key) -> Step
    requires may { MayTry bank.now pass.old (One s) }
    requires set { IsOfKindIn (shape_of bank.now) kind.Set s }
    requires key { IsKeyIn (shape_of bank.now) key }
    requires left { 0 < (view pass.old).left }
    ensures { (hands : List (Option Cursor)) → IsTryOfCall bank.now hands (calls.Set s (set.Add key)) pass.old pass.new result }
{
    let known = Call::Set {
        container: s,
        call: SetCall::Add { key },
    };
    try_under_locks(bank, pass, &ElementMaker, Objects::One(s), &known)
}

/// Discards an element under the lock of the set: the call is known before the lock is taken.
#[inline(always)]
pub(crate) fn try_discard(bank: &Bank, pass: &mut Pass, s: Object, key: Key) -> Step
    requires may { MayTry bank.now pass.old (One s) }
    requires set { IsOfKindIn (shape_of bank.now) kind.Set s }
    requires key { IsKeyIn (shape_of bank.now) key }
    requires left { 0 < (view pass.old).left }
    ensures { (hands : List (Option Cursor)) → IsTryOfCall bank.now hands (calls.Set s (set.Discard key)) pass.old pass.new result }
{
    let known = Call::Set {
        container: s,
        call: SetCall::Discard { key },
    };
    try_under_locks(bank, pass, &ElementMaker, Objects::One(s), &known)
}

/// A call on a set under its locks; none that makes a cursor. The calls that are made most have arms of their own.
#[inline(always)]
pub(crate) fn try_set_call(
    bank: &Bank,
    pass: &mut Pass,
    alloc: Global,
    s: Object,
    call: &SetCall,
    called: &Call,
) -> Step
    requires may { MayTry bank.now pass.old (objects_by s (other_set call.now)) }
    requires call { called.now ≡ calls.Set s call.now }
    requires names { AreOfKindIn (shape_of bank.now) kind.Set s (other_set call.now) }
    requires key { HasKeyIn (shape_of bank.now) (key_of_set call.now) }
    requires no_cursor { cursor_of_set call.now ≡ None }
    requires left { 0 < (view pass.old).left }
    ensures { (hands : List (Option Cursor)) → IsTryOfCall bank.now hands (calls.Set s call.now) pass.old pass.new result }
{
    match *call {
        SetCall::Add { key } => try_add(bank, pass, s, key),
        SetCall::Discard { key } => try_discard(bank, pass, s, key),
        _ => try_any_set(bank, pass, alloc, s, call, called),
    }
}
