//! Tries of calls on dicts.
ghost use Rattle.std.specs.Prelude.{◌≡◌, ◌<◌, None, List, Option, is_some, true};
ghost use Rattle.ft_model.specs.declared.call.Call.TheVariants as calls;
ghost use Rattle.ft_model.specs.declared.call.DictCall.TheVariants as dict;
ghost use Rattle.ft_model.specs.declared.cursor.Cursor.{Cursor};
ghost use Rattle.ft_model.specs.declared.script.Kind.TheVariants as kind;
ghost use Rattle.ft_model.specs.Calls.{cursor_of_dict, other_dict};
ghost use Rattle.ft_model.specs.Landed.{is_landed_dict};
ghost use Rattle.ft_trace.specs.Acts.{announces};
ghost use Rattle.ft_trace.specs.Boxes.{IsSettled};
ghost use Rattle.ft_bank.specs.Passes.{shape_of, view, IsPassOf};
ghost use Rattle.ft_bank.specs.PassSections.{stack_of};
ghost use Rattle.ft_bank.specs.SameBoxes.{HoldsFew};
ghost use Rattle.ft_bank.specs.KeyHashes.{IsKeyIn};
ghost use Rattle.ft_section.specs.declared.answers.Objects.TheVariants.{One};
ghost use Rattle.ft_section.specs.Ready.{MayTry};
ghost use Rattle.ft_engine.specs.Callers.{IsOfKindIn};
ghost use Rattle.ft_engine.specs.Answering.{IsTryOfCall, IsLookedIfAny};
ghost use Rattle.ft_engine.specs.Contentions.{may_look};
ghost use Rattle.ft_table_calls.specs.TriesUnderLocks.{objects_by};
ghost use Rattle.ft_dict.specs.DictMaking.{key_of_dict};
ghost use Rattle.ft_engine.specs.Asked.{AreOfKindIn, HasKeyIn};

use ft_bank::{Bank, Pass};
use ft_dict::{
    DictMaker, ValueSetter, look_eq, look_get, look_getd, look_has, look_items, look_len,
};
use ft_model::{Call, DictCall, Key, Value};
use ft_section::{Look, Object, Objects, Step};
use ft_table_calls::{named_objects, try_under_locks};
use std::alloc::Global;

/// A look at a dict without its lock, for each call. It stands apart from `look_dict`, which has arms of its own for
/// the calls that are made most: room for the answers of all arms is cleared at the beginning of a function.
#[inline(never)]
fn look_any_dict(
    bank: &Bank,
    pass: &mut Pass,
    alloc: Global,
    d: Object,
    call: &DictCall,
) -> Option<Look>
    requires pass { IsPassOf bank.now pass.old }
    requires names { AreOfKindIn (shape_of bank.now) kind.Dict d (other_dict call.now) }
    requires key { HasKeyIn (shape_of bank.now) (key_of_dict call.now) }
    requires landed { is_landed_dict call.now ≡ true }
    requires online { 0 < announces (view pass.old).log }
    requires left { 0 < (view pass.old).left }
    requires settled { IsSettled (view pass.old).log }
    requires few { HoldsFew (view pass.old) }
    ensures pass { IsPassOf bank.now pass.new }
    ensures sections { stack_of pass.new ≡ stack_of pass.old }
    ensures looked { IsLookedIfAny (calls.Dict d call.now) pass.old pass.new result }
    ensures made { may_look (calls.Dict d call.now) ≡ is_some result }
{
    match *call {
        DictCall::Get { key } => Some(look_get(bank, pass, d, key)),
        DictCall::GetOr { key, default } => Some(look_getd(bank, pass, d, key, default)),
        DictCall::Has { key } => Some(look_has(bank, pass, d, key)),
        DictCall::Len => Some(look_len(bank, pass, d)),
        DictCall::Items => Some(look_items(bank, pass, alloc, d)),
        DictCall::Eq { other } => Some(look_eq(bank, pass, d, other)),
        DictCall::Set { .. }
        | DictCall::Del { .. }
        | DictCall::Pop { .. }
        | DictCall::PopOr { .. }
        | DictCall::PopItem
        | DictCall::SetDefault { .. }
        | DictCall::Update { .. }
        | DictCall::Clear
        | DictCall::CopyTo { .. }
        | DictCall::Iter { .. } => None,
        DictCall::KeysAnd { .. }
        | DictCall::KeysSub { .. }
        | DictCall::KeysOr { .. }
        | DictCall::KeysXor { .. }
        | DictCall::ItemsHas { .. }
        | DictCall::Reversed { .. } => unreachable!(),
    }
}

/// A look at a dict without its lock, where the call may be made so (PEP 703, Optimistically avoiding locking).
#[inline(always)]
pub(crate) fn look_dict(
    bank: &Bank,
    pass: &mut Pass,
    alloc: Global,
    d: Object,
    call: &DictCall,
) -> Option<Look>
    requires pass { IsPassOf bank.now pass.old }
    requires names { AreOfKindIn (shape_of bank.now) kind.Dict d (other_dict call.now) }
    requires key { HasKeyIn (shape_of bank.now) (key_of_dict call.now) }
    requires landed { is_landed_dict call.now ≡ true }
    requires online { 0 < announces (view pass.old).log }
    requires left { 0 < (view pass.old).left }
    requires settled { IsSettled (view pass.old).log }
    requires few { HoldsFew (view pass.old) }
    ensures pass { IsPassOf bank.now pass.new }
    ensures sections { stack_of pass.new ≡ stack_of pass.old }
    ensures looked { IsLookedIfAny (calls.Dict d call.now) pass.old pass.new result }
    ensures made { may_look (calls.Dict d call.now) ≡ is_some result }
{
    match *call {
        DictCall::Get { key } => Some(look_get(bank, pass, d, key)),
        DictCall::Set { .. } => None,
        _ => look_any_dict(bank, pass, alloc, d, call),
    }
}

/// A call on a dict under its locks; none that makes a cursor.
#[inline(always)]
pub(crate) fn try_any_dict(
    bank: &Bank,
    pass: &mut Pass,
    alloc: Global,
    d: Object,
    call: &DictCall,
    called: &Call,
) -> Step
    requires may { MayTry bank.now pass.old (objects_by d (other_dict call.now)) }
    requires call { called.now ≡ calls.Dict d call.now }
    requires names { AreOfKindIn (shape_of bank.now) kind.Dict d (other_dict call.now) }
    requires key { HasKeyIn (shape_of bank.now) (key_of_dict call.now) }
    requires no_cursor { cursor_of_dict call.now ≡ None }
    requires landed { is_landed_dict call.now ≡ true }
    requires left { 0 < (view pass.old).left }
    ensures { (hands : List (Option Cursor)) → IsTryOfCall bank.now hands (calls.Dict d call.now) pass.old pass.new result }
{
    let objects = named_objects(d, call.other());
    let maker = DictMaker { alloc: Some(alloc) };
    try_under_locks(bank, pass, &maker, objects, called)
}

/// Sets the value at a key of a dict, under its lock: the call is known before the lock is taken.
#[inline(always)]
pub(crate) fn try_set(bank: &Bank, pass: &mut Pass, d: Object, key: Key, value: Value) -> Step
    requires may { MayTry bank.now pass.old (One d) }
    requires dict { IsOfKindIn (shape_of bank.now) kind.Dict d }
    requires key { IsKeyIn (shape_of bank.now) key }
    requires left { 0 < (view pass.old).left }
    ensures { (hands : List (Option Cursor)) → IsTryOfCall bank.now hands (calls.Dict d (dict.Set key value)) pass.old pass.new result }
{
    let known = Call::Dict {
        container: d,
        call: DictCall::Set { key, value },
    };
    try_under_locks(bank, pass, &ValueSetter, Objects::One(d), &known)
}

/// A call on a dict under its locks; none that makes a cursor. The call that is made most has an arm of its own.
#[inline(always)]
pub(crate) fn try_dict(
    bank: &Bank,
    pass: &mut Pass,
    alloc: Global,
    d: Object,
    call: &DictCall,
    called: &Call,
) -> Step
    requires may { MayTry bank.now pass.old (objects_by d (other_dict call.now)) }
    requires call { called.now ≡ calls.Dict d call.now }
    requires names { AreOfKindIn (shape_of bank.now) kind.Dict d (other_dict call.now) }
    requires key { HasKeyIn (shape_of bank.now) (key_of_dict call.now) }
    requires no_cursor { cursor_of_dict call.now ≡ None }
    requires landed { is_landed_dict call.now ≡ true }
    requires left { 0 < (view pass.old).left }
    ensures { (hands : List (Option Cursor)) → IsTryOfCall bank.now hands (calls.Dict d call.now) pass.old pass.new result }
{
    match *call {
        DictCall::Set { key, value } => try_set(bank, pass, d, key, value),
        _ => try_any_dict(bank, pass, alloc, d, call, called),
    }
}
