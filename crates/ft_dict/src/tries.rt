//! Calls on dicts, each under the locks of its dicts: the locks are taken, the call is made, and the locks are let go.
ghost use Rattle.std.specs.Prelude.{◌≡◌, ◌<◌};
ghost use Rattle.ft_model.specs.declared.call.Call.TheVariants as call;
ghost use Rattle.ft_model.specs.declared.call.DictCall.TheVariants as dict;
ghost use Rattle.ft_model.specs.declared.reply.Reply.TheVariants as reply;
ghost use Rattle.ft_model.specs.declared.script.Kind.TheVariants as kind;
ghost use Rattle.ft_trace.specs.Addresses.{container_count};
ghost use Rattle.ft_trace.specs.ContainerStates.{kind_in};
ghost use Rattle.ft_bank.specs.KeyHashes.{IsKeyIn};
ghost use Rattle.ft_bank.specs.Passes.{shape_of, view};
ghost use Rattle.ft_section.specs.declared.answers.Objects.TheVariants.{One, Two};
ghost use Rattle.ft_section.specs.Ready.{MayTry};
ghost use Rattle.ft_section.specs.Trying.{SectionsAfter};
ghost use Rattle.ft_table_calls.specs.Adding.{KeepsCursors};
ghost use Rattle.ft_table_calls.specs.TriesUnderLocks.{ComesTo, IsMade, IsRead, IsTry};
ghost use Rattle.ft_merging.specs.Joining.{JoinsBy};
ghost use Rattle.ft_reads.specs.Clears.{IsClear};
ghost use Rattle.ft_reads.specs.Copies.{IsCopy};
ghost use Rattle.ft_dict.specs.DictCopies.{CopiesTo};
ghost use Rattle.ft_dict.specs.BoxedCalls.{ComesToDefault, SetsValue};

use crate::making::{DictMaker, ValueSetter};
use ft_bank::{Bank, Pass};
use ft_model::{Call, DictCall, Key, Value};
use ft_section::{Object, Objects, Step};
use ft_table_calls::try_under_locks;
use std::alloc::Global;

/// `d[k]`, a KeyError where the key isn't there (Python manual, Mapping Types).
///
/// # Errors
///
/// `NotYet` where a step of the call found another pass with the lock of the dict; the same call comes
/// next. It never answers `Moved` or `NoMemory`.
pub fn try_get(bank: &Bank, pass: &mut Pass, d: Object, key: Key) -> Step
    requires may { MayTry bank.now pass.old (One d) }
    requires container { d < container_count (shape_of bank.now) }
    requires dict { kind_in (shape_of bank.now).starts d ≡ kind.Dict }
    requires key { IsKeyIn (shape_of bank.now) key }
    requires left { 0 < (view pass.old).left }
    ensures may { MayTry bank.now pass.new (One d) }
    ensures sections { SectionsAfter bank.now (One d) pass.old pass.new result }
    ensures tried { IsTry (One d) (IsRead (call.Dict d (dict.Get key))) (view pass.old) (view pass.new) result }
{
    let called = Call::Dict {
        container: d,
        call: DictCall::Get { key },
    };
    try_under_locks(
        bank,
        pass,
        &DictMaker { alloc: None },
        Objects::One(d),
        &called,
    )
}

/// `d.get(k, v)`: the value at the key, or the default (Python manual, Mapping Types).
///
/// # Errors
///
/// `NotYet` where a step of the call found another pass with the lock of the dict; the same call comes
/// next. It never answers `Moved` or `NoMemory`.
pub fn try_getd(bank: &Bank, pass: &mut Pass, d: Object, key: Key, default: Value) -> Step
    requires may { MayTry bank.now pass.old (One d) }
    requires container { d < container_count (shape_of bank.now) }
    requires dict { kind_in (shape_of bank.now).starts d ≡ kind.Dict }
    requires key { IsKeyIn (shape_of bank.now) key }
    requires left { 0 < (view pass.old).left }
    ensures may { MayTry bank.now pass.new (One d) }
    ensures sections { SectionsAfter bank.now (One d) pass.old pass.new result }
    ensures tried { IsTry (One d) (IsRead (call.Dict d (dict.GetOr key default)))
        (view pass.old) (view pass.new) result }
{
    let called = Call::Dict {
        container: d,
        call: DictCall::GetOr { key, default },
    };
    try_under_locks(
        bank,
        pass,
        &DictMaker { alloc: None },
        Objects::One(d),
        &called,
    )
}

/// `k in d` (Python manual, Mapping Types).
///
/// # Errors
///
/// `NotYet` where a step of the call found another pass with the lock of the dict; the same call comes
/// next. It never answers `Moved` or `NoMemory`.
pub fn try_has(bank: &Bank, pass: &mut Pass, d: Object, key: Key) -> Step
    requires may { MayTry bank.now pass.old (One d) }
    requires container { d < container_count (shape_of bank.now) }
    requires dict { kind_in (shape_of bank.now).starts d ≡ kind.Dict }
    requires key { IsKeyIn (shape_of bank.now) key }
    requires left { 0 < (view pass.old).left }
    ensures may { MayTry bank.now pass.new (One d) }
    ensures sections { SectionsAfter bank.now (One d) pass.old pass.new result }
    ensures tried { IsTry (One d) (IsRead (call.Dict d (dict.Has key))) (view pass.old) (view pass.new) result }
{
    let called = Call::Dict {
        container: d,
        call: DictCall::Has { key },
    };
    try_under_locks(
        bank,
        pass,
        &DictMaker { alloc: None },
        Objects::One(d),
        &called,
    )
}

/// `len(d)` under the lock (Python manual, Mapping Types).
///
/// # Errors
///
/// `NotYet` where a step of the call found another pass with the lock of the dict; the same call comes next. It
/// never answers `Moved` or `NoMemory`.
pub fn try_len(bank: &Bank, pass: &mut Pass, d: Object) -> Step
    requires may { MayTry bank.now pass.old (One d) }
    requires container { d < container_count (shape_of bank.now) }
    requires dict { kind_in (shape_of bank.now).starts d ≡ kind.Dict }
    requires left { 0 < (view pass.old).left }
    ensures may { MayTry bank.now pass.new (One d) }
    ensures sections { SectionsAfter bank.now (One d) pass.old pass.new result }
    ensures tried { IsTry (One d) (IsRead (call.Dict d dict.Len)) (view pass.old) (view pass.new) result }
{
    let called = Call::Dict {
        container: d,
        call: DictCall::Len,
    };
    try_under_locks(
        bank,
        pass,
        &DictMaker { alloc: None },
        Objects::One(d),
        &called,
    )
}

/// `d[k] = v` under the lock (Python manual, Mapping Types): it replies that it is done, or raises a MemoryError.
///
/// # Errors
///
/// `NotYet` where a step of the call found another pass with the lock of the dict; `Moved` where two steps of it
/// found a word of the free tables of one class changed. The same call comes next. It never answers `NoMemory`.
#[tactic(auto, using(ft_table_calls::proofs::TriedCalls::added_keeps))]
pub fn try_set(bank: &Bank, pass: &mut Pass, d: Object, key: Key, value: Value) -> Step
    requires may { MayTry bank.now pass.old (One d) }
    requires container { d < container_count (shape_of bank.now) }
    requires dict { kind_in (shape_of bank.now).starts d ≡ kind.Dict }
    requires key { IsKeyIn (shape_of bank.now) key }
    requires left { 0 < (view pass.old).left }
    ensures may { MayTry bank.now pass.new (One d) }
    ensures tried { IsTry (One d)
        (ComesTo (SetsValue (shape_of bank.now) d key value) reply.Done)
        (view pass.old) (view pass.new) result }
    ensures sections { SectionsAfter bank.now (One d) pass.old pass.new result }
    ensures cursors { KeepsCursors (view pass.old) (view pass.new) }
{
    let called = Call::Dict {
        container: d,
        call: DictCall::Set { key, value },
    };
    try_under_locks(bank, pass, &ValueSetter, Objects::One(d), &called)
}

/// `d.setdefault(k, v)` under the lock (Python manual, Mapping Types): it replies the value at the key, which is
/// the default where the key wasn't there, or raises a MemoryError.
///
/// # Errors
///
/// As those of [`try_set`].
#[tactic(auto, using(crate::proofs::DictTries::default_keeps))]
pub fn try_setdefault(bank: &Bank, pass: &mut Pass, d: Object, key: Key, default: Value) -> Step
    requires may { MayTry bank.now pass.old (One d) }
    requires container { d < container_count (shape_of bank.now) }
    requires dict { kind_in (shape_of bank.now).starts d ≡ kind.Dict }
    requires key { IsKeyIn (shape_of bank.now) key }
    requires left { 0 < (view pass.old).left }
    ensures may { MayTry bank.now pass.new (One d) }
    ensures tried { IsTry (One d) (ComesToDefault (shape_of bank.now) d key default)
        (view pass.old) (view pass.new) result }
    ensures sections { SectionsAfter bank.now (One d) pass.old pass.new result }
    ensures cursors { KeepsCursors (view pass.old) (view pass.new) }
{
    let called = Call::Dict {
        container: d,
        call: DictCall::SetDefault { key, default },
    };
    try_under_locks(
        bank,
        pass,
        &DictMaker { alloc: None },
        Objects::One(d),
        &called,
    )
}

/// `d.update(e)` under the locks of both dicts, the lower one taken first; a dict named twice counts once, and stays as
/// it is (Python manual, Mapping Types). It replies that it is done, or raises a MemoryError, and then d stays as it is.
///
/// # Errors
///
/// `NotYet` where a step of the call found another pass with the lock of one of the dicts; `Moved` where two steps of
/// it found a word of the free tables of one class changed. The same call comes next. It never answers `NoMemory`.
/// Whatever it answers, the pass has the cursors that it had.
#[tactic(auto, using(ft_table_calls::proofs::TriedCalls::added_keeps))]
pub fn try_update(bank: &Bank, pass: &mut Pass, d: Object, e: Object) -> Step
    requires may { MayTry bank.now pass.old (Two d e) }
    requires container { d < container_count (shape_of bank.now) }
    requires other { e < container_count (shape_of bank.now) }
    requires dict { kind_in (shape_of bank.now).starts d ≡ kind.Dict }
    requires other_dict { kind_in (shape_of bank.now).starts e ≡ kind.Dict }
    requires left { 0 < (view pass.old).left }
    ensures may { MayTry bank.now pass.new (Two d e) }
    ensures tried { IsTry (Two d e) (ComesTo (JoinsBy (shape_of bank.now) d e (call.Dict d (dict.Update e))) reply.Done)
        (view pass.old) (view pass.new) result }
    ensures sections { SectionsAfter bank.now (Two d e) pass.old pass.new result }
    ensures cursors { KeepsCursors (view pass.old) (view pass.new) }
{
    let called = Call::Dict {
        container: d,
        call: DictCall::Update { other: e },
    };
    try_under_locks(
        bank,
        pass,
        &DictMaker { alloc: None },
        Objects::Two(d, e),
        &called,
    )
}

/// `copyto d e` under the locks of both dicts, the lower one taken first; a dict named twice counts once, and is read
/// as it was before. It replies that it is done, or raises a MemoryError, and then e keeps what it has.
///
/// # Errors
///
/// `NotYet` where a step of the call found another pass with the lock of one of the dicts; `Moved` where two steps of
/// it found a word of the free tables of one class changed. The same call comes next. It never answers `NoMemory`.
/// Whatever it answers, the pass has the cursors that it had.
#[tactic(auto, using(ft_table_calls::proofs::TriedCalls::added_keeps))]
pub fn try_copyto(bank: &Bank, pass: &mut Pass, d: Object, e: Object) -> Step
    requires may { MayTry bank.now pass.old (Two d e) }
    requires container { d < container_count (shape_of bank.now) }
    requires other { e < container_count (shape_of bank.now) }
    requires dict { kind_in (shape_of bank.now).starts d ≡ kind.Dict }
    requires other_dict { kind_in (shape_of bank.now).starts e ≡ kind.Dict }
    requires left { 0 < (view pass.old).left }
    ensures may { MayTry bank.now pass.new (Two d e) }
    ensures sections { SectionsAfter bank.now (Two d e) pass.old pass.new result }
    ensures tried { IsTry (Two d e) (ComesTo (CopiesTo (shape_of bank.now) d e) reply.Done)
        (view pass.old) (view pass.new) result }
    ensures cursors { KeepsCursors (view pass.old) (view pass.new) }
{
    let called = Call::Dict {
        container: d,
        call: DictCall::CopyTo { other: e },
    };
    try_under_locks(
        bank,
        pass,
        &DictMaker { alloc: None },
        Objects::Two(d, e),
        &called,
    )
}

/// `del d[k]`: raises a KeyError if the key is not in the map (Python manual, Mapping Types).
///
/// # Errors
///
/// `NotYet` where a step of the call found another pass with the lock of the dict; the same call comes
/// next. It never answers `Moved` or `NoMemory`.
pub fn try_del(bank: &Bank, pass: &mut Pass, d: Object, key: Key) -> Step
    requires may { MayTry bank.now pass.old (One d) }
    requires container { d < container_count (shape_of bank.now) }
    requires dict { kind_in (shape_of bank.now).starts d ≡ kind.Dict }
    requires key { IsKeyIn (shape_of bank.now) key }
    requires left { 0 < (view pass.old).left }
    ensures may { MayTry bank.now pass.new (One d) }
    ensures sections { SectionsAfter bank.now (One d) pass.old pass.new result }
    ensures tried { IsTry (One d) (IsMade (call.Dict d (dict.Del key))) (view pass.old) (view pass.new) result }
{
    let called = Call::Dict {
        container: d,
        call: DictCall::Del { key },
    };
    try_under_locks(
        bank,
        pass,
        &DictMaker { alloc: None },
        Objects::One(d),
        &called,
    )
}

/// `d.pop(k)`: the value at the key, which is taken out; a KeyError if it is not there (Python manual,
/// Mapping Types).
///
/// # Errors
///
/// `NotYet` where a step of the call found another pass with the lock of the dict; the same call comes
/// next. It never answers `Moved` or `NoMemory`.
pub fn try_pop(bank: &Bank, pass: &mut Pass, d: Object, key: Key) -> Step
    requires may { MayTry bank.now pass.old (One d) }
    requires container { d < container_count (shape_of bank.now) }
    requires dict { kind_in (shape_of bank.now).starts d ≡ kind.Dict }
    requires key { IsKeyIn (shape_of bank.now) key }
    requires left { 0 < (view pass.old).left }
    ensures may { MayTry bank.now pass.new (One d) }
    ensures sections { SectionsAfter bank.now (One d) pass.old pass.new result }
    ensures tried { IsTry (One d) (IsMade (call.Dict d (dict.Pop key))) (view pass.old) (view pass.new) result }
{
    let called = Call::Dict {
        container: d,
        call: DictCall::Pop { key },
    };
    try_under_locks(
        bank,
        pass,
        &DictMaker { alloc: None },
        Objects::One(d),
        &called,
    )
}

/// `d.pop(k, v)`: the value at the key, which is taken out, or the default if it is not there (Python
/// manual, Mapping Types).
///
/// # Errors
///
/// `NotYet` where a step of the call found another pass with the lock of the dict; the same call comes
/// next. It never answers `Moved` or `NoMemory`.
pub fn try_popd(bank: &Bank, pass: &mut Pass, d: Object, key: Key, default: Value) -> Step
    requires may { MayTry bank.now pass.old (One d) }
    requires container { d < container_count (shape_of bank.now) }
    requires dict { kind_in (shape_of bank.now).starts d ≡ kind.Dict }
    requires key { IsKeyIn (shape_of bank.now) key }
    requires left { 0 < (view pass.old).left }
    ensures may { MayTry bank.now pass.new (One d) }
    ensures sections { SectionsAfter bank.now (One d) pass.old pass.new result }
    ensures tried { IsTry (One d) (IsMade (call.Dict d (dict.PopOr key default)))
        (view pass.old) (view pass.new) result }
{
    let called = Call::Dict {
        container: d,
        call: DictCall::PopOr { key, default },
    };
    try_under_locks(
        bank,
        pass,
        &DictMaker { alloc: None },
        Objects::One(d),
        &called,
    )
}

/// `d.popitem()`: the last pair, which is taken out; a KeyError if the dict is empty (Python manual, Mapping Types).
///
/// # Errors
///
/// `NotYet` where a step of the call found another pass with the lock of the dict; the same call comes next. It never
/// answers `Moved` or `NoMemory`.
pub fn try_popitem(bank: &Bank, pass: &mut Pass, d: Object) -> Step
    requires may { MayTry bank.now pass.old (One d) }
    requires container { d < container_count (shape_of bank.now) }
    requires dict { kind_in (shape_of bank.now).starts d ≡ kind.Dict }
    requires left { 0 < (view pass.old).left }
    ensures may { MayTry bank.now pass.new (One d) }
    ensures tried { IsTry (One d) (IsMade (call.Dict d dict.PopItem)) (view pass.old) (view pass.new) result }
    ensures sections { SectionsAfter bank.now (One d) pass.old pass.new result }
{
    let called = Call::Dict {
        container: d,
        call: DictCall::PopItem,
    };
    try_under_locks(
        bank,
        pass,
        &DictMaker { alloc: None },
        Objects::One(d),
        &called,
    )
}

/// `d.clear()` under the lock (Python manual, Mapping Types).
///
/// # Errors
///
/// `NotYet` where a step of the call found another pass with the lock of the dict; the same call comes next. It never
/// answers `Moved` or `NoMemory`.
#[tactic(auto, using(ft_reads::proofs::TriedReads::clear_keeps))]
pub fn try_clear(bank: &Bank, pass: &mut Pass, d: Object) -> Step
    requires may { MayTry bank.now pass.old (One d) }
    requires container { d < container_count (shape_of bank.now) }
    requires dict { kind_in (shape_of bank.now).starts d ≡ kind.Dict }
    requires left { 0 < (view pass.old).left }
    ensures may { MayTry bank.now pass.new (One d) }
    ensures tried { IsTry (One d) (IsClear (call.Dict d dict.Clear)) (view pass.old) (view pass.new) result }
    ensures sections { SectionsAfter bank.now (One d) pass.old pass.new result }
    ensures cursors { KeepsCursors (view pass.old) (view pass.new) }
{
    let called = Call::Dict {
        container: d,
        call: DictCall::Clear,
    };
    try_under_locks(
        bank,
        pass,
        &DictMaker { alloc: None },
        Objects::One(d),
        &called,
    )
}

/// All pairs under the lock (Python manual, Mapping Types).
///
/// # Errors
///
/// `NotYet` where a step of the call found another pass with the lock of the dict; the same call comes next.
/// `NoMemory` where memory for the copy ran out: the dict is as it was, and the lock is let go. It never answers
/// `Moved`.
pub fn try_items(bank: &Bank, pass: &mut Pass, alloc: Global, d: Object) -> Step
    requires may { MayTry bank.now pass.old (One d) }
    requires container { d < container_count (shape_of bank.now) }
    requires dict { kind_in (shape_of bank.now).starts d ≡ kind.Dict }
    requires left { 0 < (view pass.old).left }
    ensures may { MayTry bank.now pass.new (One d) }
    ensures tried { IsTry (One d) (IsCopy (call.Dict d dict.Items)) (view pass.old) (view pass.new) result }
    ensures sections { SectionsAfter bank.now (One d) pass.old pass.new result }
{
    let called = Call::Dict {
        container: d,
        call: DictCall::Items,
    };
    try_under_locks(
        bank,
        pass,
        &DictMaker { alloc: Some(alloc) },
        Objects::One(d),
        &called,
    )
}

/// `d == e` under the locks of both, the lower one taken first; a dict named twice counts once (Python manual,
/// Mapping Types).
///
/// # Errors
///
/// `NotYet` where a step of the call found another pass with the lock of one of the dicts; the same call comes next. It
/// never answers `Moved` or `NoMemory`.
pub fn try_eq(bank: &Bank, pass: &mut Pass, d: Object, e: Object) -> Step
    requires may { MayTry bank.now pass.old (Two d e) }
    requires container { d < container_count (shape_of bank.now) }
    requires other { e < container_count (shape_of bank.now) }
    requires dict { kind_in (shape_of bank.now).starts d ≡ kind.Dict }
    requires other_dict { kind_in (shape_of bank.now).starts e ≡ kind.Dict }
    requires left { 0 < (view pass.old).left }
    ensures may { MayTry bank.now pass.new (Two d e) }
    ensures tried { IsTry (Two d e) (IsMade (call.Dict d (dict.Eq e))) (view pass.old) (view pass.new) result }
    ensures sections { SectionsAfter bank.now (Two d e) pass.old pass.new result }
{
    let called = Call::Dict {
        container: d,
        call: DictCall::Eq { other: e },
    };
    try_under_locks(
        bank,
        pass,
        &DictMaker { alloc: None },
        Objects::Two(d, e),
        &called,
    )
}
