//! Calls on lists, each under the locks of its lists: the locks are taken, the call is made, and the locks are let go.
ghost use Rattle.std.specs.Prelude.{◌≡◌, ◌<◌};
ghost use Rattle.ft_model.specs.declared.call.Call.TheVariants as call;
ghost use Rattle.ft_model.specs.declared.call.ListCall.TheVariants as list;
ghost use Rattle.ft_model.specs.declared.reply.Reply.TheVariants as reply;
ghost use Rattle.ft_model.specs.declared.script.Kind.TheVariants as kind;
ghost use Rattle.ft_trace.specs.Addresses.{container_count};
ghost use Rattle.ft_trace.specs.ContainerStates.{kind_in};
ghost use Rattle.ft_bank.specs.Passes.{shape_of, view};
ghost use Rattle.ft_section.specs.declared.answers.Objects.TheVariants.{One, Two};
ghost use Rattle.ft_section.specs.Ready.{MayTry};
ghost use Rattle.ft_section.specs.Trying.{SectionsAfter};
ghost use Rattle.ft_table_calls.specs.Adding.{KeepsCursors};
ghost use Rattle.ft_table_calls.specs.TriesUnderLocks.{ComesTo, IsMade, IsRead, IsTry};
ghost use Rattle.ft_reads.specs.Clears.{IsClear};
ghost use Rattle.ft_reads.specs.Copies.{IsCopy};
ghost use Rattle.ft_list.specs.ListGrowth.{ExtendsBy};
ghost use Rattle.ft_list.specs.ListMaking.{AppendsTo, InsertsInto, SetsItem};

use crate::making::{Appender, ListMaker};
use ft_bank::{Bank, Pass};
use ft_model::{Call, ListCall, Value};
use ft_section::{Object, Objects, Step};
use ft_table_calls::try_under_locks;
use std::alloc::Global;

/// `l.append(v)` under the lock (Python manual, Mutable Sequence Types): it replies that it is done, or raises a
/// MemoryError.
///
/// # Errors
///
/// `NotYet` where a step of the call found another pass with the lock of the list; `Moved` where two steps of it
/// found a word of the free tables of one class changed. The same call comes next. It never answers `NoMemory`.
/// Whatever it answers, the pass has the cursors that it had.
#[tactic(auto, using(ft_table_calls::proofs::TriedCalls::added_keeps))]
pub fn try_append(bank: &Bank, pass: &mut Pass, l: Object, value: Value) -> Step
    requires may { MayTry bank.now pass.old (One l) }
    requires container { l < container_count (shape_of bank.now) }
    requires list { kind_in (shape_of bank.now).starts l ≡ kind.List }
    requires left { 0 < (view pass.old).left }
    ensures may { MayTry bank.now pass.new (One l) }
    ensures sections { SectionsAfter bank.now (One l) pass.old pass.new result }
    ensures tried { IsTry (One l)
        (ComesTo (AppendsTo (shape_of bank.now) l value) reply.Done)
        (view pass.old) (view pass.new) result }
    ensures cursors { KeepsCursors (view pass.old) (view pass.new) }
{
    let called = Call::List {
        container: l,
        call: ListCall::Append { value },
    };
    try_under_locks(bank, pass, &Appender, Objects::One(l), &called)
}

/// `l.insert(i, v)` under the lock: the value goes before item i, which is clamped to the list (Python manual,
/// Mutable Sequence Types). It replies that it is done, or raises a MemoryError.
///
/// # Errors
///
/// As those of `try_append`.
#[tactic(auto, using(ft_table_calls::proofs::TriedCalls::added_keeps))]
pub fn try_insert(bank: &Bank, pass: &mut Pass, l: Object, index: i64, value: Value) -> Step
    requires may { MayTry bank.now pass.old (One l) }
    requires container { l < container_count (shape_of bank.now) }
    requires list { kind_in (shape_of bank.now).starts l ≡ kind.List }
    requires left { 0 < (view pass.old).left }
    ensures may { MayTry bank.now pass.new (One l) }
    ensures sections { SectionsAfter bank.now (One l) pass.old pass.new result }
    ensures tried { IsTry (One l)
        (ComesTo (InsertsInto (shape_of bank.now) l index value) reply.Done)
        (view pass.old) (view pass.new) result }
    ensures cursors { KeepsCursors (view pass.old) (view pass.new) }
{
    let called = Call::List {
        container: l,
        call: ListCall::Insert { index, value },
    };
    try_under_locks(
        bank,
        pass,
        &ListMaker { alloc: None },
        Objects::One(l),
        &called,
    )
}

/// `l.extend(m)` under the locks of both lists, the lower one taken first; a list named twice counts once, and is read
/// as it was before (Python manual, Mutable Sequence Types). It replies that it is done, or raises a MemoryError, and
/// then no item is added.
///
/// # Errors
///
/// As those of `try_append`, for the locks of both.
#[tactic(auto, using(ft_table_calls::proofs::TriedCalls::added_keeps))]
pub fn try_extend(bank: &Bank, pass: &mut Pass, l: Object, m: Object) -> Step
    requires may { MayTry bank.now pass.old (Two l m) }
    requires container { l < container_count (shape_of bank.now) }
    requires other { m < container_count (shape_of bank.now) }
    requires list { kind_in (shape_of bank.now).starts l ≡ kind.List }
    requires other_list { kind_in (shape_of bank.now).starts m ≡ kind.List }
    requires left { 0 < (view pass.old).left }
    ensures may { MayTry bank.now pass.new (Two l m) }
    ensures sections { SectionsAfter bank.now (Two l m) pass.old pass.new result }
    ensures tried { IsTry (Two l m) (ComesTo (ExtendsBy (shape_of bank.now) l m) reply.Done)
        (view pass.old) (view pass.new) result }
    ensures cursors { KeepsCursors (view pass.old) (view pass.new) }
{
    let called = Call::List {
        container: l,
        call: ListCall::Extend { other: m },
    };
    try_under_locks(
        bank,
        pass,
        &ListMaker { alloc: None },
        Objects::Two(l, m),
        &called,
    )
}

/// `l[i]` under the lock, an IndexError where there is no such item (Python manual, Sequence Types).
///
/// # Errors
///
/// `NotYet` where a step of the call found another pass with the lock of the list; the same call comes next.
/// It never answers `Moved` or `NoMemory`.
pub fn try_get(bank: &Bank, pass: &mut Pass, l: Object, index: i64) -> Step
    requires may { MayTry bank.now pass.old (One l) }
    requires container { l < container_count (shape_of bank.now) }
    requires list { kind_in (shape_of bank.now).starts l ≡ kind.List }
    requires left { 0 < (view pass.old).left }
    ensures may { MayTry bank.now pass.new (One l) }
    ensures sections { SectionsAfter bank.now (One l) pass.old pass.new result }
    ensures tried { IsTry (One l) (IsRead (call.List l (list.Get index))) (view pass.old) (view pass.new) result }
{
    let called = Call::List {
        container: l,
        call: ListCall::Get { index },
    };
    try_under_locks(
        bank,
        pass,
        &ListMaker { alloc: None },
        Objects::One(l),
        &called,
    )
}

/// `l[i] = v`, an IndexError where there is no such item (Python manual, Mutable Sequence Types).
///
/// # Errors
///
/// `NotYet` where a step of the call found another pass with the lock of the list; the same call comes next.
/// It never answers `Moved` or `NoMemory`.
pub fn try_set(bank: &Bank, pass: &mut Pass, l: Object, index: i64, value: Value) -> Step
    requires may { MayTry bank.now pass.old (One l) }
    requires container { l < container_count (shape_of bank.now) }
    requires list { kind_in (shape_of bank.now).starts l ≡ kind.List }
    requires left { 0 < (view pass.old).left }
    ensures may { MayTry bank.now pass.new (One l) }
    ensures sections { SectionsAfter bank.now (One l) pass.old pass.new result }
    ensures tried { IsTry (One l) (SetsItem (shape_of bank.now) l index value) (view pass.old) (view pass.new) result }
{
    let called = Call::List {
        container: l,
        call: ListCall::Set { index, value },
    };
    try_under_locks(
        bank,
        pass,
        &ListMaker { alloc: None },
        Objects::One(l),
        &called,
    )
}

/// `del l[i]`, an IndexError where there is no such item (Python manual, Mutable Sequence Types).
///
/// # Errors
///
/// `NotYet` where a step of the call found another pass with the lock of the list; the same call comes next.
/// It never answers `Moved` or `NoMemory`.
pub fn try_del(bank: &Bank, pass: &mut Pass, l: Object, index: i64) -> Step
    requires may { MayTry bank.now pass.old (One l) }
    requires container { l < container_count (shape_of bank.now) }
    requires list { kind_in (shape_of bank.now).starts l ≡ kind.List }
    requires left { 0 < (view pass.old).left }
    ensures may { MayTry bank.now pass.new (One l) }
    ensures sections { SectionsAfter bank.now (One l) pass.old pass.new result }
    ensures tried { IsTry (One l) (IsMade (call.List l (list.Del index))) (view pass.old) (view pass.new) result }
{
    let called = Call::List {
        container: l,
        call: ListCall::Del { index },
    };
    try_under_locks(
        bank,
        pass,
        &ListMaker { alloc: None },
        Objects::One(l),
        &called,
    )
}

/// `l.pop()` or `l.pop(i)`, an IndexError where there is no such item (Python manual, Mutable Sequence Types).
///
/// # Errors
///
/// `NotYet` where a step of the call found another pass with the lock of the list; the same call comes next.
/// It never answers `Moved` or `NoMemory`.
pub fn try_pop(bank: &Bank, pass: &mut Pass, l: Object, index: Option<i64>) -> Step
    requires may { MayTry bank.now pass.old (One l) }
    requires container { l < container_count (shape_of bank.now) }
    requires list { kind_in (shape_of bank.now).starts l ≡ kind.List }
    requires left { 0 < (view pass.old).left }
    ensures may { MayTry bank.now pass.new (One l) }
    ensures sections { SectionsAfter bank.now (One l) pass.old pass.new result }
    ensures tried { IsTry (One l) (IsMade (call.List l (list.Pop index))) (view pass.old) (view pass.new) result }
{
    let called = Call::List {
        container: l,
        call: ListCall::Pop { index },
    };
    try_under_locks(
        bank,
        pass,
        &ListMaker { alloc: None },
        Objects::One(l),
        &called,
    )
}

/// `l.remove(v)`, a ValueError where there is no such item (Python manual, Mutable Sequence Types).
///
/// # Errors
///
/// `NotYet` where a step of the call found another pass with the lock of the list; the same call comes next.
/// It never answers `Moved` or `NoMemory`.
pub fn try_remove(bank: &Bank, pass: &mut Pass, l: Object, value: Value) -> Step
    requires may { MayTry bank.now pass.old (One l) }
    requires container { l < container_count (shape_of bank.now) }
    requires list { kind_in (shape_of bank.now).starts l ≡ kind.List }
    requires left { 0 < (view pass.old).left }
    ensures may { MayTry bank.now pass.new (One l) }
    ensures sections { SectionsAfter bank.now (One l) pass.old pass.new result }
    ensures tried { IsTry (One l) (IsMade (call.List l (list.Remove value))) (view pass.old) (view pass.new) result }
{
    let called = Call::List {
        container: l,
        call: ListCall::Remove { value },
    };
    try_under_locks(
        bank,
        pass,
        &ListMaker { alloc: None },
        Objects::One(l),
        &called,
    )
}

/// `l.index(v)`, a ValueError where there is no such item (Python manual, Sequence Types).
///
/// # Errors
///
/// `NotYet` where a step of the call found another pass with the lock of the list; the same call comes next.
/// It never answers `Moved` or `NoMemory`.
pub fn try_index(bank: &Bank, pass: &mut Pass, l: Object, value: Value) -> Step
    requires may { MayTry bank.now pass.old (One l) }
    requires container { l < container_count (shape_of bank.now) }
    requires list { kind_in (shape_of bank.now).starts l ≡ kind.List }
    requires left { 0 < (view pass.old).left }
    ensures may { MayTry bank.now pass.new (One l) }
    ensures sections { SectionsAfter bank.now (One l) pass.old pass.new result }
    ensures tried { IsTry (One l) (IsMade (call.List l (list.Index value))) (view pass.old) (view pass.new) result }
{
    let called = Call::List {
        container: l,
        call: ListCall::Index { value },
    };
    try_under_locks(
        bank,
        pass,
        &ListMaker { alloc: None },
        Objects::One(l),
        &called,
    )
}

/// `l.count(v)` (Python manual, Sequence Types).
///
/// # Errors
///
/// `NotYet` where a step of the call found another pass with the lock of the list; the same call comes next.
/// It never answers `Moved` or `NoMemory`.
pub fn try_count(bank: &Bank, pass: &mut Pass, l: Object, value: Value) -> Step
    requires may { MayTry bank.now pass.old (One l) }
    requires container { l < container_count (shape_of bank.now) }
    requires list { kind_in (shape_of bank.now).starts l ≡ kind.List }
    requires left { 0 < (view pass.old).left }
    ensures may { MayTry bank.now pass.new (One l) }
    ensures sections { SectionsAfter bank.now (One l) pass.old pass.new result }
    ensures tried { IsTry (One l) (IsMade (call.List l (list.Count value))) (view pass.old) (view pass.new) result }
{
    let called = Call::List {
        container: l,
        call: ListCall::Count { value },
    };
    try_under_locks(
        bank,
        pass,
        &ListMaker { alloc: None },
        Objects::One(l),
        &called,
    )
}

/// `v in l` under the lock (Python manual, Sequence Types).
///
/// # Errors
///
/// `NotYet` where a step of the call found another pass with the lock of the list; the same call comes next.
/// It never answers `Moved` or `NoMemory`.
pub fn try_has(bank: &Bank, pass: &mut Pass, l: Object, value: Value) -> Step
    requires may { MayTry bank.now pass.old (One l) }
    requires container { l < container_count (shape_of bank.now) }
    requires list { kind_in (shape_of bank.now).starts l ≡ kind.List }
    requires left { 0 < (view pass.old).left }
    ensures may { MayTry bank.now pass.new (One l) }
    ensures sections { SectionsAfter bank.now (One l) pass.old pass.new result }
    ensures tried { IsTry (One l) (IsMade (call.List l (list.Has value))) (view pass.old) (view pass.new) result }
{
    let called = Call::List {
        container: l,
        call: ListCall::Has { value },
    };
    try_under_locks(
        bank,
        pass,
        &ListMaker { alloc: None },
        Objects::One(l),
        &called,
    )
}

/// `l.reverse()` (Python manual, Mutable Sequence Types).
///
/// # Errors
///
/// `NotYet` where a step of the call found another pass with the lock of the list; the same call comes next.
/// It never answers `Moved` or `NoMemory`.
pub fn try_reverse(bank: &Bank, pass: &mut Pass, l: Object) -> Step
    requires may { MayTry bank.now pass.old (One l) }
    requires container { l < container_count (shape_of bank.now) }
    requires list { kind_in (shape_of bank.now).starts l ≡ kind.List }
    requires left { 0 < (view pass.old).left }
    ensures may { MayTry bank.now pass.new (One l) }
    ensures sections { SectionsAfter bank.now (One l) pass.old pass.new result }
    ensures tried { IsTry (One l) (IsMade (call.List l list.Reverse)) (view pass.old) (view pass.new) result }
{
    let called = Call::List {
        container: l,
        call: ListCall::Reverse,
    };
    try_under_locks(
        bank,
        pass,
        &ListMaker { alloc: None },
        Objects::One(l),
        &called,
    )
}

/// `l[i:j]`, both ends clamped (Python manual, Sequence Types).
///
/// # Errors
///
/// `NotYet` where a step of the call found another pass with the lock of the list; the same call comes next.
/// `NoMemory` where memory for the copy ran out: the list is as it was, and the lock is let go. It never
/// answers `Moved`.
pub fn try_slice(
    bank: &Bank,
    pass: &mut Pass,
    alloc: Global,
    l: Object,
    start: i64,
    end: i64,
) -> Step
    requires may { MayTry bank.now pass.old (One l) }
    requires container { l < container_count (shape_of bank.now) }
    requires list { kind_in (shape_of bank.now).starts l ≡ kind.List }
    requires left { 0 < (view pass.old).left }
    ensures may { MayTry bank.now pass.new (One l) }
    ensures sections { SectionsAfter bank.now (One l) pass.old pass.new result }
    ensures tried { IsTry (One l) (IsCopy (call.List l (list.Slice start end))) (view pass.old) (view pass.new) result }
{
    let called = Call::List {
        container: l,
        call: ListCall::Slice { start, end },
    };
    try_under_locks(
        bank,
        pass,
        &ListMaker { alloc: Some(alloc) },
        Objects::One(l),
        &called,
    )
}

/// All items under the lock.
///
/// # Errors
///
/// `NotYet` where a step of the call found another pass with the lock of the list; the same call comes next.
/// `NoMemory` where memory for the copy ran out: the list is as it was, and the lock is let go. It never
/// answers `Moved`.
pub fn try_items(bank: &Bank, pass: &mut Pass, alloc: Global, l: Object) -> Step
    requires may { MayTry bank.now pass.old (One l) }
    requires container { l < container_count (shape_of bank.now) }
    requires list { kind_in (shape_of bank.now).starts l ≡ kind.List }
    requires left { 0 < (view pass.old).left }
    ensures may { MayTry bank.now pass.new (One l) }
    ensures sections { SectionsAfter bank.now (One l) pass.old pass.new result }
    ensures tried { IsTry (One l) (IsCopy (call.List l list.Items)) (view pass.old) (view pass.new) result }
{
    let called = Call::List {
        container: l,
        call: ListCall::Items,
    };
    try_under_locks(
        bank,
        pass,
        &ListMaker { alloc: Some(alloc) },
        Objects::One(l),
        &called,
    )
}

/// `l.clear()` under the lock (Python manual, Mutable Sequence Types).
///
/// # Errors
///
/// `NotYet` where a step of the call found another pass with the lock of the list; the same call comes next.
/// It never answers `Moved` or `NoMemory`.
#[tactic(auto, using(ft_reads::proofs::TriedReads::clear_keeps))]
pub fn try_clear(bank: &Bank, pass: &mut Pass, l: Object) -> Step
    requires may { MayTry bank.now pass.old (One l) }
    requires container { l < container_count (shape_of bank.now) }
    requires list { kind_in (shape_of bank.now).starts l ≡ kind.List }
    requires left { 0 < (view pass.old).left }
    ensures may { MayTry bank.now pass.new (One l) }
    ensures sections { SectionsAfter bank.now (One l) pass.old pass.new result }
    ensures tried { IsTry (One l) (IsClear (call.List l list.Clear)) (view pass.old) (view pass.new) result }
    ensures cursors { KeepsCursors (view pass.old) (view pass.new) }
{
    let called = Call::List {
        container: l,
        call: ListCall::Clear,
    };
    try_under_locks(
        bank,
        pass,
        &ListMaker { alloc: None },
        Objects::One(l),
        &called,
    )
}

/// `len(l)` under the lock (Python manual, Sequence Types).
///
/// # Errors
///
/// `NotYet` where a step of the call found another pass with the lock of the list; the same call comes next. It
/// never answers `Moved` or `NoMemory`.
pub fn try_len(bank: &Bank, pass: &mut Pass, l: Object) -> Step
    requires may { MayTry bank.now pass.old (One l) }
    requires container { l < container_count (shape_of bank.now) }
    requires list { kind_in (shape_of bank.now).starts l ≡ kind.List }
    requires left { 0 < (view pass.old).left }
    ensures may { MayTry bank.now pass.new (One l) }
    ensures sections { SectionsAfter bank.now (One l) pass.old pass.new result }
    ensures tried { IsTry (One l) (IsRead (call.List l list.Len)) (view pass.old) (view pass.new) result }
{
    let called = Call::List {
        container: l,
        call: ListCall::Len,
    };
    try_under_locks(
        bank,
        pass,
        &ListMaker { alloc: None },
        Objects::One(l),
        &called,
    )
}

/// `l == m` under the locks of both, the lower one taken first; a list named twice counts once (Python
/// manual, Comparisons).
///
/// # Errors
///
/// `NotYet` where a step of the call found another pass with the lock of one of the lists; the same call
/// comes next. It never answers `Moved` or `NoMemory`.
pub fn try_eq(bank: &Bank, pass: &mut Pass, l: Object, m: Object) -> Step
    requires may { MayTry bank.now pass.old (Two l m) }
    requires container { l < container_count (shape_of bank.now) }
    requires other { m < container_count (shape_of bank.now) }
    requires list { kind_in (shape_of bank.now).starts l ≡ kind.List }
    requires other_list { kind_in (shape_of bank.now).starts m ≡ kind.List }
    requires left { 0 < (view pass.old).left }
    ensures may { MayTry bank.now pass.new (Two l m) }
    ensures sections { SectionsAfter bank.now (Two l m) pass.old pass.new result }
    ensures tried { IsTry (Two l m) (IsMade (call.List l (list.Eq m))) (view pass.old) (view pass.new) result }
{
    let called = Call::List {
        container: l,
        call: ListCall::Eq { other: m },
    };
    try_under_locks(
        bank,
        pass,
        &ListMaker { alloc: None },
        Objects::Two(l, m),
        &called,
    )
}
