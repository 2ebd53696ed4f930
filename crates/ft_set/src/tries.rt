//! Calls on sets, each under the locks of its sets: the locks are taken, the call is made, and the locks are let go.
ghost use Rattle.std.specs.Prelude.{◌≡◌, ◌<◌};
ghost use Rattle.ft_model.specs.declared.call.Call.TheVariants as call;
ghost use Rattle.ft_model.specs.declared.call.SetCall.TheVariants as set;
ghost use Rattle.ft_model.specs.declared.reply.Reply.TheVariants as reply;
ghost use Rattle.ft_model.specs.declared.script.Kind.TheVariants as kind;
ghost use Rattle.ft_trace.specs.Addresses.{container_count};
ghost use Rattle.ft_trace.specs.ContainerStates.{kind_in};
ghost use Rattle.ft_bank.specs.KeyHashes.{IsKeyIn};
ghost use Rattle.ft_bank.specs.Passes.{shape_of, view};
ghost use Rattle.ft_section.specs.declared.answers.Objects.TheVariants.{One, Two};
ghost use Rattle.ft_section.specs.Ready.{MayTry};
ghost use Rattle.ft_section.specs.Trying.{SectionsAfter};
ghost use Rattle.ft_table_calls.specs.Adding.{KeepsCursors};
ghost use Rattle.ft_table_calls.specs.TriesUnderLocks.{ComesTo, IsMade, IsRead, IsTry};
ghost use Rattle.ft_new_keys.specs.KeyGrowth.{PutsKey};
ghost use Rattle.ft_merging.specs.Joining.{JoinsBy};
ghost use Rattle.ft_merging.specs.Parting.{PartsBy};
ghost use Rattle.ft_reads.specs.Clears.{IsClear};
ghost use Rattle.ft_reads.specs.Copies.{IsCopy};

use crate::making::{ElementMaker, SetMaker};
use ft_bank::{Bank, Pass};
use ft_model::{Call, Key, SetCall};
use ft_section::{Object, Objects, Step};
use ft_table_calls::try_under_locks;
use std::alloc::Global;

/// `k in s` (Python manual, Set Types).
///
/// # Errors
///
/// `NotYet` where a step of the call found another pass with the lock of the set; the same call comes
/// next. It never answers `Moved` or `NoMemory`.
pub fn try_has(bank: &Bank, pass: &mut Pass, s: Object, key: Key) -> Step
    requires may { MayTry bank.now pass.old (One s) }
    requires container { s < container_count (shape_of bank.now) }
    requires set { kind_in (shape_of bank.now).starts s ≡ kind.Set }
    requires key { IsKeyIn (shape_of bank.now) key }
    requires left { 0 < (view pass.old).left }
    ensures may { MayTry bank.now pass.new (One s) }
    ensures sections { SectionsAfter bank.now (One s) pass.old pass.new result }
    ensures tried { IsTry (One s) (IsRead (call.Set s (set.Has key))) (view pass.old) (view pass.new) result }
{
    let called = Call::Set {
        container: s,
        call: SetCall::Has { key },
    };
    try_under_locks(
        bank,
        pass,
        &SetMaker { alloc: None },
        Objects::One(s),
        &called,
    )
}

/// `len(s)` under the lock (Python manual, Set Types).
///
/// # Errors
///
/// `NotYet` where a step of the call found another pass with the lock of the set; the same call comes next. It
/// never answers `Moved` or `NoMemory`.
pub fn try_len(bank: &Bank, pass: &mut Pass, s: Object) -> Step
    requires may { MayTry bank.now pass.old (One s) }
    requires container { s < container_count (shape_of bank.now) }
    requires set { kind_in (shape_of bank.now).starts s ≡ kind.Set }
    requires left { 0 < (view pass.old).left }
    ensures may { MayTry bank.now pass.new (One s) }
    ensures sections { SectionsAfter bank.now (One s) pass.old pass.new result }
    ensures tried { IsTry (One s) (IsRead (call.Set s set.Len)) (view pass.old) (view pass.new) result }
{
    let called = Call::Set {
        container: s,
        call: SetCall::Len,
    };
    try_under_locks(
        bank,
        pass,
        &SetMaker { alloc: None },
        Objects::One(s),
        &called,
    )
}

/// `s.add(k)` under the lock (Python manual, Set Types): it replies that it is done, or raises a MemoryError.
///
/// # Errors
///
/// `NotYet` where a step of the call found another pass with the lock of the set; `Moved` where two steps of it
/// found a word of the free tables of one class changed. The same call comes next. It never answers `NoMemory`.
#[tactic(auto, using(ft_table_calls::proofs::TriedCalls::added_keeps))]
pub fn try_add(bank: &Bank, pass: &mut Pass, s: Object, key: Key) -> Step
    requires may { MayTry bank.now pass.old (One s) }
    requires container { s < container_count (shape_of bank.now) }
    requires set { kind_in (shape_of bank.now).starts s ≡ kind.Set }
    requires key { IsKeyIn (shape_of bank.now) key }
    requires left { 0 < (view pass.old).left }
    ensures may { MayTry bank.now pass.new (One s) }
    ensures tried { IsTry (One s)
        (ComesTo (PutsKey (shape_of bank.now) s key (call.Set s (set.Add key)) reply.Done) reply.Done)
        (view pass.old) (view pass.new) result }
    ensures sections { SectionsAfter bank.now (One s) pass.old pass.new result }
    ensures cursors { KeepsCursors (view pass.old) (view pass.new) }
{
    let called = Call::Set {
        container: s,
        call: SetCall::Add { key },
    };
    try_under_locks(bank, pass, &ElementMaker, Objects::One(s), &called)
}

/// `s |= t` under the locks of both sets, the lower one taken first; a set named twice counts once, and stays as it is
/// (Python manual, Set Types). It replies that it is done, or raises a MemoryError, and then no element is added.
///
/// # Errors
///
/// `NotYet` where a step of the call found another pass with the lock of one of the sets; `Moved` where two steps of
/// it found a word of the free tables of one class changed. The same call comes next. It never answers `NoMemory`.
/// Whatever it answers, the pass has the cursors that it had.
#[tactic(auto, using(ft_table_calls::proofs::TriedCalls::added_keeps))]
pub fn try_or(bank: &Bank, pass: &mut Pass, s: Object, t: Object) -> Step
    requires may { MayTry bank.now pass.old (Two s t) }
    requires container { s < container_count (shape_of bank.now) }
    requires other { t < container_count (shape_of bank.now) }
    requires set { kind_in (shape_of bank.now).starts s ≡ kind.Set }
    requires other_set { kind_in (shape_of bank.now).starts t ≡ kind.Set }
    requires left { 0 < (view pass.old).left }
    ensures may { MayTry bank.now pass.new (Two s t) }
    ensures tried { IsTry (Two s t) (ComesTo (JoinsBy (shape_of bank.now) s t (call.Set s (set.Or t))) reply.Done)
        (view pass.old) (view pass.new) result }
    ensures sections { SectionsAfter bank.now (Two s t) pass.old pass.new result }
    ensures cursors { KeepsCursors (view pass.old) (view pass.new) }
{
    let called = Call::Set {
        container: s,
        call: SetCall::Or { other: t },
    };
    try_under_locks(
        bank,
        pass,
        &SetMaker { alloc: None },
        Objects::Two(s, t),
        &called,
    )
}

/// `s ^= t` under the locks of both sets, the lower one taken first; a set named twice counts once, and is empty then
/// (Python manual, Set Types). The elements that stay keep their serials. It replies that it is done, or raises a
/// MemoryError, and then the set is as it was.
///
/// # Errors
///
/// As those of `try_or`. Whatever it answers, the pass has the cursors that it had.
#[tactic(auto, using(ft_table_calls::proofs::TriedCalls::added_keeps))]
pub fn try_xor(bank: &Bank, pass: &mut Pass, s: Object, t: Object) -> Step
    requires may { MayTry bank.now pass.old (Two s t) }
    requires container { s < container_count (shape_of bank.now) }
    requires other { t < container_count (shape_of bank.now) }
    requires set { kind_in (shape_of bank.now).starts s ≡ kind.Set }
    requires other_set { kind_in (shape_of bank.now).starts t ≡ kind.Set }
    requires left { 0 < (view pass.old).left }
    ensures may { MayTry bank.now pass.new (Two s t) }
    ensures tried { IsTry (Two s t) (ComesTo (PartsBy (shape_of bank.now) s t (call.Set s (set.Xor t))) reply.Done)
        (view pass.old) (view pass.new) result }
    ensures sections { SectionsAfter bank.now (Two s t) pass.old pass.new result }
    ensures cursors { KeepsCursors (view pass.old) (view pass.new) }
{
    let called = Call::Set {
        container: s,
        call: SetCall::Xor { other: t },
    };
    try_under_locks(
        bank,
        pass,
        &SetMaker { alloc: None },
        Objects::Two(s, t),
        &called,
    )
}

/// `s &= t` under the locks of both sets, the lower one taken first; a set named twice counts once, and stays as it is
/// (Python manual, Set Types). The elements that stay keep their serials.
///
/// # Errors
///
/// `NotYet` where a step of the call found another pass with the lock of one of the sets; the same call comes next.
/// It never answers `Moved` or `NoMemory`.
pub fn try_and(bank: &Bank, pass: &mut Pass, s: Object, t: Object) -> Step
    requires may { MayTry bank.now pass.old (Two s t) }
    requires container { s < container_count (shape_of bank.now) }
    requires other { t < container_count (shape_of bank.now) }
    requires set { kind_in (shape_of bank.now).starts s ≡ kind.Set }
    requires other_set { kind_in (shape_of bank.now).starts t ≡ kind.Set }
    requires left { 0 < (view pass.old).left }
    ensures may { MayTry bank.now pass.new (Two s t) }
    ensures tried { IsTry (Two s t) (IsMade (call.Set s (set.And t))) (view pass.old) (view pass.new) result }
    ensures sections { SectionsAfter bank.now (Two s t) pass.old pass.new result }
{
    let called = Call::Set {
        container: s,
        call: SetCall::And { other: t },
    };
    try_under_locks(
        bank,
        pass,
        &SetMaker { alloc: None },
        Objects::Two(s, t),
        &called,
    )
}

/// `s -= t` under the locks of both sets, the lower one taken first; a set named twice counts once, and is empty then
/// (Python manual, Set Types). The elements that stay keep their serials.
///
/// # Errors
///
/// As those of `try_and`.
pub fn try_sub(bank: &Bank, pass: &mut Pass, s: Object, t: Object) -> Step
    requires may { MayTry bank.now pass.old (Two s t) }
    requires container { s < container_count (shape_of bank.now) }
    requires other { t < container_count (shape_of bank.now) }
    requires set { kind_in (shape_of bank.now).starts s ≡ kind.Set }
    requires other_set { kind_in (shape_of bank.now).starts t ≡ kind.Set }
    requires left { 0 < (view pass.old).left }
    ensures may { MayTry bank.now pass.new (Two s t) }
    ensures tried { IsTry (Two s t) (IsMade (call.Set s (set.Sub t))) (view pass.old) (view pass.new) result }
    ensures sections { SectionsAfter bank.now (Two s t) pass.old pass.new result }
{
    let called = Call::Set {
        container: s,
        call: SetCall::Sub { other: t },
    };
    try_under_locks(
        bank,
        pass,
        &SetMaker { alloc: None },
        Objects::Two(s, t),
        &called,
    )
}

/// `s.discard(k)`: removes the element if it is present (Python manual, Set Types).
///
/// # Errors
///
/// `NotYet` where a step of the call found another pass with the lock of the set; the same call comes
/// next. It never answers `Moved` or `NoMemory`.
pub fn try_discard(bank: &Bank, pass: &mut Pass, s: Object, key: Key) -> Step
    requires may { MayTry bank.now pass.old (One s) }
    requires container { s < container_count (shape_of bank.now) }
    requires set { kind_in (shape_of bank.now).starts s ≡ kind.Set }
    requires key { IsKeyIn (shape_of bank.now) key }
    requires left { 0 < (view pass.old).left }
    ensures may { MayTry bank.now pass.new (One s) }
    ensures sections { SectionsAfter bank.now (One s) pass.old pass.new result }
    ensures tried { IsTry (One s) (IsMade (call.Set s (set.Discard key))) (view pass.old) (view pass.new) result }
{
    let called = Call::Set {
        container: s,
        call: SetCall::Discard { key },
    };
    try_under_locks(bank, pass, &ElementMaker, Objects::One(s), &called)
}

/// `s.remove(k)`: raises a KeyError if the element is not contained in the set (Python manual, Set Types).
///
/// # Errors
///
/// `NotYet` where a step of the call found another pass with the lock of the set; the same call comes
/// next. It never answers `Moved` or `NoMemory`.
pub fn try_remove(bank: &Bank, pass: &mut Pass, s: Object, key: Key) -> Step
    requires may { MayTry bank.now pass.old (One s) }
    requires container { s < container_count (shape_of bank.now) }
    requires set { kind_in (shape_of bank.now).starts s ≡ kind.Set }
    requires key { IsKeyIn (shape_of bank.now) key }
    requires left { 0 < (view pass.old).left }
    ensures may { MayTry bank.now pass.new (One s) }
    ensures sections { SectionsAfter bank.now (One s) pass.old pass.new result }
    ensures tried { IsTry (One s) (IsMade (call.Set s (set.Remove key))) (view pass.old) (view pass.new) result }
{
    let called = Call::Set {
        container: s,
        call: SetCall::Remove { key },
    };
    try_under_locks(
        bank,
        pass,
        &SetMaker { alloc: None },
        Objects::One(s),
        &called,
    )
}

/// `s.pop()`: the first element, which is taken out; a KeyError if the set is empty (Python manual, Set Types).
///
/// # Errors
///
/// `NotYet` where a step of the call found another pass with the lock of the set; the same call comes next. It never
/// answers `Moved` or `NoMemory`.
pub fn try_pop(bank: &Bank, pass: &mut Pass, s: Object) -> Step
    requires may { MayTry bank.now pass.old (One s) }
    requires container { s < container_count (shape_of bank.now) }
    requires set { kind_in (shape_of bank.now).starts s ≡ kind.Set }
    requires left { 0 < (view pass.old).left }
    ensures may { MayTry bank.now pass.new (One s) }
    ensures tried { IsTry (One s) (IsMade (call.Set s set.Pop)) (view pass.old) (view pass.new) result }
    ensures sections { SectionsAfter bank.now (One s) pass.old pass.new result }
{
    let called = Call::Set {
        container: s,
        call: SetCall::Pop,
    };
    try_under_locks(
        bank,
        pass,
        &SetMaker { alloc: None },
        Objects::One(s),
        &called,
    )
}

/// `s.clear()` under the lock (Python manual, Set Types).
///
/// # Errors
///
/// `NotYet` where a step of the call found another pass with the lock of the set; the same call comes next. It never
/// answers `Moved` or `NoMemory`.
#[tactic(auto, using(ft_reads::proofs::TriedReads::clear_keeps))]
pub fn try_clear(bank: &Bank, pass: &mut Pass, s: Object) -> Step
    requires may { MayTry bank.now pass.old (One s) }
    requires container { s < container_count (shape_of bank.now) }
    requires set { kind_in (shape_of bank.now).starts s ≡ kind.Set }
    requires left { 0 < (view pass.old).left }
    ensures may { MayTry bank.now pass.new (One s) }
    ensures tried { IsTry (One s) (IsClear (call.Set s set.Clear)) (view pass.old) (view pass.new) result }
    ensures sections { SectionsAfter bank.now (One s) pass.old pass.new result }
    ensures cursors { KeepsCursors (view pass.old) (view pass.new) }
{
    let called = Call::Set {
        container: s,
        call: SetCall::Clear,
    };
    try_under_locks(
        bank,
        pass,
        &SetMaker { alloc: None },
        Objects::One(s),
        &called,
    )
}

/// All elements under the lock (Python manual, Set Types).
///
/// # Errors
///
/// `NotYet` where a step of the call found another pass with the lock of the set; the same call comes next.
/// `NoMemory` where memory for the copy ran out: the set is as it was, and the lock is let go. It never answers
/// `Moved`.
pub fn try_items(bank: &Bank, pass: &mut Pass, alloc: Global, s: Object) -> Step
    requires may { MayTry bank.now pass.old (One s) }
    requires container { s < container_count (shape_of bank.now) }
    requires set { kind_in (shape_of bank.now).starts s ≡ kind.Set }
    requires left { 0 < (view pass.old).left }
    ensures may { MayTry bank.now pass.new (One s) }
    ensures tried { IsTry (One s) (IsCopy (call.Set s set.Items)) (view pass.old) (view pass.new) result }
    ensures sections { SectionsAfter bank.now (One s) pass.old pass.new result }
{
    let called = Call::Set {
        container: s,
        call: SetCall::Items,
    };
    try_under_locks(
        bank,
        pass,
        &SetMaker { alloc: Some(alloc) },
        Objects::One(s),
        &called,
    )
}

/// `s == t` under the locks of both, the lower one taken first; a set named twice counts once (Python manual,
/// Set Types).
///
/// # Errors
///
/// `NotYet` where a step of the call found another pass with the lock of one of the sets; the same call comes next. It
/// never answers `Moved` or `NoMemory`.
pub fn try_eq(bank: &Bank, pass: &mut Pass, s: Object, t: Object) -> Step
    requires may { MayTry bank.now pass.old (Two s t) }
    requires container { s < container_count (shape_of bank.now) }
    requires other { t < container_count (shape_of bank.now) }
    requires set { kind_in (shape_of bank.now).starts s ≡ kind.Set }
    requires other_set { kind_in (shape_of bank.now).starts t ≡ kind.Set }
    requires left { 0 < (view pass.old).left }
    ensures may { MayTry bank.now pass.new (Two s t) }
    ensures tried { IsTry (Two s t) (IsMade (call.Set s (set.Eq t))) (view pass.old) (view pass.new) result }
    ensures sections { SectionsAfter bank.now (Two s t) pass.old pass.new result }
{
    let called = Call::Set {
        container: s,
        call: SetCall::Eq { other: t },
    };
    try_under_locks(
        bank,
        pass,
        &SetMaker { alloc: None },
        Objects::Two(s, t),
        &called,
    )
}

/// `s <= t` under the locks of both, the lower one taken first; a set named twice counts once (Python manual,
/// Set Types).
///
/// # Errors
///
/// `NotYet` where a step of the call found another pass with the lock of one of the sets; the same call comes next. It
/// never answers `Moved` or `NoMemory`.
pub fn try_subset(bank: &Bank, pass: &mut Pass, s: Object, t: Object) -> Step
    requires may { MayTry bank.now pass.old (Two s t) }
    requires container { s < container_count (shape_of bank.now) }
    requires other { t < container_count (shape_of bank.now) }
    requires set { kind_in (shape_of bank.now).starts s ≡ kind.Set }
    requires other_set { kind_in (shape_of bank.now).starts t ≡ kind.Set }
    requires left { 0 < (view pass.old).left }
    ensures may { MayTry bank.now pass.new (Two s t) }
    ensures tried { IsTry (Two s t) (IsMade (call.Set s (set.Subset t))) (view pass.old) (view pass.new) result }
    ensures sections { SectionsAfter bank.now (Two s t) pass.old pass.new result }
{
    let called = Call::Set {
        container: s,
        call: SetCall::Subset { other: t },
    };
    try_under_locks(
        bank,
        pass,
        &SetMaker { alloc: None },
        Objects::Two(s, t),
        &called,
    )
}

/// `s.isdisjoint(t)` under the locks of both, the lower one taken first; a set named twice counts once (Python manual,
/// Set Types).
///
/// # Errors
///
/// `NotYet` where a step of the call found another pass with the lock of one of the sets; the same call comes next. It
/// never answers `Moved` or `NoMemory`.
pub fn try_disjoint(bank: &Bank, pass: &mut Pass, s: Object, t: Object) -> Step
    requires may { MayTry bank.now pass.old (Two s t) }
    requires container { s < container_count (shape_of bank.now) }
    requires other { t < container_count (shape_of bank.now) }
    requires set { kind_in (shape_of bank.now).starts s ≡ kind.Set }
    requires other_set { kind_in (shape_of bank.now).starts t ≡ kind.Set }
    requires left { 0 < (view pass.old).left }
    ensures may { MayTry bank.now pass.new (Two s t) }
    ensures tried { IsTry (Two s t) (IsMade (call.Set s (set.Disjoint t))) (view pass.old) (view pass.new) result }
    ensures sections { SectionsAfter bank.now (Two s t) pass.old pass.new result }
{
    let called = Call::Set {
        container: s,
        call: SetCall::Disjoint { other: t },
    };
    try_under_locks(
        bank,
        pass,
        &SetMaker { alloc: None },
        Objects::Two(s, t),
        &called,
    )
}
