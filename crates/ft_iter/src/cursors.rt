//! `iter` and `next` of a pass under the lock of the container (Python manual, Iterator Types). A cursor is its
//! thread's: its caller keeps it, and the pass's own entries say which one it is.
ghost use Rattle.std.specs.Prelude.{◌≡◌, ℕ, ◌<◌, ◌≤◌, List, [], ◌∷◌, Some, true, false};
ghost use Rattle.ft_model.specs.declared.call.Call.TheVariants as call;
ghost use Rattle.ft_model.specs.declared.cursor.Cursor.{Cursor};
ghost use Rattle.ft_model.specs.Worlds.{container_of, cursor_kind};
ghost use Rattle.ft_trace.specs.declared.Act.{Act};
ghost use Rattle.ft_trace.specs.declared.Act.TheVariants.{AnswerCursor, ReadCounter};
ghost use Rattle.ft_trace.specs.Acts.{has_lock, view_after, seen_writes};
ghost use Rattle.ft_trace.specs.Addresses.{container_count};
ghost use Rattle.ft_trace.specs.Holds.{held_unboxed, known_state};
ghost use Rattle.ft_trace.specs.Pictures.{Represents};
ghost use Rattle.ft_trace.specs.ContainerStates.{kind_in};
ghost use Rattle.ft_trace.specs.Kinds.{HasVersions};
ghost use Rattle.ft_bank.specs.Answered.{AnsweredCursor};
ghost use Rattle.ft_bank.specs.Passes.{shape_of, view, cursor_under, IsPassOf};
ghost use Rattle.ft_bank.specs.Reads.{IsCursorShown};
ghost use Rattle.ft_bank.specs.PassSections.{stack_of};
ghost use Rattle.ft_bank.specs.Series.{DidAll};
ghost use Rattle.ft_search.specs.KeyLooks.{AreLooks};
ghost use Rattle.ft_section.specs.declared.answers.Objects.TheVariants.{One};
ghost use Rattle.ft_section.specs.Ready.{MayTry};
ghost use Rattle.ft_section.specs.Trying.{SectionsAfter};
ghost use Rattle.ft_iter.specs.CursorCalls.{step_in, iter_call, iter_cursor, is_landed_cursor, IsOver, IsMoveOf, KeepsOtherCursors};
ghost use Rattle.ft_iter.specs.Moves.{IsStep};

use crate::walks::{USED, next_dict, next_list, next_set};
use ft_bank::{Bank, Pass};
use ft_model::{
    Advanced, Call, Cursor, CursorState, DequeCall, DictCall, Kind, ListCall, Reply, SetCall,
};
use ft_section::{Got, Object, Objects, Stamp, Step, let_go, take_for};

/// Loads the counter and answers an `iter` or a `next` with that stamp, by a pass that has the lock of the
/// container: the cursor under its number is this one from then on.
fn answer_moved(
    bank: &Bank,
    pass: &mut Pass,
    call: &Call,
    reply: Reply,
    number: u32,
    cursor: &Cursor,
) -> (Reply, Stamp)
    requires pass { IsPassOf bank.now pass.old }
    requires shown { (stamp : ℕ) → IsCursorShown (view_after (ReadCounter stamp) (view pass.old)) call.now reply stamp number cursor.now }
    ensures pass { IsPassOf bank.now pass.new }
    ensures did { DidAll (AnswerCursor call.now reply result.1.number number (cursor_under pass.old number) cursor.now
        ∷ ReadCounter result.1.number ∷ []) pass.old pass.new }
    ensures said { (result.0 ≡ reply) × (result.1.wrote ≡ false) }
    ensures seen { seen_writes (view pass.old) ≤ result.1.number }
{
    let stamp = bank.stamp(pass);
    bank.answer_cursor(pass, call, &reply, stamp, number, cursor);
    let stamp = Stamp {
        number: stamp,
        wrote: false,
    };
    (reply, stamp)
}

/// One `next` of a cursor over a container whose lock the pass has.
fn step(bank: &Bank, pass: &mut Pass, cursor: Cursor) -> Advanced
    requires pass { IsPassOf bank.now pass.old }
    requires container { container_of cursor < container_count (shape_of bank.now) }
    requires kind { kind_in (shape_of bank.now).starts (container_of cursor) ≡ cursor_kind cursor }
    requires landed { is_landed_cursor cursor ≡ true }
    requires locked { has_lock (container_of cursor) (view pass.old).log ≡ true }
    requires stands { Represents (shape_of bank.now).texts (held_unboxed (container_of cursor) (view pass.old)) (known_state (container_of cursor) (view pass.old)) }
    ensures pass { IsPassOf bank.now pass.new }
    ensures looks { (part : List Act) × AreLooks part × DidAll part pass.old pass.new }
    ensures next { IsStep result (step_in (known_state (container_of cursor) (view pass.old)).content cursor) }
{
    match cursor {
        Cursor::Dict {
            container,
            walk,
            size,
            expected,
            last,
        } => next_dict(bank, pass, container, walk, size, expected, last),
        Cursor::List {
            container,
            index,
            ended,
        } => next_list(bank, pass, container, index, ended),
        Cursor::Set {
            container,
            walk,
            size,
            last,
        } => next_set(bank, pass, container, walk, size, last),
        Cursor::Deque { .. } | Cursor::DictBack { .. } | Cursor::ListBack { .. } => unreachable!(),
    }
}

/// `next(c)`, by a pass that has the lock of the cursor's container. The counter is loaded while it has the
/// lock.
fn next_locked(bank: &Bank, pass: &mut Pass, number: u32, cursor: &mut Cursor) -> (Reply, Stamp)
    requires pass { IsPassOf bank.now pass.old }
    requires container { container_of cursor.old < container_count (shape_of bank.now) }
    requires kind { kind_in (shape_of bank.now).starts (container_of cursor.old) ≡ cursor_kind cursor.old }
    requires landed { is_landed_cursor cursor.old ≡ true }
    requires locked { has_lock (container_of cursor.old) (view pass.old).log ≡ true }
    requires stands { Represents (shape_of bank.now).texts (held_unboxed (container_of cursor.old) (view pass.old)) (known_state (container_of cursor.old) (view pass.old)) }
    requires left { 0 < (view pass.old).left }
    requires cursor { cursor_under pass.old number ≡ Some cursor.old }
    ensures pass { IsPassOf bank.now pass.new }
    ensures sections { stack_of pass.new ≡ stack_of pass.old }
    ensures wrote { result.1.wrote ≡ false }
    ensures over { IsOver (cursor_kind cursor.old) (container_of cursor.old) cursor.new }
    ensures answered { AnsweredCursor (call.Next number) result.0 result.1.number number cursor.new (view pass.old) (view pass.new) }
{
    let advanced = step(bank, pass, *cursor);
    let call = Call::Next { cursor: number };
    let answered = answer_moved(bank, pass, &call, advanced.reply, number, &advanced.cursor);
    *cursor = advanced.cursor;
    answered
}

/// `next(c)` (Python manual, Iterator Types): the cursor's next pair, item or element under the container's
/// lock, or the end of its walk. The cursor is the one that the pass's own entries leave under its number.
/// Only `Done` changes it.
///
/// # Errors
///
/// `NotYet` where a step of the call found another pass with the lock of the container; the same call comes
/// next. It never answers `Moved` or `NoMemory`.
pub fn try_next(bank: &Bank, pass: &mut Pass, number: u32, cursor: &mut Cursor) -> Step
    requires may { MayTry bank.now pass.old (One (container_of cursor.old)) }
    requires container { container_of cursor.old < container_count (shape_of bank.now) }
    requires kind { kind_in (shape_of bank.now).starts (container_of cursor.old) ≡ cursor_kind cursor.old }
    requires landed { is_landed_cursor cursor.old ≡ true }
    requires left { 0 < (view pass.old).left }
    requires cursor { cursor_under pass.old number ≡ Some cursor.old }
    ensures may { MayTry bank.now pass.new (One (container_of cursor.old)) }
    ensures cursor { cursor_under pass.new number ≡ Some cursor.new }
    ensures moved { IsMoveOf (cursor_kind cursor.old) (container_of cursor.old) (call.Next number) number (Some cursor.old) (view pass.old) (view pass.new) result (Some cursor.new) }
    ensures others { KeepsOtherCursors number (view pass.old) (view pass.new) }
    ensures sections { SectionsAfter bank.now (One (container_of cursor.old)) pass.old pass.new result }
{
    let container = cursor.container();
    match take_for(bank, pass, Objects::One(container)) {
        Got::Have => {
            let (reply, stamp) = next_locked(bank, pass, number, cursor);
            let_go(bank, pass);
            Step::Done(reply, stamp)
        }
        Got::NotYet(container, owner) => Step::NotYet(container, owner),
    }
}

/// The cursor that `iter` makes over a container that has this many pairs, items or elements.
fn start_of(kind: Kind, container: Object, size: u64) -> Cursor
    requires landed { HasVersions kind }
    ensures { result ≡ iter_cursor kind container size }
{
    match kind {
        Kind::Dict => Cursor::Dict {
            container,
            walk: CursorState::Live,
            size,
            expected: size,
            last: None,
        },
        Kind::List => Cursor::List {
            container,
            index: 0,
            ended: false,
        },
        Kind::Set => Cursor::Set {
            container,
            walk: CursorState::Live,
            size,
            last: None,
        },
        Kind::Deque(_) => unreachable!(),
    }
}

/// The call `iter` on a container of a kind, with the cursor's number.
fn call_of(kind: Kind, container: Object, cursor: u32) -> Call
    ensures { result ≡ iter_call kind container cursor }
{
    match kind {
        Kind::Dict => Call::Dict {
            container,
            call: DictCall::Iter { cursor },
        },
        Kind::List => Call::List {
            container,
            call: ListCall::Iter { cursor },
        },
        Kind::Set => Call::Set {
            container,
            call: SetCall::Iter { cursor },
        },
        Kind::Deque(_) => Call::Deque {
            container,
            call: DequeCall::Iter { cursor },
        },
    }
}

/// `iter(o)`, by a pass that has the container's lock. The counter is loaded while it has the lock.
fn iter_locked(
    bank: &Bank,
    pass: &mut Pass,
    o: Object,
    kind: Kind,
    number: u32,
    slot: &mut Option<Cursor>,
) -> (Reply, Stamp)
    requires pass { IsPassOf bank.now pass.old }
    requires container { o < container_count (shape_of bank.now) }
    requires kind { kind_in (shape_of bank.now).starts o ≡ kind }
    requires locked { has_lock o (view pass.old).log ≡ true }
    requires stands { Represents (shape_of bank.now).texts (held_unboxed o (view pass.old)) (known_state o (view pass.old)) }
    requires left { 0 < (view pass.old).left }
    ensures pass { IsPassOf bank.now pass.new }
    ensures sections { stack_of pass.new ≡ stack_of pass.old }
    ensures wrote { result.1.wrote ≡ false }
    ensures answered { (cursor : Cursor) × (slot.new ≡ Some cursor) × IsOver kind o cursor
        × AnsweredCursor (iter_call kind o number) result.0 result.1.number number cursor (view pass.old) (view pass.new) }
{
    let count = bank.read_block(pass, o, USED);
    let call = call_of(kind, o, number);
    let cursor = start_of(kind, o, count);
    let answered = answer_moved(bank, pass, &call, Reply::Done, number, &cursor);
    *slot = Some(cursor);
    answered
}

/// `iter(o)` (Python manual, Iterator Types): a cursor over the container, of this kind, under its lock. It
/// takes the place of a cursor that the pass had under the number. Only `Done` changes the caller's.
///
/// # Errors
///
/// `NotYet` where a step of the call found another pass with the lock of the container; the same call comes
/// next. It never answers `Moved` or `NoMemory`.
pub fn try_iter(
    bank: &Bank,
    pass: &mut Pass,
    o: Object,
    kind: Kind,
    number: u32,
    slot: &mut Option<Cursor>,
) -> Step
    requires may { MayTry bank.now pass.old (One o) }
    requires container { o < container_count (shape_of bank.now) }
    requires kind { kind_in (shape_of bank.now).starts o ≡ kind }
    requires left { 0 < (view pass.old).left }
    ensures may { MayTry bank.now pass.new (One o) }
    ensures moved { IsMoveOf kind o (iter_call kind o number) number slot.old (view pass.old) (view pass.new) result slot.new }
    ensures others { KeepsOtherCursors number (view pass.old) (view pass.new) }
    ensures sections { SectionsAfter bank.now (One o) pass.old pass.new result }
{
    match take_for(bank, pass, Objects::One(o)) {
        Got::Have => {
            let (reply, stamp) = iter_locked(bank, pass, o, kind, number, slot);
            let_go(bank, pass);
            Step::Done(reply, stamp)
        }
        Got::NotYet(container, owner) => Step::NotYet(container, owner),
    }
}
