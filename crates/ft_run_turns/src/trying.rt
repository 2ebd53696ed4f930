//! One turn of a thread: its caller is woken, tries its next call, and rests.
ghost use Rattle.std.specs.Prelude.{◌≡◌, ◌↔◌, ◌+◌, ◌<◌, IfOk, IsTrue, None, OnOk, Some, length, slice_get, if◌then◌else◌};
ghost use Rattle.ft_bank.specs.Passes.{shape_of};
ghost use Rattle.ft_engine.specs.Attempts.{MayAttempt};
ghost use Rattle.ft_engine.specs.Awaiting.{MayLearnAt};
ghost use Rattle.ft_engine.specs.Callers.{IsCallerOf, bank_of};
ghost use Rattle.ft_engine.specs.Keeping.{WasAnswered};
ghost use Rattle.ft_engine.specs.Resting.{HasFloor};
ghost use Rattle.ft_model.specs.Histories.{calls_of};
ghost use Rattle.ft_model.specs.Scripts.{IsScript};
ghost use Rattle.ft_run_turns.specs.Internal.CallerSeats.{StaysInStep, HasLearned, HasTried, IsBetweenTurns, IsHeld, IsNoteOfAwaited, IsSeatOf, TokensStayInStep};
ghost use Rattle.ft_run_threads.specs.Workers.{IsBankFor};
ghost use Rattle.ft_turns.specs.Orders.{awaited_by};

use crate::seats::Seat;
use ft_bank::{Note, Tokens};
use ft_engine::{Caller, Engine, Tried};
use ft_model::{Call, Entry, Reply, ScriptParts};
use std::alloc::{AllocError, Global};

/// Tries a call once, and adds its entry where it has ended. It answers whether it has.
fn try_once(
    alloc: Global,
    engine: &Engine,
    caller: &mut Caller,
    entries: &mut Vec<Entry>,
    call: &Call,
) -> Result<bool, AllocError>
    requires caller { IsCallerOf engine.now caller.old }
    requires may { MayAttempt engine.now caller.old call.now }
    requires kept { WasAnswered caller.old entries.old.items }
    requires floor { HasFloor caller.old }
    ensures { IfOk result (λ ended.
        HasTried engine.now call.now caller.old entries.old.items caller.new entries.new.items ended) }
{
    let thread = caller.thread();
    match engine.attempt(alloc, caller, call) {
        Tried::Done(reply, stamp, waited) => {
            entries.push(Entry {
                thread,
                index: entries.len() as u32 + 1,
                stamp: stamp.number,
                wrote: stamp.wrote,
                call: *call,
                reply,
                waited,
            })?;
            Ok(true)
        }
        Tried::NotYet(_, _) => Ok(false),
        Tried::Moved(_, _) => Ok(false),
        Tried::NoMemory => Err(AllocError),
    }
}

/// Tries the next call of a thread once. Where it has ended, and was the thread's last one, the caller goes offline. It
/// answers whether it has.
fn try_call(
    alloc: Global,
    engine: &Engine,
    script: &ScriptParts,
    thread: usize,
    caller: &mut Caller,
    entries: &mut Vec<Entry>,
    call: &Call,
    last: bool,
) -> Result<bool, AllocError>
    requires script { IsScript script.now }
    requires bank { IsBankFor script.now (shape_of (bank_of engine.now)) }
    requires thread { thread < length script.now.threads }
    requires between { IsBetweenTurns engine.now script.now thread caller.old entries.old.items }
    requires floor { HasFloor caller.old }
    requires call { slice_get (calls_of script.now thread) (length entries.old.items) ≡ Some call.now }
    requires other { awaited_by call.now ≡ None }
    requires last { IsTrue last ↔ (length entries.old.items + 1 ≡ length (calls_of script.now thread)) }
    ensures between { OnOk result (IsBetweenTurns engine.now script.now thread caller.new entries.new.items) }
    ensures floor { OnOk result (HasFloor caller.new) }
    ensures count { IfOk result (λ ended.
        length entries.new.items ≡ length entries.old.items + (if ended then 1 else 0)) }
    ensures turn { OnOk result (StaysInStep script.now thread caller.old entries.old.items caller.new entries.new.items) }
{
    let _ = script;
    let _ = thread;
    let ended = try_once(alloc, engine, caller, entries, call)?;
    if ended {
        if last {
            engine.leave(caller);
        }
        Ok(true)
    } else {
        Ok(false)
    }
}

/// Answers an await whose named call has finished, of which the note tells, and adds its entry.
fn learn_once(
    engine: &Engine,
    caller: &mut Caller,
    entries: &mut Vec<Entry>,
    call: &Call,
    note: Note,
) -> Result<(), AllocError>
    requires caller { IsCallerOf engine.now caller.old }
    requires may { MayLearnAt engine.now caller.old call.now note }
    requires kept { WasAnswered caller.old entries.old.items }
    requires floor { HasFloor caller.old }
    ensures { OnOk result (HasLearned engine.now call.now caller.old entries.old.items caller.new entries.new.items) }
{
    let thread = caller.thread();
    let stamp = engine.learn_at(caller, call, note);
    entries.push(Entry {
        thread,
        index: entries.len() as u32 + 1,
        stamp: stamp.number,
        wrote: stamp.wrote,
        call: *call,
        reply: Reply::Done,
        waited: None,
    })?;
    Ok(())
}

/// Answers the next call of a thread, an await whose named call has finished. Where it was the thread's last one, the
/// caller goes offline.
fn learn_call(
    engine: &Engine,
    script: &ScriptParts,
    thread: usize,
    caller: &mut Caller,
    entries: &mut Vec<Entry>,
    call: &Call,
    note: Note,
    last: bool,
) -> Result<(), AllocError>
    requires script { IsScript script.now }
    requires bank { IsBankFor script.now (shape_of (bank_of engine.now)) }
    requires thread { thread < length script.now.threads }
    requires between { IsBetweenTurns engine.now script.now thread caller.old entries.old.items }
    requires floor { HasFloor caller.old }
    requires call { slice_get (calls_of script.now thread) (length entries.old.items) ≡ Some call.now }
    requires note { IsNoteOfAwaited engine.now (Some call.now) (Some note) }
    requires last { IsTrue last ↔ (length entries.old.items + 1 ≡ length (calls_of script.now thread)) }
    ensures between { OnOk result (IsBetweenTurns engine.now script.now thread caller.new entries.new.items) }
    ensures floor { OnOk result (HasFloor caller.new) }
    ensures count { OnOk result (length entries.new.items ≡ length entries.old.items + 1) }
    ensures turn { OnOk result (StaysInStep script.now thread caller.old entries.old.items caller.new entries.new.items) }
{
    let _ = script;
    let _ = thread;
    learn_once(engine, caller, entries, call, note)?;
    if last {
        engine.leave(caller);
    }
    Ok(())
}

/// Tries the next call of a thread once, if it has one left; an await is answered by the note of the call that it names.
/// After its last one it goes offline. It answers whether a call has ended.
fn try_next(
    alloc: Global,
    engine: &Engine,
    script: &ScriptParts,
    thread: usize,
    caller: &mut Caller,
    entries: &mut Vec<Entry>,
    note: Option<Note>,
) -> Result<bool, AllocError>
    requires script { IsScript script.now }
    requires bank { IsBankFor script.now (shape_of (bank_of engine.now)) }
    requires thread { thread < length script.now.threads }
    requires between { IsBetweenTurns engine.now script.now thread caller.old entries.old.items }
    requires floor { HasFloor caller.old }
    requires note { IsNoteOfAwaited engine.now (slice_get (calls_of script.now thread) (length entries.old.items)) note }
    ensures between { OnOk result (IsBetweenTurns engine.now script.now thread caller.new entries.new.items) }
    ensures floor { OnOk result (HasFloor caller.new) }
    ensures count { IfOk result (λ ended.
        length entries.new.items ≡ length entries.old.items + (if ended then 1 else 0)) }
    ensures turn { OnOk result (StaysInStep script.now thread caller.old entries.old.items caller.new entries.new.items) }
{
    let calls = script.threads.as_slice()[thread].calls.as_slice();
    let place = entries.len();
    match calls.get(place) {
        Some(call) => {
            let last = place + 1 == calls.len();
            match note {
                Some(note) => {
                    learn_call(engine, script, thread, caller, entries, call, note, last)?;
                    Ok(true)
                }
                None => try_call(alloc, engine, script, thread, caller, entries, call, last),
            }
        }
        None => Ok(false),
    }
}

/// One turn of a thread that awaits no unfinished call: its caller is woken, its next call is tried once, or is an await
/// and answered by a note, and the caller rests. It answers whether a call has ended. A thread with no call left spends
/// its turn.
pub(crate) fn turn_of(
    alloc: Global,
    engine: &Engine,
    script: &ScriptParts,
    thread: usize,
    seat: Seat,
    tokens: Tokens,
    note: Option<Note>,
) -> Result<(Seat, Tokens, bool), AllocError>
    requires script { IsScript script.now }
    requires bank { IsBankFor script.now (shape_of (bank_of engine.now)) }
    requires thread { thread < length script.now.threads }
    requires seat { IsSeatOf engine.now script.now thread seat }
    requires tokens { IsHeld engine.now tokens }
    requires note { IsNoteOfAwaited engine.now (slice_get (calls_of script.now thread) (length seat.entries.items)) note }
    ensures seat { IfOk result (λ made. IsSeatOf engine.now script.now thread made.0) }
    ensures tokens { IfOk result (λ made. IsHeld engine.now made.1) }
    ensures count { IfOk result (λ made.
        length made.0.entries.items ≡ length seat.entries.items + (if made.2 then 1 else 0)) }
    ensures turn { IfOk result (λ made. TokensStayInStep engine.now script.now thread seat tokens made.0 made.1) }
{
    let Seat {
        caller,
        mut entries,
    } = seat;
    let mut caller = engine.wake(caller, tokens);
    let ended = try_next(
        alloc,
        engine,
        script,
        thread,
        &mut caller,
        &mut entries,
        note,
    )?;
    let (caller, tokens) = engine.rest(caller);
    Ok((Seat { caller, entries }, tokens, ended))
}
