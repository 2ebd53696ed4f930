//! Awaits of a worker, and the notes that it leaves for those that await its calls.
ghost use Rattle.std.specs.Prelude.{◌≡◌, ◌≤◌, All, IfNone, IfOk, IfSome, length};
ghost use Rattle.ft_model.specs.declared.call.Call.TheVariants.{Await};
ghost use Rattle.ft_bank.specs.Passes.{view};
ghost use Rattle.ft_board.specs.Boards.{IsNoteFor, name_of};
ghost use Rattle.ft_engine.specs.Attempts.{StaysCaller};
ghost use Rattle.ft_engine.specs.Callers.{IsCallerOf, IsIdle, bank_of, pass_of, thread_of};
ghost use Rattle.ft_run_threads.specs.Workers.{HasEnded, HasNoted, IsNoAwait, MayAwait, MayMake};

use ft_bank::Note;
use ft_board::{Board, Fetched, Naming};
use ft_engine::{Called, Caller, Engine};
use ft_model::{Call, Reply};
use std::alloc::{AllocError, Global};
use std::sync::Wait;

/// The call that an `await` names, by its thread and its index.
fn awaited(call: &Call) -> Option<(u32, u32)>
    ensures awaited { IfSome result (λ named. call.now ≡ Await named.0 named.1) }
    ensures other { IfNone result (IsNoAwait call.now) }
{
    match *call {
        Call::Await { thread, index } => Some((thread, index)),
        _ => None,
    }
}

/// Waits until a call of an earlier thread is published, and learns a note of it. Where that thread has stopped the
/// await is never done, and this thread is to stop too: what it answers then is want of memory.
fn await_call<N: Naming, R: Wait>(
    rt: &R,
    engine: &Engine,
    board: &Board<N>,
    caller: &mut Caller,
    call: &Call,
    named: (u32, u32),
) -> Called
    requires bank { name_of (bank_of engine.now) ≡ N.bank }
    requires caller { IsCallerOf engine.now caller.old }
    requires may { MayAwait caller.old call.now named.0 named.1 }
    ensures caller { IsCallerOf engine.now caller.new }
    ensures same { StaysCaller caller.old caller.new }
    ensures ended { HasEnded call.now result caller.old caller.new }
{
    let (thread, index) = named;
    match board.fetch(rt, thread, index) {
        Fetched::Got(note) => {
            let stamp = engine.learn_at(caller, call, note);
            Called::Done(Reply::Done, stamp, None)
        }
        Fetched::Stopped => Called::NoMemory,
    }
}

/// Makes a call, and waits until it is done, or until it is known that it never will.
pub(crate) fn make_call<N: Naming, R: Wait>(
    rt: &R,
    engine: &Engine,
    board: &Board<N>,
    alloc: Global,
    caller: &mut Caller,
    call: &Call,
) -> Called
    requires bank { name_of (bank_of engine.now) ≡ N.bank }
    requires caller { IsCallerOf engine.now caller.old }
    requires may { MayMake engine.now caller.old call.now }
    ensures caller { IsCallerOf engine.now caller.new }
    ensures same { StaysCaller caller.old caller.new }
    ensures ended { HasEnded call.now result caller.old caller.new }
{
    match awaited(call) {
        Some(named) => await_call(rt, engine, board, caller, call, named),
        None => engine.call(rt, alloc, caller, call),
    }
}

/// That many notes of a caller that has made so many calls.
fn notes(
    engine: &Engine,
    alloc: Global,
    caller: &mut Caller,
    index: u32,
    count: u32,
) -> Result<Vec<Note>, AllocError>
    requires caller { IsCallerOf engine.now caller.old }
    requires idle { IsIdle caller.old }
    requires made { index ≤ length (view (pass_of caller.old)).entries }
    ensures noted { HasNoted engine.now caller.old caller.new }
    ensures count { IfOk result (λ notes. length notes.items ≡ count) }
    ensures notes { IfOk result (λ notes. All (IsNoteFor (name_of (bank_of engine.now)) (thread_of caller.old) index) notes.items) }
{
    let _ = index;
    let mut notes = Vec::new(alloc);
    for _ in 0..count {
        let note = engine.note(caller);
        notes.push(note)?;
    }
    Ok(notes)
}

/// Leaves a note for each await of the call of this index, the last one that was answered. It answers whether there was
/// memory for them; notes take none, and where no thread awaits the call there is none to leave.
pub(crate) fn publish<N: Naming, R: Wait>(
    rt: &R,
    engine: &Engine,
    board: &Board<N>,
    alloc: Global,
    caller: &mut Caller,
    index: u32,
) -> bool
    requires bank { name_of (bank_of engine.now) ≡ N.bank }
    requires caller { IsCallerOf engine.now caller.old }
    requires idle { IsIdle caller.old }
    requires made { index ≤ length (view (pass_of caller.old)).entries }
    ensures { HasNoted engine.now caller.old caller.new }
{
    let thread = caller.thread();
    let awaits = board.awaits(thread, index);
    if awaits == 0 {
        return true;
    }
    match notes(engine, alloc, caller, index, awaits) {
        Ok(notes) => {
            board.publish(rt, thread, index, notes);
            true
        }
        Err(AllocError) => false,
    }
}
