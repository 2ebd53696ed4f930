//! Workers that make the calls of their threads.
ghost use Rattle.std.specs.Prelude.{◌≡◌, ◌+◌, ◌-◌, ◌<◌, ℕ, All, IsTrue, OnOk, length};
ghost use Rattle.ft_bank.specs.Passes.{shape_of};
ghost use Rattle.ft_board.specs.Boards.{name_of};
ghost use Rattle.ft_engine.specs.Callers.{bank_of};
ghost use Rattle.ft_model.specs.Histories.{calls_of};
ghost use Rattle.ft_run_threads.specs.Workers.{AreCallsOn, AreEach, HasWorked, IsAwaitFrom, IsBankFor, IsMember, IsAtStart, IsOnline};

use crate::awaiting::{make_call, publish};
use crate::gate::Gate;
use crate::workers::Worker;
use ft_board::{Board, Naming};
use ft_engine::{Called, Engine};
use ft_model::{Call, Entry, Script, Thread};
use std::alloc::{AllocError, Global};
use std::sync::Wait;
use std::thread;
use std::thread::Threads;

/// Makes the thread's call at a place, adds its entry, and leaves notes for those that await it. It answers whether the
/// call was answered and the notes were left; else memory ran out, or the thread whose call it awaits has stopped.
fn make<N: Naming, R: Wait, G: Gate>(
    rt: &R,
    engine: &Engine,
    board: &Board<N>,
    alloc: Global,
    gate: &G,
    thread: usize,
    calls: &[Call],
    place: usize,
    worker: &mut Worker,
) -> bool
    requires bank { name_of (bank_of engine.now) ≡ N.bank }
    requires calls { AreCallsOn (shape_of (bank_of engine.now)) calls.now }
    requires awaits { All (IsAwaitFrom thread) calls.now }
    requires place { place < length calls.now }
    requires worker { IsOnline engine.now thread calls.now place worker.old }
    ensures member { IsMember engine.now thread worker.new.caller }
    ensures made { IsTrue result → IsOnline engine.now thread calls.now (place + 1) worker.new }
{
    let _ = thread;
    let index = place as u32 + 1;
    let number = worker.caller.thread();
    let call = &calls[place];
    gate.before(number, index);
    let Called::Done(reply, stamp, waited) = make_call(
        rt,
        engine,
        board,
        alloc,
        &mut worker.caller,
        call,
    ) else {
        return false;
    };
    worker.entries.push_reserved(Entry {
        thread: number,
        index,
        stamp: stamp.number,
        wrote: stamp.wrote,
        call: *call,
        reply,
        waited,
    });
    let published = publish(rt, engine, board, alloc, &mut worker.caller, index);
    gate.after(number, index);
    published
}

/// Makes all calls of a thread, one after the other. It answers whether each was answered.
fn make_all<N: Naming, R: Wait, G: Gate>(
    rt: &R,
    engine: &Engine,
    board: &Board<N>,
    alloc: Global,
    gate: &G,
    thread: usize,
    calls: &[Call],
    worker: &mut Worker,
) -> bool
    requires bank { name_of (bank_of engine.now) ≡ N.bank }
    requires calls { AreCallsOn (shape_of (bank_of engine.now)) calls.now }
    requires awaits { All (IsAwaitFrom thread) calls.now }
    requires worker { IsOnline engine.now thread calls.now 0 worker.old }
    ensures member { IsMember engine.now thread worker.new.caller }
    ensures made { IsTrue result → IsOnline engine.now thread calls.now (length calls.now) worker.new }
{
    for place in 0..calls.len() {
        if !make(rt, engine, board, alloc, gate, thread, calls, place, worker) {
            return false;
        }
    }
    true
}

/// Makes all calls of the script's thread; one that the script doesn't have has no calls. It answers whether each was
/// answered.
fn make_own<N: Naming, R: Wait, G: Gate>(
    rt: &R,
    engine: &Engine,
    board: &Board<N>,
    alloc: Global,
    gate: &G,
    script: &Script,
    thread: usize,
    worker: &mut Worker,
) -> bool
    requires name { name_of (bank_of engine.now) ≡ N.bank }
    requires bank { IsBankFor script.now (shape_of (bank_of engine.now)) }
    requires worker { IsOnline engine.now thread (calls_of script.now thread) 0 worker.old }
    ensures member { IsMember engine.now thread worker.new.caller }
    ensures made { IsTrue result → IsOnline engine.now thread (calls_of script.now thread)
        (length (calls_of script.now thread)) worker.new }
{
    match script.parts().threads.as_slice().get(thread) {
        Some(own) => make_all(
            rt,
            engine,
            board,
            alloc,
            gate,
            thread,
            own.calls.as_slice(),
            worker,
        ),
        None => true,
    }
}

/// Goes online, makes all calls of the script's thread, and goes offline. Where memory runs out, or a thread whose call
/// it awaits has stopped, the worker gives up what it is in, makes no more calls, and says so to those that await them.
fn work<N: Naming, R: Wait, G: Gate>(
    rt: &R,
    engine: &Engine,
    board: &Board<N>,
    alloc: Global,
    gate: &G,
    script: &Script,
    thread: usize,
    worker: &mut Worker,
)
    requires name { name_of (bank_of engine.now) ≡ N.bank }
    requires stopped { (each : ℕ) → N.stopped each }
    requires bank { IsBankFor script.now (shape_of (bank_of engine.now)) }
    requires worker { IsAtStart engine.now script.now thread worker.old }
    ensures { HasWorked engine.now script.now thread worker.new }
{
    // Named so that the check sees the script's rule.
    let _parts = script.parts();
    engine.enter(&mut worker.caller);
    if make_own(rt, engine, board, alloc, gate, script, thread, worker) {
        engine.leave(&mut worker.caller);
        worker.done = true;
    } else {
        engine.abandon(&mut worker.caller);
        engine.leave(&mut worker.caller);
        board.stop(rt, worker.caller.thread());
        worker.done = false;
    }
}

/// Each worker makes the calls of its thread, in a thread of its own. Where no more threads can be made those that are
/// left run one after the other, from the back of the list, so the list is turned round: a worker awaits calls of earlier
/// ones alone.
fn work_all<N: Naming + Send + Sync, R: Threads + Wait + Sync, G: Gate>(
    rt: &R,
    engine: &Engine,
    board: &Board<N>,
    alloc: Global,
    gate: &G,
    script: &Script,
    workers: &mut [Worker],
)
    requires name { name_of (bank_of engine.now) ≡ N.bank }
    requires stopped { (each : ℕ) → N.stopped each }
    requires bank { IsBankFor script.now (shape_of (bank_of engine.now)) }
    requires workers { AreEach (IsAtStart engine.now script.now) workers.old }
    ensures count { length workers.new ≡ length workers.old }
    ensures workers { AreEach (HasWorked engine.now script.now) workers.new }
{
    let count = workers.len();
    if count == 0 {
        return;
    }
    let each = |place: usize, worker: &mut Worker|
        requires { (name_of (bank_of engine.now) ≡ N.bank) × ((each : ℕ) → N.stopped each)
            × IsBankFor script.now (shape_of (bank_of engine.now)) × (place < count)
            × IsAtStart engine.now script.now (count - 1 - place) worker.now }
        ensures { HasWorked engine.entry.now script.entry.now (count - 1 - place) worker.exit.now }
    {
        work(
            rt,
            engine,
            board,
            alloc,
            gate,
            script,
            count - 1 - place,
            worker,
        );
    };
    workers.reverse();
    thread::for_each_mut(rt, workers, count, &each);
    workers.reverse();
}

/// The same, with a board for the notes of those calls that other threads await. An `Err` says that there was no memory
/// for the board, and then no call is made.
pub(crate) fn work_on_board<N: Naming + Send + Sync, R: Threads + Wait + Sync, G: Gate>(
    rt: &R,
    engine: &Engine,
    alloc: Global,
    gate: &G,
    script: &Script,
    workers: &mut [Worker],
) -> Result<(), AllocError>
    requires name { name_of (bank_of engine.now) ≡ N.bank }
    requires stopped { (each : ℕ) → N.stopped each }
    requires bank { IsBankFor script.now (shape_of (bank_of engine.now)) }
    requires workers { AreEach (IsAtStart engine.now script.now) workers.old }
    ensures count { OnOk result (length workers.new ≡ length workers.old) }
    ensures workers { OnOk result (AreEach (HasWorked engine.now script.now) workers.new) }
{
    let Ok(board) = Board::<N>::new(alloc, script) else {
        return Err(AllocError);
    };
    work_all(rt, engine, &board, alloc, gate, script, workers);
    Ok(())
}
