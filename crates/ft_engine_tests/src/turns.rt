//! Turns of threads: in each one, a thread tries its next call once.
ghost use Rattle.std.specs.Prelude.{IfOk, IsTrue, OnOk};
ghost use Rattle.ft_engine.specs.Callers.{IsIdle};
ghost use Rattle.ft_engine_tests.specs.TestCallers.{AreWorkersOf, IsWorkerOf};

use crate::starting::start;
use crate::workers::Worker;
use ft_engine::{Engine, Tried};
use ft_model::{Call, Entry, Script, ScriptParts};
use std::alloc::Global;
use std::test::Fail;

/// How many rounds of turns come after the order of a script.
const ROUNDS: u32 = 100;

/// Tries the call once, by a worker that is online. It answers whether the call has ended.
pub(crate) fn try_once(
    engine: &Engine,
    alloc: Global,
    worker: &mut Worker,
    call: &Call,
) -> Result<bool, Fail>
    requires { IsWorkerOf engine.now worker.old }
    ensures worker { OnOk result (IsWorkerOf engine.now worker.new) }
    ensures ended { IfOk result (λ ended. IsTrue ended → IsIdle worker.new.caller) }
{
    let Ok(made) = u32::try_from(worker.entries.len()) else {
        return Err(Fail::from("there are few calls"));
    };
    if !worker.online || !engine.may_attempt(&worker.caller, call) {
        return Err(Fail::from("the call may be tried"));
    }
    match engine.attempt(alloc, &mut worker.caller, call) {
        Tried::Done(reply, stamp, waited) => {
            worker.entries.push(Entry {
                thread: worker.caller.thread(),
                index: made.saturating_add(1),
                stamp: stamp.number,
                wrote: stamp.wrote,
                call: *call,
                reply,
                waited,
            })?;
            Ok(true)
        }
        Tried::NotYet(_, _) | Tried::Moved(_, _) => Ok(false),
        Tried::NoMemory => Err(Fail::from("there is memory")),
    }
}

/// One turn of a thread with these calls: it leaves when its last call has ended.
fn turn(engine: &Engine, alloc: Global, worker: &mut Worker, calls: &[Call]) -> Result<(), Fail>
    requires { IsWorkerOf engine.now worker.old }
    ensures { OnOk result (IsWorkerOf engine.now worker.new) }
{
    let Some(call) = calls.get(worker.entries.len()) else {
        return Ok(());
    };
    if try_once(engine, alloc, worker, call)? && worker.entries.len() == calls.len() {
        worker.online = false;
        engine.leave(&mut worker.caller);
    }
    Ok(())
}

/// One turn of the thread of that number.
fn turn_of(
    engine: &Engine,
    alloc: Global,
    script: &ScriptParts,
    workers: &mut [Worker],
    thread: usize,
) -> Result<(), Fail>
    requires { AreWorkersOf engine.now workers.old }
    ensures { OnOk result (AreWorkersOf engine.now workers.new) }
{
    let Some(calls) = script.threads.as_slice().get(thread) else {
        return Err(Fail::from("the script has the thread"));
    };
    if thread >= workers.len() {
        return Err(Fail::from("each thread has a worker"));
    }
    turn(engine, alloc, &mut workers[thread], calls.calls.as_slice())
}

/// The turns of an order.
pub(crate) fn ordered(
    engine: &Engine,
    alloc: Global,
    script: &ScriptParts,
    workers: &mut [Worker],
    order: &[u32],
) -> Result<(), Fail>
    requires { AreWorkersOf engine.now workers.old }
    ensures { OnOk result (AreWorkersOf engine.now workers.new) }
{
    for thread in order {
        turn_of(engine, alloc, script, workers, *thread as usize)?;
    }
    Ok(())
}

/// A round: one turn for each thread.
fn round(
    engine: &Engine,
    alloc: Global,
    script: &ScriptParts,
    workers: &mut [Worker],
) -> Result<(), Fail>
    requires { AreWorkersOf engine.now workers.old }
    ensures { OnOk result (AreWorkersOf engine.now workers.new) }
{
    for thread in 0..script.threads.len() {
        turn_of(engine, alloc, script, workers, thread)?;
    }
    Ok(())
}

/// The lists of what the workers were answered.
pub(crate) fn lists_of(alloc: Global, workers: Vec<Worker>) -> Result<Vec<Vec<Entry>>, Fail> {
    let mut lists = Vec::new(alloc);
    for worker in workers {
        lists.push(worker.entries)?;
    }
    Ok(lists)
}

/// What the threads of a script are answered, in a list for each: the turns of this order, and then rounds.
pub(crate) fn play(alloc: Global, script: &Script, order: &[u32]) -> Result<Vec<Vec<Entry>>, Fail> {
    let parts = script.parts();
    let (engine, mut workers) = start(alloc, parts)?;
    ordered(&engine, alloc, parts, workers.as_mut_slice(), order)?;
    for _ in 0..ROUNDS {
        round(&engine, alloc, parts, workers.as_mut_slice())?;
    }
    lists_of(alloc, workers)
}
