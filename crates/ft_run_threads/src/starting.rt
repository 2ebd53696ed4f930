//! The engine of a script, with a worker for each thread.
ghost use Rattle.std.specs.Prelude.{◌≡◌, ◌≤◌, [], IfOk, length, vec_capacity};
ghost use Rattle.ft_bank.specs.Passes.{shape_of};
ghost use Rattle.ft_engine.specs.Callers.{AreFreshCallers, bank_of};
ghost use Rattle.ft_model.specs.Histories.{calls_of};
ghost use Rattle.ft_model.specs.Limits.{most_cursors};
ghost use Rattle.ft_run_threads.specs.Workers.{AreFrom, IsBankFor, IsAtStart};

use crate::shape::shape_for;
use crate::workers::Worker;
use ft_engine::{Caller, Engine};
use ft_model::{MOST_CURSORS, Script};
use std::alloc::{AllocError, Global};

/// How many calls the script's thread has; none where there is no such thread.
fn call_count(script: &Script, thread: usize) -> usize
    ensures { result ≡ length (calls_of script.now thread) }
{
    match script.parts().threads.as_slice().get(thread) {
        Some(own) => own.calls.len(),
        None => 0,
    }
}

/// The worker of a caller, with rows for the entries of that many calls.
fn worker(alloc: Global, caller: Caller, calls: usize) -> Result<Worker, AllocError>
    ensures caller { IfOk result (λ worker. worker.caller ≡ caller) }
    ensures entries { IfOk result (λ worker. worker.entries.items ≡ []) }
    ensures rows { IfOk result (λ worker. calls ≤ vec_capacity worker.entries) }
{
    Ok(Worker {
        caller,
        entries: Vec::with_capacity(alloc, calls)?,
        done: false,
    })
}

/// The worker of each of these callers.
fn hire(
    alloc: Global,
    engine: &Engine,
    script: &Script,
    callers: Vec<Caller>,
) -> Result<Vec<Worker>, AllocError>
    requires callers { AreFreshCallers engine.now most_cursors 0 callers.items }
    ensures workers { IfOk result (λ workers. AreFrom (IsAtStart engine.now script.now) 0 workers.items) }
    ensures count { IfOk result (λ workers. length workers.items ≡ length callers.items) }
{
    let _ = engine;
    let mut workers = Vec::with_capacity(alloc, callers.len())?;
    for caller in callers {
        let calls = call_count(script, workers.len());
        let hired = worker(alloc, caller, calls)?;
        workers.push(hired)?;
    }
    Ok(workers)
}

/// The engine of a script, and a worker for each of its threads, one at least.
pub(crate) fn start(alloc: Global, script: &Script) -> Result<(Engine, Vec<Worker>), AllocError>
    ensures bank { IfOk result (λ made. IsBankFor script.now (shape_of (bank_of made.0))) }
    ensures workers { IfOk result (λ made. AreFrom (IsAtStart made.0 script.now) 0 made.1.items) }
    ensures count { IfOk result (λ made. length made.1.items ≡ (shape_of (bank_of made.0)).passes) }
{
    let shape = shape_for(alloc, script)?;
    let Ok((engine, callers)) = Engine::new(alloc, shape, MOST_CURSORS as u32) else {
        return Err(AllocError);
    };
    let workers = hire(alloc, &engine, script, callers)?;
    Ok((engine, workers))
}
