//! The engine of a run, with a worker for each thread.
ghost use Rattle.std.specs.Prelude.{IfOk, IfSome};
ghost use Rattle.ft_bench.specs.Threads.{AreWorkers};
ghost use Rattle.ft_engine.specs.Callers.{IsFreeCaller, AreFreeCallers};

use crate::plan::Plan;
use crate::shape::shape_of;
use crate::stream::operations;
use crate::worker::{Tally, Worker};
use ft_engine::{Caller, Engine};
use std::alloc::{AllocError, Global};

/// The worker of a caller.
fn hire_one(
    alloc: Global,
    engine: &Engine,
    plan: Plan,
    caller: Caller,
) -> Result<Worker, AllocError>
    requires { IsFreeCaller engine.now caller }
    ensures { IfOk result (λ worker. IsFreeCaller engine.now worker.caller) }
{
    let _ = engine;
    let thread = caller.thread();
    let operations = operations(alloc, plan.workload, thread)?;
    Ok(Worker {
        caller,
        tally: Tally::new(
            thread,
            plan.site,
            plan.workload.values(),
            operations,
            Vec::new(alloc),
        ),
    })
}

/// The worker of each of these callers.
fn hire(
    alloc: Global,
    engine: &Engine,
    plan: Plan,
    callers: Vec<Caller>,
) -> Result<Vec<Worker>, AllocError>
    requires { AreFreeCallers engine.now callers.items }
    ensures { IfOk result (λ workers. AreWorkers engine.now workers.items) }
{
    let mut workers = Vec::new(alloc);
    for caller in callers {
        workers.push(hire_one(alloc, engine, plan, caller)?)?;
    }
    Ok(workers)
}

/// The engine of a run, and a worker for each thread; nothing where the shape doesn't fit or memory ran out.
pub(crate) fn start(alloc: Global, plan: Plan) -> Result<Option<(Engine, Vec<Worker>)>, AllocError>
    ensures { IfOk result (λ made. IfSome made (λ m. AreWorkers m.0 m.1.items)) }
{
    let shape = shape_of(alloc, plan.workload, plan.threads)?;
    if !shape.fits() {
        return Ok(None);
    }
    let Ok((engine, callers)) = Engine::new(alloc, shape, 0) else {
        return Ok(None);
    };
    let workers = hire(alloc, &engine, plan, callers)?;
    Ok(Some((engine, workers)))
}
