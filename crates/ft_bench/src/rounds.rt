//! The rounds of a thread: it goes online, makes its operations, and goes offline.
ghost use Rattle.ft_bench.specs.Threads.{IsReadyCaller};
ghost use Rattle.ft_engine.specs.Callers.{IsFreeCaller};

use crate::answers::answer;
use crate::course::Course;
use crate::operation::Operation;
use crate::operators::{AtOnePlace, OnDict, OnList, OnSet, Operator};
use crate::pairs::{fill, watch};
use crate::plan::Site;
use crate::worker::Worker;
use crate::workload::Workload;
use ft_engine::{Caller, Engine};
use ft_model::Call;
use std::alloc::Global;
use std::sync::Wait;
use std::time::Clock;

/// How many operations are made between two looks at the clock, and between two quiescent points. At a quiescent point a
/// thread also gets back the places of those of its boxes that others dropped.
const BATCH: u32 = 1024;
/// How many items are appended in a round.
const APPENDS: u32 = 3072;

/// The time in nanoseconds; the greatest number where the clock can't be read, which ends the run.
pub(crate) fn now<R: Clock>(rt: &R) -> u64 {
    match rt.monotonic() {
        Ok(time) => u64::try_from(time.as_nanos()).unwrap_or(u64::MAX),
        Err(_) => u64::MAX,
    }
}

/// The time since then; the greatest number where the clock couldn't be read.
pub(crate) fn since<R: Clock>(rt: &R, start: u64) -> u64 {
    let end = now(rt);
    if end == u64::MAX {
        return end;
    }
    end.saturating_sub(start)
}

/// Makes one operation, and counts it.
pub(crate) fn make<R: Wait>(
    rt: &R,
    engine: &Engine,
    alloc: Global,
    worker: &mut Worker,
    operation: Operation,
)
    requires { IsReadyCaller engine.now worker.old.caller }
    ensures { IsReadyCaller engine.now worker.new.caller }
{
    match worker.tally.site {
        Site::Dict => OnDict.make(rt, engine, alloc, worker, operation),
        Site::List => OnList.make(rt, engine, alloc, worker, operation),
        Site::Set => OnSet.make(rt, engine, alloc, worker, operation),
        Site::Shared => AtOnePlace.make(rt, engine, alloc, worker, operation),
    }
}

/// Makes the next operation. Says whether it appended an item.
#[inline(always)]
fn make_next<R: Wait, O: Operator>(
    rt: &R,
    engine: &Engine,
    alloc: Global,
    worker: &mut Worker,
    operator: &O,
) -> bool
    requires { IsReadyCaller engine.now worker.old.caller }
    ensures { IsReadyCaller engine.now worker.new.caller }
{
    let Some(operation) = worker.tally.next_operation() else {
        return false;
    };
    operator.make(rt, engine, alloc, worker, operation);
    matches!(operation, Operation::Append(_))
}

/// Makes the next operations by this operator, that many of them.
fn make_some_by<R: Wait, O: Operator>(
    rt: &R,
    engine: &Engine,
    alloc: Global,
    worker: &mut Worker,
    operator: &O,
    count: u32,
)
    requires { IsReadyCaller engine.now worker.old.caller }
    ensures { IsReadyCaller engine.now worker.new.caller }
{
    for _ in 0..count {
        make_next(rt, engine, alloc, worker, operator);
    }
}

/// Makes the next operations, that many of them: the operator is known in each of the loops.
pub(crate) fn make_some<R: Wait>(
    rt: &R,
    engine: &Engine,
    alloc: Global,
    worker: &mut Worker,
    count: u32,
)
    requires { IsReadyCaller engine.now worker.old.caller }
    ensures { IsReadyCaller engine.now worker.new.caller }
{
    match worker.tally.site {
        Site::Dict => make_some_by(rt, engine, alloc, worker, &OnDict, count),
        Site::List => make_some_by(rt, engine, alloc, worker, &OnList, count),
        Site::Set => make_some_by(rt, engine, alloc, worker, &OnSet, count),
        Site::Shared => make_some_by(rt, engine, alloc, worker, &AtOnePlace, count),
    }
}

/// Makes operations until so much time has passed.
fn make_for<R: Wait + Clock>(
    rt: &R,
    engine: &Engine,
    alloc: Global,
    worker: &mut Worker,
    nanos: u64,
)
    requires { IsReadyCaller engine.now worker.old.caller }
    ensures { IsReadyCaller engine.now worker.new.caller }
{
    let start = now(rt);
    for _ in rt.forever() {
        make_some(rt, engine, alloc, worker, BATCH);
        if since(rt, start) >= nanos {
            return;
        }
        answer(rt, engine, alloc, &mut worker.caller, &Call::Quiesce);
    }
}

/// Makes operations by this operator until that many items have been appended, and at most a hundred for each of these.
fn make_appends_by<R: Wait, O: Operator>(
    rt: &R,
    engine: &Engine,
    alloc: Global,
    worker: &mut Worker,
    operator: &O,
    appends: u32,
)
    requires { IsReadyCaller engine.now worker.old.caller }
    ensures { IsReadyCaller engine.now worker.new.caller }
{
    let mut left = appends;
    for _ in 0..appends.saturating_mul(100) {
        if left == 0 {
            return;
        }
        if make_next(rt, engine, alloc, worker, operator) {
            left = left.saturating_sub(1);
        }
    }
}

/// Makes operations until that many items have been appended: the operator is known in each of the loops.
fn make_appends<R: Wait>(rt: &R, engine: &Engine, alloc: Global, worker: &mut Worker, appends: u32)
    requires { IsReadyCaller engine.now worker.old.caller }
    ensures { IsReadyCaller engine.now worker.new.caller }
{
    match worker.tally.site {
        Site::List => make_appends_by(rt, engine, alloc, worker, &OnList, appends),
        _ => make_appends_by(rt, engine, alloc, worker, &AtOnePlace, appends),
    }
}

/// The part of a thread in a round.
fn take_turns<R: Wait + Clock>(
    rt: &R,
    engine: &Engine,
    alloc: Global,
    course: &Course,
    worker: &mut Worker,
)
    requires { IsReadyCaller engine.now worker.old.caller }
    ensures { IsReadyCaller engine.now worker.new.caller }
{
    match course.plan.workload {
        Workload::Dict(_) | Workload::Boxes(_) | Workload::Set(_) => make_for(
            rt,
            engine,
            alloc,
            worker,
            course.plan.nanos,
        ),
        Workload::List(_) => {
            make_appends(
                rt,
                engine,
                alloc,
                worker,
                APPENDS / course.plan.threads.max(1),
            )
        }
        Workload::Growth(pairs) if worker.tally.thread == 0 => {
            fill(rt, engine, alloc, course, worker, pairs)
        }
        Workload::Growth(_) => watch(rt, engine, alloc, course, worker),
        Workload::Script => {}
    }
}

/// A round of a thread: it goes online, takes its part, and goes offline.
pub(crate) fn play<R: Wait + Clock>(
    rt: &R,
    engine: &Engine,
    alloc: Global,
    course: &Course,
    worker: &mut Worker,
)
    requires { IsFreeCaller engine.now worker.old.caller }
    ensures { IsFreeCaller engine.now worker.new.caller }
{
    engine.enter(&mut worker.caller);
    take_turns(rt, engine, alloc, course, worker);
    engine.leave(&mut worker.caller);
}
