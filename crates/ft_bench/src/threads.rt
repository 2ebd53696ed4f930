//! The threads of a run, from meeting to meeting.
ghost use Rattle.ft_bench.specs.Threads.{AreWorkers};
ghost use Rattle.ft_engine.specs.Callers.{IsFreeCaller};

use crate::answers::are_done;
use crate::course::Course;
use crate::rounds::{now, play, since};
use crate::worker::Worker;
use ft_engine::Engine;
use ft_model::Call;
use std::alloc::Global;
use std::sync::Wait;
use std::thread;
use std::thread::Threads;
use std::time::Clock;

/// Makes these calls, which aren't timed. Says whether each was done.
fn prepare<R: Wait>(
    rt: &R,
    engine: &Engine,
    alloc: Global,
    worker: &mut Worker,
    calls: &[Call],
) -> bool
    requires { IsFreeCaller engine.now worker.old.caller }
    ensures { IsFreeCaller engine.now worker.new.caller }
{
    engine.enter(&mut worker.caller);
    let done = are_done(rt, engine, alloc, &mut worker.caller, calls);
    engine.leave(&mut worker.caller);
    done
}

/// Makes the calls that the run begins with, before its first round. Says whether each was done.
fn fill_first<R: Wait>(
    rt: &R,
    engine: &Engine,
    alloc: Global,
    course: &Course,
    worker: &mut Worker,
) -> bool
    requires { IsFreeCaller engine.now worker.old.caller }
    ensures { IsFreeCaller engine.now worker.new.caller }
{
    if worker.tally.meetings != 0 {
        return true;
    }
    prepare(rt, engine, alloc, worker, course.fills.as_slice())
}

/// What the first thread does between two rounds: it makes all as it is to be at the start of a round, or ends the run.
fn begin<R: Wait>(rt: &R, engine: &Engine, alloc: Global, course: &Course, worker: &mut Worker)
    requires { IsFreeCaller engine.now worker.old.caller }
    ensures { IsFreeCaller engine.now worker.new.caller }
{
    if worker.tally.thread != 0 {
        return;
    }
    let filled = fill_first(rt, engine, alloc, course, worker);
    let fresh = prepare(rt, engine, alloc, worker, course.freshens.as_slice());
    if !filled || !fresh {
        worker.tally.wrong = worker.tally.wrong.saturating_add(1);
        course.end();
    }
    if worker.tally.nanos >= course.plan.nanos {
        course.end();
    }
    course.set_filling(true);
}

/// Meets the other threads.
fn meet<R: Wait>(rt: &R, engine: &Engine, course: &Course, worker: &mut Worker)
    requires { IsFreeCaller engine.now worker.old.caller }
    ensures { IsFreeCaller engine.now worker.new.caller }
{
    let _ = engine;
    course.meet(rt, worker.tally.meetings);
    worker.tally.meetings = worker.tally.meetings.saturating_add(1);
}

/// A round, and the meetings before and after it. Says whether there was one.
fn go_round<R: Wait + Clock>(
    rt: &R,
    engine: &Engine,
    alloc: Global,
    course: &Course,
    worker: &mut Worker,
) -> bool
    requires { IsFreeCaller engine.now worker.old.caller }
    ensures { IsFreeCaller engine.now worker.new.caller }
{
    begin(rt, engine, alloc, course, worker);
    meet(rt, engine, course, worker);
    if course.is_over() {
        return false;
    }
    let start = now(rt);
    play(rt, engine, alloc, course, worker);
    meet(rt, engine, course, worker);
    worker.tally.nanos = worker.tally.nanos.saturating_add(since(rt, start));
    true
}

/// All rounds of a thread.
fn go<R: Wait + Clock>(rt: &R, engine: &Engine, alloc: Global, course: &Course, worker: &mut Worker)
    requires { IsFreeCaller engine.now worker.old.caller }
    ensures { IsFreeCaller engine.now worker.new.caller }
{
    for _ in rt.forever() {
        if !go_round(rt, engine, alloc, course, worker) {
            return;
        }
    }
}

/// All rounds of all threads.
pub(crate) fn go_all<R: Threads + Wait + Clock + Sync>(
    rt: &R,
    engine: &Engine,
    alloc: Global,
    course: &Course,
    workers: &mut [Worker],
)
    requires { AreWorkers engine.now workers.old }
{
    let count = workers.len();
    if count == 0 {
        return;
    }
    let each = |_thread: usize, worker: &mut Worker|
        requires { IsFreeCaller engine.now worker.now.caller }
    { go(rt, engine, alloc, course, worker) };
    thread::for_each_mut(rt, workers, count, &each);
}
