//! A round in which one thread fills a dict, and the others get the pairs that stood there before.
ghost use Rattle.ft_bench.specs.Threads.{IsReadyCaller};

use crate::course::Course;
use crate::operation::Operation;
use crate::rounds::{make, make_some, now, since};
use crate::worker::Worker;
use ft_engine::Engine;
use std::alloc::Global;
use std::sync::Wait;
use std::time::Clock;

/// How many pairs stand there when a round begins.
const FIRST: u32 = 8;
/// How many gets are timed together.
const GETS: u32 = 64;

/// Sets keys until there are that many pairs.
fn set_all<R: Wait>(rt: &R, engine: &Engine, alloc: Global, worker: &mut Worker, pairs: u32)
    requires { IsReadyCaller engine.now worker.old.caller }
    ensures { IsReadyCaller engine.now worker.new.caller }
{
    for key in FIRST..pairs {
        make(rt, engine, alloc, worker, Operation::Set(key));
    }
}

/// Fills the dict until there are that many pairs, and counts them and their time.
pub(crate) fn fill<R: Wait + Clock>(
    rt: &R,
    engine: &Engine,
    alloc: Global,
    course: &Course,
    worker: &mut Worker,
    pairs: u32,
)
    requires { IsReadyCaller engine.now worker.old.caller }
    ensures { IsReadyCaller engine.now worker.new.caller }
{
    let start = now(rt);
    set_all(rt, engine, alloc, worker, pairs);
    let tally = &mut worker.tally;
    tally.pair_nanos = tally.pair_nanos.saturating_add(since(rt, start));
    tally.pairs = tally
        .pairs
        .saturating_add(u64::from(pairs.saturating_sub(FIRST)));
    course.set_filling(false);
}

/// Gets the first pairs while the dict is filled, and keeps the longest time of 64 gets.
pub(crate) fn watch<R: Wait + Clock>(
    rt: &R,
    engine: &Engine,
    alloc: Global,
    course: &Course,
    worker: &mut Worker,
)
    requires { IsReadyCaller engine.now worker.old.caller }
    ensures { IsReadyCaller engine.now worker.new.caller }
{
    let mut longest = 0u64;
    for _ in rt.forever() {
        let start = now(rt);
        make_some(rt, engine, alloc, worker, GETS);
        longest = longest.max(since(rt, start));
        if !course.is_filling() {
            break;
        }
    }
    let kept = worker.tally.stalls.push(longest);
    if kept.is_err() {
        worker.tally.wrong = worker.tally.wrong.saturating_add(1);
    }
}
