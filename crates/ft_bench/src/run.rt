//! A run of a workload, from the making of its engine to what came of it.

use crate::course::Course;
use crate::fills::{fills, freshens};
use crate::outcome::{Outcome, outcome_of};
use crate::plan::Plan;
use crate::script::run_script;
use crate::start::start;
use crate::threads::go_all;
use crate::workload::Workload;
use std::alloc::{AllocError, Global};
use std::sync::Wait;
use std::sync::atomic::{AtomicBool, AtomicU64};
use std::thread::Threads;
use std::time::Clock;

/// What the threads of a run share.
fn course_of(alloc: Global, plan: Plan) -> Result<Course, AllocError> {
    Ok(Course {
        plan,
        fills: fills(alloc, plan.workload)?,
        freshens: freshens(alloc, plan.workload)?,
        arrivals: AtomicU64::new(0),
        over: AtomicBool::new(false),
        filling: AtomicBool::new(false),
    })
}

/// What comes of the rounds of all threads; nothing where the shape doesn't fit or memory ran out.
fn run_threads<R: Threads + Wait + Clock + Sync>(
    rt: &R,
    alloc: Global,
    plan: Plan,
) -> Result<Option<Outcome>, AllocError> {
    let course = course_of(alloc, plan)?;
    let Some((engine, mut workers)) = start(alloc, plan)? else {
        return Ok(None);
    };
    go_all(rt, &engine, alloc, &course, workers.as_mut_slice());
    Ok(Some(outcome_of(alloc, workers.as_slice())?))
}

/// What comes of a run; nothing where there are no threads or too many of them, or memory ran out.
pub(crate) fn run_workload<R: Threads + Wait + Clock + Sync>(
    rt: &R,
    alloc: Global,
    plan: Plan,
) -> Result<Option<Outcome>, AllocError> {
    match plan.workload {
        Workload::Script => run_script(rt, alloc, plan.nanos),
        _ => run_threads(rt, alloc, plan),
    }
}
