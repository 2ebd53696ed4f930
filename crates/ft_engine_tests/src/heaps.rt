//! Heaps that are filled and emptied over and over: no place is lost.
ghost use Rattle.std.specs.Prelude.{IfOk, OnOk};
ghost use Rattle.ft_engine_tests.specs.TestCallers.{AreWorkersOf, IsWorkerOf};

use crate::starting::begin;
use crate::turns::try_once;
use crate::workers::Worker;
use ft_bank::Shape;
use ft_engine::Engine;
use ft_model::{Call, DictCall, Key, Kind, ListCall, Raise, Reply, Value};
use std::alloc::Global;
use std::test::Fail;

/// How many places a heap has.
const PLACES: u32 = 64;

/// How often the heaps are filled.
const TIMES: u32 = 1_000;

/// The list that values are stored in.
const LIST: u32 = 0;

/// The dict that they are stored in.
const DICT: u32 = 1;

/// An integer that isn't small.
const INTEGER: i64 = 1 << 40;

/// A list and a dict, and two passes with heaps of 64 places.
fn two(alloc: Global) -> Result<(Engine, Vec<Worker>), Fail>
    ensures { IfOk result (λ made. AreWorkersOf made.0 made.1.items) }
{
    begin(
        alloc,
        Shape {
            kinds: vec![in alloc; Kind::List, Kind::Dict]?,
            texts: Vec::new(alloc),
            tables: vec![in alloc; 4u32; 14]?,
            heap: PLACES,
            passes: 2,
            calls: 1_000_000,
        },
    )
}

/// The worker makes the call, waits for nobody and is answered so; what it was answered before isn't kept.
fn make_one(
    engine: &Engine,
    alloc: Global,
    worker: &mut Worker,
    call: &Call,
    reply: &Reply,
) -> Result<(), Fail>
    requires { IsWorkerOf engine.now worker.old }
    ensures { OnOk result (IsWorkerOf engine.now worker.new) }
{
    worker.entries.clear();
    if !try_once(engine, alloc, worker, call)? {
        return Err(Fail::from("the call has ended"));
    }
    match worker.entries.last() {
        Some(entry) if entry.reply == *reply => Ok(()),
        _ => Err(Fail::from("the call is answered so")),
    }
}

/// The same for the worker of that number.
fn make(
    engine: &Engine,
    alloc: Global,
    workers: &mut [Worker],
    thread: usize,
    call: &Call,
    reply: &Reply,
) -> Result<(), Fail>
    requires { AreWorkersOf engine.now workers.old }
    ensures { OnOk result (AreWorkersOf engine.now workers.new) }
{
    if thread >= workers.len() {
        return Err(Fail::from("each thread has a worker"));
    }
    make_one(engine, alloc, &mut workers[thread], call, reply)
}

/// The call that appends an integer to the list.
const APPEND: Call = Call::List {
    container: LIST,
    call: ListCall::Append {
        value: Value::Int(INTEGER),
    },
};

/// The call that sets an integer's value in the dict.
fn set(key: u32) -> Call {
    Call::Dict {
        container: DICT,
        call: DictCall::Set {
            key: Key::Int(i64::from(key)),
            value: Value::Int(INTEGER),
        },
    }
}

const CLEAR_LIST: Call = Call::List {
    container: LIST,
    call: ListCall::Clear,
};

const CLEAR_DICT: Call = Call::Dict {
    container: DICT,
    call: DictCall::Clear,
};

const FULL: Reply = Reply::Raised(Raise::Heap);

/// The worker of that number fills its heap, half of it for the list and half for the dict; then it finds no place.
fn fill(engine: &Engine, alloc: Global, workers: &mut [Worker], thread: usize) -> Result<(), Fail>
    requires { AreWorkersOf engine.now workers.old }
    ensures { OnOk result (AreWorkersOf engine.now workers.new) }
{
    for key in 0..PLACES / 2 {
        make(engine, alloc, workers, thread, &APPEND, &Reply::Done)?;
        make(engine, alloc, workers, thread, &set(key), &Reply::Done)?;
    }
    make(engine, alloc, workers, thread, &APPEND, &FULL)?;
    make(engine, alloc, workers, thread, &set(0), &FULL)
}

/// Each worker comes to a quiescent point.
fn quiesce(engine: &Engine, alloc: Global, workers: &mut [Worker]) -> Result<(), Fail>
    requires { AreWorkersOf engine.now workers.old }
    ensures { OnOk result (AreWorkersOf engine.now workers.new) }
{
    for thread in 0..workers.len() {
        make(engine, alloc, workers, thread, &Call::Quiesce, &Reply::Done)?;
    }
    Ok(())
}

/// Worker 0 fills its heap, and the worker of that number drops all that is in it, over and over.
fn fill_over_and_over(
    engine: &Engine,
    alloc: Global,
    workers: &mut [Worker],
    dropper: usize,
) -> Result<(), Fail>
    requires { AreWorkersOf engine.now workers.old }
{
    for _ in 0..TIMES {
        fill(engine, alloc, workers, 0)?;
        make(engine, alloc, workers, dropper, &CLEAR_LIST, &Reply::Done)?;
        make(engine, alloc, workers, dropper, &CLEAR_DICT, &Reply::Done)?;
        quiesce(engine, alloc, workers)?;
    }
    Ok(())
}

#[test]
fn a_thread_empties_its_heap_itself(rt: HostRuntime) -> Result<(), Fail> {
    let alloc = rt.alloc();
    let (engine, mut workers) = two(alloc)?;
    fill_over_and_over(&engine, alloc, workers.as_mut_slice(), 0)
}

#[test]
fn another_thread_empties_it(rt: HostRuntime) -> Result<(), Fail> {
    let alloc = rt.alloc();
    let (engine, mut workers) = two(alloc)?;
    fill_over_and_over(&engine, alloc, workers.as_mut_slice(), 1)
}
