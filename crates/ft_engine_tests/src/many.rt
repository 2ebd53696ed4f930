//! As many callers as a bank may have, each with cursors of its own.
ghost use Rattle.std.specs.Prelude.{IfOk, OnOk};
ghost use Rattle.ft_engine_tests.specs.TestCallers.{AreWorkersOf};

use crate::plain::{Plain, reply_of};
use crate::starting::begin;
use crate::turns::try_once;
use crate::workers::Worker;
use ft_bank::Shape;
use ft_engine::Engine;
use ft_model::{Call, DictCall, Key, Kind, ListCall, Raise, Reply, Value};
use std::alloc::Global;
use std::process::Abort;
use std::test::Fail;

/// The list that is walked.
const LIST: u32 = 0;

/// The dict that is walked.
const DICT: u32 = 1;

/// A list and a dict, and 64 passes.
fn many(alloc: Global) -> Result<(Engine, Vec<Worker>), Fail>
    ensures { IfOk result (λ made. AreWorkersOf made.0 made.1.items) }
{
    begin(
        alloc,
        Shape {
            kinds: vec![in alloc; Kind::List, Kind::Dict]?,
            texts: Vec::new(alloc),
            tables: vec![in alloc; 2u32; 14]?,
            heap: 64,
            passes: 64,
            calls: 16,
        },
    )
}

/// The worker of that number makes the call, which waits for nobody.
fn make(
    engine: &Engine,
    alloc: Global,
    workers: &mut [Worker],
    thread: usize,
    call: &Call,
) -> Result<(), Fail>
    requires { AreWorkersOf engine.now workers.old }
    ensures { OnOk result (AreWorkersOf engine.now workers.new) }
{
    if thread >= workers.len() || !try_once(engine, alloc, &mut workers[thread], call)? {
        return Err(Fail::from("the call has ended"));
    }
    Ok(())
}

/// Each worker makes the call.
fn all_make(engine: &Engine, alloc: Global, workers: &mut [Worker], call: &Call) -> Result<(), Fail>
    requires { AreWorkersOf engine.now workers.old }
    ensures { OnOk result (AreWorkersOf engine.now workers.new) }
{
    for thread in 0..workers.len() {
        make(engine, alloc, workers, thread, call)?;
    }
    Ok(())
}

/// Whether each worker was last answered so, with that number, and waited for nobody.
fn all_have(workers: &[Worker], reply: &Reply, stamp: u64) -> bool {
    for worker in workers {
        let Some(entry) = worker.entries.last() else {
            return false;
        };
        if entry.reply != *reply || entry.stamp != stamp || entry.waited.is_some() {
            return false;
        }
    }
    true
}

/// The call that appends an integer to the list.
fn append(integer: i64) -> Call {
    Call::List {
        container: LIST,
        call: ListCall::Append {
            value: Value::Int(integer),
        },
    }
}

/// The call that sets an integer's value to itself.
fn set(integer: i64) -> Call {
    Call::Dict {
        container: DICT,
        call: DictCall::Set {
            key: Key::Int(integer),
            value: Value::Int(integer),
        },
    }
}

/// A step of the walks.
enum Step {
    /// The worker of this number appends the item to the list.
    Append { worker: usize, item: i64 },
    /// The worker of this number sets the key's value to the key.
    Set { worker: usize, key: i64 },
    /// Each worker makes the call.
    All(Answer),
}

/// A call that each worker makes, with what each is answered, and the number of that.
struct Answer {
    name: &'static str,
    call: Call,
    reply: Plain,
    stamp: u64,
}

const OVER_LIST: Call = Call::List {
    container: LIST,
    call: ListCall::Iter { cursor: 0 },
};

const OVER_DICT: Call = Call::Dict {
    container: DICT,
    call: DictCall::Iter { cursor: 1 },
};

const NEXT_ITEM: Call = Call::Next { cursor: 0 };

const NEXT_PAIR: Call = Call::Next { cursor: 1 };

/// The walks of all, with cursor 0 over the list and cursor 1 over the dict.
const WALK: [Step; 14] = [
    // Worker 0 fills the list and the dict: four writes.
    Step::Append { worker: 0, item: 5 },
    Step::Append { worker: 0, item: 6 },
    Step::Set { worker: 0, key: 1 },
    Step::Set { worker: 0, key: 2 },
    // Each worker walks over the first item and the first pair.
    Step::All(Answer {
        name: "a cursor over the list",
        call: OVER_LIST,
        reply: Plain::Done,
        stamp: 4,
    }),
    Step::All(Answer {
        name: "a cursor over the dict",
        call: OVER_DICT,
        reply: Plain::Done,
        stamp: 4,
    }),
    Step::All(Answer {
        name: "the first item",
        call: NEXT_ITEM,
        reply: Plain::Value(Value::Int(5)),
        stamp: 4,
    }),
    Step::All(Answer {
        name: "the first pair",
        call: NEXT_PAIR,
        reply: Plain::Pair(Key::Int(1), Value::Int(1)),
        stamp: 4,
    }),
    // Another worker adds an item and a key.
    Step::Append {
        worker: 63,
        item: 7,
    },
    Step::Set { worker: 63, key: 3 },
    // The walks over the list go on over the items that are there by now; those over the dict, which has another
    // size, raise that.
    Step::All(Answer {
        name: "the second item",
        call: NEXT_ITEM,
        reply: Plain::Value(Value::Int(6)),
        stamp: 6,
    }),
    Step::All(Answer {
        name: "another size",
        call: NEXT_PAIR,
        reply: Plain::Raised(Raise::Size),
        stamp: 6,
    }),
    Step::All(Answer {
        name: "the third item",
        call: NEXT_ITEM,
        reply: Plain::Value(Value::Int(7)),
        stamp: 6,
    }),
    Step::All(Answer {
        name: "the end of the list",
        call: NEXT_ITEM,
        reply: Plain::Stop,
        stamp: 6,
    }),
];

/// Each worker makes the call and is answered so; else the failure has the answer's name.
fn all_answer(
    engine: &Engine,
    alloc: Global,
    workers: &mut [Worker],
    answer: &Answer,
) -> Result<(), Fail>
    requires { AreWorkersOf engine.now workers.old }
    ensures { OnOk result (AreWorkersOf engine.now workers.new) }
{
    all_make(engine, alloc, workers, &answer.call)?;
    if !all_have(workers, &reply_of(answer.reply), answer.stamp) {
        return Err(Fail::from(answer.name));
    }
    Ok(())
}

/// One step.
fn take(engine: &Engine, alloc: Global, workers: &mut [Worker], step: &Step) -> Result<(), Fail>
    requires { AreWorkersOf engine.now workers.old }
    ensures { OnOk result (AreWorkersOf engine.now workers.new) }
{
    match step {
        Step::Append { worker, item } => make(engine, alloc, workers, *worker, &append(*item)),
        Step::Set { worker, key } => make(engine, alloc, workers, *worker, &set(*key)),
        Step::All(answer) => all_answer(engine, alloc, workers, answer),
    }
}

/// All steps of the walks, one after the other.
fn all_walk(engine: &Engine, alloc: Global, workers: &mut [Worker]) -> Result<(), Fail>
    requires { AreWorkersOf engine.now workers.old }
{
    for step in &WALK {
        take(engine, alloc, workers, step)?;
    }
    Ok(())
}

#[test]
fn each_of_64_callers_walks_by_itself(rt: HostRuntime) -> Result<(), Fail> {
    let alloc = rt.alloc();
    let (engine, mut workers) = many(alloc)?;
    all_walk(&engine, alloc, workers.as_mut_slice())
}
