//! Looks: calls that are made without a lock (PEP 703, Optimistically avoiding locking).
ghost use Rattle.std.specs.Prelude.{◌≡◌, IsTrue, OnOk, true};
ghost use Rattle.ft_engine.specs.Attempts.{MayAttempt};
ghost use Rattle.ft_engine.specs.Callers.{IsIdle};
ghost use Rattle.ft_engine.specs.Contentions.{may_look};
ghost use Rattle.ft_engine_tests.specs.TestCallers.{AreWorkersOf, IsWorkerOf};

use crate::first_turns::after;
use crate::plain::{Plain, reply_of};
use crate::turns::ordered;
use crate::workers::Worker;
use ft_engine::Engine;
use ft_model::{Call, DictCall, Key, ListCall, Reply, ScriptParts, Value};
use ft_section::{Look, Stamp};
use std::alloc::Global;
use std::process::Abort;
use std::test::Fail;

/// A has the dict's lock; B waits for it.
const LOCKED: &str =
    "dict d\nlist l\nthread A\nset d 1 5\nappend l 7\nbegin d\nend\nthread B\nlen d\nset d 2 6\nlen d\n";

/// Whether the worker may look.
pub(crate) fn can_look(engine: &Engine, worker: &Worker, call: &Call) -> bool
    requires { IsWorkerOf engine.now worker.now }
    ensures { IsTrue result → IsTrue worker.now.online × MayAttempt engine.now worker.now.caller call.now
        × IsIdle worker.now.caller × (may_look call.now ≡ true) }
{
    worker.online && engine.may_look(&worker.caller, call)
}

/// Whether the worker of that number may look.
fn may_look_as(engine: &Engine, workers: &[Worker], thread: usize, call: &Call) -> bool
    requires { AreWorkersOf engine.now workers.now }
{
    if thread >= workers.len() {
        return false;
    }
    can_look(engine, &workers[thread], call)
}

/// A look of a worker that may make one.
fn look_once(engine: &Engine, alloc: Global, worker: &mut Worker, call: &Call) -> Result<Look, Fail>
    requires { IsWorkerOf engine.now worker.old }
    ensures { OnOk result (IsWorkerOf engine.now worker.new) }
{
    if !can_look(engine, worker, call) {
        return Err(Fail::from("a look may be made"));
    }
    Ok(engine.look(alloc, &mut worker.caller, call))
}

/// A look of the worker of that number.
fn look_of(
    engine: &Engine,
    alloc: Global,
    workers: &mut [Worker],
    thread: usize,
    call: &Call,
) -> Result<Look, Fail>
    requires { AreWorkersOf engine.now workers.old }
    ensures { OnOk result (AreWorkersOf engine.now workers.new) }
{
    if thread >= workers.len() {
        return Err(Fail::from("each thread has a worker"));
    }
    let look = look_once(engine, alloc, &mut workers[thread], call)?;
    Ok(look)
}

/// Whether the look gives the reply, with that number.
fn gives(look: &Look, reply: &Reply, number: u64) -> bool {
    match look {
        Look::Done(said, stamp) => {
            said == reply
                && *stamp
                    == Stamp {
                        number,
                        wrote: false,
                    }
        }
        Look::Contended(_, _) | Look::NoMemory => false,
    }
}

/// Whether a look of the worker of that number gives this reply, after two writes.
fn gives_as(
    engine: &Engine,
    alloc: Global,
    workers: &mut [Worker],
    thread: usize,
    call: &Call,
    reply: &Reply,
) -> Result<bool, Fail>
    requires { AreWorkersOf engine.now workers.old }
    ensures { OnOk result (AreWorkersOf engine.now workers.new) }
{
    let look = look_of(engine, alloc, workers, thread, call)?;
    Ok(gives(&look, reply, 2))
}

const GET: Call = Call::Dict {
    container: 0,
    call: DictCall::Get { key: Key::Int(1) },
};

const MISSED: Call = Call::Dict {
    container: 0,
    call: DictCall::Has { key: Key::Int(2) },
};

const ITEM: Call = Call::List {
    container: 1,
    call: ListCall::Get { index: -1 },
};

const APPEND: Call = Call::List {
    container: 1,
    call: ListCall::Append {
        value: Value::Int(8),
    },
};

/// A look: whose it is, at what call, and the reply that it gives.
struct ExpectedLook {
    name: &'static str,
    thread: usize,
    call: Call,
    reply: Plain,
}

/// Three looks of B at what A has locked, and one of A itself in its section.
const LOOKS: [ExpectedLook; 4] = [
    ExpectedLook {
        name: "B looks at a key",
        thread: 1,
        call: GET,
        reply: Plain::Value(Value::Int(5)),
    },
    ExpectedLook {
        name: "B looks for a key that isn't there",
        thread: 1,
        call: MISSED,
        reply: Plain::Truth(false),
    },
    ExpectedLook {
        name: "B looks at an item",
        thread: 1,
        call: ITEM,
        reply: Plain::Value(Value::Int(7)),
    },
    ExpectedLook {
        name: "A looks at a key in its section",
        thread: 0,
        call: GET,
        reply: Plain::Value(Value::Int(5)),
    },
];

/// Each of the looks gives its reply; else the failure has the name of the first that doesn't.
fn all_give(engine: &Engine, alloc: Global, workers: &mut [Worker]) -> Result<(), Fail>
    requires { AreWorkersOf engine.now workers.old }
    ensures { OnOk result (AreWorkersOf engine.now workers.new) }
{
    for look in &LOOKS {
        if !gives_as(
            engine,
            alloc,
            workers,
            look.thread,
            &look.call,
            &reply_of(look.reply),
        )? {
            return Err(Fail::from(look.name));
        }
    }
    Ok(())
}

#[test]
fn looks_wait_for_no_lock(rt: HostRuntime) -> Result<(), Fail> {
    let alloc = rt.alloc();
    let (_, engine, mut workers) = after(alloc, LOCKED, &[0, 0, 0])?;
    all_give(&engine, alloc, workers.as_mut_slice())?;
    if workers.len() != 2 {
        return Err(Fail::from("each thread has a worker"));
    }
    assert_eq!(rt; workers[0].caller.depth(), 1);
    // three looks are three calls
    assert_eq!(rt; workers[1].caller.left(), 997);
    Ok(())
}

/// Whether B may look before its `set` waits for A, but not make a write so, nor look while the `set` waits: only the
/// same call comes next then.
fn looks_between_calls(
    engine: &Engine,
    alloc: Global,
    parts: &ScriptParts,
    workers: &mut [Worker],
) -> Result<bool, Fail>
    requires { AreWorkersOf engine.now workers.old }
    ensures { OnOk result (AreWorkersOf engine.now workers.new) }
{
    let before = may_look_as(engine, workers, 1, &GET);
    let write = may_look_as(engine, workers, 1, &APPEND);
    ordered(engine, alloc, parts, workers, &[1, 1])?;
    let waiting = may_look_as(engine, workers, 1, &GET);
    Ok(before && !write && !waiting)
}

#[test]
fn no_look_is_made_of_a_write_or_beside_a_call_in_flight(rt: HostRuntime) -> Result<(), Fail> {
    let alloc = rt.alloc();
    let (script, engine, mut workers) = after(alloc, LOCKED, &[0, 0, 0])?;
    let right = looks_between_calls(&engine, alloc, script.parts(), workers.as_mut_slice())?;
    assert!(rt; right, "looks between calls");
    if workers.len() != 2 {
        return Err(Fail::from("each thread has a worker"));
    }
    assert_eq!(rt; workers[1].entries.len(), 1);
    Ok(())
}
