//! A caller that gives up in the midst of nested sections.
ghost use Rattle.std.specs.Prelude.{OnOk};
ghost use Rattle.ft_engine_tests.specs.TestCallers.{AreWorkersOf, IsWorkerOf};

use crate::first_turns::after;
use crate::turns::ordered;
use crate::workers::Worker;
use ft_engine::Engine;
use ft_model::ScriptParts;
use std::alloc::Global;
use std::process::Abort;
use std::test::Fail;

/// Two sections of A, one in the other; B wants the locks of both.
const NESTED: &str =
    "list l\ndict d\nthread A\nbegin d\nbegin l\nappend l 1\nend\nend\nthread B\nbegin l d\nend\n";

/// A worker gives up what it is in, and leaves.
fn give_up(engine: &Engine, worker: &mut Worker)
    requires { IsWorkerOf engine.now worker.old }
    ensures { IsWorkerOf engine.now worker.new }
{
    worker.online = false;
    engine.abandon(&mut worker.caller);
    engine.leave(&mut worker.caller);
}

/// The worker of that number gives up what it is in, and leaves.
fn give_up_as(engine: &Engine, workers: &mut [Worker], thread: usize) -> Result<(), Fail>
    requires { AreWorkersOf engine.now workers.old }
    ensures { OnOk result (AreWorkersOf engine.now workers.new) }
{
    if thread >= workers.len() {
        return Err(Fail::from("each thread has a worker"));
    }
    give_up(engine, &mut workers[thread]);
    Ok(())
}

/// A gives up, and then B has two turns more.
fn give_up_in_sections(
    engine: &Engine,
    alloc: Global,
    parts: &ScriptParts,
    workers: &mut [Worker],
) -> Result<(), Fail>
    requires { AreWorkersOf engine.now workers.old }
    ensures { OnOk result (AreWorkersOf engine.now workers.new) }
{
    give_up_as(engine, workers, 0)?;
    ordered(engine, alloc, parts, workers, &[1, 1])
}

#[test]
fn who_waits_goes_on_once_a_caller_gave_up(rt: HostRuntime) -> Result<(), Fail> {
    let alloc = rt.alloc();
    // A opens both sections and adds an item, and B waits for it
    let (script, engine, mut workers) = after(alloc, NESTED, &[0, 0, 0, 1, 1])?;
    give_up_in_sections(&engine, alloc, script.parts(), workers.as_mut_slice())?;
    if workers.len() != 2 {
        return Err(Fail::from("each thread has a worker"));
    }
    assert_eq!(rt; workers[0].entries.len(), 3);
    assert_eq!(rt; workers[0].caller.depth(), 0);
    assert_eq!(rt; workers[1].entries.len(), 2);
    assert_eq!(rt; workers[1].entries[0].waited, Some(0));
    Ok(())
}
