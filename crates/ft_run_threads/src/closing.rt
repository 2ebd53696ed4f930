//! The end of all workers: one history.
ghost use Rattle.std.specs.Prelude.{◌≡◌, ◌≤◌, ◌+◌, OnOk, IfOk, length, map};
ghost use Rattle.ft_bank.specs.Closings.{shape_in, PassesWereOnline};
ghost use Rattle.ft_bank.specs.Passes.{shape_of};
ghost use Rattle.ft_engine.specs.Callers.{bank_of};
ghost use Rattle.ft_engine.specs.Contents.{AreShownIn, IsLegalWith};
ghost use Rattle.ft_engine.specs.DoneCallers.{IsLegalFor};
ghost use Rattle.ft_engine.specs.Resting.{HasFloor, token_count};
ghost use Rattle.ft_run_threads.specs.ClosedHistories.{HasEntriesOf};
ghost use Rattle.ft_run_threads.specs.Workers.{AreFrom, HasTakenIn, HasWorked, IsBankFor};

use crate::running::Ran;
use crate::workers::Worker;
use ft_engine::{Caller, Engine};
use ft_model::{Entry, Script, Shown};
use std::alloc::{AllocError, Global};

/// Takes in the worker of the next thread, and adds its list.
#[tactic(auto, using(crate::proofs::WorkerLemmas::last_next, crate::proofs::WholeLists::made_push))]
fn take_in(
    engine: &Engine,
    script: &Script,
    caller: &mut Caller,
    lists: &mut Vec<Vec<Entry>>,
    worker: Worker,
) -> Result<(), AllocError>
    requires taken { HasTakenIn engine.now script.now caller.old (map (λ list. list.items) lists.old.items) }
    requires worker { HasWorked engine.now script.now (length lists.old.items) worker }
    ensures taken { OnOk result (HasTakenIn engine.now script.now caller.new (map (λ list. list.items) lists.new.items)) }
    ensures count { OnOk result (length lists.new.items ≡ length lists.old.items + 1) }
    ensures tokens { OnOk result (length lists.old.items ≤ token_count caller.old → length lists.new.items ≤ token_count caller.new) }
{
    let _ = script;
    if !worker.done {
        return Err(AllocError);
    }
    engine.join(caller, worker.caller);
    lists.push(worker.entries)?;
    Ok(())
}

/// What the containers have, as a caller reads it that has taken in all others: it has all tokens, and takes the floor.
fn read_contents(
    alloc: Global,
    engine: &Engine,
    script: &Script,
    caller: &mut Caller,
    lists: &[Vec<Entry>],
) -> Result<Vec<Shown>, AllocError>
    requires taken { HasTakenIn engine.now script.now caller.old (map (λ list. list.items) lists.now) }
    requires tokens { (shape_of (bank_of engine.now)).passes ≤ token_count caller.old }
    ensures taken { HasTakenIn engine.now script.now caller.new (map (λ list. list.items) lists.now) }
    ensures floor { HasFloor caller.new }
    ensures shown { IfOk result (λ all. AreShownIn caller.new all.items) }
{
    let _ = script;
    let _ = lists;
    engine.take_floor(caller);
    engine.contents(alloc, caller)
}

/// Takes in all workers in the order of the threads, reads what the containers have, and closes the engine: the history
/// of what they were answered. It is out of memory where a worker was.
pub(crate) fn close_all(
    alloc: Global,
    engine: Engine,
    script: &Script,
    workers: Vec<Worker>,
) -> Result<Ran, AllocError>
    requires bank { IsBankFor script.now (shape_of (bank_of engine)) }
    requires workers { AreFrom (HasWorked engine script.now) 0 workers.items }
    requires all { length workers.items ≡ (shape_of (bank_of engine)).passes }
    ensures legal { IfOk result (λ ran. IsLegalFor script.now ran.history.items) }
    ensures contents { IfOk result (λ ran. IsLegalWith script.now ran.history.items ran.contents.items) }
    ensures shape { IfOk result (λ ran. IsBankFor script.now (shape_in ran.closed)) }
    ensures entries { IfOk result (λ ran. HasEntriesOf ran.closed ran.history.items) }
    ensures online { IfOk result (λ ran. PassesWereOnline ran.closed) }
{
    // Named so that the check sees the script's rule.
    let _parts = script.parts();
    let mut lists = Vec::with_capacity(alloc, workers.len())?;
    let mut each = workers.into_iter();
    let Some(first) = each.next() else {
        unreachable!();
    };
    if !first.done {
        return Err(AllocError);
    }
    let mut caller = first.caller;
    lists.push(first.entries)?;
    for worker in each {
        take_in(&engine, script, &mut caller, &mut lists, worker)?;
    }
    let contents = read_contents(alloc, &engine, script, &mut caller, &lists)?;
    let (history, closed) = engine.close(alloc, caller, lists)?;
    Ok(Ran {
        history,
        contents,
        closed,
    })
}
