//! A script from its start to its end: its threads at work beside each other, and then one history.
ghost use Rattle.std.specs.Prelude.{IfOk};
ghost use Rattle.ft_bank.specs.Closings.{shape_in, PassesWereOnline};
ghost use Rattle.ft_engine.specs.Contents.{IsLegalWith};
ghost use Rattle.ft_engine.specs.DoneCallers.{IsLegalFor};
ghost use Rattle.ft_run_threads.specs.ClosedHistories.{HasEntriesOf};
ghost use Rattle.ft_run_threads.specs.Workers.{IsBankFor};

use crate::closing::close_all;
use crate::gate::Gate;
use crate::starting::start;
use crate::working::work_on_board;
use ft_bank::Closed;
use ft_model::{Entry, Script, Shown};
use std::alloc::{AllocError, Global};
use std::marker::Brand;
use std::sync::Wait;
use std::thread::Threads;

/// What a script came to whose threads ran beside each other.
#[derive(Drop)]
pub struct Ran {
    /// The history of all calls.
    pub history: Vec<Entry>,
    /// What the containers are shown to have in the end, in the order of declaration.
    pub contents: Vec<Shown>,
    /// The bank on which they were made.
    pub closed: Closed,
}

/// Runs a script: each of its threads makes its calls, in a thread of its own, on containers in shared words, with the
/// gate called round each call. It gives the history of what they were answered, which is legal, what the containers have
/// after its writes, and the closed bank, which is one for the script and has just the entries of the history. It may
/// wait: nothing says that it returns.
///
/// # Errors
///
/// Memory ran out, for the bank, for a copy that a call makes, or for the history. A worker that has no memory for a
/// call gives up, and so does one that awaits a call which it then doesn't make; the others go on to their ends.
pub fn run_workers<R: Threads + Wait + Sync, G: Gate>(
    rt: &R,
    alloc: Global,
    script: &Script,
    gate: &G,
) -> Result<Ran, AllocError>
    ensures legal { IfOk result (λ ran. IsLegalFor script.now ran.history.items) }
    ensures contents { IfOk result (λ ran. IsLegalWith script.now ran.history.items ran.contents.items) }
    ensures shape { IfOk result (λ ran. IsBankFor script.now (shape_in ran.closed)) }
    ensures entries { IfOk result (λ ran. HasEntriesOf ran.closed ran.history.items) }
    ensures online { IfOk result (λ ran. PassesWereOnline ran.closed) }
{
    let (engine, mut workers) = start(alloc, script)?;
    work_on_board::<Brand, R, G>(rt, &engine, alloc, gate, script, workers.as_mut_slice())?;
    close_all(alloc, engine, script, workers)
}
