//! A script from its start to its end, in the order of its turns.
ghost use Rattle.std.specs.Prelude.{IfOk};
ghost use Rattle.ft_bank.specs.Closings.{shape_in, PassesWereOnline};
ghost use Rattle.ft_engine.specs.Contents.{IsLegalWith};
ghost use Rattle.ft_engine.specs.DoneCallers.{IsLegalFor};
ghost use Rattle.ft_run_turns.specs.OrderedHistories.{IsOrderRunFor};
ghost use Rattle.ft_run_threads.specs.ClosedHistories.{HasEntriesOf};
ghost use Rattle.ft_run_threads.specs.Workers.{IsBankFor};

use crate::ending::close_all;
use crate::seating::seat_callers;
use crate::turning::take_turns;
use ft_bank::Closed;
use ft_engine::Engine;
use ft_model::{Entry, MOST_CURSORS, Script, Shown};
use ft_run_threads::shape_for;
use std::alloc::{AllocError, Global};

/// What a script came to whose threads took turns.
#[derive(Drop)]
pub struct TurnRun {
    /// The history of all calls.
    pub history: Vec<Entry>,
    /// What the containers are shown to have in the end, in the order of declaration.
    pub contents: Vec<Shown>,
    /// The bank on which they were made.
    pub closed: Closed,
}

/// Runs a script on this thread, in the order of its turns, on containers in shared words. It gives the history of what
/// its threads were answered, which is legal and in the order of the turns, what the containers have after its writes,
/// and the closed bank, which is one for the script and has just the entries of the history.
///
/// # Errors
///
/// Memory ran out, for the bank, for a copy that a call makes, or for the history. The bank goes then, with all its
/// locks.
pub fn run_in_turns(alloc: Global, script: &Script) -> Result<TurnRun, AllocError>
    ensures order { IfOk result (λ run. IsOrderRunFor script.now run.history.items) }
    ensures legal { IfOk result (λ run. IsLegalFor script.now run.history.items) }
    ensures contents { IfOk result (λ run. IsLegalWith script.now run.history.items run.contents.items) }
    ensures shape { IfOk result (λ run. IsBankFor script.now (shape_in run.closed)) }
    ensures entries { IfOk result (λ run. HasEntriesOf run.closed run.history.items) }
    ensures online { IfOk result (λ run. PassesWereOnline run.closed) }
{
    let parts = script.parts();
    let shape = shape_for(alloc, script)?;
    let Ok((engine, callers)) = Engine::new(alloc, shape, MOST_CURSORS as u32) else {
        return Err(AllocError);
    };
    let (mut seats, tokens) = seat_callers(alloc, &engine, parts, callers)?;
    let tokens = take_turns(alloc, &engine, parts, seats.as_mut_slice(), tokens)?;
    close_all(alloc, engine, parts, seats, tokens)
}
