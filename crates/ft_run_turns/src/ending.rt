//! The end of all turns: one history.
ghost use Rattle.std.specs.Prelude.{◌≡◌, ◌+◌, ◌<◌, ◌++◌, ◌∷◌, [], IfOk, OnOk, length, map};
ghost use Rattle.ft_bank.specs.Closings.{shape_in, PassesWereOnline};
ghost use Rattle.ft_bank.specs.Passes.{shape_of};
ghost use Rattle.ft_engine.specs.Callers.{bank_of};
ghost use Rattle.ft_engine.specs.Contents.{AreShownIn, IsLegalWith};
ghost use Rattle.ft_engine.specs.DoneCallers.{IsLegalFor};
ghost use Rattle.ft_engine.specs.Resting.{HasFloor};
ghost use Rattle.ft_model.specs.Scripts.{IsScript};
ghost use Rattle.ft_turns.specs.Orders.{turns_of};
ghost use Rattle.ft_run_turns.specs.Internal.CallerSeats.{AreEndSeats, AreSeats, SeatsHaveMadeAll, HaveTurned, IsEndSeat, IsHeld, seat_entries, vec_lists};
ghost use Rattle.ft_run_turns.specs.OrderedHistories.{IsOrderRunFor};
ghost use Rattle.ft_run_threads.specs.ClosedHistories.{HasEntriesOf};
ghost use Rattle.ft_run_threads.specs.Workers.{HasTakenIn, IsBankFor};

use crate::running::TurnRun;
use crate::seats::Seat;
use ft_bank::Tokens;
use ft_engine::{Caller, Engine};
use ft_model::{Entry, ScriptParts, Shown};
use std::alloc::{AllocError, Global};

/// Takes in the caller of the next thread, and adds its list.
fn take_in(
    engine: &Engine,
    script: &ScriptParts,
    caller: &mut Caller,
    lists: &mut Vec<Vec<Entry>>,
    seat: Option<Seat>,
) -> Result<(), AllocError>
    requires script { IsScript script.now }
    requires taken { HasTakenIn engine.now script.now caller.old (vec_lists lists.old.items) }
    requires seat { IsEndSeat engine.now script.now (length lists.old.items) seat }
    ensures taken { OnOk result (HasTakenIn engine.now script.now caller.new (vec_lists lists.new.items)) }
    ensures count { OnOk result (length lists.new.items ≡ length lists.old.items + 1) }
    ensures list { OnOk result (vec_lists lists.new.items ≡ vec_lists lists.old.items ++ seat_entries seat ∷ []) }
    ensures floor { HasFloor caller.old → HasFloor caller.new }
{
    let _ = script;
    let Some(seat) = seat else {
        unreachable!();
    };
    engine.join_resting(caller, seat.caller);
    lists.push(seat.entries)?;
    Ok(())
}

/// Wakes the caller of the first thread, which takes in the others from then on.
fn wake_first(
    engine: &Engine,
    script: &ScriptParts,
    seat: Option<Seat>,
    tokens: Tokens,
) -> (Caller, Vec<Entry>)
    requires script { IsScript script.now }
    requires seat { IsEndSeat engine.now script.now 0 seat }
    requires tokens { IsHeld engine.now tokens }
    ensures taken { HasTakenIn engine.now script.now result.0 (result.1.items ∷ []) }
    ensures entries { result.1.items ≡ seat_entries seat }
    ensures floor { HasFloor result.0 }
{
    let _ = script;
    let Some(seat) = seat else {
        unreachable!();
    };
    let caller = engine.wake(seat.caller, tokens);
    (caller, seat.entries)
}

/// Wakes the first caller, which takes in all others in the order of the threads.
fn gather_in(
    alloc: Global,
    engine: &Engine,
    script: &ScriptParts,
    seats: Vec<Option<Seat>>,
    tokens: Tokens,
) -> Result<(Caller, Vec<Vec<Entry>>), AllocError>
    requires script { IsScript script.now }
    requires seats { AreEndSeats engine.now script.now 0 seats.items }
    requires some { 0 < length seats.items }
    requires tokens { IsHeld engine.now tokens }
    ensures taken { IfOk result (λ made. HasTakenIn engine.now script.now made.0 (vec_lists made.1.items)) }
    ensures lists { IfOk result (λ made. vec_lists made.1.items ≡ map seat_entries seats.items) }
    ensures floor { IfOk result (λ made. HasFloor made.0) }
{
    let mut lists = Vec::with_capacity(alloc, seats.len())?;
    let mut each = seats.into_iter();
    let Some(first) = each.next() else {
        unreachable!();
    };
    let (mut caller, entries) = wake_first(engine, script, first, tokens);
    lists.push(entries)?;
    for seat in each {
        take_in(engine, script, &mut caller, &mut lists, seat)?;
    }
    Ok((caller, lists))
}

/// What the containers have, as the caller reads it that has taken in all others and has the floor.
fn read_contents(
    alloc: Global,
    engine: &Engine,
    script: &ScriptParts,
    caller: &mut Caller,
    lists: &[Vec<Entry>],
) -> Result<Vec<Shown>, AllocError>
    requires taken { HasTakenIn engine.now script.now caller.old (vec_lists lists.now) }
    requires floor { HasFloor caller.old }
    ensures taken { HasTakenIn engine.now script.now caller.new (vec_lists lists.now) }
    ensures floor { HasFloor caller.new }
    ensures shown { IfOk result (λ all. AreShownIn caller.new all.items) }
{
    let _ = script;
    let _ = lists;
    engine.contents(alloc, caller)
}

/// Takes in all callers, reads what the containers have, and closes the engine: the history of what they were answered.
pub(crate) fn close_all(
    alloc: Global,
    engine: Engine,
    script: &ScriptParts,
    seats: Vec<Option<Seat>>,
    tokens: Tokens,
) -> Result<TurnRun, AllocError>
    requires script { IsScript script.now }
    requires bank { IsBankFor script.now (shape_of (bank_of engine)) }
    requires seats { AreSeats engine script.now seats.items }
    requires count { length seats.items ≡ (shape_of (bank_of engine)).passes }
    requires tokens { IsHeld engine tokens }
    requires turned { HaveTurned engine script.now (turns_of script.now) seats.items tokens }
    requires made { SeatsHaveMadeAll script.now seats.items }
    ensures order { IfOk result (λ run. IsOrderRunFor script.now run.history.items) }
    ensures legal { IfOk result (λ run. IsLegalFor script.now run.history.items) }
    ensures contents { IfOk result (λ run. IsLegalWith script.now run.history.items run.contents.items) }
    ensures shape { IfOk result (λ run. IsBankFor script.now (shape_in run.closed)) }
    ensures entries { IfOk result (λ run. HasEntriesOf run.closed run.history.items) }
    ensures online { IfOk result (λ run. PassesWereOnline run.closed) }
{
    let (mut caller, lists) = gather_in(alloc, &engine, script, seats, tokens)?;
    let contents = read_contents(alloc, &engine, script, &mut caller, &lists)?;
    let (history, closed) = engine.close(alloc, caller, lists)?;
    Ok(TurnRun {
        history,
        contents,
        closed,
    })
}
