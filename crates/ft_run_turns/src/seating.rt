//! The callers of a new engine before the first turn: all rest, and each has had the floor once.
ghost use Rattle.std.specs.Prelude.{◌≡◌, ◌+◌, ◌<◌, [], IfOk, Some, length};
ghost use Rattle.ft_bank.specs.Passes.{shape_of};
ghost use Rattle.ft_engine.specs.Callers.{AreFreshCallers, bank_of};
ghost use Rattle.ft_engine.specs.Resting.{HasFloor};
ghost use Rattle.ft_model.specs.Histories.{calls_of};
ghost use Rattle.ft_model.specs.Limits.{most_cursors};
ghost use Rattle.ft_run_turns.specs.Internal.CallerSeats.{AreNewFrom, AreNewSeats, AreSeats, HasCome, HasSat, HaveTurned, IsHeld, IsNewCaller, IsNewSeat, NobodyOwns, entries_made};
ghost use Rattle.ft_run_turns.specs.SeatedThreads.{AreOnlineAtStart};
ghost use Rattle.ft_run_threads.specs.Workers.{IsBankFor};

use crate::seats::Seat;
use ft_bank::Tokens;
use ft_engine::{Caller, Engine, RestingCaller};
use ft_model::ScriptParts;
use std::alloc::{AllocError, Global};

/// Has the first caller take the floor: it gathers the tokens of all others, which rest from then on.
fn gather_all(
    alloc: Global,
    engine: &Engine,
    callers: Vec<Caller>,
) -> Result<(Caller, Vec<RestingCaller>), AllocError>
    requires callers { AreFreshCallers engine.now most_cursors 0 callers.items }
    requires some { 0 < length callers.items }
    requires all { length callers.items ≡ (shape_of (bank_of engine.now)).passes }
    ensures first { IfOk result (λ made. IsNewCaller engine.now 0 made.0) }
    ensures floor { IfOk result (λ made. HasFloor made.0) }
    ensures others { IfOk result (λ made. AreNewFrom engine.now 1 made.1.items) }
    ensures count { IfOk result (λ made. length made.1.items + 1 ≡ (shape_of (bank_of engine.now)).passes) }
{
    let mut others = Vec::with_capacity(alloc, callers.len())?;
    let mut each = callers.into_iter();
    let Some(mut first) = each.next() else {
        unreachable!();
    };
    for caller in each {
        let (other, tokens) = engine.rest(caller);
        engine.gather(&mut first, tokens);
        others.push(other)?;
    }
    engine.take_floor(&mut first);
    Ok((first, others))
}

/// How many calls the script's thread has; none where there is no such thread.
fn call_count(script: &ScriptParts, thread: usize) -> usize
    ensures { result ≡ length (calls_of script.now thread) }
{
    match script.threads.as_slice().get(thread) {
        Some(own) => own.calls.len(),
        None => 0,
    }
}

/// Has the caller of a thread go online, where the thread has calls.
fn come(engine: &Engine, script: &ScriptParts, thread: usize, caller: &mut Caller)
    requires caller { IsNewCaller engine.now thread caller.old }
    requires floor { HasFloor caller.old }
    ensures { HasCome engine.now script.now thread caller.old caller.new }
{
    if call_count(script, thread) > 0 {
        engine.enter(caller);
    }
}

/// The seat of a thread before its first turn: its caller goes online, where it has calls, and rests.
fn sit(
    alloc: Global,
    engine: &Engine,
    script: &ScriptParts,
    thread: usize,
    caller: Caller,
) -> (Seat, Tokens)
    requires caller { IsNewCaller engine.now thread caller }
    requires floor { HasFloor caller }
    ensures seat { IsNewSeat engine.now script.now thread (Some result.0) }
    ensures tokens { IsHeld engine.now result.1 }
    ensures sat { HasSat engine.now thread caller result.1 }
{
    let mut caller = caller;
    come(engine, script, thread, &mut caller);
    let (caller, tokens) = engine.rest(caller);
    let entries = Vec::new(alloc);
    (Seat { caller, entries }, tokens)
}

/// The seats of all threads, in their order: each caller is woken once.
fn sit_all(
    alloc: Global,
    engine: &Engine,
    script: &ScriptParts,
    first: Caller,
    others: Vec<RestingCaller>,
) -> Result<(Vec<Option<Seat>>, Tokens), AllocError>
    requires first { IsNewCaller engine.now 0 first }
    requires floor { HasFloor first }
    requires others { AreNewFrom engine.now 1 others.items }
    requires count { length others.items + 1 ≡ (shape_of (bank_of engine.now)).passes }
    ensures seats { IfOk result (λ made. AreNewSeats engine.now script.now 0 made.0.items) }
    ensures count { IfOk result (λ made. length made.0.items ≡ (shape_of (bank_of engine.now)).passes) }
    ensures tokens { IfOk result (λ made. IsHeld engine.now made.1) }
    ensures free { IfOk result (λ made. NobodyOwns engine.now (length made.0.items) made.1) }
{
    let mut seats = Vec::with_capacity(alloc, others.len() + 1)?;
    let (seat, mut tokens) = sit(alloc, engine, script, 0, first);
    seats.push(Some(seat))?;
    for other in others {
        let caller = engine.wake(other, tokens);
        let (seat, given) = sit(alloc, engine, script, seats.len(), caller);
        tokens = given;
        seats.push(Some(seat))?;
    }
    Ok((seats, tokens))
}

/// The seats of the callers of a new engine, before the first turn: each thread that has a call is online.
pub fn seat_callers(
    alloc: Global,
    engine: &Engine,
    script: &ScriptParts,
    callers: Vec<Caller>,
) -> Result<(Vec<Option<Seat>>, Tokens), AllocError>
    requires bank { IsBankFor script.now (shape_of (bank_of engine.now)) }
    requires callers { AreFreshCallers engine.now most_cursors 0 callers.items }
    requires all { length callers.items ≡ (shape_of (bank_of engine.now)).passes }
    ensures seats { IfOk result (λ made. AreSeats engine.now script.now made.0.items) }
    ensures count { IfOk result (λ made. length made.0.items ≡ (shape_of (bank_of engine.now)).passes) }
    ensures tokens { IfOk result (λ made. IsHeld engine.now made.1) }
    ensures none { IfOk result (λ made. entries_made made.0.items ≡ 0) }
    ensures turned { IfOk result (λ made. HaveTurned engine.now script.now [] made.0.items made.1) }
    ensures online { IfOk result (λ made. AreOnlineAtStart script.now made.0.items) }
{
    let (first, others) = gather_all(alloc, engine, callers)?;
    sit_all(alloc, engine, script, first, others)
}
