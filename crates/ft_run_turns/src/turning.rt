//! The turns of a script, one after the other.
ghost use Rattle.std.specs.Prelude.{◌≡◌, ◌⊎◌, ◌+◌, ◌<◌, ◌∷◌, ◌++◌, [], false, IfNone, IfOk, IfSome, List, OnOk, length, ℕ, if◌then◌else◌};
ghost use Rattle.ft_bank.specs.Passes.{shape_of};
ghost use Rattle.ft_engine.specs.Callers.{bank_of};
ghost use Rattle.ft_model.specs.Scripts.{IsScript};
ghost use Rattle.ft_turns.specs.Ends.{after_turns};
ghost use Rattle.ft_turns.specs.Orders.{is_awaiting, turns_of};
ghost use Rattle.ft_turns.specs.Schedules.{IsInRound, scheduled};
ghost use Rattle.ft_run_turns.specs.Internal.CallerSeats.{AreSeats, SeatsHaveMadeAll, HaveTurned, IsHeld, IsNoteOfAwaited, entries_made, next_in};
ghost use Rattle.ft_run_threads.specs.Workers.{IsBankFor};

use crate::awaiting::{AwaitState, awaited_of};
use crate::seats::Seat;
use crate::trying::turn_of;
use ft_bank::{Note, Tokens};
use ft_engine::Engine;
use ft_model::ScriptParts;
use ft_turns::{Schedule, count_calls};
use std::alloc::{AllocError, Global};

/// Whose turn is next; nobody's where no call is left, or no turn.
fn next_turn(schedule: &mut Schedule, script: &ScriptParts, left: usize) -> Option<u32>
    requires script { IsScript script.now }
    requires some { 0 < left → 0 < length script.now.threads }
    requires round { IsInRound (length script.now.threads) schedule.old }
    ensures round { IsInRound (length script.now.threads) schedule.new }
    ensures some { IfSome result (λ thread. thread < length script.now.threads) }
    ensures turn { IfSome result (λ thread. scheduled schedule.old script.now.order (length script.now.threads)
        ≡ thread ∷ scheduled schedule.new script.now.order (length script.now.threads)) }
    ensures left { IfSome result (λ thread. 0 < left) }
    ensures end { IfNone result ((left ≡ 0)
        ⊎ (scheduled schedule.old script.now.order (length script.now.threads) ≡ [])) }
{
    if left == 0 {
        return None;
    }
    schedule.next(script.order.as_slice(), script.threads.len())
}

/// How many calls are left after a turn, in which one has ended or not.
fn left_after(left: usize, ended: bool) -> usize
    requires { 0 < left }
    ensures { result + (if ended then 1 else 0) ≡ left }
{
    if ended { left - 1 } else { left }
}

/// The turn of a thread that awaits no unfinished call: its seat is taken up, and put back.
fn turn_seat(
    alloc: Global,
    engine: &Engine,
    script: &ScriptParts,
    seats: &mut [Option<Seat>],
    thread: usize,
    tokens: Tokens,
    note: Option<Note>,
) -> Result<(Tokens, bool), AllocError>
    requires script { IsScript script.now }
    requires bank { IsBankFor script.now (shape_of (bank_of engine.now)) }
    requires thread { thread < length script.now.threads }
    requires seats { AreSeats engine.now script.now seats.old }
    requires count { length seats.old ≡ (shape_of (bank_of engine.now)).passes }
    requires tokens { IsHeld engine.now tokens }
    requires note { IsNoteOfAwaited engine.now (next_in script.now seats.old thread) note }
    ensures seats { OnOk result (AreSeats engine.now script.now seats.new) }
    ensures tokens { IfOk result (λ made. IsHeld engine.now made.0) }
    ensures made { IfOk result (λ made. entries_made seats.new ≡ entries_made seats.old + (if made.1 then 1 else 0)) }
    ensures turn { IfOk result (λ made. (turns : List ℕ)
        → is_awaiting script.now (after_turns script.now turns) thread ≡ false
        → HaveTurned engine.now script.now turns seats.old tokens
        → HaveTurned engine.now script.now (turns ++ thread ∷ []) seats.new made.0) }
{
    let Some(seat) = seats[thread].take() else {
        unreachable!();
    };
    let (seat, tokens, ended) = turn_of(alloc, engine, script, thread, seat, tokens, note)?;
    seats[thread] = Some(seat);
    Ok((tokens, ended))
}

/// The turn of a thread. One that awaits a call that hasn't finished spends its turn.
fn take_turn(
    alloc: Global,
    engine: &Engine,
    script: &ScriptParts,
    seats: &mut [Option<Seat>],
    thread: usize,
    tokens: Tokens,
) -> Result<(Tokens, bool), AllocError>
    requires script { IsScript script.now }
    requires bank { IsBankFor script.now (shape_of (bank_of engine.now)) }
    requires thread { thread < length script.now.threads }
    requires seats { AreSeats engine.now script.now seats.old }
    requires count { length seats.old ≡ (shape_of (bank_of engine.now)).passes }
    requires tokens { IsHeld engine.now tokens }
    ensures seats { OnOk result (AreSeats engine.now script.now seats.new) }
    ensures tokens { IfOk result (λ made. IsHeld engine.now made.0) }
    ensures made { IfOk result (λ made. entries_made seats.new ≡ entries_made seats.old + (if made.1 then 1 else 0)) }
    ensures turn { IfOk result (λ made. (turns : List ℕ) → HaveTurned engine.now script.now turns seats.old tokens
        → HaveTurned engine.now script.now (turns ++ thread ∷ []) seats.new made.0) }
{
    match awaited_of(engine, script, seats, thread) {
        AwaitState::Unfinished => Ok((tokens, false)),
        AwaitState::Finished(note) => {
            turn_seat(alloc, engine, script, seats, thread, tokens, Some(note))
        }
        AwaitState::Nothing => turn_seat(alloc, engine, script, seats, thread, tokens, None),
    }
}

/// Takes all turns of a script, until no call is left.
pub(crate) fn take_turns(
    alloc: Global,
    engine: &Engine,
    script: &ScriptParts,
    seats: &mut [Option<Seat>],
    tokens: Tokens,
) -> Result<Tokens, AllocError>
    requires script { IsScript script.now }
    requires bank { IsBankFor script.now (shape_of (bank_of engine.now)) }
    requires seats { AreSeats engine.now script.now seats.old }
    requires count { length seats.old ≡ (shape_of (bank_of engine.now)).passes }
    requires tokens { IsHeld engine.now tokens }
    requires none { entries_made seats.old ≡ 0 }
    requires turned { HaveTurned engine.now script.now [] seats.old tokens }
    ensures seats { OnOk result (AreSeats engine.now script.now seats.new) }
    ensures tokens { IfOk result (λ tokens. IsHeld engine.now tokens) }
    ensures turned { IfOk result (λ given. HaveTurned engine.now script.now (turns_of script.now) seats.new given) }
    ensures made { OnOk result (SeatsHaveMadeAll script.now seats.new) }
{
    let mut left = count_calls(script);
    let mut schedule = Schedule::start(script, left);
    let mut tokens = tokens;
    while let Some(thread) = next_turn(&mut schedule, script, left) {
        let (given, ended) = take_turn(alloc, engine, script, seats, thread as usize, tokens)?;
        tokens = given;
        left = left_after(left, ended);
    }
    Ok(tokens)
}
