//! What a thread awaits at its turn.
ghost use Rattle.std.specs.Prelude.{◌≡◌, ◌≤◌, ◌<◌, IfNone, IfSome, Some, length, slice_get, ℕ};
ghost use Rattle.ft_bank.specs.Notes.{IsNoteOf, TellsOf};
ghost use Rattle.ft_bank.specs.Passes.{shape_of};
ghost use Rattle.ft_engine.specs.Callers.{bank_of};
ghost use Rattle.ft_model.specs.declared.call.Call.TheVariants.{Await};
ghost use Rattle.ft_model.specs.Histories.{calls_of};
ghost use Rattle.ft_model.specs.Scripts.{IsScript};
ghost use Rattle.ft_run_turns.specs.Internal.CallerSeats.{AreSeats, IsAwaitState, AwaitsNone, IsSeatOf, standing_in, standings_of};
ghost use Rattle.ft_run_threads.specs.Workers.{IsBankFor};

use crate::seats::Seat;
use ft_bank::Note;
use ft_engine::Engine;
use ft_model::{Call, ScriptParts};

/// What a thread awaits.
#[derive(Drop)]
pub(crate) enum AwaitState {
    /// Nothing: its next call is no await, or it has none left.
    Nothing,
    /// A call that has finished. Here is a note of the caller that made it.
    Finished(Note),
    /// A call that hasn't finished.
    Unfinished,
}

/// The call that the thread's next one awaits, by its thread and index, where that is an await.
fn next_await(script: &ScriptParts, thread: usize, made: usize) -> Option<(u32, u32)>
    requires { thread < length script.now.threads }
    ensures some { IfSome result (λ named. slice_get (calls_of script.now thread) made ≡ Some (Await named.0 named.1)) }
    ensures none { IfNone result (AwaitsNone (slice_get (calls_of script.now thread) made)) }
{
    match script.threads.as_slice()[thread].calls.as_slice().get(made) {
        Some(
            Call::Await {
                thread: named,
                index,
            },
        ) => Some((*named, *index)),
        _ => None,
    }
}

/// A note of a thread's caller, which rests, where that many of the thread's calls have ended.
fn note_of(
    engine: &Engine,
    script: &ScriptParts,
    thread: u32,
    index: u32,
    seat: Seat,
) -> (Seat, Option<Note>)
    requires seat { IsSeatOf engine.now script.now thread seat }
    ensures seat { IsSeatOf engine.now script.now thread result.0 }
    ensures same { standing_in result.0 ≡ standing_in seat }
    ensures note { IfSome result.1 (λ note. IsNoteOf (bank_of engine.now) note) }
    ensures tells { IfSome result.1 (λ note. TellsOf note thread index) }
    ensures made { IfSome result.1 (λ note. index ≤ length seat.entries.items) }
    ensures none { IfNone result.1 (length seat.entries.items < index) }
{
    let _ = script;
    let Seat {
        mut caller,
        entries,
    } = seat;
    if entries.len() < index as usize {
        return (Seat { caller, entries }, None);
    }
    let note = engine.note_resting(&mut caller);
    (Seat { caller, entries }, Some(note))
}

/// What a thread awaits at its turn: where its next call is an await, the call that this names has finished, or not.
pub(crate) fn awaited_of(
    engine: &Engine,
    script: &ScriptParts,
    seats: &mut [Option<Seat>],
    thread: usize,
) -> AwaitState
    requires script { IsScript script.now }
    requires bank { IsBankFor script.now (shape_of (bank_of engine.now)) }
    requires thread { thread < length script.now.threads }
    requires seats { AreSeats engine.now script.now seats.old }
    requires count { length seats.old ≡ (shape_of (bank_of engine.now)).passes }
    ensures seats { AreSeats engine.now script.now seats.new }
    ensures same { standings_of seats.new ≡ standings_of seats.old }
    ensures awaited { IsAwaitState engine.now script.now seats.old thread result }
{
    let Some(own) = &seats[thread] else {
        unreachable!();
    };
    let Some((named, index)) = next_await(script, thread, own.entries.len()) else {
        return AwaitState::Nothing;
    };
    let Some(seat) = seats[named as usize].take() else {
        unreachable!();
    };
    let (seat, note) = note_of(engine, script, named, index, seat);
    seats[named as usize] = Some(seat);
    match note {
        Some(note) => AwaitState::Finished(note),
        None => AwaitState::Unfinished,
    }
}
