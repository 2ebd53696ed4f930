//! What lies under the lock of a place.
ghost use Rattle.std.specs.Prelude.{◌≡◌, All, IfSome};
ghost use Rattle.ft_board.specs.declared.desk.State.TheVariants as state;
ghost use Rattle.ft_board.specs.Boards.{ComesTo, Fetches, IsNoteFor, IsFetchedFor};

use crate::naming::Naming;
use ft_bank::Note;
use std::marker::{Model, PhantomData};

/// What a thread that awaits a call is told.
#[derive(Drop)]
pub enum Fetched {
    /// The call is done, and the note is of its thread.
    Got(Note),
    /// The call's thread makes no more calls, and hasn't made this one.
    Stopped,
}

/// What has come of a call so far. The first of the last two to come stays.
#[derive(Drop)]
pub(crate) enum State {
    /// Nothing yet.
    NotYet,
    /// It is done, and these notes are left.
    Published(Vec<Note>),
    /// Its thread makes no more calls.
    Stopped,
}

/// The state of an awaited call.
#[derive(Drop)]
pub(crate) struct Desk<N: Naming> {
    thread: u32,
    index: u32,
    state: State,
    of: PhantomData<N>,
}

impl<N: Naming> Model for Desk<N> {
    ghost use Rattle.std.specs.Prelude.{ℕ};
    ghost use Rattle.ft_board.specs.declared.desk.State.{State};
    ghost use Rattle.ft_board.specs.Boards.{IsStateOf};

    ghost Value = { ℕ × ℕ × State };

    ghost view = { λ d. (d.thread, d.index, d.state) };

    ghost invariant = { λ d. IsStateOf N.bank N.stopped d.thread d.index d.state };
}

impl<N: Naming> Desk<N> {
    /// Nothing has come of the call yet.
    pub(crate) fn new(thread: u32, index: u32) -> Desk<N>
        ensures { result ≡ (thread, index, state.NotYet) }
    {
        Desk {
            thread,
            index,
            state: State::NotYet,
            of: PhantomData,
        }
    }

    /// Leaves notes that tell of the call.
    pub(crate) fn publish(&mut self, thread: u32, index: u32, notes: Vec<Note>)
        requires { All (IsNoteFor N.bank thread index) notes.items }
        ensures call { (self.new.0 ≡ self.old.0) × (self.new.1 ≡ self.old.1) }
        ensures state { (self.old.0 ≡ thread) → (self.old.1 ≡ index) → ComesTo (state.Published notes) self.old.2 self.new.2 }
    {
        if self.thread == thread && self.index == index && matches!(self.state, State::NotYet) {
            self.state = State::Published(notes);
        }
    }

    /// Says that the thread makes no more calls.
    pub(crate) fn stop(&mut self, thread: u32)
        requires { N.stopped thread }
        ensures call { (self.new.0 ≡ self.old.0) × (self.new.1 ≡ self.old.1) }
        ensures state { (self.old.0 ≡ thread) → ComesTo state.Stopped self.old.2 self.new.2 }
    {
        if self.thread == thread && matches!(self.state, State::NotYet) {
            self.state = State::Stopped;
        }
    }

    /// Takes a note, once the call is published, or learns that its thread has stopped.
    pub(crate) fn fetch(&mut self, thread: u32, index: u32) -> Option<Fetched>
        ensures fetched { IfSome result (IsFetchedFor N.bank N.stopped thread index) }
        ensures state { Fetches self.old.2 self.new.2 result }
    {
        if self.thread != thread || self.index != index {
            return None;
        }
        match &mut self.state {
            State::NotYet => None,
            State::Published(notes) => match notes.pop() {
                Some(note) => Some(Fetched::Got(note)),
                None => None,
            },
            State::Stopped => Some(Fetched::Stopped),
        }
    }
}
