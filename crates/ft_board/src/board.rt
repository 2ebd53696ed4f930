//! The board: a place for each call that is awaited.
ghost use Rattle.std.specs.Prelude.{◌≡◌, ◌+◌, ◌<◌, ◌^◌, ℕ, All, IfOk, IfSome, OnOk, length, if◌then◌else◌};
ghost use Rattle.ft_board.specs.Awaits.{await_count, awaits_of, count_awaits, is_same_call};
ghost use Rattle.ft_board.specs.Boards.{IsNoteFor, IsFetchedFor};

use crate::awaits::{Awaited, Awaits};
use crate::desk::{Desk, Fetched};
use crate::naming::Naming;
use ft_bank::{MakeFault, Note};
use ft_model::{Call, Script};
use std::alloc::{AllocError, Global};
use std::hint::spin_loop;
use std::marker::Model;
use std::sync::{Condvar, Mutex, Wait};

/// How often whoever awaits a call looks for a note before it sleeps.
const LOOKS: u32 = 100;
/// Of how many steps the pause between two looks is.
const PAUSE: u32 = 20;

/// Where the notes for one call are left.
#[derive(Drop)]
pub(crate) struct Place<N: Naming> {
    desk: Mutex<Desk<N>>,
    changed: Condvar,
}

impl<N: Naming> Place<N> {
    /// A place for this call.
    fn new(thread: u32, index: u32) -> Place<N> {
        Place {
            desk: Mutex::new(Desk::new(thread, index)),
            changed: Condvar::new(),
        }
    }

    /// Looks a few times, with a pause after each look.
    fn look(&self, thread: u32, index: u32) -> Option<Fetched>
        ensures { IfSome result (IsFetchedFor N.bank N.stopped thread index) }
    {
        for _ in 0..LOOKS {
            if let Some(mut desk) = self.desk.try_lock() {
                if let Some(fetched) = desk.fetch(thread, index) {
                    return Some(fetched);
                }
            }
            for _ in 0..PAUSE {
                spin_loop();
            }
        }
        None
    }

    /// Sleeps until there is a note, or the thread has stopped.
    fn wait<R: Wait>(&self, rt: &R, thread: u32, index: u32) -> Fetched
        ensures { IsFetchedFor N.bank N.stopped thread index result }
    {
        let mut desk = self.desk.lock(rt);
        for _ in rt.forever() {
            if let Some(fetched) = desk.fetch(thread, index) {
                return fetched;
            }
            desk = self.changed.wait(rt, desk);
        }
        unreachable!()
    }
}

/// The board of a script. To contracts it is the calls that are awaited, each with the number of its awaits.
#[derive(Drop)]
pub struct Board<N: Naming> {
    awaits: Awaits,
    places: Vec<Place<N>>,
}

impl<N: Naming> Model for Board<N> {
    ghost use Rattle.ft_board.specs.Awaits.{Notebook};

    ghost Value = { Notebook };

    ghost view = { λ b. b.awaits };
}

impl<N: Naming> Board<N> {
    /// A board with a place for each call that a call of the script awaits. While threads are at work it takes no more
    /// memory.
    pub fn new(alloc: Global, script: &Script) -> Result<Board<N>, MakeFault>
        ensures { IfOk result (λ board. (thread index : ℕ) → await_count board thread index ≡ awaits_of script.now thread index) }
    {
        let mut board = Board {
            awaits: Awaits::new(alloc),
            places: Vec::new(alloc),
        };
        for own in script.parts().threads.as_slice() {
            board.reserve_all(own.calls.as_slice())?;
        }
        Ok(board)
    }

    /// Counts the awaits among these calls, each with a place.
    fn reserve_all(&mut self, calls: &[Call]) -> Result<(), AllocError>
        requires few { (thread index : ℕ) → await_count self.old thread index + length calls.now < 2 ^ 32 }
        ensures { OnOk result ((thread index : ℕ) → await_count self.new thread index ≡
            await_count self.old thread index + count_awaits thread index calls.now) }
    {
        for call in calls {
            if let Call::Await { thread, index } = *call {
                self.reserve(thread, index)?;
            }
        }
        Ok(())
    }

    /// Counts one more await of a call. The first one comes with a place.
    fn reserve(&mut self, thread: u32, index: u32) -> Result<(), AllocError>
        requires few { await_count self.old thread index + 1 < 2 ^ 32 }
        ensures { OnOk result ((named at : ℕ) → await_count self.new named at ≡
            await_count self.old named at + (if is_same_call (thread, index) (named, at) then 1 else 0)) }
    {
        let one = match self.awaits.get(thread, index) {
            Some(found) => Awaited {
                place: found.place,
                awaits: found.awaits + 1,
            },
            None => {
                let place = self.places.len();
                self.places.push(Place::new(thread, index))?;
                Awaited { place, awaits: 1 }
            }
        };
        self.awaits.put(thread, index, one)
    }

    /// How many awaits there are of the thread's call of this index, which counts from 1: none of most.
    pub fn awaits(&self, thread: u32, index: u32) -> u32
        ensures { result ≡ await_count self.now thread index }
    {
        match self.awaits.get(thread, index) {
            Some(found) => found.awaits,
            None => 0,
        }
    }

    /// The place of a call, if it is awaited.
    fn place(&self, thread: u32, index: u32) -> Option<&Place<N>> {
        let found = self.awaits.get(thread, index)?;
        self.places.get(found.place)
    }

    /// Leaves a note for each await of a call, once the thread was answered it, and wakes those that wait for one. Where
    /// the call was published before, or its thread has stopped, nothing changes. It may wait for the lock of the place.
    pub fn publish<R: Wait>(&self, rt: &R, thread: u32, index: u32, notes: Vec<Note>)
        requires notes { All (IsNoteFor N.bank thread index) notes.items }
        requires count { length notes.items ≡ await_count self.now thread index }
    {
        let Some(place) = self.place(thread, index) else {
            return;
        };
        place.desk.lock(rt).publish(thread, index, notes);
        place.changed.notify_all();
    }

    /// Says that a thread makes no more calls, and wakes those that wait for one of its calls. It may wait for the locks
    /// of places.
    pub fn stop<R: Wait>(&self, rt: &R, thread: u32)
        requires { N.stopped thread }
    {
        for place in &self.places {
            place.desk.lock(rt).stop(thread);
            place.changed.notify_all();
        }
    }

    /// Waits until a call is published, and takes one of its notes; or until its thread has stopped, where the call wasn't
    /// published before that. A call that no call of the script awaits is never published, and there are no more notes of
    /// one than it has awaits: nothing says that this returns.
    pub fn fetch<R: Wait>(&self, rt: &R, thread: u32, index: u32) -> Fetched
        ensures { IsFetchedFor N.bank N.stopped thread index result }
    {
        for _ in rt.forever() {
            if let Some(place) = self.place(thread, index) {
                return match place.look(thread, index) {
                    Some(fetched) => fetched,
                    None => place.wait(rt, thread, index),
                };
            }
        }
        unreachable!()
    }
}
