//! A caller: a pass with its cursors, and with the call that is in flight.
ghost use Rattle.std.specs.Prelude.{◌≡◌, ◌-◌, ◌<◌, ◌↔◌, IsTrue, length, is_some, true};
ghost use Rattle.ft_model.specs.Worlds.{cursor_at};
ghost use Rattle.ft_bank.specs.PassSections.{stack_of};
ghost use Rattle.ft_engine.specs.Callers.{hands_of, left_of, pass_of, thread_of};
ghost use Rattle.ft_engine.specs.Flights.{IsFlightAnswered, AllowsCall};
ghost use Rattle.ft_engine.specs.Asked.{FitsSections, HasRoomFor};

use ft_bank::Pass;
use ft_model::{Call, Cursor, Reply};
use ft_section::Stamp;

/// The call that a caller is in.
#[derive(Debug, PartialEq, Eq, Drop)]
pub enum Flight {
    /// It is in none.
    Idle,
    /// The call was tried and has no answer yet. It comes next.
    Tried(Call),
    /// The call has its answer, but the innermost section isn't taken up again yet. The call comes next.
    Answered(Call, Reply, Stamp),
    /// There was no memory for the call: the caller is to give up.
    Refused(Call),
}

/// What one thread makes its calls with.
#[derive(Drop)]
pub struct Caller {
    pub(crate) pass: Pass,
    pub(crate) cursors: Vec<Option<Cursor>>,
    pub(crate) calls: u32,
    pub(crate) made: u32,
    pub(crate) flight: Flight,
}

/// Whether two calls are the same.
fn is_same(one: &Call, other: &Call) -> bool
    ensures { IsTrue result ↔ (one.now ≡ other.now) }
{
    one == other
}

impl Caller {
    /// The thread of the caller, from 0 on: the number of its pass.
    pub fn thread(&self) -> u32
        ensures { result ≡ thread_of self.now }
    {
        self.pass.number()
    }

    /// How many calls it may still make.
    pub fn left(&self) -> u32
        ensures { result ≡ left_of self.now }
    {
        self.calls.saturating_sub(self.made)
    }

    /// How many sections it has open, at most 16 (C API, critical sections).
    pub fn depth(&self) -> u32
        ensures { result ≡ length (stack_of (pass_of self.now)).sections }
    {
        ft_section::depth(&self.pass)
    }

    /// Whether the call in flight has its answer.
    pub(crate) fn is_answered(&self) -> bool
        ensures { IsTrue result ↔ IsFlightAnswered self.now.flight }
    {
        matches!(self.flight, Flight::Answered(_, _, _))
    }

    /// Whether it has made a cursor under this number.
    pub fn has_cursor(&self, cursor: u32) -> bool
        ensures { IsTrue result ↔ ((cursor < length (hands_of self.now)) × (is_some (cursor_at (hands_of self.now) cursor) ≡ true)) }
    {
        match self.cursors.get(cursor as usize) {
            Some(slot) => slot.is_some(),
            None => false,
        }
    }

    /// Whether there is room for the cursor that a call makes, if it makes one.
    pub(crate) fn has_room(&self, cursor: Option<u32>) -> bool
        ensures { IsTrue result ↔ HasRoomFor self.now.cursors.items cursor }
    {
        match cursor {
            Some(number) => (number as usize) < self.cursors.len(),
            None => true,
        }
    }

    /// Whether no call is in flight, or this one, which wasn't refused.
    pub(crate) fn comes_next(&self, call: &Call) -> bool
        ensures { IsTrue result ↔ AllowsCall self.now.flight call.now }
    {
        match &self.flight {
            Flight::Idle => true,
            Flight::Tried(tried) => is_same(tried, call),
            Flight::Answered(answered, _, _) => is_same(answered, call),
            Flight::Refused(_) => false,
        }
    }

    /// Whether its open sections allow the call.
    pub(crate) fn fits(&self, call: &Call) -> bool
        ensures { IsTrue result ↔ FitsSections (stack_of self.now.pass) call.now }
    {
        match *call {
            Call::Begin { .. } => self.depth() < 16,
            Call::End => self.depth() > 0,
            _ => true,
        }
    }
}
