//! A caller gives up what it is in.
ghost use Rattle.std.specs.Prelude.{◌≡◌, ℕ, false, [], List};
ghost use Rattle.ft_model.specs.declared.entry.Entry.{Entry as NamedEntry};
ghost use Rattle.ft_trace.specs.Acts.{has_lock};
ghost use Rattle.ft_bank.specs.Passes.{view};
ghost use Rattle.ft_bank.specs.PassSections.{stack_of};
ghost use Rattle.ft_engine.specs.Answering.{MakesNoEntry};
ghost use Rattle.ft_engine.specs.Callers.{IsCallerOf, IsIdle, flight_of, hands_of, pass_of};
ghost use Rattle.ft_engine.specs.Flights.{IsFlightAnswered};
ghost use Rattle.ft_bank_history.specs.Marks.{IsNamedIn};
ghost use Rattle.ft_engine.specs.Keeping.{WasAnswered};
ghost use Rattle.ft_engine.specs.Owning.{FlightNames};

use crate::caller::{Caller, Flight};
use crate::engine::Engine;
use ft_section::drop_all;

impl Engine {
    /// Ends every open section of a caller without an entry, lets go of every lock, and forgets the call that is in
    /// flight: after `NoMemory`, or wherever a caller is to make no more of its calls. It may make other calls then, go
    /// offline and be taken in. What it was answered stays as it is. The entries of a caller that gave up are those of
    /// a history only if it had no section open, no answer that it wasn't given, and no other containers in the call in
    /// flight than those that entries of it name: other callers may have found it with their locks. Only then can its
    /// list be closed with those of others: a mark may name it for the lock of a call that has no entry.
    pub fn abandon(&self, caller: &mut Caller)
        requires { IsCallerOf self.now caller.old }
        ensures caller { IsCallerOf self.now caller.new }
        ensures idle { IsIdle caller.new }
        ensures sections { (stack_of (pass_of caller.new)).sections ≡ [] }
        ensures free { (o : ℕ) → has_lock o (view (pass_of caller.new)).log ≡ false }
        ensures same { MakesNoEntry (view (pass_of caller.old)) (view (pass_of caller.new)) }
        ensures cursors { hands_of caller.new ≡ hands_of caller.old }
        ensures kept { (mine : List NamedEntry) → (IsFlightAnswered (flight_of caller.old) → ⊥) →
            (stack_of (pass_of caller.old)).sections ≡ [] → ((o : ℕ) → FlightNames o (flight_of caller.old) → IsNamedIn o mine) →
            WasAnswered caller.old mine → WasAnswered caller.new mine }
    {
        drop_all(&self.bank, &mut caller.pass);
        caller.flight = Flight::Idle;
    }
}
