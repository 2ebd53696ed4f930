//! One try of a call: its answer is made, and then the innermost section is taken up again.
ghost use Rattle.std.specs.Prelude.{◌≡◌, ◌<◌, List};
ghost use Rattle.ft_model.specs.declared.entry.Entry.{Entry as NamedEntry};
ghost use Rattle.ft_bank.specs.Passes.{view};
ghost use Rattle.ft_bank.specs.PassSections.{stack_of};
ghost use Rattle.ft_bank_history.specs.SoFar.{MemoryErrorsAreFound};
ghost use Rattle.ft_engine.specs.Attempts.{MayAttempt, flight_after, entries_with_answer, IsMarkOf, FoundIn, HasFoundOwner, HasLookedFirst, ComesAgain, StaysCaller};
ghost use Rattle.ft_engine.specs.Callers.{IsCallerOf, pass_of, flight_of, thread_of};
ghost use Rattle.ft_engine.specs.Flights.{IsFlightAnswered, AllowsCall};
ghost use Rattle.ft_engine.specs.Halves.{HasHalves, IsTakenUp, WaitsAnswered};
ghost use Rattle.ft_engine.specs.Keeping.{WasAnswered};
ghost use Rattle.ft_engine.specs.SoFar.{IsAnsweredRight};
ghost use Rattle.ft_engine.specs.OwnAnswers.{HasOwnAnswer};
ghost use Rattle.ft_engine.specs.declared.caller.Flight.TheVariants as flight;

use crate::caller::{Caller, Flight};
use crate::engine::Engine;
use ft_model::{Call, Reply};
use ft_section::{Object, Owner, Resumed, Stamp, resume};
use std::alloc::Global;

/// What one try of a call answers.
#[derive(Debug, PartialEq, Eq, Drop)]
pub enum Tried {
    /// The call has ended: its reply, its stamp, and its mark, the thread that it waited for first.
    Done(Reply, Stamp, Option<Owner>),
    /// A step of the try found another thread with the lock of a container that the call needs, or that its
    /// innermost section does. The same call comes next.
    NotYet(Object, Owner),
    /// Two steps of the try found a word changed from the first number to the second. The same call comes next.
    Moved(u64, u64),
    /// Out of memory.
    NoMemory,
}

impl Engine {
    /// Takes up the innermost section again, of a call that has its answer.
    #[inline(always)]
    pub(crate) fn take_up(&self, caller: &mut Caller) -> Tried
        requires caller { IsCallerOf self.now caller.old }
        requires answered { IsFlightAnswered caller.old.flight }
        ensures caller { IsCallerOf self.now caller.new }
        ensures same { StaysCaller caller.old caller.new }
        ensures flight { (called : Call) → AllowsCall caller.old.flight called → flight_after called result caller.new.flight }
        ensures kept { (called : Call) (mine : List NamedEntry) → AllowsCall caller.old.flight called → WasAnswered caller.old mine →
            WasAnswered caller.new (entries_with_answer (thread_of caller.old) called result mine) }
        ensures mark { IsMarkOf result (stack_of caller.old.pass).mark (stack_of caller.new.pass).mark }
        ensures found { FoundIn result (view caller.old.pass) (view caller.new.pass) }
        ensures answered { ComesAgain result → IsFlightAnswered caller.new.flight }
        ensures taken { (called : Call) (said : Reply) (stamp : Stamp) → caller.old.flight ≡ flight.Answered called said stamp →
            IsTakenUp said stamp caller.old.pass caller.new.pass result × WaitsAnswered called said stamp result caller.new.flight }
    {
        match resume(&self.bank, &mut caller.pass) {
            Resumed::Back(mark) => {
                let flight = std::mem::replace(&mut caller.flight, Flight::Idle);
                let Flight::Answered(_, reply, stamp) = flight else {
                    unreachable!();
                };
                Tried::Done(reply, stamp, mark)
            }
            Resumed::NotYet(object, owner) => Tried::NotYet(object, owner),
        }
    }

    /// One try of a call. Where it has no answer yet, it is looked first if it may be made without locks, and else
    /// made under its locks. Then the locks of the innermost section are taken again. After `Done` the caller has
    /// the locks of its innermost section, and no others but those that its open sections took.
    ///
    /// # Errors
    ///
    /// `NotYet` where a step of the try found another thread with a lock, and for a call that is looked first only
    /// where its look was contended: all open sections have let their locks go, and at most the lower one of two is
    /// kept. `Moved` where two steps of it found a word of the free tables of a class changed. The same call comes
    /// next. `NoMemory` where memory for a copy ran out: the caller is to give up.
    #[inline(always)]
    pub fn attempt(&self, alloc: Global, caller: &mut Caller, call: &Call) -> Tried
        requires caller { IsCallerOf self.now caller.old }
        requires may { MayAttempt self.now caller.old call.now }
        ensures caller { IsCallerOf self.now caller.new }
        ensures same { StaysCaller caller.old caller.new }
        ensures flight { flight_after call.now result (flight_of caller.new) }
        ensures kept { (mine : List NamedEntry) → WasAnswered caller.old mine →
            WasAnswered caller.new (entries_with_answer (thread_of caller.old) call.now result mine) }
        ensures mark { IsMarkOf result (stack_of (pass_of caller.old)).mark (stack_of (pass_of caller.new)).mark }
        ensures found { HasFoundOwner result caller.old caller.new }
        ensures looked { HasLookedFirst call.now result caller.old caller.new }
        ensures halves { HasHalves self.now call.now caller.old caller.new result }
        ensures own { HasOwnAnswer call.now result caller.old caller.new }
        ensures right { (IsFlightAnswered (flight_of caller.new) → ⊥) → (mine : List NamedEntry) → WasAnswered caller.old mine →
            IsAnsweredRight caller.new (entries_with_answer (thread_of caller.old) call.now result mine) }
        ensures found_none { MemoryErrorsAreFound (view (pass_of caller.new)) }
        ensures again { ComesAgain result → MayAttempt self.now caller.new call.now }
    {
        if caller.is_answered() {
            return self.take_up(caller);
        }
        match self.answer(alloc, caller, call) {
            None => self.take_up(caller),
            Some(tried) => tried,
        }
    }
}
