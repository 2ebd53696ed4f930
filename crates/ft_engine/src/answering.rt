//! The answer of a call: the first half of a try.
ghost use Rattle.std.specs.Prelude.{◌≡◌, List, length, suc, IfSome, IfNone};
ghost use Rattle.ft_model.specs.declared.entry.Entry.{Entry as NamedEntry};
ghost use Rattle.ft_bank.specs.Passes.{shape_of, view};
ghost use Rattle.ft_bank.specs.PassSections.{stack_of};
ghost use Rattle.ft_engine.specs.Answering.{AreHandsOfPass, HasLooked, IsTryOfCall, LeavesHands, MayTryCall};
ghost use Rattle.ft_engine.specs.Attempts.{MayAttempt, flight_after, entries_with_answer, IsMarkOf, FoundIn, HasLookedFirst, ComesAgain, StaysCaller};
ghost use Rattle.ft_engine.specs.Callers.{IsCallerOf, thread_of};
ghost use Rattle.ft_engine.specs.Flights.{IsFlightAnswered, AllowsCall};
ghost use Rattle.ft_engine.specs.Halves.{HasNoAnswer, WaitsUnanswered};
ghost use Rattle.ft_engine.specs.declared.caller.Flight.TheVariants as flight;
ghost use Rattle.ft_model.specs.declared.reply.Reply.{Reply};
ghost use Rattle.ft_section.specs.declared.answers.Stamp.{Stamp};
ghost use Rattle.ft_section.specs.declared.answers.Step.TheVariants as step;
ghost use Rattle.ft_engine.specs.Keeping.{WasAnswered};

use crate::attempts::Tried;
use crate::caller::{Caller, Flight};
use crate::container_call::call_container;
use crate::cursor_call::{iter, next};
use crate::engine::Engine;
use crate::section_call::{begin, end, quiesce};
use ft_bank::{Bank, Pass};
use ft_model::{Call, Cursor, DictCall, Kind, ListCall, SetCall};
use ft_section::Step;
use std::alloc::Global;

/// One try of a call that has no answer yet, by kinds of calls.
#[inline(always)]
fn make(
    bank: &Bank,
    pass: &mut Pass,
    alloc: Global,
    cursors: &mut Vec<Option<Cursor>>,
    call: &Call,
) -> Step
    requires may { MayTryCall bank.now pass.old cursors.old.items call.now }
    requires hands { AreHandsOfPass (shape_of bank.now) (view pass.old) cursors.old.items }
    ensures tried { IsTryOfCall bank.now cursors.old.items call.now pass.old pass.new result }
    ensures looked { HasLooked call.now (view pass.old) (view pass.new) result }
    ensures hands { AreHandsOfPass (shape_of bank.now) (view pass.new) cursors.new.items }
    ensures stays { LeavesHands result cursors.old.items cursors.new.items }
{
    match call {
        Call::Dict {
            container,
            call: DictCall::Iter { cursor },
        } => iter(bank, pass, cursors, *container, Kind::Dict, *cursor),
        Call::List {
            container,
            call: ListCall::Iter { cursor },
        } => iter(bank, pass, cursors, *container, Kind::List, *cursor),
        Call::Set {
            container,
            call: SetCall::Iter { cursor },
        } => iter(bank, pass, cursors, *container, Kind::Set, *cursor),
        Call::Dict {
            call: DictCall::Reversed { .. },
            ..
        }
        | Call::List {
            call: ListCall::Reversed { .. },
            ..
        } => unreachable!(),
        Call::Dict { .. } | Call::List { .. } | Call::Set { .. } => {
            call_container(bank, pass, alloc, call)
        }
        Call::Next { cursor } => next(bank, pass, cursors, *cursor),
        Call::Begin { first, second } => begin(bank, pass, *first, *second),
        Call::End => end(bank, pass),
        Call::Quiesce => quiesce(bank, pass),
        Call::Deque { .. } | Call::Await { .. } | Call::Dump => unreachable!(),
    }
}

impl Engine {
    /// Makes the answer of a call. Where it is made, it answers none, and the innermost section has still to be
    /// taken up again; else what the try answers.
    #[inline(always)]
    pub(crate) fn answer(&self, alloc: Global, caller: &mut Caller, call: &Call) -> Option<Tried>
        requires caller { IsCallerOf self.now caller.old }
        requires may { MayAttempt self.now caller.old call.now }
        requires unanswered { IsFlightAnswered caller.old.flight → ⊥ }
        ensures caller { IsCallerOf self.now caller.new }
        ensures same { StaysCaller caller.old caller.new }
        ensures answered { IfNone result (IsFlightAnswered caller.new.flight × AllowsCall caller.new.flight call.now) }
        ensures counted { IfNone result (length (view caller.new.pass).entries ≡ suc (length (view caller.old.pass).entries)) }
        ensures kept { IfNone result ((mine : List NamedEntry) → WasAnswered caller.old mine → WasAnswered caller.new mine) }
        ensures marked { IfNone result ((stack_of caller.new.pass).mark ≡ (stack_of caller.old.pass).mark) }
        ensures flight { IfSome result (λ tried. flight_after call.now tried caller.new.flight) }
        ensures ended { IfSome result (λ tried. (mine : List NamedEntry) → WasAnswered caller.old mine →
            WasAnswered caller.new (entries_with_answer (thread_of caller.old) call.now tried mine)) }
        ensures again { IfSome result (λ tried. ComesAgain tried → MayAttempt self.now caller.new call.now) }
        ensures mark { IfSome result (λ tried. IsMarkOf tried (stack_of caller.old.pass).mark (stack_of caller.new.pass).mark) }
        ensures found { IfSome result (λ tried. FoundIn tried (view caller.old.pass) (view caller.new.pass)) }
        ensures tries { IfSome result (λ tried. HasNoAnswer self.now.bank caller.old.cursors.items call.now caller.old.pass caller.new.pass tried) }
        ensures waits { IfSome result (λ tried. WaitsUnanswered call.now tried caller.new.flight) }
        ensures made { IfNone result ((said : Reply) × (stamp : Stamp) × (caller.new.flight ≡ flight.Answered call.now said stamp)
            × IsTryOfCall self.now.bank caller.old.cursors.items call.now caller.old.pass caller.new.pass (step.Done said stamp)) }
        ensures looked { IfSome result (λ tried. HasLookedFirst call.now tried caller.old caller.new) }
    {
        match make(
            &self.bank,
            &mut caller.pass,
            alloc,
            &mut caller.cursors,
            call,
        ) {
            Step::Done(reply, stamp) => {
                caller.made += 1;
                caller.flight = Flight::Answered(*call, reply, stamp);
                None
            }
            Step::NotYet(object, owner) => {
                caller.flight = Flight::Tried(*call);
                Some(Tried::NotYet(object, owner))
            }
            Step::Moved(first, second) => {
                caller.flight = Flight::Tried(*call);
                Some(Tried::Moved(first, second))
            }
            Step::NoMemory => {
                caller.flight = Flight::Refused(*call);
                Some(Tried::NoMemory)
            }
        }
    }
}
