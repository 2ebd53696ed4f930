//! Calls on containers, made at once where no call is in flight and no section is open: nothing of them goes through
//! the caller's flight.
ghost use Rattle.std.specs.Prelude.{◌≡◌, ◌<◌, IsTrue, List, [], Option, Some};
ghost use Rattle.ft_model.specs.declared.cursor.Cursor.{Cursor};
ghost use Rattle.ft_trace.specs.Acts.{announces};
ghost use Rattle.ft_bank.specs.PassSections.{stack_of};
ghost use Rattle.ft_bank.specs.Passes.{shape_of, view};
ghost use Rattle.ft_section.specs.declared.answers.Objects.{Objects};
ghost use Rattle.ft_section.specs.Ready.{MayTry};
ghost use Rattle.ft_engine.specs.declared.caller.Caller.{Caller as ACaller};
ghost use Rattle.ft_engine.specs.declared.caller.Flight.TheVariants as flight;
ghost use Rattle.ft_engine.specs.Answering.{HasLooked, IsTryOfCall};
ghost use Rattle.ft_engine.specs.Asked.{IsCallIn};
ghost use Rattle.ft_engine.specs.AtOnce.{CameAtOnce, IsPlainCall};
ghost use Rattle.ft_engine.specs.Attempts.{MayAttempt};
ghost use Rattle.ft_engine.specs.Callers.{IsCallerOf, IsIdle};
ghost use Rattle.ft_engine.specs.MadeCalls.{IsCallFor};
ghost use Rattle.ft_engine.specs.Flights.{objects_of};

use crate::caller::{Caller, Flight};
use crate::calling::Called;
use crate::container_call::{call_container, try_locked};
use crate::engine::Engine;
use crate::looks::is_looking;
use ft_bank::{Bank, Pass};
use ft_model::Call;
use ft_section::Step;
use std::alloc::Global;
use std::sync::Wait;

/// Whether it is such a call, and moves no cursor.
#[inline(always)]
fn is_plain(call: &Call) -> bool
    ensures { IsTrue result → IsPlainCall call.now }
{
    match call {
        Call::Dict { call, .. } => call.cursor().is_none(),
        Call::List { call, .. } => call.cursor().is_none(),
        Call::Set { call, .. } => call.cursor().is_none(),
        Call::Next { .. } | Call::Begin { .. } | Call::End | Call::Quiesce => false,
        Call::Deque { .. } | Call::Await { .. } | Call::Dump => false,
    }
}

/// One try of such a call. One that takes its locks from the start asks nothing of a look first.
#[inline(always)]
pub(crate) fn try_at_once(bank: &Bank, pass: &mut Pass, alloc: Global, call: &Call) -> Step
    requires may { (objects : Objects) → objects_of [] call.now ≡ Some objects → MayTry bank.now pass.old objects }
    requires plain { IsPlainCall call.now }
    requires names { (hands : List (Option Cursor)) × IsCallIn (shape_of bank.now) hands call.now }
    requires online { 0 < announces (view pass.old).log }
    requires left { 0 < (view pass.old).left }
    ensures tried { (hands : List (Option Cursor)) → IsTryOfCall bank.now hands call.now pass.old pass.new result }
    ensures looked { HasLooked call.now (view pass.old) (view pass.new) result }
{
    if is_looking(call) {
        call_container(bank, pass, alloc, call)
    } else {
        try_locked(bank, pass, alloc, call)
    }
}

impl Caller {
    /// Whether no call is in flight and no section is open.
    #[inline(always)]
    pub(crate) fn is_free(&self) -> bool
        ensures { IsTrue result → IsIdle self.now × ((stack_of self.now.pass).sections ≡ []) }
    {
        self.is_idle() && self.depth() == 0
    }

    /// Whether no call is in flight, no section is open, and this call is such a one.
    #[inline(always)]
    pub(crate) fn may_at_once(&self, call: &Call) -> bool
        ensures { IsTrue result → IsIdle self.now × ((stack_of self.now.pass).sections ≡ []) × IsPlainCall call.now }
    {
        self.is_free() && is_plain(call)
    }

    /// The call has no answer yet, and comes next.
    #[inline(never)]
    fn keep(&mut self, call: &Call)
        ensures { self.new ≡ record self.old { flight = flight.Tried call.now } }
    {
        self.flight = Flight::Tried(*call);
    }

    /// There was no memory for the call.
    #[inline(never)]
    fn refuse(&mut self, call: &Call)
        ensures { self.new ≡ record self.old { flight = flight.Refused call.now } }
    {
        self.flight = Flight::Refused(*call);
    }
}

impl Engine {
    /// Goes on with such a call after its first try: that has ended it, or it is tried until it is done.
    #[inline(never)]
    fn go_on<R: Wait>(
        &self,
        rt: &R,
        alloc: Global,
        caller: &mut Caller,
        call: &Call,
        step: Step,
    ) -> Called
        requires came { (first : ACaller) × CameAtOnce self.now call.now first caller.old step }
        ensures { (first : ACaller) → CameAtOnce self.now call.now first caller.old step →
            IsCallFor self.now call.now result first caller.new }
    {
        match step {
            Step::Done(said, stamp) => {
                caller.made += 1;
                Called::Done(said, stamp, None)
            }
            Step::NotYet(object, _) => {
                caller.keep(call);
                self.call_on(rt, alloc, caller, call, Some(object))
            }
            Step::Moved(_, _) => {
                caller.keep(call);
                self.call_on(rt, alloc, caller, call, None)
            }
            Step::NoMemory => {
                caller.refuse(call);
                Called::NoMemory
            }
        }
    }

    /// The same, with the case that comes nearly always apart. The rest gets a copy of the call, so that the call need
    /// not lie in memory before.
    #[inline(always)]
    pub(crate) fn end_at_once<R: Wait>(
        &self,
        rt: &R,
        alloc: Global,
        caller: &mut Caller,
        call: &Call,
        step: Step,
    ) -> Called
        requires came { (first : ACaller) × CameAtOnce self.now call.now first caller.old step }
        ensures { (first : ACaller) → CameAtOnce self.now call.now first caller.old step →
            IsCallFor self.now call.now result first caller.new }
    {
        match step {
            Step::Done(reply, stamp) => {
                caller.made += 1;
                Called::Done(reply, stamp, None)
            }
            rest => {
                let again = *call;
                self.go_on(rt, alloc, caller, &again, rest)
            }
        }
    }

    /// A call with whatever is in flight or open, tried until it is done.
    #[inline(always)]
    pub(crate) fn call_in_turn<R: Wait>(
        &self,
        rt: &R,
        alloc: Global,
        caller: &mut Caller,
        call: &Call,
    ) -> Called
        requires caller { IsCallerOf self.now caller.old }
        requires may { MayAttempt self.now caller.old call.now }
        ensures { IsCallFor self.now call.now result caller.old caller.new }
    {
        let again = *call;
        self.call_on(rt, alloc, caller, &again, None)
    }
}
