//! A call that is tried until it is done.
ghost use Rattle.std.specs.Prelude.{List, IfOk, OnErr};
ghost use Rattle.ft_model.specs.declared.entry.Entry.{Entry as NamedEntry};
ghost use Rattle.ft_bank.specs.Passes.{view};
ghost use Rattle.ft_bank_history.specs.SoFar.{MemoryErrorsAreFound};
ghost use Rattle.ft_engine.specs.Attempts.{ComesAgain, MayAttempt, StaysCaller, flight_after, entries_with_answer};
ghost use Rattle.ft_engine.specs.Callers.{IsCallerOf, flight_of, pass_of, thread_of};
ghost use Rattle.ft_engine.specs.Calling.{IsBetween, IsCalled, IsTried, last_of};
ghost use Rattle.ft_engine.specs.Keeping.{WasAnswered};
ghost use Rattle.ft_engine.specs.MadeCalls.{IsCallFor};
ghost use Rattle.ft_engine.specs.SoFar.{IsAnsweredRight};
ghost use Rattle.ft_engine.specs.OwnAnswers.{HasOwnAnswer};

use crate::at_once::try_at_once;
use crate::attempts::Tried;
use crate::caller::Caller;
use crate::engine::Engine;
use crate::pauses::Pauses;
use crate::quick::Quick;
use ft_model::{Call, Reply};
use ft_section::{Object, Owner, Stamp, Step};
use std::alloc::Global;
use std::sync::Wait;

/// What a call that was tried until it was done answers.
#[derive(Debug, PartialEq, Eq, Drop)]
pub enum Called {
    /// The call has ended: its reply, its stamp, and its mark, the thread that it waited for first.
    Done(Reply, Stamp, Option<Owner>),
    /// Out of memory.
    NoMemory,
}

impl Engine {
    /// One try of a call. Where the same call comes next, it answers the container whose lock another thread had, if
    /// that is why.
    #[inline(always)]
    fn try_once(
        &self,
        alloc: Global,
        caller: &mut Caller,
        call: &Call,
    ) -> Result<Called, Option<Object>>
        requires caller { IsCallerOf self.now caller.old }
        requires may { MayAttempt self.now caller.old call.now }
        ensures again { OnErr result ((t : Tried) × ComesAgain t × IsTried self.now call.now t caller.old caller.new) }
        ensures done { IfOk result (λ answer. IsTried self.now call.now (last_of answer) caller.old caller.new) }
    {
        match self.attempt(alloc, caller, call) {
            Tried::Done(reply, stamp, mark) => Ok(Called::Done(reply, stamp, mark)),
            Tried::NotYet(object, _) => Err(Some(object)),
            Tried::Moved(_, _) => Err(None),
            Tried::NoMemory => Ok(Called::NoMemory),
        }
    }

    /// Tries a call until it is done, with a pause between two tries: before each try the call isn't done yet, as
    /// seen from whatever caller that was so before the first one. Where the lock of a container was found with another
    /// thread, it is waited for first.
    #[inline(never)]
    pub(crate) fn call_on<R: Wait>(
        &self,
        rt: &R,
        alloc: Global,
        caller: &mut Caller,
        call: &Call,
        found: Option<Object>,
    ) -> Called
        requires caller { IsCallerOf self.now caller.old }
        requires may { MayAttempt self.now caller.old call.now }
        ensures { (first : Caller) → IsBetween self.now call.now first caller.old →
            (last : Caller) × IsBetween self.now call.now first last × IsTried self.now call.now (last_of result) last caller.new }
    {
        let mut pauses = Pauses::new();
        if found.is_some() {
            pauses.wait(self, found);
        }
        for _ in rt.forever() {
            match self.try_once(alloc, caller, call) {
                Ok(called) => return called,
                Err(found) => pauses.wait(self, found),
            }
        }
        unreachable!()
    }

    /// A call that is none of the writes that are made most, tried until it is done.
    #[inline(never)]
    fn make_any<R: Wait>(&self, rt: &R, alloc: Global, caller: &mut Caller, call: &Call) -> Called
        requires caller { IsCallerOf self.now caller.old }
        requires may { MayAttempt self.now caller.old call.now }
        ensures { IsCallFor self.now call.now result caller.old caller.new }
    {
        if !caller.may_at_once(call) {
            return self.call_in_turn(rt, alloc, caller, call);
        }
        let step = try_at_once(&self.bank, &mut caller.pass, alloc, call);
        self.end_at_once(rt, alloc, caller, call, step)
    }

    /// What `call` does, with all that it promises in one. It holds no code of a call, so that it may be inlined
    /// wherever `call` is written.
    #[inline(always)]
    fn make<R: Wait>(&self, rt: &R, alloc: Global, caller: &mut Caller, call: &Call) -> Called
        requires caller { IsCallerOf self.now caller.old }
        requires may { MayAttempt self.now caller.old call.now }
        ensures { IsCallFor self.now call.now result caller.old caller.new }
    {
        if !caller.is_free() {
            return self.call_in_turn(rt, alloc, caller, call);
        }
        let mut rest = Step::NoMemory;
        match self.quick(caller, call, &mut rest) {
            Quick::Wrote(number) => Called::Done(
                Reply::Done,
                Stamp {
                    number,
                    wrote: true,
                },
                None,
            ),
            Quick::Came => self.end_at_once(rt, alloc, caller, call, rest),
            Quick::Other => self.make_any(rt, alloc, caller, call),
        }
    }

    /// Tries a call until it is done, with a pause between two tries: the answer is that of the last try, and the mark
    /// is the first thread that a try found with a lock. After `Done` the caller has the locks of its innermost
    /// section, and no others but those that its open sections took. It may wait for other threads: nothing says that
    /// it returns.
    ///
    /// # Errors
    ///
    /// `NoMemory` where memory for a copy ran out: the caller is to give up.
    #[inline(always)]
    pub fn call<R: Wait>(&self, rt: &R, alloc: Global, caller: &mut Caller, call: &Call) -> Called
        requires caller { IsCallerOf self.now caller.old }
        requires may { MayAttempt self.now caller.old call.now }
        ensures caller { IsCallerOf self.now caller.new }
        ensures same { StaysCaller caller.old caller.new }
        ensures flight { flight_after call.now (last_of result) (flight_of caller.new) }
        ensures kept { (mine : List NamedEntry) → WasAnswered caller.old mine →
            WasAnswered caller.new (entries_with_answer (thread_of caller.old) call.now (last_of result) mine) }
        ensures called { IsCalled self.now call.now result caller.old caller.new }
        ensures own { HasOwnAnswer call.now (last_of result) caller.old caller.new }
        ensures right { (mine : List NamedEntry) → WasAnswered caller.old mine →
            IsAnsweredRight caller.new (entries_with_answer (thread_of caller.old) call.now (last_of result) mine) }
        ensures found_none { MemoryErrorsAreFound (view (pass_of caller.new)) }
    {
        self.make(rt, alloc, caller, call)
    }
}
