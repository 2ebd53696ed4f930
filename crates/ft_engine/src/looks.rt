//! Looks: calls that read, and are made without a lock.
ghost use Rattle.std.specs.Prelude.{◌≡◌, ◌≢◌, ◌<◌, ◌↔◌, IsTrue, List, Option, is_some, true, false};
ghost use Rattle.ft_model.specs.declared.call.Call.{Call as AskedCall};
ghost use Rattle.ft_model.specs.declared.cursor.Cursor.{Cursor};
ghost use Rattle.ft_model.specs.declared.entry.Entry.{Entry as NamedEntry};
ghost use Rattle.ft_trace.specs.Acts.{announces};
ghost use Rattle.ft_trace.specs.Boxes.{IsSettled};
ghost use Rattle.ft_bank.specs.Passes.{shape_of, view, IsPassOf};
ghost use Rattle.ft_bank.specs.PassSections.{stack_of};
ghost use Rattle.ft_bank.specs.SameBoxes.{HoldsFew};
ghost use Rattle.ft_section.specs.declared.answers.Look.TheVariants as answers;
ghost use Rattle.ft_engine.specs.Answering.{IsLooked, IsUncontended, IsLookedIfAny};
ghost use Rattle.ft_engine.specs.Attempts.{MayAttempt, StaysCaller, after_look, flight_looked, entries_with_look};
ghost use Rattle.ft_engine.specs.Callers.{IsCallerOf, IsIdle, flight_of, pass_of, thread_of};
ghost use Rattle.ft_engine.specs.Contentions.{may_look};
ghost use Rattle.ft_engine.specs.Keeping.{WasAnswered};
ghost use Rattle.ft_engine.specs.Asked.{IsCallIn};
ghost use Rattle.ft_engine.specs.Resting.{HasFloor};
ghost use Rattle.ft_engine.specs.SoFar.{IsAnsweredRight};

use crate::caller::{Caller, Flight};
use crate::dict_call::look_dict;
use crate::engine::Engine;
use crate::list_call::look_list;
use crate::set_call::look_set;
use ft_bank::{Bank, Pass};
use ft_model::Call;
use ft_section::Look;
use std::alloc::Global;

/// Whether the call may be made by a look.
#[inline(always)]
pub(crate) fn is_looking(call: &Call) -> bool
    ensures { result ≡ may_look call.now }
{
    match call {
        Call::Dict { call, .. } => !call.is_locked(),
        Call::List { call, .. } => !call.is_locked(),
        Call::Set { call, .. } => !call.is_locked(),
        Call::Next { .. } => false,
        Call::Begin { .. } => false,
        Call::End => false,
        Call::Quiesce => false,
        Call::Deque { call, .. } => !call.is_locked(),
        Call::Await { .. } => false,
        Call::Dump => false,
    }
}

/// A look by the call's kind, where the call may be made so.
#[inline(always)]
pub(crate) fn look_call(bank: &Bank, pass: &mut Pass, alloc: Global, call: &Call) -> Option<Look>
    requires pass { IsPassOf bank.now pass.old }
    requires names { (hands : List (Option Cursor)) × IsCallIn (shape_of bank.now) hands call.now }
    requires online { 0 < announces (view pass.old).log }
    requires left { 0 < (view pass.old).left }
    requires settled { IsSettled (view pass.old).log }
    requires few { HoldsFew (view pass.old) }
    ensures pass { IsPassOf bank.now pass.new }
    ensures sections { stack_of pass.new ≡ stack_of pass.old }
    ensures looked { IsLookedIfAny call.now pass.old pass.new result }
    ensures made { may_look call.now ≡ is_some result }
{
    match call {
        Call::Dict { container, call } => look_dict(bank, pass, alloc, *container, call),
        Call::List { container, call } => look_list(bank, pass, alloc, *container, call),
        Call::Set { container, call } => look_set(bank, pass, alloc, *container, call),
        Call::Next { .. } => None,
        Call::Begin { .. } => None,
        Call::End => None,
        Call::Quiesce => None,
        Call::Deque { .. } | Call::Await { .. } | Call::Dump => unreachable!(),
    }
}

impl Caller {
    /// Whether no call is in flight: only then may it look, leave, meet others and be taken in.
    pub fn is_idle(&self) -> bool
        ensures { IsTrue result ↔ IsIdle self.now }
    {
        match &self.flight {
            Flight::Idle => true,
            Flight::Tried(_) => false,
            Flight::Answered(_, _, _) => false,
            Flight::Refused(_) => false,
        }
    }

    /// Counts the call that a look answered, or keeps the one that it had no memory for.
    #[inline(always)]
    fn take_look(&mut self, call: &Call, look: &Look)
        requires { self.old.made < self.old.calls }
        ensures { self.new ≡ after_look call.now look.now self.old }
    {
        match *look {
            Look::Done(_, _) => self.made += 1,
            Look::Contended(_, _) => {}
            Look::NoMemory => self.flight = Flight::Refused(*call),
        }
    }

    /// Counts the call that a look answered, of a call that asks for no memory.
    #[inline(always)]
    pub(crate) fn count_look(&mut self, look: &Look)
        requires left { self.old.made < self.old.calls }
        requires memory { look.now ≢ answers.NoMemory }
        ensures { (called : AskedCall) → self.new ≡ after_look called look.now self.old }
    {
        match *look {
            Look::Done(_, _) => self.made += 1,
            Look::Contended(_, _) => {}
            Look::NoMemory => unreachable!(),
        }
    }
}

impl Engine {
    /// Whether a caller that is online may make the call by a look: no call is in flight, the call may be tried, and
    /// is one of those that are made without a lock.
    #[inline(always)]
    pub fn may_look(&self, caller: &Caller, call: &Call) -> bool
        requires online { 0 < announces (view (pass_of caller.now)).log }
        ensures { IsTrue result ↔ (MayAttempt self.now caller.now call.now × IsIdle caller.now × (may_look call.now ≡ true)) }
    {
        caller.is_idle() && is_looking(call) && self.may_attempt(caller, call)
    }

    /// A look: the call, made without a lock (PEP 703, Optimistically avoiding locking). It takes no lock, and
    /// changes nothing in the bank but the counts of boxes that it reads, which it raises and drops again; only `Done`
    /// adds an entry.
    ///
    /// # Errors
    ///
    /// `Contended` where two loads of one version gave an odd number or two different ones, since another thread
    /// writes, or where the count of a box that was read moved when it should be raised, or the box was dead; the caller may
    /// look again, or attempt the call. `NoMemory` where memory for a copy ran out: the caller
    /// is to give up.
    #[inline(always)]
    pub fn look(&self, alloc: Global, caller: &mut Caller, call: &Call) -> Look
        requires caller { IsCallerOf self.now caller.old }
        requires may { MayAttempt self.now caller.old call.now }
        requires idle { IsIdle caller.old }
        requires looks { may_look call.now ≡ true }
        ensures caller { IsCallerOf self.now caller.new }
        ensures same { StaysCaller caller.old caller.new }
        ensures flight { flight_of caller.new ≡ flight_looked call.now result }
        ensures sections { stack_of (pass_of caller.new) ≡ stack_of (pass_of caller.old) }
        ensures kept { (mine : List NamedEntry) → WasAnswered caller.old mine →
            WasAnswered caller.new (entries_with_look (thread_of caller.old) call.now result mine) }
        ensures looked { IsLooked call.now (view (pass_of caller.old)) (view (pass_of caller.new)) result }
        ensures floor { HasFloor caller.old → IsUncontended result }
        ensures right { (mine : List NamedEntry) → WasAnswered caller.old mine →
            IsAnsweredRight caller.new (entries_with_look (thread_of caller.old) call.now result mine) }
    {
        let Some(look) = look_call(&self.bank, &mut caller.pass, alloc, call) else {
            unreachable!();
        };
        caller.take_look(call, &look);
        look
    }
}
