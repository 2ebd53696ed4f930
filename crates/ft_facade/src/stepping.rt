//! One step of a call: a look where the call may be made so, else one try.
ghost use Rattle.std.specs.Prelude.{◌≡◌, List, false, not};
ghost use Rattle.ft_model.specs.declared.call.Call.{Call as ACall};
ghost use Rattle.ft_model.specs.declared.entry.Entry.{Entry};
ghost use Rattle.ft_engine.specs.declared.caller.Flight.TheVariants as flight;
ghost use Rattle.ft_engine.specs.Attempts.{MayAttempt};
ghost use Rattle.ft_engine.specs.Callers.{IsIdle, flight_of};
ghost use Rattle.ft_engine.specs.Keeping.{WasAnswered};
ghost use Rattle.ft_facade.specs.Kept.{HasJust, IsIdleAfter, IsNotRefused, IsRefusedOnly, KeepsEntries, says_offline};
ghost use Rattle.ft_facade.specs.Sessions.{IsOnlineCaller, StaysInPlace};

use crate::session::Session;
use ft_engine::{Caller, Engine, Refusal, Tried};
use ft_model::{Call, Reply};
use ft_section::{Look, Owner, Stamp};
use std::alloc::Global;

/// What one step of a call answers.
#[derive(Debug, Drop)]
pub enum Stepped {
    /// The call has ended: its reply, its stamp, and the thread that it waited for first.
    Done(Reply, Stamp, Option<Owner>),
    /// Another thread has a lock that the call needs, or a word moved. The same call comes next, after a pause.
    Again,
    /// Out of memory: the call was given up, and so was every open section.
    NoMemory,
    /// The call may not be made. Nothing has changed.
    Refused(Refusal),
    /// The session is offline. Nothing has changed.
    Offline,
}

/// Gives up a call for which memory ran out, with every open section.
#[tactic(auto, using(crate::proofs::StepLemmas::refused_has_just))]
pub(crate) fn give_up(engine: &Engine, caller: &mut Caller)
    requires caller { IsOnlineCaller engine.now caller.old }
    requires refused { (called : ACall) × (flight_of caller.old ≡ flight.Refused called) }
    ensures caller { IsOnlineCaller engine.now caller.new }
    ensures entries { (mine : List Entry) → WasAnswered caller.old mine → HasJust mine caller.new }
    ensures idle { IsIdle caller.new }
    ensures place { StaysInPlace caller.old caller.new }
{
    engine.abandon(caller);
}

/// One try of a call that may be tried. It stands apart, since room for the answers of a function is cleared at its
/// beginning, and a look would pay for it.
#[inline(never)]
fn attempt(engine: &Engine, alloc: Global, caller: &mut Caller, call: &Call) -> Stepped
    requires caller { IsOnlineCaller engine.now caller.old }
    requires may { MayAttempt engine.now caller.old call.now }
    ensures caller { IsOnlineCaller engine.now caller.new }
    ensures kept { KeepsEntries call.now result caller.old caller.new }
    ensures made { IsNotRefused result }
    ensures idle { IsIdleAfter result caller.new }
    ensures online { says_offline result ≡ false }
    ensures place { StaysInPlace caller.old caller.new }
{
    match engine.attempt(alloc, caller, call) {
        Tried::Done(reply, stamp, mark) => Stepped::Done(reply, stamp, mark),
        Tried::NotYet(_, _) => Stepped::Again,
        Tried::Moved(_, _) => Stepped::Again,
        Tried::NoMemory => {
            give_up(engine, caller);
            Stepped::NoMemory
        }
    }
}

/// One try of a call, where it may be tried.
#[inline(never)]
#[tactic(auto, using(crate::proofs::StepLemmas::made_not_refused))]
fn attempt_if_allowed(engine: &Engine, alloc: Global, caller: &mut Caller, call: &Call) -> Stepped
    requires caller { IsOnlineCaller engine.now caller.old }
    ensures caller { IsOnlineCaller engine.now caller.new }
    ensures kept { KeepsEntries call.now result caller.old caller.new }
    ensures refused { IsRefusedOnly engine.now call.now result caller.old caller.new }
    ensures idle { IsIdleAfter result caller.new }
    ensures online { says_offline result ≡ false }
    ensures place { StaysInPlace caller.old caller.new }
{
    match engine.refusal(caller, call) {
        Some(cause) => Stepped::Refused(cause),
        None => attempt(engine, alloc, caller, call),
    }
}

/// One try of a call whose look was contended.
#[inline(never)]
fn attempt_after_look(engine: &Engine, alloc: Global, caller: &mut Caller, call: &Call) -> Stepped
    requires caller { IsOnlineCaller engine.now caller.old }
    ensures caller { IsOnlineCaller engine.now caller.new }
    ensures kept { KeepsEntries call.now result caller.old caller.new }
    ensures made { IsNotRefused result }
    ensures idle { IsIdleAfter result caller.new }
    ensures online { says_offline result ≡ false }
    ensures place { StaysInPlace caller.old caller.new }
{
    if engine.may_attempt(caller, call) {
        return attempt(engine, alloc, caller, call);
    }
    // A look leaves what the call needs, so this isn't reached.
    Stepped::Again
}

/// A step of a caller that is online.
#[inline(always)]
#[tactic(auto, using(crate::proofs::StepLemmas::kept_after, crate::proofs::StepLemmas::made_not_refused))]
fn step(engine: &Engine, alloc: Global, caller: &mut Caller, call: &Call) -> Stepped
    requires { IsOnlineCaller engine.now caller.old }
    ensures caller { IsOnlineCaller engine.now caller.new }
    ensures kept { KeepsEntries call.now result caller.old caller.new }
    ensures refused { IsRefusedOnly engine.now call.now result caller.old caller.new }
    ensures idle { IsIdleAfter result caller.new }
    ensures online { says_offline result ≡ false }
    ensures place { StaysInPlace caller.old caller.new }
{
    if !engine.may_look(caller, call) {
        return attempt_if_allowed(engine, alloc, caller, call);
    }
    match engine.look(alloc, caller, call) {
        Look::Done(reply, stamp) => Stepped::Done(reply, stamp, None),
        Look::Contended(_, _) => attempt_after_look(engine, alloc, caller, call),
        Look::NoMemory => {
            give_up(engine, caller);
            Stepped::NoMemory
        }
    }
}

impl Session {
    ghost use Rattle.ft_facade.specs.Sessions.{IsSession, caller_of, engine_of, is_online, with_caller};

    /// One step of a call. It never waits: after `Again` the same call comes next. A call that is done is one entry of
    /// the session's history, with its reply, stamp and mark, and no other answer makes one.
    #[inline(always)]
    pub fn step(&mut self, alloc: Global, call: &Call) -> Stepped
        requires { IsSession self.old }
        ensures session { IsSession self.new }
        ensures same { self.new ≡ with_caller self.old (caller_of self.new) }
        ensures kept { KeepsEntries call.now result (caller_of self.old) (caller_of self.new) }
        ensures refused { IsRefusedOnly (engine_of self.old) call.now result (caller_of self.old) (caller_of self.new) }
        ensures idle { IsIdleAfter result (caller_of self.new) }
        ensures offline { says_offline result ≡ not (is_online self.old) }
        ensures place { StaysInPlace (caller_of self.old) (caller_of self.new) }
    {
        if !self.is_online {
            return Stepped::Offline;
        }
        step(&self.engine, alloc, &mut self.caller, call)
    }
}
