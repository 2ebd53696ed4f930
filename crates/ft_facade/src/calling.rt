//! A call that is made until it is done.
ghost use Rattle.std.specs.Prelude.{◌≡◌, false, not};
ghost use Rattle.ft_facade.specs.Kept.{IsIdleAfter, IsNotAgain, IsRefusedOnly, KeepsEntries, says_offline};
ghost use Rattle.ft_facade.specs.Sessions.{IsOnlineCaller, StaysInPlace};

use crate::session::Session;
use crate::stepping::{Stepped, give_up};
use ft_engine::{Called, Caller, Engine};
use ft_model::Call;
use std::alloc::Global;
use std::sync::Wait;

/// A call of a caller that is online, until it is done.
fn call<R: Wait>(
    rt: &R,
    engine: &Engine,
    alloc: Global,
    caller: &mut Caller,
    call: &Call,
) -> Stepped
    requires { IsOnlineCaller engine.now caller.old }
    ensures caller { IsOnlineCaller engine.now caller.new }
    ensures kept { KeepsEntries call.now result caller.old caller.new }
    ensures refused { IsRefusedOnly engine.now call.now result caller.old caller.new }
    ensures idle { IsIdleAfter result caller.new }
    ensures over { IsNotAgain result }
    ensures online { says_offline result ≡ false }
    ensures place { StaysInPlace caller.old caller.new }
{
    if let Some(cause) = engine.refusal(caller, call) {
        return Stepped::Refused(cause);
    }
    match engine.call(rt, alloc, caller, call) {
        Called::Done(reply, stamp, mark) => Stepped::Done(reply, stamp, mark),
        Called::NoMemory => {
            give_up(engine, caller);
            Stepped::NoMemory
        }
    }
}

impl Session {
    ghost use Rattle.ft_facade.specs.Sessions.{IsSession, caller_of, engine_of, is_online, with_caller};

    /// Makes a call until it is done: it never answers `Again`. It may wait for other threads, and nothing says that it
    /// returns. The rest is as `step` says.
    pub fn call<R: Wait>(&mut self, rt: &R, alloc: Global, made: &Call) -> Stepped
        requires { IsSession self.old }
        ensures session { IsSession self.new }
        ensures same { self.new ≡ with_caller self.old (caller_of self.new) }
        ensures kept { KeepsEntries made.now result (caller_of self.old) (caller_of self.new) }
        ensures refused { IsRefusedOnly (engine_of self.old) made.now result (caller_of self.old) (caller_of self.new) }
        ensures idle { IsIdleAfter result (caller_of self.new) }
        ensures over { IsNotAgain result }
        ensures offline { says_offline result ≡ not (is_online self.old) }
        ensures place { StaysInPlace (caller_of self.old) (caller_of self.new) }
    {
        if !self.is_online {
            return Stepped::Offline;
        }
        call(rt, &self.engine, alloc, &mut self.caller, made)
    }
}
