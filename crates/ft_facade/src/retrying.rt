//! A call that comes again after a quiescent point where every table of a class was taken.
ghost use Rattle.std.specs.Prelude.{◌≡◌, IfNone, IfSome, IsTrue, not};
ghost use Rattle.ft_facade.specs.Kept.{IsDone, IsNotAgain, KeepsMore, KeepsSome, says_offline};
ghost use Rattle.ft_facade.specs.Sessions.{IsSession, StaysInPlace, caller_of, is_online, with_caller};

use crate::session::Session;
use crate::stepping::Stepped;
use ft_model::{Call, Raise, Reply};
use std::alloc::Global;
use std::sync::Wait;

/// How often at most a call comes again that found every table of a class taken.
pub const RETRIES: u32 = 1000;

/// Whether the call found every table of a class taken: one that was retired is free again once each session that is
/// online has passed a quiescent point (profile).
fn wants_table(stepped: &Stepped) -> bool
    ensures { IsTrue result → IsDone stepped.now }
{
    matches!(
        stepped,
        Stepped::Done(Reply::Raised(Raise::Memory(_)), _, _)
    )
}

/// The answer, unless the call is done.
fn unless_done(stepped: Stepped) -> Option<Stepped>
    ensures done { IfNone result (IsDone stepped) }
    ensures other { IfSome result (λ answer. (answer ≡ stepped) × (IsDone stepped → ⊥)) }
{
    match stepped {
        Stepped::Done(_, _, _) => None,
        Stepped::Again => Some(Stepped::Again),
        Stepped::NoMemory => Some(Stepped::NoMemory),
        Stepped::Refused(cause) => Some(Stepped::Refused(cause)),
        Stepped::Offline => Some(Stepped::Offline),
    }
}

impl Session {
    /// Makes a call until it is done, and then a `quiesce` where the call wanted a table. It answers none where the call
    /// is to come again.
    fn call_and_rest<R: Wait>(&mut self, rt: &R, alloc: Global, made: &Call) -> Option<Stepped>
        requires { IsSession self.old }
        ensures session { IsSession self.new }
        ensures same { self.new ≡ with_caller self.old (caller_of self.new) }
        ensures place { StaysInPlace (caller_of self.old) (caller_of self.new) }
        ensures some { IfNone result (KeepsSome (caller_of self.old) (caller_of self.new)) }
        ensures kept { IfSome result (λ stepped. KeepsMore made.now stepped (caller_of self.old) (caller_of self.new)) }
        ensures over { IfSome result (λ stepped. IsNotAgain stepped) }
        ensures offline { IfSome result (λ stepped. says_offline stepped ≡ not (is_online self.old)) }
    {
        let stepped = self.call(rt, alloc, made);
        if !wants_table(&stepped) || self.left() < 2 {
            return Some(stepped);
        }
        unless_done(self.call(rt, alloc, &Call::Quiesce))
    }

    /// Makes a call until it is done. Where it raises `MemoryError` since every table of a class is taken, it makes a
    /// `quiesce` and the same call again, at most `RETRIES` times, and answers what the last of them did. Each of these
    /// calls is an entry of its own.
    pub fn call_again<R: Wait>(&mut self, rt: &R, alloc: Global, made: &Call) -> Stepped
        requires { IsSession self.old }
        ensures session { IsSession self.new }
        ensures same { self.new ≡ with_caller self.old (caller_of self.new) }
        ensures place { StaysInPlace (caller_of self.old) (caller_of self.new) }
        ensures kept { KeepsMore made.now result (caller_of self.old) (caller_of self.new) }
        ensures over { IsNotAgain result }
        ensures offline { says_offline result ≡ not (is_online self.old) }
    {
        for _ in 0..RETRIES {
            if let Some(stepped) = self.call_and_rest(rt, alloc, made) {
                return stepped;
            }
        }
        self.call(rt, alloc, made)
    }
}
