//! Why a call may not be tried.
ghost use Rattle.std.specs.Prelude.{◌<◌, IfNone, IfSome};
ghost use Rattle.ft_trace.specs.Acts.{announces};
ghost use Rattle.ft_bank.specs.Passes.{view};
ghost use Rattle.ft_engine.specs.Attempts.{MayAttempt};
ghost use Rattle.ft_engine.specs.Callers.{pass_of};
ghost use Rattle.ft_engine.specs.Refusals.{IsCause};

use crate::caller::Caller;
use crate::engine::Engine;
use ft_model::Call;

/// Why a call of a caller that is online may not be tried.
#[derive(Clone, Copy, Debug, PartialEq, Eq)]
pub enum Refusal {
    /// Another call is in flight, or memory ran out for the one that is.
    InFlight,
    /// The caller has made all calls that it may make.
    CallsLeft,
    /// It begins a 17th section, or ends one where none is open.
    Sections,
    /// A container, a cursor or a string that it names isn't there, or a container is of another kind.
    Names,
}

impl Engine {
    /// Why the call may not be tried, the first of these causes; none where it may.
    pub fn refusal(&self, caller: &Caller, call: &Call) -> Option<Refusal>
        requires online { 0 < announces (view (pass_of caller.now)).log }
        ensures may { IfNone result (MayAttempt self.now caller.now call.now) }
        ensures refused { IfSome result (λ cause. MayAttempt self.now caller.now call.now → ⊥) }
        ensures cause { IfSome result (λ cause. IsCause self.now caller.now call.now cause) }
    {
        if !caller.comes_next(call) {
            return Some(Refusal::InFlight);
        }
        if caller.is_answered() {
            return None;
        }
        if caller.left() == 0 {
            return Some(Refusal::CallsLeft);
        }
        if !caller.fits(call) {
            return Some(Refusal::Sections);
        }
        if !self.has_named(caller, call) {
            return Some(Refusal::Names);
        }
        None
    }
}
