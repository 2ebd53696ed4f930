//! What a look comes to, for the try of its call.
ghost use Rattle.std.specs.Prelude.{◌≡◌, IfSome, IfNone};
ghost use Rattle.ft_trace.specs.Owners.{SameOwners};
ghost use Rattle.ft_bank.specs.Passes.{view, DidNothing};
ghost use Rattle.ft_section.specs.Locking.{OnlyLocked};
ghost use Rattle.ft_section.specs.Ready.{IsMaking};
ghost use Rattle.ft_section.specs.Trying.{HasLetGo};
ghost use Rattle.ft_engine.specs.Answering.{settled};

use ft_bank::{Bank, Pass};
use ft_section::{Look, Step, let_go};

/// The answer that a look gave, if it gave one: the call lets go of the lock that it may have kept from an earlier
/// try. It answers none where there was no look, or a contended one: the call is then made under its locks.
#[inline(always)]
pub(crate) fn settle(bank: &Bank, pass: &mut Pass, look: Option<Look>) -> Option<Step>
    requires { IsMaking bank.now pass.old }
    ensures answer { result ≡ settled look }
    ensures locked { IfSome result (λ step. OnlyLocked (view pass.old) (view pass.new)) }
    ensures owners { IfSome result (λ step. SameOwners (view pass.old) (view pass.new)) }
    ensures gone { IfSome result (λ step. HasLetGo bank.now pass.old pass.new) }
    ensures none { IfNone result (DidNothing pass.old pass.new) }
{
    match look {
        Some(Look::Done(reply, stamp)) => {
            let_go(bank, pass);
            Some(Step::Done(reply, stamp))
        }
        Some(Look::NoMemory) => {
            let_go(bank, pass);
            Some(Step::NoMemory)
        }
        Some(Look::Contended(_, _)) => None,
        None => None,
    }
}
