//! What a look-up of one key comes to, and the entry of a call that gives its reply by one.
ghost use Rattle.std.specs.Prelude.{◌≡◌, ℕ, [], ◌∷◌, false};
ghost use Rattle.ft_trace.specs.declared.Act.TheVariants.{Answer, ReadCounter};
ghost use Rattle.ft_trace.specs.Acts.{view_after};
ghost use Rattle.ft_bank.specs.Passes.{view, IsPassOf, Did};
ghost use Rattle.ft_bank.specs.Reads.{IsShown};
ghost use Rattle.ft_bank.specs.Series.{DidAll};
ghost use Rattle.ft_section.specs.declared.answers.Look.TheVariants.{Done};

use ft_bank::{Bank, Pass};
use ft_model::{Call, Reply};
use ft_section::{Look, Stamp};

/// What a look-up of one key without the lock came to.
#[derive(Clone, Copy, Debug, PartialEq, Eq)]
pub enum Looked {
    /// The key was there: the kind and the payload of its value, and the stamp.
    Here(u64, u64, u64),
    /// The key was not there, at this stamp.
    Absent(u64),
    /// A write may be under way: two loads of one version, the first odd or the two different; or the count word of a box,
    /// which moved from the first to the second or, where both are the same, was that of a dead box.
    Contended(u64, u64),
}

/// Gives the reply of a call that isn't a write, which the pass's loads show at this stamp.
pub fn answer_look(bank: &Bank, pass: &mut Pass, call: &Call, reply: Reply, number: u64) -> Look
    requires pass { IsPassOf bank.now pass.old }
    requires shown { IsShown (view pass.old) call.now reply number }
    ensures did { Did (Answer call.now reply number) pass.old pass.new }
    ensures done { result ≡ Done reply (record { number = number; wrote = false }) }
{
    bank.answer(pass, call, &reply, number);
    let stamp = Stamp {
        number,
        wrote: false,
    };
    Look::Done(reply, stamp)
}

/// Loads the counter and gives the reply of a call that isn't a write with that stamp, by a pass that has
/// the locks of the call's containers.
pub fn answer_held(bank: &Bank, pass: &mut Pass, call: &Call, reply: Reply) -> (Reply, Stamp)
    requires pass { IsPassOf bank.now pass.old }
    requires shown { (number : ℕ) → IsShown (view_after (ReadCounter number) (view pass.old)) call.now reply number }
    ensures did { DidAll (Answer call.now reply result.1.number ∷ ReadCounter result.1.number ∷ []) pass.old pass.new }
    ensures said { (result.0 ≡ reply) × (result.1.wrote ≡ false) }
{
    let number = bank.stamp(pass);
    bank.answer(pass, call, &reply, number);
    let stamp = Stamp {
        number,
        wrote: false,
    };
    (reply, stamp)
}
