//! What calls answer under their locks: those that turn out to be no write, and those that are one.
ghost use Rattle.std.specs.Prelude.{◌≡◌, ◌<◌, true};
ghost use Rattle.ft_bank.specs.Passes.{view, IsPassOf};
ghost use Rattle.ft_bank.specs.PassSections.{stack_of};
ghost use Rattle.ft_search.specs.MadeCalls.{IsShownBy, MadeAs};

use crate::looks::answer_held;
use ft_bank::{Bank, Pass};
use ft_model::{Call, Reply};
use ft_section::Stamp;

/// Loads the counter and gives this reply to a call that is no write, whose locks the pass has.
pub fn answer_made(bank: &Bank, pass: &mut Pass, called: &Call, said: Reply) -> (Reply, Stamp)
    requires pass { IsPassOf bank.now pass.old }
    requires left { 0 < (view pass.old).left }
    requires shown { IsShownBy called.now said (view pass.old) }
    ensures pass { IsPassOf bank.now pass.new }
    ensures stack { stack_of pass.new ≡ stack_of pass.old }
    ensures said { result.0 ≡ said }
    ensures made { MadeAs called.now said result.1 (view pass.old) (view pass.new) }
{
    answer_held(bank, pass, called, said)
}

/// The stamp of a write.
pub fn written(number: u64) -> Stamp
    ensures { result ≡ record { number = number; wrote = true } }
{
    Stamp {
        number,
        wrote: true,
    }
}
