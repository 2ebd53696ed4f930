//! The entries of sections: a load of the counter, and the entry with that number.
ghost use Rattle.std.specs.Prelude.{◌≡◌, ◌≤◌, ◌<◌, true};
ghost use Rattle.ft_trace.specs.Acts.{seen_writes};
ghost use Rattle.ft_trace.specs.Addresses.{counter};
ghost use Rattle.ft_bank.specs.Passes.{view, IsPassOf};
ghost use Rattle.ft_section.specs.Floors.{floor_word};
ghost use Rattle.ft_section.specs.Locking.{KeepsStack};
ghost use Rattle.ft_section.specs.Sectioning.{IsSaid, answered_view};

use ft_bank::{Bank, Pass};
use ft_model::{Call, Reply};

/// Makes the entry of a `begin` or an `end`, and answers its stamp.
pub(crate) fn make_entry(bank: &Bank, pass: &mut Pass, call: &Call, reply: &Reply) -> u64
    requires pass { IsPassOf bank.now pass.old }
    requires left { 0 < (view pass.old).left }
    requires said { IsSaid call.now reply.now (view pass.old) }
    ensures stack { KeepsStack pass.old pass.new }
    ensures view { view pass.new ≡ answered_view call.now reply.now result (view pass.old) }
    ensures seen { seen_writes (view pass.old) ≤ result }
    ensures known { (view pass.old).has_floor ≡ true → result ≡ floor_word counter (view pass.old) }
{
    let number = bank.stamp(pass);
    bank.answer(pass, call, reply, number);
    number
}
