//! What holds of passes and their boxes between two calls.
ghost use Rattle.std.specs.Prelude.{ℕ};
ghost use Rattle.ft_trace.specs.Boxes.{IsSettled};
ghost use Rattle.ft_bank.specs.NewPasses.{IsOpening};
ghost use Rattle.ft_bank.specs.Passes.{view};
ghost use Rattle.ft_bank.specs.SameBoxes.{HoldsFew};

use ft_bank::{Bank, Pass};

/// A pass of a bank that was made just now has no box, and holds no reference.
pub fn new_passes_are_settled(bank: &Bank, pass: &Pass)
    requires { (i : ℕ) × IsOpening bank.now i pass.now }
    ensures settled { IsSettled (view pass.now).log }
    ensures few { HoldsFew (view pass.now) }
{
    let _ = bank;
}
