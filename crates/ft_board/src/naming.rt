//! What stands for the engine of a board.

use std::marker::Brand;

/// What proofs know of the notes on a board and of its threads: the name of the bank whose notes they are, and what holds
/// once a thread has stopped. Whoever makes a board picks them.
pub trait Naming {
    ghost use Rattle.std.specs.Prelude.{ℕ};
    ghost use Rattle.atomic_table.specs.Seated.{TableId};

    ghost bank: { TableId };

    ghost stopped: { ℕ → Type 0 };
}

impl Naming for Brand {
    ghost use Rattle.ft_board.specs.Boards.{no_bank};

    ghost bank = { no_bank };

    ghost stopped = { λ thread. Unit {0} };
}
