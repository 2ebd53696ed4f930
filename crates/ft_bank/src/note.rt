//! A note of what a pass has seen, for another pass of the bank.
ghost use Rattle.std.specs.Prelude.{◌≡◌, []};
ghost use Rattle.ft_bank.specs.Slips.{slip};

use atomic_table::Seat;
use ft_trace::View;

/// How many writes a pass had seen when it made the note. It takes no memory, and may go to another thread.
#[derive(Drop)]
pub struct Note {
    pub(crate) seat: Seat<(), View>,
    ghost bare: { seat.me.1 ≡ [] },
    ghost blank: { seat.me.0 ≡ slip seat.me.0.learnt seat.me.0.told },
}
