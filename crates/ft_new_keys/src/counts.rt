//! What the block of a dict or a set counts.
ghost use Rattle.std.specs.Prelude.{◌≡◌, ◌<◌, true};
ghost use Rattle.ft_trace.specs.Acts.{has_lock};
ghost use Rattle.ft_trace.specs.Addresses.{container_count};
ghost use Rattle.ft_trace.specs.Holds.{held_unboxed};
ghost use Rattle.ft_bank.specs.Passes.{shape_of, view, IsPassOf};
ghost use Rattle.ft_bank.specs.PassSections.{stack_of};
ghost use Rattle.ft_bank.specs.Whole.{OnlyLoaded};
ghost use Rattle.ft_new_keys.specs.Placing.{AreCounts};

use ft_bank::{Bank, Pass};
use ft_layout::block_word;

/// Which word of a block, as a bank counts them, is the number of pairs or elements.
pub const COUNT: u64 = block_word::USED - block_word::ROOT;

/// Which one is the number of entries that were used.
pub const FILL: u64 = block_word::FILL - block_word::ROOT;

/// Which one is the next serial.
pub const NEXT: u64 = block_word::NEXT - block_word::ROOT;

/// What the block of a dict or a set counts.
#[derive(Clone, Copy, Debug, PartialEq, Eq)]
pub struct Counts {
    /// How many pairs or elements there are.
    pub count: u64,
    /// How many entries of the table were used, deleted ones too.
    pub fill: u64,
    /// The serial that the next new key draws.
    pub next: u64,
}

/// What the block of a dict or a set counts, whose lock the pass has.
pub fn read_counts(bank: &Bank, pass: &mut Pass, o: u32) -> Counts
    requires pass { IsPassOf bank.now pass.old }
    requires container { o < container_count (shape_of bank.now) }
    requires locked { has_lock o (view pass.old).log ≡ true }
    ensures pass { IsPassOf bank.now pass.new }
    ensures stack { stack_of pass.new ≡ stack_of pass.old }
    ensures only { OnlyLoaded (view pass.old) (view pass.new) }
    ensures counts { AreCounts (held_unboxed o (view pass.old)).block result }
{
    let count = bank.read_block(pass, o, COUNT);
    let fill = bank.read_block(pass, o, FILL);
    let next = bank.read_block(pass, o, NEXT);
    Counts { count, fill, next }
}
