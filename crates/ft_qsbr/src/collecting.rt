//! Collections: the numbers of all passes are loaded, and what no pass holds on to is given back.
ghost use Rattle.std.specs.Prelude.{◌≡◌, ◌⊎◌, ℕ, ◌*◌, ◌≤◌, List, length};
ghost use Rattle.ft_trace.specs.Acts.{flight};
ghost use Rattle.ft_bank.specs.Passes.{shape_of, view, IsPassOf};
ghost use Rattle.ft_bank.specs.PassSections.{stack_of};
ghost use Rattle.ft_bank.specs.Series.{DidAll};
ghost use Rattle.ft_bank.specs.Takings.{Each, KeepsBut};
ghost use Rattle.ft_qsbr.specs.Collecting.{Collected, IsLeast, IsPast, loads_of};
ghost use Rattle.ft_qsbr.specs.Sweeping.{Gave, HasSeen, Swept};

use crate::sweeping::sweep_word;
use ft_bank::{Bank, Pass};

/// How many words of bits of retired tables there are.
const WORDS: u32 = 224;

/// Gives back each table that this pass retired whose goal all passes have reached or are offline, this
/// pass too, and answers how many. A pass that has retired nothing loads the announced numbers and its own
/// words of bits, and no more.
pub fn collect(bank: &Bank, pass: &mut Pass) -> u64
    requires pass { IsPassOf bank.now pass.old }
    requires idle { flight (view pass.old).log ≡ 0 }
    ensures pass { IsPassOf bank.now pass.new }
    ensures collected { Collected (view pass.old) (view pass.new) result }
    ensures sections { stack_of pass.new ≡ stack_of pass.old }
{
    let least = least_announced(bank, pass);
    sweep_all(bank, pass, least)
}

/// The least number that a pass announces which is online; none where none is.
fn least_announced(bank: &Bank, pass: &mut Pass) -> Option<u64>
    requires pass { IsPassOf bank.now pass.old }
    ensures pass { IsPassOf bank.now pass.new }
    ensures did { (numbers : List ℕ) × (length numbers ≡ (shape_of bank.now).passes)
        × DidAll (loads_of numbers) pass.old pass.new × IsLeast result numbers }
    ensures keeps { KeepsBut Each (view pass.old) (view pass.new) }
{
    let mut least = None;
    for other in 0..bank.passes() {
        let number = bank.announced(pass, other);
        least = lower_of(least, number);
    }
    least
}

/// The lower of two announced numbers; 0 is that of a pass that is offline, and counts for nothing.
fn lower_of(least: Option<u64>, number: u64) -> Option<u64>
    ensures { (g : ℕ) → (IsPast result g → ((number ≡ 0) ⊎ (g ≤ number)) × IsPast least g)
        × ((number ≡ 0) ⊎ (g ≤ number) → IsPast least g → IsPast result g) }
{
    if number == 0 {
        return least;
    }
    match least {
        Some(before) => Some(before.min(number)),
        None => Some(number),
    }
}

/// Gives back those of all retired tables whose goal is reached; answers how many.
fn sweep_all(bank: &Bank, pass: &mut Pass, least: Option<u64>) -> u64
    requires pass { IsPassOf bank.now pass.old }
    requires seen { HasSeen least (view pass.old) }
    requires idle { flight (view pass.old).log ≡ 0 }
    ensures pass { IsPassOf bank.now pass.new }
    ensures gave { Gave result pass.old pass.new }
    ensures swept { Swept least 0 (64 * 224) (view pass.old) (view pass.new) }
{
    let mut freed = 0;
    for word in 0..WORDS {
        freed += sweep_word(bank, pass, word, least);
    }
    freed
}
