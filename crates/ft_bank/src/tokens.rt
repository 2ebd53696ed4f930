//! A pass that rests, and tokens on their way from one pass to another.
ghost use Rattle.std.specs.Prelude.{◌≡◌, ◌<◌, ◌≤◌, [], false, suc};
ghost use Rattle.ft_trace.specs.Acts.{shown};
ghost use Rattle.ft_trace.specs.Traces.{IsReachable};
ghost use Rattle.ft_bank.specs.Retired.{AreRetired};
ghost use Rattle.ft_bank.specs.Slips.{slip_with};

use crate::retired::RETIRED;
use crate::sections::{Sections, Taking};
use atomic_table::Seat;
use ft_trace::View;

/// A pass that has given its tokens away: it takes no step before it gets some again.
#[derive(Drop)]
pub struct Resting {
    pub(crate) number: u32,
    pub(crate) next: u32,
    pub(crate) left: u64,
    pub(crate) sections: Box<Sections>,
    pub(crate) own: Taking,
    pub(crate) mark: Option<u32>,
    pub(crate) retired: Box<[u64; RETIRED]>,
    pub(crate) heap_word: u32,
    pub(crate) seat: Seat<(), View>,
    ghost bare: { seat.me.1 ≡ [] },
    ghost numbered: { seat.me.0.number ≡ suc number },
    ghost following: { next ≡ seat.me.0.next },
    ghost leaves: { left ≡ seat.me.0.left },
    ghost settled: { seat.me.0.learnt ≤ shown seat.me.0.log },
    ghost still: { seat.me.0.tokens ≡ 0 },
    ghost wordless: { seat.me.0.floor ≡ [] },
    ghost floorless: { seat.me.0.has_floor ≡ false },
    ghost retiring: { AreRetired retired.value seat.me.0 },
    ghost possible: { ∥ IsReachable seat.me.0 ∥₁ },
}

/// Tokens of a pass, with what it had seen, and the words of the bank where it had the floor.
#[derive(Drop)]
pub struct Tokens {
    pub(crate) seat: Seat<(), View>,
    ghost bare: { seat.me.1 ≡ [] },
    ghost blank: { seat.me.0 ≡ slip_with seat.me.0.tokens seat.me.0.learnt seat.me.0.floor seat.me.0.told },
    ghost some_token: { 0 < seat.me.0.tokens },
}
