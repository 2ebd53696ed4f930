//! A pass, with what it keeps beside its part of the proofs: its number, the number of the next pass,
//! the calls that it may still make, and its critical sections. What it knows is a view of `ft_trace`.
ghost use Rattle.std.specs.Prelude.{◌≡◌, ◌+◌, ◌<◌, ◌≤◌, [], suc};
ghost use Rattle.ft_trace.specs.Acts.{shown};
ghost use Rattle.ft_trace.specs.Traces.{IsReachable};
ghost use Rattle.ft_bank.specs.Retired.{AreRetired};

use crate::retired::RETIRED;
use crate::sections::{Sections, Taking};
use atomic_table::Seat;
use ft_trace::View;

/// A pass: what one thread steps with.
#[derive(Drop)]
pub struct Pass {
    pub(crate) number: u32,
    pub(crate) next: u32,
    pub(crate) left: u64,
    pub(crate) sections: Box<Sections>,
    pub(crate) own: Taking,
    pub(crate) mark: Option<u32>,
    pub(crate) retired: Box<[u64; RETIRED]>,
    pub(crate) heap_word: u32,
    pub(crate) seat: Seat<(), View>,
    ghost bare: { seat.me.1 ≡ [] },
    ghost numbered: { seat.me.0.number ≡ suc number },
    ghost following: { next ≡ seat.me.0.next },
    ghost leaves: { left ≡ seat.me.0.left },
    ghost awake: { 0 < seat.me.0.tokens },
    ghost settled: { seat.me.0.learnt ≤ shown seat.me.0.log },
    ghost retiring: { AreRetired retired.value seat.me.0 },
    ghost possible: { ∥ IsReachable seat.me.0 ∥₁ },
}

impl Pass {
    ghost use Rattle.ft_bank.specs.Passes.{heap_word_of, view, KeepsAll};
    ghost use Rattle.ft_bank.specs.PassSections.{stack_of};

    /// The number of the pass, from 0 on; the lock of a container names its holder by it.
    pub fn number(&self) -> u32
        ensures number { (view self.now).number ≡ result + 1 }
        ensures possible { ∥ IsReachable (view self.now) ∥₁ }
    {
        self.number
    }

    /// How many calls the pass may still make: each entry takes one.
    pub fn left(&self) -> u64
        ensures { result ≡ (view self.now).left }
    {
        self.left
    }

    /// The open sections, for `ft_section`.
    pub fn sections(&self) -> &Sections
        ensures { result.now ≡ (stack_of self.now).sections }
    {
        &*self.sections
    }

    /// Puts other open sections in their place, for `ft_section`.
    pub fn put_sections(&mut self, sections: Sections)
        ensures view { KeepsAll self.old self.new }
        ensures stack { stack_of self.new ≡ record (stack_of self.old) { sections = sections } }
    {
        *self.sections = sections;
    }

    /// The locks that the call in flight took itself, for `ft_section`.
    pub fn own(&self) -> Taking
        ensures { result ≡ (stack_of self.now).own }
    {
        self.own
    }

    /// Puts others in their place, for `ft_section`.
    pub fn put_own(&mut self, own: Taking)
        ensures view { KeepsAll self.old self.new }
        ensures stack { stack_of self.new ≡ record (stack_of self.old) { own = own } }
    {
        self.own = own;
    }

    /// The mark of the call in flight: the number of the pass that it waited for first, for `ft_section`.
    pub fn mark(&self) -> Option<u32>
        ensures { result ≡ (stack_of self.now).mark }
    {
        self.mark
    }

    /// Puts another mark in its place, for `ft_section`.
    pub fn put_mark(&mut self, mark: Option<u32>)
        ensures view { KeepsAll self.old self.new }
        ensures stack { stack_of self.new ≡ record (stack_of self.old) { mark = mark } }
    {
        self.mark = mark;
    }

    /// The word of bits of its own heap in which the pass looks first for a free place, for `ft_boxes`: 0 at first.
    /// There it found one last, which says nothing of what it finds there next.
    pub fn heap_word(&self) -> u32
        ensures { result ≡ heap_word_of self.now }
    {
        self.heap_word
    }

    /// Puts another word in its place, for `ft_boxes`.
    pub fn put_heap_word(&mut self, word: u32)
        ensures view { KeepsAll self.old self.new }
        ensures stack { stack_of self.new ≡ stack_of self.old }
        ensures word { heap_word_of self.new ≡ word }
    {
        self.heap_word = word;
    }
}
