//! A bank that was closed, for whoever judges what its passes did: its shape, and the entries of them all.
ghost use Rattle.ft_bank.specs.Shapes.{plan};
ghost use Rattle.std.specs.Prelude.{◌≡◌};

use crate::pass::Pass;
use crate::shape::Shape;

/// What is left of a bank: its shape, and the entries of all its passes. Only closing a bank makes one.
#[derive(Drop)]
pub struct Closed {
    pub(crate) shape: Shape,
    pub(crate) pass: Pass,
    ghost of: { pass.seat.me.0.shape ≡ plan shape },
    ghost all: { pass.seat.me.0.parts ≡ shape.passes },
}

impl Closed {
    ghost use Rattle.ft_bank.specs.Closings.{HasToldAwaits, HasWholeHistory, had_in, found_in};
    ghost use Rattle.ft_trace.specs.Owners.{AreOwners};

    /// The entries have one history of writes: each write's number is its place there, each number is
    /// that of one entry, and each entry has the reply of the plain containers at its stamp; a
    /// MemoryError has its cause there. The stamps of each pass rise from entry to entry, and inside a
    /// section that it says it kept no other pass wrote on the section's containers.
    pub fn entries_are_whole(&self)
        ensures { HasWholeHistory self.now }
    {}

    /// Whoever was found with the lock of a container had taken it.
    pub fn owners_are_known(&self)
        ensures { AreOwners (found_in self.now) (had_in self.now) }
    {}

    /// Each await was told of the call that it names: its stamp is not below what that one's pass had seen.
    pub fn awaits_are_told(&self)
        ensures { HasToldAwaits self.now }
    {}
}
