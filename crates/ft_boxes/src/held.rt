//! References that passes hold, and what making and raising a box come to.
ghost use Rattle.std.specs.Prelude.{◌≡◌};
ghost use Rattle.ft_bank.specs.Passes.{shape_of, view, IsPassOf};
ghost use Rattle.ft_boxes.specs.References.{HoldsBox, box_of};

use ft_bank::{Bank, Pass};
use ft_layout::Ref;

/// A reference that a pass holds for a box. While it holds one the box keeps its value and its place. It can be let go
/// only by [`release`](crate::release) or [`keep`].
#[derive(Debug)]
pub struct Held {
    /// The box.
    pub(crate) at: Ref,
}

impl Held {
    /// The box.
    pub fn at(&self) -> Ref
        ensures { result ≡ box_of self.now }
    {
        self.at
    }
}

/// What making a box comes to.
#[derive(Debug)]
pub enum Made {
    /// The box was made, and the pass holds its one reference.
    Up(Held),
    /// Each place of the pass's heap is in use.
    HeapFull,
}

/// What raising the count of a box comes to.
#[derive(Debug)]
pub enum Raised {
    /// The pass holds one reference more.
    Up(Held),
    /// The box is dead.
    Dead,
    /// The shared word was found to be the first number, and then, when it should be raised, to be the second.
    Moved(u64, u64),
}

/// The box for which the pass holds a reference that it is about to put into a word of a container.
pub fn keep(bank: &Bank, pass: &Pass, held: Held) -> Ref
    requires pass { IsPassOf bank.now pass.now }
    requires held { HoldsBox (box_of held) (view pass.now) }
    ensures { result ≡ box_of held }
{
    let Held { at } = held;
    at
}

/// The reference that came to the pass when it put another value over the word of a container that named this box, or
/// took that table out of its root.
pub fn taken(bank: &Bank, pass: &Pass, b: Ref) -> Held
    requires pass { IsPassOf bank.now pass.now }
    requires held { HoldsBox b (view pass.now) }
    ensures { box_of result ≡ b }
{
    Held { at: b }
}
