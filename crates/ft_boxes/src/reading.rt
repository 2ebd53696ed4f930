//! The values in boxes are read.
ghost use Rattle.std.specs.Prelude.{◌≡◌};
ghost use Rattle.ft_model.specs.declared.data.Value.{Value};
ghost use Rattle.ft_bank.specs.Passes.{shape_of, view, IsPassOf};
ghost use Rattle.ft_bank.specs.PassSections.{stack_of};
ghost use Rattle.ft_bank.specs.Whole.{OnlyLoaded};
ghost use Rattle.ft_boxes.specs.References.{HoldsBox, KnowsValue, box_of};

use crate::held::Held;
use ft_bank::{Bank, Pass};
use ft_layout::value_of;
use ft_model::Value;

/// Which words of a box the kind and the payload are.
const KIND: u64 = 1;

const PAYLOAD: u64 = 2;

/// The value in a box for which the pass holds a reference, which is the one that the pass knew, if it knew it. It loads
/// the two words of the value.
pub fn value(bank: &Bank, pass: &mut Pass, held: &Held) -> Value
    requires pass { IsPassOf bank.now pass.old }
    requires held { HoldsBox (box_of held.now) (view pass.old) }
    ensures pass { IsPassOf bank.now pass.new }
    ensures sections { stack_of pass.new ≡ stack_of pass.old }
    ensures only { OnlyLoaded (view pass.old) (view pass.new) }
    ensures value { KnowsValue (box_of held.now) result (view pass.new) }
    ensures known { (was : Value) → KnowsValue (box_of held.now) was (view pass.old) → result ≡ was }
{
    let kind = bank.read_box(pass, held.at, KIND);
    let payload = bank.read_box(pass, held.at, PAYLOAD);
    let Some(value) = value_of(kind, payload) else {
        // A box that was published has a value.
        unreachable!()
    };
    value
}
