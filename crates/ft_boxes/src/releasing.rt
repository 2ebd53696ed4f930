//! References are dropped.
ghost use Rattle.std.specs.Prelude.{◌≡◌};
ghost use Rattle.ft_trace.specs.Boxes.{IsSettled};
ghost use Rattle.ft_bank.specs.BoxSteps.{IsOwn, IsShared};
ghost use Rattle.ft_bank.specs.Passes.{shape_of, view, IsPassOf};
ghost use Rattle.ft_bank.specs.PassSections.{stack_of};
ghost use Rattle.ft_bank.specs.SameBoxes.{TakesNoPlace};
ghost use Rattle.ft_bank.specs.Whole.{OnlyBoxed};
ghost use Rattle.ft_boxes.specs.Counting.{TookBoxSteps};
ghost use Rattle.ft_boxes.specs.References.{HoldsBox, HoldsOneLess, KeepsValues, LeavesNoTaken, LeavesOthers, box_of};

use crate::held::Held;
use crate::merging::{is_own, merge};
use ft_bank::{Bank, Pass};
use ft_layout::Ref;

/// Which word of a box the local count is.
const LOCAL: u64 = 3;
/// The shared word of a merged box with one reference.
const LAST: u64 = 7;

/// Drops the reference. The maker of a box in the default state lowers the local count, and merges the box where that
/// came to 0; all others lower the shared count. Who brings the box to its end gives its place back: the pass itself where
/// it held the last reference for a box that no write has stored.
pub fn release(bank: &Bank, pass: &mut Pass, held: Held)
    requires pass { IsPassOf bank.now pass.old }
    requires held { HoldsBox (box_of held) (view pass.old) }
    requires settled { IsSettled (view pass.old).log }
    ensures pass { IsPassOf bank.now pass.new }
    ensures sections { stack_of pass.new ≡ stack_of pass.old }
    ensures steps { TookBoxSteps pass.old pass.new }
    ensures settled { IsSettled (view pass.new).log }
    ensures only { OnlyBoxed (view pass.old) (view pass.new) }
    ensures less { HoldsOneLess (box_of held) (view pass.old) (view pass.new) }
    ensures others { LeavesOthers (box_of held) (view pass.old) (view pass.new) }
    ensures places { TakesNoPlace (view pass.old) (view pass.new) }
    ensures gone { LeavesNoTaken (box_of held) (view pass.old) (view pass.new) }
    ensures values { KeepsValues (view pass.old) (view pass.new) }
{
    let Held { at } = held;
    if is_own(bank, pass, at) {
        drop_own(bank, pass, at);
    } else {
        drop_shared(bank, pass, at);
    }
}

/// Drops a reference for a box that the pass has in the default state.
fn drop_own(bank: &Bank, pass: &mut Pass, b: Ref)
    requires pass { IsPassOf bank.now pass.old }
    requires held { HoldsBox b (view pass.old) }
    requires own { IsOwn b (view pass.old) }
    requires settled { IsSettled (view pass.old).log }
    ensures pass { IsPassOf bank.now pass.new }
    ensures sections { stack_of pass.new ≡ stack_of pass.old }
    ensures steps { TookBoxSteps pass.old pass.new }
    ensures settled { IsSettled (view pass.new).log }
    ensures only { OnlyBoxed (view pass.old) (view pass.new) }
    ensures less { HoldsOneLess b (view pass.old) (view pass.new) }
    ensures others { LeavesOthers b (view pass.old) (view pass.new) }
    ensures places { TakesNoPlace (view pass.old) (view pass.new) }
    ensures gone { LeavesNoTaken b (view pass.old) (view pass.new) }
    ensures values { KeepsValues (view pass.old) (view pass.new) }
{
    let count = bank.read_box(pass, b, LOCAL);
    bank.drop_local(pass, b, count);
    if count == 1 {
        merge(bank, pass, b);
    }
}

/// Drops a reference for a box that the pass shares with others.
fn drop_shared(bank: &Bank, pass: &mut Pass, b: Ref)
    requires pass { IsPassOf bank.now pass.old }
    requires held { HoldsBox b (view pass.old) }
    requires shared { IsShared b (view pass.old) }
    requires settled { IsSettled (view pass.old).log }
    ensures pass { IsPassOf bank.now pass.new }
    ensures sections { stack_of pass.new ≡ stack_of pass.old }
    ensures steps { TookBoxSteps pass.old pass.new }
    ensures settled { IsSettled (view pass.new).log }
    ensures only { OnlyBoxed (view pass.old) (view pass.new) }
    ensures less { HoldsOneLess b (view pass.old) (view pass.new) }
    ensures others { LeavesOthers b (view pass.old) (view pass.new) }
    ensures places { TakesNoPlace (view pass.old) (view pass.new) }
    ensures gone { LeavesNoTaken b (view pass.old) (view pass.new) }
    ensures values { KeepsValues (view pass.old) (view pass.new) }
{
    let found = bank.drop_shared(pass, b);
    if found == LAST {
        bank.give_place(pass, b);
    }
}
