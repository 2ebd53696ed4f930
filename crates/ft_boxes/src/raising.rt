//! The counts of boxes are raised.
ghost use Rattle.std.specs.Prelude.{◌≡◌, IsTrue, false};
ghost use Rattle.ft_trace.specs.Boxes.{KeepsBox, IsSettled};
ghost use Rattle.ft_trace.specs.SeenBoxes.{SawBox};
ghost use Rattle.ft_bank.specs.BoxSteps.{box_id, IsBoxIn, IsOwn, IsShared};
ghost use Rattle.ft_bank.specs.Passes.{shape_of, view, IsPassOf};
ghost use Rattle.ft_bank.specs.PassSections.{stack_of};
ghost use Rattle.ft_bank.specs.SameBoxes.{GainsRaised, HoldsFew, SameReferences, TakesNoPlace};
ghost use Rattle.ft_bank.specs.Whole.{OnlyBoxed};
ghost use Rattle.ft_boxes.specs.Counting.{TookBoxSteps};
ghost use Rattle.ft_boxes.specs.Raising.{Raises, RaisesBySteps};
ghost use Rattle.ft_boxes.specs.References.{HoldsOneMore, KeepsValues, LeavesOthers, box_of};

use crate::held::{Held, Raised};
use crate::merging::{is_own, merge};
use ft_bank::{Bank, Pass};
use ft_layout::Ref;

/// Which words of a box the shared word and the local count are.
const SHARED: u64 = 0;

const LOCAL: u64 = 3;
/// The shared word of a dead box.
const DEAD: u64 = 3;
/// The greatest local count: the next reference is counted in the shared count.
const MOST: u64 = 1 << 60;

/// Raises the count of a box whose name the pass has read in a container, between two equal even loads of the version of
/// the entry or item, or of the container: it holds one reference more. The maker of a box in the default state stores
/// the local count; all others try one compare-exchange of the shared word.
///
/// `Dead` comes only where the shared word was loaded as that of a dead box, and `Moved` only where it was loaded as the
/// first number and found to be the second when it should be raised. Then the pass holds what it held.
pub fn raise(bank: &Bank, pass: &mut Pass, b: Ref) -> Raised
    requires pass { IsPassOf bank.now pass.old }
    requires name { IsBoxIn (shape_of bank.now) b }
    requires settled { IsSettled (view pass.old).log }
    requires few { HoldsFew (view pass.old) }
    requires saw { SawBox (shape_of bank.now) (box_id b) (view pass.old).log }
    ensures pass { IsPassOf bank.now pass.new }
    ensures sections { stack_of pass.new ≡ stack_of pass.old }
    ensures steps { RaisesBySteps b pass.old pass.new result }
    ensures settled { IsSettled (view pass.new).log }
    ensures only { OnlyBoxed (view pass.old) (view pass.new) }
    ensures raised { Raises b (view pass.old) (view pass.new) result }
    ensures others { LeavesOthers b (view pass.old) (view pass.new) }
    ensures places { TakesNoPlace (view pass.old) (view pass.new) }
    ensures values { KeepsValues (view pass.old) (view pass.new) }
{
    if raise_if_own(bank, pass, b) {
        Raised::Up(Held { at: b })
    } else {
        raise_shared(bank, pass, b)
    }
}

/// Raises the count of a box for which the pass holds a reference, or that a container names whose lock it has: such a
/// box isn't dead.
pub fn raise_kept(bank: &Bank, pass: &mut Pass, b: Ref) -> Held
    requires pass { IsPassOf bank.now pass.old }
    requires name { IsBoxIn (shape_of bank.now) b }
    requires kept { KeepsBox (shape_of bank.now) (box_id b) (view pass.old).log }
    requires settled { IsSettled (view pass.old).log }
    requires few { HoldsFew (view pass.old) }
    ensures pass { IsPassOf bank.now pass.new }
    ensures sections { stack_of pass.new ≡ stack_of pass.old }
    ensures held { box_of result ≡ b }
    ensures settled { IsSettled (view pass.new).log }
    ensures only { OnlyBoxed (view pass.old) (view pass.new) }
    ensures more { HoldsOneMore b (view pass.old) (view pass.new) }
    ensures gains { GainsRaised (view pass.old) (view pass.new) }
    ensures others { LeavesOthers b (view pass.old) (view pass.new) }
    ensures places { TakesNoPlace (view pass.old) (view pass.new) }
    ensures values { KeepsValues (view pass.old) (view pass.new) }
{
    if !raise_if_own(bank, pass, b) {
        bank.raise_kept(pass, b);
    }
    Held { at: b }
}

/// Raises the local count of a box, if the pass has it in the default state and can, and says whether it did. If not,
/// the pass shares the box with others.
fn raise_if_own(bank: &Bank, pass: &mut Pass, b: Ref) -> bool
    requires pass { IsPassOf bank.now pass.old }
    requires name { IsBoxIn (shape_of bank.now) b }
    requires settled { IsSettled (view pass.old).log }
    requires few { HoldsFew (view pass.old) }
    ensures pass { IsPassOf bank.now pass.new }
    ensures sections { stack_of pass.new ≡ stack_of pass.old }
    ensures steps { TookBoxSteps pass.old pass.new }
    ensures settled { IsSettled (view pass.new).log }
    ensures only { OnlyBoxed (view pass.old) (view pass.new) }
    ensures more { IsTrue result → HoldsOneMore b (view pass.old) (view pass.new) }
    ensures shared { result ≡ false → IsShared b (view pass.new) × SameReferences (view pass.old) (view pass.new) }
    ensures gains { GainsRaised (view pass.old) (view pass.new) }
    ensures others { LeavesOthers b (view pass.old) (view pass.new) }
    ensures places { TakesNoPlace (view pass.old) (view pass.new) }
    ensures values { KeepsValues (view pass.old) (view pass.new) }
{
    if is_own(bank, pass, b) {
        raise_own(bank, pass, b)
    } else {
        false
    }
}

/// Raises the local count of a box that the pass has in the default state, and says that it did. Where that can be
/// raised no more the box is merged, and its count is as it was.
fn raise_own(bank: &Bank, pass: &mut Pass, b: Ref) -> bool
    requires pass { IsPassOf bank.now pass.old }
    requires name { IsBoxIn (shape_of bank.now) b }
    requires own { IsOwn b (view pass.old) }
    requires settled { IsSettled (view pass.old).log }
    requires few { HoldsFew (view pass.old) }
    ensures pass { IsPassOf bank.now pass.new }
    ensures sections { stack_of pass.new ≡ stack_of pass.old }
    ensures steps { TookBoxSteps pass.old pass.new }
    ensures settled { IsSettled (view pass.new).log }
    ensures only { OnlyBoxed (view pass.old) (view pass.new) }
    ensures more { IsTrue result → HoldsOneMore b (view pass.old) (view pass.new) }
    ensures merged { result ≡ false → IsShared b (view pass.new) × SameReferences (view pass.old) (view pass.new) }
    ensures gains { GainsRaised (view pass.old) (view pass.new) }
    ensures others { LeavesOthers b (view pass.old) (view pass.new) }
    ensures places { TakesNoPlace (view pass.old) (view pass.new) }
    ensures values { KeepsValues (view pass.old) (view pass.new) }
{
    let count = bank.read_box(pass, b, LOCAL);
    if count < MOST {
        bank.raise_local(pass, b, count);
        true
    } else {
        merge(bank, pass, b);
        false
    }
}

/// Raises the shared count of a box that the pass shares with others.
fn raise_shared(bank: &Bank, pass: &mut Pass, b: Ref) -> Raised
    requires pass { IsPassOf bank.now pass.old }
    requires name { IsBoxIn (shape_of bank.now) b }
    requires shared { IsShared b (view pass.old) }
    requires settled { IsSettled (view pass.old).log }
    requires few { HoldsFew (view pass.old) }
    requires saw { SawBox (shape_of bank.now) (box_id b) (view pass.old).log }
    ensures pass { IsPassOf bank.now pass.new }
    ensures sections { stack_of pass.new ≡ stack_of pass.old }
    ensures steps { RaisesBySteps b pass.old pass.new result }
    ensures settled { IsSettled (view pass.new).log }
    ensures only { OnlyBoxed (view pass.old) (view pass.new) }
    ensures raised { Raises b (view pass.old) (view pass.new) result }
    ensures others { LeavesOthers b (view pass.old) (view pass.new) }
    ensures places { TakesNoPlace (view pass.old) (view pass.new) }
    ensures values { KeepsValues (view pass.old) (view pass.new) }
{
    let shared = bank.read_box(pass, b, SHARED);
    if shared == DEAD {
        return Raised::Dead;
    }
    let found = bank.raise_shared(pass, b, shared);
    if found == shared {
        Raised::Up(Held { at: b })
    } else {
        Raised::Moved(shared, found)
    }
}
