//! Boxes are merged: what their maker has counted alone goes to the shared count (PEP 703, "Biased Reference Counting").
ghost use Rattle.std.specs.Prelude.{◌≡◌, ◌≢◌, ◌⊎◌, ℕ, ◌+◌, ◌*◌, ◌/◌, ◌<◌, IsTrue, false};
ghost use Rattle.ft_trace.specs.Boxes.{made_state, state_merged, IsSettled};
ghost use Rattle.ft_bank.specs.BoxSteps.{box_id, IsBoxIn, IsOwn, IsShared};
ghost use Rattle.ft_bank.specs.Passes.{shape_of, view, IsPassOf};
ghost use Rattle.ft_bank.specs.PassSections.{stack_of};
ghost use Rattle.ft_bank.specs.SameBoxes.{SameReferences, TakesNoPlace};
ghost use Rattle.ft_bank.specs.Whole.{OnlyBoxed, OnlyLoaded};
ghost use Rattle.ft_boxes.specs.Counting.{TookBoxSteps};
ghost use Rattle.ft_boxes.specs.Internal.Merges.{HasTakenOut, IsSettledBut, LeavesNoIdleBoxIn};
ghost use Rattle.ft_boxes.specs.Merging.{FoundCounts, LeavesNoIdleBox, MergesAll, MergesIdleBoxes};
ghost use Rattle.ft_boxes.specs.References.{KeepsValues, LeavesOthers};

use crate::making::BITS;
use ft_bank::{Bank, Pass};
use ft_layout::Ref;

/// Which words of a box the shared word and the local count are.
const SHARED: u64 = 0;

const LOCAL: u64 = 3;
/// What the shared word has for one reference, and the bits that say that the box was merged: alone they are the word of
/// a dead box.
const UNIT: u64 = 4;

const MERGED: u64 = 3;

/// Whether the pass made the box and has it in the default state, so that it counts its references in the local count.
pub(crate) fn is_own(bank: &Bank, pass: &mut Pass, b: Ref) -> bool
    requires pass { IsPassOf bank.now pass.old }
    requires name { IsBoxIn (shape_of bank.now) b }
    ensures pass { IsPassOf bank.now pass.new }
    ensures sections { stack_of pass.new ≡ stack_of pass.old }
    ensures steps { TookBoxSteps pass.old pass.new }
    ensures only { OnlyLoaded (view pass.old) (view pass.new) }
    ensures own { IsTrue result → IsOwn b (view pass.new) }
    ensures shared { result ≡ false → IsShared b (view pass.new) }
{
    if b.pass != pass.number() {
        return false;
    }
    bank.read_box(pass, b, SHARED) % UNIT == 0
}

/// Takes what is in the local count of a box out of it, and answers how much that was.
fn take_local(bank: &Bank, pass: &mut Pass, b: Ref) -> u64
    requires pass { IsPassOf bank.now pass.old }
    requires name { IsBoxIn (shape_of bank.now) b }
    requires own { IsOwn b (view pass.old) }
    requires settled { IsSettledBut b (view pass.old) }
    ensures pass { IsPassOf bank.now pass.new }
    ensures sections { stack_of pass.new ≡ stack_of pass.old }
    ensures steps { TookBoxSteps pass.old pass.new }
    ensures only { OnlyBoxed (view pass.old) (view pass.new) }
    ensures taken { HasTakenOut b result (view pass.old) (view pass.new) }
    ensures values { KeepsValues (view pass.old) (view pass.new) }
{
    let count = bank.read_box(pass, b, LOCAL);
    if count > 0 {
        bank.clear_local(pass, b);
    }
    count
}

/// Merges a box that the pass has in the default state. Where the box is dead then, its place is given back.
pub(crate) fn merge(bank: &Bank, pass: &mut Pass, b: Ref)
    requires pass { IsPassOf bank.now pass.old }
    requires name { IsBoxIn (shape_of bank.now) b }
    requires own { IsOwn b (view pass.old) }
    requires settled { IsSettledBut b (view pass.old) }
    ensures pass { IsPassOf bank.now pass.new }
    ensures sections { stack_of pass.new ≡ stack_of pass.old }
    ensures steps { TookBoxSteps pass.old pass.new }
    ensures only { OnlyBoxed (view pass.old) (view pass.new) }
    ensures settled { IsSettled (view pass.new).log }
    ensures merged { made_state (box_id b) (view pass.new).log ≡ state_merged }
    ensures others { LeavesOthers b (view pass.old) (view pass.new) }
    ensures places { TakesNoPlace (view pass.old) (view pass.new) }
    ensures same { SameReferences (view pass.old) (view pass.new) }
    ensures values { KeepsValues (view pass.old) (view pass.new) }
{
    let taken = take_local(bank, pass, b);
    let found = bank.merge_counts(pass, b, taken);
    if found.wrapping_add(UNIT * taken + MERGED) == MERGED {
        bank.give_place(pass, b);
    }
}

/// Whether the pass has the box, which lies in its own heap, in the default state and its counts add up to 0.
fn is_idle(bank: &Bank, pass: &mut Pass, b: Ref) -> bool
    requires pass { IsPassOf bank.now pass.old }
    requires name { IsBoxIn (shape_of bank.now) b }
    requires maker { (view pass.old).number ≡ b.pass + 1 }
    ensures pass { IsPassOf bank.now pass.new }
    ensures sections { stack_of pass.new ≡ stack_of pass.old }
    ensures only { OnlyLoaded (view pass.old) (view pass.new) }
    ensures own { IsTrue result → IsOwn b (view pass.new) × FoundCounts (box_id b) 0 (view pass.old) (view pass.new) }
    ensures other { result ≡ false → IsShared b (view pass.new)
        ⊎ ((total : ℕ) × (total ≢ 0) × FoundCounts (box_id b) total (view pass.old) (view pass.new)) }
{
    let shared = bank.read_box(pass, b, SHARED);
    if shared % UNIT != 0 {
        return false;
    }
    let local = bank.read_box(pass, b, LOCAL);
    shared.wrapping_add(UNIT.wrapping_mul(local)) == 0
}

/// Merges a box of the pass's own heap if it is idle.
fn merge_if_idle(bank: &Bank, pass: &mut Pass, b: Ref)
    requires pass { IsPassOf bank.now pass.old }
    requires name { IsBoxIn (shape_of bank.now) b }
    requires maker { (view pass.old).number ≡ b.pass + 1 }
    requires settled { IsSettled (view pass.old).log }
    ensures pass { IsPassOf bank.now pass.new }
    ensures sections { stack_of pass.new ≡ stack_of pass.old }
    ensures settled { IsSettled (view pass.new).log }
    ensures only { OnlyBoxed (view pass.old) (view pass.new) }
    ensures same { SameReferences (view pass.old) (view pass.new) }
    ensures values { KeepsValues (view pass.old) (view pass.new) }
    ensures left { IsOwn b (view pass.new) →
        (total : ℕ) × (total ≢ 0) × FoundCounts (box_id b) total (view pass.old) (view pass.new) }
    ensures merges { MergesIdleBoxes (view pass.old) (view pass.new) }
    ensures others { LeavesOthers b (view pass.old) (view pass.new) }
    ensures places { TakesNoPlace (view pass.old) (view pass.new) }
{
    if is_idle(bank, pass, b) {
        merge(bank, pass, b);
    }
}

/// Merges each idle box among those of the pass's own heap whose bits are in this word. Where all places of the word are
/// free, none of them has a box.
fn merge_idle_in(bank: &Bank, pass: &mut Pass, word: u32)
    requires pass { IsPassOf bank.now pass.old }
    requires settled { IsSettled (view pass.old).log }
    requires word { word < (shape_of bank.now).heap / 64 }
    ensures pass { IsPassOf bank.now pass.new }
    ensures sections { stack_of pass.new ≡ stack_of pass.old }
    ensures settled { IsSettled (view pass.new).log }
    ensures only { OnlyBoxed (view pass.old) (view pass.new) }
    ensures same { SameReferences (view pass.old) (view pass.new) }
    ensures left { LeavesNoIdleBoxIn (64 * word) (64 * word + 64) (view pass.old) (view pass.new) }
    ensures merges { MergesIdleBoxes (view pass.old) (view pass.new) }
    ensures places { TakesNoPlace (view pass.old) (view pass.new) }
    ensures values { KeepsValues (view pass.old) (view pass.new) }
{
    let maker = pass.number();
    if bank.read_free_places(pass, maker, word) == u64::MAX {
        return;
    }
    let first = BITS * word;
    for place in first..first + BITS {
        merge_if_idle(bank, pass, Ref { pass: maker, place });
    }
}

/// Merges each box of the pass that is in the default state and whose counts add up to 0 when it loads them, so that its
/// place is given back: what a pass does from time to time. It loads each word of bits of the heap; where one has a place
/// that isn't free, a word for each of its places, and a second one for each box in the default state.
pub fn merge_idle(bank: &Bank, pass: &mut Pass)
    requires pass { IsPassOf bank.now pass.old }
    requires settled { IsSettled (view pass.old).log }
    ensures pass { IsPassOf bank.now pass.new }
    ensures sections { stack_of pass.new ≡ stack_of pass.old }
    ensures settled { IsSettled (view pass.new).log }
    ensures only { OnlyBoxed (view pass.old) (view pass.new) }
    ensures same { SameReferences (view pass.old) (view pass.new) }
    ensures left { LeavesNoIdleBox (view pass.old) (view pass.new) }
    ensures merges { MergesIdleBoxes (view pass.old) (view pass.new) }
    ensures places { TakesNoPlace (view pass.old) (view pass.new) }
    ensures values { KeepsValues (view pass.old) (view pass.new) }
{
    for word in 0..bank.heap() / BITS {
        merge_idle_in(bank, pass, word);
    }
}

/// Merges a box if the pass has it in the default state.
fn merge_own(bank: &Bank, pass: &mut Pass, b: Ref)
    requires pass { IsPassOf bank.now pass.old }
    requires name { IsBoxIn (shape_of bank.now) b }
    requires settled { IsSettled (view pass.old).log }
    ensures pass { IsPassOf bank.now pass.new }
    ensures sections { stack_of pass.new ≡ stack_of pass.old }
    ensures settled { IsSettled (view pass.new).log }
    ensures only { OnlyBoxed (view pass.old) (view pass.new) }
    ensures same { SameReferences (view pass.old) (view pass.new) }
    ensures values { KeepsValues (view pass.old) (view pass.new) }
    ensures shared { IsShared b (view pass.new) }
    ensures was { IsShared b (view pass.old) → made_state (box_id b) (view pass.new).log ≡ made_state (box_id b) (view pass.old).log }
    ensures others { LeavesOthers b (view pass.old) (view pass.new) }
    ensures places { TakesNoPlace (view pass.old) (view pass.new) }
{
    if is_own(bank, pass, b) {
        merge(bank, pass, b);
    }
}

/// Merges each box of the pass that is in the default state: what a pass does that leaves.
pub fn merge_all(bank: &Bank, pass: &mut Pass)
    requires pass { IsPassOf bank.now pass.old }
    requires settled { IsSettled (view pass.old).log }
    ensures pass { IsPassOf bank.now pass.new }
    ensures sections { stack_of pass.new ≡ stack_of pass.old }
    ensures settled { IsSettled (view pass.new).log }
    ensures only { OnlyBoxed (view pass.old) (view pass.new) }
    ensures same { SameReferences (view pass.old) (view pass.new) }
    ensures merges { MergesAll (view pass.old) (view pass.new) }
    ensures places { TakesNoPlace (view pass.old) (view pass.new) }
    ensures values { KeepsValues (view pass.old) (view pass.new) }
{
    let maker = pass.number();
    for place in 0..bank.heap() {
        merge_own(bank, pass, Ref { pass: maker, place });
    }
}
