//! A raise beside a merge, and a shared count below 0: the steps of passes on one box that a list has, in the orders in
//! which they may fall (PEP 703, "Biased Reference Counting").
ghost use Rattle.std.specs.Prelude.{◌≡◌, ◌≢◌, ◌+◌, ◌-◌, ◌<◌, ◌^◌, IfOk, OnOk, IfSome, IsTrue};
ghost use Rattle.ft_trace.specs.SeenBoxes.{SawBox};
ghost use Rattle.ft_bank.specs.BoxSteps.{box_id, IsBoxIn};
ghost use Rattle.ft_bank.specs.Passes.{shape_of, view, IsPassOf};
ghost use Rattle.ft_boxes_tests.specs.Counters.{HasOneList, IsCaller, IsCounter};
ghost use Rattle.ft_boxes_tests.specs.OneBox.{OwnsBox, SharesBox};

use crate::banks::{Ready, ready_bank};
use crate::counting::{find_box, go_online};
use crate::storing::{overwrite, store_boxes};
use ft_bank::{Bank, Pass};
use ft_boxes::merge_idle;
use ft_layout::Ref;
use std::test::Fail;

/// Which words of a box the shared word and the local count are.
const SHARED: u64 = 0;

const LOCAL: u64 = 3;
/// What the shared word has for one reference; that of a merged box with one reference, and of a dead one.
const UNIT: u64 = 4;

const LAST: u64 = 7;

const DEAD: u64 = 3;

/// Whether the pass made the box, which is in the default state, and has this local count.
fn is_counted(bank: &Bank, pass: &mut Pass, b: Ref, count: u64) -> bool
    requires may { IsCaller bank.now pass.old }
    requires name { IsBoxIn (shape_of bank.now) b }
    ensures pass { IsPassOf bank.now pass.new }
    ensures own { IsTrue result → OwnsBox (shape_of bank.now) b count 0 (view pass.new).log }
{
    if b.pass != pass.number() || bank.read_box(pass, b, SHARED) % UNIT != 0 {
        return false;
    }
    bank.read_box(pass, b, LOCAL) == count
}

/// The box of item 0, if another pass made it: a pass that has seen its name holds no reference for it.
fn see_other(bank: &Bank, pass: &mut Pass) -> Option<Ref>
    requires list { HasOneList bank.now }
    requires counter { IsCounter bank.now pass.old }
    ensures pass { IsPassOf bank.now pass.new }
    ensures shared { IfSome result (λ b. SharesBox (shape_of bank.now) b 0 (view pass.new).log) }
{
    let b = find_box(bank, pass, 0)?;
    if b.pass == pass.number() {
        return None;
    }
    read_shared(bank, pass, b);
    Some(b)
}

/// Loads the shared word of a box of another pass.
fn read_shared(bank: &Bank, pass: &mut Pass, b: Ref) -> u64
    requires counter { IsCounter bank.now pass.old }
    requires name { IsBoxIn (shape_of bank.now) b }
    requires other { (view pass.old).number ≢ b.pass + 1 }
    requires saw { SawBox (shape_of bank.now) (box_id b) (view pass.old).log }
    ensures pass { IsPassOf bank.now pass.new }
    ensures shared { SharesBox (shape_of bank.now) b 0 (view pass.new).log }
{
    bank.read_box(pass, b, SHARED)
}

/// Loads a word of the box, by a pass that shares it.
fn read_word(bank: &Bank, pass: &mut Pass, b: Ref, count: u64, word: u64) -> u64
    requires pass { IsPassOf bank.now pass.old }
    requires shared { SharesBox (shape_of bank.now) b count (view pass.old).log }
    requires word { word < 4 }
    ensures pass { IsPassOf bank.now pass.new }
    ensures shared { SharesBox (shape_of bank.now) b count (view pass.new).log }
{
    let _ = count;
    bank.read_box(pass, b, word)
}

/// The maker begins a merge: it takes its count out of the local word.
fn begin_merge(bank: &Bank, pass: &mut Pass, b: Ref, count: u64)
    requires pass { IsPassOf bank.now pass.old }
    requires own { OwnsBox (shape_of bank.now) b count 0 (view pass.old).log }
    ensures pass { IsPassOf bank.now pass.new }
    ensures own { OwnsBox (shape_of bank.now) b 0 count (view pass.new).log }
{
    let _ = count;
    bank.clear_local(pass, b);
}

/// The maker ends the merge: it adds what it took out to the shared word. That word as it was.
fn end_merge(bank: &Bank, pass: &mut Pass, b: Ref, count: u64) -> u64
    requires pass { IsPassOf bank.now pass.old }
    requires own { OwnsBox (shape_of bank.now) b 0 count (view pass.old).log }
    requires few { count < 2 ^ 20 }
    ensures { IsPassOf bank.now pass.new }
{
    bank.merge_counts(pass, b, count)
}

/// A pass that shares the box raises the shared count, where the word is this one. The word as it was.
fn raise_where(bank: &Bank, pass: &mut Pass, b: Ref, count: u64, old: u64) -> u64
    requires pass { IsPassOf bank.now pass.old }
    requires shared { SharesBox (shape_of bank.now) b count (view pass.old).log }
    requires few { count < 2 ^ 20 }
    requires live { old ≢ 3 }
    ensures pass { IsPassOf bank.now pass.new }
    ensures raised { result ≡ old → SharesBox (shape_of bank.now) b (count + 1) (view pass.new).log }
    ensures left { result ≢ old → SharesBox (shape_of bank.now) b count (view pass.new).log }
{
    let _ = count;
    bank.raise_shared(pass, b, old)
}

/// A pass that shares the box drops a reference, and gives the place back where it was the last one. The word as it was.
fn drop_one(bank: &Bank, pass: &mut Pass, b: Ref, count: u64) -> u64
    requires pass { IsPassOf bank.now pass.old }
    requires shared { SharesBox (shape_of bank.now) b count (view pass.old).log }
    requires held { 0 < count }
    ensures pass { IsPassOf bank.now pass.new }
    ensures shared { SharesBox (shape_of bank.now) b (count - 1) (view pass.new).log }
{
    let _ = count;
    let found = bank.drop_shared(pass, b);
    if found == LAST {
        bank.give_place(pass, b);
    }
    found
}

/// The first pass stores a box in the one item of the list, where the second sees its name.
fn store_and_see(bank: &Bank, first: &mut Pass, second: &mut Pass) -> Result<Ref, Fail>
    requires list { HasOneList bank.now }
    requires may { IsCaller bank.now first.old × IsCaller bank.now second.old }
    ensures passes { OnOk result (IsPassOf bank.now first.new × IsPassOf bank.now second.new) }
    ensures own { IfOk result (λ b. OwnsBox (shape_of bank.now) b 1 0 (view first.new).log) }
    ensures shared { IfOk result (λ b. SharesBox (shape_of bank.now) b 0 (view second.new).log) }
{
    if !store_boxes(bank, first, 1) {
        return Err(Fail::from("the first heap is free"));
    }
    go_online(bank, second);
    let Some(b) = see_other(bank, second) else {
        return Err(Fail::from("item 0 has a box of the first pass"));
    };
    if !is_counted(bank, first, b, 1) {
        return Err(Fail::from("the list has the one reference, which its maker counted"));
    }
    Ok(b)
}

#[test]
fn a_merge_before_the_exchange_leaves_the_raise_undone(rt: HostRuntime) -> Result<(), Fail> {
    let Ready {
        bank,
        mut first,
        mut second,
        mut third,
        mut fourth,
    } = ready_bank(rt.alloc())?;
    let b = store_and_see(&bank, &mut first, &mut second)?;
    assert_eq!(rt; read_word(&bank, &mut second, b, 0, SHARED), 0);
    begin_merge(&bank, &mut first, b, 1);
    assert_eq!(rt; end_merge(&bank, &mut first, b, 1), 0);
    if raise_where(&bank, &mut second, b, 0, 0) != LAST {
        return Err(Fail::from("the box has been merged"));
    }
    assert_eq!(rt; read_word(&bank, &mut second, b, 0, SHARED), LAST);
    // A third pass drops the list's reference, which is the last one.
    if !overwrite(&bank, &mut third, 0) {
        return Err(Fail::from("nobody else calls"));
    }
    assert_eq!(rt; read_word(&bank, &mut second, b, 0, SHARED), DEAD);
    assert_eq!(rt; bank.read_free_places(&mut fourth, 0, 0), u64::MAX);
    Ok(())
}

#[test]
fn a_raise_within_a_merge_is_counted(rt: HostRuntime) -> Result<(), Fail> {
    let Ready {
        bank,
        mut first,
        mut second,
        mut third,
        mut fourth,
    } = ready_bank(rt.alloc())?;
    let b = store_and_see(&bank, &mut first, &mut second)?;
    assert_eq!(rt; read_word(&bank, &mut second, b, 0, LOCAL), 1);
    begin_merge(&bank, &mut first, b, 1);
    assert_eq!(rt; read_word(&bank, &mut second, b, 0, LOCAL), 0);
    if raise_where(&bank, &mut second, b, 0, 0) != 0 {
        return Err(Fail::from("nobody has changed the shared word"));
    }
    assert_eq!(rt; end_merge(&bank, &mut first, b, 1), 4);
    assert_eq!(rt; read_word(&bank, &mut second, b, 1, SHARED), 11);
    if !overwrite(&bank, &mut third, 0) {
        return Err(Fail::from("nobody else calls"));
    }
    assert_eq!(rt; read_word(&bank, &mut second, b, 1, SHARED), LAST);
    assert_eq!(rt; bank.read_free_places(&mut fourth, 0, 0), u64::MAX - 1);
    assert_eq!(rt; drop_one(&bank, &mut second, b, 1), LAST);
    assert_eq!(rt; read_word(&bank, &mut second, b, 0, SHARED), DEAD);
    assert_eq!(rt; bank.read_free_places(&mut fourth, 0, 0), u64::MAX);
    Ok(())
}

#[test]
fn a_shared_count_below_0_is_merged(rt: HostRuntime) -> Result<(), Fail> {
    let Ready {
        bank,
        mut first,
        mut second,
        third: _,
        mut fourth,
    } = ready_bank(rt.alloc())?;
    if !store_boxes(&bank, &mut first, 1) {
        return Err(Fail::from("the first heap is free"));
    }
    go_online(&bank, &mut second);
    let Some(b) = find_box(&bank, &mut second, 0) else {
        return Err(Fail::from("item 0 has a box"));
    };
    // The second pass drops the list's reference, which the first counts.
    if !overwrite(&bank, &mut second, 0) {
        return Err(Fail::from("nobody else calls"));
    }
    assert_eq!(rt; bank.read_box(&mut fourth, b, SHARED), u64::MAX - 3);
    assert_eq!(rt; bank.read_box(&mut fourth, b, LOCAL), 1);
    assert_eq!(rt; bank.read_free_places(&mut fourth, 0, 0), u64::MAX - 1);
    merge_idle(&bank, &mut first);
    assert_eq!(rt; bank.read_box(&mut fourth, b, SHARED), DEAD);
    assert_eq!(rt; bank.read_box(&mut fourth, b, LOCAL), 0);
    assert_eq!(rt; bank.read_free_places(&mut fourth, 0, 0), u64::MAX);
    Ok(())
}
