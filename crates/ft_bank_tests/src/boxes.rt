//! A box from its making to its end, which its maker alone counts: in the local count, and in the shared one once it has
//! merged the box (PEP 703, "Biased Reference Counting").
ghost use Rattle.std.specs.Prelude.{◌≡◌, ◌≢◌, ◌+◌, ◌-◌, ◌<◌, ◌^◌, true};
ghost use Rattle.ft_bank.specs.NewPasses.{IsOpening};
ghost use Rattle.ft_bank.specs.Passes.{shape_of, view, IsPassOf};
ghost use Rattle.ft_bank_tests.specs.OneBox.{HasBox, HasPlace, SharesBox};

use crate::bank_of_two;
use crate::steps::small;
use ft_bank::{Bank, Pass};
use ft_layout::Ref;
use std::alloc::Global;
use std::test::Fail;

/// The shared count, the kind, the payload and the local count: which words of a box they are.
const SHARED: u64 = 0;

const KIND: u64 = 1;

const PAYLOAD: u64 = 2;

const LOCAL: u64 = 3;
/// The kind of a string.
const STRING: u64 = 3;
/// What the shared word of a merged box has for one reference, and where there is none: the box is dead.
const LAST: u64 = 7;

const DEAD: u64 = 3;

/// Loads the bits of the first pass's heap.
fn free_places(bank: &Bank, pass: &mut Pass) -> u64
    requires pass { IsPassOf bank.now pass.old }
    requires heap { HasPlace (shape_of bank.now) }
    ensures pass { IsPassOf bank.now pass.new }
{
    bank.read_free_places(pass, 0, 0)
}

/// The first pass makes a box of a string at place 5 of its heap, all of which is free, and publishes it. Says
/// whether it did.
fn make_box(bank: &Bank, pass: &mut Pass, string: u32) -> bool
    requires opening { IsOpening bank.now 0 pass.old }
    requires heap { HasPlace (shape_of bank.now) }
    ensures pass { IsPassOf bank.now pass.new }
    ensures made { result ≡ true → HasBox (shape_of bank.now) 1 (view pass.new).log }
{
    let b = Ref { pass: 0, place: 5 };
    if bank.read_free_places(pass, 0, 0) != u64::MAX {
        return false;
    }
    bank.take_place(pass, b);
    bank.put_box(pass, b, KIND, STRING);
    bank.put_box(pass, b, PAYLOAD, u64::from(string));
    bank.put_box(pass, b, LOCAL, 1);
    bank.publish_box(pass, b);
    true
}

/// The maker counts one reference more, which others don't see. The local count that it found.
fn raise_own(bank: &Bank, pass: &mut Pass, count: u64) -> u64
    requires pass { IsPassOf bank.now pass.old }
    requires heap { HasPlace (shape_of bank.now) }
    requires own { HasBox (shape_of bank.now) count (view pass.old).log }
    requires few { count < 2 ^ 20 }
    ensures pass { IsPassOf bank.now pass.new }
    ensures own { HasBox (shape_of bank.now) (count + 1) (view pass.new).log }
    ensures count { result ≡ count }
{
    let b = Ref { pass: 0, place: 5 };
    let found = bank.read_box(pass, b, LOCAL);
    bank.raise_local(pass, b, found);
    found
}

/// The maker drops one of its references.
fn drop_own(bank: &Bank, pass: &mut Pass, count: u64)
    requires pass { IsPassOf bank.now pass.old }
    requires heap { HasPlace (shape_of bank.now) }
    requires own { HasBox (shape_of bank.now) count (view pass.old).log }
    requires held { 0 < count }
    ensures pass { IsPassOf bank.now pass.new }
    ensures own { HasBox (shape_of bank.now) (count - 1) (view pass.new).log }
{
    bank.drop_local(pass, Ref { pass: 0, place: 5 }, count);
}

/// The maker hands what it has counted over to the shared count. The shared word as it was.
fn merge_box(bank: &Bank, pass: &mut Pass, count: u64) -> u64
    requires pass { IsPassOf bank.now pass.old }
    requires heap { HasPlace (shape_of bank.now) }
    requires own { HasBox (shape_of bank.now) count (view pass.old).log }
    requires few { count < 2 ^ 20 }
    ensures pass { IsPassOf bank.now pass.new }
    ensures shared { SharesBox (shape_of bank.now) count (view pass.new).log }
{
    let b = Ref { pass: 0, place: 5 };
    bank.clear_local(pass, b);
    bank.merge_counts(pass, b, count)
}

/// Loads the shared word.
fn shared_word(bank: &Bank, pass: &mut Pass, count: u64) -> u64
    requires pass { IsPassOf bank.now pass.old }
    requires heap { HasPlace (shape_of bank.now) }
    requires shared { SharesBox (shape_of bank.now) count (view pass.old).log }
    ensures pass { IsPassOf bank.now pass.new }
    ensures shared { SharesBox (shape_of bank.now) count (view pass.new).log }
{
    let _ = count;
    bank.read_box(pass, Ref { pass: 0, place: 5 }, SHARED)
}

/// A pass that holds a reference counts one more. The shared word as it was.
fn raise_again(bank: &Bank, pass: &mut Pass, count: u64) -> u64
    requires pass { IsPassOf bank.now pass.old }
    requires heap { HasPlace (shape_of bank.now) }
    requires shared { SharesBox (shape_of bank.now) count (view pass.old).log }
    requires few { (0 < count) × (count < 2 ^ 20) }
    ensures pass { IsPassOf bank.now pass.new }
    ensures shared { SharesBox (shape_of bank.now) (count + 1) (view pass.new).log }
{
    let _ = count;
    bank.raise_kept(pass, Ref { pass: 0, place: 5 })
}

/// A pass drops a reference, and gives the box's place back where it was the last one. The shared word as it was.
fn drop_one(bank: &Bank, pass: &mut Pass, count: u64) -> u64
    requires pass { IsPassOf bank.now pass.old }
    requires heap { HasPlace (shape_of bank.now) }
    requires shared { SharesBox (shape_of bank.now) count (view pass.old).log }
    requires held { 0 < count }
    ensures pass { IsPassOf bank.now pass.new }
    ensures shared { SharesBox (shape_of bank.now) (count - 1) (view pass.new).log }
{
    let _ = count;
    let b = Ref { pass: 0, place: 5 };
    let found = bank.drop_shared(pass, b);
    if found == LAST {
        bank.give_place(pass, b);
    }
    found
}

#[test]
fn a_box_of_one_pass_comes_to_its_end(rt: HostRuntime) -> Result<(), Fail> {
    let alloc = rt.alloc();
    let (bank, mut first, _second) = bank_of_two(alloc, small(alloc)?)?;
    if !make_box(&bank, &mut first, 7) {
        return Err(Fail::from("the first heap is free"));
    }
    assert_eq!(rt; raise_own(&bank, &mut first, 1), 1);
    assert_eq!(rt; raise_own(&bank, &mut first, 2), 2);
    drop_own(&bank, &mut first, 3);
    assert_eq!(rt; merge_box(&bank, &mut first, 2), 0);
    assert_eq!(rt; shared_word(&bank, &mut first, 2), 11);
    assert_eq!(rt; drop_one(&bank, &mut first, 2), 11);
    assert_eq!(rt; free_places(&bank, &mut first), u64::MAX - 32);
    Ok(())
}

#[test]
fn the_last_drop_gives_the_place_back(rt: HostRuntime) -> Result<(), Fail> {
    let alloc = rt.alloc();
    let (bank, mut first, _second) = bank_of_two(alloc, small(alloc)?)?;
    if !make_box(&bank, &mut first, 7) {
        return Err(Fail::from("the first heap is free"));
    }
    assert_eq!(rt; merge_box(&bank, &mut first, 1), 0);
    assert_eq!(rt; raise_again(&bank, &mut first, 1), LAST);
    assert_eq!(rt; drop_one(&bank, &mut first, 2), 11);
    assert_eq!(rt; drop_one(&bank, &mut first, 1), LAST);
    assert_eq!(rt; shared_word(&bank, &mut first, 0), DEAD);
    assert_eq!(rt; free_places(&bank, &mut first), u64::MAX);
    Ok(())
}
