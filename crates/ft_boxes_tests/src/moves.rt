//! Boxes go with the items that name them, where items move and where the list gets another table: each keeps its one
//! reference, and its place is given back when its item is taken out.
ghost use Rattle.std.specs.Prelude.{IsTrue};
ghost use Rattle.ft_boxes_tests.specs.Counters.{HasOneList, IsCaller, IsCounter};

use crate::banks::{Ready, ready_bank};
use crate::counting::{find_box, go_online};
use crate::storing::{append, clear, is_list, made, store_boxes};
use ft_bank::{Bank, Pass};
use ft_list::{try_insert, try_pop, try_reverse};
use ft_model::{Reply, Value};
use std::test::Fail;

/// The bits of the first heap's places, 1 where a place is free: the first three are taken, or the first and the third.
const FIRST_THREE_TAKEN: u64 = u64::MAX - 7;

const TWO_TAKEN: u64 = u64::MAX - 5;

/// Inserts an integer before the first item of the list. Says whether that was done.
fn insert_first(bank: &Bank, pass: &mut Pass, integer: i64) -> bool
    requires list { HasOneList bank.now }
    requires may { IsCaller bank.now pass.old }
    ensures may { IsTrue result → IsCaller bank.now pass.new }
{
    is_list(bank);
    if pass.left() == 0 {
        return false;
    }
    match made(try_insert(bank, pass, 0, 0, Value::Int(integer))) {
        Some((Reply::Done, _)) => true,
        _ => false,
    }
}

/// Takes an item out of the list. Says whether it was this integer.
pub(crate) fn pop_is(bank: &Bank, pass: &mut Pass, index: i64, integer: i64) -> bool
    requires list { HasOneList bank.now }
    requires may { IsCaller bank.now pass.old }
    ensures may { IsTrue result → IsCaller bank.now pass.new }
{
    is_list(bank);
    if pass.left() == 0 {
        return false;
    }
    match made(try_pop(bank, pass, 0, Some(index))) {
        Some((Reply::Value(Value::Int(found)), _)) => found == integer,
        _ => false,
    }
}

/// Reverses the list. Says whether that was done.
fn reverse(bank: &Bank, pass: &mut Pass) -> bool
    requires list { HasOneList bank.now }
    requires may { IsCaller bank.now pass.old }
    ensures may { IsTrue result → IsCaller bank.now pass.new }
{
    is_list(bank);
    if pass.left() == 0 {
        return false;
    }
    match made(try_reverse(bank, pass, 0)) {
        Some((Reply::Done, _)) => true,
        _ => false,
    }
}

/// Appends small integers, that many. Says whether that was done.
fn append_small(bank: &Bank, pass: &mut Pass, count: u32) -> bool
    requires list { HasOneList bank.now }
    requires may { IsCaller bank.now pass.old }
    ensures may { IsTrue result → IsCaller bank.now pass.new }
{
    for _ in 0..count {
        if !append(bank, pass, 5) {
            return false;
        }
    }
    true
}

/// The place of the box that an item of the list names, in the heap of the first pass.
pub(crate) fn place_at(bank: &Bank, pass: &mut Pass, index: u32) -> Option<u32>
    requires list { HasOneList bank.now }
    requires counter { IsCounter bank.now pass.old }
    ensures counter { IsCounter bank.now pass.new }
{
    let b = find_box(bank, pass, index)?;
    if b.pass == 0 { Some(b.place) } else { None }
}

#[test]
fn boxes_move_with_their_items(rt: HostRuntime) -> Result<(), Fail> {
    let Ready {
        bank,
        mut first,
        mut second,
        third: _,
        mut fourth,
    } = ready_bank(rt.alloc())?;
    if !store_boxes(&bank, &mut first, 3) {
        return Err(Fail::from("the first heap is free"));
    }
    go_online(&bank, &mut second);
    assert_eq!(rt; place_at(&bank, &mut second, 0), Some(0));
    assert_eq!(rt; place_at(&bank, &mut second, 2), Some(2));
    // Each of the three goes one item up.
    if !insert_first(&bank, &mut first, 7) {
        return Err(Fail::from("the table has room"));
    }
    assert_eq!(rt; place_at(&bank, &mut second, 0), None);
    assert_eq!(rt; place_at(&bank, &mut second, 1), Some(0));
    assert_eq!(rt; place_at(&bank, &mut second, 3), Some(2));
    // With nine items the list gets a table for sixteen.
    if !append_small(&bank, &mut first, 5) {
        return Err(Fail::from("a greater table is free"));
    }
    assert_eq!(rt; place_at(&bank, &mut second, 1), Some(0));
    assert_eq!(rt; place_at(&bank, &mut second, 2), Some(1));
    assert_eq!(rt; place_at(&bank, &mut second, 3), Some(2));
    if !reverse(&bank, &mut first) {
        return Err(Fail::from("nobody else calls"));
    }
    assert_eq!(rt; place_at(&bank, &mut second, 5), Some(2));
    assert_eq!(rt; place_at(&bank, &mut second, 7), Some(0));
    assert_eq!(rt; bank.read_free_places(&mut fourth, 0, 0), FIRST_THREE_TAKEN);
    // The box of the item that is taken out dies; the one after it goes one item down.
    if !pop_is(&bank, &mut first, 6, 1001) {
        return Err(Fail::from("the item before the last but one is 1001"));
    }
    assert_eq!(rt; place_at(&bank, &mut second, 5), Some(2));
    assert_eq!(rt; place_at(&bank, &mut second, 6), Some(0));
    assert_eq!(rt; bank.read_free_places(&mut fourth, 0, 0), TWO_TAKEN);
    if !clear(&bank, &mut first) {
        return Err(Fail::from("nobody else calls"));
    }
    assert_eq!(rt; bank.read_free_places(&mut fourth, 0, 0), u64::MAX);
    Ok(())
}
