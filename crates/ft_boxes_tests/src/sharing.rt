//! A list that is extended by itself: each box has two references then, and its place is given back when both items are
//! taken out.
ghost use Rattle.std.specs.Prelude.{IsTrue};
ghost use Rattle.ft_boxes_tests.specs.Counters.{HasOneList, IsCaller};

use crate::banks::{Ready, ready_bank};
use crate::counting::go_online;
use crate::moves::{place_at, pop_is};
use crate::storing::{clear, is_list, made, store_boxes};
use ft_bank::{Bank, Pass};
use ft_list::try_extend;
use ft_model::Reply;
use std::test::Fail;

/// The bits of the first heap's places, 1 where a place is free: the first three are taken, or the second and the third.
const FIRST_THREE_TAKEN: u64 = u64::MAX - 7;

const LAST_TWO_TAKEN: u64 = u64::MAX - 6;

/// Extends the list by itself. Says whether that was done.
fn double(bank: &Bank, pass: &mut Pass) -> bool
    requires list { HasOneList bank.now }
    requires may { IsCaller bank.now pass.old }
    ensures may { IsTrue result → IsCaller bank.now pass.new }
{
    is_list(bank);
    if pass.left() == 0 {
        return false;
    }
    match made(try_extend(bank, pass, 0, 0)) {
        Some((Reply::Done, _)) => true,
        _ => false,
    }
}

#[test]
fn added_items_share_their_boxes(rt: HostRuntime) -> Result<(), Fail> {
    let Ready {
        bank,
        mut first,
        mut second,
        third: _,
        mut fourth,
    } = ready_bank(rt.alloc())?;
    if !store_boxes(&bank, &mut first, 3) {
        return Err(Fail::from("the first heap is free"));
    }
    go_online(&bank, &mut second);
    if !double(&bank, &mut first) {
        return Err(Fail::from("a table for six items is free"));
    }
    assert_eq!(rt; place_at(&bank, &mut second, 0), Some(0));
    assert_eq!(rt; place_at(&bank, &mut second, 3), Some(0));
    assert_eq!(rt; place_at(&bank, &mut second, 5), Some(2));
    assert_eq!(rt; bank.read_free_places(&mut fourth, 0, 0), FIRST_THREE_TAKEN);
    // One of the two items that name the first box is taken out, and then the other one.
    if !pop_is(&bank, &mut first, 0, 1000) {
        return Err(Fail::from("item 0 is 1000"));
    }
    assert_eq!(rt; place_at(&bank, &mut second, 2), Some(0));
    assert_eq!(rt; bank.read_free_places(&mut fourth, 0, 0), FIRST_THREE_TAKEN);
    if !pop_is(&bank, &mut first, 2, 1000) {
        return Err(Fail::from("item 2 is 1000"));
    }
    assert_eq!(rt; bank.read_free_places(&mut fourth, 0, 0), LAST_TWO_TAKEN);
    if !clear(&bank, &mut first) {
        return Err(Fail::from("nobody else calls"));
    }
    assert_eq!(rt; bank.read_free_places(&mut fourth, 0, 0), u64::MAX);
    Ok(())
}
