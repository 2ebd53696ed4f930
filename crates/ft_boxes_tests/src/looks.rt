//! Looks at an item without its lock leave the counts of the box that it has as they were: a look counts a reference of its
//! own, and drops it again.
ghost use Rattle.ft_boxes_tests.specs.Counters.{HasOneList, IsCounter};

use crate::banks::{Ready, ready_bank};
use crate::counting::{find_box, go_online};
use crate::storing::{clear, is_list, overwrite, store_boxes};
use ft_bank::{Bank, Pass};
use ft_list::look_get;
use ft_model::{Reply, Value};
use ft_section::{Look, Stamp};
use std::test::Fail;

/// Which words of a box the shared word and the local count are.
const SHARED: u64 = 0;

const LOCAL: u64 = 3;

/// Looks at item 0 of the list; `None` where the pass has no calls left.
fn look(bank: &Bank, pass: &mut Pass) -> Option<Look>
    requires list { HasOneList bank.now }
    requires counter { IsCounter bank.now pass.old }
{
    is_list(bank);
    if pass.left() == 0 {
        return None;
    }
    Some(look_get(bank, pass, 0, 0))
}

/// What a look answers after this many writes where the item has the integer.
fn answer(integer: i64, number: u64) -> Option<Look> {
    let stamp = Stamp {
        number,
        wrote: false,
    };
    Some(Look::Done(Reply::Value(Value::Int(integer)), stamp))
}

#[test]
fn a_look_of_another_pass_leaves_the_counts(rt: HostRuntime) -> Result<(), Fail> {
    let Ready {
        bank,
        mut first,
        mut second,
        third: _,
        mut fourth,
    } = ready_bank(rt.alloc())?;
    if !store_boxes(&bank, &mut first, 1) {
        return Err(Fail::from("the first heap is free"));
    }
    go_online(&bank, &mut fourth);
    let Some(b) = find_box(&bank, &mut fourth, 0) else {
        return Err(Fail::from("item 0 has a box"));
    };
    // The list has the one reference, which the maker counted.
    assert_eq!(rt; bank.read_box(&mut fourth, b, SHARED), 0);
    assert_eq!(rt; bank.read_box(&mut fourth, b, LOCAL), 1);
    go_online(&bank, &mut second);
    // The item was appended and then set.
    assert!(rt; look(&bank, &mut second) == answer(1000, 2));
    assert_eq!(rt; bank.read_box(&mut fourth, b, SHARED), 0);
    assert_eq!(rt; bank.read_box(&mut fourth, b, LOCAL), 1);
    assert_eq!(rt; bank.read_free_places(&mut fourth, 0, 0), u64::MAX - 1);
    assert!(rt; clear(&bank, &mut first));
    assert_eq!(rt; bank.read_free_places(&mut fourth, 0, 0), u64::MAX);
    Ok(())
}

#[test]
fn a_look_of_the_maker_leaves_the_counts(rt: HostRuntime) -> Result<(), Fail> {
    let Ready {
        bank,
        mut first,
        second: _,
        mut third,
        mut fourth,
    } = ready_bank(rt.alloc())?;
    if !store_boxes(&bank, &mut first, 1) {
        return Err(Fail::from("the first heap is free"));
    }
    go_online(&bank, &mut fourth);
    let Some(b) = find_box(&bank, &mut fourth, 0) else {
        return Err(Fail::from("item 0 has a box"));
    };
    assert_eq!(rt; bank.read_box(&mut fourth, b, SHARED), 0);
    assert_eq!(rt; bank.read_box(&mut fourth, b, LOCAL), 1);
    go_online(&bank, &mut first);
    assert!(rt; look(&bank, &mut first) == answer(1000, 2));
    assert_eq!(rt; bank.read_box(&mut fourth, b, SHARED), 0);
    assert_eq!(rt; bank.read_box(&mut fourth, b, LOCAL), 1);
    // Another pass drops the list's reference: the shared count is below 0 by one, and the box waits for its maker.
    assert!(rt; clear(&bank, &mut third));
    assert_eq!(rt; bank.read_box(&mut fourth, b, SHARED), u64::MAX - 3);
    assert_eq!(rt; bank.read_box(&mut fourth, b, LOCAL), 1);
    assert_eq!(rt; bank.read_free_places(&mut fourth, 0, 0), u64::MAX - 1);
    Ok(())
}

#[test]
fn a_look_sees_the_value_that_took_the_place_of_a_box(rt: HostRuntime) -> Result<(), Fail> {
    let Ready {
        bank,
        mut first,
        mut second,
        mut third,
        mut fourth,
    } = ready_bank(rt.alloc())?;
    if !store_boxes(&bank, &mut first, 1) {
        return Err(Fail::from("the first heap is free"));
    }
    go_online(&bank, &mut second);
    assert!(rt; look(&bank, &mut second) == answer(1000, 2));
    // No reference of the look is left, so that of the list was the last one.
    assert!(rt; overwrite(&bank, &mut first, 0));
    assert_eq!(rt; bank.read_free_places(&mut fourth, 0, 0), u64::MAX);
    go_online(&bank, &mut third);
    assert!(rt; look(&bank, &mut third) == answer(0, 3));
    Ok(())
}
