//! Calls that take elements out of a set that is empty: which are writes, which stamps they have, and one that waits.
use ft_dict_tests::open_three;
use ft_model::{Key, Reply};
use ft_section::{Step, new_passes_are_ready};
use ft_set::{try_discard, try_remove};
use std::test::Fail;

#[test]
fn nothing_is_taken_out_of_an_empty_set(rt: HostRuntime) -> Result<(), Fail> {
    let alloc = rt.alloc();
    let (bank, mut first, mut second, mut third) = open_three(alloc)?;
    new_passes_are_ready(&bank, &first);
    new_passes_are_ready(&bank, &second);
    let Step::Done(reply, stamp) = try_discard(&bank, &mut first, 1, Key::Int(7)) else {
        return Err(Fail::from("nobody has the lock"));
    };
    assert_eq!(rt; reply, Reply::Done);
    assert_eq!(rt; stamp.number, 0);
    assert_eq!(rt; stamp.wrote, true);
    let Ok(()) = bank.try_lock(&mut third, 1) else {
        return Err(Fail::from("the lock is free"));
    };
    let Step::NotYet(container, owner) = try_remove(&bank, &mut second, 1, Key::Int(7)) else {
        return Err(Fail::from("the third pass has the lock"));
    };
    assert_eq!(rt; container, 1);
    assert_eq!(rt; owner, 2);
    assert_eq!(rt; second.left(), 10);
    Ok(())
}
