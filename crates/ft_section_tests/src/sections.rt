//! Two passes and two lists: sections that are kept, suspended, nested and given up, worked by hand from the C API's
//! rule that a section lets its locks go while a call in it waits.
use crate::moves::{enter, leave, ready_two, wait};
use crate::steps::{begin, finish, take_up};
use ft_section::{Began, Ended, Got, Objects, Resumed, depth, drop_all, let_go, take_for};
use std::test::Fail;

#[test]
fn a_section_is_suspended_while_its_call_waits(rt: HostRuntime) -> Result<(), Fail> {
    let (bank, mut first, mut second) = ready_two(rt.alloc())?;
    // Pass 1 has list 0, and pass 0 list 1.
    enter(&bank, &mut second, Objects::One(0), "list 0 is free")?;
    enter(&bank, &mut first, Objects::One(1), "list 1 is free")?;
    // Pass 0 waits for list 0, and lets list 1 go meanwhile.
    wait(&bank, &mut first, 0, 1, "pass 1 has list 0")?;
    let Got::Have = take_for(&bank, &mut second, Objects::One(1)) else {
        return Err(Fail::from("list 1 is free"));
    };
    let_go(&bank, &mut second);
    let Resumed::Back(None) = take_up(&bank, &mut second) else {
        return Err(Fail::from("pass 1 has list 0 still"));
    };
    let Ended::Kept(_) = finish(&bank, &mut second) else {
        return Err(Fail::from("no call of pass 1 waited"));
    };
    // Its section on list 1 was suspended, and the one on list 0 was not.
    let Began::Entered(_) = begin(&bank, &mut first, Objects::One(0)) else {
        return Err(Fail::from("list 0 is free again"));
    };
    assert_eq!(rt; depth(&first), 2);
    let Resumed::Back(Some(1)) = take_up(&bank, &mut first) else {
        return Err(Fail::from("the begin waited for pass 1"));
    };
    leave(&bank, &mut first, "no call waited inside")?;
    let Ended::Suspended(1, stamp) = finish(&bank, &mut first) else {
        return Err(Fail::from("one call waited inside"));
    };
    assert_eq!(rt; stamp.number, 0);
    assert!(rt; !stamp.wrote);
    assert_eq!(rt; first.left(), 6);
    assert_eq!(rt; second.left(), 8);
    Ok(())
}

#[test]
fn nested_sections_are_kept(rt: HostRuntime) -> Result<(), Fail> {
    let (bank, mut first, mut second) = ready_two(rt.alloc())?;
    enter(&bank, &mut first, Objects::Two(1, 0), "both lists are free")?;
    // The same containers once more, and one of them alone.
    enter(&bank, &mut first, Objects::Two(0, 1), "the pass has both")?;
    wait(&bank, &mut second, 1, 0, "pass 0 has list 1")?;
    leave(&bank, &mut first, "no call waited")?;
    // The locks are the outer section's, so they are not let go by the inner one's end.
    wait(&bank, &mut second, 1, 0, "pass 0 has list 1 still")?;
    let Ended::Kept(_) = finish(&bank, &mut first) else {
        return Err(Fail::from("no call waited"));
    };
    let Began::Entered(_) = begin(&bank, &mut second, Objects::One(1)) else {
        return Err(Fail::from("list 1 is free"));
    };
    let Resumed::Back(Some(0)) = take_up(&bank, &mut second) else {
        return Err(Fail::from("the begin waited for pass 0"));
    };
    assert_eq!(rt; depth(&first), 0);
    assert_eq!(rt; depth(&second), 1);
    Ok(())
}

#[test]
fn a_pass_gives_up_its_sections(rt: HostRuntime) -> Result<(), Fail> {
    let (bank, mut first, mut second) = ready_two(rt.alloc())?;
    enter(&bank, &mut first, Objects::One(1), "list 1 is free")?;
    enter(&bank, &mut first, Objects::One(0), "list 0 is free")?;
    drop_all(&bank, &mut first);
    assert_eq!(rt; depth(&first), 0);
    let Began::Entered(_) = begin(&bank, &mut second, Objects::Two(0, 1)) else {
        return Err(Fail::from("both lists are free"));
    };
    // A pass that is let go itself keeps its locks for good.
    drop(second);
    wait(&bank, &mut first, 0, 1, "pass 1 has list 0 for good")?;
    Ok(())
}
