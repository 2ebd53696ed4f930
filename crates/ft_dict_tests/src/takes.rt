//! Calls that take keys out of a dict that is empty: which are writes, which raise a KeyError, and which stamps they
//! have.
use crate::open_three;
use ft_dict::{try_del, try_popd};
use ft_model::{Key, Raise, Reply, Value};
use ft_section::{Step, new_passes_are_ready};
use std::test::Fail;

/// What a call that was done replied, the number of its stamp, and whether it wrote.
fn done(step: Step) -> Result<(Reply, u64, bool), Fail> {
    let Step::Done(reply, stamp) = step else {
        return Err(Fail::from("nobody has the lock"));
    };
    Ok((reply, stamp.number, stamp.wrote))
}

#[test]
fn nothing_is_taken_out_of_an_empty_dict(rt: HostRuntime) -> Result<(), Fail> {
    let (bank, mut first, mut second, mut third) = open_three(rt.alloc())?;
    new_passes_are_ready(&bank, &first);
    new_passes_are_ready(&bank, &second);
    new_passes_are_ready(&bank, &third);
    let deleted = done(try_del(&bank, &mut first, 0, Key::Int(7)))?;
    assert_eq!(rt; deleted, (Reply::Raised(Raise::NoKey), 0, false));
    let popped = done(try_popd(&bank, &mut second, 0, Key::Int(7), Value::Int(5)))?;
    assert_eq!(rt; popped, (Reply::Value(Value::Int(5)), 0, true));
    let popped = done(try_popd(&bank, &mut third, 0, Key::Int(-1), Value::Nothing))?;
    assert_eq!(rt; popped, (Reply::Value(Value::Nothing), 1, true));
    assert_eq!(rt; third.left(), 9);
    Ok(())
}
