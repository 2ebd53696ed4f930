//! One bank with two containers and two passes, through steps that need no table: numbers, starts and
//! locks, worked by hand.
ghost use Rattle.std.specs.Prelude.{◌≡◌, [], ◌∷◌, IfOk, length};
ghost use Rattle.ft_model.specs.declared.script.Kind.TheVariants as kind;

use crate::{bank_of_two, small_shape};
use ft_bank::Shape;
use ft_model::Kind;
use std::alloc::Global;
use std::test::Fail;

/// A list and a dict, for two passes.
pub(crate) fn small(alloc: Global) -> Result<Shape, Fail>
    ensures sizes { IfOk result (λ s. (length s.kinds.items ≡ 2) × (s.passes ≡ 2) × (s.calls ≡ 10)) }
    ensures kinds { IfOk result (λ s. s.kinds.items ≡ kind.List ∷ kind.Dict ∷ []) }
    ensures heap { IfOk result (λ s. s.heap ≡ 64) }
{
    Ok(small_shape(alloc, vec![in alloc; Kind::List, Kind::Dict]?, 2, 10)?)
}

#[test]
fn the_lock_keeps_others_out(rt: HostRuntime) -> Result<(), Fail> {
    let alloc = rt.alloc();
    let (bank, mut first, mut second) = bank_of_two(alloc, small(alloc)?)?;
    assert_eq!(rt; first.number(), 0);
    assert_eq!(rt; second.number(), 1);
    assert_eq!(rt; first.left(), 10);
    assert_eq!(rt; bank.seq(&mut first, 1), 0);
    assert_eq!(rt; bank.read_block(&mut first, 1, 0), 0);
    let Ok(()) = bank.try_lock(&mut first, 1) else {
        return Err(Fail::from("the lock is free"));
    };
    let Err(other) = bank.try_lock(&mut second, 1) else {
        return Err(Fail::from("the first pass has the lock"));
    };
    assert_eq!(rt; other, 0);
    assert_eq!(rt; bank.start_write(&mut first, 1), 0);
    assert_eq!(rt; bank.seq(&mut second, 1), 1);
    assert_eq!(rt; bank.stamp(&mut second), 0);
    Ok(())
}

#[test]
fn the_last_pass_closes_the_bank(rt: HostRuntime) -> Result<(), Fail> {
    let alloc = rt.alloc();
    let (bank, mut first, second) = bank_of_two(alloc, small(alloc)?)?;
    bank.join(&mut first, second);
    assert_eq!(rt; first.left(), 20);
    let closed = bank.close(first);
    closed.entries_are_whole();
    Ok(())
}

#[test]
fn a_note_is_learnt(rt: HostRuntime) -> Result<(), Fail> {
    let alloc = rt.alloc();
    let (bank, mut first, mut second) = bank_of_two(alloc, small(alloc)?)?;
    let note = bank.note(&mut first);
    bank.learn(&mut second, note);
    assert_eq!(rt; bank.stamp(&mut second), 0);
    assert_eq!(rt; second.left(), 10);
    Ok(())
}

#[test]
fn one_caller_hands_the_floor_on(rt: HostRuntime) -> Result<(), Fail> {
    let alloc = rt.alloc();
    let (bank, mut first, second) = bank_of_two(alloc, small(alloc)?)?;
    let (waiting, tokens) = bank.rest(second);
    bank.gather(&mut first, tokens);
    bank.take_floor(&mut first);
    let Ok(()) = bank.try_lock(&mut first, 1) else {
        return Err(Fail::from("the lock is free"));
    };
    let (stopped, tokens) = bank.rest(first);
    let mut second = bank.wake(waiting, tokens);
    let Err(other) = bank.try_lock(&mut second, 1) else {
        return Err(Fail::from("the first pass has the lock"));
    };
    assert_eq!(rt; other, 0);
    let (waiting, tokens) = bank.rest(second);
    let mut first = bank.wake(stopped, tokens);
    bank.unlock(&mut first, 1);
    bank.join_resting(&mut first, waiting);
    assert_eq!(rt; first.left(), 20);
    Ok(())
}
