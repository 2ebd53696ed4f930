//! Boxes that a pass stores in the items of the one list of a bank: small integers fill the list first, which stand in
//! place, and each is set to an integer then that stands in a box.
ghost use Rattle.std.specs.Prelude.{◌≡◌, ◌<◌, IsTrue, IfSome};
ghost use Rattle.ft_model.specs.declared.script.Kind.TheVariants as kind;
ghost use Rattle.ft_bank.specs.Passes.{shape_of};
ghost use Rattle.ft_section.specs.declared.answers.Step.TheVariants as steps;
ghost use Rattle.ft_trace.specs.Addresses.{container_count};
ghost use Rattle.ft_trace.specs.ContainerStates.{kind_in};
ghost use Rattle.ft_boxes_tests.specs.Counters.{HasOneList, IsCaller, IsStoring};

use ft_bank::{Bank, Pass};
use ft_boxes::{Made, make};
use ft_list::{set_held, try_append, try_clear, try_set};
use ft_model::{Reply, Value};
use ft_section::{Got, Objects, Stamp, Step, let_go, take_for};

/// The integer in the box of item 0; that of each other item is greater by 1 than the one before.
pub const FIRST: i64 = 1000;

/// Container 0 is a list.
pub(crate) fn is_list(bank: &Bank)
    requires { HasOneList bank.now }
    ensures container { 0 < container_count (shape_of bank.now) }
    ensures list { kind_in (shape_of bank.now).starts 0 ≡ kind.List }
{
    let _ = bank;
}

/// The reply and the stamp of a call that was made under locks.
pub(crate) fn made(step: Step) -> Option<(Reply, Stamp)>
    ensures { IfSome result (λ made. step ≡ steps.Done made.0 made.1) }
{
    match step {
        Step::Done(reply, stamp) => Some((reply, stamp)),
        _ => None,
    }
}

/// Appends an integer to the list. Says whether that was done.
pub(crate) fn append(bank: &Bank, pass: &mut Pass, integer: i64) -> bool
    requires list { HasOneList bank.now }
    requires may { IsCaller bank.now pass.old }
    ensures may { IsTrue result → IsCaller bank.now pass.new }
{
    is_list(bank);
    if pass.left() == 0 {
        return false;
    }
    match made(try_append(bank, pass, 0, Value::Int(integer))) {
        Some((Reply::Done, _)) => true,
        _ => false,
    }
}

/// Gives the empty list the integers from 0, this many.
fn fill(bank: &Bank, pass: &mut Pass, count: u32) -> bool
    requires list { HasOneList bank.now }
    requires may { IsCaller bank.now pass.old }
    ensures may { IsTrue result → IsCaller bank.now pass.new }
{
    for index in 0..count {
        if !append(bank, pass, i64::from(index)) {
            return false;
        }
    }
    true
}

/// Sets an item of the list to an integer that is small, so that it stands in place: the list has no box there then. Says
/// whether that was done.
pub fn overwrite(bank: &Bank, pass: &mut Pass, index: u32) -> bool
    requires list { HasOneList bank.now }
    requires may { IsCaller bank.now pass.old }
    ensures may { IsTrue result → IsCaller bank.now pass.new }
{
    is_list(bank);
    if pass.left() == 0 {
        return false;
    }
    match made(try_set(bank, pass, 0, i64::from(index), Value::Int(0))) {
        Some((Reply::Done, _)) => true,
        _ => false,
    }
}

/// Clears the list. Says whether that was done.
pub fn clear(bank: &Bank, pass: &mut Pass) -> bool
    requires list { HasOneList bank.now }
    requires may { IsCaller bank.now pass.old }
    ensures may { IsTrue result → IsCaller bank.now pass.new }
{
    is_list(bank);
    if pass.left() == 0 {
        return false;
    }
    match made(try_clear(bank, pass, 0)) {
        Some((Reply::Done, _)) => true,
        _ => false,
    }
}

/// Sets an item of the list, whose lock the pass has, to an integer that it makes a box of. Says whether that was done.
fn store_at(bank: &Bank, pass: &mut Pass, index: u32) -> bool
    requires list { HasOneList bank.now }
    requires storing { IsStoring bank.now pass.old }
    ensures storing { IsStoring bank.now pass.new }
{
    is_list(bank);
    if pass.left() == 0 {
        return false;
    }
    let integer = FIRST + i64::from(index);
    match make(bank, pass, Value::Int(integer)) {
        Made::Up(held) => {
            let (reply, _) = set_held(bank, pass, 0, i64::from(index), Value::Int(integer), held);
            matches!(reply, Reply::Done)
        }
        Made::HeapFull => false,
    }
}

/// Stores a box in each of the first items of the list, under its lock, and lets the lock go. Says whether all were
/// stored.
fn store_each(bank: &Bank, pass: &mut Pass, count: u32) -> bool
    requires list { HasOneList bank.now }
    requires storing { IsStoring bank.now pass.old }
    ensures may { IsCaller bank.now pass.new }
{
    let mut all = true;
    for index in 0..count {
        if !store_at(bank, pass, index) {
            all = false;
        }
    }
    let_go(bank, pass);
    all
}

/// Takes the lock of the list. Says whether the pass has it.
fn take_list(bank: &Bank, pass: &mut Pass) -> bool
    requires list { HasOneList bank.now }
    requires may { IsCaller bank.now pass.old }
    ensures storing { IsTrue result → IsStoring bank.now pass.new }
{
    is_list(bank);
    matches!(take_for(bank, pass, Objects::One(0)), Got::Have)
}

/// Fills the empty list with this many boxes, which the pass makes. Says whether that was done.
pub fn store_boxes(bank: &Bank, pass: &mut Pass, count: u32) -> bool
    requires list { HasOneList bank.now }
    requires may { IsCaller bank.now pass.old }
    ensures may { IsTrue result → IsCaller bank.now pass.new }
{
    if !fill(bank, pass, count) || !take_list(bank, pass) {
        return false;
    }
    store_each(bank, pass, count)
}
