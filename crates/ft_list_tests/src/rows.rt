//! Tables of calls on the two lists of a bank, which are made one after the other.
ghost use Rattle.std.specs.Prelude.{◌≡◌, true, IfSome};
ghost use Rattle.ft_bank.specs.Passes.{IsPassOf};
ghost use Rattle.ft_list_tests.specs.TestCalls.{HasTwoLists, MayLook, MayTryAny};

use crate::banks::small_bank;
use crate::calls::{look_call, try_call};
use crate::python::{Python, call_of};
use ft_bank::{Bank, Pass};
use ft_boxes::new_passes_are_settled;
use ft_model::{ListCall, Raise, Reply, Value};
use ft_section::{Look, Stamp, new_passes_are_ready};
use std::alloc::Global;
use std::test::Fail;

/// What a call is to reply.
#[derive(Clone, Copy)]
pub(crate) enum Said {
    /// The call is done.
    Done,
    /// An integer.
    Int(i64),
    /// A number of items, or an index.
    Count(u64),
    /// Whether it is so.
    Truth(bool),
    /// A list of these integers.
    Items(&'static [i64]),
    /// An exception.
    Raised(Raise),
}

/// A row of a table: a call on list 0 or 1 of a bank, and what it is to answer.
#[derive(Clone, Copy)]
pub(crate) enum Row {
    /// This list, this call: a write that has nothing to show.
    Writes(u32, Python),
    /// So often, this list, this call: the same.
    Repeats(u32, u32, Python),
    /// This list is extended by itself so often.
    Doubles(u32, u32),
    /// This list, this call: a write that gives the integer which it takes out.
    Takes(u32, Python, i64),
    /// This list, this call, this reply: a call under locks that is no write.
    Reads(u32, Python, Said),
    /// This list, this call, this reply: a call without locks.
    Looks(u32, Python, Said),
    /// This list, this call: a call under locks that raises this exception.
    Raises(u32, Python, Raise),
}

/// The call of a row, and how it is made.
#[derive(Clone, Copy)]
struct Asked {
    /// How often the call is made.
    times: u32,
    /// 0 or 1.
    list: u32,
    /// Which call.
    call: ListCall,
    /// Is it made without locks, by another pass?
    looks: bool,
    /// Is it a write?
    wrote: bool,
    /// What it is to reply, each time.
    said: Said,
}

/// A call under locks, made once.
fn once(list: u32, python: Python, wrote: bool, said: Said) -> Asked {
    Asked {
        times: 1,
        list,
        call: call_of(python),
        looks: false,
        wrote,
        said,
    }
}

/// A write that has nothing to show, made so often.
fn repeated(times: u32, list: u32, python: Python) -> Asked {
    Asked {
        times,
        ..once(list, python, true, Said::Done)
    }
}

/// A call without locks.
fn looked(list: u32, python: Python, said: Said) -> Asked {
    Asked {
        looks: true,
        ..once(list, python, false, said)
    }
}

/// What a row asks for.
fn asked_by(row: Row) -> Asked {
    match row {
        Row::Writes(list, python) => once(list, python, true, Said::Done),
        Row::Repeats(times, list, python) => repeated(times, list, python),
        Row::Doubles(list, times) => repeated(times, list, Python::Extend(list)),
        Row::Takes(list, python, integer) => once(list, python, true, Said::Int(integer)),
        Row::Reads(list, python, said) => once(list, python, false, said),
        Row::Looks(list, python, said) => looked(list, python, said),
        Row::Raises(list, python, raise) => once(list, python, false, Said::Raised(raise)),
    }
}

/// Whether it is a list of these integers.
fn is_list_of(reply: &Reply, integers: &[i64]) -> bool {
    let Reply::List(values) = reply else {
        return false;
    };
    let values = values.as_slice();
    if values.len() != integers.len() {
        return false;
    }
    for place in 0..integers.len() {
        if values[place] != Value::Int(integers[place]) {
            return false;
        }
    }
    true
}

/// Whether a reply is as the row says.
fn is_said(reply: &Reply, said: Said) -> bool {
    match said {
        Said::Done => *reply == Reply::Done,
        Said::Int(integer) => *reply == Reply::Value(Value::Int(integer)),
        Said::Count(count) => *reply == Reply::Count(count),
        Said::Truth(truth) => *reply == Reply::Truth(truth),
        Said::Items(integers) => is_list_of(reply, integers),
        Said::Raised(raise) => *reply == Reply::Raised(raise),
    }
}

/// Whether a call is answered as the row says, with that many writes before it.
fn is_answer(reply: &Reply, stamp: Stamp, row: Asked, number: u64) -> bool {
    is_said(reply, row.said) && stamp.number == number && stamp.wrote == row.wrote
}

/// Makes the call of a row under its locks. Says whether it answers as the row says.
fn is_tried(bank: &Bank, pass: &mut Pass, alloc: Global, row: Asked, number: u64) -> bool
    requires lists { HasTwoLists bank.now }
    requires may { MayTryAny bank.now pass.old }
    ensures may { result ≡ true → MayTryAny bank.now pass.new }
{
    match try_call(bank, pass, alloc, row.list, row.call) {
        Some((reply, stamp)) => is_answer(&reply, stamp, row, number),
        None => false,
    }
}

/// Makes the call of a row without locks. Says whether it answers as the row says.
fn is_found(bank: &Bank, reader: &mut Pass, alloc: Global, row: Asked, number: u64) -> bool
    requires lists { HasTwoLists bank.now }
    requires pass { MayLook bank.now reader.old }
    ensures pass { MayLook bank.now reader.new }
{
    match look_call(bank, reader, alloc, row.list, row.call) {
        Some(Look::Done(reply, stamp)) => is_answer(&reply, stamp, row, number),
        _ => false,
    }
}

/// Makes the call of a row once. Says whether it answers as the row says.
fn is_made(
    bank: &Bank,
    pass: &mut Pass,
    reader: &mut Pass,
    alloc: Global,
    row: Asked,
    number: u64,
) -> bool
    requires lists { HasTwoLists bank.now }
    requires may { MayTryAny bank.now pass.old }
    requires reader { MayLook bank.now reader.old }
    ensures may { result ≡ true → MayTryAny bank.now pass.new }
    ensures reader { MayLook bank.now reader.new }
{
    if row.looks {
        is_found(bank, reader, alloc, row, number)
    } else {
        is_tried(bank, pass, alloc, row, number)
    }
}

/// Makes the call of a row as often as it says, with that many writes before it. Answers how many come before the next
/// row, or `None` where an answer is another than the row's.
fn made_all(
    bank: &Bank,
    pass: &mut Pass,
    reader: &mut Pass,
    alloc: Global,
    row: Asked,
    number: u64,
) -> Option<u64>
    requires lists { HasTwoLists bank.now }
    requires may { MayTryAny bank.now pass.old }
    requires reader { MayLook bank.now reader.old }
    ensures may { IfSome result (λ next. MayTryAny bank.now pass.new) }
    ensures reader { MayLook bank.now reader.new }
{
    let mut next = number;
    for _ in 0..row.times {
        if !is_made(bank, pass, reader, alloc, row, next) {
            return None;
        }
        next = next.saturating_add(u64::from(row.wrote));
    }
    Some(next)
}

/// Makes the calls of a table in order, up to the first that doesn't answer as its row says, and answers that row's
/// place.
fn first_of(
    bank: &Bank,
    pass: &mut Pass,
    reader: &mut Pass,
    alloc: Global,
    rows: &[Row],
) -> Option<usize>
    requires lists { HasTwoLists bank.now }
    requires may { MayTryAny bank.now pass.old }
    requires reader { MayLook bank.now reader.old }
{
    let mut number = 0;
    for place in 0..rows.len() {
        match made_all(bank, pass, reader, alloc, asked_by(rows[place]), number) {
            Some(next) => number = next,
            None => return Some(place),
        }
    }
    None
}

/// The place of the first row whose call doesn't answer as the row says, where the calls are made one after the other
/// in a new bank with one table of each class; `None` where each answers so.
pub(crate) fn first_wrong(alloc: Global, rows: &[Row]) -> Result<Option<usize>, Fail> {
    let (bank, mut pass, mut reader) = small_bank(alloc)?;
    new_passes_are_ready(&bank, &pass);
    new_passes_are_settled(&bank, &reader);
    Ok(first_of(&bank, &mut pass, &mut reader, alloc, rows))
}
