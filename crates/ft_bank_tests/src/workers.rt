//! A thread's work on a bank: it writes a list that has nothing, takes a table and gives it back, over and over.
ghost use Rattle.std.specs.Prelude.{◌≡◌, ◌+◌, ◌*◌, ◌^◌, ◌<◌, ◌≤◌, length};
ghost use Rattle.ft_bank.specs.Closings.{HasWholeHistory, entries_in};
ghost use Rattle.ft_bank.specs.Passes.{shape_of, view};
ghost use Rattle.ft_bank_tests.specs.Working.{HasWorkOf, IsListIn, IsPair, IsWorker, Worked, write_count, calls_left, parts_of};

use crate::writes::reverse_bare;
use ft_bank::{Bank, Closed, Pass, Took};
use std::thread;
use std::thread::Threads;

/// What rounds of work came to.
#[derive(Clone, Copy, Debug, PartialEq, Eq)]
pub struct Tally {
    /// How many writes were made.
    pub writes: u64,
    /// The sum of their numbers, as far as 64 bits hold it.
    pub numbers: u64,
    /// How many tables were taken.
    pub tables: u64,
}

impl Tally {
    /// Nothing was done.
    const NONE: Tally = Tally {
        writes: 0,
        numbers: 0,
        tables: 0,
    };

    /// The work of two threads.
    fn and(self, other: Tally) -> Tally
        requires { self.writes + other.writes < 2 ^ 64 }
        ensures { result.writes ≡ self.writes + other.writes }
    {
        Tally {
            writes: self.writes + other.writes,
            numbers: self.numbers.wrapping_add(other.numbers),
            tables: self.tables.wrapping_add(other.tables),
        }
    }
}

/// Tries to take the lock of a list and reverses the list where it has nothing. Answers the number of the write;
/// nothing where the lock was taken or the list has a table.
pub fn write_once(bank: &Bank, pass: &mut Pass, l: u32) -> Option<u64>
    requires worker { IsWorker bank.now pass.old }
    requires list { IsListIn (shape_of bank.now) l }
    requires left { 0 < (view pass.old).left }
    ensures worker { IsWorker bank.now pass.new }
    ensures worked { Worked (write_count result) (view pass.old) (view pass.new) }
{
    let Ok(()) = bank.try_lock(pass, l) else {
        return None;
    };
    let number = reverse_bare(bank, pass, l);
    bank.unlock(pass, l);
    number
}

/// Tries to take a table of the least class, and gives it back. Says whether there was one.
pub fn take_once(bank: &Bank, pass: &mut Pass) -> bool
    requires worker { IsWorker bank.now pass.old }
    ensures worker { IsWorker bank.now pass.new }
    ensures worked { Worked 0 (view pass.old) (view pass.new) }
{
    match bank.take_table(pass, 3) {
        Took::Taken(table) => {
            bank.give_table(pass, table);
            true
        }
        Took::AllTaken => false,
        Took::Moved(_, _) => false,
    }
}

/// That many rounds, in each of which the list is written, where its lock is free, and a table is taken.
pub fn work(bank: &Bank, pass: &mut Pass, l: u32, rounds: u32) -> Tally
    requires worker { IsWorker bank.now pass.old }
    requires list { IsListIn (shape_of bank.now) l }
    requires left { rounds ≤ (view pass.old).left }
    ensures worker { IsWorker bank.now pass.new }
    ensures worked { Worked result.writes (view pass.old) (view pass.new) }
    ensures few { result.writes ≤ rounds }
{
    let mut tally = Tally::NONE;
    for _ in 0..rounds {
        if let Some(number) = write_once(bank, pass, l) {
            tally.writes += 1;
            tally.numbers = tally.numbers.wrapping_add(number);
        }
        if take_once(bank, pass) {
            tally.tables = tally.tables.wrapping_add(1);
        }
    }
    tally
}

/// The same for a pass of the caller's own, which it gets back.
fn work_with(bank: &Bank, mut pass: Pass, l: u32, rounds: u32) -> (Pass, Tally)
    requires worker { IsWorker bank.now pass }
    requires list { IsListIn (shape_of bank.now) l }
    requires left { rounds ≤ (view pass).left }
    ensures worker { IsWorker bank.now result.0 }
    ensures worked { Worked result.1.writes (view pass) (view result.0) }
    ensures few { result.1.writes ≤ rounds }
{
    let tally = work(bank, &mut pass, l, rounds);
    (pass, tally)
}

/// Two passes work in a thread each, and the second is joined in the first.
pub fn work_in_two<R: Threads>(
    rt: &R,
    bank: &Bank,
    first: Pass,
    second: Pass,
    l: u32,
    rounds: u32,
) -> (Pass, Tally)
    requires workers { IsWorker bank.now first × IsWorker bank.now second }
    requires list { IsListIn (shape_of bank.now) l }
    requires left { (rounds ≤ (view first).left) × (rounds ≤ (view second).left) }
    requires last { (view second).next ≡ 0 }
    ensures worker { IsWorker bank.now result.0 }
    ensures next { (view result.0).next ≡ (view first).next }
    ensures parts { (view result.0).parts ≡ (view first).parts + (view second).parts }
    ensures left { (view result.0).left + result.1.writes ≡ (view first).left + (view second).left }
    ensures few { result.1.writes ≤ 2 * rounds }
{
    let ((mut first, ours), (second, theirs)) = thread::join(
        rt,
        move || -> (Pass, Tally)
            requires { IsWorker bank.now first × IsListIn (shape_of bank.now) l × (rounds ≤ (view first).left) }
            ensures { IsWorker bank.entry.now result.0 × Worked result.1.writes (view first) (view result.0)
                × (result.1.writes ≤ rounds) }
        { work_with(bank, first, l, rounds) },
        move || -> (Pass, Tally)
            requires { IsWorker bank.now second × IsListIn (shape_of bank.now) l × (rounds ≤ (view second).left) }
            ensures { IsWorker bank.entry.now result.0 × Worked result.1.writes (view second) (view result.0)
                × (result.1.writes ≤ rounds) }
        { work_with(bank, second, l, rounds) },
    );
    bank.join(&mut first, second);
    (first, ours.and(theirs))
}

/// Four passes work in a thread each, and all are joined in the first.
pub fn work_in_four<R: Threads + Sync>(
    rt: &R,
    bank: &Bank,
    one: (Pass, Pass),
    other: (Pass, Pass),
    l: u32,
    rounds: u32,
) -> (Pass, Tally)
    requires ones { IsPair bank.now rounds one }
    requires others { IsPair bank.now rounds other }
    requires list { IsListIn (shape_of bank.now) l }
    requires last { (view other.0).next ≡ 0 }
    ensures worker { IsWorker bank.now result.0 }
    ensures parts { (view result.0).parts ≡ parts_of one + parts_of other }
    ensures left { (view result.0).left + result.1.writes ≡ calls_left one + calls_left other }
    ensures few { result.1.writes ≤ 4 * rounds }
{
    let ((mut first, ours), (second, theirs)) = thread::join(
        rt,
        move || -> (Pass, Tally)
            requires { IsPair bank.now rounds one × IsListIn (shape_of bank.now) l }
            ensures { IsWorker bank.entry.now result.0 × HasWorkOf one rounds result.0 result.1.writes }
        { work_in_two(rt, bank, one.0, one.1, l, rounds) },
        move || -> (Pass, Tally)
            requires { IsPair bank.now rounds other × IsListIn (shape_of bank.now) l }
            ensures { IsWorker bank.entry.now result.0 × HasWorkOf other rounds result.0 result.1.writes }
        { work_in_two(rt, bank, other.0, other.1, l, rounds) },
    );
    bank.join(&mut first, second);
    (first, ours.and(theirs))
}

/// Closes the bank after that many calls of all passes: the closed bank has one entry for each of them, and no other.
pub fn close_counted(bank: Bank, pass: Pass, made: u64) -> Closed
    requires worker { IsWorker bank pass }
    requires all { (view pass).parts ≡ (shape_of bank).passes }
    requires left { (view pass).left + made ≡ (shape_of bank).passes * (shape_of bank).calls }
    ensures count { length (entries_in result) ≡ made }
    ensures whole { HasWholeHistory result }
{
    let closed = bank.close(pass);
    closed.entries_are_whole();
    closed
}
