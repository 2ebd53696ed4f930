//! Four passes in a thread each raise and drop the boxes of ten items of a list, over and over.
ghost use Rattle.std.specs.Prelude.{◌≡◌};
ghost use Rattle.ft_bank.specs.Passes.{shape_of};
ghost use Rattle.ft_boxes_tests.specs.Counters.{AreCounters, HasOneList, IsCaller, IsCounter};

use crate::banks::{Ready, ready_bank};
use crate::counting::{find_box, go_online};
use crate::storing::{FIRST, clear, store_boxes};
use ft_bank::{Bank, Pass};
use ft_boxes::{Raised, raise, release, value};
use ft_model::Value;
use std::test::Fail;
use std::thread;
use std::thread::Threads;

/// How many boxes there are, and how often each pass raises each one and drops it.
const BOXES: u32 = 10;

const ROUNDS: usize = 2_500;

/// How many visits raised the box and found what they should, and how many found what they shouldn't.
#[derive(Clone, Copy)]
struct Tally {
    raised: u32,
    wrong: u32,
}

impl Tally {
    /// No visit.
    const NONE: Tally = Tally {
        raised: 0,
        wrong: 0,
    };

    /// These and others.
    fn with(self, other: Tally) -> Tally {
        Tally {
            raised: self.raised.saturating_add(other.raised),
            wrong: self.wrong.saturating_add(other.wrong),
        }
    }

    /// One visit that raised the box, or found it dead.
    fn of_visit(right: bool) -> Tally {
        Tally {
            raised: u32::from(right),
            wrong: u32::from(!right),
        }
    }
}

/// Sees the box of an item anew, raises it and drops it again. A raised box has the item's value.
fn visit(bank: &Bank, pass: &mut Pass, index: u32) -> Tally
    requires list { HasOneList bank.now }
    requires counter { IsCounter bank.now pass.old }
    ensures counter { IsCounter bank.now pass.new }
{
    let Some(b) = find_box(bank, pass, index) else {
        // Another pass wrote the item in between.
        return Tally::NONE;
    };
    match raise(bank, pass, b) {
        Raised::Up(held) => {
            let found = value(bank, pass, &held);
            release(bank, pass, held);
            Tally::of_visit(found == Value::Int(FIRST + i64::from(index)))
        }
        Raised::Dead => Tally::of_visit(false),
        // Another pass changed the count in between.
        Raised::Moved(_, _) => Tally::NONE,
    }
}

/// Visits each box once.
fn visit_each(bank: &Bank, pass: &mut Pass) -> Tally
    requires list { HasOneList bank.now }
    requires counter { IsCounter bank.now pass.old }
    ensures counter { IsCounter bank.now pass.new }
{
    let mut tally = Tally::NONE;
    for index in 0..BOXES {
        tally = tally.with(visit(bank, pass, index));
    }
    tally
}

/// So many rounds of that, by a pass which the caller gets back.
fn work(bank: &Bank, mut pass: Pass, rounds: usize) -> (Pass, Tally)
    requires list { HasOneList bank.now }
    requires counter { IsCounter bank.now pass }
    ensures { IsCounter bank.now result.0 }
{
    let mut tally = Tally::NONE;
    for _ in 0..rounds {
        tally = tally.with(visit_each(bank, &mut pass));
    }
    (pass, tally)
}

/// What the first of two passes found, and whatever the other found wrong.
fn with_wrong(ours: Tally, theirs: Tally) -> Tally {
    Tally {
        raised: ours.raised,
        wrong: ours.wrong.saturating_add(theirs.wrong),
    }
}

/// Two passes work in a thread each. The first comes back, with its tally and what the other found wrong.
fn work_in_two<R: Threads>(rt: &R, bank: &Bank, pair: (Pass, Pass), rounds: usize) -> (Pass, Tally)
    requires list { HasOneList bank.now }
    requires counters { AreCounters bank.now pair }
    ensures { IsCounter bank.now result.0 }
{
    let (first, second) = pair;
    let ((first, ours), (_second, theirs)) = thread::join(
        rt,
        move || -> (Pass, Tally)
            requires { HasOneList bank.now × IsCounter bank.now first }
            ensures { IsCounter bank.entry.now result.0 }
        { work(bank, first, rounds) },
        move || -> (Pass, Tally)
            requires { HasOneList bank.now × IsCounter bank.now second }
            ensures { IsCounter bank.entry.now result.0 }
        { work(bank, second, rounds) },
    );
    (first, with_wrong(ours, theirs))
}

/// Four passes work in a thread each. The first comes back, with its tally and what the others found wrong.
fn work_in_four<R: Threads + Sync>(
    rt: &R,
    bank: &Bank,
    one: (Pass, Pass),
    other: (Pass, Pass),
    rounds: usize,
) -> (Pass, Tally)
    requires list { HasOneList bank.now }
    requires ones { AreCounters bank.now one }
    requires others { AreCounters bank.now other }
    ensures { IsCounter bank.now result.0 }
{
    let ((first, ours), (_third, theirs)) = thread::join(
        rt,
        move || -> (Pass, Tally)
            requires { HasOneList bank.now × AreCounters bank.now one }
            ensures { IsCounter bank.entry.now result.0 }
        { work_in_two(rt, bank, one, rounds) },
        move || -> (Pass, Tally)
            requires { HasOneList bank.now × AreCounters bank.now other }
            ensures { IsCounter bank.entry.now result.0 }
        { work_in_two(rt, bank, other, rounds) },
    );
    (first, with_wrong(ours, theirs))
}

/// The bits of the first pass's heap, of which one is set for each free place.
fn free_places(bank: &Bank, pass: &mut Pass) -> u64
    requires places { ((shape_of bank.now).passes ≡ 4) × ((shape_of bank.now).heap ≡ 64) }
    requires may { IsCaller bank.now pass.old }
    ensures may { IsCaller bank.now pass.new }
{
    bank.read_free_places(pass, 0, 0)
}

#[test]
fn ten_boxes_are_counted_by_four_passes(rt: HostRuntime) -> Result<(), Fail> {
    let Ready {
        bank,
        mut first,
        mut second,
        mut third,
        mut fourth,
    } = ready_bank(rt.alloc())?;
    if !store_boxes(&bank, &mut first, BOXES) {
        return Err(Fail::from("the first heap has 64 places"));
    }
    go_online(&bank, &mut first);
    go_online(&bank, &mut second);
    go_online(&bank, &mut third);
    go_online(&bank, &mut fourth);
    let (mut first, tally) = work_in_four(&rt, &bank, (first, second), (third, fourth), ROUNDS);
    assert_eq!(rt; tally.wrong, 0);
    // Its maker counts each box alone, and nobody writes the list meanwhile.
    assert_eq!(rt; tally.raised, 25_000);
    // The list has each box still.
    assert_eq!(rt; free_places(&bank, &mut first), u64::MAX - 1023);
    if !clear(&bank, &mut first) {
        return Err(Fail::from("nobody else calls"));
    }
    assert_eq!(rt; free_places(&bank, &mut first), u64::MAX);
    Ok(())
}
