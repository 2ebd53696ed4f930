//! The measuring of calls on lists: in one thread, and in two threads at once, each on a list of its own. A call that
//! wasn't done counts for no round.
ghost use Rattle.std.specs.Prelude.{◌≡◌};
ghost use Rattle.ft_list.specs.ListWrites.{MayCallList};

use crate::bare_steps;
use crate::bare_steps::{Seen, seat_of, spread};
use crate::list_steps::{Lists, make_lists, retire_all, set_all};
use crate::times::{Time, time_of_one};
use atomic_table::Seat;
use ft_bank::{Bank, Pass};
use std::alloc::Global;
use std::thread::Threads;
use std::time::Clock;
use std::{io, thread};

/// The times of calls on lists.
#[derive(Clone, Copy, Debug)]
pub struct ListTimes {
    /// An item that is set.
    pub sets: Time,
    /// A table that a list takes for its first item and that is retired when the list is cleared.
    pub retirements: Time,
    /// An item that is set while another thread sets one of another list.
    pub in_two: Time,
}

/// Two threads set items, each of a list of its own. Answers how often that was done by the one that did it less.
fn set_in_two<R: Threads>(
    rt: &R,
    bank: &Bank,
    mut first: Pass,
    mut second: Pass,
    rounds: u32,
) -> u32
    requires first { MayCallList bank.now first 0 }
    requires second { MayCallList bank.now second 1 }
{
    let (ours, theirs) = thread::join(
        rt,
        move || -> u32
            requires { MayCallList bank.now first 0 }
        { set_all(bank, &mut first, 0, rounds) },
        move || -> u32
            requires { MayCallList bank.now second 1 }
        { set_all(bank, &mut second, 1, rounds) },
    );
    ours.min(theirs)
}

/// The bare steps of that.
fn set_bare_in_two<R: Threads>(
    rt: &R,
    words: &Seen,
    mut first: Seat<(), ()>,
    mut second: Seat<(), ()>,
    rounds: u32,
)
    requires first { first.table_id ≡ words.now.table_id }
    requires second { second.table_id ≡ words.now.table_id }
    requires words { words.now.table_id.words ≡ 256 }
{
    thread::join(
        rt,
        move || -> ()
            requires { (first.table_id ≡ words.now.table_id) × (words.now.table_id.words ≡ 256) }
        { bare_steps::set_all(words, &mut first, 64, rounds) },
        move || -> ()
            requires { (second.table_id ≡ words.now.table_id) × (words.now.table_id.words ≡ 256) }
        { bare_steps::set_all(words, &mut second, 128, rounds) },
    );
}

/// The times of all kinds of calls; nothing where memory ran out.
pub(crate) fn measure_lists<R: Clock + Threads>(
    rt: &R,
    alloc: Global,
    rounds: u32,
) -> io::Result<Option<ListTimes>> {
    let Some(made) = make_lists(alloc, rounds.saturating_mul(2))? else {
        return Ok(None);
    };
    let Lists {
        bank,
        mut first,
        second,
        mut third,
    } = made;
    let (table, mut seat) = spread(alloc)?;
    let words = &table.shared;
    let sets = Time {
        bank: time_of_one!(rt, set_all(&bank, &mut first, 0, rounds)),
        bare: time_of_one!(
            rt,
            bare_steps::set_all(words, &mut seat, 64, rounds),
            rounds
        ),
    };
    let retirements = Time {
        bank: time_of_one!(rt, retire_all(&bank, &mut third, 2, rounds)),
        bare: time_of_one!(rt, bare_steps::retire_all(words, &mut seat, rounds), rounds),
    };
    let other = seat_of(words);
    let in_two = Time {
        bank: time_of_one!(rt, set_in_two(rt, &bank, first, second, rounds)),
        bare: time_of_one!(rt, set_bare_in_two(rt, words, seat, other, rounds), rounds),
    };
    Ok(Some(ListTimes {
        sets,
        retirements,
        in_two,
    }))
}
