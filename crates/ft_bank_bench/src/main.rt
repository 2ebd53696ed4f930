//! Times steps of a bank, calls on lists and calls on boxes, each beside the bare steps of `atomic_table` that it stands
//! on, in one run. The one argument is a number of rounds; without it the program makes a few rounds and writes no time.
#![tactic(auto)]

mod bank_steps;
mod bare_steps;
mod box_steps;
mod box_times;
mod list_steps;
mod list_times;
mod times;

use crate::box_times::measure_boxes;
use crate::list_times::measure_lists;
use crate::times::{Time, measure};
use std::rt::Env;
use std::{env, io};

/// How many rounds are made where no number is given.
const QUICK: u32 = 100;

fn main(rt: HostRuntime) -> io::Result<()> {
    let rounds = given_rounds(&rt)?;
    let Some(times) = measure(&rt, rt.alloc(), rounds.unwrap_or(QUICK))? else {
        return println!(rt; "out of memory");
    };
    show(&rt, "load", times.loads, rounds)?;
    show(&rt, "lock, load and unlock", times.locks, rounds)?;
    show(&rt, "lock, write and unlock", times.writes, rounds)?;
    show(&rt, "take and give back", times.takings, rounds)?;
    let Some(times) = measure_lists(&rt, rt.alloc(), rounds.unwrap_or(QUICK))? else {
        return println!(rt; "out of memory");
    };
    show(&rt, "lock, set an item and unlock", times.sets, rounds)?;
    show(&rt, "take a table and retire it", times.retirements, rounds)?;
    show(&rt, "set items in two threads", times.in_two, rounds)?;
    let Some(times) = measure_boxes(&rt, rt.alloc(), rounds.unwrap_or(QUICK))? else {
        return println!(rt; "out of memory");
    };
    show(&rt, "make a box and drop it", times.makings, rounds)?;
    show(
        &rt,
        "raise a box of one's own and drop it",
        times.raises,
        rounds,
    )?;
    show(
        &rt,
        "raise another's box and drop it",
        times.shared_raises,
        rounds,
    )
}

/// The number of rounds that the command line names, if it names one.
fn given_rounds<R: Env + AllocGlobal>(rt: &R) -> io::Result<Option<u32>> {
    let words = env::args(rt)?.collect::<Vec<String>>(rt.alloc())?;
    let Some(word) = words.get(1) else {
        return Ok(None);
    };
    Ok(word.parse::<u32>().ok())
}

/// A line with the two times in nanoseconds and their ratio; where no number of rounds was given, the name alone.
fn show(rt: &impl Print, name: &str, time: Time, rounds: Option<u32>) -> io::Result<()> {
    if rounds.is_none() {
        return println!(rt; "{name}");
    }
    let ratio = time.bank.saturating_mul(100) / time.bare.max(1);
    let (bank, bank_part) = (time.bank / 100, time.bank % 100);
    let (bare, bare_part) = (time.bare / 100, time.bare % 100);
    let (whole, part) = (ratio / 100, ratio % 100);
    println!(rt;
        "{name}: {bank}.{bank_part:02} ns, bare {bare}.{bare_part:02} ns, ratio {whole}.{part:02}"
    )
}
