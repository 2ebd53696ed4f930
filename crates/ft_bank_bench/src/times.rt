//! The measuring: each kind of step on a bank of one pass, and then the bare steps, as often.

use crate::bank_steps::{Ready, load_all, lock_all, make_ready, take_all, write_all};
use crate::bare_steps;
use crate::bare_steps::zeros;
use std::alloc::Global;
use std::io;
use std::time::{Clock, Duration};

/// How long one round took, of the bank's steps and of the bare ones, in hundredths of a nanosecond.
#[derive(Clone, Copy, Debug)]
pub struct Time {
    /// On the bank.
    pub bank: u64,
    /// On a bare table.
    pub bare: u64,
}

/// The times of all kinds of steps.
#[derive(Clone, Copy, Debug)]
pub struct Times {
    /// A load.
    pub loads: Time,
    /// A lock that is taken and let go, with a load between.
    pub locks: Time,
    /// A whole write under a lock of its own.
    pub writes: Time,
    /// A table that is taken and given back.
    pub takings: Time,
}

/// The time of one of that many rounds, in hundredths of a nanosecond.
pub(crate) fn of_one(all: Duration, rounds: u32) -> u64 {
    let nanos = u64::try_from(all.as_nanos()).unwrap_or(u64::MAX);
    nanos.saturating_mul(100) / u64::from(rounds.max(1))
}

/// The time of one round of this work, in hundredths of a nanosecond. The work answers how many rounds it made, or that
/// number stands after it.
macro_rules! time_of_one {
    ($rt:expr, $work:expr) => {{
        let start = std::time::Instant::now($rt)?;
        let rounds = $work;
        $crate::times::of_one(start.elapsed($rt)?, rounds)
    }};
    ($rt:expr, $work:expr, $rounds:expr) => {
        time_of_one!($rt, { $work; $rounds })
    };
}

pub(crate) use time_of_one;

/// The times of all kinds of steps; nothing where memory ran out.
pub(crate) fn measure<R: Clock>(rt: &R, alloc: Global, rounds: u32) -> io::Result<Option<Times>> {
    let Some(Ready { bank, mut pass }) = make_ready(alloc, rounds)? else {
        return Ok(None);
    };
    let (table, mut seat) = zeros(alloc)?;
    let words = &table.shared;
    let loads = Time {
        bank: time_of_one!(rt, load_all(&bank, &mut pass, rounds), rounds),
        bare: time_of_one!(rt, bare_steps::load_all(words, &mut seat, rounds), rounds),
    };
    let locks = Time {
        bank: time_of_one!(rt, lock_all(&bank, &mut pass, rounds), rounds),
        bare: time_of_one!(rt, bare_steps::lock_all(words, &mut seat, rounds), rounds),
    };
    let writes = Time {
        bank: time_of_one!(rt, write_all(&bank, &mut pass, rounds), rounds),
        bare: time_of_one!(rt, bare_steps::write_all(words, &mut seat, rounds), rounds),
    };
    let takings = Time {
        bank: time_of_one!(rt, take_all(&bank, &mut pass, rounds), rounds),
        bare: time_of_one!(rt, bare_steps::take_all(words, &mut seat, rounds), rounds),
    };
    Ok(Some(Times {
        loads,
        locks,
        writes,
        takings,
    }))
}
