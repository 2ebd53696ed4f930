//! What came of a run.

use crate::worker::{Tally, Worker};
use crate::workload::Workload;
use std::alloc::{AllocError, Global};
use std::io;

/// What came of a run.
#[derive(Clone, Copy, Debug)]
pub struct Outcome {
    /// How many operations all threads made.
    pub made: u64,
    /// How many of them were answered wrongly, or couldn't be made.
    pub wrong: u64,
    /// How long the rounds took, in nanoseconds.
    pub nanos: u64,
    /// How many pairs were set by the thread that fills a dict, and how long that took, in nanoseconds.
    pub pairs: u64,
    pub pair_nanos: u64,
    /// The longest time of 64 gets in a round, in nanoseconds: the median of all rounds, and the longest of all.
    pub stall: u64,
    pub longest: u64,
}

impl Outcome {
    /// Nothing came of it yet.
    pub(crate) fn nothing() -> Outcome {
        Outcome {
            made: 0,
            wrong: 0,
            nanos: 0,
            pairs: 0,
            pair_nanos: 0,
            stall: 0,
            longest: 0,
        }
    }
}

/// The longest stall of any thread in this round.
fn stall_of(workers: &[Worker], round: usize) -> u64 {
    let mut longest = 0u64;
    for worker in workers {
        longest = longest.max(worker.tally.stalls.get(round).copied().unwrap_or(0));
    }
    longest
}

/// The longest stall of each round, the shortest first.
fn stalls_of(alloc: Global, workers: &[Worker]) -> Result<Vec<u64>, AllocError> {
    let mut stalls = Vec::new(alloc);
    let rounds = match workers.last() {
        Some(worker) => worker.tally.stalls.len(),
        None => 0,
    };
    for round in 0..rounds {
        stalls.push(stall_of(workers, round))?;
    }
    stalls.sort_unstable();
    Ok(stalls)
}

/// The outcome with what a thread did.
fn added(outcome: Outcome, tally: &Tally) -> Outcome {
    Outcome {
        made: outcome.made.saturating_add(tally.made),
        wrong: outcome.wrong.saturating_add(tally.wrong),
        nanos: outcome.nanos.max(tally.nanos),
        pairs: outcome.pairs.max(tally.pairs),
        pair_nanos: outcome.pair_nanos.max(tally.pair_nanos),
        ..outcome
    }
}

/// What came of the work of these.
pub(crate) fn outcome_of(alloc: Global, workers: &[Worker]) -> Result<Outcome, AllocError> {
    let stalls = stalls_of(alloc, workers)?;
    let middle = stalls.get(stalls.len() / 2).copied();
    let mut outcome = Outcome {
        stall: middle.unwrap_or(0),
        longest: stalls.last().copied().unwrap_or(0),
        ..Outcome::nothing()
    };
    for worker in workers {
        outcome = added(outcome, &worker.tally);
    }
    Ok(outcome)
}

/// Writes a line: how many operations were made, in how many seconds, and how many were wrong; where a dict was filled,
/// also how many millions of pairs were set in a second, and the stalls of the threads that read.
pub(crate) fn show(rt: &impl Print, workload: Workload, outcome: Outcome) -> io::Result<()> {
    let (seconds, nanos) = (outcome.nanos / 1_000_000_000, outcome.nanos % 1_000_000_000);
    let (made, wrong) = (outcome.made, outcome.wrong);
    print!(rt; "{made} {seconds}.{nanos:09} bad={wrong}")?;
    let Workload::Growth(_) = workload else {
        return println!(rt);
    };
    let thousands = outcome.pairs.saturating_mul(1_000_000) / outcome.pair_nanos.max(1);
    let (millions, part) = (thousands / 1000, thousands % 1000);
    let (stall, longest) = (outcome.stall, outcome.longest);
    println!(rt; " write_mops={millions}.{part:03} stall_med_ns={stall} stall_max_ns={longest}")
}
