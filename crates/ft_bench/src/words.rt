//! The words of the command line.

use crate::plan::{Plan, Site};
use crate::workload::{Workload, workloads};
use std::rt::Env;
use std::{env, io};

/// What the command line asks for.
#[derive(Clone, Copy, Debug)]
pub enum Order {
    /// All workloads, for a moment.
    All,
    /// The list of the workloads.
    List,
    /// A run of one workload.
    One(Plan),
    /// The words say nothing that can be done.
    Usage,
}

/// How long a workload runs where no time is given, in nanoseconds.
const USUAL: u64 = 250_000_000;

/// The workload of that name.
fn workload_of(name: &str) -> Option<Workload> {
    for workload in workloads() {
        if workload.name() == name {
            return Some(workload);
        }
    }
    None
}

/// A number of seconds, below 1,000, with at most three digits after the point, in nanoseconds.
fn nanos_of(word: &str) -> Option<u64> {
    let (whole, part) = word.split_once('.').unwrap_or((word, "0"));
    let unit = match part.len() {
        1 => 100u64,
        2 => 10,
        3 => 1,
        _ => return None,
    };
    let seconds = u64::from(whole.parse::<u16>().ok()?);
    let thousandths = u64::from(part.parse::<u16>().ok()?);
    let all = seconds
        .saturating_mul(1000)
        .saturating_add(thousandths.saturating_mul(unit));
    Some(all.saturating_mul(1_000_000))
}

/// The run that these words ask for, with all calls made at one place, or with those of each kind at a place of their own.
fn plan_of(words: &[String], shared: bool) -> Option<Plan> {
    let (name, threads, nanos) = match words {
        [name, threads] => (name, threads, USUAL),
        [name, threads, seconds] => (name, threads, nanos_of(seconds.as_str())?),
        _ => return None,
    };
    let workload = workload_of(name.as_str())?;
    let site = if shared {
        Site::Shared
    } else {
        workload.site()
    };
    Some(Plan {
        workload,
        site,
        threads: threads.parse::<u32>().ok()?,
        nanos,
    })
}

/// What these words ask for, the first being the program's name.
fn order_of(words: &[String]) -> Option<Order> {
    match words {
        [] | [_] => Some(Order::All),
        [_, word] if word.as_str() == "list" => Some(Order::List),
        [_, word, rest @ ..] if word.as_str() == "any" => { Some(Order::One(plan_of(rest, true)?)) }
        [_, rest @ ..] => Some(Order::One(plan_of(rest, false)?)),
    }
}

/// What the command line asks for.
pub(crate) fn read_order<R: Env + AllocGlobal>(rt: &R) -> io::Result<Order> {
    let words = env::args(rt)?.collect::<Vec<String>>(rt.alloc())?;
    Ok(order_of(words.as_slice()).unwrap_or(Order::Usage))
}
