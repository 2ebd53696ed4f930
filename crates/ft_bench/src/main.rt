//! Times calls of an engine from many threads: `ft_bench [any] WORKLOAD THREADS [SECONDS]` runs one workload for so
//! long, 0.25 s where no time is given, and writes how many calls were made, in how many seconds, and how many of them were
//! answered wrongly; with `any` all calls are made at one place. `ft_bench list` writes the workloads, each with its numbers of threads. Without words the program
//! runs each workload for a few milliseconds, and writes no time.
#![tactic(auto)]

mod answers;
mod course;
mod fills;
mod known;
mod operation;
mod operators;
mod outcome;
mod pairs;
mod plan;
mod rounds;
mod run;
mod script;
mod shape;
mod start;
mod stream;
mod threads;
mod values;
mod words;
mod worker;
mod workload;

use crate::outcome::show;
use crate::plan::Plan;
use crate::run::run_workload;
use crate::words::{Order, read_order};
use crate::workload::workloads;
use std::io;
use std::rt::Env;
use std::sync::Wait;
use std::thread::Threads;
use std::time::Clock;

/// How long a workload runs where all of them are run, in nanoseconds.
const QUICK: u64 = 2_000_000;

fn main(rt: HostRuntime) -> io::Result<()> {
    match read_order(&rt)? {
        Order::Usage => println!(rt; "usage: ft_bench [list | [any] WORKLOAD THREADS [SECONDS]]"),
        Order::List => list(&rt),
        Order::All => run_all(&rt),
        Order::One(plan) => match run_workload(&rt, rt.alloc(), plan)? {
            Some(outcome) => show(&rt, plan.workload, outcome),
            None => println!(rt; "not run: no threads, too many, or no memory"),
        },
    }
}

/// The workloads, each with the numbers of threads that it is meant for.
fn list(rt: &impl Print) -> io::Result<()> {
    for workload in workloads() {
        let (name, threads) = (workload.name(), workload.threads());
        print!(rt; "{name}:{threads} ")?;
    }
    println!(rt)
}

/// Runs each workload for a few milliseconds in two threads, and writes how many answers were wrong.
fn run_all<R: AllocGlobal + Clock + Print + Threads + Wait + Sync>(rt: &R) -> io::Result<()> {
    for workload in workloads() {
        let name = workload.name();
        let plan = Plan {
            workload,
            site: workload.site(),
            threads: 2,
            nanos: QUICK,
        };
        match run_workload(rt, rt.alloc(), plan)? {
            Some(outcome) => println!(rt; "{name} bad={}", outcome.wrong)?,
            None => println!(rt; "not run: no threads, too many, or no memory")?,
        }
    }
    Ok(())
}
