//! Threads that await each other's calls.

use crate::legal::{gated_entries, legal_entries};
use crate::scripts::handed_on;
use crossbeam_utils::Backoff;
use ft_run_threads::Gate;
use std::process::Abort;
use std::sync::atomic::{AtomicU64, Ordering};
use std::test::Fail;

/// How often a thread that is held looks whether it may go on.
const TURNS: u32 = 1_000_000;

/// The second thread awaits the call of the first one.
const TWO: &str = "version 2\nlist l\nthread A\nappend l 1\nthread B\nawait A.1\nappend l 2\n";

/// Holds the first thread before its call until the second one has come to its own, and counts the calls of the second.
#[derive(Drop)]
struct Held {
    came: AtomicU64,
    answered: AtomicU64,
    /// How often the first thread was held for too long, or the second one was answered before the call that it awaits.
    wrong: AtomicU64,
}

impl Held {
    /// How many calls the second thread came to, how many were answered, and how often something was wrong.
    fn counts(&self) -> [u64; 3] {
        [
            self.came.load(Ordering::SeqCst),
            self.answered.load(Ordering::SeqCst),
            self.wrong.load(Ordering::SeqCst),
        ]
    }

    /// Holds the first thread until the second one has come to its await.
    fn hold(&self) {
        let backoff = Backoff::new();
        for _ in 0..TURNS {
            if self.came.load(Ordering::SeqCst) > 0 {
                return;
            }
            backoff.snooze();
        }
        self.wrong.fetch_add(1, Ordering::SeqCst);
    }

    /// Holds it a while longer, in which the await has no answer.
    fn linger(&self) {
        let backoff = Backoff::new();
        for _ in 0..50 {
            backoff.snooze();
        }
        if self.answered.load(Ordering::SeqCst) > 0 {
            self.wrong.fetch_add(1, Ordering::SeqCst);
        }
    }
}

impl Gate for Held {
    fn before(&self, thread: u32, _index: u32) {
        if thread == 0 {
            self.hold();
            self.linger();
        } else {
            self.came.fetch_add(1, Ordering::SeqCst);
        }
    }

    fn after(&self, thread: u32, _index: u32) {
        if thread == 1 {
            self.answered.fetch_add(1, Ordering::SeqCst);
        }
    }
}

#[test]
fn the_gate_is_called_round_an_await(rt: HostRuntime) -> Result<(), Fail> {
    let gate = Held {
        came: AtomicU64::new(0),
        answered: AtomicU64::new(0),
        wrong: AtomicU64::new(0),
    };
    assert_eq!(rt; gated_entries(&rt, rt.alloc(), TWO, &gate)?, Some(3));
    assert_eq!(rt; gate.counts(), [2, 2, 0]);
    Ok(())
}

// The first thread makes 40 calls, and each of the others 40 awaits and 40 calls.
#[test]
fn eight_threads_hand_work_on(rt: HostRuntime) -> Result<(), Fail> {
    let text = handed_on(rt.alloc(), 8, 40)?;
    assert_eq!(rt; legal_entries(&rt, rt.alloc(), &text)?, Some(600));
    Ok(())
}

// Of 64 threads each but the first awaits the one before it.
#[test]
fn most_threads_hand_work_on(rt: HostRuntime) -> Result<(), Fail> {
    let text = handed_on(rt.alloc(), 64, 4)?;
    assert_eq!(rt; legal_entries(&rt, rt.alloc(), &text)?, Some(508));
    Ok(())
}
