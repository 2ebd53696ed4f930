//! A gate at which two threads meet, so that their calls come in one order.

use super::{AMPLE, call};
use crossbeam_utils::Backoff;
use ft_runner::Gate;
use std::sync::atomic::{AtomicU64, Ordering};
use std::test::Fail;

/// How often a thread that is held looks whether it may go on.
const TURNS: u32 = 1_000_000;

/// Thread 0 with one call, and thread 1 with two. Each is held before its first call until the other has come to its
/// own; then thread 0 until the other's first call was answered, and thread 1 before its second call until the one of
/// thread 0 was answered.
#[derive(Drop)]
struct Meeting {
    first_came: AtomicU64,
    first_answered: AtomicU64,
    second_came: AtomicU64,
    second_answered: AtomicU64,
    /// How often a thread was held for too long, or came to a call that wasn't its next one.
    wrong: AtomicU64,
}

impl Meeting {
    /// How often something was wrong, and then how often each thread came and was answered.
    fn counts(&self) -> [u64; 5] {
        [
            self.wrong.load(Ordering::SeqCst),
            self.first_came.load(Ordering::SeqCst),
            self.first_answered.load(Ordering::SeqCst),
            self.second_came.load(Ordering::SeqCst),
            self.second_answered.load(Ordering::SeqCst),
        ]
    }

    /// Holds the thread until the word says that many.
    fn hold(&self, word: &AtomicU64, count: u64) {
        let backoff = Backoff::new();
        for _ in 0..TURNS {
            if word.load(Ordering::SeqCst) >= count {
                return;
            }
            backoff.snooze();
        }
        self.wrong.fetch_add(1, Ordering::SeqCst);
    }

    /// Counts a call, which is to be the next one.
    fn count(&self, word: &AtomicU64, index: u32) {
        let before = word.fetch_add(1, Ordering::SeqCst);
        if before.wrapping_add(1) != u64::from(index) {
            self.wrong.fetch_add(1, Ordering::SeqCst);
        }
    }
}

impl Gate for Meeting {
    fn before(&self, thread: u32, index: u32) {
        if thread == 0 {
            self.count(&self.first_came, index);
            self.hold(&self.second_came, 1);
            self.hold(&self.second_answered, 1);
        } else {
            self.count(&self.second_came, index);
            self.hold(&self.first_came, 1);
            if index == 2 {
                self.hold(&self.first_answered, 1);
            }
        }
    }

    fn after(&self, thread: u32, index: u32) {
        if thread == 0 {
            self.count(&self.first_answered, index);
        } else {
            self.count(&self.second_answered, index);
        }
    }
}

/// Thread 0 waits for the first call of thread 1, whose second call waits for that of thread 0.
const SCRIPT: &str = "list l\nthread A\nappend l 1\nthread B\nappend l 2\nappend l 3\n";

const TEXT: &str =
    "B.1 w0 append l 2 = ok\nA.1 w1 append l 1 = ok\nB.2 w2 append l 3 = ok\nl = [2, 1, 3]\n";

// A tool that makes all calls in one thread, in whatever order, holds that thread in vain.
#[test]
fn a_gate_holds_two_threads(rt: HostRuntime) -> Result<(), Fail> {
    let gate = Meeting {
        first_came: AtomicU64::new(0),
        first_answered: AtomicU64::new(0),
        second_came: AtomicU64::new(0),
        second_answered: AtomicU64::new(0),
        wrong: AtomicU64::new(0),
    };
    let run = call(&rt, "run", SCRIPT, AMPLE, &gate)?;
    assert_eq!(rt; (run.status, run.put.as_slice()), (0, TEXT.as_bytes()));
    assert_eq!(rt; gate.counts(), [0, 1, 1, 2, 2]);
    Ok(())
}
