//! What the threads of a run share beside the engine.

use crate::plan::Plan;
use crossbeam_utils::Backoff;
use ft_model::Call;
use std::sync::Wait;
use std::sync::atomic::{AtomicBool, AtomicU64, Ordering};

/// What the threads of a run share.
#[derive(Drop)]
pub struct Course {
    /// What they do.
    pub(crate) plan: Plan,
    /// The calls that the run begins with.
    pub(crate) fills: Vec<Call>,
    /// The calls that each round begins with.
    pub(crate) freshens: Vec<Call>,
    /// How often a thread has come to a meeting.
    pub(crate) arrivals: AtomicU64,
    /// Whether there is no other round.
    pub(crate) over: AtomicBool,
    /// Whether the dict is being filled.
    pub(crate) filling: AtomicBool,
}

impl Course {
    /// Waits until all threads have come to this meeting, of which there were that many before.
    pub(crate) fn meet<R: Wait>(&self, rt: &R, before: u64) {
        self.arrivals.fetch_add(1, Ordering::SeqCst);
        let all = before
            .saturating_add(1)
            .saturating_mul(u64::from(self.plan.threads));
        let backoff = Backoff::new();
        for _ in rt.forever() {
            if self.arrivals.load(Ordering::SeqCst) >= all {
                return;
            }
            backoff.snooze();
        }
    }

    /// Says that there is no other round.
    pub(crate) fn end(&self) {
        self.over.store(true, Ordering::SeqCst);
    }

    /// Whether there is no other round.
    pub(crate) fn is_over(&self) -> bool {
        self.over.load(Ordering::SeqCst)
    }

    /// Says whether the dict is being filled.
    pub(crate) fn set_filling(&self, filling: bool) {
        self.filling.store(filling, Ordering::SeqCst);
    }

    /// Whether the dict is being filled.
    pub(crate) fn is_filling(&self) -> bool {
        self.filling.load(Ordering::SeqCst)
    }
}
