//! Pauses between the tries of a call.
use crate::engine::Engine;
use crossbeam_utils::Backoff;
use ft_section::Object;

/// Of how many steps the longest pause is. After the first few, a step has 64 turns of a loop.
const LONGEST: u32 = 64;
/// After how many pauses in a row the thread gives its processor away.
const IN_A_ROW: u32 = 7;

/// The pauses of one call, each twice as long as the one before.
#[derive(Drop)]
pub(crate) struct Pauses {
    backoff: Backoff,
    steps: u32,
}

impl Pauses {
    /// The first pause comes next.
    pub(crate) fn new() -> Pauses {
        Pauses {
            backoff: Backoff::new(),
            steps: 1,
        }
    }

    /// Makes a pause.
    fn pause(&mut self) {
        for _ in 0..self.steps {
            self.backoff.spin();
        }
        self.steps = self.steps.saturating_mul(2).min(LONGEST);
    }

    /// Waits until the lock of the container is seen free, by a load after each pause, so that the thread that has it
    /// is left alone; without a container it makes one pause. A thread keeps a lock for the steps of one call, mostly.
    /// Where the lock stays taken, its thread may have no processor, or is in a section with more calls: then this one
    /// gives its own away.
    #[inline(never)]
    pub(crate) fn wait(&mut self, engine: &Engine, found: Option<Object>) {
        for _ in 0..IN_A_ROW {
            self.pause();
            if !found.is_some_and(|object| engine.seems_locked(object)) {
                return;
            }
        }
        self.backoff.snooze();
    }
}

impl Engine {
    /// Whether the lock of a container is taken, as far as one load tells.
    fn seems_locked(&self, object: Object) -> bool {
        (object as usize) < self.kinds.len() && self.bank.seems_locked(object)
    }
}
