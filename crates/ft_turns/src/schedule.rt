//! Whose turn it is.

ghost use Rattle.std.specs.Prelude.{◌≡◌, ℕ, ◌<◌, ◌≤◌, List, [], ◌∷◌, length, All, IfSome, IfNone};
ghost use Rattle.ft_model.specs.Scripts.{IsScript};
ghost use Rattle.ft_turns.specs.Orders.{count_of_calls, turns_of};
ghost use Rattle.ft_turns.specs.Schedules.{IsInRound, scheduled};

use ft_model::ScriptParts;

/// How far the turns have come: first those that the script's order says, and then rounds, each of
/// one turn for every thread in the order of declaration.
#[derive(Clone, Copy)]
pub struct Schedule {
    /// How many turns of the order are over.
    pub(crate) ordered: usize,
    /// The thread whose turn is next in the round that has begun.
    pub(crate) next: usize,
    /// How many rounds have not begun.
    pub(crate) rounds: usize,
}

/// How many calls the threads have.
pub fn count_calls(script: &ScriptParts) -> usize
    requires { IsScript script.now }
    ensures { result ≡ count_of_calls script.now }
{
    let mut count = 0;
    for thread in script.threads.as_slice() {
        count += thread.calls.len();
    }
    count
}

impl Schedule {
    /// The turns of a script with that many calls, before the first one.
    pub fn start(script: &ScriptParts, calls: usize) -> Schedule
        requires script { IsScript script.now }
        requires calls { calls ≡ count_of_calls script.now }
        ensures within { IsInRound (length script.now.threads) result }
        ensures turns { scheduled result script.now.order (length script.now.threads) ≡ turns_of script.now }
    {
        Schedule {
            ordered: 0,
            next: script.threads.len(),
            rounds: 4 * calls,
        }
    }

    /// The thread whose turn it is, or `None` where no turn is left.
    pub fn next(&mut self, order: &[u32], threads: usize) -> Option<u32>
        requires some { 0 < threads }
        requires few { threads ≤ 64 }
        requires within { IsInRound threads self.old }
        requires order { All (λ thread. thread < threads) order.now }
        ensures within { IsInRound threads self.new }
        ensures thread { IfSome result (λ thread. thread < threads) }
        ensures turn { IfSome result (λ thread. scheduled self.old order.now threads ≡ thread ∷ scheduled self.new order.now threads) }
        ensures end { IfNone result (scheduled self.old order.now threads ≡ []) }
    {
        if self.ordered < order.len() {
            let thread = order[self.ordered];
            self.ordered += 1;
            return Some(thread);
        }
        self.begin_round(threads);
        if self.next == threads {
            return None;
        }
        let thread = self.next as u32;
        self.next += 1;
        Some(thread)
    }

    /// Where a round is over, the next one begins, if one is left.
    fn begin_round(&mut self, threads: usize)
        requires some { 0 < threads }
        requires within { self.old.next ≤ threads }
        ensures within { self.new.next ≤ threads }
        ensures same { (order : List ℕ) → scheduled self.new order threads ≡ scheduled self.old order threads }
        ensures ordered { self.new.ordered ≡ self.old.ordered }
        ensures begun { self.new.next ≡ threads → self.new.rounds ≡ 0 }
    {
        if self.next == threads && self.rounds > 0 {
            self.rounds -= 1;
            self.next = 0;
        }
    }
}
