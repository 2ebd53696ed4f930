//! A thread of a run: its caller, its operations, and what came of them.

use crate::operation::{Operation, call_of, is_right};
use crate::plan::Site;
use crate::values::Values;
use ft_engine::Caller;
use ft_model::{Call, Reply, Value};

/// A thread of a run.
#[derive(Drop)]
pub struct Worker {
    pub(crate) caller: Caller,
    pub(crate) tally: Tally,
}

/// A thread's operations, and what came of those that it made.
#[derive(Drop)]
pub struct Tally {
    /// The thread, from 0 on.
    pub(crate) thread: u32,
    /// Where it makes its calls.
    pub(crate) site: Site,
    /// The values that it stores.
    pub(crate) values: Values,
    /// Its operations, which it walks round.
    pub(crate) operations: Vec<Operation>,
    /// Where its walk stands: how many of these it has come past in this round of them.
    pub(crate) place: usize,
    /// How many operations it has come past, modulo 2^32.
    pub(crate) serial: u32,
    /// How many operations were made.
    pub(crate) made: u64,
    /// How many of them were answered wrongly, or couldn't be made.
    pub(crate) wrong: u64,
    /// How long all rounds took, in nanoseconds.
    pub(crate) nanos: u64,
    /// How often the threads of the run have met.
    pub(crate) meetings: u64,
    /// How many pairs were set by the thread that fills a dict.
    pub(crate) pairs: u64,
    /// How long that took, in nanoseconds.
    pub(crate) pair_nanos: u64,
    /// The longest time of 64 gets in each round, in nanoseconds.
    pub(crate) stalls: Vec<u64>,
}

impl Tally {
    /// What a thread begins with.
    pub(crate) fn new(
        thread: u32,
        site: Site,
        values: Values,
        operations: Vec<Operation>,
        stalls: Vec<u64>,
    ) -> Tally {
        Tally {
            thread,
            site,
            values,
            operations,
            place: 0,
            serial: 0,
            made: 0,
            wrong: 0,
            nanos: 0,
            meetings: 0,
            pairs: 0,
            pair_nanos: 0,
            stalls,
        }
    }

    /// The operation that comes next.
    #[inline(always)]
    pub(crate) fn next_operation(&mut self) -> Option<Operation> {
        if self.place >= self.operations.len() {
            self.place = 0;
        }
        let found = self.operations.get(self.place).copied();
        self.place = self.place.wrapping_add(1);
        self.serial = self.serial.wrapping_add(1);
        found
    }

    /// The call of an operation: a value that it stores is a new one.
    #[inline(always)]
    pub(crate) fn call_of(&self, operation: Operation) -> Call {
        call_of(operation, &self.values, self.serial)
    }

    /// The value that is stored at a key, or appended: a new one.
    #[inline(always)]
    pub(crate) fn value_at(&self, key: u32) -> Value {
        self.values.at(key, self.serial)
    }

    /// Counts an operation by its reply.
    #[inline(always)]
    pub(crate) fn count_reply(&mut self, operation: Operation, reply: &Reply) {
        if is_right(operation, &self.values, reply) {
            self.made = self.made.saturating_add(1);
        } else {
            self.wrong = self.wrong.saturating_add(1);
        }
    }

    /// Counts an operation by its reply, or one that couldn't be made.
    pub(crate) fn count(&mut self, operation: Operation, reply: &Option<Reply>) {
        match reply {
            Some(reply) => self.count_reply(operation, reply),
            None => self.count_none(),
        }
    }

    /// Counts an operation that couldn't be made.
    pub(crate) fn count_none(&mut self) {
        self.wrong = self.wrong.saturating_add(1);
    }
}
