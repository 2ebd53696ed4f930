//! How many awaits there are of each call.
ghost use Rattle.std.specs.Prelude.{◌≡◌, ℕ, ◌+◌, Some, OnOk, OnErr, if◌then◌else◌};
ghost use Rattle.ft_board.specs.Awaits.{is_same_call, noted, await_count};

use std::alloc::{AllocError, Global};
use std::collections::HashMap;
use std::marker::Model;

/// Where the notes for a call lie, and how many awaits there are of it.
#[derive(Clone, Copy, Debug)]
pub(crate) struct Awaited {
    pub(crate) place: usize,
    pub(crate) awaits: u32,
}

/// The calls that are awaited, by thread and index.
#[derive(Drop)]
pub(crate) struct Awaits {
    calls: HashMap<(u32, u32), Awaited>,
}

impl Model for Awaits {
    ghost use Rattle.ft_board.specs.Awaits.{Notebook};

    ghost Value = { Notebook };

    ghost view = { λ a. a.calls.entries };
}

impl Awaits {
    /// No call is awaited. It takes no memory.
    pub(crate) fn new(alloc: Global) -> Awaits
        ensures { (thread index : ℕ) → await_count result thread index ≡ 0 }
    {
        Awaits {
            calls: HashMap::new(alloc),
        }
    }

    /// What is noted of a call.
    pub(crate) fn get(&self, thread: u32, index: u32) -> Option<Awaited>
        ensures { result ≡ noted self.now thread index }
    {
        self.calls.get(&(thread, index)).copied()
    }

    /// Notes this of a call, in place of what was noted of it.
    pub(crate) fn put(&mut self, thread: u32, index: u32, one: Awaited) -> Result<(), AllocError>
        ensures put { OnOk result ((named at : ℕ) → noted self.new named at ≡
            if is_same_call (thread, index) (named, at) then Some one else noted self.old named at) }
    {
        self.calls.insert((thread, index), one)?;
        Ok(())
    }
}
