//! What a run is to do.

use crate::workload::Workload;

/// Where the threads of a run make their calls.
#[derive(Clone, Copy, Debug, PartialEq, Eq)]
pub enum Site {
    /// Calls on a dict at places of their own, by the methods for these calls.
    Dict,
    /// The same of calls on a list.
    List,
    /// The same of calls on a set.
    Set,
    /// All calls at one place.
    Shared,
}

/// What a run is to do.
#[derive(Clone, Copy, Debug)]
pub struct Plan {
    /// What the threads call.
    pub workload: Workload,
    /// Where they make their calls.
    pub site: Site,
    /// How many they are.
    pub threads: u32,
    /// How long the rounds take together, in nanoseconds.
    pub nanos: u64,
}
