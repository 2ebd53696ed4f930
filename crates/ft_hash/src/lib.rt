//! Hashes of keys, and the order in which a table's slots are tried for a hash. Two threads that search
//! one table go the same way for one key, so that each finds what the other put.
#![tactic(auto)]

mod hash;
mod probe;
#[cfg(test)]
mod tests;

pub use hash::{hash_int, hash_text};
pub use probe::{Probe, cover, walks_stay_in_the_table, walks_try_every_slot};
