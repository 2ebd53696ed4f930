//! Boards with notes of the pass of a bank: what is fetched of a call that was published, or whose thread has stopped.
//! Beside the board's code these tests would have it proved a second time. Nothing stands on this crate.
#![tactic(auto)]

#[cfg(test)]
mod beside;
#[cfg(test)]
mod notes;
#[cfg(test)]
mod steps;
