//! Retired tables: when a collection gives them back, that a join hands them over, and a class that threads take whole.
//! Nothing stands on this crate.
#![tactic(auto)]

#[cfg(test)]
mod banks;
#[cfg(test)]
mod emptying;
#[cfg(test)]
mod joining;
#[cfg(test)]
mod threads;
#[cfg(test)]
mod waiting;
