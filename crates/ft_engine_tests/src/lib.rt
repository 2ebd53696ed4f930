//! Scripts whose threads are callers of one engine, in one thread and in orders of turns that are given: what each
//! caller is answered, and that all of it is a legal history. Tests alone stand on this crate.
#![tactic(auto)]

#[cfg(test)]
mod awaiting;
mod cases;
#[cfg(test)]
mod first_turns;
#[cfg(test)]
mod giving_up;
#[cfg(test)]
mod heaps;
#[cfg(test)]
mod looking;
#[cfg(test)]
mod many;
#[cfg(test)]
mod orders;
#[cfg(test)]
mod plain;
mod scripted;
mod starting;
mod turns;
mod workers;

pub use crate::cases::{Case, all_come_out};
pub use crate::scripted::{Calls, ScriptedCalls, all_are_answered};
