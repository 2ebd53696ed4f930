//! The board on which threads that run beside each other leave notes for those that await their calls.
//!
//! It is made from a script, with a place for each call that is awaited. A thread that was answered such a call leaves
//! as many notes there as there are awaits of it, and each thread that awaits the call waits for one of them. A thread
//! that makes no more calls says so, and whoever awaits a call that it didn't come to is told.
#![tactic(auto)]

mod awaits;
mod board;
mod desk;
mod naming;

pub use crate::board::Board;
pub use crate::desk::Fetched;
pub use crate::naming::Naming;
