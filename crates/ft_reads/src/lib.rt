//! What reads of whole containers share, for all kinds: loads by a pass with the lock or between two loads of a
//! version, copies and clears.
#![tactic(auto)]

mod window;

pub use crate::window::Window;
