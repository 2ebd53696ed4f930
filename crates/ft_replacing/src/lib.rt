//! Calls that put another table in the place of the one that a dict or a set has, filled with what it gets, by a pass
//! that has the locks.
//!
//! Since keys go away, the root names no table from before the counter is raised until after it: so who looks up a key
//! without the lock meets what was there before the write or what is there after it, and never a mixture.
#![tactic(auto)]

mod copying;
mod numbering;
mod raising;
mod sharing;
mod swapping;

pub use crate::copying::copy_into;
pub use crate::swapping::swap_table;
