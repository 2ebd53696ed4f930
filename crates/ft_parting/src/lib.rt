//! `s ^= t` of two sets: the elements that both have go, and those of the other one that the first one hasn't are put
//! there, as one whole write.
//!
//! Where the first set needs another table, its root names none from before the counter is raised until after it: so
//! who looks up an element without the lock meets what was there before the write or what is there after it.
#![tactic(auto)]

mod choosing;
mod parting;

pub use crate::parting::part_by;
