//! Writes of several entries of a dict or a set at once, by a pass that has the locks: what calls on two containers
//! have alike. All entries are put round one raise of the counter.
//!
//! Between any two steps of any passes it keeps true, for whoever runs calls, that each such call is one whole write,
//! and that readers without the lock find what there was before it until the counter is raised.
#![tactic(auto)]

mod closing;
mod counting;
mod joining;
mod merging;
mod parting;
mod putting;
mod reading;
mod sharing;
mod thinning;

pub use crate::joining::join_by;
pub use crate::merging::Merge;
pub use crate::parting::{count_lacking, part_here};
pub use crate::reading::{key_at, own_table, word_of};
pub use crate::thinning::thin_by;
