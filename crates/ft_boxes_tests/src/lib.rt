//! Boxes that a list has: made, counted by both counts by the passes of one bank, merged and given back, in one thread and
//! in four. What `ft_bank_bench` begins with stands here too.
#![tactic(auto)]

#[cfg(test)]
mod banks;
mod counting;
#[cfg(test)]
mod heaps;
#[cfg(test)]
mod looks;
#[cfg(test)]
mod merges;
#[cfg(test)]
mod moves;
mod seeing;
#[cfg(test)]
mod sharing;
mod storing;
#[cfg(test)]
mod threads;

pub use crate::counting::{find_box, go_online};
pub use crate::seeing::see_name;
pub use crate::storing::{clear, overwrite, store_boxes};
