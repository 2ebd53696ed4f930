//! Sections, announcements and collections of the passes of one bank, worked by hand. Beside the code these tests
//! would have it proved a second time. Nothing stands on this crate.
#![tactic(auto)]

#[cfg(test)]
mod moves;
#[cfg(test)]
mod reuse;
#[cfg(test)]
mod sections;
mod steps;

pub use crate::steps::{begin, finish, take_up};
