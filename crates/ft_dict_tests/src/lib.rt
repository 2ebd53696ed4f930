//! Calls on dicts of one bank, worked by hand, and what such tests share with those of sets. Beside the code of
//! `ft_dict` the tests would have it proved a second time.
#![tactic(auto)]

mod calls;
#[cfg(test)]
mod dicts;
#[cfg(test)]
mod looks;
mod opened;
mod rows;
#[cfg(test)]
mod takes;
#[cfg(test)]
mod writing;

pub use crate::calls::{Attempt, Case, in_new_bank};
pub use crate::opened::{go_online, open_three};
pub use crate::rows::{Said, Wanted};
