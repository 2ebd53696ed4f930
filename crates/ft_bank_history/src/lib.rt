//! From a closed bank to the entries of threads with their numbers, for whoever makes one history of them: it holds all
//! that `ft_history` asks of entries that threads made beside each other.
#![tactic(auto)]

mod contents;
mod numbering;

pub use crate::contents::contents_are_last;
pub use crate::numbering::{
    closed_entries_are_legal, closed_entries_are_numbered, entries_are_numbered, marks_are_right,
};
