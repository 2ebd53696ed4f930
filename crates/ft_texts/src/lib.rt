//! The strings of whoever embeds the library: a number for each text, given out as texts come. Keys and values of
//! containers name a string by its number.
#![tactic(auto)]

mod texts;

pub use crate::texts::{MOST_TEXTS, TextFault, Texts};
