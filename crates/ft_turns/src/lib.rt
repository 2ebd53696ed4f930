//! The order of a script's turns: its threads take turns, and one call is tried in each. What comes of it is said by a
//! machine over the script alone, and is a history.
#![tactic(auto)]

mod chronicles;
mod laws;
mod schedule;

pub use chronicles::{next_calls_are_answerable, turns_make_a_chronicle};
pub use laws::{all_calls_finish, awaited_calls_come_first, turns_go_on};
pub use schedule::{Schedule, count_calls};
