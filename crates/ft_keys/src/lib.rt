//! Search, insertion and rebuilding over the words of a dict's or a set's table, wherever the words
//! are and whoever else may write them.
#![tactic(auto)]

mod laws;
mod list;
mod place;
mod rebuilding;
mod search;
mod steps;
mod walk;
mod words;

pub use laws::{
    calls_keep_versions, calls_leave_what_they_put, entries_are_put_in_order,
    placed_pairs_are_of_a_table, searches_end_at_the_first_free_slot, searches_find_keys,
    searches_load_slot_by_slot, walk_cost,
};
pub use list::{ListMove, ListWords};
pub use place::{place_at, place_new};
pub use rebuilding::rebuild;
pub use search::{Found, find, find_live};
pub use steps::Steps;
pub use walk::{Walk, Way, room_of};
pub use words::{Access, Move, Words};
