//! Callers of an engine that take turns, with the floor handed from one to the next: what they answer is in the order
//! that the machine of turns says. The crate has definitions and laws; its functions do nothing.
#![tactic(auto)]

mod beginnings;
mod endings;
mod tries;

pub use crate::beginnings::{
    floors_are_handed_on, fresh_callers_are_nobody, locks_of_nobody_are_free,
    new_callers_are_in_step, one_more_owns_none, resting_callers_stand, woken_callers_have_floor,
};
pub use crate::endings::{
    answered_entries_are_order_runs, last_turns_finish, rising_entries_are_chronicles,
    turns_are_order_runs,
};
pub use crate::tries::{learns_are_turns, spent_turns_change_nothing, tries_are_turns};
