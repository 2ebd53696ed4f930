//! A script whose threads take turns on an engine: one hand holds all callers, and in each turn it wakes one of them
//! and tries its next call once. What comes of it is a history in the order of the script's turns.
#![tactic(auto)]

mod awaiting;
mod ending;
mod running;
mod seating;
mod seats;
mod trying;
mod turning;

pub use crate::running::{TurnRun, run_in_turns};
pub use crate::seating::seat_callers;
pub use crate::seats::Seat;
