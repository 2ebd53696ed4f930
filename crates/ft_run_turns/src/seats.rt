//! A thread of a script between two turns.

use ft_engine::RestingCaller;
use ft_model::Entry;

/// A thread between two turns: its caller, which rests, and the entries that it was answered.
#[derive(Drop)]
pub struct Seat {
    pub(crate) caller: RestingCaller,
    pub(crate) entries: Vec<Entry>,
}
