//! A thread of a script at work.

use ft_engine::Caller;
use ft_model::Entry;

/// A worker: its caller, what it was answered, and whether it has made its last call.
#[derive(Drop)]
pub struct Worker {
    pub(crate) caller: Caller,
    pub(crate) entries: Vec<Entry>,
    pub(crate) done: bool,
}
