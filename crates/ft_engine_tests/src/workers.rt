//! A thread of a script.

use ft_engine::Caller;
use ft_model::Entry;

/// A thread: its caller, what it was answered so far, and whether it is online.
#[derive(Drop)]
pub struct Worker {
    pub(crate) caller: Caller,
    pub(crate) entries: Vec<Entry>,
    pub(crate) online: bool,
}
