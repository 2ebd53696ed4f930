//! Two containers, one of which gets keys of the other one, with what a pass has read of them before the first word is
//! put.
use ft_bank::Table;
use ft_new_keys::Counts;
use ft_section::Object;

/// What a pass has read of a container that gets keys, and of the other one that has them.
#[derive(Clone, Copy)]
pub struct Merge {
    /// The container that gets keys.
    pub o: Object,
    /// The other one.
    pub t: Object,
    /// The table of the other one.
    pub table: Table,
    /// How many entries of that table are used.
    pub others: u64,
    /// The counts of the container that gets keys.
    pub counts: Counts,
    /// How many keys of the other one are new to it.
    pub more: u64,
}
