//! Calls that may take a table for the container that they change, for all kinds of containers: what such a
//! call comes to under its locks, the MemoryErrors that it answers, and what becomes of the table that the
//! container had.
//!
//! And the one try of all calls under locks: the locks are taken, the call is made by a maker of calls on its kind of
//! container, and the locks are let go.
//!
//! It keeps true for whoever lets the call's locks go that a call which took a table has put it into the
//! root of its container, and has retired the one that the root named before.
#![tactic(auto)]

mod adding;
mod dropping;
mod made;
mod retiring;
mod under_locks;

pub use crate::adding::{Added, answer_full, answer_no_table, answer_over};
pub use crate::dropping::{ValuePlaces, drop_unmade, drop_value, drop_values};
pub use crate::made::Made;
pub use crate::retiring::retire_old;
pub use crate::under_locks::{Maker, named_objects, try_under_locks};
