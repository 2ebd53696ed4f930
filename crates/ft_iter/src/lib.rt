//! Cursors over the containers of a bank (Python manual, Iterator Types): `iter` and `next` under the lock of
//! the container, and the search for the entry that a walk gives next.
//!
//! A walk of a dict or a set goes by serials, not by places, so it goes on rightly in whatever table the
//! container has by then. Between any two steps of any passes it keeps true, for whoever walks, that each call
//! adds one entry to the pass at most, that this entry has the reply of the plain containers at its stamp to a
//! thread with the pass's cursors, and that the caller's cursor is the one that the pass's entries leave.
#![tactic(auto)]

mod cursors;
mod held;
mod pairs;
mod seeking;
mod walks;

pub use crate::cursors::{try_iter, try_next};
pub use crate::seeking::seek;
