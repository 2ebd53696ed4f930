//! Delayed reuse of tables (PEP 703, QSBR): a table that a pass took out of a root may still be read by
//! passes that look without the lock, so it is retired, and given back once each pass has announced that
//! it holds on to nothing older.
//!
//! Between any two calls it keeps true, for the crates of containers, that a table which a pass has found
//! in a root since it last announced is not free. No call here takes memory, and none waits.
#![tactic(auto)]

mod announcing;
mod collecting;
mod laws;
mod retiring;
mod sweeping;
mod taking;

pub use crate::announcing::{enter, leave, quiesce};
pub use crate::collecting::collect;
pub use crate::laws::{cleared_tables_are_not_read, found_tables_are_kept};
pub use crate::retiring::retire;
pub use crate::taking::take;
