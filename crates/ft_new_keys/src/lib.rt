//! Calls that add keys to dicts and sets of a bank, by a pass that has the lock: a key's entry is put into the
//! container's table where that has room, and else into another one, which gets what the container has.
#![tactic(auto)]

mod counts;
mod filling;
mod fresh;
mod gone;
mod growth;
mod keys;
mod naming;
mod placing;
mod room;

pub use crate::counts::{COUNT, Counts, FILL, NEXT, read_counts};
pub use crate::filling::{Growth, blank, fill, move_entries};
pub use crate::fresh::{FreshWords, read_stored};
pub use crate::growth::{begin_in, drop_old};
pub use crate::keys::{add_held, add_key, class_wanted, most_keys};
pub use crate::placing::{put_counts, put_key};
