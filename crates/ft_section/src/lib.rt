//! Critical sections over a bank (C API, critical sections), and the locks that calls on containers take
//! inside of them.
//!
//! Between any two calls it keeps true, for the crates of containers, that a pass has just the locks that
//! its open sections took, and all those of its innermost section; and that a section none of whose calls
//! had to wait has had its locks since its `begin`. No call here takes memory, and none waits.
#![tactic(auto)]

mod answers;
mod beginning;
mod calls;
mod dropping;
mod ending;
mod entries;
mod letting;
mod locks;
mod resuming;

pub use crate::answers::{Began, Ended, Got, Look, Object, Objects, Owner, Resumed, Stamp, Step};
pub use crate::beginning::{depth, new_passes_are_ready, try_begin};
pub use crate::calls::{let_go, take_for};
pub use crate::dropping::drop_all;
pub use crate::ending::end;
pub use crate::resuming::resume;
