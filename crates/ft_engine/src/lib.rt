//! One bank with its callers: each caller has a pass of the bank, and makes calls on containers, cursors and
//! sections one after the other. What all of them were answered is one history.
//!
//! For whoever keeps the entries that each caller is answered, it keeps true that these are the entries of the
//! caller's pass, with the caller's thread, indexes that count from 1, and marks that sections count. So once all
//! callers are done, `close` makes of their lists one history, which is legal.
#![tactic(auto)]

mod answering;
mod at_once;
mod attempts;
mod awaiting;
mod caller;
mod calling;
mod closing;
mod container_call;
mod contents;
mod cursor_call;
mod dict_call;
mod dict_methods;
mod engine;
mod giving_up;
mod list_call;
mod list_methods;
mod looks;
mod meetings;
mod naming;
mod pauses;
mod quick;
mod refusing;
mod resting;
mod section_call;
mod set_call;
mod set_methods;
mod settling;
mod visits;

pub use crate::attempts::Tried;
pub use crate::caller::{Caller, Flight};
pub use crate::calling::Called;
pub use crate::engine::Engine;
pub use crate::refusing::Refusal;
pub use crate::resting::RestingCaller;
