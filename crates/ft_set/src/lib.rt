//! Sets of a bank (Python manual, Set Types): the call that looks up an element, `len`, all elements and `==`, without
//! the locks and with them, and calls under them that add elements, take them out, compare two sets or clear one.
//!
//! Between any two steps of any passes it keeps true, for whoever runs calls, that each call adds one
//! entry to the pass at most, and that this entry has the reply of the plain set at its stamp.
#![tactic(auto)]

mod adds;
mod clears;
mod comparisons;
mod deletes;
mod firsts;
mod items;
mod lens;
mod looks;
mod making;
mod merges;
mod tries;

pub use crate::adds::add_by;
pub use crate::clears::clear_by;
pub use crate::comparisons::look_eq;
pub use crate::deletes::{discard_locked, remove_locked};
pub use crate::firsts::pop_locked;
pub use crate::items::look_items;
pub use crate::lens::look_len;
pub use crate::looks::look_has;
pub use crate::making::{ElementMaker, SetMaker};
pub use crate::merges::{or_by, xor_by};
pub use crate::tries::{
    try_add, try_and, try_clear, try_discard, try_disjoint, try_eq, try_has, try_items, try_len,
    try_or, try_pop, try_remove, try_sub, try_subset, try_xor,
};
