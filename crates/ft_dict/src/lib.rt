//! Dicts of a bank (Python manual, Mapping Types): calls that look up a key, `len`, all pairs and `==`, without the
//! locks and with them, and calls under the lock that put a value at a key, take a pair out, clear the dict,
//! copy it or update it with another one.
//!
//! Between any two steps of any passes it keeps true, for whoever runs calls, that each call adds one
//! entry to the pass at most, and that this entry has the reply of the plain dict at its stamp.
#![tactic(auto)]

mod boxed;
mod clears;
mod copies;
mod deletes;
mod equals;
mod held;
mod items;
mod lasts;
mod lens;
mod locked;
mod looks;
mod making;
mod merges;
mod tries;
mod values;

pub use crate::boxed::{set_boxed, setdefault_boxed};
pub use crate::clears::clear_by;
pub use crate::copies::copyto_by;
pub use crate::deletes::{del_locked, pop_locked, popd_locked};
pub use crate::equals::look_eq;
pub use crate::held::{set_default_held, set_held};
pub use crate::items::look_items;
pub use crate::lasts::popitem_locked;
pub use crate::lens::look_len;
pub use crate::looks::{look_get, look_getd, look_has};
pub use crate::making::{DictMaker, ValueSetter};
pub use crate::merges::update_by;
pub use crate::tries::{
    try_clear, try_copyto, try_del, try_eq, try_get, try_getd, try_has, try_items, try_len,
    try_pop, try_popd, try_popitem, try_set, try_setdefault, try_update,
};
pub use crate::values::{set_by, setdefault_by};
