//! Boxes: values that stand in the heap of the pass that made them, and are counted by two counts (PEP 703, "Biased
//! Reference Counting"). The maker counts its references in the local count while the box is in the default state; all
//! others, and the maker once it has merged the box, count them in the shared one. A merged box whose count is 0 is
//! dead, and who brought it there gives its place back.
//!
//! A reference that a pass holds is a [`Held`], which can be let go only by [`release`] or [`keep`]. No call here takes
//! memory, and none waits.
#![tactic(auto)]

mod held;
mod laws;
mod making;
mod merging;
mod raising;
mod reading;
mod releasing;

pub use crate::held::{Held, Made, Raised, keep, taken};
pub use crate::laws::new_passes_are_settled;
pub use crate::making::make;
pub use crate::merging::{merge_all, merge_idle};
pub use crate::raising::{raise, raise_kept};
pub use crate::reading::value;
pub use crate::releasing::release;
