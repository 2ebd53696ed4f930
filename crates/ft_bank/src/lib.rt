//! The shared words of a bank of containers, and the single steps in which passes read and write them:
//! the only crate over `atomic_table`.
//!
//! Between any two steps of any passes it keeps true, for all layers above, that there is a valid trace
//! of `ft_trace` which gives the bank's words and what each pass knows. Each public step makes one
//! atomic step, and its contract names the action that the pass did, which is one more event of that
//! trace; the condition of a step is that of its action, in words of what the pass knows. `put_value`
//! makes two, and takings and givings of tables some more.
#![tactic(auto)]

mod bank;
mod boxes;
mod closed;
mod floor;
mod keys;
mod locks;
mod meetings;
mod note;
mod opening;
mod pass;
mod passes;
mod places;
mod reads;
mod retired;
mod reuse;
mod rule;
mod sections;
mod shape;
pub mod shown;
mod steps;
mod table;
mod takings;
mod tokens;
mod writes;

pub use crate::bank::Bank;
pub use crate::closed::Closed;
pub use crate::note::Note;
pub use crate::pass::Pass;
pub use crate::sections::{OpenSection, Sections, Taking};
pub use crate::shape::{MakeFault, Shape};
pub use crate::table::Table;
pub use crate::takings::Took;
pub use crate::tokens::{Resting, Tokens};
