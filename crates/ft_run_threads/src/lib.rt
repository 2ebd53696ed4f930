//! The threads of a script as real threads: each is a worker with a caller of one engine, and makes its calls beside
//! the others. When all are done, the engine is closed, and what they were answered is one legal history.
#![tactic(auto)]

mod awaiting;
mod closing;
mod gate;
mod running;
mod shape;
mod starting;
mod workers;
mod working;

pub use crate::gate::{Gate, NoGate};
pub use crate::running::{Ran, run_workers};
pub use crate::shape::shape_for;
