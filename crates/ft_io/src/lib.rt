//! Bytes that are taken from a source and put into a sink, with a count of what failed.
#![tactic(auto)]

mod memory;
mod quiet;
mod sink;
mod source;
mod standard;

pub use memory::{MemSink, MemSource};
pub use quiet::{QuietSink, QuietSource};
pub use sink::Sink;
pub use source::{Failed, Source};
pub use standard::{StdSink, StdSource};
