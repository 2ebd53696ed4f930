//! What is called round each call of a worker.

/// Whoever runs workers learns from it of each call before it is made and after it was answered; it may hold a worker
/// there. Threads count from 0, and a thread's calls from 1, as in entries.
pub trait Gate: Sync {
    /// The thread comes to its call of this index.
    fn before(&self, thread: u32, index: u32);

    /// The thread's call of this index was answered.
    fn after(&self, thread: u32, index: u32);
}

/// A gate that does nothing.
#[derive(Clone, Copy, Debug, Default)]
pub struct NoGate;

impl Gate for NoGate {
    fn before(&self, _thread: u32, _index: u32) {}

    fn after(&self, _thread: u32, _index: u32) {}
}
