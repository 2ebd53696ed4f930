//! An entry of a history, and how its containers are stored.
use crate::call::Call;
use crate::reply::Reply;

/// A call of a history with its reply and its place.
#[derive(Debug, PartialEq, Eq, Drop)]
pub struct Entry {
    /// The thread, by its place in the script.
    pub thread: u32,
    /// The place among the thread's calls, from 1.
    pub index: u32,
    /// A write's own number, from 0; another call's number of writes before it.
    pub stamp: u64,
    /// Whether the call is a write.
    pub wrote: bool,
    /// The call, as the script has it.
    pub call: Call,
    /// What the call answered.
    pub reply: Reply,
    /// The thread that held a lock when this call first could not go on, where that happened.
    pub waited: Option<u32>,
}

/// What the containers of a history are stored in, which decides when a MemoryError is right.
#[derive(Clone, Copy, Debug, PartialEq, Eq, Hash)]
pub enum Storage {
    /// Plain memory: no call raises a MemoryError.
    Plain,
    /// Tables of classes, of which a script has that many each.
    Tables,
}

/// What a history that isn't legal breaks.
#[derive(Clone, Copy, Debug, PartialEq, Eq, Hash)]
pub enum Rule {
    /// An entry isn't the next call of its thread.
    Whole,
    /// A stamp isn't the number of writes before it, or a write isn't marked as one.
    Stamp,
    /// Reads of one stamp aren't in the order of threads and indexes.
    Order,
    /// A reply isn't the plain container's.
    Reply,
    /// The call that an `await` names does not stand before it.
    Await,
    /// A mark names no thread that could have held the lock.
    Mark,
    /// A section is reported kept round another thread's write on its containers.
    Kept,
    /// A section's count of marks is wrong.
    Suspended,
    /// A MemoryError has no cause.
    Memory,
    /// A thread's calls aren't all there.
    Missing,
    /// The line of a container's content is wrong.
    World,
}
