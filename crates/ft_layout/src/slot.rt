//! What the words of entries and items can say, as types. Readers answer in them and writers take them,
//! so no one else handles kinds and payloads.

use ft_model::{Key, Value};

/// A box: a place in the heap of the pass that made it.
#[derive(Clone, Copy, Debug, PartialEq, Eq, Hash)]
pub struct Ref {
    /// The number of the pass, below 64.
    pub pass: u32,
    /// The place in its heap, below 4,096.
    pub place: u32,
}

/// What an entry or an item stores.
#[derive(Clone, Copy, Debug, PartialEq, Eq, Hash)]
pub enum Stored {
    /// Nothing: in each entry of a set, and in an item after a list's end.
    Empty,
    /// The value itself.
    Plain(Value),
    /// A box that has the value.
    Boxed(Ref),
}

/// An entry that is in use: a pair of a dict, or an element of a set.
#[derive(Clone, Copy, Debug, PartialEq, Eq, Hash)]
pub struct Pair {
    /// The hash of the key.
    pub hash: u64,
    /// The key.
    pub key: Key,
    /// The value of the key, or nothing in a set.
    pub value: Stored,
    /// The serial that the container drew when the key was added.
    pub serial: u64,
}

/// What the words of an entry say.
#[derive(Clone, Copy, Debug, PartialEq, Eq, Hash)]
pub enum Slot {
    /// No key was put there yet.
    Never,
    /// A key that is there.
    Live(Pair),
    /// A key that was there and was deleted, and its serial.
    Gone(Key, u64),
}
