//! What calls reply, exceptions among it.
use crate::data::{Key, Value};
use crate::sequence::Sequence;

/// The pairs of a dict in order, as `d.items()` gives them (Python manual, Mapping Types).
pub type Pairs = Sequence<(Key, Value)>;

/// Items of a list, in order (Python manual, Sequence Types).
pub type Values = Sequence<Value>;

/// The elements of a set, in the order of its walk.
pub type Keys = Sequence<Key>;

/// An exception, by its class and what more is reported of it.
#[derive(Clone, Copy, Debug, PartialEq, Eq, Hash)]
pub enum Raise {
    /// KeyError: a mapping or a set has no such key, or nothing to pop (Python manual, Built-in
    /// Exceptions).
    NoKey,
    /// IndexError: a list has no such index, or nothing to pop (Python manual, Built-in
    /// Exceptions).
    NoIndex,
    /// ValueError: a list has no such item (Python manual, Built-in Exceptions).
    NoValue,
    /// RuntimeError: the container's size changed since the cursor was made (Python manual, Mapping
    /// Types).
    Size,
    /// RuntimeError: the dict's keys changed since the cursor was made, though its size did not.
    Keys,
    /// RuntimeError: the deque was changed since the cursor was made (Python manual,
    /// collections.deque).
    Moved,
    /// MemoryError: every table of this class was taken.
    Memory(u32),
    /// MemoryError: more than the largest table holds.
    Over,
    /// MemoryError: every place of the thread's heap was in use.
    Heap,
}

/// What a container is shown to have.
#[derive(Debug, PartialEq, Eq, Drop)]
pub enum Shown {
    /// All pairs of a dict.
    Dict(Pairs),
    /// All items of a list or a deque.
    List(Values),
    /// All elements of a set.
    Set(Keys),
}

/// What a call answers.
#[derive(Debug, PartialEq, Eq, Drop)]
pub enum Reply {
    /// The call was done, and has nothing to show.
    Done,
    /// The value, item or element that the call found or took out.
    Value(Value),
    /// The pair that the call found or took out.
    Pair(Key, Value),
    /// Whether it is so.
    Truth(bool),
    /// How many, or at which index.
    Count(u64),
    /// All pairs of a dict.
    Dict(Pairs),
    /// Items of a list.
    List(Values),
    /// All elements of a set.
    Set(Keys),
    /// The cursor has come to the end of its walk (Python manual, Iterator Types: StopIteration).
    Stop,
    /// The section is entered: its locks are held.
    Entered,
    /// The section that ends held its locks all the while.
    Kept,
    /// The section that ends let its locks go while a number of its calls waited (C API, critical
    /// sections: a thread that would block may let them go).
    Suspended(u32),
    /// What each container has, in the order of declaration.
    World(Sequence<Shown>),
    /// The exception that the call raised.
    Raised(Raise),
}

impl Reply {
    ghost use Rattle.std.specs.Prelude.{◌≡◌};
    ghost use Rattle.ft_model.specs.Answers.{is_raised};

    /// Whether the reply is an exception.
    pub fn is_raised(&self) -> bool
        ensures { result ≡ is_raised self.now }
    {
        matches!(self, Reply::Raised(_))
    }
}
