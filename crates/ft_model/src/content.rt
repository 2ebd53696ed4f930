//! What a container has, as a reader sees it.
use crate::data::{Key, Value};
use crate::deque::Deque;
use crate::dict::Dict;
use crate::list::List;
use crate::script::Kind;
use crate::set::Set;

/// A pair of a dict.
#[derive(Clone, Copy, Debug, PartialEq, Eq, Hash)]
pub struct DictPair {
    /// The serial that the dict drew when the key was added. A new value at the key keeps it.
    pub serial: u64,
    /// The key, which no other pair of the dict has.
    pub key: Key,
    /// The value that was last stored at the key.
    pub value: Value,
}

/// An element of a set.
#[derive(Clone, Copy, Debug, PartialEq, Eq, Hash)]
pub struct Element {
    /// The serial that the set drew when the element was added.
    pub serial: u64,
    /// The element, which no other of the set equals.
    pub key: Key,
}

/// What a container has, by its kind.
#[derive(Debug, Drop)]
pub enum Content {
    /// A dict's pairs and its next serial.
    Dict(Dict),
    /// A list's items.
    List(List),
    /// A set's elements and its next serial.
    Set(Set),
    /// A deque's items, its bound and how often it was changed.
    Deque(Deque),
}

impl Content {
    ghost use Rattle.std.specs.Prelude.{◌≡◌, ◌^◌, ◌<◌};
    ghost use Rattle.ft_model.specs.Worlds.{kind_of, length_of};

    /// What the container is.
    pub fn kind(&self) -> Kind
        ensures { result ≡ kind_of self.now }
    {
        match self {
            Content::Dict(_) => Kind::Dict,
            Content::List(_) => Kind::List,
            Content::Set(_) => Kind::Set,
            Content::Deque(deque) => Kind::Deque(deque.bound()),
        }
    }

    /// How many pairs, items or elements there are.
    pub fn len(&self) -> usize
        ensures length { result ≡ length_of self.now }
        ensures small { result < 2 ^ 63 }
    {
        match self {
            Content::Dict(dict) => dict.len(),
            Content::List(list) => list.len(),
            Content::Set(set) => set.len(),
            Content::Deque(deque) => deque.len(),
        }
    }
}
