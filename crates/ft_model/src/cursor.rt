//! Cursors, as values: how far each has come.
use crate::script::Kind;

/// How far the walk of a dict or a set has come.
#[derive(Clone, Copy, Debug, PartialEq, Eq, Hash)]
pub enum CursorState {
    /// There may be more.
    Live,
    /// It was reported that the container's size changed.
    Reported,
    /// It has ended for good.
    Ended,
}

/// A cursor: what `iter` makes and `next` moves (Python manual, Iterator Types). It belongs to the
/// thread that made it.
#[derive(Clone, Copy, Debug, PartialEq, Eq, Hash)]
pub enum Cursor {
    /// A cursor over the pairs of a dict (Python manual, Dictionary view containers).
    Dict {
        /// The dict.
        container: u32,
        /// How far the walk has come.
        walk: CursorState,
        /// How many pairs there were when the cursor was made.
        size: u64,
        /// How many pairs are still expected.
        expected: u64,
        /// The serial of the pair that was given last.
        last: Option<u64>,
    },
    /// A cursor over the items of a list.
    List {
        /// The list.
        container: u32,
        /// The index of the next item.
        index: u64,
        /// Whether the walk has ended for good.
        ended: bool,
    },
    /// A cursor over the elements of a set.
    Set {
        /// The set.
        container: u32,
        /// How far the walk has come.
        walk: CursorState,
        /// How many elements there were when the cursor was made.
        size: u64,
        /// The serial of the element that was given last.
        last: Option<u64>,
    },
    /// A cursor over the items of a deque.
    Deque {
        /// The deque.
        container: u32,
        /// How many changes the deque had seen when the cursor was made.
        moves: u64,
        /// The index of the next item.
        index: u64,
    },
    /// A reversed cursor over the pairs of a dict.
    DictBack {
        /// The dict.
        container: u32,
        /// How far the walk has come.
        walk: CursorState,
        /// How many pairs there were when the cursor was made.
        size: u64,
        /// The serial of the pair that was given last.
        last: Option<u64>,
    },
    /// A reversed cursor over the items of a list.
    ListBack {
        /// The list.
        container: u32,
        /// The index of the next item, or none where the walk has ended for good.
        index: Option<u64>,
    },
}

impl Cursor {
    ghost use Rattle.std.specs.Prelude.{◌≡◌};
    ghost use Rattle.ft_model.specs.Worlds.{container_of, cursor_kind};

    /// The container that the cursor goes over.
    pub fn container(&self) -> u32
        ensures { result ≡ container_of self.now }
    {
        match *self {
            Cursor::Dict { container, .. }
            | Cursor::List { container, .. }
            | Cursor::Set { container, .. }
            | Cursor::Deque { container, .. }
            | Cursor::DictBack { container, .. }
            | Cursor::ListBack { container, .. } => container,
        }
    }

    /// What that container is. The cursor of a deque doesn't know the deque's bound.
    pub fn kind(&self) -> Kind
        ensures { result ≡ cursor_kind self.now }
    {
        match self {
            Cursor::Dict { .. } | Cursor::DictBack { .. } => Kind::Dict,
            Cursor::List { .. } | Cursor::ListBack { .. } => Kind::List,
            Cursor::Set { .. } => Kind::Set,
            Cursor::Deque { .. } => Kind::Deque(None),
        }
    }
}
