//! How large a bank is, for whoever makes one.
ghost use Rattle.std.specs.Prelude.{◌≡◌, ◌↔◌, true, All, IsTrue};
ghost use Rattle.ft_layout.specs.Starts.{IsHeap, AreTables};
ghost use Rattle.ft_model.specs.Landed.{is_landed_kind};
ghost use Rattle.ft_bank.specs.Shapes.{IsShape};

use ft_layout::limit::{CONTAINERS, PASSES, PLACES, TABLES};
use ft_model::{CLASS_COUNT, Kind};
use std::alloc::AllocError;

/// How many strings there are at most.
const TEXTS: usize = 65536;

/// How large a bank is.
#[derive(Drop)]
pub struct Shape {
    /// The kind of each container, at most 256; none is a deque yet.
    pub kinds: Vec<Kind>,
    /// The hash of each string, by the number that calls have for it, at most 65,536.
    pub texts: Vec<u64>,
    /// How many tables there are of each class from 3 to 16, 1 to 1,024 of each.
    pub tables: Vec<u32>,
    /// How many places for boxes each pass has, 64 to 4,096 in steps of 64.
    pub heap: u32,
    /// How many passes there are, 1 to 64.
    pub passes: u32,
    /// How many calls each pass may make.
    pub calls: u32,
}

impl Shape {
    /// Whether the shape keeps the limits of a bank.
    pub fn fits(&self) -> bool
        ensures { IsTrue result ↔ IsShape self.now }
    {
        let containers = self.kinds.len();
        let landed = are_landed(self.kinds.as_slice());
        let texts = self.texts.len();
        let tables = are_tables(self.tables.as_slice());
        let heap = is_heap(self.heap);
        // Its type alone bounds it; it is named so that the check sees that.
        let _calls = self.calls;
        if !landed || !tables || !heap {
            return false;
        }
        if containers > CONTAINERS as usize || texts > TEXTS {
            return false;
        }
        1 <= self.passes && self.passes <= PASSES
    }
}

/// Whether a bank can have containers of all these kinds yet.
fn are_landed(kinds: &[Kind]) -> bool
    ensures { IsTrue result ↔ All (λ kind. is_landed_kind kind ≡ true) kinds.now }
{
    kinds.iter().all(|kind| is_landed(*kind))
}

/// Whether a bank can have a container of this kind yet.
fn is_landed(kind: Kind) -> bool
    ensures { result ≡ is_landed_kind kind }
{
    !matches!(kind, Kind::Deque(_))
}

/// Whether there are tables of each class, and not too many.
fn are_tables(tables: &[u32]) -> bool
    ensures { IsTrue result ↔ AreTables tables.now }
{
    tables.len() == CLASS_COUNT && tables.iter().all(|count| 1 <= *count && *count <= TABLES)
}

/// Whether a pass may have that number of places for boxes.
fn is_heap(heap: u32) -> bool
    ensures { IsTrue result ↔ IsHeap heap }
{
    64 <= heap && heap <= PLACES && heap % 64 == 0
}

/// Why no bank was made.
#[derive(Debug, Drop)]
pub enum MakeFault {
    /// Out of memory.
    Memory,
}

impl From<AllocError> for MakeFault {
    fn from(_fault: AllocError) -> MakeFault {
        MakeFault::Memory
    }
}
