//! What calls on containers and sections answer, for all crates of containers: an answer with its stamp,
//! or why the same call comes next.
ghost use Rattle.std.specs.Prelude.{◌≡◌};

use ft_model::Reply;

/// A container, by its number.
pub type Object = u32;

/// A pass that has a lock, by its number.
pub type Owner = u32;

/// The one container or the two whose locks a section or a call needs; two equal ones count as one.
#[derive(Clone, Copy, Debug, PartialEq, Eq)]
pub enum Objects {
    /// One container.
    One(Object),
    /// Two containers, in any order.
    Two(Object, Object),
}

impl Objects {
    ghost use Rattle.ft_section.specs.LockTakings.{lower_of, upper_of};

    /// The container with the lower number, and the other one; where there is one alone, it twice.
    pub(crate) fn in_order(self) -> (Object, Object)
        ensures { (result.0 ≡ lower_of self) × (result.1 ≡ upper_of self) }
    {
        match self {
            Objects::One(o) => (o, o),
            Objects::Two(a, b) if b < a => (b, a),
            Objects::Two(a, b) => (a, b),
        }
    }
}

/// Where an entry stands among all writes.
#[derive(Clone, Copy, Debug, PartialEq, Eq)]
pub struct Stamp {
    /// The number of the write, if it is one; else how many writes come before it.
    pub number: u64,
    /// Whether it is a write.
    pub wrote: bool,
}

/// What a try of a call under the locks of its containers answers.
#[derive(Debug, PartialEq, Eq, Drop)]
pub enum Step {
    /// The call was made: its reply, and its stamp.
    Done(Reply, Stamp),
    /// A step of the call found another pass with the lock of a container that it needs. The same call
    /// comes next.
    NotYet(Object, Owner),
    /// Two steps of the call found a word changed from the first number to the second. The same call
    /// comes next.
    Moved(u64, u64),
    /// Out of memory.
    NoMemory,
}

/// What a try of a call without locks answers.
#[derive(Debug, PartialEq, Eq, Drop)]
pub enum Look {
    /// The call was made: its reply, and its stamp.
    Done(Reply, Stamp),
    /// Two loads of one version gave these; the first is odd, or they differ. Or the count of a box moved from the first to
    /// the second when it should be raised; or both are the word of a dead box, 3.
    Contended(u64, u64),
    /// Out of memory.
    NoMemory,
}

/// What `try_begin` answers.
#[derive(Clone, Copy, Debug, PartialEq, Eq)]
pub enum Began {
    /// The section is open.
    Entered(Stamp),
    /// A step of the call found another pass with the lock of a container of the section. The same call
    /// comes next.
    NotYet(Object, Owner),
}

/// What `end` answers.
#[derive(Clone, Copy, Debug, PartialEq, Eq)]
pub enum Ended {
    /// The pass had the locks of the section all the while.
    Kept(Stamp),
    /// That number of calls in the section had to wait.
    Suspended(u32, Stamp),
}

/// What `take_for` answers.
#[derive(Clone, Copy, Debug, PartialEq, Eq)]
pub enum Got {
    /// The pass has the locks.
    Have,
    /// A step of the call found another pass with the lock of a container that it needs. The same call
    /// comes next.
    NotYet(Object, Owner),
}

/// What `resume` answers.
#[derive(Clone, Copy, Debug, PartialEq, Eq)]
pub enum Resumed {
    /// The pass has the locks of its innermost section again. With it comes the mark of the call: the pass
    /// that it waited for first, where it waited.
    Back(Option<Owner>),
    /// A step of the call found another pass with the lock of a container of the innermost section. The
    /// same call comes next.
    NotYet(Object, Owner),
}
