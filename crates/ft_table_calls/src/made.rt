//! What a call comes to under its locks.
ghost use Rattle.std.specs.Prelude.{◌≡◌};
ghost use Rattle.ft_table_calls.specs.declared.made.Made.TheVariants as made;
ghost use Rattle.ft_table_calls.specs.TriesUnderLocks.{made_after, made_of_copy, step_of_made};

use crate::adding::Added;
use ft_model::{Raise, Reply};
use ft_section::{Stamp, Step};
use std::alloc::AllocError;

/// What a call comes to that a pass makes which has the locks of its containers.
#[derive(Debug, PartialEq, Eq, Drop)]
pub enum Made {
    /// The call was made: its reply, and its stamp.
    Done(Reply, Stamp),
    /// Two steps of the call found a word changed from the first number to the second. The same call
    /// comes next.
    Moved(u64, u64),
    /// Out of memory.
    NoMemory,
}

impl Made {
    /// Of a call that was made.
    #[inline(always)]
    pub fn done(answer: (Reply, Stamp)) -> Made
        ensures { result ≡ made.Done answer.0 answer.1 }
    {
        let (reply, stamp) = answer;
        Made::Done(reply, stamp)
    }

    /// Of a call that came to this with its tables, and replies so where it is made.
    #[inline(always)]
    pub fn after(added: Added, said: Reply) -> Made
        ensures { result ≡ made_after added said }
    {
        match added {
            Added::Made(stamp) => Made::Done(said, stamp),
            Added::NoTable(class, stamp) => Made::Done(Reply::Raised(Raise::Memory(class)), stamp),
            Added::Over(stamp) => Made::Done(Reply::Raised(Raise::Over), stamp),
            Added::NoPlace(stamp) => Made::Done(Reply::Raised(Raise::Heap), stamp),
            Added::Moved(first, second) => Made::Moved(first, second),
        }
    }

    /// Of a call that answers with a copy; an `Err` says that memory for it ran out.
    #[inline(always)]
    pub fn copied(answer: Result<(Reply, Stamp), AllocError>) -> Made
        ensures { result ≡ made_of_copy answer }
    {
        match answer {
            Ok((reply, stamp)) => Made::Done(reply, stamp),
            Err(_) => Made::NoMemory,
        }
    }

    /// What its try answers.
    #[inline(always)]
    pub fn step(self) -> Step
        ensures { result ≡ step_of_made self }
    {
        match self {
            Made::Done(reply, stamp) => Step::Done(reply, stamp),
            Made::Moved(first, second) => Step::Moved(first, second),
            Made::NoMemory => Step::NoMemory,
        }
    }
}
