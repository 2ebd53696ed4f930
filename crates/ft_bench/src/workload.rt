//! The workloads: what the threads of a run call.

use crate::plan::Site;
use crate::values::{BOXED, SMALL, Values};

/// A workload. In each, a thread's stream of numbers says which operations it makes.
#[derive(Clone, Copy, Debug, PartialEq, Eq)]
pub enum Workload {
    /// A dict of 1,000 keys and small integers, of which each hundred operations of a thread set that many, and get the
    /// others.
    Dict(u32),
    /// The same with values of 40 bits, which lie in boxes.
    Boxes(u32),
    /// A dict that one thread fills from 8 pairs to that many, while the others get the eight.
    Growth(u32),
    /// A list of 1,000 items, to which that many of a hundred operations append, while the others get one of the first
    /// thousand.
    List(u32),
    /// A set of the even ones of 1,000 integers, of which that many of a hundred operations add one, as many discard one,
    /// and the others look one up.
    Set(u32),
    /// The calls of a script that is made, in one thread.
    Script,
}

/// All workloads.
pub(crate) fn workloads() -> [Workload; 13] {
    [
        Workload::Dict(0),
        Workload::Dict(5),
        Workload::Dict(50),
        Workload::Boxes(0),
        Workload::Boxes(5),
        Workload::Boxes(50),
        Workload::Growth(32_768),
        Workload::Growth(2_730),
        Workload::List(50),
        Workload::List(5),
        Workload::Set(25),
        Workload::Set(5),
        Workload::Script,
    ]
}

impl Workload {
    /// Its name on the command line.
    pub(crate) fn name(self) -> &'static str {
        match self {
            Workload::Dict(0) => "A",
            Workload::Dict(5) => "B",
            Workload::Dict(_) => "C",
            Workload::Boxes(0) => "Ab",
            Workload::Boxes(5) => "Bb",
            Workload::Boxes(_) => "Cb",
            Workload::Growth(32_768) => "D",
            Workload::Growth(_) => "Ds",
            Workload::List(50) => "E",
            Workload::List(_) => "E95",
            Workload::Set(25) => "F",
            Workload::Set(_) => "F90",
            Workload::Script => "G",
        }
    }

    /// Where its calls are made by the methods for them.
    pub(crate) fn site(self) -> Site {
        match self {
            Workload::Dict(_) | Workload::Boxes(_) | Workload::Growth(_) => Site::Dict,
            Workload::List(_) => Site::List,
            Workload::Set(_) => Site::Set,
            Workload::Script => Site::Shared,
        }
    }

    /// The values that its threads store.
    pub(crate) fn values(self) -> Values {
        match self {
            Workload::Boxes(_) => BOXED,
            _ => SMALL,
        }
    }

    /// The numbers of threads that it is meant for.
    pub(crate) fn threads(self) -> &'static str {
        match self {
            Workload::Script => "1",
            Workload::Growth(_) => "2,4",
            Workload::Dict(_) | Workload::Boxes(_) | Workload::List(_) | Workload::Set(_) => {
                "1,2,4"
            }
        }
    }
}
