//! The shape of the bank of a run: how many tables there are of each class.
//!
//! A caller has as many calls as fit a `u32`, some minutes of the quickest ones. What a run retires is free again after
//! the next quiescent point of each thread, which comes after 1,024 operations, or with the end of a round. A set is
//! rebuilt after some 5,000 operations, in a table of class 11 or 12, so with 128 tables of each of these a thread may
//! lose its processor for some milliseconds before the others find no table free. A dict or a list that grows takes one
//! table of a class in a round.

use crate::workload::Workload;
use ft_bank::Shape;
use ft_model::Kind;
use std::alloc::{AllocError, Global};

/// How many classes up to 10 there are.
const SMALL: u32 = 8;
/// How many classes up to 12 there are.
const MIDDLE: u32 = 10;
/// How many classes there are.
const CLASSES: u32 = 14;

/// How many tables there are of a class, the least class being 0.
fn tables_of(workload: Workload, class: u32) -> u32 {
    match workload {
        Workload::Set(_) if SMALL <= class && class < MIDDLE => 128,
        Workload::Growth(_) => 4,
        _ if class < MIDDLE => 8,
        _ => 1,
    }
}

/// How many tables there are of each class.
fn all_tables(alloc: Global, workload: Workload) -> Result<Vec<u32>, AllocError> {
    let mut tables = Vec::new(alloc);
    for class in 0..CLASSES {
        tables.push(tables_of(workload, class))?;
    }
    Ok(tables)
}

/// The containers of a run: the one that its threads call on, and for a list another one, to begin a round with.
fn kinds_of(alloc: Global, workload: Workload) -> Result<Vec<Kind>, AllocError> {
    match workload {
        Workload::Dict(_) | Workload::Boxes(_) | Workload::Growth(_) => {
            Ok(vec![in alloc; Kind::Dict]?)
        }
        Workload::List(_) => Ok(vec![in alloc; Kind::List, Kind::List]?),
        Workload::Set(_) | Workload::Script => Ok(vec![in alloc; Kind::Set]?),
    }
}

/// How many places for boxes the heap of a thread has.
///
/// A thread whose dict has boxes can't run out of 4,096: after its quiescent point each box of its heap is one that the
/// dict names, at most 1,000, or that another thread has in hand in the midst of a call, at most two for each of these;
/// and until the next one, after at most 1,024 operations, it makes at most as many. That is less than 2,200.
fn places_of(workload: Workload) -> u32 {
    match workload {
        Workload::Boxes(_) => 4096,
        _ => 64,
    }
}

/// The shape of the bank for that many threads.
pub(crate) fn shape_of(
    alloc: Global,
    workload: Workload,
    threads: u32,
) -> Result<Shape, AllocError> {
    Ok(Shape {
        kinds: kinds_of(alloc, workload)?,
        texts: Vec::new(alloc),
        tables: all_tables(alloc, workload)?,
        heap: places_of(workload),
        passes: threads,
        calls: u32::MAX,
    })
}
