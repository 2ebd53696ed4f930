//! Entries of several threads in one list.

use ft_history::merge;
use ft_model::{Call, Entry, Reply};
use std::alloc::{AllocError, Global};
use std::test::Fail;

/// A quiescent point, or what stands for a write, of a thread at a place.
fn entry(thread: u32, index: u32, stamp: u64, wrote: bool) -> Entry {
    Entry {
        thread,
        index,
        stamp,
        wrote,
        call: Call::Quiesce,
        reply: Reply::Done,
        waited: None,
    }
}

fn places(alloc: Global, history: &[Entry]) -> Result<Vec<(u32, u32)>, AllocError> {
    let mut all = Vec::new(alloc);
    for entry in history {
        all.push((entry.thread, entry.index))?;
    }
    Ok(all)
}

#[test]
fn merge_orders_all_entries(rt: HostRuntime) -> Result<(), Fail> {
    let alloc = rt.alloc();
    let first = vec![in alloc;
        entry(0, 1, 0, true),
        entry(0, 2, 1, false),
        entry(0, 3, 2, true),
    ]?;
    let second = vec![in alloc;
        entry(1, 1, 0, false),
        entry(1, 2, 1, false),
        entry(1, 3, 1, true),
    ]?;
    let third = vec![in alloc; entry(2, 1, 3, false)]?;
    let history = merge(alloc, vec![in alloc; third, second, first]?)?;
    let wanted = vec![in alloc; (1, 1), (0, 1), (0, 2), (1, 2), (1, 3), (0, 3), (2, 1)]?;
    assert!(rt; places(alloc, &history)? == wanted);
    Ok(())
}

#[test]
fn merge_keeps_entries_that_stand_alike(rt: HostRuntime) -> Result<(), Fail> {
    let alloc = rt.alloc();
    let one = vec![in alloc; entry(0, 1, 0, false)]?;
    let other = vec![in alloc; entry(0, 1, 0, false)]?;
    let none = Vec::new(alloc);
    let history = merge(alloc, vec![in alloc; one, none, other]?)?;
    assert!(rt; places(alloc, &history)? == vec![in alloc; (0, 1), (0, 1)]?);
    Ok(())
}
