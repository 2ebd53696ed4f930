//! From the order in which answers were fixed to the order of a history.

use ft_history::put_in_order;
use ft_model::{Call, DictCall, Entry, Key, Reply, Value};
use std::process::Abort;
use std::test::Fail;

const FIXED: [(u32, u32, u64, bool); 10] = [
    (2, 1, 0, false),
    (1, 1, 0, false),
    (1, 2, 0, false),
    (2, 2, 0, true),
    (2, 3, 1, true),
    (1, 3, 2, false),
    (0, 1, 2, false),
    (1, 4, 2, false),
    (0, 2, 2, true),
    (0, 3, 3, false),
];

const WANTED: [(u32, u32, u64, bool); 10] = [
    (1, 1, 0, false),
    (1, 2, 0, false),
    (2, 1, 0, false),
    (2, 2, 0, true),
    (2, 3, 1, true),
    (0, 1, 2, false),
    (1, 3, 2, false),
    (1, 4, 2, false),
    (0, 2, 2, true),
    (0, 3, 3, false),
];

// `d[7] = 1`, or `d[7]` where it isn't a write, by its thread, its index and its stamp.
fn entry(thread: u32, index: u32, stamp: u64, wrote: bool) -> Entry {
    let key = Key::Int(7);
    let value = Value::Int(1);
    let call = if wrote {
        DictCall::Set { key, value }
    } else {
        DictCall::Get { key }
    };
    Entry {
        thread,
        index,
        stamp,
        wrote,
        call: Call::Dict { container: 0, call },
        reply: if wrote {
            Reply::Done
        } else {
            Reply::Value(value)
        },
        waited: None,
    }
}

#[test]
fn reads_between_two_writes_stand_by_thread_and_index(rt: HostRuntime) -> Result<(), Fail> {
    let mut entries = Vec::new(rt.alloc());
    for (thread, index, stamp, wrote) in &FIXED {
        entries.push(entry(*thread, *index, *stamp, *wrote))?;
    }
    let history = put_in_order(entries)?;
    assert_eq!(rt; history.len(), WANTED.len());
    for (put, (thread, index, stamp, wrote)) in history.iter().zip(&WANTED) {
        assert_eq!(rt; *put, entry(*thread, *index, *stamp, *wrote));
    }
    Ok(())
}
