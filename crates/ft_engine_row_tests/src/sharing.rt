//! Values in boxes that several containers have: what `extend`, `update` and `copyto` bring takes no place, and the place of a value
//! is in use until the last container has let it go (PEP 703, Biased Reference Counting).

use ft_engine_tests::Calls::{Read, Write};
use ft_engine_tests::{ScriptedCalls, all_are_answered};
use std::test::Fail;

/// The reply where no place of the thread's heap is free.
const FULL: &str = "MemoryError heap";

/// One thread stores values and lets them go.
const ALONE: [ScriptedCalls<'static>; 5] = [
    // What one list lets go the other one has still; the place is free when both have let it go.
    ScriptedCalls {
        name: "two lists share places",
        declarations: "list l\nlist m\n",
        threads: &["A"],
        calls: &[
            Write("A", 64, "append l 1000", "ok"),
            Write("A", 1, "extend m l", "ok"),
            Read("A", 1, "append m 1000", FULL),
            Write("A", 1, "pop l", "1000"),
            Read("A", 1, "append l 1000", FULL),
            Read("A", 1, "get m 63", "1000"),
            Write("A", 1, "pop m", "1000"),
            Write("A", 1, "append l \"a\"", "ok"),
            Read("A", 1, "append l 1000", FULL),
            // 63 of its items are those of the other list, and the one after them is its own.
            Write("A", 1, "clear l", "ok"),
            Write("A", 1, "append l 1000", "ok"),
            Read("A", 1, "append l 1000", FULL),
            Read("A", 1, "count m 1000", "63"),
            Write("A", 1, "clear m", "ok"),
            Write("A", 63, "append l 1000", "ok"),
            Read("A", 1, "append l 1000", FULL),
        ],
    },
    // A dict that gets a value by `update` keeps it, and what the value takes the place of is let go.
    ScriptedCalls {
        name: "two dicts share places",
        declarations: "dict d\ndict e\nlist l\n",
        threads: &["A"],
        calls: &[
            Write("A", 61, "append l 1000", "ok"),
            Write("A", 1, "set d 1 1000", "ok"),
            Write("A", 1, "set d 2 \"a\"", "ok"),
            Write("A", 1, "set e 2 2000", "ok"),
            Read("A", 1, "append l 1000", FULL),
            Write("A", 1, "update e d", "ok"),
            Read("A", 1, "items e", "{2: \"a\", 1: 1000}"),
            // The place of 2000 is free.
            Write("A", 1, "append l 1000", "ok"),
            Read("A", 1, "append l 1000", FULL),
            Write("A", 1, "pop d 1", "1000"),
            Read("A", 1, "append l 1000", FULL),
            Read("A", 1, "get e 1", "1000"),
            Write("A", 1, "pop e 1", "1000"),
            Write("A", 1, "append l 1000", "ok"),
            Read("A", 1, "append l 1000", FULL),
            Write("A", 1, "clear d", "ok"),
            Read("A", 1, "append l 1000", FULL),
            Write("A", 1, "popitem e", "2: \"a\""),
            Write("A", 1, "append l 1000", "ok"),
            Read("A", 1, "append l 1000", FULL),
        ],
    },
    // `update` leaves a value alone where an equal one comes: each dict has its own place.
    ScriptedCalls {
        name: "equal values stay where they are",
        declarations: "dict d\ndict e\nlist l\n",
        threads: &["A"],
        calls: &[
            Write("A", 62, "append l 1000", "ok"),
            Write("A", 1, "set d 1 1000", "ok"),
            Write("A", 1, "set e 1 1000", "ok"),
            Write("A", 1, "update d e", "ok"),
            Read("A", 1, "append l 1000", FULL),
            Write("A", 1, "del e 1", "ok"),
            Write("A", 1, "append l 1000", "ok"),
            Read("A", 1, "append l 1000", FULL),
            Read("A", 1, "get d 1", "1000"),
        ],
    },
    // A dict that gets a copy of another one has its values in their places.
    ScriptedCalls {
        name: "a dict is copied",
        declarations: "dict d\ndict e\nlist l\n",
        threads: &["A"],
        calls: &[
            Write("A", 61, "append l 1000", "ok"),
            Write("A", 1, "set d 1 1000", "ok"),
            Write("A", 1, "set d 2 \"a\"", "ok"),
            Write("A", 1, "set e 3 3000", "ok"),
            Read("A", 1, "append l 1000", FULL),
            Write("A", 1, "copyto d e", "ok"),
            Read("A", 1, "items e", "{1: 1000, 2: \"a\"}"),
            // The place of 3000 is free.
            Write("A", 1, "append l 1000", "ok"),
            Read("A", 1, "append l 1000", FULL),
            Write("A", 1, "clear d", "ok"),
            Read("A", 1, "append l 1000", FULL),
            Read("A", 1, "get e 1", "1000"),
            // Both have the same places before the copy and after it.
            Read("A", 1, "quiesce", "ok"),
            Write("A", 1, "update d e", "ok"),
            Write("A", 1, "copyto d e", "ok"),
            Write("A", 1, "del d 1", "ok"),
            Read("A", 1, "append l 1000", FULL),
            Write("A", 1, "del e 1", "ok"),
            Write("A", 1, "append l 1000", "ok"),
            Read("A", 1, "append l 1000", FULL),
            // The dict that it gets a copy of is empty.
            Write("A", 1, "clear d", "ok"),
            Read("A", 1, "append l 1000", FULL),
            Write("A", 1, "copyto d e", "ok"),
            Write("A", 1, "append l 1000", "ok"),
            Read("A", 1, "append l 1000", FULL),
        ],
    },
    // A dict that is updated by itself stays as it is, and one that is copied to itself has its values in their places; a list
    // that is extended by itself has each of its values twice.
    ScriptedCalls {
        name: "a container and itself",
        declarations: "dict d\nlist l\n",
        threads: &["A"],
        calls: &[
            Write("A", 62, "append l 1000", "ok"),
            Write("A", 1, "set d 1 1000", "ok"),
            Write("A", 1, "set d 2 \"a\"", "ok"),
            Write("A", 1, "update d d", "ok"),
            Read("A", 1, "append l 1000", FULL),
            Write("A", 1, "copyto d d", "ok"),
            Read("A", 1, "append l 1000", FULL),
            Read("A", 1, "items d", "{1: 1000, 2: \"a\"}"),
            Write("A", 1, "del d 1", "ok"),
            Write("A", 1, "append l \"b\"", "ok"),
            Read("A", 1, "append l 1000", FULL),
            Write("A", 1, "extend l l", "ok"),
            Read("A", 1, "len l", "126"),
            Read("A", 1, "append l 1000", FULL),
            Write("A", 1, "pop l", "\"b\""),
            Read("A", 1, "append l 1000", FULL),
            Read("A", 1, "get l 62", "\"b\""),
            Write("A", 1, "del l 62", "ok"),
            Write("A", 1, "set d 1 1000", "ok"),
            Read("A", 1, "append l 1000", FULL),
            Write("A", 1, "clear l", "ok"),
            Write("A", 62, "append l 1000", "ok"),
            Read("A", 1, "append l 1000", FULL),
        ],
    },
];

#[test]
fn places_are_shared(rt: HostRuntime) -> Result<(), Fail> {
    all_are_answered(rt.alloc(), &ALONE)
}

/// Two threads share values of the first one's heap.
const TOGETHER: [ScriptedCalls<'static>; 3] = [
    // The thread that stored the values lets them go first: the other thread's last drop gives their places back.
    ScriptedCalls {
        name: "another thread lets go last",
        declarations: "list l\nlist m\n",
        threads: &["A", "B"],
        calls: &[
            Write("A", 64, "append l 1000", "ok"),
            Write("B", 1, "extend m l", "ok"),
            Write("A", 1, "clear l", "ok"),
            Read("A", 1, "append l 1000", FULL),
            Read("A", 1, "quiesce", "ok"),
            Read("A", 1, "append l 1000", FULL),
            Read("B", 1, "get m 63", "1000"),
            Write("B", 1, "clear m", "ok"),
            Write("A", 64, "append l 1000", "ok"),
            Read("A", 1, "append l 1000", FULL),
        ],
    },
    // The other thread lets go first: the places are given back when the thread that stored the values quiesces.
    ScriptedCalls {
        name: "another thread lets go first",
        declarations: "list l\nlist m\n",
        threads: &["A", "B"],
        calls: &[
            Write("A", 64, "append l 1000", "ok"),
            Write("A", 1, "extend m l", "ok"),
            Write("B", 1, "clear l", "ok"),
            Read("A", 1, "quiesce", "ok"),
            Read("A", 1, "append l 1000", FULL),
            Read("A", 1, "get m 63", "1000"),
            Write("A", 1, "clear m", "ok"),
            Read("A", 1, "append l 1000", FULL),
            Read("A", 1, "quiesce", "ok"),
            Write("A", 64, "append l 1000", "ok"),
            Read("A", 1, "append l 1000", FULL),
        ],
    },
    // Each thread shares a value that the other one stored.
    ScriptedCalls {
        name: "dicts of two threads",
        declarations: "dict d\ndict e\nlist l\n",
        threads: &["A", "B"],
        calls: &[
            Write("A", 63, "append l 1000", "ok"),
            Write("A", 1, "set d 1 1000", "ok"),
            Write("B", 64, "append l 2000", "ok"),
            Write("B", 1, "pop l", "2000"),
            Write("B", 1, "set e 2 2000", "ok"),
            Write("B", 1, "update e d", "ok"),
            Write("A", 1, "update d e", "ok"),
            Read("A", 1, "items d", "{1: 1000, 2: 2000}"),
            Read("B", 1, "items e", "{2: 2000, 1: 1000}"),
            Write("A", 1, "clear d", "ok"),
            Read("A", 1, "append l 1000", FULL),
            Read("B", 1, "append l 2000", FULL),
            // The value of the first thread isn't named any more, and its place is free at once; so is the other one's.
            Write("B", 1, "clear e", "ok"),
            Write("A", 1, "append l 1000", "ok"),
            Read("A", 1, "append l 1000", FULL),
            Write("B", 1, "append l 2000", "ok"),
            Read("B", 1, "append l 2000", FULL),
        ],
    },
];

#[test]
fn places_are_shared_between_threads(rt: HostRuntime) -> Result<(), Fail> {
    all_are_answered(rt.alloc(), &TOGETHER)
}
