//! Heaps: a value that belongs in a box takes a place of the heap of the thread that stores it, and gives it back when no
//! container has it any more (PEP 703, Biased Reference Counting).

use ft_engine_tests::Calls::{Read, Write};
use ft_engine_tests::{ScriptedCalls, all_are_answered};
use std::test::Fail;

/// The reply where no place of the thread's heap is free.
const FULL: &str = "MemoryError heap";

/// Heaps that are full, and places that come back.
const FILLED: [ScriptedCalls<'static>; 9] = [
    // The heap has 64 places.
    ScriptedCalls {
        name: "a heap is full",
        declarations: "list l\n",
        threads: &["A"],
        calls: &[
            Write("A", 64, "append l 1000", "ok"),
            Read("A", 1, "append l 1000", FULL),
        ],
    },
    // An item that its own thread takes out gives its place back at once.
    ScriptedCalls {
        name: "a place comes back",
        declarations: "list l\n",
        threads: &["A"],
        calls: &[
            Write("A", 64, "append l 1000", "ok"),
            Write("A", 1, "pop l", "1000"),
            Write("A", 1, "append l 1000", "ok"),
        ],
    },
    // A place of another thread's heap comes back at the `quiesce` of the thread that made the box.
    ScriptedCalls {
        name: "a place comes back through quiesce",
        declarations: "list l\n",
        threads: &["A", "B"],
        calls: &[
            Write("A", 64, "append l 1000", "ok"),
            Write("B", 1, "pop l", "1000"),
            Read("A", 1, "append l 1000", FULL),
            Read("A", 1, "quiesce", "ok"),
            Write("A", 1, "append l 1000", "ok"),
        ],
    },
    // A `quiesce` gives no place back whose box is named.
    ScriptedCalls {
        name: "all places are in use",
        declarations: "list l\n",
        threads: &["A"],
        calls: &[
            Write("A", 64, "append l 1000", "ok"),
            Write("A", 1, "pop l", "1000"),
            Write("A", 1, "append l 1000", "ok"),
            Read("A", 1, "quiesce", "ok"),
            Read("A", 1, "append l 1000", FULL),
        ],
    },
    // The number of places is declared.
    ScriptedCalls {
        name: "a heap of 128 places",
        declarations: "heap 128\nlist l\n",
        threads: &["A"],
        calls: &[
            Write("A", 128, "append l \"a\"", "ok"),
            Read("A", 1, "append l \"a\"", FULL),
        ],
    },
    // Small integers and `None` take no place, and neither does a key.
    ScriptedCalls {
        name: "small integers take no place",
        declarations: "list l\ndict d\n",
        threads: &["A"],
        calls: &[
            Write("A", 64, "append l 257", "ok"),
            Read("A", 1, "append l 257", FULL),
            Read("A", 1, "append l -6", FULL),
            Read("A", 1, "append l \"\"", FULL),
            Write("A", 1, "append l 256", "ok"),
            Write("A", 1, "append l -5", "ok"),
            Write("A", 1, "append l None", "ok"),
            Write("A", 1, "set d 1000 1", "ok"),
            Write("A", 1, "set d \"a\" 1", "ok"),
            Write("A", 1, "insert l 0 0", "ok"),
        ],
    },
    // Each thread has a heap of its own.
    ScriptedCalls {
        name: "two heaps",
        declarations: "list l\n",
        threads: &["A", "B"],
        calls: &[
            Write("A", 64, "append l 1000", "ok"),
            Write("B", 64, "append l 1000", "ok"),
            Read("A", 1, "append l 1000", FULL),
            Read("B", 1, "append l 1000", FULL),
        ],
    },
    // `clear` gives all places back.
    ScriptedCalls {
        name: "a list is cleared",
        declarations: "list l\n",
        threads: &["A"],
        calls: &[
            Write("A", 64, "append l 1000", "ok"),
            Write("A", 1, "clear l", "ok"),
            Write("A", 64, "append l 1000", "ok"),
            Read("A", 1, "append l 1000", FULL),
        ],
    },
    // So does a thread whose boxes another one has dropped, at its `quiesce`.
    ScriptedCalls {
        name: "another thread clears",
        declarations: "list l\n",
        threads: &["A", "B"],
        calls: &[
            Write("A", 64, "append l 1000", "ok"),
            Write("B", 1, "clear l", "ok"),
            Read("A", 1, "append l 1000", FULL),
            Read("A", 1, "quiesce", "ok"),
            Write("A", 64, "append l 1000", "ok"),
            Read("A", 1, "append l 1000", FULL),
        ],
    },
];

#[test]
fn heaps_are_full(rt: HostRuntime) -> Result<(), Fail> {
    all_are_answered(rt.alloc(), &FILLED)
}

/// Calls that could raise several exceptions, and calls that take no place.
const ORDERED: [ScriptedCalls<'static>; 4] = [
    // A bad index is told before a full heap, and no box is made for it.
    ScriptedCalls {
        name: "a bad index",
        declarations: "list l\n",
        threads: &["A"],
        calls: &[
            Write("A", 63, "append l 1000", "ok"),
            Read("A", 1, "set l 63 2000", "IndexError"),
            Read("A", 1, "set l -64 2000", "IndexError"),
            Write("A", 1, "append l 1000", "ok"),
            Read("A", 1, "append l 1000", FULL),
            Read("A", 1, "set l 64 2000", "IndexError"),
            Read("A", 1, "set l -65 2000", "IndexError"),
            Read("A", 1, "set l 0 2000", FULL),
            Write("A", 1, "set l 0 7", "ok"),
            Write("A", 1, "set l 1 2000", "ok"),
            Write("A", 1, "append l 2000", "ok"),
            Read("A", 1, "append l 2000", FULL),
        ],
    },
    // The only table of class 3 is still kept for a reader: a full heap is told before that, and a box that was made for a call without a table is given back.
    ScriptedCalls {
        name: "a heap before a class",
        declarations: "tables 3 1\nlist l\nlist m\ndict d\n",
        threads: &["A"],
        calls: &[
            Write("A", 64, "append l 1000", "ok"),
            Read("A", 1, "append m 7", "MemoryError 3"),
            Read("A", 1, "append m 1000", FULL),
            Read("A", 1, "insert m 0 1000", FULL),
            Read("A", 1, "set d 1 1000", FULL),
            Read("A", 1, "setdefault d 1 1000", FULL),
            Read("A", 1, "set d 1 7", "MemoryError 3"),
            Write("A", 1, "pop l", "1000"),
            Read("A", 1, "append m 1000", "MemoryError 3"),
            Read("A", 1, "insert m 0 1000", "MemoryError 3"),
            Read("A", 1, "set d 1 1000", "MemoryError 3"),
            Read("A", 1, "setdefault d 1 1000", "MemoryError 3"),
            Write("A", 1, "append l 1000", "ok"),
            Read("A", 1, "append l 1000", FULL),
        ],
    },
    // A list of as many items as the largest table has: that is told before a full heap.
    ScriptedCalls {
        name: "a cap before a heap",
        declarations: "list l\nlist m\n",
        threads: &["A"],
        calls: &[
            Write("A", 1, "append l 1", "ok"),
            Write("A", 16, "extend l l", "ok"),
            Write("A", 64, "append m 1000", "ok"),
            Read("A", 1, "append m 1000", FULL),
            Read("A", 1, "append l 1000", "MemoryError over"),
            Read("A", 1, "insert l 0 1000", "MemoryError over"),
            Read("A", 1, "set l 0 1000", FULL),
            Read("A", 1, "set l 65536 1000", "IndexError"),
            Write("A", 1, "pop m", "1000"),
            Read("A", 1, "append l 1000", "MemoryError over"),
            Write("A", 1, "append m 1000", "ok"),
            Read("A", 1, "append m 1000", FULL),
        ],
    },
    // `setdefault` of a key that is there takes no place.
    ScriptedCalls {
        name: "a default that isn't stored",
        declarations: "dict d\nlist l\n",
        threads: &["A"],
        calls: &[
            Write("A", 1, "setdefault d 1 1000", "1000"),
            Write("A", 63, "append l 1000", "ok"),
            Write("A", 1, "setdefault d 1 2000", "1000"),
            Read("A", 1, "setdefault d 2 2000", FULL),
            Write("A", 1, "setdefault d 2 2", "2"),
            Write("A", 1, "setdefault d 2 2000", "2"),
            Read("A", 1, "append l 1000", FULL),
            Write("A", 1, "del d 1", "ok"),
            Write("A", 1, "setdefault d 1 2000", "2000"),
            Read("A", 1, "setdefault d 3 2000", FULL),
        ],
    },
];

#[test]
fn exceptions_come_in_their_order(rt: HostRuntime) -> Result<(), Fail> {
    all_are_answered(rt.alloc(), &ORDERED)
}

/// Calls that give places back.
const GIVEN_BACK: [ScriptedCalls<'static>; 3] = [
    // Each call that takes a value out of a dict, or puts another one in its place, gives the place back.
    ScriptedCalls {
        name: "values of a dict",
        declarations: "dict d\nlist l\n",
        threads: &["A"],
        calls: &[
            Write("A", 62, "append l 1000", "ok"),
            Write("A", 1, "set d 1 1000", "ok"),
            Write("A", 1, "set d 2 2000", "ok"),
            Read("A", 1, "set d 3 3000", FULL),
            Write("A", 1, "pop d 2", "2000"),
            Write("A", 1, "set d 2 2000", "ok"),
            Read("A", 1, "set d 3 3000", FULL),
            Write("A", 1, "popd d 1 None", "1000"),
            Write("A", 1, "set d 1 1000", "ok"),
            Write("A", 1, "popd d 3 None", "None"),
            Read("A", 1, "set d 3 3000", FULL),
            Write("A", 1, "popitem d", "1: 1000"),
            Write("A", 1, "set d 1 1000", "ok"),
            Read("A", 1, "set d 3 3000", FULL),
            Write("A", 1, "del d 1", "ok"),
            Write("A", 1, "set d 1 1000", "ok"),
            Read("A", 1, "set d 3 3000", FULL),
            Write("A", 1, "set d 1 1", "ok"),
            Write("A", 1, "set d 3 3000", "ok"),
            Read("A", 1, "set d 1 1000", FULL),
            Write("A", 1, "clear d", "ok"),
            Write("A", 1, "set d 1 1000", "ok"),
            Write("A", 1, "set d 2 2000", "ok"),
            Read("A", 1, "set d 3 3000", FULL),
        ],
    },
    // Another value takes its place before the old one gives its own back.
    ScriptedCalls {
        name: "a value over another one",
        declarations: "dict d\nlist l\n",
        threads: &["A"],
        calls: &[
            Write("A", 63, "append l 1000", "ok"),
            Write("A", 1, "set d 1 1000", "ok"),
            Read("A", 1, "set d 1 2000", FULL),
            Read("A", 1, "set l 0 2000", FULL),
            Write("A", 1, "pop l", "1000"),
            Write("A", 1, "set d 1 2000", "ok"),
            Write("A", 1, "set l 0 2000", "ok"),
            Write("A", 1, "append l 1000", "ok"),
            Read("A", 1, "append l 1000", FULL),
        ],
    },
    // Each call that takes an item out of a list gives its place back, and a list that grows keeps those of its items.
    ScriptedCalls {
        name: "items of a list",
        declarations: "list l\n",
        threads: &["A"],
        calls: &[
            Write("A", 60, "append l 1000", "ok"),
            Write("A", 1, "insert l 0 1", "ok"),
            Write("A", 1, "insert l 0 \"a\"", "ok"),
            Write("A", 3, "insert l 30 2000", "ok"),
            Read("A", 1, "append l 3000", FULL),
            Write("A", 1, "del l 0", "ok"),
            Write("A", 1, "append l 3000", "ok"),
            Read("A", 1, "append l 3000", FULL),
            Write("A", 1, "pop l 0", "1"),
            Read("A", 1, "append l 3000", FULL),
            Write("A", 1, "remove l 3000", "ok"),
            Write("A", 1, "insert l 5 3000", "ok"),
            Read("A", 1, "append l 3000", FULL),
            Write("A", 1, "reverse l", "ok"),
            Write("A", 1, "pop l", "1000"),
            Write("A", 1, "append l \"b\"", "ok"),
            Read("A", 1, "append l \"b\"", FULL),
            Write("A", 1, "pop l -2", "1000"),
            Write("A", 1, "append l \"b\"", "ok"),
            Read("A", 1, "append l \"b\"", FULL),
            Write("A", 1, "clear l", "ok"),
            Write("A", 64, "append l \"b\"", "ok"),
            Read("A", 1, "append l \"b\"", FULL),
        ],
    },
];

#[test]
fn places_are_given_back(rt: HostRuntime) -> Result<(), Fail> {
    all_are_answered(rt.alloc(), &GIVEN_BACK)
}
