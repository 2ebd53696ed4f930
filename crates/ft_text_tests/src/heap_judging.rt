//! Histories with MemoryErrors of heaps, judged: which calls put a value in a box, and after how many of
//! its own a thread's heap can be full. The verdicts are worked out by hand.

use crate::judging::{Case, judged};
use ft_history::Verdict;
use ft_model::{Rule, Storage};
use std::alloc::{AllocError, Global};
use std::process::Abort;
use std::test::Fail;

/// A history: thread A makes one call a number of times, each of them a write that is answered `ok`, and
/// then there are other calls. The heaps have the places that the head says, or 64.
#[derive(Clone, Copy)]
struct Filled<'a> {
    /// A first line of the script, or none.
    head: &'a str,
    /// The call of thread A.
    call: &'a str,
    /// How many times it makes this call.
    count: u32,
    /// What follows in the script.
    calls: &'a str,
    /// What follows in the transcript.
    lines: &'a str,
    verdict: Verdict,
}

const CONTAINERS: &str = "list l\nlist m\ndict d\nset s\nthread A\n";

/// A list of as many items as the largest table has, and one more.
const FULL_LIST: &str =
    "append l 1\nextend l l\nextend l l\nextend l l\nextend l l\nextend l l\nextend l l\nextend l l\nextend l l\nextend l l\nextend l l\nextend l l\nextend l l\nextend l l\nextend l l\nextend l l\nextend l l\nappend l 1000\n";

const ROWS: [Filled<'static>; 33] = [
    // As many values as the heap has places; after the error all is as it was.
    Filled {
        head: "",
        call: "append l 1000",
        count: 64,
        calls: "append l 1000\nlen l\n",
        lines: "A.65 r64 append l 1000 = MemoryError heap\nA.66 r64 len l = 64\n",
        verdict: Verdict::Legal,
    },
    // One value fewer.
    Filled {
        head: "",
        call: "append l 1000",
        count: 63,
        calls: "append l 1000\n",
        lines: "A.64 r63 append l 1000 = MemoryError heap\n",
        verdict: Verdict::Not(64, Rule::Memory),
    },
    // A call that goes well where the heap may be full is legal too.
    Filled {
        head: "",
        call: "append l 1000",
        count: 64,
        calls: "append l 1000\n",
        lines: "A.65 w64 append l 1000 = ok\n",
        verdict: Verdict::Legal,
    },
    // Heaps of 128 places.
    Filled {
        head: "heap 128\n",
        call: "append l 1000",
        count: 127,
        calls: "append l 1000\n",
        lines: "A.128 r127 append l 1000 = MemoryError heap\n",
        verdict: Verdict::Not(128, Rule::Memory),
    },
    Filled {
        head: "heap 128\n",
        call: "append l 1000",
        count: 128,
        calls: "append l 1000\n",
        lines: "A.129 r128 append l 1000 = MemoryError heap\n",
        verdict: Verdict::Legal,
    },
    // Integers from -5 to 256 and `None` are in no box; others and strings are.
    Filled {
        head: "",
        call: "append l 1000",
        count: 64,
        calls: "append l 5\n",
        lines: "A.65 r64 append l 5 = MemoryError heap\n",
        verdict: Verdict::Not(65, Rule::Memory),
    },
    Filled {
        head: "",
        call: "append l 1000",
        count: 64,
        calls: "append l 256\n",
        lines: "A.65 r64 append l 256 = MemoryError heap\n",
        verdict: Verdict::Not(65, Rule::Memory),
    },
    Filled {
        head: "",
        call: "append l 257",
        count: 64,
        calls: "append l 257\n",
        lines: "A.65 r64 append l 257 = MemoryError heap\n",
        verdict: Verdict::Legal,
    },
    Filled {
        head: "",
        call: "append l 1000",
        count: 64,
        calls: "append l -5\n",
        lines: "A.65 r64 append l -5 = MemoryError heap\n",
        verdict: Verdict::Not(65, Rule::Memory),
    },
    Filled {
        head: "",
        call: "append l -6",
        count: 64,
        calls: "append l -6\n",
        lines: "A.65 r64 append l -6 = MemoryError heap\n",
        verdict: Verdict::Legal,
    },
    Filled {
        head: "",
        call: "append l None",
        count: 64,
        calls: "append l 1000\n",
        lines: "A.65 r64 append l 1000 = MemoryError heap\n",
        verdict: Verdict::Not(65, Rule::Memory),
    },
    Filled {
        head: "",
        call: "append l \"a\"",
        count: 64,
        calls: "append l \"\"\n",
        lines: "A.65 r64 append l \"\" = MemoryError heap\n",
        verdict: Verdict::Legal,
    },
    // Calls of small values count for nothing.
    Filled {
        head: "",
        call: "append l 256",
        count: 64,
        calls: "append l 1000\n",
        lines: "A.65 r64 append l 1000 = MemoryError heap\n",
        verdict: Verdict::Not(65, Rule::Memory),
    },
    // A value that is taken out was put in a box nevertheless.
    Filled {
        head: "",
        call: "append l 1000",
        count: 64,
        calls: "pop l\nappend l 1000\n",
        lines: "A.65 w64 pop l = 1000\nA.66 r65 append l 1000 = MemoryError heap\n",
        verdict: Verdict::Legal,
    },
    // An item that is set, and one that isn't there.
    Filled {
        head: "",
        call: "append l 1000",
        count: 64,
        calls: "set l -64 1000\n",
        lines: "A.65 r64 set l -64 1000 = MemoryError heap\n",
        verdict: Verdict::Legal,
    },
    Filled {
        head: "",
        call: "append l 1000",
        count: 64,
        calls: "set l 64 1000\n",
        lines: "A.65 r64 set l 64 1000 = MemoryError heap\n",
        verdict: Verdict::Not(65, Rule::Memory),
    },
    Filled {
        head: "",
        call: "append l 1000",
        count: 64,
        calls: "set l -65 1000\n",
        lines: "A.65 r64 set l -65 1000 = MemoryError heap\n",
        verdict: Verdict::Not(65, Rule::Memory),
    },
    // A call that raised put no value in a box.
    Filled {
        head: "",
        call: "append l 1000",
        count: 63,
        calls: "set l 63 1000\nappend l 1000\n",
        lines: "A.64 r63 set l 63 1000 = IndexError\nA.65 r63 append l 1000 = MemoryError heap\n",
        verdict: Verdict::Not(65, Rule::Memory),
    },
    // Before another item.
    Filled {
        head: "",
        call: "insert l 0 1000",
        count: 64,
        calls: "insert l -100 1000\n",
        lines: "A.65 r64 insert l -100 1000 = MemoryError heap\n",
        verdict: Verdict::Legal,
    },
    // A value that is set over an equal one is put in a box each time.
    Filled {
        head: "",
        call: "set d 1 1000",
        count: 64,
        calls: "set d 1 1000\n",
        lines: "A.65 r64 set d 1 1000 = MemoryError heap\n",
        verdict: Verdict::Legal,
    },
    // A default is put in a box where the key isn't there.
    Filled {
        head: "",
        call: "set d 1 1000",
        count: 64,
        calls: "setdefault d 1 1000\n",
        lines: "A.65 r64 setdefault d 1 1000 = MemoryError heap\n",
        verdict: Verdict::Not(65, Rule::Memory),
    },
    Filled {
        head: "",
        call: "set d 1 1000",
        count: 64,
        calls: "setdefault d 2 1000\n",
        lines: "A.65 r64 setdefault d 2 1000 = MemoryError heap\n",
        verdict: Verdict::Legal,
    },
    Filled {
        head: "",
        call: "set d 1 1000",
        count: 63,
        calls: "setdefault d 1 2000\nset d 1 1000\n",
        lines: "A.64 w63 setdefault d 1 2000 = 1000\nA.65 r64 set d 1 1000 = MemoryError heap\n",
        verdict: Verdict::Not(65, Rule::Memory),
    },
    Filled {
        head: "",
        call: "set d 1 1000",
        count: 63,
        calls: "setdefault d 2 2000\nset d 1 1000\n",
        lines: "A.64 w63 setdefault d 2 2000 = 2000\nA.65 r64 set d 1 1000 = MemoryError heap\n",
        verdict: Verdict::Legal,
    },
    // Keys are in no box.
    Filled {
        head: "",
        call: "set d 1000 1",
        count: 64,
        calls: "set d 1 1000\n",
        lines: "A.65 r64 set d 1 1000 = MemoryError heap\n",
        verdict: Verdict::Not(65, Rule::Memory),
    },
    Filled {
        head: "",
        call: "append l 1000",
        count: 64,
        calls: "add s 1000\n",
        lines: "A.65 r64 add s 1000 = MemoryError heap\n",
        verdict: Verdict::Not(65, Rule::Memory),
    },
    // Values that are found in a container are put in no new box.
    Filled {
        head: "",
        call: "append l 1000",
        count: 64,
        calls: "extend m l\n",
        lines: "A.65 r64 extend m l = MemoryError heap\n",
        verdict: Verdict::Not(65, Rule::Memory),
    },
    Filled {
        head: "",
        call: "set d 1 1000",
        count: 64,
        calls: "update d d\n",
        lines: "A.65 r64 update d d = MemoryError heap\n",
        verdict: Verdict::Not(65, Rule::Memory),
    },
    // Another thread's boxes are in another heap.
    Filled {
        head: "",
        call: "append l 1000",
        count: 64,
        calls: "thread B\nappend l 1000\n",
        lines: "B.1 r64 append l 1000 = MemoryError heap\n",
        verdict: Verdict::Not(65, Rule::Memory),
    },
    Filled {
        head: "",
        call: "append l 1000",
        count: 63,
        calls: "append l 1000\nthread B\nappend l 1000\n",
        lines: "B.1 w63 append l 1000 = ok\nA.64 r64 append l 1000 = MemoryError heap\n",
        verdict: Verdict::Not(65, Rule::Memory),
    },
    Filled {
        head: "",
        call: "append l 1000",
        count: 64,
        calls: "append l 1000\nthread B\nappend l 1000\n",
        lines: "B.1 w64 append l 1000 = ok\nA.65 r65 append l 1000 = MemoryError heap\n",
        verdict: Verdict::Legal,
    },
    // Past the largest table a MemoryError over comes first, and no other.
    Filled {
        head: "",
        call: "append m 1000",
        count: 64,
        calls: FULL_LIST,
        lines: "A.65 w64 append l 1 = ok\nA.66 w65 extend l l = ok\nA.67 w66 extend l l = ok\nA.68 w67 extend l l = ok\nA.69 w68 extend l l = ok\nA.70 w69 extend l l = ok\nA.71 w70 extend l l = ok\nA.72 w71 extend l l = ok\nA.73 w72 extend l l = ok\nA.74 w73 extend l l = ok\nA.75 w74 extend l l = ok\nA.76 w75 extend l l = ok\nA.77 w76 extend l l = ok\nA.78 w77 extend l l = ok\nA.79 w78 extend l l = ok\nA.80 w79 extend l l = ok\nA.81 w80 extend l l = ok\nA.82 r81 append l 1000 = MemoryError heap\n",
        verdict: Verdict::Not(82, Rule::Memory),
    },
    Filled {
        head: "",
        call: "append m 1000",
        count: 64,
        calls: FULL_LIST,
        lines: "A.65 w64 append l 1 = ok\nA.66 w65 extend l l = ok\nA.67 w66 extend l l = ok\nA.68 w67 extend l l = ok\nA.69 w68 extend l l = ok\nA.70 w69 extend l l = ok\nA.71 w70 extend l l = ok\nA.72 w71 extend l l = ok\nA.73 w72 extend l l = ok\nA.74 w73 extend l l = ok\nA.75 w74 extend l l = ok\nA.76 w75 extend l l = ok\nA.77 w76 extend l l = ok\nA.78 w77 extend l l = ok\nA.79 w78 extend l l = ok\nA.80 w79 extend l l = ok\nA.81 w80 extend l l = ok\nA.82 r81 append l 1000 = MemoryError over\n",
        verdict: Verdict::Legal,
    },
];

/// The script of a row.
fn script_of(alloc: Global, row: Filled<'_>) -> Result<String, AllocError> {
    let mut text = String::new(alloc);
    text.push_str(row.head)?;
    text.push_str(CONTAINERS)?;
    for _ in 0..row.count {
        text.push_str(row.call)?;
        text.push_str("\n")?;
    }
    text.push_str(row.calls)?;
    Ok(text)
}

/// The transcript of a row.
fn transcript_of(alloc: Global, row: Filled<'_>) -> Result<String, AllocError> {
    let mut text = String::new(alloc);
    let call = row.call;
    for number in 0..row.count {
        let index = number + 1;
        text.push_str(&format!(in alloc; "A.{index} w{number} {call} = ok\n")?)?;
    }
    text.push_str(row.lines)?;
    Ok(text)
}

#[test]
fn a_heap_is_full_by_its_own_threads_boxings(rt: HostRuntime) -> Result<(), Fail> {
    let alloc = rt.alloc();
    for row in &ROWS {
        let script = script_of(alloc, *row)?;
        let transcript = transcript_of(alloc, *row)?;
        let case = Case {
            script: &script,
            transcript: &transcript,
            storage: Storage::Tables,
            verdict: row.verdict,
        };
        let verdict = judged(alloc, case)?;
        assert_eq!(rt; verdict, case.verdict, "of {:?}", row.lines);
    }
    Ok(())
}

#[test]
fn plain_containers_have_no_heaps(rt: HostRuntime) -> Result<(), Fail> {
    let alloc = rt.alloc();
    let script = script_of(alloc, ROWS[0])?;
    let transcript = transcript_of(alloc, ROWS[0])?;
    let case = Case {
        script: &script,
        transcript: &transcript,
        storage: Storage::Plain,
        verdict: Verdict::Not(65, Rule::Memory),
    };
    let verdict = judged(alloc, case)?;
    assert_eq!(rt; verdict, case.verdict);
    Ok(())
}
