//! Scripts in which tables are used up, or a container would pass the largest one: the calls that find none are answered
//! so, and the scripts go on. The expected texts are worked out by hand from what each call takes.

use super::long::count_of;
use super::runs::{Run, case_of};
use super::{
    AMPLE, Case, Moves, NO_SCRIPT, NO_SINK, NO_SOURCE, WHOLE, call, call_check, call_still, check,
    check_all,
};
use ft_runner::{Fault, NoGate};
use std::alloc::{AllocError, Global};
use std::process::Abort;
use std::sync::Wait;
use std::test::Fail;
use std::thread::Threads;

/// A script of two dicts, of which the first takes the one table.
const ONE_TABLE: &str = "tables 3 1\ndict d\ndict e\nthread A\nset d 1 0\nset e 1 0\nlen e\n";

/// Scripts of one thread in which a class of tables is used up.
const LACKING: [Run<'static>; 9] = [
    // The one table of class 3 is the first dict's.
    Run {
        entries: 3,
        input: ONE_TABLE,
        put: "A.1 w0 set d 1 0 = ok\nA.2 r1 set e 1 0 = MemoryError 3\nA.3 r1 len e = 0\nd = {1: 0}\ne = {}\n",
    },
    // The sixth key of `d` takes the one table of class 4.
    Run {
        entries: 13,
        input: "tables 4 1\ndict d\ndict e\nthread A\nset d 1 0\nset d 2 0\nset d 3 0\nset d 4 0\nset d 5 0\nset d 6 0\nset e 1 0\nset e 2 0\nset e 3 0\nset e 4 0\nset e 5 0\nset e 6 0\nlen e\n",
        put: "A.1 w0 set d 1 0 = ok\nA.2 w1 set d 2 0 = ok\nA.3 w2 set d 3 0 = ok\nA.4 w3 set d 4 0 = ok\nA.5 w4 set d 5 0 = ok\nA.6 w5 set d 6 0 = ok\nA.7 w6 set e 1 0 = ok\nA.8 w7 set e 2 0 = ok\nA.9 w8 set e 3 0 = ok\nA.10 w9 set e 4 0 = ok\nA.11 w10 set e 5 0 = ok\nA.12 r11 set e 6 0 = MemoryError 4\nA.13 r11 len e = 5\nd = {1: 0, 2: 0, 3: 0, 4: 0, 5: 0, 6: 0}\ne = {1: 0, 2: 0, 3: 0, 4: 0, 5: 0}\n",
    },
    // The fifth element of `s` takes the one table of class 5.
    Run {
        entries: 10,
        input: "tables 5 1\nset s\nset t\nthread A\nadd s 1\nadd s 2\nadd s 3\nadd s 4\nadd s 5\nadd t 1\nadd t 2\nadd t 3\nadd t 4\nadd t 5\n",
        put: "A.1 w0 add s 1 = ok\nA.2 w1 add s 2 = ok\nA.3 w2 add s 3 = ok\nA.4 w3 add s 4 = ok\nA.5 w4 add s 5 = ok\nA.6 w5 add t 1 = ok\nA.7 w6 add t 2 = ok\nA.8 w7 add t 3 = ok\nA.9 w8 add t 4 = ok\nA.10 r9 add t 5 = MemoryError 5\ns = {1, 2, 3, 4, 5}\nt = {1, 2, 3, 4}\n",
    },
    // Each key that was taken out has used an entry of the table, so the sixth one takes another table.
    Run {
        entries: 12,
        input: "tables 3 2\ndict d\ndict e\nthread A\nset d 0 0\ndel d 0\nset d 1 0\ndel d 1\nset d 2 0\ndel d 2\nset d 3 0\ndel d 3\nset d 4 0\ndel d 4\nset d 9 0\nset e 1 0\n",
        put: "A.1 w0 set d 0 0 = ok\nA.2 w1 del d 0 = ok\nA.3 w2 set d 1 0 = ok\nA.4 w3 del d 1 = ok\nA.5 w4 set d 2 0 = ok\nA.6 w5 del d 2 = ok\nA.7 w6 set d 3 0 = ok\nA.8 w7 del d 3 = ok\nA.9 w8 set d 4 0 = ok\nA.10 w9 del d 4 = ok\nA.11 w10 set d 9 0 = ok\nA.12 r11 set e 1 0 = MemoryError 3\nd = {9: 0}\ne = {}\n",
    },
    // `clear` gives the table up, and no quiescent point follows.
    Run {
        entries: 4,
        input: "tables 3 2\ndict d\ndict e\nthread A\nset d 1 0\nclear d\nset d 1 0\nset e 1 0\n",
        put: "A.1 w0 set d 1 0 = ok\nA.2 w1 clear d = ok\nA.3 w2 set d 1 0 = ok\nA.4 r3 set e 1 0 = MemoryError 3\nd = {1: 0}\ne = {}\n",
    },
    // `copyto` takes a table each time.
    Run {
        entries: 4,
        input: "tables 3 3\ndict d\ndict e\nthread A\nset d 1 0\ncopyto d e\ncopyto d d\ncopyto d e\n",
        put: "A.1 w0 set d 1 0 = ok\nA.2 w1 copyto d e = ok\nA.3 w2 copyto d d = ok\nA.4 r3 copyto d e = MemoryError 3\nd = {1: 0}\ne = {1: 0}\n",
    },
    // `copyto` of an empty dict takes none, and gives one up.
    Run {
        entries: 4,
        input: "tables 3 2\ndict d\ndict e\nthread A\nset e 1 0\ncopyto d e\nset e 1 0\nset d 1 0\n",
        put: "A.1 w0 set e 1 0 = ok\nA.2 w1 copyto d e = ok\nA.3 w2 set e 1 0 = ok\nA.4 r3 set d 1 0 = MemoryError 3\nd = {}\ne = {1: 0}\n",
    },
    // The ninth item of `l` takes the one table of class 4.
    Run {
        entries: 6,
        input: "tables 4 1\nlist l\nlist m\nthread A\nappend l 1\nextend l l\nextend l l\nextend l l\nappend l 1\nextend m l\n",
        put: "A.1 w0 append l 1 = ok\nA.2 w1 extend l l = ok\nA.3 w2 extend l l = ok\nA.4 w3 extend l l = ok\nA.5 w4 append l 1 = ok\nA.6 r5 extend m l = MemoryError 4\nl = [1, 1, 1, 1, 1, 1, 1, 1, 1]\nm = []\n",
    },
    // `xor` adds a fifth entry to the table of `s`, of which one is deleted, and takes the one table of class 4.
    Run {
        entries: 8,
        input: "tables 4 1\nset s\nset t\nset u\nthread A\nadd s 1\nadd s 2\nadd s 3\nadd s 4\nadd t 4\nadd t 5\nxor s t\nor u s\n",
        put: "A.1 w0 add s 1 = ok\nA.2 w1 add s 2 = ok\nA.3 w2 add s 3 = ok\nA.4 w3 add s 4 = ok\nA.5 w4 add t 4 = ok\nA.6 w5 add t 5 = ok\nA.7 w6 xor s t = ok\nA.8 r7 or u s = MemoryError 4\ns = {1, 2, 3, 5}\nt = {4, 5}\nu = set()\n",
    },
];

/// Scripts of two threads in which a dict gives up the one table of class 3 at its sixth key. It is free again when each
/// thread that is online has passed a quiescent point after that.
const REUSED: [Run<'static>; 3] = [
    // Both threads pass a quiescent point.
    Run {
        entries: 10,
        input: "tables 3 1\ndict d\ndict e\nthread A\nset d 1 0\nset d 2 0\nset d 3 0\nset d 4 0\nset d 5 0\nset d 6 0\nset e 1 0\nquiesce\nset e 2 0\nthread B\nquiesce\norder A A A A A A A B A A\n",
        put: "A.1 w0 set d 1 0 = ok\nA.2 w1 set d 2 0 = ok\nA.3 w2 set d 3 0 = ok\nA.4 w3 set d 4 0 = ok\nA.5 w4 set d 5 0 = ok\nA.6 w5 set d 6 0 = ok\nA.7 r6 set e 1 0 = MemoryError 3\nA.8 r6 quiesce = ok\nB.1 r6 quiesce = ok\nA.9 w6 set e 2 0 = ok\nd = {1: 0, 2: 0, 3: 0, 4: 0, 5: 0, 6: 0}\ne = {2: 0}\n",
    },
    // The other thread, which has been online from the first turn on, has passed none yet.
    Run {
        entries: 10,
        input: "tables 3 1\ndict d\ndict e\nthread A\nset d 1 0\nset d 2 0\nset d 3 0\nset d 4 0\nset d 5 0\nset d 6 0\nset e 1 0\nquiesce\nset e 2 0\nthread B\nquiesce\norder A A A A A A A A A B\n",
        put: "A.1 w0 set d 1 0 = ok\nA.2 w1 set d 2 0 = ok\nA.3 w2 set d 3 0 = ok\nA.4 w3 set d 4 0 = ok\nA.5 w4 set d 5 0 = ok\nA.6 w5 set d 6 0 = ok\nA.7 r6 set e 1 0 = MemoryError 3\nA.8 r6 quiesce = ok\nA.9 r6 set e 2 0 = MemoryError 3\nB.1 r6 quiesce = ok\nd = {1: 0, 2: 0, 3: 0, 4: 0, 5: 0, 6: 0}\ne = {}\n",
    },
    // The other thread has left after its last call.
    Run {
        entries: 10,
        input: "tables 3 1\ndict d\ndict e\nthread A\nset d 1 0\nset d 2 0\nset d 3 0\nset d 4 0\nset d 5 0\nset d 6 0\nset e 1 0\nquiesce\nset e 2 0\nthread B\nlen e\norder B A\n",
        put: "B.1 r0 len e = 0\nA.1 w0 set d 1 0 = ok\nA.2 w1 set d 2 0 = ok\nA.3 w2 set d 3 0 = ok\nA.4 w3 set d 4 0 = ok\nA.5 w4 set d 5 0 = ok\nA.6 w5 set d 6 0 = ok\nA.7 r6 set e 1 0 = MemoryError 3\nA.8 r6 quiesce = ok\nA.9 w6 set e 2 0 = ok\nd = {1: 0, 2: 0, 3: 0, 4: 0, 5: 0, 6: 0}\ne = {2: 0}\n",
    },
];

/// What the command writes of the script is this, and found legal.
fn comes_to<'a, R: Threads + Wait + Sync + Abort + AllocGlobal>(
    rt: &R,
    command: &'a str,
    run: &Run<'a>,
) -> Result<(), Fail> {
    let case = Case {
        command,
        ..case_of(run)
    };
    check(rt, &case)?;
    let checked = call_check(rt.alloc(), run.input, run.put.as_bytes())?;
    assert_eq!(rt;
        checked.put.as_slice(),
        b"legal\n".as_slice(),
        "at {:?}",
        run.input
    );
    Ok(())
}

#[test]
fn no_table_is_left(rt: HostRuntime) -> Result<(), Fail> {
    for run in &LACKING {
        comes_to(&rt, "turns", run)?;
        comes_to(&rt, "run", run)?;
    }
    Ok(())
}

#[test]
fn a_table_is_free_again_after_quiescent_points(rt: HostRuntime) -> Result<(), Fail> {
    for run in &REUSED {
        comes_to(&rt, "turns", run)?;
    }
    Ok(())
}

/// A sink that fails at a reply of MemoryError, and a source that fails.
const BROKEN_STREAMS: [Case<'static>; 2] = [
    Case {
        input: ONE_TABLE,
        moves: Moves { room: 47, ..WHOLE },
        put: "A.1 w0 set d 1 0 = ok\nA.2 r1 set e 1 0 = Memory",
        entries: 3,
        ..NO_SINK
    },
    Case {
        input: ONE_TABLE,
        moves: Moves {
            take_fails: 2,
            ..WHOLE
        },
        ..NO_SOURCE
    },
];

#[test]
fn a_stream_fails_where_no_table_is_left(rt: HostRuntime) -> Result<(), Fail> {
    check_all(&rt, &BROKEN_STREAMS)
}

/// A script with a list of one item that is doubled some times, and what is written of its calls.
fn doubled(alloc: Global, times: u32) -> Result<(String, String), AllocError> {
    let mut script = String::from_str(alloc, "list l\nthread A\nappend l 1\n")?;
    let mut lines = String::from_str(alloc, "A.1 w0 append l 1 = ok\n")?;
    for (write, index) in (1..times.saturating_add(1)).zip(2..u32::MAX) {
        script.push_str("extend l l\n")?;
        let line = format!(in alloc; "A.{index} w{write} extend l l = ok\n")?;
        lines.push_str(line.as_str())?;
    }
    Ok((script, lines))
}

/// A list that is doubled, calls after that, and what is written of them.
#[derive(Clone, Copy)]
struct Doubling<'a> {
    times: u32,
    calls: &'a str,
    replies: &'a str,
    entries: usize,
}

const FILLED: [Doubling<'static>; 2] = [
    // The list has the 4,096 items for which a table of class 12 has room, and goes on in one of class 13.
    Doubling {
        times: 12,
        calls: "append l 1\nget l 4095\n",
        replies: "A.14 w13 append l 1 = ok\nA.15 r14 get l 4095 = 1\nl = [1, 1, ",
        entries: 15,
    },
    // It has the 65,536 items for which the largest table has room.
    Doubling {
        times: 16,
        calls: "append l 1\nget l 65535\n",
        replies: "A.18 r17 append l 1 = MemoryError over\nA.19 r17 get l 65535 = 1\nl = [1, 1, ",
        entries: 19,
    },
];

/// The script is run in the order of its turns and in a thread: both write the same, and begin with the lines.
fn runs_alike<R: Threads + Wait + Sync + Abort + AllocGlobal>(
    rt: &R,
    script: &str,
    lines: &str,
    entries: usize,
) -> Result<(), Fail> {
    let alloc = rt.alloc();
    let ran = call_still(alloc, "turns", script.as_bytes().to_vec(alloc)?, AMPLE)?;
    let count = count_of(&ran.put, b'\n');
    assert_eq!(rt;
        (ran.status, ran.entries, count),
        (0, entries, entries.saturating_add(1)),
        "at {lines:?}"
    );
    assert!(rt; ran.put.starts_with(lines.as_bytes()), "at {lines:?}");
    let alone = call(rt, "run", script, AMPLE, &NoGate)?;
    assert_eq!(rt; alone.put.as_slice(), ran.put.as_slice(), "at {lines:?}");
    let checked = call_check(alloc, script, &ran.put)?;
    assert_eq!(rt;
        checked.put.as_slice(),
        b"legal\n".as_slice(),
        "at {lines:?}"
    );
    Ok(())
}

#[test]
fn a_list_fills_the_largest_table(rt: HostRuntime) -> Result<(), Fail> {
    for row in &FILLED {
        let (mut script, mut lines) = doubled(rt.alloc(), row.times)?;
        script.push_str(row.calls)?;
        lines.push_str(row.replies)?;
        runs_alike(&rt, script.as_str(), lines.as_str(), row.entries)?;
    }
    Ok(())
}

#[test]
fn a_list_past_the_largest_table_is_not_legal(rt: HostRuntime) -> Result<(), Fail> {
    let (script, transcript) = doubled(rt.alloc(), 17)?;
    let checked = call_check(rt.alloc(), script.as_str(), transcript.as_bytes())?;
    assert_eq!(rt;
        (checked.status, checked.put.as_slice()),
        (7, b"not legal at 18: memory\n".as_slice())
    );
    Ok(())
}

/// As many tables as a class may have.
const MANY: Run<'static> = Run {
    entries: 1,
    input: "tables 3 1024\ndict d\nthread A\nset d 1 0\n",
    put: "A.1 w0 set d 1 0 = ok\nd = {1: 0}\n",
};

/// One more, and a class that there isn't.
const TOO_MANY: [Case<'static>; 2] = [
    Case {
        input: "tables 3 1025\n",
        fault: Fault::Script(1, 12),
        reported: "ftpy: line 1: 12 limit tables\n",
        ..NO_SCRIPT
    },
    Case {
        input: "tables 17 1\n",
        fault: Fault::Script(1, 12),
        reported: "ftpy: line 1: 12 limit class\n",
        ..NO_SCRIPT
    },
];

#[test]
fn tables_are_as_many_as_the_script_says(rt: HostRuntime) -> Result<(), Fail> {
    comes_to(&rt, "turns", &MANY)?;
    comes_to(&rt, "run", &MANY)?;
    check_all(&rt, &TOO_MANY)
}
