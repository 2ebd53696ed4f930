//! Scripts whose threads await each other, in the order of their turns and beside each other, and transcripts of them. The
//! expected texts are worked out by hand. Where awaits leave the calls one order alone, both commands come to them.

use super::checking::{Checked, LEGAL, is_found};
use super::running::check_run;
use super::runs::{Run, TWO_IN_TURN, case_of};
use super::{AMPLE, Case, call_check, check, check_commands};
use ft_model::Rule;
use ft_runner::Fault;
use std::alloc::{AllocError, Global};
use std::process::Abort;
use std::sync::Wait;
use std::test::Fail;
use std::thread::Threads;

/// Scripts that come to one history, whatever the turns.
const RUNS: [Run<'static>; 10] = [
    // Two threads await one call, and make no other.
    Run {
        entries: 3,
        input: "version 2\nlist l\nthread A\nappend l 1\nthread B\nawait A.1\nthread C\nawait A.1\n",
        put: "A.1 w0 append l 1 = ok\nB.1 r1 await A.1 = ok\nC.1 r1 await A.1 = ok\nl = [1]\n",
    },
    // One thread awaits a call twice, first of all and last of all.
    Run {
        entries: 4,
        input: "version 2\nlist l\nthread A\nappend l 1\nthread B\nawait A.1\nappend l 2\nawait A.1\n",
        put: "A.1 w0 append l 1 = ok\nB.1 r1 await A.1 = ok\nB.2 w1 append l 2 = ok\nB.3 r2 await A.1 = ok\nl = [1, 2]\n",
    },
    // The call is a read that raises, and draws no number.
    Run {
        entries: 3,
        input: "version 2\ndict d\nthread A\nget d 1\nthread B\nawait A.1\nset d 1 2\n",
        put: "A.1 r0 get d 1 = KeyError\nB.1 r0 await A.1 = ok\nB.2 w0 set d 1 2 = ok\nd = {1: 2}\n",
    },
    // The one table of the class is taken before the call.
    Run {
        entries: 3,
        input: "version 2\ntables 3 1\nlist l\nlist m\nthread A\nappend l 1\nappend m 1\nthread B\nawait A.2\n",
        put: "A.1 w0 append l 1 = ok\nA.2 r1 append m 1 = MemoryError 3\nB.1 r1 await A.2 = ok\nl = [1]\nm = []\n",
    },
    // A quiescent point, and the end and the begin of a section, are awaited.
    Run {
        entries: 13,
        input: "version 2\ndict d\nthread A\nbegin d\nset d 1 1\nend\nquiesce\nthread B\nawait A.4\nawait A.3\nawait A.1\nbegin d\nset d 2 2\nend\nthread C\nawait B.6\nawait B.4\nget d 2\n",
        put: "A.1 r0 begin d = entered\nA.2 w0 set d 1 1 = ok\nA.3 r1 end = kept\nA.4 r1 quiesce = ok\nB.1 r1 await A.4 = ok\nB.2 r1 await A.3 = ok\nB.3 r1 await A.1 = ok\nB.4 r1 begin d = entered\nB.5 w1 set d 2 2 = ok\nB.6 r2 end = kept\nC.1 r2 await B.6 = ok\nC.2 r2 await B.4 = ok\nC.3 r2 get d 2 = 2\nd = {1: 1, 2: 2}\n",
    },
    // An await is awaited, which is its thread's only call.
    Run {
        entries: 4,
        input: "version 2\nlist l\nthread A\nappend l 1\nthread B\nawait A.1\nthread C\nawait B.1\nappend l 2\n",
        put: "A.1 w0 append l 1 = ok\nB.1 r1 await A.1 = ok\nC.1 r1 await B.1 = ok\nC.2 w1 append l 2 = ok\nl = [1, 2]\n",
    },
    // Who awaits the last write finds both.
    Run {
        entries: 6,
        input: "version 2\ndict d\nset s\nthread A\nset d 1 5\nadd s 7\nthread B\nawait A.2\nget d 1\nhas s 7\npop s\n",
        put: "A.1 w0 set d 1 5 = ok\nA.2 w1 add s 7 = ok\nB.1 r2 await A.2 = ok\nB.2 r2 get d 1 = 5\nB.3 r2 has s 7 = True\nB.4 w2 pop s = 7\nd = {1: 5}\ns = set()\n",
    },
    // Reads of one stamp stand by thread, so a later read of the first thread stands before the await.
    Run {
        entries: 3,
        input: "version 2\nlist l\nthread A\nlen l\nlen l\nthread B\nawait A.1\norder A B A\n",
        put: "A.1 r0 len l = 0\nA.2 r0 len l = 0\nB.1 r0 await A.1 = ok\nl = []\n",
    },
    // The turns of the second thread are spent until the first one has made its call.
    Run {
        input: "version 2\nlist l\nthread A\nappend l 1\nthread B\nawait A.1\nappend l 2\norder B B B B B B B B A\n",
        ..TWO_IN_TURN
    },
    // Threads between the two have no calls.
    Run {
        input: "version 2\nlist l\nthread A\nappend l 1\nthread N\nthread M\nthread B\nawait A.1\nappend l 2\n",
        ..TWO_IN_TURN
    },
];

/// Scripts whose history is known in the order of their turns alone.
const TURNS: [Run<'static>; 3] = [
    // Who awaits the begin of a section waits for its lock, but not at the await.
    Run {
        entries: 5,
        input: "version 2\ndict d\nthread A\nbegin d\nset d 1 1\nend\nthread B\nawait A.1\nset d 2 2\norder A B B\n",
        put: "A.1 r0 begin d = entered\nB.1 r0 await A.1 = ok\nA.2 w0 set d 1 1 = ok\nA.3 r1 end = kept\nB.2 w1 set d 2 2 = ok waited A\nd = {1: 1, 2: 2}\n",
    },
    // The mark of the call before stays there, and turns that are spent on an await leave none.
    Run {
        entries: 6,
        input: "version 2\ndict d\nlist l\nthread A\nbegin d\nend\nappend l 1\nthread B\nset d 1 1\nawait A.3\nappend l 2\norder A B B A B B B B\n",
        put: "A.1 r0 begin d = entered\nA.2 r0 end = kept\nB.1 w0 set d 1 1 = ok waited A\nA.3 w1 append l 1 = ok\nB.2 r2 await A.3 = ok\nB.3 w2 append l 2 = ok\nd = {1: 1}\nl = [1, 2]\n",
    },
    // Two threads take turns at one list.
    Run {
        entries: 6,
        input: "version 2\nlist l\nthread A\nappend l 1\nappend l 3\nthread B\nawait A.1\nappend l 2\nawait A.2\nappend l 4\norder B A B B B A B B\n",
        put: "A.1 w0 append l 1 = ok\nB.1 r1 await A.1 = ok\nB.2 w1 append l 2 = ok\nA.2 w2 append l 3 = ok\nB.3 r3 await A.2 = ok\nB.4 w3 append l 4 = ok\nl = [1, 2, 3, 4]\n",
    },
];

/// A script whose history differs from run to run, with the numbers of its entries and of the lines that are written.
struct Varied {
    script: &'static str,
    entries: usize,
    lines: usize,
}

const VARIED: [Varied; 3] = [
    Varied {
        script: "version 2\nlist l\nthread A\nappend l 1\nappend l 3\nthread B\nawait A.1\nappend l 2\nawait A.2\nappend l 4\n",
        entries: 6,
        lines: 7,
    },
    // Two threads await the calls of one, and go on beside each other.
    Varied {
        script: "version 2\nlist l\nthread A\nappend l 1\nappend l 2\nthread B\nawait A.1\nappend l 3\nlen l\nthread C\nawait A.1\nappend l 4\nawait B.1\nitems l\n",
        entries: 9,
        lines: 10,
    },
    // Awaits between sections that want the same locks.
    Varied {
        script: "version 2\ndict d\nlist l\nthread A\nbegin d l\nset d 1 1\nappend l 1\nend\nquiesce\nthread B\nbegin d\nset d 2 2\nend\nawait A.5\nappend l 2\nthread C\nawait A.2\nawait B.5\npop l\nitems d\n",
        entries: 14,
        lines: 16,
    },
];

/// What an await was answered stands in the transcript.
const CHECKS: [Checked<'static>; 7] = [
    // The call that is awaited has the same stamp.
    Checked {
        script: "version 2\nlist l\nthread A\nlen l\nthread B\nawait A.1\n",
        transcript: "A.1 r0 len l = 0\nB.1 r0 await A.1 = ok\nl = []\n",
        ..LEGAL
    },
    // It is the second of its thread, and only the first stands above.
    Checked {
        script: "version 2\nlist l\nthread A\nlen l\nappend l 1\nthread B\nawait A.2\n",
        transcript: "A.1 r0 len l = 0\nB.1 r0 await A.2 = ok\nA.2 w0 append l 1 = ok\nl = [1]\n",
        status: 7,
        fault: Fault::NotLegal(2, Rule::Await),
        put: "not legal at 2: await\n",
        ..LEGAL
    },
    // It is another thread's that stands above.
    Checked {
        script: "version 2\nthread A\nquiesce\nthread B\nquiesce\nthread C\nawait B.1\n",
        transcript: "A.1 r0 quiesce = ok\nC.1 r0 await B.1 = ok\nB.1 r0 quiesce = ok\n",
        status: 7,
        fault: Fault::NotLegal(2, Rule::Await),
        put: "not legal at 2: await\n",
        ..LEGAL
    },
    // An await takes no lock, so it has no mark.
    Checked {
        script: "version 2\nlist l\nthread A\nappend l 1\nthread B\nawait A.1\nappend l 2\norder B B A B\n",
        transcript: "A.1 w0 append l 1 = ok\nB.1 r1 await A.1 = ok waited A\nB.2 w1 append l 2 = ok\nl = [1, 2]\n",
        status: 7,
        fault: Fault::NotLegal(2, Rule::Mark),
        put: "not legal at 2: mark\n",
        ..LEGAL
    },
    // Both are wrong, and the await comes first; the reply comes before both.
    Checked {
        script: "version 2\nlist l\nthread A\nappend l 1\nthread B\nawait A.1\nappend l 2\norder B B A B\n",
        transcript: "B.1 r0 await A.1 = ok waited A\nA.1 w0 append l 1 = ok\nB.2 w1 append l 2 = ok\nl = [1, 2]\n",
        status: 7,
        fault: Fault::NotLegal(1, Rule::Await),
        put: "not legal at 1: await\n",
        ..LEGAL
    },
    Checked {
        script: "version 2\nlist l\nthread A\nappend l 1\nthread B\nawait A.1\nappend l 2\norder B B A B\n",
        transcript: "B.1 r0 await A.1 = True waited A\nA.1 w0 append l 1 = ok\nB.2 w1 append l 2 = ok\nl = [1, 2]\n",
        status: 7,
        fault: Fault::NotLegal(1, Rule::Reply),
        put: "not legal at 1: reply\n",
        ..LEGAL
    },
    // The stamp is less than what the call that is awaited leaves.
    Checked {
        script: "version 2\nlist l\nthread A\nappend l 1\nthread B\nawait A.1\nappend l 2\norder B B A B\n",
        transcript: "A.1 w0 append l 1 = ok\nB.1 r0 await A.1 = ok\nB.2 w1 append l 2 = ok\nl = [1, 2]\n",
        status: 7,
        fault: Fault::NotLegal(2, Rule::Stamp),
        put: "not legal at 2: stamp\n",
        ..LEGAL
    },
];

/// Both commands come to this, and it is found legal.
fn check_both<R: Threads + Wait + Sync + Abort + AllocGlobal>(
    rt: &R,
    run: &Run,
) -> Result<(), Fail> {
    let case = Case {
        moves: AMPLE,
        ..case_of(run)
    };
    check_commands(rt, case, &["turns", "run"])?;
    let checked = call_check(rt.alloc(), run.input, run.put.as_bytes())?;
    assert_eq!(rt;
        checked.put.as_slice(),
        b"legal\n".as_slice(),
        "{:?}",
        run.put
    );
    Ok(())
}

#[test]
fn awaits_leave_calls_one_order(rt: HostRuntime) -> Result<(), Fail> {
    for run in &RUNS {
        check_both(&rt, run)?;
    }
    Ok(())
}

#[test]
fn turns_are_spent_on_awaits(rt: HostRuntime) -> Result<(), Fail> {
    for run in &TURNS {
        check(&rt, &case_of(run))?;
        is_found(&rt, &LEGAL, run.input, run.put)?;
    }
    Ok(())
}

#[test]
fn threads_that_await_others_run_beside_each_other(rt: HostRuntime) -> Result<(), Fail> {
    for varied in &VARIED {
        for _ in 0..10 {
            check_run(&rt, varied.script, varied.entries, varied.lines)?;
        }
    }
    Ok(())
}

#[test]
fn transcripts_with_awaits_are_checked(rt: HostRuntime) -> Result<(), Fail> {
    for checked in &CHECKS {
        is_found(&rt, checked, checked.script, checked.transcript)?;
    }
    Ok(())
}

/// A script, and the text of its history.
#[derive(Drop)]
struct Made {
    script: String,
    put: String,
}

/// Sixty-four threads, each of which awaits the last call of the one before it, and then appends its number.
fn chain(alloc: Global) -> Result<Made, AllocError> {
    let mut script = String::from_str(alloc, "version 2\nlist l\nthread T1\nappend l 1\n")?;
    let mut put = String::from_str(alloc, "T1.1 w0 append l 1 = ok\n")?;
    let mut items = String::from_str(alloc, "1")?;
    for thread in 2..65_u32 {
        let before = thread.saturating_sub(1);
        let last = before.min(2);
        let lines = format!(in alloc;
            "thread T{thread}\nawait T{before}.{last}\nappend l {thread}\n"
        )?;
        script.push_str(lines.as_str())?;
        let await_line = format!(in alloc; "T{thread}.1 r{before} await T{before}.{last} = ok\n")?;
        put.push_str(await_line.as_str())?;
        let own_line = format!(in alloc; "T{thread}.2 w{before} append l {thread} = ok\n")?;
        put.push_str(own_line.as_str())?;
        items.push_str(format!(in alloc; ", {thread}")?.as_str())?;
    }
    put.push_str(format!(in alloc; "l = [{items}]\n")?.as_str())?;
    Ok(Made { script, put })
}

#[test]
fn sixty_four_threads_await_in_a_chain(rt: HostRuntime) -> Result<(), Fail> {
    let made = chain(rt.alloc())?;
    let run = Run {
        entries: 127,
        input: made.script.as_str(),
        put: made.put.as_str(),
    };
    check_both(&rt, &run)
}

/// How many calls a thread makes, from 1 on, that awaits each call of all before it and makes three more: twice as many
/// as the one before.
fn calls_of(thread: u32) -> u32 {
    3u32.wrapping_shl(thread.saturating_sub(1))
}

/// The calls that it awaits, by thread and index: from the first one on, or from the last one on.
fn awaits_of(alloc: Global, thread: u32, from_last: bool) -> Result<Vec<(u32, u32)>, AllocError> {
    let mut awaits = Vec::new(alloc);
    for earlier in 1..thread {
        for index in 1..calls_of(earlier).saturating_add(1) {
            awaits.push((earlier, index))?;
        }
    }
    if from_last {
        awaits.reverse();
    }
    Ok(awaits)
}

/// Eight such threads. Each appends its number to a list, adds it to a set, and asks for the list's length.
fn all_awaited(alloc: Global, from_last: bool) -> Result<String, AllocError> {
    let mut script = String::from_str(alloc, "version 2\nlist l\nset s\n")?;
    for thread in 1..9_u32 {
        script.push_str(format!(in alloc; "thread T{thread}\n")?.as_str())?;
        for (earlier, index) in awaits_of(alloc, thread, from_last)? {
            script.push_str(format!(in alloc; "await T{earlier}.{index}\n")?.as_str())?;
        }
        let own = format!(in alloc; "append l {thread}\nadd s {thread}\nlen l\n")?;
        script.push_str(own.as_str())?;
    }
    Ok(script)
}

/// The lines of one of them. Its awaits begin with the last one, so they come after all calls of the others.
fn push_lines(put: &mut String, alloc: Global, thread: u32) -> Result<(), AllocError> {
    let writes = thread.saturating_sub(1).saturating_mul(2);
    let mut place = 1u32;
    for (earlier, index) in awaits_of(alloc, thread, true)? {
        let line = format!(in alloc;
            "T{thread}.{place} r{writes} await T{earlier}.{index} = ok\n"
        )?;
        put.push_str(line.as_str())?;
        place = place.saturating_add(1);
    }
    put.push_str(format!(in alloc;
        "T{thread}.{place} w{writes} append l {thread} = ok\n"
    )?.as_str())?;
    let (place, writes) = (place.saturating_add(1), writes.saturating_add(1));
    put.push_str(format!(in alloc; "T{thread}.{place} w{writes} add s {thread} = ok\n")?.as_str())?;
    let (place, writes) = (place.saturating_add(1), writes.saturating_add(1));
    put.push_str(format!(in alloc; "T{thread}.{place} r{writes} len l = {thread}\n")?.as_str())
}

/// What the eight threads come to that await the last call first.
fn text_of_all(alloc: Global) -> Result<String, AllocError> {
    let mut put = String::new(alloc);
    for thread in 1..9_u32 {
        push_lines(&mut put, alloc, thread)?;
    }
    put.push_str("l = [1, 2, 3, 4, 5, 6, 7, 8]\ns = {1, 2, 3, 4, 5, 6, 7, 8}\n")?;
    Ok(put)
}

// The eight threads make 3 + 6 + .. + 384 calls.
#[test]
fn each_call_of_all_earlier_threads_is_awaited(rt: HostRuntime) -> Result<(), Fail> {
    let alloc = rt.alloc();
    let script = all_awaited(alloc, true)?;
    let put = text_of_all(alloc)?;
    let run = Run {
        entries: 765,
        input: script.as_str(),
        put: put.as_str(),
    };
    check_both(&rt, &run)?;
    let script = all_awaited(alloc, false)?;
    check_run(&rt, script.as_str(), 765, 767)?;
    Ok(())
}
