//! Scripts whose threads are run beside each other. What several threads write differs from run to run, so it is checked;
//! the expected texts are those of one thread.

use super::long::{count_of, long_script};
use super::runs::{THREE_IN_TURN, TWO_IN_TURN, case_of};
use super::{AMPLE, Case, NO_SCRIPT, NO_SINK, NO_SOURCE, call, call_check, check, check_all};
use ft_runner::NoGate;
use std::alloc::{AllocError, Global};
use std::process::Abort;
use std::sync::Wait;
use std::test::Fail;
use std::thread::Threads;

/// Sixty-four threads, each with a section on two dicts in which it sets a key of its own in both.
fn crowd(alloc: Global) -> Result<String, AllocError> {
    let mut text = String::from_str(alloc, "dict d\ndict e\n")?;
    for key in 1..65_u32 {
        let lines = format!(in alloc;
            "thread T{key}\nbegin d e\nset d {key} 0\nset e {key} 0\nend\n"
        )?;
        text.push_str(lines.as_str())?;
    }
    Ok(text)
}

/// The last line of a text that ends with a line feed.
fn last_line(text: &[u8]) -> &[u8] {
    match text.rsplit(|byte| *byte == b'\n').nth(1) {
        Some(line) => line,
        None => &[],
    }
}

/// Runs a script: it is to come to that many entries and lines, and to a history that is found legal. What was written is
/// returned.
pub(super) fn check_run<R: Threads + Wait + Sync + Abort + AllocGlobal>(
    rt: &R,
    script: &str,
    entries: usize,
    lines: usize,
) -> Result<Vec<u8>, Fail> {
    let run = call(rt, "run", script, AMPLE, &NoGate)?;
    assert_eq!(rt;
        (run.status, run.entries, count_of(&run.put, b'\n')),
        (0, entries, lines)
    );
    assert_eq!(rt; run.reported.as_slice(), b"".as_slice());
    let checked = call_check(rt.alloc(), script, &run.put)?;
    assert_eq!(rt; checked.put.as_slice(), b"legal\n".as_slice());
    Ok(run.put)
}

#[test]
fn two_threads_set_keys_of_one_dict(rt: HostRuntime) -> Result<(), Fail> {
    let script = long_script(rt.alloc())?;
    let put = check_run(&rt, script.as_str(), 2001, 2002)?;
    assert_eq!(rt; count_of(last_line(&put), b':'), 2000);
    Ok(())
}

#[test]
fn sixty_four_threads_have_sections_on_two_dicts(rt: HostRuntime) -> Result<(), Fail> {
    let script = crowd(rt.alloc())?;
    check_run(&rt, script.as_str(), 256, 258)?;
    Ok(())
}

const ENDS_ILL: [Case<'static>; 3] = [
    Case {
        command: "run",
        ..NO_SCRIPT
    },
    Case {
        command: "run",
        ..NO_SOURCE
    },
    Case {
        command: "run",
        ..NO_SINK
    },
];

#[test]
fn a_run_that_does_not_end_well_is_reported(rt: HostRuntime) -> Result<(), Fail> {
    check_all(&rt, &ENDS_ILL)
}

// Awaits leave the threads one order alone, so what is written is the same in each run.
#[test]
fn threads_that_await_others_come_after_them(rt: HostRuntime) -> Result<(), Fail> {
    for run in &[TWO_IN_TURN, THREE_IN_TURN] {
        let case = Case {
            command: "run",
            ..case_of(run)
        };
        check(&rt, &case)?;
    }
    Ok(())
}
