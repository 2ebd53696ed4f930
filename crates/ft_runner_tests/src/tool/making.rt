//! Scripts that are made, and the summaries of their runs.

use super::{AMPLE, Case, EXAMPLE, Moves, WHOLE, call_still, check_commands};
use ft_runner::Fault;
use std::test::Fail;

/// The script of one call, which is a `discard` by the numbers of the generator.
const MADE: &str =
    "heap 4096\ntables 12 16\ndict d\nlist l\nset s\nthread A\ndiscard s 346\nthread B\nthread C\nthread D\n";

const SUMMARY: &str = "calls 1\nwrites 1\nKeyError 0\nIndexError 0\nMemoryError 0\nd 0\nl 0\ns 0\n";

/// The source isn't asked, and so doesn't fail.
const MAKES: Case<'static> = Case {
    moves: Moves {
        take_fails: 1,
        ..WHOLE
    },
    put: MADE,
    entries: 0,
    ..EXAMPLE
};

const FAILS: Case<'static> = Case {
    moves: Moves {
        most: 7,
        take_fails: 1,
        put_fails: 2,
        ..WHOLE
    },
    status: 4,
    fault: Fault::Write,
    put: "heap 40",
    reported: "ftpy: write fault\n",
    ..MAKES
};

const SCRIPTS: [&str; 3] = ["make 1", "make -- 1", "make 1 --"];

const SUMMARIES: [&str; 4] = [
    "make 1 turns",
    "make -- 1 turns",
    "make 1 -- turns",
    "make 1 turns --",
];

#[test]
fn scripts_are_made(rt: HostRuntime) -> Result<(), Fail> {
    check_commands(&rt, MAKES, &SCRIPTS)?;
    check_commands(&rt, FAILS, &SCRIPTS)
}

#[test]
fn runs_of_made_scripts_are_summed_up(rt: HostRuntime) -> Result<(), Fail> {
    let made = Case {
        put: SUMMARY,
        entries: 1,
        ..MAKES
    };
    check_commands(&rt, made, &SUMMARIES)?;
    let cut = Case {
        put: "calls 1",
        entries: 1,
        ..FAILS
    };
    check_commands(&rt, cut, &SUMMARIES)
}

/// What CPython's own dict, list and set come to, where the four threads of this made script make a call
/// each in turn.
const TWENTY_THOUSAND: &str =
    "calls 20000\nwrites 11036\nKeyError 3026\nIndexError 435\nMemoryError 0\nd 500\nl 2513\ns 468\n";

#[test]
fn twenty_thousand_calls_are_run(rt: HostRuntime) -> Result<(), Fail> {
    let alloc = rt.alloc();
    let summary = call_still(alloc, "make 20000 turns", Vec::new(alloc), AMPLE)?;
    assert_eq!(rt; summary.status, 0);
    assert_eq!(rt; summary.put.as_slice(), TWENTY_THOUSAND.as_bytes());
    assert_eq!(rt; (summary.entries, summary.is_closed), (20_000, true));
    let again = call_still(alloc, "make 20000 turns", Vec::new(alloc), AMPLE)?;
    assert_eq!(rt; again.put.as_slice(), summary.put.as_slice());
    Ok(())
}
