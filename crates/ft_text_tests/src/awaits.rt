//! Scripts of version 2: texts with awaits, their faults, and transcripts of them, worked out by hand.

use crate::judging::{Case, judged};
use crate::printing::USUAL;
use crate::scripts::{first_refused, first_without_its_fault};
use ft_history::Verdict;
use ft_model::{Call, Rule, Storage};
use ft_script::{TranscriptFault, parse, print_entry, print_script, read_transcript};
use std::alloc::Global;
use std::process::Abort;
use std::test::Fail;

/// Texts with a fault, and the line and the kind of the first one.
const FAULTS: [(&str, u32, u8); 69] = [
    // A line of the version that isn't the first that says anything.
    ("dict d\nversion 2", 2, 2),
    ("heap 64\nversion 2", 2, 2),
    ("tables 3 1\nversion 2", 2, 2),
    ("version 2\nversion 2", 2, 2),
    ("version 2\nlist l\nversion 2", 3, 2),
    ("list l\nversion", 2, 2),
    ("list l\nversion 3", 2, 2),
    ("thread A\nversion 2", 2, 2),
    ("version 2\nthread A\nversion 2", 3, 2),
    ("version 2\nthread A\norder A\nversion 2", 4, 2),
    ("Version 2", 1, 2),
    ("versions 2", 1, 2),
    // Its words.
    ("version", 1, 3),
    ("version 2 2", 1, 3),
    ("version 3 2", 1, 3),
    ("version 1", 1, 4),
    ("version 3", 1, 4),
    ("version 02", 1, 4),
    ("version 2x", 1, 4),
    ("version -2", 1, 4),
    ("version x", 1, 4),
    ("version \"2\"", 1, 4),
    ("\n# x\nversion 1", 3, 4),
    ("version \"", 1, 5),
    // Awaits without it, and where no call may stand.
    ("thread A\nquiesce\nthread B\nawait A.1", 4, 2),
    ("thread A\nawait", 2, 2),
    ("thread A\nawait A.0 1", 2, 2),
    ("await A.1", 1, 2),
    ("version 2\nawait A.1", 2, 2),
    ("version 2\nthread A\nquiesce\norder A\nawait A.1", 5, 2),
    // The words of an await.
    ("version 2\nthread A\nawait", 3, 3),
    ("version 2\nthread A\nawait A 1", 3, 3),
    (
        "version 2\nthread A\nquiesce\nthread B\nawait A.1 A.1",
        5,
        3,
    ),
    ("version 2\nthread A\nquiesce\nthread B\nawait \"A.1", 5, 5),
    ("version 2\nthread A\nquiesce\nthread B\nawait A", 5, 6),
    ("version 2\nthread A\nquiesce\nthread B\nawait A.", 5, 6),
    ("version 2\nthread A\nquiesce\nthread B\nawait A.0", 5, 6),
    ("version 2\nthread A\nquiesce\nthread B\nawait A.01", 5, 6),
    ("version 2\nthread A\nquiesce\nthread B\nawait A.-1", 5, 6),
    ("version 2\nthread A\nquiesce\nthread B\nawait A.+1", 5, 6),
    ("version 2\nthread A\nquiesce\nthread B\nawait A.1x", 5, 6),
    ("version 2\nthread A\nquiesce\nthread B\nawait A.1.", 5, 6),
    ("version 2\nthread A\nquiesce\nthread B\nawait A.1.1", 5, 6),
    ("version 2\nthread A\nquiesce\nthread B\nawait .1", 5, 6),
    ("version 2\nthread A\nquiesce\nthread B\nawait a.1", 5, 6),
    ("version 2\nthread A\nquiesce\nthread B\nawait 1.A", 5, 6),
    (
        "version 2\nthread A\nquiesce\nthread B\nawait \"A.1\"",
        5,
        6,
    ),
    ("version 2\nthread A\nquiesce\nthread B\nawait A,1", 5, 6),
    (
        "version 2\nthread A\nquiesce\nthread B\nawait AAAAAAAAAAAAAAAAAAAAAAAAAAAAAAAAA.1",
        5,
        6,
    ),
    ("version 2\nthread A\nquiesce\nthread B\nawait C.0", 5, 6),
    ("version 2\nthread A\nquiesce\nthread B\nawait B.x", 5, 6),
    // Awaits of the own thread, of a later one and of none.
    ("version 2\nthread A\nawait A.1", 3, 15),
    ("version 2\nthread A\nquiesce\nawait A.1", 4, 15),
    ("version 2\nthread A\nawait B.1\nthread B\nquiesce", 3, 15),
    ("version 2\nthread A\nquiesce\nthread B\nawait B.1", 5, 15),
    ("version 2\nthread A\nquiesce\nthread B\nawait C.1", 5, 15),
    (
        "version 2\nthread A\nquiesce\nthread B\nawait AAAAAAAAAAAAAAAAAAAAAAAAAAAAAAAA.1",
        5,
        15,
    ),
    // Indexes past the calls.
    ("version 2\nthread A\nquiesce\nthread B\nawait A.2", 5, 15),
    (
        "version 2\nthread A\nquiesce\nthread B\nawait A.4294967296",
        5,
        15,
    ),
    (
        "version 2\nthread A\nquiesce\nthread B\nawait A.4294967297",
        5,
        15,
    ),
    (
        "version 2\nthread A\nquiesce\nthread B\nawait A.18446744073709551617",
        5,
        15,
    ),
    (
        "version 2\nthread A\nquiesce\nthread B\nawait A.100000000000000000000000000000",
        5,
        15,
    ),
    ("version 2\nthread A\nthread B\nawait A.1", 4, 15),
    // Awaits in sections, and other faults of the thread.
    (
        "version 2\ndict d\nthread A\nquiesce\nthread B\nbegin d\nawait A.1",
        7,
        15,
    ),
    (
        "version 2\ndict d\nthread A\nquiesce\nthread B\nbegin d\nawait A.1\nend\nend",
        7,
        15,
    ),
    (
        "version 2\ndict d\nthread A\nquiesce\nthread B\nbegin d\nbegin d\nend\nawait A.1",
        9,
        15,
    ),
    (
        "version 2\ndict d\nthread A\nquiesce\nthread B\nbegin d\nawait A.0",
        7,
        6,
    ),
    (
        "version 2\nthread A\nquiesce\nthread B\nend\nawait A.1",
        5,
        9,
    ),
    (
        "version 2\ndict d\nthread A\nquiesce\nthread B\nawait A.1\nbegin d",
        8,
        10,
    ),
];

#[test]
fn each_await_has_its_fault_first(rt: HostRuntime) {
    assert_eq!(rt; first_without_its_fault(rt.alloc(), &FAULTS), None);
}

const TEXTS: [&str; 6] = [
    "version 2",
    "\n# x\n\n  version   2  \ndict d\n",
    "version 2\nthread A\nquiesce\nthread B\n  await   A.1",
    "version 2\nlist l\nthread A\nappend l 1\nthread B\nawait A.1\nappend l 2\norder B B A B",
    "version 2\ndict d\nthread A_1\nbegin d\nend\nthread B\nbegin d\nend\nawait A_1.2\nawait A_1.1\nbegin d\nend\nthread C\nawait B.3\nawait B.6\nawait A_1.1\n",
    "version 2\nthread A\nquiesce\nquiesce\nquiesce\nquiesce\nquiesce\nquiesce\nquiesce\nquiesce\nquiesce\nquiesce\nthread B\nawait A.10",
];

#[test]
fn scripts_with_awaits(rt: HostRuntime) {
    assert_eq!(rt; first_refused(rt.alloc(), &TEXTS), None);
}

/// Two threads, of which the second waits for the first.
const SCRIPT: &str = "version 2\nlist l\nthread A\nappend l 1\nthread B2\nawait A.1\nappend l 2\n";

/// The same without the await, and so of no version.
const OTHER: &str = "list l\nthread A\nappend l 1\nthread B2\nquiesce\nappend l 2\n";

#[test]
fn awaits_say_what_they_name(rt: HostRuntime) -> Result<(), Fail> {
    let script = parse(rt.alloc(), SCRIPT.as_bytes())?;
    let [_, second] = script.parts().threads.as_slice() else {
        return Err("two threads".into());
    };
    let [first, _] = second.calls.as_slice() else {
        return Err("two calls".into());
    };
    let named = Call::Await {
        thread: 0,
        index: 1,
    };
    assert!(rt; *first == named);
    Ok(())
}

/// What a script is printed as, with its usual tables between the two parts.
fn is_printed(alloc: Global, written: &str, head: &str, rest: &str) -> Result<bool, Fail> {
    let script = parse(alloc, written.as_bytes())?;
    let text = print_script(alloc, &script)?;
    let mut wanted = Vec::new(alloc);
    wanted.extend_from_slice(head.as_bytes())?;
    wanted.extend_from_slice(USUAL.as_bytes())?;
    wanted.extend_from_slice(rest.as_bytes())?;
    Ok(text.as_slice() == wanted.as_slice())
}

// The version is printed where a thread awaits another.
#[test]
fn prints_awaits(rt: HostRuntime) -> Result<(), Fail> {
    let alloc = rt.alloc();
    let rest = "heap 64\nthread A\nappend l 1\nthread B2\nawait A.1\nappend l 2\n";
    assert!(rt; is_printed(alloc, SCRIPT, "version 2\nlist l\n", rest)?);
    let none = "version 2\nlist l\nthread A\nappend l 1\n";
    let plain = "heap 64\nthread A\nappend l 1\n";
    assert!(rt; is_printed(alloc, none, "list l\n", plain)?);
    Ok(())
}

/// The first bad line of a transcript of a script, or 0 where there is none.
fn bad_line(alloc: Global, script: &str, text: &str) -> u32 {
    let Ok(script) = parse(alloc, script.as_bytes()) else {
        return u32::MAX;
    };
    match read_transcript(alloc, &script, text.as_bytes()) {
        Ok(_) => 0,
        Err(TranscriptFault::Line(number)) => number,
        Err(TranscriptFault::Memory) => u32::MAX,
    }
}

const GOOD_LINES: [&str; 6] = [
    "B2.1 r1 await A.1 = ok\n",
    "B2.1 r1 await A.2 = ok waited A\n",
    "A.1 w0 await B2.4294967295 = entered\n",
    "A.7 r0 await A.1 = MemoryError 3\n",
    "A.1 r0 await A.30 = 7\n",
    "A.1 w0 append l 1 = ok\nB2.1 r1 await A.1 = ok\nl = [1]\n",
];

#[test]
fn lines_of_awaits(rt: HostRuntime) -> Result<(), Fail> {
    let script = parse(rt.alloc(), SCRIPT.as_bytes())?;
    for text in &GOOD_LINES {
        assert_eq!(rt; bad_line(rt.alloc(), SCRIPT, *text), 0, "of {text:?}");
        let transcript = read_transcript(rt.alloc(), &script, text.as_bytes())?;
        let mut out = Vec::new(rt.alloc());
        for entry in &transcript.entries {
            out.extend_from_slice(&print_entry(rt.alloc(), &script, entry)?)?;
        }
        assert!(rt; text.as_bytes().starts_with(out.as_slice()), "at {text:?}");
    }
    Ok(())
}

const BAD_LINES: [&str; 14] = [
    "B2.1 r1 await = ok\n",
    "B2.1 r1 await A = ok\n",
    "B2.1 r1 await A. = ok\n",
    "B2.1 r1 await A.0 = ok\n",
    "B2.1 r1 await A.01 = ok\n",
    "B2.1 r1 await A.+1 = ok\n",
    "B2.1 r1 await A.4294967296 = ok\n",
    "B2.1 r1 await A.100000000000000000000000000000 = ok\n",
    "B2.1 r1 await C.1 = ok\n",
    "B2.1 r1 await l.1 = ok\n",
    "B2.1 r1 await A.1 A.1 = ok\n",
    "B2.1 r1 await A.1. = ok\n",
    "B2.1 r1 await  A.1 = ok\n",
    "B2.1 r1 await \"A.1\" = ok\n",
];

#[test]
fn other_lines_of_awaits(rt: HostRuntime) {
    for text in &BAD_LINES {
        assert_eq!(rt; bad_line(rt.alloc(), SCRIPT, *text), 1, "of {text:?}");
    }
    for text in &GOOD_LINES[..5] {
        assert_eq!(rt; bad_line(rt.alloc(), OTHER, *text), 1, "of {text:?}");
    }
}

const CASES: [Case<'static>; 6] = [
    Case {
        script: SCRIPT,
        transcript: "A.1 w0 append l 1 = ok\nB2.1 r1 await A.1 = ok\nB2.2 w1 append l 2 = ok\n",
        storage: Storage::Plain,
        verdict: Verdict::Legal,
    },
    // The call that is named stands below.
    Case {
        script: SCRIPT,
        transcript: "B2.1 r0 await A.1 = ok\nA.1 w0 append l 1 = ok\nB2.2 w1 append l 2 = ok\n",
        storage: Storage::Plain,
        verdict: Verdict::Not(1, Rule::Await),
    },
    // A read of the same stamp stands first, since its thread is declared first.
    Case {
        script: "version 2\nthread A\nquiesce\nthread B\nawait A.1\n",
        transcript: "A.1 r0 quiesce = ok\nB.1 r0 await A.1 = ok\n",
        storage: Storage::Plain,
        verdict: Verdict::Legal,
    },
    // Another call than the script's.
    Case {
        script: SCRIPT,
        transcript: "A.1 w0 append l 1 = ok\nB2.1 r1 await A.2 = ok\nB2.2 w1 append l 2 = ok\n",
        storage: Storage::Plain,
        verdict: Verdict::Not(2, Rule::Whole),
    },
    // A write, and another reply.
    Case {
        script: SCRIPT,
        transcript: "A.1 w0 append l 1 = ok\nB2.1 w1 await A.1 = ok\nB2.2 w1 append l 2 = ok\n",
        storage: Storage::Plain,
        verdict: Verdict::Not(2, Rule::Stamp),
    },
    Case {
        script: SCRIPT,
        transcript: "A.1 w0 append l 1 = ok\nB2.1 r1 await A.1 = MemoryError 3\nB2.2 w1 append l 2 = ok\n",
        storage: Storage::Plain,
        verdict: Verdict::Not(2, Rule::Reply),
    },
];

#[test]
fn histories_with_awaits(rt: HostRuntime) -> Result<(), Fail> {
    for case in &CASES {
        let verdict = judged(rt.alloc(), *case)?;
        assert_eq!(rt; verdict, case.verdict, "of {:?}", case.transcript);
    }
    Ok(())
}
