//! Transcripts that are checked, and what is found. The verdicts are worked out by hand.

use super::{Case, EXAMPLE, Moves, SCRIPT, TEXT, WHOLE, check, check_all};
use ft_model::Rule;
use ft_runner::Fault;
use std::process::Abort;
use std::sync::Wait;
use std::test::Fail;
use std::thread::Threads;

/// A script, a transcript of it, and what is found.
#[derive(Clone, Copy)]
pub(super) struct Checked<'a> {
    pub(super) script: &'a str,
    pub(super) transcript: &'a str,
    pub(super) status: u8,
    pub(super) fault: Fault,
    pub(super) put: &'a str,
    pub(super) reported: &'a str,
}

pub(super) const LEGAL: Checked<'static> = Checked {
    script: SCRIPT,
    transcript: TEXT,
    status: 0,
    fault: Fault::Clean,
    put: "legal\n",
    reported: "",
};

pub(super) const NESTED: &str =
    "list l\ndict d\nthread A\nbegin d\nbegin l\nappend l 1\nend\nend\nthread B\nbegin l\nappend l 2\nend\nthread C\nset d 1 1\norder B A A C B B\n";

const AWAITING: &str = "version 2\nlist l\nthread A\nappend l 1\nthread B\nawait A.1\nappend l 2\n";

const CHECKS: [Checked<'static>; 15] = [
    LEGAL,
    // The call that is awaited stands above, and below.
    Checked {
        script: AWAITING,
        transcript: "A.1 w0 append l 1 = ok\nB.1 r1 await A.1 = ok\nB.2 w1 append l 2 = ok\nl = [1, 2]\n",
        ..LEGAL
    },
    Checked {
        script: AWAITING,
        transcript: "B.1 r0 await A.1 = ok\nA.1 w0 append l 1 = ok\nB.2 w1 append l 2 = ok\nl = [1, 2]\n",
        status: 7,
        fault: Fault::NotLegal(1, Rule::Await),
        put: "not legal at 1: await\n",
        ..LEGAL
    },
    Checked {
        script: NESTED,
        transcript: "A.1 r0 begin d = entered\nB.1 r0 begin l = entered\nC.1 w0 set d 1 1 = ok\nB.2 w1 append l 2 = ok\nA.2 r2 begin l = entered waited B\nB.3 r2 end = kept\nA.3 w2 append l 1 = ok\nA.4 r3 end = kept\nA.5 r3 end = suspended 1\nl = [2, 1]\nd = {1: 1}\n",
        ..LEGAL
    },
    // A script without lines, and a transcript without lines.
    Checked {
        script: "",
        transcript: "",
        ..LEGAL
    },
    // Another thread wrote on the section.
    Checked {
        script: NESTED,
        transcript: "A.1 r0 begin d = entered\nB.1 r0 begin l = entered\nC.1 w0 set d 1 1 = ok\nB.2 w1 append l 2 = ok\nA.2 r2 begin l = entered waited B\nB.3 r2 end = kept\nA.3 w2 append l 1 = ok\nA.4 r3 end = kept\nA.5 r3 end = kept\nl = [2, 1]\nd = {1: 1}\n",
        status: 7,
        fault: Fault::NotLegal(9, Rule::Kept),
        put: "not legal at 9: kept\n",
        reported: "",
    },
    Checked {
        transcript: "A.1 w0 set d \"a\" 1 = ok\n",
        status: 7,
        fault: Fault::NotLegal(2, Rule::Missing),
        put: "not legal at 2: missing\n",
        ..LEGAL
    },
    Checked {
        transcript: "A.1 w1 set d \"a\" 1 = ok\nA.2 r1 get d \"a\" = 1\nd = {\"a\": 1}\n",
        status: 7,
        fault: Fault::NotLegal(1, Rule::Stamp),
        put: "not legal at 1: stamp\n",
        ..LEGAL
    },
    // Another content, none, and one too many.
    Checked {
        transcript: "A.1 w0 set d \"a\" 1 = ok\nA.2 r1 get d \"a\" = 1\nd = {\"a\": 2}\n",
        status: 7,
        fault: Fault::NotLegal(3, Rule::World),
        put: "not legal at 3: world\n",
        ..LEGAL
    },
    Checked {
        transcript: "A.1 w0 set d \"a\" 1 = ok\nA.2 r1 get d \"a\" = 1\n",
        status: 7,
        fault: Fault::NotLegal(3, Rule::World),
        put: "not legal at 3: world\n",
        ..LEGAL
    },
    Checked {
        transcript: "A.1 w0 set d \"a\" 1 = ok\nA.2 r1 get d \"a\" = 1\nd = {\"a\": 1}\nd = {\"a\": 1}\n",
        status: 7,
        fault: Fault::NotLegal(4, Rule::World),
        put: "not legal at 4: world\n",
        ..LEGAL
    },
    Checked {
        transcript: "A.1 w0 set d \"a\" 1 ok\n",
        status: 8,
        fault: Fault::Transcript(1),
        put: "",
        reported: "ftpy: transcript line 1\n",
        ..LEGAL
    },
    // The line of an entry stands after one of a content.
    Checked {
        transcript: "A.1 w0 set d \"a\" 1 = ok\nd = {\"a\": 1}\nA.2 r1 get d \"a\" = 1\n",
        status: 8,
        fault: Fault::Transcript(3),
        put: "",
        reported: "ftpy: transcript line 3\n",
        ..LEGAL
    },
    Checked {
        script: "dict d\nthread A\nset d 1\n",
        status: 1,
        fault: Fault::Script(3, 3),
        put: "",
        reported: "ftpy: line 3: 3 wrong count of words\n",
        ..LEGAL
    },
    // The first of two such lines parts the input.
    Checked {
        script: "dict d\n---\nthread A\n",
        transcript: "d = {}\n",
        status: 8,
        fault: Fault::Transcript(1),
        put: "",
        reported: "ftpy: transcript line 1\n",
    },
];

/// The transcript has no line before it.
const UNPARTED: Case<'static> = Case {
    command: "check",
    input: "",
    status: 8,
    fault: Fault::Transcript(1),
    put: "",
    reported: "ftpy: transcript line 1\n",
    entries: 0,
    ..EXAMPLE
};

/// The input is such a line alone.
const PARTED: Case<'static> = Case {
    input: "---",
    status: 0,
    fault: Fault::Clean,
    put: "legal\n",
    reported: "",
    ..UNPARTED
};

const LINES: [Case<'static>; 7] = [
    UNPARTED,
    Case {
        input: SCRIPT,
        ..UNPARTED
    },
    Case {
        input: "#---\n",
        ..UNPARTED
    },
    Case {
        input: "# ---\n#",
        ..UNPARTED
    },
    Case {
        input: "----\n",
        status: 1,
        fault: Fault::Script(1, 2),
        reported: "ftpy: line 1: 2 unknown word\n",
        ..UNPARTED
    },
    // The last line feed may be missing.
    PARTED,
    Case {
        input: "dict d\nthread A\nset d \"a\" 1\nget d \"a\"\n---",
        status: 7,
        fault: Fault::NotLegal(1, Rule::Missing),
        put: "not legal at 1: missing\n",
        ..PARTED
    },
];

/// The sink fails at its second piece.
const NO_SINK: Case<'static> = Case {
    input: "---\n",
    moves: Moves {
        most: 3,
        put_fails: 2,
        ..WHOLE
    },
    status: 4,
    fault: Fault::Write,
    put: "leg",
    reported: "ftpy: write fault\n",
    ..PARTED
};

const BROKEN_STREAMS: [Case<'static>; 3] = [
    Case {
        moves: Moves {
            most: 3,
            take_fails: 2,
            ..WHOLE
        },
        status: 3,
        fault: Fault::Read,
        put: "",
        reported: "ftpy: read fault\n",
        ..NO_SINK
    },
    NO_SINK,
    // A broken rule stays the fault.
    Case {
        input: "thread A\nquiesce\n---\n",
        status: 7,
        fault: Fault::NotLegal(1, Rule::Missing),
        put: "not",
        reported: "",
        ..NO_SINK
    },
];

/// What is found of the transcript after the script is what is said.
pub(super) fn is_found<R: Threads + Wait + Sync + Abort + AllocGlobal>(
    rt: &R,
    checked: &Checked,
    script: &str,
    transcript: &str,
) -> Result<(), Fail> {
    let input = format!(in rt.alloc(); "{script}---\n{transcript}")?;
    let case = Case {
        command: "check",
        input: input.as_str(),
        status: checked.status,
        fault: checked.fault,
        put: checked.put,
        reported: checked.reported,
        entries: 0,
        ..EXAMPLE
    };
    check(rt, &case)
}

#[test]
fn transcripts_are_checked(rt: HostRuntime) -> Result<(), Fail> {
    for checked in &CHECKS {
        is_found(&rt, checked, checked.script, checked.transcript)?;
    }
    Ok(())
}

#[test]
fn a_transcript_stands_after_the_line(rt: HostRuntime) -> Result<(), Fail> {
    check_all(&rt, &LINES)
}

#[test]
fn a_check_whose_stream_fails_is_reported(rt: HostRuntime) -> Result<(), Fail> {
    check_all(&rt, &BROKEN_STREAMS)
}
