//! Streams that fail at each of their calls, texts that are cut at each of their bytes, and scripts at the limits. The
//! expected texts and the places of the cuts are worked out by hand.

use super::checking::NESTED;
use super::long::{COMMENT, Long, check_long, count_of};
use super::{
    AMPLE, Case, EXAMPLE, Moves, NO_COMMAND, NO_SCRIPT, NO_SINK, NO_SOURCE, TEXT, WHOLE,
    call_check, call_still, check, check_all, check_commands,
};
use ft_model::Rule;
use ft_runner::Fault;
use std::alloc::{AllocError, Global};
use std::process::Abort;
use std::sync::Wait;
use std::test::Fail;
use std::thread::Threads;

/// Two threads with sections: one waits inside of a section of its own, which is suspended.
const SECTIONS: &str =
    "list l\ndict d\nthread A\nbegin d\nbegin l\nappend l 1\nend\nend\nthread B\nbegin l\nappend l 2\nend\norder B A A B B\n";

const SECTIONS_TEXT: &str =
    "A.1 r0 begin d = entered\nB.1 r0 begin l = entered\nB.2 w0 append l 2 = ok\nA.2 r1 begin l = entered waited B\nB.3 r1 end = kept\nA.3 w1 append l 1 = ok\nA.4 r2 end = kept\nA.5 r2 end = suspended 1\nl = [2, 1]\nd = {}\n";

/// How many bytes of it are a script too: with all sections ended, up to the end of a word or of a line.
const SCRIPT_CUTS: [usize; 23] = [
    0, 6, 7, 13, 14, 22, 23, 57, 58, 66, 67, 89, 90, 97, 98, 99, 100, 101, 102, 103, 104, 105, 106,
];

/// The nine entries that `NESTED` has in the order of its turns, and its two contents.
const NESTED_TEXT: &str =
    "A.1 r0 begin d = entered\nB.1 r0 begin l = entered\nC.1 w0 set d 1 1 = ok\nB.2 w1 append l 2 = ok\nA.2 r2 begin l = entered waited B\nB.3 r2 end = kept\nA.3 w2 append l 1 = ok\nA.4 r3 end = kept\nA.5 r3 end = suspended 1\nl = [2, 1]\nd = {1: 1}\n";

/// A call with streams of seven bytes, and how many pieces are taken and put.
#[derive(Clone, Copy)]
struct Counted<'a> {
    case: Case<'a>,
    /// The end of the source is one piece more, and comes last.
    takes: u64,
    puts: usize,
}

const SEVEN: Moves = Moves { most: 7, ..WHOLE };

const COUNTED: [Counted<'static>; 2] = [
    Counted {
        case: Case {
            input: SECTIONS,
            moves: SEVEN,
            put: SECTIONS_TEXT,
            entries: 8,
            ..EXAMPLE
        },
        takes: 17,
        puts: 30,
    },
    Counted {
        case: Case {
            command: "run",
            moves: SEVEN,
            ..EXAMPLE
        },
        takes: 7,
        puts: 9,
    },
];

/// The source fails at each of the calls that are made of it.
fn source_fails<R: Threads + Wait + Sync + Abort + AllocGlobal>(
    rt: &R,
    row: &Counted,
) -> Result<(), Fail> {
    for take_fails in 1..=row.takes {
        let fails = Case {
            moves: Moves {
                take_fails,
                ..SEVEN
            },
            status: 3,
            fault: Fault::Read,
            put: "",
            reported: "ftpy: read fault\n",
            entries: 0,
            ..row.case
        };
        check(rt, &fails)?;
    }
    // It isn't called again.
    let take_fails = row.takes.saturating_add(1);
    let moves = Moves {
        take_fails,
        ..SEVEN
    };
    check(rt, &Case { moves, ..row.case })
}

#[test]
fn a_source_fails_at_each_call(rt: HostRuntime) -> Result<(), Fail> {
    for row in &COUNTED {
        source_fails(&rt, row)?;
    }
    Ok(())
}

/// The streams of a call whose sink fails after that many pieces.
fn moves_after(pieces: usize) -> Moves {
    let put_fails = (pieces as u64).saturating_add(1);
    Moves { put_fails, ..SEVEN }
}

/// The sink fails at each of the calls that are made of it, after pieces of seven bytes each.
fn sink_fails<R: Threads + Wait + Sync + Abort + AllocGlobal>(
    rt: &R,
    row: &Counted,
) -> Result<(), Fail> {
    for pieces in 0..row.puts {
        let part = row.case.put.get(..pieces.saturating_mul(7));
        let fails = Case {
            moves: moves_after(pieces),
            status: 4,
            fault: Fault::Write,
            put: part.ok_or("no such part")?,
            reported: "ftpy: write fault\n",
            ..row.case
        };
        check(rt, &fails)?;
    }
    let whole = Case {
        moves: moves_after(row.puts),
        ..row.case
    };
    check(rt, &whole)
}

#[test]
fn a_sink_fails_at_each_call(rt: HostRuntime) -> Result<(), Fail> {
    for row in &COUNTED {
        sink_fails(&rt, row)?;
    }
    Ok(())
}

#[test]
fn a_script_is_cut_at_each_byte(rt: HostRuntime) -> Result<(), Fail> {
    let alloc = rt.alloc();
    let bytes = SECTIONS.as_bytes();
    for cut in 0..=bytes.len() {
        let part = bytes.get(..cut).ok_or("no such part")?;
        let called = call_still(alloc, "turns", part.to_vec(alloc)?, AMPLE)?;
        let is_script = SCRIPT_CUTS.contains(&cut);
        let status = if is_script { 0 } else { 1 };
        assert_eq!(rt;
            (called.status, called.reported.is_empty()),
            (status, is_script),
            "at {cut}"
        );
        assert!(rt; is_script || called.put.is_empty(), "at {cut}");
    }
    Ok(())
}

/// What a check of the first bytes of the transcript has to come to: the status, what is put, and what is reported.
fn found_of_part(alloc: Global, part: &[u8]) -> Result<(u8, String, String), AllocError> {
    let lines = count_of(part, b'\n');
    let next = lines.saturating_add(1);
    if part.is_empty() || part.ends_with(b"\n") {
        let rule = if lines < 9 { "missing" } else { "world" };
        let put = format!(in alloc; "not legal at {next}: {rule}\n")?;
        Ok((7, put, String::new(alloc)))
    } else {
        let reported = format!(in alloc; "ftpy: transcript line {next}\n")?;
        Ok((8, String::new(alloc), reported))
    }
}

#[test]
fn a_transcript_is_cut_at_each_byte(rt: HostRuntime) -> Result<(), Fail> {
    let alloc = rt.alloc();
    let bytes = NESTED_TEXT.as_bytes();
    for cut in 0..bytes.len() {
        let part = bytes.get(..cut).ok_or("no such part")?;
        let called = call_check(alloc, NESTED, part)?;
        let (status, put, reported) = found_of_part(alloc, part)?;
        assert_eq!(rt;
            (
                called.status,
                called.put.as_slice(),
                called.reported.as_slice()
            ),
            (status, put.as_bytes(), reported.as_bytes()),
            "at {cut}"
        );
    }
    let whole = call_check(alloc, NESTED, bytes)?;
    assert_eq!(rt; whole.put.as_slice(), b"legal\n".as_slice());
    Ok(())
}

const NO_ERRORS: Moves = Moves {
    error_fails: 1,
    ..SEVEN
};

/// The sink fails, and the one for errors too.
const NO_SINKS: Case<'static> = Case {
    moves: Moves {
        put_fails: 2,
        ..NO_ERRORS
    },
    put: "A.1 w0 ",
    reported: "",
    ..NO_SINK
};

/// What can't be put into the errors changes nothing else; 0 and 7 put nothing there.
const WITHOUT_ERRORS: [Case<'static>; 8] = [
    Case {
        moves: NO_ERRORS,
        ..EXAMPLE
    },
    Case {
        input: "set d 1 1\n",
        moves: NO_ERRORS,
        fault: Fault::Script(1, 3),
        reported: "",
        ..NO_SCRIPT
    },
    Case {
        moves: NO_ERRORS,
        reported: "",
        ..NO_COMMAND
    },
    Case {
        moves: Moves {
            take_fails: 2,
            ..NO_ERRORS
        },
        reported: "",
        ..NO_SOURCE
    },
    NO_SINKS,
    Case {
        command: "run",
        ..NO_SINKS
    },
    Case {
        command: "check",
        input: "dict d\nthread A\n---\n",
        moves: NO_ERRORS,
        status: 7,
        fault: Fault::NotLegal(1, Rule::World),
        put: "not legal at 1: world\n",
        entries: 0,
        ..EXAMPLE
    },
    Case {
        command: "check",
        input: "dict d\nthread A\n---\nd = {\n",
        moves: NO_ERRORS,
        status: 8,
        fault: Fault::Transcript(1),
        put: "",
        entries: 0,
        ..EXAMPLE
    },
];

const LONG_WITHOUT_ERRORS: [Long<'static>; 1] = [Long {
    command: "turns",
    moves: NO_ERRORS,
    reported: "",
    ..COMMENT
}];

#[test]
fn a_sink_for_errors_fails_at_once(rt: HostRuntime) -> Result<(), Fail> {
    check_all(&rt, &WITHOUT_ERRORS)?;
    check_long(&rt, &LONG_WITHOUT_ERRORS)
}

fn push_times(text: &mut String, part: &str, times: u32) -> Result<(), AllocError> {
    for _ in 0..times {
        text.push_str(part)?;
    }
    Ok(())
}

/// A thread that opens that many sections on one dict, and ends that many.
fn nested(alloc: Global, begins: u32, ends: u32) -> Result<String, AllocError> {
    let mut text = String::from_str(alloc, "dict d\nthread A\n")?;
    push_times(&mut text, "begin d\n", begins)?;
    push_times(&mut text, "end\n", ends)?;
    Ok(text)
}

/// Sixteen calls of the first thread from an index on, with the same reply each.
fn push_sixteen(
    text: &mut String,
    alloc: Global,
    first: u32,
    reply: &str,
) -> Result<(), AllocError> {
    for index in (first..u32::MAX).take(16) {
        text.push_str(format!(in alloc; "A.{index} r0 {reply}\n")?.as_str())?;
    }
    Ok(())
}

#[test]
fn sixteen_sections_are_open(rt: HostRuntime) -> Result<(), Fail> {
    let alloc = rt.alloc();
    let mut put = String::new(alloc);
    push_sixteen(&mut put, alloc, 1, "begin d = entered")?;
    push_sixteen(&mut put, alloc, 17, "end = kept")?;
    put.push_str("d = {}\n")?;
    let script = nested(alloc, 16, 16)?;
    let open = Case {
        input: script.as_str(),
        moves: SEVEN,
        put: put.as_str(),
        entries: 32,
        ..EXAMPLE
    };
    check_commands(&rt, open, &["turns", "run"])
}

/// Sixty-five threads without calls.
fn many_threads(alloc: Global) -> Result<String, AllocError> {
    let mut text = String::new(alloc);
    for thread in 1..66_u32 {
        text.push_str(format!(in alloc; "thread T{thread}\n")?.as_str())?;
    }
    Ok(text)
}

#[test]
fn more_than_a_script_may_have_is_refused(rt: HostRuntime) -> Result<(), Fail> {
    let alloc = rt.alloc();
    let script = nested(alloc, 17, 0)?;
    let deep = Case {
        input: script.as_str(),
        fault: Fault::Script(19, 11),
        reported: "ftpy: line 19: 11 section too deep\n",
        ..NO_SCRIPT
    };
    check(&rt, &deep)?;
    let script = many_threads(alloc)?;
    let wide = Case {
        input: script.as_str(),
        fault: Fault::Script(65, 12),
        reported: "ftpy: line 65: 12 limit threads\n",
        ..NO_SCRIPT
    };
    check(&rt, &wide)
}
