//! The tool over streams in memory: what the tests of this crate begin with, and its commands, its
//! streams and its statuses. The expected texts are worked out by hand.

mod awaiting;
mod checking;
mod faults;
mod long;
mod making;
mod meeting;
mod running;
mod runs;
mod tables;

use ft_io::{MemSink, MemSource};
use ft_runner::{Fault, Gate, NoGate, Report, run_program, run_still, run_tool};
use std::alloc::{AllocError, Global};
use std::process::{Abort, ExitCode};
use std::sync::Wait;
use std::test::Fail;
use std::thread::Threads;

const SCRIPT: &str = "dict d\nthread A\nset d \"a\" 1\nget d \"a\"\n";

const TEXT: &str = "A.1 w0 set d \"a\" 1 = ok\nA.2 r1 get d \"a\" = 1\nd = {\"a\": 1}\n";

const USAGE: &str = "ftpy: usage: run | turns | check | make N [turns]\n";

/// How the streams of a call move bytes.
#[derive(Clone, Copy)]
struct Moves {
    /// How many bytes a stream moves in one call, at most.
    most: usize,
    /// How many bytes the sink has room for.
    room: usize,
    /// The number of the call of the source, of the sink and of the sink for errors that fails; 0 for
    /// none.
    take_fails: u64,
    put_fails: u64,
    error_fails: u64,
}

/// All is moved in one piece.
const WHOLE: Moves = Moves {
    most: 1000,
    room: 1000,
    take_fails: 0,
    put_fails: 0,
    error_fails: 0,
};

/// Long texts are moved in few pieces.
const AMPLE: Moves = Moves {
    most: 1_000_000,
    room: 200_000,
    ..WHOLE
};

/// A call of the tool, and what it has to come to.
#[derive(Clone, Copy)]
struct Case<'a> {
    /// The words after the program's name, parted by spaces.
    command: &'a str,
    input: &'a str,
    moves: Moves,
    status: u8,
    fault: Fault,
    put: &'a str,
    reported: &'a str,
    entries: usize,
}

/// The example is run, read and written in one piece.
const EXAMPLE: Case<'static> = Case {
    command: "turns",
    input: SCRIPT,
    moves: WHOLE,
    status: 0,
    fault: Fault::Clean,
    put: TEXT,
    reported: "",
    entries: 2,
};

/// The words are no command.
const NO_COMMAND: Case<'static> = Case {
    command: "walk",
    status: 2,
    fault: Fault::Usage,
    put: "",
    reported: USAGE,
    entries: 0,
    ..EXAMPLE
};

/// The input is no script.
const NO_SCRIPT: Case<'static> = Case {
    input: "list l\ntables 2 1\n",
    status: 1,
    fault: Fault::Script(2, 12),
    put: "",
    reported: "ftpy: line 2: 12 limit class\n",
    entries: 0,
    ..EXAMPLE
};

/// The source fails at its second piece.
const NO_SOURCE: Case<'static> = Case {
    moves: Moves {
        most: 10,
        take_fails: 2,
        ..WHOLE
    },
    status: 3,
    fault: Fault::Read,
    put: "",
    reported: "ftpy: read fault\n",
    entries: 0,
    ..EXAMPLE
};

/// The sink fails at its second piece.
const NO_SINK: Case<'static> = Case {
    moves: Moves {
        most: 10,
        put_fails: 2,
        ..WHOLE
    },
    status: 4,
    fault: Fault::Write,
    put: "A.1 w0 set",
    reported: "ftpy: write fault\n",
    ..EXAMPLE
};

const STARTS: [Case<'static>; 5] = [
    EXAMPLE,
    Case {
        command: "run",
        ..EXAMPLE
    },
    Case {
        command: "turns --",
        ..EXAMPLE
    },
    Case {
        moves: Moves { most: 10, ..WHOLE },
        ..EXAMPLE
    },
    Case {
        input: "",
        put: "",
        entries: 0,
        ..EXAMPLE
    },
];

const NO_COMMANDS: [&str; 28] = [
    "",
    "walk",
    "Run",
    "--",
    "run turns",
    "run -- turns",
    "run -v",
    "--help",
    "help",
    "turns --help",
    "--version",
    "check turns",
    "make",
    "make --",
    "make 0",
    "make 01",
    "make +1",
    "make 1x",
    "make 100001",
    "make 4294967297",
    "make -1",
    "make -- -1",
    "make turns",
    "make 1 run",
    "make 1 --turns",
    "make 1 turns turns",
    "make 1 -- turns --",
    "-- make 1",
];

const NO_SCRIPTS: [Case<'static>; 5] = [
    Case {
        input: "version 2\nlist l\nthread A\nappend l 1\nthread B\nawait A.2\nappend l 2\norder B B A B\n",
        fault: Fault::Script(6, 15),
        reported: "ftpy: line 6: 15 await\n",
        ..NO_SCRIPT
    },
    Case {
        input: "dict d\nthread A\nset d 9223372036854775808 1\n",
        fault: Fault::Script(3, 4),
        reported: "ftpy: line 3: 4 bad number\n",
        ..NO_SCRIPT
    },
    Case {
        input: "dict d\nthread A\nset d \"a",
        fault: Fault::Script(3, 5),
        reported: "ftpy: line 3: 5 bad string\n",
        ..NO_SCRIPT
    },
    NO_SCRIPT,
    Case {
        input: "list l\nthread A\nbegin l\n",
        fault: Fault::Script(4, 10),
        reported: "ftpy: line 4: 10 begin without end\n",
        ..NO_SCRIPT
    },
];

const BROKEN_STREAMS: [Case<'static>; 3] = [
    NO_SOURCE,
    NO_SINK,
    // The text has 58 bytes; its last one finds no room.
    Case {
        moves: Moves { room: 57, ..WHOLE },
        put: "A.1 w0 set d \"a\" 1 = ok\nA.2 r1 get d \"a\" = 1\nd = {\"a\": 1}",
        ..NO_SINK
    },
];

/// The program ends with their statuses.
const ENDS: [Case<'static>; 2] = [EXAMPLE, NO_COMMAND];

/// What a call begins with: its words, and streams in memory.
#[derive(Drop)]
struct Streams {
    words: Vec<String>,
    source: MemSource,
    sink: MemSink,
    errors: MemSink,
}

/// What a call has come to.
#[derive(Drop)]
struct Called {
    status: u8,
    fault: Fault,
    entries: usize,
    is_closed: bool,
    put: Vec<u8>,
    reported: Vec<u8>,
}

fn words_of(alloc: Global, command: &str) -> Result<Vec<String>, AllocError> {
    let mut words = Vec::new(alloc);
    words.push(String::from_str(alloc, "ftpy")?)?;
    for word in command.split_whitespace() {
        words.push(String::from_str(alloc, word)?)?;
    }
    Ok(words)
}

fn streams_of(
    alloc: Global,
    command: &str,
    input: Vec<u8>,
    moves: Moves,
) -> Result<Streams, AllocError> {
    let most = moves.most.max(1);
    Ok(Streams {
        words: words_of(alloc, command)?,
        source: MemSource::new(input, most, vec![in alloc; moves.take_fails]?),
        sink: MemSink::new(alloc, moves.room, most, vec![in alloc; moves.put_fails]?)?,
        errors: MemSink::new(alloc, 100, 100, vec![in alloc; moves.error_fails]?)?,
    })
}

fn result_of(
    alloc: Global,
    report: &Report,
    sink: &MemSink,
    errors: &MemSink,
) -> Result<Called, AllocError> {
    Ok(Called {
        status: report.status,
        fault: report.fault,
        entries: report.history.len(),
        is_closed: report.closed.is_some(),
        put: sink.bytes().to_vec(alloc)?,
        reported: errors.bytes().to_vec(alloc)?,
    })
}

/// Calls the tool with this command, input and gate.
fn call<R: Threads + Wait + Sync + AllocGlobal, G: Gate>(
    rt: &R,
    command: &str,
    input: &str,
    moves: Moves,
    gate: &G,
) -> Result<Called, AllocError> {
    let alloc = rt.alloc();
    let input = input.as_bytes().to_vec(alloc)?;
    let mut all = streams_of(alloc, command, input, moves)?;
    let report = run_tool(
        rt,
        alloc,
        &all.words,
        &mut all.source,
        &mut all.sink,
        &mut all.errors,
        gate,
    );
    result_of(alloc, &report, &all.sink, &all.errors)
}

/// Calls the tool with this command, which starts no thread, and this input.
fn call_still(alloc: Global, command: &str, input: Vec<u8>, moves: Moves) -> Result<Called, Fail> {
    let mut all = streams_of(alloc, command, input, moves)?;
    let report: Option<Report> = run_still(
        alloc,
        &all.words,
        &mut all.source,
        &mut all.sink,
        &mut all.errors,
    );
    let report = report.ok_or("no report")?;
    Ok(result_of(alloc, &report, &all.sink, &all.errors)?)
}

/// Has a transcript checked against its script.
fn call_check(alloc: Global, script: &str, transcript: &[u8]) -> Result<Called, Fail> {
    let mut input = script.as_bytes().to_vec(alloc)?;
    input.extend_from_slice(b"---\n")?;
    input.extend_from_slice(transcript)?;
    call_still(alloc, "check", input, AMPLE)
}

/// The call of the case comes to what the case says.
fn check<R: Threads + Wait + Sync + Abort + AllocGlobal>(rt: &R, case: &Case) -> Result<(), Fail> {
    let called = call(rt, case.command, case.input, case.moves, &NoGate)?;
    // A made script is run where it is summed up.
    let summed_up = case.command.starts_with("make") && case.entries > 0;
    let runs = case.command == "run" || case.command.starts_with("turns") || summed_up;
    let is_left = runs && (case.status == 0 || case.status == 4);
    assert_eq!(rt;
        (
            called.status,
            called.fault,
            called.entries,
            called.is_closed
        ),
        (case.status, case.fault, case.entries, is_left),
        "{:?} of {:?}",
        case.command,
        case.input
    );
    assert_eq!(rt;
        (called.put.as_slice(), called.reported.as_slice()),
        (case.put.as_bytes(), case.reported.as_bytes()),
        "{:?} of {:?}",
        case.command,
        case.input
    );
    Ok(())
}

fn check_all<R: Threads + Wait + Sync + Abort + AllocGlobal>(
    rt: &R,
    cases: &[Case],
) -> Result<(), Fail> {
    for case in cases {
        check(rt, case)?;
    }
    Ok(())
}

/// Each of the commands comes to what the case says.
fn check_commands<'a, R: Threads + Wait + Sync + Abort + AllocGlobal>(
    rt: &R,
    case: Case<'a>,
    commands: &[&'a str],
) -> Result<(), Fail> {
    for command in commands {
        check(
            rt,
            &Case {
                command: *command,
                ..case
            },
        )?;
    }
    Ok(())
}

#[test]
fn scripts_are_run_and_their_histories_written(rt: HostRuntime) -> Result<(), Fail> {
    check_all(&rt, &STARTS)
}

#[test]
fn what_is_no_command_or_no_script_is_refused(rt: HostRuntime) -> Result<(), Fail> {
    check_commands(&rt, NO_COMMAND, &NO_COMMANDS)?;
    check_all(&rt, &NO_SCRIPTS)
}

#[test]
fn a_stream_that_fails_is_reported(rt: HostRuntime) -> Result<(), Fail> {
    check_all(&rt, &BROKEN_STREAMS)
}

#[test]
fn a_program_ends_with_the_status(rt: HostRuntime) -> Result<(), Fail> {
    let alloc = rt.alloc();
    for case in &ENDS {
        let input = case.input.as_bytes().to_vec(alloc)?;
        let mut all = streams_of(alloc, case.command, input, case.moves)?;
        let code = run_program(
            &rt,
            alloc,
            &all.words,
            &mut all.source,
            &mut all.sink,
            &mut all.errors,
        );
        assert_eq!(rt; code, ExitCode::from(case.status), "{:?}", case.command);
        assert_eq!(rt; all.sink.bytes(), case.put.as_bytes(), "{:?}", case.command);
        assert_eq!(rt;
            all.errors.bytes(),
            case.reported.as_bytes(),
            "{:?}",
            case.command
        );
    }
    Ok(())
}

#[test]
fn run_is_no_command_that_starts_no_thread(rt: HostRuntime) -> Result<(), Fail> {
    let alloc = rt.alloc();
    let input = SCRIPT.as_bytes().to_vec(alloc)?;
    let mut all = streams_of(alloc, "run", input, WHOLE)?;
    let report: Option<Report> = run_still(
        alloc,
        &all.words,
        &mut all.source,
        &mut all.sink,
        &mut all.errors,
    );
    assert!(rt; report.is_none());
    assert_eq!(rt;
        (all.sink.bytes(), all.errors.bytes()),
        (b"".as_slice(), b"".as_slice())
    );
    Ok(())
}
