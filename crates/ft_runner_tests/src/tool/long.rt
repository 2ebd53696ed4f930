//! Inputs of many bytes, up to what the tool takes and past it, and a long script.

use super::{AMPLE, Moves, call_check, call_still};
use std::alloc::{AllocError, Global};
use std::process::Abort;
use std::test::Fail;

/// An input of many bytes, and what a call with it has to come to.
#[derive(Clone, Copy)]
pub(super) struct Long<'a> {
    pub(super) command: &'a str,
    /// The input is as many of these bytes as are counted, and what stands before and after them.
    pub(super) before: &'a str,
    pub(super) filler: u8,
    pub(super) count: usize,
    pub(super) after: &'a str,
    pub(super) moves: Moves,
    pub(super) status: u8,
    pub(super) put: &'a str,
    pub(super) reported: &'a str,
}

/// One byte more than a script may have, and no line that can still become `---`.
pub(super) const COMMENT: Long<'static> = Long {
    command: "check",
    before: "",
    filler: b'#',
    count: 4_194_305,
    after: "",
    moves: AMPLE,
    status: 6,
    put: "",
    reported: "ftpy: too long\n",
};

/// The line `---` begins at the last place that it may.
const LAST_PLACE: Long<'static> = Long {
    count: 4_194_303,
    after: "\n---\n",
    status: 0,
    put: "legal\n",
    reported: "",
    ..COMMENT
};

/// A script and a transcript of as many bytes as they may have.
const FULL: Long<'static> = Long {
    before: "---",
    filler: b'\n',
    count: 67_108_861,
    status: 8,
    reported: "ftpy: transcript line 1\n",
    ..COMMENT
};

const WHOLE_INPUTS: [Long<'static>; 7] = [
    Long {
        command: "turns",
        ..COMMENT
    },
    COMMENT,
    Long {
        count: 4_194_304,
        status: 8,
        reported: "ftpy: transcript line 1\n",
        ..COMMENT
    },
    LAST_PLACE,
    // It begins at the next place.
    Long {
        count: 4_194_304,
        after: "\n---\n",
        ..COMMENT
    },
    FULL,
    // One byte more.
    Long {
        count: 67_108_862,
        status: 6,
        reported: "ftpy: too long\n",
        ..FULL
    },
];

/// Each call gives 2,113 bytes: 4,194,305 bytes are 1,985 such pieces.
const PIECES: Moves = Moves {
    most: 2_113,
    ..AMPLE
};

/// The call after these pieces fails.
const CUT: Moves = Moves {
    take_fails: 1_986,
    ..PIECES
};

const INPUTS_IN_PIECES: [Long<'static>; 5] = [
    Long {
        moves: CUT,
        ..COMMENT
    },
    // The line can still begin at the last place that it may.
    Long {
        count: 4_194_303,
        after: "\n-",
        moves: CUT,
        status: 3,
        reported: "ftpy: read fault\n",
        ..COMMENT
    },
    Long {
        count: 4_194_303,
        after: "\n-",
        moves: PIECES,
        ..COMMENT
    },
    Long {
        count: 4_194_303,
        after: "\n+",
        moves: CUT,
        ..COMMENT
    },
    Long {
        after: "\n---",
        moves: PIECES,
        ..LAST_PLACE
    },
];

fn input_of(alloc: Global, row: &Long) -> Result<Vec<u8>, AllocError> {
    let mut input = row.before.as_bytes().to_vec(alloc)?;
    input.extend_from_slice(&vec![in alloc; row.filler; row.count]?)?;
    input.extend_from_slice(row.after.as_bytes())?;
    Ok(input)
}

/// Each of the inputs comes to what its row says.
pub(super) fn check_long<R: Abort + AllocGlobal>(rt: &R, rows: &[Long]) -> Result<(), Fail> {
    let alloc = rt.alloc();
    for row in rows {
        let called = call_still(alloc, row.command, input_of(alloc, row)?, row.moves)?;
        assert_eq!(rt;
            (
                called.status,
                called.put.as_slice(),
                called.reported.as_slice()
            ),
            (row.status, row.put.as_bytes(), row.reported.as_bytes()),
            "{:?} of {:?} and {:?}",
            row.command,
            row.count,
            row.after
        );
    }
    Ok(())
}

#[test]
fn more_than_is_taken_is_too_long(rt: HostRuntime) -> Result<(), Fail> {
    check_long(&rt, &WHOLE_INPUTS)
}

#[test]
fn no_more_is_asked_for_than_can_be_taken(rt: HostRuntime) -> Result<(), Fail> {
    check_long(&rt, &INPUTS_IN_PIECES)
}

fn push_sets(text: &mut String, alloc: Global, from: u32, to: u32) -> Result<(), AllocError> {
    for key in from..to {
        let line = format!(in alloc; "set d {key} 0\n")?;
        text.push_str(line.as_str())?;
    }
    Ok(())
}

/// Two threads that set a thousand keys of a dict each.
pub(super) fn long_script(alloc: Global) -> Result<String, AllocError> {
    let mut text = String::from_str(alloc, "dict d\nthread A\n")?;
    push_sets(&mut text, alloc, 1, 1001)?;
    text.push_str("items d\nthread B\n")?;
    push_sets(&mut text, alloc, 1001, 2001)?;
    Ok(text)
}

/// How often a byte stands in the bytes.
pub(super) fn count_of(bytes: &[u8], wanted: u8) -> usize {
    bytes.iter().filter(|b| **b == wanted).count()
}

// The pairs that are counted are those of the reply to `items`, and those of the content.
#[test]
fn a_long_script_is_run_and_checked(rt: HostRuntime) -> Result<(), Fail> {
    let alloc = rt.alloc();
    let text = long_script(alloc)?;
    let run = call_still(alloc, "turns", text.as_bytes().to_vec(alloc)?, AMPLE)?;
    let pairs = count_of(&run.put, b':');
    let lines = count_of(&run.put, b'\n');
    assert_eq!(rt;
        (run.status, run.entries, pairs, lines),
        (0, 2001, 4000, 2002)
    );
    let checked = call_check(alloc, text.as_str(), &run.put)?;
    assert_eq!(rt; checked.put.as_slice(), b"legal\n".as_slice());
    Ok(())
}
