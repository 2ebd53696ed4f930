//! Scripts that come a byte at a time: what is reported of each text on the way.

use crate::scripts::fault_of;
use std::alloc::{AllocError, Global};
use std::process::Abort;
use std::test::Fail;

/// Whether each text that these parts come to, a byte at a time, has the part's fault.
fn have_faults(alloc: Global, parts: &[(&[u8], u32, u8)]) -> Result<bool, AllocError> {
    let mut text = Vec::new(alloc);
    for (part, line, kind) in parts {
        if !has_faults_of(alloc, &mut text, part, (*line, *kind))? {
            return Ok(false);
        }
    }
    Ok(true)
}

/// Whether the text has this fault with each byte of the part that is added.
fn has_faults_of(
    alloc: Global,
    text: &mut Vec<u8>,
    part: &[u8],
    fault: (u32, u8),
) -> Result<bool, AllocError> {
    for byte in part {
        text.push(*byte)?;
        if fault_of(alloc, text.as_slice()) != fault {
            return Ok(false);
        }
    }
    Ok(true)
}

/// A script that comes in parts, each with the line and the kind of the fault that each byte of it leaves in the text.
struct Cut {
    name: &'static str,
    parts: &'static [(&'static [u8], u32, u8)],
}

const CUTS: [Cut; 6] = [
    Cut {
        name: "declarations",
        parts: &[
            (b"# a\n ", 0, 0),
            (b"table", 2, 2),
            (b"s 3 ", 2, 3),
            (b"12\n", 0, 0),
            (b"hea", 3, 2),
            (b"p ", 3, 3),
            (b"6", 3, 12),
            (b"4\n", 0, 0),
            (b"dic", 4, 2),
            (b"t ", 4, 3),
            (b"d\n", 0, 0),
        ],
    },
    Cut {
        name: "calls of a dict",
        parts: &[
            (b"dic", 1, 2),
            (b"t ", 1, 3),
            (b"d\n", 0, 0),
            (b"threa", 2, 2),
            (b"d ", 2, 3),
            (b"A\n", 0, 0),
            (b"se", 3, 2),
            (b"t d ", 3, 3),
            (b"\"a\\n", 3, 5),
            (b"\" ", 3, 3),
            (b"-", 3, 4),
            (b"10\n", 0, 0),
            (b"ite", 4, 2),
            (b"r d ", 4, 3),
            (b"c\n", 0, 0),
            (b"nex", 5, 2),
            (b"t ", 5, 3),
            (b"c\n", 0, 0),
        ],
    },
    Cut {
        name: "calls of a list",
        parts: &[
            (b"lis", 1, 2),
            (b"t ", 1, 3),
            (b"l\n", 0, 0),
            (b"threa", 2, 2),
            (b"d ", 2, 3),
            (b"A\n", 0, 0),
            (b"inser", 3, 2),
            (b"t l 0 ", 3, 3),
            (b"Non", 3, 4),
            (b"e\n", 0, 0),
            (b"po", 4, 2),
            (b"p ", 4, 3),
            (b"l ", 0, 0),
            (b"-", 4, 4),
            (b"1\n", 0, 0),
        ],
    },
    Cut {
        name: "calls of a set",
        parts: &[
            (b"se", 1, 2),
            (b"t ", 1, 3),
            (b"s\n", 0, 0),
            (b"se", 2, 2),
            (b"t ", 2, 3),
            (b"t\n", 0, 0),
            (b"threa", 3, 2),
            (b"d ", 3, 3),
            (b"A\n", 0, 0),
            (b"o", 4, 2),
            (b"r s ", 4, 3),
            (b"t\n", 0, 0),
            (b"ad", 5, 2),
            (b"d s ", 5, 3),
            (b"\"", 5, 5),
            (b"\xc3", 5, 1),
            (b"\xa9", 5, 5),
            (b"\"", 0, 0),
        ],
    },
    Cut {
        name: "sections",
        parts: &[
            (b"dic", 1, 2),
            (b"t ", 1, 3),
            (b"d\n", 0, 0),
            (b"threa", 2, 2),
            (b"d ", 2, 3),
            (b"A\n", 0, 0),
            (b"begi", 3, 2),
            (b"n ", 3, 3),
            (b"d d\n", 4, 10),
            (b"en", 4, 2),
            (b"d\n", 0, 0),
            (b"threa", 5, 2),
            (b"d ", 5, 3),
            (b"B\n", 0, 0),
            (b"o", 6, 2),
            (b"r", 6, 3),
            (b"de", 6, 2),
            (b"r ", 6, 3),
            (b"B A\n", 0, 0),
        ],
    },
    Cut {
        name: "awaits",
        parts: &[
            (b"versio", 1, 2),
            (b"n ", 1, 3),
            (b"2\n", 0, 0),
            (b"threa", 2, 2),
            (b"d ", 2, 3),
            (b"A\n", 0, 0),
            (b"quiesc", 3, 2),
            (b"e\n", 0, 0),
            (b"threa", 4, 2),
            (b"d ", 4, 3),
            (b"B\n", 0, 0),
            (b"awai", 5, 2),
            (b"t ", 5, 3),
            (b"A.", 5, 6),
            (b"1", 0, 0),
            (b"0", 5, 15),
        ],
    },
];

#[test]
fn scripts_cut_at_every_byte_have_their_faults(rt: HostRuntime) -> Result<(), Fail> {
    for cut in &CUTS {
        assert!(rt; have_faults(rt.alloc(), cut.parts)?, "{}", cut.name);
    }
    Ok(())
}
