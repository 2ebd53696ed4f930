//! Scripts at each limit and past it, and long texts.

use crate::scripts::{fault_of, has_fault, is_script, passes};
use ft_script::Which;
use std::alloc::{AllocError, Global};
use std::process::Abort;
use std::test::Fail;

/// A text of a head, and then lines that differ in a number alone.
fn numbered(
    alloc: Global,
    head: &str,
    front: &str,
    back: &str,
    count: u32,
) -> Result<String, AllocError> {
    let mut text = String::new(alloc);
    text.push_str(head)?;
    for number in 0..count {
        text.push_str(&format!(in alloc; "{front}{number}{back}\n")?)?;
    }
    Ok(text)
}

/// A text of a head, and then a part many times.
fn repeated(alloc: Global, head: &str, part: &str, count: u32) -> Result<String, AllocError> {
    let mut text = String::new(alloc);
    text.push_str(head)?;
    for _ in 0..count {
        text.push_str(part)?;
    }
    Ok(text)
}

/// Whether the text with each of these lines after it has the line's fault there.
fn have_faults_after(
    alloc: Global,
    text: &str,
    line: u32,
    rows: &[(&str, u8)],
) -> Result<bool, AllocError> {
    for (last, kind) in rows {
        if !has_fault(alloc, &repeated(alloc, text, last, 1)?, line, *kind) {
            return Ok(false);
        }
    }
    Ok(true)
}

const AFTER_CONTAINERS: [(&str, u8); 4] = [
    ("dict", 3),
    ("dict D", 6),
    ("dict d0", 7),
    ("list e", 12),
];

#[test]
fn containers_at_a_limit_and_past_it(rt: HostRuntime) -> Result<(), Fail> {
    let alloc = rt.alloc();
    let text = numbered(alloc, "", "dict d", "", 256)?;
    let called = repeated(alloc, &text, "thread A\nlen d255", 1)?;
    assert!(rt; is_script(alloc, &called));
    assert!(rt; have_faults_after(alloc, &text, 257, &AFTER_CONTAINERS)?);
    let text = numbered(alloc, "", "set s", "", 300)?;
    assert!(rt; passes(alloc, &text, 257, Which::Containers));
    Ok(())
}

const AFTER_THREADS: [(&str, u8); 3] = [("thread", 3), ("thread a", 6), ("thread A63", 7)];

#[test]
fn threads_at_a_limit_and_past_it(rt: HostRuntime) -> Result<(), Fail> {
    let alloc = rt.alloc();
    let mut text = numbered(alloc, "", "thread A", "", 64)?;
    assert!(rt; is_script(alloc, &text));
    assert!(rt; have_faults_after(alloc, &text, 65, &AFTER_THREADS)?);
    text.push_str("thread B")?;
    assert!(rt; passes(alloc, &text, 65, Which::Threads));
    Ok(())
}

const AFTER_CURSORS: [(&str, u8); 2] = [("iter d C", 6), ("next d", 6)];

#[test]
fn cursors_at_a_limit_and_past_it(rt: HostRuntime) -> Result<(), Fail> {
    let alloc = rt.alloc();
    let mut text = numbered(alloc, "dict d\nthread A\n", "iter d c", "", 256)?;
    text.push_str("iter d c255\n")?;
    assert!(rt; is_script(alloc, &text));
    assert!(rt; have_faults_after(alloc, &text, 260, &AFTER_CURSORS)?);
    text.push_str("iter d d")?;
    assert!(rt; passes(alloc, &text, 260, Which::Cursors));
    Ok(())
}

const AFTER_STRINGS: [(&str, u8); 1] = [("set d x \"a\"", 4)];

#[test]
fn strings_at_a_limit_and_past_it(rt: HostRuntime) -> Result<(), Fail> {
    let alloc = rt.alloc();
    let mut text = numbered(alloc, "dict d\nthread A\n", "get d \"", "\"", 65_536)?;
    text.push_str("get d \"65535\"\n")?;
    assert!(rt; is_script(alloc, &text));
    assert!(rt; have_faults_after(alloc, &text, 65_540, &AFTER_STRINGS)?);
    text.push_str("set d \"a\" x")?;
    assert!(rt; passes(alloc, &text, 65_540, Which::Strings));
    Ok(())
}

#[test]
fn a_long_string_is_reported_before_one_too_many(rt: HostRuntime) -> Result<(), Fail> {
    let alloc = rt.alloc();
    let text = numbered(alloc, "dict d\nthread A\n", "get d \"", "\"", 65_536)?;
    let mut text = repeated(alloc, &text, "get d \"a", 1)?;
    text.push_str(&repeated(alloc, "", "a", 255)?)?;
    text.push_str("\"")?;
    assert!(rt; passes(alloc, &text, 65_539, Which::StringBytes));
    Ok(())
}

const AFTER_CALLS: [(&str, u8); 10] = [
    ("get", 3),
    ("begin d d d", 3),
    ("get e", 12),
    ("get d x", 12),
    ("append d 1", 12),
    ("end", 12),
    ("stop", 2),
    ("end \"", 5),
    ("await A.1", 2),
    ("await", 2),
];

const AWAITS_AFTER_CALLS: [(&str, u8); 4] = [
    ("await A.1", 12),
    ("await C.1", 12),
    ("await C.0", 12),
    ("await", 3),
];

#[test]
fn calls_at_a_limit_and_past_it(rt: HostRuntime) -> Result<(), Fail> {
    let alloc = rt.alloc();
    let mut text = repeated(alloc, "dict d\nthread A\n", "quiesce\n", 499_999)?;
    text.push_str("thread B\nquiesce\n")?;
    assert!(rt; is_script(alloc, &text));
    assert!(rt; have_faults_after(alloc, &text, 500_004, &AFTER_CALLS)?);
    text.push_str("quiesce")?;
    assert!(rt; passes(alloc, &text, 500_004, Which::Calls));
    let mut text = repeated(alloc, "version 2\nthread A\n", "quiesce\n", 499_999)?;
    text.push_str("thread B\nawait A.499999\n")?;
    assert!(rt; is_script(alloc, &text));
    assert!(rt; have_faults_after(alloc, &text, 500_004, &AWAITS_AFTER_CALLS)?);
    Ok(())
}

const AFTER_TURNS: [(&str, u8); 3] = [("order", 3), ("order a", 6), ("order B", 13)];

#[test]
fn turns_at_a_limit_and_past_it(rt: HostRuntime) -> Result<(), Fail> {
    let alloc = rt.alloc();
    let mut text = repeated(alloc, "thread A\norder", " A", 1_000_000)?;
    text.push_str("\n")?;
    assert!(rt; is_script(alloc, &text));
    assert!(rt; have_faults_after(alloc, &text, 3, &AFTER_TURNS)?);
    text.push_str("order A")?;
    assert!(rt; passes(alloc, &text, 3, Which::Order));
    Ok(())
}

const AFTER_SECTIONS: [(&str, u8); 5] = [
    ("", 10),
    ("begin", 3),
    ("begin e", 6),
    ("begin d", 11),
    ("begin d d", 11),
];

#[test]
fn sections_at_a_limit_and_past_it(rt: HostRuntime) -> Result<(), Fail> {
    let alloc = rt.alloc();
    let text = repeated(alloc, "dict d\nthread A\n", "begin d\n", 16)?;
    assert!(rt; is_script(alloc, &repeated(alloc, &text, "end\n", 16)?));
    assert!(rt; have_faults_after(alloc, &text, 19, &AFTER_SECTIONS)?);
    Ok(())
}

/// A character as it stands in a script, and how many of them a string has at most.
#[derive(Clone, Copy)]
struct Character<'a> {
    text: &'a str,
    limit: u32,
}

const CHARACTERS: [Character<'static>; 3] = [
    Character {
        text: "a",
        limit: 255,
    },
    Character {
        text: "\\n",
        limit: 255,
    },
    Character {
        text: "\u{e9}",
        limit: 127,
    },
];

/// A script with a string of that many characters.
fn with_string(alloc: Global, character: &str, count: u32) -> Result<String, AllocError> {
    let mut text = repeated(alloc, "dict d\nthread A\nget d \"", character, count)?;
    text.push_str("\"")?;
    Ok(text)
}

#[test]
fn bytes_of_strings_at_a_limit_and_past_it(rt: HostRuntime) -> Result<(), Fail> {
    let alloc = rt.alloc();
    for character in &CHARACTERS {
        let most = with_string(alloc, character.text, character.limit)?;
        assert!(rt; is_script(alloc, &most), "of {:?}", character.text);
        let more = with_string(alloc, character.text, character.limit.saturating_add(1))?;
        assert!(rt;
            passes(alloc, &more, 3, Which::StringBytes),
            "of {:?}",
            character.text
        );
    }
    Ok(())
}

/// A head and then a part many times, and the line and the kind of the first fault; 0 where there is none.
#[derive(Clone, Copy)]
struct LongText<'a> {
    head: &'a str,
    part: &'a str,
    count: u32,
    line: u32,
    kind: u8,
}

const LONG_TEXTS: [LongText<'static>; 10] = [
    LongText {
        head: "dict ",
        part: "d",
        count: 1_000_000,
        line: 1,
        kind: 6,
    },
    LongText {
        head: "# ",
        part: "\"",
        count: 1_000_000,
        line: 0,
        kind: 0,
    },
    LongText {
        head: "",
        part: " ",
        count: 1_000_000,
        line: 0,
        kind: 0,
    },
    LongText {
        head: "dict d\nthread A\nget d \"",
        part: "a",
        count: 1_000_000,
        line: 3,
        kind: 5,
    },
    LongText {
        head: "dict d\nthread A\nget d",
        part: " \"a\"",
        count: 250_000,
        line: 3,
        kind: 3,
    },
    LongText {
        head: "\n",
        part: "\n",
        count: 1_000_000,
        line: 0,
        kind: 0,
    },
    LongText {
        head: "heap ",
        part: "1",
        count: 1_000,
        line: 1,
        kind: 4,
    },
    LongText {
        head: "heap -",
        part: "1",
        count: 1_000,
        line: 1,
        kind: 4,
    },
    LongText {
        head: "dict d\nthread A\nget d ",
        part: "9",
        count: 1_000,
        line: 3,
        kind: 4,
    },
    LongText {
        head: "dict d\nthread A\nget d ",
        part: "0",
        count: 1_000,
        line: 3,
        kind: 4,
    },
];

#[test]
fn long_texts(rt: HostRuntime) -> Result<(), Fail> {
    let alloc = rt.alloc();
    for row in &LONG_TEXTS {
        let text = repeated(alloc, row.head, row.part, row.count)?;
        let fault = fault_of(alloc, text.as_bytes());
        assert_eq!(rt;
            fault,
            (row.line, row.kind),
            "{:?} {:?}",
            row.head,
            row.part
        );
    }
    let mut text = repeated(alloc, "", "\n", 1_000_000)?;
    text.push_str("stop")?;
    assert!(rt; has_fault(alloc, &text, 1_000_001, 2));
    Ok(())
}
