//! Transcripts that are read, and the first line of others that is none.

use ft_model::{Call, DictCall, Entry, Key, Raise, Reply, Sym, Value};
use ft_script::{TranscriptFault, parse, read_transcript};
use std::alloc::Global;
use std::process::Abort;
use std::test::Fail;

/// Two threads with a cursor each, and three strings.
const SCRIPT: &str =
    "dict d\nlist l\nset s\ndict e\nthread A\niter d c\nnext c\nset d \"a b\" \"x\\\"\\\\\\n\\t\"\nthread B2\niter s k\ngetd d 5 \"= waited {\"\n";

/// The first bad line, or 0 where there is none.
fn bad_line(alloc: Global, text: &str) -> u32 {
    let Ok(script) = parse(alloc, SCRIPT.as_bytes()) else {
        return u32::MAX;
    };
    match read_transcript(alloc, &script, text.as_bytes()) {
        Ok(_) => 0,
        Err(TranscriptFault::Line(number)) => number,
        Err(TranscriptFault::Memory) => u32::MAX,
    }
}

/// The first text whose first bad line is another, where there is one.
fn first_other<'a>(alloc: Global, line: u32, texts: &[&'a str]) -> Option<&'a str> {
    texts
        .iter()
        .find(|text| bad_line(alloc, **text) != line)
        .map(|text| *text)
}

const GOOD_LINES: [&str; 37] = [
    "",
    "A.1 w0 set d 1 None = ok\n",
    "B2.4294967295 r18446744073709551615 get d \"a b\" = -9223372036854775808\n",
    "A.1 r0 get d \"x\\\"\\\\\\n\\t\" = \"= waited {\" waited B2\n",
    "A.1 r0 getd d 9223372036854775807 \"= waited {\" = None\n",
    "A.1 w0 popitem d = \"a b\": None\n",
    "A.1 w0 popitem d = 1: -2 waited A\n",
    "A.1 r0 items d = {}\n",
    "A.1 r0 items d = {1: 2}\n",
    "A.1 r0 items d = {\"a b\": \"= waited {\", 2: None}\n",
    "A.1 r0 items s = set()\n",
    "A.1 r0 items s = {-1, \"a b\", 0}\n",
    "A.1 r0 items l = []\n",
    "A.1 r0 slice l -3 9 = [None, \"a b\", -5]\n",
    "A.1 r0 len d = 9223372036854775807\n",
    "A.1 r0 len d = -1\n",
    "A.1 r0 has d 1 = True\n",
    "A.1 r0 has s 1 = False\n",
    "A.1 r0 iter d c = ok\n",
    "A.1 r0 next c = StopIteration\n",
    "B2.1 r0 next k = RuntimeError size\n",
    "A.1 r0 next c = RuntimeError keys waited B2\n",
    "A.1 r0 begin d = entered\n",
    "A.1 r0 begin d s = entered\n",
    "A.1 r0 end = kept\n",
    "A.1 r0 end = suspended 4294967295\n",
    "A.1 r0 quiesce = KeyError\n",
    "A.1 w0 pop l = IndexError\n",
    "A.1 w0 pop l -1 = ValueError\n",
    "A.1 w0 add s 1 = MemoryError 3\n",
    "A.1 w0 add s 1 = MemoryError 16\n",
    "A.1 w0 update d e = MemoryError over\n",
    "A.1 w0 append l \"a b\" = MemoryError heap\n",
    "d = {}\n",
    "d = [1, None]\nd = set()\n",
    "l = {\"a b\": None}\ns = {1, 2}\n",
    "A.1 w0 clear d = ok\nA.1 w0 clear d = ok\nd = {}\n",
];

#[test]
fn lines_that_are_read(rt: HostRuntime) {
    assert_eq!(rt; first_other(rt.alloc(), 0, &GOOD_LINES), None);
}

const BAD_LINES: [&str; 68] = [
    "\n",
    "A\n",
    "A.1 w0 clear d = ok",
    "A.1  w0 clear d = ok\n",
    "A.1 w0 clear d = ok \n",
    " A.1 w0 clear d = ok\n",
    "A.1 w0 clear d =  ok\n",
    "A.1 w0 clear d\n",
    "A.1 w0 clear d ok\n",
    "A.1 w0 = ok\n",
    "C.1 w0 clear d = ok\n",
    "A1 w0 clear d = ok\n",
    "A. w0 clear d = ok\n",
    "A.0 w0 clear d = ok\n",
    "A.01 w0 clear d = ok\n",
    "A.+1 w0 clear d = ok\n",
    "A.4294967296 w0 clear d = ok\n",
    "A.1 x0 clear d = ok\n",
    "A.1 w clear d = ok\n",
    "A.1 w00 clear d = ok\n",
    "A.1 w18446744073709551616 clear d = ok\n",
    "A.1 w0 clear f = ok\n",
    "A.1 w0 clear d d = ok\n",
    "A.1 w0 append d 1 = ok\n",
    "A.1 w0 update d l = ok\n",
    "A.1 w0 update d s = ok\n",
    "A.1 w0 stop = ok\n",
    "A.1 w0 get d 01 = ok\n",
    "A.1 w0 get d -0 = ok\n",
    "A.1 w0 get d 9223372036854775808 = ok\n",
    "A.1 w0 get d \"a\" = ok\n",
    "A.1 w0 get d \"a b = ok\n",
    "A.1 w0 get d None = ok\n",
    "A.1 r0 next k = ok\n",
    "A.1 r0 iter d k = ok\n",
    "A.1 r0 end = suspended 4294967296\n",
    "A.1 r0 end = suspended\n",
    "A.1 r0 end = suspended -1\n",
    "A.1 r0 end = MemoryError 2\n",
    "A.1 r0 end = MemoryError 17\n",
    "A.1 r0 end = MemoryError\n",
    "A.1 r0 end = RuntimeError\n",
    "A.1 r0 end = RuntimeError size keys\n",
    "A.1 r0 end = Ok\n",
    "A.1 r0 end = ok ok\n",
    "A.1 r0 end = 9223372036854775808\n",
    "A.1 r0 end = \"c\"\n",
    "A.1 r0 end = {1:2}\n",
    "A.1 r0 end = {1: 2,}\n",
    "A.1 r0 end = {1, 2: 3}\n",
    "A.1 r0 end = {1: 2, 3}\n",
    "A.1 r0 end = {None: 2}\n",
    "A.1 r0 end = {None}\n",
    "A.1 r0 end = [1,2]\n",
    "A.1 r0 end = [1, 2\n",
    "A.1 r0 end = 1: \n",
    "A.1 r0 end = None: 1\n",
    "A.1 r0 end = ok waited\n",
    "A.1 r0 end = ok waited C\n",
    "A.1 r0 end = ok waited A A\n",
    "d = ok\n",
    "d = None\n",
    "d = 1\n",
    "d {}\n",
    "f = {}\n",
    "d = {}",
    "d = {} \n",
    "d = { }\n",
];

#[test]
fn lines_that_are_not(rt: HostRuntime) {
    assert_eq!(rt; first_other(rt.alloc(), 1, &BAD_LINES), None);
}

/// A text, and its first bad line.
#[derive(Clone, Copy)]
struct Bad<'a> {
    text: &'a str,
    line: u32,
}

const LATER_BAD: [Bad<'static>; 4] = [
    Bad {
        text: "d = {}\nA.1 w0 clear d = ok\n",
        line: 2,
    },
    Bad {
        text: "A.1 w0 clear d = ok\nd = {}\n\n",
        line: 3,
    },
    Bad {
        text: "A.1 w0 clear d = ok\nd = {}\nl = []",
        line: 3,
    },
    Bad {
        text: "A.1 w0 clear d = ok\nA.2 w1 clear f = ok\nA.0 w1 clear d = ok\n",
        line: 2,
    },
];

#[test]
fn later_lines(rt: HostRuntime) {
    for bad in &LATER_BAD {
        assert_eq!(rt;
            bad_line(rt.alloc(), bad.text),
            bad.line,
            "of {:?}",
            bad.text
        );
    }
}

// A transcript that is cut within a line has that line first.
#[test]
fn every_cut(rt: HostRuntime) -> Result<(), Fail> {
    let text = "A.1 w0 set d \"a b\" 1 = ok waited B2\nd = {\"a b\": 1}\n";
    let script = parse(rt.alloc(), SCRIPT.as_bytes())?;
    for end in 0..text.len() {
        let cut = &text.as_bytes()[..end];
        let read = read_transcript(rt.alloc(), &script, cut);
        if end == 0 || end == 36 {
            assert!(rt; read.is_ok());
        } else {
            let line = if end < 36 { 1 } else { 2 };
            assert!(rt; read.is_err_and(|fault| fault == TranscriptFault::Line(line)));
        }
    }
    Ok(())
}

/// The entry of the first line.
const FIRST: Entry = Entry {
    thread: 1,
    index: 7,
    stamp: 9,
    wrote: false,
    call: Call::Dict {
        container: 0,
        call: DictCall::GetOr {
            key: Key::Text(Sym(0)),
            default: Value::Int(-5),
        },
    },
    reply: Reply::Raised(Raise::Memory(7)),
    waited: Some(0),
};

#[test]
fn what_lines_say(rt: HostRuntime) -> Result<(), Fail> {
    let script = parse(rt.alloc(), SCRIPT.as_bytes())?;
    let text = "B2.7 r9 getd d \"a b\" -5 = MemoryError 7 waited A\nA.2 w9 len d = 3\nl = [1]\n";
    let transcript = read_transcript(rt.alloc(), &script, text.as_bytes())?;
    let [first, second] = transcript.entries.as_slice() else {
        return Err("two entries".into());
    };
    assert!(rt; *first == FIRST);
    assert!(rt; second.reply == Reply::Count(3));
    let [line] = transcript.world.as_slice() else {
        return Err("one content".into());
    };
    assert!(rt; line.as_slice() == b"l = [1]".as_slice());
    Ok(())
}
