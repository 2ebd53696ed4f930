//! Texts that are scripts, and texts with a fault: each with the line and the kind of its first one,
//! worked out by hand.

use ft_script::{ScriptFault, Which, parse};
use std::alloc::Global;
use std::process::Abort;
use std::test::Fail;

/// The line and the kind of the text's first fault, which are 0 where it is a script.
pub(crate) fn fault_of(alloc: Global, text: &[u8]) -> (u32, u8) {
    match parse(alloc, text) {
        Ok(_) => (0, 0),
        Err(fault) => (fault.line, fault.kind),
    }
}

/// Whether the text has this fault first.
pub(crate) fn has_fault(alloc: Global, text: &str, line: u32, kind: u8) -> bool {
    fault_of(alloc, text.as_bytes()) == (line, kind)
}

/// Whether the text is a script.
pub(crate) fn is_script(alloc: Global, text: &str) -> bool {
    parse(alloc, text.as_bytes()).is_ok()
}

/// Whether the limit is the first that the text passes.
pub(crate) fn passes(alloc: Global, text: &str, line: u32, which: Which) -> bool {
    parse(alloc, text.as_bytes()).is_err_and(|fault| fault.line == line
        && fault.kind == 12
        && fault.which == Some(which))
}

/// The first text that hasn't its fault at its line, where there is one.
pub(crate) fn first_without_its_fault<'a>(
    alloc: Global,
    rows: &[(&'a str, u32, u8)],
) -> Option<&'a str> {
    rows.iter()
        .find(|row| !has_fault(alloc, row.0, row.1, row.2))
        .map(|row| row.0)
}

/// The first text that isn't a script, where there is one.
pub(crate) fn first_refused<'a>(alloc: Global, texts: &[&'a str]) -> Option<&'a str> {
    texts
        .iter()
        .find(|text| !is_script(alloc, **text))
        .map(|text| *text)
}

/// The first text that doesn't pass its limit in its first line, where there is one.
fn first_within<'a>(alloc: Global, rows: &[(&'a str, Which)]) -> Option<&'a str> {
    rows.iter()
        .find(|row| !passes(alloc, row.0, 1, row.1))
        .map(|row| row.0)
}

/// Texts with a fault, and the line and the kind of the first one.
const FAULTS: [(&str, u32, u8); 211] = [
    // Unknown words.
    ("get d 1", 1, 2),
    ("next c", 1, 2),
    ("quiesce", 1, 2),
    ("Dict d", 1, 2),
    ("dict\td", 1, 2),
    ("\"a\" b", 1, 2),
    (" # x", 1, 2),
    ("thread A\ndict d", 2, 2),
    ("thread A\nlist l", 2, 2),
    ("thread A\nheap 64", 2, 2),
    ("thread A\ntables 3 1", 2, 2),
    ("thread A\nstop", 2, 2),
    ("thread A\nGET d", 2, 2),
    ("thread A\norder A\nthread B", 3, 2),
    ("thread A\norder A\nquiesce", 3, 2),
    ("thread A\norder A\ndict d", 3, 2),
    ("thread A\nquiesce\n\nnone\n", 4, 2),
    ("\0", 1, 2),
    ("\u{1}", 1, 2),
    ("dict d\n\r\n", 2, 2),
    ("begin d", 1, 2),
    ("end", 1, 2),
    ("order\"A\"", 1, 2),
    ("None", 1, 2),
    // Counts of words.
    ("dict", 1, 3),
    ("dict d e", 1, 3),
    ("list", 1, 3),
    ("set a b", 1, 3),
    ("tables 3", 1, 3),
    ("tables 3 1 1", 1, 3),
    ("heap", 1, 3),
    ("heap 64 64", 1, 3),
    ("thread", 1, 3),
    ("thread A B", 1, 3),
    ("order", 1, 3),
    ("thread A\norder", 2, 3),
    ("thread A\nget", 2, 3),
    ("thread A\nnext", 2, 3),
    ("thread A\nbegin", 2, 3),
    ("thread A\nend A", 2, 3),
    ("thread A\nquiesce A", 2, 3),
    ("order ", 1, 3),
    ("thread A\norder A\norder", 3, 3),
    // Counts of words of calls.
    ("dict d\nthread A\nget d", 3, 3),
    ("dict d\nthread A\nget d 1 2", 3, 3),
    ("dict d\nthread A\ngetd d 1", 3, 3),
    ("dict d\nthread A\nset d 1", 3, 3),
    ("dict d\nthread A\npopitem d 1", 3, 3),
    ("dict d\nthread A\nlen d d", 3, 3),
    ("dict d\nthread A\nupdate d", 3, 3),
    ("dict d\nthread A\niter d", 3, 3),
    ("dict d\nthread A\nbegin d d d", 3, 3),
    ("list l\nthread A\nappend l", 3, 3),
    ("list l\nthread A\ninsert l 1", 3, 3),
    ("list l\nthread A\npop l 1 2", 3, 3),
    ("list l\nthread A\nslice l 1", 3, 3),
    ("list l\nthread A\nslice l 1 2 3", 3, 3),
    ("set s\nthread A\npop s 1", 3, 3),
    ("set s\nthread A\nadd s", 3, 3),
    ("set s\nthread A\nor s s s", 3, 3),
    // Bad numbers.
    ("tables x 1", 1, 4),
    ("tables 3 x", 1, 4),
    ("tables \"a\" 1", 1, 4),
    ("heap x", 1, 4),
    ("heap -0", 1, 4),
    ("heap 064", 1, 4),
    ("heap +64", 1, 4),
    ("dict d\nthread A\nget d x", 3, 4),
    ("dict d\nthread A\nget d None", 3, 4),
    ("dict d\nthread A\nset d x 1", 3, 4),
    ("dict d\nthread A\nset d 1 x", 3, 4),
    ("dict d\nthread A\nset d 1 none", 3, 4),
    ("dict d\nthread A\nget d 9223372036854775808", 3, 4),
    ("dict d\nthread A\nget d -9223372036854775809", 3, 4),
    ("dict d\nthread A\nget d -", 3, 4),
    ("dict d\nthread A\nget d 1a", 3, 4),
    ("dict d\nthread A\nget d a\"b\"", 3, 4),
    ("list l\nthread A\nget l \"a\"", 3, 4),
    ("list l\nthread A\ninsert l None 1", 3, 4),
    ("list l\nthread A\nslice l 1 x", 3, 4),
    ("list l\nthread A\npop l 00", 3, 4),
    ("set s\nthread A\nadd s None", 3, 4),
    ("heap \0", 1, 4),
    ("heap 64\r", 1, 4),
    ("dict d\nthread A\nget d \u{7f}", 3, 4),
    ("dict d\nthread A\nget d 1\t", 3, 4),
    ("dict d\nthread A\nget d 07", 3, 4),
    ("dict d\nthread A\nget d 00", 3, 4),
    ("dict d\nthread A\nget d +7", 3, 4),
    ("dict d\nthread A\nget d -0", 3, 4),
    // Bad strings.
    ("\"", 1, 5),
    ("dict \"", 1, 5),
    ("dict d \"a\"b", 1, 5),
    (" # \"", 1, 5),
    ("none \"", 1, 5),
    ("dict d\nthread A\nget d \"a", 3, 5),
    ("dict d\nthread A\nget d \"a\"b", 3, 5),
    ("dict d\nthread A\nget d \"a\"\"b\"", 3, 5),
    ("dict d\nthread A\nget d \"a\\x\"", 3, 5),
    ("dict d\nthread A\nget d \"a\\", 3, 5),
    ("dict d\nthread A\nget d \"a\\\"", 3, 5),
    ("dict d\nthread A\nget d \"a\tb\"", 3, 5),
    ("dict d\nthread A\nget d \"a\u{7f}b\"", 3, 5),
    ("dict d\nthread A\nget d \"a\u{1}b\"", 3, 5),
    ("dict d\nthread A\nset d 1 \"a\n\"", 3, 5),
    // Names of other forms.
    ("dict D", 1, 6),
    ("dict 1d", 1, 6),
    ("dict _d", 1, 6),
    ("dict d-e", 1, 6),
    ("dict \"d\"", 1, 6),
    ("dict a\"b\"", 1, 6),
    ("dict ddddddddddddddddddddddddddddddddd", 1, 6),
    ("thread a", 1, 6),
    ("thread A-b", 1, 6),
    ("thread AAAAAAAAAAAAAAAAAAAAAAAAAAAAAAAAA", 1, 6),
    ("order a", 1, 6),
    ("order \"A\"", 1, 6),
    ("thread A\norder A a", 2, 6),
    ("thread A\nlen d", 2, 6),
    ("thread A\nget e 1 2 3", 2, 6),
    ("thread A\nset s", 2, 6),
    ("thread A\nbegin d", 2, 6),
    ("dict d\nthread A\nupdate d e", 3, 6),
    ("dict d\nthread A\nbegin d e", 3, 6),
    ("dict d\nthread A\nnext c", 3, 6),
    ("dict d\nthread A\niter d C", 3, 6),
    ("dict d\nthread A\niter d \"c\"", 3, 6),
    ("dict d\nthread A\niter d c\nthread B\nnext c", 5, 6),
    ("dict d\0", 1, 6),
    ("dict d\r\n", 1, 6),
    ("dict \u{e9}", 1, 6),
    ("thread A\u{7f}", 1, 6),
    // Names that stand twice.
    ("dict d\ndict d", 2, 7),
    ("dict d\nlist d", 2, 7),
    ("dict d\nlist e\nset d", 3, 7),
    ("tables 3 1\ntables 3 2", 2, 7),
    ("tables 3 1\ntables 3 x", 2, 7),
    ("heap 64\nheap 128", 2, 7),
    ("heap 64\nheap x", 2, 7),
    ("thread A\nthread A", 2, 7),
    ("thread A\nthread B\nquiesce\nthread A", 4, 7),
    // Containers of other kinds.
    ("dict d\nthread A\nappend d 1", 3, 8),
    ("dict d\nthread A\nadd d 1", 3, 8),
    ("dict d\nthread A\nappend d", 3, 8),
    ("dict d\nthread A\nappend d x y z", 3, 8),
    ("list l\nthread A\ngetd l 1 2", 3, 8),
    ("list l\nthread A\nadd l 1", 3, 8),
    ("set s\nthread A\nget s 1", 3, 8),
    ("set s\nthread A\ndel s 1", 3, 8),
    ("set s\nthread A\nappend s 1", 3, 8),
    ("dict d\nlist l\nset s\nthread A\nupdate d l", 5, 8),
    ("dict d\nlist l\nset s\nthread A\ncopyto d s", 5, 8),
    ("dict d\nlist l\nset s\nthread A\neq d l", 5, 8),
    ("dict d\nlist l\nset s\nthread A\nextend l d", 5, 8),
    ("dict d\nlist l\nset s\nthread A\nor s d", 5, 8),
    ("dict d\nlist l\nset s\nthread A\ndisjoint s l", 5, 8),
    // Sections that are not open or not ended.
    ("thread A\nend", 2, 9),
    ("dict d\nthread A\nbegin d\nend\nend", 5, 9),
    ("dict d\nthread A\nbegin d", 4, 10),
    ("dict d\nthread A\nbegin d\n", 4, 10),
    ("dict d\nthread A\nbegin d\n\n# x\n", 6, 10),
    ("dict d\nthread A\nbegin d\nthread B", 4, 10),
    ("dict d\nthread A\nbegin d\norder A", 4, 10),
    ("dict d\nthread A\nbegin d\nthread \"", 4, 10),
    ("dict d\nthread A\nbegin d\norder", 4, 10),
    ("dict d\nthread A\nbegin d\nthread A", 4, 10),
    ("dict d\nthread A\nbegin d\nstop", 4, 2),
    ("dict d\nthread A\nbegin d\nbegin d d\nend", 6, 10),
    // Names in orders.
    ("order A", 1, 13),
    ("thread A\norder B", 2, 13),
    ("thread A\norder A B", 2, 13),
    ("thread A\nthread B\norder A B C d", 3, 13),
    // Faults that stand together.
    ("dict D d", 1, 3),
    ("dict d\ndict d d", 2, 3),
    ("stop d \"", 1, 5),
    ("tables x y", 1, 4),
    ("tables 17 x", 1, 12),
    ("heap 64\nheap", 2, 3),
    ("dict d\nthread A\nupdate d e f", 3, 3),
    ("dict d\nlist l\nset s\nthread A\nupdate d l l", 5, 3),
    ("dict d\nthread A\nset d x \"a", 3, 5),
    ("dict d\nlist l\nset s\nthread A\nbegin e", 5, 6),
    ("dict d\nlist l\nset s\nthread A\ninsert d x y", 5, 8),
    ("dict d\nlist l\nset s\nthread A\nupdate e l", 5, 6),
    ("dict d\nthread A\nget e x", 3, 6),
    (
        "dict d\nthread A\nset d x \"aaaaaaaaaaaaaaaaaaaaaaaaaaaaaaaaaaaaaaaaaaaaaaaaaaaaaaaaaaaaaaaaaaaaaaaaaaaaaaaaaaaaaaaaaaaaaaaaaaaaaaaaaaaaaaaaaaaaaaaaaaaaaaaaaaaaaaaaaaaaaaaaaaaaaaaaaaaaaaaaaaaaaaaaaaaaaaaaaaaaaaaaaaaaaaaaaaaaaaaaaaaaaaaaaaaaaaaaaaaaaaaaaaaaaaaaaaaaaaaaaaaaaaaaaaaaaaaa\"",
        3,
        4,
    ),
    ("dict d\nthread A\nbegin e\nend", 3, 6),
    ("dict d\ndict d\nstop", 2, 7),
    ("stop\ndict d\ndict d", 1, 2),
    ("thread A\nend 1", 2, 3),
    ("dict d e \"", 1, 5),
    ("tables x", 1, 3),
    ("tables 17", 1, 3),
    ("tables x 1025", 1, 4),
    ("tables 3 1\ntables 3 1025", 2, 7),
    ("heap 64\nheap 65", 2, 7),
    ("order a B", 1, 6),
    ("order B a", 1, 13),
    ("thread A\norder A \"", 2, 5),
    ("thread A\nend \"", 2, 5),
    ("dict d\nthread A\niter d C D", 3, 3),
    ("dict d\nthread A\nget e \"", 3, 5),
    ("list l\nthread A\nslice l x 99999999999999999999", 3, 4),
    ("dict d\nthread A\nappend d \"a", 3, 5),
    ("thread A\nend\nstop", 2, 9),
    ("thread A\nstop\nend", 2, 2),
    ("dict D\ndict", 1, 6),
    ("dict\ndict D", 1, 3),
    ("heap x\n\"", 1, 4),
    ("order A\nthread A", 1, 13),
    ("dict d\nthread A\nbegin d\nget d x", 4, 4),
];

#[test]
fn each_text_has_its_fault_first(rt: HostRuntime) {
    assert_eq!(rt; first_without_its_fault(rt.alloc(), &FAULTS), None);
}

const TEXTS: [&str; 20] = [
    "",
    "\n",
    "\n\n  \n",
    "#",
    "# \"",
    "dict d",
    "dict d\n",
    "  dict   d  ",
    "dict dddddddddddddddddddddddddddddddd",
    "thread AAAAAAAAAAAAAAAAAAAAAAAAAAAAAAAA",
    "tables 3 1024\ntables 16 1\nheap 64",
    "heap 4096\ntables 4 64\ndict d\nlist l\nset s\nthread A\nthread B\norder A B A\norder B",
    "thread A\nquiesce\n\n# x\nquiesce",
    "dict d\nthread A\nset d \"\" \"a\\\"\\\\\\n\\tb\"\nget d -9223372036854775808\nget d 9223372036854775807\nget d 0\nget d -1",
    "dict d\nthread A\nset d \"a b  c\" None\ngetd d \"a\" \"é\"",
    "dict d\nthread A\ngetd d 1 None\ndel d 1\npop d 1\npopd d 1 2\npopitem d\nsetdefault d 1 2\nhas d 1\nlen d\nitems d\nupdate d d\nclear d\ncopyto d d\neq d d\niter d c\nnext c\niter d c\nnext c",
    "list l\nthread A\nappend l None\ninsert l -1 1\nget l 0\nset l 0 1\ndel l 0\npop l\npop l -1\nremove l 1\nindex l 1\ncount l 1\nhas l 1\nreverse l\nextend l l\nslice l 0 -1\nclear l\nlen l\nitems l\neq l l\niter l c\nnext c",
    "set s\nthread A\nadd s 1\ndiscard s 1\nremove s 1\npop s\nhas s 1\nlen s\nitems s\neq s s\nor s s\nand s s\nsub s s\nxor s s\nsubset s s\ndisjoint s s\nclear s\niter s c\nnext c",
    "dict d\nlist l\nset s\nthread A\nbegin d\nbegin d d\nbegin d l\nend\nend\nend\nquiesce",
    "dict d\nthread A\niter d c\nthread B\niter d c\nnext c\norder B A",
];

#[test]
fn scripts(rt: HostRuntime) {
    assert_eq!(rt; first_refused(rt.alloc(), &TEXTS), None);
}

const LIMITS: [(&str, Which); 11] = [
    ("tables 2 1", Which::Class),
    ("tables 17 1", Which::Class),
    ("tables -3 1", Which::Class),
    ("tables 3 0", Which::Tables),
    ("tables 3 1025", Which::Tables),
    ("tables 3 -1", Which::Tables),
    ("heap 0", Which::Heap),
    ("heap 63", Which::Heap),
    ("heap 65", Which::Heap),
    ("heap 4160", Which::Heap),
    ("heap -64", Which::Heap),
];

#[test]
fn numbers_past_a_limit(rt: HostRuntime) {
    assert_eq!(rt; first_within(rt.alloc(), &LIMITS), None);
}

const NOT_UTF8: [(&[u8], u32, u8); 5] = [
    (b"dict \xff", 1, 1),
    (b"dict d\n\xc3\n", 2, 1),
    (b"stop\n\n\xff\n\xff", 3, 1),
    (b"# \xe2\x82", 1, 1),
    (b"\n\n\n\x80", 4, 1),
];

#[test]
fn bytes_that_are_not_utf8(rt: HostRuntime) {
    for (bytes, line, kind) in &NOT_UTF8 {
        let fault = fault_of(rt.alloc(), bytes);
        assert_eq!(rt; fault, (*line, *kind), "of {bytes:?}");
    }
}

/// A fault in the first line, its text, and whether it says that memory ran out.
#[derive(Clone, Copy)]
struct Said<'a> {
    kind: u8,
    which: Option<Which>,
    text: &'a str,
    is_memory: bool,
}

const FAULT_TEXTS: [Said<'static>; 5] = [
    Said {
        kind: 1,
        which: None,
        text: "not UTF-8",
        is_memory: false,
    },
    Said {
        kind: 12,
        which: Some(Which::StringBytes),
        text: "limit string bytes",
        is_memory: false,
    },
    Said {
        kind: 14,
        which: None,
        text: "want of memory",
        is_memory: true,
    },
    Said {
        kind: 15,
        which: None,
        text: "await",
        is_memory: false,
    },
    Said {
        kind: 16,
        which: None,
        text: "",
        is_memory: false,
    },
];

#[test]
fn texts_of_kinds(rt: HostRuntime) {
    for said in &FAULT_TEXTS {
        let fault = ScriptFault {
            line: 1,
            kind: said.kind,
            which: said.which,
        };
        assert_eq!(rt;
            (fault.text(), fault.is_memory()),
            (said.text, said.is_memory),
            "of {:?}",
            said.kind
        );
    }
}

#[test]
fn strings_are_numbered_as_they_are_first_mentioned(rt: HostRuntime) -> Result<(), Fail> {
    let text = "dict d\nthread A\nset d \"b\" \"a\\n\"\nget d \"a\\n\"\nset d 1 \"b\"";
    let script = parse(rt.alloc(), text.as_bytes())
        .ok()
        .ok_or("the text is a script")?;
    let parts = script.parts();
    let [first, second] = parts.strings.as_slice() else {
        return Err("two strings".into());
    };
    assert!(rt; first.as_slice() == b"b".as_slice());
    assert!(rt; second.as_slice() == b"a\n".as_slice());
    Ok(())
}
