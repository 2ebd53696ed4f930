//! Scripts that the generator makes. The texts are those of a program of some lines in Python.

use ft_script::{make_script, parse};
use std::alloc::Global;
use std::process::Abort;

/// Whether the script of a number of calls has this text.
fn makes(alloc: Global, calls: u32, text: &str) -> bool {
    make_script(alloc, calls).is_ok_and(|made| made.as_slice() == text.as_bytes())
}

/// How many calls each thread of a text has.
fn calls_of(alloc: Global, text: &[u8]) -> Option<[usize; 4]> {
    let script = parse(alloc, text).ok()?;
    match script.parts().threads.as_slice() {
        [a, b, c, d] => Some([a.calls.len(), b.calls.len(), c.calls.len(), d.calls.len()]),
        _ => None,
    }
}

/// How many calls each thread has of the script of a number of calls.
fn dealt(alloc: Global, calls: u32) -> Option<[usize; 4]> {
    let text = make_script(alloc, calls).ok()?;
    calls_of(alloc, text.as_slice())
}

/// How many calls a script has, and its text.
#[derive(Clone, Copy)]
struct Made<'a> {
    calls: u32,
    text: &'a str,
}

const MADE_SCRIPTS: [Made<'static>; 5] = [
    Made {
        calls: 0,
        text: "heap 4096\ntables 12 16\ndict d\nlist l\nset s\nthread A\nthread B\nthread C\nthread D\n",
    },
    Made {
        calls: 1,
        text: "heap 4096\ntables 12 16\ndict d\nlist l\nset s\nthread A\ndiscard s 346\nthread B\nthread C\nthread D\n",
    },
    Made {
        calls: 2,
        text: "heap 4096\ntables 12 16\ndict d\nlist l\nset s\nthread A\nget l 717\nthread B\ndel d 485\nthread C\nthread D\n",
    },
    Made {
        calls: 5,
        text: "heap 4096\ntables 12 16\ndict d\nlist l\nset s\nthread A\nset d 374 374\nadd s 971\nthread B\ndel d 279\nthread C\nadd s 925\nthread D\nquiesce\n",
    },
    Made {
        calls: 11,
        text: "heap 4096\ntables 12 16\ndict d\nlist l\nset s\nthread A\nset d 687 687\nappend l 856\nquiesce\nthread B\nset d 651 651\ndiscard s 691\nappend l 60\nthread C\nget d 294\ndel d 890\nget l 967\nthread D\nappend l 470\nappend l 334\n",
    },
];

#[test]
fn scripts_of_few_calls(rt: HostRuntime) {
    for made in &MADE_SCRIPTS {
        assert!(rt;
            makes(rt.alloc(), made.calls, made.text),
            "of {:?} calls",
            made.calls
        );
    }
}

/// How many calls a script has, and each of its threads.
#[derive(Clone, Copy)]
struct Deal {
    calls: u32,
    shares: [usize; 4],
}

const DEALS: [Deal; 5] = [
    Deal {
        calls: 1,
        shares: [1, 0, 0, 0],
    },
    Deal {
        calls: 2,
        shares: [1, 1, 0, 0],
    },
    Deal {
        calls: 5,
        shares: [2, 1, 1, 1],
    },
    Deal {
        calls: 11,
        shares: [3, 3, 3, 2],
    },
    Deal {
        calls: 100_000,
        shares: [25_000, 25_000, 25_000, 25_000],
    },
];

#[test]
fn calls_are_dealt_in_blocks(rt: HostRuntime) {
    for deal in &DEALS {
        let shares = dealt(rt.alloc(), deal.calls);
        assert_eq!(rt; shares, Some(deal.shares), "of {:?} calls", deal.calls);
    }
}
