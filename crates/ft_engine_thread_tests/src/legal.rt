//! Histories of threads that run at the same time are legal.

use crate::scripts::{alike, apart, numbered, repeated};
use crossbeam_utils::Backoff;
use ft_history::{Verdict, judge};
use ft_model::Storage;
use ft_run_threads::{Gate, NoGate, run_workers};
use ft_script::parse;
use std::alloc::Global;
use std::process::Abort;
use std::sync::Wait;
use std::sync::atomic::{AtomicU64, Ordering};
use std::test::Fail;
use std::thread::Threads;

/// How many entries the history of the script has, which is run with this gate; `None` where it isn't legal.
pub(crate) fn gated_entries<R: Threads + Wait + Sync, G: Gate>(
    rt: &R,
    alloc: Global,
    text: &str,
    gate: &G,
) -> Result<Option<usize>, Fail> {
    let script = parse(alloc, text.as_bytes())?;
    let ran = run_workers(rt, alloc, &script, gate)?;
    let verdict = judge(alloc, Storage::Tables, &script, ran.history.as_slice())?;
    if verdict != Verdict::Legal {
        return Ok(None);
    }
    Ok(Some(ran.history.len()))
}

/// The same without a gate.
pub(crate) fn legal_entries<R: Threads + Wait + Sync>(
    rt: &R,
    alloc: Global,
    text: &str,
) -> Result<Option<usize>, Fail> {
    gated_entries(rt, alloc, text, &NoGate)
}

/// A script with few calls, and how many entries its history has.
struct Few {
    script: &'static str,
    entries: usize,
}

const FEW: [Few; 7] = [
    Few {
        script: "",
        entries: 0,
    },
    Few {
        script: "dict d\nset s\n",
        entries: 0,
    },
    Few {
        script: "thread A\n",
        entries: 0,
    },
    Few {
        script: "thread A\nthread B\nthread C\n",
        entries: 0,
    },
    Few {
        script: "list l\nthread A\nthread B\nappend l 1\nthread C\n",
        entries: 1,
    },
    Few {
        script: "dict d\nthread A\nset d \"a\" 1\nget d \"a\"\nget d \"b\"\n",
        entries: 3,
    },
    Few {
        script: "dict d\nthread A\nset d 1 1\niter d c\nnext c\nnext c\n",
        entries: 4,
    },
];

#[test]
fn scripts_with_few_calls(rt: HostRuntime) -> Result<(), Fail> {
    for few in &FEW {
        let made = legal_entries(&rt, rt.alloc(), few.script)?;
        assert_eq!(rt; made, Some(few.entries), "{}", few.script);
    }
    Ok(())
}

#[test]
fn most_threads_on_one_dict(rt: HostRuntime) -> Result<(), Fail> {
    let lines = "set d 1 5\nget d 1\nset d 2 6\ndel d 1\nitems d\n";
    let text = alike(rt.alloc(), "dict d\n", 64, lines)?;
    assert_eq!(rt; legal_entries(&rt, rt.alloc(), &text)?, Some(320));
    Ok(())
}

// Each thread stores strings and great integers, drops its own and those of others, and reads them meanwhile.
#[test]
fn most_threads_store_and_drop_boxed_values_in_one_dict(rt: HostRuntime) -> Result<(), Fail> {
    let lines =
        "set d 1 1000\nget d 1\nset d 2 \"b\"\npopd d 1 None\nset d 2 2000\nquiesce\nitems d\npopitem d\n";
    let text = alike(rt.alloc(), "dict d\n", 64, lines)?;
    assert_eq!(rt; legal_entries(&rt, rt.alloc(), &text)?, Some(512));
    Ok(())
}

#[test]
fn most_threads_in_sections_on_two_dicts(rt: HostRuntime) -> Result<(), Fail> {
    let text = numbered(rt.alloc(), 64)?;
    assert_eq!(rt; legal_entries(&rt, rt.alloc(), &text)?, Some(256));
    Ok(())
}

#[test]
fn most_threads_on_as_many_dicts(rt: HostRuntime) -> Result<(), Fail> {
    let text = apart(rt.alloc(), 64)?;
    assert_eq!(rt; legal_entries(&rt, rt.alloc(), &text)?, Some(256));
    Ok(())
}

/// Three threads with the same lines.
const DELAYED: [(&str, &str); 3] = [
    ("A", DELAYED_LINES),
    ("B", DELAYED_LINES),
    ("C", DELAYED_LINES),
];

const DELAYED_LINES: &str = "begin d l\nset d 1 1\nappend l 1\nend\nget d 1\npop l\n";

/// Delays the first thread before each of its calls, and counts these.
#[derive(Drop)]
struct Delay {
    delayed: AtomicU64,
}

impl Gate for Delay {
    fn before(&self, thread: u32, _index: u32) {
        if thread == 0 {
            self.delayed.fetch_add(1, Ordering::SeqCst);
            let backoff = Backoff::new();
            for _ in 0..50 {
                backoff.snooze();
            }
        }
    }

    fn after(&self, _thread: u32, _index: u32) {}
}

#[test]
fn a_thread_is_delayed_at_each_call(rt: HostRuntime) -> Result<(), Fail> {
    let text = repeated(rt.alloc(), "dict d\nlist l\n", &DELAYED, 20)?;
    let gate = Delay {
        delayed: AtomicU64::new(0),
    };
    assert_eq!(rt; gated_entries(&rt, rt.alloc(), &text, &gate)?, Some(360));
    assert_eq!(rt; gate.delayed.load(Ordering::SeqCst), 120);
    Ok(())
}

/// A script in which each thread makes its lines that many times, and how many entries its history has.
struct Repeated {
    name: &'static str,
    containers: &'static str,
    threads: &'static [(&'static str, &'static str)],
    times: u32,
    entries: usize,
}

const WRITER: &str = "set d 1 5\nget d 1\nset d 2 6\ndel d 1\n";

const READER: &str = "get d 1\nhas d 2\nlen d\nsetdefault d 3 1\n";

const REPEATED: [Repeated; 7] = [
    Repeated {
        name: "four threads on one dict",
        containers: "dict d\n",
        threads: &[("A", WRITER), ("B", READER), ("C", WRITER), ("D", READER)],
        times: 100,
        entries: 1600,
    },
    Repeated {
        name: "sections on two dicts in both orders",
        containers: "dict d\ndict e\n",
        threads: &[
            ("A", "begin d e\nset d 1 1\nset e 1 1\nend\n"),
            ("B", "begin e d\nget d 1\nset e 2 2\nend\n"),
        ],
        times: 100,
        entries: 800,
    },
    // Each pair of threads takes the same two containers, one in the other, in the two orders.
    Repeated {
        name: "nested sections in opposite orders",
        containers: "dict d\nlist l\nset s\n",
        threads: &[
            ("A", "begin d\nbegin l\nappend l 1\nset d 1 1\nend\nend\n"),
            ("B", "begin l\nbegin d\nget d 1\nlen l\nend\nend\n"),
            ("C", "begin l\nbegin s\nadd s 1\npop l\nend\nend\n"),
            ("D", "begin s\nbegin l\ndiscard s 1\nlen l\nend\nend\n"),
        ],
        times: 125,
        entries: 3000,
    },
    Repeated {
        name: "three threads on a dict, a list and a set",
        containers: "dict d\nlist l\nset s\n",
        threads: &[
            ("A", "set d 1 1\nappend l 1\nadd s 1\nquiesce\n"),
            ("B", "pop l\nremove s 1\ndel d 1\nquiesce\n"),
            ("C", "iter d c\nnext c\nitems l\nitems s\nquiesce\n"),
        ],
        times: 100,
        entries: 1300,
    },
    Repeated {
        name: "boxed values of four threads in two dicts",
        containers: "dict d\ndict e\n",
        threads: &[
            ("A", "set d 1 1000\nset d 2 \"a\"\npopd d 1 None\nquiesce\n"),
            ("B", "set d 1 \"b\"\nset d 3 2000\npop d 2\nquiesce\n"),
            ("C", "get d 1\nsetdefault d 2 \"c\"\nitems d\nquiesce\n"),
            ("D", "update d e\nclear d\nset e 1 3000\nquiesce\n"),
        ],
        times: 100,
        entries: 1600,
    },
    // A comes to no quiescent point, so the places of what B and C drop never come back to it.
    Repeated {
        name: "heaps that are full",
        containers: "list l\n",
        threads: &[
            ("A", "append l 1000\nappend l \"a\"\nset l -1 2000\n"),
            ("B", "pop l\ninsert l 0 \"b\"\nquiesce\n"),
            ("C", "del l 0\nappend l 3000\nreverse l\n"),
        ],
        times: 200,
        entries: 1800,
    },
    Repeated {
        name: "values that lists and dicts share",
        containers: "dict d\ndict e\nlist l\nlist m\n",
        threads: &[
            ("A", "append l 1000\nextend m l\nclear l\nclear m\n"),
            ("B", "extend l m\npop m\npop l\nquiesce\n"),
            ("C", "extend m l\nset d 1 2000\nupdate e d\nquiesce\n"),
            ("D", "append m \"b\"\nupdate d e\nclear e\nclear m\n"),
        ],
        times: 100,
        entries: 1600,
    },
];

#[test]
fn threads_that_repeat_their_lines(rt: HostRuntime) -> Result<(), Fail> {
    for row in &REPEATED {
        let text = repeated(rt.alloc(), row.containers, row.threads, row.times)?;
        let made = legal_entries(&rt, rt.alloc(), &text)?;
        assert_eq!(rt; made, Some(row.entries), "{}", row.name);
    }
    Ok(())
}
