//! Scripts and their histories in the order of their turns. The texts of the last ten runs are what a
//! second model of the turns gives, written apart from this one; the others are worked out by hand.

use super::checking::{LEGAL, is_found};
use super::{Case, EXAMPLE, check};
use std::test::Fail;

/// A script, how many entries its history has, and its text under `turns`.
#[derive(Clone, Copy)]
pub(super) struct Run<'a> {
    pub(super) entries: usize,
    pub(super) input: &'a str,
    pub(super) put: &'a str,
}

/// Two threads, of which the second awaits the first.
pub(super) const TWO_IN_TURN: Run<'static> = Run {
    entries: 3,
    input: "version 2\nlist l\nthread A\nappend l 1\nthread B\nawait A.1\nappend l 2\norder B B A B\n",
    put: "A.1 w0 append l 1 = ok\nB.1 r1 await A.1 = ok\nB.2 w1 append l 2 = ok\nl = [1, 2]\n",
};

/// Three threads, each of which awaits the one before it.
pub(super) const THREE_IN_TURN: Run<'static> = Run {
    entries: 5,
    input: "version 2\nlist l\nthread A\nappend l 1\nthread B\nawait A.1\nappend l 2\nthread C\nawait B.2\nappend l 3\norder C C B C A\n",
    put: "A.1 w0 append l 1 = ok\nB.1 r1 await A.1 = ok\nB.2 w1 append l 2 = ok\nC.1 r2 await B.2 = ok\nC.2 w2 append l 3 = ok\nl = [1, 2, 3]\n",
};

const RUNS: [Run<'static>; 24] = [
    TWO_IN_TURN,
    THREE_IN_TURN,
    // A key that is added again goes last.
    Run {
        entries: 5,
        input: "dict d\nthread A\nset d \"a\" 1\nset d \"b\" 2\ndel d \"a\"\nset d \"a\" 3\nitems d\n",
        put: "A.1 w0 set d \"a\" 1 = ok\nA.2 w1 set d \"b\" 2 = ok\nA.3 w2 del d \"a\" = ok\nA.4 w3 set d \"a\" 3 = ok\nA.5 r4 items d = {\"b\": 2, \"a\": 3}\nd = {\"b\": 2, \"a\": 3}\n",
    },
    // An exception draws no number.
    Run {
        entries: 1,
        input: "dict d\nthread A\ndel d 7\n",
        put: "A.1 r0 del d 7 = KeyError\nd = {}\n",
    },
    // The least and the greatest integer.
    Run {
        entries: 2,
        input: "dict d\nthread A\nset d 9223372036854775807 1\nset d -9223372036854775808 2\n",
        put: "A.1 w0 set d 9223372036854775807 1 = ok\nA.2 w1 set d -9223372036854775808 2 = ok\nd = {9223372036854775807: 1, -9223372036854775808: 2}\n",
    },
    // Two keys of one hash.
    Run {
        entries: 5,
        input: "dict d\nthread A\nset d -1 10\nset d -2 20\ndel d -1\nget d -2\nget d -1\n",
        put: "A.1 w0 set d -1 10 = ok\nA.2 w1 set d -2 20 = ok\nA.3 w2 del d -1 = ok\nA.4 r3 get d -2 = 20\nA.5 r3 get d -1 = KeyError\nd = {-2: 20}\n",
    },
    // A cursor over a dict whose size changed.
    Run {
        entries: 9,
        input: "dict d\nthread A\nset d 1 1\nset d 2 2\nset d 3 3\niter d c\nnext c\nset d 4 4\nnext c\ndel d 4\nnext c\n",
        put: "A.1 w0 set d 1 1 = ok\nA.2 w1 set d 2 2 = ok\nA.3 w2 set d 3 3 = ok\nA.4 r3 iter d c = ok\nA.5 r3 next c = 1: 1\nA.6 w3 set d 4 4 = ok\nA.7 r4 next c = RuntimeError size\nA.8 w4 del d 4 = ok\nA.9 r5 next c = RuntimeError size\nd = {1: 1, 2: 2, 3: 3}\n",
    },
    // A cursor over a dict whose keys changed.
    Run {
        entries: 9,
        input: "dict d\nthread A\nset d 1 1\nset d 2 2\niter d c\nnext c\ndel d 1\nset d 3 3\nnext c\nnext c\nnext c\n",
        put: "A.1 w0 set d 1 1 = ok\nA.2 w1 set d 2 2 = ok\nA.3 r2 iter d c = ok\nA.4 r2 next c = 1: 1\nA.5 w2 del d 1 = ok\nA.6 w3 set d 3 3 = ok\nA.7 r4 next c = 2: 2\nA.8 r4 next c = RuntimeError keys\nA.9 r4 next c = StopIteration\nd = {2: 2, 3: 3}\n",
    },
    // Indexes of a list.
    Run {
        entries: 9,
        input: "list l\nthread A\nappend l 5\nappend l 6\nget l -1\nget l 2\ninsert l 99 7\nslice l 1 9\nremove l 8\nclear l\npop l\n",
        put: "A.1 w0 append l 5 = ok\nA.2 w1 append l 6 = ok\nA.3 r2 get l -1 = 6\nA.4 r2 get l 2 = IndexError\nA.5 w2 insert l 99 7 = ok\nA.6 r3 slice l 1 9 = [6, 7]\nA.7 r3 remove l 8 = ValueError\nA.8 w3 clear l = ok\nA.9 r4 pop l = IndexError\nl = []\n",
    },
    // A nested section waits, and suspends the one round it.
    Run {
        entries: 8,
        input: "list l\ndict d\nthread A\nbegin d\nbegin l\nappend l 1\nend\nend\nthread B\nbegin l\nappend l 2\nend\norder B A A B B\n",
        put: "A.1 r0 begin d = entered\nB.1 r0 begin l = entered\nB.2 w0 append l 2 = ok\nA.2 r1 begin l = entered waited B\nB.3 r1 end = kept\nA.3 w1 append l 1 = ok\nA.4 r2 end = kept\nA.5 r2 end = suspended 1\nl = [2, 1]\nd = {}\n",
    },
    // Another thread writes on a section that is suspended.
    Run {
        entries: 9,
        input: "list l\ndict d\nthread A\nbegin d\nbegin l\nappend l 1\nend\nend\nthread B\nbegin l\nappend l 2\nend\nthread C\nset d 1 1\norder B A A C B B\n",
        put: "A.1 r0 begin d = entered\nB.1 r0 begin l = entered\nC.1 w0 set d 1 1 = ok\nB.2 w1 append l 2 = ok\nA.2 r2 begin l = entered waited B\nB.3 r2 end = kept\nA.3 w2 append l 1 = ok\nA.4 r3 end = kept\nA.5 r3 end = suspended 1\nl = [2, 1]\nd = {1: 1}\n",
    },
    // Sections on what the thread has.
    Run {
        entries: 6,
        input: "dict d\nthread A\nbegin d\nbegin d\nend\nend\nbegin d d\nend\n",
        put: "A.1 r0 begin d = entered\nA.2 r0 begin d = entered\nA.3 r0 end = kept\nA.4 r0 end = kept\nA.5 r0 begin d d = entered\nA.6 r0 end = kept\nd = {}\n",
    },
    // One container twice.
    Run {
        entries: 7,
        input: "dict d\nlist l\nset s\nthread A\nset d 1 1\nupdate d d\nappend l 1\nappend l 2\nextend l l\nadd s 1\nsub s s\n",
        put: "A.1 w0 set d 1 1 = ok\nA.2 w1 update d d = ok\nA.3 w2 append l 1 = ok\nA.4 w3 append l 2 = ok\nA.5 w4 extend l l = ok\nA.6 w5 add s 1 = ok\nA.7 w6 sub s s = ok\nd = {1: 1}\nl = [1, 2, 1, 2]\ns = set()\n",
    },
    // A mark on `begin` alone does not suspend the section that it enters.
    Run {
        entries: 6,
        input: "list a\nlist b\nthread A\nbegin a b\nend\nthread B\nbegin b\nbegin a\nend\nend\norder B A B\n",
        put: "A.1 r0 begin a b = entered waited B\nA.2 r0 end = kept\nB.1 r0 begin b = entered\nB.2 r0 begin a = entered waited A\nB.3 r0 end = kept\nB.4 r0 end = suspended 1\na = []\nb = []\n",
    },
    // Two threads wait for one section, and go on in the order of their turns.
    Run {
        entries: 9,
        input: "list a\nthread A\nbegin a\nappend a 1\nappend a 2\nend\nthread B\nbegin a\nappend a 3\nend\nthread C\nlen a\nappend a 4\norder A B C C A A A\n",
        put: "A.1 r0 begin a = entered\nC.1 r0 len a = 0\nA.2 w0 append a 1 = ok\nA.3 w1 append a 2 = ok\nA.4 r2 end = kept\nB.1 r2 begin a = entered waited A\nB.2 w2 append a 3 = ok\nB.3 r3 end = kept\nC.2 w3 append a 4 = ok waited A\na = [1, 2, 3, 4]\n",
    },
    // The inner `begin` waits for a third thread while the outer one has waited already.
    Run {
        entries: 11,
        input: "list a\nlist b\nthread A\nbegin a\nappend a 1\nend\nthread B\nbegin a\nbegin b\nappend b 2\nend\nend\nthread C\nbegin b\nappend b 3\nend\norder A B C B A A\n",
        put: "A.1 r0 begin a = entered\nC.1 r0 begin b = entered\nA.2 w0 append a 1 = ok\nA.3 r1 end = kept\nB.1 r1 begin a = entered waited A\nC.2 w1 append b 3 = ok\nB.2 r2 begin b = entered waited C\nC.3 r2 end = kept\nB.3 w2 append b 2 = ok\nB.4 r3 end = kept\nB.5 r3 end = suspended 1\na = [1]\nb = [3, 2]\n",
    },
    // A section on the same two the other way round; the other thread waits with no section of its own.
    Run {
        entries: 8,
        input: "list a\nlist b\nthread A\nbegin a b\nappend a 1\nbegin b a\nappend b 2\nend\nend\nthread B\nappend b 3\nappend a 4\norder A B\n",
        put: "A.1 r0 begin a b = entered\nA.2 w0 append a 1 = ok\nA.3 r1 begin b a = entered\nA.4 w1 append b 2 = ok\nA.5 r2 end = kept\nA.6 r2 end = kept\nB.1 w2 append b 3 = ok waited A\nB.2 w3 append a 4 = ok\na = [1, 4]\nb = [2, 3]\n",
    },
    // Three sections in a ring: the innermost of each is that of the next.
    Run {
        entries: 16,
        input: "list a\nlist b\nlist c\nthread A\nbegin a\nbegin b\nappend b 1\nend\nappend a 2\nend\nthread B\nbegin b\nbegin c\nappend c 3\nend\nend\nthread C\nbegin c\nbegin a\nappend a 4\nend\nend\norder A B C A B C\n",
        put: "A.1 r0 begin a = entered\nA.2 r0 begin b = entered waited B\nB.1 r0 begin b = entered\nC.1 r0 begin c = entered\nC.2 r0 begin a = entered\nC.3 w0 append a 4 = ok\nA.3 w1 append b 1 = ok\nA.4 r2 end = kept\nC.4 r2 end = kept\nC.5 r2 end = kept\nA.5 w2 append a 2 = ok\nA.6 r3 end = suspended 1\nB.2 r3 begin c = entered waited C\nB.3 w3 append c 3 = ok\nB.4 r4 end = kept\nB.5 r4 end = suspended 1\na = [4, 2]\nb = [1]\nc = [3]\n",
    },
    // A section whose inner `begin` waited lets the third thread in, and takes up its lock when the inner one ends.
    Run {
        entries: 10,
        input: "list a\nlist b\nthread A\nbegin a\nbegin b\nend\nappend a 1\nend\nthread B\nbegin b\nappend b 2\nappend b 3\nend\nthread C\nappend a 4\norder A B A C B B B A\n",
        put: "A.1 r0 begin a = entered\nB.1 r0 begin b = entered\nC.1 w0 append a 4 = ok\nB.2 w1 append b 2 = ok\nB.3 w2 append b 3 = ok\nA.2 r3 begin b = entered waited B\nA.3 r3 end = kept\nB.4 r3 end = kept\nA.4 w3 append a 1 = ok\nA.5 r4 end = suspended 1\na = [4, 1]\nb = [2, 3]\n",
    },
    // More turns are said than the thread can use, and fewer than there are calls.
    Run {
        entries: 6,
        input: "list a\nlist b\nthread A\nbegin a b\nappend a 1\nend\nthread B\nbegin a b\nappend b 2\nend\norder A B B B A A A B B B B B\n",
        put: "A.1 r0 begin a b = entered\nA.2 w0 append a 1 = ok\nA.3 r1 end = kept\nB.1 r1 begin a b = entered waited A\nB.2 w1 append b 2 = ok\nB.3 r2 end = kept\na = [1]\nb = [2]\n",
    },
    // A call in a section waits for a lock outside it; a section on both waits for the first of them.
    Run {
        entries: 8,
        input: "list a\nlist b\nlist c\nthread A\nbegin a\nappend c 1\nend\nthread B\nbegin c\nappend a 2\nend\nthread C\nbegin a c\nend\norder B A A B C\n",
        put: "A.1 r0 begin a = entered\nB.1 r0 begin c = entered\nB.2 w0 append a 2 = ok\nB.3 r1 end = kept\nC.1 r1 begin a c = entered waited B\nC.2 r1 end = kept\nA.2 w1 append c 1 = ok waited B\nA.3 r2 end = suspended 1\na = [2]\nb = []\nc = [1]\n",
    },
    // A section on two dicts waits with the first of them, so the third thread waits for it.
    Run {
        entries: 8,
        input: "dict d\ndict e\nthread A\nbegin d e\nupdate d e\nend\nthread B\nbegin e\nset e 1 2\nend\nthread C\nitems d\nset d 3 4\norder B A C B\n",
        put: "B.1 r0 begin e = entered\nC.1 r0 items d = {}\nB.2 w0 set e 1 2 = ok\nA.1 r1 begin d e = entered waited B\nB.3 r1 end = kept\nA.2 w1 update d e = ok\nA.3 r2 end = kept\nC.2 w2 set d 3 4 = ok waited A\nd = {1: 2, 3: 4}\ne = {1: 2}\n",
    },
    // The innermost section takes up again the lock that the outermost one let go.
    Run {
        entries: 11,
        input: "list a\nlist b\nthread A\nbegin a\nbegin b\nbegin a\nappend a 1\nend\nend\nend\nthread B\nbegin b\nappend b 2\nend\nthread C\nappend a 3\norder A B A C B B A A A A\n",
        put: "A.1 r0 begin a = entered\nB.1 r0 begin b = entered\nC.1 w0 append a 3 = ok\nB.2 w1 append b 2 = ok\nA.2 r2 begin b = entered waited B\nA.3 r2 begin a = entered\nB.3 r2 end = kept\nA.4 w2 append a 1 = ok\nA.5 r3 end = kept\nA.6 r3 end = kept\nA.7 r3 end = suspended 1\na = [3, 1]\nb = [2]\n",
    },
    // The last thread goes first, and a plain call waits for a section.
    Run {
        entries: 9,
        input: "list a\nthread A\npop a\nbegin a\nend\nquiesce\nthread B\nbegin a\nappend a 1\nend\nappend a 2\nthread C\npop a\norder C C B A A\n",
        put: "B.1 r0 begin a = entered\nC.1 r0 pop a = IndexError\nB.2 w0 append a 1 = ok\nB.3 r1 end = kept\nA.1 w1 pop a = 1 waited B\nB.4 w2 append a 2 = ok\nA.2 r3 begin a = entered\nA.3 r3 end = kept\nA.4 r3 quiesce = ok\na = [2]\n",
    },
];

/// The call of `turns` that comes to this.
pub(super) fn case_of<'a>(run: &Run<'a>) -> Case<'a> {
    Case {
        input: run.input,
        put: run.put,
        entries: run.entries,
        ..EXAMPLE
    }
}

#[test]
fn scripts_are_run_in_the_order_of_their_turns(rt: HostRuntime) -> Result<(), Fail> {
    for run in &RUNS {
        check(&rt, &case_of(run))?;
    }
    Ok(())
}

#[test]
fn what_a_run_writes_is_found_legal(rt: HostRuntime) -> Result<(), Fail> {
    for run in &RUNS {
        is_found(&rt, &LEGAL, run.input, run.put)?;
    }
    Ok(())
}
