//! Several cursors on one container (Python manual, Iterator Types: a cursor is its thread's).

use ft_engine_tests::{Case, all_come_out};
use std::test::Fail;

const SEVERAL: [Case<'static>; 3] = [
    // Two cursors on one list, and one that takes another's place.
    Case {
        script: "list l\n\
            thread A\n\
            append l 1\n\
            append l 2\n\
            iter l c\n\
            next c\n\
            iter l e\n\
            next c\n\
            next e\n\
            iter l c\n\
            next c\n\
            next e\n",
        transcript: "A.1 w0 append l 1 = ok\n\
            A.2 w1 append l 2 = ok\n\
            A.3 r2 iter l c = ok\n\
            A.4 r2 next c = 1\n\
            A.5 r2 iter l e = ok\n\
            A.6 r2 next c = 2\n\
            A.7 r2 next e = 1\n\
            A.8 r2 iter l c = ok\n\
            A.9 r2 next c = 1\n\
            A.10 r2 next e = 2\n",
    },
    // Two threads with a cursor each on one dict, of which one writes.
    Case {
        script: "dict d\n\
            thread A\n\
            set d 1 1\n\
            set d 2 2\n\
            iter d c\n\
            next c\n\
            next c\n\
            thread B\n\
            iter d c\n\
            next c\n\
            set d 3 3\n\
            next c\n\
            order A A A B B A B A B\n",
        transcript: "A.1 w0 set d 1 1 = ok\n\
            A.2 w1 set d 2 2 = ok\n\
            A.3 r2 iter d c = ok\n\
            A.4 r2 next c = 1: 1\n\
            B.1 r2 iter d c = ok\n\
            B.2 r2 next c = 1: 1\n\
            B.3 w2 set d 3 3 = ok\n\
            A.5 r3 next c = RuntimeError size\n\
            B.4 r3 next c = RuntimeError size\n",
    },
    // `next` waits for the lock that another thread has; `get` does not.
    Case {
        script: "dict d\n\
            thread A\n\
            set d 1 1\n\
            iter d c\n\
            get d 1\n\
            next c\n\
            thread B\n\
            begin d\n\
            end\n\
            order A A B A A B\n",
        transcript: "A.1 w0 set d 1 1 = ok\n\
            A.2 r1 iter d c = ok\n\
            A.3 r1 get d 1 = 1\n\
            A.4 r1 next c = 1: 1 waited B\n\
            B.1 r1 begin d = entered\n\
            B.2 r1 end = kept\n",
    },
];

#[test]
fn each_cursor_walks_by_itself(rt: HostRuntime) -> Result<(), Fail> {
    all_come_out(rt.alloc(), &SEVERAL)
}
