//! Walks over lists and sets, beside changes of what is walked (Python manual, Iterator Types).

use ft_engine_tests::{Case, all_come_out};
use std::test::Fail;

const OTHERS: [Case<'static>; 6] = [
    // A list is walked by its index: it may grow, and items that move are met again or passed.
    Case {
        script: "list l\n\
            thread A\n\
            append l 1\n\
            append l 2\n\
            iter l c\n\
            next c\n\
            insert l 0 0\n\
            next c\n\
            next c\n\
            append l 3\n\
            next c\n\
            next c\n\
            append l 4\n\
            next c\n",
        transcript: "A.1 w0 append l 1 = ok\n\
            A.2 w1 append l 2 = ok\n\
            A.3 r2 iter l c = ok\n\
            A.4 r2 next c = 1\n\
            A.5 w2 insert l 0 0 = ok\n\
            A.6 r3 next c = 1\n\
            A.7 r3 next c = 2\n\
            A.8 w3 append l 3 = ok\n\
            A.9 r4 next c = 3\n\
            A.10 r4 next c = StopIteration\n\
            A.11 w4 append l 4 = ok\n\
            A.12 r5 next c = StopIteration\n",
    },
    // A set that grows while it is walked.
    Case {
        script: "set s\n\
            thread A\n\
            add s 1\n\
            iter s c\n\
            add s 2\n\
            next c\n\
            remove s 2\n\
            next c\n",
        transcript: "A.1 w0 add s 1 = ok\n\
            A.2 r1 iter s c = ok\n\
            A.3 w1 add s 2 = ok\n\
            A.4 r2 next c = RuntimeError size\n\
            A.5 w2 remove s 2 = ok\n\
            A.6 r3 next c = RuntimeError size\n",
    },
    // An element for another one, then the end.
    Case {
        script: "set s\n\
            thread A\n\
            add s 1\n\
            add s 2\n\
            iter s c\n\
            next c\n\
            remove s 1\n\
            add s 3\n\
            next c\n\
            next c\n\
            next c\n",
        transcript: "A.1 w0 add s 1 = ok\n\
            A.2 w1 add s 2 = ok\n\
            A.3 r2 iter s c = ok\n\
            A.4 r2 next c = 1\n\
            A.5 w2 remove s 1 = ok\n\
            A.6 w3 add s 3 = ok\n\
            A.7 r4 next c = 2\n\
            A.8 r4 next c = 3\n\
            A.9 r4 next c = StopIteration\n",
    },
    // As many elements go as come.
    Case {
        script: "set s\n\
            set t\n\
            thread A\n\
            add s 1\n\
            add s 2\n\
            add t 1\n\
            add t 3\n\
            iter s c\n\
            next c\n\
            xor s t\n\
            next c\n\
            next c\n\
            next c\n",
        transcript: "A.1 w0 add s 1 = ok\n\
            A.2 w1 add s 2 = ok\n\
            A.3 w2 add t 1 = ok\n\
            A.4 w3 add t 3 = ok\n\
            A.5 r4 iter s c = ok\n\
            A.6 r4 next c = 1\n\
            A.7 w4 xor s t = ok\n\
            A.8 r5 next c = 2\n\
            A.9 r5 next c = 3\n\
            A.10 r5 next c = StopIteration\n",
    },
    // A list that is cleared, and has items again.
    Case {
        script: "list l\n\
            thread A\n\
            append l 1\n\
            append l 2\n\
            iter l c\n\
            next c\n\
            clear l\n\
            append l 7\n\
            append l 8\n\
            next c\n\
            clear l\n\
            next c\n\
            append l 9\n\
            append l 9\n\
            append l 9\n\
            next c\n",
        transcript: "A.1 w0 append l 1 = ok\n\
            A.2 w1 append l 2 = ok\n\
            A.3 r2 iter l c = ok\n\
            A.4 r2 next c = 1\n\
            A.5 w2 clear l = ok\n\
            A.6 w3 append l 7 = ok\n\
            A.7 w4 append l 8 = ok\n\
            A.8 r5 next c = 8\n\
            A.9 w5 clear l = ok\n\
            A.10 r6 next c = StopIteration\n\
            A.11 w6 append l 9 = ok\n\
            A.12 w7 append l 9 = ok\n\
            A.13 w8 append l 9 = ok\n\
            A.14 r9 next c = StopIteration\n",
    },
    // A set that has another table since the cursor was made, and its old size.
    Case {
        script: "set s\n\
            thread A\n\
            add s 1\n\
            add s 2\n\
            add s 3\n\
            add s 4\n\
            iter s c\n\
            next c\n\
            remove s 1\n\
            add s 5\n\
            remove s 2\n\
            add s 6\n\
            next c\n\
            next c\n\
            next c\n\
            next c\n\
            next c\n",
        transcript: "A.1 w0 add s 1 = ok\n\
            A.2 w1 add s 2 = ok\n\
            A.3 w2 add s 3 = ok\n\
            A.4 w3 add s 4 = ok\n\
            A.5 r4 iter s c = ok\n\
            A.6 r4 next c = 1\n\
            A.7 w4 remove s 1 = ok\n\
            A.8 w5 add s 5 = ok\n\
            A.9 w6 remove s 2 = ok\n\
            A.10 w7 add s 6 = ok\n\
            A.11 r8 next c = 3\n\
            A.12 r8 next c = 4\n\
            A.13 r8 next c = 5\n\
            A.14 r8 next c = 6\n\
            A.15 r8 next c = StopIteration\n",
    },
];

#[test]
fn walks_over_lists_and_sets_come_out_so(rt: HostRuntime) -> Result<(), Fail> {
    all_come_out(rt.alloc(), &OTHERS)
}
