//! Walks over dicts, beside changes of what is walked (Python manual, Iterator Types, Mapping Types).

use ft_engine_tests::{Case, all_come_out};
use std::test::Fail;

const DICTS: [Case<'static>; 9] = [
    // A dict that has grown since the cursor was made, and has its old size again.
    Case {
        script: "dict d\n\
            thread A\n\
            set d 1 1\n\
            set d 2 2\n\
            set d 3 3\n\
            iter d c\n\
            next c\n\
            set d 4 4\n\
            next c\n\
            del d 4\n\
            next c\n",
        transcript: "A.1 w0 set d 1 1 = ok\n\
            A.2 w1 set d 2 2 = ok\n\
            A.3 w2 set d 3 3 = ok\n\
            A.4 r3 iter d c = ok\n\
            A.5 r3 next c = 1: 1\n\
            A.6 w3 set d 4 4 = ok\n\
            A.7 r4 next c = RuntimeError size\n\
            A.8 w4 del d 4 = ok\n\
            A.9 r5 next c = RuntimeError size\n",
    },
    // Another key in the place of one that was there.
    Case {
        script: "dict d\n\
            thread A\n\
            set d 1 1\n\
            set d 2 2\n\
            iter d c\n\
            next c\n\
            del d 1\n\
            set d 3 3\n\
            next c\n\
            next c\n\
            next c\n",
        transcript: "A.1 w0 set d 1 1 = ok\n\
            A.2 w1 set d 2 2 = ok\n\
            A.3 r2 iter d c = ok\n\
            A.4 r2 next c = 1: 1\n\
            A.5 w2 del d 1 = ok\n\
            A.6 w3 set d 3 3 = ok\n\
            A.7 r4 next c = 2: 2\n\
            A.8 r4 next c = RuntimeError keys\n\
            A.9 r4 next c = StopIteration\n",
    },
    // Values that are set while a dict is walked.
    Case {
        script: "dict d\n\
            thread A\n\
            set d 1 1\n\
            set d 2 2\n\
            iter d c\n\
            next c\n\
            set d 2 9\n\
            next c\n\
            next c\n",
        transcript: "A.1 w0 set d 1 1 = ok\n\
            A.2 w1 set d 2 2 = ok\n\
            A.3 r2 iter d c = ok\n\
            A.4 r2 next c = 1: 1\n\
            A.5 w2 set d 2 9 = ok\n\
            A.6 r3 next c = 2: 9\n\
            A.7 r3 next c = StopIteration\n",
    },
    // A dict that is cleared.
    Case {
        script: "dict d\n\
            thread A\n\
            set d 1 1\n\
            set d 2 2\n\
            iter d c\n\
            next c\n\
            clear d\n\
            next c\n",
        transcript: "A.1 w0 set d 1 1 = ok\n\
            A.2 w1 set d 2 2 = ok\n\
            A.3 r2 iter d c = ok\n\
            A.4 r2 next c = 1: 1\n\
            A.5 w2 clear d = ok\n\
            A.6 r3 next c = RuntimeError size\n",
    },
    // A dict that is cleared and has as many pairs again: the walk goes on with what is greater than the last serial.
    Case {
        script: "dict d\n\
            thread A\n\
            set d 1 1\n\
            iter d c\n\
            clear d\n\
            set d 2 2\n\
            next c\n\
            next c\n",
        transcript: "A.1 w0 set d 1 1 = ok\n\
            A.2 r1 iter d c = ok\n\
            A.3 w1 clear d = ok\n\
            A.4 w2 set d 2 2 = ok\n\
            A.5 r3 next c = 2: 2\n\
            A.6 r3 next c = StopIteration\n",
    },
    // A dict that has another table since the cursor was made, and its old size.
    Case {
        script: "dict d\n\
            thread A\n\
            set d 1 1\n\
            set d 2 2\n\
            set d 3 3\n\
            set d 4 4\n\
            set d 5 5\n\
            iter d c\n\
            next c\n\
            del d 1\n\
            set d 6 6\n\
            next c\n\
            next c\n\
            next c\n\
            next c\n\
            next c\n\
            next c\n",
        transcript: "A.1 w0 set d 1 1 = ok\n\
            A.2 w1 set d 2 2 = ok\n\
            A.3 w2 set d 3 3 = ok\n\
            A.4 w3 set d 4 4 = ok\n\
            A.5 w4 set d 5 5 = ok\n\
            A.6 r5 iter d c = ok\n\
            A.7 r5 next c = 1: 1\n\
            A.8 w5 del d 1 = ok\n\
            A.9 w6 set d 6 6 = ok\n\
            A.10 r7 next c = 2: 2\n\
            A.11 r7 next c = 3: 3\n\
            A.12 r7 next c = 4: 4\n\
            A.13 r7 next c = 5: 5\n\
            A.14 r7 next c = RuntimeError keys\n\
            A.15 r7 next c = StopIteration\n",
    },
    // A dict whose table was filled anew again and again.
    Case {
        script: "dict d\n\
            thread A\n\
            set d 1 1\n\
            set d 2 2\n\
            set d 3 3\n\
            set d 4 4\n\
            set d 5 5\n\
            del d 1\n\
            set d 1 11\n\
            del d 2\n\
            set d 2 12\n\
            del d 3\n\
            set d 3 13\n\
            del d 1\n\
            set d 1 21\n\
            del d 2\n\
            set d 2 22\n\
            del d 3\n\
            set d 3 23\n\
            del d 1\n\
            set d 1 31\n\
            del d 2\n\
            set d 2 32\n\
            del d 3\n\
            set d 3 33\n\
            iter d c\n\
            next c\n\
            next c\n\
            next c\n\
            next c\n\
            next c\n\
            next c\n",
        transcript: "A.1 w0 set d 1 1 = ok\n\
            A.2 w1 set d 2 2 = ok\n\
            A.3 w2 set d 3 3 = ok\n\
            A.4 w3 set d 4 4 = ok\n\
            A.5 w4 set d 5 5 = ok\n\
            A.6 w5 del d 1 = ok\n\
            A.7 w6 set d 1 11 = ok\n\
            A.8 w7 del d 2 = ok\n\
            A.9 w8 set d 2 12 = ok\n\
            A.10 w9 del d 3 = ok\n\
            A.11 w10 set d 3 13 = ok\n\
            A.12 w11 del d 1 = ok\n\
            A.13 w12 set d 1 21 = ok\n\
            A.14 w13 del d 2 = ok\n\
            A.15 w14 set d 2 22 = ok\n\
            A.16 w15 del d 3 = ok\n\
            A.17 w16 set d 3 23 = ok\n\
            A.18 w17 del d 1 = ok\n\
            A.19 w18 set d 1 31 = ok\n\
            A.20 w19 del d 2 = ok\n\
            A.21 w20 set d 2 32 = ok\n\
            A.22 w21 del d 3 = ok\n\
            A.23 w22 set d 3 33 = ok\n\
            A.24 r23 iter d c = ok\n\
            A.25 r23 next c = 4: 4\n\
            A.26 r23 next c = 5: 5\n\
            A.27 r23 next c = 1: 31\n\
            A.28 r23 next c = 2: 32\n\
            A.29 r23 next c = 3: 33\n\
            A.30 r23 next c = StopIteration\n",
    },
    // A dict that gets as many pairs of another one: they have serials of their own.
    Case {
        script: "dict d\n\
            dict e\n\
            thread A\n\
            set d 1 1\n\
            set d 2 2\n\
            set e 7 7\n\
            set e 8 8\n\
            iter e c\n\
            next c\n\
            copyto d e\n\
            next c\n\
            next c\n\
            items e\n",
        transcript: "A.1 w0 set d 1 1 = ok\n\
            A.2 w1 set d 2 2 = ok\n\
            A.3 w2 set e 7 7 = ok\n\
            A.4 w3 set e 8 8 = ok\n\
            A.5 r4 iter e c = ok\n\
            A.6 r4 next c = 7: 7\n\
            A.7 w4 copyto d e = ok\n\
            A.8 r5 next c = 1: 1\n\
            A.9 r5 next c = RuntimeError keys\n\
            A.10 r5 items e = {1: 1, 2: 2}\n",
    },
    // A dict that is updated: with a key that it has, and with a new one.
    Case {
        script: "dict d\n\
            dict e\n\
            thread A\n\
            set d 1 1\n\
            set d 2 2\n\
            set d 3 3\n\
            set e 2 9\n\
            iter d c\n\
            next c\n\
            update d e\n\
            next c\n\
            set e 4 4\n\
            update d e\n\
            next c\n\
            items d\n",
        transcript: "A.1 w0 set d 1 1 = ok\n\
            A.2 w1 set d 2 2 = ok\n\
            A.3 w2 set d 3 3 = ok\n\
            A.4 w3 set e 2 9 = ok\n\
            A.5 r4 iter d c = ok\n\
            A.6 r4 next c = 1: 1\n\
            A.7 w4 update d e = ok\n\
            A.8 r5 next c = 2: 9\n\
            A.9 w5 set e 4 4 = ok\n\
            A.10 w6 update d e = ok\n\
            A.11 r7 next c = RuntimeError size\n\
            A.12 r7 items d = {1: 1, 2: 9, 3: 3, 4: 4}\n",
    },
];

#[test]
fn walks_over_dicts_come_out_so(rt: HostRuntime) -> Result<(), Fail> {
    all_come_out(rt.alloc(), &DICTS)
}
