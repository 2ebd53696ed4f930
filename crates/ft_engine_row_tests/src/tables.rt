//! Tables that are used up, and tables that are free again.

use ft_engine_tests::{Case, all_come_out};
use std::test::Fail;

const TABLES: [Case<'static>; 7] = [
    // The one table of class 3 is taken.
    Case {
        script: "tables 3 1\n\
            dict d\n\
            dict e\n\
            thread A\n\
            set d 1 0\n\
            set e 1 0\n\
            len e\n",
        transcript: "A.1 w0 set d 1 0 = ok\n\
            A.2 r1 set e 1 0 = MemoryError 3\n\
            A.3 r1 len e = 0\n",
    },
    // The sixth key of a dict takes a table of class 4, of which there is one.
    Case {
        script: "tables 4 1\n\
            dict d\n\
            dict e\n\
            thread A\n\
            set d 1 0\n\
            set d 2 0\n\
            set d 3 0\n\
            set d 4 0\n\
            set d 5 0\n\
            set d 6 0\n\
            set e 1 0\n\
            set e 2 0\n\
            set e 3 0\n\
            set e 4 0\n\
            set e 5 0\n\
            set e 6 0\n\
            len e\n",
        transcript: "A.1 w0 set d 1 0 = ok\n\
            A.2 w1 set d 2 0 = ok\n\
            A.3 w2 set d 3 0 = ok\n\
            A.4 w3 set d 4 0 = ok\n\
            A.5 w4 set d 5 0 = ok\n\
            A.6 w5 set d 6 0 = ok\n\
            A.7 w6 set e 1 0 = ok\n\
            A.8 w7 set e 2 0 = ok\n\
            A.9 w8 set e 3 0 = ok\n\
            A.10 w9 set e 4 0 = ok\n\
            A.11 w10 set e 5 0 = ok\n\
            A.12 r11 set e 6 0 = MemoryError 4\n\
            A.13 r11 len e = 5\n",
    },
    // The table that a dict gave up is free once both threads have passed a quiescent point.
    Case {
        script: "tables 3 1\n\
            dict d\n\
            dict e\n\
            thread A\n\
            set d 1 0\n\
            set d 2 0\n\
            set d 3 0\n\
            set d 4 0\n\
            set d 5 0\n\
            set d 6 0\n\
            set e 1 0\n\
            quiesce\n\
            set e 2 0\n\
            thread B\n\
            quiesce\n\
            order A A A A A A A B A A\n",
        transcript: "A.1 w0 set d 1 0 = ok\n\
            A.2 w1 set d 2 0 = ok\n\
            A.3 w2 set d 3 0 = ok\n\
            A.4 w3 set d 4 0 = ok\n\
            A.5 w4 set d 5 0 = ok\n\
            A.6 w5 set d 6 0 = ok\n\
            A.7 r6 set e 1 0 = MemoryError 3\n\
            A.8 r6 quiesce = ok\n\
            B.1 r6 quiesce = ok\n\
            A.9 w6 set e 2 0 = ok\n",
    },
    // The table that A's list gave up comes back only through A's `quiesce`: A takes none itself, and is online still.
    Case {
        script: "tables 3 1\n\
            list l\n\
            list m\n\
            thread A\n\
            append l 1\n\
            clear l\n\
            quiesce\n\
            len l\n\
            thread B\n\
            append m 1\n\
            quiesce\n\
            append m 2\n\
            order A A B B A B A\n",
        transcript: "A.1 w0 append l 1 = ok\n\
            A.2 w1 clear l = ok\n\
            A.3 r2 quiesce = ok\n\
            B.1 r2 append m 1 = MemoryError 3\n\
            B.2 r2 quiesce = ok\n\
            B.3 w2 append m 2 = ok\n\
            A.4 r3 len l = 0\n",
    },
    // It comes back only as A leaves: its last call gives nothing back.
    Case {
        script: "tables 3 1\n\
            list l\n\
            list m\n\
            thread A\n\
            append l 1\n\
            clear l\n\
            len l\n\
            thread B\n\
            append m 1\n\
            quiesce\n\
            append m 2\n\
            order A A B B A B\n",
        transcript: "A.1 w0 append l 1 = ok\n\
            A.2 w1 clear l = ok\n\
            A.3 r2 len l = 0\n\
            B.1 r2 append m 1 = MemoryError 3\n\
            B.2 r2 quiesce = ok\n\
            B.3 w2 append m 2 = ok\n",
    },
    // The fifth element of a set takes a table of class 5, of which there is one.
    Case {
        script: "tables 5 1\n\
            set s\n\
            set t\n\
            thread A\n\
            add s 1\n\
            add s 2\n\
            add s 3\n\
            add s 4\n\
            add s 5\n\
            add t 1\n\
            add t 2\n\
            add t 3\n\
            add t 4\n\
            add t 5\n",
        transcript: "A.1 w0 add s 1 = ok\n\
            A.2 w1 add s 2 = ok\n\
            A.3 w2 add s 3 = ok\n\
            A.4 w3 add s 4 = ok\n\
            A.5 w4 add s 5 = ok\n\
            A.6 w5 add t 1 = ok\n\
            A.7 w6 add t 2 = ok\n\
            A.8 w7 add t 3 = ok\n\
            A.9 w8 add t 4 = ok\n\
            A.10 r9 add t 5 = MemoryError 5\n",
    },
    // A list of as many items as the largest table has.
    Case {
        script: "list l\n\
            thread A\n\
            append l 1\n\
            extend l l\n\
            extend l l\n\
            extend l l\n\
            extend l l\n\
            extend l l\n\
            extend l l\n\
            extend l l\n\
            extend l l\n\
            extend l l\n\
            extend l l\n\
            extend l l\n\
            extend l l\n\
            extend l l\n\
            extend l l\n\
            extend l l\n\
            extend l l\n\
            append l 1\n\
            get l 65535\n",
        transcript: "A.1 w0 append l 1 = ok\n\
            A.2 w1 extend l l = ok\n\
            A.3 w2 extend l l = ok\n\
            A.4 w3 extend l l = ok\n\
            A.5 w4 extend l l = ok\n\
            A.6 w5 extend l l = ok\n\
            A.7 w6 extend l l = ok\n\
            A.8 w7 extend l l = ok\n\
            A.9 w8 extend l l = ok\n\
            A.10 w9 extend l l = ok\n\
            A.11 w10 extend l l = ok\n\
            A.12 w11 extend l l = ok\n\
            A.13 w12 extend l l = ok\n\
            A.14 w13 extend l l = ok\n\
            A.15 w14 extend l l = ok\n\
            A.16 w15 extend l l = ok\n\
            A.17 w16 extend l l = ok\n\
            A.18 r17 append l 1 = MemoryError over\n\
            A.19 r17 get l 65535 = 1\n",
    },
];

#[test]
fn memory_errors_come_so(rt: HostRuntime) -> Result<(), Fail> {
    all_come_out(rt.alloc(), &TABLES)
}
