//! Calls on lists, and calls on two containers (Python manual, Sequence Types, Set Types, Mapping
//! Types).

use ft_engine_tests::{Case, all_come_out};
use std::test::Fail;

const LISTS: [Case<'static>; 7] = [
    // A list from both ends.
    Case {
        script: "list l\n\
            thread A\n\
            append l 5\n\
            append l 6\n\
            get l -1\n\
            get l 2\n\
            insert l 99 7\n\
            slice l 1 9\n\
            remove l 8\n\
            clear l\n\
            pop l\n",
        transcript: "A.1 w0 append l 5 = ok\n\
            A.2 w1 append l 6 = ok\n\
            A.3 r2 get l -1 = 6\n\
            A.4 r2 get l 2 = IndexError\n\
            A.5 w2 insert l 99 7 = ok\n\
            A.6 r3 slice l 1 9 = [6, 7]\n\
            A.7 r3 remove l 8 = ValueError\n\
            A.8 w3 clear l = ok\n\
            A.9 r4 pop l = IndexError\n",
    },
    // A list that takes its own items.
    Case {
        script: "list l\n\
            thread A\n\
            append l 1\n\
            append l 2\n\
            extend l l\n\
            items l\n",
        transcript: "A.1 w0 append l 1 = ok\n\
            A.2 w1 append l 2 = ok\n\
            A.3 w2 extend l l = ok\n\
            A.4 r3 items l = [1, 2, 1, 2]\n",
    },
    // The calls of one list.
    Case {
        script: "list l\n\
            list m\n\
            thread A\n\
            append l 3\n\
            append l 1\n\
            append l 3\n\
            count l 3\n\
            index l 1\n\
            index l 7\n\
            reverse l\n\
            set l 1 5\n\
            set l 3 5\n\
            del l 0\n\
            items l\n\
            has l 5\n\
            eq l m\n\
            pop l\n\
            append m 5\n\
            eq l m\n\
            insert l -9 2\n\
            pop l 0\n\
            remove l 5\n\
            len l\n\
            del l 0\n",
        transcript: "A.1 w0 append l 3 = ok\n\
            A.2 w1 append l 1 = ok\n\
            A.3 w2 append l 3 = ok\n\
            A.4 r3 count l 3 = 2\n\
            A.5 r3 index l 1 = 1\n\
            A.6 r3 index l 7 = ValueError\n\
            A.7 w3 reverse l = ok\n\
            A.8 w4 set l 1 5 = ok\n\
            A.9 r5 set l 3 5 = IndexError\n\
            A.10 w5 del l 0 = ok\n\
            A.11 r6 items l = [5, 3]\n\
            A.12 r6 has l 5 = True\n\
            A.13 r6 eq l m = False\n\
            A.14 w6 pop l = 3\n\
            A.15 w7 append m 5 = ok\n\
            A.16 r8 eq l m = True\n\
            A.17 w8 insert l -9 2 = ok\n\
            A.18 w9 pop l 0 = 2\n\
            A.19 w10 remove l 5 = ok\n\
            A.20 r11 len l = 0\n\
            A.21 r11 del l 0 = IndexError\n",
    },
    // Two sets and two dicts; and each with itself.
    Case {
        script: "dict d\n\
            dict e\n\
            set s\n\
            set t\n\
            thread A\n\
            set d 1 1\n\
            set e 1 1\n\
            eq d e\n\
            set e 2 2\n\
            eq d e\n\
            eq d d\n\
            add s 1\n\
            add s 2\n\
            add t 2\n\
            subset t s\n\
            disjoint s t\n\
            eq s t\n\
            sub s t\n\
            items s\n\
            disjoint s t\n\
            and s t\n\
            items s\n\
            sub t t\n\
            len t\n\
            pop t\n\
            add t 5\n\
            pop t\n",
        transcript: "A.1 w0 set d 1 1 = ok\n\
            A.2 w1 set e 1 1 = ok\n\
            A.3 r2 eq d e = True\n\
            A.4 w2 set e 2 2 = ok\n\
            A.5 r3 eq d e = False\n\
            A.6 r3 eq d d = True\n\
            A.7 w3 add s 1 = ok\n\
            A.8 w4 add s 2 = ok\n\
            A.9 w5 add t 2 = ok\n\
            A.10 r6 subset t s = True\n\
            A.11 r6 disjoint s t = False\n\
            A.12 r6 eq s t = False\n\
            A.13 w6 sub s t = ok\n\
            A.14 r7 items s = {1}\n\
            A.15 r7 disjoint s t = True\n\
            A.16 w7 and s t = ok\n\
            A.17 r8 items s = set()\n\
            A.18 w8 sub t t = ok\n\
            A.19 r9 len t = 0\n\
            A.20 r9 pop t = KeyError\n\
            A.21 w9 add t 5 = ok\n\
            A.22 w10 pop t = 5\n",
    },
    // A set that gets what another one has besides.
    Case {
        script: "set s\n\
            set t\n\
            thread A\n\
            add s 1\n\
            add s 2\n\
            add t 3\n\
            add t 2\n\
            or s t\n\
            items s\n\
            or s s\n\
            len s\n\
            len t\n",
        transcript: "A.1 w0 add s 1 = ok\n\
            A.2 w1 add s 2 = ok\n\
            A.3 w2 add t 3 = ok\n\
            A.4 w3 add t 2 = ok\n\
            A.5 w4 or s t = ok\n\
            A.6 r5 items s = {1, 2, 3}\n\
            A.7 w5 or s s = ok\n\
            A.8 r6 len s = 3\n\
            A.9 r6 len t = 2\n",
    },
    // A set that loses what another one has too, and gets what it has besides: in its table, then in a greater one.
    Case {
        script: "set s\n\
            set t\n\
            thread A\n\
            add s 1\n\
            add s 2\n\
            add s 3\n\
            add t 4\n\
            add t 2\n\
            xor s t\n\
            items s\n\
            xor s t\n\
            items s\n\
            xor s s\n\
            len s\n\
            len t\n",
        transcript: "A.1 w0 add s 1 = ok\n\
            A.2 w1 add s 2 = ok\n\
            A.3 w2 add s 3 = ok\n\
            A.4 w3 add t 4 = ok\n\
            A.5 w4 add t 2 = ok\n\
            A.6 w5 xor s t = ok\n\
            A.7 r6 items s = {1, 3, 4}\n\
            A.8 w6 xor s t = ok\n\
            A.9 r7 items s = {1, 3, 2}\n\
            A.10 w7 xor s s = ok\n\
            A.11 r8 len s = 0\n\
            A.12 r8 len t = 2\n",
    },
    // A dict that gets the pairs of another one, and its own.
    Case {
        script: "dict d\n\
            dict e\n\
            thread A\n\
            set d 1 1\n\
            set d 2 2\n\
            set e 3 8\n\
            set e 2 9\n\
            update d e\n\
            items d\n\
            update d d\n\
            items d\n\
            len e\n",
        transcript: "A.1 w0 set d 1 1 = ok\n\
            A.2 w1 set d 2 2 = ok\n\
            A.3 w2 set e 3 8 = ok\n\
            A.4 w3 set e 2 9 = ok\n\
            A.5 w4 update d e = ok\n\
            A.6 r5 items d = {1: 1, 2: 9, 3: 8}\n\
            A.7 w5 update d d = ok\n\
            A.8 r6 items d = {1: 1, 2: 9, 3: 8}\n\
            A.9 r6 len e = 2\n",
    },
];

#[test]
fn calls_on_lists_are_answered_so(rt: HostRuntime) -> Result<(), Fail> {
    all_come_out(rt.alloc(), &LISTS)
}
