//! Strings and integers that aren't small, at each call on dicts and lists: what `python3` answers to the same calls, and
//! that they are made by one thread.

use ft_engine_tests::{Case, all_come_out};
use std::test::Fail;

const BOXED: [Case<'static>; 2] = [
    // The calls on dicts.
    Case {
        script: "dict d\n\
            dict e\n\
            thread A\n\
            set d 1 1000\n\
            set d \"k\" \"text\"\n\
            set d 2 9223372036854775807\n\
            set d 3 -9223372036854775808\n\
            set d 4 \"\"\n\
            set d 5 -6\n\
            get d 1\n\
            get d \"k\"\n\
            get d 2\n\
            get d 3\n\
            get d 4\n\
            get d 5\n\
            get d 6\n\
            getd d 2 \"other\"\n\
            getd d 6 \"other\"\n\
            getd d 7 2305843009213693951\n\
            has d \"k\"\n\
            has d \"text\"\n\
            len d\n\
            items d\n\
            set d 1 1000\n\
            set d 1 \"größer\"\n\
            set d 4 7\n\
            set d 5 None\n\
            set d 2 \"a\\\"b\\\\c\"\n\
            get d 2\n\
            get d 1\n\
            get d 4\n\
            setdefault d 3 \"absent\"\n\
            setdefault d 8 \"present\"\n\
            setdefault d 8 257\n\
            setdefault d 9 257\n\
            iter d c\n\
            next c\n\
            next c\n\
            pop d \"k\"\n\
            pop d \"k\"\n\
            popd d 3 1000\n\
            popd d 3 1000\n\
            popitem d\n\
            items d\n\
            set e 1 \"größer\"\n\
            set e 30 300\n\
            set e 2 2\n\
            eq d e\n\
            update d e\n\
            items d\n\
            copyto d e\n\
            eq d e\n\
            eq e d\n\
            items e\n\
            update d d\n\
            copyto d d\n\
            items d\n\
            del e 30\n\
            del e 30\n\
            get e 30\n\
            eq d e\n\
            set e 30 \"300\"\n\
            eq d e\n\
            set e 30 300\n\
            eq d e\n\
            clear d\n\
            items d\n\
            get e 1\n\
            items e\n\
            popitem e\n\
            popitem e\n\
            popitem e\n\
            popitem e\n\
            popitem e\n\
            popitem e\n",
        transcript: "A.1 w0 set d 1 1000 = ok\n\
            A.2 w1 set d \"k\" \"text\" = ok\n\
            A.3 w2 set d 2 9223372036854775807 = ok\n\
            A.4 w3 set d 3 -9223372036854775808 = ok\n\
            A.5 w4 set d 4 \"\" = ok\n\
            A.6 w5 set d 5 -6 = ok\n\
            A.7 r6 get d 1 = 1000\n\
            A.8 r6 get d \"k\" = \"text\"\n\
            A.9 r6 get d 2 = 9223372036854775807\n\
            A.10 r6 get d 3 = -9223372036854775808\n\
            A.11 r6 get d 4 = \"\"\n\
            A.12 r6 get d 5 = -6\n\
            A.13 r6 get d 6 = KeyError\n\
            A.14 r6 getd d 2 \"other\" = 9223372036854775807\n\
            A.15 r6 getd d 6 \"other\" = \"other\"\n\
            A.16 r6 getd d 7 2305843009213693951 = 2305843009213693951\n\
            A.17 r6 has d \"k\" = True\n\
            A.18 r6 has d \"text\" = False\n\
            A.19 r6 len d = 6\n\
            A.20 r6 items d = {1: 1000, \"k\": \"text\", 2: 9223372036854775807, 3: -9223372036854775808, 4: \"\", 5: -6}\n\
            A.21 w6 set d 1 1000 = ok\n\
            A.22 w7 set d 1 \"größer\" = ok\n\
            A.23 w8 set d 4 7 = ok\n\
            A.24 w9 set d 5 None = ok\n\
            A.25 w10 set d 2 \"a\\\"b\\\\c\" = ok\n\
            A.26 r11 get d 2 = \"a\\\"b\\\\c\"\n\
            A.27 r11 get d 1 = \"größer\"\n\
            A.28 r11 get d 4 = 7\n\
            A.29 w11 setdefault d 3 \"absent\" = -9223372036854775808\n\
            A.30 w12 setdefault d 8 \"present\" = \"present\"\n\
            A.31 w13 setdefault d 8 257 = \"present\"\n\
            A.32 w14 setdefault d 9 257 = 257\n\
            A.33 r15 iter d c = ok\n\
            A.34 r15 next c = 1: \"größer\"\n\
            A.35 r15 next c = \"k\": \"text\"\n\
            A.36 w15 pop d \"k\" = \"text\"\n\
            A.37 r16 pop d \"k\" = KeyError\n\
            A.38 w16 popd d 3 1000 = -9223372036854775808\n\
            A.39 w17 popd d 3 1000 = 1000\n\
            A.40 w18 popitem d = 9: 257\n\
            A.41 r19 items d = {1: \"größer\", 2: \"a\\\"b\\\\c\", 4: 7, 5: None, 8: \"present\"}\n\
            A.42 w19 set e 1 \"größer\" = ok\n\
            A.43 w20 set e 30 300 = ok\n\
            A.44 w21 set e 2 2 = ok\n\
            A.45 r22 eq d e = False\n\
            A.46 w22 update d e = ok\n\
            A.47 r23 items d = {1: \"größer\", 2: 2, 4: 7, 5: None, 8: \"present\", 30: 300}\n\
            A.48 w23 copyto d e = ok\n\
            A.49 r24 eq d e = True\n\
            A.50 r24 eq e d = True\n\
            A.51 r24 items e = {1: \"größer\", 2: 2, 4: 7, 5: None, 8: \"present\", 30: 300}\n\
            A.52 w24 update d d = ok\n\
            A.53 w25 copyto d d = ok\n\
            A.54 r26 items d = {1: \"größer\", 2: 2, 4: 7, 5: None, 8: \"present\", 30: 300}\n\
            A.55 w26 del e 30 = ok\n\
            A.56 r27 del e 30 = KeyError\n\
            A.57 r27 get e 30 = KeyError\n\
            A.58 r27 eq d e = False\n\
            A.59 w27 set e 30 \"300\" = ok\n\
            A.60 r28 eq d e = False\n\
            A.61 w28 set e 30 300 = ok\n\
            A.62 r29 eq d e = True\n\
            A.63 w29 clear d = ok\n\
            A.64 r30 items d = {}\n\
            A.65 r30 get e 1 = \"größer\"\n\
            A.66 r30 items e = {1: \"größer\", 2: 2, 4: 7, 5: None, 8: \"present\", 30: 300}\n\
            A.67 w30 popitem e = 30: 300\n\
            A.68 w31 popitem e = 8: \"present\"\n\
            A.69 w32 popitem e = 5: None\n\
            A.70 w33 popitem e = 4: 7\n\
            A.71 w34 popitem e = 2: 2\n\
            A.72 w35 popitem e = 1: \"größer\"\n",
    },
    // The calls on lists.
    Case {
        script: "list l\n\
            list m\n\
            thread A\n\
            append l 1000\n\
            append l \"text\"\n\
            append l 9223372036854775807\n\
            append l -9223372036854775808\n\
            append l \"\"\n\
            append l -6\n\
            append l 256\n\
            append l 1000\n\
            insert l 0 \"first\"\n\
            insert l -1 257\n\
            insert l 99 \"last\"\n\
            insert l -99 2305843009213693951\n\
            items l\n\
            len l\n\
            get l 0\n\
            get l -1\n\
            get l 4\n\
            get l 12\n\
            get l -13\n\
            has l \"\"\n\
            has l \"tex\"\n\
            has l -9223372036854775808\n\
            count l 1000\n\
            count l 257\n\
            count l \"nowhere\"\n\
            index l 1000\n\
            index l \"last\"\n\
            index l 258\n\
            iter l c\n\
            next c\n\
            next c\n\
            set l 0 \"zero\"\n\
            set l -1 7\n\
            set l 5 5000\n\
            set l 5 5000\n\
            set l 12 \"bad\"\n\
            set l -13 5000\n\
            items l\n\
            reverse l\n\
            items l\n\
            slice l 2 -3\n\
            slice l 9 99\n\
            slice l 5 5\n\
            del l 0\n\
            del l -1\n\
            del l 10\n\
            pop l\n\
            pop l 0\n\
            pop l 99\n\
            pop l -2\n\
            items l\n\
            remove l 1000\n\
            remove l \"text\"\n\
            remove l \"nowhere\"\n\
            items l\n\
            append m 9223372036854775807\n\
            append m \"größer\"\n\
            extend l m\n\
            items l\n\
            extend m m\n\
            items m\n\
            eq l m\n\
            eq m m\n\
            set m 0 \"größer\"\n\
            set m 2 \"größer\"\n\
            reverse m\n\
            count m \"größer\"\n\
            remove m \"größer\"\n\
            index m \"größer\"\n\
            items m\n\
            clear l\n\
            items l\n\
            pop l\n\
            extend l m\n\
            eq l m\n\
            next c\n\
            next c\n\
            append l \"end\"\n\
            next c\n\
            insert m 1 \"größer\"\n\
            insert m 1 \"größer\"\n\
            insert m 2 9223372036854775807\n\
            items m\n\
            del m 1\n\
            del m 1\n\
            items m\n\
            pop m 0\n\
            pop m\n\
            items m\n",
        transcript: "A.1 w0 append l 1000 = ok\n\
            A.2 w1 append l \"text\" = ok\n\
            A.3 w2 append l 9223372036854775807 = ok\n\
            A.4 w3 append l -9223372036854775808 = ok\n\
            A.5 w4 append l \"\" = ok\n\
            A.6 w5 append l -6 = ok\n\
            A.7 w6 append l 256 = ok\n\
            A.8 w7 append l 1000 = ok\n\
            A.9 w8 insert l 0 \"first\" = ok\n\
            A.10 w9 insert l -1 257 = ok\n\
            A.11 w10 insert l 99 \"last\" = ok\n\
            A.12 w11 insert l -99 2305843009213693951 = ok\n\
            A.13 r12 items l = [2305843009213693951, \"first\", 1000, \"text\", 9223372036854775807, -9223372036854775808, \"\", -6, 256, 257, 1000, \"last\"]\n\
            A.14 r12 len l = 12\n\
            A.15 r12 get l 0 = 2305843009213693951\n\
            A.16 r12 get l -1 = \"last\"\n\
            A.17 r12 get l 4 = 9223372036854775807\n\
            A.18 r12 get l 12 = IndexError\n\
            A.19 r12 get l -13 = IndexError\n\
            A.20 r12 has l \"\" = True\n\
            A.21 r12 has l \"tex\" = False\n\
            A.22 r12 has l -9223372036854775808 = True\n\
            A.23 r12 count l 1000 = 2\n\
            A.24 r12 count l 257 = 1\n\
            A.25 r12 count l \"nowhere\" = 0\n\
            A.26 r12 index l 1000 = 2\n\
            A.27 r12 index l \"last\" = 11\n\
            A.28 r12 index l 258 = ValueError\n\
            A.29 r12 iter l c = ok\n\
            A.30 r12 next c = 2305843009213693951\n\
            A.31 r12 next c = \"first\"\n\
            A.32 w12 set l 0 \"zero\" = ok\n\
            A.33 w13 set l -1 7 = ok\n\
            A.34 w14 set l 5 5000 = ok\n\
            A.35 w15 set l 5 5000 = ok\n\
            A.36 r16 set l 12 \"bad\" = IndexError\n\
            A.37 r16 set l -13 5000 = IndexError\n\
            A.38 r16 items l = [\"zero\", \"first\", 1000, \"text\", 9223372036854775807, 5000, \"\", -6, 256, 257, 1000, 7]\n\
            A.39 w16 reverse l = ok\n\
            A.40 r17 items l = [7, 1000, 257, 256, -6, \"\", 5000, 9223372036854775807, \"text\", 1000, \"first\", \"zero\"]\n\
            A.41 r17 slice l 2 -3 = [257, 256, -6, \"\", 5000, 9223372036854775807, \"text\"]\n\
            A.42 r17 slice l 9 99 = [1000, \"first\", \"zero\"]\n\
            A.43 r17 slice l 5 5 = []\n\
            A.44 w17 del l 0 = ok\n\
            A.45 w18 del l -1 = ok\n\
            A.46 r19 del l 10 = IndexError\n\
            A.47 w19 pop l = \"first\"\n\
            A.48 w20 pop l 0 = 1000\n\
            A.49 r21 pop l 99 = IndexError\n\
            A.50 w21 pop l -2 = \"text\"\n\
            A.51 r22 items l = [257, 256, -6, \"\", 5000, 9223372036854775807, 1000]\n\
            A.52 w22 remove l 1000 = ok\n\
            A.53 r23 remove l \"text\" = ValueError\n\
            A.54 r23 remove l \"nowhere\" = ValueError\n\
            A.55 r23 items l = [257, 256, -6, \"\", 5000, 9223372036854775807]\n\
            A.56 w23 append m 9223372036854775807 = ok\n\
            A.57 w24 append m \"größer\" = ok\n\
            A.58 w25 extend l m = ok\n\
            A.59 r26 items l = [257, 256, -6, \"\", 5000, 9223372036854775807, 9223372036854775807, \"größer\"]\n\
            A.60 w26 extend m m = ok\n\
            A.61 r27 items m = [9223372036854775807, \"größer\", 9223372036854775807, \"größer\"]\n\
            A.62 r27 eq l m = False\n\
            A.63 r27 eq m m = True\n\
            A.64 w27 set m 0 \"größer\" = ok\n\
            A.65 w28 set m 2 \"größer\" = ok\n\
            A.66 w29 reverse m = ok\n\
            A.67 r30 count m \"größer\" = 4\n\
            A.68 w30 remove m \"größer\" = ok\n\
            A.69 r31 index m \"größer\" = 0\n\
            A.70 r31 items m = [\"größer\", \"größer\", \"größer\"]\n\
            A.71 w31 clear l = ok\n\
            A.72 r32 items l = []\n\
            A.73 r32 pop l = IndexError\n\
            A.74 w32 extend l m = ok\n\
            A.75 r33 eq l m = True\n\
            A.76 r33 next c = \"größer\"\n\
            A.77 r33 next c = StopIteration\n\
            A.78 w33 append l \"end\" = ok\n\
            A.79 r34 next c = StopIteration\n\
            A.80 w34 insert m 1 \"größer\" = ok\n\
            A.81 w35 insert m 1 \"größer\" = ok\n\
            A.82 w36 insert m 2 9223372036854775807 = ok\n\
            A.83 r37 items m = [\"größer\", \"größer\", 9223372036854775807, \"größer\", \"größer\", \"größer\"]\n\
            A.84 w37 del m 1 = ok\n\
            A.85 w38 del m 1 = ok\n\
            A.86 r39 items m = [\"größer\", \"größer\", \"größer\", \"größer\"]\n\
            A.87 w39 pop m 0 = \"größer\"\n\
            A.88 w40 pop m = \"größer\"\n\
            A.89 r41 items m = [\"größer\", \"größer\"]\n",
    },
];

#[test]
fn boxed_values_are_answered_so(rt: HostRuntime) -> Result<(), Fail> {
    all_come_out(rt.alloc(), &BOXED)
}
