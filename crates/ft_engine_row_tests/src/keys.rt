//! Calls on dicts and sets (Python manual, Mapping Types, Set Types).

use ft_engine_tests::{Case, all_come_out};
use std::test::Fail;

const KEYS: [Case<'static>; 7] = [
    // A string as a key.
    Case {
        script: "dict d\n\
            thread A\n\
            set d \"a\" 1\n\
            get d \"a\"\n",
        transcript: "A.1 w0 set d \"a\" 1 = ok\n\
            A.2 r1 get d \"a\" = 1\n",
    },
    // A key that was deleted and set again goes last.
    Case {
        script: "dict d\n\
            thread A\n\
            set d \"a\" 1\n\
            set d \"b\" 2\n\
            del d \"a\"\n\
            set d \"a\" 3\n\
            items d\n\
            iter d c\n\
            next c\n\
            next c\n\
            next c\n\
            popitem d\n\
            popitem d\n\
            popitem d\n",
        transcript: "A.1 w0 set d \"a\" 1 = ok\n\
            A.2 w1 set d \"b\" 2 = ok\n\
            A.3 w2 del d \"a\" = ok\n\
            A.4 w3 set d \"a\" 3 = ok\n\
            A.5 r4 items d = {\"b\": 2, \"a\": 3}\n\
            A.6 r4 iter d c = ok\n\
            A.7 r4 next c = \"b\": 2\n\
            A.8 r4 next c = \"a\": 3\n\
            A.9 r4 next c = StopIteration\n\
            A.10 w4 popitem d = \"a\": 3\n\
            A.11 w5 popitem d = \"b\": 2\n\
            A.12 r6 popitem d = KeyError\n",
    },
    // A key that isn't there.
    Case {
        script: "dict d\n\
            thread A\n\
            del d 7\n",
        transcript: "A.1 r0 del d 7 = KeyError\n",
    },
    // The least and the greatest integer.
    Case {
        script: "dict d\n\
            thread A\n\
            set d 9223372036854775807 1\n\
            set d -9223372036854775808 2\n\
            get d 9223372036854775807\n\
            get d -9223372036854775808\n",
        transcript: "A.1 w0 set d 9223372036854775807 1 = ok\n\
            A.2 w1 set d -9223372036854775808 2 = ok\n\
            A.3 r2 get d 9223372036854775807 = 1\n\
            A.4 r2 get d -9223372036854775808 = 2\n",
    },
    // Two keys of one hash.
    Case {
        script: "dict d\n\
            thread A\n\
            set d -1 10\n\
            set d -2 20\n\
            del d -1\n\
            get d -2\n\
            get d -1\n",
        transcript: "A.1 w0 set d -1 10 = ok\n\
            A.2 w1 set d -2 20 = ok\n\
            A.3 w2 del d -1 = ok\n\
            A.4 r3 get d -2 = 20\n\
            A.5 r3 get d -1 = KeyError\n",
    },
    // The calls of one key and those of a whole dict.
    Case {
        script: "dict d\n\
            thread A\n\
            setdefault d 1 5\n\
            setdefault d 1 6\n\
            getd d 2 7\n\
            has d 1\n\
            has d 2\n\
            len d\n\
            pop d 1\n\
            pop d 1\n\
            popd d 1 8\n\
            set d 3 None\n\
            clear d\n\
            len d\n",
        transcript: "A.1 w0 setdefault d 1 5 = 5\n\
            A.2 w1 setdefault d 1 6 = 5\n\
            A.3 r2 getd d 2 7 = 7\n\
            A.4 r2 has d 1 = True\n\
            A.5 r2 has d 2 = False\n\
            A.6 r2 len d = 1\n\
            A.7 w2 pop d 1 = 5\n\
            A.8 r3 pop d 1 = KeyError\n\
            A.9 w3 popd d 1 8 = 8\n\
            A.10 w4 set d 3 None = ok\n\
            A.11 w5 clear d = ok\n\
            A.12 r6 len d = 0\n",
    },
    // Those of a set.
    Case {
        script: "set s\n\
            thread A\n\
            add s 1\n\
            add s 1\n\
            has s 1\n\
            discard s 2\n\
            remove s 2\n\
            remove s 1\n\
            len s\n\
            add s \"x\"\n\
            clear s\n\
            has s \"x\"\n",
        transcript: "A.1 w0 add s 1 = ok\n\
            A.2 w1 add s 1 = ok\n\
            A.3 r2 has s 1 = True\n\
            A.4 w2 discard s 2 = ok\n\
            A.5 r3 remove s 2 = KeyError\n\
            A.6 w3 remove s 1 = ok\n\
            A.7 r4 len s = 0\n\
            A.8 w4 add s \"x\" = ok\n\
            A.9 w5 clear s = ok\n\
            A.10 r6 has s \"x\" = False\n",
    },
];

#[test]
fn calls_on_dicts_and_sets_are_answered_so(rt: HostRuntime) -> Result<(), Fail> {
    all_come_out(rt.alloc(), &KEYS)
}
