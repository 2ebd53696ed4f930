//! Histories of containers on tables, judged: when a MemoryError has its cause. The verdicts are worked
//! out by hand.

use crate::judging::{Case, judged};
use ft_history::Verdict;
use ft_model::{Rule, Storage};
use std::process::Abort;
use std::test::Fail;

const CASES: [Case<'static>; 24] = [
    // One table, taken before.
    Case {
        script: "tables 3 1\ndict d\ndict e\nthread A\nset d 1 0\nset e 1 0\nlen e\n",
        transcript: "A.1 w0 set d 1 0 = ok\nA.2 r1 set e 1 0 = MemoryError 3\nA.3 r1 len e = 0\n",
        storage: Storage::Tables,
        verdict: Verdict::Legal,
    },
    // One table, not taken yet.
    Case {
        script: "tables 3 1\ndict d\ndict e\nthread A\nset d 1 0\nset e 1 0\nlen e\n",
        transcript: "A.1 r0 set d 1 0 = MemoryError 3\n",
        storage: Storage::Tables,
        verdict: Verdict::Not(1, Rule::Memory),
    },
    // A class of which there are more.
    Case {
        script: "tables 3 1\ndict d\ndict e\nthread A\nset d 1 0\nset e 1 0\nlen e\n",
        transcript: "A.1 w0 set d 1 0 = ok\nA.2 r1 set e 1 0 = MemoryError 4\n",
        storage: Storage::Tables,
        verdict: Verdict::Not(2, Rule::Memory),
    },
    // A call that puts no value in a box.
    Case {
        script: "tables 3 1\ndict d\ndict e\nthread A\nset d 1 0\nset e 1 0\nlen e\n",
        transcript: "A.1 r0 set d 1 0 = MemoryError heap\n",
        storage: Storage::Tables,
        verdict: Verdict::Not(1, Rule::Memory),
    },
    // A call that adds nothing.
    Case {
        script: "tables 3 1\ndict d\ndict e\nthread A\nset d 1 0\nset e 1 0\nlen e\n",
        transcript: "A.1 w0 set d 1 0 = ok\nA.2 w1 set e 1 0 = ok\nA.3 r2 len e = MemoryError 3\n",
        storage: Storage::Tables,
        verdict: Verdict::Not(3, Rule::Memory),
    },
    // The call of another thread may have taken it.
    Case {
        script: "tables 3 1\ndict d\nthread A\nset d 1 0\nthread B\nset d 2 0\n",
        transcript: "A.1 r0 set d 1 0 = MemoryError 3\nB.1 w0 set d 2 0 = ok\n",
        storage: Storage::Tables,
        verdict: Verdict::Legal,
    },
    // The longest list, after which the only table of its class is taken.
    Case {
        script: "list l\nlist m\nthread A\nappend l 1\nextend l l\nextend l l\nextend l l\nextend l l\nextend l l\nextend l l\nextend l l\nextend l l\nextend l l\nextend l l\nextend l l\nextend l l\nextend l l\nextend l l\nextend l l\nextend l l\nappend l 1\nget l 65535\nextend m l\n",
        transcript: "A.1 w0 append l 1 = ok\nA.2 w1 extend l l = ok\nA.3 w2 extend l l = ok\nA.4 w3 extend l l = ok\nA.5 w4 extend l l = ok\nA.6 w5 extend l l = ok\nA.7 w6 extend l l = ok\nA.8 w7 extend l l = ok\nA.9 w8 extend l l = ok\nA.10 w9 extend l l = ok\nA.11 w10 extend l l = ok\nA.12 w11 extend l l = ok\nA.13 w12 extend l l = ok\nA.14 w13 extend l l = ok\nA.15 w14 extend l l = ok\nA.16 w15 extend l l = ok\nA.17 w16 extend l l = ok\nA.18 r17 append l 1 = MemoryError over\nA.19 r17 get l 65535 = 1\nA.20 r17 extend m l = MemoryError 16\n",
        storage: Storage::Tables,
        verdict: Verdict::Legal,
    },
    // One past it.
    Case {
        script: "list l\nthread A\nappend l 1\nextend l l\nextend l l\nextend l l\nextend l l\nextend l l\nextend l l\nextend l l\nextend l l\nextend l l\nextend l l\nextend l l\nextend l l\nextend l l\nextend l l\nextend l l\nextend l l\nappend l 1\nget l 65535\n",
        transcript: "A.1 w0 append l 1 = ok\nA.2 w1 extend l l = ok\nA.3 w2 extend l l = ok\nA.4 w3 extend l l = ok\nA.5 w4 extend l l = ok\nA.6 w5 extend l l = ok\nA.7 w6 extend l l = ok\nA.8 w7 extend l l = ok\nA.9 w8 extend l l = ok\nA.10 w9 extend l l = ok\nA.11 w10 extend l l = ok\nA.12 w11 extend l l = ok\nA.13 w12 extend l l = ok\nA.14 w13 extend l l = ok\nA.15 w14 extend l l = ok\nA.16 w15 extend l l = ok\nA.17 w16 extend l l = ok\nA.18 w17 append l 1 = ok\n",
        storage: Storage::Tables,
        verdict: Verdict::Not(18, Rule::Memory),
    },
    // Not one past it.
    Case {
        script: "list l\nthread A\nappend l 1\nextend l l\nextend l l\nextend l l\nextend l l\nextend l l\nextend l l\nextend l l\nextend l l\nextend l l\nextend l l\nextend l l\nextend l l\nextend l l\nextend l l\nextend l l\nextend l l\nappend l 1\nget l 65535\n",
        transcript: "A.1 w0 append l 1 = ok\nA.2 w1 extend l l = ok\nA.3 w2 extend l l = ok\nA.4 w3 extend l l = ok\nA.5 w4 extend l l = ok\nA.6 w5 extend l l = ok\nA.7 w6 extend l l = ok\nA.8 w7 extend l l = ok\nA.9 w8 extend l l = ok\nA.10 w9 extend l l = ok\nA.11 w10 extend l l = ok\nA.12 w11 extend l l = ok\nA.13 w12 extend l l = ok\nA.14 w13 extend l l = ok\nA.15 w14 extend l l = ok\nA.16 w15 extend l l = ok\nA.17 r16 extend l l = MemoryError over\n",
        storage: Storage::Tables,
        verdict: Verdict::Not(17, Rule::Memory),
    },
    // The sixth pair wants a larger table, of which the only one is taken.
    Case {
        script: "tables 4 1\ndict d\ndict e\nthread A\nset d 1 0\nset d 2 0\nset d 3 0\nset d 4 0\nset d 5 0\nset d 6 0\nset e 1 0\nset e 2 0\nset e 3 0\nset e 4 0\nset e 5 0\nset e 6 0\nlen e\n",
        transcript: "A.1 w0 set d 1 0 = ok\nA.2 w1 set d 2 0 = ok\nA.3 w2 set d 3 0 = ok\nA.4 w3 set d 4 0 = ok\nA.5 w4 set d 5 0 = ok\nA.6 w5 set d 6 0 = ok\nA.7 w6 set e 1 0 = ok\nA.8 w7 set e 2 0 = ok\nA.9 w8 set e 3 0 = ok\nA.10 w9 set e 4 0 = ok\nA.11 w10 set e 5 0 = ok\nA.12 r11 set e 6 0 = MemoryError 4\nA.13 r11 len e = 5\n",
        storage: Storage::Tables,
        verdict: Verdict::Legal,
    },
    // Five pairs have not taken it.
    Case {
        script: "tables 4 1\ndict d\ndict e\nthread A\nset d 1 0\nset d 2 0\nset d 3 0\nset d 4 0\nset d 5 0\nset d 6 0\n",
        transcript: "A.1 w0 set d 1 0 = ok\nA.2 w1 set d 2 0 = ok\nA.3 w2 set d 3 0 = ok\nA.4 w3 set d 4 0 = ok\nA.5 w4 set d 5 0 = ok\nA.6 r5 set d 6 0 = MemoryError 4\n",
        storage: Storage::Tables,
        verdict: Verdict::Not(6, Rule::Memory),
    },
    // The fifth element wants a larger table, of which the only one is taken.
    Case {
        script: "tables 5 1\nset s\nset t\nthread A\nadd s 1\nadd s 2\nadd s 3\nadd s 4\nadd s 5\nadd t 1\nadd t 2\nadd t 3\nadd t 4\nadd t 5\n",
        transcript: "A.1 w0 add s 1 = ok\nA.2 w1 add s 2 = ok\nA.3 w2 add s 3 = ok\nA.4 w3 add s 4 = ok\nA.5 w4 add s 5 = ok\nA.6 w5 add t 1 = ok\nA.7 w6 add t 2 = ok\nA.8 w7 add t 3 = ok\nA.9 w8 add t 4 = ok\nA.10 r9 add t 5 = MemoryError 5\n",
        storage: Storage::Tables,
        verdict: Verdict::Legal,
    },
    // Four elements have not taken it.
    Case {
        script: "tables 5 1\nset s\nset t\nthread A\nadd s 1\nadd s 2\nadd s 3\nadd s 4\nadd s 5\n",
        transcript: "A.1 w0 add s 1 = ok\nA.2 w1 add s 2 = ok\nA.3 w2 add s 3 = ok\nA.4 w3 add s 4 = ok\nA.5 r4 add s 5 = MemoryError 5\n",
        storage: Storage::Tables,
        verdict: Verdict::Not(5, Rule::Memory),
    },
    // Entries of deleted pairs stay used: the sixth new key takes a second table.
    Case {
        script: "tables 3 2\ndict d\ndict e\nthread A\nset d 0 0\ndel d 0\nset d 1 0\ndel d 1\nset d 2 0\ndel d 2\nset d 3 0\ndel d 3\nset d 4 0\ndel d 4\nset d 9 0\nset e 1 0\n",
        transcript: "A.1 w0 set d 0 0 = ok\nA.2 w1 del d 0 = ok\nA.3 w2 set d 1 0 = ok\nA.4 w3 del d 1 = ok\nA.5 w4 set d 2 0 = ok\nA.6 w5 del d 2 = ok\nA.7 w6 set d 3 0 = ok\nA.8 w7 del d 3 = ok\nA.9 w8 set d 4 0 = ok\nA.10 w9 del d 4 = ok\nA.11 w10 set d 9 0 = ok\nA.12 r11 set e 1 0 = MemoryError 3\n",
        storage: Storage::Tables,
        verdict: Verdict::Legal,
    },
    // Five new keys have taken one table.
    Case {
        script: "tables 3 2\ndict d\ndict e\nthread A\nset d 0 0\ndel d 0\nset d 1 0\ndel d 1\nset d 2 0\ndel d 2\nset d 3 0\ndel d 3\nset d 4 0\ndel d 4\nset e 1 0\n",
        transcript: "A.1 w0 set d 0 0 = ok\nA.2 w1 del d 0 = ok\nA.3 w2 set d 1 0 = ok\nA.4 w3 del d 1 = ok\nA.5 w4 set d 2 0 = ok\nA.6 w5 del d 2 = ok\nA.7 w6 set d 3 0 = ok\nA.8 w7 del d 3 = ok\nA.9 w8 set d 4 0 = ok\nA.10 w9 del d 4 = ok\nA.11 r10 set e 1 0 = MemoryError 3\n",
        storage: Storage::Tables,
        verdict: Verdict::Not(11, Rule::Memory),
    },
    // A clear gives the table up: the next new key takes another one.
    Case {
        script: "tables 3 2\ndict d\ndict e\nthread A\nset d 1 0\nclear d\nset d 1 0\nset e 1 0\n",
        transcript: "A.1 w0 set d 1 0 = ok\nA.2 w1 clear d = ok\nA.3 w2 set d 1 0 = ok\nA.4 r3 set e 1 0 = MemoryError 3\n",
        storage: Storage::Tables,
        verdict: Verdict::Legal,
    },
    // A deletion keeps the table.
    Case {
        script: "tables 3 2\ndict d\ndict e\nthread A\nset d 1 0\ndel d 1\nset d 1 0\nset e 1 0\n",
        transcript: "A.1 w0 set d 1 0 = ok\nA.2 w1 del d 1 = ok\nA.3 w2 set d 1 0 = ok\nA.4 r3 set e 1 0 = MemoryError 3\n",
        storage: Storage::Tables,
        verdict: Verdict::Not(4, Rule::Memory),
    },
    // A copy takes a table each time, onto the dict itself too.
    Case {
        script: "tables 3 3\ndict d\ndict e\nthread A\nset d 1 0\ncopyto d e\ncopyto d d\ncopyto d e\n",
        transcript: "A.1 w0 set d 1 0 = ok\nA.2 w1 copyto d e = ok\nA.3 w2 copyto d d = ok\nA.4 r3 copyto d e = MemoryError 3\n",
        storage: Storage::Tables,
        verdict: Verdict::Legal,
    },
    // A copy of no pairs takes none.
    Case {
        script: "tables 3 2\ndict d\ndict e\nthread A\nset e 1 0\ncopyto d e\nset d 1 0\n",
        transcript: "A.1 w0 set e 1 0 = ok\nA.2 w1 copyto d e = ok\nA.3 r2 set d 1 0 = MemoryError 3\n",
        storage: Storage::Tables,
        verdict: Verdict::Not(3, Rule::Memory),
    },
    // But it gives the old one up: the next new key takes another one.
    Case {
        script: "tables 3 2\ndict d\ndict e\nthread A\nset e 1 0\ncopyto d e\nset e 1 0\nset d 1 0\n",
        transcript: "A.1 w0 set e 1 0 = ok\nA.2 w1 copyto d e = ok\nA.3 w2 set e 1 0 = ok\nA.4 r3 set d 1 0 = MemoryError 3\n",
        storage: Storage::Tables,
        verdict: Verdict::Legal,
    },
    // The ninth item wants a larger table, of which the only one is taken.
    Case {
        script: "tables 4 1\nlist l\nlist m\nthread A\nappend l 1\nextend l l\nextend l l\nextend l l\nappend l 1\nextend m l\n",
        transcript: "A.1 w0 append l 1 = ok\nA.2 w1 extend l l = ok\nA.3 w2 extend l l = ok\nA.4 w3 extend l l = ok\nA.5 w4 append l 1 = ok\nA.6 r5 extend m l = MemoryError 4\n",
        storage: Storage::Tables,
        verdict: Verdict::Legal,
    },
    // Eight items have not taken it.
    Case {
        script: "tables 4 1\nlist l\nlist m\nthread A\nappend l 1\nextend l l\nextend l l\nextend l l\nextend m l\n",
        transcript: "A.1 w0 append l 1 = ok\nA.2 w1 extend l l = ok\nA.3 w2 extend l l = ok\nA.4 w3 extend l l = ok\nA.5 r4 extend m l = MemoryError 4\n",
        storage: Storage::Tables,
        verdict: Verdict::Not(5, Rule::Memory),
    },
    // Elements that went stay used: the fifth new one takes a larger table.
    Case {
        script: "tables 4 1\nset s\nset t\nset u\nthread A\nadd s 1\nadd s 2\nadd s 3\nadd s 4\nadd t 4\nadd t 5\nxor s t\nor u s\n",
        transcript: "A.1 w0 add s 1 = ok\nA.2 w1 add s 2 = ok\nA.3 w2 add s 3 = ok\nA.4 w3 add s 4 = ok\nA.5 w4 add t 4 = ok\nA.6 w5 add t 5 = ok\nA.7 w6 xor s t = ok\nA.8 r7 or u s = MemoryError 4\n",
        storage: Storage::Tables,
        verdict: Verdict::Legal,
    },
    // Four elements have not taken that.
    Case {
        script: "tables 4 1\nset s\nset t\nset u\nthread A\nadd s 1\nadd s 2\nadd s 3\nadd s 4\nadd t 4\nadd t 5\nor u s\n",
        transcript: "A.1 w0 add s 1 = ok\nA.2 w1 add s 2 = ok\nA.3 w2 add s 3 = ok\nA.4 w3 add s 4 = ok\nA.5 w4 add t 4 = ok\nA.6 w5 add t 5 = ok\nA.7 r6 or u s = MemoryError 4\n",
        storage: Storage::Tables,
        verdict: Verdict::Not(7, Rule::Memory),
    },
];

#[test]
fn a_memory_error_has_its_cause(rt: HostRuntime) -> Result<(), Fail> {
    for case in &CASES {
        let verdict = judged(rt.alloc(), *case)?;
        assert_eq!(rt; verdict, case.verdict, "of {:?}", case.transcript);
    }
    Ok(())
}
