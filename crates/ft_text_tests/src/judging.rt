//! Histories judged: each is a script and a transcript without the lines of contents. The verdicts
//! are worked out by hand.

use ft_history::{Verdict, judge};
use ft_model::{Rule, Storage};
use ft_script::{parse, read_transcript};
use std::alloc::Global;
use std::process::Abort;
use std::test::Fail;

/// A history, and what has to be said of it.
#[derive(Clone, Copy)]
pub(crate) struct Case<'a> {
    pub(crate) script: &'a str,
    pub(crate) transcript: &'a str,
    pub(crate) storage: Storage,
    pub(crate) verdict: Verdict,
}

const CASES: [Case<'static>; 42] = [
    // A section that was let go, reported as suspended.
    Case {
        script: "list l\ndict d\nthread A\nbegin d\nbegin l\nappend l 1\nend\nend\nthread B\nbegin l\nappend l 2\nend\norder B A A B B\n",
        transcript: "A.1 r0 begin d = entered\nB.1 r0 begin l = entered\nB.2 w0 append l 2 = ok\nA.2 r1 begin l = entered waited B\nB.3 r1 end = kept\nA.3 w1 append l 1 = ok\nA.4 r2 end = kept\nA.5 r2 end = suspended 1\n",
        storage: Storage::Plain,
        verdict: Verdict::Legal,
    },
    // Another thread wrote on it meanwhile.
    Case {
        script: "list l\ndict d\nthread A\nbegin d\nbegin l\nappend l 1\nend\nend\nthread B\nbegin l\nappend l 2\nend\nthread C\nset d 1 1\norder B A A C B B\n",
        transcript: "A.1 r0 begin d = entered\nB.1 r0 begin l = entered\nC.1 w0 set d 1 1 = ok\nB.2 w1 append l 2 = ok\nA.2 r2 begin l = entered waited B\nB.3 r2 end = kept\nA.3 w2 append l 1 = ok\nA.4 r3 end = kept\nA.5 r3 end = suspended 1\n",
        storage: Storage::Plain,
        verdict: Verdict::Legal,
    },
    // And then it was not kept; how often it was suspended is wrong there too.
    Case {
        script: "list l\ndict d\nthread A\nbegin d\nbegin l\nappend l 1\nend\nend\nthread B\nbegin l\nappend l 2\nend\nthread C\nset d 1 1\norder B A A C B B\n",
        transcript: "A.1 r0 begin d = entered\nB.1 r0 begin l = entered\nC.1 w0 set d 1 1 = ok\nB.2 w1 append l 2 = ok\nA.2 r2 begin l = entered waited B\nB.3 r2 end = kept\nA.3 w2 append l 1 = ok\nA.4 r3 end = kept\nA.5 r3 end = kept\n",
        storage: Storage::Plain,
        verdict: Verdict::Not(9, Rule::Kept),
    },
    // Sections on what the thread has.
    Case {
        script: "dict d\nthread A\nbegin d\nbegin d\nend\nend\nbegin d d\nend\n",
        transcript: "A.1 r0 begin d = entered\nA.2 r0 begin d = entered\nA.3 r0 end = kept\nA.4 r0 end = kept\nA.5 r0 begin d d = entered\nA.6 r0 end = kept\n",
        storage: Storage::Plain,
        verdict: Verdict::Legal,
    },
    // Two threads that want two locks.
    Case {
        script: "list a\nlist b\nthread A\nbegin a b\nend\nthread B\nbegin b\nbegin a\nend\nend\norder B A B\n",
        transcript: "A.1 r0 begin a b = entered waited B\nA.2 r0 end = kept\nB.1 r0 begin b = entered\nB.2 r0 begin a = entered waited A\nB.3 r0 end = kept\nB.4 r0 end = suspended 1\n",
        storage: Storage::Plain,
        verdict: Verdict::Legal,
    },
    // One container twice.
    Case {
        script: "dict d\nlist l\nset s\nthread A\nset d 1 1\nupdate d d\nappend l 1\nappend l 2\nextend l l\nadd s 1\nsub s s\n",
        transcript: "A.1 w0 set d 1 1 = ok\nA.2 w1 update d d = ok\nA.3 w2 append l 1 = ok\nA.4 w3 append l 2 = ok\nA.5 w4 extend l l = ok\nA.6 w5 add s 1 = ok\nA.7 w6 sub s s = ok\n",
        storage: Storage::Plain,
        verdict: Verdict::Legal,
    },
    // A cursor after a changed size.
    Case {
        script: "dict d\nthread A\nset d 1 1\nset d 2 2\nset d 3 3\niter d c\nnext c\nset d 4 4\nnext c\ndel d 4\nnext c\n",
        transcript: "A.1 w0 set d 1 1 = ok\nA.2 w1 set d 2 2 = ok\nA.3 w2 set d 3 3 = ok\nA.4 r3 iter d c = ok\nA.5 r3 next c = 1: 1\nA.6 w3 set d 4 4 = ok\nA.7 r4 next c = RuntimeError size\nA.8 w4 del d 4 = ok\nA.9 r5 next c = RuntimeError size\n",
        storage: Storage::Plain,
        verdict: Verdict::Legal,
    },
    // A cursor after an exchange of keys.
    Case {
        script: "dict d\nthread A\nset d 1 1\nset d 2 2\niter d c\nnext c\ndel d 1\nset d 3 3\nnext c\nnext c\nnext c\n",
        transcript: "A.1 w0 set d 1 1 = ok\nA.2 w1 set d 2 2 = ok\nA.3 r2 iter d c = ok\nA.4 r2 next c = 1: 1\nA.5 w2 del d 1 = ok\nA.6 w3 set d 3 3 = ok\nA.7 r4 next c = 2: 2\nA.8 r4 next c = RuntimeError keys\nA.9 r4 next c = StopIteration\n",
        storage: Storage::Plain,
        verdict: Verdict::Legal,
    },
    // The second call stands first.
    Case {
        script: "dict d\nthread A\nset d 1 1\nget d 1\n",
        transcript: "A.2 r0 get d 1 = KeyError\n",
        storage: Storage::Plain,
        verdict: Verdict::Not(1, Rule::Whole),
    },
    // Another value is set, and the stamp is wrong too.
    Case {
        script: "dict d\nthread A\nset d 1 1\nget d 1\n",
        transcript: "A.1 w5 set d 1 2 = ok\n",
        storage: Storage::Plain,
        verdict: Verdict::Not(1, Rule::Whole),
    },
    // A call too many.
    Case {
        script: "dict d\nthread A\nset d 1 1\nget d 1\n",
        transcript: "A.1 w0 set d 1 1 = ok\nA.2 r1 get d 1 = 1\nA.3 r1 get d 1 = 1\n",
        storage: Storage::Plain,
        verdict: Verdict::Not(3, Rule::Whole),
    },
    // The first write has the number 1.
    Case {
        script: "dict d\nthread A\nset d 1 1\nget d 1\n",
        transcript: "A.1 w1 set d 1 1 = ok\n",
        storage: Storage::Plain,
        verdict: Verdict::Not(1, Rule::Stamp),
    },
    // A write is marked as a read, and its reply is wrong too.
    Case {
        script: "dict d\nthread A\nset d 1 1\nget d 1\n",
        transcript: "A.1 r0 set d 1 1 = True\n",
        storage: Storage::Plain,
        verdict: Verdict::Not(1, Rule::Stamp),
    },
    // A read is marked as a write.
    Case {
        script: "dict d\nthread A\nset d 1 1\nget d 1\n",
        transcript: "A.1 w0 set d 1 1 = ok\nA.2 w1 get d 1 = 1\n",
        storage: Storage::Plain,
        verdict: Verdict::Not(2, Rule::Stamp),
    },
    // Reads of one stamp go by thread.
    Case {
        script: "dict d\nthread A\nquiesce\nquiesce\nthread B\nquiesce\n",
        transcript: "B.1 r0 quiesce = ok\nA.1 r0 quiesce = ok\nA.2 r0 quiesce = ok\n",
        storage: Storage::Plain,
        verdict: Verdict::Not(2, Rule::Order),
    },
    // And the reply is wrong too.
    Case {
        script: "dict d\nthread A\nquiesce\nquiesce\nthread B\nquiesce\n",
        transcript: "A.1 r0 quiesce = ok\nB.1 r0 quiesce = ok\nA.2 r0 quiesce = entered\n",
        storage: Storage::Plain,
        verdict: Verdict::Not(3, Rule::Order),
    },
    // Another value is read.
    Case {
        script: "dict d\nthread A\nset d 1 1\nget d 1\n",
        transcript: "A.1 w0 set d 1 1 = ok\nA.2 r1 get d 1 = 2\n",
        storage: Storage::Plain,
        verdict: Verdict::Not(2, Rule::Reply),
    },
    // A call has a section's reply, and the mark of its own thread.
    Case {
        script: "dict d\nthread A\nset d 1 1\nget d 1\n",
        transcript: "A.1 w0 set d 1 1 = kept waited A\n",
        storage: Storage::Plain,
        verdict: Verdict::Not(1, Rule::Reply),
    },
    // A section has a call's reply.
    Case {
        script: "dict d\nlist l\nthread A\nbegin d\nend\nthread B\nset d 1 1\nthread C\nquiesce\n",
        transcript: "A.1 r0 begin d = ok\n",
        storage: Storage::Plain,
        verdict: Verdict::Not(1, Rule::Reply),
    },
    // A section wants no memory.
    Case {
        script: "dict d\nlist l\nthread A\nbegin d\nend\nthread B\nset d 1 1\nthread C\nquiesce\n",
        transcript: "A.1 r0 begin d = MemoryError 3\n",
        storage: Storage::Plain,
        verdict: Verdict::Not(1, Rule::Reply),
    },
    // A thread waits for itself.
    Case {
        script: "dict d\nthread A\nset d 1 1\nget d 1\n",
        transcript: "A.1 w0 set d 1 1 = ok waited A\n",
        storage: Storage::Plain,
        verdict: Verdict::Not(1, Rule::Mark),
    },
    // A thread waits for one that has no call there.
    Case {
        script: "dict d\nlist l\nthread A\nbegin d\nend\nthread B\nset d 1 1\nthread C\nquiesce\n",
        transcript: "A.1 r0 begin d = entered waited C\n",
        storage: Storage::Plain,
        verdict: Verdict::Not(1, Rule::Mark),
    },
    // A mark on what is kept, and both are wrong.
    Case {
        script: "dict d\nlist l\nthread A\nbegin d\nend\nthread B\nset d 1 1\nthread C\nquiesce\n",
        transcript: "A.1 r0 begin d = entered\nB.1 w0 set d 1 1 = ok\nA.2 r1 end = kept waited B\n",
        storage: Storage::Plain,
        verdict: Verdict::Not(3, Rule::Mark),
    },
    // A write in a section that is reported as kept.
    Case {
        script: "dict d\nlist l\nthread A\nbegin d\nend\nthread B\nset d 1 1\nthread C\nquiesce\n",
        transcript: "A.1 r0 begin d = entered\nB.1 w0 set d 1 1 = ok\nA.2 r1 end = kept\n",
        storage: Storage::Plain,
        verdict: Verdict::Not(3, Rule::Kept),
    },
    // Suspended 0.
    Case {
        script: "dict d\nlist l\nthread A\nbegin d\nend\nthread B\nset d 1 1\nthread C\nquiesce\n",
        transcript: "A.1 r0 begin d = entered\nA.2 r0 end = suspended 0\n",
        storage: Storage::Plain,
        verdict: Verdict::Not(2, Rule::Suspended),
    },
    // Suspended without a mark.
    Case {
        script: "dict d\nlist l\nthread A\nbegin d\nend\nthread B\nset d 1 1\nthread C\nquiesce\n",
        transcript: "A.1 r0 begin d = entered\nA.2 r0 end = suspended 1\n",
        storage: Storage::Plain,
        verdict: Verdict::Not(2, Rule::Suspended),
    },
    // The mark of its own begin does not count.
    Case {
        script: "list l\ndict d\nthread A\nbegin d\nbegin l\nappend l 1\nend\nend\nthread B\nbegin l\nappend l 2\nend\norder B A A B B\n",
        transcript: "A.1 r0 begin d = entered\nB.1 r0 begin l = entered\nB.2 w0 append l 2 = ok\nA.2 r1 begin l = entered waited B\nB.3 r1 end = kept\nA.3 w1 append l 1 = ok\nA.4 r2 end = suspended 1\nA.5 r2 end = suspended 1\n",
        storage: Storage::Plain,
        verdict: Verdict::Not(7, Rule::Suspended),
    },
    // One mark inside is not two.
    Case {
        script: "list l\ndict d\nthread A\nbegin d\nbegin l\nappend l 1\nend\nend\nthread B\nbegin l\nappend l 2\nend\norder B A A B B\n",
        transcript: "A.1 r0 begin d = entered\nB.1 r0 begin l = entered\nB.2 w0 append l 2 = ok\nA.2 r1 begin l = entered waited B\nB.3 r1 end = kept\nA.3 w1 append l 1 = ok\nA.4 r2 end = kept\nA.5 r2 end = suspended 2\n",
        storage: Storage::Plain,
        verdict: Verdict::Not(8, Rule::Suspended),
    },
    // Plain containers want no memory.
    Case {
        script: "tables 3 1\ndict d\ndict e\nthread A\nset d 1 0\nset e 1 0\nlen e\n",
        transcript: "A.1 r0 set d 1 0 = MemoryError 3\n",
        storage: Storage::Plain,
        verdict: Verdict::Not(1, Rule::Memory),
    },
    // Plain lists go on.
    Case {
        script: "list l\nthread A\nappend l 1\nextend l l\nextend l l\nextend l l\nextend l l\nextend l l\nextend l l\nextend l l\nextend l l\nextend l l\nextend l l\nextend l l\nextend l l\nextend l l\nextend l l\nextend l l\nextend l l\nappend l 1\nget l 65535\n",
        transcript: "A.1 w0 append l 1 = ok\nA.2 w1 extend l l = ok\nA.3 w2 extend l l = ok\nA.4 w3 extend l l = ok\nA.5 w4 extend l l = ok\nA.6 w5 extend l l = ok\nA.7 w6 extend l l = ok\nA.8 w7 extend l l = ok\nA.9 w8 extend l l = ok\nA.10 w9 extend l l = ok\nA.11 w10 extend l l = ok\nA.12 w11 extend l l = ok\nA.13 w12 extend l l = ok\nA.14 w13 extend l l = ok\nA.15 w14 extend l l = ok\nA.16 w15 extend l l = ok\nA.17 w16 extend l l = ok\nA.18 w17 append l 1 = ok\nA.19 r18 get l 65535 = 1\n",
        storage: Storage::Plain,
        verdict: Verdict::Legal,
    },
    // A thread lacks a call.
    Case {
        script: "dict d\nthread A\nset d 1 1\nget d 1\n",
        transcript: "A.1 w0 set d 1 1 = ok\n",
        storage: Storage::Plain,
        verdict: Verdict::Not(2, Rule::Missing),
    },
    // All calls lack.
    Case {
        script: "dict d\nthread A\nquiesce\nquiesce\nthread B\nquiesce\n",
        transcript: "",
        storage: Storage::Plain,
        verdict: Verdict::Not(1, Rule::Missing),
    },
    // An end takes the locks of the section round it again, and waits for them.
    Case {
        script: "dict d\nlist l\nthread A\nbegin d\nbegin l\nend\nend\nthread B\nset d 1 1\nthread C\nappend l 1\n",
        transcript: "A.1 r0 begin d = entered\nA.2 r0 begin l = entered\nA.3 r0 end = kept waited B\nA.4 r0 end = suspended 1\nB.1 w0 set d 1 1 = ok\nC.1 w1 append l 1 = ok\n",
        storage: Storage::Plain,
        verdict: Verdict::Legal,
    },
    // There it cannot wait for a thread that has no call on them.
    Case {
        script: "dict d\nlist l\nthread A\nbegin d\nbegin l\nend\nend\nthread B\nset d 1 1\nthread C\nappend l 1\n",
        transcript: "A.1 r0 begin d = entered\nA.2 r0 begin l = entered\nA.3 r0 end = kept waited C\n",
        storage: Storage::Plain,
        verdict: Verdict::Not(3, Rule::Mark),
    },
    // A begin waits for its own containers alone.
    Case {
        script: "dict d\nlist l\nthread A\nbegin d\nbegin l\nend\nend\nthread B\nset d 1 1\nthread C\nappend l 1\n",
        transcript: "A.1 r0 begin d = entered\nA.2 r0 begin l = entered waited B\n",
        storage: Storage::Plain,
        verdict: Verdict::Not(2, Rule::Mark),
    },
    // A next waits for the container of its cursor.
    Case {
        script: "list l\nthread A\niter l c\nnext c\nthread B\nappend l 1\n",
        transcript: "A.1 r0 iter l c = ok\nA.2 r0 next c = StopIteration waited B\nB.1 w0 append l 1 = ok\n",
        storage: Storage::Plain,
        verdict: Verdict::Legal,
    },
    // A copy onto a container of the section is a write on it.
    Case {
        script: "dict d\ndict e\ndict f\nthread A\nbegin d e\nend\nthread B\ncopyto f e\n",
        transcript: "A.1 r0 begin d e = entered\nB.1 w0 copyto f e = ok\nA.2 r1 end = kept\n",
        storage: Storage::Plain,
        verdict: Verdict::Not(3, Rule::Kept),
    },
    // A write that names a container of the section counts, whatever it changes.
    Case {
        script: "dict d\ndict e\ndict f\nthread A\nbegin d e\nend\nthread B\nupdate f e\n",
        transcript: "A.1 r0 begin d e = entered\nB.1 w0 update f e = ok\nA.2 r1 end = kept\n",
        storage: Storage::Plain,
        verdict: Verdict::Not(3, Rule::Kept),
    },
    // A copy of a dict onto itself in the middle of a walk: the size is the same, the pairs are new.
    Case {
        script: "dict d\nthread A\nset d 1 1\nset d 2 2\niter d c\nnext c\ncopyto d d\nnext c\nnext c\nnext c\n",
        transcript: "A.1 w0 set d 1 1 = ok\nA.2 w1 set d 2 2 = ok\nA.3 r2 iter d c = ok\nA.4 r2 next c = 1: 1\nA.5 w2 copyto d d = ok\nA.6 r3 next c = 1: 1\nA.7 r3 next c = RuntimeError keys\nA.8 r3 next c = StopIteration\n",
        storage: Storage::Plain,
        verdict: Verdict::Legal,
    },
    // A clear in the middle of a walk, after which the size comes back.
    Case {
        script: "dict d\nthread A\nset d 1 1\nset d 2 2\niter d c\nnext c\nclear d\nset d 3 3\nset d 4 4\nnext c\nnext c\n",
        transcript: "A.1 w0 set d 1 1 = ok\nA.2 w1 set d 2 2 = ok\nA.3 r2 iter d c = ok\nA.4 r2 next c = 1: 1\nA.5 w2 clear d = ok\nA.6 w3 set d 3 3 = ok\nA.7 w4 set d 4 4 = ok\nA.8 r5 next c = 3: 3\nA.9 r5 next c = RuntimeError keys\n",
        storage: Storage::Plain,
        verdict: Verdict::Legal,
    },
    // More elements under two live cursors, one of which asks before the size comes back.
    Case {
        script: "set s\nset t\nthread A\nadd s 1\nadd s 2\nadd t 2\nadd t 3\niter s c\niter s e\nnext c\nnext e\nor s t\nnext e\ndiscard s 2\nnext c\nnext c\nnext e\n",
        transcript: "A.1 w0 add s 1 = ok\nA.2 w1 add s 2 = ok\nA.3 w2 add t 2 = ok\nA.4 w3 add t 3 = ok\nA.5 r4 iter s c = ok\nA.6 r4 iter s e = ok\nA.7 r4 next c = 1\nA.8 r4 next e = 1\nA.9 w4 or s t = ok\nA.10 r5 next e = RuntimeError size\nA.11 w5 discard s 2 = ok\nA.12 r6 next c = 3\nA.13 r6 next c = StopIteration\nA.14 r6 next e = RuntimeError size\n",
        storage: Storage::Plain,
        verdict: Verdict::Legal,
    },
    // An exchange of elements under a live cursor.
    Case {
        script: "set s\nset t\nthread A\nadd s 1\nadd s 2\nadd t 2\nadd t 3\niter s c\nnext c\nxor s t\nnext c\nnext c\n",
        transcript: "A.1 w0 add s 1 = ok\nA.2 w1 add s 2 = ok\nA.3 w2 add t 2 = ok\nA.4 w3 add t 3 = ok\nA.5 r4 iter s c = ok\nA.6 r4 next c = 1\nA.7 w4 xor s t = ok\nA.8 r5 next c = 3\nA.9 r5 next c = StopIteration\n",
        storage: Storage::Plain,
        verdict: Verdict::Legal,
    },
];

/// What is said of a case.
pub(crate) fn judged(alloc: Global, case: Case<'_>) -> Result<Verdict, Fail> {
    let Ok(script) = parse(alloc, case.script.as_bytes()) else {
        return Err("no script".into());
    };
    let Ok(transcript) = read_transcript(alloc, &script, case.transcript.as_bytes()) else {
        return Err("no transcript".into());
    };
    Ok(judge(alloc, case.storage, &script, &transcript.entries)?)
}

#[test]
fn the_first_broken_rule_is_reported(rt: HostRuntime) -> Result<(), Fail> {
    for case in &CASES {
        let verdict = judged(rt.alloc(), *case)?;
        assert_eq!(rt; verdict, case.verdict, "of {:?}", case.transcript);
    }
    Ok(())
}
