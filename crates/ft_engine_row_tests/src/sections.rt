//! Sections, and who waits for whom (C API, critical sections).

use ft_engine_tests::{Case, all_come_out};
use std::test::Fail;

const SECTIONS: [Case<'static>; 5] = [
    // Sections of one thread, one in another, and on one dict twice.
    Case {
        script: "dict d\n\
            thread A\n\
            begin d\n\
            begin d\n\
            end\n\
            end\n\
            begin d d\n\
            end\n",
        transcript: "A.1 r0 begin d = entered\n\
            A.2 r0 begin d = entered\n\
            A.3 r0 end = kept\n\
            A.4 r0 end = kept\n\
            A.5 r0 begin d d = entered\n\
            A.6 r0 end = kept\n",
    },
    // A section that lets its lock go while a call in it waits.
    Case {
        script: "list l\n\
            dict d\n\
            thread A\n\
            begin d\n\
            begin l\n\
            append l 1\n\
            end\n\
            end\n\
            thread B\n\
            begin l\n\
            append l 2\n\
            end\n\
            order B A A B B\n",
        transcript: "A.1 r0 begin d = entered\n\
            B.1 r0 begin l = entered\n\
            B.2 w0 append l 2 = ok\n\
            A.2 r1 begin l = entered waited B\n\
            B.3 r1 end = kept\n\
            A.3 w1 append l 1 = ok\n\
            A.4 r2 end = kept\n\
            A.5 r2 end = suspended 1\n",
    },
    // Another thread writes on its dict meanwhile.
    Case {
        script: "list l\n\
            dict d\n\
            thread A\n\
            begin d\n\
            begin l\n\
            append l 1\n\
            end\n\
            end\n\
            thread B\n\
            begin l\n\
            append l 2\n\
            end\n\
            thread C\n\
            set d 1 1\n\
            order B A A C B B\n",
        transcript: "A.1 r0 begin d = entered\n\
            B.1 r0 begin l = entered\n\
            C.1 w0 set d 1 1 = ok\n\
            B.2 w1 append l 2 = ok\n\
            A.2 r2 begin l = entered waited B\n\
            B.3 r2 end = kept\n\
            A.3 w2 append l 1 = ok\n\
            A.4 r3 end = kept\n\
            A.5 r3 end = suspended 1\n",
    },
    // Two threads that want both locks.
    Case {
        script: "list a\n\
            list b\n\
            thread A\n\
            begin a b\n\
            end\n\
            thread B\n\
            begin b\n\
            begin a\n\
            end\n\
            end\n\
            order B A B\n",
        transcript: "A.1 r0 begin a b = entered waited B\n\
            A.2 r0 end = kept\n\
            B.1 r0 begin b = entered\n\
            B.2 r0 begin a = entered waited A\n\
            B.3 r0 end = kept\n\
            B.4 r0 end = suspended 1\n",
    },
    // Looks wait for no lock; `index` takes it.
    Case {
        script: "list l\n\
            thread A\n\
            append l 1\n\
            begin l\n\
            end\n\
            thread B\n\
            get l 0\n\
            len l\n\
            items l\n\
            has l 1\n\
            eq l l\n\
            index l 1\n\
            order A A B B B B B B A\n",
        transcript: "A.1 w0 append l 1 = ok\n\
            A.2 r1 begin l = entered\n\
            A.3 r1 end = kept\n\
            B.1 r1 get l 0 = 1\n\
            B.2 r1 len l = 1\n\
            B.3 r1 items l = [1]\n\
            B.4 r1 has l 1 = True\n\
            B.5 r1 eq l l = True\n\
            B.6 r1 index l 1 = 0 waited A\n",
    },
];

#[test]
fn sections_are_answered_so(rt: HostRuntime) -> Result<(), Fail> {
    all_come_out(rt.alloc(), &SECTIONS)
}
