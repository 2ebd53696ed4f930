//! Entries, contents and scripts that are printed: a transcript that is read is printed as it was.

use ft_model::World;
use ft_script::{parse, print_entry, print_script, print_world, read_transcript};
use std::alloc::Global;
use std::process::Abort;
use std::test::Fail;

/// A dict, a list, a set, a thread with a cursor, and a string of all that stands after a backslash.
const SCRIPT: &str = "dict d\nlist l\nset s\nthread A\niter d c\nget d \"a\\\"\\\\\\n\\tz\"\n";

/// The text of the entries of a transcript of it.
fn printed(alloc: Global, text: &str) -> Result<Vec<u8>, Fail> {
    let script = parse(alloc, SCRIPT.as_bytes())?;
    let transcript = read_transcript(alloc, &script, text.as_bytes())?;
    let mut out = Vec::new(alloc);
    for entry in &transcript.entries {
        out.extend_from_slice(&print_entry(alloc, &script, entry)?)?;
    }
    Ok(out)
}

const ENTRIES: [&str; 7] = [
    "A.1 w0 set d \"a\\\"\\\\\\n\\tz\" None = ok\n",
    "A.30 r1 slice l -3 9 = [-1, None]\n",
    "A.2 r7 items s = set()\n",
    "A.3 r7 next c = MemoryError 12\n",
    "A.4 r7 begin s d = entered waited A\n",
    "A.1 r0 get d 0 = 7\nA.2 r0 get d -7 = -1\n",
    "A.1 r0 get d 9223372036854775807 = -9223372036854775808\n",
];

#[test]
fn prints_entries(rt: HostRuntime) -> Result<(), Fail> {
    for text in &ENTRIES {
        let out = printed(rt.alloc(), *text)?;
        assert!(rt; out.as_slice() == text.as_bytes(), "at {text:?}");
    }
    Ok(())
}

#[test]
fn prints_worlds(rt: HostRuntime) -> Result<(), Fail> {
    let script = parse(rt.alloc(), SCRIPT.as_bytes())?;
    let world = World::start(rt.alloc(), script.parts().containers.as_slice())?;
    let text = print_world(rt.alloc(), &script, &world)?;
    assert!(rt; text.as_slice() == b"d = {}\nl = []\ns = set()\n".as_slice());
    Ok(())
}

/// A script as it is written, and the parts of its text as it is printed.
#[derive(Clone, Copy)]
struct PrintedScript<'a> {
    written: &'a str,
    containers: &'a str,
    tables: &'a str,
    rest: &'a str,
}

/// The numbers of tables of a script that says nothing of them.
pub(crate) const USUAL: &str = "tables 3 4\n\
    tables 4 4\n\
    tables 5 4\n\
    tables 6 4\n\
    tables 7 4\n\
    tables 8 4\n\
    tables 9 4\n\
    tables 10 4\n\
    tables 11 4\n\
    tables 12 4\n\
    tables 13 1\n\
    tables 14 1\n\
    tables 15 1\n\
    tables 16 1\n";

const SCRIPTS: [PrintedScript<'static>; 5] = [
    PrintedScript {
        written: "",
        containers: "",
        tables: USUAL,
        rest: "heap 64\n",
    },
    PrintedScript {
        written: "# first\n\nset s\nheap 4096\n  dict   d  \n#\ntables 16 7\nlist l\ntables 3 1024",
        containers: "set s\ndict d\nlist l\n",
        tables: "tables 3 1024\n\
            tables 4 4\n\
            tables 5 4\n\
            tables 6 4\n\
            tables 7 4\n\
            tables 8 4\n\
            tables 9 4\n\
            tables 10 4\n\
            tables 11 4\n\
            tables 12 4\n\
            tables 13 1\n\
            tables 14 1\n\
            tables 15 1\n\
            tables 16 7\n",
        rest: "heap 4096\n",
    },
    PrintedScript {
        written: "dict d\nthread B\nthread A\niter d c_1\nnext  c_1\nbegin d d\nend\nquiesce\n\
            order A\norder B  A\n",
        containers: "dict d\n",
        tables: USUAL,
        rest: "heap 64\nthread B\nthread A\niter d c_1\nnext c_1\nbegin d d\nend\nquiesce\norder A B A\n",
    },
    PrintedScript {
        written: "list l\nthread A\npop l\npop l -1\nset l 0 \"b c\"\n\
            slice l -9223372036854775808 9223372036854775807\n",
        containers: "list l\n",
        tables: USUAL,
        rest: "heap 64\nthread A\npop l\npop l -1\nset l 0 \"b c\"\n\
            slice l -9223372036854775808 9223372036854775807\n",
    },
    PrintedScript {
        written: "dict d\nthread A\nset d \"a\\\"\\\\\\n\\tz\" None\nget d \"\"\n\
            setdefault d \"\" \"é\"\nthread B\ndel d \"é\"",
        containers: "dict d\n",
        tables: USUAL,
        rest: "heap 64\nthread A\nset d \"a\\\"\\\\\\n\\tz\" None\nget d \"\"\n\
            setdefault d \"\" \"é\"\nthread B\ndel d \"é\"\n",
    },
];

#[test]
fn prints_scripts(rt: HostRuntime) -> Result<(), Fail> {
    for row in &SCRIPTS {
        let script = parse(rt.alloc(), row.written.as_bytes())?;
        let text = print_script(rt.alloc(), &script)?;
        let mut wanted = Vec::new(rt.alloc());
        wanted.extend_from_slice(row.containers.as_bytes())?;
        wanted.extend_from_slice(row.tables.as_bytes())?;
        wanted.extend_from_slice(row.rest.as_bytes())?;
        assert!(rt;
            text.as_slice() == wanted.as_slice(),
            "at {:?}",
            row.written
        );
    }
    Ok(())
}
