//! Scripts in which threads make the same calls over and over.

use std::alloc::{AllocError, Global};

/// The text of a script: the lines of its containers, and for each thread its name and its lines, this many times.
pub(crate) fn repeated(
    alloc: Global,
    containers: &str,
    threads: &[(&str, &str)],
    times: u32,
) -> Result<String, AllocError> {
    let mut text = String::new(alloc);
    text.push_str(containers)?;
    for (name, lines) in threads {
        text.push_str("thread ")?;
        text.push_str(name)?;
        text.push_str("\n")?;
        for _ in 0..times {
            text.push_str(lines)?;
        }
    }
    Ok(text)
}

/// The text of a script with that many threads, each with the same lines.
pub(crate) fn alike(
    alloc: Global,
    containers: &str,
    threads: u32,
    lines: &str,
) -> Result<String, AllocError> {
    let mut text = String::new(alloc);
    text.push_str(containers)?;
    for thread in 0..threads {
        text.push_str(&format!(in alloc; "thread T{thread}\n{lines}")?)?;
    }
    Ok(text)
}

/// The text of a script with that many threads, each of which stores its number in two dicts in one section.
pub(crate) fn numbered(alloc: Global, threads: u32) -> Result<String, AllocError> {
    let mut text = String::new(alloc);
    text.push_str("dict d\ndict e\n")?;
    for thread in 0..threads {
        let lines = format!(in alloc;
            "thread T{thread}\nbegin d e\nset d {thread} 0\nset e {thread} 0\nend\n"
        )?;
        text.push_str(&lines)?;
    }
    Ok(text)
}

/// The text of a script with that many dicts and threads, each of which has a dict of its own.
pub(crate) fn apart(alloc: Global, threads: u32) -> Result<String, AllocError> {
    let mut text = String::new(alloc);
    for dict in 0..threads {
        text.push_str(&format!(in alloc; "dict d{dict}\n")?)?;
    }
    for thread in 0..threads {
        let lines = format!(in alloc;
            "thread T{thread}\nset d{thread} 1 1\nset d{thread} 2 2\nget d{thread} 1\nlen d{thread}\n"
        )?;
        text.push_str(&lines)?;
    }
    Ok(text)
}

/// The text of a script whose threads hand work on: each appends its number to a list that many times, and each but the
/// first awaits before each of these calls the same one of the thread before it.
pub(crate) fn handed_on(alloc: Global, threads: u32, times: u32) -> Result<String, AllocError> {
    let mut text = String::from_str(alloc, "version 2\nlist l\n")?;
    for thread in 0..threads {
        text.push_str(&format!(in alloc; "thread T{thread}\n")?)?;
        let before = thread.saturating_sub(1);
        for time in 1..times.saturating_add(1) {
            let index = if before == 0 {
                time
            } else {
                time.saturating_mul(2)
            };
            if thread > 0 {
                text.push_str(&format!(in alloc; "await T{before}.{index}\n")?)?;
            }
            text.push_str(&format!(in alloc; "append l {thread}\n")?)?;
        }
    }
    Ok(text)
}
