//! Scripts call by call, each call with what it is answered: the script's text, and the lines of its history's entries.

use crate::cases::{Case, comes_out};
use std::alloc::{AllocError, Global};
use std::test::Fail;

/// A call that a thread makes so often one after the other, in turns that follow each other, and that is answered so each
/// time: the thread's name, how often, the call, and the reply.
#[derive(Clone, Copy)]
pub enum Calls<'a> {
    /// Each time it is a write.
    Write(&'a str, u32, &'a str, &'a str),
    /// It is no write.
    Read(&'a str, u32, &'a str, &'a str),
}

impl<'a> Calls<'a> {
    /// Whether they are writes.
    fn wrote(self) -> bool {
        match self {
            Calls::Write(_, _, _, _) => true,
            Calls::Read(_, _, _, _) => false,
        }
    }

    /// The thread's name.
    fn thread(self) -> &'a str {
        match self {
            Calls::Write(thread, _, _, _) | Calls::Read(thread, _, _, _) => thread,
        }
    }

    /// How often the call is made.
    fn times(self) -> u32 {
        match self {
            Calls::Write(_, times, _, _) | Calls::Read(_, times, _, _) => times,
        }
    }

    /// The call.
    fn call(self) -> &'a str {
        match self {
            Calls::Write(_, _, call, _) | Calls::Read(_, _, call, _) => call,
        }
    }

    /// What it is answered each time.
    fn reply(self) -> &'a str {
        match self {
            Calls::Write(_, _, _, reply) | Calls::Read(_, _, _, reply) => reply,
        }
    }
}

/// A script with its calls in their order, which is the order of its turns and of its history.
#[derive(Clone, Copy)]
pub struct ScriptedCalls<'a> {
    /// What the script is there for.
    pub name: &'a str,
    /// The lines of its declarations.
    pub declarations: &'a str,
    /// The names of its threads.
    pub threads: &'a [&'a str],
    /// Its calls.
    pub calls: &'a [Calls<'a>],
}

/// Puts a text so often at the end of another one.
fn repeat(text: &mut String, piece: &str, times: u32) -> Result<(), AllocError> {
    for _ in 0..times {
        text.push_str(piece)?;
    }
    Ok(())
}

/// Puts the lines of a thread's calls at the end of a script's text.
fn write_thread(
    alloc: Global,
    text: &mut String,
    thread: &str,
    calls: &[Calls<'_>],
) -> Result<(), AllocError> {
    text.push_str(&format!(in alloc; "thread {thread}\n")?)?;
    for made in calls {
        if made.thread() == thread {
            let line = format!(in alloc; "{}\n", made.call())?;
            repeat(text, &line, made.times())?;
        }
    }
    Ok(())
}

/// The text of the script: each call is one turn of its thread.
fn script_of(alloc: Global, case: &ScriptedCalls<'_>) -> Result<String, AllocError> {
    let mut text = String::from_str(alloc, case.declarations)?;
    for thread in case.threads {
        write_thread(alloc, &mut text, thread, case.calls)?;
    }
    text.push_str("order")?;
    for made in case.calls {
        let name = format!(in alloc; " {}", made.thread())?;
        repeat(&mut text, &name, made.times())?;
    }
    text.push_str("\n")?;
    Ok(text)
}

/// How many of these calls are the thread's.
fn count_of(calls: &[Calls<'_>], thread: &str) -> u32 {
    let mut count = 0u32;
    for made in calls {
        if made.thread() == thread {
            count = count.saturating_add(made.times());
        }
    }
    count
}

/// How many of these calls are writes.
fn writes_of(calls: &[Calls<'_>]) -> u32 {
    let mut writes = 0u32;
    for made in calls {
        if made.wrote() {
            writes = writes.saturating_add(made.times());
        }
    }
    writes
}

/// Puts the lines of a call at the end of a transcript, in which so many calls of its thread and so many writes stand.
fn write_entries(
    alloc: Global,
    text: &mut String,
    made: &Calls<'_>,
    count: u32,
    writes: u32,
) -> Result<(), AllocError> {
    for n in 0..made.times() {
        let index = count.saturating_add(n).saturating_add(1);
        let stamp = writes.saturating_add(if made.wrote() { n } else { 0 });
        let letter = if made.wrote() { "w" } else { "r" };
        let line = format!(in alloc;
            "{}.{index} {letter}{stamp} {} = {}\n",
            made.thread(),
            made.call(),
            made.reply()
        )?;
        text.push_str(&line)?;
    }
    Ok(())
}

/// The lines of the entries of the history.
fn transcript_of(alloc: Global, case: &ScriptedCalls<'_>) -> Result<String, AllocError> {
    let mut text = String::new(alloc);
    let mut past: Vec<Calls<'_>> = Vec::new(alloc);
    for made in case.calls {
        let count = count_of(past.as_slice(), made.thread());
        let writes = writes_of(past.as_slice());
        write_entries(alloc, &mut text, made, count, writes)?;
        past.push(*made)?;
    }
    Ok(text)
}

/// Each script's calls are answered so; else the failure has the name of the first script where one isn't.
pub fn all_are_answered(alloc: Global, scripted: &[ScriptedCalls<'_>]) -> Result<(), Fail> {
    for expected in scripted {
        let script = script_of(alloc, expected)?;
        let transcript = transcript_of(alloc, expected)?;
        let case = Case {
            script: &script,
            transcript: &transcript,
        };
        if !comes_out(alloc, case)? {
            return Err(Fail::from(expected.name));
        }
    }
    Ok(())
}
