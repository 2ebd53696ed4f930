//! A caller that awaits a call of another one: it learns a note of it.
ghost use Rattle.std.specs.Prelude.{IfOk, OnOk};
ghost use Rattle.ft_bank.specs.Notes.{IsNoteOf, TellsOf};
ghost use Rattle.ft_engine.specs.Callers.{bank_of};
ghost use Rattle.ft_engine_tests.specs.TestCallers.{AreWorkersOf, IsWorkerOf};

use crate::first_turns::after;
use crate::looking::can_look;
use crate::turns::{lists_of, ordered, try_once};
use crate::workers::Worker;
use ft_bank::Note;
use ft_engine::Engine;
use ft_history::{Verdict, judge, merge};
use ft_model::{Call, Entry, ListCall, Reply, ScriptParts, Storage, Value};
use ft_script::read_transcript;
use std::alloc::Global;
use std::process::Abort;
use std::test::Fail;

const APPEND: Call = Call::List {
    container: 0,
    call: ListCall::Append {
        value: Value::Int(1),
    },
};

const POP: Call = Call::List {
    container: 0,
    call: ListCall::Pop { index: None },
};

const LEN: Call = Call::List {
    container: 0,
    call: ListCall::Len,
};

/// A script in which B awaits the first call of A, and its history where the turns are these.
struct Case {
    name: &'static str,
    script: &'static str,
    /// The only call of A.
    call: Call,
    /// The turns before A makes its call and a note, those before B learns the note, and those after that.
    first: &'static [u32],
    between: &'static [u32],
    last: &'static [u32],
    transcript: &'static str,
}

const SCRIPT: &str =
    "version 2\nlist l\nthread A\nappend l 1\nthread B\nawait A.1\nappend l 2\nthread C\nappend l 3\n";

const CASES: [Case; 4] = [
    Case {
        name: "the number of B's await is that of A's write and one",
        script: SCRIPT,
        call: APPEND,
        first: &[],
        between: &[],
        last: &[1, 2],
        transcript: "A.1 w0 append l 1 = ok\nB.1 r1 await A.1 = ok\nB.2 w1 append l 2 = ok\nC.1 w2 append l 3 = ok\n",
    },
    Case {
        name: "C writes before A",
        script: SCRIPT,
        call: APPEND,
        first: &[2],
        between: &[],
        last: &[1],
        transcript: "C.1 w0 append l 3 = ok\nA.1 w1 append l 1 = ok\nB.1 r2 await A.1 = ok\nB.2 w2 append l 2 = ok\n",
    },
    Case {
        name: "C writes after A has made the note, and B loads the counter after that",
        script: SCRIPT,
        call: APPEND,
        first: &[],
        between: &[2],
        last: &[1],
        transcript: "A.1 w0 append l 1 = ok\nC.1 w1 append l 3 = ok\nB.1 r2 await A.1 = ok\nB.2 w2 append l 2 = ok\n",
    },
    Case {
        name: "A's call raises",
        script: "version 2\nlist l\nthread A\npop l\nthread B\nawait A.1\nappend l 2\nthread C\nappend l 3\n",
        call: POP,
        first: &[],
        between: &[],
        last: &[2, 1],
        transcript: "A.1 r0 pop l = IndexError\nB.1 r0 await A.1 = ok\nC.1 w0 append l 3 = ok\nB.2 w1 append l 2 = ok\n",
    },
];

/// A worker of thread 0 makes its call, and then a note of it.
#[tactic(auto, using(crate::proofs::AwaitedNotes::note_tells))]
fn note_after(
    engine: &Engine,
    alloc: Global,
    worker: &mut Worker,
    call: &Call,
) -> Result<Note, Fail>
    requires { IsWorkerOf engine.now worker.old }
    ensures worker { OnOk result (IsWorkerOf engine.now worker.new) }
    ensures note { IfOk result (λ note. IsNoteOf (bank_of engine.now) note × TellsOf note 0 1) }
{
    let left = worker.caller.left();
    let ended = try_once(engine, alloc, worker, call)?;
    if !ended || worker.caller.left() >= left || worker.caller.thread() != 0 {
        return Err(Fail::from("A makes its first call"));
    }
    Ok(engine.note(&mut worker.caller))
}

/// The same of the first worker.
fn note_from(
    engine: &Engine,
    alloc: Global,
    workers: &mut [Worker],
    call: &Call,
) -> Result<Note, Fail>
    requires { AreWorkersOf engine.now workers.old }
    ensures workers { OnOk result (AreWorkersOf engine.now workers.new) }
    ensures note { IfOk result (λ note. IsNoteOf (bank_of engine.now) note × TellsOf note 0 1) }
{
    if workers.len() < 1 {
        return Err(Fail::from("each thread has a worker"));
    }
    let note = note_after(engine, alloc, &mut workers[0], call)?;
    Ok(note)
}

/// A worker of another thread awaits that call, as its own first one.
#[tactic(auto, using(crate::proofs::AwaitedNotes::may_learn, crate::proofs::AwaitedNotes::tried_caller, crate::proofs::AwaitedNotes::tried_online))]
fn await_first(engine: &Engine, worker: &mut Worker, note: Note) -> Result<(), Fail>
    requires worker { IsWorkerOf engine.now worker.old }
    requires note { IsNoteOf (bank_of engine.now) note × TellsOf note 0 1 }
    ensures { OnOk result (IsWorkerOf engine.now worker.new) }
{
    let thread = worker.caller.thread();
    if !can_look(engine, worker, &LEN) || worker.caller.left() == 0 || thread == 0 {
        return Err(Fail::from("B may make a call"));
    }
    let call = Call::Await {
        thread: 0,
        index: 1,
    };
    let stamp = engine.learn_at(&mut worker.caller, &call, note);
    worker.entries.push(Entry {
        thread,
        index: 1,
        stamp: stamp.number,
        wrote: stamp.wrote,
        call,
        reply: Reply::Done,
        waited: None,
    })?;
    Ok(())
}

/// The same of the second worker.
fn await_in(engine: &Engine, workers: &mut [Worker], note: Note) -> Result<(), Fail>
    requires workers { AreWorkersOf engine.now workers.old }
    requires note { IsNoteOf (bank_of engine.now) note × TellsOf note 0 1 }
    ensures { OnOk result (AreWorkersOf engine.now workers.new) }
{
    if workers.len() < 2 {
        return Err(Fail::from("each thread has a worker"));
    }
    await_first(engine, &mut workers[1], note)?;
    Ok(())
}

/// The turns of a case after the first ones.
fn go_on(
    engine: &Engine,
    alloc: Global,
    parts: &ScriptParts,
    workers: &mut [Worker],
    case: &Case,
) -> Result<(), Fail>
    requires { AreWorkersOf engine.now workers.old }
{
    let note = note_from(engine, alloc, workers, &case.call)?;
    ordered(engine, alloc, parts, workers, case.between)?;
    await_in(engine, workers, note)?;
    ordered(engine, alloc, parts, workers, case.last)
}

/// Whether the history is that of the transcript, and legal.
fn comes_out(alloc: Global, case: &Case) -> Result<bool, Fail> {
    let (script, engine, mut workers) = after(alloc, case.script, case.first)?;
    go_on(&engine, alloc, script.parts(), workers.as_mut_slice(), case)?;
    let expected = read_transcript(alloc, &script, case.transcript.as_bytes())?;
    let history = merge(alloc, lists_of(alloc, workers)?)?;
    let verdict = judge(alloc, Storage::Tables, &script, history.as_slice())?;
    Ok(verdict == Verdict::Legal && history.as_slice() == expected.entries.as_slice())
}

#[test]
fn an_await_stands_after_the_call_that_it_awaits(rt: HostRuntime) -> Result<(), Fail> {
    for case in &CASES {
        assert!(rt; comes_out(rt.alloc(), case)?, "{}", case.name);
    }
    Ok(())
}
