//! The calls of a script that is made, by callers of one engine in one thread: round by round each of the script's
//! threads makes its next call, which is the order of its turns. No section is open, so no call waits. Each run has an
//! engine of its own, whose making isn't timed; the text is read once, before.
ghost use Rattle.std.specs.Prelude.{IfOk, IfSome};
ghost use Rattle.ft_bench.specs.Threads.{AreReadyCallers, IsReadyCaller};
ghost use Rattle.ft_engine.specs.Callers.{AreFreeCallers};

use crate::answers::read;
use crate::outcome::Outcome;
use crate::rounds::{now, since};
use ft_bank::Shape;
use ft_engine::{Caller, Engine};
use ft_model::{Call, Kind, Script, ScriptParts};
use ft_script::{make_script, parse};
use std::alloc::{AllocError, Global};
use std::sync::Wait;
use std::time::Clock;

/// How many calls the script has.
const CALLS: u32 = 100_000;
/// How many of them each of its four threads has.
const SHARE: usize = 25_000;

/// The script; nothing where memory ran out.
fn made(alloc: Global) -> Result<Option<Script>, AllocError> {
    let text = make_script(alloc, CALLS)?;
    Ok(parse(alloc, text.as_slice()).ok())
}

/// How many tables of each class the script has.
fn tables_of(alloc: Global, script: &ScriptParts) -> Result<Vec<u32>, AllocError> {
    let mut tables = Vec::new(alloc);
    for count in script.tables.as_slice() {
        tables.push(*count)?;
    }
    Ok(tables)
}

/// The shape of the script's bank: a script that is made has a dict, a list and a set, four threads and no strings.
fn shape_of(alloc: Global, script: &ScriptParts) -> Result<Shape, AllocError> {
    Ok(Shape {
        kinds: vec![in alloc; Kind::Dict, Kind::List, Kind::Set]?,
        texts: Vec::new(alloc),
        tables: tables_of(alloc, script)?,
        heap: script.heap,
        passes: 4,
        calls: CALLS,
    })
}

/// Each caller goes online.
fn enter_all(
    alloc: Global,
    engine: &Engine,
    callers: Vec<Caller>,
) -> Result<Vec<Caller>, AllocError>
    requires { AreFreeCallers engine.now callers.items }
    ensures { IfOk result (λ ready. AreReadyCallers engine.now ready.items) }
{
    let mut ready = Vec::new(alloc);
    for caller in callers {
        let mut caller = caller;
        engine.enter(&mut caller);
        ready.push(caller)?;
    }
    Ok(ready)
}

/// The engine of a script, and a caller for each of its threads; nothing where memory ran out.
fn start(alloc: Global, script: &ScriptParts) -> Result<Option<(Engine, Vec<Caller>)>, AllocError>
    ensures { IfOk result (λ made. IfSome made (λ m. AreReadyCallers m.0 m.1.items)) }
{
    let shape = shape_of(alloc, script)?;
    if !shape.fits() {
        return Ok(None);
    }
    let Ok((engine, callers)) = Engine::new(alloc, shape, 0) else {
        return Ok(None);
    };
    let ready = enter_all(alloc, &engine, callers)?;
    Ok(Some((engine, ready)))
}

/// The call of a thread at this place, from 0 on.
fn call_at(script: &ScriptParts, thread: usize, place: usize) -> Option<Call> {
    let thread = script.threads.as_slice().get(thread)?;
    thread.calls.as_slice().get(place).copied()
}

/// A turn of a thread, to make this call. Answers how many calls were made.
fn turn<R: Wait>(
    rt: &R,
    engine: &Engine,
    alloc: Global,
    callers: &mut [Caller],
    thread: usize,
    call: &Call,
) -> u64
    requires { AreReadyCallers engine.now callers.old }
    ensures { AreReadyCallers engine.now callers.new }
{
    if thread >= callers.len() {
        return 0;
    }
    let reply = read(rt, engine, alloc, &mut callers[thread], call);
    u64::from(reply.is_some())
}

/// A turn of a thread, to make its call at this place. Answers how many calls were made.
fn turn_at<R: Wait>(
    rt: &R,
    engine: &Engine,
    alloc: Global,
    script: &ScriptParts,
    callers: &mut [Caller],
    thread: usize,
    place: usize,
) -> u64
    requires { AreReadyCallers engine.now callers.old }
    ensures { AreReadyCallers engine.now callers.new }
{
    let Some(call) = call_at(script, thread, place) else {
        return 0;
    };
    turn(rt, engine, alloc, callers, thread, &call)
}

/// A turn of each thread, to make its call at this place. Answers how many were made.
fn turns_at<R: Wait>(
    rt: &R,
    engine: &Engine,
    alloc: Global,
    script: &ScriptParts,
    callers: &mut [Caller],
    place: usize,
) -> u64
    requires { AreReadyCallers engine.now callers.old }
    ensures { AreReadyCallers engine.now callers.new }
{
    let mut made = 0u64;
    for thread in 0..4 {
        let more = turn_at(rt, engine, alloc, script, callers, thread, place);
        made = made.saturating_add(more);
    }
    made
}

/// All turns. Answers how many calls were made.
fn all_turns<R: Wait>(
    rt: &R,
    engine: &Engine,
    alloc: Global,
    script: &ScriptParts,
    callers: &mut [Caller],
) -> u64
    requires { AreReadyCallers engine.now callers.old }
{
    let mut made = 0u64;
    for place in 0..SHARE {
        let more = turns_at(rt, engine, alloc, script, callers, place);
        made = made.saturating_add(more);
    }
    made
}

/// The outcome with that of one more run; nothing where memory ran out.
fn run_once<R: Wait + Clock>(
    rt: &R,
    alloc: Global,
    script: &ScriptParts,
    before: Outcome,
) -> Result<Option<Outcome>, AllocError> {
    let Some((engine, mut callers)) = start(alloc, script)? else {
        return Ok(None);
    };
    let begun = now(rt);
    let made = all_turns(rt, &engine, alloc, script, callers.as_mut_slice());
    let missing = u64::from(CALLS).saturating_sub(made);
    Ok(Some(Outcome {
        made: before.made.saturating_add(made),
        wrong: before.wrong.saturating_add(missing),
        nanos: before.nanos.saturating_add(since(rt, begun)),
        ..before
    }))
}

/// What comes of runs of the script that take that many nanoseconds together; nothing where memory ran out.
pub(crate) fn run_script<R: Wait + Clock>(
    rt: &R,
    alloc: Global,
    nanos: u64,
) -> Result<Option<Outcome>, AllocError> {
    let Some(script) = made(alloc)? else {
        return Ok(None);
    };
    let mut outcome = Outcome::nothing();
    for _ in rt.forever() {
        let Some(after) = run_once(rt, alloc, script.parts(), outcome)? else {
            return Ok(None);
        };
        outcome = after;
        if outcome.nanos >= nanos {
            return Ok(Some(outcome));
        }
    }
    unreachable!()
}
