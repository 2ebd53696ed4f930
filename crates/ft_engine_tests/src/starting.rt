//! The engine of a script, with a worker for each thread.
ghost use Rattle.std.specs.Prelude.{◌≡◌, IfOk, length};
ghost use Rattle.ft_engine_tests.specs.TestCallers.{AreWorkersOf};
ghost use Rattle.ft_engine.specs.Callers.{AreFreeCallers};

use crate::workers::Worker;
use ft_bank::Shape;
use ft_engine::{Caller, Engine};
use ft_hash::hash_text;
use ft_model::{Kind, ScriptParts};
use std::alloc::Global;
use std::str;
use std::test::Fail;

/// How many cursors each thread has room for.
const CURSORS: u32 = 4;

/// How many calls each thread may make.
const CALLS: u32 = 1_000;

/// The kinds of the script's containers.
fn kinds_of(alloc: Global, script: &ScriptParts) -> Result<Vec<Kind>, Fail> {
    let mut kinds = Vec::new(alloc);
    for declaration in script.containers.as_slice() {
        kinds.push(declaration.start.kind)?;
    }
    Ok(kinds)
}

/// The hashes of the script's strings.
fn texts_of(alloc: Global, script: &ScriptParts) -> Result<Vec<u64>, Fail> {
    let mut texts = Vec::new(alloc);
    for text in script.strings.as_slice() {
        let Ok(text) = str::from_utf8(text.as_slice()) else {
            return Err(Fail::from("strings are UTF-8"));
        };
        texts.push(hash_text(text))?;
    }
    Ok(texts)
}

/// How many tables of each class the script has.
fn tables_of(alloc: Global, script: &ScriptParts) -> Result<Vec<u32>, Fail> {
    let mut tables = Vec::new(alloc);
    for count in script.tables.as_slice() {
        tables.push(*count)?;
    }
    Ok(tables)
}

/// The shape of the script's bank.
fn shape_for(alloc: Global, script: &ScriptParts) -> Result<Shape, Fail>
    ensures { IfOk result (λ s. (s.passes ≡ length script.now.threads) × (s.heap ≡ script.now.heap) × (s.calls ≡ 1000)) }
{
    let Ok(passes) = u32::try_from(script.threads.len()) else {
        return Err(Fail::from("there are few threads"));
    };
    Ok(Shape {
        kinds: kinds_of(alloc, script)?,
        texts: texts_of(alloc, script)?,
        tables: tables_of(alloc, script)?,
        heap: script.heap,
        passes,
        calls: CALLS,
    })
}

/// Each caller goes online.
fn enter_all(alloc: Global, engine: &Engine, callers: Vec<Caller>) -> Result<Vec<Worker>, Fail>
    requires { AreFreeCallers engine.now callers.items }
    ensures { IfOk result (λ workers. AreWorkersOf engine.now workers.items) }
{
    let mut workers = Vec::new(alloc);
    for caller in callers {
        let mut caller = caller;
        engine.enter(&mut caller);
        workers.push(Worker {
            caller,
            entries: Vec::new(alloc),
            online: true,
        })?;
    }
    Ok(workers)
}

/// An engine of this shape, and a worker for each of its passes.
pub(crate) fn begin(alloc: Global, shape: Shape) -> Result<(Engine, Vec<Worker>), Fail>
    ensures { IfOk result (λ made. AreWorkersOf made.0 made.1.items) }
{
    if !shape.fits() {
        return Err(Fail::from("the shape fits"));
    }
    let Ok((engine, callers)) = Engine::new(alloc, shape, CURSORS) else {
        return Err(Fail::from("there is memory"));
    };
    let workers = enter_all(alloc, &engine, callers)?;
    Ok((engine, workers))
}

/// The engine of a script, and a worker for each of its threads.
pub(crate) fn start(alloc: Global, script: &ScriptParts) -> Result<(Engine, Vec<Worker>), Fail>
    ensures { IfOk result (λ made. AreWorkersOf made.0 made.1.items) }
{
    begin(alloc, shape_for(alloc, script)?)
}
