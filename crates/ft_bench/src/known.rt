//! Operations by the methods for calls that are known where they are made: a function for each kind.
ghost use Rattle.std.specs.Prelude.{ℕ};
ghost use Rattle.ft_model.specs.declared.call.Call.{Call as AskedCall};
ghost use Rattle.ft_engine.specs.declared.caller.Caller.{Caller as ACaller};
ghost use Rattle.ft_engine.specs.MadeCalls.{IsCallFor, IsLookFor};
ghost use Rattle.ft_bench.specs.Threads.{IsReadyCaller};

use crate::operation::{Operation, SHARED, key_of};
use crate::worker::Worker;
use ft_engine::{Called, Engine};
use ft_section::Look;
use std::alloc::Global;
use std::sync::Wait;

/// Counts the operation that a look has made. Says whether it was made.
#[inline(always)]
fn end_look(engine: &Engine, worker: &mut Worker, operation: Operation, look: &Look) -> bool
    requires { (called : AskedCall) × (before : ACaller) × IsReadyCaller engine.now before
        × IsLookFor engine.now called look.now before worker.old.caller }
    ensures { IsReadyCaller engine.now worker.new.caller }
{
    match look {
        Look::Done(reply, _) => {
            worker.tally.count_reply(operation, reply);
            true
        }
        Look::Contended(_, _) => false,
        Look::NoMemory => {
            engine.abandon(&mut worker.caller);
            false
        }
    }
}

/// Counts the operation that a call has made.
#[inline(always)]
fn end_call(engine: &Engine, worker: &mut Worker, operation: Operation, called: &Called)
    requires { (asked : AskedCall) × (before : ACaller) × IsReadyCaller engine.now before
        × IsCallFor engine.now asked called.now before worker.old.caller }
    ensures { IsReadyCaller engine.now worker.new.caller }
{
    match called {
        Called::Done(reply, _, _) => worker.tally.count_reply(operation, reply),
        Called::NoMemory => {
            engine.abandon(&mut worker.caller);
            worker.tally.count_none();
        }
    }
}

/// Gets the value at a key by a look. Says whether it was made.
#[inline(always)]
pub(crate) fn get(engine: &Engine, worker: &mut Worker, number: u32) -> bool
    requires { IsReadyCaller engine.now worker.old.caller }
    ensures { IsReadyCaller engine.now worker.new.caller }
{
    let key = key_of(number);
    if !engine.may_at_key(&worker.caller, SHARED, key) {
        return false;
    }
    let look = engine.dict_get(&mut worker.caller, SHARED, key);
    end_look(engine, worker, Operation::Get(number), &look)
}

/// Gets the item at an index by a look. Says whether it was made.
#[inline(always)]
pub(crate) fn item(engine: &Engine, worker: &mut Worker, index: u32) -> bool
    requires { IsReadyCaller engine.now worker.old.caller }
    ensures { IsReadyCaller engine.now worker.new.caller }
{
    if !engine.may_on_list(&worker.caller, SHARED) {
        return false;
    }
    let look = engine.list_get(&mut worker.caller, SHARED, i64::from(index));
    end_look(engine, worker, Operation::Item(index), &look)
}

/// Looks an element up. Says whether that was made.
#[inline(always)]
pub(crate) fn has(engine: &Engine, worker: &mut Worker, number: u32) -> bool
    requires { IsReadyCaller engine.now worker.old.caller }
    ensures { IsReadyCaller engine.now worker.new.caller }
{
    let key = key_of(number);
    if !engine.may_at_element(&worker.caller, SHARED, key) {
        return false;
    }
    let look = engine.set_has(&mut worker.caller, SHARED, key);
    end_look(engine, worker, Operation::Has(number), &look)
}

/// Sets the value at a key.
pub(crate) fn set<R: Wait>(rt: &R, engine: &Engine, alloc: Global, worker: &mut Worker, number: u32)
    requires { IsReadyCaller engine.now worker.old.caller }
    ensures { IsReadyCaller engine.now worker.new.caller }
{
    let key = key_of(number);
    if !engine.may_at_key(&worker.caller, SHARED, key) {
        return worker.tally.count_none();
    }
    let pair = (key, worker.tally.value_at(number));
    let called = engine.dict_set(rt, alloc, &mut worker.caller, SHARED, pair);
    end_call(engine, worker, Operation::Set(number), &called);
}

/// Appends an item.
pub(crate) fn append<R: Wait>(
    rt: &R,
    engine: &Engine,
    alloc: Global,
    worker: &mut Worker,
    number: u32,
)
    requires { IsReadyCaller engine.now worker.old.caller }
    ensures { IsReadyCaller engine.now worker.new.caller }
{
    if !engine.may_on_list(&worker.caller, SHARED) {
        return worker.tally.count_none();
    }
    let value = worker.tally.value_at(number);
    let called = engine.list_append(rt, alloc, &mut worker.caller, SHARED, value);
    end_call(engine, worker, Operation::Append(number), &called);
}

/// Adds an element.
pub(crate) fn add<R: Wait>(rt: &R, engine: &Engine, alloc: Global, worker: &mut Worker, number: u32)
    requires { IsReadyCaller engine.now worker.old.caller }
    ensures { IsReadyCaller engine.now worker.new.caller }
{
    let key = key_of(number);
    if !engine.may_at_element(&worker.caller, SHARED, key) {
        return worker.tally.count_none();
    }
    let called = engine.set_add(rt, alloc, &mut worker.caller, SHARED, key);
    end_call(engine, worker, Operation::Add(number), &called);
}

/// Discards an element.
pub(crate) fn discard<R: Wait>(
    rt: &R,
    engine: &Engine,
    alloc: Global,
    worker: &mut Worker,
    number: u32,
)
    requires { IsReadyCaller engine.now worker.old.caller }
    ensures { IsReadyCaller engine.now worker.new.caller }
{
    let key = key_of(number);
    if !engine.may_at_element(&worker.caller, SHARED, key) {
        return worker.tally.count_none();
    }
    let called = engine.set_discard(rt, alloc, &mut worker.caller, SHARED, key);
    end_call(engine, worker, Operation::Discard(number), &called);
}
