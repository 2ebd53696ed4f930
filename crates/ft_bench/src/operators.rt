//! Where the operations of a run make their calls: on each kind of container at places of their own, by the methods for
//! these calls, or all at one place.
ghost use Rattle.ft_bench.specs.Threads.{IsReadyCaller};

use crate::answers::answer_known;
use crate::known::{add, append, discard, get, has, item, set};
use crate::operation::Operation;
use crate::worker::Worker;
use ft_engine::Engine;
use ft_section::Look;
use std::alloc::Global;
use std::sync::Wait;

/// Makes operations for a thread.
pub(crate) trait Operator {
    ghost use Rattle.ft_bench.specs.Threads.{IsReadyCaller};

    /// Makes one operation, and counts it.
    fn make<R: Wait>(
        &self,
        rt: &R,
        engine: &Engine,
        alloc: Global,
        worker: &mut Worker,
        operation: Operation,
    )
        requires { IsReadyCaller engine.now worker.old.caller }
        ensures { IsReadyCaller engine.now worker.new.caller };
}

/// Makes operations on a dict: a get by a look, and by a call where that was contended.
#[derive(Clone, Copy)]
pub(crate) struct OnDict;

/// The same on a list.
#[derive(Clone, Copy)]
pub(crate) struct OnList;

/// The same on a set.
#[derive(Clone, Copy)]
pub(crate) struct OnSet;

/// Makes operations of all kinds at one place.
#[derive(Clone, Copy)]
pub(crate) struct AtOnePlace;

/// Looks, and counts the operation. Says whether it was made so.
#[inline(always)]
fn look(engine: &Engine, alloc: Global, worker: &mut Worker, operation: Operation) -> bool
    requires { IsReadyCaller engine.now worker.old.caller }
    ensures { IsReadyCaller engine.now worker.new.caller }
{
    let call = worker.tally.call_of(operation);
    if !engine.may_look(&worker.caller, &call) {
        return false;
    }
    match engine.look(alloc, &mut worker.caller, &call) {
        Look::Done(reply, _) => {
            worker.tally.count_reply(operation, &reply);
            true
        }
        Look::Contended(_, _) => false,
        Look::NoMemory => {
            engine.abandon(&mut worker.caller);
            false
        }
    }
}

/// Makes one operation by a call, and counts it.
#[inline(always)]
fn call<R: Wait>(rt: &R, engine: &Engine, alloc: Global, worker: &mut Worker, operation: Operation)
    requires { IsReadyCaller engine.now worker.old.caller }
    ensures { IsReadyCaller engine.now worker.new.caller }
{
    let call = worker.tally.call_of(operation);
    let reply = answer_known(rt, engine, alloc, &mut worker.caller, &call);
    worker.tally.count(operation, &reply);
}

/// Makes one operation, by a look where it reads and isn't contended, with all calls made at one place.
#[inline(never)]
fn make_shared<R: Wait>(
    rt: &R,
    engine: &Engine,
    alloc: Global,
    worker: &mut Worker,
    operation: Operation,
)
    requires { IsReadyCaller engine.now worker.old.caller }
    ensures { IsReadyCaller engine.now worker.new.caller }
{
    if !look(engine, alloc, worker, operation) {
        call(rt, engine, alloc, worker, operation);
    }
}

impl Operator for OnDict {
    #[inline(always)]
    fn make<R: Wait>(
        &self,
        rt: &R,
        engine: &Engine,
        alloc: Global,
        worker: &mut Worker,
        operation: Operation,
    ) {
        match operation {
            Operation::Get(number) => {
                if !get(engine, worker, number) {
                    make_shared(rt, engine, alloc, worker, operation);
                }
            }
            Operation::Set(number) => set(rt, engine, alloc, worker, number),
            _ => make_shared(rt, engine, alloc, worker, operation),
        }
    }
}

impl Operator for OnList {
    #[inline(always)]
    fn make<R: Wait>(
        &self,
        rt: &R,
        engine: &Engine,
        alloc: Global,
        worker: &mut Worker,
        operation: Operation,
    ) {
        match operation {
            Operation::Item(index) => {
                if !item(engine, worker, index) {
                    make_shared(rt, engine, alloc, worker, operation);
                }
            }
            Operation::Append(number) => append(rt, engine, alloc, worker, number),
            _ => make_shared(rt, engine, alloc, worker, operation),
        }
    }
}

impl Operator for OnSet {
    #[inline(always)]
    fn make<R: Wait>(
        &self,
        rt: &R,
        engine: &Engine,
        alloc: Global,
        worker: &mut Worker,
        operation: Operation,
    ) {
        match operation {
            Operation::Has(number) => {
                if !has(engine, worker, number) {
                    make_shared(rt, engine, alloc, worker, operation);
                }
            }
            Operation::Add(number) => add(rt, engine, alloc, worker, number),
            Operation::Discard(number) => discard(rt, engine, alloc, worker, number),
            _ => make_shared(rt, engine, alloc, worker, operation),
        }
    }
}

impl Operator for AtOnePlace {
    #[inline(always)]
    fn make<R: Wait>(
        &self,
        rt: &R,
        engine: &Engine,
        alloc: Global,
        worker: &mut Worker,
        operation: Operation,
    ) {
        make_shared(rt, engine, alloc, worker, operation);
    }
}
