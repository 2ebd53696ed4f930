//! Calls of a thread: a call that reads is looked first, and any other, or one that was contended, is called.
ghost use Rattle.ft_bench.specs.Threads.{IsReadyCaller};

use ft_engine::{Called, Caller, Engine};
use ft_model::{Call, Reply};
use ft_section::Look;
use std::alloc::Global;
use std::sync::Wait;

/// What a look answers, where the call may be made so and wasn't contended.
fn look(engine: &Engine, alloc: Global, caller: &mut Caller, call: &Call) -> Option<Reply>
    requires { IsReadyCaller engine.now caller.old }
    ensures { IsReadyCaller engine.now caller.new }
{
    if !engine.may_look(caller, call) {
        return None;
    }
    match engine.look(alloc, caller, call) {
        Look::Done(reply, _) => Some(reply),
        Look::Contended(_, _) => None,
        Look::NoMemory => {
            engine.abandon(caller);
            None
        }
    }
}

/// What a call answers that is known where it is made; nothing where it may not be made, or memory ran out.
#[inline(always)]
pub(crate) fn answer_known<R: Wait>(
    rt: &R,
    engine: &Engine,
    alloc: Global,
    caller: &mut Caller,
    call: &Call,
) -> Option<Reply>
    requires { IsReadyCaller engine.now caller.old }
    ensures { IsReadyCaller engine.now caller.new }
{
    if !engine.may_attempt(caller, call) {
        return None;
    }
    match engine.call(rt, alloc, caller, call) {
        Called::Done(reply, _, _) => Some(reply),
        Called::NoMemory => {
            engine.abandon(caller);
            None
        }
    }
}

/// What any call answers, the same.
#[inline(never)]
pub(crate) fn answer<R: Wait>(
    rt: &R,
    engine: &Engine,
    alloc: Global,
    caller: &mut Caller,
    call: &Call,
) -> Option<Reply>
    requires { IsReadyCaller engine.now caller.old }
    ensures { IsReadyCaller engine.now caller.new }
{
    answer_known(rt, engine, alloc, caller, call)
}

/// What a call that reads answers, by a look where that gives an answer; nothing where it may not be made, or memory
/// ran out.
pub(crate) fn read<R: Wait>(
    rt: &R,
    engine: &Engine,
    alloc: Global,
    caller: &mut Caller,
    call: &Call,
) -> Option<Reply>
    requires { IsReadyCaller engine.now caller.old }
    ensures { IsReadyCaller engine.now caller.new }
{
    match look(engine, alloc, caller, call) {
        Some(reply) => Some(reply),
        None => answer(rt, engine, alloc, caller, call),
    }
}

/// Makes these calls, one after the other. Says whether each was done.
pub(crate) fn are_done<R: Wait>(
    rt: &R,
    engine: &Engine,
    alloc: Global,
    caller: &mut Caller,
    calls: &[Call],
) -> bool
    requires { IsReadyCaller engine.now caller.old }
    ensures { IsReadyCaller engine.now caller.new }
{
    let mut done = true;
    for call in calls {
        let reply = answer(rt, engine, alloc, caller, call);
        done = done && matches!(reply, Some(Reply::Done));
    }
    done
}
