//! How a program uses the library: two threads raise ten counts in one dict, each raise in a critical section, so that no
//! raise is lost; then the counts are written.
#![tactic(auto)]

ghost use Rattle.std.specs.Prelude.{All, IfOk};
ghost use Rattle.ft_facade.specs.Sessions.{AreSessions, IsSession};

use ft_facade::{OpenFault, Session, Sizes, Stepped, open};
use ft_model::{Call, DictCall, Key, Reply, Value};
use std::alloc::Global;
use std::sync::Wait;
use std::thread::Threads;
use std::{io, thread};

/// How many threads there are.
const THREADS: u32 = 2;
/// How many raises each makes.
const RAISES: u32 = 1000;
/// How many counts there are.
const COUNTS: u32 = 10;

/// The sessions of an engine with one dict, a table of each class, and a session for each thread.
fn sessions(alloc: Global) -> Result<Vec<Session>, OpenFault>
    ensures { IfOk result (λ sessions. All IsSession sessions.items) }
{
    let sizes = Sizes {
        dicts: 1,
        lists: 0,
        sets: 0,
        threads: THREADS,
        calls: u32::MAX,
        cursors: 0,
        texts: 0,
        heap: 64,
        tables: Vec::from_elem(alloc, 2, 14)?,
    };
    let shape = sizes.into_shape(alloc)?;
    open(alloc, shape, 0)
}

/// A call on the dict.
fn on_dict(call: DictCall) -> Call {
    Call::Dict { container: 0, call }
}

/// What a call replies, if it could be made.
fn reply<R: Wait>(rt: &R, alloc: Global, session: &mut Session, call: &Call) -> Option<Reply>
    requires { IsSession session.old }
    ensures { IsSession session.new }
{
    match session.call(rt, alloc, call) {
        Stepped::Done(reply, _, _) => Some(reply),
        _ => None,
    }
}

/// The count at a key; 0 where there is none.
fn count<R: Wait>(rt: &R, alloc: Global, session: &mut Session, key: Key) -> i64
    requires { IsSession session.old }
    ensures { IsSession session.new }
{
    let call = on_dict(DictCall::GetOr {
        key,
        default: Value::Int(0),
    });
    match reply(rt, alloc, session, &call) {
        Some(Reply::Value(Value::Int(count))) => count,
        _ => 0,
    }
}

/// Raises the count at a key, in a critical section: no other thread's write comes between.
fn raise<R: Wait>(rt: &R, alloc: Global, session: &mut Session, key: Key)
    requires { IsSession session.old }
    ensures { IsSession session.new }
{
    let begin = Call::Begin {
        first: 0,
        second: None,
    };
    reply(rt, alloc, session, &begin);
    let raised = count(rt, alloc, session, key).saturating_add(1);
    let set = on_dict(DictCall::Set {
        key,
        value: Value::Int(raised),
    });
    reply(rt, alloc, session, &set);
    reply(rt, alloc, session, &Call::End);
}

/// The work of a thread.
fn work<R: Wait>(rt: &R, alloc: Global, session: &mut Session)
    requires { IsSession session.old }
    ensures { IsSession session.new }
{
    session.enter();
    for n in 0..RAISES {
        raise(rt, alloc, session, Key::Int(i64::from(n % COUNTS)));
    }
    session.leave();
}

/// Each session works in a thread of its own.
fn work_all<R: Threads + Wait + Sync>(rt: &R, alloc: Global, sessions: &mut [Session])
    requires { AreSessions sessions.old }
    ensures { AreSessions sessions.new }
{
    let threads = sessions.len();
    if threads == 0 {
        return;
    }
    let each = |_thread: usize, session: &mut Session|
        requires { IsSession session.now }
        ensures { IsSession session.exit.now }
    { work(rt, alloc, session) };
    thread::for_each_mut(rt, sessions, threads, &each);
}

fn main(rt: HostRuntime) -> io::Result<()> {
    let Ok(mut sessions) = sessions(rt.alloc()) else {
        return println!(rt; "no memory");
    };
    work_all(&rt, rt.alloc(), sessions.as_mut_slice());
    let Some(session) = sessions.as_mut_slice().first_mut() else {
        return Ok(());
    };
    session.enter();
    for key in 0..COUNTS {
        let count = count(&rt, rt.alloc(), session, Key::Int(i64::from(key)));
        println!(rt; "{key}: {count}")?;
    }
    Ok(())
}
