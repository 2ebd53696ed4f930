//! Steps of a session that is held.
ghost use Rattle.ft_facade.specs.Sessions.{IsSession};
ghost use Rattle.ft_c.specs.Handles.{IsKept};

use crate::encoding::{key_datum, reply_of, value_datum};
use crate::held::Held;
use crate::status::Status;
use crate::wire::{FtDatum, FtReply};
use ft_facade::{Session, Stepped};
use ft_model::{Call, Reply};
use std::alloc::Global;

/// Keeps a reply that has more than numbers.
fn keep(last: &mut Reply, reply: Reply) {
    match reply {
        Reply::Dict(_) | Reply::List(_) | Reply::Set(_) => *last = reply,
        _ => {}
    }
}

/// One step of a call of a session.
#[inline(always)]
fn step_session(
    alloc: Global,
    session: &mut Session,
    last: &mut Reply,
    call: &Call,
    reply: &mut FtReply,
) -> Status
    requires { IsSession session.old }
    ensures { IsSession session.new }
{
    match session.step(alloc, call) {
        Stepped::Done(answer, stamp, waited) => {
            *reply = reply_of(&answer, stamp, waited);
            keep(last, answer);
            Status::Done
        }
        Stepped::Again => Status::Again,
        Stepped::NoMemory => Status::NoMemory,
        Stepped::Refused(cause) => Status::from(cause),
        Stepped::Offline => Status::Offline,
    }
}

/// One step of a call, where a session is held.
#[inline(always)]
pub(crate) fn step(alloc: Global, held: &mut Held, call: &Call, reply: &mut FtReply) -> Status
    requires { IsKept held.old }
    ensures { IsKept held.new }
{
    match held {
        Held::Session(session, last) => step_session(alloc, session, last, call, reply),
        Held::Texts(_) => Status::NoHandle,
    }
}

/// One step of a call that answers a value or nothing, where a session is held. The value goes to `value`.
#[inline(always)]
pub(crate) fn step_value(alloc: Global, held: &mut Held, call: &Call, value: &mut FtDatum) -> Status
    requires { IsKept held.old }
    ensures { IsKept held.new }
{
    let Held::Session(session, _) = held else {
        return Status::NoHandle;
    };
    match session.step(alloc, call) {
        Stepped::Done(Reply::Value(found), _, _) => {
            *value = value_datum(found);
            Status::Done
        }
        Stepped::Done(Reply::Done, _, _) => Status::Done,
        Stepped::Done(_, _, _) => Status::Raised,
        Stepped::Again => Status::Again,
        Stepped::NoMemory => Status::NoMemory,
        Stepped::Refused(cause) => Status::from(cause),
        Stepped::Offline => Status::Offline,
    }
}

/// Goes online, where a session is held.
pub(crate) fn enter(held: &mut Held) -> Status
    requires { IsKept held.old }
    ensures { IsKept held.new }
{
    match held {
        Held::Session(session, _) => {
            session.enter();
            Status::Done
        }
        Held::Texts(_) => Status::NoHandle,
    }
}

/// Goes offline, where a session is held.
pub(crate) fn leave(held: &mut Held) -> Status
    requires { IsKept held.old }
    ensures { IsKept held.new }
{
    match held {
        Held::Session(session, _) => {
            session.leave();
            Status::Done
        }
        Held::Texts(_) => Status::NoHandle,
    }
}

/// How many calls a session that is held may still make.
pub(crate) fn left(held: &Held) -> u32 {
    match held {
        Held::Session(session, _) => session.left(),
        Held::Texts(_) => 0,
    }
}

/// How many sections a session that is held has open.
pub(crate) fn depth(held: &Held) -> u32 {
    match held {
        Held::Session(session, _) => session.depth(),
        Held::Texts(_) => 0,
    }
}

/// Copies keys or items, as many as fit; the count of all.
fn copy_data(from: &Reply, keys: &mut [FtDatum], values: &mut [FtDatum]) -> u64 {
    match from {
        Reply::Dict(pairs) => {
            for (slot, pair) in keys.iter_mut().zip(pairs.as_slice()) {
                *slot = key_datum(pair.0);
            }
            for (slot, pair) in values.iter_mut().zip(pairs.as_slice()) {
                *slot = value_datum(pair.1);
            }
            pairs.len() as u64
        }
        Reply::List(items) => {
            for (slot, item) in values.iter_mut().zip(items.as_slice()) {
                *slot = value_datum(*item);
            }
            items.len() as u64
        }
        Reply::Set(elements) => {
            for (slot, key) in keys.iter_mut().zip(elements.as_slice()) {
                *slot = key_datum(*key);
            }
            elements.len() as u64
        }
        _ => 0,
    }
}

/// The same of the last reply of a session that is held.
pub(crate) fn copy_held(held: &Held, keys: &mut [FtDatum], values: &mut [FtDatum]) -> u64 {
    match held {
        Held::Session(_, last) => copy_data(last, keys, values),
        Held::Texts(_) => 0,
    }
}
