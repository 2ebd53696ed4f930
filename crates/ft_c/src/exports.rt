//! What C calls. Each export answers the number of a status, but for counts, which are 0 for a handle that isn't filled.
ghost use Rattle.std.specs.Prelude.{◌≢◌, All};
ghost use Rattle.ft_c.specs.Handles.{IsFilled, IsHandle};

use crate::decoding::{call_of, key_of, value_of};
use crate::handle::{FtHandle, FtHeld};
use crate::held::Held;
use crate::opening::{handle_of, open_sessions};
use crate::status::Status;
use crate::stepping::{copy_held, depth, enter, leave, left, step, step_value};
use crate::texting::{copy_text, number};
use crate::wire::{FtCall, FtDatum, FtReply, FtSizes};
use ft_model::{Call, DictCall};
use ft_texts::Texts;
use std::alloc::Global;

/// An engine of these sizes: as many sessions as there is room for handles, at most as many as the sizes say. A handle
/// that stood there before is forgotten.
#[unsafe(no_mangle)]
pub extern "C" fn ft_open(
    alloc: Global,
    sizes: &FtSizes,
    tables: &[u32],
    out: &mut [FtHandle],
) -> u32
    requires { All IsHandle out.old }
    ensures { All IsHandle out.new }
{
    open_sessions(alloc, sizes, tables, out).number()
}

/// New texts.
#[unsafe(no_mangle)]
pub extern "C" fn ft_texts_open(alloc: Global, out: &mut FtHandle) -> u32
    requires { IsHandle out.old }
    ensures { IsHandle out.new }
{
    match handle_of(alloc, Held::Texts(Texts::new(alloc))) {
        Ok(handle) => {
            *out = handle;
            Status::Done.number()
        }
        Err(_) => Status::NoMemory.number(),
    }
}

/// Gives back what a filled handle has; `filled` is what stands in the handle. A session goes offline before, so that it
/// keeps no table from being free. The words of an engine are freed with its last session.
#[unsafe(no_mangle)]
pub extern "C" fn ft_close(held: FtHeld, filled: u32) -> u32
    requires { filled ≢ 0 → IsFilled held }
{
    if filled == 0 {
        return Status::NoHandle.number();
    }
    let mut held = held.into_loose().into_box();
    leave(&mut held);
    Status::Done.number()
}

/// Goes online.
#[unsafe(no_mangle)]
pub extern "C" fn ft_enter(session: &mut FtHandle) -> u32
    requires { IsHandle session.old }
    ensures { IsHandle session.new }
{
    if session.filled == 0 {
        return Status::NoHandle.number();
    }
    enter(session.held.held()).number()
}

/// Goes offline.
#[unsafe(no_mangle)]
pub extern "C" fn ft_leave(session: &mut FtHandle) -> u32
    requires { IsHandle session.old }
    ensures { IsHandle session.new }
{
    if session.filled == 0 {
        return Status::NoHandle.number();
    }
    leave(session.held.held()).number()
}

/// How many calls are left.
#[unsafe(no_mangle)]
pub extern "C" fn ft_left(session: &mut FtHandle) -> u32
    requires { IsHandle session.old }
    ensures { IsHandle session.new }
{
    if session.filled == 0 {
        return 0;
    }
    left(session.held.held())
}

/// How many sections are open.
#[unsafe(no_mangle)]
pub extern "C" fn ft_depth(session: &mut FtHandle) -> u32
    requires { IsHandle session.old }
    ensures { IsHandle session.new }
{
    if session.filled == 0 {
        return 0;
    }
    depth(session.held.held())
}

/// One step of a call.
#[unsafe(no_mangle)]
pub extern "C" fn ft_step(
    alloc: Global,
    session: &mut FtHandle,
    call: &FtCall,
    reply: &mut FtReply,
) -> u32
    requires { IsHandle session.old }
    ensures { IsHandle session.new }
{
    if session.filled == 0 {
        return Status::NoHandle.number();
    }
    let Some(call) = call_of(call) else {
        return Status::NoCall.number();
    };
    step(alloc, session.held.held(), &call, reply).number()
}

/// Copies what the last reply with more than numbers has, as much as fits: keys of a dict or a set, values of a dict or
/// a list. It answers how many there are.
#[unsafe(no_mangle)]
pub extern "C" fn ft_items(
    session: &mut FtHandle,
    keys: &mut [FtDatum],
    values: &mut [FtDatum],
) -> u64
    requires { IsHandle session.old }
    ensures { IsHandle session.new }
{
    if session.filled == 0 {
        return 0;
    }
    copy_held(session.held.held(), keys, values)
}

/// One step of a `get` of a dict: for speed, since nothing but the value is copied.
#[unsafe(no_mangle)]
pub extern "C" fn ft_dict_get(
    alloc: Global,
    session: &mut FtHandle,
    dict: u32,
    key: FtDatum,
    value: &mut FtDatum,
) -> u32
    requires { IsHandle session.old }
    ensures { IsHandle session.new }
{
    if session.filled == 0 {
        return Status::NoHandle.number();
    }
    let Some(key) = key_of(key) else {
        return Status::NoCall.number();
    };
    let call = Call::Dict {
        container: dict,
        call: DictCall::Get { key },
    };
    step_value(alloc, session.held.held(), &call, value).number()
}

/// One step of a `set` of a dict, for speed.
#[unsafe(no_mangle)]
pub extern "C" fn ft_dict_set(
    alloc: Global,
    session: &mut FtHandle,
    dict: u32,
    key: FtDatum,
    value: FtDatum,
) -> u32
    requires { IsHandle session.old }
    ensures { IsHandle session.new }
{
    if session.filled == 0 {
        return Status::NoHandle.number();
    }
    let (Some(key), Some(value)) = (key_of(key), value_of(value)) else {
        return Status::NoCall.number();
    };
    let call = Call::Dict {
        container: dict,
        call: DictCall::Set { key, value },
    };
    let mut none = FtDatum {
        kind: 0,
        pad: 0,
        value: 0,
    };
    step_value(alloc, session.held.held(), &call, &mut none).number()
}

/// The number of a text.
#[unsafe(no_mangle)]
pub extern "C" fn ft_text_number(texts: &mut FtHandle, text: &[u8], found: &mut u32) -> u32
    requires { IsHandle texts.old }
    ensures { IsHandle texts.new }
{
    if texts.filled == 0 {
        return Status::NoHandle.number();
    }
    number(texts.held.held(), text, found).number()
}

/// Copies the bytes of a text, as many as fit, and says how many it has.
#[unsafe(no_mangle)]
pub extern "C" fn ft_text_bytes(
    texts: &mut FtHandle,
    number: u32,
    bytes: &mut [u8],
    length: &mut u64,
) -> u32
    requires { IsHandle texts.old }
    ensures { IsHandle texts.new }
{
    if texts.filled == 0 {
        return Status::NoHandle.number();
    }
    copy_text(texts.held.held(), number, bytes, length).number()
}
