//! An engine from plain numbers.
ghost use Rattle.std.specs.Prelude.{All, IfOk};
ghost use Rattle.ft_facade.specs.Sessions.{IsSession};
ghost use Rattle.ft_c.specs.Handles.{IsHandle, IsKept};

use crate::handle::{FtHandle, FtHeld};
use crate::held::Held;
use crate::status::Status;
use crate::wire::FtSizes;
use ft_facade::{OpenFault, Session, Sizes, open};
use ft_loose::Loose;
use ft_model::Reply;
use std::alloc::{AllocError, Global};

/// A handle of what is held.
pub(crate) fn handle_of(alloc: Global, held: Held) -> Result<FtHandle, AllocError>
    requires { IsKept held }
    ensures { IfOk result (λ handle. IsHandle handle) }
{
    let held = Box::new(alloc, held)?;
    Ok(FtHandle {
        held: FtHeld::of(Loose::of(held)),
        filled: 1,
        pad: 0,
    })
}

/// The sessions of a new engine.
fn sessions(alloc: Global, sizes: &FtSizes, tables: &[u32]) -> Result<Vec<Session>, OpenFault>
    ensures { IfOk result (λ sessions. All IsSession sessions.items) }
{
    let sizes = Sizes {
        dicts: sizes.dicts,
        lists: sizes.lists,
        sets: sizes.sets,
        threads: sizes.sessions,
        calls: sizes.calls,
        cursors: sizes.cursors,
        texts: sizes.texts,
        heap: sizes.heap,
        tables: tables.to_vec(alloc)?,
    };
    let cursors = sizes.cursors;
    let shape = sizes.into_shape(alloc)?;
    open(alloc, shape, cursors)
}

/// Puts the sessions behind handles, as many as there is room for.
fn hand_out(alloc: Global, sessions: Vec<Session>, out: &mut [FtHandle]) -> Result<(), AllocError>
    requires sessions { All IsSession sessions.items }
    requires handles { All IsHandle out.old }
    ensures { All IsHandle out.new }
{
    let mut place = 0;
    for session in sessions {
        if place < out.len() {
            out[place] = handle_of(alloc, Held::Session(session, Reply::Done))?;
            place += 1;
        }
    }
    Ok(())
}

/// Opens an engine, and puts its sessions behind handles, as many as there is room for.
pub(crate) fn open_sessions(
    alloc: Global,
    sizes: &FtSizes,
    tables: &[u32],
    out: &mut [FtHandle],
) -> Status
    requires { All IsHandle out.old }
    ensures { All IsHandle out.new }
{
    match sessions(alloc, sizes, tables) {
        Ok(sessions) => match hand_out(alloc, sessions, out) {
            Ok(()) => Status::Done,
            Err(_) => Status::NoMemory,
        },
        Err(fault) => Status::from(fault),
    }
}
