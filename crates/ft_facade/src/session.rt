//! A session, its making, and how it goes online and offline.
ghost use Rattle.std.specs.Prelude.{◌≡◌, ℕ, false, IfErr, IfOk, length, All};
ghost use Rattle.std.specs.Arc.{arc_value};
ghost use Rattle.ft_bank.specs.Shapes.{plan, IsShape};
ghost use Rattle.ft_engine.specs.Callers.{AreFreshCallers, IsFreshCaller};
ghost use Rattle.ft_facade.specs.declared.session.OpenFault.TheVariants as fault;
ghost use Rattle.ft_facade.specs.Sessions.{AreFreshSessions, AreOpened, IsFreshSession, IsSession, StaysInPlace, caller_of, engine_of, is_online};

use ft_bank::{MakeFault, Shape};
use ft_engine::{Caller, Engine};
use std::alloc::{AllocError, Global};
use std::sync::Arc;

/// A caller with its engine. It may go to another thread, and makes one call at a time.
#[derive(Drop)]
pub struct Session {
    pub(crate) engine: Arc<Engine, Global>,
    pub(crate) caller: Caller,
    pub(crate) is_online: bool,
}

/// Why no sessions were made.
#[derive(Clone, Copy, Debug, PartialEq, Eq)]
pub enum OpenFault {
    /// The sizes don't keep the limits of an engine.
    Sizes,
    /// Out of memory.
    Memory,
}

impl From<AllocError> for OpenFault {
    ghost from_gives = { λ _ given. given ≡ fault.Memory };

    fn from(_fault: AllocError) -> OpenFault {
        OpenFault::Memory
    }
}

impl From<MakeFault> for OpenFault {
    ghost from_gives = { λ _ given. given ≡ fault.Memory };

    fn from(_fault: MakeFault) -> OpenFault {
        OpenFault::Memory
    }
}

/// An engine of this shape, and a session for each of its passes, in the order of their threads, each with room for
/// that many cursors. They are offline, and have made no call.
///
/// # Errors
///
/// `Sizes` where the shape doesn't keep the limits of a bank; `Memory`.
pub fn open(alloc: Global, shape: Shape, cursors: u32) -> Result<Vec<Session>, OpenFault>
    ensures sessions { IfOk result (λ sessions. All IsSession sessions.items) }
    ensures opened { IfOk result (λ sessions. AreOpened (plan shape) cursors sessions.items) }
    ensures count { IfOk result (λ sessions. length sessions.items ≡ shape.passes) }
    ensures cause { IfErr result (λ why. why ≡ fault.Sizes → IsShape shape → ⊥) }
{
    if !shape.fits() {
        return Err(OpenFault::Sizes);
    }
    let (engine, callers) = Engine::new(alloc, shape, cursors)?;
    let Ok(engine) = Arc::new(alloc, engine) else {
        return Err(OpenFault::Memory);
    };
    let sessions = sessions_of(alloc, &engine, callers)?;
    Ok(sessions)
}

/// A session for each of these callers; new ones where the callers are.
fn sessions_of(
    alloc: Global,
    engine: &Arc<Engine, Global>,
    callers: Vec<Caller>,
) -> Result<Vec<Session>, AllocError>
    ensures fresh { IfOk result (λ sessions. (room : ℕ) → AreFreshCallers (arc_value engine.now) room 0 callers.items →
        AreFreshSessions (arc_value engine.now) room 0 sessions.items) }
    ensures count { IfOk result (λ sessions. length sessions.items ≡ length callers.items) }
{
    let mut sessions = Vec::with_capacity(alloc, callers.len())?;
    for caller in callers {
        let session = session_of(engine, caller)?;
        sessions.push(session)?;
    }
    Ok(sessions)
}

/// The session of a caller.
fn session_of(engine: &Arc<Engine, Global>, caller: Caller) -> Result<Session, AllocError>
    ensures engine { IfOk result (λ session. engine_of session ≡ arc_value engine.now) }
    ensures caller { IfOk result (λ session. caller_of session ≡ caller) }
    ensures offline { IfOk result (λ session. is_online session ≡ false) }
{
    Ok(Session {
        engine: Arc::try_clone(engine)?,
        caller,
        is_online: false,
    })
}

impl Session {
    ghost use Rattle.std.specs.Prelude.{true, List, []};
    ghost use Rattle.ft_model.specs.declared.entry.Entry.{Entry};
    ghost use Rattle.ft_bank.specs.PassSections.{stack_of};
    ghost use Rattle.ft_engine.specs.Callers.{IsIdle, left_of, pass_of, thread_of};
    ghost use Rattle.ft_engine.specs.DoneCallers.{IsCallerDone};
    ghost use Rattle.ft_engine.specs.Keeping.{WasAnswered};

    /// The thread of the session, from 0 on.
    pub fn thread(&self) -> u32
        ensures { result ≡ thread_of (caller_of self.now) }
    {
        self.caller.thread()
    }

    /// How many calls it may still make.
    pub fn left(&self) -> u32
        ensures { result ≡ left_of (caller_of self.now) }
    {
        self.caller.left()
    }

    /// How many sections it has open, at most 16 (C API, critical sections).
    pub fn depth(&self) -> u32
        ensures { result ≡ length (stack_of (pass_of (caller_of self.now))).sections }
    {
        self.caller.depth()
    }

    /// Whether it may make calls.
    pub fn is_online(&self) -> bool
        ensures { result ≡ is_online self.now }
    {
        self.is_online
    }

    /// Goes online, where it isn't. From then on no table that another session retires is free again before this one
    /// has passed a quiescent point, so whoever blocks leaves first.
    pub fn enter(&mut self)
        requires { IsSession self.old }
        ensures session { IsSession self.new }
        ensures online { is_online self.new ≡ true }
        ensures engine { engine_of self.new ≡ engine_of self.old }
        ensures place { StaysInPlace (caller_of self.old) (caller_of self.new) }
        ensures kept { (mine : List Entry) → WasAnswered (caller_of self.old) mine → WasAnswered (caller_of self.new) mine }
    {
        if self.is_online {
            return;
        }
        self.engine.enter(&mut self.caller);
        self.is_online = true;
    }

    /// Goes offline, where it isn't: gives up the call in flight, and ends every open section without an entry.
    pub fn leave(&mut self)
        requires { IsSession self.old }
        ensures session { IsSession self.new }
        ensures offline { is_online self.new ≡ false }
        ensures engine { engine_of self.new ≡ engine_of self.old }
        ensures place { StaysInPlace (caller_of self.old) (caller_of self.new) }
        ensures done { is_online self.old ≡ true → IsCallerDone (caller_of self.new) }
        ensures kept { (mine : List Entry) → IsIdle (caller_of self.old) → (stack_of (pass_of (caller_of self.old))).sections ≡ [] →
            WasAnswered (caller_of self.old) mine → WasAnswered (caller_of self.new) mine }
    {
        if !self.is_online {
            return;
        }
        self.engine.abandon(&mut self.caller);
        self.engine.leave(&mut self.caller);
        self.is_online = false;
    }
}
