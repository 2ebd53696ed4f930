//! One try of a call on containers of whatever kind: a look comes first, where the call may be made so (PEP 703,
//! Optimistically avoiding locking), and then the call under its locks.
ghost use Rattle.std.specs.Prelude.{◌≡◌, ◌<◌, List, [], Option, Some, None};
ghost use Rattle.ft_model.specs.declared.cursor.Cursor.{Cursor};
ghost use Rattle.ft_model.specs.Calls.{moved_cursor};
ghost use Rattle.ft_trace.specs.Acts.{announces};
ghost use Rattle.ft_bank.specs.Passes.{shape_of, view};
ghost use Rattle.ft_section.specs.declared.answers.Objects.{Objects};
ghost use Rattle.ft_section.specs.Ready.{MayTry};
ghost use Rattle.ft_engine.specs.Answering.{AreHandsOfPass, HasLooked, IsTryOfCall};
ghost use Rattle.ft_engine.specs.Asked.{IsCallIn, IsOnContainers};
ghost use Rattle.ft_engine.specs.Flights.{objects_of};

use crate::dict_call::try_dict;
use crate::list_call::try_list;
use crate::looks::look_call;
use crate::set_call::try_set_call;
use crate::settling::settle;
use ft_bank::{Bank, Pass};
use ft_model::Call;
use ft_section::Step;
use std::alloc::Global;

/// A call under the locks of its containers, by their kind.
#[inline(always)]
pub(crate) fn try_locked(bank: &Bank, pass: &mut Pass, alloc: Global, call: &Call) -> Step
    requires may { (objects : Objects) → objects_of [] call.now ≡ Some objects → MayTry bank.now pass.old objects }
    requires containers { IsOnContainers call.now }
    requires names { (hands : List (Option Cursor)) × IsCallIn (shape_of bank.now) hands call.now }
    requires no_cursor { moved_cursor call.now ≡ None }
    requires left { 0 < (view pass.old).left }
    ensures { (hands : List (Option Cursor)) → IsTryOfCall bank.now hands call.now pass.old pass.new result }
{
    match call {
        Call::Dict {
            container,
            call: asked,
        } => { try_dict(bank, pass, alloc, *container, asked, call) }
        Call::List {
            container,
            call: asked,
        } => { try_list(bank, pass, alloc, *container, asked, call) }
        Call::Set {
            container,
            call: asked,
        } => { try_set_call(bank, pass, alloc, *container, asked, call) }
        Call::Next { .. } => unreachable!(),
        Call::Begin { .. } => unreachable!(),
        Call::End => unreachable!(),
        Call::Quiesce => unreachable!(),
        Call::Deque { .. } | Call::Await { .. } | Call::Dump => unreachable!(),
    }
}

/// One try of a call on containers that makes no cursor.
#[inline(always)]
pub(crate) fn call_container(bank: &Bank, pass: &mut Pass, alloc: Global, call: &Call) -> Step
    requires may { (objects : Objects) → objects_of [] call.now ≡ Some objects → MayTry bank.now pass.old objects }
    requires containers { IsOnContainers call.now }
    requires names { (hands : List (Option Cursor)) × IsCallIn (shape_of bank.now) hands call.now }
    requires no_cursor { moved_cursor call.now ≡ None }
    requires online { 0 < announces (view pass.old).log }
    requires left { 0 < (view pass.old).left }
    ensures tried { (hands : List (Option Cursor)) → IsTryOfCall bank.now hands call.now pass.old pass.new result }
    ensures looked { HasLooked call.now (view pass.old) (view pass.new) result }
    ensures hands { (hands : List (Option Cursor)) → AreHandsOfPass (shape_of bank.now) (view pass.old) hands
        → AreHandsOfPass (shape_of bank.now) (view pass.new) hands }
{
    let look = look_call(bank, pass, alloc, call);
    match settle(bank, pass, look) {
        Some(step) => step,
        None => try_locked(bank, pass, alloc, call),
    }
}
