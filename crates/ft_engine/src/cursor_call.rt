//! Tries of `iter` and `next`: the caller's own cursors go with them.
ghost use Rattle.std.specs.Prelude.{◌≡◌, ◌<◌, length, is_some, true};
ghost use Rattle.ft_model.specs.declared.call.Call.TheVariants as call;
ghost use Rattle.ft_model.specs.Worlds.{cursor_at};
ghost use Rattle.ft_bank.specs.Passes.{shape_of, view};
ghost use Rattle.ft_iter.specs.CursorCalls.{iter_call};
ghost use Rattle.ft_section.specs.declared.answers.Objects.{Objects};
ghost use Rattle.ft_section.specs.declared.answers.Objects.TheVariants.{One};
ghost use Rattle.ft_section.specs.Ready.{MayTry};
ghost use Rattle.std.specs.Prelude.{Some};
ghost use Rattle.ft_engine.specs.Answering.{AreHandsOfPass, IsTryOfCall, LeavesHands};
ghost use Rattle.ft_engine.specs.Callers.{IsOfKindIn};
ghost use Rattle.ft_engine.specs.Flights.{objects_of};

use ft_bank::{Bank, Pass};
use ft_iter::{try_iter, try_next};
use ft_model::{Cursor, Kind};
use ft_section::{Object, Step};

/// `iter` on a container of a kind: the cursor takes the place of the one that the caller had under this number
/// (Python manual, Iterator Types).
pub(crate) fn iter(
    bank: &Bank,
    pass: &mut Pass,
    cursors: &mut Vec<Option<Cursor>>,
    o: Object,
    kind: Kind,
    number: u32,
) -> Step
    requires may { MayTry bank.now pass.old (One o) }
    requires container { IsOfKindIn (shape_of bank.now) kind o }
    requires room { number < length cursors.old.items }
    requires left { 0 < (view pass.old).left }
    requires hands { AreHandsOfPass (shape_of bank.now) (view pass.old) cursors.old.items }
    ensures tried { IsTryOfCall bank.now cursors.old.items (iter_call kind o number) pass.old pass.new result }
    ensures hands { AreHandsOfPass (shape_of bank.now) (view pass.new) cursors.new.items }
    ensures stays { LeavesHands result cursors.old.items cursors.new.items }
{
    let mut slot = cursors[number as usize];
    let step = try_iter(bank, pass, o, kind, number, &mut slot);
    cursors[number as usize] = slot;
    step
}

/// `next` of a cursor that the caller has made (Python manual, Iterator Types).
pub(crate) fn next(
    bank: &Bank,
    pass: &mut Pass,
    cursors: &mut Vec<Option<Cursor>>,
    number: u32,
) -> Step
    requires may { (objects : Objects) → objects_of cursors.old.items (call.Next number) ≡ Some objects → MayTry bank.now pass.old objects }
    requires room { number < length cursors.old.items }
    requires made { is_some (cursor_at cursors.old.items number) ≡ true }
    requires left { 0 < (view pass.old).left }
    requires hands { AreHandsOfPass (shape_of bank.now) (view pass.old) cursors.old.items }
    ensures tried { IsTryOfCall bank.now cursors.old.items (call.Next number) pass.old pass.new result }
    ensures hands { AreHandsOfPass (shape_of bank.now) (view pass.new) cursors.new.items }
    ensures stays { LeavesHands result cursors.old.items cursors.new.items }
{
    let Some(mut cursor) = cursors[number as usize] else {
        unreachable!();
    };
    let step = try_next(bank, pass, number, &mut cursor);
    cursors[number as usize] = Some(cursor);
    step
}
