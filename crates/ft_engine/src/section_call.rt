//! Tries of the calls of sections, and of `quiesce`.
ghost use Rattle.std.specs.Prelude.{◌<◌, length, Option, List};
ghost use Rattle.ft_model.specs.declared.cursor.Cursor.{Cursor};
ghost use Rattle.ft_model.specs.declared.call.Call.TheVariants as call;
ghost use Rattle.ft_bank.specs.Passes.{shape_of, view};
ghost use Rattle.ft_bank.specs.PassSections.{stack_of};
ghost use Rattle.ft_section.specs.Ready.{IsReady, MayTry};
ghost use Rattle.ft_section.specs.LockTakings.{AreIn};
ghost use Rattle.ft_engine.specs.Answering.{IsTryOfCall};
ghost use Rattle.ft_table_calls.specs.TriesUnderLocks.{objects_by};

use ft_bank::{Bank, Pass};
use ft_boxes::merge_idle;
use ft_model::{Call, Reply};
use ft_section::{Began, Ended, Object, Stamp, Step};
use ft_table_calls::named_objects;

/// `begin`: the locks of the section's containers are taken (C API, critical sections).
pub(crate) fn begin(bank: &Bank, pass: &mut Pass, first: Object, second: Option<Object>) -> Step
    requires may { MayTry bank.now pass.old (objects_by first second) }
    requires containers { AreIn (shape_of bank.now) (objects_by first second) }
    requires depth { length (stack_of pass.old).sections < 16 }
    requires left { 0 < (view pass.old).left }
    ensures { (hands : List (Option Cursor)) → IsTryOfCall bank.now hands (call.Begin first second) pass.old pass.new result }
{
    match ft_section::try_begin(bank, pass, named_objects(first, second)) {
        Began::Entered(stamp) => Step::Done(Reply::Entered, stamp),
        Began::NotYet(object, owner) => Step::NotYet(object, owner),
    }
}

/// `end`: it answers first, and then lets go of the locks that the section took (C API, critical sections).
pub(crate) fn end(bank: &Bank, pass: &mut Pass) -> Step
    requires ready { IsReady bank.now pass.old }
    requires depth { 0 < length (stack_of pass.old).sections }
    requires left { 0 < (view pass.old).left }
    ensures { (hands : List (Option Cursor)) → IsTryOfCall bank.now hands call.End pass.old pass.new result }
{
    match ft_section::end(bank, pass) {
        Ended::Kept(stamp) => Step::Done(Reply::Kept, stamp),
        Ended::Suspended(count, stamp) => Step::Done(Reply::Suspended(count), stamp),
    }
}

/// `quiesce`: the caller merges each of its boxes whose counts add up to 0, so that its place is free again (PEP 703, Biased
/// Reference Counting). Then it holds on to no table that it has read before, and what it retired is given back where all
/// others hold on to nothing older (PEP 703, QSBR).
pub(crate) fn quiesce(bank: &Bank, pass: &mut Pass) -> Step
    requires ready { IsReady bank.now pass.old }
    requires left { 0 < (view pass.old).left }
    ensures { (hands : List (Option Cursor)) → IsTryOfCall bank.now hands call.Quiesce pass.old pass.new result }
{
    merge_idle(bank, pass);
    ft_qsbr::quiesce(bank, pass);
    let number = bank.stamp(pass);
    bank.answer(pass, &Call::Quiesce, &Reply::Done, number);
    Step::Done(
        Reply::Done,
        Stamp {
            number,
            wrote: false,
        },
    )
}
