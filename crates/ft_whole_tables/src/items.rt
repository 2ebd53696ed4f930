//! All pairs of a dict or all elements of a set, copied under its lock and without it.
ghost use Rattle.std.specs.Prelude.{◌≡◌, ◌<◌, IfOk};
ghost use Rattle.ft_trace.specs.Addresses.{container_count};
ghost use Rattle.ft_trace.specs.ContainerStates.{kind_in};
ghost use Rattle.ft_bank.specs.Passes.{shape_of, view, IsPassOf};
ghost use Rattle.ft_bank.specs.PassSections.{stack_of};
ghost use Rattle.ft_search.specs.OneEntryWrites.{MayWriteEntries};
ghost use Rattle.ft_search.specs.Rounds.{kind_by};
ghost use Rattle.ft_reads.specs.Copies.{IsCopied};
ghost use Rattle.ft_reads.specs.Glances.{Saw, IsCopyGlanceOf};
ghost use Rattle.ft_whole_tables.specs.Items.{items_call, HasEntry, IsAllIn, IsItemsReply};

use crate::copies::copy_all;
use ft_bank::{Bank, Pass};
use ft_keys::Way;
use ft_model::{Call, DictCall, Reply, SetCall};
use ft_reads::Window;
use ft_search::{answer_look, answer_made};
use ft_section::{Look, Object, Stamp};
use std::alloc::{AllocError, Global};

/// The call that copies all that a dict or a set has.
fn copying_call(way: Way, container: Object) -> Call
    ensures { result ≡ items_call way container }
{
    match way {
        Way::Dict => Call::Dict {
            container,
            call: DictCall::Items,
        },
        Way::Set => Call::Set {
            container,
            call: SetCall::Items,
        },
    }
}

/// All that a dict or a set has, by a pass that has its lock. An `Err` says that memory ran out; the pass only loaded
/// words then.
pub fn items_locked(
    bank: &Bank,
    pass: &mut Pass,
    alloc: Global,
    way: Way,
    c: Object,
) -> Result<(Reply, Stamp), AllocError>
    requires pass { IsPassOf bank.now pass.old }
    requires may { MayWriteEntries (shape_of bank.now) c (view pass.old) }
    requires kind { kind_in (shape_of bank.now).starts c ≡ kind_by way }
    ensures pass { IsPassOf bank.now pass.new }
    ensures stack { stack_of pass.new ≡ stack_of pass.old }
    ensures copied { IsCopied (items_call way c) (view pass.old) (view pass.new) result }
{
    let said = copy_all(bank, pass, alloc, way, c)?;
    let called = copying_call(way, c);
    Ok(answer_made(bank, pass, &called, said))
}

/// Copies all that a dict or a set has, and loads the counter, between two loads of its version.
fn copy_between(
    bank: &Bank,
    pass: &mut Pass,
    alloc: Global,
    way: Way,
    c: Object,
) -> (Result<Reply, AllocError>, Window)
    requires pass { IsPassOf bank.now pass.old }
    requires container { c < container_count (shape_of bank.now) }
    requires kind { kind_in (shape_of bank.now).starts c ≡ kind_by way }
    ensures pass { IsPassOf bank.now pass.new }
    ensures stack { stack_of pass.new ≡ stack_of pass.old }
    ensures of_kind { IfOk result.0 (IsItemsReply way) }
    ensures saw { Saw (shape_of bank.now) c (IsAllIn way (shape_of bank.now) result.0) result.1 pass.old pass.new }
{
    let opened = bank.seq(pass, c);
    let copy = copy_all(bank, pass, alloc, way, c);
    let number = bank.stamp(pass);
    let closed = bank.seq(pass, c);
    (
        copy,
        Window {
            opened,
            number,
            closed,
        },
    )
}

/// All pairs of a dict or all elements of a set without its lock (Python manual, Mapping Types, Set Types).
///
/// # Errors
///
/// `Contended` where two loads of the version of the container gave an odd number or two different ones; `NoMemory`
/// where memory for the copy ran out. The pass only loaded words then.
pub fn look_all_items(bank: &Bank, pass: &mut Pass, alloc: Global, way: Way, c: Object) -> Look
    requires pass { IsPassOf bank.now pass.old }
    requires container { c < container_count (shape_of bank.now) }
    requires kind { kind_in (shape_of bank.now).starts c ≡ kind_by way }
    requires left { 0 < (view pass.old).left }
    ensures pass { IsPassOf bank.now pass.new }
    ensures sections { stack_of pass.new ≡ stack_of pass.old }
    ensures looked { IsCopyGlanceOf (shape_of bank.now) c (HasEntry way (shape_of bank.now)) (items_call way c)
        (view pass.old) (view pass.new) result }
{
    let (copy, window) = copy_between(bank, pass, alloc, way, c);
    if window.has_moved() {
        return Look::Contended(window.opened, window.closed);
    }
    match copy {
        Ok(said) => {
            let called = copying_call(way, c);
            answer_look(bank, pass, &called, said, window.number)
        }
        Err(_) => Look::NoMemory,
    }
}
