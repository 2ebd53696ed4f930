//! Looks at whole lists without a lock, by their versions: `v in l`, all items, `l == m`.
//!
//! The version of each list that the call names is loaded before its words and after them. Where it was even
//! and stayed the same, no write of that list came between.
ghost use Rattle.std.specs.Prelude.{◌≡◌, ◌<◌, length};
ghost use Rattle.ft_model.specs.declared.call.Call.TheVariants as call;
ghost use Rattle.ft_model.specs.declared.call.ListCall.TheVariants as list;
ghost use Rattle.ft_model.specs.declared.script.Kind.TheVariants as kind;
ghost use Rattle.ft_model.specs.Lists.{index_of, same_items};
ghost use Rattle.ft_trace.specs.Addresses.{container_count};
ghost use Rattle.ft_trace.specs.ContainerStates.{kind_in};
ghost use Rattle.ft_bank.specs.Passes.{shape_of, view, IsPassOf};
ghost use Rattle.ft_bank.specs.PassSections.{stack_of};
ghost use Rattle.ft_search.specs.Lengths.{IsGlanceOf};
ghost use Rattle.ft_reads.specs.Copies.{AreCopied};
ghost use Rattle.ft_reads.specs.Glances.{Saw, SawBoth, IsCopyGlanceOf};
ghost use Rattle.ft_list.specs.Pairs.{AreOfItems};
ghost use Rattle.ft_reads.specs.Pairs.{IsGlanceOfBoth};
ghost use Rattle.ft_list.specs.Scans.{IsOfItems};

use crate::copies::copy_items;
use crate::pairs::are_alike;
use crate::scans::first_equal;
use ft_bank::{Bank, Pass};
use ft_model::{Call, ListCall, Reply, Value, Values};
use ft_reads::Window;
use ft_search::answer_look;
use ft_section::{Look, Object};
use std::alloc::{AllocError, Global};

/// Looks for the first equal item, and loads the counter, between two loads of the version of the list.
fn find_between(bank: &Bank, pass: &mut Pass, l: Object, value: Value) -> (Option<u64>, Window)
    requires pass { IsPassOf bank.now pass.old }
    requires container { l < container_count (shape_of bank.now) }
    requires list { kind_in (shape_of bank.now).starts l ≡ kind.List }
    ensures pass { IsPassOf bank.now pass.new }
    ensures saw { Saw (shape_of bank.now) l (IsOfItems (shape_of bank.now) (λ items.
        result.0 ≡ index_of items value)) result.1 pass.old pass.new }
{
    let opened = bank.seq(pass, l);
    let found = first_equal(bank, pass, l, value);
    let number = bank.stamp(pass);
    let closed = bank.seq(pass, l);
    (
        found,
        Window {
            opened,
            number,
            closed,
        },
    )
}

/// Copies all items, and loads the counter, between two loads of the version of the list.
fn copy_between(
    bank: &Bank,
    pass: &mut Pass,
    alloc: Global,
    l: Object,
) -> (Result<Vec<Value>, AllocError>, Window)
    requires pass { IsPassOf bank.now pass.old }
    requires container { l < container_count (shape_of bank.now) }
    requires list { kind_in (shape_of bank.now).starts l ≡ kind.List }
    ensures pass { IsPassOf bank.now pass.new }
    ensures saw { Saw (shape_of bank.now) l (IsOfItems (shape_of bank.now) (AreCopied result.0)) result.1 pass.old
        pass.new }
{
    let opened = bank.seq(pass, l);
    let copy = copy_items(bank, pass, alloc, l);
    let number = bank.stamp(pass);
    let closed = bank.seq(pass, l);
    (
        copy,
        Window {
            opened,
            number,
            closed,
        },
    )
}

/// `v in l` without the lock (Python manual, Sequence Types).
///
/// # Errors
///
/// `Contended` where two loads of the version of the list gave an odd number or two different ones. It never
/// answers `NoMemory`.
pub fn look_has(bank: &Bank, pass: &mut Pass, l: Object, value: Value) -> Look
    requires pass { IsPassOf bank.now pass.old }
    requires container { l < container_count (shape_of bank.now) }
    requires list { kind_in (shape_of bank.now).starts l ≡ kind.List }
    requires left { 0 < (view pass.old).left }
    ensures pass { IsPassOf bank.now pass.new }
    ensures sections { stack_of pass.new ≡ stack_of pass.old }
    ensures looked { IsGlanceOf l (call.List l (list.Has value)) (view pass.old) (view pass.new) result }
{
    let (found, window) = find_between(bank, pass, l, value);
    if window.has_moved() {
        return Look::Contended(window.opened, window.closed);
    }
    let called = Call::List {
        container: l,
        call: ListCall::Has { value },
    };
    answer_look(
        bank,
        pass,
        &called,
        Reply::Truth(found.is_some()),
        window.number,
    )
}

/// All items without the lock.
///
/// # Errors
///
/// `Contended` where two loads of the version of the list gave an odd number or two different ones;
/// `NoMemory` where there was no memory for the items, of which it loaded some. The pass only loaded words then.
pub fn look_items(bank: &Bank, pass: &mut Pass, alloc: Global, l: Object) -> Look
    requires pass { IsPassOf bank.now pass.old }
    requires container { l < container_count (shape_of bank.now) }
    requires list { kind_in (shape_of bank.now).starts l ≡ kind.List }
    requires left { 0 < (view pass.old).left }
    ensures pass { IsPassOf bank.now pass.new }
    ensures sections { stack_of pass.new ≡ stack_of pass.old }
    ensures looked { IsCopyGlanceOf (shape_of bank.now) l (IsOfItems (shape_of bank.now) (λ items. 0 < length items))
        (call.List l list.Items) (view pass.old) (view pass.new) result }
{
    let (copy, window) = copy_between(bank, pass, alloc, l);
    if window.has_moved() {
        return Look::Contended(window.opened, window.closed);
    }
    match copy {
        Ok(items) => {
            let called = Call::List {
                container: l,
                call: ListCall::Items,
            };
            answer_look(
                bank,
                pass,
                &called,
                Reply::List(Values::from_vec(items)),
                window.number,
            )
        }
        Err(_) => Look::NoMemory,
    }
}

/// Compares two lists, and loads the counter, between two loads of the version of each.
fn alike_between(bank: &Bank, pass: &mut Pass, l: Object, m: Object) -> (bool, Window, Window)
    requires pass { IsPassOf bank.now pass.old }
    requires container { l < container_count (shape_of bank.now) }
    requires other { m < container_count (shape_of bank.now) }
    requires list { kind_in (shape_of bank.now).starts l ≡ kind.List }
    requires other_list { kind_in (shape_of bank.now).starts m ≡ kind.List }
    ensures pass { IsPassOf bank.now pass.new }
    ensures saw { SawBoth (shape_of bank.now) l m (AreOfItems (shape_of bank.now) (λ items others.
        result.0 ≡ same_items items others)) result.1 result.2 pass.old pass.new }
{
    let opened = bank.seq(pass, l);
    let other_opened = bank.seq(pass, m);
    let alike = are_alike(bank, pass, l, m);
    let number = bank.stamp(pass);
    let other_closed = bank.seq(pass, m);
    let closed = bank.seq(pass, l);
    (
        alike,
        Window {
            opened,
            number,
            closed,
        },
        Window {
            opened: other_opened,
            number,
            closed: other_closed,
        },
    )
}

/// `l == m` without locks (Python manual, Comparisons).
///
/// # Errors
///
/// `Contended` where two loads of the version of one of the lists gave an odd number or two different ones.
/// It never answers `NoMemory`.
pub fn look_eq(bank: &Bank, pass: &mut Pass, l: Object, m: Object) -> Look
    requires pass { IsPassOf bank.now pass.old }
    requires container { l < container_count (shape_of bank.now) }
    requires other { m < container_count (shape_of bank.now) }
    requires list { kind_in (shape_of bank.now).starts l ≡ kind.List }
    requires other_list { kind_in (shape_of bank.now).starts m ≡ kind.List }
    requires left { 0 < (view pass.old).left }
    ensures pass { IsPassOf bank.now pass.new }
    ensures sections { stack_of pass.new ≡ stack_of pass.old }
    ensures looked { IsGlanceOfBoth l m (call.List l (list.Eq m)) (view pass.old) (view pass.new) result }
{
    let (alike, window, other) = alike_between(bank, pass, l, m);
    if window.has_moved() {
        return Look::Contended(window.opened, window.closed);
    }
    if other.has_moved() {
        return Look::Contended(other.opened, other.closed);
    }
    let called = Call::List {
        container: l,
        call: ListCall::Eq { other: m },
    };
    answer_look(bank, pass, &called, Reply::Truth(alike), window.number)
}
