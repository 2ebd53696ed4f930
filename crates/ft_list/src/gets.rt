//! `l[i]` without the lock at an index that isn't negative. Appends, growths, and whatever is done to other
//! items never make it contended, unless the root was read 0.
ghost use Rattle.std.specs.Prelude.{◌≡◌, ◌↔◌, ◌^◌, ◌<◌, Some, None, pos};
ghost use Rattle.ft_layout.specs.declared.slot.Stored.TheVariants.{Empty, Plain};
ghost use Rattle.ft_layout.specs.Words.{IsStored};
ghost use Rattle.ft_model.specs.declared.data.Value.{Value};
ghost use Rattle.ft_model.specs.declared.script.Kind.TheVariants as kind;
ghost use Rattle.ft_trace.specs.Acts.{announces};
ghost use Rattle.ft_trace.specs.Addresses.{container_count};
ghost use Rattle.ft_trace.specs.LookReplies.{item_reply};
ghost use Rattle.ft_trace.specs.Boxes.{IsSettled};
ghost use Rattle.ft_trace.specs.ContainerStates.{kind_in};
ghost use Rattle.ft_bank.specs.Passes.{shape_of, view, IsPassOf};
ghost use Rattle.ft_bank.specs.PassSections.{stack_of};
ghost use Rattle.ft_bank.specs.SameBoxes.{HoldsFew};
ghost use Rattle.ft_list.specs.ItemLooks.{IsItemFoundAt, IsGetOf};

use crate::looks::{LookedItem, find_item};
use ft_bank::{Bank, Pass};
use ft_layout::{Stored, item_of};
use ft_model::{Call, ListCall, Raise, Reply, Value};
use ft_search::answer_look;
use ft_section::{Look, Object};

/// What is found at an index without the lock.
#[derive(Clone, Copy)]
pub(crate) enum AtIndex {
    /// The value, or none, and the stamp.
    Found(Option<Value>, u64),
    /// Two loads of one version: the first is odd, or they differ.
    Contended(u64, u64),
}

/// What `l[i]` replies: the value, or an IndexError.
pub(crate) fn reply_of(found: Option<Value>) -> Reply
    ensures { result ≡ item_reply found }
{
    match found {
        Some(value) => Reply::Value(value),
        None => Reply::Raised(Raise::NoIndex),
    }
}

/// The index as calls have it.
fn signed(index: u64) -> i64
    requires { index < 2 ^ 63 }
    ensures { result ≡ pos index }
{
    match i64::try_from(index) {
        Ok(same) => same,
        Err(_) => i64::MAX,
    }
}

/// What is stored in place: a value, or nothing; `None` for a box.
fn found_in(stored: Stored) -> Option<Option<Value>>
    ensures value { (value : Value) → (stored ≡ Plain value) ↔ (result ≡ Some (Some value)) }
    ensures none { (stored ≡ Empty) ↔ (result ≡ Some None) }
{
    match stored {
        Stored::Plain(value) => Some(Some(value)),
        Stored::Empty => Some(None),
        Stored::Boxed(_) => None,
    }
}

/// What a kind and a payload say of an item: a value, or nothing; `None` where they are those of neither.
pub(crate) fn found_of(kind: u64, payload: u64) -> Option<Option<Value>>
    ensures value { (value : Value) → IsStored kind payload (Plain value) ↔ (result ≡ Some (Some value)) }
    ensures none { IsStored kind payload Empty ↔ (result ≡ Some None) }
{
    match item_of(&[0, kind, payload, 0]) {
        Some(stored) => found_in(stored),
        None => None,
    }
}

/// Looks for the value at an index.
#[inline(always)]
fn find_value(bank: &Bank, pass: &mut Pass, l: Object, index: u64) -> AtIndex
    requires pass { IsPassOf bank.now pass.old }
    requires container { l < container_count (shape_of bank.now) }
    requires list { kind_in (shape_of bank.now).starts l ≡ kind.List }
    requires online { 0 < announces (view pass.old).log }
    requires left { 0 < (view pass.old).left }
    requires settled { IsSettled (view pass.old).log }
    requires few { HoldsFew (view pass.old) }
    ensures pass { IsPassOf bank.now pass.new }
    ensures sections { stack_of pass.new ≡ stack_of pass.old }
    ensures found { IsItemFoundAt l index (view pass.old) (view pass.new) result }
{
    match find_item(bank, pass, l, index) {
        LookedItem::Item(kind, payload, number) => match found_of(kind, payload) {
            Some(found) => AtIndex::Found(found, number),
            None => {
                // No pass can be so: its loads show a value or nothing.
                let _number = pass.number();
                unreachable!()
            }
        },
        LookedItem::Past(number) => AtIndex::Found(None, number),
        LookedItem::Contended(first, second) => AtIndex::Contended(first, second),
    }
}

/// `l[i]` without the lock, for an index that isn't negative; the pass is online. It is contended by the
/// version of that very item alone, or by the count of the box that it names, or by the list's version where its root was
/// read 0.
#[inline(always)]
pub fn look_item(bank: &Bank, pass: &mut Pass, l: Object, index: u64) -> Look
    requires pass { IsPassOf bank.now pass.old }
    requires container { l < container_count (shape_of bank.now) }
    requires list { kind_in (shape_of bank.now).starts l ≡ kind.List }
    requires index { index < 2 ^ 63 }
    requires online { 0 < announces (view pass.old).log }
    requires left { 0 < (view pass.old).left }
    requires settled { IsSettled (view pass.old).log }
    requires few { HoldsFew (view pass.old) }
    ensures pass { IsPassOf bank.now pass.new }
    ensures sections { stack_of pass.new ≡ stack_of pass.old }
    ensures looked { IsGetOf l index (view pass.old) (view pass.new) result }
{
    match find_value(bank, pass, l, index) {
        AtIndex::Found(found, number) => {
            let call = Call::List {
                container: l,
                call: ListCall::Get {
                    index: signed(index),
                },
            };
            answer_look(bank, pass, &call, reply_of(found), number)
        }
        AtIndex::Contended(first, second) => Look::Contended(first, second),
    }
}
