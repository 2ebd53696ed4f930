//! Look-ups of one key of a dict without the lock. Sets, deletions and growths for other keys never make
//! them contended, unless the root was read 0.
ghost use Rattle.std.specs.Prelude.{◌≡◌, ◌<◌};
ghost use Rattle.ft_model.specs.declared.call.Call.TheVariants as call;
ghost use Rattle.ft_model.specs.declared.call.DictCall.TheVariants as dict;
ghost use Rattle.ft_model.specs.declared.script.Kind.TheVariants as kind;
ghost use Rattle.ft_trace.specs.Acts.{announces};
ghost use Rattle.ft_trace.specs.Addresses.{container_count};
ghost use Rattle.ft_trace.specs.Boxes.{IsSettled};
ghost use Rattle.ft_trace.specs.LookReplies.{key_reply};
ghost use Rattle.ft_trace.specs.ContainerStates.{kind_in};
ghost use Rattle.ft_bank.specs.KeyHashes.{IsKeyIn};
ghost use Rattle.ft_bank.specs.Passes.{shape_of, view, IsPassOf};
ghost use Rattle.ft_bank.specs.PassSections.{stack_of};
ghost use Rattle.ft_bank.specs.SameBoxes.{HoldsFew};
ghost use Rattle.ft_keys.specs.declared.walk.Way.TheVariants as way;
ghost use Rattle.ft_search.specs.SearchCosts.{LoadsRounds};
ghost use Rattle.ft_search.specs.KeyLooks.{IsLookOf};
ghost use Rattle.ft_dict.specs.DictLooks.{IsFoundAt};

use ft_bank::{Bank, Pass};
use ft_keys::Way;
use ft_layout::value_of;
use ft_model::{Call, DictCall, Key, Raise, Reply, Value};
use ft_search::{Looked, answer_look, look_up};
use ft_section::{Look, Object};

/// What is found at a key without the lock.
#[derive(Clone, Copy)]
pub(crate) enum AtKey {
    /// The value, or none, and the stamp.
    Found(Option<Value>, u64),
    /// Two loads of one version: the first is odd, or they differ; or the count word of a box moved, or was that of a dead box.
    Contended(u64, u64),
}

/// What `d[k]` replies: the value, or a KeyError.
pub(crate) fn reply_of(found: Option<Value>) -> Reply
    ensures { result ≡ key_reply found }
{
    match found {
        Some(value) => Reply::Value(value),
        None => Reply::Raised(Raise::NoKey),
    }
}

/// Looks for the value at a key.
#[inline(always)]
fn find_value(bank: &Bank, pass: &mut Pass, d: Object, key: Key) -> AtKey
    requires pass { IsPassOf bank.now pass.old }
    requires container { d < container_count (shape_of bank.now) }
    requires dict { kind_in (shape_of bank.now).starts d ≡ kind.Dict }
    requires key { IsKeyIn (shape_of bank.now) key }
    requires online { 0 < announces (view pass.old).log }
    requires left { 0 < (view pass.old).left }
    requires settled { IsSettled (view pass.old).log }
    requires few { HoldsFew (view pass.old) }
    ensures pass { IsPassOf bank.now pass.new }
    ensures sections { stack_of pass.new ≡ stack_of pass.old }
    ensures found { IsFoundAt d key (view pass.old) (view pass.new) result }
    ensures loads { LoadsRounds way.Dict d (view pass.old) (view pass.new) }
{
    match look_up(bank, pass, d, Way::Dict, key) {
        Looked::Here(kind, payload, number) => match value_of(kind, payload) {
            Some(value) => AtKey::Found(Some(value), number),
            // No pass can be so: its loads show a value.
            None => unreachable!(),
        },
        Looked::Absent(number) => AtKey::Found(None, number),
        Looked::Contended(first, second) => AtKey::Contended(first, second),
    }
}

/// `d[k]`, a KeyError where the key isn't there, without the lock (Python manual, Mapping Types). It goes in rounds,
/// one more for each change of the root that it finds, and in each loads at most as many index words as one search may.
///
/// # Errors
///
/// `Contended` where two loads of the version of the key's own entry gave an odd number or two different
/// ones; of the container's version, where its root was read 0. Where the entry names a box, also where the count word of
/// the box moved when it should be raised, or was that of a dead box. It never answers `NoMemory`.
#[inline(always)]
pub fn look_get(bank: &Bank, pass: &mut Pass, d: Object, key: Key) -> Look
    requires pass { IsPassOf bank.now pass.old }
    requires container { d < container_count (shape_of bank.now) }
    requires dict { kind_in (shape_of bank.now).starts d ≡ kind.Dict }
    requires key { IsKeyIn (shape_of bank.now) key }
    requires online { 0 < announces (view pass.old).log }
    requires left { 0 < (view pass.old).left }
    requires settled { IsSettled (view pass.old).log }
    requires few { HoldsFew (view pass.old) }
    ensures pass { IsPassOf bank.now pass.new }
    ensures sections { stack_of pass.new ≡ stack_of pass.old }
    ensures looked { IsLookOf d key (call.Dict d (dict.Get key)) (view pass.old) (view pass.new) result }
    ensures loads { LoadsRounds way.Dict d (view pass.old) (view pass.new) }
{
    let call = Call::Dict {
        container: d,
        call: DictCall::Get { key },
    };
    match find_value(bank, pass, d, key) {
        AtKey::Found(found, number) => { answer_look(bank, pass, &call, reply_of(found), number) }
        AtKey::Contended(first, second) => Look::Contended(first, second),
    }
}

/// `d.get(k, v)`: the value at the key, or the default, without the lock (Python manual, Mapping Types). It loads what
/// [`look_get`] may load.
///
/// # Errors
///
/// Those of [`look_get`].
pub fn look_getd(bank: &Bank, pass: &mut Pass, d: Object, key: Key, default: Value) -> Look
    requires pass { IsPassOf bank.now pass.old }
    requires container { d < container_count (shape_of bank.now) }
    requires dict { kind_in (shape_of bank.now).starts d ≡ kind.Dict }
    requires key { IsKeyIn (shape_of bank.now) key }
    requires online { 0 < announces (view pass.old).log }
    requires left { 0 < (view pass.old).left }
    requires settled { IsSettled (view pass.old).log }
    requires few { HoldsFew (view pass.old) }
    ensures pass { IsPassOf bank.now pass.new }
    ensures sections { stack_of pass.new ≡ stack_of pass.old }
    ensures looked { IsLookOf d key (call.Dict d (dict.GetOr key default)) (view pass.old) (view pass.new) result }
    ensures loads { LoadsRounds way.Dict d (view pass.old) (view pass.new) }
{
    let call = Call::Dict {
        container: d,
        call: DictCall::GetOr { key, default },
    };
    match find_value(bank, pass, d, key) {
        AtKey::Found(found, number) => {
            let reply = Reply::Value(found.unwrap_or(default));
            answer_look(bank, pass, &call, reply, number)
        }
        AtKey::Contended(first, second) => Look::Contended(first, second),
    }
}

/// `k in d`, without the lock (Python manual, Mapping Types). It loads what [`look_get`] may load.
///
/// # Errors
///
/// Those of [`look_get`].
pub fn look_has(bank: &Bank, pass: &mut Pass, d: Object, key: Key) -> Look
    requires pass { IsPassOf bank.now pass.old }
    requires container { d < container_count (shape_of bank.now) }
    requires dict { kind_in (shape_of bank.now).starts d ≡ kind.Dict }
    requires key { IsKeyIn (shape_of bank.now) key }
    requires online { 0 < announces (view pass.old).log }
    requires left { 0 < (view pass.old).left }
    requires settled { IsSettled (view pass.old).log }
    requires few { HoldsFew (view pass.old) }
    ensures pass { IsPassOf bank.now pass.new }
    ensures sections { stack_of pass.new ≡ stack_of pass.old }
    ensures looked { IsLookOf d key (call.Dict d (dict.Has key)) (view pass.old) (view pass.new) result }
    ensures loads { LoadsRounds way.Dict d (view pass.old) (view pass.new) }
{
    let call = Call::Dict {
        container: d,
        call: DictCall::Has { key },
    };
    match find_value(bank, pass, d, key) {
        AtKey::Found(found, number) => {
            let reply = Reply::Truth(found.is_some());
            answer_look(bank, pass, &call, reply, number)
        }
        AtKey::Contended(first, second) => Look::Contended(first, second),
    }
}
