//! Reads of one key of a dict by a pass that has the dict's lock: what calls answer once they have it.
ghost use Rattle.std.specs.Prelude.{◌≡◌, ◌<◌, true, false, List, ◌++◌};
ghost use Rattle.ft_layout.specs.Words.{FitsKey};
ghost use Rattle.ft_model.specs.declared.call.Call.TheVariants as call;
ghost use Rattle.ft_model.specs.declared.call.DictCall.TheVariants as dict;
ghost use Rattle.ft_model.specs.declared.script.Kind.TheVariants as kind;
ghost use Rattle.ft_trace.specs.declared.Act.{Act};
ghost use Rattle.ft_trace.specs.Acts.{has_lock};
ghost use Rattle.ft_trace.specs.Addresses.{container_count};
ghost use Rattle.ft_trace.specs.Holds.{held_unboxed, known_state};
ghost use Rattle.ft_trace.specs.Pictures.{Represents};
ghost use Rattle.ft_trace.specs.ContainerStates.{kind_in};
ghost use Rattle.ft_bank.specs.Answered.{Answered};
ghost use Rattle.ft_bank.specs.KeyHashes.{IsKeyIn};
ghost use Rattle.ft_bank.specs.Passes.{shape_of, view, IsPassOf};
ghost use Rattle.ft_bank.specs.PassSections.{stack_of};
ghost use Rattle.ft_bank.specs.Whole.{OnlyLoaded};
ghost use Rattle.ft_dict.specs.Locked.{HasValue};

use crate::looks::reply_of;
use ft_bank::{Bank, Pass};
use ft_keys::Way;
use ft_layout::value_of;
use ft_model::{Call, DictCall, Key, Reply, Value};
use ft_search::{answer_held, read_key};
use ft_section::{Object, Stamp};

/// The value at a key of a dict whose lock the pass has.
fn value_locked(bank: &Bank, pass: &mut Pass, d: Object, key: Key) -> Option<Value>
    requires pass { IsPassOf bank.now pass.old }
    requires container { d < container_count (shape_of bank.now) }
    requires dict { kind_in (shape_of bank.now).starts d ≡ kind.Dict }
    requires key { IsKeyIn (shape_of bank.now) key }
    requires locked { has_lock d (view pass.old).log ≡ true }
    requires stands { Represents (shape_of bank.now).texts (held_unboxed d (view pass.old)) (known_state d (view pass.old)) }
    ensures pass { IsPassOf bank.now pass.new }
    ensures sections { stack_of pass.new ≡ stack_of pass.old }
    ensures key { FitsKey key }
    ensures keeps { OnlyLoaded (view pass.old) (view pass.new) }
    ensures loads { (part : List Act) × ((view pass.new).log ≡ part ++ (view pass.old).log) }
    ensures value { HasValue (known_state d (view pass.old)).content key result }
{
    match read_key(bank, pass, d, Way::Dict, key) {
        Some((kind, payload)) => {
            let Some(value) = value_of(kind, payload) else {
                // No dict has words that stand for no value.
                unreachable!()
            };
            Some(value)
        }
        None => None,
    }
}

/// `d[k]`, a KeyError where the key isn't there, by a pass with the dict's lock (Python manual, Mapping
/// Types). The counter is loaded while it has the lock.
pub(crate) fn get_locked(bank: &Bank, pass: &mut Pass, d: Object, key: Key) -> (Reply, Stamp)
    requires pass { IsPassOf bank.now pass.old }
    requires container { d < container_count (shape_of bank.now) }
    requires dict { kind_in (shape_of bank.now).starts d ≡ kind.Dict }
    requires key { IsKeyIn (shape_of bank.now) key }
    requires locked { has_lock d (view pass.old).log ≡ true }
    requires stands { Represents (shape_of bank.now).texts (held_unboxed d (view pass.old)) (known_state d (view pass.old)) }
    requires left { 0 < (view pass.old).left }
    ensures pass { IsPassOf bank.now pass.new }
    ensures sections { stack_of pass.new ≡ stack_of pass.old }
    ensures wrote { result.1.wrote ≡ false }
    ensures answered { Answered (call.Dict d (dict.Get key)) result.0 result.1.number (view pass.old) (view pass.new) }
{
    let found = value_locked(bank, pass, d, key);
    let call = Call::Dict {
        container: d,
        call: DictCall::Get { key },
    };
    answer_held(bank, pass, &call, reply_of(found))
}

/// `d.get(k, v)`: the value at the key, or the default, by a pass with the dict's lock (Python manual,
/// Mapping Types). The counter is loaded while it has the lock.
pub(crate) fn getd_locked(
    bank: &Bank,
    pass: &mut Pass,
    d: Object,
    key: Key,
    default: Value,
) -> (Reply, Stamp)
    requires pass { IsPassOf bank.now pass.old }
    requires container { d < container_count (shape_of bank.now) }
    requires dict { kind_in (shape_of bank.now).starts d ≡ kind.Dict }
    requires key { IsKeyIn (shape_of bank.now) key }
    requires locked { has_lock d (view pass.old).log ≡ true }
    requires stands { Represents (shape_of bank.now).texts (held_unboxed d (view pass.old)) (known_state d (view pass.old)) }
    requires left { 0 < (view pass.old).left }
    ensures pass { IsPassOf bank.now pass.new }
    ensures sections { stack_of pass.new ≡ stack_of pass.old }
    ensures wrote { result.1.wrote ≡ false }
    ensures answered { Answered (call.Dict d (dict.GetOr key default)) result.0 result.1.number (view pass.old) (view pass.new) }
{
    let found = value_locked(bank, pass, d, key);
    let call = Call::Dict {
        container: d,
        call: DictCall::GetOr { key, default },
    };
    answer_held(bank, pass, &call, Reply::Value(found.unwrap_or(default)))
}
