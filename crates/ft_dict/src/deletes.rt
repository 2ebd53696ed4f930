//! Calls on a dict whose lock the pass has that take a key out: each is one whole write, or none where it
//! raises a KeyError.
ghost use Rattle.std.specs.Prelude.{◌≡◌, ◌<◌, Some, None, true};
ghost use Rattle.ft_layout.specs.declared.slot.Stored.TheVariants.{Plain};
ghost use Rattle.ft_layout.specs.Words.{FitsKey, FitsStored};
ghost use Rattle.ft_model.specs.declared.call.Call.TheVariants as call;
ghost use Rattle.ft_model.specs.declared.call.DictCall.TheVariants as dict;
ghost use Rattle.ft_model.specs.declared.script.Kind.TheVariants as kind;
ghost use Rattle.ft_trace.specs.Acts.{has_lock};
ghost use Rattle.ft_trace.specs.Addresses.{container_count};
ghost use Rattle.ft_trace.specs.Holds.{known_state};
ghost use Rattle.ft_trace.specs.ContainerStates.{kind_in};
ghost use Rattle.ft_bank.specs.KeyHashes.{IsKeyIn};
ghost use Rattle.ft_bank.specs.Passes.{shape_of, view, IsPassOf};
ghost use Rattle.ft_bank.specs.PassSections.{stack_of};
ghost use Rattle.ft_dict.specs.Locked.{HasValue};
ghost use Rattle.ft_search.specs.MadeCalls.{MadeAs};
ghost use Rattle.ft_search.specs.Held.{IsHeldAt};
ghost use Rattle.ft_search.specs.OneEntryWrites.{MayWriteEntries};

use ft_bank::{Bank, Pass};
use ft_keys::Way;
use ft_layout::value_of;
use ft_model::{Call, DictCall, Key, Raise, Reply, Value};
use ft_search::{Spot, answer_made, delete_entry, seek_key, write_nothing, written};
use ft_section::{Object, Stamp};

/// The value that these words are of, which a pass with the dict's lock found at a key.
pub(crate) fn value_at(
    bank: &Bank,
    pass: &Pass,
    d: Object,
    key: Key,
    value_kind: u64,
    payload: u64,
) -> Value
    requires pass { IsPassOf bank.now pass.now }
    requires container { d < container_count (shape_of bank.now) }
    requires dict { kind_in (shape_of bank.now).starts d ≡ kind.Dict }
    requires locked { has_lock d (view pass.now).log ≡ true }
    requires key { FitsKey key }
    requires held { IsHeldAt (known_state d (view pass.now)).content key (Some (value_kind, payload)) }
    ensures { HasValue (known_state d (view pass.now)).content key (Some result) }
{
    let (_, _, _) = (bank, d, key);
    let Some(value) = value_of(value_kind, payload) else {
        // No dict has words that stand for no value.
        unreachable!()
    };
    value
}

/// `del d[k]`: raises a KeyError if the key is not in the map (Python manual, Mapping Types); under the lock.
pub fn del_locked(bank: &Bank, pass: &mut Pass, d: Object, key: Key) -> (Reply, Stamp)
    requires pass { IsPassOf bank.now pass.old }
    requires may { MayWriteEntries (shape_of bank.now) d (view pass.old) }
    requires dict { kind_in (shape_of bank.now).starts d ≡ kind.Dict }
    requires key { IsKeyIn (shape_of bank.now) key }
    ensures pass { IsPassOf bank.now pass.new }
    ensures stack { stack_of pass.new ≡ stack_of pass.old }
    ensures made { MadeAs (call.Dict d (dict.Del key)) result.0 result.1 (view pass.old) (view pass.new) }
{
    let called = Call::Dict {
        container: d,
        call: DictCall::Del { key },
    };
    match seek_key(bank, pass, d, Way::Dict, key) {
        Spot::At(table, place, _, _) => {
            let said = Reply::Done;
            let number = delete_entry(bank, pass, d, table, place, key, &called, &said);
            (said, written(number))
        }
        Spot::Free(_, _) => answer_made(bank, pass, &called, Reply::Raised(Raise::NoKey)),
        Spot::Bare => answer_made(bank, pass, &called, Reply::Raised(Raise::NoKey)),
    }
}

/// `d.pop(k)`: the value at the key, which is taken out; a KeyError if it is not there (Python manual, Mapping
/// Types); under the lock.
pub fn pop_locked(bank: &Bank, pass: &mut Pass, d: Object, key: Key) -> (Reply, Stamp)
    requires pass { IsPassOf bank.now pass.old }
    requires may { MayWriteEntries (shape_of bank.now) d (view pass.old) }
    requires dict { kind_in (shape_of bank.now).starts d ≡ kind.Dict }
    requires key { IsKeyIn (shape_of bank.now) key }
    ensures pass { IsPassOf bank.now pass.new }
    ensures stack { stack_of pass.new ≡ stack_of pass.old }
    ensures made { MadeAs (call.Dict d (dict.Pop key)) result.0 result.1 (view pass.old) (view pass.new) }
{
    let called = Call::Dict {
        container: d,
        call: DictCall::Pop { key },
    };
    match seek_key(bank, pass, d, Way::Dict, key) {
        Spot::At(table, place, value_kind, payload) => {
            let value = value_at(bank, pass, d, key, value_kind, payload);
            let said = Reply::Value(value);
            let number = delete_entry(bank, pass, d, table, place, key, &called, &said);
            (said, written(number))
        }
        Spot::Free(_, _) => answer_made(bank, pass, &called, Reply::Raised(Raise::NoKey)),
        Spot::Bare => answer_made(bank, pass, &called, Reply::Raised(Raise::NoKey)),
    }
}

/// `d.pop(k, v)` where the key is not there: a write that leaves the dict as it is.
fn write_default(
    bank: &Bank,
    pass: &mut Pass,
    d: Object,
    key: Key,
    default: Value,
) -> (Reply, Stamp)
    requires pass { IsPassOf bank.now pass.old }
    requires may { MayWriteEntries (shape_of bank.now) d (view pass.old) }
    requires dict { kind_in (shape_of bank.now).starts d ≡ kind.Dict }
    requires key { FitsKey key }
    requires none { IsHeldAt (known_state d (view pass.old)).content key None }
    ensures pass { IsPassOf bank.now pass.new }
    ensures stack { stack_of pass.new ≡ stack_of pass.old }
    ensures made { MadeAs (call.Dict d (dict.PopOr key default)) result.0 result.1 (view pass.old) (view pass.new) }
{
    value_fits(default);
    let called = Call::Dict {
        container: d,
        call: DictCall::PopOr { key, default },
    };
    let said = Reply::Value(default);
    let number = write_nothing(bank, pass, d, &called, &said);
    (said, written(number))
}

/// A value's integer has 64 bits, and its string's number 32, so that words can represent it.
pub(crate) fn value_fits(value: Value)
    ensures { FitsStored (Plain value) }
{
    match value {
        Value::Nothing => {}
        Value::Int(integer) => {
            let _word = integer;
        }
        Value::Text(sym) => {
            let _number = sym.0;
        }
    }
}

/// A key's integer has 64 bits, and its string's number 32, so that words can represent it.
pub(crate) fn key_fits(key: Key)
    ensures { FitsKey key }
{
    match key {
        Key::Int(integer) => {
            let _word = integer;
        }
        Key::Text(sym) => {
            let _number = sym.0;
        }
    }
}

/// `d.pop(k, v)`: the value at the key, which is taken out, or the default if it is not there (Python manual,
/// Mapping Types); under the lock.
pub fn popd_locked(
    bank: &Bank,
    pass: &mut Pass,
    d: Object,
    key: Key,
    default: Value,
) -> (Reply, Stamp)
    requires pass { IsPassOf bank.now pass.old }
    requires may { MayWriteEntries (shape_of bank.now) d (view pass.old) }
    requires dict { kind_in (shape_of bank.now).starts d ≡ kind.Dict }
    requires key { IsKeyIn (shape_of bank.now) key }
    ensures pass { IsPassOf bank.now pass.new }
    ensures stack { stack_of pass.new ≡ stack_of pass.old }
    ensures made { MadeAs (call.Dict d (dict.PopOr key default)) result.0 result.1 (view pass.old) (view pass.new) }
{
    let called = Call::Dict {
        container: d,
        call: DictCall::PopOr { key, default },
    };
    value_fits(default);
    match seek_key(bank, pass, d, Way::Dict, key) {
        Spot::At(table, place, value_kind, payload) => {
            let value = value_at(bank, pass, d, key, value_kind, payload);
            let said = Reply::Value(value);
            let number = delete_entry(bank, pass, d, table, place, key, &called, &said);
            (said, written(number))
        }
        Spot::Free(_, _) => write_default(bank, pass, d, key, default),
        Spot::Bare => write_default(bank, pass, d, key, default),
    }
}
