//! Calls on a dict that put a value at a key: where the key is there its entry gets the value, and where it isn't
//! the dict gets an entry for it, and another table if its own has no room.
ghost use Rattle.std.specs.Prelude.{◌≡◌, true, false, Some};
ghost use Rattle.ft_layout.specs.Words.{FitsKey};
ghost use Rattle.ft_model.specs.declared.call.Call.TheVariants as call;
ghost use Rattle.ft_model.specs.declared.call.DictCall.TheVariants as dict;
ghost use Rattle.ft_model.specs.declared.reply.Reply.{Reply};
ghost use Rattle.ft_model.specs.declared.reply.Reply.TheVariants as reply;
ghost use Rattle.ft_model.specs.declared.script.Kind.TheVariants as kind;
ghost use Rattle.ft_trace.specs.Acts.{flight, used};
ghost use Rattle.ft_trace.specs.Boxes.{IsDoneWithBoxes};
ghost use Rattle.ft_trace.specs.ContainerStates.{kind_in};
ghost use Rattle.ft_trace.specs.Holds.{known_state};
ghost use Rattle.ft_bank.specs.KeyHashes.{IsKeyIn};
ghost use Rattle.ft_bank.specs.Passes.{shape_of, view, IsPassOf};
ghost use Rattle.ft_bank.specs.PassSections.{stack_of};
ghost use Rattle.ft_search.specs.Held.{IsHeldAt};
ghost use Rattle.ft_search.specs.OneEntryWrites.{MayWriteEntries};
ghost use Rattle.ft_new_keys.specs.KeyGrowth.{PutsKey, holds};
ghost use Rattle.ft_dict.specs.Values.{SetsDefault};

use crate::deletes::{value_at, value_fits};
use ft_bank::{Bank, Pass};
use ft_keys::Way;
use ft_layout::Stored;
use ft_model::{Call, DictCall, Key, Reply, Value};
use ft_new_keys::add_key;
use ft_search::{Spot, seek_key, set_entry, write_nothing, written};
use ft_section::Object;
use ft_table_calls::Added;

/// `d[k] = v` (Python manual, Mapping Types), by a pass that has the dict's lock.
///
/// # Errors
///
/// Those of [`add_key`], where the key isn't there.
#[inline(always)]
pub fn set_by(bank: &Bank, pass: &mut Pass, d: Object, key: Key, value: Value) -> Added
    requires pass { IsPassOf bank.now pass.old }
    requires may { MayWriteEntries (shape_of bank.now) d (view pass.old) }
    requires used { used (view pass.old).log ≡ false }
    requires idle { flight (view pass.old).log ≡ 0 }
    requires dict { kind_in (shape_of bank.now).starts d ≡ kind.Dict }
    requires key { IsKeyIn (shape_of bank.now) key }
    ensures pass { IsPassOf bank.now pass.new }
    ensures stack { stack_of pass.new ≡ stack_of pass.old }
    ensures added { PutsKey (shape_of bank.now) d key (call.Dict d (dict.Set key value)) reply.Done (view pass.old)
        (view pass.new) result }
{
    value_fits(value);
    let called = Call::Dict {
        container: d,
        call: DictCall::Set { key, value },
    };
    let said = Reply::Done;
    let stored = Stored::Plain(value);
    match seek_key(bank, pass, d, Way::Dict, key) {
        Spot::At(table, place, value_kind, payload) => {
            let old = (value_kind, payload);
            let number = set_entry(bank, pass, d, table, place, key, value, old, &called, &said);
            Added::Made(written(number))
        }
        Spot::Free(table, slot) => add_key(
            bank,
            pass,
            d,
            Way::Dict,
            Some(table),
            slot,
            key,
            stored,
            &called,
            &said,
        )
        .anew(),
        Spot::Bare => add_key(
            bank,
            pass,
            d,
            Way::Dict,
            None,
            0,
            key,
            stored,
            &called,
            &said,
        )
        .anew(),
    }
}

/// What `d.setdefault(k, v)` comes to where the key is there, whose value has these words: a write that leaves the dict as it
/// is, and what it replies.
pub(crate) fn default_there(
    bank: &Bank,
    pass: &mut Pass,
    d: Object,
    key: Key,
    default: Value,
    words: (u64, u64),
) -> (Added, Reply)
    requires pass { IsPassOf bank.now pass.old }
    requires may { MayWriteEntries (shape_of bank.now) d (view pass.old) }
    requires dict { kind_in (shape_of bank.now).starts d ≡ kind.Dict }
    requires key { FitsKey key }
    requires held { IsHeldAt (known_state d (view pass.old)).content key (Some (words.0, words.1)) }
    ensures pass { IsPassOf bank.now pass.new }
    ensures stack { stack_of pass.new ≡ stack_of pass.old }
    ensures there { holds (known_state d (view pass.old)).content key ≡ true }
    ensures added { SetsDefault (shape_of bank.now) d key default result.1 (view pass.old) (view pass.new) result.0 }
    ensures boxes { IsDoneWithBoxes (shape_of bank.now) (view pass.new).log }
{
    value_fits(default);
    let called = Call::Dict {
        container: d,
        call: DictCall::SetDefault { key, default },
    };
    let (value_kind, payload) = words;
    let said = Reply::Value(value_at(bank, pass, d, key, value_kind, payload));
    let number = write_nothing(bank, pass, d, &called, &said);
    (Added::Made(written(number)), said)
}

/// `d.setdefault(k, v)` (Python manual, Mapping Types), by a pass that has the dict's lock: what it comes to, and
/// what it replies where it is made.
///
/// # Errors
///
/// Those of [`add_key`], where the key isn't there.
pub fn setdefault_by(
    bank: &Bank,
    pass: &mut Pass,
    d: Object,
    key: Key,
    default: Value,
) -> (Added, Reply)
    requires pass { IsPassOf bank.now pass.old }
    requires may { MayWriteEntries (shape_of bank.now) d (view pass.old) }
    requires used { used (view pass.old).log ≡ false }
    requires idle { flight (view pass.old).log ≡ 0 }
    requires dict { kind_in (shape_of bank.now).starts d ≡ kind.Dict }
    requires key { IsKeyIn (shape_of bank.now) key }
    ensures pass { IsPassOf bank.now pass.new }
    ensures stack { stack_of pass.new ≡ stack_of pass.old }
    ensures added { SetsDefault (shape_of bank.now) d key default result.1 (view pass.old) (view pass.new) result.0 }
{
    value_fits(default);
    let called = Call::Dict {
        container: d,
        call: DictCall::SetDefault { key, default },
    };
    let stored = Stored::Plain(default);
    let default_said = Reply::Value(default);
    match seek_key(bank, pass, d, Way::Dict, key) {
        Spot::At(_, _, value_kind, payload) => {
            default_there(bank, pass, d, key, default, (value_kind, payload))
        }
        Spot::Free(table, slot) => {
            let added = add_key(
                bank,
                pass,
                d,
                Way::Dict,
                Some(table),
                slot,
                key,
                stored,
                &called,
                &default_said,
            );
            (added, default_said)
        }
        Spot::Bare => {
            let added = add_key(
                bank,
                pass,
                d,
                Way::Dict,
                None,
                0,
                key,
                stored,
                &called,
                &default_said,
            );
            (added, default_said)
        }
    }
}
