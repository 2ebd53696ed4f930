//! Calls on a dict that put a value at a key which stands in a box that the caller made: the reference that the pass holds
//! is the entry's then. Where the entry has the value already, where the call finds another one, or where no entry is made,
//! the reference is dropped.
ghost use Rattle.std.specs.Prelude.{◌≡◌, ◌≢◌, true, false, Some};
ghost use Rattle.ft_layout.specs.declared.slot.Stored.TheVariants.{Plain};
ghost use Rattle.ft_layout.specs.Words.{FitsStored};
ghost use Rattle.ft_model.specs.declared.call.Call.TheVariants as call;
ghost use Rattle.ft_model.specs.declared.call.DictCall.TheVariants as dict;
ghost use Rattle.ft_model.specs.declared.reply.Reply.TheVariants as reply;
ghost use Rattle.ft_model.specs.declared.script.Kind.TheVariants as kind;
ghost use Rattle.ft_model.specs.Boxings.{is_boxed};
ghost use Rattle.ft_model.specs.Contents.{dict_get, has_key};
ghost use Rattle.ft_model.specs.Worlds.{dict_of};
ghost use Rattle.ft_trace.specs.Acts.{flight, used};
ghost use Rattle.ft_trace.specs.Addresses.{class_of, slots};
ghost use Rattle.ft_trace.specs.ContainerStates.{kind_in};
ghost use Rattle.ft_trace.specs.Holds.{held_unboxed, known_state};
ghost use Rattle.ft_trace.specs.Pictures.{entry_field};
ghost use Rattle.ft_bank.specs.KeyHashes.{IsKeyIn};
ghost use Rattle.ft_bank.specs.Passes.{shape_of, view, IsPassOf};
ghost use Rattle.ft_bank.specs.PassSections.{stack_of};
ghost use Rattle.ft_bank.specs.TableNames.{table_id};
ghost use Rattle.ft_boxes.specs.References.{box_of};
ghost use Rattle.ft_section.specs.declared.answers.Stamp.{Stamp};
ghost use Rattle.ft_search.specs.HeldValues.{HoldsValue, NamesBoxAt};
ghost use Rattle.ft_search.specs.OneEntryWrites.{HasTable, IsLiveEntry, Leaves, MayBeginEntries, are_of_value, with_value_at};
ghost use Rattle.ft_table_calls.specs.declared.adding.Added.TheVariants as added;
ghost use Rattle.ft_dict.specs.HeldSets.{PutsHeld, WroteThere};
ghost use Rattle.ft_dict.specs.Values.{default_reply};

use crate::deletes::{value_at, value_fits};
use ft_bank::{Bank, Pass, Table};
use ft_boxes::{Held, keep, release};
use ft_keys::Way;
use ft_layout::Stored;
use ft_model::{Call, DictCall, Key, Reply, Value};
use ft_new_keys::add_held;
use ft_search::{Spot, says_value, seek_by, set_entry, store_entry, write_nothing, written};
use ft_section::Object;
use ft_table_calls::Added;

/// Puts the value in the box at a key that is there, as the write of `d[k] = v`: in the entry at a place, `at`, whose words
/// were read. An entry that has the value already is left alone, and the reference is dropped. Answers the number of the
/// write.
fn set_there(
    bank: &Bank,
    pass: &mut Pass,
    d: Object,
    at: (Table, u64),
    words: (u64, u64),
    key: Key,
    value: Value,
    held: Held,
) -> u64
    requires pass { IsPassOf bank.now pass.old }
    requires may { MayBeginEntries (shape_of bank.now) d (view pass.old) }
    requires held { HoldsValue (box_of held) value (view pass.old) }
    requires boxed { is_boxed value ≡ true }
    requires dict { kind_in (shape_of bank.now).starts d ≡ kind.Dict }
    requires value { FitsStored (Plain value) }
    requires table { HasTable (shape_of bank.now) d at.0 (view pass.old) }
    requires entry { IsLiveEntry (shape_of bank.now) d at.0 at.1 key (view pass.old) }
    requires kind { words.0 ≡ entry_field (slots (class_of (table_id at.0))) (held_unboxed d (view pass.old)).table at.1 4 }
    requires payload { words.1 ≡ entry_field (slots (class_of (table_id at.0))) (held_unboxed d (view pass.old)).table at.1 5 }
    requires leaves { Leaves d (call.Dict d (dict.Set key value)) reply.Done (record {
      content = with_value_at (known_state d (view pass.old)).content key value;
      table = (known_state d (view pass.old)).table;
    })
        (view pass.old) }
    ensures pass { IsPassOf bank.now pass.new }
    ensures stack { stack_of pass.new ≡ stack_of pass.old }
    ensures wrote { WroteThere (shape_of bank.now) d key (call.Dict d (dict.Set key value)) reply.Done result (view pass.old)
        (view pass.new) }
    ensures names { are_of_value words.0 words.1 value ≡ false → NamesBoxAt d key (box_of held) (view pass.new) }
{
    let called = Call::Dict {
        container: d,
        call: DictCall::Set { key, value },
    };
    let said = Reply::Done;
    let (table, place) = at;
    if says_value(words, value) {
        release(bank, pass, held);
        return set_entry(
            bank, pass, d, table, place, key, value, words, &called, &said,
        );
    }
    let stored = Stored::Boxed(keep(bank, pass, held));
    store_entry(bank, pass, d, table, place, stored, &called, &said)
}

/// `d[k] = v` (Python manual, Mapping Types), by a pass that has the dict's lock, where `v` stands in a box for which the
/// pass holds the one reference. The entry of the key names that box then, unless it had an equal value already; where it
/// had, and where no entry is made, the reference is dropped.
///
/// # Errors
///
/// Those of [`add_held`], where the key isn't there.
pub fn set_held(
    bank: &Bank,
    pass: &mut Pass,
    d: Object,
    key: Key,
    value: Value,
    held: Held,
) -> Added
    requires pass { IsPassOf bank.now pass.old }
    requires may { MayBeginEntries (shape_of bank.now) d (view pass.old) }
    requires used { used (view pass.old).log ≡ false }
    requires idle { flight (view pass.old).log ≡ 0 }
    requires dict { kind_in (shape_of bank.now).starts d ≡ kind.Dict }
    requires key { IsKeyIn (shape_of bank.now) key }
    requires held { HoldsValue (box_of held) value (view pass.old) }
    requires boxed { is_boxed value ≡ true }
    ensures pass { IsPassOf bank.now pass.new }
    ensures stack { stack_of pass.new ≡ stack_of pass.old }
    ensures put { PutsHeld (shape_of bank.now) d key (call.Dict d (dict.Set key value)) reply.Done (view pass.old)
        (view pass.new) result }
    ensures names { (stamp : Stamp) → result ≡ added.Made stamp →
        dict_get (dict_of (known_state d (view pass.old)).content).pairs key ≢ Some value →
        NamesBoxAt d key (box_of held) (view pass.new) }
{
    value_fits(value);
    let called = Call::Dict {
        container: d,
        call: DictCall::Set { key, value },
    };
    let said = Reply::Done;
    let hash = bank.hash_of(key);
    match seek_by(bank, pass, d, Way::Dict, key, hash) {
        Spot::At(table, place, value_kind, payload) => {
            let at = (table, place);
            let words = (value_kind, payload);
            let number = set_there(bank, pass, d, at, words, key, value, held);
            Added::Made(written(number))
        }
        Spot::Free(table, slot) => {
            let at = (Some(table), slot);
            add_held(bank, pass, d, at, key, value, held, &called, &said)
        }
        Spot::Bare => {
            let at = (None, 0);
            add_held(bank, pass, d, at, key, value, held, &called, &said)
        }
    }
}

/// `d.setdefault(k, v)` (Python manual, Mapping Types), by a pass that has the dict's lock, where `v` stands in a box for
/// which the pass holds the one reference: what it comes to, and what it replies where it is made. A key that isn't there
/// gets an entry that names the box; where it is there, and where no entry is made, the reference is dropped.
///
/// # Errors
///
/// Those of [`add_held`], where the key isn't there.
pub fn set_default_held(
    bank: &Bank,
    pass: &mut Pass,
    d: Object,
    key: Key,
    default: Value,
    held: Held,
) -> (Added, Reply)
    requires pass { IsPassOf bank.now pass.old }
    requires may { MayBeginEntries (shape_of bank.now) d (view pass.old) }
    requires used { used (view pass.old).log ≡ false }
    requires idle { flight (view pass.old).log ≡ 0 }
    requires dict { kind_in (shape_of bank.now).starts d ≡ kind.Dict }
    requires key { IsKeyIn (shape_of bank.now) key }
    requires held { HoldsValue (box_of held) default (view pass.old) }
    requires boxed { is_boxed default ≡ true }
    ensures pass { IsPassOf bank.now pass.new }
    ensures stack { stack_of pass.new ≡ stack_of pass.old }
    ensures said { result.1 ≡ default_reply (known_state d (view pass.old)).content key default }
    ensures put { PutsHeld (shape_of bank.now) d key (call.Dict d (dict.SetDefault key default)) result.1 (view pass.old)
        (view pass.new) result.0 }
    ensures names { (stamp : Stamp) → result.0 ≡ added.Made stamp →
        has_key (dict_of (known_state d (view pass.old)).content).pairs key ≡ false →
        NamesBoxAt d key (box_of held) (view pass.new) }
{
    value_fits(default);
    let called = Call::Dict {
        container: d,
        call: DictCall::SetDefault { key, default },
    };
    let reply = Reply::Value(default);
    let hash = bank.hash_of(key);
    match seek_by(bank, pass, d, Way::Dict, key, hash) {
        Spot::At(_, _, value_kind, payload) => {
            let said = Reply::Value(value_at(bank, pass, d, key, value_kind, payload));
            release(bank, pass, held); // no entry is to name the box
            let number = write_nothing(bank, pass, d, &called, &said);
            (Added::Made(written(number)), said)
        }
        Spot::Free(table, slot) => {
            let at = (Some(table), slot);
            let added = add_held(bank, pass, d, at, key, default, held, &called, &reply);
            (added, reply)
        }
        Spot::Bare => {
            let at = (None, 0);
            let added = add_held(bank, pass, d, at, key, default, held, &called, &reply);
            (added, reply)
        }
    }
}
