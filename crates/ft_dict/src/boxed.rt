//! Calls that put a value in a dict which belongs in a box: an integer that isn't small, or a string. The pass makes the box
//! in its own heap, under the lock and before a table is taken.
ghost use Rattle.std.specs.Prelude.{◌≡◌, true, false};
ghost use Rattle.ft_layout.specs.Words.{FitsKey};
ghost use Rattle.ft_model.specs.Boxings.{is_boxed};
ghost use Rattle.ft_model.specs.declared.call.Call.TheVariants as call;
ghost use Rattle.ft_model.specs.declared.call.DictCall.TheVariants as dict;
ghost use Rattle.ft_model.specs.declared.reply.Reply.TheVariants as reply;
ghost use Rattle.ft_model.specs.declared.script.Kind.TheVariants as kind;
ghost use Rattle.ft_trace.specs.Acts.{flight, used};
ghost use Rattle.ft_trace.specs.Boxes.{IsDoneWithBoxes};
ghost use Rattle.ft_trace.specs.ContainerStates.{kind_in};
ghost use Rattle.ft_trace.specs.Holds.{known_state};
ghost use Rattle.ft_bank.specs.KeyHashes.{IsKeyIn};
ghost use Rattle.ft_bank.specs.Passes.{shape_of, view, IsPassOf};
ghost use Rattle.ft_bank.specs.PassSections.{stack_of};
ghost use Rattle.ft_bank.specs.Whole.{OnlyLoaded};
ghost use Rattle.ft_search.specs.OneEntryWrites.{MayWriteEntries};
ghost use Rattle.ft_table_calls.specs.Adding.{KeepsCursors};
ghost use Rattle.ft_new_keys.specs.KeyGrowth.{holds};
ghost use Rattle.ft_dict.specs.BoxedCalls.{PutsBoxed, SetsDefaultBoxed, has_too_many};

use crate::deletes::{key_fits, value_fits};
use crate::held::{set_default_held, set_held};
use crate::values::default_there;
use ft_bank::{Bank, Pass};
use ft_boxes::{Made, make};
use ft_keys::Way;
use ft_layout::words_are_of_one_content;
use ft_model::{Call, DictCall, Key, MOST_PAIRS, Reply, Value};
use ft_new_keys::read_counts;
use ft_search::{Spot, seek_key};
use ft_section::Object;
use ft_table_calls::{Added, answer_full, answer_over};

/// Whether a dict whose lock the pass has would have more pairs than the largest table holds, once it has this key. The key
/// is looked for only where the dict has as many pairs as that.
fn is_too_much(bank: &Bank, pass: &mut Pass, d: Object, key: Key) -> bool
    requires pass { IsPassOf bank.now pass.old }
    requires may { MayWriteEntries (shape_of bank.now) d (view pass.old) }
    requires dict { kind_in (shape_of bank.now).starts d ≡ kind.Dict }
    requires key { IsKeyIn (shape_of bank.now) key }
    ensures pass { IsPassOf bank.now pass.new }
    ensures stack { stack_of pass.new ≡ stack_of pass.old }
    ensures may { MayWriteEntries (shape_of bank.now) d (view pass.new) }
    ensures only { OnlyLoaded (view pass.old) (view pass.new) }
    ensures much { result ≡ has_too_many (known_state d (view pass.old)) key }
{
    words_are_of_one_content();
    let counts = read_counts(bank, pass, d);
    if counts.count < MOST_PAIRS as u64 {
        return false;
    }
    match seek_key(bank, pass, d, Way::Dict, key) {
        Spot::At(_, _, _, _) => false,
        Spot::Free(_, _) => true,
        Spot::Bare => true,
    }
}

/// `d[k] = v` (Python manual, Mapping Types), by a pass that has the dict's lock, where `v` belongs in a box.
///
/// # Errors
///
/// `NoPlace` where no place of the pass's heap is free; else those of `set_by`.
#[inline(never)]
pub fn set_boxed(bank: &Bank, pass: &mut Pass, d: Object, key: Key, value: Value) -> Added
    requires pass { IsPassOf bank.now pass.old }
    requires may { MayWriteEntries (shape_of bank.now) d (view pass.old) }
    requires used { used (view pass.old).log ≡ false }
    requires idle { flight (view pass.old).log ≡ 0 }
    requires dict { kind_in (shape_of bank.now).starts d ≡ kind.Dict }
    requires key { IsKeyIn (shape_of bank.now) key }
    requires boxed { is_boxed value ≡ true }
    ensures pass { IsPassOf bank.now pass.new }
    ensures stack { stack_of pass.new ≡ stack_of pass.old }
    ensures put { PutsBoxed (shape_of bank.now) d key value (call.Dict d (dict.Set key value)) reply.Done (view pass.old)
        (view pass.new) result }
    ensures cursors { KeepsCursors (view pass.old) (view pass.new) }
    ensures boxes { IsDoneWithBoxes (shape_of bank.now) (view pass.new).log }
{
    key_fits(key);
    value_fits(value);
    let called = Call::Dict {
        container: d,
        call: DictCall::Set { key, value },
    };
    if is_too_much(bank, pass, d, key) {
        return Added::Over(answer_over(bank, pass, &called));
    }
    match make(bank, pass, value) {
        Made::Up(held) => set_held(bank, pass, d, key, value, held),
        Made::HeapFull => Added::NoPlace(answer_full(bank, pass, &called)),
    }
}

/// Adds a key that isn't there, as the write of `d.setdefault(k, v)`, where `v` belongs in a box.
fn add_default(bank: &Bank, pass: &mut Pass, d: Object, key: Key, default: Value) -> (Added, Reply)
    requires pass { IsPassOf bank.now pass.old }
    requires may { MayWriteEntries (shape_of bank.now) d (view pass.old) }
    requires used { used (view pass.old).log ≡ false }
    requires idle { flight (view pass.old).log ≡ 0 }
    requires dict { kind_in (shape_of bank.now).starts d ≡ kind.Dict }
    requires key { IsKeyIn (shape_of bank.now) key }
    requires boxed { is_boxed default ≡ true }
    requires fits { FitsKey key }
    requires absent { holds (known_state d (view pass.old)).content key ≡ false }
    ensures pass { IsPassOf bank.now pass.new }
    ensures stack { stack_of pass.new ≡ stack_of pass.old }
    ensures put { SetsDefaultBoxed (shape_of bank.now) d key default result.1 (view pass.old) (view pass.new) result.0 }
    ensures cursors { KeepsCursors (view pass.old) (view pass.new) }
    ensures boxes { IsDoneWithBoxes (shape_of bank.now) (view pass.new).log }
{
    value_fits(default);
    words_are_of_one_content();
    let called = Call::Dict {
        container: d,
        call: DictCall::SetDefault { key, default },
    };
    let said = Reply::Value(default);
    let counts = read_counts(bank, pass, d);
    if counts.count >= MOST_PAIRS as u64 {
        return (Added::Over(answer_over(bank, pass, &called)), said);
    }
    match make(bank, pass, default) {
        Made::Up(held) => set_default_held(bank, pass, d, key, default, held),
        Made::HeapFull => (Added::NoPlace(answer_full(bank, pass, &called)), said),
    }
}

/// `d.setdefault(k, v)` (Python manual, Mapping Types), by a pass that has the dict's lock, where `v` belongs in a box: what
/// it comes to, and what it replies where it is made. A key that is there gets no box.
///
/// # Errors
///
/// As those of [`set_boxed`], where the key isn't there.
#[inline(never)]
pub fn setdefault_boxed(
    bank: &Bank,
    pass: &mut Pass,
    d: Object,
    key: Key,
    default: Value,
) -> (Added, Reply)
    requires pass { IsPassOf bank.now pass.old }
    requires may { MayWriteEntries (shape_of bank.now) d (view pass.old) }
    requires used { used (view pass.old).log ≡ false }
    requires idle { flight (view pass.old).log ≡ 0 }
    requires dict { kind_in (shape_of bank.now).starts d ≡ kind.Dict }
    requires key { IsKeyIn (shape_of bank.now) key }
    requires boxed { is_boxed default ≡ true }
    ensures pass { IsPassOf bank.now pass.new }
    ensures stack { stack_of pass.new ≡ stack_of pass.old }
    ensures put { SetsDefaultBoxed (shape_of bank.now) d key default result.1 (view pass.old) (view pass.new) result.0 }
    ensures cursors { KeepsCursors (view pass.old) (view pass.new) }
    ensures boxes { IsDoneWithBoxes (shape_of bank.now) (view pass.new).log }
{
    match seek_key(bank, pass, d, Way::Dict, key) {
        Spot::At(_, _, value_kind, payload) => {
            default_there(bank, pass, d, key, default, (value_kind, payload))
        }
        Spot::Free(_, _) => add_default(bank, pass, d, key, default),
        Spot::Bare => add_default(bank, pass, d, key, default),
    }
}
