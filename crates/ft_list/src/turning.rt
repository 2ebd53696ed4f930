//! `l.reverse()` of a list whose lock the pass has: one whole write, in which the items are swapped pairwise.
ghost use Rattle.std.specs.Prelude.{◌≡◌, ◌+◌, ◌-◌, ◌/◌, ◌<◌, ◌≤◌, List, false, true, length, reverse};
ghost use Rattle.ft_model.specs.declared.call.Call.TheVariants as call;
ghost use Rattle.ft_model.specs.declared.call.ListCall.{ListCall};
ghost use Rattle.ft_model.specs.declared.call.ListCall.TheVariants as list;
ghost use Rattle.ft_model.specs.declared.data.Value.{Value};
ghost use Rattle.ft_model.specs.declared.reply.Reply.TheVariants as reply;
ghost use Rattle.ft_trace.specs.Acts.{has_committed};
ghost use Rattle.ft_trace.specs.Addresses.{class_of, slots};
ghost use Rattle.ft_trace.specs.Holds.{held_unboxed};
ghost use Rattle.ft_trace.specs.Pictures.{root_in};
ghost use Rattle.ft_bank.specs.Passes.{shape_of, view, IsPassOf};
ghost use Rattle.ft_bank.specs.PassSections.{stack_of};
ghost use Rattle.ft_bank.specs.TableNames.{table_id};
ghost use Rattle.ft_bank.specs.SameBoxes.{SameReferences};
ghost use Rattle.ft_bank.specs.Whole.{OnlyWritten, Wrote};
ghost use Rattle.ft_list.specs.ListWrites.{MayWriteList, Changes};
ghost use Rattle.ft_list.specs.ListItemWrites.{WritesList, IsPutting, known_items, stored_item};
ghost use Rattle.ft_search.specs.MadeCalls.{MadeAs};
ghost use Rattle.ft_search.specs.OneEntryWrites.{HasTable};
ghost use Rattle.ft_list.specs.Internal.Carrying.{HoldsSpare};
ghost use Rattle.ft_list.specs.Internal.Reversing.{IsTurning};

use crate::bare::write_nothing;
use crate::items::{carry_item, finish, let_go};
use crate::locked::count_of;
use crate::values::held_value;
use crate::writes::begin;
use ft_bank::{Bank, Pass, Table};
use ft_model::{Call, ListCall, Reply};
use ft_search::table_named;
use ft_section::{Object, Stamp};

/// Swaps two items, the later one as far from the last as the earlier one from the first. Where they differ the later one
/// is emptied first, so that no two of them name the same box.
fn swap(bank: &Bank, pass: &mut Pass, o: u32, table: Table, count: u64, at: u64)
    requires pass { IsPassOf bank.now pass.old }
    requires list { WritesList (shape_of bank.now) o table (view pass.old) }
    requires early { has_committed o (view pass.old).log ≡ false }
    requires places { (at < count - 1 - at) × (count ≤ slots (class_of (table_id table))) }
    requires spare { HoldsSpare (shape_of bank.now) (view pass.old) }
    ensures pass { IsPassOf bank.now pass.new }
    ensures stack { stack_of pass.new ≡ stack_of pass.old }
    ensures list { WritesList (shape_of bank.now) o table (view pass.new) }
    ensures only { OnlyWritten o (view pass.old) (view pass.new) }
    ensures references { SameReferences (view pass.old) (view pass.new) }
    ensures block { (held_unboxed o (view pass.new)).block ≡ (held_unboxed o (view pass.old)).block }
    ensures turned { (values : List Value) → length values ≡ count →
        IsTurning (class_of (table_id table)) values at (held_unboxed o (view pass.old)).table →
        IsTurning (class_of (table_id table)) values (at + 1) (held_unboxed o (view pass.new)).table }
{
    let last = count - 1 - at;
    let start = bank.cell_of(table);
    let (kind, payload) = held_value(bank, pass, o, table, start, at);
    let (late_kind, late_payload) = held_value(bank, pass, o, table, start, last);
    if late_kind == kind && late_payload == payload {
        return;
    }
    let late = carry_item(bank, pass, o, table, last, (0, 0));
    let early = carry_item(bank, pass, o, table, at, late);
    let nothing = carry_item(bank, pass, o, table, last, early);
    let_go(bank, pass, o, table, nothing);
}

/// Swaps the first item with the last one, and so on up to the middle.
fn turn(bank: &Bank, pass: &mut Pass, o: u32, table: Table, count: u64)
    requires pass { IsPassOf bank.now pass.old }
    requires list { WritesList (shape_of bank.now) o table (view pass.old) }
    requires early { has_committed o (view pass.old).log ≡ false }
    requires spare { HoldsSpare (shape_of bank.now) (view pass.old) }
    requires count { count ≤ slots (class_of (table_id table)) }
    ensures pass { IsPassOf bank.now pass.new }
    ensures stack { stack_of pass.new ≡ stack_of pass.old }
    ensures list { WritesList (shape_of bank.now) o table (view pass.new) }
    ensures only { OnlyWritten o (view pass.old) (view pass.new) }
    ensures references { SameReferences (view pass.old) (view pass.new) }
    ensures block { (held_unboxed o (view pass.new)).block ≡ (held_unboxed o (view pass.old)).block }
    ensures turned { (values : List Value) → length values ≡ count →
        IsPutting (class_of (table_id table)) values 0 count (stored_item values) (held_unboxed o (view pass.old)).table →
        IsTurning (class_of (table_id table)) values (count / 2) (held_unboxed o (view pass.new)).table }
{
    for at in 0..count / 2 {
        swap(bank, pass, o, table, count, at);
    }
}

/// Turns the items of a list round, as the write of this call. Answers the number of the write.
fn reverse_items(
    bank: &Bank,
    pass: &mut Pass,
    o: u32,
    table: Table,
    count: u64,
    called: &Call,
    said: &Reply,
) -> u64
    requires pass { IsPassOf bank.now pass.old }
    requires may { MayWriteList (shape_of bank.now) o (view pass.old) }
    requires table { HasTable (shape_of bank.now) o table (view pass.old) }
    requires count { count ≡ length (known_items o (view pass.old)) }
    requires call { (lc : ListCall) × (called.now ≡ call.List o lc) × Changes o lc said.now
        (known_items o (view pass.old)) (reverse (known_items o (view pass.old))) (view pass.old) }
    ensures pass { IsPassOf bank.now pass.new }
    ensures stack { stack_of pass.new ≡ stack_of pass.old }
    ensures wrote { Wrote called.now said.now result (view pass.old) (view pass.new) }
    ensures root { root_in (held_unboxed o (view pass.new)) ≡ root_in (held_unboxed o (view pass.old)) }
    ensures references { SameReferences (view pass.old) (view pass.new) }
{
    begin(bank, pass, o, table);
    turn(bank, pass, o, table, count);
    finish(bank, pass, o, table, called, said, 0, count)
}

/// `l.reverse()`, under the lock (Python manual, Mutable Sequence Types).
pub fn reverse_locked(bank: &Bank, pass: &mut Pass, l: Object) -> (Reply, Stamp)
    requires pass { IsPassOf bank.now pass.old }
    requires may { MayWriteList (shape_of bank.now) l (view pass.old) }
    ensures pass { IsPassOf bank.now pass.new }
    ensures stack { stack_of pass.new ≡ stack_of pass.old }
    ensures made { MadeAs (call.List l list.Reverse) result.0 result.1 (view pass.old) (view pass.new) }
    ensures done { (result.0 ≡ reply.Done) × (result.1.wrote ≡ true) }
{
    let called = Call::List {
        container: l,
        call: ListCall::Reverse,
    };
    let said = Reply::Done;
    let count = count_of(bank, pass, l);
    let root = bank.read_block(pass, l, 0);
    match table_named(root) {
        Some(table) => {
            let number = reverse_items(bank, pass, l, table, count, &called, &said);
            (
                said,
                Stamp {
                    number,
                    wrote: true,
                },
            )
        }
        None => {
            let number = write_nothing(bank, pass, l, &called, &said);
            (
                said,
                Stamp {
                    number,
                    wrote: true,
                },
            )
        }
    }
}
