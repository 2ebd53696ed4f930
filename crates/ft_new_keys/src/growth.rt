//! Dicts and sets that get another table, under the lock. The new table is filled with what the container has
//! before the container's version is made odd; then it is put into the root, and the new key is added there
//! like any other. So who looks without the lock finds the same in either table until the counter is raised.
//! Values that stand in boxes have their boxes in the new table as well: the references move with the root. Only those of
//! deleted entries are dropped.
ghost use Rattle.std.specs.Prelude.{◌≡◌, ◌≢◌, ℕ, suc, ◌+◌, ◌^◌, ◌<◌, ◌≤◌, List, [], ◌∷◌, All, filter, Option, nat_lt, false, Some, None, slice_set};
ghost use Rattle.ft_model.specs.Classes.{IsClass};
ghost use Rattle.ft_model.specs.Worlds.{length_of, serial_of};
ghost use Rattle.ft_layout.specs.Containers.{class_mask};
ghost use Rattle.ft_layout.specs.Tables.{UsedEntry, is_live};
ghost use Rattle.ft_layout.specs.Words.{FitsKey, FitsStored};
ghost use Rattle.ft_keys.specs.Ways.{IsTableOf};
ghost use Rattle.ft_trace.specs.Acts.{stage};
ghost use Rattle.ft_trace.specs.Addresses.{container_count, class_of};
ghost use Rattle.ft_trace.specs.Boxes.{references_held, IsSettled};
ghost use Rattle.ft_trace.specs.Holds.{held_unboxed, known_state, hand_unboxed};
ghost use Rattle.ft_trace.specs.Kinds.{rows};
ghost use Rattle.ft_trace.specs.Pictures.{root_in};
ghost use Rattle.ft_trace.specs.ContainerStates.{kind_in};
ghost use Rattle.ft_bank.specs.KeyHashes.{IsKeyIn};
ghost use Rattle.ft_bank.specs.Passes.{shape_of, view, IsPassOf};
ghost use Rattle.ft_bank.specs.PassSections.{stack_of};
ghost use Rattle.ft_bank.specs.SameBoxes.{SameReferences, StaysSettled};
ghost use Rattle.ft_bank.specs.declared.table.Table.{Table};
ghost use Rattle.ft_bank.specs.TableNames.{table_id, IsTableIn};
ghost use Rattle.ft_bank.specs.Whole.{OnlyBoxed, OnlyLoaded, Wrote};
ghost use Rattle.ft_boxes.specs.References.{KeepsValues};
ghost use Rattle.ft_table_calls.specs.Dropping.{AreValuePlaces};
ghost use Rattle.ft_search.specs.Held.{IsHeldAt, KnowsTable};
ghost use Rattle.ft_search.specs.Rounds.{kind_by};
ghost use Rattle.ft_search.specs.OneEntryWrites.{WritesEntries};
ghost use Rattle.ft_new_keys.specs.Moving.{HasMoved};
ghost use Rattle.ft_new_keys.specs.KeyGrowth.{AddsKey, BeginsIn, HoldsOld, IsFreeFor, MayBeginKeyed, key_takes, most_of, named_in_old};
ghost use Rattle.ft_new_keys.specs.HeldKeys.{HoldsFor, KeyInBox, MayPutInNew, PutsInBox};
ghost use Rattle.ft_new_keys.specs.Placing.{AreCounts, StoresAs};

use crate::counts::Counts;
use crate::filling::{Growth, move_entries};
use crate::gone::drop_gone;
use crate::naming::{NewValue, name_box};
use crate::placing::put_key;
use ft_bank::{Bank, Pass, Table};
use ft_keys::{
    Found, Way, placed_pairs_are_of_a_table, room_of, searches_end_at_the_first_free_slot,
};
use ft_layout::{
    Pair, entry_word, used_entries_follow_a_dict, used_entries_follow_a_set,
    versions_change_nothing, words_are_of_one_content, words_follow_a_dict, words_follow_a_set,
};
use ft_model::{Call, Key, Reply};
use ft_search::{finish_entry, mask_of, read_in};
use ft_table_calls::{ValuePlaces, drop_values};

/// Where the values of the entries lie in a table of a dict or a set of this class.
fn entry_values(way: Way, class: u32) -> ValuePlaces
    requires class { IsClass class }
    ensures { AreValuePlaces (kind_by way) class result }
{
    let mask = mask_of(class);
    ValuePlaces {
        first: mask + 1 + entry_word::VALUE_KIND,
        step: 8,
        rows: room_of(way, mask),
    }
}

/// Drops the references of the values of the table that a dict or a set had before a write put another root, if it had
/// one: they are among those that the pass holds.
pub fn drop_old(bank: &Bank, pass: &mut Pass, o: u32, way: Way, old: Option<Table>)
    requires pass { IsPassOf bank.now pass.old }
    requires way { kind_in (shape_of bank.now).starts o ≡ kind_by way }
    requires out { (t : Table) → old ≡ Some t →
        IsTableIn (shape_of bank.now) t × (stage (table_id t) (view pass.old).log ≡ 3) }
    requires settled { IsSettled (view pass.old).log }
    requires held { HoldsOld (shape_of bank.now) o old (view pass.old) }
    ensures pass { IsPassOf bank.now pass.new }
    ensures stack { stack_of pass.new ≡ stack_of pass.old }
    ensures only { OnlyBoxed (view pass.old) (view pass.new) }
    ensures made { StaysSettled (view pass.old) (view pass.new) }
    ensures values { KeepsValues (view pass.old) (view pass.new) }
    ensures references { (b : ℕ) → references_held (shape_of bank.now) b (view pass.new).log
        + named_in_old (shape_of bank.now) o old (view pass.old) b
        ≡ references_held (shape_of bank.now) b (view pass.old).log }
{
    if let Some(table) = old {
        drop_values(bank, pass, o, table, entry_values(way, table.class));
    }
}

/// Makes the version of a dict or a set odd and puts a table into its root that has what it has, each value in the box in
/// which it stands, whose reference the new words have. The references of deleted entries are dropped.
pub fn begin_in(bank: &Bank, pass: &mut Pass, o: u32, way: Way, old: Option<Table>, table: Table)
    requires pass { IsPassOf bank.now pass.old }
    requires way { kind_in (shape_of bank.now).starts o ≡ kind_by way }
    requires may { MayBeginKeyed (shape_of bank.now) o old table (view pass.old) }
    requires moved { HasMoved (shape_of bank.now) o table (view pass.old) }
    ensures pass { IsPassOf bank.now pass.new }
    ensures stack { stack_of pass.new ≡ stack_of pass.old }
    ensures begins { BeginsIn o table (view pass.old) (view pass.new) }
    ensures writes { WritesEntries (shape_of bank.now) o table (view pass.new) }
    ensures references { SameReferences (view pass.old) (view pass.new) }
    ensures values { KeepsValues (view pass.old) (view pass.new) }
    ensures words { held_unboxed o (view pass.new) ≡ record {
      block = slice_set (held_unboxed o (view pass.old)).block 0 (suc (table_id table));
      table = hand_unboxed o (table_id table) (view pass.old);
    } }
{
    words_are_of_one_content();
    used_entries_follow_a_dict();
    used_entries_follow_a_set();
    bank.start_write(pass, o);
    bank.put_root(pass, o, Some(table));
    drop_gone(bank, pass, o, way, old);
}

/// The first slot for a key that was never used, in the table of a container that hasn't the key.
fn free_slot(bank: &Bank, pass: &mut Pass, o: u32, way: Way, key: Key, table: Table) -> u64
    requires pass { IsPassOf bank.now pass.old }
    requires container { o < container_count (shape_of bank.now) }
    requires way { kind_in (shape_of bank.now).starts o ≡ kind_by way }
    requires key { IsKeyIn (shape_of bank.now) key }
    requires table { IsTableIn (shape_of bank.now) table }
    requires knows { KnowsTable o (table_id table) (view pass.old) }
    requires absent { (used : List UsedEntry) × IsTableOf way (shape_of bank.now).texts (class_mask table.class) used
        (0 ∷ 0 ∷ (held_unboxed o (view pass.old)).table) × All (λ entry. entry.key ≢ key) (filter is_live used) }
    ensures pass { IsPassOf bank.now pass.new }
    ensures stack { stack_of pass.new ≡ stack_of pass.old }
    ensures only { OnlyLoaded (view pass.old) (view pass.new) }
    ensures slot { IsFreeFor (shape_of bank.now).texts way table.class key (held_unboxed o (view pass.old)).table
        result }
{
    searches_end_at_the_first_free_slot();
    let (found, _) = read_in(bank, pass, o, way, key, table);
    match found {
        Found::Free(slot) => slot,
        Found::At(_, _) => unreachable!(),
        Found::Was(_, _) => unreachable!(),
        Found::Spent => unreachable!(),
    }
}

/// Adds a key to a dict or a set, which gets this table, as the write of this call. Its value stands in a box for
/// which the pass holds the one reference, or in its place. Answers the number of the write.
pub(crate) fn add_in_new(
    bank: &Bank,
    pass: &mut Pass,
    o: u32,
    way: Way,
    old: Option<Table>,
    table: Table,
    counts: Counts,
    key: Key,
    value: NewValue,
    called: &Call,
    said: &Reply,
) -> u64
    requires pass { IsPassOf bank.now pass.old }
    requires may { MayPutInNew (shape_of bank.now) o old table (view pass.old) }
    requires holds { HoldsFor value.boxed value.stored (view pass.old) }
    requires boxing { PutsInBox value.boxed called.now (view pass.old) }
    requires way { kind_in (shape_of bank.now).starts o ≡ kind_by way }
    requires other { root_in (held_unboxed o (view pass.old)) ≢ suc (table_id table) }
    requires key { IsKeyIn (shape_of bank.now) key }
    requires fits { FitsKey key }
    requires absent { IsHeldAt (known_state o (view pass.old)).content key None }
    requires counts { AreCounts (held_unboxed o (view pass.old)).block counts }
    requires room { counts.count < rows (kind_by way) (class_of (table_id table)) }
    requires serials { serial_of (known_state o (view pass.old)).content < 2 ^ 63 }
    requires stores { StoresAs (kind_by way) value.stored }
    requires value { FitsStored value.stored }
    requires adds { AddsKey o called.now said.now key value.stored (view pass.old) }
    requires few { nat_lt (most_of (known_state o (view pass.old)).content)
        (length_of (known_state o (view pass.old)).content + 1) ≡ false }
    requires takes { key_takes (known_state o (view pass.old)).content (known_state o (view pass.old)).table
        ≡ Some (class_of (table_id table)) }
    ensures pass { IsPassOf bank.now pass.new }
    ensures stack { stack_of pass.new ≡ stack_of pass.old }
    ensures wrote { Wrote called.now said.now result (view pass.old) (view pass.new) }
    ensures there { KeyInBox (shape_of bank.now) o key value.boxed (view pass.new) }
    ensures root { root_in (held_unboxed o (view pass.new)) ≡ suc (table_id table) }
{
    versions_change_nothing();
    placed_pairs_are_of_a_table();
    words_are_of_one_content();
    used_entries_follow_a_dict();
    used_entries_follow_a_set();
    words_follow_a_dict();
    words_follow_a_set();
    let growth = Growth {
        way,
        old,
        table,
        fill: counts.fill,
    };
    move_entries(bank, pass, o, &growth);
    begin_in(bank, pass, o, way, old, table);
    let slot = free_slot(bank, pass, o, way, key, table);
    let hash = bank.hash_of(key);
    let pair = Pair {
        hash,
        key,
        value: value.stored,
        serial: counts.next,
    };
    let all = Counts {
        count: counts.count,
        fill: counts.count,
        next: counts.next,
    };
    put_key(bank, pass, o, table, slot, all, &pair);
    name_box(bank, pass, o, table, all.fill, value.boxed);
    finish_entry(bank, pass, o, table, counts.count, called, said)
}
