//! A key that isn't there is added to a dict or a set whose table has room for it, as one whole write.
ghost use Rattle.std.specs.Prelude.{◌≡◌, ◌+◌, ◌^◌, ◌<◌, Some, None, []};
ghost use Rattle.ft_model.specs.Worlds.{serial_of};
ghost use Rattle.ft_layout.specs.Words.{FitsKey, FitsStored};
ghost use Rattle.ft_trace.specs.Addresses.{class_of};
ghost use Rattle.ft_trace.specs.Holds.{held_unboxed, known_state};
ghost use Rattle.ft_trace.specs.Kinds.{rows};
ghost use Rattle.ft_trace.specs.Pictures.{root_in};
ghost use Rattle.ft_trace.specs.ContainerStates.{kind_in};
ghost use Rattle.ft_bank.specs.KeyHashes.{IsKeyIn};
ghost use Rattle.ft_bank.specs.Passes.{shape_of, view, IsPassOf};
ghost use Rattle.ft_bank.specs.PassSections.{stack_of};
ghost use Rattle.ft_bank.specs.TableNames.{table_id};
ghost use Rattle.ft_bank.specs.Whole.{Wrote};
ghost use Rattle.ft_search.specs.Held.{IsHeldAt};
ghost use Rattle.ft_search.specs.Rounds.{kind_by};
ghost use Rattle.ft_search.specs.OneEntryWrites.{HasTable, Leaves, MayBeginEntries};
ghost use Rattle.ft_new_keys.specs.HeldKeys.{HoldsFor, KeyInBox, PutsInBox};
ghost use Rattle.ft_new_keys.specs.KeyGrowth.{IsFreeFor};
ghost use Rattle.ft_new_keys.specs.Placing.{AreCounts, StoresAs, with_key};

use crate::counts::Counts;
use crate::naming::{NewValue, name_box};
use crate::placing::put_key;
use ft_bank::{Bank, Pass, Table};
use ft_keys::{Way, placed_pairs_are_of_a_table};
use ft_layout::{
    Pair, used_entries_follow_a_dict, used_entries_follow_a_set, versions_change_nothing,
    words_are_of_one_content, words_follow_a_dict, words_follow_a_set,
};
use ft_model::{Call, Key, Reply};
use ft_search::finish_entry;

/// Adds a key to a dict or a set whose table has room for it, as the write of this call: in this slot, the
/// first for the key there that was never used. Its value stands in a box for which the pass holds the one reference, or
/// in its place. Answers the number of the write.
pub(crate) fn add_in_room(
    bank: &Bank,
    pass: &mut Pass,
    o: u32,
    way: Way,
    table: Table,
    slot: u64,
    counts: Counts,
    key: Key,
    value: NewValue,
    called: &Call,
    said: &Reply,
) -> u64
    requires pass { IsPassOf bank.now pass.old }
    requires may { MayBeginEntries (shape_of bank.now) o (view pass.old) }
    requires holds { HoldsFor value.boxed value.stored (view pass.old) }
    requires boxing { PutsInBox value.boxed called.now (view pass.old) }
    requires way { kind_in (shape_of bank.now).starts o ≡ kind_by way }
    requires table { HasTable (shape_of bank.now) o table (view pass.old) }
    requires key { IsKeyIn (shape_of bank.now) key }
    requires fits { FitsKey key }
    requires slot { IsFreeFor (shape_of bank.now).texts way table.class key (held_unboxed o (view pass.old)).table
        slot }
    requires absent { IsHeldAt (known_state o (view pass.old)).content key None }
    requires counts { AreCounts (held_unboxed o (view pass.old)).block counts }
    requires room { counts.fill < rows (kind_by way) (class_of (table_id table)) }
    requires few { counts.count < 65536 }
    requires serials { serial_of (known_state o (view pass.old)).content < 2 ^ 63 }
    requires stores { StoresAs (kind_by way) value.stored }
    requires value { FitsStored value.stored }
    requires leaves { Leaves o called.now said.now (record {
      content = with_key (known_state o (view pass.old)).content key value.stored;
      table = record { class = Some (class_of (table_id table)); fill = counts.fill + 1; keys = [] };
    }) (view pass.old) }
    ensures pass { IsPassOf bank.now pass.new }
    ensures stack { stack_of pass.new ≡ stack_of pass.old }
    ensures wrote { Wrote called.now said.now result (view pass.old) (view pass.new) }
    ensures there { KeyInBox (shape_of bank.now) o key value.boxed (view pass.new) }
    ensures root { root_in (held_unboxed o (view pass.new)) ≡ root_in (held_unboxed o (view pass.old)) }
{
    let _ = way;
    versions_change_nothing();
    placed_pairs_are_of_a_table();
    words_are_of_one_content();
    used_entries_follow_a_dict();
    used_entries_follow_a_set();
    words_follow_a_dict();
    words_follow_a_set();
    let hash = bank.hash_of(key);
    let pair = Pair {
        hash,
        key,
        value: value.stored,
        serial: counts.next,
    };
    bank.start_write(pass, o);
    put_key(bank, pass, o, table, slot, counts, &pair);
    name_box(bank, pass, o, table, counts.fill, value.boxed);
    finish_entry(bank, pass, o, table, counts.fill, called, said)
}
