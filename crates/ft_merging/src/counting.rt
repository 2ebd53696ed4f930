//! How many keys of one dict or set another one lacks, by a pass that has the locks of both.
ghost use Rattle.std.specs.Prelude.{◌≡◌, ◌&&◌, ◌<◌, ◌≤◌, ◌∷◌, not, List, length, slice_index_or, Some};
ghost use Rattle.ft_layout.specs.Containers.{class_mask};
ghost use Rattle.ft_layout.specs.Tables.{UsedEntry, is_live};
ghost use Rattle.ft_keys.specs.Ways.{IsTableOf};
ghost use Rattle.ft_trace.specs.Addresses.{class_of};
ghost use Rattle.ft_trace.specs.Holds.{held_unboxed, known_state};
ghost use Rattle.ft_trace.specs.ContainerStates.{kind_in};
ghost use Rattle.ft_bank.specs.Passes.{shape_of, view, IsPassOf};
ghost use Rattle.ft_bank.specs.PassSections.{stack_of};
ghost use Rattle.ft_bank.specs.TableNames.{table_id};
ghost use Rattle.ft_bank.specs.Whole.{OnlyLoaded};
ghost use Rattle.ft_search.specs.Rounds.{kind_by};
ghost use Rattle.ft_search.specs.OneEntryWrites.{MayWriteEntries};
ghost use Rattle.ft_new_keys.specs.KeyGrowth.{KnowsKeyed, holds};
ghost use Rattle.ft_merging.specs.Internal.JoiningSteps.{lacking};

use crate::reading::pair_at;
use ft_bank::{Bank, Pass, Table};
use ft_keys::Way;
use ft_layout::{used_entries_follow_a_dict, used_entries_follow_a_set};
use ft_search::{Spot, seek_by};
use ft_section::Object;

/// Whether the entry at a place has a key that another container lacks.
fn is_new_at(
    bank: &Bank,
    pass: &mut Pass,
    o: Object,
    way: Way,
    t: Object,
    table: Table,
    place: u64,
) -> bool
    requires pass { IsPassOf bank.now pass.old }
    requires may { MayWriteEntries (shape_of bank.now) o (view pass.old) }
    requires other { KnowsKeyed (shape_of bank.now) t (Some table) (view pass.old) }
    requires way { kind_in (shape_of bank.now).starts o ≡ kind_by way }
    requires other_way { kind_in (shape_of bank.now).starts t ≡ kind_by way }
    requires place { place < (known_state t (view pass.old)).table.fill }
    ensures pass { IsPassOf bank.now pass.new }
    ensures stack { stack_of pass.new ≡ stack_of pass.old }
    ensures only { OnlyLoaded (view pass.old) (view pass.new) }
    ensures new { (used : List UsedEntry) →
        IsTableOf way (shape_of bank.now).texts (class_mask (class_of (table_id table))) used
        (0 ∷ 0 ∷ (held_unboxed t (view pass.old)).table) →
        length used ≡ (known_state t (view pass.old)).table.fill → (any : UsedEntry) →
        result ≡ (is_live (slice_index_or used place any)
        && not (holds (known_state o (view pass.old)).content (slice_index_or used place any).key)) }
{
    used_entries_follow_a_dict();
    used_entries_follow_a_set();
    let Some(pair) = pair_at(bank, pass, t, table, place) else {
        return false;
    };
    match seek_by(bank, pass, o, way, pair.key, pair.hash) {
        Spot::At(..) => false,
        Spot::Free(..) => true,
        Spot::Bare => true,
    }
}

/// How many keys of the entries of a table that were used, as many as this, another container lacks.
pub(crate) fn count_new(
    bank: &Bank,
    pass: &mut Pass,
    o: Object,
    way: Way,
    t: Object,
    table: Table,
    fill: u64,
) -> u64
    requires pass { IsPassOf bank.now pass.old }
    requires may { MayWriteEntries (shape_of bank.now) o (view pass.old) }
    requires other { KnowsKeyed (shape_of bank.now) t (Some table) (view pass.old) }
    requires way { kind_in (shape_of bank.now).starts o ≡ kind_by way }
    requires other_way { kind_in (shape_of bank.now).starts t ≡ kind_by way }
    requires fill { fill ≡ (known_state t (view pass.old)).table.fill }
    ensures pass { IsPassOf bank.now pass.new }
    ensures stack { stack_of pass.new ≡ stack_of pass.old }
    ensures only { OnlyLoaded (view pass.old) (view pass.new) }
    ensures few { result ≤ fill }
    ensures count { (used : List UsedEntry) →
        IsTableOf way (shape_of bank.now).texts (class_mask (class_of (table_id table))) used
        (0 ∷ 0 ∷ (held_unboxed t (view pass.old)).table) →
        length used ≡ (known_state t (view pass.old)).table.fill →
        result ≡ lacking (known_state o (view pass.old)).content used }
{
    let mut count = 0;
    for place in 0..fill {
        if is_new_at(bank, pass, o, way, t, table, place) {
            count += 1;
        }
    }
    count
}
