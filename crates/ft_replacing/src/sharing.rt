//! A fresh table that gets the pairs of a dict for another dict, or for itself: each value that stands in a box has its box
//! there as well, whose count is raised before the table is put into a root.
ghost use Rattle.std.specs.Prelude.{◌≡◌, ℕ, ◌+◌, ◌*◌, ◌^◌, ◌<◌, ◌≤◌, List, length, filter, ◌∷◌, Some};
ghost use Rattle.ft_hash.specs.Probes.{IsMask};
ghost use Rattle.ft_keys.specs.TableChanges.{Moves, Rebuilds};
ghost use Rattle.ft_keys.specs.declared.walk.Way.TheVariants as way;
ghost use Rattle.ft_model.specs.declared.content.Content.TheVariants as content;
ghost use Rattle.ft_model.specs.declared.script.Kind.TheVariants as kind;
ghost use Rattle.ft_model.specs.Contents.{DictContent, dict_copy};
ghost use Rattle.ft_model.specs.Worlds.{length_of};
ghost use Rattle.ft_layout.specs.Containers.{class_mask};
ghost use Rattle.ft_layout.specs.Tables.{UsedEntry, dict_room, is_live, IsDictTable};
ghost use Rattle.ft_trace.specs.Acts.{stage};
ghost use Rattle.ft_trace.specs.Addresses.{class_of, slots};
ghost use Rattle.ft_trace.specs.Holds.{hand_unboxed, held_unboxed, held_words, in_hand, known_state};
ghost use Rattle.ft_trace.specs.Kinds.{rows};
ghost use Rattle.ft_trace.specs.Pictures.{entry_field};
ghost use Rattle.ft_trace.specs.ContainerStates.{kind_in};
ghost use Rattle.ft_bank.specs.Passes.{shape_of, view, IsPassOf};
ghost use Rattle.ft_bank.specs.PassSections.{stack_of};
ghost use Rattle.ft_bank.specs.TableNames.{table_id, IsTableIn};
ghost use Rattle.ft_table_calls.specs.Adding.{OnlyFilled};
ghost use Rattle.ft_new_keys.specs.Fresh.{CanFill, FreshMade, HasZeroWords, IsFilledWith, old_entries};
ghost use Rattle.ft_new_keys.specs.KeyGrowth.{KnowsKeyed};
ghost use Rattle.ft_new_keys.specs.Placing.{AreCounts};
ghost use Rattle.ft_replacing.specs.Sharing.{NamesLocked, SharesEntries};

use crate::numbering::renumber;
use ft_bank::{Bank, Pass, Table};
use ft_keys::{Way, calls_keep_versions, rebuild};
use ft_layout::{
    changed_words_are_of_a_table, used_entries_follow_a_dict, used_entries_follow_a_set,
    words_are_of_one_content,
};
use ft_new_keys::{Counts, FreshWords, blank};
use ft_search::mask_of;

/// A copy of a dict, to be made in a fresh table.
#[derive(Clone, Copy)]
pub(crate) struct Copying {
    /// What the block of the dict counts.
    pub(crate) counts: Counts,
    /// The fresh table.
    pub(crate) table: Table,
    /// The serial of the first pair.
    pub(crate) next: u64,
}

/// Fills the fresh one of two tables with the entries of the other one that are there.
fn rebuild_in(words: &mut FreshWords<'_>, mask: u64, old_fill: u64) -> u64
    requires can { CanFill words.now }
    requires mask { IsMask mask × (words.now.mask ≡ mask) }
    requires fill { old_fill ≤ old_entries words.now }
    ensures pass { words.exit.now.pass.ghost_name ≡ words.entry.now.pass.ghost_name }
    ensures stack { stack_of words.exit.now.pass.now ≡ stack_of words.entry.now.pass.now }
    ensures may { IsPassOf words.entry.now.bank.now words.exit.now.pass.now }
    ensures only { OnlyFilled (view words.entry.now.pass.now) (view words.exit.now.pass.now) }
    ensures moves { Moves FreshMade mask words.entry.now words.exit.now (13 * old_fill) result
        (Rebuilds way.Dict mask old_fill result) }
{
    rebuild(words, Way::Dict, mask, old_fill)
}

/// Fills a blank table that is fresh in hand with the entries of the table of a dict that are there, as their words
/// stand.
fn share_table(bank: &Bank, pass: &mut Pass, d: u32, own: Table, table: Table, fill: u64)
    requires pass { IsPassOf bank.now pass.old }
    requires keyed { KnowsKeyed (shape_of bank.now) d (Some own) (view pass.old) }
    requires dict { kind_in (shape_of bank.now).starts d ≡ kind.Dict }
    requires table { IsTableIn (shape_of bank.now) table }
    requires fresh { stage (table_id table) (view pass.old).log ≡ 1 }
    requires blank { HasZeroWords (class_of (table_id table)) (in_hand (table_id table) (view pass.old)) }
    requires fill { fill ≡ (known_state d (view pass.old)).table.fill }
    ensures pass { IsPassOf bank.now pass.new }
    ensures stack { stack_of pass.new ≡ stack_of pass.old }
    ensures only { OnlyFilled (view pass.old) (view pass.new) }
    ensures rebuilt { (used : List UsedEntry) →
        IsDictTable (shape_of bank.now).texts (class_mask (class_of (table_id own))) used
        (0 ∷ 0 ∷ (held_words d (view pass.old)).table) → length used ≡ fill →
        length (filter is_live used) ≤ dict_room (class_mask (class_of (table_id table))) →
        IsDictTable (shape_of bank.now).texts (class_mask (class_of (table_id table))) (filter is_live used)
        (0 ∷ 0 ∷ in_hand (table_id table) (view pass.new)) }
    ensures versions { (place : ℕ) → entry_field (slots (class_of (table_id table)))
        (in_hand (table_id table) (view pass.new)) place 0 ≡ 0 }
{
    calls_keep_versions();
    changed_words_are_of_a_table();
    used_entries_follow_a_dict();
    used_entries_follow_a_set();
    let mask = mask_of(table.class);
    let old_mask = mask_of(own.class);
    let old_start = bank.cell_of(own);
    let start = bank.cell_of(table);
    let mut words = FreshWords {
        bank,
        pass,
        o: d,
        old: own,
        old_mask,
        old_start,
        start,
        table,
        mask,
        in_place: false,
    };
    rebuild_in(&mut words, mask, fill);
}

/// Fills a table that is fresh in hand with the pairs of the dict d, which get new serials, for the dict e, which may be
/// d: the values have the boxes in which they stand.
pub(crate) fn share_copy(
    bank: &Bank,
    pass: &mut Pass,
    d: u32,
    e: u32,
    own: Table,
    copying: &Copying,
)
    requires pass { IsPassOf bank.now pass.old }
    requires keyed { KnowsKeyed (shape_of bank.now) d (Some own) (view pass.old) }
    requires dict { kind_in (shape_of bank.now).starts d ≡ kind.Dict }
    requires other_dict { kind_in (shape_of bank.now).starts e ≡ kind.Dict }
    requires counts { AreCounts (held_unboxed d (view pass.old)).block copying.now.counts }
    requires table { IsTableIn (shape_of bank.now) copying.now.table }
    requires fresh { stage (table_id copying.now.table) (view pass.old).log ≡ 1 }
    requires room { copying.now.counts.count ≤ rows kind.Dict (class_of (table_id copying.now.table)) }
    requires serials { copying.now.next + copying.now.counts.count < 2 ^ 63 }
    ensures pass { IsPassOf bank.now pass.new }
    ensures stack { stack_of pass.new ≡ stack_of pass.old }
    ensures only { OnlyFilled (view pass.old) (view pass.new) }
    ensures filled { (pairs given : DictContent) → (known_state d (view pass.old)).content ≡ content.Dict pairs →
        given.next ≡ copying.now.next →
        IsFilledWith (shape_of bank.now).texts (class_of (table_id copying.now.table))
        (content.Dict (dict_copy given pairs.pairs)) (hand_unboxed e (table_id copying.now.table) (view pass.new)) }
    ensures named { NamesLocked (shape_of bank.now) e (table_id copying.now.table) (view pass.new) }
    ensures shares { SharesEntries (shape_of bank.now).texts copying.now.next (class_of (table_id own))
        (held_words d (view pass.old)).table (class_of (table_id copying.now.table))
        (in_hand (table_id copying.now.table) (view pass.new)) }
{
    words_are_of_one_content();
    let _ = e;
    let table = copying.table;
    blank(bank, pass, table);
    share_table(bank, pass, d, own, table, copying.counts.fill);
    renumber(bank, pass, table, copying.counts.count, copying.next);
}
