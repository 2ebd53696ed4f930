//! A fresh table is filled with what a dict or a set has: each pair or element once, in their order, with its
//! serial. No other pass reads the table before it is put into a root. Values that stand in boxes are copied in place,
//! for another container, or named again, for a table that takes the place of the one that names them.
ghost use Rattle.std.specs.Prelude.{◌≡◌, ℕ, suc, ◌*◌, ◌<◌, ◌≤◌, true, false, Some};
ghost use Rattle.ft_hash.specs.Probes.{IsMask};
ghost use Rattle.ft_keys.specs.TableChanges.{Moves, Rebuilds};
ghost use Rattle.ft_model.specs.declared.content.Content.{Content};
ghost use Rattle.ft_model.specs.Worlds.{length_of};
ghost use Rattle.ft_trace.specs.Acts.{has_lock, is_writing, stage};
ghost use Rattle.ft_trace.specs.Addresses.{container_count, class_of};
ghost use Rattle.ft_trace.specs.Holds.{held_unboxed, in_hand, known_state};
ghost use Rattle.ft_trace.specs.Kinds.{rows};
ghost use Rattle.ft_trace.specs.Pictures.{root_in, Represents};
ghost use Rattle.ft_trace.specs.ContainerStates.{kind_in};
ghost use Rattle.ft_bank.specs.Passes.{shape_of, view, IsPassOf};
ghost use Rattle.ft_bank.specs.PassSections.{stack_of};
ghost use Rattle.ft_bank.specs.TableNames.{table_id, IsTableIn};
ghost use Rattle.ft_boxes.specs.References.{KeepsValues};
ghost use Rattle.ft_table_calls.specs.Adding.{OnlyFilled};
ghost use Rattle.ft_search.specs.Rounds.{kind_by};
ghost use Rattle.ft_new_keys.specs.Fresh.{CanFill, FreshMade, HasZeroWords, IsFilledWith, old_entries};
ghost use Rattle.ft_new_keys.specs.KeyGrowth.{KnowsKeyed};
ghost use Rattle.ft_new_keys.specs.Moving.{HasMoved};

use crate::fresh::FreshWords;
use ft_bank::{Bank, Pass, Table};
use ft_keys::{Way, calls_keep_versions, rebuild};
use ft_layout::{
    changed_words_are_of_a_table, table_size, used_entries_follow_a_dict,
    used_entries_follow_a_set, words_are_of_one_content,
};
use ft_search::mask_of;

/// Puts 0 into each word of a table that is fresh in hand.
pub fn blank(bank: &Bank, pass: &mut Pass, table: Table)
    requires pass { IsPassOf bank.now pass.old }
    requires table { IsTableIn (shape_of bank.now) table }
    requires fresh { stage (table_id table) (view pass.old).log ≡ 1 }
    ensures pass { IsPassOf bank.now pass.new }
    ensures stack { stack_of pass.new ≡ stack_of pass.old }
    ensures only { OnlyFilled (view pass.old) (view pass.new) }
    ensures values { KeepsValues (view pass.old) (view pass.new) }
    ensures blank { HasZeroWords (class_of (table_id table)) (in_hand (table_id table) (view pass.new)) }
{
    let start = bank.cell_of(table);
    for at in 0..table_size(table.class) - 2 {
        bank.put_fresh_word(pass, table, start, at, 0);
    }
}

/// Fills the fresh one of two tables with the entries of the other one that are there.
fn rebuild_in(words: &mut FreshWords<'_>, way: Way, mask: u64, old_fill: u64) -> u64
    requires can { CanFill words.now }
    requires mask { IsMask mask × (words.now.mask ≡ mask) }
    requires fill { old_fill ≤ old_entries words.now }
    ensures pass { words.exit.now.pass.ghost_name ≡ words.entry.now.pass.ghost_name }
    ensures stack { stack_of words.exit.now.pass.now ≡ stack_of words.entry.now.pass.now }
    ensures may { IsPassOf words.entry.now.bank.now words.exit.now.pass.now }
    ensures only { OnlyFilled (view words.entry.now.pass.now) (view words.exit.now.pass.now) }
    ensures values { KeepsValues (view words.entry.now.pass.now) (view words.exit.now.pass.now) }
    ensures moves { Moves FreshMade mask words.entry.now words.exit.now (13 * old_fill) result
        (Rebuilds way mask old_fill result) }
{
    rebuild(words, way, mask, old_fill)
}

/// Fills a blank table that is fresh in hand with the entries of the table of a dict or a set that are there.
fn copy_entries(
    bank: &Bank,
    pass: &mut Pass,
    o: u32,
    way: Way,
    old: Table,
    table: Table,
    old_fill: u64,
)
    requires pass { IsPassOf bank.now pass.old }
    requires keyed { KnowsKeyed (shape_of bank.now) o (Some old) (view pass.old) }
    requires way { kind_in (shape_of bank.now).starts o ≡ kind_by way }
    requires table { IsTableIn (shape_of bank.now) table }
    requires fresh { stage (table_id table) (view pass.old).log ≡ 1 }
    requires blank { HasZeroWords (class_of (table_id table)) (in_hand (table_id table) (view pass.old)) }
    requires fill { old_fill ≡ (known_state o (view pass.old)).table.fill }
    requires room { length_of (known_state o (view pass.old)).content ≤ rows (kind_by way) (class_of (table_id table)) }
    ensures pass { IsPassOf bank.now pass.new }
    ensures stack { stack_of pass.new ≡ stack_of pass.old }
    ensures only { OnlyFilled (view pass.old) (view pass.new) }
    ensures filled { IsFilledWith (shape_of bank.now).texts (class_of (table_id table))
        (known_state o (view pass.old)).content
        (in_hand (table_id table) (view pass.new)) }
{
    calls_keep_versions();
    changed_words_are_of_a_table();
    used_entries_follow_a_dict();
    used_entries_follow_a_set();
    let mask = mask_of(table.class);
    let old_mask = mask_of(old.class);
    let old_start = bank.cell_of(old);
    let start = bank.cell_of(table);
    let mut words = FreshWords {
        bank,
        pass,
        o,
        old,
        old_mask,
        old_start,
        start,
        table,
        mask,
        in_place: true,
    };
    rebuild_in(&mut words, way, mask, old_fill);
}

/// Fills a table that is fresh in hand with what a dict or a set has, which has this table or none.
pub fn fill(
    bank: &Bank,
    pass: &mut Pass,
    o: u32,
    way: Way,
    old: Option<Table>,
    table: Table,
    old_fill: u64,
)
    requires pass { IsPassOf bank.now pass.old }
    requires keyed { KnowsKeyed (shape_of bank.now) o old (view pass.old) }
    requires way { kind_in (shape_of bank.now).starts o ≡ kind_by way }
    requires table { IsTableIn (shape_of bank.now) table }
    requires fresh { stage (table_id table) (view pass.old).log ≡ 1 }
    requires fill { old_fill ≡ (known_state o (view pass.old)).table.fill }
    requires room { length_of (known_state o (view pass.old)).content ≤ rows (kind_by way) (class_of (table_id table)) }
    ensures pass { IsPassOf bank.now pass.new }
    ensures stack { stack_of pass.new ≡ stack_of pass.old }
    ensures only { OnlyFilled (view pass.old) (view pass.new) }
    ensures filled { IsFilledWith (shape_of bank.now).texts (class_of (table_id table))
        (known_state o (view pass.old)).content
        (in_hand (table_id table) (view pass.new)) }
{
    changed_words_are_of_a_table();
    words_are_of_one_content();
    blank(bank, pass, table);
    match old {
        Some(own) => copy_entries(bank, pass, o, way, own, table, old_fill),
        None => {}
    }
}

/// Another table for a dict or a set.
#[derive(Clone, Copy)]
pub struct Growth {
    /// How the container is searched.
    pub way: Way,
    /// The table that it has, or none.
    pub old: Option<Table>,
    /// The one that it gets.
    pub table: Table,
    /// How many entries of the old one were used.
    pub fill: u64,
}

/// Fills a blank table that is fresh in hand with the entries of the table of a dict or a set that are there. Each value
/// that stands in a box has its box there as well.
fn move_table(bank: &Bank, pass: &mut Pass, o: u32, growth: &Growth, old: Table)
    requires pass { IsPassOf bank.now pass.old }
    requires keyed { KnowsKeyed (shape_of bank.now) o (Some old) (view pass.old) }
    requires way { kind_in (shape_of bank.now).starts o ≡ kind_by growth.now.way }
    requires table { IsTableIn (shape_of bank.now) growth.now.table }
    requires fresh { stage (table_id growth.now.table) (view pass.old).log ≡ 1 }
    requires blank { HasZeroWords (class_of (table_id growth.now.table)) (in_hand (table_id growth.now.table) (view pass.old)) }
    requires fill { growth.now.fill ≡ (known_state o (view pass.old)).table.fill }
    requires room { length_of (known_state o (view pass.old)).content
        ≤ rows (kind_by growth.now.way) (class_of (table_id growth.now.table)) }
    ensures pass { IsPassOf bank.now pass.new }
    ensures stack { stack_of pass.new ≡ stack_of pass.old }
    ensures only { OnlyFilled (view pass.old) (view pass.new) }
    ensures values { KeepsValues (view pass.old) (view pass.new) }
    ensures moved { HasMoved (shape_of bank.now) o growth.now.table (view pass.new) }
{
    calls_keep_versions();
    changed_words_are_of_a_table();
    used_entries_follow_a_dict();
    used_entries_follow_a_set();
    let table = growth.table;
    let mask = mask_of(table.class);
    let old_mask = mask_of(old.class);
    let old_start = bank.cell_of(old);
    let start = bank.cell_of(table);
    let mut words = FreshWords {
        bank,
        pass,
        o,
        old,
        old_mask,
        old_start,
        start,
        table,
        mask,
        in_place: false,
    };
    rebuild_in(&mut words, growth.way, mask, growth.fill);
}

/// Fills the table that a dict or a set is to get, which is fresh in hand, with what it has. Each value that stands in a
/// box has its box there as well: its reference moves with the root.
pub fn move_entries(bank: &Bank, pass: &mut Pass, o: u32, growth: &Growth)
    requires pass { IsPassOf bank.now pass.old }
    requires keyed { KnowsKeyed (shape_of bank.now) o growth.now.old (view pass.old) }
    requires way { kind_in (shape_of bank.now).starts o ≡ kind_by growth.now.way }
    requires table { IsTableIn (shape_of bank.now) growth.now.table }
    requires fresh { stage (table_id growth.now.table) (view pass.old).log ≡ 1 }
    requires fill { growth.now.fill ≡ (known_state o (view pass.old)).table.fill }
    requires room { length_of (known_state o (view pass.old)).content
        ≤ rows (kind_by growth.now.way) (class_of (table_id growth.now.table)) }
    ensures pass { IsPassOf bank.now pass.new }
    ensures stack { stack_of pass.new ≡ stack_of pass.old }
    ensures only { OnlyFilled (view pass.old) (view pass.new) }
    ensures values { KeepsValues (view pass.old) (view pass.new) }
    ensures moved { HasMoved (shape_of bank.now) o growth.now.table (view pass.new) }
{
    changed_words_are_of_a_table();
    words_are_of_one_content();
    blank(bank, pass, growth.table);
    match growth.old {
        Some(own) => move_table(bank, pass, o, growth, own),
        None => {}
    }
}
