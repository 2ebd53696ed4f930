//! A new key in a table of a dict or a set that has room for it: the block counts it, and its entry comes
//! after those that were used. Readers without the lock pass the entry until it is whole: its version is odd
//! before its first word is put, its kind comes after its other words, and the index word that names it last.
ghost use Rattle.std.specs.Prelude.{◌≡◌, ◌≢◌, ◌+◌, ◌^◌, ◌<◌, ◌≤◌, false, Some, None};
ghost use Rattle.ft_layout.specs.declared.slot.Pair.{Pair};
ghost use Rattle.ft_layout.specs.Tables.{dict_room};
ghost use Rattle.ft_layout.specs.Words.{FitsStored, entry_words, stored_kind};
ghost use Rattle.ft_keys.specs.Accesses.{Allows};
ghost use Rattle.ft_keys.specs.TableChanges.{place_puts};
ghost use Rattle.ft_trace.specs.Acts.{has_committed};
ghost use Rattle.ft_trace.specs.Addresses.{class_of, slots};
ghost use Rattle.ft_trace.specs.BoxWords.{box_kind};
ghost use Rattle.ft_trace.specs.Holds.{held_words, held_unboxed};
ghost use Rattle.ft_trace.specs.Kinds.{rows, IsKeyed};
ghost use Rattle.ft_trace.specs.Pictures.{entry_field};
ghost use Rattle.ft_trace.specs.ContainerStates.{kind_in};
ghost use Rattle.ft_bank.specs.Passes.{shape_of, view, IsPassOf};
ghost use Rattle.ft_bank.specs.PassSections.{stack_of};
ghost use Rattle.ft_bank.specs.TableNames.{table_id};
ghost use Rattle.ft_bank.specs.SameBoxes.{SameReferences};
ghost use Rattle.ft_bank.specs.Whole.{OnlyPut, OnlyWritten};
ghost use Rattle.ft_boxes.specs.References.{KeepsValues};
ghost use Rattle.ft_new_keys.specs.Placing.{counted};
ghost use Rattle.ft_new_keys.specs.Internal.Laying.{IsUnused, laid, with_entry, with_pair};
ghost use Rattle.ft_search.specs.TableWords.{CanLoad, MadeAccess, MayMake, MayPutAny, SamePlace};
ghost use Rattle.ft_search.specs.OneEntryWrites.{KeepsOtherEntries, WritesEntries};

use crate::counts::{COUNT, Counts, FILL, NEXT};
use ft_bank::{Bank, Pass, Table};
use ft_keys::place_at;
use ft_layout::{Pair, entry_word};
use ft_search::{TableWords, mask_of, put_unboxed, raise_version};

/// Puts what a block counts, before the commit.
pub fn put_counts(
    bank: &Bank,
    pass: &mut Pass,
    o: u32,
    table: Table,
    count: u64,
    fill: u64,
    next: u64,
)
    requires pass { IsPassOf bank.now pass.old }
    requires writes { WritesEntries (shape_of bank.now) o table (view pass.old) }
    ensures pass { IsPassOf bank.now pass.new }
    ensures stack { stack_of pass.new ≡ stack_of pass.old }
    ensures writes { WritesEntries (shape_of bank.now) o table (view pass.new) }
    ensures only { OnlyPut o (view pass.old) (view pass.new) }
    ensures references { SameReferences (view pass.old) (view pass.new) }
    ensures values { KeepsValues (view pass.old) (view pass.new) }
    ensures words { held_unboxed o (view pass.new) ≡ record {
      block = counted (held_unboxed o (view pass.old)).block count fill next;
      table = (held_unboxed o (view pass.old)).table;
    } }
    ensures raw { (held_words o (view pass.new)).table ≡ (held_words o (view pass.old)).table }
{
    let _ = table;
    bank.put_block(pass, o, COUNT, count);
    bank.put_block(pass, o, FILL, fill);
    bank.put_block(pass, o, NEXT, next);
}

/// Puts the words of a pair's entry but for its version, which is odd by then, and the index word of a slot that
/// names it. Neither the value that stands in the entry nor the pair's names a box.
fn place_in(words: &mut TableWords<'_>, slot: u64, place: u64, pair: &Pair)
    requires can { CanLoad words.old }
    requires writes { MayPutAny words.old }
    requires keyed { IsKeyed (kind_in (shape_of words.old.bank.now).starts words.old.o) }
    requires slot { slot ≤ words.old.mask }
    requires place { place < rows (kind_in (shape_of words.old.bank.now).starts words.old.o)
        (class_of (table_id words.old.table)) }
    requires value { FitsStored pair.now.value × (stored_kind pair.now.value ≢ box_kind) }
    requires in_place { entry_field (slots (class_of (table_id words.old.table)))
        (held_words words.old.o (view words.old.pass.now)).table place 4 ≢ box_kind }
    requires may { Allows MadeAccess MayMake words.old (place_puts slot place (entry_words pair.now)) }
    ensures same { SamePlace words.old words.new }
    ensures stack { stack_of words.new.pass.now ≡ stack_of words.old.pass.now }
    ensures can { CanLoad words.new }
    ensures only { OnlyPut words.old.o (view words.old.pass.now) (view words.new.pass.now) }
    ensures references { SameReferences (view words.old.pass.now) (view words.new.pass.now) }
    ensures values { KeepsValues (view words.old.pass.now) (view words.new.pass.now) }
    ensures others { KeepsOtherEntries words.old.o (table_id words.old.table) place (view words.old.pass.now)
        (view words.new.pass.now) }
    ensures words { held_unboxed words.old.o (view words.new.pass.now) ≡ record {
      block = (held_unboxed words.old.o (view words.old.pass.now)).block;
      table = laid (slots (class_of (table_id words.old.table))) (place_puts slot place (entry_words pair.now))
          (held_unboxed words.old.o (view words.old.pass.now)).table;
    } }
{
    place_at(words, slot, place, pair);
}

/// Puts the entry of a pair at a place that was never used, and the index word of a slot that names it,
/// before the commit.
fn put_pair(bank: &Bank, pass: &mut Pass, o: u32, table: Table, slot: u64, place: u64, pair: &Pair)
    requires pass { IsPassOf bank.now pass.old }
    requires writes { WritesEntries (shape_of bank.now) o table (view pass.old) }
    requires early { has_committed o (view pass.old).log ≡ false }
    requires unused { IsUnused (slots (class_of (table_id table)))
        (rows (kind_in (shape_of bank.now).starts o) (class_of (table_id table)))
        (held_unboxed o (view pass.old)).table slot place }
    requires value { FitsStored pair.now.value × (stored_kind pair.now.value ≢ box_kind) }
    ensures pass { IsPassOf bank.now pass.new }
    ensures stack { stack_of pass.new ≡ stack_of pass.old }
    ensures writes { WritesEntries (shape_of bank.now) o table (view pass.new) }
    ensures only { OnlyWritten o (view pass.old) (view pass.new) }
    ensures references { SameReferences (view pass.old) (view pass.new) }
    ensures values { KeepsValues (view pass.old) (view pass.new) }
    ensures others { KeepsOtherEntries o (table_id table) place (view pass.old) (view pass.new) }
    ensures words { held_unboxed o (view pass.new) ≡ record {
      block = (held_unboxed o (view pass.old)).block;
      table = with_pair (table_id table) slot place pair.now (held_unboxed o (view pass.old));
    } }
{
    raise_version(bank, pass, o, table, place);
    let mask = mask_of(table.class);
    let start = bank.cell_of(table);
    let word = 8 * place + mask + 1 + entry_word::VALUE_KIND;
    put_unboxed(bank, pass, o, table, start, word);
    let mut words = TableWords {
        bank,
        pass,
        o,
        table,
        mask,
        start,
    };
    place_in(&mut words, slot, place, pair);
}

/// Puts a new pair after the entries that were used, before the commit: what the block counts then, the
/// pair's entry, and the index word of a slot that names it.
pub fn put_key(
    bank: &Bank,
    pass: &mut Pass,
    o: u32,
    table: Table,
    slot: u64,
    counts: Counts,
    pair: &Pair,
)
    requires pass { IsPassOf bank.now pass.old }
    requires writes { WritesEntries (shape_of bank.now) o table (view pass.old) }
    requires early { has_committed o (view pass.old).log ≡ false }
    requires unused { IsUnused (slots (class_of (table_id table)))
        (rows (kind_in (shape_of bank.now).starts o) (class_of (table_id table)))
        (held_unboxed o (view pass.old)).table slot counts.fill }
    requires value { FitsStored pair.now.value × (stored_kind pair.now.value ≢ box_kind) }
    requires room { (counts.count < 2 ^ 63) × (pair.now.serial < 2 ^ 63) }
    ensures pass { IsPassOf bank.now pass.new }
    ensures stack { stack_of pass.new ≡ stack_of pass.old }
    ensures writes { WritesEntries (shape_of bank.now) o table (view pass.new) }
    ensures only { OnlyWritten o (view pass.old) (view pass.new) }
    ensures references { SameReferences (view pass.old) (view pass.new) }
    ensures values { KeepsValues (view pass.old) (view pass.new) }
    ensures others { KeepsOtherEntries o (table_id table) counts.fill (view pass.old) (view pass.new) }
    ensures words { held_unboxed o (view pass.new)
        ≡ with_entry (table_id table) slot counts pair.now (held_unboxed o (view pass.old)) }
{
    let Counts {
        count,
        fill,
        next: _,
    } = counts;
    put_counts(bank, pass, o, table, count + 1, fill + 1, pair.serial + 1);
    put_pair(bank, pass, o, table, slot, fill, pair);
}
