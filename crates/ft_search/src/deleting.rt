//! A key is taken out of a dict or a set whose lock the pass has, as one whole write: its entry stays where
//! it is and is marked as deleted, so that searches for other keys go on over it.
ghost use Rattle.std.specs.Prelude.{◌≡◌, ◌≢◌, ◌<◌, false, slice_index};
ghost use Rattle.ft_trace.specs.Acts.{has_committed};
ghost use Rattle.ft_trace.specs.Addresses.{class_of, slots};
ghost use Rattle.ft_trace.specs.Holds.{held_unboxed, known_state};
ghost use Rattle.ft_trace.specs.Kinds.{rows};
ghost use Rattle.ft_trace.specs.Pictures.{entry_field, root_in};
ghost use Rattle.ft_trace.specs.ContainerStates.{kind_in};
ghost use Rattle.ft_trace.specs.WholeWrites.{MayPuts, with_puts};
ghost use Rattle.ft_bank.specs.Passes.{shape_of, view, IsPassOf};
ghost use Rattle.ft_bank.specs.PassSections.{stack_of};
ghost use Rattle.ft_bank.specs.SameBoxes.{SameReferences};
ghost use Rattle.ft_bank.specs.TableNames.{table_id};
ghost use Rattle.ft_bank.specs.Whole.{OnlyWritten, Wrote};
ghost use Rattle.ft_search.specs.OneEntryWrites.{HasTable, IsLiveEntry, Leaves, MayWriteEntries, WritesEntries, deletion, without_key};

use crate::boxed::put_unboxed;
use crate::entries::{put_entry, raise_at, word_at};
use crate::finishing::finish_entry;
use crate::tables::mask_of;
use ft_bank::{Bank, Pass, Table};
use ft_layout::{
    block_word, entry_word, gone_kind_of, used_entries_follow_a_dict, used_entries_follow_a_set,
    versions_change_nothing, words_follow_a_dict, words_follow_a_set,
};
use ft_model::{Call, Key, Reply};

/// Which word of a block the number of pairs or elements is, as a bank counts them.
const COUNT: u64 = block_word::USED - block_word::ROOT;

/// Marks the entry at a place as deleted, before the commit. Its value, which is one or nothing, names no box then: the
/// reference of a box is dropped.
pub fn put_deleted(bank: &Bank, pass: &mut Pass, o: u32, table: Table, place: u64, key: Key)
    requires pass { IsPassOf bank.now pass.old }
    requires writes { WritesEntries (shape_of bank.now) o table (view pass.old) }
    requires place { place < rows (kind_in (shape_of bank.now).starts o) (class_of (table_id table)) }
    requires early { has_committed o (view pass.old).log ≡ false }
    requires plain { entry_field (slots (class_of (table_id table))) (held_unboxed o (view pass.old)).table place 4 ≢ 4 }
    requires some { 0 < slice_index (held_unboxed o (view pass.old)).block 1 }
    requires may { MayPuts (kind_in (shape_of bank.now).starts o) (table_id table) (known_state o (view pass.old)).content false
        (held_unboxed o (view pass.old)) (deletion (table_id table) place key (held_unboxed o (view pass.old))) }
    ensures pass { IsPassOf bank.now pass.new }
    ensures stack { stack_of pass.new ≡ stack_of pass.old }
    ensures writes { WritesEntries (shape_of bank.now) o table (view pass.new) }
    ensures only { OnlyWritten o (view pass.old) (view pass.new) }
    ensures references { SameReferences (view pass.old) (view pass.new) }
    ensures words { held_unboxed o (view pass.new) ≡ with_puts (held_unboxed o (view pass.old))
        (deletion (table_id table) place key (held_unboxed o (view pass.old))) }
{
    let count = bank.read_block(pass, o, COUNT);
    bank.put_block(pass, o, COUNT, count - 1);
    let start = bank.cell_of(table);
    raise_at(bank, pass, o, table, start, place);
    put_entry(
        bank,
        pass,
        o,
        table,
        start,
        place,
        entry_word::KEY_KIND,
        gone_kind_of(key),
    );
    let word = word_at(mask_of(table.class), place, entry_word::VALUE_KIND);
    put_unboxed(bank, pass, o, table, start, word);
}

/// Takes the key of the entry at a place out of a dict or a set, as the write of this call, which leaves
/// the rest as it is. Its index word stays used. Answers the number of the write.
pub fn delete_entry(
    bank: &Bank,
    pass: &mut Pass,
    o: u32,
    table: Table,
    place: u64,
    key: Key,
    called: &Call,
    said: &Reply,
) -> u64
    requires pass { IsPassOf bank.now pass.old }
    requires may { MayWriteEntries (shape_of bank.now) o (view pass.old) }
    requires table { HasTable (shape_of bank.now) o table (view pass.old) }
    requires entry { IsLiveEntry (shape_of bank.now) o table place key (view pass.old) }
    requires leaves { Leaves o called.now said.now
        (record { content = without_key (known_state o (view pass.old)).content key; table = (known_state o (view pass.old)).table })
        (view pass.old) }
    ensures pass { IsPassOf bank.now pass.new }
    ensures stack { stack_of pass.new ≡ stack_of pass.old }
    ensures wrote { Wrote called.now said.now result (view pass.old) (view pass.new) }
    ensures references { SameReferences (view pass.old) (view pass.new) }
    ensures root { root_in (held_unboxed o (view pass.new)) ≡ root_in (held_unboxed o (view pass.old)) }
{
    versions_change_nothing();
    used_entries_follow_a_dict();
    used_entries_follow_a_set();
    words_follow_a_dict();
    words_follow_a_set();
    bank.start_write(pass, o);
    put_deleted(bank, pass, o, table, place, key);
    finish_entry(bank, pass, o, table, place, called, said)
}
