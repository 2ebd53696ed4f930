//! Single words of the entries of a dict or a set whose lock the pass has, for the calls that write them:
//! each put is one that readers without the lock aren't misled by.
ghost use Rattle.std.specs.Prelude.{◌≡◌, ◌≢◌, ℕ, suc, ◌+◌, ◌*◌, ◌<◌, true};
ghost use Rattle.ft_trace.specs.Addresses.{class_of, slots};
ghost use Rattle.ft_trace.specs.Holds.{held_words, held_unboxed};
ghost use Rattle.ft_trace.specs.Kinds.{rows};
ghost use Rattle.ft_trace.specs.Pictures.{entry_offset, entry_field};
ghost use Rattle.ft_trace.specs.ContainerStates.{kind_in};
ghost use Rattle.ft_bank.specs.Passes.{shape_of, view, IsPassOf};
ghost use Rattle.ft_bank.specs.PassSections.{stack_of};
ghost use Rattle.ft_bank.specs.SameBoxes.{SameReferences};
ghost use Rattle.ft_bank.specs.TableNames.{table_id, IsPlaceOf};
ghost use Rattle.ft_bank.specs.Whole.{OnlyLoaded, OnlyPut};
ghost use Rattle.ft_bank.specs.WriteSteps.{IsCareful, with_table};
ghost use Rattle.ft_search.specs.Boxed.{KeepsOwn};
ghost use Rattle.ft_search.specs.OneEntryWrites.{WritesEntries, raised_at};

use crate::tables::mask_of;
use ft_bank::{Bank, Pass, Table};
use ft_layout::entry_word;

/// Which word of a table with this last slot a word of an entry is, counted from the header on.
pub(crate) fn word_at(mask: u64, place: u64, word: u64) -> u64
    requires mask { mask < 65536 }
    requires place { place < 65536 }
    requires word { word < 8 }
    ensures { result ≡ 8 * place + word + mask + 1 }
{
    8 * place + word + mask + 1
}

/// Loads a word of an entry of a container that the pass writes, which is no value's.
pub(crate) fn read_entry(
    bank: &Bank,
    pass: &mut Pass,
    o: u32,
    table: Table,
    start: u64,
    place: u64,
    word: u64,
) -> u64
    requires pass { IsPassOf bank.now pass.old }
    requires writes { WritesEntries (shape_of bank.now) o table (view pass.old) }
    requires start { IsPlaceOf (shape_of bank.now) table start }
    requires place { place < rows (kind_in (shape_of bank.now).starts o) (class_of (table_id table)) }
    requires word { word < 8 }
    requires no_value { (word ≢ 4) × (word ≢ 5) }
    ensures pass { IsPassOf bank.now pass.new }
    ensures stack { stack_of pass.new ≡ stack_of pass.old }
    ensures writes { WritesEntries (shape_of bank.now) o table (view pass.new) }
    ensures only { OnlyLoaded (view pass.old) (view pass.new) }
    ensures held { held_unboxed o (view pass.new) ≡ held_unboxed o (view pass.old) }
    ensures found { result ≡ entry_field (slots (class_of (table_id table))) (held_unboxed o (view pass.old)).table place word }
{
    let _ = o;
    let at = word_at(mask_of(table.class), place, word);
    bank.read_word(pass, table, start, at)
}

/// Puts a word of an entry of a container that the pass writes, which is no value's.
pub(crate) fn put_entry(
    bank: &Bank,
    pass: &mut Pass,
    o: u32,
    table: Table,
    start: u64,
    place: u64,
    word: u64,
    value: u64,
)
    requires pass { IsPassOf bank.now pass.old }
    requires writes { WritesEntries (shape_of bank.now) o table (view pass.old) }
    requires start { IsPlaceOf (shape_of bank.now) table start }
    requires place { place < rows (kind_in (shape_of bank.now).starts o) (class_of (table_id table)) }
    requires word { word < 8 }
    requires no_value { (word ≢ 4) × (word ≢ 5) }
    requires care { IsCareful (view pass.old) o (table_id table) (entry_offset (slots (class_of (table_id table))) place word)
        value }
    ensures pass { IsPassOf bank.now pass.new }
    ensures stack { stack_of pass.new ≡ stack_of pass.old }
    ensures writes { WritesEntries (shape_of bank.now) o table (view pass.new) }
    ensures only { OnlyPut o (view pass.old) (view pass.new) }
    ensures references { SameReferences (view pass.old) (view pass.new) }
    ensures words { held_unboxed o (view pass.new)
        ≡ with_table (held_unboxed o (view pass.old)) (entry_offset (slots (class_of (table_id table))) place word) value }
    ensures raw { held_words o (view pass.new)
        ≡ with_table (held_words o (view pass.old)) (entry_offset (slots (class_of (table_id table))) place word) value }
    ensures own { KeepsOwn (view pass.old) (view pass.new) }
{
    let at = word_at(mask_of(table.class), place, word);
    bank.put_word(pass, o, table, start, at, value);
}

/// Raises the version of an entry by one, which makes it odd before the commit and even after it.
#[inline(always)]
pub fn raise_version(bank: &Bank, pass: &mut Pass, o: u32, table: Table, place: u64)
    requires pass { IsPassOf bank.now pass.old }
    requires writes { WritesEntries (shape_of bank.now) o table (view pass.old) }
    requires place { place < rows (kind_in (shape_of bank.now).starts o) (class_of (table_id table)) }
    requires care { IsCareful (view pass.old) o (table_id table) (entry_offset (slots (class_of (table_id table))) place 0)
        (entry_field (slots (class_of (table_id table))) (held_unboxed o (view pass.old)).table place 0 + 1) }
    ensures pass { IsPassOf bank.now pass.new }
    ensures stack { stack_of pass.new ≡ stack_of pass.old }
    ensures writes { WritesEntries (shape_of bank.now) o table (view pass.new) }
    ensures only { OnlyPut o (view pass.old) (view pass.new) }
    ensures references { SameReferences (view pass.old) (view pass.new) }
    ensures words { held_unboxed o (view pass.new) ≡ raised_at (table_id table) place (held_unboxed o (view pass.old)) }
    ensures raw { held_words o (view pass.new) ≡ raised_at (table_id table) place (held_words o (view pass.old)) }
    ensures own { KeepsOwn (view pass.old) (view pass.new) }
{
    let start = bank.cell_of(table);
    raise_at(bank, pass, o, table, start, place);
}

/// The same, by where the table's words lie.
pub(crate) fn raise_at(bank: &Bank, pass: &mut Pass, o: u32, table: Table, start: u64, place: u64)
    requires pass { IsPassOf bank.now pass.old }
    requires writes { WritesEntries (shape_of bank.now) o table (view pass.old) }
    requires start { IsPlaceOf (shape_of bank.now) table start }
    requires place { place < rows (kind_in (shape_of bank.now).starts o) (class_of (table_id table)) }
    requires care { IsCareful (view pass.old) o (table_id table) (entry_offset (slots (class_of (table_id table))) place 0)
        (entry_field (slots (class_of (table_id table))) (held_unboxed o (view pass.old)).table place 0 + 1) }
    ensures pass { IsPassOf bank.now pass.new }
    ensures stack { stack_of pass.new ≡ stack_of pass.old }
    ensures writes { WritesEntries (shape_of bank.now) o table (view pass.new) }
    ensures only { OnlyPut o (view pass.old) (view pass.new) }
    ensures references { SameReferences (view pass.old) (view pass.new) }
    ensures words { held_unboxed o (view pass.new) ≡ raised_at (table_id table) place (held_unboxed o (view pass.old)) }
    ensures raw { held_words o (view pass.new) ≡ raised_at (table_id table) place (held_words o (view pass.old)) }
    ensures own { KeepsOwn (view pass.old) (view pass.new) }
{
    let version = read_entry(bank, pass, o, table, start, place, entry_word::VERSION);
    put_entry(
        bank,
        pass,
        o,
        table,
        start,
        place,
        entry_word::VERSION,
        version + 1,
    );
}
