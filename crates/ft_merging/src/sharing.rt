//! Values that a container shares with another one: they stand in the same boxes.
ghost use Rattle.std.specs.Prelude.{◌≡◌, ℕ, ◌+◌, ◌%◌, ◌<◌, Some};
ghost use Rattle.ft_trace.specs.Addresses.{class_of, slots};
ghost use Rattle.ft_trace.specs.Boxes.{names_box, references_held};
ghost use Rattle.ft_trace.specs.BoxWords.{box_kind};
ghost use Rattle.ft_trace.specs.ContainerStates.{kind_in};
ghost use Rattle.ft_trace.specs.Holds.{held_words, held_unboxed};
ghost use Rattle.ft_trace.specs.Kinds.{rows};
ghost use Rattle.ft_trace.specs.Pictures.{entry_field};
ghost use Rattle.ft_bank.specs.BoxSteps.{kind_read, payload_read, HasReferenceFor};
ghost use Rattle.ft_bank.specs.Passes.{shape_of, view, IsPassOf};
ghost use Rattle.ft_bank.specs.PassSections.{stack_of};
ghost use Rattle.ft_bank.specs.SameBoxes.{SameReferences};
ghost use Rattle.ft_bank.specs.TableNames.{table_id};
ghost use Rattle.ft_bank.specs.Whole.{OnlyLoaded, OnlyWritten};
ghost use Rattle.ft_search.specs.OneEntryWrites.{KeepsOtherEntries, WritesEntries};
ghost use Rattle.ft_new_keys.specs.KeyGrowth.{KnowsKeyed};

use ft_bank::{Bank, Pass, Table};
use ft_layout::entry_word::VALUE_KIND;
use ft_search::{mask_of, put_over, raise_named};
use ft_section::Object;

/// The kind of a value that stands in a box.
const BOX_KIND: u64 = 4;

/// An entry in the table of a dict or a set.
#[derive(Clone, Copy)]
pub(crate) struct EntryAt {
    /// The container.
    pub o: Object,
    /// Its table.
    pub table: Table,
    /// The place of the entry.
    pub place: u64,
}

/// The kind and the payload of the value of an entry, as its words stand, in the table of a container whose lock the
/// pass has.
fn value_words(bank: &Bank, pass: &mut Pass, t: Object, table: Table, place: u64) -> (u64, u64)
    requires pass { IsPassOf bank.now pass.old }
    requires knows { KnowsKeyed (shape_of bank.now) t (Some table) (view pass.old) }
    requires place { place < rows (kind_in (shape_of bank.now).starts t) (class_of (table_id table)) }
    ensures pass { IsPassOf bank.now pass.new }
    ensures stack { stack_of pass.new ≡ stack_of pass.old }
    ensures only { OnlyLoaded (view pass.old) (view pass.new) }
    ensures kind { result.0
        ≡ entry_field (slots (class_of (table_id table))) (held_words t (view pass.old)).table place 4 }
    ensures payload { result.1
        ≡ entry_field (slots (class_of (table_id table))) (held_words t (view pass.old)).table place 5 }
{
    let _ = t;
    let word = 8 * place + mask_of(table.class) + 1 + VALUE_KIND;
    let kind = bank.read_table(pass, table, word);
    let payload = bank.read_table(pass, table, word + 1);
    (kind, payload)
}

/// Has the value of an entry, whose version is odd, stand in the box with this name: what stands there reads as the
/// value, and the pass holds a reference for the box, which is the entry's then.
fn put_named(bank: &Bank, pass: &mut Pass, o: Object, own: Table, at: u64, value: (u64, u64))
    requires pass { IsPassOf bank.now pass.old }
    requires writes { WritesEntries (shape_of bank.now) o own (view pass.old) }
    requires at { at < rows (kind_in (shape_of bank.now).starts o) (class_of (table_id own)) }
    requires odd { entry_field (slots (class_of (table_id own))) (held_unboxed o (view pass.old)).table at 0 % 2 ≡ 1 }
    requires own { HasReferenceFor (view pass.old) value.0 value.1 }
    requires kind { kind_read (view pass.old) value.0 value.1
        ≡ entry_field (slots (class_of (table_id own))) (held_unboxed o (view pass.old)).table at 4 }
    requires payload { payload_read (view pass.old) value.0 value.1
        ≡ entry_field (slots (class_of (table_id own))) (held_unboxed o (view pass.old)).table at 5 }
    ensures pass { IsPassOf bank.now pass.new }
    ensures stack { stack_of pass.new ≡ stack_of pass.old }
    ensures writes { WritesEntries (shape_of bank.now) o own (view pass.new) }
    ensures only { OnlyWritten o (view pass.old) (view pass.new) }
    ensures words { held_unboxed o (view pass.new) ≡ held_unboxed o (view pass.old) }
    ensures references { (b : ℕ) →
        references_held (shape_of bank.now) b (view pass.new).log + names_box b value.0 value.1 ≡ references_held (shape_of bank.now) b (view pass.old).log }
    ensures others { KeepsOtherEntries o (table_id own) at (view pass.old) (view pass.new) }
    ensures names { (entry_field (slots (class_of (table_id own))) (held_words o (view pass.new)).table at 4 ≡ value.0)
        × (entry_field (slots (class_of (table_id own))) (held_words o (view pass.new)).table at 5 ≡ value.1) }
{
    let mask = mask_of(own.class);
    let start = bank.cell_of(own);
    let word = 8 * at + mask + 1 + VALUE_KIND;
    put_over(bank, pass, o, own, start, word, value.0, value.1);
}

/// Has the value of an entry, which was put in its place, and whose version is odd, stand in the box in which another
/// container has it, where it stands in one there: its count is raised, and both name it then.
pub(crate) fn share_value(bank: &Bank, pass: &mut Pass, to: EntryAt, from: EntryAt)
    requires pass { IsPassOf bank.now pass.old }
    requires writes { WritesEntries (shape_of bank.now) to.o to.table (view pass.old) }
    requires none { (b : ℕ) → references_held (shape_of bank.now) b (view pass.old).log ≡ 0 }
    requires other { KnowsKeyed (shape_of bank.now) from.o (Some from.table) (view pass.old) }
    requires from { from.place < rows (kind_in (shape_of bank.now).starts from.o) (class_of (table_id from.table)) }
    requires to { to.place < rows (kind_in (shape_of bank.now).starts to.o) (class_of (table_id to.table)) }
    requires odd { entry_field (slots (class_of (table_id to.table)))
        (held_unboxed to.o (view pass.old)).table to.place 0 % 2 ≡ 1 }
    requires kind { entry_field (slots (class_of (table_id to.table))) (held_unboxed to.o (view pass.old)).table to.place 4
        ≡ entry_field (slots (class_of (table_id from.table)))
        (held_unboxed from.o (view pass.old)).table from.place 4 }
    requires payload { entry_field (slots (class_of (table_id to.table))) (held_unboxed to.o (view pass.old)).table to.place 5
        ≡ entry_field (slots (class_of (table_id from.table)))
        (held_unboxed from.o (view pass.old)).table from.place 5 }
    ensures pass { IsPassOf bank.now pass.new }
    ensures stack { stack_of pass.new ≡ stack_of pass.old }
    ensures writes { WritesEntries (shape_of bank.now) to.o to.table (view pass.new) }
    ensures only { OnlyWritten to.o (view pass.old) (view pass.new) }
    ensures words { held_unboxed to.o (view pass.new) ≡ held_unboxed to.o (view pass.old) }
    ensures references { SameReferences (view pass.old) (view pass.new) }
    ensures others { KeepsOtherEntries to.o (table_id to.table) to.place (view pass.old) (view pass.new) }
    ensures shares { entry_field (slots (class_of (table_id from.table))) (held_words from.o (view pass.old)).table from.place 4
        ≡ box_kind →
        (entry_field (slots (class_of (table_id to.table))) (held_words to.o (view pass.new)).table to.place 4
        ≡ box_kind)
        × (entry_field (slots (class_of (table_id to.table))) (held_words to.o (view pass.new)).table to.place 5
        ≡ entry_field (slots (class_of (table_id from.table))) (held_words from.o (view pass.old)).table from.place 5) }
{
    let value = value_words(bank, pass, from.o, from.table, from.place);
    if value.0 == BOX_KIND {
        raise_named(bank, pass, value.1);
        put_named(bank, pass, to.o, to.table, to.place, value);
    }
}
