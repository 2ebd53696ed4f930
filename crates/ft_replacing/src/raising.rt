//! The boxes that a table names which a container is to get, and which a container names as well or named before: their
//! counts are raised for the new table, whose words have the references once its root is put.
ghost use Rattle.std.specs.Prelude.{◌≡◌, ◌≢◌, ℕ, suc, ◌+◌, ◌<◌, ◌≤◌, slice_index};
ghost use Rattle.ft_model.specs.Classes.{IsClass};
ghost use Rattle.ft_trace.specs.Acts.{stage};
ghost use Rattle.ft_trace.specs.Addresses.{class_of, size, IsBoxName};
ghost use Rattle.ft_trace.specs.Boxes.{named_in_root, names_box, references_held, IsSettled, KeepsBox};
ghost use Rattle.ft_trace.specs.BoxWords.{box_kind};
ghost use Rattle.ft_trace.specs.ContainerStates.{kind_in};
ghost use Rattle.ft_trace.specs.Holds.{in_hand};
ghost use Rattle.ft_bank.specs.Passes.{shape_of, view, IsPassOf};
ghost use Rattle.ft_bank.specs.PassSections.{stack_of};
ghost use Rattle.ft_bank.specs.SameBoxes.{GainsRaised, HoldsFew, StaysSettled};
ghost use Rattle.ft_bank.specs.TableNames.{table_id, IsPlaceOf, IsTableIn};
ghost use Rattle.ft_bank.specs.Whole.{OnlyBoxed};
ghost use Rattle.ft_boxes.specs.References.{KeepsValues};
ghost use Rattle.ft_table_calls.specs.Dropping.{AreValuePlaces};
ghost use Rattle.ft_search.specs.Rounds.{kind_by};
ghost use Rattle.ft_replacing.specs.Sharing.{NamesKept};

use ft_bank::{Bank, Pass, Table};
use ft_keys::{Way, room_of};
use ft_layout::entry_word;
use ft_search::{mask_of, raise_named};
use ft_table_calls::ValuePlaces;

/// The kind of a value that stands in a box.
const BOX_KIND: u64 = 4;

/// Where the values of the entries lie in a table of a dict or a set of this class.
pub(crate) fn value_places(way: Way, class: u32) -> ValuePlaces
    requires class { IsClass class }
    ensures { AreValuePlaces (kind_by way) class result }
{
    let mask = mask_of(class);
    ValuePlaces {
        first: mask + 1 + entry_word::VALUE_KIND,
        step: 8,
        rows: room_of(way, mask),
    }
}

/// Raises the count of the box that the value names whose kind lies at this word of the table, where it names one, which
/// is fresh in hand. `start` is where the table's words lie.
#[inline(always)]
fn raise_value(bank: &Bank, pass: &mut Pass, table: Table, start: u64, word: u64)
    requires pass { IsPassOf bank.now pass.old }
    requires table { IsTableIn (shape_of bank.now) table }
    requires start { IsPlaceOf (shape_of bank.now) table start }
    requires fresh { stage (table_id table) (view pass.old).log ≡ 1 }
    requires word { word + 1 < size (class_of (table_id table)) }
    requires settled { IsSettled (view pass.old).log }
    requires few { HoldsFew (view pass.old) }
    requires kept { slice_index (in_hand (table_id table) (view pass.old)) word ≡ box_kind →
        IsBoxName (shape_of bank.now) (slice_index (in_hand (table_id table) (view pass.old)) (word + 1))
        × KeepsBox (shape_of bank.now) (slice_index (in_hand (table_id table) (view pass.old)) (word + 1))
        (view pass.old).log }
    ensures pass { IsPassOf bank.now pass.new }
    ensures stack { stack_of pass.new ≡ stack_of pass.old }
    ensures only { OnlyBoxed (view pass.old) (view pass.new) }
    ensures stays { StaysSettled (view pass.old) (view pass.new) }
    ensures values { KeepsValues (view pass.old) (view pass.new) }
    ensures gains { GainsRaised (view pass.old) (view pass.new) }
    ensures references { (b : ℕ) → references_held (shape_of bank.now) b (view pass.new).log ≡
        references_held (shape_of bank.now) b (view pass.old).log
        + names_box b (slice_index (in_hand (table_id table) (view pass.old)) word)
        (slice_index (in_hand (table_id table) (view pass.old)) (word + 1)) }
{
    let kind = bank.read_word(pass, table, start, word);
    if kind != BOX_KIND {
        return;
    }
    let named = bank.read_word(pass, table, start, word + 1);
    raise_named(bank, pass, named);
}

/// Raises the count of each box that a table names which is fresh in hand and which the container o is to get, as often
/// as it names it: a container names the box whose lock the pass has, or the pass holds a reference for it. The pass holds
/// few references for each box.
pub(crate) fn raise_values(bank: &Bank, pass: &mut Pass, o: u32, table: Table, places: ValuePlaces)
    requires pass { IsPassOf bank.now pass.old }
    requires table { IsTableIn (shape_of bank.now) table }
    requires fresh { stage (table_id table) (view pass.old).log ≡ 1 }
    requires places { AreValuePlaces (kind_in (shape_of bank.now).starts o) (class_of (table_id table)) places }
    requires settled { IsSettled (view pass.old).log }
    requires few { (b : ℕ) → references_held (shape_of bank.now) b (view pass.old).log ≤ 65536 }
    requires kept { NamesKept (shape_of bank.now) o (table_id table) (view pass.old) }
    ensures pass { IsPassOf bank.now pass.new }
    ensures stack { stack_of pass.new ≡ stack_of pass.old }
    ensures only { OnlyBoxed (view pass.old) (view pass.new) }
    ensures stays { StaysSettled (view pass.old) (view pass.new) }
    ensures values { KeepsValues (view pass.old) (view pass.new) }
    ensures gains { GainsRaised (view pass.old) (view pass.new) }
    ensures references { (b : ℕ) → references_held (shape_of bank.now) b (view pass.new).log ≡
        references_held (shape_of bank.now) b (view pass.old).log
        + named_in_root b (kind_in (shape_of bank.now).starts o) (suc (table_id table))
        (in_hand (table_id table) (view pass.old)) }
{
    let _ = o;
    let start = bank.cell_of(table);
    for row in 0..places.rows {
        let word = places.first + places.step * row;
        raise_value(bank, pass, table, start, word);
    }
}
