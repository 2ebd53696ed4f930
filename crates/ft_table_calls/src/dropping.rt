//! The references that the values of a table have which a pass took out of a root: no words name their boxes any longer,
//! and the pass drops them before it makes the write.
ghost use Rattle.std.specs.Prelude.{◌≡◌, ℕ, suc, ◌+◌, ◌<◌, slice_index};
ghost use Rattle.ft_trace.specs.Acts.{stage};
ghost use Rattle.ft_trace.specs.Addresses.{class_of, size};
ghost use Rattle.ft_trace.specs.Boxes.{named_in_root, names_box, references_held, IsSettled};
ghost use Rattle.ft_trace.specs.BoxWords.{box_kind};
ghost use Rattle.ft_trace.specs.ContainerStates.{kind_in};
ghost use Rattle.ft_trace.specs.Holds.{in_hand};
ghost use Rattle.ft_bank.specs.Passes.{shape_of, view, IsPassOf};
ghost use Rattle.ft_bank.specs.PassSections.{stack_of};
ghost use Rattle.ft_bank.specs.SameBoxes.{StaysSettled};
ghost use Rattle.ft_bank.specs.TableNames.{table_id, IsPlaceOf, IsTableIn};
ghost use Rattle.ft_bank.specs.Whole.{OnlyBoxed};
ghost use Rattle.ft_boxes.specs.References.{HoldsBox, KeepsValues};
ghost use Rattle.ft_table_calls.specs.Adding.{WasMade};
ghost use Rattle.ft_table_calls.specs.Dropping.{AreValuePlaces, DropsUnmade, HoldsNamed};

use crate::adding::Added;
use ft_bank::{Bank, Pass, Table};
use ft_boxes::taken;
use ft_layout::Ref;
use ft_search::release;
use ft_section::Object;

/// The kind of a value that stands in a box.
const BOX_KIND: u64 = 4;

/// Where the values of a table lie, in words from its header on.
#[derive(Clone, Copy)]
pub struct ValuePlaces {
    /// The word of the kind of the first one; its payload is the next word.
    pub first: u64,
    /// How far it is from one to the next.
    pub step: u64,
    /// How many rows of values there are.
    pub rows: u64,
}

/// Drops the reference of the value whose kind lies at this word of the table, where it names a box. `start` is where
/// the table's words lie.
#[inline(always)]
pub fn drop_value(bank: &Bank, pass: &mut Pass, table: Table, start: u64, word: u64)
    requires pass { IsPassOf bank.now pass.old }
    requires table { IsTableIn (shape_of bank.now) table }
    requires start { IsPlaceOf (shape_of bank.now) table start }
    requires out { stage (table_id table) (view pass.old).log ≡ 3 }
    requires word { word + 1 < size (class_of (table_id table)) }
    requires settled { IsSettled (view pass.old).log }
    requires held { slice_index (in_hand (table_id table) (view pass.old)) word ≡ box_kind →
        0 < references_held (shape_of bank.now) (slice_index (in_hand (table_id table) (view pass.old)) (word + 1))
        (view pass.old).log }
    ensures pass { IsPassOf bank.now pass.new }
    ensures stack { stack_of pass.new ≡ stack_of pass.old }
    ensures only { OnlyBoxed (view pass.old) (view pass.new) }
    ensures made { StaysSettled (view pass.old) (view pass.new) }
    ensures values { KeepsValues (view pass.old) (view pass.new) }
    ensures references { (b : ℕ) → references_held (shape_of bank.now) b (view pass.old).log ≡
        references_held (shape_of bank.now) b (view pass.new).log
        + names_box b (slice_index (in_hand (table_id table) (view pass.old)) word)
        (slice_index (in_hand (table_id table) (view pass.old)) (word + 1)) }
{
    let kind = bank.read_word(pass, table, start, word);
    if kind != BOX_KIND {
        return;
    }
    let named = bank.read_word(pass, table, start, word + 1);
    release(bank, pass, named);
}

/// Drops the references of the values of a table that the pass took out of the root of the container o and has not
/// retired: they are among those that it holds.
pub fn drop_values(bank: &Bank, pass: &mut Pass, o: Object, table: Table, places: ValuePlaces)
    requires pass { IsPassOf bank.now pass.old }
    requires table { IsTableIn (shape_of bank.now) table }
    requires out { stage (table_id table) (view pass.old).log ≡ 3 }
    requires places { AreValuePlaces (kind_in (shape_of bank.now).starts o) (class_of (table_id table)) places }
    requires settled { IsSettled (view pass.old).log }
    requires held { HoldsNamed (shape_of bank.now) o (table_id table) (view pass.old) }
    ensures pass { IsPassOf bank.now pass.new }
    ensures stack { stack_of pass.new ≡ stack_of pass.old }
    ensures only { OnlyBoxed (view pass.old) (view pass.new) }
    ensures made { StaysSettled (view pass.old) (view pass.new) }
    ensures values { KeepsValues (view pass.old) (view pass.new) }
    ensures references { (b : ℕ) → references_held (shape_of bank.now) b (view pass.new).log
        + named_in_root b (kind_in (shape_of bank.now).starts o) (suc (table_id table)) (in_hand (table_id table) (view pass.old))
        ≡ references_held (shape_of bank.now) b (view pass.old).log }
{
    let _ = o;
    let start = bank.cell_of(table);
    for row in 0..places.rows {
        let word = places.first + places.step * row;
        drop_value(bank, pass, table, start, word);
    }
}

/// Drops the reference for a box that a call was to store, where the call wasn't made.
pub fn drop_unmade(bank: &Bank, pass: &mut Pass, at: Ref, added: Added)
    requires pass { IsPassOf bank.now pass.old }
    requires held { ¬ WasMade added → HoldsBox at (view pass.old) × IsSettled (view pass.old).log }
    ensures pass { IsPassOf bank.now pass.new }
    ensures stack { stack_of pass.new ≡ stack_of pass.old }
    ensures drops { DropsUnmade at (view pass.old) (view pass.new) added }
{
    match added {
        Added::Made(_) => {}
        Added::NoTable(_, _) | Added::Over(_) | Added::NoPlace(_) | Added::Moved(_, _) => {
            let held = taken(bank, pass, at);
            ft_boxes::release(bank, pass, held);
        }
    }
}
