//! The references that deleted entries have of a table which a growth took out of a root. The entries that are there have
//! theirs in the new table; no words name the boxes of the deleted ones any longer, and the pass drops them.
ghost use Rattle.std.specs.Prelude.{◌≡◌, ℕ, ◌+◌, ◌<◌, nat_lt, if◌then◌else◌, false, Option, Some, slice_index};
ghost use Rattle.ft_trace.specs.Acts.{stage};
ghost use Rattle.ft_trace.specs.Addresses.{class_of, size};
ghost use Rattle.ft_trace.specs.Boxes.{names_box, references_held, IsSettled};
ghost use Rattle.ft_trace.specs.BoxWords.{box_kind};
ghost use Rattle.ft_trace.specs.ContainerStates.{kind_in};
ghost use Rattle.ft_trace.specs.Holds.{in_hand};
ghost use Rattle.ft_bank.specs.Passes.{shape_of, view, IsPassOf};
ghost use Rattle.ft_bank.specs.PassSections.{stack_of};
ghost use Rattle.ft_bank.specs.SameBoxes.{StaysSettled};
ghost use Rattle.ft_bank.specs.declared.table.Table.{Table};
ghost use Rattle.ft_bank.specs.TableNames.{table_id, IsPlaceOf, IsTableIn};
ghost use Rattle.ft_bank.specs.Whole.{OnlyBoxed};
ghost use Rattle.ft_boxes.specs.References.{KeepsValues};
ghost use Rattle.ft_search.specs.Rounds.{kind_by};
ghost use Rattle.ft_new_keys.specs.Moving.{HoldsGone, gone_in_old};

use ft_bank::{Bank, Pass, Table};
use ft_keys::{Way, room_of};
use ft_layout::entry_word::{KEY_KIND, VALUE_KIND};
use ft_search::mask_of;
use ft_table_calls::drop_value;

/// The first of the kinds of keys that were deleted.
const FIRST_GONE: u64 = 3;

/// Drops the reference of the value of an entry whose key was deleted, where it names a box. The entry's words begin at
/// this one of the table, whose words lie from `start` on.
#[inline(always)]
fn drop_entry(bank: &Bank, pass: &mut Pass, table: Table, start: u64, entry: u64)
    requires pass { IsPassOf bank.now pass.old }
    requires table { IsTableIn (shape_of bank.now) table }
    requires start { IsPlaceOf (shape_of bank.now) table start }
    requires out { stage (table_id table) (view pass.old).log ≡ 3 }
    requires entry { entry + 7 < size (class_of (table_id table)) }
    requires settled { IsSettled (view pass.old).log }
    requires held { nat_lt (slice_index (in_hand (table_id table) (view pass.old)) (entry + 2)) 3 ≡ false →
        slice_index (in_hand (table_id table) (view pass.old)) (entry + 4) ≡ box_kind →
        0 < references_held (shape_of bank.now) (slice_index (in_hand (table_id table) (view pass.old)) (entry + 5))
        (view pass.old).log }
    ensures pass { IsPassOf bank.now pass.new }
    ensures stack { stack_of pass.new ≡ stack_of pass.old }
    ensures only { OnlyBoxed (view pass.old) (view pass.new) }
    ensures made { StaysSettled (view pass.old) (view pass.new) }
    ensures values { KeepsValues (view pass.old) (view pass.new) }
    ensures references { (b : ℕ) → references_held (shape_of bank.now) b (view pass.old).log ≡
        references_held (shape_of bank.now) b (view pass.new).log
        + (if nat_lt (slice_index (in_hand (table_id table) (view pass.old)) (entry + 2)) 3 then 0
        else names_box b (slice_index (in_hand (table_id table) (view pass.old)) (entry + 4))
        (slice_index (in_hand (table_id table) (view pass.old)) (entry + 5))) }
{
    let key_kind = bank.read_word(pass, table, start, entry + KEY_KIND);
    if key_kind < FIRST_GONE {
        return;
    }
    drop_value(bank, pass, table, start, entry + VALUE_KIND);
}

/// Drops the references of the values of deleted entries in the table that a dict or a set had before a growth put
/// another root, if it had one: they are among those that the pass holds.
pub(crate) fn drop_gone(bank: &Bank, pass: &mut Pass, o: u32, way: Way, old: Option<Table>)
    requires pass { IsPassOf bank.now pass.old }
    requires way { kind_in (shape_of bank.now).starts o ≡ kind_by way }
    requires out { (t : Table) → old ≡ Some t →
        IsTableIn (shape_of bank.now) t × (stage (table_id t) (view pass.old).log ≡ 3) }
    requires settled { IsSettled (view pass.old).log }
    requires held { HoldsGone (shape_of bank.now) o old (view pass.old) }
    ensures pass { IsPassOf bank.now pass.new }
    ensures stack { stack_of pass.new ≡ stack_of pass.old }
    ensures only { OnlyBoxed (view pass.old) (view pass.new) }
    ensures made { StaysSettled (view pass.old) (view pass.new) }
    ensures values { KeepsValues (view pass.old) (view pass.new) }
    ensures references { (b : ℕ) → references_held (shape_of bank.now) b (view pass.new).log
        + gone_in_old (shape_of bank.now) o old (view pass.old) b
        ≡ references_held (shape_of bank.now) b (view pass.old).log }
{
    if let Some(table) = old {
        drop_gone_in(bank, pass, o, way, table);
    }
}

/// Drops the references of the values of deleted entries in a table that the pass took out of the root of the container o.
fn drop_gone_in(bank: &Bank, pass: &mut Pass, o: u32, way: Way, table: Table)
    requires pass { IsPassOf bank.now pass.old }
    requires way { kind_in (shape_of bank.now).starts o ≡ kind_by way }
    requires table { IsTableIn (shape_of bank.now) table }
    requires out { stage (table_id table) (view pass.old).log ≡ 3 }
    requires settled { IsSettled (view pass.old).log }
    requires held { HoldsGone (shape_of bank.now) o (Some table) (view pass.old) }
    ensures pass { IsPassOf bank.now pass.new }
    ensures stack { stack_of pass.new ≡ stack_of pass.old }
    ensures only { OnlyBoxed (view pass.old) (view pass.new) }
    ensures made { StaysSettled (view pass.old) (view pass.new) }
    ensures values { KeepsValues (view pass.old) (view pass.new) }
    ensures references { (b : ℕ) → references_held (shape_of bank.now) b (view pass.new).log
        + gone_in_old (shape_of bank.now) o (Some table) (view pass.old) b
        ≡ references_held (shape_of bank.now) b (view pass.old).log }
{
    let _ = o;
    let start = bank.cell_of(table);
    let mask = mask_of(table.class);
    for row in 0..room_of(way, mask) {
        let entry = mask + 1 + 8 * row;
        drop_entry(bank, pass, table, start, entry);
    }
}
