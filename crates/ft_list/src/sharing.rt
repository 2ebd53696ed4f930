//! Items that a list shares with another one: their values stand in the same boxes.
ghost use Rattle.std.specs.Prelude.{◌≡◌, ℕ, suc, ◌+◌, ◌<◌, length, Option, Some};
ghost use Rattle.ft_layout.specs.Words.{IsStored};
ghost use Rattle.ft_trace.specs.Boxes.{names_box, references_held, IsSettled};
ghost use Rattle.ft_trace.specs.Holds.{held_words, held_unboxed};
ghost use Rattle.ft_trace.specs.Pictures.{item_field, root_in};
ghost use Rattle.ft_bank.specs.BoxSteps.{kind_read, payload_read, HasReferenceFor};
ghost use Rattle.ft_bank.specs.Passes.{shape_of, view, IsPassOf};
ghost use Rattle.ft_bank.specs.PassSections.{stack_of};
ghost use Rattle.ft_bank.specs.TableNames.{table_id, root_for, IsTableIn};
ghost use Rattle.ft_bank.specs.SameBoxes.{GainsRaised, StaysSettled};
ghost use Rattle.ft_bank.specs.Whole.{OnlyBoxed, OnlyLoaded};
ghost use Rattle.ft_list.specs.ListItemWrites.{known_items, stored_item};
ghost use Rattle.ft_list.specs.Internal.Additions.{GivesItems};
ghost use Rattle.ft_list.specs.Internal.Carrying.{HoldsFewBut, HoldsSpare};

use crate::items::word_at;
use ft_bank::{Bank, Pass, Table};
use ft_layout::item_word;
use ft_search::raise_named;

/// The kind of a value that stands in a box.
const BOX_KIND: u64 = 4;

/// The kind and the payload of the value that an item of a list has whose items are added to a list, as its words
/// stand.
pub(crate) fn given_words(
    bank: &Bank,
    pass: &mut Pass,
    m: u32,
    table: Option<Table>,
    place: u64,
) -> (u64, u64)
    requires pass { IsPassOf bank.now pass.old }
    requires gives { (o : ℕ) × GivesItems (shape_of bank.now) o m (view pass.old) }
    requires table { (t : Table) → table ≡ Some t → IsTableIn (shape_of bank.now) t }
    requires root { root_in (held_unboxed m (view pass.old)) ≡ root_for table }
    requires place { place < length (known_items m (view pass.old)) }
    ensures pass { IsPassOf bank.now pass.new }
    ensures stack { stack_of pass.new ≡ stack_of pass.old }
    ensures only { OnlyLoaded (view pass.old) (view pass.new) }
    ensures kind { result.0 ≡ item_field (held_words m (view pass.old)).table place 1 }
    ensures payload { result.1 ≡ item_field (held_words m (view pass.old)).table place 2 }
{
    match table {
        Some(table) => {
            let start = bank.cell_of(table);
            let kind = bank.read_word(pass, table, start, word_at(place, item_word::VALUE_KIND));
            let payload = bank.read_word(pass, table, start, word_at(place, item_word::VALUE));
            (kind, payload)
        }
        None => unreachable!(),
    }
}

/// Takes a reference for the box that the value of an item names which is added to a list, where it names one: the
/// list that has the item keeps the box, and the pass has its lock.
pub(crate) fn share_given(bank: &Bank, pass: &mut Pass, m: u32, place: u64, value: (u64, u64))
    requires pass { IsPassOf bank.now pass.old }
    requires settled { IsSettled (view pass.old).log }
    requires spare { HoldsSpare (shape_of bank.now) (view pass.old) }
    requires gives { (o : ℕ) × GivesItems (shape_of bank.now) o m (view pass.old) }
    requires from { (t : Table) × IsTableIn (shape_of bank.now) t
        × (root_in (held_unboxed m (view pass.old)) ≡ suc (table_id t)) }
    requires place { place < length (known_items m (view pass.old)) }
    requires kind { value.0 ≡ item_field (held_words m (view pass.old)).table place 1 }
    requires payload { value.1 ≡ item_field (held_words m (view pass.old)).table place 2 }
    ensures pass { IsPassOf bank.now pass.new }
    ensures stack { stack_of pass.new ≡ stack_of pass.old }
    ensures only { OnlyBoxed (view pass.old) (view pass.new) }
    ensures stays { StaysSettled (view pass.old) (view pass.new) }
    ensures gains { GainsRaised (view pass.old) (view pass.new) }
    ensures own { HasReferenceFor (view pass.new) value.0 value.1 }
    ensures spare { HoldsFewBut (shape_of bank.now) value.0 value.1 (view pass.new) }
    ensures reads { IsStored (kind_read (view pass.new) value.0 value.1) (payload_read (view pass.new) value.0 value.1)
        (stored_item (known_items m (view pass.old)) place) }
    ensures references { (b : ℕ) → references_held (shape_of bank.now) b (view pass.new).log
        ≡ references_held (shape_of bank.now) b (view pass.old).log + names_box b value.0 value.1 }
{
    let _ = (m, place);
    if value.0 == BOX_KIND {
        raise_named(bank, pass, value.1);
    }
}
