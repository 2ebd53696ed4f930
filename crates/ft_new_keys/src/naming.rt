//! The value of a new key's entry in a box: the pair is put with the value in its place, and then, while the entry's
//! version is odd, the value is put over by what names the box. The words read the same.
ghost use Rattle.std.specs.Prelude.{◌≡◌, ℕ, ◌+◌, ◌%◌, ◌<◌, Some};
ghost use Rattle.ft_layout.specs.declared.slot.Ref.{Ref};
ghost use Rattle.ft_trace.specs.Addresses.{class_of, slots};
ghost use Rattle.ft_trace.specs.Boxes.{references_held};
ghost use Rattle.ft_trace.specs.BoxWords.{box_kind};
ghost use Rattle.ft_trace.specs.ContainerStates.{kind_in};
ghost use Rattle.ft_trace.specs.Holds.{held_words, held_unboxed};
ghost use Rattle.ft_trace.specs.Kinds.{rows};
ghost use Rattle.ft_trace.specs.Pictures.{entry_field};
ghost use Rattle.ft_bank.specs.BoxSteps.{box_id};
ghost use Rattle.ft_bank.specs.Passes.{shape_of, view, IsPassOf};
ghost use Rattle.ft_bank.specs.PassSections.{stack_of};
ghost use Rattle.ft_bank.specs.TableNames.{table_id};
ghost use Rattle.ft_bank.specs.Whole.{OnlyWritten};
ghost use Rattle.ft_search.specs.OneEntryWrites.{WritesEntries};
ghost use Rattle.ft_new_keys.specs.HeldKeys.{needed_for};
ghost use Rattle.ft_new_keys.specs.Internal.Laying.{ReadsAsEntry};

use ft_bank::{Bank, Pass, Table};
use ft_layout::{Ref, Stored, entry_word, stored_kind_of, stored_payload_of};
use ft_search::{mask_of, put_over};

/// What the entry of a new key stores: what its words read, and the box in which that stands, if it stands in one.
#[derive(Clone, Copy)]
pub(crate) struct NewValue {
    /// What the words read.
    pub stored: Stored,
    /// The box.
    pub boxed: Option<Ref>,
}

/// Has the value of an entry stand in this box, if there is one, whose version is odd: the box has that value, and the
/// pass the reference for it, which is the entry's then.
pub(crate) fn name_box(
    bank: &Bank,
    pass: &mut Pass,
    o: u32,
    table: Table,
    place: u64,
    boxed: Option<Ref>,
)
    requires pass { IsPassOf bank.now pass.old }
    requires writes { WritesEntries (shape_of bank.now) o table (view pass.old) }
    requires place { place < rows (kind_in (shape_of bank.now).starts o) (class_of (table_id table)) }
    requires odd { entry_field (slots (class_of (table_id table))) (held_unboxed o (view pass.old)).table place 0 % 2 ≡ 1 }
    requires own { (b : Ref) → boxed ≡ Some b → ReadsAsEntry o (table_id table) place b (view pass.old) }
    ensures pass { IsPassOf bank.now pass.new }
    ensures stack { stack_of pass.new ≡ stack_of pass.old }
    ensures writes { WritesEntries (shape_of bank.now) o table (view pass.new) }
    ensures only { OnlyWritten o (view pass.old) (view pass.new) }
    ensures words { held_unboxed o (view pass.new) ≡ held_unboxed o (view pass.old) }
    ensures references { (c : ℕ) → references_held (shape_of bank.now) c (view pass.new).log + needed_for boxed c
        ≡ references_held (shape_of bank.now) c (view pass.old).log }
    ensures names { (b : Ref) → boxed ≡ Some b →
        (entry_field (slots (class_of (table_id table))) (held_words o (view pass.new)).table place 4 ≡ box_kind)
        × (entry_field (slots (class_of (table_id table))) (held_words o (view pass.new)).table place 5 ≡ box_id b) }
{
    if let Some(b) = boxed {
        let stored = Stored::Boxed(b);
        let kind = stored_kind_of(stored);
        let payload = stored_payload_of(stored);
        let mask = mask_of(table.class);
        let start = bank.cell_of(table);
        let word = 8 * place + mask + 1 + entry_word::VALUE_KIND;
        put_over(bank, pass, o, table, start, word, kind, payload);
    }
}
