//! The values of items as they read: one that names a box has the kind and the payload that stand there.
ghost use Rattle.std.specs.Prelude.{◌≡◌, suc, ◌<◌, true};
ghost use Rattle.ft_model.specs.declared.script.Kind.TheVariants as kind;
ghost use Rattle.ft_trace.specs.Acts.{has_lock};
ghost use Rattle.ft_trace.specs.Addresses.{container_count, class_of, slots};
ghost use Rattle.ft_trace.specs.ContainerStates.{kind_in};
ghost use Rattle.ft_trace.specs.Holds.{held_unboxed};
ghost use Rattle.ft_trace.specs.Pictures.{item_field, root_in};
ghost use Rattle.ft_bank.specs.Passes.{shape_of, view, IsPassOf};
ghost use Rattle.ft_bank.specs.PassSections.{stack_of};
ghost use Rattle.ft_bank.specs.TableNames.{table_id, IsPlaceOf, IsTableIn};
ghost use Rattle.ft_bank.specs.Whole.{OnlyLoaded};

use crate::items::word_at;
use ft_bank::{Bank, Pass, Table};
use ft_layout::item_word;
use ft_search::read_value;

/// What the value of an item reads, its kind and its payload, in the table of a list whose lock the pass has. `start` is
/// where the table's words lie.
#[inline(always)]
pub(crate) fn held_value(
    bank: &Bank,
    pass: &mut Pass,
    o: u32,
    table: Table,
    start: u64,
    place: u64,
) -> (u64, u64)
    requires pass { IsPassOf bank.now pass.old }
    requires container { o < container_count (shape_of bank.now) }
    requires list { kind_in (shape_of bank.now).starts o ≡ kind.List }
    requires locked { has_lock o (view pass.old).log ≡ true }
    requires table { IsTableIn (shape_of bank.now) table }
    requires root { root_in (held_unboxed o (view pass.old)) ≡ suc (table_id table) }
    requires start { IsPlaceOf (shape_of bank.now) table start }
    requires place { place < slots (class_of (table_id table)) }
    ensures pass { IsPassOf bank.now pass.new }
    ensures stack { stack_of pass.new ≡ stack_of pass.old }
    ensures only { OnlyLoaded (view pass.old) (view pass.new) }
    ensures kind { result.0 ≡ item_field (held_unboxed o (view pass.old)).table place 1 }
    ensures payload { result.1 ≡ item_field (held_unboxed o (view pass.old)).table place 2 }
{
    let _ = o;
    let kind = bank.read_word(pass, table, start, word_at(place, item_word::VALUE_KIND));
    let payload = bank.read_word(pass, table, start, word_at(place, item_word::VALUE));
    read_value(bank, pass, kind, payload)
}
