//! A table that is fresh in hand, whose entries get new serials. No other pass reads it before it is put into a root.
ghost use Rattle.std.specs.Prelude.{◌≡◌, ◌+◌, ◌^◌, ◌<◌, ◌≤◌};
ghost use Rattle.ft_layout.specs.Containers.{class_mask};
ghost use Rattle.ft_layout.specs.Tables.{dict_room};
ghost use Rattle.ft_trace.specs.Acts.{stage};
ghost use Rattle.ft_trace.specs.Addresses.{class_of, slots};
ghost use Rattle.ft_trace.specs.Holds.{in_hand};
ghost use Rattle.ft_bank.specs.Passes.{shape_of, view, IsPassOf};
ghost use Rattle.ft_bank.specs.PassSections.{stack_of};
ghost use Rattle.ft_bank.specs.TableNames.{table_id, IsTableIn};
ghost use Rattle.ft_table_calls.specs.Adding.{OnlyFilled};
ghost use Rattle.ft_replacing.specs.Internal.Numbering.{renumbered};

use ft_bank::{Bank, Pass, Table};
use ft_layout::entry_word;
use ft_search::mask_of;

/// Gives the first entries of a table that is fresh in hand serials from this one on.
pub(crate) fn renumber(bank: &Bank, pass: &mut Pass, table: Table, count: u64, next: u64)
    requires pass { IsPassOf bank.now pass.old }
    requires table { IsTableIn (shape_of bank.now) table }
    requires fresh { stage (table_id table) (view pass.old).log ≡ 1 }
    requires room { count ≤ dict_room (class_mask table.class) }
    requires serials { next + count < 2 ^ 64 }
    ensures pass { IsPassOf bank.now pass.new }
    ensures stack { stack_of pass.new ≡ stack_of pass.old }
    ensures only { OnlyFilled (view pass.old) (view pass.new) }
    ensures words { in_hand (table_id table) (view pass.new) ≡
        renumbered (slots (class_of (table_id table))) next count (in_hand (table_id table) (view pass.old)) }
{
    let slots = mask_of(table.class) + 1;
    for place in 0..count {
        let at = 8 * place + entry_word::SERIAL + slots;
        bank.put_fresh(pass, table, at, next + place);
    }
}
