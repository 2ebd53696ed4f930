//! The table that a container had before a write put another root.
ghost use Rattle.std.specs.Prelude.{◌≡◌, ◌<◌, Some};
ghost use Rattle.ft_trace.specs.Acts.{debt, stage};
ghost use Rattle.ft_bank.specs.declared.table.Table.{Table};
ghost use Rattle.ft_bank.specs.Passes.{shape_of, view, IsPassOf};
ghost use Rattle.ft_bank.specs.PassSections.{stack_of};
ghost use Rattle.ft_bank.specs.TableNames.{table_id, root_for, IsTableIn};
ghost use Rattle.ft_table_calls.specs.Adding.{Retires};

use ft_bank::{Bank, Pass, Table};
use ft_qsbr::retire;

/// Retires the table that the root of a container named before a write put another root, if it named one.
pub fn retire_old(bank: &Bank, pass: &mut Pass, old: Option<Table>)
    requires pass { IsPassOf bank.now pass.old }
    requires out { (t : Table) → old ≡ Some t → IsTableIn (shape_of bank.now) t
        × (stage (table_id t) (view pass.old).log ≡ 3) × (0 < debt (view pass.old).log) }
    ensures pass { IsPassOf bank.now pass.new }
    ensures stack { stack_of pass.new ≡ stack_of pass.old }
    ensures retired { Retires (root_for old) (view pass.old) (view pass.new) }
{
    if let Some(table) = old {
        retire(bank, pass, table);
    }
}
