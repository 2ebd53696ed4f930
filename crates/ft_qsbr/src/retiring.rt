//! The retirement of a table that a pass took out of a root.
ghost use Rattle.std.specs.Prelude.{◌≡◌, ℕ, ◌+◌, ◌<◌, [], ◌∷◌, true};
ghost use Rattle.ft_trace.specs.declared.Act.TheVariants.{PutHeader, Retire};
ghost use Rattle.ft_trace.specs.Acts.{announces, debt, goal, has_goal, stage};
ghost use Rattle.ft_bank.specs.Passes.{shape_of, view, IsPassOf};
ghost use Rattle.ft_bank.specs.Series.{DidAll};
ghost use Rattle.ft_bank.specs.TableNames.{table_id, IsTableIn};
ghost use Rattle.ft_bank.specs.Takings.{KeepsHeld, NotTable};
ghost use Rattle.ft_bank.specs.Whole.{SamePass};

use ft_bank::{Bank, Pass, Table};

/// Retires a table that the pass took out of a root, of which it has retired fewer than it took: the write
/// number is raised by one, and the new number is the goal that each pass has to reach, or be offline,
/// before the table is given back. It stands in the table's header.
pub fn retire(bank: &Bank, pass: &mut Pass, table: Table)
    requires pass { IsPassOf bank.now pass.old }
    requires table { IsTableIn (shape_of bank.now) table }
    requires out { stage (table_id table) (view pass.old).log ≡ 3 }
    requires debt { 0 < debt (view pass.old).log }
    ensures pass { IsPassOf bank.now pass.new }
    ensures did { (n : ℕ)
        × DidAll (PutHeader (table_id table) (n + 1) ∷ Retire (table_id table) n ∷ []) pass.old pass.new
        × (goal (table_id table) (view pass.new).log ≡ n + 1) }
    ensures retired { (stage (table_id table) (view pass.new).log ≡ 4) × (has_goal (table_id table) (view pass.new).log ≡ true) }
    ensures debt { debt (view pass.new).log + 1 ≡ debt (view pass.old).log }
    ensures announces { announces (view pass.new).log ≡ announces (view pass.old).log }
    ensures same { SamePass (view pass.old) (view pass.new) }
    ensures keeps { KeepsHeld (NotTable table) (view pass.old) (view pass.new) }
{
    let goal = bank.retire(pass, table);
    bank.put_goal(pass, table, goal);
}
