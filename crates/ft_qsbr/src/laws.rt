//! What delayed reuse promises to those who look without a lock, in what a pass knows.
ghost use Rattle.ft_bank.specs.Passes.{view};
ghost use Rattle.ft_qsbr.specs.ReuseLaws.{FoundAreKept, ClearedAreNotRead};

use ft_bank::Pass;

/// A table that the pass has found in a root since it last announced isn't free.
pub fn found_tables_are_kept(pass: &Pass)
    ensures { FoundAreKept (view pass.now) }
{
    let _ = pass;
}

/// Where a pass that retired a table has found since then that another was offline or at least at the goal,
/// that one hasn't found the table since it last announced.
pub fn cleared_tables_are_not_read(pass: &Pass)
    ensures { ClearedAreNotRead (view pass.now) }
{
    let _ = pass;
}
