//! What stays of a table's index for those who look without the lock.
ghost use Rattle.ft_bank.specs.Passes.{view};
ghost use Rattle.ft_search.specs.Stays.{UsedSlotsStay};

use ft_bank::Pass;

/// A slot of a dict's or a set's index that the pass found used names the same entry ever after, while the pass
/// announces nothing; also once the root names another table.
pub fn used_slots_stay(pass: &Pass)
    ensures { UsedSlotsStay (view pass.now) }
{
    let _ = pass;
}
