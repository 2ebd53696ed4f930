//! Whole writes of lists that have no table, and so no item: no word of theirs is put but the version.
ghost use Rattle.std.specs.Prelude.{◌≡◌, ◌≢◌, ℕ};
ghost use Rattle.ft_trace.specs.Boxes.{place_use, use_taken};
ghost use Rattle.ft_trace.specs.Holds.{held_unboxed, known_state};
ghost use Rattle.ft_trace.specs.Pictures.{root_in};
ghost use Rattle.ft_bank.specs.Passes.{shape_of, view, IsPassOf};
ghost use Rattle.ft_bank.specs.PassSections.{stack_of};
ghost use Rattle.ft_bank.specs.SameBoxes.{SameReferences};
ghost use Rattle.ft_bank.specs.Whole.{Wrote};
ghost use Rattle.ft_search.specs.OneEntryWrites.{Leaves};
ghost use Rattle.ft_list.specs.ListWrites.{MayBeginList};

use ft_bank::{Bank, Pass};
use ft_model::{Call, Reply};

/// Makes a call that leaves a list without a table as it is, as the write of this call. Answers the number
/// of the write.
pub(crate) fn write_nothing(
    bank: &Bank,
    pass: &mut Pass,
    o: u32,
    called: &Call,
    said: &Reply,
) -> u64
    requires pass { IsPassOf bank.now pass.old }
    requires may { MayBeginList (shape_of bank.now) o (view pass.old) }
    requires untaken { (b : ℕ) → place_use b (view pass.old).log ≢ use_taken }
    requires bare { root_in (held_unboxed o (view pass.old)) ≡ 0 }
    requires leaves { Leaves o called.now said.now (known_state o (view pass.old)) (view pass.old) }
    ensures pass { IsPassOf bank.now pass.new }
    ensures stack { stack_of pass.new ≡ stack_of pass.old }
    ensures wrote { Wrote called.now said.now result (view pass.old) (view pass.new) }
    ensures root { root_in (held_unboxed o (view pass.new)) ≡ root_in (held_unboxed o (view pass.old)) }
    ensures references { SameReferences (view pass.old) (view pass.new) }
{
    bank.start_write(pass, o);
    let number = bank.commit(pass, called, said);
    bank.stop_write(pass, o);
    number
}
