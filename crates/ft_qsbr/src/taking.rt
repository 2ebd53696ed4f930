//! The taking of a table after a collection.
ghost use Rattle.std.specs.Prelude.{◌≡◌, ℕ, List, ◌∷◌, false, true};
ghost use Rattle.ft_model.specs.Classes.{IsClass};
ghost use Rattle.ft_trace.specs.declared.Act.{Act};
ghost use Rattle.ft_trace.specs.declared.Act.TheVariants.{ReadCount};
ghost use Rattle.ft_trace.specs.declared.View.{View};
ghost use Rattle.ft_trace.specs.Acts.{flight, has_goal, owes};
ghost use Rattle.ft_bank.specs.Passes.{shape_of, view, IsPassOf};
ghost use Rattle.ft_bank.specs.PassSections.{stack_of};
ghost use Rattle.ft_bank.specs.Series.{noted_all};
ghost use Rattle.ft_bank.specs.Takings.{HasNotMoved, HasTook, IsTaking, KeepsBut, StaysIn};
ghost use Rattle.ft_bank.specs.declared.takings.Took.TheVariants.{AllTaken};
ghost use Rattle.ft_bank.specs.Whole.{SamePass};
ghost use Rattle.ft_qsbr.specs.Collecting.{Collected, StaysOrGoes};

use crate::collecting::collect;
use ft_bank::{Bank, Pass, Took};

/// Collects, and then tries to take a table of a class. The pass has lowered no count since its last commit
/// that it hasn't raised again, and is in the midst of no taking or giving.
pub fn take(bank: &Bank, pass: &mut Pass, class: u32) -> Took
    requires pass { IsPassOf bank.now pass.old }
    requires class { IsClass class }
    requires idle { flight (view pass.old).log ≡ 0 }
    requires none { owes (view pass.old).log ≡ 0 }
    ensures pass { IsPassOf bank.now pass.new }
    ensures did { (mid : View) × (freed : ℕ) × (acts : List Act) × Collected (view pass.old) mid freed
        × (view pass.new ≡ noted_all acts mid) × IsTaking class result acts
        × HasTook (shape_of bank.now) class result mid (view pass.new) }
    ensures empty { result ≡ AllTaken →
        (rest : List Act) × ((view pass.new).log ≡ ReadCount class 0 ∷ rest) × (owes rest ≡ 0) }
    ensures floor { (view pass.old).has_floor ≡ true → HasNotMoved result }
    ensures idle { flight (view pass.new).log ≡ 0 }
    ensures sections { stack_of pass.new ≡ stack_of pass.old }
    ensures same { SamePass (view pass.old) (view pass.new) }
    ensures hands { (t : ℕ) → StaysIn result t → StaysOrGoes (view pass.old) (view pass.new) t }
    ensures keeps { KeepsBut (λ t. (has_goal t (view pass.old).log ≡ false) × StaysIn result t)
        (view pass.old) (view pass.new) }
{
    collect(bank, pass);
    bank.take_table(pass, class)
}
