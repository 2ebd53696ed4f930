//! One round of a look-up where the root was read 0: the container has no table, or a write takes away what
//! it had, which its version says.
ghost use Rattle.std.specs.Prelude.{◌≡◌, ◌<◌, List, ◌∷◌};
ghost use Rattle.ft_model.specs.declared.data.Key.{Key};
ghost use Rattle.ft_trace.specs.declared.Act.{Act};
ghost use Rattle.ft_trace.specs.declared.Act.TheVariants.{ReadRoot};
ghost use Rattle.ft_trace.specs.Acts.{announces};
ghost use Rattle.ft_trace.specs.Addresses.{container_count};
ghost use Rattle.ft_bank.specs.Passes.{shape_of, view, IsPassOf};
ghost use Rattle.ft_keys.specs.declared.walk.Way.{Way};
ghost use Rattle.ft_search.specs.SearchCosts.{SpendsRound};
ghost use Rattle.ft_search.specs.Rounds.{EndsRound};

use crate::looks::Looked;
use crate::rounds::Round;
use ft_bank::{Bank, Pass};

/// Loads the container's version, the root again, the counter, and the version again.
pub(crate) fn look_bare(bank: &Bank, pass: &mut Pass, o: u32) -> Round
    requires pass { IsPassOf bank.now pass.old }
    requires container { o < container_count (shape_of bank.now) }
    requires online { 0 < announces (view pass.old).log }
    requires last { (rest : List Act) × ((view pass.old).log ≡ ReadRoot o 0 ∷ rest) }
    ensures pass { IsPassOf bank.now pass.new }
    ensures ended { (key : Key) → EndsRound (shape_of bank.now) o key 0 pass.old pass.new result }
    ensures spends { (way : Way) → SpendsRound way o 0 pass.old pass.new result }
{
    let opened = bank.seq(pass, o);
    let root = bank.read_root(pass, o);
    if root != 0 {
        return Round::Moved(root);
    }
    let number = bank.stamp(pass);
    let closed = bank.seq(pass, o);
    if closed != opened || opened % 2 != 0 {
        return Round::Ended(Looked::Contended(opened, closed));
    }
    Round::Ended(Looked::Absent(number))
}
