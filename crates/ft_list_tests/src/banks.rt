//! Banks with two lists and two passes.
ghost use Rattle.std.specs.Prelude.{◌≡◌, [], ◌∷◌, ◌<◌, IfOk, OnOk};
ghost use Rattle.ft_model.specs.declared.script.Kind.TheVariants.{List};
ghost use Rattle.ft_bank.specs.NewPasses.{IsOpening};
ghost use Rattle.ft_bank.specs.Passes.{view};
ghost use Rattle.ft_list_tests.specs.TestCalls.{HasTwoLists};

use ft_bank::{Bank, Pass, Shape};
use ft_bank_tests::{bank_of_two, small_shape};
use ft_model::Kind;
use std::alloc::Global;
use std::test::Fail;

/// Two lists, one table of each class, two passes.
fn small(alloc: Global) -> Result<Shape, Fail>
    ensures { IfOk result (λ s. (s.kinds.items ≡ List ∷ List ∷ []) × (s.passes ≡ 2)) }
{
    Ok(small_shape(alloc, vec![in alloc; Kind::List, Kind::List]?, 2, 100)?)
}

/// A bank with two lists and one table of each class, and its two passes.
pub(crate) fn small_bank(alloc: Global) -> Result<(Bank, Pass, Pass), Fail>
    ensures lists { IfOk result (λ made. HasTwoLists made.0) }
    ensures first { IfOk result (λ made. IsOpening made.0 0 made.1) }
    ensures second { IfOk result (λ made. IsOpening made.0 1 made.2) }
{
    let (bank, first, second) = bank_of_two(alloc, small(alloc)?)?;
    Ok((bank, first, second))
}

/// Has the pass a call left?
pub(crate) fn some_left(pass: &Pass) -> Result<(), Fail>
    ensures { OnOk result (0 < (view pass.now).left) }
{
    if pass.left() == 0 {
        return Err(Fail::from("a hundred calls are left at first"));
    }
    Ok(())
}
