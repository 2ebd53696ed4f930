//! The bank with which each test begins: one list, and four passes with 64 places and 200 calls each.
ghost use Rattle.std.specs.Prelude.{◌≡◌, [], ◌∷◌, IfOk};
ghost use Rattle.ft_model.specs.declared.script.Kind.TheVariants.{List};
ghost use Rattle.ft_bank.specs.NewPasses.{IsOpening, AreOpening};
ghost use Rattle.ft_bank.specs.Passes.{shape_of};
ghost use Rattle.ft_boxes_tests.specs.Counters.{HasOneList, IsCaller};

use ft_bank::{Bank, Pass, Shape};
use ft_bank_tests::{bank_of, small_shape};
use ft_model::Kind;
use ft_section::new_passes_are_ready;
use std::alloc::Global;
use std::test::Fail;

/// A bank, and its passes.
pub(crate) struct Ready {
    pub(crate) bank: Bank,
    pub(crate) first: Pass,
    pub(crate) second: Pass,
    pub(crate) third: Pass,
    pub(crate) fourth: Pass,
}

/// One list, for four passes with 64 places each.
fn small(alloc: Global) -> Result<Shape, Fail>
    ensures { IfOk result (λ s. (s.kinds.items ≡ List ∷ []) × (s.passes ≡ 4) × (s.heap ≡ 64)) }
{
    Ok(small_shape(alloc, vec![in alloc; Kind::List]?, 4, 200)?)
}

/// The four passes of a bank.
fn four(bank: &Bank, passes: Vec<Pass>) -> Result<(Pass, Pass, Pass, Pass), Fail>
    requires { AreOpening bank.now 0 passes.items }
    ensures { IfOk result (λ p. IsOpening bank.now 0 p.0 × IsOpening bank.now 1 p.1 × IsOpening bank.now 2 p.2
        × IsOpening bank.now 3 p.3) }
{
    let _ = bank;
    let mut each = passes.into_iter();
    let Some(first) = each.next() else {
        return Err(Fail::from("there is pass 0"));
    };
    let Some(second) = each.next() else {
        return Err(Fail::from("there is pass 1"));
    };
    let Some(third) = each.next() else {
        return Err(Fail::from("there is pass 2"));
    };
    let Some(fourth) = each.next() else {
        return Err(Fail::from("there is pass 3"));
    };
    Ok((first, second, third, fourth))
}

/// A new bank, whose passes are ready for their first calls.
pub(crate) fn ready_bank(alloc: Global) -> Result<Ready, Fail>
    ensures list { IfOk result (λ r. HasOneList r.bank) }
    ensures places { IfOk result (λ r. ((shape_of r.bank).passes ≡ 4) × ((shape_of r.bank).heap ≡ 64)) }
    ensures first { IfOk result (λ r. IsCaller r.bank r.first) }
    ensures second { IfOk result (λ r. IsCaller r.bank r.second) }
    ensures third { IfOk result (λ r. IsCaller r.bank r.third) }
    ensures fourth { IfOk result (λ r. IsCaller r.bank r.fourth) }
{
    let (bank, passes) = bank_of(alloc, small(alloc)?)?;
    let (first, second, third, fourth) = four(&bank, passes)?;
    new_passes_are_ready(&bank, &first);
    new_passes_are_ready(&bank, &second);
    new_passes_are_ready(&bank, &third);
    new_passes_are_ready(&bank, &fourth);
    Ok(Ready {
        bank,
        first,
        second,
        third,
        fourth,
    })
}
