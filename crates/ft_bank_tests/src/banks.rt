//! New banks, for whatever test begins with one: the shape of a small one, a bank of a shape, and its first two passes.
ghost use Rattle.std.specs.Prelude.{◌≡◌, IfOk};
ghost use Rattle.ft_bank.specs.NewPasses.{IsOpening, AreOpening};
ghost use Rattle.ft_bank.specs.Passes.{shape_of};
ghost use Rattle.ft_bank.specs.Shapes.{plan};

use ft_bank::{Bank, Pass, Shape};
use ft_model::Kind;
use std::alloc::{AllocError, Global};
use std::test::Fail;

/// Containers of these kinds, no string, one table of each class, and as few places for boxes as there may be, for this
/// many passes with this many calls each.
///
/// # Errors
///
/// An `AllocError` where memory runs out.
pub fn small_shape(
    alloc: Global,
    kinds: Vec<Kind>,
    passes: u32,
    calls: u32,
) -> Result<Shape, AllocError>
    ensures sizes { IfOk result (λ s. (s.passes ≡ passes) × (s.calls ≡ calls)) }
    ensures kinds { IfOk result (λ s. s.kinds.items ≡ kinds.items) }
    ensures heap { IfOk result (λ s. s.heap ≡ 64) }
{
    Ok(Shape {
        kinds,
        texts: Vec::new(alloc),
        tables: vec![in alloc; 1u32; 14]?,
        heap: 64,
        passes,
        calls,
    })
}

/// A bank of this shape, and its passes in the order of their numbers.
///
/// # Errors
///
/// A `Fail` where no bank may have the shape or memory runs out.
pub fn bank_of(alloc: Global, shape: Shape) -> Result<(Bank, Vec<Pass>), Fail>
    ensures shape { IfOk result (λ made. shape_of made.0 ≡ plan shape) }
    ensures passes { IfOk result (λ made. AreOpening made.0 0 made.1.items) }
{
    if !shape.fits() {
        return Err(Fail::from("a bank may have the shape"));
    }
    let Ok((bank, passes)) = Bank::new(alloc, shape) else {
        return Err(Fail::from("there is memory"));
    };
    Ok((bank, passes))
}

/// The first two passes of a bank.
///
/// # Errors
///
/// A `Fail` where there are fewer.
pub fn pair_of(bank: &Bank, passes: Vec<Pass>) -> Result<(Pass, Pass), Fail>
    requires { AreOpening bank.now 0 passes.items }
    ensures { IfOk result (λ p. IsOpening bank.now 0 p.0 × IsOpening bank.now 1 p.1) }
{
    let _ = bank;
    let mut each = passes.into_iter();
    let Some(first) = each.next() else {
        return Err(Fail::from("there is pass 0"));
    };
    let Some(second) = each.next() else {
        return Err(Fail::from("there is pass 1"));
    };
    Ok((first, second))
}

/// A bank of this shape, and its first two passes.
///
/// # Errors
///
/// A `Fail` where no bank may have the shape, memory runs out or there are fewer passes.
pub fn bank_of_two(alloc: Global, shape: Shape) -> Result<(Bank, Pass, Pass), Fail>
    ensures shape { IfOk result (λ made. shape_of made.0 ≡ plan shape) }
    ensures first { IfOk result (λ made. IsOpening made.0 0 made.1) }
    ensures second { IfOk result (λ made. IsOpening made.0 1 made.2) }
{
    let (bank, passes) = bank_of(alloc, shape)?;
    let (first, second) = pair_of(&bank, passes)?;
    Ok((bank, first, second))
}
