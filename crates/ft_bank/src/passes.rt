//! The making of a bank with all its passes, so that no pass is made later and each number is that of one
//! pass for good.
ghost use Rattle.std.specs.Prelude.{◌≡◌, ◌<◌, [], suc, length, IfOk, OnOk, ◌∷◌};
ghost use Rattle.ft_bank.specs.Shapes.{plan, IsShape};
ghost use Rattle.ft_bank.specs.NewPasses.{HasMade, IsOpening, AreOpening};

use crate::bank::{Bank, nothing_kept};
use crate::pass::Pass;
use crate::shape::{MakeFault, Shape};
use std::alloc::{AllocError, Global};

impl Bank {
    ghost use Rattle.ft_bank.specs.Passes.{shape_of, view, IsPassOf};
    ghost use Rattle.ft_bank.specs.PassSections.{stack_of, no_sections};

    /// A bank of this shape, and its passes in the order of their numbers, which begin with 0. Each may make
    /// as many calls as the shape says for one; pass 0 can take in the others and close the bank. No later
    /// call takes memory.
    pub fn new(alloc: Global, shape: Shape) -> Result<(Bank, Vec<Pass>), MakeFault>
        requires { IsShape shape }
        ensures shape { IfOk result (λ made. shape_of made.0 ≡ plan shape) }
        ensures count { IfOk result (λ made. length made.1.items ≡ shape.passes) }
        ensures passes { IfOk result (λ made. AreOpening made.0 0 made.1.items) }
    {
        let (bank, mut first) = Bank::with_first(alloc, shape)?;
        let others = bank.others(alloc, &mut first)?;
        let passes = put_first(first, others)?;
        Ok((bank, passes))
    }

    /// All passes but the first one, which makes them.
    fn others(&self, alloc: Global, first: &mut Pass) -> Result<Vec<Pass>, AllocError>
        requires pass { IsPassOf self.now first.old }
        requires made { HasMade (shape_of self.now) 0 (view first.old) }
        requires sections { stack_of first.old ≡ no_sections }
        ensures first { OnOk result (IsOpening self.now 0 first.new) }
        ensures count { IfOk result (λ passes. suc (length passes.items) ≡ (shape_of self.now).passes) }
        ensures passes { IfOk result (λ passes. AreOpening self.now 1 passes.items) }
    {
        let mut passes = Vec::new(alloc);
        for _ in 0..self.shape.passes - 1 {
            let (sections, retired) = nothing_kept(alloc)?;
            passes.push(self.split(first, sections, retired))?;
        }
        Ok(passes)
    }
}

/// The first pass before the others.
fn put_first(first: Pass, others: Vec<Pass>) -> Result<Vec<Pass>, AllocError>
    ensures { IfOk result (λ passes. passes.items ≡ first ∷ others.items) }
{
    let mut passes = others;
    passes.insert(0, first)?;
    Ok(passes)
}
