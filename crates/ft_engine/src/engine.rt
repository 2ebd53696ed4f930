//! The engine: a bank, and the callers that are made with it.
ghost use Rattle.std.specs.Prelude.{◌≡◌, length, map};
ghost use Rattle.ft_bank.specs.Passes.{shape_of};
ghost use Rattle.ft_model.specs.Worlds.{start_as};

use crate::caller::{Caller, Flight};
use ft_bank::{Bank, MakeFault, Pass, Shape};
use ft_model::{Cursor, Kind};
use std::alloc::{AllocError, Global};

/// A bank on which callers make their calls.
#[derive(Drop)]
pub struct Engine {
    pub(crate) bank: Bank,
    pub(crate) kinds: Vec<Kind>,
    pub(crate) texts: u64,
    ghost starts_are: { (shape_of bank).starts ≡ map start_as kinds.items },
    ghost texts_are: { length (shape_of bank).texts ≡ texts },
}

impl Engine {
    ghost use Rattle.std.specs.Prelude.{IfOk, ℕ, None};
    ghost use Rattle.ft_bank.specs.NewPasses.{AreOpening, IsOpening};
    ghost use Rattle.ft_bank.specs.Shapes.{IsShape, plan};
    ghost use Rattle.ft_engine.specs.Callers.{AreFreshCallers, IsFreshCaller, bank_of};

    /// A bank of this shape, and a caller for each of its passes, in the order of their numbers, with room for
    /// that many cursors. Each may make as many calls as the shape says. Caller 0 can take in the others.
    pub fn new(
        alloc: Global,
        shape: Shape,
        cursors: u32,
    ) -> Result<(Engine, Vec<Caller>), MakeFault>
        requires { IsShape shape }
        ensures shape { IfOk result (λ made. shape_of (bank_of made.0) ≡ plan shape) }
        ensures count { IfOk result (λ made. length made.1.items ≡ shape.passes) }
        ensures callers { IfOk result (λ made. AreFreshCallers made.0 cursors 0 made.1.items) }
    {
        let calls = shape.calls;
        let kinds = shape.kinds.clone()?;
        let texts = shape.texts.len() as u64;
        let (bank, passes) = Bank::new(alloc, shape)?;
        let engine = Engine { bank, kinds, texts };
        let callers = engine.callers(alloc, passes, calls, cursors)?;
        Ok((engine, callers))
    }

    /// A caller for each pass.
    fn callers(
        &self,
        alloc: Global,
        passes: Vec<Pass>,
        calls: u32,
        cursors: u32,
    ) -> Result<Vec<Caller>, AllocError>
        requires passes { AreOpening self.now.bank 0 passes.items }
        requires calls { calls ≡ (shape_of self.now.bank).calls }
        ensures count { IfOk result (λ callers. length callers.items ≡ length passes.items) }
        ensures callers { IfOk result (λ callers. AreFreshCallers self.now cursors 0 callers.items) }
    {
        let mut callers = Vec::new(alloc);
        for pass in passes {
            callers.push(self.caller(alloc, pass, calls, cursors)?)?;
        }
        Ok(callers)
    }

    /// The caller that has this pass.
    fn caller(
        &self,
        alloc: Global,
        pass: Pass,
        calls: u32,
        cursors: u32,
    ) -> Result<Caller, AllocError>
        requires pass { (i : ℕ) × IsOpening self.now.bank i pass }
        requires calls { calls ≡ (shape_of self.now.bank).calls }
        ensures { IfOk result (λ caller. (i : ℕ) → IsOpening self.now.bank i pass → IsFreshCaller self.now cursors i caller) }
    {
        let mut room = Vec::new(alloc);
        for _ in 0..cursors {
            room.push(None)?;
        }
        Ok(Caller {
            pass,
            cursors: room,
            calls,
            made: 0,
            flight: Flight::Idle,
        })
    }
}
