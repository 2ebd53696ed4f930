//! Rounds of steps on a bank of one list, by its one pass.
ghost use Rattle.std.specs.Prelude.{◌≡◌, ◌≤◌, ◌<◌, [], ◌∷◌, IfOk, IfSome};
ghost use Rattle.ft_model.specs.declared.script.Kind.TheVariants as kind;
ghost use Rattle.ft_bank.specs.NewPasses.{AreOpening};
ghost use Rattle.ft_bank.specs.Passes.{shape_of, view};
ghost use Rattle.ft_bank_tests.specs.Working.{IsListIn, IsWorker};

use ft_bank::{Bank, Pass, Shape};
use ft_bank_tests::{go_round, small_shape, take_once, write_once};
use ft_model::Kind;
use std::alloc::{AllocError, Global};

/// A bank of one list, and its pass.
pub struct Ready {
    pub bank: Bank,
    pub pass: Pass,
}

/// One list, and one pass that may make this many calls.
fn one_list(alloc: Global, calls: u32) -> Result<Shape, AllocError>
    ensures { IfOk result (λ s. (s.kinds.items ≡ kind.List ∷ []) × (s.passes ≡ 1) × (s.calls ≡ calls)) }
{
    let shape = small_shape(alloc, vec![in alloc; Kind::List]?, 1, calls)?;
    Ok(shape)
}

/// The first pass of a bank.
fn first_of(bank: &Bank, passes: Vec<Pass>) -> Option<Pass>
    requires { AreOpening bank.now 0 passes.items }
    ensures worker { IfSome result (λ p. IsWorker bank.now p) }
    ensures left { IfSome result (λ p. (view p).left ≡ (shape_of bank.now).calls) }
{
    let _ = bank;
    passes.into_iter().next()
}

/// A bank whose pass may make this many calls; nothing where memory ran out.
pub fn make_ready(alloc: Global, calls: u32) -> Result<Option<Ready>, AllocError>
    ensures worker { IfOk result (λ made. IfSome made (λ r. IsWorker r.bank r.pass)) }
    ensures list { IfOk result (λ made. IfSome made (λ r. IsListIn (shape_of r.bank) 0)) }
    ensures left { IfOk result (λ made. IfSome made (λ r. (view r.pass).left ≡ calls)) }
{
    let shape = one_list(alloc, calls)?;
    if !shape.fits() {
        return Ok(None);
    }
    let Ok((bank, passes)) = Bank::new(alloc, shape) else {
        return Ok(None);
    };
    let Some(pass) = first_of(&bank, passes) else {
        return Ok(None);
    };
    Ok(Some(Ready { bank, pass }))
}

/// Loads of the list's version.
pub fn load_all(bank: &Bank, pass: &mut Pass, rounds: u32)
    requires worker { IsWorker bank.now pass.old }
    requires list { IsListIn (shape_of bank.now) 0 }
    ensures worker { IsWorker bank.now pass.new }
    ensures left { (view pass.new).left ≡ (view pass.old).left }
{
    for _ in 0..rounds {
        load_once(bank, pass);
    }
}

/// One load of it.
fn load_once(bank: &Bank, pass: &mut Pass)
    requires worker { IsWorker bank.now pass.old }
    requires list { IsListIn (shape_of bank.now) 0 }
    ensures worker { IsWorker bank.now pass.new }
    ensures left { (view pass.new).left ≡ (view pass.old).left }
{
    bank.seq(pass, 0);
}

/// The list's lock, taken and let go.
pub fn lock_all(bank: &Bank, pass: &mut Pass, rounds: u32)
    requires worker { IsWorker bank.now pass.old }
    requires list { IsListIn (shape_of bank.now) 0 }
    ensures worker { IsWorker bank.now pass.new }
    ensures left { (view pass.new).left ≡ (view pass.old).left }
{
    go_round(bank, pass, rounds);
}

/// Whole writes of the list.
pub fn write_all(bank: &Bank, pass: &mut Pass, rounds: u32)
    requires worker { IsWorker bank.now pass.old }
    requires list { IsListIn (shape_of bank.now) 0 }
    requires left { rounds ≤ (view pass.old).left }
    ensures worker { IsWorker bank.now pass.new }
{
    for _ in 0..rounds {
        write_once(bank, pass, 0);
    }
}

/// A table, taken and given back.
pub fn take_all(bank: &Bank, pass: &mut Pass, rounds: u32)
    requires worker { IsWorker bank.now pass.old }
    ensures worker { IsWorker bank.now pass.new }
{
    for _ in 0..rounds {
        take_once(bank, pass);
    }
}
