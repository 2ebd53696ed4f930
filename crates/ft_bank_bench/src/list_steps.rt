//! Rounds of calls on lists of a bank: each call takes its lock and lets it go.
ghost use Rattle.std.specs.Prelude.{◌≡◌, [], ◌∷◌, IfOk, IfSome};
ghost use Rattle.ft_model.specs.declared.script.Kind.TheVariants as kind;
ghost use Rattle.ft_bank.specs.NewPasses.{IsOpening, AreOpening};
ghost use Rattle.ft_list.specs.ListWrites.{MayCallList};

use ft_bank::{Bank, Pass, Shape};
use ft_list::{try_append, try_clear, try_set};
use ft_model::{Kind, Reply, Value};
use ft_section::{Step, new_passes_are_ready};
use std::alloc::{AllocError, Global};

/// A bank of three lists, and its three passes, each of which calls on one of the lists.
pub struct Lists {
    pub bank: Bank,
    pub first: Pass,
    pub second: Pass,
    pub third: Pass,
}

/// Three lists, four tables of each class, and three passes that may make this many calls each.
fn three_lists(alloc: Global, calls: u32) -> Result<Shape, AllocError>
    ensures { IfOk result (λ s. (s.kinds.items ≡ kind.List ∷ kind.List ∷ kind.List ∷ []) × (s.passes ≡ 3)) }
{
    Ok(Shape {
        kinds: vec![in alloc; Kind::List, Kind::List, Kind::List]?,
        texts: Vec::new(alloc),
        tables: vec![in alloc; 4u32; 14]?,
        heap: 64,
        passes: 3,
        calls,
    })
}

/// The three passes of a bank.
fn three_of(bank: &Bank, passes: Vec<Pass>) -> Option<(Pass, Pass, Pass)>
    requires { AreOpening bank.now 0 passes.items }
    ensures first { IfSome result (λ p. IsOpening bank.now 0 p.0) }
    ensures second { IfSome result (λ p. IsOpening bank.now 1 p.1) }
    ensures third { IfSome result (λ p. IsOpening bank.now 2 p.2) }
{
    let _ = bank;
    let mut each = passes.into_iter();
    let first = each.next()?;
    let second = each.next()?;
    let third = each.next()?;
    Some((first, second, third))
}

/// Appends an integer. Says whether that was done.
fn append(bank: &Bank, pass: &mut Pass, l: u32, integer: i64) -> bool
    requires { MayCallList bank.now pass.old l }
    ensures { MayCallList bank.now pass.new l }
{
    if pass.left() == 0 {
        return false;
    }
    matches!(
        try_append(bank, pass, l, Value::Int(integer)),
        Step::Done(Reply::Done, _)
    )
}

/// Clears a list. Says whether that was done.
fn clear(bank: &Bank, pass: &mut Pass, l: u32) -> bool
    requires { MayCallList bank.now pass.old l }
    ensures { MayCallList bank.now pass.new l }
{
    if pass.left() == 0 {
        return false;
    }
    matches!(try_clear(bank, pass, l), Step::Done(Reply::Done, _))
}

/// Sets the first item of a list to an integer. Says whether that was done.
fn set(bank: &Bank, pass: &mut Pass, l: u32, integer: i64) -> bool
    requires { MayCallList bank.now pass.old l }
    ensures { MayCallList bank.now pass.new l }
{
    if pass.left() == 0 {
        return false;
    }
    matches!(
        try_set(bank, pass, l, 0, Value::Int(integer)),
        Step::Done(Reply::Done, _)
    )
}

/// A bank of which lists 0 and 1 have an item, and list 2 none, whose passes may make this many calls more each;
/// nothing where memory ran out.
pub fn make_lists(alloc: Global, calls: u32) -> Result<Option<Lists>, AllocError>
    ensures first { IfOk result (λ made. IfSome made (λ r. MayCallList r.bank r.first 0)) }
    ensures second { IfOk result (λ made. IfSome made (λ r. MayCallList r.bank r.second 1)) }
    ensures third { IfOk result (λ made. IfSome made (λ r. MayCallList r.bank r.third 2)) }
{
    let shape = three_lists(alloc, calls.saturating_add(1))?;
    if !shape.fits() {
        return Ok(None);
    }
    let Ok((bank, passes)) = Bank::new(alloc, shape) else {
        return Ok(None);
    };
    let Some((mut first, mut second, third)) = three_of(&bank, passes) else {
        return Ok(None);
    };
    new_passes_are_ready(&bank, &first);
    new_passes_are_ready(&bank, &second);
    new_passes_are_ready(&bank, &third);
    if append(&bank, &mut first, 0, -1) && append(&bank, &mut second, 1, -1) {
        Ok(Some(Lists {
            bank,
            first,
            second,
            third,
        }))
    } else {
        Ok(None)
    }
}

/// The first item of a list is set, each time to another small integer. Answers how often that was done.
pub fn set_all(bank: &Bank, pass: &mut Pass, l: u32, rounds: u32) -> u32
    requires { MayCallList bank.now pass.old l }
    ensures { MayCallList bank.now pass.new l }
{
    let mut done = 0u32;
    for round in 0..rounds {
        if set(bank, pass, l, i64::from(round % 256)) {
            done = done.saturating_add(1);
        }
    }
    done
}

/// An empty list takes a table for an item, and is cleared, so that the table is retired. Answers how often that was
/// done.
pub fn retire_all(bank: &Bank, pass: &mut Pass, l: u32, rounds: u32) -> u32
    requires { MayCallList bank.now pass.old l }
    ensures { MayCallList bank.now pass.new l }
{
    let mut done = 0u32;
    for round in 0..rounds {
        if append(bank, pass, l, i64::from(round % 256)) && clear(bank, pass, l) {
            done = done.saturating_add(1);
        }
    }
    done
}
