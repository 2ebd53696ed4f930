//! A bank with one list, two passes and one table of each class, and the calls that tests make on it.
ghost use Rattle.std.specs.Prelude.{◌≡◌, [], ◌∷◌, ◌<◌, IfOk, OnOk};
ghost use Rattle.ft_model.specs.declared.script.Kind.TheVariants as kind;
ghost use Rattle.ft_trace.specs.Addresses.{container_count};
ghost use Rattle.ft_trace.specs.ContainerStates.{kind_in};
ghost use Rattle.ft_bank.specs.Passes.{shape_of, view};
ghost use Rattle.ft_section.specs.declared.answers.Objects.TheVariants.{One};
ghost use Rattle.ft_section.specs.Ready.{MayTry};

use ft_bank::{Bank, Pass, Shape};
use ft_bank_tests::small_shape;
use ft_list::try_append;
use ft_model::{Kind, Reply, Value};
use ft_section::Step;
use std::alloc::Global;
use std::test::Fail;

/// One list, one table of each class, two passes.
pub(crate) fn small(alloc: Global) -> Result<Shape, Fail>
    ensures { IfOk result (λ s. (s.kinds.items ≡ kind.List ∷ []) × (s.passes ≡ 2) × (s.calls ≡ 40)) }
{
    Ok(small_shape(alloc, vec![in alloc; Kind::List]?, 2, 40)?)
}

/// Has the pass a call left?
fn some_left(pass: &Pass) -> Result<(), Fail>
    ensures { OnOk result (0 < (view pass.now).left) }
{
    if pass.left() == 0 {
        return Err(Fail::from("forty calls are left at first"));
    }
    Ok(())
}

/// Appends an integer.
#[tactic(auto, using(crate::proofs::PassesLeft::tried_next))]
fn append(bank: &Bank, pass: &mut Pass, l: u32, value: i64) -> Result<(), Fail>
    requires may { MayTry bank.now pass.old (One l) }
    requires container { l < container_count (shape_of bank.now) }
    requires list { kind_in (shape_of bank.now).starts l ≡ kind.List }
    ensures may { MayTry bank.now pass.new (One l) }
    ensures next { (view pass.new).next ≡ (view pass.old).next }
{
    some_left(pass)?;
    match try_append(bank, pass, l, Value::Int(value)) {
        Step::Done(Reply::Done, _) => Ok(()),
        _ => Err(Fail::from("an append is done")),
    }
}

/// Appends the integers below that number, in order.
pub(crate) fn fill_list(bank: &Bank, pass: &mut Pass, l: u32, count: u32) -> Result<(), Fail>
    requires may { MayTry bank.now pass.old (One l) }
    requires container { l < container_count (shape_of bank.now) }
    requires list { kind_in (shape_of bank.now).starts l ≡ kind.List }
    ensures may { MayTry bank.now pass.new (One l) }
    ensures next { (view pass.new).next ≡ (view pass.old).next }
{
    for value in 0..count {
        append(bank, pass, l, i64::from(value))?;
    }
    Ok(())
}
