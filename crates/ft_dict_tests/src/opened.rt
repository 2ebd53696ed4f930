//! A small bank with a dict and a set, and its passes, for the tests.
ghost use Rattle.std.specs.Prelude.{◌≡◌, [], ◌∷◌, ◌<◌, true, IfOk, IfSome, map};
ghost use Rattle.ft_model.specs.declared.script.Kind.TheVariants.{Dict, Set};
ghost use Rattle.ft_trace.specs.Acts.{announces};
ghost use Rattle.ft_bank.specs.NewPasses.{IsOpening, AreOpening};
ghost use Rattle.ft_bank.specs.Passes.{shape_of, view};
ghost use Rattle.ft_dict_tests.specs.TwoDicts.{MayLook};
ghost use Rattle.ft_model.specs.Worlds.{start_as};

use ft_bank::{Bank, Pass, Shape};
use ft_model::Kind;
use std::alloc::{AllocError, Global};
use std::test::Fail;

/// Container 0 is a dict and container 1 a set, for three passes with ten calls each.
///
/// # Errors
///
/// An `AllocError` where memory runs out.
fn small(alloc: Global) -> Result<Shape, AllocError>
    ensures { IfOk result (λ s. (s.kinds.items ≡ Dict ∷ Set ∷ []) × (s.passes ≡ 3) × (s.calls ≡ 10)) }
{
    Ok(Shape {
        kinds: vec![in alloc; Kind::Dict, Kind::Set]?,
        texts: Vec::new(alloc),
        tables: vec![in alloc; 1u32; 14]?,
        heap: 64,
        passes: 3,
        calls: 10,
    })
}

/// The three passes of a bank, or `None` where it has fewer.
fn three(bank: &Bank, passes: Vec<Pass>) -> Option<(Pass, Pass, Pass)>
    requires { AreOpening bank.now 0 passes.items }
    ensures { IfSome result (λ p. IsOpening bank.now 0 p.0 × IsOpening bank.now 1 p.1 × IsOpening bank.now 2 p.2) }
{
    let _ = bank;
    let mut each = passes.into_iter();
    let Some(first) = each.next() else {
        return None;
    };
    let Some(second) = each.next() else {
        return None;
    };
    let Some(third) = each.next() else {
        return None;
    };
    Some((first, second, third))
}

/// A new bank with a dict, 0, and a set, 1, and its three passes, which may make ten calls each.
///
/// # Errors
///
/// A `Fail` where memory runs out.
pub fn open_three(alloc: Global) -> Result<(Bank, Pass, Pass, Pass), Fail>
    ensures shape { IfOk result (λ made. ((shape_of made.0).starts ≡ map start_as (Dict ∷ Set ∷ [])) × ((shape_of made.0).passes ≡ 3)
        × ((shape_of made.0).calls ≡ 10)) }
    ensures first { IfOk result (λ made. IsOpening made.0 0 made.1) }
    ensures second { IfOk result (λ made. IsOpening made.0 1 made.2) }
    ensures third { IfOk result (λ made. IsOpening made.0 2 made.3) }
{
    let shape = small(alloc)?;
    if !shape.fits() {
        return Err(Fail::from("a small shape fits"));
    }
    let Ok((bank, passes)) = Bank::new(alloc, shape) else {
        return Err(Fail::from("there is memory"));
    };
    let Some((first, second, third)) = three(&bank, passes) else {
        return Err(Fail::from("there are three passes"));
    };
    Ok((bank, first, second, third))
}

/// The pass of a bank that has one, or `None` where it has none.
pub(crate) fn only(bank: &Bank, passes: Vec<Pass>) -> Option<Pass>
    requires { AreOpening bank.now 0 passes.items }
    ensures { IfSome result (λ p. IsOpening bank.now 0 p) }
{
    let _ = bank;
    let mut each = passes.into_iter();
    each.next()
}

/// Has a pass announce that it is online; `false` where the write number is 0, which it never is.
pub fn go_online(bank: &Bank, pass: &mut Pass) -> bool
    requires reader { MayLook bank.now pass.old }
    ensures reader { MayLook bank.now pass.new }
    ensures online { result ≡ true → 0 < announces (view pass.new).log }
    ensures left { (view pass.new).left ≡ (view pass.old).left }
{
    let number = bank.write_number(pass);
    if number == 0 {
        return false;
    }
    bank.announce(pass, number);
    true
}
