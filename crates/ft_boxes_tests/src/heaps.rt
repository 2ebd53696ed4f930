//! A heap whose places are all taken, and a place that comes back once both passes have let its box go.
ghost use Rattle.std.specs.Prelude.{IfSome};
ghost use Rattle.ft_trace.specs.Boxes.{IsSettled};
ghost use Rattle.ft_bank.specs.Passes.{view, IsPassOf};
ghost use Rattle.ft_boxes.specs.References.{HoldsBox, box_of};
ghost use Rattle.ft_boxes_tests.specs.Counters.{HasOneList, IsCaller, IsCounter};

use crate::banks::{Ready, ready_bank};
use crate::counting::{find_box, go_online};
use crate::storing::{overwrite, store_boxes};
use ft_bank::{Bank, Pass};
use ft_boxes::{Held, Made, Raised, make, raise, release, value};
use ft_model::{Sym, Value};
use std::test::Fail;

/// Makes a box of a string and lets it go again, if the pass's heap has a place for it. Says whether it had.
fn can_make(bank: &Bank, pass: &mut Pass) -> bool
    requires { IsCaller bank.now pass.old }
    ensures { IsCaller bank.now pass.new }
{
    match make(bank, pass, Value::Text(Sym(7))) {
        Made::Up(held) => {
            release(bank, pass, held);
            true
        }
        Made::HeapFull => false,
    }
}

/// Raises the box that an item of the list has. Nothing where it has none, or the box wasn't raised.
fn raise_at(bank: &Bank, pass: &mut Pass, index: u32) -> Option<Held>
    requires list { HasOneList bank.now }
    requires counter { IsCounter bank.now pass.old }
    ensures pass { IsPassOf bank.now pass.new }
    ensures settled { IsSettled (view pass.new).log }
    ensures held { IfSome result (λ held. HoldsBox (box_of held) (view pass.new)) }
{
    let b = find_box(bank, pass, index)?;
    match raise(bank, pass, b) {
        Raised::Up(held) => Some(held),
        Raised::Dead | Raised::Moved(_, _) => None,
    }
}

#[test]
fn a_place_comes_back_once_both_passes_let_go(rt: HostRuntime) -> Result<(), Fail> {
    let Ready {
        bank,
        mut first,
        mut second,
        third: _,
        mut fourth,
    } = ready_bank(rt.alloc())?;
    if !store_boxes(&bank, &mut first, 64) {
        return Err(Fail::from("the first heap has 64 places"));
    }
    assert_eq!(rt; bank.read_free_places(&mut fourth, 0, 0), 0);
    assert!(rt; !can_make(&bank, &mut first));
    go_online(&bank, &mut second);
    let Some(held) = raise_at(&bank, &mut second, 63) else {
        return Err(Fail::from("item 63 has a box"));
    };
    // The first pass drops the list's reference, the last that it counted itself.
    if !overwrite(&bank, &mut first, 63) {
        release(&bank, &mut second, held);
        return Err(Fail::from("nobody else calls"));
    }
    assert_eq!(rt; bank.read_free_places(&mut fourth, 0, 0), 0);
    assert!(rt; !can_make(&bank, &mut first));
    assert_eq!(rt; value(&bank, &mut second, &held), Value::Int(1063));
    release(&bank, &mut second, held);
    assert_eq!(rt; bank.read_free_places(&mut fourth, 0, 0), 1 << 63);
    assert!(rt; can_make(&bank, &mut first));
    Ok(())
}
