//! Rounds of calls on boxes: by the pass that made them, and by another one.
ghost use Rattle.std.specs.Prelude.{◌≡◌, [], ◌∷◌, IfOk, IfSome};
ghost use Rattle.ft_model.specs.declared.script.Kind.TheVariants.{List};
ghost use Rattle.ft_bank.specs.BoxSteps.{box_id, IsBoxIn};
ghost use Rattle.ft_bank.specs.NewPasses.{IsOpening, AreOpening};
ghost use Rattle.ft_bank.specs.Passes.{shape_of, view};
ghost use Rattle.ft_boxes_tests.specs.Counters.{HasOneList, IsCounter};
ghost use Rattle.ft_trace.specs.SeenBoxes.{SawBox};
ghost use Rattle.ft_bank_bench.specs.Counting.{MayCount};

use ft_bank::{Bank, Pass, Shape};
use ft_bank_tests::small_shape;
use ft_boxes::{Made, Raised, make, raise, release};
use ft_boxes_tests::{find_box, go_online, store_boxes};
use ft_layout::Ref;
use ft_model::{Kind, Value};
use ft_section::new_passes_are_ready;
use std::alloc::{AllocError, Global};

/// A bank of two passes, of which one made a box that item 0 of the list has.
pub struct Boxes {
    pub bank: Bank,
    pub maker: Pass,
    pub other: Pass,
}

/// A list, and two passes with 64 places each.
fn two_heaps(alloc: Global) -> Result<Shape, AllocError>
    ensures { IfOk result (λ s. (s.kinds.items ≡ List ∷ []) × (s.passes ≡ 2) × (s.heap ≡ 64)) }
{
    small_shape(alloc, vec![in alloc; Kind::List]?, 2, 2)
}

/// The two passes of a bank.
fn two_of(bank: &Bank, passes: Vec<Pass>) -> Option<(Pass, Pass)>
    requires { AreOpening bank.now 0 passes.items }
    ensures first { IfSome result (λ p. IsOpening bank.now 0 p.0) }
    ensures second { IfSome result (λ p. IsOpening bank.now 1 p.1) }
{
    let _ = bank;
    let mut each = passes.into_iter();
    let first = each.next()?;
    let second = each.next()?;
    Some((first, second))
}

/// A bank with a box; nothing where memory ran out.
pub fn make_boxes(alloc: Global) -> Result<Option<Boxes>, AllocError>
    ensures list { IfOk result (λ made. IfSome made (λ r. HasOneList r.bank)) }
    ensures maker { IfOk result (λ made. IfSome made (λ r. IsCounter r.bank r.maker)) }
    ensures other { IfOk result (λ made. IfSome made (λ r. IsCounter r.bank r.other)) }
{
    let shape = two_heaps(alloc)?;
    if !shape.fits() {
        return Ok(None);
    }
    let Ok((bank, passes)) = Bank::new(alloc, shape) else {
        return Ok(None);
    };
    let Some((mut maker, mut other)) = two_of(&bank, passes) else {
        return Ok(None);
    };
    new_passes_are_ready(&bank, &maker);
    new_passes_are_ready(&bank, &other);
    if !store_boxes(&bank, &mut maker, 1) {
        return Ok(None);
    }
    go_online(&bank, &mut maker);
    go_online(&bank, &mut other);
    Ok(Some(Boxes { bank, maker, other }))
}

/// The names of the list's box that each of the passes reads; nothing where one reads none.
pub fn see_box(bank: &Bank, maker: &mut Pass, other: &mut Pass) -> Option<(Ref, Ref)>
    requires list { HasOneList bank.now }
    requires passes { IsCounter bank.now maker.old × IsCounter bank.now other.old }
    ensures maker { MayCount bank.now maker.new }
    ensures other { MayCount bank.now other.new }
    ensures names { IfSome result (λ n. IsBoxIn (shape_of bank.now) n.0 × IsBoxIn (shape_of bank.now) n.1) }
    ensures own { IfSome result (λ n. SawBox (shape_of bank.now) (box_id n.0) (view maker.new).log) }
    ensures seen { IfSome result (λ n. SawBox (shape_of bank.now) (box_id n.1) (view other.new).log) }
{
    let own = find_box(bank, maker, 0);
    let seen = find_box(bank, other, 0);
    Some((own?, seen?))
}

/// Makes a box and drops it. Says whether there was a place.
fn make_once(bank: &Bank, pass: &mut Pass) -> bool
    requires { MayCount bank.now pass.old }
    ensures { MayCount bank.now pass.new }
{
    match make(bank, pass, Value::Int(2_000)) {
        Made::Up(held) => {
            release(bank, pass, held);
            true
        }
        Made::HeapFull => false,
    }
}

/// Boxes, each made and dropped at once. How often that was done.
pub fn make_all(bank: &Bank, pass: &mut Pass, rounds: u32) -> u32
    requires { MayCount bank.now pass.old }
    ensures { MayCount bank.now pass.new }
{
    let mut done = 0u32;
    for _ in 0..rounds {
        if make_once(bank, pass) {
            done = done.saturating_add(1);
        }
    }
    done
}

/// Raises a box, whose name the pass has read in the list, and drops it. Says whether it was raised.
fn raise_once(bank: &Bank, pass: &mut Pass, b: Ref) -> bool
    requires counts { MayCount bank.now pass.old }
    requires name { IsBoxIn (shape_of bank.now) b }
    requires saw { SawBox (shape_of bank.now) (box_id b) (view pass.old).log }
    ensures counts { MayCount bank.now pass.new }
    ensures saw { SawBox (shape_of bank.now) (box_id b) (view pass.new).log }
{
    match raise(bank, pass, b) {
        Raised::Up(held) => {
            release(bank, pass, held);
            true
        }
        Raised::Dead | Raised::Moved(_, _) => false,
    }
}

/// A box, raised and dropped. How often that was done.
pub fn raise_all(bank: &Bank, pass: &mut Pass, b: Ref, rounds: u32) -> u32
    requires counts { MayCount bank.now pass.old }
    requires name { IsBoxIn (shape_of bank.now) b }
    requires saw { SawBox (shape_of bank.now) (box_id b) (view pass.old).log }
    ensures { MayCount bank.now pass.new }
{
    let mut done = 0u32;
    for _ in 0..rounds {
        if raise_once(bank, pass, b) {
            done = done.saturating_add(1);
        }
    }
    done
}
