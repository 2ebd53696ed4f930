//! The smallest bank, and one with as many passes, containers, places for boxes and tables of a class as there may
//! be; of the other classes it has one table each, so that it takes some megabytes.
ghost use Rattle.std.specs.Prelude.{◌≡◌, [], ◌∷◌, IfOk, replicate};
ghost use Rattle.ft_model.specs.declared.script.Kind.TheVariants as kind;
ghost use Rattle.ft_bank.specs.NewPasses.{IsOpening, AreOpening};

use crate::{bank_of, small_shape, write_once};
use ft_bank::{Bank, Pass, Shape, Took};
use ft_model::Kind;
use std::alloc::Global;
use std::test::Fail;

/// The first pass of a bank.
fn first_of(bank: &Bank, passes: Vec<Pass>) -> Result<Pass, Fail>
    requires { AreOpening bank.now 0 passes.items }
    ensures { IfOk result (λ p. IsOpening bank.now 0 p) }
{
    let _ = bank;
    let Some(first) = passes.into_iter().next() else {
        return Err(Fail::from("there is pass 0"));
    };
    Ok(first)
}

#[test]
fn the_smallest_bank_is_closed(rt: HostRuntime) -> Result<(), Fail> {
    let alloc = rt.alloc();
    let (bank, passes) = bank_of(alloc, small_shape(alloc, Vec::new(alloc), 1, 0)?)?;
    assert_eq!(rt; passes.len(), 1);
    let mut pass = first_of(&bank, passes)?;
    assert_eq!(rt; bank.stamp(&mut pass), 0);
    assert_eq!(rt; pass.left(), 0);
    let closed = bank.close(pass);
    closed.entries_are_whole();
    Ok(())
}

#[test]
fn no_bank_has_a_deque_yet(rt: HostRuntime) -> Result<(), Fail> {
    let alloc = rt.alloc();
    let lists = small_shape(alloc, vec![in alloc; Kind::List, Kind::List]?, 1, 0)?;
    assert_eq!(rt; lists.fits(), true);
    let deques = small_shape(
        alloc,
        vec![in alloc; Kind::List, Kind::Deque(Some(3))]?,
        1,
        0,
    )?;
    assert_eq!(rt; deques.fits(), false);
    Ok(())
}

/// As many lists, passes, places and tables of class 3 as there may be.
fn large(alloc: Global) -> Result<Shape, Fail>
    ensures sizes { IfOk result (λ s. (s.passes ≡ 64) × (s.calls ≡ 1)) }
    ensures kinds { IfOk result (λ s. s.kinds.items ≡ replicate 256 kind.List) }
{
    let mut tables = vec![in alloc; 1u32; 14]?;
    tables[0] = 1_024;
    Ok(Shape {
        kinds: vec![in alloc; Kind::List; 256]?,
        texts: Vec::new(alloc),
        tables,
        heap: 4_096,
        passes: 64,
        calls: 1,
    })
}

/// Each of these passes takes a table of the least class, the last pass first, and is let go with it. How many got the
/// table whose turn it was: the first got table 0.
fn take_each(bank: &Bank, mut passes: Vec<Pass>) -> u32
    requires { AreOpening bank.now 0 passes.items }
{
    let mut next = 0u32;
    while let Some(mut pass) = passes.pop() {
        let Took::Taken(table) = bank.take_table(&mut pass, 3) else {
            return next;
        };
        if table.number != next {
            return next;
        }
        next = next.saturating_add(1);
    }
    next
}

#[test]
fn each_of_64_passes_takes_a_table(rt: HostRuntime) -> Result<(), Fail> {
    let alloc = rt.alloc();
    let (bank, passes) = bank_of(alloc, large(alloc)?)?;
    assert_eq!(rt; take_each(&bank, passes), 64);
    Ok(())
}

#[test]
fn the_last_of_256_lists_is_written(rt: HostRuntime) -> Result<(), Fail> {
    let alloc = rt.alloc();
    let (bank, passes) = bank_of(alloc, large(alloc)?)?;
    let mut pass = first_of(&bank, passes)?;
    assert_eq!(rt; write_once(&bank, &mut pass, 255), Some(0));
    assert_eq!(rt; bank.seq(&mut pass, 255), 2);
    assert_eq!(rt; bank.seq(&mut pass, 254), 0);
    let Took::Taken(table) = bank.take_table(&mut pass, 16) else {
        return Err(Fail::from("there is one table of class 16"));
    };
    assert_eq!(rt; table.number, 0);
    assert_eq!(rt; pass.left(), 0);
    Ok(())
}
