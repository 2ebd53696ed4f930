//! Banks that are written: by two passes that meet, and by threads whose passes are joined and closed. The numbers
//! of the writes are those from 0 on, each once, whatever the schedule is.
ghost use Rattle.std.specs.Prelude.{◌≡◌, [], ◌∷◌, IfOk, length};
ghost use Rattle.ft_model.specs.declared.script.Kind.TheVariants as kind;
ghost use Rattle.ft_bank.specs.NewPasses.{IsOpening, AreOpening};

use crate::steps::small;
use crate::{bank_of, bank_of_two, close_counted, work_in_four, work_in_two, write_once};
use ft_bank::{Bank, Pass, Shape, Took};
use ft_model::Kind;
use std::alloc::Global;
use std::test::Fail;

/// The sum of the numbers below this one.
fn sum_below(count: u64) -> u64 {
    if count % 2 == 0 {
        (count / 2).wrapping_mul(count.wrapping_sub(1))
    } else {
        count.wrapping_mul(count / 2)
    }
}

#[test]
fn a_note_tells_of_a_write(rt: HostRuntime) -> Result<(), Fail> {
    let alloc = rt.alloc();
    let (bank, mut first, mut second) = bank_of_two(alloc, small(alloc)?)?;
    let Some(number) = write_once(&bank, &mut first, 0) else {
        return Err(Fail::from("the list is free and has nothing"));
    };
    assert_eq!(rt; number, 0);
    assert_eq!(rt; first.left(), 9);
    let note = bank.note(&mut first);
    bank.learn(&mut second, note);
    assert_eq!(rt; bank.stamp(&mut second), 1);
    assert_eq!(rt; bank.seq(&mut second, 0), 2);
    let Some(next) = write_once(&bank, &mut second, 0) else {
        return Err(Fail::from("the list is free and has nothing"));
    };
    assert_eq!(rt; next, 1);
    bank.join(&mut first, second);
    assert_eq!(rt; bank.stamp(&mut first), 2);
    assert_eq!(rt; first.left(), 18);
    let closed = bank.close(first);
    closed.entries_are_whole();
    Ok(())
}

/// One list, three tables of each class but the least.
fn one_list(alloc: Global, passes: u32, least: u32) -> Result<Shape, Fail>
    ensures sizes { IfOk result (λ s. (length s.kinds.items ≡ 1) × (s.passes ≡ passes) × (s.calls ≡ 2000)) }
    ensures kinds { IfOk result (λ s. s.kinds.items ≡ kind.List ∷ []) }
{
    let mut tables = vec![in alloc; 3u32; 14]?;
    tables[0] = least;
    Ok(Shape {
        kinds: vec![in alloc; Kind::List]?,
        texts: Vec::new(alloc),
        tables,
        heap: 64,
        passes,
        calls: 2_000,
    })
}

#[test]
fn two_threads_write_and_take_tables(rt: HostRuntime) -> Result<(), Fail> {
    let alloc = rt.alloc();
    let (bank, first, second) = bank_of_two(alloc, one_list(alloc, 2, 3)?)?;
    let (mut pass, tally) = work_in_two(&rt, &bank, first, second, 0, 2_000);
    // There are three tables of the class, so no taking finds none.
    assert_eq!(rt; tally.writes, bank.stamp(&mut pass));
    assert_eq!(rt; tally.numbers, sum_below(tally.writes));
    assert_eq!(rt; pass.left(), 4_000 - tally.writes);
    assert!(rt; tally.writes > 0 && tally.tables > 0);
    // The entries of the closed bank are as many as the writes that the threads counted.
    close_counted(bank, pass, tally.writes);
    Ok(())
}

/// The four passes of a bank.
fn four(bank: &Bank, passes: Vec<Pass>) -> Result<(Pass, Pass, Pass, Pass), Fail>
    requires { AreOpening bank.now 0 passes.items }
    ensures { IfOk result (λ p. IsOpening bank.now 0 p.0 × IsOpening bank.now 1 p.1 × IsOpening bank.now 2 p.2
        × IsOpening bank.now 3 p.3) }
{
    let _ = bank;
    let mut each = passes.into_iter();
    let Some(first) = each.next() else {
        return Err(Fail::from("there is pass 0"));
    };
    let Some(second) = each.next() else {
        return Err(Fail::from("there is pass 1"));
    };
    let Some(third) = each.next() else {
        return Err(Fail::from("there is pass 2"));
    };
    let Some(fourth) = each.next() else {
        return Err(Fail::from("there is pass 3"));
    };
    Ok((first, second, third, fourth))
}

#[test]
fn four_threads_write_and_take_tables(rt: HostRuntime) -> Result<(), Fail> {
    let alloc = rt.alloc();
    let (bank, passes) = bank_of(alloc, one_list(alloc, 4, 3)?)?;
    let (first, second, third, fourth) = four(&bank, passes)?;
    let (mut pass, tally) = work_in_four(&rt, &bank, (first, second), (third, fourth), 0, 2_000);
    assert_eq!(rt; tally.writes, bank.stamp(&mut pass));
    assert_eq!(rt; tally.numbers, sum_below(tally.writes));
    assert_eq!(rt; pass.left(), 8_000 - tally.writes);
    assert!(rt; tally.writes > 0 && tally.tables > 0);
    close_counted(bank, pass, tally.writes);
    Ok(())
}

#[test]
fn four_threads_go_round_a_class_of_1024_tables(rt: HostRuntime) -> Result<(), Fail> {
    let alloc = rt.alloc();
    let (bank, passes) = bank_of(alloc, one_list(alloc, 4, 1_024)?)?;
    let (first, second, third, fourth) = four(&bank, passes)?;
    let (mut pass, tally) = work_in_four(&rt, &bank, (first, second), (third, fourth), 0, 256);
    assert!(rt; 0 < tally.tables && tally.tables <= 1_024);
    let Took::Taken(table) = bank.take_table(&mut pass, 3) else {
        return Err(Fail::from("all tables were given back"));
    };
    assert_eq!(rt; table.number, 0);
    Ok(())
}

#[test]
fn a_pass_that_is_let_go_keeps_its_lock(rt: HostRuntime) -> Result<(), Fail> {
    let alloc = rt.alloc();
    let (bank, mut first, mut second) = bank_of_two(alloc, small(alloc)?)?;
    let Ok(()) = bank.try_lock(&mut first, 0) else {
        return Err(Fail::from("the lock is free"));
    };
    bank.start_write(&mut first, 0);
    drop(first);
    assert_eq!(rt; bank.try_lock(&mut second, 0), Err(0));
    assert_eq!(rt; bank.seq(&mut second, 0), 1);
    assert_eq!(rt; bank.try_lock(&mut second, 1), Ok(()));
    Ok(())
}
