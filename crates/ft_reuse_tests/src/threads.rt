//! A class of 1,024 tables is taken whole by four threads while a fifth pass stays online, so that no table comes back.
ghost use Rattle.std.specs.Prelude.{◌≡◌, [], ◌∷◌, IfOk};
ghost use Rattle.ft_model.specs.declared.script.Kind.TheVariants as kind;
ghost use Rattle.ft_bank.specs.NewPasses.{IsOpening, AreOpening};
ghost use Rattle.ft_section.specs.Ready.{IsReady};

use crate::emptying::take_in_four;
use ft_bank::{Bank, Pass, Shape};
use ft_bank_tests::bank_of;
use ft_list::try_append;
use ft_model::{Kind, Raise, Reply, Value};
use ft_qsbr::{enter, quiesce};
use ft_section::{Step, new_passes_are_ready};
use std::alloc::Global;
use std::test::Fail;

/// Four lists, five passes, 1,024 tables of the least class and one of each other.
fn large(alloc: Global) -> Result<Shape, Fail>
    ensures sizes { IfOk result (λ s. (s.passes ≡ 5) × (s.calls ≡ 600)) }
    ensures kinds { IfOk result (λ s. s.kinds.items ≡ kind.List ∷ kind.List ∷ kind.List ∷ kind.List ∷ []) }
{
    let mut tables = vec![in alloc; 1u32; 14]?;
    tables[0] = 1_024;
    Ok(Shape {
        kinds: vec![in alloc; Kind::List, Kind::List, Kind::List, Kind::List]?,
        texts: Vec::new(alloc),
        tables,
        heap: 64,
        passes: 5,
        calls: 600,
    })
}

/// The five passes of a bank: two pairs, and the last.
fn five(bank: &Bank, passes: Vec<Pass>) -> Result<((Pass, Pass), (Pass, Pass), Pass), Fail>
    requires { AreOpening bank.now 0 passes.items }
    ensures ones { IfOk result (λ p. IsOpening bank.now 0 p.0.0 × IsOpening bank.now 1 p.0.1) }
    ensures others { IfOk result (λ p. IsOpening bank.now 2 p.1.0 × IsOpening bank.now 3 p.1.1) }
    ensures last { IfOk result (λ p. IsOpening bank.now 4 p.2) }
{
    let _ = bank;
    let mut each = passes.into_iter();
    let (Some(first), Some(second)) = (each.next(), each.next()) else {
        return Err(Fail::from("there are passes 0 and 1"));
    };
    let (Some(third), Some(fourth)) = (each.next(), each.next()) else {
        return Err(Fail::from("there are passes 2 and 3"));
    };
    let Some(fifth) = each.next() else {
        return Err(Fail::from("there is pass 4"));
    };
    Ok(((first, second), (third, fourth), fifth))
}

/// Each of these passes is ready for a call.
fn all_ready(bank: &Bank, ones: &(Pass, Pass), others: &(Pass, Pass))
    requires ones { IsOpening bank.now 0 ones.now.0 × IsOpening bank.now 1 ones.now.1 }
    requires others { IsOpening bank.now 2 others.now.0 × IsOpening bank.now 3 others.now.1 }
    ensures ones { IsReady bank.now ones.now.0 × IsReady bank.now ones.now.1 }
    ensures others { IsReady bank.now others.now.0 × IsReady bank.now others.now.1 }
{
    new_passes_are_ready(bank, &ones.0);
    new_passes_are_ready(bank, &ones.1);
    new_passes_are_ready(bank, &others.0);
    new_passes_are_ready(bank, &others.1);
}

#[test]
fn four_threads_take_a_class_of_1024_tables_whole(rt: HostRuntime) -> Result<(), Fail> {
    let alloc = rt.alloc();
    let (bank, passes) = bank_of(alloc, large(alloc)?)?;
    let (ones, others, mut fifth) = five(&bank, passes)?;
    all_ready(&bank, &ones, &others);
    enter(&bank, &mut fifth);
    let (mut first, taken) = take_in_four(&rt, &bank, ones, others);
    assert_eq!(rt; taken, 1_024);
    if first.left() == 0 {
        return Err(Fail::from("600 calls are left at first"));
    }
    let Step::Done(Reply::Raised(Raise::Memory(3)), _) = try_append(
        &bank,
        &mut first,
        0,
        Value::Nothing,
    ) else {
        return Err(Fail::from("all tables are retired"));
    };
    quiesce(&bank, &mut fifth);
    if first.left() == 0 {
        return Err(Fail::from("600 calls are left at first"));
    }
    let Step::Done(Reply::Done, _) = try_append(&bank, &mut first, 0, Value::Nothing) else {
        return Err(Fail::from("tables are free again"));
    };
    Ok(())
}
