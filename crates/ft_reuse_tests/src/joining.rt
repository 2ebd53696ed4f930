//! A pass that is joined while another, online, may still hold on to a table that it retired.
ghost use Rattle.std.specs.Prelude.{◌≡◌, []};
ghost use Rattle.ft_trace.specs.Traces.{IsFree};
ghost use Rattle.ft_bank.specs.Passes.{view, IsPassOf};
ghost use Rattle.ft_bank.specs.PassSections.{stack_of, no_sections};
ghost use Rattle.ft_section.specs.declared.answers.Objects.TheVariants.{One};
ghost use Rattle.ft_section.specs.Ready.{MayTry};

use crate::banks::{fill_list, small};
use ft_bank::{Bank, Pass, Took};
use ft_bank_tests::bank_of_two;
use ft_boxes::merge_all;
use ft_qsbr::{collect, enter, leave, quiesce, take};
use ft_section::{drop_all, new_passes_are_ready};
use std::test::Fail;

/// The pass goes offline, free of sections and locks and with its boxes merged, so that another may take it in.
fn finish(bank: &Bank, pass: &mut Pass, l: u32)
    requires may { MayTry bank.now pass.old (One l) }
    ensures pass { IsPassOf bank.now pass.new }
    ensures free { IsFree (view pass.new) }
    ensures next { (view pass.new).next ≡ (view pass.old).next }
    ensures sections { stack_of pass.new ≡ no_sections }
{
    let _ = l;
    drop_all(bank, pass);
    merge_all(bank, pass);
    leave(bank, pass);
}

#[test]
fn a_join_hands_a_retired_table_over(rt: HostRuntime) -> Result<(), Fail> {
    let alloc = rt.alloc();
    let (bank, mut first, mut second) = bank_of_two(alloc, small(alloc)?)?;
    new_passes_are_ready(&bank, &second);
    // The first pass announces 1. The second one's ninth item takes a table of class 4, and that of class 3 is retired
    // with the goal 2.
    enter(&bank, &mut first);
    fill_list(&bank, &mut second, 0, 9)?;
    finish(&bank, &mut second, 0);
    bank.join(&mut first, second);
    assert_eq!(rt; collect(&bank, &mut first), 0);
    quiesce(&bank, &mut first);
    let Took::Taken(table) = take(&bank, &mut first, 3) else {
        return Err(Fail::from("the table of class 3 is free again"));
    };
    assert_eq!(rt; table.number, 0);
    Ok(())
}
