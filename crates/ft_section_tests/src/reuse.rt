//! Announcements, collections and takings of two passes, worked by hand. Write number and announced numbers
//! begin with 1 and 0.
use crate::moves::small;
use ft_bank::Took;
use ft_bank_tests::bank_of_two;
use ft_qsbr::{collect, enter, leave, quiesce, take};
use std::test::Fail;

#[test]
fn the_last_table_of_a_class_goes_round(rt: HostRuntime) -> Result<(), Fail> {
    let alloc = rt.alloc();
    let (bank, mut first, mut second) = bank_of_two(alloc, small(alloc)?)?;
    enter(&bank, &mut first);
    enter(&bank, &mut second);
    let Took::Taken(table) = take(&bank, &mut first, 3) else {
        return Err(Fail::from("a table is free"));
    };
    assert_eq!(rt; table.number, 0);
    let Took::AllTaken = take(&bank, &mut second, 3) else {
        return Err(Fail::from("no table is free"));
    };
    bank.give_table(&mut first, table);
    let Took::Taken(again) = take(&bank, &mut second, 3) else {
        return Err(Fail::from("the table is free again"));
    };
    assert_eq!(rt; again.number, 0);
    Ok(())
}

#[test]
fn passes_announce_the_write_number(rt: HostRuntime) -> Result<(), Fail> {
    let alloc = rt.alloc();
    let (bank, mut first, mut second) = bank_of_two(alloc, small(alloc)?)?;
    if bank.passes() != 2 {
        return Err(Fail::from("there are two passes"));
    }
    assert_eq!(rt; bank.write_number(&mut first), 1);
    enter(&bank, &mut second);
    assert_eq!(rt; bank.announced(&mut first, 0), 0);
    assert_eq!(rt; bank.announced(&mut first, 1), 1);
    assert_eq!(rt; collect(&bank, &mut first), 0);
    quiesce(&bank, &mut second);
    assert_eq!(rt; bank.announced(&mut first, 1), 1);
    leave(&bank, &mut second);
    assert_eq!(rt; bank.announced(&mut first, 1), 0);
    Ok(())
}
