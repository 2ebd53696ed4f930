//! Takings and givings of tables, worked by hand: which table comes, and that the last one goes round.
use crate::bank_of_two;
use crate::steps::small;
use ft_bank::Took;
use std::test::Fail;

#[test]
fn the_last_table_of_a_class_goes_round(rt: HostRuntime) -> Result<(), Fail> {
    let alloc = rt.alloc();
    let (bank, mut first, mut second) = bank_of_two(alloc, small(alloc)?)?;
    let Took::Taken(table) = bank.take_table(&mut first, 3) else {
        return Err(Fail::from("a table is free"));
    };
    assert_eq!(rt; table.class, 3);
    assert_eq!(rt; table.number, 0);
    let Took::AllTaken = bank.take_table(&mut second, 3) else {
        return Err(Fail::from("no table is free"));
    };
    bank.give_table(&mut first, table);
    let Took::Taken(again) = bank.take_table(&mut second, 3) else {
        return Err(Fail::from("the table is free again"));
    };
    assert_eq!(rt; again.number, 0);
    let Took::Taken(other) = bank.take_table(&mut first, 16) else {
        return Err(Fail::from("a table of another class is free"));
    };
    assert_eq!(rt; other.class, 16);
    Ok(())
}
