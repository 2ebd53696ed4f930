//! A table that a list has grown out of, while another pass is online.
ghost use Rattle.std.specs.Prelude.{◌≡◌};

use crate::banks::{fill_list, small};
use ft_bank::Took;
use ft_bank_tests::bank_of_two;
use ft_qsbr::{collect, enter, quiesce, take};
use ft_section::new_passes_are_ready;
use std::test::Fail;

#[test]
fn a_table_waits_until_each_pass_that_is_online_has_announced(rt: HostRuntime) -> Result<(), Fail> {
    let alloc = rt.alloc();
    let (bank, mut first, mut second) = bank_of_two(alloc, small(alloc)?)?;
    new_passes_are_ready(&bank, &first);
    // The second pass announces 1. The ninth item takes a table of class 4, and that of class 3 is retired with the
    // goal 2.
    enter(&bank, &mut second);
    fill_list(&bank, &mut first, 0, 9)?;
    assert_eq!(rt; bank.write_number(&mut first), 2);
    assert_eq!(rt; collect(&bank, &mut first), 0);
    let Took::AllTaken = take(&bank, &mut second, 3) else {
        return Err(Fail::from("the table of class 3 is retired"));
    };
    quiesce(&bank, &mut second);
    assert_eq!(rt; bank.announced(&mut first, 1), 2);
    assert_eq!(rt; collect(&bank, &mut first), 1);
    let Took::Taken(table) = take(&bank, &mut first, 3) else {
        return Err(Fail::from("the table of class 3 is free again"));
    };
    assert_eq!(rt; table.number, 0);
    Ok(())
}
