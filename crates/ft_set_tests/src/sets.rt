//! Calls on two sets in the order of a table. What they reply is what Python's sets give, and elements come in the
//! order in which they were added; a call that wrote has the number of its write, and another one the number of
//! writes before it.

mod cases;

use cases::{CASES, LARGEST};
use ft_bank::{Bank, Pass};
use ft_dict_tests::{Attempt, Said, Wanted, in_new_bank};
use ft_model::Key;
use ft_section::Step;
use ft_set::{
    try_add, try_and, try_clear, try_discard, try_disjoint, try_eq, try_has, try_items, try_len,
    try_or, try_pop, try_remove, try_sub, try_subset, try_xor,
};
use std::alloc::{AllocError, Global};
use std::test::Fail;

/// A call on set 2, whose elements are integers.
#[derive(Clone, Copy)]
enum Call {
    Add(i64),
    Discard(i64),
    Remove(i64),
    Pop,
    Has(i64),
    Len,
    Items,
    Clear,
    /// Whether it has the same elements as set 3, is a subset of it, has none of it.
    Eq,
    Subset,
    Disjoint,
    /// Takes out what set 3 hasn't, or has; what it hasn't itself, or has.
    And,
    Sub,
    AndItself,
    SubItself,
    /// Takes in what set 3 has, and what it has itself.
    Or,
    OrItself,
    /// Takes out what both have, and takes in what only set 3 has; the same with itself.
    Xor,
    XorItself,
    /// The same of set 3.
    AddOther(i64),
    HasOther(i64),
}

impl Attempt for Call {
    fn attempt(self, bank: &Bank, pass: &mut Pass, alloc: Global) -> Step {
        match self {
            Call::Add(key) => try_add(bank, pass, 2, Key::Int(key)),
            Call::Discard(key) => try_discard(bank, pass, 2, Key::Int(key)),
            Call::Remove(key) => try_remove(bank, pass, 2, Key::Int(key)),
            Call::Pop => try_pop(bank, pass, 2),
            Call::Has(key) => try_has(bank, pass, 2, Key::Int(key)),
            Call::Len => try_len(bank, pass, 2),
            Call::Items => try_items(bank, pass, alloc, 2),
            Call::Clear => try_clear(bank, pass, 2),
            Call::Eq => try_eq(bank, pass, 2, 3),
            Call::Subset => try_subset(bank, pass, 2, 3),
            Call::Disjoint => try_disjoint(bank, pass, 2, 3),
            Call::And => try_and(bank, pass, 2, 3),
            Call::Sub => try_sub(bank, pass, 2, 3),
            Call::AndItself => try_and(bank, pass, 2, 2),
            Call::SubItself => try_sub(bank, pass, 2, 2),
            Call::Or => try_or(bank, pass, 2, 3),
            Call::OrItself => try_or(bank, pass, 2, 2),
            Call::Xor => try_xor(bank, pass, 2, 3),
            Call::XorItself => try_xor(bank, pass, 2, 2),
            Call::AddOther(key) => try_add(bank, pass, 3, Key::Int(key)),
            Call::HasOther(key) => try_has(bank, pass, 3, Key::Int(key)),
        }
    }
}

/// Puts rows that add that many elements from 0 on to set 2, the first as the write of number 0.
fn push_adds(rows: &mut Vec<(Call, Wanted)>, count: u32) -> Result<(), AllocError> {
    for key in 0..count {
        let row = (
            Call::Add(i64::from(key)),
            Wanted::Writes(Said::Done, u64::from(key)),
        );
        rows.push(row)?;
    }
    Ok(())
}

#[test]
fn sets_reply_as_in_python(rt: HostRuntime) -> Result<(), Fail> {
    for case in &CASES {
        let wrong = in_new_bank(rt.alloc(), case.least, case.greater, case.rows)?;
        assert_eq!(rt; wrong, None, "{}", case.name);
    }
    Ok(())
}

#[test]
fn a_set_has_at_most_39321_elements(rt: HostRuntime) -> Result<(), Fail> {
    let alloc = rt.alloc();
    let mut rows = Vec::new(alloc);
    push_adds(&mut rows, 39321)?;
    rows.extend_from_slice(&LARGEST)?;
    assert_eq!(rt; in_new_bank(alloc, 1, 1, rows.as_slice())?, None);
    Ok(())
}
