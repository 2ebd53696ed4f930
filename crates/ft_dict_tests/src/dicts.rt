//! Calls on two dicts in the order of a table. What they reply is what Python's dicts give, call by call; a call that
//! wrote has the number of its write, and another one the number of writes before it.

mod cases;

use crate::{Attempt, Said, Wanted, in_new_bank};
use cases::{CASES, CROWDED, GROWN, LARGEST, LARGEST_ALONE, LARGEST_MOVED};
use ft_bank::{Bank, Pass};
use ft_dict::{
    try_clear, try_copyto, try_del, try_eq, try_get, try_getd, try_has, try_items, try_len,
    try_pop, try_popd, try_popitem, try_set, try_setdefault, try_update,
};
use ft_model::{Key, Value};
use ft_section::Step;
use std::alloc::{AllocError, Global};
use std::test::Fail;

/// A call on dict 0, whose keys and values are integers.
#[derive(Clone, Copy)]
enum Call {
    Set(i64, i64),
    Default(i64, i64),
    Get(i64),
    GetOr(i64, i64),
    Has(i64),
    Del(i64),
    Pop(i64),
    PopOr(i64, i64),
    PopItem,
    Len,
    Items,
    Clear,
    /// Whether it has the same pairs as dict 1.
    Eq,
    /// The same of dict 1.
    SetOther(i64, i64),
    DefaultOther(i64, i64),
    GetOther(i64),
    ItemsOther,
    /// Updates it with dict 1, and with itself.
    Update,
    UpdateSelf,
    /// `copyto` from dict 0 to dict 1, back, and to itself.
    Copy,
    CopyBack,
    CopySelf,
}

impl Attempt for Call {
    fn attempt(self, bank: &Bank, pass: &mut Pass, alloc: Global) -> Step {
        match self {
            Call::Set(key, value) => try_set(bank, pass, 0, Key::Int(key), Value::Int(value)),
            Call::Default(key, value) => {
                try_setdefault(bank, pass, 0, Key::Int(key), Value::Int(value))
            }
            Call::Get(key) => try_get(bank, pass, 0, Key::Int(key)),
            Call::GetOr(key, value) => try_getd(bank, pass, 0, Key::Int(key), Value::Int(value)),
            Call::Has(key) => try_has(bank, pass, 0, Key::Int(key)),
            Call::Del(key) => try_del(bank, pass, 0, Key::Int(key)),
            Call::Pop(key) => try_pop(bank, pass, 0, Key::Int(key)),
            Call::PopOr(key, value) => try_popd(bank, pass, 0, Key::Int(key), Value::Int(value)),
            Call::PopItem => try_popitem(bank, pass, 0),
            Call::Len => try_len(bank, pass, 0),
            Call::Items => try_items(bank, pass, alloc, 0),
            Call::Clear => try_clear(bank, pass, 0),
            Call::Eq => try_eq(bank, pass, 0, 1),
            Call::SetOther(key, value) => try_set(bank, pass, 1, Key::Int(key), Value::Int(value)),
            Call::DefaultOther(key, value) => {
                try_setdefault(bank, pass, 1, Key::Int(key), Value::Int(value))
            }
            Call::GetOther(key) => try_get(bank, pass, 1, Key::Int(key)),
            Call::ItemsOther => try_items(bank, pass, alloc, 1),
            Call::Update => try_update(bank, pass, 0, 1),
            Call::UpdateSelf => try_update(bank, pass, 0, 0),
            Call::Copy => try_copyto(bank, pass, 0, 1),
            Call::CopyBack => try_copyto(bank, pass, 1, 0),
            Call::CopySelf => try_copyto(bank, pass, 0, 0),
        }
    }
}

/// Puts rows that set that many keys from 0 on, each to what it leaves modulo 256, in dict 0 or in the other one. The
/// first is the write of this number.
fn push_sets(
    rows: &mut Vec<(Call, Wanted)>,
    other: bool,
    count: u32,
    number: u32,
) -> Result<(), AllocError> {
    for key in 0..count {
        let (integer, value) = (i64::from(key), i64::from(key % 256));
        let call = if other {
            Call::SetOther(integer, value)
        } else {
            Call::Set(integer, value)
        };
        let stamp = u64::from(number) + u64::from(key);
        rows.push((call, Wanted::Writes(Said::Done, stamp)))?;
    }
    Ok(())
}

#[test]
fn dicts_reply_as_in_python(rt: HostRuntime) -> Result<(), Fail> {
    for case in &CASES {
        let wrong = in_new_bank(rt.alloc(), case.least, case.greater, case.rows)?;
        assert_eq!(rt; wrong, None, "{}", case.name);
    }
    Ok(())
}

#[test]
fn a_dict_of_2730_pairs_grows_to_the_next_class(rt: HostRuntime) -> Result<(), Fail> {
    let alloc = rt.alloc();
    let mut rows = Vec::new(alloc);
    push_sets(&mut rows, false, 2730, 0)?;
    rows.extend_from_slice(&GROWN)?;
    push_sets(&mut rows, true, 2730, 2731)?;
    rows.extend_from_slice(&CROWDED)?;
    assert_eq!(rt; in_new_bank(alloc, 1, 1, rows.as_slice())?, None);
    Ok(())
}

/// The place of the first row that isn't so of a dict that has as many pairs as the largest table holds, in a bank
/// with that many tables of each class above 3; these rows come last.
fn of_largest(alloc: Global, greater: u32, last: &[(Call, Wanted)]) -> Result<Option<usize>, Fail> {
    let mut rows = Vec::new(alloc);
    push_sets(&mut rows, false, 43690, 0)?;
    rows.extend_from_slice(&LARGEST)?;
    rows.extend_from_slice(last)?;
    in_new_bank(alloc, 1, greater, rows.as_slice())
}

#[test]
fn a_dict_has_at_most_43690_pairs(rt: HostRuntime) -> Result<(), Fail> {
    assert_eq!(rt; of_largest(rt.alloc(), 1, &LARGEST_ALONE)?, None);
    Ok(())
}

#[test]
fn a_dict_of_43690_pairs_goes_over_to_another_table(rt: HostRuntime) -> Result<(), Fail> {
    assert_eq!(rt; of_largest(rt.alloc(), 2, &LARGEST_MOVED)?, None);
    Ok(())
}
