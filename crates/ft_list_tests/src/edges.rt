//! Each call that adds items, at the edges of size classes: a table of class 3 holds 8 items, one of class 12 holds
//! 4,096, and one of class 16, which is the largest, 65,536.
use crate::python::Python;
use crate::rows::{Row, Said, first_wrong};
use ft_model::Raise;
use std::test::Fail;

/// A list that comes to an edge: `2^times` items fill its table, and `next` is the class after that. The other list has
/// the only table of that class: no call adds an item until it is cleared.
macro_rules! at_edge {
    ($times:literal, $full:literal, $next:literal) => {
        [
            Row::Writes(1, Python::Append(7)),
            Row::Doubles(1, $times),
            Row::Writes(1, Python::Append(8)),
            Row::Writes(0, Python::Append(5)),
            Row::Doubles(0, $times),
            Row::Takes(0, Python::Pop, 5),
            Row::Writes(0, Python::Insert(0, 6)),
            Row::Reads(0, Python::Len, Said::Count($full)),
            Row::Raises(0, Python::Append(9), Raise::Memory($next)),
            Row::Raises(0, Python::Insert(0, 9), Raise::Memory($next)),
            Row::Raises(0, Python::Extend(0), Raise::Memory($next)),
            Row::Reads(0, Python::Len, Said::Count($full)),
            Row::Reads(0, Python::Get(-1), Said::Int(5)),
            Row::Writes(1, Python::Clear),
            Row::Writes(0, Python::Append(9)),
            Row::Reads(0, Python::Get(0), Said::Int(6)),
            Row::Reads(0, Python::Get(1), Said::Int(5)),
            Row::Reads(0, Python::Get($full), Said::Int(9)),
            Row::Takes(0, Python::Pop, 9),
            Row::Reads(0, Python::Len, Said::Count($full)),
        ]
    };
}

/// The edge of class 3.
const EIGHT: [Row; 20] = at_edge!(3, 8, 4);

/// The edge of class 12.
const FOUR_THOUSAND: [Row; 20] = at_edge!(12, 4_096, 13);

/// The edge of the largest class: no list holds more.
const MOST: [Row; 18] = [
    Row::Writes(0, Python::Append(1)),
    Row::Doubles(0, 16),
    Row::Writes(1, Python::Append(3)),
    Row::Raises(0, Python::Append(2), Raise::Over),
    Row::Reads(0, Python::Get(4_095), Said::Int(1)),
    Row::Takes(0, Python::Pop, 1),
    Row::Reads(0, Python::Len, Said::Count(65_535)),
    Row::Writes(0, Python::Extend(1)),
    Row::Raises(0, Python::Extend(1), Raise::Over),
    Row::Raises(0, Python::Append(2), Raise::Over),
    Row::Raises(0, Python::Insert(0, 2), Raise::Over),
    Row::Raises(0, Python::Extend(0), Raise::Over),
    Row::Writes(1, Python::Clear),
    Row::Writes(0, Python::Extend(1)),
    Row::Reads(0, Python::Len, Said::Count(65_536)),
    Row::Reads(0, Python::Get(-2), Said::Int(1)),
    Row::Reads(0, Python::Get(65_535), Said::Int(3)),
    Row::Raises(0, Python::Get(65_536), Raise::NoIndex),
];

#[test]
fn lists_of_seven_eight_and_nine_items(rt: HostRuntime) -> Result<(), Fail> {
    assert_eq!(rt; first_wrong(rt.alloc(), &EIGHT)?, None);
    Ok(())
}

#[test]
fn lists_of_4095_to_4097_items(rt: HostRuntime) -> Result<(), Fail> {
    assert_eq!(rt; first_wrong(rt.alloc(), &FOUR_THOUSAND)?, None);
    Ok(())
}

#[test]
fn lists_of_65535_and_65536_items(rt: HostRuntime) -> Result<(), Fail> {
    assert_eq!(rt; first_wrong(rt.alloc(), &MOST)?, None);
    Ok(())
}
