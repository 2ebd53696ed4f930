//! Tables of calls whose answers were worked by hand from the Python manual, Sequence Types.
use crate::python::Python;
use crate::rows::{Row, Said, first_wrong};
use ft_model::Raise;
use std::test::Fail;

/// Indexes from both ends, slices, and what is raised.
const INDEXES_AND_SLICES: [Row; 9] = [
    Row::Writes(0, Python::Append(5)),
    Row::Writes(0, Python::Append(6)),
    Row::Reads(0, Python::Get(-1), Said::Int(6)),
    Row::Raises(0, Python::Get(2), Raise::NoIndex),
    Row::Writes(0, Python::Insert(99, 7)),
    Row::Reads(0, Python::Slice(1, 9), Said::Items(&[6, 7])),
    Row::Raises(0, Python::Remove(8), Raise::NoValue),
    Row::Writes(0, Python::Clear),
    Row::Raises(0, Python::Pop, Raise::NoIndex),
];

#[test]
fn indexes_slices_and_exceptions(rt: HostRuntime) -> Result<(), Fail> {
    assert_eq!(rt; first_wrong(rt.alloc(), &INDEXES_AND_SLICES)?, None);
    Ok(())
}

/// Items that are set, found and taken out.
const SETS_AND_FINDS: [Row; 22] = [
    Row::Writes(0, Python::Append(4)),
    Row::Writes(0, Python::Append(5)),
    Row::Writes(0, Python::Append(6)),
    Row::Writes(0, Python::Set(-1, 5)),
    Row::Raises(0, Python::Set(3, 5), Raise::NoIndex),
    Row::Raises(0, Python::Set(-4, 5), Raise::NoIndex),
    Row::Reads(0, Python::Index(5), Said::Count(1)),
    Row::Reads(0, Python::Count(5), Said::Count(2)),
    Row::Reads(0, Python::Has(5), Said::Truth(true)),
    Row::Reads(0, Python::Has(6), Said::Truth(false)),
    Row::Raises(0, Python::Index(6), Raise::NoValue),
    Row::Writes(0, Python::Reverse),
    Row::Reads(0, Python::Items, Said::Items(&[5, 5, 4])),
    Row::Writes(0, Python::Remove(5)),
    Row::Takes(0, Python::PopAt(0), 5),
    Row::Writes(0, Python::Insert(-9, 8)),
    Row::Writes(0, Python::Del(-1)),
    Row::Raises(0, Python::Del(1), Raise::NoIndex),
    Row::Reads(0, Python::Slice(-5, 5), Said::Items(&[8])),
    Row::Reads(0, Python::Slice(1, 0), Said::Items(&[])),
    Row::Takes(0, Python::Pop, 8),
    Row::Reads(0, Python::Len, Said::Count(0)),
];

#[test]
fn items_are_set_found_and_taken_out(rt: HostRuntime) -> Result<(), Fail> {
    assert_eq!(rt; first_wrong(rt.alloc(), &SETS_AND_FINDS)?, None);
    Ok(())
}

/// Calls on two lists that have nothing.
const WITHOUT_ITEMS: [Row; 12] = [
    Row::Raises(0, Python::Pop, Raise::NoIndex),
    Row::Writes(0, Python::Reverse),
    Row::Raises(0, Python::Index(7), Raise::NoValue),
    Row::Reads(0, Python::Count(7), Said::Count(0)),
    Row::Reads(0, Python::Equals(1), Said::Truth(true)),
    Row::Looks(0, Python::Equals(1), Said::Truth(true)),
    Row::Looks(0, Python::Len, Said::Count(0)),
    Row::Writes(0, Python::Extend(0)),
    Row::Writes(0, Python::Extend(1)),
    Row::Writes(0, Python::Clear),
    Row::Reads(0, Python::Items, Said::Items(&[])),
    Row::Looks(0, Python::Items, Said::Items(&[])),
];

#[test]
fn calls_on_lists_without_items(rt: HostRuntime) -> Result<(), Fail> {
    assert_eq!(rt; first_wrong(rt.alloc(), &WITHOUT_ITEMS)?, None);
    Ok(())
}

/// A list that is extended by itself and by another.
const EXTENSIONS: [Row; 14] = [
    Row::Writes(0, Python::Append(1)),
    Row::Writes(0, Python::Append(2)),
    Row::Doubles(0, 1),
    Row::Reads(0, Python::Items, Said::Items(&[1, 2, 1, 2])),
    Row::Writes(0, Python::Extend(1)),
    Row::Doubles(0, 2),
    Row::Writes(1, Python::Append(7)),
    Row::Writes(1, Python::Extend(0)),
    Row::Reads(
        1,
        Python::Items,
        Said::Items(&[7, 1, 2, 1, 2, 1, 2, 1, 2, 1, 2, 1, 2, 1, 2, 1, 2]),
    ),
    Row::Reads(0, Python::Equals(1), Said::Truth(false)),
    Row::Writes(0, Python::Extend(1)),
    Row::Reads(0, Python::Get(16), Said::Int(7)),
    Row::Reads(0, Python::Get(-1), Said::Int(2)),
    Row::Reads(0, Python::Len, Said::Count(33)),
];

#[test]
fn a_list_is_extended_by_itself_and_by_another(rt: HostRuntime) -> Result<(), Fail> {
    assert_eq!(rt; first_wrong(rt.alloc(), &EXTENSIONS)?, None);
    Ok(())
}

/// Insertions in the midst and at the front, the first of which takes a larger table.
const INSERTIONS: [Row; 12] = [
    Row::Writes(0, Python::Append(0)),
    Row::Writes(0, Python::Append(1)),
    Row::Writes(0, Python::Append(2)),
    Row::Writes(0, Python::Append(3)),
    Row::Writes(0, Python::Append(4)),
    Row::Writes(0, Python::Append(5)),
    Row::Writes(0, Python::Append(6)),
    Row::Writes(0, Python::Append(7)),
    Row::Writes(0, Python::Insert(-2, 99)),
    Row::Looks(0, Python::Items, Said::Items(&[0, 1, 2, 3, 4, 5, 99, 6, 7])),
    Row::Writes(0, Python::Insert(0, 98)),
    Row::Looks(
        0,
        Python::Items,
        Said::Items(&[98, 0, 1, 2, 3, 4, 5, 99, 6, 7]),
    ),
];

#[test]
fn an_insertion_moves_the_items_after_it(rt: HostRuntime) -> Result<(), Fail> {
    assert_eq!(rt; first_wrong(rt.alloc(), &INSERTIONS)?, None);
    Ok(())
}

/// Looks before and after a list takes a larger table and is cleared.
const LOOKS: [Row; 17] = [
    Row::Looks(0, Python::Get(3), Said::Raised(Raise::NoIndex)),
    Row::Repeats(3, 0, Python::Append(4)),
    Row::Repeats(5, 0, Python::Append(5)),
    Row::Looks(0, Python::Get(2), Said::Int(4)),
    Row::Looks(0, Python::Get(-6), Said::Int(4)),
    Row::Looks(0, Python::Get(-5), Said::Int(5)),
    Row::Writes(0, Python::Append(99)),
    Row::Looks(0, Python::Get(2), Said::Int(4)),
    Row::Looks(0, Python::Get(3), Said::Int(5)),
    Row::Looks(0, Python::Get(8), Said::Int(99)),
    Row::Looks(0, Python::Get(9), Said::Raised(Raise::NoIndex)),
    Row::Looks(0, Python::Has(5), Said::Truth(true)),
    Row::Looks(0, Python::Equals(1), Said::Truth(false)),
    Row::Looks(0, Python::Len, Said::Count(9)),
    Row::Writes(0, Python::Clear),
    Row::Looks(0, Python::Get(2), Said::Raised(Raise::NoIndex)),
    Row::Looks(0, Python::Has(5), Said::Truth(false)),
];

#[test]
fn looks_find_items_across_a_growth_and_a_clear(rt: HostRuntime) -> Result<(), Fail> {
    assert_eq!(rt; first_wrong(rt.alloc(), &LOOKS)?, None);
    Ok(())
}

/// Two lists that take the one table of the least class in turn.
const TABLE_FREED: [Row; 8] = [
    Row::Writes(0, Python::Append(7)),
    Row::Raises(1, Python::Append(7), Raise::Memory(3)),
    Row::Raises(1, Python::Get(0), Raise::NoIndex),
    Row::Writes(0, Python::Clear),
    Row::Raises(0, Python::Get(0), Raise::NoIndex),
    Row::Writes(1, Python::Append(8)),
    Row::Raises(0, Python::Append(7), Raise::Memory(3)),
    Row::Reads(1, Python::Get(0), Said::Int(8)),
];

#[test]
fn a_cleared_list_takes_a_table_again(rt: HostRuntime) -> Result<(), Fail> {
    assert_eq!(rt; first_wrong(rt.alloc(), &TABLE_FREED)?, None);
    Ok(())
}
