//! Calls on two dicts and what they are to reply, as Python's dicts reply.
use super::Call;
use crate::Wanted::{self, Reads, Writes};
use crate::{Case, Said};
use ft_model::Raise;

pub(super) const CASES: [Case<Call>; 12] = [
    Case {
        name: "the last pair goes first",
        least: 4,
        greater: 4,
        rows: &[
            (Call::PopItem, Reads(Said::Raised(Raise::NoKey), 0)),
            (Call::Set(1, 10), Writes(Said::Done, 0)),
            (Call::Set(2, 20), Writes(Said::Done, 1)),
            (Call::Del(1), Writes(Said::Done, 2)),
            (Call::Set(1, 30), Writes(Said::Done, 3)),
            (Call::Items, Reads(Said::Pairs(&[(2, 20), (1, 30)]), 4)),
            (Call::Set(2, 21), Writes(Said::Done, 4)),
            (Call::Set(3, 40), Writes(Said::Done, 5)),
            (Call::Pop(3), Writes(Said::Value(40), 6)),
            (Call::PopItem, Writes(Said::Pair(1, 30), 7)),
            (Call::Items, Reads(Said::Pairs(&[(2, 21)]), 8)),
            (Call::PopItem, Writes(Said::Pair(2, 21), 8)),
            (Call::PopItem, Reads(Said::Raised(Raise::NoKey), 9)),
            (Call::Items, Reads(Said::Pairs(&[]), 9)),
            (Call::Len, Reads(Said::Count(0), 9)),
            (Call::Set(1, 50), Writes(Said::Done, 9)),
            (Call::PopItem, Writes(Said::Pair(1, 50), 10)),
        ],
    },
    Case {
        name: "pairs of a dict stay in order through growths",
        least: 4,
        greater: 4,
        rows: &[
            (Call::Del(7), Reads(Said::Raised(Raise::NoKey), 0)),
            (Call::Set(9223372036854775807, 1), Writes(Said::Done, 0)),
            (Call::Set(-9223372036854775808, 2), Writes(Said::Done, 1)),
            (Call::Default(-1, 3), Writes(Said::Value(3), 2)),
            (Call::Default(-2, 4), Writes(Said::Value(4), 3)),
            (Call::PopOr(-1, 0), Writes(Said::Value(3), 4)),
            (Call::Set(5, 5), Writes(Said::Done, 5)),
            (Call::Set(6, 6), Writes(Said::Done, 6)),
            (Call::Set(7, 7), Writes(Said::Done, 7)),
            (
                Call::Items,
                Reads(
                    Said::Pairs(&[
                        (9223372036854775807, 1),
                        (-9223372036854775808, 2),
                        (-2, 4),
                        (5, 5),
                        (6, 6),
                        (7, 7),
                    ]),
                    8,
                ),
            ),
            (Call::Get(-2), Reads(Said::Value(4), 8)),
            (Call::GetOr(-1, 0), Reads(Said::Value(0), 8)),
            (Call::Has(7), Reads(Said::Truth(true), 8)),
            (Call::Clear, Writes(Said::Done, 8)),
            (Call::Items, Reads(Said::Pairs(&[]), 9)),
            (Call::Has(7), Reads(Said::Truth(false), 9)),
        ],
    },
    Case {
        name: "dicts are equal in any order",
        least: 4,
        greater: 4,
        rows: &[
            (Call::Eq, Reads(Said::Truth(true), 0)),
            (Call::Set(1, 10), Writes(Said::Done, 0)),
            (Call::Eq, Reads(Said::Truth(false), 1)),
            (Call::SetOther(2, 20), Writes(Said::Done, 1)),
            (Call::Eq, Reads(Said::Truth(false), 2)),
            (Call::SetOther(1, 10), Writes(Said::Done, 2)),
            (Call::Eq, Reads(Said::Truth(false), 3)),
            (Call::Set(2, 21), Writes(Said::Done, 3)),
            (Call::Eq, Reads(Said::Truth(false), 4)),
            (Call::Set(2, 20), Writes(Said::Done, 4)),
            (Call::Eq, Reads(Said::Truth(true), 5)),
            (Call::PopItem, Writes(Said::Pair(2, 20), 5)),
            (Call::Eq, Reads(Said::Truth(false), 6)),
        ],
    },
    // The hash of -1 is that of -2; multiples of 2^61 - 1 have the hash of 0.
    Case {
        name: "keys of one hash stay apart",
        least: 4,
        greater: 1,
        rows: &[
            (Call::Set(-1, 10), Writes(Said::Done, 0)),
            (Call::Set(-2, 20), Writes(Said::Done, 1)),
            (Call::Del(-1), Writes(Said::Done, 2)),
            (Call::Get(-2), Reads(Said::Value(20), 3)),
            (Call::Get(-1), Reads(Said::Raised(Raise::NoKey), 3)),
            (Call::Set(0, 1), Writes(Said::Done, 3)),
            (Call::Set(2305843009213693951, 2), Writes(Said::Done, 4)),
            (
                Call::Default(4611686018427387902, 3),
                Writes(Said::Value(3), 5),
            ),
            (
                Call::Default(4611686018427387902, 4),
                Writes(Said::Value(3), 6),
            ),
            (Call::Get(0), Reads(Said::Value(1), 7)),
            (Call::Get(2305843009213693951), Reads(Said::Value(2), 7)),
            (Call::Set(9223372036854775807, 5), Writes(Said::Done, 7)),
            (Call::Set(-9223372036854775808, 6), Writes(Said::Done, 8)),
            (Call::Get(9223372036854775807), Reads(Said::Value(5), 9)),
            (Call::Get(-9223372036854775808), Reads(Said::Value(6), 9)),
            (Call::Get(-2), Reads(Said::Value(20), 9)),
            (
                Call::Items,
                Reads(
                    Said::Pairs(&[
                        (-2, 20),
                        (0, 1),
                        (2305843009213693951, 2),
                        (4611686018427387902, 3),
                        (9223372036854775807, 5),
                        (-9223372036854775808, 6),
                    ]),
                    9,
                ),
            ),
        ],
    },
    Case {
        name: "the sixth key of a dict takes a greater table",
        least: 4,
        greater: 1,
        rows: &[
            (Call::Set(1, 10), Writes(Said::Done, 0)),
            (Call::Set(2, 20), Writes(Said::Done, 1)),
            (Call::Set(3, 30), Writes(Said::Done, 2)),
            (Call::Set(4, 40), Writes(Said::Done, 3)),
            (Call::Set(5, 50), Writes(Said::Done, 4)),
            (Call::Set(6, 60), Writes(Said::Done, 5)),
            (Call::Get(1), Reads(Said::Value(10), 6)),
            (Call::Get(6), Reads(Said::Value(60), 6)),
            (Call::SetOther(1, 0), Writes(Said::Done, 6)),
            (Call::SetOther(2, 0), Writes(Said::Done, 7)),
            (Call::SetOther(3, 0), Writes(Said::Done, 8)),
            (Call::SetOther(4, 0), Writes(Said::Done, 9)),
            (Call::SetOther(5, 0), Writes(Said::Done, 10)),
            (
                Call::SetOther(6, 0),
                Reads(Said::Raised(Raise::Memory(4)), 11),
            ),
            (
                Call::DefaultOther(7, 0),
                Reads(Said::Raised(Raise::Memory(4)), 11),
            ),
            (Call::SetOther(5, 1), Writes(Said::Done, 11)),
            (Call::GetOther(6), Reads(Said::Raised(Raise::NoKey), 12)),
            (Call::GetOther(5), Reads(Said::Value(1), 12)),
            (Call::Get(6), Reads(Said::Value(60), 12)),
        ],
    },
    Case {
        name: "a dict without a table finds none",
        least: 1,
        greater: 1,
        rows: &[
            (Call::Set(1, 0), Writes(Said::Done, 0)),
            (
                Call::SetOther(1, 0),
                Reads(Said::Raised(Raise::Memory(3)), 1),
            ),
            (Call::GetOther(1), Reads(Said::Raised(Raise::NoKey), 1)),
            (Call::Get(1), Reads(Said::Value(0), 1)),
        ],
    },
    // Class 3 has five entries; the sixth that is used takes another table of class 3, with two keys in it.
    Case {
        name: "deleted keys take room until a table is taken",
        least: 4,
        greater: 1,
        rows: &[
            (Call::Set(1, 10), Writes(Said::Done, 0)),
            (Call::Set(2, 20), Writes(Said::Done, 1)),
            (Call::Del(1), Writes(Said::Done, 2)),
            (Call::Set(3, 30), Writes(Said::Done, 3)),
            (Call::Del(2), Writes(Said::Done, 4)),
            (Call::Set(1, 11), Writes(Said::Done, 5)),
            (Call::Set(2, 21), Writes(Said::Done, 6)),
            (Call::Del(3), Writes(Said::Done, 7)),
            (Call::Del(1), Writes(Said::Done, 8)),
            (Call::Set(3, 31), Writes(Said::Done, 9)),
            (Call::Get(2), Reads(Said::Value(21), 10)),
            (Call::Get(3), Reads(Said::Value(31), 10)),
            (Call::Get(1), Reads(Said::Raised(Raise::NoKey), 10)),
            (Call::Set(4, 40), Writes(Said::Done, 10)),
            (Call::Get(4), Reads(Said::Value(40), 11)),
            (
                Call::Items,
                Reads(Said::Pairs(&[(2, 21), (3, 31), (4, 40)]), 11),
            ),
        ],
    },
    Case {
        name: "a copy takes the place of what was there",
        least: 4,
        greater: 4,
        rows: &[
            (Call::Copy, Writes(Said::Done, 0)),
            (Call::CopySelf, Writes(Said::Done, 1)),
            (Call::Set(1, 10), Writes(Said::Done, 2)),
            (Call::Set(2, 20), Writes(Said::Done, 3)),
            (Call::Set(3, 30), Writes(Said::Done, 4)),
            (Call::Del(2), Writes(Said::Done, 5)),
            (Call::SetOther(2, 5), Writes(Said::Done, 6)),
            (Call::Copy, Writes(Said::Done, 7)),
            (Call::ItemsOther, Reads(Said::Pairs(&[(1, 10), (3, 30)]), 8)),
            (Call::Eq, Reads(Said::Truth(true), 8)),
            (Call::SetOther(2, 6), Writes(Said::Done, 8)),
            (Call::CopyBack, Writes(Said::Done, 9)),
            (
                Call::Items,
                Reads(Said::Pairs(&[(1, 10), (3, 30), (2, 6)]), 10),
            ),
            (Call::Get(2), Reads(Said::Value(6), 10)),
            (Call::CopySelf, Writes(Said::Done, 10)),
            (
                Call::Items,
                Reads(Said::Pairs(&[(1, 10), (3, 30), (2, 6)]), 11),
            ),
            (Call::Pop(3), Writes(Said::Value(30), 11)),
            (Call::Set(3, 31), Writes(Said::Done, 12)),
            (
                Call::Items,
                Reads(Said::Pairs(&[(1, 10), (2, 6), (3, 31)]), 13),
            ),
            (Call::Clear, Writes(Said::Done, 13)),
            (Call::Copy, Writes(Said::Done, 14)),
            (Call::ItemsOther, Reads(Said::Pairs(&[]), 15)),
            (Call::SetOther(4, 40), Writes(Said::Done, 15)),
            (Call::ItemsOther, Reads(Said::Pairs(&[(4, 40)]), 16)),
        ],
    },
    // Two tables of class 3, one for each dict; a table that is given up is free when the next one is taken.
    Case {
        name: "a copy takes a table in any case",
        least: 2,
        greater: 4,
        rows: &[
            (Call::Set(1, 10), Writes(Said::Done, 0)),
            (Call::SetOther(2, 20), Writes(Said::Done, 1)),
            (Call::Copy, Reads(Said::Raised(Raise::Memory(3)), 2)),
            (Call::CopySelf, Reads(Said::Raised(Raise::Memory(3)), 2)),
            (Call::ItemsOther, Reads(Said::Pairs(&[(2, 20)]), 2)),
            (Call::Items, Reads(Said::Pairs(&[(1, 10)]), 2)),
            (Call::Clear, Writes(Said::Done, 2)),
            (Call::CopyBack, Writes(Said::Done, 3)),
            (Call::Items, Reads(Said::Pairs(&[(2, 20)]), 4)),
            (Call::CopySelf, Reads(Said::Raised(Raise::Memory(3)), 4)),
        ],
    },
    // The hash of -1 is that of -2.
    Case {
        name: "an update puts values at keys and new keys last",
        least: 4,
        greater: 4,
        rows: &[
            (Call::Update, Writes(Said::Done, 0)),
            (Call::Items, Reads(Said::Pairs(&[]), 1)),
            (Call::SetOther(5, 50), Writes(Said::Done, 1)),
            (Call::SetOther(-2, 20), Writes(Said::Done, 2)),
            (Call::SetOther(9, 90), Writes(Said::Done, 3)),
            (Call::Set(9, 1), Writes(Said::Done, 4)),
            (Call::Set(-1, 2), Writes(Said::Done, 5)),
            (Call::Update, Writes(Said::Done, 6)),
            (
                Call::Items,
                Reads(Said::Pairs(&[(9, 90), (-1, 2), (5, 50), (-2, 20)]), 7),
            ),
            (Call::UpdateSelf, Writes(Said::Done, 7)),
            (
                Call::Items,
                Reads(Said::Pairs(&[(9, 90), (-1, 2), (5, 50), (-2, 20)]), 8),
            ),
            (
                Call::ItemsOther,
                Reads(Said::Pairs(&[(5, 50), (-2, 20), (9, 90)]), 8),
            ),
            (Call::Del(5), Writes(Said::Done, 8)),
            (Call::SetOther(-1, 7), Writes(Said::Done, 9)),
            (Call::Set(9, 3), Writes(Said::Done, 10)),
            (Call::Update, Writes(Said::Done, 11)),
            (
                Call::Items,
                Reads(Said::Pairs(&[(9, 90), (-1, 7), (-2, 20), (5, 50)]), 12),
            ),
            (Call::Eq, Reads(Said::Truth(true), 12)),
            (Call::Get(-1), Reads(Said::Value(7), 12)),
        ],
    },
    // Multiples of 2^61 - 1 have the hash of 0. A table of class 3 has room for five keys, also deleted ones.
    Case {
        name: "many keys of another dict take a greater table",
        least: 4,
        greater: 4,
        rows: &[
            (Call::SetOther(5, 50), Writes(Said::Done, 0)),
            (Call::SetOther(-2, 20), Writes(Said::Done, 1)),
            (Call::SetOther(9, 90), Writes(Said::Done, 2)),
            (
                Call::SetOther(2305843009213693951, 1),
                Writes(Said::Done, 3),
            ),
            (Call::SetOther(0, 2), Writes(Said::Done, 4)),
            (Call::Set(8, 80), Writes(Said::Done, 5)),
            (Call::Set(9, 91), Writes(Said::Done, 6)),
            (Call::Set(-1, 10), Writes(Said::Done, 7)),
            (Call::Del(8), Writes(Said::Done, 8)),
            (Call::Update, Writes(Said::Done, 9)),
            (
                Call::Items,
                Reads(
                    Said::Pairs(&[
                        (9, 90),
                        (-1, 10),
                        (5, 50),
                        (-2, 20),
                        (2305843009213693951, 1),
                        (0, 2),
                    ]),
                    10,
                ),
            ),
            (Call::Get(-2), Reads(Said::Value(20), 10)),
            (Call::Get(2305843009213693951), Reads(Said::Value(1), 10)),
            (Call::Clear, Writes(Said::Done, 10)),
            (Call::Update, Writes(Said::Done, 11)),
            (
                Call::Items,
                Reads(
                    Said::Pairs(&[(5, 50), (-2, 20), (9, 90), (2305843009213693951, 1), (0, 2)]),
                    12,
                ),
            ),
            (Call::Eq, Reads(Said::Truth(true), 12)),
            (
                Call::SetOther(4611686018427387902, 3),
                Writes(Said::Done, 12),
            ),
            (Call::SetOther(9, 92), Writes(Said::Done, 13)),
            (Call::Update, Writes(Said::Done, 14)),
            (
                Call::Items,
                Reads(
                    Said::Pairs(&[
                        (5, 50),
                        (-2, 20),
                        (9, 92),
                        (2305843009213693951, 1),
                        (0, 2),
                        (4611686018427387902, 3),
                    ]),
                    15,
                ),
            ),
            (Call::Eq, Reads(Said::Truth(true), 15)),
        ],
    },
    // Six keys take a table of class 4, of which the other dict has the only one.
    Case {
        name: "no value is put where there is no table",
        least: 4,
        greater: 1,
        rows: &[
            (Call::SetOther(1, 10), Writes(Said::Done, 0)),
            (Call::SetOther(2, 20), Writes(Said::Done, 1)),
            (Call::SetOther(3, 30), Writes(Said::Done, 2)),
            (Call::SetOther(4, 40), Writes(Said::Done, 3)),
            (Call::SetOther(5, 50), Writes(Said::Done, 4)),
            (Call::SetOther(6, 60), Writes(Said::Done, 5)),
            (Call::Set(6, 90), Writes(Said::Done, 6)),
            (Call::Set(2, 0), Writes(Said::Done, 7)),
            (Call::Update, Reads(Said::Raised(Raise::Memory(4)), 8)),
            (Call::Items, Reads(Said::Pairs(&[(6, 90), (2, 0)]), 8)),
            (Call::UpdateSelf, Writes(Said::Done, 8)),
            (Call::Clear, Writes(Said::Done, 9)),
            (Call::Update, Reads(Said::Raised(Raise::Memory(4)), 10)),
            (Call::Items, Reads(Said::Pairs(&[]), 10)),
            (Call::Set(2, 1), Writes(Said::Done, 10)),
            (Call::Update, Reads(Said::Raised(Raise::Memory(4)), 11)),
            (Call::Items, Reads(Said::Pairs(&[(2, 1)]), 11)),
        ],
    },
];

/// What is so once a dict of 2,730 pairs has grown to the next class.
pub(super) const GROWN: [(Call, Wanted); 7] = [
    (Call::Len, Reads(Said::Count(2730), 2730)),
    (Call::Set(2730, -1), Writes(Said::Done, 2730)),
    (Call::Len, Reads(Said::Count(2731), 2731)),
    (Call::Get(0), Reads(Said::Value(0), 2731)),
    (Call::Get(2729), Reads(Said::Value(169), 2731)),
    (Call::Get(2730), Reads(Said::Value(-1), 2731)),
    (Call::Has(2731), Reads(Said::Truth(false), 2731)),
];

/// What is so then of the other dict, which has as many pairs as a table of class 12 holds: the one table of class 13 is
/// taken.
pub(super) const CROWDED: [(Call, Wanted); 5] = [
    (
        Call::SetOther(2730, -1),
        Reads(Said::Raised(Raise::Memory(13)), 5461),
    ),
    (Call::GetOther(2729), Reads(Said::Value(169), 5461)),
    (
        Call::GetOther(2730),
        Reads(Said::Raised(Raise::NoKey), 5461),
    ),
    (Call::SetOther(2729, -2), Writes(Said::Done, 5461)),
    (Call::GetOther(2729), Reads(Said::Value(-2), 5462)),
];

/// What is so of a dict that has as many pairs as the largest table holds, up to a new key in the place of another one.
pub(super) const LARGEST: [(Call, Wanted); 11] = [
    (Call::Len, Reads(Said::Count(43690), 43690)),
    (
        Call::Set(43690, -1),
        Reads(Said::Raised(Raise::Over), 43690),
    ),
    (
        Call::Default(43690, -1),
        Reads(Said::Raised(Raise::Over), 43690),
    ),
    (
        Call::Set(43690, 1000),
        Reads(Said::Raised(Raise::Over), 43690),
    ),
    (
        Call::Default(43690, 1000),
        Reads(Said::Raised(Raise::Over), 43690),
    ),
    (Call::Len, Reads(Said::Count(43690), 43690)),
    (Call::Get(43689), Reads(Said::Value(169), 43690)),
    (Call::Has(43690), Reads(Said::Truth(false), 43690)),
    (Call::Set(5, -5), Writes(Said::Done, 43690)),
    (Call::Get(5), Reads(Said::Value(-5), 43691)),
    (Call::Del(7), Writes(Said::Done, 43691)),
];

/// What is so after that where the one table of its class is the dict's own: each entry of its table was used.
pub(super) const LARGEST_ALONE: [(Call, Wanted); 3] = [
    (
        Call::Set(43690, -1),
        Reads(Said::Raised(Raise::Memory(16)), 43692),
    ),
    (Call::Len, Reads(Said::Count(43689), 43692)),
    (Call::Has(7), Reads(Said::Truth(false), 43692)),
];

/// What is so after that where another table of its class is free.
pub(super) const LARGEST_MOVED: [(Call, Wanted); 6] = [
    (Call::Set(43690, -1), Writes(Said::Done, 43692)),
    (Call::Len, Reads(Said::Count(43690), 43693)),
    (Call::Get(43690), Reads(Said::Value(-1), 43693)),
    (Call::Get(43689), Reads(Said::Value(169), 43693)),
    (Call::PopItem, Writes(Said::Pair(43690, -1), 43693)),
    (Call::PopItem, Writes(Said::Pair(43689, 169), 43694)),
];
