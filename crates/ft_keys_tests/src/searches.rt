//! Searches in tables of up to 64 slots, and tables that are rebuilt. The slots are worked out by hand.

ghost use Rattle.std.specs.Prelude.{◌≡◌, ◌+◌, ◌-◌, ◌^◌, ◌<◌, ◌≤◌, length};
ghost use Rattle.ft_hash.specs.Probes.{IsMask};
ghost use Rattle.ft_layout.specs.Tables.{table_length};

use ft_hash::hash_int;
use ft_keys::{Found, ListMove, ListWords, Steps, Walk, Way, Words, find, room_of};
use ft_layout::{Pair, Stored, gone_kind_of, kind_of, payload_of};
use ft_model::{Key, Sym, Value};
use std::alloc::{AllocError, Global};
use std::marker::Brand;
use std::process::Abort;
use std::sync::ledger::{Blank, Ledger};
use std::test::Fail;

/// The last slot of a table of this class.
fn mask_of(class: u32) -> u64
    requires { (3 ≤ class) × (class ≤ 6) }
    ensures mask { IsMask result }
    ensures small { result < 64 }
{
    match class {
        3 => 7,
        4 => 15,
        5 => 31,
        _ => 63,
    }
}

/// How many words a table has.
fn size_of(mask: u64) -> u64
    requires { mask < 64 }
    ensures { result ≡ table_length mask }
{
    8 * room_of(Way::Dict, mask) + mask + 3
}

/// A table with nothing in it.
fn empty_table(alloc: Global, mask: u64) -> Result<Vec<u64>, AllocError>
    requires { mask < 64 }
{
    vec![in alloc; 0; size_of(mask) as usize]
}

fn add(rt: &impl Abort, words: &mut [u64], way: Way, mask: u64, fill: u64, key: Key, hash: u64)
    requires { IsMask mask × (mask < 64) }
{
    assert!(rt; words.len() as u64 == size_of(mask), "no table");
    assert!(rt; fill < room_of(way, mask), "no room");
    let pair = Pair {
        hash,
        key,
        value: Stored::Plain(Value::Int(7)),
        serial: 100 + fill,
    };
    let mut list = ListWords { words, mask };
    list.place_new(way, fill, &pair);
}

fn delete(rt: &impl Abort, words: &mut [u64], mask: u64, place: u64, key: Key)
    requires { mask < 64 }
{
    assert!(rt; words.len() as u64 == size_of(mask), "no table");
    assert!(rt; place < room_of(Way::Dict, mask), "no entry");
    let mut list = ListWords { words, mask };
    list.put_entry(place, 2, gone_kind_of(key));
}

fn find_by<L: Ledger>(
    words: &mut [u64],
    way: Way,
    mask: u64,
    key: Key,
    hash: u64,
    blank: Blank,
) -> Found
    requires mask { IsMask mask }
    requires length { length words.old ≡ table_length mask }
    requires name { blank.name ≡ L.name }
    requires parts { (blank.parts ≡ L.parts) × (L.parts ≡ 1) }
{
    let mut steps: Steps<L> = Steps::new(blank);
    let mut walk = Walk::new(way, hash, mask);
    let mut list = ListWords { words, mask };
    list.find_live(&mut walk, key, &mut steps)
}

fn find_in(rt: &impl Abort, words: &mut [u64], way: Way, mask: u64, key: Key, hash: u64) -> Found
    requires { IsMask mask × (mask < 64) }
{
    assert!(rt; words.len() as u64 == size_of(mask), "no table");
    find_by::<Brand>(words, way, mask, key, hash, Blank::new(1))
}

/// The words of an entry, if it has these.
fn word_of(rt: &impl Abort, words: &mut [u64], mask: u64, place: u64, word: u64) -> u64
    requires { (mask < 64) × (word < 8) }
{
    assert!(rt; words.len() as u64 == size_of(mask), "no table");
    assert!(rt; place < room_of(Way::Dict, mask), "no entry");
    let mut list = ListWords { words, mask };
    list.entry(place, word)
}

/// The place of the key's entry, by a look at each.
fn scan(rt: &impl Abort, words: &mut [u64], mask: u64, key: Key) -> Option<u64>
    requires { mask < 64 }
{
    for place in 0..room_of(Way::Dict, mask) {
        let kind = word_of(rt, words, mask, place, 2);
        let payload = word_of(rt, words, mask, place, 3);
        if kind == kind_of(key) && payload == payload_of(key) {
            return Some(place);
        }
    }
    None
}

/// A key, and the hash under which it is put and searched. No constant can call the function that gives Python's hash.
#[derive(Clone, Copy, Debug)]
enum Hashed {
    /// An integer under Python's hash of it.
    Int(i64),
    /// An integer under this hash.
    IntUnder(i64, u64),
    /// A text under this hash.
    Text(u32, u64),
}

impl Hashed {
    fn key(self) -> Key {
        match self {
            Hashed::Int(integer) | Hashed::IntUnder(integer, _) => Key::Int(integer),
            Hashed::Text(number, _) => Key::Text(Sym(number)),
        }
    }

    fn hash(self) -> u64 {
        match self {
            Hashed::Int(integer) => hash_int(integer),
            Hashed::IntUnder(_, hash) | Hashed::Text(_, hash) => hash,
        }
    }
}

/// A table of this class that is filled with keys, of which those at some places are deleted, and searches in it: how
/// each is to end.
struct Case {
    name: &'static str,
    way: Way,
    class: u32,
    keys: &'static [Hashed],
    gone: &'static [usize],
    wanted: &'static [(Hashed, Found)],
}

/// Fills a table with keys.
fn put_keys(rt: &impl Abort, words: &mut [u64], way: Way, mask: u64, keys: &[Hashed])
    requires { IsMask mask × (mask < 64) }
{
    for (place, hashed) in keys.iter().enumerate() {
        add(
            rt,
            words,
            way,
            mask,
            place as u64,
            hashed.key(),
            hashed.hash(),
        );
    }
}

/// Deletes those of the keys that have these places.
fn delete_some(rt: &impl Abort, words: &mut [u64], mask: u64, keys: &[Hashed], gone: &[usize])
    requires { mask < 64 }
{
    for place in gone {
        assert!(rt; *place < keys.len(), "no key");
        delete(rt, words, mask, *place as u64, keys[*place].key());
    }
}

/// Searches: each search ends as wanted, and finds a key where a look at each entry finds it.
fn check_searches(
    rt: &impl Abort,
    words: &mut [u64],
    way: Way,
    mask: u64,
    wanted: &[(Hashed, Found)],
    name: &str,
)
    requires { IsMask mask × (mask < 64) }
{
    for (hashed, want) in wanted {
        let found = find_in(rt, words, way, mask, hashed.key(), hashed.hash());
        assert_eq!(rt; found, *want, "{name}: at {hashed:?}");
        let place = match found {
            Found::At(_, place) => Some(place),
            Found::Was(..) | Found::Free(_) | Found::Spent => None,
        };
        let scanned = scan(rt, words, mask, hashed.key());
        assert_eq!(rt; place, scanned, "{name}: at {hashed:?}");
    }
}

/// A table that has what the case puts in it, after its searches.
fn check(rt: &(impl Abort + AllocGlobal), case: &Case) -> Result<Vec<u64>, AllocError> {
    assert!(rt;
        3 <= case.class && case.class <= 6,
        "no class of {}",
        case.name
    );
    let mask = mask_of(case.class);
    let mut words = empty_table(rt.alloc(), mask)?;
    put_keys(rt, &mut words, case.way, mask, case.keys);
    delete_some(rt, &mut words, mask, case.keys, case.gone);
    check_searches(rt, &mut words, case.way, mask, case.wanted, case.name);
    Ok(words)
}

const fn text(n: u32) -> Key {
    Key::Text(Sym(n))
}

const SEARCHES: [Case; 7] = [
    Case {
        name: "minus one and minus two have one hash",
        way: Way::Dict,
        class: 3,
        keys: &[Hashed::Int(-1), Hashed::Int(-2)],
        gone: &[],
        wanted: &[
            (Hashed::Int(-1), Found::At(6, 0)),
            (Hashed::Int(-2), Found::At(7, 1)),
            (Hashed::IntUnder(0, 0), Found::Free(0)),
            (Hashed::IntUnder(6, 6), Found::Free(4)),
        ],
    },
    Case {
        name: "keys of one hash stay apart",
        way: Way::Dict,
        class: 3,
        keys: &[Hashed::Text(0, 5), Hashed::Text(1, 5), Hashed::Text(2, 5)],
        gone: &[0],
        // the first one is deleted, and stands in the way of the others
        wanted: &[
            (Hashed::Text(0, 5), Found::Free(0)),
            (Hashed::Text(1, 5), Found::At(2, 1)),
            (Hashed::Text(2, 5), Found::At(3, 2)),
            (Hashed::Text(3, 5), Found::Free(0)),
            (Hashed::IntUnder(5, 5), Found::Free(0)),
        ],
    },
    Case {
        name: "deleted entries are passed",
        way: Way::Dict,
        class: 3,
        keys: &[
            Hashed::IntUnder(0, 0),
            Hashed::IntUnder(8, 8),
            Hashed::IntUnder(16, 16),
            Hashed::IntUnder(24, 24),
            Hashed::IntUnder(32, 32),
        ],
        gone: &[1, 2],
        wanted: &[
            (Hashed::IntUnder(0, 0), Found::At(0, 0)),
            (Hashed::IntUnder(8, 8), Found::Free(4)),
            (Hashed::IntUnder(16, 16), Found::Free(4)),
            (Hashed::IntUnder(24, 24), Found::At(7, 3)),
            (Hashed::IntUnder(32, 32), Found::At(2, 4)),
            (Hashed::IntUnder(40, 40), Found::Free(3)),
        ],
    },
    Case {
        name: "a set tries nine slots after a position",
        way: Way::Set,
        class: 4,
        keys: &[
            Hashed::Text(0, 0),
            Hashed::Text(1, 0),
            Hashed::Text(2, 0),
            Hashed::Text(3, 0),
            Hashed::Text(4, 0),
            Hashed::Text(5, 0),
            Hashed::Text(6, 0),
            Hashed::Text(7, 0),
            Hashed::Text(8, 0),
        ],
        gone: &[0, 4],
        wanted: &[
            (Hashed::Text(8, 0), Found::At(8, 8)),
            (Hashed::Text(4, 0), Found::Free(9)),
            (Hashed::Text(9, 0), Found::Free(9)),
            (Hashed::Text(0, 16), Found::Free(9)),
        ],
    },
    Case {
        name: "after a full run a set goes on",
        way: Way::Set,
        class: 5,
        keys: &[
            Hashed::Text(0, 0),
            Hashed::Text(1, 0),
            Hashed::Text(2, 0),
            Hashed::Text(3, 0),
            Hashed::Text(4, 0),
            Hashed::Text(5, 0),
            Hashed::Text(6, 0),
            Hashed::Text(7, 0),
            Hashed::Text(8, 0),
            Hashed::Text(9, 0),
            Hashed::Text(10, 0),
            Hashed::Text(11, 0),
        ],
        gone: &[9],
        // near the table's end a position has no run
        wanted: &[
            (Hashed::Text(9, 0), Found::Free(12)),
            (Hashed::Text(10, 0), Found::At(10, 10)),
            (Hashed::Text(11, 0), Found::At(11, 11)),
            (Hashed::Text(12, 0), Found::Free(12)),
            (Hashed::Text(13, 31), Found::Free(31)),
            (Hashed::Text(12, 30), Found::Free(30)),
        ],
    },
    Case {
        name: "integers collide in a dict",
        way: Way::Dict,
        class: 5,
        keys: &[
            Hashed::IntUnder(1, 1),
            Hashed::IntUnder(33, 33),
            Hashed::IntUnder(65, 65),
            Hashed::Int(-1),
            Hashed::Int(-2),
            Hashed::Int(2305843009213693951),
            Hashed::IntUnder(0, 0),
        ],
        gone: &[1],
        wanted: &[
            (Hashed::IntUnder(1, 1), Found::At(1, 0)),
            (Hashed::IntUnder(33, 33), Found::Free(4)),
            (Hashed::IntUnder(65, 65), Found::At(8, 2)),
            (Hashed::Int(-1), Found::At(30, 3)),
            (Hashed::Int(-2), Found::At(22, 4)),
            (Hashed::Int(2305843009213693951), Found::At(0, 5)),
            (Hashed::IntUnder(0, 0), Found::At(6, 6)),
            (Hashed::IntUnder(97, 97), Found::Free(9)),
        ],
    },
    Case {
        name: "integers collide in a set",
        way: Way::Set,
        class: 6,
        keys: &[
            Hashed::IntUnder(60, 60),
            Hashed::IntUnder(124, 124),
            Hashed::IntUnder(188, 188),
            Hashed::Int(-3),
            Hashed::IntUnder(3, 3),
            Hashed::IntUnder(2305843009213693954, 3),
        ],
        gone: &[],
        wanted: &[
            (Hashed::IntUnder(60, 60), Found::At(60, 0)),
            (Hashed::IntUnder(124, 124), Found::At(48, 1)),
            (Hashed::IntUnder(188, 188), Found::At(50, 2)),
            (Hashed::Int(-3), Found::At(61, 3)),
            (Hashed::IntUnder(3, 3), Found::At(3, 4)),
            (Hashed::IntUnder(2305843009213693954, 3), Found::At(4, 5)),
            (Hashed::IntUnder(252, 252), Found::Free(52)),
        ],
    },
];

#[test]
fn searches_end_as_worked_out(rt: HostRuntime) -> Result<(), Fail> {
    for case in &SEARCHES {
        check(&rt, case)?;
    }
    Ok(())
}

// In words that are no table every slot may be used.
#[test]
fn a_walk_may_be_spent(rt: HostRuntime) -> Result<(), Fail> {
    let mask = mask_of(3);
    let mut words = empty_table(rt.alloc(), mask)?;
    assert!(rt; words.len() > 10);
    for slot in 2..10usize {
        words[slot] = 1;
    }
    let found = find_in(&rt, &mut words, Way::Dict, mask, Key::Int(0), 0);
    assert_eq!(rt; found, Found::Spent);
    let found = find_in(&rt, &mut words, Way::Set, mask, Key::Int(0), 0);
    assert_eq!(rt; found, Found::Spent);
    Ok(())
}

fn find_again<L: Ledger>(rt: &impl Abort, words: &mut [u64], blank: Blank)
    requires name { blank.name ≡ L.name }
    requires parts { (blank.parts ≡ L.parts) × (L.parts ≡ 1) }
{
    let mask = mask_of(3);
    assert!(rt; words.len() as u64 == size_of(mask), "no table");
    let mut steps: Steps<L> = Steps::new(blank);
    let mut walk = Walk::new(Way::Dict, 5, mask);
    let mut list = ListWords { words, mask };
    let found = list.find_live(&mut walk, text(0), &mut steps);
    assert_eq!(rt; found, Found::Free(5));
    list.put_entry(0, 3, 0);
    list.put_entry(0, 2, kind_of(text(0)));
    list.put_index(5, 1);
    let found = list.find_live(&mut walk, text(0), &mut steps);
    assert_eq!(rt; found, Found::At(5, 0));
    let found = list.find_live(&mut walk, text(0), &mut steps);
    assert_eq!(rt; found, Found::Free(2));
}

// Another thread may put a key where a search ended: a further search on the same walk finds it.
#[test]
fn a_further_search_loads_the_slot_again(rt: HostRuntime) -> Result<(), Fail> {
    let mut words = empty_table(rt.alloc(), mask_of(3))?;
    find_again::<Brand>(&rt, &mut words, Blank::new(1));
    Ok(())
}

fn find_three_times<L: Ledger>(rt: &impl Abort, words: &mut [u64], blank: Blank)
    requires name { blank.name ≡ L.name }
    requires parts { (blank.parts ≡ L.parts) × (L.parts ≡ 1) }
{
    let mask = mask_of(3);
    assert!(rt; words.len() as u64 == size_of(mask), "no table");
    let mut steps: Steps<L> = Steps::new(blank);
    let mut walk = Walk::new(Way::Dict, 5, mask);
    let mut list = ListWords { words, mask };
    let found = find(&mut list, &mut walk, text(0), &mut steps);
    assert_eq!(rt; found, Found::Was(5, 0));
    assert_eq!(rt; walk.count(), 1);
    let found = find(&mut list, &mut walk, text(0), &mut steps);
    assert_eq!(rt; found, Found::Free(3));
    assert_eq!(rt; walk.count(), 2);
    let found = find(&mut list, &mut walk, text(0), &mut steps);
    assert_eq!(rt; found, Found::Free(3));
    assert_eq!(rt; walk.count(), 2);
}

/// Two keys of one hash, of which the first is deleted.
const FIRST_GONE: Case = Case {
    name: "the first key is deleted",
    way: Way::Dict,
    class: 3,
    keys: &[Hashed::Text(0, 5), Hashed::Text(1, 5)],
    gone: &[0],
    wanted: &[],
};

// A deleted entry of the key ends a search, and a further one goes on after it: past another key's
// entry, to a slot never used, at which the next one passes nothing.
#[test]
fn a_search_ends_at_a_deleted_entry_of_its_key(rt: HostRuntime) -> Result<(), Fail> {
    let mut words = check(&rt, &FIRST_GONE)?;
    find_three_times::<Brand>(&rt, &mut words, Blank::new(1));
    Ok(())
}

/// Rebuilds a table into an empty one, and answers how many entries there are.
fn rebuild_into<'a>(
    rt: &impl Abort,
    from: &'a [u64],
    from_mask: u64,
    words: &'a mut [u64],
    mask: u64,
    old_fill: u64,
) -> u64
    requires { (from_mask < 64) × IsMask mask × (mask < 64) }
{
    assert!(rt; from.len() as u64 == size_of(from_mask), "no table");
    assert!(rt; words.len() as u64 == size_of(mask), "no table");
    assert!(rt; old_fill <= room_of(Way::Dict, from_mask), "no entry");
    let mut both = ListMove {
        from,
        from_mask,
        words,
        mask,
    };
    both.rebuild(Way::Dict, old_fill)
}

/// Checks the words of an entry from its key's kind on.
fn check_entry(rt: &impl Abort, words: &mut [u64], mask: u64, place: u64, row: &[u64; 5])
    requires { mask < 64 }
{
    for (word, want) in row.iter().enumerate() {
        let got = word_of(rt, words, mask, place, word as u64 + 2);
        assert_eq!(rt; got, *want, "word {word} of {place}");
    }
}

/// A table of class 3 before it is rebuilt.
const OLD: Case = Case {
    name: "before it is rebuilt",
    way: Way::Dict,
    class: 3,
    keys: &[
        Hashed::IntUnder(0, 0),
        Hashed::IntUnder(8, 8),
        Hashed::Text(3, 5),
        Hashed::IntUnder(16, 16),
        Hashed::Int(-1),
    ],
    gone: &[1, 3],
    wanted: &[(Hashed::IntUnder(0, 0), Found::At(0, 0))],
};

/// The table that it is rebuilt into: key kinds, payloads, value kinds, values, serials, which are those of places 0, 2
/// and 4, in this order.
const NEW_ENTRIES: [[u64; 5]; 3] = [
    [1, 0, 2, 7, 100],
    [2, 3, 2, 7, 102],
    [1, 18446744073709551615, 2, 7, 104],
];

/// Searches in it.
const NEW_SEARCHES: [(Hashed, Found); 5] = [
    (Hashed::IntUnder(0, 0), Found::At(0, 0)),
    (Hashed::IntUnder(8, 8), Found::Free(8)),
    (Hashed::Text(3, 5), Found::At(5, 1)),
    (Hashed::IntUnder(16, 16), Found::Free(1)),
    (Hashed::Int(-1), Found::At(14, 2)),
];

#[test]
fn a_rebuilt_table_has_no_deleted_entry(rt: HostRuntime) -> Result<(), Fail> {
    let small = mask_of(3);
    let large = mask_of(4);
    let old = check(&rt, &OLD)?;
    let mut new = empty_table(rt.alloc(), large)?;
    let fill = rebuild_into(&rt, &old, small, &mut new, large, 5);
    assert_eq!(rt; fill, 3);
    for (place, row) in NEW_ENTRIES.iter().enumerate() {
        check_entry(&rt, &mut new, large, place as u64, row);
    }
    check_searches(&rt, &mut new, Way::Dict, large, &NEW_SEARCHES, "rebuilt");
    Ok(())
}
