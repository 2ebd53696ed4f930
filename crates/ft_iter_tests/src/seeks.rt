//! The entry that follows a serial, in a table of eight slots and five entries that is written out by hand:
//! two of its entries were deleted.
ghost use Rattle.std.specs.Prelude.{◌≡◌, ◌≤◌, length};
ghost use Rattle.ft_layout.specs.Tables.{table_length};

use ft_iter::seek;
use ft_keys::{ListWords, Steps, Words};
use std::alloc::AllocError;
use std::marker::Brand;
use std::process::Abort;
use std::sync::ledger::{Blank, Ledger};
use std::test::Fail;

/// The last slot of the table.
const MASK: u64 = 7;

/// How many words it has: three, seven more index words than one, and eight for each entry.
const SIZE: u64 = 50;

/// Writes the kind and the serial of an entry.
fn put(rt: &impl Abort, words: &mut [u64], place: u64, kind: u64, serial: u64) {
    assert!(rt; words.len() as u64 == SIZE, "no table");
    assert!(rt; place < 5, "no entry");
    let mut list = ListWords { words, mask: MASK };
    list.put_entry(place, 2, kind);
    list.put_entry(place, 6, serial);
}

fn seek_by<L: Ledger>(words: &mut [u64], fill: u64, after: Option<u64>, blank: Blank) -> Option<u64>
    requires length { length words.old ≡ table_length 7 }
    requires fill { fill ≤ 5 }
    requires name { blank.name ≡ L.name }
    requires parts { (blank.parts ≡ L.parts) × (L.parts ≡ 1) }
{
    let mut steps: Steps<L> = Steps::new(blank);
    let mut list = ListWords { words, mask: MASK };
    seek(&mut list, fill, after, &mut steps)
}

fn seek_in(rt: &impl Abort, words: &mut [u64], fill: u64, after: Option<u64>) -> Option<u64> {
    assert!(rt; words.len() as u64 == SIZE, "no table");
    assert!(rt; fill <= 5, "no more entries");
    seek_by::<Brand>(words, fill, after, Blank::new(1))
}

/// What an entry of the table has.
struct Entry {
    place: u64,
    kind: u64,
    serial: u64,
}

const ENTRIES: [Entry; 5] = [
    Entry {
        place: 0,
        kind: 1,
        serial: 3,
    },
    Entry {
        place: 1,
        kind: 3,
        serial: 5,
    },
    Entry {
        place: 2,
        kind: 2,
        serial: 9,
    },
    Entry {
        place: 3,
        kind: 4,
        serial: 12,
    },
    Entry {
        place: 4,
        kind: 1,
        serial: 20,
    },
];

/// A search among that many first entries for the one that follows a serial, and the place that it finds.
struct Seek {
    fill: u64,
    after: Option<u64>,
    found: Option<u64>,
}

const SEEKS: [Seek; 18] = [
    Seek {
        fill: 5,
        after: None,
        found: Some(0),
    },
    Seek {
        fill: 5,
        after: Some(0),
        found: Some(0),
    },
    Seek {
        fill: 5,
        after: Some(2),
        found: Some(0),
    },
    Seek {
        fill: 5,
        after: Some(3),
        found: Some(2),
    },
    Seek {
        fill: 5,
        after: Some(4),
        found: Some(2),
    },
    Seek {
        fill: 5,
        after: Some(5),
        found: Some(2),
    },
    Seek {
        fill: 5,
        after: Some(8),
        found: Some(2),
    },
    Seek {
        fill: 5,
        after: Some(9),
        found: Some(4),
    },
    Seek {
        fill: 5,
        after: Some(12),
        found: Some(4),
    },
    Seek {
        fill: 5,
        after: Some(19),
        found: Some(4),
    },
    Seek {
        fill: 5,
        after: Some(20),
        found: None,
    },
    Seek {
        fill: 5,
        after: Some(u64::MAX),
        found: None,
    },
    Seek {
        fill: 4,
        after: Some(8),
        found: Some(2),
    },
    Seek {
        fill: 4,
        after: Some(9),
        found: None,
    },
    Seek {
        fill: 2,
        after: Some(3),
        found: None,
    },
    Seek {
        fill: 1,
        after: None,
        found: Some(0),
    },
    Seek {
        fill: 0,
        after: None,
        found: None,
    },
    Seek {
        fill: 0,
        after: Some(7),
        found: None,
    },
];

/// The words of the table.
fn filled(rt: &(impl Abort + AllocGlobal)) -> Result<Vec<u64>, AllocError> {
    let mut words = vec![in rt.alloc(); 0u64; 50]?;
    for entry in &ENTRIES {
        put(rt, &mut words, entry.place, entry.kind, entry.serial);
    }
    Ok(words)
}

#[test]
fn the_least_greater_serial_is_found(rt: HostRuntime) -> Result<(), Fail> {
    let mut words = filled(&rt)?;
    for seek in &SEEKS {
        let found = seek_in(&rt, &mut words, seek.fill, seek.after);
        assert_eq!(rt;
            found,
            seek.found,
            "after {:?} of {}",
            seek.after, seek.fill
        );
    }
    Ok(())
}
