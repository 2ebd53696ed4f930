//! Replies as plain structs. The numbers are those that the header names: `rez_kind` of a datum, `rez_tag` of a reply,
//! `rez_exception` of what was raised.

use crate::wire::{FtDatum, FtReply};
use ft_facade::Stamp;
use ft_model::{Key, Raise, Reply, Value};

/// The datum of a key.
#[inline(always)]
pub(crate) fn key_datum(key: Key) -> FtDatum {
    match key {
        Key::Int(value) => FtDatum {
            kind: 1,
            pad: 0,
            value,
        },
        Key::Text(sym) => FtDatum {
            kind: 2,
            pad: 0,
            value: i64::from(sym.0),
        },
    }
}

/// The datum of a value.
#[inline(always)]
pub(crate) fn value_datum(value: Value) -> FtDatum {
    match value {
        Value::Nothing => FtDatum {
            kind: 0,
            pad: 0,
            value: 0,
        },
        Value::Int(value) => FtDatum {
            kind: 1,
            pad: 0,
            value,
        },
        Value::Text(sym) => FtDatum {
            kind: 2,
            pad: 0,
            value: i64::from(sym.0),
        },
    }
}

/// The number of an exception, and the class of a MemoryError.
fn raise_numbers(raise: Raise) -> (u32, u64) {
    match raise {
        Raise::NoKey => (1, 0),
        Raise::NoIndex => (2, 0),
        Raise::NoValue => (3, 0),
        Raise::Size => (4, 0),
        Raise::Keys => (5, 0),
        Raise::Memory(class) => (6, u64::from(class)),
        Raise::Over => (7, 0),
        Raise::Heap => (8, 0),
        Raise::Moved => (9, 0),
    }
}

/// A reply with nothing in it but its tag.
#[inline(always)]
pub(crate) fn bare(tag: u32) -> FtReply {
    let none = FtDatum {
        kind: 0,
        pad: 0,
        value: 0,
    };
    FtReply {
        tag,
        raised: 0,
        key: none,
        value: none,
        count: 0,
        stamp: 0,
        wrote: 0,
        waited: 0,
    }
}

/// The reply with its tag and its numbers.
#[inline(always)]
fn numbers_of(reply: &Reply) -> FtReply {
    match reply {
        Reply::Done => bare(0),
        Reply::Value(value) => FtReply {
            value: value_datum(*value),
            ..bare(1)
        },
        Reply::Pair(key, value) => FtReply {
            key: key_datum(*key),
            value: value_datum(*value),
            ..bare(2)
        },
        Reply::Truth(truth) => FtReply {
            count: u64::from(*truth),
            ..bare(3)
        },
        Reply::Count(count) => FtReply {
            count: *count,
            ..bare(4)
        },
        Reply::Dict(pairs) => FtReply {
            count: pairs.len() as u64,
            ..bare(5)
        },
        Reply::List(values) => FtReply {
            count: values.len() as u64,
            ..bare(6)
        },
        Reply::Set(keys) => FtReply {
            count: keys.len() as u64,
            ..bare(7)
        },
        Reply::Stop => bare(8),
        Reply::Entered => bare(9),
        Reply::Kept => bare(10),
        Reply::Suspended(count) => FtReply {
            count: u64::from(*count),
            ..bare(11)
        },
        Reply::World(containers) => FtReply {
            count: containers.len() as u64,
            ..bare(13)
        },
        Reply::Raised(raise) => {
            let (raised, count) = raise_numbers(*raise);
            FtReply {
                raised,
                count,
                ..bare(12)
            }
        }
    }
}

/// The reply with its stamp and the thread that was waited for.
#[inline(always)]
pub(crate) fn reply_of(reply: &Reply, stamp: Stamp, waited: Option<u32>) -> FtReply {
    let waited = match waited {
        Some(thread) => thread.saturating_add(1),
        None => 0,
    };
    FtReply {
        stamp: stamp.number,
        wrote: u32::from(stamp.wrote),
        waited,
        ..numbers_of(reply)
    }
}
