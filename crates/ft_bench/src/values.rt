//! The integers that a workload stores, and whether an answer is one of them.

use ft_model::{Reply, Value};

/// The integers that a workload stores at keys and as items, by their bits: some of them are those of the key, and some
/// those of a serial, so that a value is seldom set where it stands already. Which bits these are is read where a value is
/// made, so that a call can't be compiled for small integers alone.
#[derive(Clone, Copy, Debug)]
pub struct Values {
    /// The bits that are set in all of them.
    least: i64,
    /// Which of a key's bits they have, in the same places.
    keys: u32,
    /// Which of a serial's bits they have.
    serials: u32,
    /// What the lowest bit of the serial counts in them.
    unit: i64,
    /// The bits that don't depend on the serial.
    fixed: i64,
}

/// Small integers, which lie in the words of the container itself: eight bits, the lower five of which are those of the
/// key, and the others those of the serial.
pub(crate) const SMALL: Values = Values {
    least: 0,
    keys: 31,
    serials: 7,
    unit: 32,
    fixed: -225,
};

/// Integers of 40 bits, which lie in boxes: the highest bit is set, then come 29 of the serial, and the lower ten are the
/// key.
pub(crate) const BOXED: Values = Values {
    least: 549_755_813_888,
    keys: 1023,
    serials: 536_870_911,
    unit: 1024,
    fixed: -549_755_812_865,
};

impl Values {
    /// The value that is stored at a key below 1,024, or as the item at an index.
    #[inline(always)]
    pub(crate) fn at(&self, key: u32, serial: u32) -> Value {
        let serial = i64::from(serial & self.serials).wrapping_mul(self.unit);
        Value::Int(self.least | serial | i64::from(key & self.keys))
    }

    /// Whether the reply is a value that was stored at that key, whatever the serial was.
    #[inline(always)]
    pub(crate) fn is_at(&self, key: u32, reply: &Reply) -> bool {
        match reply {
            Reply::Value(Value::Int(value)) => {
                (*value ^ i64::from(key & self.keys)) & self.fixed == self.least
            }
            _ => false,
        }
    }
}
