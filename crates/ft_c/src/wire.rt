//! What crosses to C: plain structs of numbers.

/// A value or a key: 0 `None`, 1 an integer, 2 a string by its number.
#[repr(C)]
#[derive(Clone, Copy, Debug, PartialEq, Eq)]
pub struct FtDatum {
    pub kind: u32,
    pub pad: u32,
    pub value: i64,
}

/// A call: which one, its container, the other container or the cursor, its key, its value and its indexes.
#[repr(C)]
#[derive(Clone, Copy, Debug, PartialEq, Eq)]
pub struct FtCall {
    pub op: u32,
    pub container: u32,
    pub other: u32,
    pub pad: u32,
    pub key: FtDatum,
    pub value: FtDatum,
    pub index: i64,
    pub end: i64,
}

/// A reply: what kind of one, the exception if it is one, a key, a value, a count, the stamp, whether it is a write, and
/// the thread that was waited for first plus 1, or 0.
#[repr(C)]
#[derive(Clone, Copy, Debug, PartialEq, Eq)]
pub struct FtReply {
    pub tag: u32,
    pub raised: u32,
    pub key: FtDatum,
    pub value: FtDatum,
    pub count: u64,
    pub stamp: u64,
    pub wrote: u32,
    pub waited: u32,
}

/// How large an engine is, beside the numbers of its tables.
#[repr(C)]
#[derive(Clone, Copy, Debug, PartialEq, Eq)]
pub struct FtSizes {
    pub dicts: u32,
    pub lists: u32,
    pub sets: u32,
    pub sessions: u32,
    pub calls: u32,
    pub cursors: u32,
    pub texts: u32,
    pub heap: u32,
}
