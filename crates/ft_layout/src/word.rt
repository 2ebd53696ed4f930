//! The numbers of words in a block, a table's header, an entry and an item, by name. Whoever reads or writes a single word
//! names it so.

/// Which word of a container's block is which.
pub mod block_word {
    /// The lock: 0, or the number of the pass that holds it plus 1.
    pub const LOCK: u64 = 0;
    /// The version, odd while the holder writes.
    pub const VERSION: u64 = 1;
    /// The root: 0, or the table's class and number.
    pub const ROOT: u64 = 2;
    /// How many pairs, elements or items there are.
    pub const USED: u64 = 3;
    /// How many entries of the table were used, deleted ones among them.
    pub const FILL: u64 = 4;
    /// The serial that is drawn next.
    pub const NEXT: u64 = 5;
}

/// Which word of a table's header is which; the other is 0.
pub mod table_word {
    /// The goal: the write number that a table that was given up waits for.
    pub const GOAL: u64 = 1;
}

/// Which word of an entry is which.
pub mod entry_word {
    /// The version, 0 until entries have one.
    pub const VERSION: u64 = 0;
    /// The hash of the key.
    pub const HASH: u64 = 1;
    /// The kind of the key, which tells whether it is there.
    pub const KEY_KIND: u64 = 2;
    /// The payload of the key.
    pub const KEY: u64 = 3;
    /// The kind of the value.
    pub const VALUE_KIND: u64 = 4;
    /// The payload of the value.
    pub const VALUE: u64 = 5;
    /// The serial.
    pub const SERIAL: u64 = 6;
}

/// Which word of an item is which.
pub mod item_word {
    /// The version, 0 until items have one.
    pub const VERSION: u64 = 0;
    /// The kind of the value.
    pub const VALUE_KIND: u64 = 1;
    /// The payload of the value.
    pub const VALUE: u64 = 2;
}
