//! How many there may be of what has words in a bank. Makers of banks and readers of scripts keep to these
//! numbers, and the sums of starts then stay below 2^63.

/// How many tables of a class there are at most.
pub const TABLES: u32 = 1024;

/// How many containers there are at most.
pub const CONTAINERS: u32 = 256;
/// How many passes there are at most.
pub const PASSES: u32 = 64;
/// How many places the heap of a pass has at most.
pub const PLACES: u32 = 4096;
