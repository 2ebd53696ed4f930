//! The limits of what is read and made, and the size of pieces: each stands here once.

/// The most bytes that a script may have.
pub(crate) const SCRIPT_LIMIT: usize = 4_194_304;

/// The most bytes that a script and a transcript may have together.
pub(crate) const INPUT_LIMIT: usize = 67_108_864;

/// How many bytes are asked for at once, at most, and the room of the buffer of what is written.
pub(crate) const PIECE: usize = 65_536;

/// The most calls that a script is made of.
pub(crate) const MOST_MADE: u32 = 100_000;
