//! Replies that stand in tables of constants.

use ft_model::{Key, Raise, Reply, Value};

/// A reply with no list in it.
#[derive(Clone, Copy)]
pub(crate) enum Plain {
    Done,
    Value(Value),
    Pair(Key, Value),
    Truth(bool),
    Stop,
    Raised(Raise),
}

/// The reply that it stands for.
pub(crate) fn reply_of(plain: Plain) -> Reply {
    match plain {
        Plain::Done => Reply::Done,
        Plain::Value(value) => Reply::Value(value),
        Plain::Pair(key, value) => Reply::Pair(key, value),
        Plain::Truth(truth) => Reply::Truth(truth),
        Plain::Stop => Reply::Stop,
        Plain::Raised(raise) => Reply::Raised(raise),
    }
}
