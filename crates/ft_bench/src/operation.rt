//! An operation of a thread: the call that it makes, and whether its reply is right.

use crate::values::Values;
use ft_model::{Call, DictCall, Key, ListCall, Reply, SetCall};

/// The container that the threads of a run call on.
pub(crate) const SHARED: u32 = 0;

/// An operation.
#[derive(Clone, Copy, Debug, PartialEq, Eq)]
pub enum Operation {
    /// Gets the value at this key.
    Get(u32),
    /// Sets the value at this key.
    Set(u32),
    /// Gets the item at this index.
    Item(u32),
    /// Appends an item.
    Append(u32),
    /// Adds this element.
    Add(u32),
    /// Discards this element.
    Discard(u32),
    /// Looks this element up.
    Has(u32),
}

/// The integer as a key.
#[inline(always)]
pub(crate) fn key_of(key: u32) -> Key {
    Key::Int(i64::from(key))
}

/// The call of an operation; a value is one of these, with this serial.
#[inline(always)]
pub(crate) fn call_of(operation: Operation, values: &Values, serial: u32) -> Call {
    match operation {
        Operation::Get(key) => on_dict(DictCall::Get { key: key_of(key) }),
        Operation::Set(key) => on_dict(DictCall::Set {
            key: key_of(key),
            value: values.at(key, serial),
        }),
        Operation::Item(index) => on_list(ListCall::Get {
            index: i64::from(index),
        }),
        Operation::Append(key) => on_list(ListCall::Append {
            value: values.at(key, serial),
        }),
        Operation::Add(key) => on_set(SetCall::Add { key: key_of(key) }),
        Operation::Discard(key) => on_set(SetCall::Discard { key: key_of(key) }),
        Operation::Has(key) => on_set(SetCall::Has { key: key_of(key) }),
    }
}

/// A call on the dict.
#[inline(always)]
pub(crate) fn on_dict(call: DictCall) -> Call {
    Call::Dict {
        container: SHARED,
        call,
    }
}

/// A call on the list.
#[inline(always)]
pub(crate) fn on_list(call: ListCall) -> Call {
    Call::List {
        container: SHARED,
        call,
    }
}

/// A call on the set.
#[inline(always)]
pub(crate) fn on_set(call: SetCall) -> Call {
    Call::Set {
        container: SHARED,
        call,
    }
}

/// Whether the reply may be that of the operation, where these are the values.
#[inline(always)]
pub(crate) fn is_right(operation: Operation, values: &Values, reply: &Reply) -> bool {
    match operation {
        Operation::Get(key) | Operation::Item(key) => values.is_at(key, reply),
        Operation::Set(_) | Operation::Append(_) | Operation::Add(_) | Operation::Discard(_) => {
            matches!(reply, Reply::Done)
        }
        Operation::Has(_) => matches!(reply, Reply::Truth(_)),
    }
}
