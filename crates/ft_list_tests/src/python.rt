//! Calls on lists of integers, by their names in Python.
use ft_model::{ListCall, Value};

/// A call on a list whose values are integers.
#[derive(Clone, Copy)]
pub(crate) enum Python {
    /// `l.append(v)`.
    Append(i64),
    /// `l.insert(i, v)`.
    Insert(i64, i64),
    /// `l[i]`.
    Get(i64),
    /// `l[i] = v`.
    Set(i64, i64),
    /// `del l[i]`.
    Del(i64),
    /// `l.pop()`.
    Pop,
    /// `l.pop(i)`.
    PopAt(i64),
    /// `l.remove(v)`.
    Remove(i64),
    /// `l.index(v)`.
    Index(i64),
    /// `l.count(v)`.
    Count(i64),
    /// `v in l`.
    Has(i64),
    /// `l.reverse()`.
    Reverse,
    /// `l.extend(m)`.
    Extend(u32),
    /// `l[i:j]`.
    Slice(i64, i64),
    /// `l.clear()`.
    Clear,
    /// `len(l)`.
    Len,
    /// `list(l)`.
    Items,
    /// `l == m`.
    Equals(u32),
}

/// The call as a script has it.
pub(crate) fn call_of(python: Python) -> ListCall {
    match python {
        Python::Append(integer) => ListCall::Append {
            value: Value::Int(integer),
        },
        Python::Insert(index, integer) => ListCall::Insert {
            index,
            value: Value::Int(integer),
        },
        Python::Get(index) => ListCall::Get { index },
        Python::Set(index, integer) => ListCall::Set {
            index,
            value: Value::Int(integer),
        },
        Python::Del(index) => ListCall::Del { index },
        Python::Pop => ListCall::Pop { index: None },
        Python::PopAt(index) => ListCall::Pop { index: Some(index) },
        Python::Remove(integer) => ListCall::Remove {
            value: Value::Int(integer),
        },
        Python::Index(integer) => ListCall::Index {
            value: Value::Int(integer),
        },
        Python::Count(integer) => ListCall::Count {
            value: Value::Int(integer),
        },
        Python::Has(integer) => ListCall::Has {
            value: Value::Int(integer),
        },
        Python::Reverse => ListCall::Reverse,
        Python::Extend(other) => ListCall::Extend { other },
        Python::Slice(start, end) => ListCall::Slice { start, end },
        Python::Clear => ListCall::Clear,
        Python::Len => ListCall::Len,
        Python::Items => ListCall::Items,
        Python::Equals(other) => ListCall::Eq { other },
    }
}
