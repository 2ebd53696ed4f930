//! Reads the calls of the tables. The containers are the dicts d and e, the lists l and m, the sets s
//! and t and the deques q, r and p, the cursors a, b and c, and the strings 'a' to 'z'.
use ft_model::{Call, DequeCall, DictCall, Key, ListCall, SetCall, Sym, Value};

pub(super) fn read_call(text: &str) -> Option<Call> {
    let mut words = text.split(' ');
    let word = words.next()?;
    if word == "dump" {
        return Some(Call::Dump);
    }
    if word == "await" {
        return Some(Call::Await {
            thread: 0,
            index: 1,
        });
    }
    let name = words.next()?;
    let first = words.next().unwrap_or("");
    let second = words.next().unwrap_or("");
    if word == "next" {
        return Some(Call::Next {
            cursor: place(name)?,
        });
    }
    let container = place(name)?;
    match name {
        "d" | "e" => Some(Call::Dict {
            container,
            call: read_dict_call(word, first, second)?,
        }),
        "l" | "m" => Some(Call::List {
            container,
            call: read_list_call(word, first, second)?,
        }),
        "s" | "t" => Some(Call::Set {
            container,
            call: read_set_call(word, first)?,
        }),
        _ => Some(Call::Deque {
            container,
            call: read_deque_call(word, first)?,
        }),
    }
}

fn place(name: &str) -> Option<u32> {
    match name {
        "d" | "a" => Some(0),
        "e" | "b" => Some(1),
        "l" | "c" => Some(2),
        "m" => Some(3),
        "s" => Some(4),
        "t" => Some(5),
        "q" => Some(6),
        "r" => Some(7),
        "p" => Some(8),
        _ => None,
    }
}

fn read_dict_call(word: &str, first: &str, second: &str) -> Option<DictCall> {
    match word {
        "popitem" => Some(DictCall::PopItem),
        "len" => Some(DictCall::Len),
        "items" => Some(DictCall::Items),
        "clear" => Some(DictCall::Clear),
        "update" | "copyto" | "eq" | "iter" | "riter" => read_dict_place(word, place(first)?),
        "keysand" | "keyssub" | "keysor" | "keysxor" => read_dict_view(word, place(first)?),
        "set" | "getd" | "popd" | "setdefault" | "itemshas" => {
            read_dict_pair(word, key(first)?, value(second)?)
        }
        _ => read_dict_key(word, key(first)?),
    }
}

/// A call on a dict that names another dict or a cursor.
fn read_dict_place(word: &str, other: u32) -> Option<DictCall> {
    match word {
        "update" => Some(DictCall::Update { other }),
        "copyto" => Some(DictCall::CopyTo { other }),
        "eq" => Some(DictCall::Eq { other }),
        "iter" => Some(DictCall::Iter { cursor: other }),
        "riter" => Some(DictCall::Reversed { cursor: other }),
        _ => None,
    }
}

/// A call on the keys of a dict and of another.
fn read_dict_view(word: &str, other: u32) -> Option<DictCall> {
    match word {
        "keysand" => Some(DictCall::KeysAnd { other }),
        "keyssub" => Some(DictCall::KeysSub { other }),
        "keysor" => Some(DictCall::KeysOr { other }),
        "keysxor" => Some(DictCall::KeysXor { other }),
        _ => None,
    }
}

/// A call on a dict that names a key and a value.
fn read_dict_pair(word: &str, key: Key, value: Value) -> Option<DictCall> {
    let default = value;
    match word {
        "set" => Some(DictCall::Set { key, value }),
        "getd" => Some(DictCall::GetOr { key, default }),
        "popd" => Some(DictCall::PopOr { key, default }),
        "setdefault" => Some(DictCall::SetDefault { key, default }),
        "itemshas" => Some(DictCall::ItemsHas { key, value }),
        _ => None,
    }
}

/// A call on a dict that names a key.
fn read_dict_key(word: &str, key: Key) -> Option<DictCall> {
    match word {
        "get" => Some(DictCall::Get { key }),
        "del" => Some(DictCall::Del { key }),
        "pop" => Some(DictCall::Pop { key }),
        "has" => Some(DictCall::Has { key }),
        _ => None,
    }
}

fn read_list_call(word: &str, first: &str, second: &str) -> Option<ListCall> {
    match word {
        "pop" => Some(ListCall::Pop {
            index: integer(first),
        }),
        "reverse" => Some(ListCall::Reverse),
        "clear" => Some(ListCall::Clear),
        "len" => Some(ListCall::Len),
        "items" => Some(ListCall::Items),
        "extend" => Some(ListCall::Extend {
            other: place(first)?,
        }),
        "eq" => Some(ListCall::Eq {
            other: place(first)?,
        }),
        "iter" => Some(ListCall::Iter {
            cursor: place(first)?,
        }),
        "riter" => Some(ListCall::Reversed {
            cursor: place(first)?,
        }),
        "get" | "del" | "insert" | "set" | "slice" => {
            read_list_index(word, integer(first)?, second)
        }
        _ => read_list_value(word, value(first)?),
    }
}

/// A call on a list that names an index.
fn read_list_index(word: &str, index: i64, second: &str) -> Option<ListCall> {
    match word {
        "get" => Some(ListCall::Get { index }),
        "del" => Some(ListCall::Del { index }),
        "insert" => Some(ListCall::Insert {
            index,
            value: value(second)?,
        }),
        "set" => Some(ListCall::Set {
            index,
            value: value(second)?,
        }),
        "slice" => Some(ListCall::Slice {
            start: index,
            end: integer(second)?,
        }),
        _ => None,
    }
}

/// A call on a list that names a value.
fn read_list_value(word: &str, value: Value) -> Option<ListCall> {
    match word {
        "append" => Some(ListCall::Append { value }),
        "remove" => Some(ListCall::Remove { value }),
        "index" => Some(ListCall::Index { value }),
        "count" => Some(ListCall::Count { value }),
        "has" => Some(ListCall::Has { value }),
        _ => None,
    }
}

fn read_set_call(word: &str, first: &str) -> Option<SetCall> {
    match word {
        "pop" => Some(SetCall::Pop),
        "len" => Some(SetCall::Len),
        "items" => Some(SetCall::Items),
        "clear" => Some(SetCall::Clear),
        "add" => Some(SetCall::Add { key: key(first)? }),
        "discard" => Some(SetCall::Discard { key: key(first)? }),
        "remove" => Some(SetCall::Remove { key: key(first)? }),
        "has" => Some(SetCall::Has { key: key(first)? }),
        _ => read_set_place(word, place(first)?),
    }
}

/// A call on a set that names another set or a cursor.
fn read_set_place(word: &str, other: u32) -> Option<SetCall> {
    match word {
        "eq" => Some(SetCall::Eq { other }),
        "or" => Some(SetCall::Or { other }),
        "and" => Some(SetCall::And { other }),
        "sub" => Some(SetCall::Sub { other }),
        "xor" => Some(SetCall::Xor { other }),
        "subset" => Some(SetCall::Subset { other }),
        "disjoint" => Some(SetCall::Disjoint { other }),
        "iter" => Some(SetCall::Iter { cursor: other }),
        _ => None,
    }
}

fn read_deque_call(word: &str, first: &str) -> Option<DequeCall> {
    match word {
        "pop" => Some(DequeCall::Pop),
        "popleft" => Some(DequeCall::PopLeft),
        "clear" => Some(DequeCall::Clear),
        "len" => Some(DequeCall::Len),
        "items" => Some(DequeCall::Items),
        "rotate" => Some(DequeCall::Rotate {
            steps: integer(first)?,
        }),
        "get" => Some(DequeCall::Get {
            index: integer(first)?,
        }),
        "extend" | "extendleft" | "iter" => read_deque_place(word, place(first)?),
        _ => read_deque_value(word, value(first)?),
    }
}

/// A call on a deque that names another deque or a cursor.
fn read_deque_place(word: &str, other: u32) -> Option<DequeCall> {
    match word {
        "extend" => Some(DequeCall::Extend { other }),
        "extendleft" => Some(DequeCall::ExtendLeft { other }),
        "iter" => Some(DequeCall::Iter { cursor: other }),
        _ => None,
    }
}

/// A call on a deque that names a value.
fn read_deque_value(word: &str, value: Value) -> Option<DequeCall> {
    match word {
        "append" => Some(DequeCall::Append { value }),
        "appendleft" => Some(DequeCall::AppendLeft { value }),
        "has" => Some(DequeCall::Has { value }),
        _ => None,
    }
}

fn integer(text: &str) -> Option<i64> {
    text.parse().ok()
}

fn key(text: &str) -> Option<Key> {
    match text.as_bytes() {
        [b'\'', letter @ b'a'..=b'z', b'\''] => Some(Key::Text(Sym((letter - b'a') as u32))),
        _ => Some(Key::Int(integer(text)?)),
    }
}

fn value(text: &str) -> Option<Value> {
    if text == "None" {
        return Some(Value::Nothing);
    }
    Some(key(text)?.into_value())
}
