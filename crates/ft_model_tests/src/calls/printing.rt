//! Prints replies and contents as Python prints them.
use ft_model::{Content, Key, Raise, Reply, Shown, Value};
use std::alloc::{AllocError, Global};

pub(super) fn print_reply(alloc: Global, reply: &Reply) -> Result<String, AllocError> {
    match reply {
        Reply::Done => String::from_str(alloc, "ok"),
        Reply::Value(value) => print_value(alloc, *value),
        Reply::Pair(key, value) => print_pair(alloc, *key, *value),
        Reply::Truth(true) => String::from_str(alloc, "True"),
        Reply::Truth(false) => String::from_str(alloc, "False"),
        Reply::Count(count) => format!(in alloc; "{count}"),
        Reply::Dict(pairs) => print_pairs(alloc, pairs.as_slice()),
        Reply::List(values) => print_values(alloc, values.as_slice()),
        Reply::Set(keys) => print_keys(alloc, keys.as_slice()),
        Reply::Stop => String::from_str(alloc, "StopIteration"),
        Reply::Entered | Reply::Kept | Reply::Suspended(_) => String::from_str(alloc, "section"),
        Reply::World(all) => print_world(alloc, all.as_slice()),
        Reply::Raised(raise) => String::from_str(alloc, name_of(*raise)),
    }
}

fn name_of(raise: Raise) -> &'static str {
    match raise {
        Raise::NoKey => "KeyError",
        Raise::NoIndex => "IndexError",
        Raise::NoValue => "ValueError",
        Raise::Size => "RuntimeError size",
        Raise::Keys => "RuntimeError keys",
        Raise::Moved => "RuntimeError moved",
        Raise::Memory(_) | Raise::Over | Raise::Heap => "MemoryError",
    }
}

pub(super) fn print_content(alloc: Global, content: &Content) -> Result<String, AllocError> {
    match content {
        Content::Dict(dict) => {
            let pairs: Vec<(Key, Value)> = dict
                .pairs()
                .map(|pair| (pair.key, pair.value))
                .collect(alloc)?;
            print_pairs(alloc, &pairs)
        }
        Content::List(list) => print_values(alloc, list.items()),
        Content::Set(set) => {
            let keys: Vec<Key> = set.elements().map(|element| element.key).collect(alloc)?;
            print_keys(alloc, &keys)
        }
        Content::Deque(deque) => print_values(alloc, &deque.copy_items(alloc)?),
    }
}

/// The names of the containers, in the order of their numbers.
const NAMES: [&str; 9] = ["d", "e", "l", "m", "s", "t", "q", "r", "p"];

fn print_world(alloc: Global, all: &[Shown]) -> Result<String, AllocError> {
    let mut text = String::from_str(alloc, "world")?;
    for (index, (name, shown)) in NAMES.iter().zip(all).enumerate() {
        text.push_str(if index > 0 { "; " } else { " " })?;
        text.push_str(name)?;
        text.push_str(" ")?;
        text.push_str(print_shown(alloc, shown)?.as_str())?;
    }
    Ok(text)
}

fn print_shown(alloc: Global, shown: &Shown) -> Result<String, AllocError> {
    match shown {
        Shown::Dict(pairs) => print_pairs(alloc, pairs.as_slice()),
        Shown::List(values) => print_values(alloc, values.as_slice()),
        Shown::Set(keys) => print_keys(alloc, keys.as_slice()),
    }
}

fn print_pairs(alloc: Global, pairs: &[(Key, Value)]) -> Result<String, AllocError> {
    let mut text = String::from_str(alloc, "{")?;
    for (index, pair) in pairs.iter().enumerate() {
        if index > 0 {
            text.push_str(", ")?;
        }
        text.push_str(print_pair(alloc, pair.0, pair.1)?.as_str())?;
    }
    text.push_str("}")?;
    Ok(text)
}

fn print_values(alloc: Global, values: &[Value]) -> Result<String, AllocError> {
    let mut text = String::from_str(alloc, "[")?;
    for (index, value) in values.iter().enumerate() {
        if index > 0 {
            text.push_str(", ")?;
        }
        text.push_str(print_value(alloc, *value)?.as_str())?;
    }
    text.push_str("]")?;
    Ok(text)
}

fn print_keys(alloc: Global, keys: &[Key]) -> Result<String, AllocError> {
    if keys.is_empty() {
        return String::from_str(alloc, "set()");
    }
    let mut text = String::from_str(alloc, "{")?;
    for (index, key) in keys.iter().enumerate() {
        if index > 0 {
            text.push_str(", ")?;
        }
        text.push_str(print_value(alloc, key.into_value())?.as_str())?;
    }
    text.push_str("}")?;
    Ok(text)
}

fn print_pair(alloc: Global, key: Key, value: Value) -> Result<String, AllocError> {
    let mut text = print_value(alloc, key.into_value())?;
    text.push_str(": ")?;
    text.push_str(print_value(alloc, value)?.as_str())?;
    Ok(text)
}

fn print_value(alloc: Global, value: Value) -> Result<String, AllocError> {
    match value {
        Value::Nothing => String::from_str(alloc, "None"),
        Value::Int(integer) => format!(in alloc; "{integer}"),
        Value::Text(text) => {
            let letter = char::from_u32(text.0.min(25) + 97).unwrap_or('?');
            format!(in alloc; "'{letter}'")
        }
    }
}
