//! Keys and values: 64-bit integers, strings by their number in a script, and `None` as a value.

/// A string of a script: its place in the script's list of distinct strings.
#[derive(Clone, Copy, Debug, PartialEq, Eq, Hash)]
pub struct Sym(pub u32);

/// What a dict is looked up by: an integer of 64 bits or a string. Two keys that compare equal are
/// one key (Python manual, Mapping Types), and an integer never equals a string.
#[derive(Clone, Copy, Debug, PartialEq, Eq, Hash)]
pub enum Key {
    /// An integer.
    Int(i64),
    /// A string.
    Text(Sym),
}

impl Key {
    ghost use Rattle.std.specs.Prelude.{◌≡◌};
    ghost use Rattle.ft_model.specs.Keys.{as_value};

    /// The value that the key is.
    pub fn into_value(self) -> Value
        ensures { result ≡ as_value self }
    {
        match self {
            Key::Int(integer) => Value::Int(integer),
            Key::Text(text) => Value::Text(text),
        }
    }
}

/// What a container holds: `None`, an integer of 64 bits or a string.
#[derive(Clone, Copy, Debug, PartialEq, Eq, Hash)]
pub enum Value {
    /// `None`.
    Nothing,
    /// An integer.
    Int(i64),
    /// A string.
    Text(Sym),
}
