//! Keys as a kind and a payload, there or deleted, for entries and for searches, which compare the two
//! words alone: two keys are the same exactly where both words are.

ghost use Rattle.std.specs.Prelude.{◌≡◌, ◌↔◌, ℕ, Some};
ghost use Rattle.ft_layout.specs.Words.{key_kind, gone_kind, key_payload, IsKey, IsGoneKey, IsText};

use ft_model::{Key, Sym};

/// The kind of an entry that was never used.
pub(crate) const NEVER: u64 = 0;
/// The kind of an integer key that is there.
pub(crate) const INT: u64 = 1;
/// The kind of a string key that is there.
pub(crate) const TEXT: u64 = 2;
/// The kind of an integer key that was deleted.
pub(crate) const GONE_INT: u64 = 3;
/// The kind of a string key that was deleted.
pub(crate) const GONE_TEXT: u64 = 4;

/// The kind word of a key that is there.
pub fn kind_of(key: Key) -> u64
    ensures { result ≡ key_kind key }
{
    match key {
        Key::Int(_) => INT,
        Key::Text(_) => TEXT,
    }
}

/// The kind word of a key that was deleted.
pub fn gone_kind_of(key: Key) -> u64
    ensures { result ≡ gone_kind key }
{
    match key {
        Key::Int(_) => GONE_INT,
        Key::Text(_) => GONE_TEXT,
    }
}

/// The payload word of a key: an integer's two's complement, or a string's number.
pub fn payload_of(key: Key) -> u64
    ensures { result ≡ key_payload key }
{
    match key {
        Key::Int(integer) => integer.cast_unsigned(),
        Key::Text(Sym(number)) => u64::from(number),
    }
}

/// The key of this kind with this payload, where there is one.
pub fn key_of(kind: u64, payload: u64) -> Option<Key>
    ensures { (key : Key) → IsKey kind payload key ↔ (result ≡ Some key) }
{
    match kind {
        INT => Some(Key::Int(payload.cast_signed())),
        TEXT => Some(Key::Text(string_of(payload)?)),
        _ => None,
    }
}

/// The deleted key of this kind with this payload, where there is one.
pub(crate) fn gone_key_of(kind: u64, payload: u64) -> Option<Key>
    ensures { (key : Key) → IsGoneKey kind payload key ↔ (result ≡ Some key) }
{
    match kind {
        GONE_INT => key_of(INT, payload),
        GONE_TEXT => key_of(TEXT, payload),
        _ => None,
    }
}

/// The string with this number, where 32 bits can represent it.
pub(crate) fn string_of(payload: u64) -> Option<Sym>
    ensures { (sym : Sym) → IsText payload sym ↔ (result ≡ Some sym) }
{
    Some(Sym(u32::try_from(payload).ok()?))
}
