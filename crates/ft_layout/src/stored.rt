//! Stored values as a kind and a payload, for entries and items: each value, box and nothing at all has
//! one kind and one payload, and no other two words stand for any of them.

ghost use Rattle.std.specs.Prelude.{◌≡◌, ◌↔◌, ℕ, Some};
ghost use Rattle.ft_layout.specs.declared.slot.Stored.TheVariants.{Plain};
ghost use Rattle.ft_layout.specs.Words.{stored_kind, stored_payload, FitsStored, IsStored};
ghost use Rattle.ft_model.specs.declared.data.Value.{Value};

use crate::key::string_of;
use crate::limit::{PASSES, PLACES};
use crate::slot::{Ref, Stored};
use ft_model::{Sym, Value};

/// The kind of an entry or item that stores nothing.
const EMPTY: u64 = 0;
/// The kind of `None`.
const NOTHING: u64 = 1;
/// The kind of an integer.
const INT: u64 = 2;
/// The kind of a string.
const TEXT: u64 = 3;
/// The kind of a box.
const BOX: u64 = 4;

/// What a pass counts for in the payload of a box, beside the place.
const PASS_STEP: u64 = 65536;

/// The kind word of what is stored.
pub fn stored_kind_of(stored: Stored) -> u64
    ensures { result ≡ stored_kind stored }
{
    match stored {
        Stored::Empty => EMPTY,
        Stored::Plain(Value::Nothing) => NOTHING,
        Stored::Plain(Value::Int(_)) => INT,
        Stored::Plain(Value::Text(_)) => TEXT,
        Stored::Boxed(_) => BOX,
    }
}

/// The payload word of what is stored: an integer's two's complement, a string's number, or a box's
/// pass and place; 0 where that is nothing or `None`.
pub fn stored_payload_of(stored: Stored) -> u64
    requires { FitsStored stored }
    ensures { result ≡ stored_payload stored }
{
    match stored {
        Stored::Empty | Stored::Plain(Value::Nothing) => 0,
        Stored::Plain(Value::Int(integer)) => integer.cast_unsigned(),
        Stored::Plain(Value::Text(Sym(number))) => u64::from(number),
        Stored::Boxed(Ref { pass, place }) => u64::from(pass) * PASS_STEP + u64::from(place),
    }
}

/// What a kind and a payload store, `None` exactly where they are those of nothing that can be stored.
#[inline(always)]
pub(crate) fn stored_of(kind: u64, payload: u64) -> Option<Stored>
    ensures { (stored : Stored) → IsStored kind payload stored ↔ (result ≡ Some stored) }
{
    match kind {
        EMPTY if payload == 0 => Some(Stored::Empty),
        NOTHING if payload == 0 => Some(Stored::Plain(Value::Nothing)),
        INT => Some(Stored::Plain(Value::Int(payload.cast_signed()))),
        TEXT => Some(Stored::Plain(Value::Text(string_of(payload)?))),
        BOX => boxed_of(payload),
        _ => None,
    }
}

/// The box that a payload names.
fn boxed_of(payload: u64) -> Option<Stored>
    ensures { (stored : Stored) → IsStored 4 payload stored ↔ (result ≡ Some stored) }
{
    let pass = u32::try_from(payload / PASS_STEP).ok()?;
    let place = (payload % PASS_STEP) as u32;
    (pass < PASSES && place < PLACES).then_some(Stored::Boxed(Ref { pass, place }))
}

/// The value that is stored in place, if one is.
#[inline(always)]
fn plain_of(stored: Stored) -> Option<Value>
    ensures { (value : Value) → (stored ≡ Plain value) ↔ (result ≡ Some value) }
{
    match stored {
        Stored::Plain(value) => Some(value),
        Stored::Empty | Stored::Boxed(_) => None,
    }
}

/// The value that a kind and a payload stand for; `None` where they stand for a box, for nothing, or for nothing that
/// can be stored.
#[inline(always)]
pub fn value_of(kind: u64, payload: u64) -> Option<Value>
    ensures { (value : Value) → IsStored kind payload (Plain value) ↔ (result ≡ Some value) }
{
    match stored_of(kind, payload) {
        Some(stored) => plain_of(stored),
        None => None,
    }
}
