//! Which calls put a value in a box, asked as a program.
ghost use Rattle.std.specs.Prelude.{◌≡◌};
ghost use Rattle.ft_model.specs.Boxings.{newly_stored, stored_in_dict, stored_in_list, stored_in_deque, boxes};
ghost use Rattle.ft_model.specs.Worlds.{dict_at};

use crate::call::{Call, DequeCall, DictCall, ListCall};
use crate::content::Content;
use crate::data::Value;
use crate::world::World;

impl Value {
    ghost use Rattle.ft_model.specs.Boxings.{is_boxed};

    /// Whether the value is stored in a box: an integer below -5 or above 256, or a string.
    pub fn is_boxed(self) -> bool
        ensures { result ≡ is_boxed self }
    {
        match self {
            Value::Nothing => false,
            Value::Int(integer) => integer < -5 || integer > 256,
            Value::Text(_) => true,
        }
    }
}

/// Whether a call that is made there would put a value in a box. Keys and elements are never boxed.
pub fn boxes(world: &World, call: &Call) -> bool
    ensures { result ≡ boxes world.now call.now }
{
    match newly_stored(world, call) {
        Some(value) => value.is_boxed(),
        None => false,
    }
}

/// The value that a call stores which it did not find in a container.
fn newly_stored(world: &World, call: &Call) -> Option<Value>
    ensures { result ≡ newly_stored world.now call.now }
{
    match *call {
        Call::Dict { container, call } => stored_in_dict(world, container, &call),
        Call::List { call, .. } => stored_in_list(&call),
        Call::Deque { call, .. } => stored_in_deque(&call),
        Call::Set { .. }
        | Call::Next { .. }
        | Call::Begin { .. }
        | Call::End
        | Call::Quiesce
        | Call::Await { .. }
        | Call::Dump => None,
    }
}

/// The value that a call of the dict at a place stores. A default is stored only where the key isn't
/// there.
fn stored_in_dict(world: &World, place: u32, call: &DictCall) -> Option<Value>
    ensures { result ≡ stored_in_dict (dict_at world.now place) call.now }
{
    match *call {
        DictCall::Set { value, .. } => Some(value),
        DictCall::SetDefault { key, default } => match world.contents().get(place as usize) {
            Some(Content::Dict(dict)) if dict.has(key) => None,
            _ => Some(default),
        },
        _ => None,
    }
}

/// The value that a call of a list stores.
fn stored_in_list(call: &ListCall) -> Option<Value>
    ensures { result ≡ stored_in_list call.now }
{
    match *call {
        ListCall::Append { value } | ListCall::Insert { value, .. } | ListCall::Set { value, .. } =>
            Some(value),
        _ => None,
    }
}

/// The value that a call of a deque stores.
fn stored_in_deque(call: &DequeCall) -> Option<Value>
    ensures { result ≡ stored_in_deque call.now }
{
    match *call {
        DequeCall::Append { value } | DequeCall::AppendLeft { value } => Some(value),
        _ => None,
    }
}
