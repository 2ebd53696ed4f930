//! Whether calls name what a script declares.
ghost use Rattle.ft_model.specs.Calls.{cursor_of_dict, cursor_of_list, cursor_of_set, other_dict, other_list, other_set};
ghost use Rattle.ft_model.specs.Landed.{is_landed_call};
ghost use Rattle.ft_model.specs.Scripts.{AreNamesOf, AreStringsOfDict, AreStringsOfList, AreStringsOfSet, IsCallOf, IsDeclaredAs, IsKeyOf, IsValueOf};
ghost use Rattle.ft_script.specs.declared.forms.Argument.TheVariants as argument;
ghost use Rattle.ft_script.specs.Forms.{dict_form, list_form, set_form};
ghost use Rattle.ft_script.specs.Transcripts.{IsWideArgument, IsWideCall, IsWideKey, IsWideValue};
ghost use Rattle.ft_script.specs.LineWords.{is_wide};
ghost use Rattle.std.specs.List.{AllByRecursion};
ghost use Rattle.std.specs.Prelude.{◌↔◌, ◌≡◌, ◌<◌, ◌^◌, ℕ, true, IsTrue, length};

use ft_model::{Call, DictCall, Key, Kind, ListCall, ScriptParts, SetCall, Value};

/// Whether the call is one that a script may have, and names containers of its kind, cursors below
/// this number and strings of the script.
pub(crate) fn is_call_of(script: &ScriptParts, cursors: usize, call: &Call) -> bool
    ensures declared { IsTrue result ↔ (IsCallOf script.now cursors call.now × (is_landed_call call.now ≡ true)) }
    ensures wide { IsTrue result → IsWideCall call.now }
{
    call.is_landed() && names_declared(script, cursors, call)
}

/// Whether such a call names containers of its kind, cursors below this number and strings of the
/// script.
fn names_declared(script: &ScriptParts, cursors: usize, call: &Call) -> bool
    requires { is_landed_call call.now ≡ true }
    ensures declared { IsTrue result ↔ IsCallOf script.now cursors call.now }
    ensures wide { IsTrue result → IsWideCall call.now }
{
    let strings = script.strings.len();
    match call {
        Call::Dict { container, call } => {
            are_names_of(
                script,
                cursors,
                Kind::Dict,
                *container,
                call.other(),
                call.cursor(),
            ) && are_strings_of_dict(strings, call)
        }
        Call::List { container, call } => {
            are_names_of(
                script,
                cursors,
                Kind::List,
                *container,
                call.other(),
                call.cursor(),
            ) && are_strings_of_list(strings, call)
        }
        Call::Set { container, call } => {
            are_names_of(
                script,
                cursors,
                Kind::Set,
                *container,
                call.other(),
                call.cursor(),
            ) && are_strings_of_set(strings, call)
        }
        Call::Next { cursor } => (*cursor as usize) < cursors,
        Call::Begin { first, second } => {
            let containers = script.containers.len();
            (*first as usize) < containers
                && second.is_none_or(|place| (place as usize) < containers)
        }
        Call::End | Call::Quiesce => true,
        Call::Await { index, .. } => is_call_index(*index),
        Call::Deque { .. } | Call::Dump => false,
    }
}

/// Whether the container at a place is declared, and of that kind; a deque is one whatever bounds it.
fn is_declared_as(script: &ScriptParts, kind: Kind, place: u32) -> bool
    ensures { IsTrue result ↔ IsDeclaredAs script.now.containers kind place }
{
    let Some(container) = script.containers.as_slice().get(place as usize) else {
        return false;
    };
    match (kind, container.start.kind) {
        (Kind::Dict, Kind::Dict)
        | (Kind::List, Kind::List)
        | (Kind::Set, Kind::Set)
        | (Kind::Deque(_), Kind::Deque(_)) => true,
        (Kind::Dict | Kind::List | Kind::Set | Kind::Deque(_), _) => false,
    }
}

/// Whether the containers are declared, and of that kind, and there is such a cursor, of that many.
fn are_names_of(
    script: &ScriptParts,
    cursors: usize,
    kind: Kind,
    container: u32,
    other: Option<u32>,
    cursor: Option<u32>,
) -> bool
    ensures { IsTrue result ↔ AreNamesOf script.now.containers cursors kind container other cursor }
{
    is_declared_as(script, kind, container)
        && other.is_none_or(|place| is_declared_as(script, kind, place))
        && cursor.is_none_or(|number| (number as usize) < cursors)
}

/// Whether a key is an integer, or a string of that many.
fn is_key_of(strings: usize, key: Key) -> bool
    ensures declared { IsTrue result ↔ IsKeyOf strings key }
    ensures wide { IsWideKey key }
{
    match key {
        Key::Int(_number) => true,
        Key::Text(symbol) => (symbol.0 as usize) < strings,
    }
}

fn is_value_of(strings: usize, value: Value) -> bool
    ensures declared { IsTrue result ↔ IsValueOf strings value }
    ensures wide { IsWideValue value }
{
    match value {
        Value::Nothing => true,
        Value::Int(_number) => true,
        Value::Text(symbol) => (symbol.0 as usize) < strings,
    }
}

/// An index is any integer of 64 bits.
fn is_index(index: i64) -> bool
    ensures is { IsTrue result }
    ensures wide { is_wide index ≡ true }
{
    let _index = index;
    true
}

/// An index of a call is any number of 32 bits.
fn is_call_index(index: u32) -> bool
    ensures is { IsTrue result }
    ensures wide { index < 2 ^ 32 }
{
    let _index = index;
    true
}

fn are_strings_of_dict(strings: usize, call: &DictCall) -> bool
    ensures declared { IsTrue result ↔ AreStringsOfDict strings call.now }
    ensures wide { IsTrue result → ((place : ℕ) → AllByRecursion IsWideArgument (dict_form (argument.Container place) call.now).arguments) }
{
    match *call {
        DictCall::Get { key }
        | DictCall::Del { key }
        | DictCall::Pop { key }
        | DictCall::Has { key } => is_key_of(strings, key),
        DictCall::GetOr { key, default }
        | DictCall::PopOr { key, default }
        | DictCall::SetDefault { key, default } => {
            is_key_of(strings, key) && is_value_of(strings, default)
        }
        DictCall::Set { key, value } | DictCall::ItemsHas { key, value } => {
            is_key_of(strings, key) && is_value_of(strings, value)
        }
        DictCall::PopItem
        | DictCall::Len
        | DictCall::Items
        | DictCall::Update { .. }
        | DictCall::Clear
        | DictCall::CopyTo { .. }
        | DictCall::Eq { .. }
        | DictCall::Iter { .. }
        | DictCall::KeysAnd { .. }
        | DictCall::KeysSub { .. }
        | DictCall::KeysOr { .. }
        | DictCall::KeysXor { .. }
        | DictCall::Reversed { .. } => true,
    }
}

fn are_strings_of_list(strings: usize, call: &ListCall) -> bool
    ensures declared { IsTrue result ↔ AreStringsOfList strings call.now }
    ensures wide { IsTrue result → ((place : ℕ) → AllByRecursion IsWideArgument (list_form (argument.Container place) call.now).arguments) }
{
    match *call {
        ListCall::Append { value }
        | ListCall::Remove { value }
        | ListCall::Index { value }
        | ListCall::Count { value }
        | ListCall::Has { value } => is_value_of(strings, value),
        ListCall::Insert { index, value } => is_index(index) && is_value_of(strings, value),
        ListCall::Set { index, value } => is_index(index) && is_value_of(strings, value),
        ListCall::Get { index } => is_index(index),
        ListCall::Del { index } => is_index(index),
        ListCall::Pop { index: None } => true,
        ListCall::Pop { index: Some(index) } => is_index(index),
        ListCall::Slice { start, end } => is_index(start) && is_index(end),
        ListCall::Reverse
        | ListCall::Extend { .. }
        | ListCall::Clear
        | ListCall::Len
        | ListCall::Items
        | ListCall::Eq { .. }
        | ListCall::Iter { .. }
        | ListCall::Reversed { .. } => true,
    }
}

fn are_strings_of_set(strings: usize, call: &SetCall) -> bool
    ensures declared { IsTrue result ↔ AreStringsOfSet strings call.now }
    ensures wide { IsTrue result → ((place : ℕ) → AllByRecursion IsWideArgument (set_form (argument.Container place) call.now).arguments) }
{
    match *call {
        SetCall::Add { key }
        | SetCall::Discard { key }
        | SetCall::Remove { key }
        | SetCall::Has { key } => is_key_of(strings, key),
        SetCall::Pop
        | SetCall::Len
        | SetCall::Items
        | SetCall::Eq { .. }
        | SetCall::Or { .. }
        | SetCall::And { .. }
        | SetCall::Sub { .. }
        | SetCall::Xor { .. }
        | SetCall::Subset { .. }
        | SetCall::Disjoint { .. }
        | SetCall::Clear
        | SetCall::Iter { .. } => true,
    }
}
