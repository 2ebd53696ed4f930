//! Whether a call would leave a container with more than the largest table holds, from the lengths of
//! the containers alone.
ghost use Rattle.std.specs.Prelude.{◌≡◌, ◌+◌, ◌^◌, ◌<◌, ◌&&◌, ◌||◌, ◌==◌, not, nat_lt, IfSome, None, length, filter, if◌then◌else◌};
ghost use Rattle.ft_model.specs.declared.call.Call.TheVariants as call_of;
ghost use Rattle.ft_model.specs.declared.script.Kind.TheVariants as kind;
ghost use Rattle.ft_model.specs.Calls.{other_dict, other_list, other_set, other_deque};
ghost use Rattle.ft_model.specs.Contents.{IsDict, has_key, has_element, those_not_in, dict_update};
ghost use Rattle.ft_model.specs.TableUses.{would_pass};
ghost use Rattle.ft_model.specs.Worlds.{IsOfKind};
ghost use Rattle.ft_history.specs.Internal.Accounts.{AreOfKind, length_with_items};

use ft_model::{
    Call, Deque, DequeCall, Dict, DictCall, Key, ListCall, MOST_ELEMENTS, MOST_ITEMS, MOST_PAIRS,
    Set, SetCall, World,
};

/// Whether the call can add, and would leave a container that it names with more than the largest
/// table holds.
pub fn would_pass(world: &World, call: &Call) -> bool
    requires { AreOfKind world.now call.now }
    ensures { result ≡ would_pass world.now call.now }
{
    match call {
        Call::Dict { container, call } => dict_would_pass(world, *container, call),
        Call::List { container, call } => list_would_pass(world, *container, call),
        Call::Set { container, call } => set_would_pass(world, *container, call),
        Call::Deque { container, call } => deque_would_pass(world, *container, call),
        Call::Next { .. }
        | Call::Begin { .. }
        | Call::End
        | Call::Quiesce
        | Call::Await { .. }
        | Call::Dump => false,
    }
}

fn dict_would_pass(world: &World, place: u32, call: &DictCall) -> bool
    requires one { IsOfKind world.now kind.Dict place }
    requires both { IfSome (other_dict call.now) (λ other. IsOfKind world.now kind.Dict other) }
    ensures { result ≡ would_pass world.now (call_of.Dict place call.now) }
{
    let dict = world.dict(place);
    match *call {
        DictCall::Set { key, .. } => length_with_key(dict, key) > MOST_PAIRS,
        DictCall::SetDefault { key, .. } => length_with_key(dict, key) > MOST_PAIRS,
        DictCall::Update { other } => {
            let others = world.dict(other);
            let count = others.len();
            one_passes(
                MOST_PAIRS,
                length_with_keys(dict, others),
                count,
                place,
                other,
            )
        }
        DictCall::CopyTo { .. } => dict.len() > MOST_PAIRS,
        DictCall::Get { .. }
        | DictCall::GetOr { .. }
        | DictCall::Del { .. }
        | DictCall::Pop { .. }
        | DictCall::PopOr { .. }
        | DictCall::PopItem
        | DictCall::Has { .. }
        | DictCall::Len
        | DictCall::Items
        | DictCall::Clear
        | DictCall::Eq { .. }
        | DictCall::Iter { .. }
        | DictCall::KeysAnd { .. }
        | DictCall::KeysSub { .. }
        | DictCall::KeysOr { .. }
        | DictCall::KeysXor { .. }
        | DictCall::ItemsHas { .. }
        | DictCall::Reversed { .. } => false,
    }
}

fn list_would_pass(world: &World, place: u32, call: &ListCall) -> bool
    requires one { IsOfKind world.now kind.List place }
    requires both { IfSome (other_list call.now) (λ other. IsOfKind world.now kind.List other) }
    ensures { result ≡ would_pass world.now (call_of.List place call.now) }
{
    let list = world.list(place);
    match *call {
        ListCall::Append { .. } => list.len() + 1 > MOST_ITEMS,
        ListCall::Insert { .. } => list.len() + 1 > MOST_ITEMS,
        ListCall::Extend { other } => {
            let count = world.list(other).len();
            one_passes(MOST_ITEMS, list.len() + count, count, place, other)
        }
        ListCall::Get { .. }
        | ListCall::Set { .. }
        | ListCall::Del { .. }
        | ListCall::Pop { .. }
        | ListCall::Remove { .. }
        | ListCall::Index { .. }
        | ListCall::Count { .. }
        | ListCall::Has { .. }
        | ListCall::Reverse
        | ListCall::Slice { .. }
        | ListCall::Clear
        | ListCall::Len
        | ListCall::Items
        | ListCall::Eq { .. }
        | ListCall::Iter { .. }
        | ListCall::Reversed { .. } => false,
    }
}

fn set_would_pass(world: &World, place: u32, call: &SetCall) -> bool
    requires one { IsOfKind world.now kind.Set place }
    requires both { IfSome (other_set call.now) (λ other. IsOfKind world.now kind.Set other) }
    ensures { result ≡ would_pass world.now (call_of.Set place call.now) }
{
    let set = world.set(place);
    match *call {
        SetCall::Add { key } => length_with_element(set, key) > MOST_ELEMENTS,
        SetCall::Or { other } => {
            let others = world.set(other);
            let count = others.len();
            let after = set.len() + new_elements(set, others);
            one_passes(MOST_ELEMENTS, after, count, place, other)
        }
        SetCall::Xor { other } => {
            let others = world.set(other);
            let count = others.len();
            let after = new_elements(others, set) + new_elements(set, others);
            one_passes(MOST_ELEMENTS, after, count, place, other)
        }
        SetCall::Discard { .. }
        | SetCall::Remove { .. }
        | SetCall::Pop
        | SetCall::Has { .. }
        | SetCall::Len
        | SetCall::Items
        | SetCall::Eq { .. }
        | SetCall::And { .. }
        | SetCall::Sub { .. }
        | SetCall::Subset { .. }
        | SetCall::Disjoint { .. }
        | SetCall::Clear
        | SetCall::Iter { .. } => false,
    }
}

fn deque_would_pass(world: &World, place: u32, call: &DequeCall) -> bool
    requires one { IsOfKind world.now (kind.Deque None) place }
    requires both { IfSome (other_deque call.now) (λ other. IsOfKind world.now (kind.Deque None) other) }
    ensures { result ≡ would_pass world.now (call_of.Deque place call.now) }
{
    let deque = world.deque(place);
    match *call {
        DequeCall::Append { .. } => length_with_items(deque, 1) > MOST_ITEMS,
        DequeCall::AppendLeft { .. } => length_with_items(deque, 1) > MOST_ITEMS,
        DequeCall::Extend { other } => {
            let count = world.deque(other).len();
            let after = length_with_items(deque, count);
            one_passes(MOST_ITEMS, after, count, place, other)
        }
        DequeCall::ExtendLeft { other } => {
            let count = world.deque(other).len();
            let after = length_with_items(deque, count);
            one_passes(MOST_ITEMS, after, count, place, other)
        }
        DequeCall::Pop
        | DequeCall::PopLeft
        | DequeCall::Rotate { .. }
        | DequeCall::Clear
        | DequeCall::Get { .. }
        | DequeCall::Len
        | DequeCall::Items
        | DequeCall::Has { .. }
        | DequeCall::Iter { .. } => false,
    }
}

/// Whether a container has more than most after a call, or the other one does, where it is another.
fn one_passes(most: usize, after: usize, others: usize, place: u32, other: u32) -> bool
    ensures { result ≡ (nat_lt most after || (not (place == other) && nat_lt most others)) }
{
    after > most || (place != other && others > most)
}

/// How many items a deque has to which that many are added.
fn length_with_items(deque: &Deque, added: usize) -> usize
    requires { added < 2 ^ 63 }
    ensures { result ≡ length_with_items deque.now added }
{
    if added == 0 {
        return deque.len();
    }
    let count = deque.len() + added;
    match deque.bound() {
        Some(most) => count.min(most as usize),
        None => count,
    }
}

/// How many pairs a dict has that has the key too.
fn length_with_key(dict: &Dict, key: Key) -> usize
    ensures { result ≡ length dict.now.pairs + (if has_key dict.now.pairs key then 0 else 1) }
{
    dict.len() + usize::from(!dict.has(key))
}

/// How many elements a set has that has the key too.
fn length_with_element(set: &Set, key: Key) -> usize
    ensures { result ≡ length set.now.elements + (if has_element set.now.elements key then 0 else 1) }
{
    set.len() + usize::from(!set.has(key))
}

/// How many pairs a dict has that is updated with the other.
fn length_with_keys(dict: &Dict, other: &Dict) -> usize
    ensures { result ≡ length (dict_update dict.now other.now.pairs).pairs }
{
    dict.len() + new_keys(dict, other)
}

/// How many keys of the other dict aren't in the dict.
fn new_keys(dict: &Dict, other: &Dict) -> usize
    ensures keys { result ≡ length (filter (λ pair. not (has_key dict.now.pairs pair.key)) other.now.pairs) }
    ensures is_dict { IsDict other.now.next other.now.pairs }
    ensures few { result < 2 ^ 63 }
{
    other.pairs().filter(|pair| !dict.has(pair.key)).count()
}

/// How many elements of the other set aren't in the set.
fn new_elements(set: &Set, other: &Set) -> usize
    ensures elements { result ≡ length (those_not_in set.now.elements other.now.elements) }
    ensures few { result < 2 ^ 63 }
{
    other
        .elements()
        .filter(|element| !set.has(element.key))
        .count()
}
