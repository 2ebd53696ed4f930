//! The calls of dicts. Where memory runs out, nothing has changed.
ghost use Rattle.std.specs.Prelude.{◌≡◌, ◌+◌, ◌^◌, ◌<◌, ℕ, true, length, None, slice_set, map, IfOk, OnOk, OnErr};
ghost use Rattle.ft_model.specs.declared.call.Call.TheVariants as call_of;
ghost use Rattle.ft_model.specs.declared.content.Content.TheVariants as content;
ghost use Rattle.ft_model.specs.declared.script.Kind.TheVariants as kind;
ghost use Rattle.ft_model.specs.Calls.{is_changing_dict, other_dict, cursor_of_dict};
ghost use Rattle.ft_model.specs.Contents.{dict_update, dict_copy};
ghost use Rattle.ft_model.specs.Worlds.{WorldContent, HandsContent, IsOfKind, IsNamed, HasRoom, dict_at};
ghost use Rattle.ft_model.specs.Answers.{answer_dict, items_of};

use crate::call::DictCall;
use crate::content::Content;
use crate::cursor::{Cursor, CursorState};
use crate::data::{Key, Value};
use crate::dict::Dict;
use crate::reply::{Raise, Reply};
use crate::sequence::Sequence;
use crate::world::{Hands, World};
use std::alloc::{AllocError, Global};

/// Answers a call of the dict at a place (Python manual, Mapping Types).
pub(crate) fn answer(
    alloc: Global,
    world: &mut World,
    hands: &mut Hands,
    place: u32,
    call: &DictCall,
) -> Result<Reply, AllocError>
    requires declared { IsNamed world.old hands.old kind.Dict place (other_dict call.now) (cursor_of_dict call.now) }
    requires room { HasRoom world.old (call_of.Dict place call.now) }
    ensures reply { IfOk result (λ reply. reply ≡ (answer_dict world.old hands.old place (dict_at world.old place) call.now).reply) }
    ensures world { OnOk result (world.new ≡ (answer_dict world.old hands.old place (dict_at world.old place) call.now).world) }
    ensures hands { OnOk result (hands.new ≡ (answer_dict world.old hands.old place (dict_at world.old place) call.now).hands) }
    ensures err { OnErr result ((world.new ≡ world.old) × (hands.new ≡ hands.old)) }
{
    match *call {
        DictCall::Get { key } => match world.dict(place).get(key) {
            Some(value) => Ok(Reply::Value(value)),
            None => Ok(Reply::Raised(Raise::NoKey)),
        },
        DictCall::GetOr { key, default } => {
            Ok(Reply::Value(world.dict(place).get_or(key, default)))
        }
        DictCall::Has { key } => Ok(Reply::Truth(world.dict(place).has(key))),
        DictCall::Len => Ok(Reply::Count(world.dict(place).len() as u64)),
        DictCall::Items => {
            let pairs = items(alloc, world.dict(place))?;
            Ok(Reply::Dict(Sequence::from_vec(pairs)))
        },
        DictCall::Eq { other } => { Ok(Reply::Truth(world.dict(place).equals(world.dict(other)))) }
        DictCall::KeysAnd { other } => {
            let keys = world.dict(place).keys_and(alloc, world.dict(other))?;
            Ok(Reply::Set(Sequence::from_vec(keys)))
        }
        DictCall::KeysSub { other } => {
            let keys = world.dict(place).keys_sub(alloc, world.dict(other))?;
            Ok(Reply::Set(Sequence::from_vec(keys)))
        }
        DictCall::KeysOr { other } => {
            let keys = world.dict(place).keys_or(alloc, world.dict(other))?;
            Ok(Reply::Set(Sequence::from_vec(keys)))
        }
        DictCall::KeysXor { other } => {
            let keys = world.dict(place).keys_xor(alloc, world.dict(other))?;
            Ok(Reply::Set(Sequence::from_vec(keys)))
        }
        DictCall::ItemsHas { key, value } => {
            Ok(Reply::Truth(world.dict(place).has_item(key, value)))
        }
        DictCall::Reversed { cursor } => {
            let size = world.dict(place).len() as u64;
            hands.put(
                cursor,
                Cursor::DictBack {
                    container: place,
                    walk: CursorState::Live,
                    size,
                    last: None,
                },
            );
            Ok(Reply::Done)
        }
        DictCall::Iter { cursor } => {
            let size = world.dict(place).len() as u64;
            hands.put(
                cursor,
                Cursor::Dict {
                    container: place,
                    walk: CursorState::Live,
                    size,
                    expected: size,
                    last: None,
                },
            );
            Ok(Reply::Done)
        }
        DictCall::Update { other } => {
            update(alloc, world, place, other)?;
            Ok(Reply::Done)
        }
        DictCall::CopyTo { other } => {
            copy_to(alloc, world, place, other)?;
            Ok(Reply::Done)
        }
        DictCall::Set { .. }
        | DictCall::Del { .. }
        | DictCall::Pop { .. }
        | DictCall::PopOr { .. }
        | DictCall::PopItem
        | DictCall::SetDefault { .. }
        | DictCall::Clear => change_at(world, place, call),
    }
}

/// `d.items()`.
pub(crate) fn items(alloc: Global, dict: &Dict) -> Result<Vec<(Key, Value)>, AllocError>
    ensures { IfOk result (λ items. items.items ≡ items_of dict.now.pairs) }
{
    dict.pairs()
        .map(|pair| (pair.key, pair.value))
        .collect(alloc)
}

/// `d.update(e)`.
fn update(alloc: Global, world: &mut World, place: u32, other: u32) -> Result<(), AllocError>
    requires one { IsOfKind world.old kind.Dict place }
    requires both { IsOfKind world.old kind.Dict other }
    requires room { (dict_at world.old place).next + length (dict_at world.old other).pairs < 2 ^ 63 }
    ensures ok { OnOk result (world.new ≡ slice_set world.old place (content.Dict (dict_update (dict_at world.old place) (dict_at world.old other).pairs))) }
    ensures err { OnErr result (world.new ≡ world.old) }
{
    let other = world.dict(other).copy(alloc)?;
    match &mut world.contents[place as usize] {
        Content::Dict(dict) => dict.update(alloc, &other),
        _ => unreachable!(),
    }
}

/// Gives the other dict the pairs of the one at a place.
fn copy_to(alloc: Global, world: &mut World, place: u32, other: u32) -> Result<(), AllocError>
    requires one { IsOfKind world.old kind.Dict place }
    requires both { IsOfKind world.old kind.Dict other }
    requires room { (dict_at world.old other).next + length (dict_at world.old place).pairs < 2 ^ 63 }
    ensures ok { OnOk result (world.new ≡ slice_set world.old other (content.Dict (dict_copy (dict_at world.old other) (dict_at world.old place).pairs))) }
    ensures err { OnErr result (world.new ≡ world.old) }
{
    let dict = world.dict(place).copy(alloc)?;
    match &mut world.contents[other as usize] {
        Content::Dict(other) => other.copy_from(alloc, &dict),
        _ => unreachable!(),
    }
}

/// A call that changes the dict at a place, and names no other.
fn change_at(world: &mut World, place: u32, call: &DictCall) -> Result<Reply, AllocError>
    requires declared { IsOfKind world.old kind.Dict place }
    requires room { (dict_at world.old place).next < 2 ^ 63 }
    requires changing { is_changing_dict call.now ≡ true }
    requires alone { other_dict call.now ≡ None }
    ensures reply { IfOk result (λ reply. (hands : HandsContent) → reply ≡ (answer_dict world.old hands place (dict_at world.old place) call.now).reply) }
    ensures world { OnOk result ((hands : HandsContent) → world.new ≡ (answer_dict world.old hands place (dict_at world.old place) call.now).world) }
    ensures hands { OnOk result ((hands : HandsContent) → hands ≡ (answer_dict world.old hands place (dict_at world.old place) call.now).hands) }
    ensures err { OnErr result (world.new ≡ world.old) }
{
    match &mut world.contents[place as usize] {
        Content::Dict(dict) => change(dict, call),
        _ => unreachable!(),
    }
}

/// The same in whatever world the dict stands.
fn change(dict: &mut Dict, call: &DictCall) -> Result<Reply, AllocError>
    requires room { dict.old.next < 2 ^ 63 }
    requires changing { is_changing_dict call.now ≡ true }
    requires alone { other_dict call.now ≡ None }
    ensures reply { IfOk result (λ reply. (world : WorldContent) (hands : HandsContent) (place : ℕ) →
        reply ≡ (answer_dict world hands place dict.old call.now).reply) }
    ensures dict { OnOk result ((world : WorldContent) (hands : HandsContent) (place : ℕ) →
        slice_set world place (content.Dict dict.old) ≡ world →
        slice_set world place (content.Dict dict.new) ≡ (answer_dict world hands place dict.old call.now).world) }
    ensures hands { OnOk result ((world : WorldContent) (hands : HandsContent) (place : ℕ) →
        hands ≡ (answer_dict world hands place dict.old call.now).hands) }
    ensures err { OnErr result (dict.new ≡ dict.old) }
{
    match *call {
        DictCall::Set { key, value } => {
            dict.set(key, value)?;
            Ok(Reply::Done)
        }
        DictCall::Del { key } => {
            if dict.del(key) {
                Ok(Reply::Done)
            } else {
                Ok(Reply::Raised(Raise::NoKey))
            }
        }
        DictCall::Pop { key } => match dict.pop(key) {
            Some(value) => Ok(Reply::Value(value)),
            None => Ok(Reply::Raised(Raise::NoKey)),
        },
        DictCall::PopOr { key, default } => match dict.pop(key) {
            Some(value) => Ok(Reply::Value(value)),
            None => Ok(Reply::Value(default)),
        },
        DictCall::PopItem => match dict.pop_last() {
            Some(pair) => Ok(Reply::Pair(pair.key, pair.value)),
            None => Ok(Reply::Raised(Raise::NoKey)),
        },
        DictCall::SetDefault { key, default } => {
            let value = dict.set_default(key, default)?;
            Ok(Reply::Value(value))
        }
        DictCall::Clear => {
            dict.clear();
            Ok(Reply::Done)
        }
        DictCall::Get { .. }
        | DictCall::GetOr { .. }
        | DictCall::Has { .. }
        | DictCall::Len
        | DictCall::Items
        | DictCall::Update { .. }
        | DictCall::CopyTo { .. }
        | DictCall::Eq { .. }
        | DictCall::Iter { .. }
        | DictCall::KeysAnd { .. }
        | DictCall::KeysSub { .. }
        | DictCall::KeysOr { .. }
        | DictCall::KeysXor { .. }
        | DictCall::ItemsHas { .. }
        | DictCall::Reversed { .. } => unreachable!(),
    }
}
