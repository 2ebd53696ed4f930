//! The calls of lists. Where memory runs out, nothing has changed.
ghost use Rattle.std.specs.Prelude.{◌≡◌, ◌++◌, ℕ, true, None, slice_set, IfOk, OnOk, OnErr};
ghost use Rattle.ft_model.specs.declared.content.Content.TheVariants as content;
ghost use Rattle.ft_model.specs.declared.script.Kind.TheVariants as kind;
ghost use Rattle.ft_model.specs.Calls.{is_changing_list, other_list, cursor_of_list};
ghost use Rattle.ft_model.specs.Worlds.{WorldContent, HandsContent, IsOfKind, IsNamed, list_at};
ghost use Rattle.ft_model.specs.Answers.{answer_list};

use crate::call::ListCall;
use crate::content::Content;
use crate::cursor::Cursor;
use crate::list::List;
use crate::reply::{Raise, Reply};
use crate::sequence::Sequence;
use crate::world::{Hands, World};
use std::alloc::{AllocError, Global};

/// Answers a call of the list at a place (Python manual, Sequence Types).
pub(crate) fn answer(
    alloc: Global,
    world: &mut World,
    hands: &mut Hands,
    place: u32,
    call: &ListCall,
) -> Result<Reply, AllocError>
    requires { IsNamed world.old hands.old kind.List place (other_list call.now) (cursor_of_list call.now) }
    ensures reply { IfOk result (λ reply. reply ≡ (answer_list world.old hands.old place (list_at world.old place) call.now).reply) }
    ensures world { OnOk result (world.new ≡ (answer_list world.old hands.old place (list_at world.old place) call.now).world) }
    ensures hands { OnOk result (hands.new ≡ (answer_list world.old hands.old place (list_at world.old place) call.now).hands) }
    ensures err { OnErr result ((world.new ≡ world.old) × (hands.new ≡ hands.old)) }
{
    match *call {
        ListCall::Get { index } => match world.list(place).get(index) {
            Some(value) => Ok(Reply::Value(value)),
            None => Ok(Reply::Raised(Raise::NoIndex)),
        },
        ListCall::Index { value } => match world.list(place).index(value) {
            Some(found) => Ok(Reply::Count(found as u64)),
            None => Ok(Reply::Raised(Raise::NoValue)),
        },
        ListCall::Count { value } => Ok(Reply::Count(world.list(place).count(value) as u64)),
        ListCall::Has { value } => Ok(Reply::Truth(world.list(place).has(value))),
        ListCall::Slice { start, end } => {
            let items = world.list(place).slice(alloc, start, end)?;
            Ok(Reply::List(Sequence::from_vec(items)))
        }
        ListCall::Len => Ok(Reply::Count(world.list(place).len() as u64)),
        ListCall::Items => {
            let items = Vec::from_slice(alloc, world.list(place).items())?;
            Ok(Reply::List(Sequence::from_vec(items)))
        }
        ListCall::Eq { other } => { Ok(Reply::Truth(world.list(place).equals(world.list(other)))) }
        ListCall::Reversed { cursor } => {
            let index = (world.list(place).len() as u64).checked_sub(1);
            hands.put(
                cursor,
                Cursor::ListBack {
                    container: place,
                    index,
                },
            );
            Ok(Reply::Done)
        }
        ListCall::Iter { cursor } => {
            hands.put(
                cursor,
                Cursor::List {
                    container: place,
                    index: 0,
                    ended: false,
                },
            );
            Ok(Reply::Done)
        }
        ListCall::Extend { other } => {
            extend(alloc, world, place, other)?;
            Ok(Reply::Done)
        }
        ListCall::Append { .. }
        | ListCall::Insert { .. }
        | ListCall::Set { .. }
        | ListCall::Del { .. }
        | ListCall::Pop { .. }
        | ListCall::Remove { .. }
        | ListCall::Reverse
        | ListCall::Clear => change_at(world, place, call),
    }
}

/// `l.extend(m)`.
fn extend(alloc: Global, world: &mut World, place: u32, other: u32) -> Result<(), AllocError>
    requires one { IsOfKind world.old kind.List place }
    requires both { IsOfKind world.old kind.List other }
    ensures ok { OnOk result (world.new ≡ slice_set world.old place (content.List (list_at world.old place ++ list_at world.old other))) }
    ensures err { OnErr result (world.new ≡ world.old) }
{
    let other = world.list(other).copy(alloc)?;
    match &mut world.contents[place as usize] {
        Content::List(list) => list.extend(&other),
        _ => unreachable!(),
    }
}

/// A call that changes the list at a place, and names no other.
fn change_at(world: &mut World, place: u32, call: &ListCall) -> Result<Reply, AllocError>
    requires declared { IsOfKind world.old kind.List place }
    requires changing { is_changing_list call.now ≡ true }
    requires alone { other_list call.now ≡ None }
    ensures reply { IfOk result (λ reply. (hands : HandsContent) → reply ≡ (answer_list world.old hands place (list_at world.old place) call.now).reply) }
    ensures world { OnOk result ((hands : HandsContent) → world.new ≡ (answer_list world.old hands place (list_at world.old place) call.now).world) }
    ensures hands { OnOk result ((hands : HandsContent) → hands ≡ (answer_list world.old hands place (list_at world.old place) call.now).hands) }
    ensures err { OnErr result (world.new ≡ world.old) }
{
    match &mut world.contents[place as usize] {
        Content::List(list) => change(list, call),
        _ => unreachable!(),
    }
}

/// The same in whatever world the list stands.
fn change(list: &mut List, call: &ListCall) -> Result<Reply, AllocError>
    requires changing { is_changing_list call.now ≡ true }
    requires alone { other_list call.now ≡ None }
    ensures reply { IfOk result (λ reply. (world : WorldContent) (hands : HandsContent) (place : ℕ) →
        reply ≡ (answer_list world hands place list.old call.now).reply) }
    ensures list { OnOk result ((world : WorldContent) (hands : HandsContent) (place : ℕ) →
        slice_set world place (content.List list.old) ≡ world →
        slice_set world place (content.List list.new) ≡ (answer_list world hands place list.old call.now).world) }
    ensures hands { OnOk result ((world : WorldContent) (hands : HandsContent) (place : ℕ) →
        hands ≡ (answer_list world hands place list.old call.now).hands) }
    ensures err { OnErr result (list.new ≡ list.old) }
{
    match *call {
        ListCall::Append { value } => {
            list.append(value)?;
            Ok(Reply::Done)
        }
        ListCall::Insert { index, value } => {
            list.insert(index, value)?;
            Ok(Reply::Done)
        }
        ListCall::Set { index, value } => {
            if list.set(index, value) {
                Ok(Reply::Done)
            } else {
                Ok(Reply::Raised(Raise::NoIndex))
            }
        }
        ListCall::Del { index } => match list.pop(index) {
            Some(_) => Ok(Reply::Done),
            None => Ok(Reply::Raised(Raise::NoIndex)),
        },
        ListCall::Pop { index } => match list.pop(index.unwrap_or(-1)) {
            Some(value) => Ok(Reply::Value(value)),
            None => Ok(Reply::Raised(Raise::NoIndex)),
        },
        ListCall::Remove { value } => {
            if list.remove(value) {
                Ok(Reply::Done)
            } else {
                Ok(Reply::Raised(Raise::NoValue))
            }
        }
        ListCall::Reverse => {
            list.reverse();
            Ok(Reply::Done)
        }
        ListCall::Clear => {
            list.clear();
            Ok(Reply::Done)
        }
        ListCall::Get { .. }
        | ListCall::Index { .. }
        | ListCall::Count { .. }
        | ListCall::Has { .. }
        | ListCall::Extend { .. }
        | ListCall::Slice { .. }
        | ListCall::Len
        | ListCall::Items
        | ListCall::Eq { .. }
        | ListCall::Iter { .. }
        | ListCall::Reversed { .. } => unreachable!(),
    }
}
