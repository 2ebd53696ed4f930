//! The calls of deques. Where memory runs out, nothing has changed.
ghost use Rattle.std.specs.Prelude.{◌≡◌, ◌^◌, ◌<◌, ℕ, true, None, Some, IsSome, slice_set, IfOk, OnOk, OnErr};
ghost use Rattle.ft_model.specs.declared.call.Call.TheVariants as call_of;
ghost use Rattle.ft_model.specs.declared.content.Content.TheVariants as content;
ghost use Rattle.ft_model.specs.declared.script.Kind.TheVariants as kind;
ghost use Rattle.ft_model.specs.Calls.{is_changing_deque, other_deque, cursor_of_deque};
ghost use Rattle.ft_model.specs.Worlds.{WorldContent, HandsContent, IsOfKind, IsNamed, HasRoom, deque_at};
ghost use Rattle.ft_model.specs.Answers.{answer_deque};

use crate::call::DequeCall;
use crate::content::Content;
use crate::cursor::Cursor;
use crate::data::Value;
use crate::deque::Deque;
use crate::reply::{Raise, Reply};
use crate::sequence::Sequence;
use crate::world::{Hands, World};
use std::alloc::{AllocError, Global};

/// Answers a call of the deque at a place (Python manual, collections.deque).
pub(crate) fn answer(
    alloc: Global,
    world: &mut World,
    hands: &mut Hands,
    place: u32,
    call: &DequeCall,
) -> Result<Reply, AllocError>
    requires declared { IsNamed world.old hands.old (kind.Deque None) place (other_deque call.now) (cursor_of_deque call.now) }
    requires room { HasRoom world.old (call_of.Deque place call.now) }
    ensures reply { IfOk result (λ reply. reply ≡ (answer_deque world.old hands.old place (deque_at world.old place) call.now).reply) }
    ensures world { OnOk result (world.new ≡ (answer_deque world.old hands.old place (deque_at world.old place) call.now).world) }
    ensures hands { OnOk result (hands.new ≡ (answer_deque world.old hands.old place (deque_at world.old place) call.now).hands) }
    ensures err { OnErr result ((world.new ≡ world.old) × (hands.new ≡ hands.old)) }
{
    match *call {
        DequeCall::Get { index } => match world.deque(place).get(index) {
            Some(value) => Ok(Reply::Value(value)),
            None => Ok(Reply::Raised(Raise::NoIndex)),
        },
        DequeCall::Len => Ok(Reply::Count(world.deque(place).len() as u64)),
        DequeCall::Items => {
            let items = world.deque(place).copy_items(alloc)?;
            Ok(Reply::List(Sequence::from_vec(items)))
        }
        DequeCall::Has { value } => Ok(Reply::Truth(world.deque(place).has(value))),
        DequeCall::Iter { cursor } => {
            let moves = world.deque(place).moves();
            hands.put(
                cursor,
                Cursor::Deque {
                    container: place,
                    moves,
                    index: 0,
                },
            );
            Ok(Reply::Done)
        }
        DequeCall::Extend { other } | DequeCall::ExtendLeft { other } => {
            extend_at(alloc, world, place, other, call)?;
            Ok(Reply::Done)
        }
        DequeCall::Append { .. }
        | DequeCall::AppendLeft { .. }
        | DequeCall::Pop
        | DequeCall::PopLeft
        | DequeCall::Rotate { .. }
        | DequeCall::Clear => change_at(world, place, call),
    }
}

/// A call that extends the deque at a place by the items of another.
fn extend_at(
    alloc: Global,
    world: &mut World,
    place: u32,
    other: u32,
    call: &DequeCall,
) -> Result<(), AllocError>
    requires one { IsOfKind world.old (kind.Deque None) place }
    requires both { IsOfKind world.old (kind.Deque None) other }
    requires room { (deque_at world.old place).moves < 2 ^ 63 }
    requires named { other_deque call.now ≡ Some other }
    ensures ok { OnOk result ((hands : HandsContent) → world.new ≡ (answer_deque world.old hands place (deque_at world.old place) call.now).world) }
    ensures err { OnErr result (world.new ≡ world.old) }
{
    let items = world.deque(other).copy_items(alloc)?;
    match &mut world.contents[place as usize] {
        Content::Deque(deque) => extend(alloc, deque, &items, call),
        _ => unreachable!(),
    }
}

/// The same in whatever world the deque stands.
fn extend(
    alloc: Global,
    deque: &mut Deque,
    items: &[Value],
    call: &DequeCall,
) -> Result<(), AllocError>
    requires room { deque.old.moves < 2 ^ 63 }
    requires named { IsSome (other_deque call.now) }
    ensures ok { OnOk result ((world : WorldContent) (hands : HandsContent) (place another : ℕ) →
        other_deque call.now ≡ Some another → (deque_at world another).items ≡ items.now →
        slice_set world place (content.Deque deque.new) ≡ (answer_deque world hands place deque.old call.now).world) }
    ensures err { OnErr result (deque.new ≡ deque.old) }
{
    match *call {
        DequeCall::Extend { .. } => deque.extend(alloc, items),
        DequeCall::ExtendLeft { .. } => deque.extend_left(alloc, items),
        DequeCall::Append { .. }
        | DequeCall::AppendLeft { .. }
        | DequeCall::Pop
        | DequeCall::PopLeft
        | DequeCall::Rotate { .. }
        | DequeCall::Clear
        | DequeCall::Get { .. }
        | DequeCall::Len
        | DequeCall::Items
        | DequeCall::Has { .. }
        | DequeCall::Iter { .. } => unreachable!(),
    }
}

/// A call that changes the deque at a place, and names no other.
fn change_at(world: &mut World, place: u32, call: &DequeCall) -> Result<Reply, AllocError>
    requires declared { IsOfKind world.old (kind.Deque None) place }
    requires room { (deque_at world.old place).moves < 2 ^ 63 }
    requires changing { is_changing_deque call.now ≡ true }
    requires alone { other_deque call.now ≡ None }
    ensures reply { IfOk result (λ reply. (hands : HandsContent) → reply ≡ (answer_deque world.old hands place (deque_at world.old place) call.now).reply) }
    ensures world { OnOk result ((hands : HandsContent) → world.new ≡ (answer_deque world.old hands place (deque_at world.old place) call.now).world) }
    ensures hands { OnOk result ((hands : HandsContent) → hands ≡ (answer_deque world.old hands place (deque_at world.old place) call.now).hands) }
    ensures err { OnErr result (world.new ≡ world.old) }
{
    match &mut world.contents[place as usize] {
        Content::Deque(deque) => change(deque, call),
        _ => unreachable!(),
    }
}

/// The same in whatever world the deque stands.
fn change(deque: &mut Deque, call: &DequeCall) -> Result<Reply, AllocError>
    requires room { deque.old.moves < 2 ^ 63 }
    requires changing { is_changing_deque call.now ≡ true }
    requires alone { other_deque call.now ≡ None }
    ensures reply { IfOk result (λ reply. (world : WorldContent) (hands : HandsContent) (place : ℕ) →
        reply ≡ (answer_deque world hands place deque.old call.now).reply) }
    ensures deque { OnOk result ((world : WorldContent) (hands : HandsContent) (place : ℕ) →
        slice_set world place (content.Deque deque.old) ≡ world →
        slice_set world place (content.Deque deque.new) ≡ (answer_deque world hands place deque.old call.now).world) }
    ensures hands { OnOk result ((world : WorldContent) (hands : HandsContent) (place : ℕ) →
        hands ≡ (answer_deque world hands place deque.old call.now).hands) }
    ensures err { OnErr result (deque.new ≡ deque.old) }
{
    match *call {
        DequeCall::Append { value } => {
            deque.append(value)?;
            Ok(Reply::Done)
        }
        DequeCall::AppendLeft { value } => {
            deque.append_left(value)?;
            Ok(Reply::Done)
        }
        DequeCall::Pop => match deque.pop() {
            Some(value) => Ok(Reply::Value(value)),
            None => Ok(Reply::Raised(Raise::NoIndex)),
        },
        DequeCall::PopLeft => match deque.pop_left() {
            Some(value) => Ok(Reply::Value(value)),
            None => Ok(Reply::Raised(Raise::NoIndex)),
        },
        DequeCall::Rotate { steps } => {
            deque.rotate(steps);
            Ok(Reply::Done)
        }
        DequeCall::Clear => {
            deque.clear();
            Ok(Reply::Done)
        }
        DequeCall::Extend { .. }
        | DequeCall::ExtendLeft { .. }
        | DequeCall::Get { .. }
        | DequeCall::Len
        | DequeCall::Items
        | DequeCall::Has { .. }
        | DequeCall::Iter { .. } => unreachable!(),
    }
}
