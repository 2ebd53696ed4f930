//! The calls of sets. Where memory runs out, nothing has changed.
ghost use Rattle.std.specs.Prelude.{◌≡◌, ◌+◌, ◌^◌, ◌<◌, ℕ, true, length, Some, None, IsSome, slice_set, map, IfOk, OnOk, OnErr};
ghost use Rattle.ft_model.specs.declared.call.Call.TheVariants as call_of;
ghost use Rattle.ft_model.specs.declared.content.Content.TheVariants as content;
ghost use Rattle.ft_model.specs.declared.script.Kind.TheVariants as kind;
ghost use Rattle.ft_model.specs.Calls.{is_changing_set, other_set, cursor_of_set};
ghost use Rattle.ft_model.specs.Worlds.{WorldContent, HandsContent, IsOfKind, IsNamed, HasRoom, set_at};
ghost use Rattle.ft_model.specs.Answers.{answer_set, elements_of};

use crate::call::SetCall;
use crate::content::Content;
use crate::cursor::{Cursor, CursorState};
use crate::data::Key;
use crate::reply::{Raise, Reply};
use crate::sequence::Sequence;
use crate::set::Set;
use crate::world::{Hands, World};
use std::alloc::{AllocError, Global};

/// Answers a call of the set at a place (Python manual, Set Types).
pub(crate) fn answer(
    alloc: Global,
    world: &mut World,
    hands: &mut Hands,
    place: u32,
    call: &SetCall,
) -> Result<Reply, AllocError>
    requires declared { IsNamed world.old hands.old kind.Set place (other_set call.now) (cursor_of_set call.now) }
    requires room { HasRoom world.old (call_of.Set place call.now) }
    ensures reply { IfOk result (λ reply. reply ≡ (answer_set world.old hands.old place (set_at world.old place) call.now).reply) }
    ensures world { OnOk result (world.new ≡ (answer_set world.old hands.old place (set_at world.old place) call.now).world) }
    ensures hands { OnOk result (hands.new ≡ (answer_set world.old hands.old place (set_at world.old place) call.now).hands) }
    ensures err { OnErr result ((world.new ≡ world.old) × (hands.new ≡ hands.old)) }
{
    match *call {
        SetCall::Has { key } => Ok(Reply::Truth(world.set(place).has(key))),
        SetCall::Len => Ok(Reply::Count(world.set(place).len() as u64)),
        SetCall::Items => {
            let keys = keys(alloc, world.set(place))?;
            Ok(Reply::Set(Sequence::from_vec(keys)))
        }
        SetCall::Eq { other } => Ok(Reply::Truth(world.set(place).equals(world.set(other)))),
        SetCall::Subset { other } => {
            Ok(Reply::Truth(world.set(place).is_subset(world.set(other))))
        }
        SetCall::Disjoint { other } => {
            Ok(Reply::Truth(world.set(place).is_disjoint(world.set(other))))
        }
        SetCall::Iter { cursor } => {
            let size = world.set(place).len() as u64;
            hands.put(
                cursor,
                Cursor::Set {
                    container: place,
                    walk: CursorState::Live,
                    size,
                    last: None,
                },
            );
            Ok(Reply::Done)
        }
        SetCall::Or { other }
        | SetCall::And { other }
        | SetCall::Sub { other }
        | SetCall::Xor { other } => {
            combine_at(alloc, world, place, other, call)?;
            Ok(Reply::Done)
        }
        SetCall::Add { .. }
        | SetCall::Discard { .. }
        | SetCall::Remove { .. }
        | SetCall::Pop
        | SetCall::Clear => change_at(world, place, call),
    }
}

/// All elements, in order.
pub(crate) fn keys(alloc: Global, set: &Set) -> Result<Vec<Key>, AllocError>
    ensures { IfOk result (λ keys. keys.items ≡ elements_of set.now.elements) }
{
    set.elements().map(|element| element.key).collect(alloc)
}

/// A call that changes the set at a place by the elements of another.
fn combine_at(
    alloc: Global,
    world: &mut World,
    place: u32,
    other: u32,
    call: &SetCall,
) -> Result<(), AllocError>
    requires one { IsOfKind world.old kind.Set place }
    requires both { IsOfKind world.old kind.Set other }
    requires room { (set_at world.old place).next + length (set_at world.old other).elements < 2 ^ 63 }
    requires changing { is_changing_set call.now ≡ true }
    requires named { other_set call.now ≡ Some other }
    ensures ok { OnOk result ((hands : HandsContent) → world.new ≡ (answer_set world.old hands place (set_at world.old place) call.now).world) }
    ensures err { OnErr result (world.new ≡ world.old) }
{
    let other = world.set(other).copy(alloc)?;
    match &mut world.contents[place as usize] {
        Content::Set(set) => combine(alloc, set, &other, call),
        _ => unreachable!(),
    }
}

/// The same in whatever world the sets stand.
fn combine(alloc: Global, set: &mut Set, other: &Set, call: &SetCall) -> Result<(), AllocError>
    requires room { set.old.next + length other.now.elements < 2 ^ 63 }
    requires changing { is_changing_set call.now ≡ true }
    requires named { IsSome (other_set call.now) }
    ensures ok { OnOk result ((world : WorldContent) (hands : HandsContent) (place another : ℕ) →
        other_set call.now ≡ Some another → set_at world another ≡ other.now →
        slice_set world place (content.Set set.new) ≡ (answer_set world hands place set.old call.now).world) }
    ensures err { OnErr result (set.new ≡ set.old) }
{
    match *call {
        SetCall::Or { .. } => set.or(alloc, other),
        SetCall::And { .. } => set.and(alloc, other),
        SetCall::Sub { .. } => set.sub(alloc, other),
        SetCall::Xor { .. } => set.xor(alloc, other),
        SetCall::Add { .. }
        | SetCall::Discard { .. }
        | SetCall::Remove { .. }
        | SetCall::Pop
        | SetCall::Has { .. }
        | SetCall::Len
        | SetCall::Items
        | SetCall::Eq { .. }
        | SetCall::Subset { .. }
        | SetCall::Disjoint { .. }
        | SetCall::Clear
        | SetCall::Iter { .. } => unreachable!(),
    }
}

/// A call that changes the set at a place, and names no other.
fn change_at(world: &mut World, place: u32, call: &SetCall) -> Result<Reply, AllocError>
    requires declared { IsOfKind world.old kind.Set place }
    requires room { (set_at world.old place).next < 2 ^ 63 }
    requires changing { is_changing_set call.now ≡ true }
    requires alone { other_set call.now ≡ None }
    ensures reply { IfOk result (λ reply. (hands : HandsContent) → reply ≡ (answer_set world.old hands place (set_at world.old place) call.now).reply) }
    ensures world { OnOk result ((hands : HandsContent) → world.new ≡ (answer_set world.old hands place (set_at world.old place) call.now).world) }
    ensures hands { OnOk result ((hands : HandsContent) → hands ≡ (answer_set world.old hands place (set_at world.old place) call.now).hands) }
    ensures err { OnErr result (world.new ≡ world.old) }
{
    match &mut world.contents[place as usize] {
        Content::Set(set) => change(set, call),
        _ => unreachable!(),
    }
}

/// The same in whatever world the set stands.
fn change(set: &mut Set, call: &SetCall) -> Result<Reply, AllocError>
    requires room { set.old.next < 2 ^ 63 }
    requires changing { is_changing_set call.now ≡ true }
    requires alone { other_set call.now ≡ None }
    ensures reply { IfOk result (λ reply. (world : WorldContent) (hands : HandsContent) (place : ℕ) →
        reply ≡ (answer_set world hands place set.old call.now).reply) }
    ensures set { OnOk result ((world : WorldContent) (hands : HandsContent) (place : ℕ) →
        slice_set world place (content.Set set.old) ≡ world →
        slice_set world place (content.Set set.new) ≡ (answer_set world hands place set.old call.now).world) }
    ensures hands { OnOk result ((world : WorldContent) (hands : HandsContent) (place : ℕ) →
        hands ≡ (answer_set world hands place set.old call.now).hands) }
    ensures err { OnErr result (set.new ≡ set.old) }
{
    match *call {
        SetCall::Add { key } => {
            set.add(key)?;
            Ok(Reply::Done)
        }
        SetCall::Discard { key } => {
            set.discard(key);
            Ok(Reply::Done)
        }
        SetCall::Remove { key } => {
            if set.discard(key) {
                Ok(Reply::Done)
            } else {
                Ok(Reply::Raised(Raise::NoKey))
            }
        }
        SetCall::Pop => match set.pop_first() {
            Some(key) => Ok(Reply::Value(key.into_value())),
            None => Ok(Reply::Raised(Raise::NoKey)),
        },
        SetCall::Clear => {
            set.clear();
            Ok(Reply::Done)
        }
        SetCall::Has { .. }
        | SetCall::Len
        | SetCall::Items
        | SetCall::Eq { .. }
        | SetCall::Or { .. }
        | SetCall::And { .. }
        | SetCall::Sub { .. }
        | SetCall::Xor { .. }
        | SetCall::Subset { .. }
        | SetCall::Disjoint { .. }
        | SetCall::Iter { .. } => unreachable!(),
    }
}
