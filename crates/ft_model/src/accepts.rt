//! The conditions of a call, asked as a program, for callers that have no proof of them.
ghost use Rattle.std.specs.Prelude.{◌≡◌, ◌↔◌, ◌+◌, ◌^◌, ◌<◌, [], ◌∷◌, IsTrue, Option, slice_index_or};
ghost use Rattle.ft_model.specs.declared.content.Content.TheVariants.{List};
ghost use Rattle.ft_model.specs.Worlds.{IsOfKind, IsNamed, IsDeclared, HasSerials, HasRoom, kind_of, cursor_kind, container_of, length_of};

use crate::call::{Call, Containers};
use crate::content::Content;
use crate::script::Kind;
use crate::world::{Hands, World};

/// Whether the call may be made there: whether the containers that it names are declared and of its
/// kind, and the cursor of a `next` was made. A dump may always be made. The calls of sections,
/// `quiesce` and `await` are none that a container answers.
pub fn is_declared(world: &World, hands: &Hands, call: &Call) -> bool
    ensures { IsTrue result ↔ IsDeclared world.now hands.now call.now }
{
    match *call {
        Call::Dict { container, call } => {
            is_named(
                world,
                hands,
                Kind::Dict,
                container,
                call.other(),
                call.cursor(),
            )
        }
        Call::List { container, call } => {
            is_named(
                world,
                hands,
                Kind::List,
                container,
                call.other(),
                call.cursor(),
            )
        }
        Call::Set { container, call } => {
            is_named(
                world,
                hands,
                Kind::Set,
                container,
                call.other(),
                call.cursor(),
            )
        }
        Call::Deque { container, call } => {
            is_named(
                world,
                hands,
                Kind::Deque(None),
                container,
                call.other(),
                call.cursor(),
            )
        }
        Call::Next { cursor } => match hands.cursors().get(cursor as usize).copied() {
            Some(Some(cursor)) => is_of_kind(world, cursor.kind(), cursor.container()),
            _ => false,
        },
        Call::Dump => true,
        Call::Begin { .. } | Call::End | Call::Quiesce | Call::Await { .. } => false,
    }
}

fn is_named(
    world: &World,
    hands: &Hands,
    kind: Kind,
    container: u32,
    other: Option<u32>,
    cursor: Option<u32>,
) -> bool
    ensures { IsTrue result ↔ IsNamed world.now hands.now kind container other cursor }
{
    is_of_kind(world, kind, container)
        && other.is_none_or(|place| is_of_kind(world, kind, place))
        && cursor.is_none_or(|number| (number as usize) < hands.cursors().len())
}

/// Whether a container of that kind stands at the place. A deque is one whatever bounds it.
fn is_of_kind(world: &World, kind: Kind, place: u32) -> bool
    ensures { IsTrue result ↔ IsOfKind world.now kind place }
{
    match world.contents().get(place as usize) {
        Some(content) => is_of(content, kind),
        None => false,
    }
}

/// Whether the container is of that kind.
fn is_of(content: &Content, kind: Kind) -> bool
    ensures { IsTrue result ↔ IsOfKind (content.now ∷ []) kind 0 }
{
    match kind {
        Kind::Dict => content.kind() == Kind::Dict,
        Kind::List => content.kind() == Kind::List,
        Kind::Set => content.kind() == Kind::Set,
        Kind::Deque(_) => matches!(content, Content::Deque(_)),
    }
}

/// Whether each dict or set that the call names has serials left for as much as there is in all
/// that it names, so that no serial comes to 2^63, and each deque room to count a change.
pub fn has_room(world: &World, call: &Call) -> bool
    ensures { IsTrue result ↔ HasRoom world.now call.now }
{
    match call.containers() {
        Containers::None => true,
        Containers::One(first) => has_serials(world, first, length_at(world, first)),
        Containers::Two(first, second) => {
            let added = length_at(world, first) + length_at(world, second);
            has_serials(world, first, added) && has_serials(world, second, added)
        }
    }
}

fn has_serials(world: &World, place: u32, added: u64) -> bool
    ensures { IsTrue result ↔ HasSerials added (slice_index_or world.now place (List [])) }
{
    match world.contents().get(place as usize) {
        Some(Content::Dict(dict)) => leaves(dict.next_serial(), added),
        Some(Content::Set(set)) => leaves(set.next_serial(), added),
        Some(Content::Deque(deque)) => deque.moves() < 1 << 63,
        Some(Content::List(_)) | None => true,
    }
}

fn leaves(next: u64, added: u64) -> bool
    ensures { IsTrue result ↔ (next + added < 2 ^ 63) }
{
    next.checked_add(added).is_some_and(|end| end < 1 << 63)
}

fn length_at(world: &World, place: u32) -> u64
    ensures length { result ≡ length_of (slice_index_or world.now place (List [])) }
    ensures small { result < 2 ^ 63 }
{
    match world.contents().get(place as usize) {
        Some(content) => content.len() as u64,
        None => 0,
    }
}
