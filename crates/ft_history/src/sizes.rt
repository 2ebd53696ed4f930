//! How much a container has, noted before a call, so that the tables it takes can be counted after
//! it.
ghost use Rattle.std.specs.Prelude.{◌≡◌, length};
ghost use Rattle.ft_model.specs.Worlds.{list_at, deque_at};
ghost use Rattle.ft_history.specs.Internal.Accounts.{dict_size, set_size, size_at};

use ft_model::{Call, Content, World};

/// How far the serials of a container have come, and how much it has.
#[derive(Clone, Copy, Debug)]
pub struct Size {
    /// The next serial.
    pub next: u64,
    /// How many pairs, items or elements there are.
    pub count: u64,
}

/// That of the container on which a call is made. Of lists and deques nothing is asked.
pub fn size_of_own(world: &World, call: &Call) -> Size
    ensures { result ≡ size_at world.now call.now }
{
    match call {
        Call::Dict { container, .. } => size_of_dict(world, *container),
        Call::Set { container, .. } => size_of_set(world, *container),
        Call::List { .. }
        | Call::Deque { .. }
        | Call::Next { .. }
        | Call::Begin { .. }
        | Call::End
        | Call::Quiesce
        | Call::Await { .. }
        | Call::Dump => Size { next: 0, count: 0 },
    }
}

/// That of the dict at a place. A container of another kind counts as empty.
pub fn size_of_dict(world: &World, place: u32) -> Size
    ensures { result ≡ dict_size world.now place }
{
    match world.contents().get(place as usize) {
        Some(Content::Dict(dict)) => Size {
            next: dict.next_serial(),
            count: dict.len() as u64,
        },
        _ => Size { next: 0, count: 0 },
    }
}

/// That of the set at a place. A container of another kind counts as empty.
pub fn size_of_set(world: &World, place: u32) -> Size
    ensures { result ≡ set_size world.now place }
{
    match world.contents().get(place as usize) {
        Some(Content::Set(set)) => Size {
            next: set.next_serial(),
            count: set.len() as u64,
        },
        _ => Size { next: 0, count: 0 },
    }
}

/// How many items the list at a place has. A container of another kind counts as empty.
pub fn length_of_list(world: &World, place: u32) -> u64
    ensures { result ≡ length (list_at world.now place) }
{
    match world.contents().get(place as usize) {
        Some(Content::List(list)) => list.len() as u64,
        _ => 0,
    }
}

/// How many items the deque at a place has. A container of another kind counts as empty.
pub fn length_of_deque(world: &World, place: u32) -> u64
    ensures { result ≡ length (deque_at world.now place).items }
{
    match world.contents().get(place as usize) {
        Some(Content::Deque(deque)) => deque.len() as u64,
        _ => 0,
    }
}
