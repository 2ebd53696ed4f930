//! The last writes on a container by two threads, which is all that the rule on kept sections needs
//! to know.
ghost use Rattle.std.specs.Prelude.{◌≡◌, ◌+◌, ◌<◌, ◌==◌, ℕ, All, if◌then◌else◌, slice_index_or, vec_len};
ghost use Rattle.std.specs.List.{list_any};
ghost use Rattle.ft_model.specs.Calls.{container_list};
ghost use Rattle.ft_history.specs.declared.writers.LastWrites.{LastWrites};
ghost use Rattle.ft_history.specs.Internal.States.{after_one, is_written_since};

use ft_model::Containers;

/// A write on a container.
#[derive(Clone, Copy, Debug)]
pub struct Write {
    /// The thread that made it.
    pub thread: u32,
    /// Its place.
    pub place: u64,
}

/// The last writes on a container.
#[derive(Clone, Copy, Debug)]
pub struct LastWrites {
    /// The last write.
    pub last: Option<Write>,
    /// The place of the last write by another thread than that one's.
    pub other: Option<u64>,
}

/// Notes a write on containers.
pub fn note_write(containers: &mut Vec<LastWrites>, named: Containers, thread: u32, place: u64)
    requires { All (λ container. container < vec_len containers.old) (container_list named) }
    ensures length { vec_len containers.new ≡ vec_len containers.old }
    ensures noted { (container : ℕ) (other : LastWrites) → slice_index_or containers.new.items container other
        ≡ (if list_any (λ name. name == container) (container_list named) then after_one (slice_index_or containers.old.items container other) thread place else slice_index_or containers.old.items container other) }
{
    match named {
        Containers::None => {}
        Containers::One(only) => note_one(containers, only, thread, place),
        Containers::Two(first, second) => {
            note_one(containers, first, thread, place);
            note_one(containers, second, thread, place);
        }
    }
}

/// Notes a write on a container.
fn note_one(containers: &mut Vec<LastWrites>, container: u32, thread: u32, place: u64)
    requires { container < vec_len containers.old }
    ensures length { vec_len containers.new ≡ vec_len containers.old }
    ensures noted { (any : ℕ) (other : LastWrites) → slice_index_or containers.new.items any other
        ≡ (if container == any then after_one (slice_index_or containers.old.items any other) thread place else slice_index_or containers.old.items any other) }
{
    let writes = containers[container as usize];
    containers[container as usize] = after_write(writes, thread, place);
}

/// The last writes, after one more.
fn after_write(writes: LastWrites, thread: u32, place: u64) -> LastWrites
    ensures { result ≡ after_one writes thread place }
{
    LastWrites {
        last: Some(Write { thread, place }),
        other: match writes.last {
            Some(last) if last.thread != thread => Some(last.place),
            _ => writes.other,
        },
    }
}

/// Whether another thread than this one wrote after the place.
pub fn wrote_after(writes: LastWrites, thread: u32, place: u64) -> bool
    ensures { result ≡ is_written_since writes thread (place + 1) }
{
    match writes.last {
        Some(last) if last.thread != thread => last.place > place,
        Some(_) => match writes.other {
            Some(other) => other > place,
            None => false,
        },
        None => false,
    }
}
