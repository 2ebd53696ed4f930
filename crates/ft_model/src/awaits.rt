//! Which calls a thread may await, asked as a program.
ghost use Rattle.std.specs.Prelude.{◌↔◌, ◌≤◌, IsTrue, IsSomeAnd, length, slice_get};
ghost use Rattle.ft_model.specs.declared.call.Call.TheVariants.{Await};
ghost use Rattle.ft_model.specs.Scripts.{IsAwaitOf};

use crate::script::Thread;

/// Whether the thread of that number may await a call of another one: a call of a thread that is
/// declared before it, by its index from 1.
pub fn may_await(threads: &[Thread], number: u32, thread: u32, index: u32) -> bool
    ensures { IsTrue result ↔ IsAwaitOf threads.now number (Await thread index) }
{
    thread < number && index >= 1 && has_call(threads, thread, index)
}

/// Whether there is such a thread, with as many calls.
fn has_call(threads: &[Thread], thread: u32, index: u32) -> bool
    ensures { IsTrue result ↔ IsSomeAnd (slice_get threads.now thread) (λ named. index ≤ length named.calls) }
{
    match threads.get(thread as usize) {
        Some(named) => index as usize <= named.calls.len(),
        None => false,
    }
}
