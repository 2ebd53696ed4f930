//! What the judge has in hand between two entries. It is what the entries before the place make of
//! a history, and nothing else.
ghost use Rattle.std.specs.Prelude.{◌≡◌, ℕ, Some, None, List, length, replicate, slice_get, IfOk, vec_len};
ghost use Rattle.ft_model.specs.declared.entry.Entry.{Entry};
ghost use Rattle.ft_model.specs.Scripts.{IsScript};
ghost use Rattle.ft_model.specs.declared.script.Thread.{Thread};
ghost use Rattle.ft_history.specs.declared.progress.ThreadProgress.{ThreadProgress};
ghost use Rattle.ft_history.specs.Internal.Steps.{IsState};
ghost use Rattle.ft_history.specs.Internal.States.{IsFreshProgress};

use crate::account::{TableAccount, start_account};
use crate::progress::ThreadProgress;
use crate::writers::LastWrites;
use ft_model::{Hands, ScriptParts, Thread, World};
use std::alloc::{AllocError, Global};

/// What a history comes to, up to a place.
#[derive(Drop)]
pub struct State {
    /// What the containers have.
    pub world: World,
    /// How many writes there were.
    pub writes: u64,
    /// How far each thread has come.
    pub threads: Vec<ThreadProgress>,
    /// The last writes on each container.
    pub containers: Vec<LastWrites>,
    /// The tables that containers on tables would have.
    pub account: TableAccount,
}

/// The state at the start of a script.
pub fn start(alloc: Global, parts: &ScriptParts) -> Result<State, AllocError>
    requires { IsScript parts.now }
    ensures { IfOk result (λ state. (entries : List Entry) → IsState parts.now entries 0 state) }
{
    let containers = parts.containers.as_slice();
    Ok(State {
        world: World::start(alloc, containers)?,
        writes: 0,
        threads: start_threads(alloc, parts.threads.as_slice())?,
        containers: start_containers(alloc, containers.len())?,
        account: start_account(alloc, parts)?,
    })
}

/// No thread has made a call.
fn start_threads(alloc: Global, threads: &[Thread]) -> Result<Vec<ThreadProgress>, AllocError>
    ensures length { IfOk result (λ all. vec_len all ≡ length threads.now) }
    ensures fresh { IfOk result (λ all. (thread : ℕ) (found : Thread) (progress : ThreadProgress) → slice_get threads.now thread ≡ Some found → slice_get all.items thread ≡ Some progress → IsFreshProgress found progress) }
{
    let mut all = Vec::new(alloc);
    for thread in threads {
        all.push(ThreadProgress {
            made: 0,
            marks: 0,
            boxed: 0,
            hands: Hands::start(alloc, thread.cursors.len())?,
            sections: Vec::new(alloc),
        })?;
    }
    Ok(all)
}

/// Nothing is written.
fn start_containers(alloc: Global, count: usize) -> Result<Vec<LastWrites>, AllocError>
    ensures { IfOk result (λ all. all.items ≡ replicate count (record { last = None; other = None })) }
{
    let mut all = Vec::new(alloc);
    for _ in 0..count {
        all.push(LastWrites {
            last: None,
            other: None,
        })?;
    }
    Ok(all)
}
