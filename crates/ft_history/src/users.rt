//! Which containers each thread of a script has calls on, for the rule on marks.
ghost use Rattle.std.specs.Prelude.{◌≡◌, ◌||◌, ◌==◌, ℕ, ◌<◌, false, length, map, All, IfOk, slice_index_or, vec_len};
ghost use Rattle.std.specs.List.{list_any};
ghost use Rattle.ft_model.specs.Calls.{container_list, containers_of};
ghost use Rattle.ft_model.specs.Histories.{names};
ghost use Rattle.ft_model.specs.Scripts.{IsScript};
ghost use Rattle.ft_history.specs.Internal.States.{AreUsers};

use ft_model::{Call, Containers, ScriptParts};
use std::alloc::{AllocError, Global};

/// For each thread of a script, which of the containers its calls name.
pub fn users_of(alloc: Global, parts: &ScriptParts) -> Result<Vec<Vec<bool>>, AllocError>
    requires { IsScript parts.now }
    ensures { IfOk result (λ users. AreUsers parts.now users.items) }
{
    let containers = parts.containers.len();
    let mut users = Vec::new(alloc);
    for thread in parts.threads.as_slice() {
        users.push(used_by(alloc, containers, thread.calls.as_slice())?)?;
    }
    Ok(users)
}

/// Which of that many containers the calls name.
fn used_by(alloc: Global, containers: usize, calls: &[Call]) -> Result<Vec<bool>, AllocError>
    requires { All (λ call. All (λ container. container < containers) (containers_of call)) calls.now }
    ensures { IfOk result (λ used. (container : ℕ) → slice_index_or used.items container false ≡ list_any (names container) calls.now) }
{
    let mut used = vec![in alloc; false; containers]?;
    for call in calls {
        mark_all(&mut used, call.containers());
    }
    Ok(used)
}

/// Marks containers as used.
fn mark_all(used: &mut Vec<bool>, named: Containers)
    requires { All (λ container. container < vec_len used.old) (container_list named) }
    ensures length { vec_len used.new ≡ vec_len used.old }
    ensures marked { (other : ℕ) → slice_index_or used.new.items other false ≡ (slice_index_or used.old.items other false || list_any (λ container. container == other) (container_list named)) }
{
    match named {
        Containers::None => {}
        Containers::One(only) => mark(used, only),
        Containers::Two(first, second) => {
            mark(used, first);
            mark(used, second);
        }
    }
}

/// Marks a container as used.
fn mark(used: &mut Vec<bool>, container: u32)
    requires { container < vec_len used.old }
    ensures length { vec_len used.new ≡ vec_len used.old }
    ensures marked { (other : ℕ) → slice_index_or used.new.items other false ≡ (slice_index_or used.old.items other false || container == other) }
{
    used[container as usize] = true;
}
