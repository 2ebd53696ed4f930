//! Whether an entry has the reply of the plain containers, for the judge; the containers are then
//! as the entry leaves them.
ghost use Rattle.std.specs.Prelude.{◌≡◌, ◌↔◌, ◌⊎◌, true, IsTrue, IfOk, OnOk, if◌then◌else◌};
ghost use Rattle.ft_model.specs.Worlds.{IsDeclared, HasRoom};
ghost use Rattle.ft_model.specs.Answers.{answer, is_memory};
ghost use Rattle.ft_model.specs.Histories.{IsReplied};
ghost use Rattle.ft_history.specs.Internal.States.{IsAskable};

use crate::equal::same_reply;
use crate::rules::is_memory_error;
use ft_model::{Call, Entry, Hands, Reply, World, apply};
use std::alloc::{AllocError, Global};

/// Whether the reply is the plain containers', or a MemoryError, or of its section's form. The world
/// and the hands are then those after the call.
pub fn is_replied(
    alloc: Global,
    world: &mut World,
    hands: &mut Hands,
    entry: &Entry,
) -> Result<bool, AllocError>
    requires askable { IsAskable world.old hands.old entry.now.call }
    requires room { IsDeclared world.old hands.old entry.now.call → HasRoom world.old entry.now.call }
    ensures right { IfOk result (λ right. IsTrue right ↔ IsReplied entry.now.call entry.now.reply (answer world.old hands.old entry.now.call).reply) }
    ensures world { OnOk result (world.new ≡ (if is_memory entry.now.reply then world.old else (answer world.old hands.old entry.now.call).world)) }
    ensures hands { OnOk result (hands.new ≡ (if is_memory entry.now.reply then hands.old else (answer world.old hands.old entry.now.call).hands)) }
{
    match entry.call {
        Call::Begin { .. } => Ok(matches!(entry.reply, Reply::Entered)),
        Call::End => Ok(matches!(entry.reply, Reply::Kept | Reply::Suspended(_))),
        Call::Quiesce | Call::Await { .. } => Ok(matches!(entry.reply, Reply::Done)),
        Call::Dict { .. }
        | Call::List { .. }
        | Call::Set { .. }
        | Call::Deque { .. }
        | Call::Next { .. }
        | Call::Dump => is_answered(alloc, world, hands, entry),
    }
}

/// Whether the containers reply so, or the reply is a MemoryError.
fn is_answered(
    alloc: Global,
    world: &mut World,
    hands: &mut Hands,
    entry: &Entry,
) -> Result<bool, AllocError>
    requires declared { IsDeclared world.old hands.old entry.now.call }
    requires room { HasRoom world.old entry.now.call }
    ensures right { IfOk result (λ right. IsTrue right ↔ ((is_memory entry.now.reply ≡ true) ⊎ (entry.now.reply ≡ (answer world.old hands.old entry.now.call).reply))) }
    ensures world { OnOk result (world.new ≡ (if is_memory entry.now.reply then world.old else (answer world.old hands.old entry.now.call).world)) }
    ensures hands { OnOk result (hands.new ≡ (if is_memory entry.now.reply then hands.old else (answer world.old hands.old entry.now.call).hands)) }
{
    if is_memory_error(&entry.reply) {
        return Ok(true);
    }
    let reply = apply(alloc, world, hands, &entry.call)?;
    Ok(same_reply(&entry.reply, &reply))
}
