//! How far one thread has come in a history: its calls, its cursors, its open sections, how many of
//! its calls waited and how many put a value in a box.
ghost use Rattle.std.specs.Prelude.{◌≡◌, ◌↔◌, ◌&&◌, ◌+◌, ◌<◌, ◌^◌, IsTrue, IfOk, OnOk, is_some, if◌then◌else◌};
ghost use Rattle.ft_model.specs.Worlds.{IsDeclared, HasRoom};
ghost use Rattle.ft_model.specs.Answers.{answer, is_memory};
ghost use Rattle.ft_model.specs.Boxings.{boxes};
ghost use Rattle.ft_model.specs.Histories.{IsReplied};
ghost use Rattle.ft_history.specs.Internal.States.{IsAskable, all_begun, after_begun};

use crate::replies::is_replied;
use ft_model::{Call, Containers, Entry, Hands, World, boxes};
use std::alloc::{AllocError, Global};

/// An open section of a thread.
#[derive(Clone, Copy, Debug)]
pub struct OpenSection {
    /// Its containers.
    pub containers: Containers,
    /// The place of its `begin`.
    pub begun: u64,
    /// How many calls of the thread had waited by then, the `begin` among them.
    pub marks: u64,
}

/// How far a thread has come.
#[derive(Drop)]
pub struct ThreadProgress {
    /// How many of its calls it has made.
    pub made: u64,
    /// How many of these waited for a lock.
    pub marks: u64,
    /// How many of these were writes that put a value in a box.
    pub boxed: u64,
    /// Its cursors.
    pub hands: Hands,
    /// Its open sections, the innermost last.
    pub sections: Vec<OpenSection>,
}

/// Whether the entry's reply is right, and goes on after it: in the world, and in the thread.
pub fn go_through(
    alloc: Global,
    world: &mut World,
    progress: &mut ThreadProgress,
    place: u64,
    entry: &Entry,
) -> Result<bool, AllocError>
    requires askable { IsAskable world.old progress.old.hands entry.now.call }
    requires room { IsDeclared world.old progress.old.hands entry.now.call → HasRoom world.old entry.now.call }
    requires made { progress.old.made < 2 ^ 63 }
    requires marks { progress.old.marks < 2 ^ 63 }
    requires boxed { progress.old.boxed < 2 ^ 63 }
    ensures right { IfOk result (λ right. IsTrue right ↔ IsReplied entry.now.call entry.now.reply (answer world.old progress.old.hands entry.now.call).reply) }
    ensures world { OnOk result (world.new ≡ (if is_memory entry.now.reply then world.old else (answer world.old progress.old.hands entry.now.call).world)) }
    ensures hands { OnOk result (progress.new.hands ≡ (if is_memory entry.now.reply then progress.old.hands else (answer world.old progress.old.hands entry.now.call).hands)) }
    ensures made { OnOk result (progress.new.made ≡ progress.old.made + 1) }
    ensures marks { OnOk result (progress.new.marks ≡ progress.old.marks + (if is_some entry.now.waited then 1 else 0)) }
    ensures boxed { OnOk result (progress.new.boxed ≡ progress.old.boxed + (if entry.now.wrote && boxes world.old entry.now.call then 1 else 0)) }
    ensures sections { OnOk result (all_begun progress.new.sections.items ≡ after_begun place progress.new.marks entry.now.call (all_begun progress.old.sections.items)) }
{
    let boxed = entry.wrote && boxes(world, &entry.call);
    let right = is_replied(alloc, world, &mut progress.hands, entry)?;
    go_on(progress, place, entry)?;
    if boxed {
        progress.boxed += 1;
    }
    Ok(right)
}

/// Goes on after an entry of the thread, but for what its call does to the cursors and for the count of
/// values that were put in boxes.
fn go_on(progress: &mut ThreadProgress, place: u64, entry: &Entry) -> Result<(), AllocError>
    requires made { progress.old.made < 2 ^ 63 }
    requires marks { progress.old.marks < 2 ^ 63 }
    ensures made { OnOk result (progress.new.made ≡ progress.old.made + 1) }
    ensures marks { OnOk result (progress.new.marks ≡ progress.old.marks + (if is_some entry.now.waited then 1 else 0)) }
    ensures hands { progress.new.hands ≡ progress.old.hands }
    ensures boxed { progress.new.boxed ≡ progress.old.boxed }
    ensures sections { OnOk result (all_begun progress.new.sections.items ≡ after_begun place progress.new.marks entry.now.call (all_begun progress.old.sections.items)) }
{
    progress.made += 1;
    if entry.waited.is_some() {
        progress.marks += 1;
    }
    match entry.call {
        Call::Begin { .. } => {
            progress.sections.push(OpenSection {
                containers: entry.call.containers(),
                begun: place,
                marks: progress.marks,
            })?;
        }
        Call::End => {
            let _ = progress.sections.pop();
        }
        Call::Dict { .. }
        | Call::List { .. }
        | Call::Set { .. }
        | Call::Deque { .. }
        | Call::Next { .. }
        | Call::Quiesce
        | Call::Await { .. }
        | Call::Dump => {}
    }
    Ok(())
}
