//! Whether a MemoryError has its cause, and none is missing. What the account says is what the writes
//! before the entry come to, and so is the number of the thread's boxings.
ghost use Rattle.std.specs.Prelude.{◌≡◌, ◌↔◌, List, [], All, IsTrue, true, false, not, length};
ghost use Rattle.ft_model.specs.declared.call.Call.{Call};
ghost use Rattle.ft_model.specs.declared.entry.Entry.{Entry};
ghost use Rattle.ft_model.specs.declared.entry.Storage.TheVariants as storage;
ghost use Rattle.ft_model.specs.Answers.{answer, is_raised};
ghost use Rattle.ft_model.specs.Boxings.{boxes, boxings};
ghost use Rattle.ft_model.specs.Worlds.{starts_of, no_hands};
ghost use Rattle.ft_model.specs.TableUses.{stored_after, would_pass, IsClassEarned, IsHeapEarned, IsEarned};
ghost use Rattle.ft_history.specs.Internal.Accounts.{AreOfKind, IsAccount};

use crate::account::TableAccount;
use crate::passing::would_pass;
use ft_model::{
    Call, Entry, GREATEST_CLASS, LEAST_CLASS, ListCall, Raise, Reply, ScriptParts, World, boxes,
};

/// Whether a MemoryError has its cause, and none is missing, where containers are on tables and the
/// entry's thread has put that many values in boxes.
pub fn is_earned(
    parts: &ScriptParts,
    world: &World,
    account: &TableAccount,
    boxed: u64,
    entry: &Entry,
) -> bool
    requires kinds { AreOfKind world.now entry.now.call }
    requires unsplit { All (λ container. container.start.keys ≡ []) parts.now.containers }
    ensures { (calls : List Call) (mine : List Entry) → world.now ≡ (stored_after parts.now calls).world → IsAccount parts.now calls account.now → boxed ≡ boxings (starts_of parts.now.containers) calls mine → IsTrue result ↔ IsEarned storage.Tables parts.now calls mine entry.now }
{
    let passes = would_pass(world, &entry.call);
    match entry.reply {
        Reply::Raised(Raise::Memory(class)) => {
            entry.call.can_add() && !passes && is_class_earned(parts, account, class)
        }
        Reply::Raised(Raise::Over) => passes,
        Reply::Raised(Raise::Heap) => !passes && is_heap_earned(parts, world, boxed, &entry.call),
        _ => !passes,
    }
}

/// Whether earlier calls, and one of each other thread, can have taken all tables of the class.
fn is_class_earned(parts: &ScriptParts, account: &TableAccount, class: u32) -> bool
    ensures { (calls : List Call) → IsAccount parts.now calls account.now → IsTrue result ↔ IsClassEarned (starts_of parts.now.containers) parts.now.tables (length parts.now.threads) calls class }
{
    if !(LEAST_CLASS..=GREATEST_CLASS).contains(&class) {
        return false;
    }
    let place = (class - LEAST_CLASS) as usize;
    let tables = parts.tables.as_slice().get(place).copied().unwrap_or(0);
    let taken = account.takings.get(place).copied().unwrap_or(0);
    let others = parts.threads.len().saturating_sub(1) as u64;
    u64::from(tables).saturating_sub(others) <= taken
}

/// Whether the call, which passes no largest table, would put a value in a box and raises nothing else,
/// and that many boxings of the thread can have filled its heap.
fn is_heap_earned(parts: &ScriptParts, world: &World, boxed: u64, call: &Call) -> bool
    requires { AreOfKind world.now call.now }
    ensures { (calls : List Call) (mine : List Entry) → world.now ≡ (stored_after parts.now calls).world → boxed ≡ boxings (starts_of parts.now.containers) calls mine → would_pass world.now call.now ≡ false → IsTrue result ↔ IsHeapEarned (starts_of parts.now.containers) parts.now.heap calls mine call.now }
{
    boxes(world, call) && finds_place(world, call) && u64::from(parts.heap) <= boxed
}

/// Whether a call that would put a value in a box raises nothing else: the item of a list that it sets
/// is there.
fn finds_place(world: &World, call: &Call) -> bool
    requires { AreOfKind world.now call.now }
    ensures { boxes world.now call.now ≡ true → result ≡ not (is_raised (answer world.now no_hands call.now).reply) }
{
    match *call {
        Call::List {
            container,
            call: ListCall::Set { index, .. },
        } => world.list(container).get(index).is_some(),
        _ => true,
    }
}
