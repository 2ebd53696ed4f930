//! Each rule of a legal history, asked of one entry, for the judge.
ghost use Rattle.std.specs.Prelude.{◌≡◌, ◌≢◌, ◌↔◌, ℕ, ◌+◌, ◌-◌, ◌<◌, ◌++◌, true, false, length, drop, IsTrue, IfSome, Some, slice_get};
ghost use Rattle.std.specs.List.{list_any};
ghost use Rattle.ft_model.specs.Calls.{container_list};
ghost use Rattle.ft_model.specs.Worlds.{containers_used};
ghost use Rattle.ft_model.specs.Answers.{is_write, is_memory};
ghost use Rattle.std.specs.Ordering.{is_lt};
ghost use Rattle.ft_model.specs.Histories.{history_cmp, IsCountedAs, IfEnds};
ghost use Rattle.ft_model.specs.Judging.{IsAfter};
ghost use Rattle.ft_history.specs.Internal.States.{is_used, all_begun, after_begun, inner_begun, is_written_on, IsKeptSince, NamesThread, HasMade};

use crate::equal::same_call;
use crate::merging::history_order;
use crate::progress::{OpenSection, ThreadProgress};
use crate::writers::{LastWrites, wrote_after};
use ft_model::{Call, Containers, Entry, Hands, Raise, Reply};

/// Whether the entry is the call after those that its thread has made.
pub fn is_next(calls: &[Call], made: u64, entry: &Entry) -> bool
    ensures { IsTrue result ↔ ((entry.now.index ≡ made + 1) × (slice_get calls.now made ≡ Some entry.now.call)) }
{
    match calls.get(made as usize) {
        Some(call) => {
            same_call(call, &entry.call) && entry.index > 0 && u64::from(entry.index) - 1 == made
        }
        None => false,
    }
}

/// Whether the stamp is the number of writes so far, and the entry is marked as a write where it is
/// one.
pub fn is_stamped(writes: u64, entry: &Entry) -> bool
    ensures { IsTrue result ↔ ((entry.now.stamp ≡ writes) × (entry.now.wrote ≡ is_write entry.now.call entry.now.reply)) }
{
    entry.stamp == writes && entry.wrote == (entry.call.is_changing() && !entry.reply.is_raised())
}

/// Whether a read does not stand after a read of its stamp that belongs after it.
pub fn is_after(entries: &[Entry], place: usize, entry: &Entry) -> bool
    requires { place < length entries.now }
    ensures { IsTrue result ↔ IsAfter entries.now place entry.now }
{
    if place == 0 {
        return true;
    }
    follows(&entries[place - 1], entry)
}

/// Whether two entries are no reads of one stamp, or stand in the order of a history.
fn follows(before: &Entry, entry: &Entry) -> bool
    ensures { IsTrue result ↔ (before.now.wrote ≡ false → entry.now.wrote ≡ false → before.now.stamp ≡ entry.now.stamp → is_lt (history_cmp entry.now before.now) ≡ false) }
{
    if before.wrote || entry.wrote || before.stamp != entry.stamp {
        return true;
    }
    !history_order(entry, before).is_lt()
}

/// Whether a reply is a MemoryError, of whatever cause.
pub fn is_memory_error(reply: &Reply) -> bool
    ensures { result ≡ is_memory reply.now }
{
    matches!(
        reply,
        Reply::Raised(Raise::Memory(_) | Raise::Over | Raise::Heap)
    )
}

/// Whether the call that an await names was made.
pub fn is_awaited_right(threads: &[ThreadProgress], call: &Call) -> bool
    requires { NamesThread (length threads.now) call.now }
    ensures { IsTrue result ↔ HasMade threads.now call.now }
{
    match *call {
        Call::Await { thread, index } => u64::from(index) <= threads[thread as usize].made,
        Call::Dict { .. }
        | Call::List { .. }
        | Call::Set { .. }
        | Call::Deque { .. }
        | Call::Next { .. }
        | Call::Begin { .. }
        | Call::End
        | Call::Quiesce
        | Call::Dump => true,
    }
}

/// Whether the mark names another thread, which has a call on one of the containers.
pub fn is_marked_right(
    users: &[Vec<bool>],
    entry: &Entry,
    own: Containers,
    inner: Containers,
) -> bool
    ensures { IsTrue result ↔ IfSome entry.now.waited (λ thread. (thread ≢ entry.now.thread) × (list_any (is_used users.now thread) (container_list own ++ container_list inner) ≡ true)) }
{
    match entry.waited {
        Some(thread) => {
            thread != entry.thread
                && (uses_one(users, thread, own) || uses_one(users, thread, inner))
        }
        None => true,
    }
}

/// Whether the thread has a call on one of the containers.
fn uses_one(users: &[Vec<bool>], thread: u32, containers: Containers) -> bool
    ensures { result ≡ list_any (is_used users.now thread) (container_list containers) }
{
    match containers {
        Containers::None => false,
        Containers::One(only) => uses(users, thread, only),
        Containers::Two(first, second) => {
            uses(users, thread, first) || uses(users, thread, second)
        }
    }
}

/// Whether the thread has a call on the container.
fn uses(users: &[Vec<bool>], thread: u32, container: u32) -> bool
    ensures { result ≡ is_used users.now thread container }
{
    match users.get(thread as usize) {
        Some(used) => used.get(container as usize).copied().unwrap_or(false),
        None => false,
    }
}

/// The containers whose locks a call needs for itself: those that it names, or that of its cursor.
pub fn containers_needed(hands: &Hands, call: &Call) -> Containers
    ensures { container_list result ≡ containers_used hands.now call.now }
{
    match call {
        Call::Next { cursor } => match hands.cursors().get(*cursor as usize) {
            Some(Some(cursor)) => Containers::One(cursor.container()),
            _ => Containers::None,
        },
        Call::Dict { .. }
        | Call::List { .. }
        | Call::Set { .. }
        | Call::Deque { .. }
        | Call::Begin { .. }
        | Call::End
        | Call::Quiesce
        | Call::Await { .. }
        | Call::Dump => call.containers(),
    }
}

/// The containers of the section that is innermost after the call.
pub fn inner_containers(sections: &[OpenSection], call: &Call) -> Containers
    ensures { (place marks : ℕ) → container_list result ≡ inner_begun (after_begun place marks call.now (all_begun sections.now)) }
{
    match call {
        Call::Begin { .. } => call.containers(),
        Call::End => innermost_but_one(sections),
        Call::Dict { .. }
        | Call::List { .. }
        | Call::Set { .. }
        | Call::Deque { .. }
        | Call::Next { .. }
        | Call::Quiesce
        | Call::Await { .. }
        | Call::Dump => innermost(sections),
    }
}

/// The containers of the section that is innermost after the end of one.
fn innermost_but_one(sections: &[OpenSection]) -> Containers
    ensures { container_list result ≡ inner_begun (drop 1 (all_begun sections.now)) }
{
    match sections {
        [outer @ .., _] => innermost(outer),
        [] => innermost(sections),
    }
}

/// The containers of the innermost section.
fn innermost(sections: &[OpenSection]) -> Containers
    ensures { container_list result ≡ inner_begun (all_begun sections.now) }
{
    match sections {
        [.., section] => section.containers,
        [] => Containers::None,
    }
}

/// Whether an `end` says kept only where no other thread wrote on the section's containers.
pub fn is_kept_right(containers: &[LastWrites], sections: &[OpenSection], entry: &Entry) -> bool
    ensures { IsTrue result ↔ IfEnds (all_begun sections.now) entry.now.call (λ section. IsKeptSince containers.now entry.now.thread section entry.now.reply) }
{
    match &entry.call {
        Call::End => match (sections, &entry.reply) {
            ([.., section], Reply::Kept) => !is_disturbed(containers, entry.thread, section),
            _ => true,
        },
        Call::Dict { .. }
        | Call::List { .. }
        | Call::Set { .. }
        | Call::Deque { .. }
        | Call::Next { .. }
        | Call::Begin { .. }
        | Call::Quiesce
        | Call::Await { .. }
        | Call::Dump => true,
    }
}

/// Whether another thread wrote on a container of the section after its `begin`.
fn is_disturbed(containers: &[LastWrites], thread: u32, section: &OpenSection) -> bool
    ensures { result ≡ list_any (is_written_on containers.now thread (section.now.begun + 1)) (container_list section.now.containers) }
{
    match section.containers {
        Containers::None => false,
        Containers::One(only) => is_written(containers, thread, section.begun, only),
        Containers::Two(first, second) => {
            is_written(containers, thread, section.begun, first)
                || is_written(containers, thread, section.begun, second)
        }
    }
}

/// Whether another thread wrote on the container after a place.
fn is_written(containers: &[LastWrites], thread: u32, begun: u64, container: u32) -> bool
    ensures { result ≡ is_written_on containers.now thread (begun + 1) container }
{
    match containers.get(container as usize) {
        Some(writes) => wrote_after(*writes, thread, begun),
        None => false,
    }
}

/// Whether an `end` says how many calls in its section waited, of that many in all.
pub fn is_counted_right(marks: u64, sections: &[OpenSection], entry: &Entry) -> bool
    ensures { IsTrue result ↔ IfEnds (all_begun sections.now) entry.now.call (λ section. IsCountedAs (marks - section.marks) entry.now.reply) }
{
    match &entry.call {
        Call::End => match (sections, &entry.reply) {
            ([.., section], Reply::Kept) => marks.saturating_sub(section.marks) == 0,
            ([.., section], Reply::Suspended(count)) => {
                *count >= 1 && marks.saturating_sub(section.marks) == u64::from(*count)
            }
            _ => true,
        },
        Call::Dict { .. }
        | Call::List { .. }
        | Call::Set { .. }
        | Call::Deque { .. }
        | Call::Next { .. }
        | Call::Begin { .. }
        | Call::Quiesce
        | Call::Await { .. }
        | Call::Dump => true,
    }
}
