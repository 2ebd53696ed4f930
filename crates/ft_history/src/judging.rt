//! The judge: it goes through the entries of a history once, with the plain containers beside it,
//! and stops at the first rule that is broken.
ghost use Rattle.std.specs.Prelude.{◌≡◌, ◌↔◌, ℕ, List, [], IsTrue, ◌+◌, ◌<◌, ◌≤◌, ◌^◌, All, length, take, IfOk, IfNone, Some, slice_get, vec_len};
ghost use Rattle.ft_model.specs.Scripts.{IsScript};
ghost use Rattle.ft_model.specs.Judging.{IsNext};
ghost use Rattle.ft_model.specs.declared.entry.Entry.{Entry};
ghost use Rattle.ft_model.specs.declared.entry.Storage.{Storage};
ghost use Rattle.ft_model.specs.declared.script.ScriptParts.{ScriptParts};
ghost use Rattle.ft_model.specs.Calls.{containers_of};
ghost use Rattle.ft_model.specs.Worlds.{IsDeclared, HasRoom};
ghost use Rattle.ft_model.specs.Classes.{class_count};
ghost use Rattle.ft_model.specs.Histories.{writes, world_at, IsAwaited, IsEarnedAt};
ghost use Rattle.ft_history.specs.Internal.Accounts.{AreOfKind};
ghost use Rattle.ft_history.specs.declared.progress.ThreadProgress.{ThreadProgress};
ghost use Rattle.ft_history.specs.Verdicts.{IsVerdict};
ghost use Rattle.ft_history.specs.declared.verdict.Verdict.TheVariants as verdict;
ghost use Rattle.ft_history.specs.Internal.States.{AreUsers, IsAskable, NamesThread};
ghost use Rattle.ft_history.specs.Internal.Steps.{IsState, IsUnbrokenBefore, FindsEarly, FindsLate, FindsBroken, GoesAfter, HaveMadeAll};

use crate::account::note_taking;
use crate::memory::is_earned;
use crate::progress::{ThreadProgress, go_through};
use crate::rules::{
    containers_needed, inner_containers, is_after, is_awaited_right, is_counted_right,
    is_kept_right, is_marked_right, is_memory_error, is_next, is_stamped,
};
use crate::sizes::size_of_own;
use crate::state::{State, start};
use crate::users::users_of;
use crate::verdict::{Judgement, Verdict};
use crate::writers::note_write;
use ft_model::{Entry, Rule, Script, ScriptParts, Storage, Thread};
use std::alloc::{AllocError, Global};

/// Judges the history of a script whose containers are stored so: that it is legal, or the first
/// place at which a rule is broken and the first rule that is broken there. It goes through the
/// entries once. An `Err` says that memory ran out.
pub fn judge(
    alloc: Global,
    storage: Storage,
    script: &Script,
    entries: &[Entry],
) -> Result<Verdict, AllocError>
    ensures { IfOk result (λ found. IsVerdict storage script.now entries.now found) }
{
    Ok(judge_with_world(alloc, storage, script, entries)?.verdict)
}

/// Judges the history of a script as `judge` does, and answers also what the containers have after
/// all writes of a legal one.
pub fn judge_with_world(
    alloc: Global,
    storage: Storage,
    script: &Script,
    entries: &[Entry],
) -> Result<Judgement, AllocError>
    ensures verdict { IfOk result (λ judged. IsVerdict storage script.now entries.now judged.verdict) }
    ensures world { IfOk result (λ judged. judged.verdict ≡ verdict.Legal → judged.world ≡ world_at script.now entries.now (length (writes entries.now))) }
{
    let parts = script.parts();
    let users = users_of(alloc, parts)?;
    let mut state = start(alloc, parts)?;
    for place in 0..entries.len() {
        if let Some(rule) = step(alloc, storage, parts, &users, &mut state, entries, place)? {
            return Ok(Judgement {
                verdict: Verdict::Not(place as u64 + 1, rule),
                world: state.world,
            });
        }
    }
    if is_complete(parts.threads.as_slice(), &state.threads) {
        return Ok(Judgement {
            verdict: Verdict::Legal,
            world: state.world,
        });
    }
    Ok(Judgement {
        verdict: Verdict::Not(entries.len() as u64 + 1, Rule::Missing),
        world: state.world,
    })
}

/// Whether each thread has made all its calls.
fn is_complete(threads: &[Thread], progresses: &[ThreadProgress]) -> bool
    requires { length threads.now ≡ length progresses.now }
    ensures { IsTrue result ↔ HaveMadeAll threads.now progresses.now }
{
    for (place, thread) in threads.iter().enumerate() {
        if progresses[place].made < thread.calls.len() as u64 {
            return false;
        }
    }
    true
}

/// Whether the entry is the next call of its thread.
fn holds_whole(parts: &ScriptParts, state: &State, entry: &Entry) -> bool
    ensures { (entries : List Entry) (place : ℕ) → IsState parts.now entries place state.now → IsTrue result ↔ IsNext parts.now entries place entry.now }
{
    let thread = entry.thread as usize;
    match (
        parts.threads.as_slice().get(thread),
        state.threads.get(thread),
    ) {
        (Some(found), Some(progress)) => is_next(found.calls.as_slice(), progress.made, entry),
        _ => false,
    }
}

/// Of the rules on a call's place, its stamp and its order, the first that the entry breaks.
fn early_rule(
    parts: &ScriptParts,
    state: &State,
    entries: &[Entry],
    place: usize,
    entry: &Entry,
) -> Option<Rule>
    requires place { place < length entries.now }
    requires state { IsState parts.now entries.now place state.now }
    ensures { (storage : Storage) → FindsEarly storage parts.now entries.now place entry.now result }
{
    if !holds_whole(parts, state, entry) {
        return Some(Rule::Whole);
    }
    if !is_stamped(state.writes, entry) {
        return Some(Rule::Stamp);
    }
    if !is_after(entries, place, entry) {
        return Some(Rule::Order);
    }
    None
}

/// Of the rules on awaits, marks, sections and MemoryErrors, the first that the entry breaks.
fn late_rule(
    storage: Storage,
    parts: &ScriptParts,
    users: &[Vec<bool>],
    state: &State,
    entry: &Entry,
) -> Option<Rule>
    requires thread { entry.now.thread < vec_len state.now.threads }
    requires kinds { AreOfKind state.now.world entry.now.call }
    requires awaits { NamesThread (vec_len state.now.threads) entry.now.call }
    requires unsplit { All (λ container. container.start.keys ≡ []) parts.now.containers }
    ensures { (entries : List Entry) (place : ℕ) → slice_get entries place ≡ Some entry.now → AreUsers parts.now users.now → IsState parts.now entries place state.now → FindsLate storage parts.now entries place entry.now result }
{
    if !has_awaited(state, entry) {
        return Some(Rule::Await);
    }
    let progress = &state.threads[entry.thread as usize];
    let own = containers_needed(&progress.hands, &entry.call);
    if !is_marked_right(
        users,
        entry,
        own,
        inner_containers(&progress.sections, &entry.call),
    ) {
        return Some(Rule::Mark);
    }
    if !is_kept_right(&state.containers, &progress.sections, entry) {
        return Some(Rule::Kept);
    }
    if !is_counted_right(progress.marks, &progress.sections, entry) {
        return Some(Rule::Suspended);
    }
    if !has_cause(storage, parts, state, entry) {
        return Some(Rule::Memory);
    }
    None
}

/// Whether the call that an await names stands before it.
fn has_awaited(state: &State, entry: &Entry) -> bool
    requires { NamesThread (vec_len state.now.threads) entry.now.call }
    ensures { (entries : List Entry) (place : ℕ) → (script : ScriptParts) → IsState script entries place state.now → IsTrue result ↔ IsAwaited entries place entry.now }
{
    is_awaited_right(&state.threads, &entry.call)
}

/// Whether the reply is a MemoryError where one is due, and nowhere without cause.
fn has_cause(storage: Storage, parts: &ScriptParts, state: &State, entry: &Entry) -> bool
    requires thread { entry.now.thread < vec_len state.now.threads }
    requires kinds { AreOfKind state.now.world entry.now.call }
    requires unsplit { All (λ container. container.start.keys ≡ []) parts.now.containers }
    ensures { (entries : List Entry) (place : ℕ) → IsState parts.now entries place state.now → IsTrue result ↔ IsEarnedAt storage parts.now entries place entry.now }
{
    match storage {
        Storage::Plain => !is_memory_error(&entry.reply),
        Storage::Tables => {
            let boxed = state.threads[entry.thread as usize].boxed;
            is_earned(parts, &state.world, &state.account, boxed, entry)
        }
    }
}

/// Whether the reply is right, and goes on after the entry.
fn go_after(alloc: Global, state: &mut State, place: u64, entry: &Entry) -> Result<bool, AllocError>
    requires thread { entry.now.thread < vec_len state.old.threads }
    requires askable { (progress : ThreadProgress) → slice_get state.old.threads.items entry.now.thread ≡ Some progress → IsAskable state.old.world progress.hands entry.now.call }
    requires room { (progress : ThreadProgress) → slice_get state.old.threads.items entry.now.thread ≡ Some progress → IsDeclared state.old.world progress.hands entry.now.call → HasRoom state.old.world entry.now.call }
    requires few { (progress : ThreadProgress) → slice_get state.old.threads.items entry.now.thread ≡ Some progress → (progress.made < 2 ^ 63) × (progress.marks < 2 ^ 63) × (progress.boxed < 2 ^ 63) }
    requires writes { state.old.writes < 2 ^ 63 }
    requires containers { All (λ container. container < vec_len state.old.containers) (containers_of entry.now.call) }
    requires account { vec_len state.old.account.takings ≡ class_count }
    requires takings { All (λ taken. taken < 2 ^ 63) state.old.account.takings.items }
    ensures { IfOk result (λ right. (before : ThreadProgress) × (after : ThreadProgress) × GoesAfter place entry.now right before after state.old state.new) }
{
    let size = size_of_own(&state.world, &entry.call);
    let progress = &mut state.threads[entry.thread as usize];
    let right = go_through(alloc, &mut state.world, progress, place, entry)?;
    if entry.wrote {
        state.writes += 1;
        note_write(
            &mut state.containers,
            entry.call.containers(),
            entry.thread,
            place,
        );
        note_taking(&mut state.account, &state.world, &entry.call, size);
    }
    Ok(right)
}

/// The first rule that the entry breaks, or none, and then the state is the one after it.
fn step(
    alloc: Global,
    storage: Storage,
    parts: &ScriptParts,
    users: &[Vec<bool>],
    state: &mut State,
    entries: &[Entry],
    place: usize,
) -> Result<Option<Rule>, AllocError>
    requires script { IsScript parts.now }
    requires users { AreUsers parts.now users.now }
    requires place { place < length entries.now }
    requires few { length entries.now < 2 ^ 63 }
    requires calls { place ≤ 500000 }
    requires state { IsState parts.now entries.now place state.old }
    ensures found { IfOk result (λ found. (entry : Entry) → slice_get entries.now place ≡ Some entry → FindsBroken storage parts.now entries.now place entry found) }
    ensures state { IfOk result (λ found. IfNone found (IsState parts.now entries.now (place + 1) state.new)) }
{
    let entry = &entries[place];
    if let Some(rule) = early_rule(parts, state, entries, place, entry) {
        return Ok(Some(rule));
    }
    let late = late_rule(storage, parts, users, state, entry);
    let right = go_after(alloc, state, place as u64, entry)?;
    Ok(if right { late } else { Some(Rule::Reply) })
}
