//! A search for a key on the walk of its hash. Each load is one slot's index word, or the payload or the
//! kind of the entry that it names, and the contracts keep the whole list of loads: for a reader
//! that takes words from many moments, and for a holder of a lock, whose words stay as they are.
ghost use Rattle.std.specs.Prelude.{◌≡◌, ◌≢◌, ℕ, ◌+◌, ◌<◌, ◌≤◌, List, length, Option, IfSome};
ghost use Rattle.ft_hash.specs.Probes.{IsMask};
ghost use Rattle.ft_layout.specs.Words.{FitsKey};
ghost use Rattle.ft_layout.specs.Tables.{dict_room};
ghost use Rattle.ft_keys.specs.declared.walk.Way.{Way};
ghost use Rattle.ft_keys.specs.declared.words.Access.{Access};
ghost use Rattle.ft_keys.specs.declared.search.Found.TheVariants.{Was};
ghost use Rattle.ft_keys.specs.Ways.{walk_slots};
ghost use Rattle.ft_keys.specs.Accesses.{Runs, index_loads};
ghost use Rattle.ft_keys.specs.Loads.{LoadsSlot, TriesOne, Searches};
ghost use Rattle.ft_keys.specs.WalkCosts.{most_loads};
ghost use Rattle.ft_keys.specs.Searches.{IsWithin, Searched, Shows};

use crate::steps::Steps;
use crate::walk::Walk;
use crate::words::Words;
use ft_layout::{gone_kind_of, kind_of, payload_of};
use ft_model::Key;
use std::sync::ledger::Ledger;

/// What a search came to.
#[derive(Clone, Copy, Debug, PartialEq, Eq, Hash)]
pub enum Found {
    /// The slot that names the key's entry, and the entry's place.
    At(u64, u64),
    /// The slot and the place of a deleted entry of the key, after which a further search goes on.
    Was(u64, u64),
    /// The slot at which the search ended, since it was never used.
    Free(u64),
    /// Every slot was tried.
    Spent,
}

/// What the loads of one slot came to.
#[derive(Clone, Copy)]
enum Compared {
    /// The slot was never used.
    Unused,
    /// It names the key's entry, which is there, at this place.
    Live(u64),
    /// It names a deleted entry of the key, at this place.
    Gone(u64),
    /// It names another's entry, or none.
    Other,
}

/// Loads a slot's index word and compares the entry that it names with the key, in a table with that
/// many entries.
#[inline(always)]
fn compare<W: Words>(words: &mut W, slot: u64, room: u64, key: Key) -> Compared
    requires can { W.can words.old }
    requires slot { slot ≤ W.mask words.old }
    requires room { room ≡ dict_room (W.mask words.old) }
    ensures can { W.can words.new × (W.may_put words.old → W.may_put words.new) × (W.mask words.new ≡ W.mask words.old) }
    ensures loads { (loads : List Access) × Runs W.gave words.old loads words.new
        × LoadsSlot (W.mask words.old) key slot loads result }
{
    let word = words.index(slot);
    if word == 0 {
        return Compared::Unused;
    }
    if word > room {
        return Compared::Other;
    }
    let place = word - 1;
    let payload = words.entry(place, 3);
    if payload != payload_of(key) {
        return Compared::Other;
    }
    let kind = words.entry(place, 2);
    if kind == kind_of(key) {
        return Compared::Live(place);
    }
    if kind == gone_kind_of(key) {
        return Compared::Gone(place);
    }
    Compared::Other
}

/// Tries the next slot of the walk. `None` says that the search goes on after it.
#[inline(always)]
fn try_slot<W: Words, L: Ledger>(
    words: &mut W,
    walk: &mut Walk,
    key: Key,
    steps: &mut Steps<L>,
) -> Option<Found>
    requires can { W.can words.old }
    requires mask { W.mask words.old ≡ walk.old.mask }
    ensures can { W.can words.new × (W.may_put words.old → W.may_put words.new) × (W.mask words.new ≡ W.mask words.old) }
    ensures mask { (walk.new.mask ≡ walk.old.mask) × IsMask walk.old.mask }
    ensures count { walk.new.passed + length walk.new.left ≡ walk.old.passed + length walk.old.left }
    ensures within { IfSome result (λ found. IsWithin walk.old.mask found) }
    ensures loads { (loads : List Access) × Runs W.gave words.old loads words.new
        × TriesOne walk.old.mask key walk.old.left walk.new.left result loads
        × (steps.new ≡ steps.old + index_loads loads) }
{
    let Some(slot) = walk.slot() else {
        return Some(Found::Spent);
    };
    steps.tick();
    match compare(words, slot, walk.room(), key) {
        Compared::Unused => Some(Found::Free(slot)),
        Compared::Live(place) => {
            walk.pass();
            Some(Found::At(slot, place))
        }
        Compared::Gone(place) => {
            walk.pass();
            Some(Found::Was(slot, place))
        }
        Compared::Other => {
            walk.pass();
            None
        }
    }
}

/// A key's integer has 64 bits, and its string's number 32.
pub(crate) fn key_fits(key: Key)
    ensures { FitsKey key }
{
    match key {
        Key::Int(integer) => {
            let _word = integer;
        }
        Key::Text(sym) => {
            let _number = sym.0;
        }
    }
}

/// Looks for the key on the walk of its hash: passes every slot that was used for another key, and
/// ends at the key's entry, at a deleted entry of the key, or at a slot never used. A further search
/// on the same walk goes on after the entry, or loads the slot never used again.
///
/// Every load of an index word is a step.
#[inline(always)]
pub fn find<W: Words, L: Ledger>(
    words: &mut W,
    walk: &mut Walk,
    key: Key,
    steps: &mut Steps<L>,
) -> Found
    requires can { W.can words.old }
    requires mask { W.mask words.old ≡ walk.old.mask }
    ensures can { W.can words.new × (W.may_put words.old → W.may_put words.new) × (W.mask words.new ≡ W.mask words.old) }
    ensures mask { (walk.new.mask ≡ walk.old.mask) × IsMask walk.old.mask }
    ensures count { walk.new.passed + length walk.new.left ≡ walk.old.passed + length walk.old.left }
    ensures within { IsWithin walk.old.mask result }
    ensures searches { Searches W.gave walk.old.mask key walk.old.left walk.new.left result
        words.old words.new steps.old steps.new }
    ensures cost { steps.new ≤ steps.old + length walk.old.left }
    ensures first { (way : Way) (hash : ℕ) → walk.old.left ≡ walk_slots way hash walk.old.mask →
        steps.new ≤ steps.old + most_loads way walk.old.mask }
{
    'slots: loop {
        if let Some(found) = try_slot(words, walk, key, steps) {
            return found;
        }
    }
}

/// [`find`] that passes the deleted entries of the key, for callers whose words nobody else writes.
#[inline(always)]
pub fn find_live<W: Words, L: Ledger>(
    words: &mut W,
    walk: &mut Walk,
    key: Key,
    steps: &mut Steps<L>,
) -> Found
    requires can { W.can words.old }
    requires mask { W.mask words.old ≡ walk.old.mask }
    ensures can { W.can words.new × (W.may_put words.old → W.may_put words.new) × (W.mask words.new ≡ W.mask words.old) }
    ensures mask { (walk.new.mask ≡ walk.old.mask) × IsMask walk.old.mask }
    ensures count { walk.new.passed + length walk.new.left ≡ walk.old.passed + length walk.old.left }
    ensures within { IsWithin walk.old.mask result }
    ensures live { (slot place : ℕ) → result ≢ Was slot place }
    ensures shows { Shows W.gave walk.old.mask walk.old.left walk.new.left words.old words.new steps.old steps.new
        (λ ws. Searched walk.old.mask ws key walk.old.left walk.new.left result) }
    ensures cost { steps.new ≤ steps.old + length walk.old.left }
    ensures first { (way : Way) (hash : ℕ) → walk.old.left ≡ walk_slots way hash walk.old.mask →
        steps.new ≤ steps.old + most_loads way walk.old.mask }
{
    key_fits(key);
    'entries: loop {
        match find(words, walk, key, steps) {
            Found::Was(..) => {}
            Found::At(slot, place) => return Found::At(slot, place),
            Found::Free(slot) => return Found::Free(slot),
            Found::Spent => return Found::Spent,
        }
    }
}
