//! One round of a look-up: a search of the table that the root named. What it found counts where the root
//! names the table still once all was loaded, since no table comes back that the pass has found.
ghost use Rattle.std.specs.Prelude.{◌≡◌, ◌≢◌, ℕ, suc, ◌<◌, ◌≤◌, List, [], ◌∷◌, length, drop, Some, None};
ghost use Rattle.ft_hash.specs.Probes.{IsMask};
ghost use Rattle.ft_keys.specs.declared.walk.Way.{Way};
ghost use Rattle.ft_model.specs.declared.data.Key.{Key};
ghost use Rattle.ft_model.specs.Classes.{IsClass};
ghost use Rattle.ft_layout.specs.Words.{gone_kind};
ghost use Rattle.ft_layout.specs.Containers.{class_mask};
ghost use Rattle.ft_layout.specs.Tables.{hash_of, dict_room};
ghost use Rattle.ft_trace.specs.declared.Act.{Act};
ghost use Rattle.ft_trace.specs.declared.Act.TheVariants.{ReadRoot, ReadTable};
ghost use Rattle.ft_trace.specs.Acts.{announces};
ghost use Rattle.ft_trace.specs.Addresses.{class_of, container_count};
ghost use Rattle.ft_trace.specs.Boxes.{IsSettled};
ghost use Rattle.ft_trace.specs.Kinds.{rows};
ghost use Rattle.ft_trace.specs.ContainerStates.{kind_in};
ghost use Rattle.ft_keys.specs.Ways.{walk_slots};
ghost use Rattle.ft_bank.specs.Passes.{shape_of, view, IsPassOf};
ghost use Rattle.ft_bank.specs.SameBoxes.{HoldsFew};
ghost use Rattle.ft_bank.specs.Series.{DidAll};
ghost use Rattle.ft_bank.specs.TableNames.{table_id, IsTableIn};
ghost use Rattle.ft_search.specs.LookSteps.{CanLook, InRound, WasNamed};
ghost use Rattle.ft_search.specs.TableWords.{CanLoad, SamePlace};
ghost use Rattle.ft_search.specs.SearchCosts.{LoadsNoIndex, MayWalkOn, SpendsRound, SpendsSearch, WalksOn};
ghost use Rattle.ft_search.specs.Rounds.{kind_by, same_acts, met_acts, live_acts, ended_in, IsNext, LoadsSlot, Walked, TurnsAfter, ClosesAt, EndsTable};

use crate::looks::Looked;
use crate::reading::EntryRead;
use crate::tables::mask_of;
use crate::words::TableWords;
use ft_bank::{Bank, Pass, Table};
use ft_hash::Probe;
use ft_keys::{Walk, Way, Words};
use ft_layout::entry_word::{KEY, KEY_KIND, VERSION};
use ft_layout::{dict_entries, gone_kind_of, kind_of, payload_of, set_entries};
use ft_model::Key;

/// What a round came to.
#[derive(Clone, Copy)]
pub(crate) enum Round {
    /// The look-up ends so.
    Ended(Looked),
    /// The root has changed to this.
    Moved(u64),
}

/// How many entries a table has that is searched this way.
pub(crate) fn entries_of(way: Way, class: u32) -> u64
    requires { IsClass class }
    ensures { result ≡ rows (kind_by way) class }
{
    match way {
        Way::Dict => dict_entries(class),
        Way::Set => set_entries(class),
    }
}

/// What the index word of a slot is.
#[derive(Clone, Copy)]
enum Loaded {
    /// The slot was used, and this is its word.
    Used(u64),
    /// The slot was never used, when the counter was this.
    Free(u64),
}

/// Loads the index word of a slot. One that was never used is loaded again after the counter, as only then it
/// ends a search.
#[inline(always)]
fn load_slot(words: &mut TableWords, slot: u64) -> Loaded
    requires can { CanLook words.old }
    requires slot { slot ≤ words.old.mask }
    ensures can { CanLook words.new }
    ensures same { SamePlace words.old words.new }
    ensures loads { LoadsSlot (table_id words.old.table) slot words.old.pass.now words.new.pass.now result }
{
    let word = words.slot_word(slot);
    if word != 0 {
        return Loaded::Used(word);
    }
    let number = words.stamp();
    let again = words.slot_word(slot);
    if again != 0 {
        return Loaded::Used(again);
    }
    Loaded::Free(number)
}

/// What follows where the entry was found to be there with the key: `None` where the walk goes on, as
/// the entry is no longer the key's.
#[inline(always)]
fn look_at(words: &mut TableWords, place: u64, key: Key) -> Option<Looked>
    requires can { CanLook words.old }
    requires place { place < dict_room words.old.mask }
    requires low { place < rows (kind_in (shape_of words.old.bank.now).starts words.old.o) (class_of (table_id words.old.table)) }
    ensures can { CanLook words.new }
    ensures same { SamePlace words.old words.new }
    ensures turns { (slot : ℕ) (earlier : List Act) (left : List ℕ) →
        Walked (shape_of words.old.bank.now) words.old.o (table_id words.old.table) key
        (live_acts (table_id words.old.table) slot place key earlier) (slot ∷ left) →
        TurnsAfter (shape_of words.old.bank.now) words.old.o (table_id words.old.table) key
        (live_acts (table_id words.old.table) slot place key earlier) left result
        words.old.pass.now words.new.pass.now }
    ensures index { (part : List Act) × DidAll part words.old.pass.now words.new.pass.now × LoadsNoIndex part }
{
    let seen = match words.read_between(place) {
        EntryRead::Whole(whole) => whole,
        EntryRead::Stopped(first, found) => return Some(Looked::Contended(first, found)),
    };
    if !seen.stood() {
        return Some(Looked::Contended(seen.opened, seen.closed));
    }
    if seen.key_kind != kind_of(key) {
        return None;
    }
    Some(Looked::Here(seen.kind, seen.value, seen.number))
}

/// What follows where a search met a deleted entry of a key: the walk goes on, but for an odd version.
#[inline(always)]
fn look_at_deleted(words: &mut TableWords, place: u64) -> Option<Looked>
    requires can { CanLook words.old }
    requires place { place < dict_room words.old.mask }
    requires low { place < rows (kind_in (shape_of words.old.bank.now).starts words.old.o) (class_of (table_id words.old.table)) }
    ensures can { CanLook words.new }
    ensures same { SamePlace words.old words.new }
    ensures turns { (key : Key) (slot : ℕ) (earlier : List Act) (left : List ℕ) →
        Walked (shape_of words.old.bank.now) words.old.o (table_id words.old.table) key
        (met_acts (table_id words.old.table) slot place key (gone_kind key) earlier) (slot ∷ left) →
        TurnsAfter (shape_of words.old.bank.now) words.old.o (table_id words.old.table) key
        (met_acts (table_id words.old.table) slot place key (gone_kind key) earlier) left result
        words.old.pass.now words.new.pass.now }
    ensures index { (part : List Act) × DidAll part words.old.pass.now words.new.pass.now × LoadsNoIndex part }
{
    let opened = words.word(place, VERSION);
    if opened % 2 == 0 {
        return None;
    }
    let closed = words.word(place, VERSION);
    Some(Looked::Contended(opened, closed))
}

/// What follows where an entry has a key's payload: its kind says whether it is the key's, and whether it is there.
#[inline(always)]
fn look_by_kind(words: &mut TableWords, place: u64, key: Key) -> Option<Looked>
    requires can { CanLook words.old }
    requires place { place < dict_room words.old.mask }
    requires low { place < rows (kind_in (shape_of words.old.bank.now).starts words.old.o) (class_of (table_id words.old.table)) }
    ensures can { CanLook words.new }
    ensures same { SamePlace words.old words.new }
    ensures turns { (slot : ℕ) (earlier : List Act) (left : List ℕ) →
        Walked (shape_of words.old.bank.now) words.old.o (table_id words.old.table) key
        (same_acts (table_id words.old.table) slot place key earlier) (slot ∷ left) →
        TurnsAfter (shape_of words.old.bank.now) words.old.o (table_id words.old.table) key
        (same_acts (table_id words.old.table) slot place key earlier) left result
        words.old.pass.now words.new.pass.now }
    ensures index { (part : List Act) × DidAll part words.old.pass.now words.new.pass.now × LoadsNoIndex part }
{
    let kind = words.word(place, KEY_KIND);
    if kind == kind_of(key) {
        // The payload counts as the key's only where it was loaded after the kind.
        if words.word(place, KEY) != payload_of(key) {
            return None;
        }
        return look_at(words, place, key);
    }
    if kind == gone_kind_of(key) {
        return look_at_deleted(words, place);
    }
    None
}

/// What follows where a slot's index word is this: `None` where the walk goes on.
#[inline(always)]
fn look_by_word(words: &mut TableWords, word: u64, key: Key, entries: u64) -> Option<Looked>
    requires can { CanLook words.old }
    requires word { word ≢ 0 }
    requires entries { entries ≡ rows (kind_in (shape_of words.old.bank.now).starts words.old.o) (class_of (table_id words.old.table)) }
    requires room { entries ≤ dict_room words.old.mask }
    ensures can { CanLook words.new }
    ensures same { SamePlace words.old words.new }
    ensures turns { (slot : ℕ) (earlier : List Act) (left : List ℕ) →
        Walked (shape_of words.old.bank.now) words.old.o (table_id words.old.table) key
        (ReadTable (table_id words.old.table) slot word ∷ earlier) (slot ∷ left) →
        TurnsAfter (shape_of words.old.bank.now) words.old.o (table_id words.old.table) key
        (ReadTable (table_id words.old.table) slot word ∷ earlier) left result
        words.old.pass.now words.new.pass.now }
    ensures index { (part : List Act) × DidAll part words.old.pass.now words.new.pass.now × LoadsNoIndex part }
{
    if word > entries {
        return None;
    }
    let place = word - 1;
    if words.word(place, KEY) != payload_of(key) {
        return None;
    }
    look_by_kind(words, place, key)
}

/// What follows where a slot is tried: `None` where the walk goes on.
#[inline(always)]
fn look_slot(words: &mut TableWords, slot: u64, key: Key, entries: u64) -> Option<Looked>
    requires can { CanLook words.old }
    requires slot { slot ≤ words.old.mask }
    requires entries { entries ≡ rows (kind_in (shape_of words.old.bank.now).starts words.old.o) (class_of (table_id words.old.table)) }
    requires room { entries ≤ dict_room words.old.mask }
    ensures can { CanLook words.new }
    ensures same { SamePlace words.old words.new }
    ensures turns { (earlier : List Act) (left : List ℕ) →
        Walked (shape_of words.old.bank.now) words.old.o (table_id words.old.table) key earlier (slot ∷ left) →
        TurnsAfter (shape_of words.old.bank.now) words.old.o (table_id words.old.table) key earlier left result
        words.old.pass.now words.new.pass.now }
    ensures spends { (walked : List ℕ) (acts : List Act) (left : List ℕ) → MayWalkOn (table_id words.old.table) walked acts (slot ∷ left) →
        SpendsSearch (table_id words.old.table) walked acts left result words.old.pass.now words.new.pass.now }
{
    match load_slot(words, slot) {
        Loaded::Used(word) => look_by_word(words, word, key, entries),
        Loaded::Free(number) => Some(Looked::Absent(number)),
    }
}

/// What follows in a search of a table.
#[derive(Clone, Copy)]
enum Further {
    /// The look-up ends so.
    Ended(Looked),
    /// This slot is tried next.
    Next(u64),
}

/// The slot that is tried next, or the end where every slot was tried.
#[inline(always)]
fn next_slot(words: &mut TableWords, walk: &Walk) -> Further
    requires can { CanLook words.old }
    ensures can { CanLook words.new }
    ensures same { SamePlace words.old words.new }
    ensures next { IsNext walk.now.mask walk.now.left result }
    ensures turns { (key : Key) (earlier : List Act) →
        Walked (shape_of words.old.bank.now) words.old.o (table_id words.old.table) key earlier walk.now.left →
        TurnsAfter (shape_of words.old.bank.now) words.old.o (table_id words.old.table) key earlier walk.now.left (ended_in result)
        words.old.pass.now words.new.pass.now }
    ensures spends { (walked : List ℕ) (acts : List Act) → MayWalkOn (table_id words.old.table) walked acts walk.now.left →
        SpendsSearch (table_id words.old.table) walked acts walk.now.left (ended_in result) words.old.pass.now words.new.pass.now }
{
    match walk.slot() {
        Some(slot) => Further::Next(slot),
        None => {
            let number = words.stamp();
            Further::Ended(Looked::Absent(number))
        }
    }
}

/// Tries the slot that the walk has come to, and goes on after it.
#[inline(always)]
fn try_slot(words: &mut TableWords, walk: &mut Walk, slot: u64, key: Key, entries: u64) -> Further
    requires can { CanLook words.old }
    requires mask { words.old.mask ≡ walk.old.mask }
    requires front { walk.old.left ≡ slot ∷ drop 1 walk.old.left }
    requires slot { slot ≤ walk.old.mask }
    requires entries { entries ≡ rows (kind_in (shape_of words.old.bank.now).starts words.old.o) (class_of (table_id words.old.table)) }
    requires room { entries ≤ dict_room words.old.mask }
    ensures can { CanLook words.new }
    ensures same { SamePlace words.old words.new }
    ensures mask { walk.new.mask ≡ walk.old.mask }
    ensures fewer { ended_in result ≡ None → length walk.new.left < length walk.old.left }
    ensures next { IsNext walk.new.mask walk.new.left result }
    ensures turns { (earlier : List Act) →
        Walked (shape_of words.old.bank.now) words.old.o (table_id words.old.table) key earlier walk.old.left →
        TurnsAfter (shape_of words.old.bank.now) words.old.o (table_id words.old.table) key earlier walk.new.left (ended_in result)
        words.old.pass.now words.new.pass.now }
    ensures spends { (walked : List ℕ) (acts : List Act) → MayWalkOn (table_id words.old.table) walked acts walk.old.left →
        SpendsSearch (table_id words.old.table) walked acts walk.new.left (ended_in result) words.old.pass.now words.new.pass.now }
{
    match look_slot(words, slot, key, entries) {
        Some(looked) => Further::Ended(looked),
        None => {
            walk.pass();
            next_slot(words, walk)
        }
    }
}

/// Searches on until the look-up ends.
#[inline(always)]
fn search_walk(words: &mut TableWords, walk: &mut Walk, key: Key, entries: u64) -> Looked
    requires can { CanLook words.old }
    requires mask { words.old.mask ≡ walk.old.mask }
    requires entries { entries ≡ rows (kind_in (shape_of words.old.bank.now).starts words.old.o) (class_of (table_id words.old.table)) }
    requires room { entries ≤ dict_room words.old.mask }
    ensures can { CanLook words.new }
    ensures same { SamePlace words.old words.new }
    ensures turns { (earlier : List Act) →
        Walked (shape_of words.old.bank.now) words.old.o (table_id words.old.table) key earlier walk.old.left →
        TurnsAfter (shape_of words.old.bank.now) words.old.o (table_id words.old.table) key earlier [] (Some result)
        words.old.pass.now words.new.pass.now }
    ensures spends { (walked : List ℕ) (acts : List Act) → MayWalkOn (table_id words.old.table) walked acts walk.old.left →
        SpendsSearch (table_id words.old.table) walked acts [] (Some result) words.old.pass.now words.new.pass.now }
{
    let mut slot = match next_slot(words, walk) {
        Further::Ended(looked) => return looked,
        Further::Next(first) => first,
    };
    'walk: loop {
        match try_slot(words, walk, slot, key, entries) {
            Further::Ended(looked) => return looked,
            Further::Next(next) => slot = next,
        }
    }
}

/// The first slot that is tried for a hash, in a dict's table as in a set's.
fn first_slot(hash: u64, mask: u64) -> u64
    requires { IsMask mask }
    ensures low { result ≤ mask }
    ensures first { (way : Way) → walk_slots way hash mask ≡ result ∷ drop 1 (walk_slots way hash mask) }
{
    Probe::new(hash, mask).next()
}

/// Searches on after the first slot of the key's walk.
#[inline(always)]
fn search_after(words: &mut TableWords, way: Way, key: Key, hash: u64) -> Looked
    requires can { CanLook words.old }
    requires way { kind_in (shape_of words.old.bank.now).starts words.old.o ≡ kind_by way }
    ensures can { CanLook words.new }
    ensures same { SamePlace words.old words.new }
    ensures turns { (earlier : List Act) →
        Walked (shape_of words.old.bank.now) words.old.o (table_id words.old.table) key earlier (drop 1 (walk_slots way hash (class_mask words.old.table.class))) →
        TurnsAfter (shape_of words.old.bank.now) words.old.o (table_id words.old.table) key earlier [] (Some result)
        words.old.pass.now words.new.pass.now }
    ensures spends { (walked : List ℕ) (acts : List Act) →
        MayWalkOn (table_id words.old.table) walked acts (drop 1 (walk_slots way hash (class_mask words.old.table.class))) →
        SpendsSearch (table_id words.old.table) walked acts [] (Some result) words.old.pass.now words.new.pass.now }
{
    let mut walk = Walk::new(way, hash, words.mask);
    walk.pass();
    let entries = entries_of(way, words.table.class);
    search_walk(words, &mut walk, key, entries)
}

/// Searches a table on after the first slot of the key's walk. A function of its own, as most keys are found at the
/// first slot.
#[inline(never)]
fn search_rest(
    bank: &Bank,
    pass: &mut Pass,
    o: u32,
    table: Table,
    way: Way,
    key: Key,
    hash: u64,
) -> Looked
    requires pass { IsPassOf bank.now pass.old }
    requires container { o < container_count (shape_of bank.now) }
    requires table { IsTableIn (shape_of bank.now) table }
    requires way { kind_in (shape_of bank.now).starts o ≡ kind_by way }
    requires settled { IsSettled (view pass.old).log }
    requires few { HoldsFew (view pass.old) }
    requires named { WasNamed o (table_id table) (view pass.old).log }
    ensures pass { IsPassOf bank.now pass.new }
    ensures turns { (earlier : List Act) →
        Walked (shape_of bank.now) o (table_id table) key earlier (drop 1 (walk_slots way hash (class_mask table.class))) →
        TurnsAfter (shape_of bank.now) o (table_id table) key earlier [] (Some result) pass.old pass.new }
    ensures spends { (walked : List ℕ) (acts : List Act) →
        MayWalkOn (table_id table) walked acts (drop 1 (walk_slots way hash (class_mask table.class))) →
        SpendsSearch (table_id table) walked acts [] (Some result) pass.old pass.new }
{
    let mask = mask_of(table.class);
    let start = bank.cell_of(table);
    let mut words = TableWords {
        bank,
        pass,
        o,
        table,
        mask,
        start,
    };
    search_after(&mut words, way, key, hash)
}

/// Searches a table.
#[inline(always)]
fn search(words: &mut TableWords, way: Way, key: Key, hash: u64) -> Looked
    requires can { CanLook words.old }
    requires way { kind_in (shape_of words.old.bank.now).starts words.old.o ≡ kind_by way }
    requires hash { hash ≡ hash_of (shape_of words.old.bank.now).texts key }
    ensures can { CanLook words.new }
    ensures same { SamePlace words.old words.new }
    ensures closes { (part : List Act) × InRound part words.old.pass.now words.new.pass.now × DidAll part words.old.pass.now words.new.pass.now
        × ClosesAt (shape_of words.old.bank.now) words.old.o (table_id words.old.table) key part result }
    ensures spends { (part : List Act) × (left : List ℕ) × DidAll part words.old.pass.now words.new.pass.now
        × WalksOn (table_id words.old.table) (walk_slots way hash words.old.mask) part left }
{
    let entries = entries_of(way, words.table.class);
    let slot = first_slot(hash, words.mask);
    match look_slot(words, slot, key, entries) {
        Some(looked) => looked,
        None => search_rest(words.bank, words.pass, words.o, words.table, way, key, hash),
    }
}

/// Searches the table that the root named when it was read last, and reads the root again.
#[inline(always)]
pub(crate) fn search_table(
    words: &mut TableWords,
    way: Way,
    key: Key,
    hash: u64,
    root: u64,
) -> Round
    requires can { CanLook words.old }
    requires way { kind_in (shape_of words.old.bank.now).starts words.old.o ≡ kind_by way }
    requires hash { hash ≡ hash_of (shape_of words.old.bank.now).texts key }
    requires root { root ≡ suc (table_id words.old.table) }
    requires online { 0 < announces (view words.old.pass.now).log }
    requires last { (rest : List Act) × ((view words.old.pass.now).log ≡ ReadRoot words.old.o root ∷ rest) }
    ensures can { CanLoad words.new }
    ensures same { SamePlace words.old words.new }
    ensures ended { EndsTable (shape_of words.old.bank.now) words.old.o key (table_id words.old.table)
        words.old.pass.now words.new.pass.now result }
    ensures spends { SpendsRound way words.old.o root words.old.pass.now words.new.pass.now result }
{
    let looked = search(words, way, key, hash);
    let again = words.root();
    if again != root {
        return Round::Moved(again);
    }
    Round::Ended(looked)
}
