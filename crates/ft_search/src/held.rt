//! Look-ups of a key by a pass that has the container's lock, so that nobody else writes the words: what
//! is found is what the pass knows of the content.
ghost use Rattle.std.specs.Prelude.{◌≡◌, ◌≢◌, ℕ, ◌^◌, ◌<◌, List, ◌∷◌, true};
ghost use Rattle.ft_layout.specs.Containers.{class_mask};
ghost use Rattle.ft_layout.specs.Tables.{hash_of};
ghost use Rattle.ft_layout.specs.Words.{FitsKey};
ghost use Rattle.ft_keys.specs.Searches.{IsWithin, Searched};
ghost use Rattle.ft_keys.specs.Ways.{walk_slots};
ghost use Rattle.ft_keys.specs.declared.search.Found.TheVariants.{Was};
ghost use Rattle.ft_keys.specs.declared.walk.Way.{Way};
ghost use Rattle.ft_trace.specs.declared.Act.{Act};
ghost use Rattle.ft_trace.specs.Acts.{has_lock};
ghost use Rattle.ft_trace.specs.Addresses.{container_count};
ghost use Rattle.ft_trace.specs.Holds.{held_unboxed, known_state};
ghost use Rattle.ft_trace.specs.Pictures.{Represents};
ghost use Rattle.ft_trace.specs.ContainerStates.{kind_in};
ghost use Rattle.ft_bank.specs.KeyHashes.{IsKeyIn};
ghost use Rattle.ft_bank.specs.Passes.{shape_of, view, IsPassOf};
ghost use Rattle.ft_bank.specs.Series.{DidAll};
ghost use Rattle.ft_bank.specs.TableNames.{table_id, IsTableIn};
ghost use Rattle.ft_bank.specs.Whole.{OnlyLoaded};
ghost use Rattle.ft_search.specs.SearchCosts.{AreFewReads, index_reads};
ghost use Rattle.ft_search.specs.Held.{KnowsTable, ReadsEntry, IsHeldAt};
ghost use Rattle.ft_search.specs.KeyLooks.{AreLooks};
ghost use Rattle.ft_search.specs.Rounds.{kind_by};
ghost use Rattle.ft_search.specs.TableWords.{CanLoad, SamePlace, KnowsWords, known_words, read_words};

use crate::boxed::{BOX_KIND, named_boxes_are_known, read_value};
use crate::look::key_fits;
use crate::rounds::entries_of;
use crate::tables::{mask_of, table_at};
use crate::words::TableWords;
use ft_bank::{Bank, Pass, Table};
use ft_keys::{Found, Steps, Walk, Way, Words, find_live};
use ft_layout::entry_word::{VALUE, VALUE_KIND};
use ft_layout::{block_word, used_entries_follow_a_dict, used_entries_follow_a_set};
use ft_model::Key;
use std::marker::Brand;
use std::sync::ledger::{Blank, Ledger};

/// Which word of a block the root is, as a bank counts them.
pub(crate) const ROOT: u64 = block_word::ROOT - 2;

impl<'a> TableWords<'a> {
    /// Searches for a key in words that nobody else writes.
    #[inline(always)]
    fn seek_held<L: Ledger>(&mut self, walk: &mut Walk, key: Key, blank: Blank) -> Found
        requires can { CanLoad self.old }
        requires knows { KnowsWords self.old }
        requires mask { self.old.mask ≡ walk.old.mask }
        requires name { blank.name ≡ L.name }
        requires parts { (blank.parts ≡ L.parts) × (L.parts ≡ 1) }
        ensures can { CanLoad self.new }
        ensures same { SamePlace self.old self.new }
        ensures knows { KnowsWords self.new × (known_words self.new ≡ known_words self.old) }
        ensures within { IsWithin self.old.mask result }
        ensures live { (slot place : ℕ) → result ≢ Was slot place }
        ensures looks { (part : List Act) × AreLooks part × DidAll part self.old.pass.now self.new.pass.now
            × ((way : Way) (hash : ℕ) → walk.old.left ≡ walk_slots way hash walk.old.mask → AreFewReads way part) }
        ensures searched { Searched self.old.mask (known_words self.old) key walk.old.left walk.new.left result }
    {
        let mut steps: Steps<L> = Steps::new(blank);
        find_live(self, walk, key, &mut steps)
    }

    /// What the value reads of the entry at which a search ended, if it ended at one. A value that names a box has the
    /// kind and the payload that stand there.
    #[inline(always)]
    fn read_found(&mut self, way: Way, found: Found) -> Option<(u64, u64)>
        requires can { CanLoad self.old }
        requires way { kind_in (shape_of self.old.bank.now).starts self.old.o ≡ kind_by way }
        requires knows { KnowsWords self.old }
        requires within { IsWithin self.old.mask found }
        ensures can { CanLoad self.new }
        ensures same { SamePlace self.old self.new }
        ensures looks { (part : List Act) × AreLooks part × DidAll part self.old.pass.now self.new.pass.now
            × ((t : ℕ) → index_reads t part ≡ 0) }
        ensures reads { ReadsEntry self.old.mask (read_words self.old) found result }
    {
        match found {
            Found::At(_, place) => {
                let kind = self.entry(place, VALUE_KIND);
                let payload = self.entry(place, VALUE);
                if kind != BOX_KIND {
                    return Some((kind, payload));
                }
                let entries = entries_of(way, self.table.class);
                if entries <= place {
                    return Some((kind, payload));
                }
                Some(read_value(self.bank, self.pass, kind, payload))
            }
            Found::Was(_, _) => None,
            Found::Free(_) => None,
            Found::Spent => None,
        }
    }

    /// Looks for a key by its hash, and reads the value that is there. Answers where the search ended too.
    #[inline(always)]
    fn read_held(&mut self, way: Way, key: Key, hash: u64) -> (Found, Option<(u64, u64)>)
        requires can { CanLoad self.old }
        requires way { kind_in (shape_of self.old.bank.now).starts self.old.o ≡ kind_by way }
        requires knows { KnowsWords self.old }
        ensures can { CanLoad self.new }
        ensures same { SamePlace self.old self.new }
        ensures within { IsWithin self.old.mask result.0 }
        ensures looks { (part : List Act) × AreLooks part × DidAll part self.old.pass.now self.new.pass.now
            × AreFewReads way part }
        ensures searched { (left : List ℕ)
            × Searched self.old.mask (known_words self.old) key (walk_slots way hash self.old.mask) left result.0
            × ((slot place : ℕ) → result.0 ≢ Was slot place)
            × ReadsEntry self.old.mask (read_words self.old) result.0 result.1 }
    {
        let mut walk = Walk::new(way, hash, self.mask);
        let found = self.seek_held::<Brand>(&mut walk, key, Blank::new(1));
        let read = self.read_found(way, found);
        (found, read)
    }
}

/// Looks for a key by its hash in the table of a container whose lock the pass has: where the search ended,
/// and the words of the value that is there.
#[inline(always)]
pub fn read_by(
    bank: &Bank,
    pass: &mut Pass,
    o: u32,
    way: Way,
    key: Key,
    hash: u64,
    table: Table,
) -> (Found, Option<(u64, u64)>)
    requires pass { IsPassOf bank.now pass.old }
    requires container { o < container_count (shape_of bank.now) }
    requires way { kind_in (shape_of bank.now).starts o ≡ kind_by way }
    requires hash { hash ≡ hash_of (shape_of bank.now).texts key }
    requires table { IsTableIn (shape_of bank.now) table }
    requires knows { KnowsTable o (table_id table) (view pass.old) }
    ensures pass { IsPassOf bank.now pass.new }
    ensures looks { (part : List Act) × AreLooks part × DidAll part pass.old pass.new × AreFewReads way part }
    ensures low { hash_of (shape_of bank.now).texts key < 2 ^ 64 }
    ensures within { IsWithin (class_mask table.class) result.0 }
    ensures searched { (left : List ℕ)
        × Searched (class_mask table.class) (0 ∷ 0 ∷ (held_unboxed o (view pass.old)).table) key
        (walk_slots way (hash_of (shape_of bank.now).texts key) (class_mask table.class)) left result.0
        × ((slot place : ℕ) → result.0 ≢ Was slot place)
        × ReadsEntry (class_mask table.class) (0 ∷ 0 ∷ (held_unboxed o (view pass.old)).table) result.0 result.1 }
{
    key_fits(key);
    named_boxes_are_known(pass);
    let mask = mask_of(table.class);
    let start = bank.cell_of(table);
    let mut words = TableWords {
        bank,
        pass,
        o,
        table,
        mask,
        start,
    };
    words.read_held(way, key, hash)
}

/// Looks for a key in the table of a container whose lock the pass has: where the search ended, and the
/// words of the value that is there.
pub fn read_in(
    bank: &Bank,
    pass: &mut Pass,
    o: u32,
    way: Way,
    key: Key,
    table: Table,
) -> (Found, Option<(u64, u64)>)
    requires pass { IsPassOf bank.now pass.old }
    requires container { o < container_count (shape_of bank.now) }
    requires way { kind_in (shape_of bank.now).starts o ≡ kind_by way }
    requires key { IsKeyIn (shape_of bank.now) key }
    requires table { IsTableIn (shape_of bank.now) table }
    requires knows { KnowsTable o (table_id table) (view pass.old) }
    ensures pass { IsPassOf bank.now pass.new }
    ensures looks { (part : List Act) × AreLooks part × DidAll part pass.old pass.new × AreFewReads way part }
    ensures low { hash_of (shape_of bank.now).texts key < 2 ^ 64 }
    ensures within { IsWithin (class_mask table.class) result.0 }
    ensures searched { (left : List ℕ)
        × Searched (class_mask table.class) (0 ∷ 0 ∷ (held_unboxed o (view pass.old)).table) key
        (walk_slots way (hash_of (shape_of bank.now).texts key) (class_mask table.class)) left result.0
        × ((slot place : ℕ) → result.0 ≢ Was slot place)
        × ReadsEntry (class_mask table.class) (0 ∷ 0 ∷ (held_unboxed o (view pass.old)).table) result.0 result.1 }
{
    let hash = bank.hash_of(key);
    read_by(bank, pass, o, way, key, hash, table)
}

/// Reads the value at a key of a dict or a set whose lock the pass has: its kind and its payload, or
/// `None` where the key isn't there. It loads at most as many index words as one search may.
pub fn read_key(bank: &Bank, pass: &mut Pass, o: u32, way: Way, key: Key) -> Option<(u64, u64)>
    requires pass { IsPassOf bank.now pass.old }
    requires container { o < container_count (shape_of bank.now) }
    requires way { kind_in (shape_of bank.now).starts o ≡ kind_by way }
    requires key { IsKeyIn (shape_of bank.now) key }
    requires locked { has_lock o (view pass.old).log ≡ true }
    requires stands { Represents (shape_of bank.now).texts (held_unboxed o (view pass.old)) (known_state o (view pass.old)) }
    ensures pass { IsPassOf bank.now pass.new }
    ensures key { FitsKey key }
    ensures keeps { OnlyLoaded (view pass.old) (view pass.new) }
    ensures looks { (part : List Act) × AreLooks part × DidAll part pass.old pass.new × AreFewReads way part }
    ensures held { IsHeldAt (known_state o (view pass.old)).content key result }
{
    key_fits(key);
    used_entries_follow_a_dict();
    used_entries_follow_a_set();
    let root = bank.read_block(pass, o, ROOT);
    match table_at(bank, root) {
        Some(table) => read_in(bank, pass, o, way, key, table).1,
        None => None,
    }
}
