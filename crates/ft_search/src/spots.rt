//! Where a key is in a dict or a set whose lock the pass has, for the calls that write at it.
ghost use Rattle.std.specs.Prelude.{◌≡◌, List, ◌++◌};
ghost use Rattle.ft_layout.specs.Tables.{hash_of};
ghost use Rattle.ft_layout.specs.Words.{FitsKey};
ghost use Rattle.ft_trace.specs.ContainerStates.{kind_in};
ghost use Rattle.ft_bank.specs.KeyHashes.{IsKeyIn};
ghost use Rattle.ft_bank.specs.Passes.{shape_of, view, IsPassOf};
ghost use Rattle.ft_bank.specs.PassSections.{stack_of};
ghost use Rattle.ft_bank.specs.Whole.{OnlyLoaded};
ghost use Rattle.ft_trace.specs.declared.Act.{Act};
ghost use Rattle.ft_search.specs.SearchCosts.{AreFewReads};
ghost use Rattle.ft_search.specs.Rounds.{kind_by};
ghost use Rattle.ft_search.specs.Spots.{IsSpot, spot_in};
ghost use Rattle.ft_search.specs.OneEntryWrites.{KnowsEntries, MayWriteEntries};

use crate::held::{ROOT, read_by};
use crate::look::key_fits;
use crate::tables::table_at;
use ft_bank::{Bank, Pass, Table};
use ft_keys::{Found, Way, searches_end_at_the_first_free_slot};
use ft_layout::{used_entries_follow_a_dict, used_entries_follow_a_set};
use ft_model::Key;

/// Where a key is in a dict or a set.
#[derive(Clone, Copy, Debug, PartialEq, Eq)]
pub enum Spot {
    /// In the entry at a place of the container's table: the table, the place, and the kind and the payload
    /// of the value.
    At(Table, u64, u64, u64),
    /// Nowhere: the container's table, and the first slot for the key there that was never used.
    Free(Table, u64),
    /// Nowhere: the container has no table.
    Bare,
}

/// What the end of a search and the words that were read there come to.
pub fn spot_of(table: Table, found: Found, read: Option<(u64, u64)>) -> Spot
    ensures { result ≡ spot_in table found read }
{
    match found {
        Found::At(_, place) => match read {
            Some((kind, payload)) => Spot::At(table, place, kind, payload),
            None => Spot::Bare,
        },
        Found::Free(slot) => Spot::Free(table, slot),
        Found::Was(_, _) => Spot::Bare,
        Found::Spent => Spot::Bare,
    }
}

/// Looks for a key by its hash in a dict or a set whose lock the pass has. It loads at most as many index words as one
/// search may.
#[inline(always)]
pub fn seek_by(bank: &Bank, pass: &mut Pass, o: u32, way: Way, key: Key, hash: u64) -> Spot
    requires pass { IsPassOf bank.now pass.old }
    requires way { kind_in (shape_of bank.now).starts o ≡ kind_by way }
    requires hash { hash ≡ hash_of (shape_of bank.now).texts key }
    requires knows { KnowsEntries (shape_of bank.now) o (view pass.old) }
    ensures pass { IsPassOf bank.now pass.new }
    ensures stack { stack_of pass.new ≡ stack_of pass.old }
    ensures key { FitsKey key }
    ensures knows { KnowsEntries (shape_of bank.now) o (view pass.new) }
    ensures keeps { OnlyLoaded (view pass.old) (view pass.new) }
    ensures loads { (part : List Act) × ((view pass.new).log ≡ part ++ (view pass.old).log) × AreFewReads way part }
    ensures spot { IsSpot (shape_of bank.now) o way key (view pass.new) result }
{
    key_fits(key);
    used_entries_follow_a_dict();
    used_entries_follow_a_set();
    searches_end_at_the_first_free_slot();
    let root = bank.read_block(pass, o, ROOT);
    match table_at(bank, root) {
        Some(table) => {
            let (found, read) = read_by(bank, pass, o, way, key, hash, table);
            spot_of(table, found, read)
        }
        None => Spot::Bare,
    }
}

/// Looks for a key of a dict or a set that the pass may write. It loads at most as many index words as one search may.
#[inline(always)]
pub fn seek_key(bank: &Bank, pass: &mut Pass, o: u32, way: Way, key: Key) -> Spot
    requires pass { IsPassOf bank.now pass.old }
    requires way { kind_in (shape_of bank.now).starts o ≡ kind_by way }
    requires key { IsKeyIn (shape_of bank.now) key }
    requires may { MayWriteEntries (shape_of bank.now) o (view pass.old) }
    ensures pass { IsPassOf bank.now pass.new }
    ensures stack { stack_of pass.new ≡ stack_of pass.old }
    ensures key { FitsKey key }
    ensures may { MayWriteEntries (shape_of bank.now) o (view pass.new) }
    ensures keeps { OnlyLoaded (view pass.old) (view pass.new) }
    ensures loads { (part : List Act) × ((view pass.new).log ≡ part ++ (view pass.old).log) × AreFewReads way part }
    ensures spot { IsSpot (shape_of bank.now) o way key (view pass.new) result }
{
    let hash = bank.hash_of(key);
    seek_by(bank, pass, o, way, key, hash)
}
