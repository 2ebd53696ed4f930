//! The look-up of one key without the lock, for `get` and its kin on dicts and sets: rounds, until one ends
//! in the table that the root named all the while. A root changes at most twice for each table, since none
//! comes back that the pass has found since it last announced.
ghost use Rattle.std.specs.Prelude.{◌≡◌, ℕ, suc, ◌<◌, List, ◌∷◌};
ghost use Rattle.ft_layout.specs.Tables.{hash_of};
ghost use Rattle.ft_layout.specs.Words.{FitsKey};
ghost use Rattle.ft_trace.specs.declared.Act.{Act};
ghost use Rattle.ft_trace.specs.declared.Act.TheVariants.{ReadRoot};
ghost use Rattle.ft_trace.specs.Acts.{announces};
ghost use Rattle.ft_trace.specs.Addresses.{container_count, IsTableName};
ghost use Rattle.ft_trace.specs.Boxes.{IsSettled};
ghost use Rattle.ft_trace.specs.ContainerStates.{kind_in};
ghost use Rattle.ft_bank.specs.Passes.{shape_of, view, IsPassOf};
ghost use Rattle.ft_bank.specs.SameBoxes.{HoldsFew};
ghost use Rattle.ft_bank.specs.Series.{DidAll};
ghost use Rattle.ft_bank.specs.KeyHashes.{IsKeyIn};
ghost use Rattle.ft_bank.specs.TableNames.{table_id, IsTableIn};
ghost use Rattle.ft_search.specs.SearchCosts.{LoadsRounds, SpendsRound};
ghost use Rattle.ft_search.specs.KeyLooks.{ShowsLooked};
ghost use Rattle.ft_search.specs.LookSteps.{AreLookSteps, OnlyLooked};
ghost use Rattle.ft_search.specs.Rounds.{kind_by, EndsTable, EndsRound};

use crate::bare::look_bare;
use crate::looks::Looked;
use crate::rounds::{Round, search_table};
use crate::tables::{mask_of, table_at};
use crate::words::TableWords;
use ft_bank::{Bank, Pass, Table};
use ft_keys::Way;
use ft_model::Key;

/// A round over the table that the root named.
#[inline(always)]
fn look_in(
    bank: &Bank,
    pass: &mut Pass,
    o: u32,
    way: Way,
    key: Key,
    hash: u64,
    root: u64,
    table: Table,
) -> Round
    requires pass { IsPassOf bank.now pass.old }
    requires container { o < container_count (shape_of bank.now) }
    requires way { kind_in (shape_of bank.now).starts o ≡ kind_by way }
    requires hash { hash ≡ hash_of (shape_of bank.now).texts key }
    requires online { 0 < announces (view pass.old).log }
    requires settled { IsSettled (view pass.old).log }
    requires few { HoldsFew (view pass.old) }
    requires table { IsTableIn (shape_of bank.now) table }
    requires root { root ≡ suc (table_id table) }
    requires last { (rest : List Act) × ((view pass.old).log ≡ ReadRoot o root ∷ rest) }
    ensures pass { IsPassOf bank.now pass.new }
    ensures ended { EndsTable (shape_of bank.now) o key (table_id table) pass.old pass.new result }
    ensures spends { SpendsRound way o root pass.old pass.new result }
{
    let mask = mask_of(table.class);
    let start = bank.cell_of(table);
    let mut words = TableWords {
        bank,
        pass,
        o,
        table,
        mask,
        start,
    };
    search_table(&mut words, way, key, hash, root)
}

/// A round at whatever the root was.
#[inline(always)]
fn look_round(
    bank: &Bank,
    pass: &mut Pass,
    o: u32,
    way: Way,
    key: Key,
    hash: u64,
    root: u64,
) -> Round
    requires pass { IsPassOf bank.now pass.old }
    requires container { o < container_count (shape_of bank.now) }
    requires way { kind_in (shape_of bank.now).starts o ≡ kind_by way }
    requires hash { hash ≡ hash_of (shape_of bank.now).texts key }
    requires online { 0 < announces (view pass.old).log }
    requires settled { IsSettled (view pass.old).log }
    requires few { HoldsFew (view pass.old) }
    requires table { (t : ℕ) → root ≡ suc t → IsTableName (shape_of bank.now) t }
    requires last { (rest : List Act) × ((view pass.old).log ≡ ReadRoot o root ∷ rest) }
    ensures pass { IsPassOf bank.now pass.new }
    ensures ended { EndsRound (shape_of bank.now) o key root pass.old pass.new result }
    ensures spends { SpendsRound way o root pass.old pass.new result }
{
    match table_at(bank, root) {
        Some(table) => look_in(bank, pass, o, way, key, hash, root, table),
        None => look_bare(bank, pass, o),
    }
}

/// A key has what words represent of it.
pub(crate) fn key_fits(key: Key)
    ensures { FitsKey key }
{
    match key {
        Key::Int(integer) => {
            let _word = integer;
        }
        Key::Text(sym) => {
            let _number = sym.0;
        }
    }
}

/// Looks for a key in a dict or a set without the lock; the pass is online.
///
/// Writes under other keys and growths never make it contended, unless the root was read 0: then the
/// version of the container decides, else that of the key's own entry, or the count of the box that it names.
///
/// Where the value stands in a box, which is so where its words name one, the box is raised, read and dropped: the pass holds
/// the references that it held before. (PEP 703, "Optimistically avoiding locking")
///
/// It goes in rounds, one more for each change of the root that it finds. In each round it loads at most as many
/// index words as one search may under the lock, whoever else writes.
#[inline(always)]
pub fn look_up(bank: &Bank, pass: &mut Pass, o: u32, way: Way, key: Key) -> Looked
    requires pass { IsPassOf bank.now pass.old }
    requires container { o < container_count (shape_of bank.now) }
    requires way { kind_in (shape_of bank.now).starts o ≡ kind_by way }
    requires key { IsKeyIn (shape_of bank.now) key }
    requires online { 0 < announces (view pass.old).log }
    requires settled { IsSettled (view pass.old).log }
    requires few { HoldsFew (view pass.old) }
    ensures pass { IsPassOf bank.now pass.new }
    ensures key { FitsKey key }
    ensures keeps { OnlyLooked (view pass.old) (view pass.new) }
    ensures looked { (part : List Act) × AreLookSteps part × DidAll part pass.old pass.new
        × ShowsLooked (shape_of bank.now) o key part (view pass.new).log result }
    ensures loads { LoadsRounds way o (view pass.old) (view pass.new) }
{
    key_fits(key);
    let hash = bank.hash_of(key);
    let mut root = bank.read_root(pass, o);
    'rounds: loop {
        match look_round(bank, pass, o, way, key, hash, root) {
            Round::Ended(looked) => return looked,
            Round::Moved(next) => root = next,
        }
    }
}
