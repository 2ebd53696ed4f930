//! What a walk gives next, by a pass that has the container's lock, so that nobody else writes the words: the
//! pair or the element that the plain container has next.
ghost use Rattle.std.specs.Prelude.{◌≡◌, ◌↔◌, ℕ, ◌<◌, ◌≤◌, List, ◌∷◌, Option, Some, true};
ghost use Rattle.ft_layout.specs.declared.slot.Pair.{Pair};
ghost use Rattle.ft_layout.specs.declared.slot.Slot.TheVariants.{Live};
ghost use Rattle.ft_layout.specs.Containers.{class_mask};
ghost use Rattle.ft_layout.specs.Tables.{dict_room};
ghost use Rattle.ft_trace.specs.declared.Act.{Act};
ghost use Rattle.ft_trace.specs.Acts.{has_lock};
ghost use Rattle.ft_trace.specs.Addresses.{class_of, container_count};
ghost use Rattle.ft_trace.specs.BoxWords.{box_kind};
ghost use Rattle.ft_trace.specs.Holds.{held_unboxed, known_state};
ghost use Rattle.ft_trace.specs.Pictures.{Represents};
ghost use Rattle.ft_trace.specs.ContainerStates.{kind_in};
ghost use Rattle.ft_bank.specs.Passes.{shape_of, view, IsPassOf};
ghost use Rattle.ft_bank.specs.Series.{DidAll};
ghost use Rattle.ft_bank.specs.TableNames.{table_id, IsTableIn};
ghost use Rattle.ft_bank.specs.Whole.{OnlyLoaded};
ghost use Rattle.ft_search.specs.Boxed.{IsKnownBox};
ghost use Rattle.ft_search.specs.Held.{KnowsTable};
ghost use Rattle.ft_search.specs.KeyLooks.{AreLooks};
ghost use Rattle.ft_search.specs.TableWords.{CanLoad, SamePlace, KnowsWords, known_words, read_words};
ghost use Rattle.ft_iter.specs.Seeking.{FindsWords, GivesPair, SaysEntry};
ghost use Rattle.ft_trace.specs.Kinds.{IsKeyed, rows};
ghost use Rattle.ft_iter.specs.Following.{IsNextOf};

use crate::pairs::{PairWords, live_pair, seek_words};
use ft_bank::{Bank, Pass, Table};
use ft_keys::Steps;
use ft_layout::{Pair, block_word};
use ft_search::{TableWords, mask_of, read_value, table_named};
use std::marker::Brand;
use std::sync::ledger::{Blank, Ledger};

/// Which words of a block are the root and how many entries were used, as a bank counts them.
const ROOT: u64 = block_word::ROOT - block_word::ROOT;

const FILL: u64 = block_word::FILL - block_word::ROOT;

/// Seeks in words that nobody else writes.
fn seek_held<L: Ledger>(
    words: &mut TableWords,
    fill: u64,
    after: Option<u64>,
    blank: Blank,
) -> Option<PairWords>
    requires can { CanLoad words.old }
    requires knows { KnowsWords words.old }
    requires fill { fill ≤ dict_room words.old.mask }
    requires name { blank.name ≡ L.name }
    requires parts { (blank.parts ≡ L.parts) × (L.parts ≡ 1) }
    ensures can { CanLoad words.new }
    ensures same { SamePlace words.old words.new }
    ensures knows { KnowsWords words.new × (known_words words.new ≡ known_words words.old) }
    ensures looks { (part : List Act) × AreLooks part × DidAll part words.old.pass.now words.new.pass.now }
    ensures finds { FindsWords words.old.mask (known_words words.old) fill after result }
{
    let mut steps: Steps<L> = Steps::new(blank);
    seek_words(words, fill, after, &mut steps)
}

/// Reads the value of the entry that was found, through its box where it has one, and says the pair.
fn pair_in(words: &mut TableWords, found: PairWords) -> Option<Pair>
    requires can { CanLoad words.old }
    requires known { found.value_kind ≡ box_kind → IsKnownBox (view words.old.pass.now) found.value }
    ensures can { CanLoad words.new }
    ensures same { SamePlace words.old words.new }
    ensures looks { (part : List Act) × AreLooks part × DidAll part words.old.pass.now words.new.pass.now }
    ensures says { (pair : Pair) → SaysEntry (view words.old.pass.now) found (Live pair) ↔ (result ≡ Some pair) }
{
    let (kind, payload) = read_value(words.bank, words.pass, found.value_kind, found.value);
    live_pair(&[
        0,
        found.hash,
        found.key_kind,
        found.key,
        kind,
        payload,
        found.serial,
        0,
    ])
}

/// The pair of the entry that is sought in words that nobody else writes.
fn seek_pair<L: Ledger>(
    words: &mut TableWords,
    fill: u64,
    after: Option<u64>,
    blank: Blank,
) -> Option<Pair>
    requires can { CanLoad words.old }
    requires knows { KnowsWords words.old }
    requires keyed { IsKeyed (kind_in (shape_of words.old.bank.now).starts words.old.o) }
    requires fill { fill ≤ dict_room words.old.mask }
    requires few { fill ≤ rows (kind_in (shape_of words.old.bank.now).starts words.old.o) (class_of (table_id words.old.table)) }
    requires name { blank.name ≡ L.name }
    requires parts { (blank.parts ≡ L.parts) × (L.parts ≡ 1) }
    ensures can { CanLoad words.new }
    ensures same { SamePlace words.old words.new }
    ensures looks { (part : List Act) × AreLooks part × DidAll part words.old.pass.now words.new.pass.now }
    ensures gives { GivesPair words.old.mask (read_words words.old) fill after result }
{
    let found = seek_held::<L>(words, fill, after, blank);
    match found {
        Some(entry) => pair_in(words, entry),
        None => None,
    }
}

/// Seeks in the table of a container whose lock the pass has.
fn seek_in(
    bank: &Bank,
    pass: &mut Pass,
    o: u32,
    table: Table,
    fill: u64,
    after: Option<u64>,
) -> Option<Pair>
    requires pass { IsPassOf bank.now pass.old }
    requires container { o < container_count (shape_of bank.now) }
    requires keyed { IsKeyed (kind_in (shape_of bank.now).starts o) }
    requires table { IsTableIn (shape_of bank.now) table }
    requires knows { KnowsTable o (table_id table) (view pass.old) }
    requires fill { fill ≤ dict_room (class_mask table.class) }
    requires few { fill ≤ rows (kind_in (shape_of bank.now).starts o) (class_of (table_id table)) }
    ensures pass { IsPassOf bank.now pass.new }
    ensures looks { (part : List Act) × AreLooks part × DidAll part pass.old pass.new }
    ensures gives { GivesPair (class_mask table.class) (0 ∷ 0 ∷ (held_unboxed o (view pass.old)).table) fill after result }
{
    let mask = mask_of(table.class);
    let start = bank.cell_of(table);
    let mut words = TableWords {
        bank,
        pass,
        o,
        table,
        mask,
        start,
    };
    seek_pair::<Brand>(&mut words, fill, after, Blank::new(1))
}

/// The pair or the element with the least serial greater than `after`, where nothing was given yet the least
/// of all, of a dict or a set whose lock the pass has: `None` where there is none.
pub(crate) fn next_of(bank: &Bank, pass: &mut Pass, o: u32, after: Option<u64>) -> Option<Pair>
    requires pass { IsPassOf bank.now pass.old }
    requires container { o < container_count (shape_of bank.now) }
    requires keyed { IsKeyed (kind_in (shape_of bank.now).starts o) }
    requires locked { has_lock o (view pass.old).log ≡ true }
    requires stands { Represents (shape_of bank.now).texts (held_unboxed o (view pass.old)) (known_state o (view pass.old)) }
    ensures pass { IsPassOf bank.now pass.new }
    ensures keeps { OnlyLoaded (view pass.old) (view pass.new) }
    ensures looks { (part : List Act) × AreLooks part × DidAll part pass.old pass.new }
    ensures next { IsNextOf (known_state o (view pass.old)).content after result }
{
    let root = bank.read_block(pass, o, ROOT);
    let fill = bank.read_block(pass, o, FILL);
    match table_named(root) {
        Some(table) => seek_in(bank, pass, o, table, fill, after),
        None => None,
    }
}
