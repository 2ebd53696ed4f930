//! A fresh table that gets the elements of one set that another set hasn't, one by one, with their serials or with new
//! ones. No other pass reads it before it is put into a root.
ghost use Rattle.std.specs.Prelude.{◌≡◌, ℕ, ◌+◌, ◌^◌, ◌<◌, ◌≤◌, ◌∷◌, IfSome, List, length, Option, Some, None, slice_index_or};
ghost use Rattle.ft_hash.specs.Probes.{IsMask};
ghost use Rattle.ft_model.specs.declared.content.Content.TheVariants as content;
ghost use Rattle.ft_model.specs.declared.content.Element.{Element};
ghost use Rattle.ft_model.specs.declared.script.Kind.TheVariants as kind;
ghost use Rattle.ft_model.specs.Contents.{has_element, those_not_in};
ghost use Rattle.ft_model.specs.Worlds.{set_of};
ghost use Rattle.ft_layout.specs.Containers.{class_mask};
ghost use Rattle.ft_layout.specs.Tables.{IsSetTable, UsedEntry, hash_of};
ghost use Rattle.ft_layout.specs.Words.{FitsStored, entry_words};
ghost use Rattle.ft_keys.specs.TableChanges.{AddsPair, Placed, Puts};
ghost use Rattle.ft_keys.specs.Ways.{room};
ghost use Rattle.ft_keys.specs.declared.walk.Way.TheVariants as ways;
ghost use Rattle.ft_trace.specs.Acts.{stage};
ghost use Rattle.ft_trace.specs.Addresses.{class_of, slots};
ghost use Rattle.ft_trace.specs.Holds.{held_unboxed, in_hand, known_state};
ghost use Rattle.ft_trace.specs.Kinds.{rows};
ghost use Rattle.ft_trace.specs.Pictures.{entry_field};
ghost use Rattle.ft_trace.specs.ContainerStates.{kind_in};
ghost use Rattle.ft_bank.specs.Passes.{shape_of, view, IsPassOf};
ghost use Rattle.ft_bank.specs.PassSections.{stack_of};
ghost use Rattle.ft_bank.specs.TableNames.{table_id, IsTableIn};
ghost use Rattle.ft_bank.specs.Whole.{OnlyLoaded};
ghost use Rattle.ft_table_calls.specs.Adding.{OnlyFilled};
ghost use Rattle.ft_new_keys.specs.Fresh.{CanFill, FreshMade, HasZeroWords, IsFilledWith};
ghost use Rattle.ft_new_keys.specs.KeyGrowth.{KnowsKeyed};
ghost use Rattle.ft_new_keys.specs.Placing.{AreCounts};
ghost use Rattle.ft_merging.specs.Parting.{parted};
ghost use Rattle.ft_parting.specs.Internal.Choosing.{HasChosen, IsChosen, apart_pair, serial_at};

use ft_bank::{Bank, Pass, Table};
use ft_keys::{Found, Way, calls_keep_versions, place_new};
use ft_layout::entry_word::{HASH, SERIAL};
use ft_layout::{Pair, Stored, changed_words_are_of_a_table, words_are_of_one_content};
use ft_merging::{key_at, word_of};
use ft_model::Key;
use ft_new_keys::{Counts, FreshWords, blank};
use ft_search::{mask_of, read_by};
use ft_section::Object;

/// Whether a set, which has this table or none, has a key.
fn has_key(bank: &Bank, pass: &mut Pass, t: Object, own: Option<Table>, key: Key, hash: u64) -> bool
    requires pass { IsPassOf bank.now pass.old }
    requires set { kind_in (shape_of bank.now).starts t ≡ kind.Set }
    requires keyed { KnowsKeyed (shape_of bank.now) t own (view pass.old) }
    requires hash { hash ≡ hash_of (shape_of bank.now).texts key }
    ensures pass { IsPassOf bank.now pass.new }
    ensures stack { stack_of pass.new ≡ stack_of pass.old }
    ensures only { OnlyLoaded (view pass.old) (view pass.new) }
    ensures found { result ≡ has_element (set_of (known_state t (view pass.old)).content).elements key }
{
    let Some(table) = own else {
        return false;
    };
    let (found, _) = read_by(bank, pass, t, Way::Set, key, hash, table);
    match found {
        Found::At(_, _) => true,
        Found::Free(_) => false,
        Found::Was(_, _) => false,
        Found::Spent => false,
    }
}

/// Puts a pair into the fresh one of two tables, as its entry at this place.
fn place_in(words: &mut FreshWords<'_>, mask: u64, fill: u64, pair: &Pair)
    requires can { CanFill words.now }
    requires mask { IsMask mask × (words.now.mask ≡ mask) }
    requires fill { fill < room ways.Set mask }
    requires value { FitsStored pair.now.value }
    ensures pass { words.exit.now.pass.ghost_name ≡ words.entry.now.pass.ghost_name }
    ensures stack { stack_of words.exit.now.pass.now ≡ stack_of words.entry.now.pass.now }
    ensures may { IsPassOf words.entry.now.bank.now words.exit.now.pass.now }
    ensures only { OnlyFilled (view words.entry.now.pass.now) (view words.exit.now.pass.now) }
    ensures puts { Puts FreshMade mask words.entry.now words.exit.now 7 (fill + 1) (λ before later.
        Placed ways.Set mask fill (entry_words pair.now) before later × AddsPair ways.Set mask fill pair.now before later) }
{
    place_new(words, Way::Set, mask, fill, pair);
}

/// Puts a pair into a table that is fresh in hand, as its entry at this place, beside a container whose lock the pass
/// has and whose table is another one.
fn put_last(
    bank: &Bank,
    pass: &mut Pass,
    o: Object,
    old: Table,
    table: Table,
    fill: u64,
    pair: &Pair,
)
    requires pass { IsPassOf bank.now pass.old }
    requires keyed { KnowsKeyed (shape_of bank.now) o (Some old) (view pass.old) }
    requires table { IsTableIn (shape_of bank.now) table }
    requires fresh { stage (table_id table) (view pass.old).log ≡ 1 }
    requires fill { fill < room ways.Set (class_mask table.class) }
    requires value { FitsStored pair.now.value }
    ensures pass { IsPassOf bank.now pass.new }
    ensures stack { stack_of pass.new ≡ stack_of pass.old }
    ensures only { OnlyFilled (view pass.old) (view pass.new) }
    ensures adds { AddsPair ways.Set (class_mask table.class) fill pair.now (0 ∷ 0 ∷ in_hand (table_id table) (view pass.old))
        (0 ∷ 0 ∷ in_hand (table_id table) (view pass.new)) }
    ensures versions { (place : ℕ) → entry_field (slots (class_of (table_id table))) (in_hand (table_id table) (view pass.new)) place 0
        ≡ entry_field (slots (class_of (table_id table))) (in_hand (table_id table) (view pass.old)) place 0 }
{
    calls_keep_versions();
    let mask = mask_of(table.class);
    let old_mask = mask_of(old.class);
    let old_start = bank.cell_of(old);
    let start = bank.cell_of(table);
    let mut words = FreshWords {
        bank,
        pass,
        o,
        old,
        old_mask,
        old_start,
        start,
        table,
        mask,
        in_place: true,
    };
    place_in(&mut words, mask, fill, pair);
}

/// The element of the entry at a place of a set's table, if one is there that another set hasn't, which has this table or
/// none.
fn apart_at(
    bank: &Bank,
    pass: &mut Pass,
    s: Object,
    from: Table,
    t: Object,
    other: Option<Table>,
    place: u64,
) -> Option<Pair>
    requires pass { IsPassOf bank.now pass.old }
    requires set { kind_in (shape_of bank.now).starts s ≡ kind.Set }
    requires other_set { kind_in (shape_of bank.now).starts t ≡ kind.Set }
    requires keyed { KnowsKeyed (shape_of bank.now) s (Some from) (view pass.old) }
    requires other_keyed { KnowsKeyed (shape_of bank.now) t other (view pass.old) }
    requires place { place < rows kind.Set (class_of (table_id from)) }
    ensures pass { IsPassOf bank.now pass.new }
    ensures stack { stack_of pass.new ≡ stack_of pass.old }
    ensures only { OnlyLoaded (view pass.old) (view pass.new) }
    ensures apart { (used : List UsedEntry) (any : UsedEntry) →
        IsSetTable (shape_of bank.now).texts (class_mask (class_of (table_id from))) used (0 ∷ 0 ∷ (held_unboxed s (view pass.old)).table) →
        place < length used → result ≡ apart_pair (shape_of bank.now).texts
        (set_of (known_state t (view pass.old)).content).elements (slice_index_or used place any) }
    ensures fits { IfSome result (λ pair. FitsStored pair.value) }
{
    words_are_of_one_content();
    let Some(key) = key_at(bank, pass, s, from, place) else {
        return None;
    };
    let hash = word_of(bank, pass, s, from, place, HASH);
    if has_key(bank, pass, t, other, key, hash) {
        return None;
    }
    let serial = word_of(bank, pass, s, from, place, SERIAL);
    Some(Pair {
        hash,
        key,
        value: Stored::Empty,
        serial,
    })
}

/// The serial of an element: its own, or that many after the first new one.
fn serial_for(first: Option<u64>, more: u64, own: u64) -> u64
    requires low { IfSome first (λ next. next + more < 2 ^ 64) }
    ensures { result ≡ serial_at first more own }
{
    match first {
        Some(next) => next + more,
        None => own,
    }
}

/// Puts the element of the entry at a place into a fresh table, where another set hasn't it, after as many as this: with
/// its serial, or with a new one. Answers how many there are then.
fn choose_at(
    bank: &Bank,
    pass: &mut Pass,
    s: Object,
    from: Table,
    t: Object,
    other: Option<Table>,
    place: u64,
    table: Table,
    first: Option<u64>,
    start: u64,
    count: u64,
) -> u64
    requires pass { IsPassOf bank.now pass.old }
    requires set { kind_in (shape_of bank.now).starts s ≡ kind.Set }
    requires other_set { kind_in (shape_of bank.now).starts t ≡ kind.Set }
    requires keyed { KnowsKeyed (shape_of bank.now) s (Some from) (view pass.old) }
    requires other_keyed { KnowsKeyed (shape_of bank.now) t other (view pass.old) }
    requires place { place < rows kind.Set (class_of (table_id from)) }
    requires table { IsTableIn (shape_of bank.now) table }
    requires fresh { stage (table_id table) (view pass.old).log ≡ 1 }
    requires serials { IfSome first (λ next. next + 65536 < 2 ^ 63) }
    requires chosen { (used : List UsedEntry) × (mine : List Element) × (place < length used)
        × IsChosen (shape_of bank.now) s from t table first start used mine place count (view pass.old) }
    ensures pass { IsPassOf bank.now pass.new }
    ensures stack { stack_of pass.new ≡ stack_of pass.old }
    ensures only { OnlyFilled (view pass.old) (view pass.new) }
    ensures chosen { (used : List UsedEntry) (mine : List Element) → place < length used →
        IsChosen (shape_of bank.now) s from t table first start used mine place count (view pass.old) →
        IsChosen (shape_of bank.now) s from t table first start used mine (place + 1) result (view pass.new) }
{
    let Some(pair) = apart_at(bank, pass, s, from, t, other, place) else {
        return count;
    };
    let serial = serial_for(first, count - start, pair.serial);
    let new = Pair {
        hash: pair.hash,
        key: pair.key,
        value: Stored::Empty,
        serial,
    };
    put_last(bank, pass, s, from, table, count, &new);
    count + 1
}

/// Puts the elements of as many entries of a set's table into a fresh table that another set hasn't, after those that
/// are there: with their serials, or with new ones from one on. Answers how many there are then.
fn choose_all(
    bank: &Bank,
    pass: &mut Pass,
    s: Object,
    from: Table,
    t: Object,
    other: Option<Table>,
    fill: u64,
    table: Table,
    first: Option<u64>,
    start: u64,
) -> u64
    requires pass { IsPassOf bank.now pass.old }
    requires set { kind_in (shape_of bank.now).starts s ≡ kind.Set }
    requires other_set { kind_in (shape_of bank.now).starts t ≡ kind.Set }
    requires keyed { KnowsKeyed (shape_of bank.now) s (Some from) (view pass.old) }
    requires other_keyed { KnowsKeyed (shape_of bank.now) t other (view pass.old) }
    requires fill { fill ≡ (known_state s (view pass.old)).table.fill }
    requires table { IsTableIn (shape_of bank.now) table }
    requires fresh { stage (table_id table) (view pass.old).log ≡ 1 }
    requires serials { IfSome first (λ next. next + 65536 < 2 ^ 63) }
    requires chosen { (used : List UsedEntry) × (mine : List Element)
        × IsChosen (shape_of bank.now) s from t table first start used mine 0 start (view pass.old) }
    ensures pass { IsPassOf bank.now pass.new }
    ensures stack { stack_of pass.new ≡ stack_of pass.old }
    ensures only { OnlyFilled (view pass.old) (view pass.new) }
    ensures chosen { (used : List UsedEntry) (mine : List Element) →
        IsChosen (shape_of bank.now) s from t table first start used mine 0 start (view pass.old) →
        IsChosen (shape_of bank.now) s from t table first start used mine fill result (view pass.new) }
{
    let mut count = start;
    for place in 0..fill {
        count = choose_at(
            bank, pass, s, from, t, other, place, table, first, start, count,
        );
    }
    count
}

/// Puts those elements of a set, which has this table or none, into a blank table that is fresh in hand which another
/// set hasn't, with their serials. Answers how many there are.
fn keep_apart(
    bank: &Bank,
    pass: &mut Pass,
    s: Object,
    old: Option<Table>,
    fill: u64,
    t: Object,
    other: Option<Table>,
    table: Table,
) -> u64
    requires pass { IsPassOf bank.now pass.old }
    requires set { kind_in (shape_of bank.now).starts s ≡ kind.Set }
    requires other_set { kind_in (shape_of bank.now).starts t ≡ kind.Set }
    requires keyed { KnowsKeyed (shape_of bank.now) s old (view pass.old) }
    requires other_keyed { KnowsKeyed (shape_of bank.now) t other (view pass.old) }
    requires fill { fill ≡ (known_state s (view pass.old)).table.fill }
    requires table { IsTableIn (shape_of bank.now) table }
    requires fresh { stage (table_id table) (view pass.old).log ≡ 1 }
    requires blank { HasZeroWords (class_of (table_id table)) (in_hand (table_id table) (view pass.old)) }
    requires room { length (those_not_in (set_of (known_state t (view pass.old)).content).elements
        (set_of (known_state s (view pass.old)).content).elements) ≤ rows kind.Set (class_of (table_id table)) }
    ensures pass { IsPassOf bank.now pass.new }
    ensures stack { stack_of pass.new ≡ stack_of pass.old }
    ensures only { OnlyFilled (view pass.old) (view pass.new) }
    ensures kept { HasChosen (shape_of bank.now) table (those_not_in (set_of (known_state t (view pass.old)).content).elements
        (set_of (known_state s (view pass.old)).content).elements) result (view pass.new) }
{
    changed_words_are_of_a_table();
    words_are_of_one_content();
    match old {
        Some(own) => choose_all(bank, pass, s, own, t, other, fill, table, None, 0),
        None => 0,
    }
}

/// Fills a table that is fresh in hand with what a set has once it is parted with another one, which has this table: its
/// own elements that the other one hasn't, with their serials, and then those of the other one that it hasn't.
pub(crate) fn fill_parted(
    bank: &Bank,
    pass: &mut Pass,
    s: Object,
    old: Option<Table>,
    counts: Counts,
    t: Object,
    other: Table,
    others: u64,
    table: Table,
)
    requires pass { IsPassOf bank.now pass.old }
    requires set { kind_in (shape_of bank.now).starts s ≡ kind.Set }
    requires other_set { kind_in (shape_of bank.now).starts t ≡ kind.Set }
    requires keyed { KnowsKeyed (shape_of bank.now) s old (view pass.old) }
    requires other_keyed { KnowsKeyed (shape_of bank.now) t (Some other) (view pass.old) }
    requires counts { AreCounts (held_unboxed s (view pass.old)).block counts }
    requires others { others ≡ (known_state t (view pass.old)).table.fill }
    requires table { IsTableIn (shape_of bank.now) table }
    requires fresh { stage (table_id table) (view pass.old).log ≡ 1 }
    requires room { length (parted (known_state s (view pass.old)).content (known_state t (view pass.old)).content).elements
        ≤ rows kind.Set (class_of (table_id table)) }
    requires serials { counts.next + 65536 < 2 ^ 63 }
    ensures pass { IsPassOf bank.now pass.new }
    ensures stack { stack_of pass.new ≡ stack_of pass.old }
    ensures only { OnlyFilled (view pass.old) (view pass.new) }
    ensures filled { IsFilledWith (shape_of bank.now).texts (class_of (table_id table))
        (content.Set (parted (known_state s (view pass.old)).content (known_state t (view pass.old)).content))
        (in_hand (table_id table) (view pass.new)) }
{
    words_are_of_one_content();
    blank(bank, pass, table);
    let stay = keep_apart(bank, pass, s, old, counts.fill, t, Some(other), table);
    let next = Some(counts.next);
    choose_all(bank, pass, t, other, s, old, others, table, next, stay);
}
