//! The keys of one dict or set are put into another one that is written, one by one, in the order of their entries, and
//! its values at those that are there: the version of each entry that is written is odd until all are put.
ghost use Rattle.std.specs.Prelude.{◌≡◌, ◌≢◌, ◌⊎◌, ℕ, suc, ◌+◌, ◌^◌, ◌<◌, ◌≤◌, false, Some};
ghost use Rattle.ft_layout.specs.Tables.{hash_of};
ghost use Rattle.ft_layout.specs.Words.{FitsKey, IsStored, stored_kind, stored_payload};
ghost use Rattle.ft_layout.specs.declared.slot.Stored.TheVariants.{Plain};
ghost use Rattle.ft_model.specs.declared.reply.Reply.TheVariants as reply;
ghost use Rattle.ft_model.specs.declared.script.Kind.TheVariants as kind;
ghost use Rattle.ft_model.specs.declared.data.Value.{Value};
ghost use Rattle.ft_model.specs.Worlds.{kind_of};
ghost use Rattle.ft_trace.specs.declared.View.{View};
ghost use Rattle.ft_trace.specs.Acts.{has_committed};
ghost use Rattle.ft_trace.specs.Addresses.{class_of, slots};
ghost use Rattle.ft_trace.specs.Boxes.{references_held};
ghost use Rattle.ft_trace.specs.Holds.{held_unboxed, known_state};
ghost use Rattle.ft_trace.specs.Kinds.{rows};
ghost use Rattle.ft_trace.specs.Pictures.{Represents, entry_field, root_in};
ghost use Rattle.ft_trace.specs.ContainerStates.{ContainerState, kind_in};
ghost use Rattle.ft_trace.specs.WholeWrites.{MayPuts, with_puts};
ghost use Rattle.ft_bank.specs.Passes.{shape_of, view, IsPassOf};
ghost use Rattle.ft_bank.specs.PassSections.{stack_of};
ghost use Rattle.ft_bank.specs.TableNames.{table_id};
ghost use Rattle.ft_bank.specs.SameBoxes.{SameReferences};
ghost use Rattle.ft_bank.specs.Whole.{EndsWrite, OnlyLoaded, OnlyWritten};
ghost use Rattle.ft_search.specs.Rounds.{kind_by};
ghost use Rattle.ft_search.specs.OneEntryWrites.{KeepsOtherEntries, WritesEntries};
ghost use Rattle.ft_new_keys.specs.declared.counts.Counts.{Counts};
ghost use Rattle.ft_new_keys.specs.KeyGrowth.{KnowsKeyed};
ghost use Rattle.ft_merging.specs.Joining.{SharesValues, joined};
ghost use Rattle.ft_merging.specs.Internal.JoiningSteps.{IsJoining, IsSought, KeepsBelow, SharesBelow, SharesBox, stored_puts};
ghost use Rattle.ft_merging.specs.Internal.EntriesAtOnce.{MayFinishAll};

use crate::closing::finish_entries;
use crate::reading::pair_at;
use crate::sharing::{EntryAt, share_value};
use ft_bank::{Bank, Pass, Table};
use ft_keys::{Way, placed_pairs_are_of_a_table, searches_end_at_the_first_free_slot};
use ft_layout::{
    Pair, Stored, used_entries_follow_a_dict, used_entries_follow_a_set, versions_change_nothing,
    words_are_of_one_content, words_follow_a_dict, words_follow_a_set,
};
use ft_model::{Call, Key, Reply};
use ft_new_keys::{Counts, put_key};
use ft_search::{Spot, put_value, read_by, says_value, spot_of};
use ft_section::Object;

/// Where a key is in the table of a container that is written.
fn seek_in(
    bank: &Bank,
    pass: &mut Pass,
    o: Object,
    way: Way,
    own: Table,
    key: Key,
    hash: u64,
) -> Spot
    requires pass { IsPassOf bank.now pass.old }
    requires way { kind_in (shape_of bank.now).starts o ≡ kind_by way }
    requires writes { WritesEntries (shape_of bank.now) o own (view pass.old) }
    requires hash { hash ≡ hash_of (shape_of bank.now).texts key }
    requires fits { FitsKey key }
    ensures pass { IsPassOf bank.now pass.new }
    ensures stack { stack_of pass.new ≡ stack_of pass.old }
    ensures only { OnlyLoaded (view pass.old) (view pass.new) }
    ensures low { hash_of (shape_of bank.now).texts key < 2 ^ 64 }
    ensures spot { (mid : ContainerState) → kind_of mid.content ≡ kind_by way →
        Represents (shape_of bank.now).texts (held_unboxed o (view pass.old)) mid →
        IsSought (shape_of bank.now) way own key (held_unboxed o (view pass.old)) mid.content result }
{
    used_entries_follow_a_dict();
    used_entries_follow_a_set();
    searches_end_at_the_first_free_slot();
    let (found, read) = read_by(bank, pass, o, way, key, hash, own);
    spot_of(own, found, read)
}

/// Puts what is stored at a key into the entry that has the key, where this has another value: the value of an entry of
/// another container, which both have in one box then, where it stands in one there. An element of a set has none.
fn put_stored(
    bank: &Bank,
    pass: &mut Pass,
    to: EntryAt,
    from: EntryAt,
    stored: Stored,
    old: (u64, u64),
)
    requires pass { IsPassOf bank.now pass.old }
    requires writes { WritesEntries (shape_of bank.now) to.o to.table (view pass.old) }
    requires none { (b : ℕ) → references_held (shape_of bank.now) b (view pass.old).log ≡ 0 }
    requires two { to.o ≢ from.o }
    requires other { KnowsKeyed (shape_of bank.now) from.o (Some from.table) (view pass.old) }
    requires from { from.place < rows (kind_in (shape_of bank.now).starts from.o) (class_of (table_id from.table)) }
    requires reads { IsStored
        (entry_field (slots (class_of (table_id from.table))) (held_unboxed from.o (view pass.old)).table from.place 4)
        (entry_field (slots (class_of (table_id from.table))) (held_unboxed from.o (view pass.old)).table from.place 5)
        stored }
    requires place { to.place < rows (kind_in (shape_of bank.now).starts to.o) (class_of (table_id to.table)) }
    requires early { has_committed to.o (view pass.old).log ≡ false }
    requires old_kind { old.0 ≡ entry_field (slots (class_of (table_id to.table)))
        (held_unboxed to.o (view pass.old)).table to.place 4 }
    requires old_payload { old.1 ≡ entry_field (slots (class_of (table_id to.table)))
        (held_unboxed to.o (view pass.old)).table to.place 5 }
    requires may { MayPuts (kind_in (shape_of bank.now).starts to.o) (table_id to.table)
        (known_state to.o (view pass.old)).content false
        (held_unboxed to.o (view pass.old))
        (stored_puts (slots (class_of (table_id to.table))) (held_unboxed to.o (view pass.old)).table to.place stored) }
    ensures pass { IsPassOf bank.now pass.new }
    ensures stack { stack_of pass.new ≡ stack_of pass.old }
    ensures writes { WritesEntries (shape_of bank.now) to.o to.table (view pass.new) }
    ensures only { OnlyWritten to.o (view pass.old) (view pass.new) }
    ensures references { SameReferences (view pass.old) (view pass.new) }
    ensures words { held_unboxed to.o (view pass.new) ≡ with_puts (held_unboxed to.o (view pass.old))
        (stored_puts (slots (class_of (table_id to.table))) (held_unboxed to.o (view pass.old)).table to.place stored) }
    ensures others { KeepsOtherEntries to.o (table_id to.table) to.place (view pass.old) (view pass.new) }
    ensures shares { (value : Value) → stored ≡ Plain value → SharesBox from to (view pass.old) (view pass.new)
        ⊎ ((old.0 ≡ stored_kind (Plain value)) × (old.1 ≡ stored_payload (Plain value))) }
{
    match stored {
        Stored::Plain(value) => {
            if !says_value(old, value) {
                put_value(bank, pass, to.o, to.table, to.place, value, old);
                share_value(bank, pass, to, from);
            }
        }
        Stored::Empty | Stored::Boxed(..) => (),
    }
}

/// What a container counts once it has one key more.
fn one_more(counts: Counts) -> Counts
    requires room { (counts.count < 2 ^ 63) × (counts.fill < 2 ^ 63) × (counts.next < 2 ^ 63) }
    ensures { result ≡ record { count = counts.count + 1; fill = counts.fill + 1; next = counts.next + 1 } }
{
    Counts {
        count: counts.count + 1,
        fill: counts.fill + 1,
        next: counts.next + 1,
    }
}

/// Puts the pair of the entry at a place into a container that is written, which counts this. Answers what it counts
/// then.
fn join_at(
    bank: &Bank,
    pass: &mut Pass,
    o: Object,
    way: Way,
    own: Table,
    t: Object,
    table: Table,
    place: u64,
    end: u64,
    counts: Counts,
) -> Counts
    requires pass { IsPassOf bank.now pass.old }
    requires none { (b : ℕ) → references_held (shape_of bank.now) b (view pass.old).log ≡ 0 }
    requires two { o ≢ t }
    requires other { KnowsKeyed (shape_of bank.now) t (Some table) (view pass.old) }
    requires other_way { kind_in (shape_of bank.now).starts t ≡ kind_by way }
    requires place { place < (known_state t (view pass.old)).table.fill }
    requires joining { IsJoining (shape_of bank.now) o way own t table
        (joined (known_state o (view pass.old)).content (known_state t (view pass.old)).content) end place counts
        (view pass.old) }
    ensures pass { IsPassOf bank.now pass.new }
    ensures stack { stack_of pass.new ≡ stack_of pass.old }
    ensures only { OnlyWritten o (view pass.old) (view pass.new) }
    ensures joining { IsJoining (shape_of bank.now) o way own t table
        (joined (known_state o (view pass.old)).content (known_state t (view pass.old)).content) end (place + 1) result
        (view pass.new) }
    ensures references { SameReferences (view pass.old) (view pass.new) }
    ensures more { counts.fill ≤ result.fill }
    ensures keeps { kind_by way ≡ kind.Set →
        KeepsBelow (table_id own) counts.fill (held_unboxed o (view pass.old)) (held_unboxed o (view pass.new)) }
    ensures shares { kind_by way ≡ kind.Dict → SharesBelow o t table place (view pass.old) →
        SharesBelow o t table (place + 1) (view pass.new) }
{
    let _ = end;
    versions_change_nothing();
    placed_pairs_are_of_a_table();
    words_are_of_one_content();
    used_entries_follow_a_dict();
    used_entries_follow_a_set();
    words_follow_a_dict();
    words_follow_a_set();
    let Some(pair) = pair_at(bank, pass, t, table, place) else {
        return counts;
    };
    let from = EntryAt { o: t, table, place };
    match seek_in(bank, pass, o, way, own, pair.key, pair.hash) {
        Spot::At(_, at, kind, payload) => {
            let to = EntryAt {
                o,
                table: own,
                place: at,
            };
            put_stored(bank, pass, to, from, pair.value, (kind, payload));
            counts
        }
        Spot::Free(_, slot) => {
            let new = Pair {
                serial: counts.next,
                ..pair
            };
            put_key(bank, pass, o, own, slot, counts, &new);
            let to = EntryAt {
                o,
                table: own,
                place: counts.fill,
            };
            share_value(bank, pass, to, from);
            one_more(counts)
        }
        Spot::Bare => counts,
    }
}

/// Puts the pairs of as many entries into a container that is written. Answers what it counts then.
pub(crate) fn join_all(
    bank: &Bank,
    pass: &mut Pass,
    o: Object,
    way: Way,
    own: Table,
    t: Object,
    table: Table,
    fill: u64,
    end: u64,
    first: Counts,
) -> Counts
    requires pass { IsPassOf bank.now pass.old }
    requires none { (b : ℕ) → references_held (shape_of bank.now) b (view pass.old).log ≡ 0 }
    requires two { o ≢ t }
    requires other { KnowsKeyed (shape_of bank.now) t (Some table) (view pass.old) }
    requires other_way { kind_in (shape_of bank.now).starts t ≡ kind_by way }
    requires fill { fill ≡ (known_state t (view pass.old)).table.fill }
    requires joining { IsJoining (shape_of bank.now) o way own t table
        (joined (known_state o (view pass.old)).content (known_state t (view pass.old)).content) end 0 first
        (view pass.old) }
    ensures pass { IsPassOf bank.now pass.new }
    ensures stack { stack_of pass.new ≡ stack_of pass.old }
    ensures only { OnlyWritten o (view pass.old) (view pass.new) }
    ensures joining { IsJoining (shape_of bank.now) o way own t table
        (joined (known_state o (view pass.old)).content (known_state t (view pass.old)).content) end fill result
        (view pass.new) }
    ensures references { SameReferences (view pass.old) (view pass.new) }
    ensures keeps { kind_by way ≡ kind.Set →
        KeepsBelow (table_id own) first.fill (held_unboxed o (view pass.old)) (held_unboxed o (view pass.new)) }
    ensures shares { kind_by way ≡ kind.Dict → SharesBelow o t table fill (view pass.new) }
{
    let mut counts = first;
    for place in 0..fill {
        counts = join_at(bank, pass, o, way, own, t, table, place, end, counts);
    }
    counts
}

/// Puts the pairs of as many entries into a container that is written, whose table has room, as the write of the call.
/// Answers the number of the write.
pub(crate) fn join_table(
    bank: &Bank,
    pass: &mut Pass,
    o: Object,
    way: Way,
    own: Table,
    t: Object,
    table: Table,
    fill: u64,
    end: u64,
    first: Counts,
    called: &Call,
) -> u64
    requires pass { IsPassOf bank.now pass.old }
    requires none { (b : ℕ) → references_held (shape_of bank.now) b (view pass.old).log ≡ 0 }
    requires two { o ≢ t }
    requires other { KnowsKeyed (shape_of bank.now) t (Some table) (view pass.old) }
    requires other_way { kind_in (shape_of bank.now).starts t ≡ kind_by way }
    requires fill { fill ≡ (known_state t (view pass.old)).table.fill }
    requires joining { IsJoining (shape_of bank.now) o way own t table
        (joined (known_state o (view pass.old)).content (known_state t (view pass.old)).content) end 0 first
        (view pass.old) }
    requires finishes { (u : View) (counts : Counts) → OnlyWritten o (view pass.old) u →
        IsJoining (shape_of bank.now) o way own t table
        (joined (known_state o (view pass.old)).content (known_state t (view pass.old)).content) end fill counts u →
        MayFinishAll (shape_of bank.now) o own end called.now reply.Done u }
    ensures pass { IsPassOf bank.now pass.new }
    ensures stack { stack_of pass.new ≡ stack_of pass.old }
    ensures ends { (u : View) × OnlyWritten o (view pass.old) u × (root_in (held_unboxed o u) ≡ suc (table_id own))
        × EndsWrite called.now reply.Done result u (view pass.new) }
    ensures references { SameReferences (view pass.old) (view pass.new) }
    ensures shares { kind_by way ≡ kind.Dict → SharesValues o t (view pass.old) (view pass.new) }
{
    used_entries_follow_a_dict();
    join_all(bank, pass, o, way, own, t, table, fill, end, first);
    finish_entries(bank, pass, o, own, end, called, &Reply::Done)
}
