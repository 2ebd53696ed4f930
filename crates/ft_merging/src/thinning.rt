//! Elements of a set are taken out that another set has, or that it hasn't: as one whole write. A set that is named
//! twice is read as it stood before.
ghost use Rattle.std.specs.Prelude.{◌≡◌, ◌≢◌, ℕ, ◌+◌, ◌<◌, ◌≤◌, true, false, Option, Some, None, not};
ghost use Rattle.ft_layout.specs.Tables.{hash_of};
ghost use Rattle.ft_layout.specs.Words.{FitsKey};
ghost use Rattle.ft_model.specs.declared.data.Key.{Key};
ghost use Rattle.ft_model.specs.declared.reply.Reply.TheVariants as reply;
ghost use Rattle.ft_model.specs.declared.script.Kind.TheVariants as kind;
ghost use Rattle.ft_model.specs.Contents.{has_element};
ghost use Rattle.ft_model.specs.Worlds.{set_of};
ghost use Rattle.ft_trace.specs.Addresses.{class_of, slots};
ghost use Rattle.ft_trace.specs.Carefuls.{HasLiveKey};
ghost use Rattle.ft_trace.specs.Holds.{held_unboxed, known_state};
ghost use Rattle.ft_trace.specs.Kinds.{rows};
ghost use Rattle.ft_trace.specs.Pictures.{root_in};
ghost use Rattle.ft_trace.specs.ContainerStates.{ContainerState, kind_in};
ghost use Rattle.ft_bank.specs.Passes.{shape_of, view, IsPassOf};
ghost use Rattle.ft_bank.specs.PassSections.{stack_of};
ghost use Rattle.ft_bank.specs.TableNames.{table_id};
ghost use Rattle.ft_bank.specs.SameBoxes.{SameReferences};
ghost use Rattle.ft_bank.specs.Whole.{OnlyLoaded, OnlyWritten, Wrote};
ghost use Rattle.ft_search.specs.OneEntryWrites.{HasTable, KnowsEntries, Leaves, MayWriteEntries};
ghost use Rattle.ft_merging.specs.Thinning.{stays, thinned_state};
ghost use Rattle.ft_merging.specs.Internal.ThinningSteps.{IsThinned};

use crate::closing::finish_entries;
use crate::reading::{key_at, word_of};
use ft_bank::{Bank, Pass, Table};
use ft_keys::Way;
use ft_layout::entry_word::HASH;
use ft_layout::{
    block_word, used_entries_follow_a_dict, used_entries_follow_a_set, versions_change_nothing,
    words_follow_a_set,
};
use ft_model::{Call, Key, Reply};
use ft_search::{Spot, put_deleted, seek_by, table_named, write_nothing};
use ft_section::Object;

/// Which word of a block is how many entries were used, as a bank counts them.
const FILL: u64 = block_word::FILL - block_word::ROOT;

/// Whether an element of a set is one of another set, or of this set itself.
fn is_in(bank: &Bank, pass: &mut Pass, s: Object, t: Object, key: Key, hash: u64) -> bool
    requires pass { IsPassOf bank.now pass.old }
    requires set { kind_in (shape_of bank.now).starts t ≡ kind.Set }
    requires hash { hash ≡ hash_of (shape_of bank.now).texts key }
    requires fits { FitsKey key }
    requires other { s ≢ t → KnowsEntries (shape_of bank.now) t (view pass.old) }
    requires own { s ≡ t → has_element (set_of (known_state t (view pass.old)).content).elements key ≡ true }
    ensures pass { IsPassOf bank.now pass.new }
    ensures stack { stack_of pass.new ≡ stack_of pass.old }
    ensures only { OnlyLoaded (view pass.old) (view pass.new) }
    ensures found { result ≡ has_element (set_of (known_state t (view pass.old)).content).elements key }
{
    if s == t {
        return true;
    }
    match seek_by(bank, pass, t, Way::Set, key, hash) {
        Spot::At(..) => true,
        Spot::Free(..) => false,
        Spot::Bare => false,
    }
}

/// The key of the entry at a place, where it is an element that is to go.
fn goes_at(
    bank: &Bank,
    pass: &mut Pass,
    s: Object,
    table: Table,
    t: Object,
    kept: bool,
    place: u64,
) -> Option<Key>
    requires pass { IsPassOf bank.now pass.old }
    requires set { kind_in (shape_of bank.now).starts s ≡ kind.Set }
    requires other_set { kind_in (shape_of bank.now).starts t ≡ kind.Set }
    requires place { place < rows kind.Set (class_of (table_id table)) }
    requires other { s ≢ t → KnowsEntries (shape_of bank.now) t (view pass.old) }
    requires thinned { (to : ContainerState) × (last : ℕ) × (place < last) × IsThinned (shape_of bank.now) s table kept
        (set_of (known_state t (view pass.old)).content) (set_of (known_state s (view pass.old)).content) to last place
        (view pass.old) }
    ensures pass { IsPassOf bank.now pass.new }
    ensures stack { stack_of pass.new ≡ stack_of pass.old }
    ensures only { OnlyLoaded (view pass.old) (view pass.new) }
    ensures goes { (key : Key) → result ≡ Some key →
        HasLiveKey (slots (class_of (table_id table))) (held_unboxed s (view pass.old)).table place key × FitsKey key
        × (stays kept (set_of (known_state t (view pass.old)).content) key ≡ false) }
    ensures stays { result ≡ None → (key : Key) → FitsKey key →
        HasLiveKey (slots (class_of (table_id table))) (held_unboxed s (view pass.old)).table place key →
        stays kept (set_of (known_state t (view pass.old)).content) key ≡ true }
{
    versions_change_nothing();
    used_entries_follow_a_set();
    words_follow_a_set();
    let Some(key) = key_at(bank, pass, s, table, place) else {
        return None;
    };
    let hash = word_of(bank, pass, s, table, place, HASH);
    let found = is_in(bank, pass, s, t, key, hash);
    if found == kept {
        return None;
    }
    Some(key)
}

/// Takes the element of the entry at a place out, where it is to go.
fn thin_at(bank: &Bank, pass: &mut Pass, s: Object, table: Table, t: Object, kept: bool, place: u64)
    requires pass { IsPassOf bank.now pass.old }
    requires set { kind_in (shape_of bank.now).starts s ≡ kind.Set }
    requires other_set { kind_in (shape_of bank.now).starts t ≡ kind.Set }
    requires place { place < rows kind.Set (class_of (table_id table)) }
    requires other { s ≢ t → KnowsEntries (shape_of bank.now) t (view pass.old) }
    requires thinned { (to : ContainerState) × (last : ℕ) × (place < last) × IsThinned (shape_of bank.now) s table kept
        (set_of (known_state t (view pass.old)).content) (set_of (known_state s (view pass.old)).content) to last place
        (view pass.old) }
    ensures pass { IsPassOf bank.now pass.new }
    ensures stack { stack_of pass.new ≡ stack_of pass.old }
    ensures only { OnlyWritten s (view pass.old) (view pass.new) }
    ensures references { SameReferences (view pass.old) (view pass.new) }
    ensures thinned { (to : ContainerState) (last : ℕ) → place < last →
        IsThinned (shape_of bank.now) s table kept (set_of (known_state t (view pass.old)).content)
        (set_of (known_state s (view pass.old)).content) to last place (view pass.old) →
        IsThinned (shape_of bank.now) s table kept (set_of (known_state t (view pass.old)).content)
        (set_of (known_state s (view pass.old)).content) to last (place + 1) (view pass.new) }
{
    versions_change_nothing();
    used_entries_follow_a_set();
    words_follow_a_set();
    if let Some(key) = goes_at(bank, pass, s, table, t, kept, place) {
        put_deleted(bank, pass, s, table, place, key);
    }
}

/// Takes the elements of as many entries out that are to go.
pub(crate) fn thin_all(
    bank: &Bank,
    pass: &mut Pass,
    s: Object,
    table: Table,
    t: Object,
    kept: bool,
    fill: u64,
)
    requires pass { IsPassOf bank.now pass.old }
    requires set { kind_in (shape_of bank.now).starts s ≡ kind.Set }
    requires other_set { kind_in (shape_of bank.now).starts t ≡ kind.Set }
    requires fill { fill ≤ rows kind.Set (class_of (table_id table)) }
    requires other { s ≢ t → KnowsEntries (shape_of bank.now) t (view pass.old) }
    requires thinned { (to : ContainerState) × IsThinned (shape_of bank.now) s table kept
        (set_of (known_state t (view pass.old)).content) (set_of (known_state s (view pass.old)).content) to fill 0
        (view pass.old) }
    ensures pass { IsPassOf bank.now pass.new }
    ensures stack { stack_of pass.new ≡ stack_of pass.old }
    ensures only { OnlyWritten s (view pass.old) (view pass.new) }
    ensures references { SameReferences (view pass.old) (view pass.new) }
    ensures thinned { (to : ContainerState) → IsThinned (shape_of bank.now) s table kept
        (set_of (known_state t (view pass.old)).content) (set_of (known_state s (view pass.old)).content) to fill 0
        (view pass.old) →
        IsThinned (shape_of bank.now) s table kept (set_of (known_state t (view pass.old)).content)
        (set_of (known_state s (view pass.old)).content) to fill fill (view pass.new) }
{
    for place in 0..fill {
        thin_at(bank, pass, s, table, t, kept, place);
    }
}

/// Takes the elements that are to go out of a set that has this table, as the write of the call. Answers the number of
/// the write.
fn thin_table(
    bank: &Bank,
    pass: &mut Pass,
    s: Object,
    table: Table,
    t: Object,
    kept: bool,
    fill: u64,
    called: &Call,
) -> u64
    requires pass { IsPassOf bank.now pass.old }
    requires may { MayWriteEntries (shape_of bank.now) s (view pass.old) }
    requires other { MayWriteEntries (shape_of bank.now) t (view pass.old) }
    requires set { kind_in (shape_of bank.now).starts s ≡ kind.Set }
    requires other_set { kind_in (shape_of bank.now).starts t ≡ kind.Set }
    requires table { HasTable (shape_of bank.now) s table (view pass.old) }
    requires fill { fill ≡ (known_state s (view pass.old)).table.fill }
    requires leaves { Leaves s called.now reply.Done
        (thinned_state kept (known_state t (view pass.old)) (known_state s (view pass.old))) (view pass.old) }
    ensures pass { IsPassOf bank.now pass.new }
    ensures stack { stack_of pass.new ≡ stack_of pass.old }
    ensures wrote { Wrote called.now reply.Done result (view pass.old) (view pass.new) }
    ensures references { SameReferences (view pass.old) (view pass.new) }
    ensures root { root_in (held_unboxed s (view pass.new)) ≡ root_in (held_unboxed s (view pass.old)) }
{
    used_entries_follow_a_dict();
    used_entries_follow_a_set();
    bank.start_write(pass, s);
    thin_all(bank, pass, s, table, t, kept, fill);
    finish_entries(bank, pass, s, table, fill, called, &Reply::Done)
}

/// Takes those elements out of a set that another one hasn't, where those are `kept` that it has, or else those that it
/// has: as the write of the call, by a pass that has both locks. Answers the number of the write. The version of each
/// entry whose key goes is odd while it is written, and no other.
pub fn thin_by(bank: &Bank, pass: &mut Pass, s: Object, t: Object, kept: bool, called: &Call) -> u64
    requires pass { IsPassOf bank.now pass.old }
    requires may { MayWriteEntries (shape_of bank.now) s (view pass.old) }
    requires other { MayWriteEntries (shape_of bank.now) t (view pass.old) }
    requires set { kind_in (shape_of bank.now).starts s ≡ kind.Set }
    requires other_set { kind_in (shape_of bank.now).starts t ≡ kind.Set }
    requires leaves { Leaves s called.now reply.Done
        (thinned_state kept (known_state t (view pass.old)) (known_state s (view pass.old))) (view pass.old) }
    ensures pass { IsPassOf bank.now pass.new }
    ensures stack { stack_of pass.new ≡ stack_of pass.old }
    ensures wrote { Wrote called.now reply.Done result (view pass.old) (view pass.new) }
    ensures references { SameReferences (view pass.old) (view pass.new) }
    ensures root { root_in (held_unboxed s (view pass.new)) ≡ root_in (held_unboxed s (view pass.old)) }
{
    let root = bank.read_block(pass, s, 0);
    let fill = bank.read_block(pass, s, FILL);
    match table_named(root) {
        Some(table) => thin_table(bank, pass, s, table, t, kept, fill, called),
        None => write_nothing(bank, pass, s, called, &Reply::Done),
    }
}
