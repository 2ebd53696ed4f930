//! Single entries of the table of a dict or a set, read by a pass that has its lock.
ghost use Rattle.std.specs.Prelude.{◌≡◌, ◌≢◌, ◌<◌, ◌↔◌, Some, slice_index};
ghost use Rattle.ft_layout.specs.declared.slot.Pair.{Pair};
ghost use Rattle.ft_layout.specs.declared.slot.Slot.{Slot};
ghost use Rattle.ft_layout.specs.declared.slot.Slot.TheVariants.{Live};
ghost use Rattle.ft_layout.specs.Words.{IsEntry, IsKey};
ghost use Rattle.ft_model.specs.declared.data.Key.{Key};
ghost use Rattle.ft_trace.specs.Addresses.{class_of, container_count, slots};
ghost use Rattle.ft_trace.specs.Holds.{held_unboxed};
ghost use Rattle.ft_trace.specs.Kinds.{rows, IsKeyed};
ghost use Rattle.ft_trace.specs.Pictures.{entry_field};
ghost use Rattle.ft_trace.specs.ContainerStates.{kind_in};
ghost use Rattle.ft_bank.specs.Passes.{shape_of, view, IsPassOf};
ghost use Rattle.ft_bank.specs.PassSections.{stack_of};
ghost use Rattle.ft_bank.specs.TableNames.{table_id, IsTableIn};
ghost use Rattle.ft_bank.specs.Whole.{OnlyLoaded};
ghost use Rattle.ft_search.specs.Held.{KnowsTable};
ghost use Rattle.ft_search.specs.OneEntryWrites.{MayWriteEntries};
ghost use Rattle.ft_new_keys.specs.KeyGrowth.{KnowsKeyed};
ghost use Rattle.ft_merging.specs.Internal.JoiningSteps.{pair_in};

use ft_bank::{Bank, Pass, Table};
use ft_layout::entry_word::{HASH, KEY, KEY_KIND, SERIAL, VALUE_KIND};
use ft_layout::{Pair, Slot, entry_of, key_of};
use ft_model::Key;
use ft_new_keys::read_stored;
use ft_search::{mask_of, table_named};
use ft_section::Object;

/// Loads a word of an entry that is no value's.
pub fn word_of(bank: &Bank, pass: &mut Pass, o: Object, table: Table, place: u64, word: u64) -> u64
    requires pass { IsPassOf bank.now pass.old }
    requires container { o < container_count (shape_of bank.now) }
    requires keyed { IsKeyed (kind_in (shape_of bank.now).starts o) }
    requires table { IsTableIn (shape_of bank.now) table }
    requires knows { KnowsTable o (table_id table) (view pass.old) }
    requires place { place < rows (kind_in (shape_of bank.now).starts o) (class_of (table_id table)) }
    requires word { word < 8 }
    requires no_value { (word ≢ 4) × (word ≢ 5) }
    ensures pass { IsPassOf bank.now pass.new }
    ensures stack { stack_of pass.new ≡ stack_of pass.old }
    ensures only { OnlyLoaded (view pass.old) (view pass.new) }
    ensures found { result ≡ entry_field (slots (class_of (table_id table)))
        (held_unboxed o (view pass.old)).table place word }
{
    let _ = o;
    let at = 8 * place + word + mask_of(table.class) + 1;
    bank.read_table(pass, table, at)
}

/// The key of the entry at a place, if one is there.
pub fn key_at(bank: &Bank, pass: &mut Pass, o: Object, table: Table, place: u64) -> Option<Key>
    requires pass { IsPassOf bank.now pass.old }
    requires container { o < container_count (shape_of bank.now) }
    requires keyed { IsKeyed (kind_in (shape_of bank.now).starts o) }
    requires table { IsTableIn (shape_of bank.now) table }
    requires knows { KnowsTable o (table_id table) (view pass.old) }
    requires place { place < rows (kind_in (shape_of bank.now).starts o) (class_of (table_id table)) }
    ensures pass { IsPassOf bank.now pass.new }
    ensures stack { stack_of pass.new ≡ stack_of pass.old }
    ensures only { OnlyLoaded (view pass.old) (view pass.new) }
    ensures key { (key : Key) →
        IsKey (entry_field (slots (class_of (table_id table))) (held_unboxed o (view pass.old)).table place 2)
        (entry_field (slots (class_of (table_id table))) (held_unboxed o (view pass.old)).table place 3) key ↔
        (result ≡ Some key) }
{
    let kind = word_of(bank, pass, o, table, place, KEY_KIND);
    let payload = word_of(bank, pass, o, table, place, KEY);
    key_of(kind, payload)
}

/// The pair that is there, if one is.
fn pair_there(slot: Option<Slot>) -> Option<Pair>
    ensures { (said : Slot) → slot ≡ Some said → result ≡ pair_in said }
{
    match slot {
        Some(Slot::Live(pair)) => Some(pair),
        Some(Slot::Never | Slot::Gone(..)) | None => None,
    }
}

/// The pair that these words of an entry say, if one is there.
fn pair_said(words: &[u64; 8]) -> Option<Pair>
    ensures { (said : Slot) → IsEntry (slice_index words.now) said → result ≡ pair_in said }
{
    pair_there(entry_of(words))
}

/// The pair of the entry at a place, if one is there.
pub(crate) fn pair_at(
    bank: &Bank,
    pass: &mut Pass,
    o: Object,
    table: Table,
    place: u64,
) -> Option<Pair>
    requires pass { IsPassOf bank.now pass.old }
    requires container { o < container_count (shape_of bank.now) }
    requires keyed { IsKeyed (kind_in (shape_of bank.now).starts o) }
    requires table { IsTableIn (shape_of bank.now) table }
    requires knows { KnowsTable o (table_id table) (view pass.old) }
    requires place { place < rows (kind_in (shape_of bank.now).starts o) (class_of (table_id table)) }
    ensures pass { IsPassOf bank.now pass.new }
    ensures stack { stack_of pass.new ≡ stack_of pass.old }
    ensures only { OnlyLoaded (view pass.old) (view pass.new) }
    ensures pair { (said : Slot) →
        IsEntry (entry_field (slots (class_of (table_id table))) (held_unboxed o (view pass.old)).table place) said →
        result ≡ pair_in said }
{
    let hash = word_of(bank, pass, o, table, place, HASH);
    let kind = word_of(bank, pass, o, table, place, KEY_KIND);
    let payload = word_of(bank, pass, o, table, place, KEY);
    let at = 8 * place + mask_of(table.class) + 1 + VALUE_KIND;
    let (value_kind, value) = read_stored(bank, pass, o, table, at);
    let serial = word_of(bank, pass, o, table, place, SERIAL);
    pair_said(&[0, hash, kind, payload, value_kind, value, serial, 0])
}

/// The table that the root of a dict or a set names, or none.
pub fn own_table(bank: &Bank, pass: &mut Pass, o: Object) -> Option<Table>
    requires pass { IsPassOf bank.now pass.old }
    requires may { MayWriteEntries (shape_of bank.now) o (view pass.old) }
    ensures pass { IsPassOf bank.now pass.new }
    ensures stack { stack_of pass.new ≡ stack_of pass.old }
    ensures only { OnlyLoaded (view pass.old) (view pass.new) }
    ensures knows { KnowsKeyed (shape_of bank.now) o result (view pass.new) }
{
    let root = bank.read_block(pass, o, 0);
    table_named(root)
}
