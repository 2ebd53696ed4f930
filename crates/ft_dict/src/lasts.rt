//! The last pair of a dict, and `popitem`, which takes it out, under the lock.
ghost use Rattle.std.specs.Prelude.{◌≡◌, ◌<◌, option_map};
ghost use Rattle.ft_model.specs.declared.call.Call.TheVariants as call;
ghost use Rattle.ft_model.specs.declared.call.DictCall.TheVariants as dict;
ghost use Rattle.ft_model.specs.declared.data.Key.{Key};
ghost use Rattle.ft_model.specs.declared.data.Value.{Value};
ghost use Rattle.ft_model.specs.declared.script.Kind.TheVariants as kind;
ghost use Rattle.ft_trace.specs.Addresses.{container_count};
ghost use Rattle.ft_trace.specs.ContainerStates.{kind_in};
ghost use Rattle.ft_bank.specs.Passes.{shape_of, view, IsPassOf};
ghost use Rattle.ft_bank.specs.PassSections.{stack_of};
ghost use Rattle.ft_bank.specs.TableNames.{IsTableIn};
ghost use Rattle.ft_search.specs.MadeCalls.{MadeAs};
ghost use Rattle.ft_search.specs.OneEntryWrites.{MayWriteEntries};
ghost use Rattle.ft_reads.specs.Reads.{Reads};
ghost use Rattle.ft_dict.specs.Lasts.{IsLastIn, IsLastOf};

use ft_bank::{Bank, Pass, Table};
use ft_layout::{block_word, used_entries_follow_a_dict};
use ft_model::{Call, DictCall, Key, Raise, Reply, Value};
use ft_search::{answer_made, delete_entry, table_named, written};
use ft_section::{Object, Stamp};
use ft_whole_tables::{last_place, value_at};

/// Which word of a block says how many entries were used, as a bank counts them.
const FILL: u64 = block_word::FILL - block_word::ROOT;

/// The last pair of a dict, and where it is.
#[derive(Clone, Copy)]
pub(crate) struct Last {
    /// The dict's table.
    pub(crate) table: Table,
    /// The place of the pair's entry.
    pub(crate) place: u64,
    /// The key.
    pub(crate) key: Key,
    /// The value.
    pub(crate) value: Value,
}

/// The pair that was found at a place of a table.
fn last_with(table: Table, place: u64, found: Option<(Key, Value)>) -> Option<Last>
    ensures { result ≡ option_map (λ (pair : Key × Value).
        record { table = table; place = place; key = pair.0; value = pair.1 }) found }
{
    match found {
        Some((key, value)) => Some(Last {
            table,
            place,
            key,
            value,
        }),
        None => None,
    }
}

/// The last pair among as many entries of a table.
fn last_in(bank: &Bank, pass: &mut Pass, d: Object, table: Table, fill: u64) -> Option<Last>
    requires pass { IsPassOf bank.now pass.old }
    requires dict { kind_in (shape_of bank.now).starts d ≡ kind.Dict }
    requires table { IsTableIn (shape_of bank.now) table }
    ensures pass { IsPassOf bank.now pass.new }
    ensures stack { stack_of pass.new ≡ stack_of pass.old }
    ensures reads { Reads (shape_of bank.now) d (IsLastIn (shape_of bank.now) table fill result) pass.old pass.new }
{
    used_entries_follow_a_dict();
    match last_place(bank, pass, d, table, fill) {
        Some(place) => {
            let found = value_at(bank, pass, d, table, place);
            last_with(table, place, found)
        }
        None => None,
    }
}

/// The last pair of a dict.
fn last_pair(bank: &Bank, pass: &mut Pass, d: Object) -> Option<Last>
    requires pass { IsPassOf bank.now pass.old }
    requires container { d < container_count (shape_of bank.now) }
    requires dict { kind_in (shape_of bank.now).starts d ≡ kind.Dict }
    ensures pass { IsPassOf bank.now pass.new }
    ensures stack { stack_of pass.new ≡ stack_of pass.old }
    ensures reads { Reads (shape_of bank.now) d (IsLastOf (shape_of bank.now) result) pass.old pass.new }
{
    used_entries_follow_a_dict();
    let root = bank.read_block(pass, d, 0);
    let fill = bank.read_block(pass, d, FILL);
    match table_named(root) {
        Some(table) => last_in(bank, pass, d, table, fill),
        None => None,
    }
}

/// `d.popitem()`: the last pair, which is taken out; a KeyError if the dict is empty (Python manual, Mapping Types);
/// under the lock.
pub fn popitem_locked(bank: &Bank, pass: &mut Pass, d: Object) -> (Reply, Stamp)
    requires pass { IsPassOf bank.now pass.old }
    requires may { MayWriteEntries (shape_of bank.now) d (view pass.old) }
    requires dict { kind_in (shape_of bank.now).starts d ≡ kind.Dict }
    ensures pass { IsPassOf bank.now pass.new }
    ensures stack { stack_of pass.new ≡ stack_of pass.old }
    ensures made { MadeAs (call.Dict d dict.PopItem) result.0 result.1 (view pass.old) (view pass.new) }
{
    let called = Call::Dict {
        container: d,
        call: DictCall::PopItem,
    };
    match last_pair(bank, pass, d) {
        Some(last) => {
            let said = Reply::Pair(last.key, last.value);
            let number = delete_entry(
                bank, pass, d, last.table, last.place, last.key, &called, &said,
            );
            (said, written(number))
        }
        None => answer_made(bank, pass, &called, Reply::Raised(Raise::NoKey)),
    }
}
