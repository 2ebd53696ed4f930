//! The first element of a set, and `pop`, which takes it out, under the lock.
ghost use Rattle.std.specs.Prelude.{◌≡◌, ◌<◌, option_map};
ghost use Rattle.ft_model.specs.declared.call.Call.TheVariants as call;
ghost use Rattle.ft_model.specs.declared.call.SetCall.TheVariants as set;
ghost use Rattle.ft_model.specs.declared.data.Key.{Key};
ghost use Rattle.ft_model.specs.declared.script.Kind.TheVariants as kind;
ghost use Rattle.ft_trace.specs.Addresses.{container_count};
ghost use Rattle.ft_trace.specs.ContainerStates.{kind_in};
ghost use Rattle.ft_bank.specs.Passes.{shape_of, view, IsPassOf};
ghost use Rattle.ft_bank.specs.PassSections.{stack_of};
ghost use Rattle.ft_bank.specs.TableNames.{IsTableIn};
ghost use Rattle.ft_search.specs.MadeCalls.{MadeAs};
ghost use Rattle.ft_search.specs.OneEntryWrites.{MayWriteEntries};
ghost use Rattle.ft_reads.specs.Reads.{Reads};
ghost use Rattle.ft_set.specs.Firsts.{IsFirstIn, IsFirstOf};

use ft_bank::{Bank, Pass, Table};
use ft_layout::{block_word, used_entries_follow_a_set};
use ft_model::{Call, Key, Raise, Reply, SetCall};
use ft_search::{answer_made, delete_entry, table_named, written};
use ft_section::{Object, Stamp};
use ft_whole_tables::{first_place, key_at};

/// Which word of a block says how many entries were used, as a bank counts them.
const FILL: u64 = block_word::FILL - block_word::ROOT;

/// The first element of a set, and where it is.
#[derive(Clone, Copy)]
pub(crate) struct First {
    /// The set's table.
    pub(crate) table: Table,
    /// The place of the element's entry.
    pub(crate) place: u64,
    /// The element.
    pub(crate) key: Key,
}

/// The element that was found at a place of a table.
fn first_with(table: Table, place: u64, found: Option<Key>) -> Option<First>
    ensures { result ≡ option_map (λ (key : Key). record { table = table; place = place; key = key }) found }
{
    match found {
        Some(key) => Some(First { table, place, key }),
        None => None,
    }
}

/// The first element among as many entries of a table.
fn first_in(bank: &Bank, pass: &mut Pass, s: Object, table: Table, fill: u64) -> Option<First>
    requires pass { IsPassOf bank.now pass.old }
    requires set { kind_in (shape_of bank.now).starts s ≡ kind.Set }
    requires table { IsTableIn (shape_of bank.now) table }
    ensures pass { IsPassOf bank.now pass.new }
    ensures stack { stack_of pass.new ≡ stack_of pass.old }
    ensures reads { Reads (shape_of bank.now) s (IsFirstIn (shape_of bank.now) table fill result) pass.old pass.new }
{
    used_entries_follow_a_set();
    match first_place(bank, pass, s, table, fill) {
        Some(place) => {
            let found = key_at(bank, pass, s, table, place);
            first_with(table, place, found)
        }
        None => None,
    }
}

/// The first element of a set.
fn first_element(bank: &Bank, pass: &mut Pass, s: Object) -> Option<First>
    requires pass { IsPassOf bank.now pass.old }
    requires container { s < container_count (shape_of bank.now) }
    requires set { kind_in (shape_of bank.now).starts s ≡ kind.Set }
    ensures pass { IsPassOf bank.now pass.new }
    ensures stack { stack_of pass.new ≡ stack_of pass.old }
    ensures reads { Reads (shape_of bank.now) s (IsFirstOf (shape_of bank.now) result) pass.old pass.new }
{
    used_entries_follow_a_set();
    let root = bank.read_block(pass, s, 0);
    let fill = bank.read_block(pass, s, FILL);
    match table_named(root) {
        Some(table) => first_in(bank, pass, s, table, fill),
        None => None,
    }
}

/// `s.pop()`: the first element, which is taken out; a KeyError if the set is empty (Python manual, Set Types); under
/// the lock.
pub fn pop_locked(bank: &Bank, pass: &mut Pass, s: Object) -> (Reply, Stamp)
    requires pass { IsPassOf bank.now pass.old }
    requires may { MayWriteEntries (shape_of bank.now) s (view pass.old) }
    requires set { kind_in (shape_of bank.now).starts s ≡ kind.Set }
    ensures pass { IsPassOf bank.now pass.new }
    ensures stack { stack_of pass.new ≡ stack_of pass.old }
    ensures made { MadeAs (call.Set s set.Pop) result.0 result.1 (view pass.old) (view pass.new) }
{
    let called = Call::Set {
        container: s,
        call: SetCall::Pop,
    };
    match first_element(bank, pass, s) {
        Some(first) => {
            let said = Reply::Value(first.key.into_value());
            let number = delete_entry(
                bank,
                pass,
                s,
                first.table,
                first.place,
                first.key,
                &called,
                &said,
            );
            (said, written(number))
        }
        None => answer_made(bank, pass, &called, Reply::Raised(Raise::NoKey)),
    }
}
