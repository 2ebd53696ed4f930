//! Calls on a list whose lock the pass has, which need no new table: what each replies is that of the
//! plain list, and it is one whole write, or none where it raises an exception.
ghost use Rattle.std.specs.Prelude.{◌≡◌, ◌≢◌, ◌∷◌, ℕ, ◌<◌, true, false, Some, None, length, IfSome};
ghost use Rattle.ft_model.specs.declared.call.Call.TheVariants as call;
ghost use Rattle.ft_model.specs.declared.call.ListCall.TheVariants as list;
ghost use Rattle.ft_model.specs.declared.call.ListCall.{ListCall};
ghost use Rattle.ft_layout.specs.declared.slot.Stored.TheVariants.{Plain};
ghost use Rattle.ft_layout.specs.Words.{FitsStored};
ghost use Rattle.ft_model.specs.declared.reply.Reply.TheVariants as reply;
ghost use Rattle.ft_model.specs.declared.reply.Raise.TheVariants as raise;
ghost use Rattle.ft_model.specs.Lists.{index_in};
ghost use Rattle.ft_trace.specs.declared.Act.TheVariants.{ReadBlock};
ghost use Rattle.ft_trace.specs.Acts.{has_lock};
ghost use Rattle.ft_trace.specs.Addresses.{container_count};
ghost use Rattle.ft_trace.specs.Holds.{held_unboxed};
ghost use Rattle.ft_trace.specs.Pictures.{root_in};
ghost use Rattle.ft_bank.specs.declared.table.Table.{Table};
ghost use Rattle.ft_bank.specs.Answered.{Answered};
ghost use Rattle.ft_bank.specs.Passes.{shape_of, view, IsPassOf};
ghost use Rattle.ft_bank.specs.PassSections.{stack_of};
ghost use Rattle.ft_bank.specs.TableNames.{root_for, IsTableIn};
ghost use Rattle.ft_bank.specs.Whole.{OnlyLoaded};
ghost use Rattle.ft_list.specs.ListItemWrites.{known_items};
ghost use Rattle.ft_list.specs.ListWrites.{MayWriteList, Raises};
ghost use Rattle.ft_search.specs.MadeCalls.{MadeAs};
ghost use Rattle.ft_search.specs.OneEntryWrites.{HasTable};

use crate::writes::{remove_item, set_item};
use ft_bank::{Bank, Pass, Table};
use ft_layout::{Stored, block_word};
use ft_model::{Call, ListCall, Raise, Reply, Value};
use ft_search::{table_at, table_named};
use ft_section::{Object, Stamp};

/// Which word of a block the length of a list is, as a bank counts them.
pub(crate) const LENGTH: u64 = block_word::USED - block_word::ROOT;

/// The place that an index names among that many items: a negative one counts from the end, and one that
/// is then outside names none (Python manual, Sequence Types).
pub(crate) fn place_in(count: u64, index: i64) -> Option<u64>
    ensures answer { result ≡ index_in count index }
    ensures within { IfSome result (λ place. place < count) }
{
    match u64::try_from(index) {
        Ok(place) if place < count => Some(place),
        Ok(_) => None,
        Err(_) => count.checked_sub(index.unsigned_abs()),
    }
}

/// How many items a list has.
pub(crate) fn count_of(bank: &Bank, pass: &mut Pass, l: Object) -> u64
    requires pass { IsPassOf bank.now pass.old }
    requires may { MayWriteList (shape_of bank.now) l (view pass.old) }
    ensures pass { IsPassOf bank.now pass.new }
    ensures stack { stack_of pass.new ≡ stack_of pass.old }
    ensures only { OnlyLoaded (view pass.old) (view pass.new) }
    ensures may { MayWriteList (shape_of bank.now) l (view pass.new) }
    ensures items { known_items l (view pass.new) ≡ known_items l (view pass.old) }
    ensures count { result ≡ length (known_items l (view pass.old)) }
    ensures log { (n : ℕ) × ((view pass.new).log ≡ ReadBlock l 1 n ∷ (view pass.old).log) }
{
    bank.read_block(pass, l, LENGTH)
}

/// The table that the root of a list names, or none.
pub(crate) fn table_at_root(bank: &Bank, pass: &mut Pass, l: Object) -> Option<Table>
    requires pass { IsPassOf bank.now pass.old }
    requires container { l < container_count (shape_of bank.now) }
    requires locked { has_lock l (view pass.old).log ≡ true }
    ensures pass { IsPassOf bank.now pass.new }
    ensures stack { stack_of pass.new ≡ stack_of pass.old }
    ensures only { OnlyLoaded (view pass.old) (view pass.new) }
    ensures table { (t : Table) → result ≡ Some t → IsTableIn (shape_of bank.now) t }
    ensures root { root_in (held_unboxed l (view pass.old)) ≡ root_for result }
{
    let root = bank.read_block(pass, l, 0);
    table_at(bank, root)
}

/// The table of a list that isn't empty.
pub(crate) fn table_of(bank: &Bank, pass: &mut Pass, l: Object) -> Table
    requires pass { IsPassOf bank.now pass.old }
    requires may { MayWriteList (shape_of bank.now) l (view pass.old) }
    requires some { length (known_items l (view pass.old)) ≢ 0 }
    ensures pass { IsPassOf bank.now pass.new }
    ensures stack { stack_of pass.new ≡ stack_of pass.old }
    ensures only { OnlyLoaded (view pass.old) (view pass.new) }
    ensures may { MayWriteList (shape_of bank.now) l (view pass.new) }
    ensures items { known_items l (view pass.new) ≡ known_items l (view pass.old) }
    ensures table { HasTable (shape_of bank.now) l result (view pass.new) }
{
    let root = bank.read_block(pass, l, 0);
    match table_named(root) {
        Some(table) => table,
        None => unreachable!(),
    }
}

/// Raises an exception in the place of a call: its entry, at a load of the counter.
pub(crate) fn raise(bank: &Bank, pass: &mut Pass, l: Object, called: &Call, said: &Reply) -> Stamp
    requires pass { IsPassOf bank.now pass.old }
    requires may { MayWriteList (shape_of bank.now) l (view pass.old) }
    requires call { (lc : ListCall) × (called.now ≡ call.List l lc) × Raises l lc said.now (known_items l (view pass.old)) }
    ensures pass { IsPassOf bank.now pass.new }
    ensures stack { stack_of pass.new ≡ stack_of pass.old }
    ensures answered { Answered called.now said.now result.number (view pass.old) (view pass.new) }
    ensures wrote { result.wrote ≡ false }
{
    let number = bank.stamp(pass);
    bank.answer(pass, called, said, number);
    Stamp {
        number,
        wrote: false,
    }
}

/// `l[i] = v`, under the lock.
pub fn set_locked(
    bank: &Bank,
    pass: &mut Pass,
    l: Object,
    index: i64,
    value: Value,
) -> (Reply, Stamp)
    requires pass { IsPassOf bank.now pass.old }
    requires may { MayWriteList (shape_of bank.now) l (view pass.old) }
    ensures pass { IsPassOf bank.now pass.new }
    ensures stack { stack_of pass.new ≡ stack_of pass.old }
    ensures made { MadeAs (call.List l (list.Set index value)) result.0 result.1 (view pass.old) (view pass.new) }
    ensures done { (place : ℕ) → index_in (length (known_items l (view pass.old))) index ≡ Some place →
        (result.0 ≡ reply.Done) × (result.1.wrote ≡ true) }
    ensures raises { index_in (length (known_items l (view pass.old))) index ≡ None →
        (result.0 ≡ reply.Raised raise.NoIndex) × (result.1.wrote ≡ false) }
{
    let called = Call::List {
        container: l,
        call: ListCall::Set { index, value },
    };
    let count = count_of(bank, pass, l);
    match place_in(count, index) {
        Some(place) => {
            let table = table_of(bank, pass, l);
            value_fits(value);
            let said = Reply::Done;
            let number = set_item(
                bank,
                pass,
                l,
                table,
                place,
                value,
                Stored::Plain(value),
                &called,
                &said,
            );
            (
                said,
                Stamp {
                    number,
                    wrote: true,
                },
            )
        }
        None => {
            let said = Reply::Raised(Raise::NoIndex);
            let stamp = raise(bank, pass, l, &called, &said);
            (said, stamp)
        }
    }
}

/// `del l[i]`, under the lock.
pub fn del_locked(bank: &Bank, pass: &mut Pass, l: Object, index: i64) -> (Reply, Stamp)
    requires pass { IsPassOf bank.now pass.old }
    requires may { MayWriteList (shape_of bank.now) l (view pass.old) }
    ensures pass { IsPassOf bank.now pass.new }
    ensures stack { stack_of pass.new ≡ stack_of pass.old }
    ensures made { MadeAs (call.List l (list.Del index)) result.0 result.1 (view pass.old) (view pass.new) }
    ensures done { (place : ℕ) → index_in (length (known_items l (view pass.old))) index ≡ Some place →
        (result.0 ≡ reply.Done) × (result.1.wrote ≡ true) }
    ensures raises { index_in (length (known_items l (view pass.old))) index ≡ None →
        (result.0 ≡ reply.Raised raise.NoIndex) × (result.1.wrote ≡ false) }
{
    let called = Call::List {
        container: l,
        call: ListCall::Del { index },
    };
    let count = count_of(bank, pass, l);
    match place_in(count, index) {
        Some(place) => {
            let table = table_of(bank, pass, l);
            let said = Reply::Done;
            let number = remove_item(bank, pass, l, table, place, count, &called, &said);
            (
                said,
                Stamp {
                    number,
                    wrote: true,
                },
            )
        }
        None => {
            let said = Reply::Raised(Raise::NoIndex);
            let stamp = raise(bank, pass, l, &called, &said);
            (said, stamp)
        }
    }
}

/// A value's integer has 64 bits, and its string's number 32, so that words can represent it.
pub(crate) fn value_fits(value: Value)
    ensures { FitsStored (Plain value) }
{
    match value {
        Value::Nothing => {}
        Value::Int(integer) => {
            let _word = integer;
        }
        Value::Text(sym) => {
            let _number = sym.0;
        }
    }
}
