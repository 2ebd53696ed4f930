//! Calls that take one item out of a list whose lock the pass has: `l.pop(i)` and `l.remove(v)`.
ghost use Rattle.std.specs.Prelude.{◌≡◌, ℕ, ◌<◌, true, false, Some, None, length, negsuc, slice_index_or};
ghost use Rattle.std.specs.Option.{unwrap_or};
ghost use Rattle.ft_model.specs.declared.call.Call.TheVariants as call;
ghost use Rattle.ft_model.specs.declared.call.ListCall.TheVariants as list;
ghost use Rattle.ft_model.specs.declared.data.Value.TheVariants as value;
ghost use Rattle.ft_model.specs.declared.reply.Reply.TheVariants as reply;
ghost use Rattle.ft_model.specs.declared.reply.Raise.TheVariants as raise;
ghost use Rattle.ft_model.specs.Lists.{index_in, index_of};
ghost use Rattle.ft_bank.specs.Passes.{shape_of, view, IsPassOf};
ghost use Rattle.ft_bank.specs.PassSections.{stack_of};
ghost use Rattle.ft_bank.specs.Whole.{OnlyLoaded};
ghost use Rattle.ft_list.specs.ListItemWrites.{known_items};
ghost use Rattle.ft_list.specs.ListWrites.{MayWriteList};
ghost use Rattle.ft_search.specs.MadeCalls.{MadeAs};

use crate::locked::{count_of, place_in, raise, table_of, value_fits};
use crate::reads::read_item;
use crate::scans::first_equal;
use crate::writes::remove_item;
use ft_bank::{Bank, Pass};
use ft_model::{Call, ListCall, Raise, Reply, Value};
use ft_section::{Object, Stamp};

/// The item at a place of a list.
fn item_at(bank: &Bank, pass: &mut Pass, l: Object, place: u64) -> Value
    requires pass { IsPassOf bank.now pass.old }
    requires may { MayWriteList (shape_of bank.now) l (view pass.old) }
    requires place { place < length (known_items l (view pass.old)) }
    ensures pass { IsPassOf bank.now pass.new }
    ensures stack { stack_of pass.new ≡ stack_of pass.old }
    ensures only { OnlyLoaded (view pass.old) (view pass.new) }
    ensures item { result ≡ slice_index_or (known_items l (view pass.old)) place value.Nothing }
{
    match read_item(bank, pass, l, place) {
        Some(item) => item,
        None => unreachable!(),
    }
}

/// `l.pop()`, which takes the last item out, or `l.pop(i)`, under the lock.
pub fn pop_locked(bank: &Bank, pass: &mut Pass, l: Object, index: Option<i64>) -> (Reply, Stamp)
    requires pass { IsPassOf bank.now pass.old }
    requires may { MayWriteList (shape_of bank.now) l (view pass.old) }
    ensures pass { IsPassOf bank.now pass.new }
    ensures stack { stack_of pass.new ≡ stack_of pass.old }
    ensures made { MadeAs (call.List l (list.Pop index)) result.0 result.1 (view pass.old) (view pass.new) }
    ensures done { (place : ℕ) →
        index_in (length (known_items l (view pass.old))) (unwrap_or index (negsuc 0)) ≡ Some place →
        (result.0 ≡ reply.Value (slice_index_or (known_items l (view pass.old)) place value.Nothing))
        × (result.1.wrote ≡ true) }
    ensures raises { index_in (length (known_items l (view pass.old))) (unwrap_or index (negsuc 0)) ≡ None →
        (result.0 ≡ reply.Raised raise.NoIndex) × (result.1.wrote ≡ false) }
{
    let called = Call::List {
        container: l,
        call: ListCall::Pop { index },
    };
    let count = count_of(bank, pass, l);
    match place_in(count, index.unwrap_or(-1)) {
        Some(place) => {
            let table = table_of(bank, pass, l);
            let item = item_at(bank, pass, l, place);
            let said = Reply::Value(item);
            let number = remove_item(bank, pass, l, table, place, count, &called, &said);
            (
                said,
                Stamp {
                    number,
                    wrote: true,
                },
            )
        }
        None => {
            let said = Reply::Raised(Raise::NoIndex);
            let stamp = raise(bank, pass, l, &called, &said);
            (said, stamp)
        }
    }
}

/// `l.remove(v)`, which takes the first equal item out, under the lock.
pub fn remove_locked(bank: &Bank, pass: &mut Pass, l: Object, value: Value) -> (Reply, Stamp)
    requires pass { IsPassOf bank.now pass.old }
    requires may { MayWriteList (shape_of bank.now) l (view pass.old) }
    ensures pass { IsPassOf bank.now pass.new }
    ensures stack { stack_of pass.new ≡ stack_of pass.old }
    ensures made { MadeAs (call.List l (list.Remove value)) result.0 result.1 (view pass.old) (view pass.new) }
    ensures done { (place : ℕ) → index_of (known_items l (view pass.old)) value ≡ Some place →
        (result.0 ≡ reply.Done) × (result.1.wrote ≡ true) }
    ensures raises { index_of (known_items l (view pass.old)) value ≡ None →
        (result.0 ≡ reply.Raised raise.NoValue) × (result.1.wrote ≡ false) }
{
    let called = Call::List {
        container: l,
        call: ListCall::Remove { value },
    };
    match first_equal(bank, pass, l, value) {
        Some(place) => {
            let table = table_of(bank, pass, l);
            let count = count_of(bank, pass, l);
            value_fits(value);
            let said = Reply::Done;
            let number = remove_item(bank, pass, l, table, place, count, &called, &said);
            (
                said,
                Stamp {
                    number,
                    wrote: true,
                },
            )
        }
        None => {
            let said = Reply::Raised(Raise::NoValue);
            let stamp = raise(bank, pass, l, &called, &said);
            (said, stamp)
        }
    }
}
