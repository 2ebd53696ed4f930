//! Calls that add items to a list: under the locks, and their tries. A list whose table has no room for them, or
//! that has none, gets another one.
ghost use Rattle.std.specs.Prelude.{◌≡◌, ◌≢◌, ℕ, ◌+◌, ◌<◌, ◌≤◌, nat_lt, false, length, Option, Some, None, IfSome};
ghost use Rattle.ft_model.specs.declared.call.Call.TheVariants as call;
ghost use Rattle.ft_model.specs.declared.call.ListCall.{ListCall};
ghost use Rattle.ft_model.specs.declared.call.ListCall.TheVariants as list;
ghost use Rattle.ft_model.specs.declared.reply.Reply.TheVariants as reply;
ghost use Rattle.ft_model.specs.Classes.{IsClass, most_items};
ghost use Rattle.ft_model.specs.Lists.{clamped_in};
ghost use Rattle.ft_model.specs.TableUses.{list_takes};
ghost use Rattle.ft_trace.specs.Acts.{flight, used};
ghost use Rattle.ft_bank.specs.declared.table.Table.{Table};
ghost use Rattle.ft_bank.specs.Passes.{shape_of, view, IsPassOf};
ghost use Rattle.ft_bank.specs.PassSections.{stack_of};
ghost use Rattle.ft_bank.specs.Whole.{OnlyLoaded};
ghost use Rattle.ft_section.specs.declared.answers.Objects.TheVariants.{One};
ghost use Rattle.ft_table_calls.specs.Adding.{KeepsCursors, WasMade};
ghost use Rattle.ft_list.specs.ListItemWrites.{known_items};
ghost use Rattle.ft_list.specs.ListWrites.{MayWriteList, Adds};
ghost use Rattle.ft_list.specs.ListGrowth.{AddsItems};
ghost use Rattle.ft_list.specs.Internal.Carrying.{HoldsSpare};
ghost use Rattle.ft_list.specs.Internal.NewListTables.{KnowsList, MayAdd, list_use_of};
ghost use Rattle.ft_list.specs.HeldValues.{IsAddedStoring, SharesItems};
ghost use Rattle.ft_list.specs.Internal.Additions.{count_in, stored_in, with_added, HasNamed, IsAddition, StoresAddition};

use crate::addition::{Addition, added_count};
use crate::bare::write_nothing;
use crate::growth::add_in;
use crate::locked::{count_of, table_at_root, value_fits};
use crate::writes::add_items;
use ft_bank::{Bank, Pass, Table, Took};
use ft_layout::Stored;
use ft_model::{Call, KeptTable, ListCall, MOST_ITEMS, Reply, Value, taken_by_list};
use ft_qsbr::take;
use ft_section::{Object, Stamp};
use ft_table_calls::{Added, answer_no_table, answer_over, retire_old};

/// The class of the table that a list takes for that many items, which has this one or none.
pub(crate) fn class_wanted(old: Option<Table>, count: u64) -> Option<u32>
    requires table { (t : Table) → old ≡ Some t → IsClass t.class }
    ensures class { result ≡ list_takes (list_use_of old) count }
    ensures range { IfSome result (λ class. IsClass class) }
{
    let class = match old {
        Some(table) => Some(table.class),
        None => None,
    };
    taken_by_list(KeptTable { class, fill: 0 }, count)
}

/// The table of a list, or none.
pub(crate) fn root_table(bank: &Bank, pass: &mut Pass, l: Object) -> Option<Table>
    requires pass { IsPassOf bank.now pass.old }
    requires may { MayWriteList (shape_of bank.now) l (view pass.old) }
    ensures pass { IsPassOf bank.now pass.new }
    ensures stack { stack_of pass.new ≡ stack_of pass.old }
    ensures only { OnlyLoaded (view pass.old) (view pass.new) }
    ensures list { KnowsList (shape_of bank.now) l result (view pass.new) }
{
    table_at_root(bank, pass, l)
}

/// Adds to a list of that many items whose table has room, or that has none and needs none, as the write of this call.
#[inline(always)]
fn add_in_room(
    bank: &Bank,
    pass: &mut Pass,
    l: Object,
    old: Option<Table>,
    addition: Addition,
    count: u64,
    called: &Call,
) -> Added
    requires pass { IsPassOf bank.now pass.old }
    requires may { MayAdd (shape_of bank.now) l old (view pass.old) }
    requires spare { HoldsSpare (shape_of bank.now) (view pass.old) }
    requires addition { IsAddition (shape_of bank.now) count addition (view pass.old) }
    requires stores { StoresAddition addition called.now (view pass.old) }
    requires count { count ≡ length (known_items l (view pass.old)) }
    requires few { count + count_in addition ≤ most_items }
    requires call { (lc : ListCall) × (called.now ≡ call.List l lc) × Adds l lc (known_items l (view pass.old))
        (with_added addition (view pass.old) (known_items l (view pass.old))) (view pass.old) }
    requires room { list_takes (list_use_of old) (count + count_in addition) ≡ None }
    ensures pass { IsPassOf bank.now pass.new }
    ensures stack { stack_of pass.new ≡ stack_of pass.old }
    ensures added { IsAddedStoring (shape_of bank.now) None false (stored_in addition) called.now (view pass.old)
        (view pass.new) result }
    ensures named { WasMade result → HasNamed l addition (view pass.old) (view pass.new) }
{
    match old {
        Some(table) => {
            let number = add_items(bank, pass, l, table, addition, count, called);
            Added::Made(Stamp {
                number,
                wrote: true,
            })
        }
        None => {
            let number = write_nothing(bank, pass, l, called, &Reply::Done);
            Added::Made(Stamp {
                number,
                wrote: true,
            })
        }
    }
}

/// Takes a table of a class for a list of that many items and adds to it there, as the write of this call; the
/// table that the list had is retired.
#[inline(never)]
fn add_in_taken(
    bank: &Bank,
    pass: &mut Pass,
    l: Object,
    old: Option<Table>,
    class: u32,
    addition: Addition,
    count: u64,
    called: &Call,
) -> Added
    requires pass { IsPassOf bank.now pass.old }
    requires may { MayAdd (shape_of bank.now) l old (view pass.old) }
    requires spare { HoldsSpare (shape_of bank.now) (view pass.old) }
    requires addition { IsAddition (shape_of bank.now) count addition (view pass.old) }
    requires stores { StoresAddition addition called.now (view pass.old) }
    requires count { count ≡ length (known_items l (view pass.old)) }
    requires few { count + count_in addition ≤ most_items }
    requires call { (lc : ListCall) × (called.now ≡ call.List l lc) × Adds l lc (known_items l (view pass.old))
        (with_added addition (view pass.old) (known_items l (view pass.old))) (view pass.old) }
    requires class { IsClass class }
    requires takes { list_takes (list_use_of old) (count + count_in addition) ≡ Some class }
    ensures pass { IsPassOf bank.now pass.new }
    ensures stack { stack_of pass.new ≡ stack_of pass.old }
    ensures added { IsAddedStoring (shape_of bank.now) (Some class) false (stored_in addition) called.now (view pass.old)
        (view pass.new) result }
    ensures named { WasMade result → HasNamed l addition (view pass.old) (view pass.new) }
{
    match take(bank, pass, class) {
        Took::Taken(table) => {
            let number = add_in(bank, pass, l, old, table, addition, count, called);
            retire_old(bank, pass, old);
            Added::Made(Stamp {
                number,
                wrote: true,
            })
        }
        Took::AllTaken => Added::NoTable(class, answer_no_table(bank, pass, called, class)),
        Took::Moved(first, second) => Added::Moved(first, second),
    }
}

/// Adds to a list of that many items, as the write of this call.
#[inline(always)]
pub(crate) fn add_to(
    bank: &Bank,
    pass: &mut Pass,
    l: Object,
    old: Option<Table>,
    addition: Addition,
    count: u64,
    called: &Call,
) -> Added
    requires pass { IsPassOf bank.now pass.old }
    requires may { MayAdd (shape_of bank.now) l old (view pass.old) }
    requires spare { HoldsSpare (shape_of bank.now) (view pass.old) }
    requires addition { IsAddition (shape_of bank.now) count addition (view pass.old) }
    requires stores { StoresAddition addition called.now (view pass.old) }
    requires count { count ≡ length (known_items l (view pass.old)) }
    requires call { (lc : ListCall) × (called.now ≡ call.List l lc) × Adds l lc (known_items l (view pass.old))
        (with_added addition (view pass.old) (known_items l (view pass.old))) (view pass.old) }
    ensures pass { IsPassOf bank.now pass.new }
    ensures stack { stack_of pass.new ≡ stack_of pass.old }
    ensures added { IsAddedStoring (shape_of bank.now) (list_takes (list_use_of old) (count + count_in addition))
        (nat_lt most_items (count + count_in addition)) (stored_in addition) called.now (view pass.old) (view pass.new) result }
    ensures named { WasMade result → HasNamed l addition (view pass.old) (view pass.new) }
{
    let total = count + added_count(addition);
    if total > MOST_ITEMS as u64 {
        return Added::Over(answer_over(bank, pass, called));
    }
    match class_wanted(old, total) {
        Some(class) => { add_in_taken(bank, pass, l, old, class, addition, count, called).anew() }
        None => add_in_room(bank, pass, l, old, addition, count, called),
    }
}

/// `l.append(v)`, by a pass that has the list's lock (Python manual, Mutable Sequence Types).
///
/// # Errors
///
/// `NoTable` where the list needs another table, of the class for its new length, and the count of the class was
/// 0; `Over` where it has 65,536 items; `Moved` where two steps found a word of the class's free tables changed.
#[inline(always)]
pub fn append_by(bank: &Bank, pass: &mut Pass, l: Object, value: Value) -> Added
    requires pass { IsPassOf bank.now pass.old }
    requires may { MayWriteList (shape_of bank.now) l (view pass.old) }
    requires used { used (view pass.old).log ≡ false }
    requires idle { flight (view pass.old).log ≡ 0 }
    ensures pass { IsPassOf bank.now pass.new }
    ensures stack { stack_of pass.new ≡ stack_of pass.old }
    ensures added { AddsItems (shape_of bank.now) l (call.List l (list.Append value)) 1 (view pass.old) (view pass.new)
        result }
    ensures cursors { KeepsCursors (view pass.old) (view pass.new) }
{
    value_fits(value);
    let called = Call::List {
        container: l,
        call: ListCall::Append { value },
    };
    let count = count_of(bank, pass, l);
    let old = root_table(bank, pass, l);
    let addition = Addition::One {
        place: count,
        value,
        stored: Stored::Plain(value),
    };
    add_to(bank, pass, l, old, addition, count, &called)
}

/// The place before which an index inserts among that many items: a negative one counts from the end, and one
/// that is then outside is clamped (Python manual, Sequence Types, note 4).
pub(crate) fn clamped(count: u64, index: i64) -> u64
    ensures place { result ≡ clamped_in count index }
    ensures within { result ≤ count }
{
    match u64::try_from(index) {
        Ok(place) => place.min(count),
        Err(_) => count.saturating_sub(index.unsigned_abs()),
    }
}

/// `l.insert(i, v)`, by a pass that has the list's lock (Python manual, Mutable Sequence Types).
///
/// # Errors
///
/// As those of `append_by`.
pub fn insert_by(bank: &Bank, pass: &mut Pass, l: Object, index: i64, value: Value) -> Added
    requires pass { IsPassOf bank.now pass.old }
    requires may { MayWriteList (shape_of bank.now) l (view pass.old) }
    requires used { used (view pass.old).log ≡ false }
    requires idle { flight (view pass.old).log ≡ 0 }
    ensures pass { IsPassOf bank.now pass.new }
    ensures stack { stack_of pass.new ≡ stack_of pass.old }
    ensures added { AddsItems (shape_of bank.now) l (call.List l (list.Insert index value)) 1 (view pass.old)
        (view pass.new) result }
    ensures cursors { KeepsCursors (view pass.old) (view pass.new) }
{
    value_fits(value);
    let called = Call::List {
        container: l,
        call: ListCall::Insert { index, value },
    };
    let count = count_of(bank, pass, l);
    let old = root_table(bank, pass, l);
    let place = clamped(count, index);
    let addition = Addition::One {
        place,
        value,
        stored: Stored::Plain(value),
    };
    add_to(bank, pass, l, old, addition, count, &called)
}

/// `l.extend(m)`, by a pass that has the locks of both lists (Python manual, Mutable Sequence Types). All items are
/// added, or none; a list that is named twice is read as it was before. A value that stands in a box stands in that
/// box in both lists then.
///
/// # Errors
///
/// As those of `append_by`, for the new length.
pub fn extend_by(bank: &Bank, pass: &mut Pass, l: Object, m: Object) -> Added
    requires pass { IsPassOf bank.now pass.old }
    requires may { MayWriteList (shape_of bank.now) l (view pass.old) }
    requires other { MayWriteList (shape_of bank.now) m (view pass.old) }
    requires used { used (view pass.old).log ≡ false }
    requires idle { flight (view pass.old).log ≡ 0 }
    ensures pass { IsPassOf bank.now pass.new }
    ensures stack { stack_of pass.new ≡ stack_of pass.old }
    ensures added { AddsItems (shape_of bank.now) l (call.List l (list.Extend m)) (length (known_items m (view pass.old)))
        (view pass.old) (view pass.new) result }
    ensures shares { WasMade result → SharesItems l (length (known_items l (view pass.old))) m
        (length (known_items m (view pass.old))) (view pass.old) (view pass.new) }
    ensures cursors { KeepsCursors (view pass.old) (view pass.new) }
{
    let called = Call::List {
        container: l,
        call: ListCall::Extend { other: m },
    };
    let count = count_of(bank, pass, l);
    let more = count_of(bank, pass, m);
    let old = root_table(bank, pass, l);
    let addition = Addition::All {
        other: m,
        count: more,
    };
    add_to(bank, pass, l, old, addition, count, &called)
}
