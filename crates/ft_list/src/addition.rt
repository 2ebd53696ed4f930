//! What calls add to a list that a pass writes, in a table that has room for it: a value at a place, or all items
//! of a list, which may be the one that is written.
ghost use Rattle.std.specs.Prelude.{◌≡◌, ℕ, ◌+◌, ◌<◌, ◌≤◌, ◌++◌, false, length, Option, Some};
ghost use Rattle.ft_layout.specs.Words.{FitsStored};
ghost use Rattle.ft_trace.specs.Acts.{has_committed};
ghost use Rattle.ft_trace.specs.Addresses.{class_of, slots};
ghost use Rattle.ft_trace.specs.Holds.{held_unboxed};
ghost use Rattle.ft_trace.specs.Pictures.{root_in};
ghost use Rattle.ft_bank.specs.declared.table.Table.{Table};
ghost use Rattle.ft_bank.specs.Passes.{shape_of, view, IsPassOf};
ghost use Rattle.ft_bank.specs.PassSections.{stack_of};
ghost use Rattle.ft_bank.specs.SameBoxes.{SameReferences};
ghost use Rattle.ft_bank.specs.TableNames.{table_id, root_for, IsTableIn};
ghost use Rattle.ft_bank.specs.Whole.{OnlyLoaded, OnlyWritten};
ghost use Rattle.ft_list.specs.ListItemWrites.{WritesList, IsPutting, known_items, stored_item};
ghost use Rattle.ft_list.specs.Internal.Carrying.{HoldsSpare};
ghost use Rattle.ft_list.specs.Internal.Moving.{IsMoving};
ghost use Rattle.ft_list.specs.HeldValues.{GivesReference, SharesItems};
ghost use Rattle.ft_list.specs.Internal.Additions.{count_in, first_in, stored_in, with_added, GivesItems, IsAdditionTo, NamesAdded};

use crate::items::{carry_item, let_go};
use crate::locked::table_at_root;
use crate::sharing::{given_words, share_given};
use crate::writes::{put_last, shift_up};
use ft_bank::{Bank, Pass, Table};
use ft_layout::{Stored, stored_kind_of, stored_payload_of};
use ft_model::Value;

/// What a call adds to a list.
#[derive(Clone, Copy)]
pub(crate) enum Addition {
    /// A value, before the item at a place: the value itself is stored, or the box in which it stands.
    One {
        place: u64,
        value: Value,
        stored: Stored,
    },
    /// All items of another list or of the same one, of which there are that many, after the last item.
    All {
        other: u32,
        count: u64,
    },
}

/// How many items are added.
pub(crate) fn added_count(addition: Addition) -> u64
    ensures { result ≡ count_in addition }
{
    match addition {
        Addition::One { .. } => 1,
        Addition::All { count, .. } => count,
    }
}

/// The first place, of that many, whose item changes.
pub(crate) fn first_place(addition: Addition, count: u64) -> u64
    ensures { result ≡ first_in addition count }
{
    match addition {
        Addition::One { place, .. } => place,
        Addition::All { .. } => count,
    }
}

/// Puts the items of a list one by one after those of the list that the pass writes, which had that many. The words of
/// each value are read from the table of its list just before they are put, and the count of a box that they name is
/// raised in between: both lists name it then.
fn put_from(
    bank: &Bank,
    pass: &mut Pass,
    o: u32,
    table: Table,
    m: u32,
    from: Option<Table>,
    count: u64,
    more: u64,
)
    requires pass { IsPassOf bank.now pass.old }
    requires list { WritesList (shape_of bank.now) o table (view pass.old) }
    requires early { has_committed o (view pass.old).log ≡ false }
    requires spare { HoldsSpare (shape_of bank.now) (view pass.old) }
    requires gives { GivesItems (shape_of bank.now) o m (view pass.old) }
    requires from { (t : Table) → from ≡ Some t → IsTableIn (shape_of bank.now) t }
    requires root { root_in (held_unboxed m (view pass.old)) ≡ root_for from }
    requires count { count ≡ length (known_items o (view pass.old)) }
    requires more { more ≡ length (known_items m (view pass.old)) }
    requires room { count + more ≤ slots (class_of (table_id table)) }
    requires before { IsPutting (class_of (table_id table)) (known_items o (view pass.old)) count (count + more)
        (stored_item (known_items o (view pass.old))) (held_unboxed o (view pass.old)).table }
    ensures pass { IsPassOf bank.now pass.new }
    ensures stack { stack_of pass.new ≡ stack_of pass.old }
    ensures list { WritesList (shape_of bank.now) o table (view pass.new) }
    ensures only { OnlyWritten o (view pass.old) (view pass.new) }
    ensures references { SameReferences (view pass.old) (view pass.new) }
    ensures shares { SharesItems o count m more (view pass.old) (view pass.new) }
    ensures block { (held_unboxed o (view pass.new)).block ≡ (held_unboxed o (view pass.old)).block }
    ensures moved { IsMoving (class_of (table_id table)) (known_items o (view pass.old))
        (known_items o (view pass.old) ++ known_items m (view pass.old)) count (count + more) (count + more)
        (held_unboxed o (view pass.new)).table }
{
    for place in 0..more {
        let value = given_words(bank, pass, m, from, place);
        share_given(bank, pass, m, place, value);
        let old = carry_item(bank, pass, o, table, count + place, value);
        let_go(bank, pass, o, table, old);
    }
}

/// Puts all items of a list after those of the list that the pass writes, which had that many.
#[inline(never)]
fn put_items(bank: &Bank, pass: &mut Pass, o: u32, table: Table, m: u32, count: u64, more: u64)
    requires pass { IsPassOf bank.now pass.old }
    requires list { WritesList (shape_of bank.now) o table (view pass.old) }
    requires early { has_committed o (view pass.old).log ≡ false }
    requires spare { HoldsSpare (shape_of bank.now) (view pass.old) }
    requires gives { GivesItems (shape_of bank.now) o m (view pass.old) }
    requires count { count ≡ length (known_items o (view pass.old)) }
    requires more { more ≡ length (known_items m (view pass.old)) }
    requires room { count + more ≤ slots (class_of (table_id table)) }
    requires before { IsPutting (class_of (table_id table)) (known_items o (view pass.old)) count (count + more)
        (stored_item (known_items o (view pass.old))) (held_unboxed o (view pass.old)).table }
    ensures pass { IsPassOf bank.now pass.new }
    ensures stack { stack_of pass.new ≡ stack_of pass.old }
    ensures list { WritesList (shape_of bank.now) o table (view pass.new) }
    ensures only { OnlyWritten o (view pass.old) (view pass.new) }
    ensures references { SameReferences (view pass.old) (view pass.new) }
    ensures shares { SharesItems o count m more (view pass.old) (view pass.new) }
    ensures block { (held_unboxed o (view pass.new)).block ≡ (held_unboxed o (view pass.old)).block }
    ensures moved { IsMoving (class_of (table_id table)) (known_items o (view pass.old))
        (known_items o (view pass.old) ++ known_items m (view pass.old)) count (count + more) (count + more)
        (held_unboxed o (view pass.new)).table }
{
    let from = table_at_root(bank, pass, m);
    put_from(bank, pass, o, table, m, from, count, more);
}

/// Puts what is added to the list that the pass writes, which had that many items, and the items after it.
#[inline(always)]
pub(crate) fn put_added(
    bank: &Bank,
    pass: &mut Pass,
    o: u32,
    table: Table,
    addition: Addition,
    count: u64,
)
    requires pass { IsPassOf bank.now pass.old }
    requires list { WritesList (shape_of bank.now) o table (view pass.old) }
    requires early { has_committed o (view pass.old).log ≡ false }
    requires addition { IsAdditionTo (shape_of bank.now) o count addition (view pass.old) }
    requires count { count ≡ length (known_items o (view pass.old)) }
    requires room { count + count_in addition ≤ slots (class_of (table_id table)) }
    requires spare { HoldsSpare (shape_of bank.now) (view pass.old) }
    requires before { IsPutting (class_of (table_id table)) (known_items o (view pass.old)) (first_in addition count)
        (count + count_in addition) (stored_item (known_items o (view pass.old))) (held_unboxed o (view pass.old)).table }
    ensures pass { IsPassOf bank.now pass.new }
    ensures stack { stack_of pass.new ≡ stack_of pass.old }
    ensures list { WritesList (shape_of bank.now) o table (view pass.new) }
    ensures only { OnlyWritten o (view pass.old) (view pass.new) }
    ensures references { GivesReference (shape_of bank.now) (stored_in addition) (view pass.old) (view pass.new) }
    ensures named { NamesAdded o (known_items o (view pass.old)) addition (view pass.old) (view pass.new) }
    ensures block { (held_unboxed o (view pass.new)).block ≡ (held_unboxed o (view pass.old)).block }
    ensures moved { IsMoving (class_of (table_id table)) (known_items o (view pass.old))
        (with_added addition (view pass.old) (known_items o (view pass.old))) (first_in addition count)
        (count + count_in addition) (count + count_in addition) (held_unboxed o (view pass.new)).table }
{
    match addition {
        Addition::One {
            place,
            value,
            stored,
        } => {
            let _ = value;
            if place == count {
                put_last(bank, pass, o, table, count, stored)
            } else {
                let given = (stored_kind_of(stored), stored_payload_of(stored));
                shift_up(bank, pass, o, table, place, count, given)
            }
        }
        Addition::All { other, count: more } => {
            put_items(bank, pass, o, table, other, count, more)
        }
    }
}
