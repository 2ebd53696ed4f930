//! `clear` of a list, under its lock and as a try. Its root names no table before the counter is raised, and the
//! table that it had is retired.
ghost use Rattle.std.specs.Prelude.{◌≡◌, ◌≢◌, ℕ, ◌<◌, true, false, Some, None};
ghost use Rattle.ft_model.specs.declared.call.Call.TheVariants as call;
ghost use Rattle.ft_model.specs.declared.call.ListCall.TheVariants as list;
ghost use Rattle.ft_model.specs.declared.reply.Reply.TheVariants as reply;
ghost use Rattle.ft_trace.specs.Acts.{flight, used};
ghost use Rattle.ft_trace.specs.Boxes.{place_use, use_taken};
ghost use Rattle.ft_trace.specs.Holds.{held_unboxed};
ghost use Rattle.ft_trace.specs.Pictures.{root_in};
ghost use Rattle.ft_bank.specs.Passes.{shape_of, view, IsPassOf};
ghost use Rattle.ft_bank.specs.PassSections.{stack_of};
ghost use Rattle.ft_bank.specs.SameBoxes.{SameReferences};
ghost use Rattle.ft_bank.specs.Whole.{Wrote};
ghost use Rattle.ft_table_calls.specs.Adding.{KeepsCursors};
ghost use Rattle.ft_list.specs.ListWrites.{MayWriteList};
ghost use Rattle.ft_reads.specs.Clears.{IsCleared};
ghost use Rattle.ft_list.specs.Internal.NewListTables.{MayAdd};

use crate::adding::root_table;
use crate::bare::write_nothing;
use crate::locked::LENGTH;
use crate::rooting::put_other_root;
use ft_bank::{Bank, Pass, Table};
use ft_model::{Call, ListCall, Reply};
use ft_section::{Object, Stamp};
use ft_table_calls::retire_old;

/// The call.
fn clear_call(l: Object) -> Call
    ensures { result ≡ call.List l list.Clear }
{
    Call::List {
        container: l,
        call: ListCall::Clear,
    }
}

/// Clears a list that has a table, as the write of the call: puts 0 into its root, and drops the references of the
/// table. Answers the number of the write.
fn clear_table(bank: &Bank, pass: &mut Pass, l: Object, table: Table) -> u64
    requires pass { IsPassOf bank.now pass.old }
    requires may { MayAdd (shape_of bank.now) l (Some table) (view pass.old) }
    requires untaken { (b : ℕ) → place_use b (view pass.old).log ≢ use_taken }
    ensures pass { IsPassOf bank.now pass.new }
    ensures stack { stack_of pass.new ≡ stack_of pass.old }
    ensures wrote { Wrote (call.List l list.Clear) reply.Done result (view pass.old) (view pass.new) }
    ensures root { root_in (held_unboxed l (view pass.new)) ≡ 0 }
    ensures references { SameReferences (view pass.old) (view pass.new) }
{
    let called = clear_call(l);
    put_other_root(bank, pass, l, Some(table), None);
    bank.put_block(pass, l, LENGTH, 0);
    let number = bank.commit(pass, &called, &Reply::Done);
    bank.stop_write(pass, l);
    number
}

/// Clears a list, as the write of the call. Answers the number of the write.
fn clear_list(bank: &Bank, pass: &mut Pass, l: Object, old: Option<Table>) -> u64
    requires pass { IsPassOf bank.now pass.old }
    requires may { MayAdd (shape_of bank.now) l old (view pass.old) }
    requires untaken { (b : ℕ) → place_use b (view pass.old).log ≢ use_taken }
    ensures pass { IsPassOf bank.now pass.new }
    ensures stack { stack_of pass.new ≡ stack_of pass.old }
    ensures wrote { Wrote (call.List l list.Clear) reply.Done result (view pass.old) (view pass.new) }
    ensures root { root_in (held_unboxed l (view pass.new)) ≡ 0 }
    ensures references { SameReferences (view pass.old) (view pass.new) }
{
    match old {
        Some(table) => clear_table(bank, pass, l, table),
        None => write_nothing(bank, pass, l, &clear_call(l), &Reply::Done),
    }
}

/// `l.clear()`, by a pass that has the list's lock (Python manual, Mutable Sequence Types): the list has no table
/// then.
pub fn clear_by(bank: &Bank, pass: &mut Pass, l: Object) -> Stamp
    requires pass { IsPassOf bank.now pass.old }
    requires may { MayWriteList (shape_of bank.now) l (view pass.old) }
    requires used { used (view pass.old).log ≡ false }
    requires idle { flight (view pass.old).log ≡ 0 }
    ensures pass { IsPassOf bank.now pass.new }
    ensures stack { stack_of pass.new ≡ stack_of pass.old }
    ensures cleared { IsCleared (call.List l list.Clear) result (view pass.old) (view pass.new) }
    ensures cursors { KeepsCursors (view pass.old) (view pass.new) }
{
    let old = root_table(bank, pass, l);
    let number = clear_list(bank, pass, l, old);
    retire_old(bank, pass, old);
    Stamp {
        number,
        wrote: true,
    }
}
