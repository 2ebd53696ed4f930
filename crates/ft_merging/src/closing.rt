//! The end of a write of several entries: the counter is raised, which is the write, and then the version of each entry
//! that was put is made even again, and the container's.
ghost use Rattle.std.specs.Prelude.{◌≡◌, ◌+◌, ◌<◌, ◌≤◌};
ghost use Rattle.ft_trace.specs.Addresses.{class_of};
ghost use Rattle.ft_trace.specs.Holds.{held_unboxed, known_state};
ghost use Rattle.ft_trace.specs.Kinds.{rows};
ghost use Rattle.ft_trace.specs.Pictures.{root_in};
ghost use Rattle.ft_trace.specs.ContainerStates.{kind_in};
ghost use Rattle.ft_bank.specs.Passes.{shape_of, view, IsPassOf};
ghost use Rattle.ft_bank.specs.PassSections.{stack_of};
ghost use Rattle.ft_bank.specs.SameBoxes.{SameReferences};
ghost use Rattle.ft_bank.specs.TableNames.{table_id};
ghost use Rattle.ft_bank.specs.Whole.{EndsWrite, OnlyPut};
ghost use Rattle.ft_merging.specs.Internal.EntriesAtOnce.{IsClosing, KeepsEntries, MayFinishAll};

use crate::reading::word_of;
use ft_bank::{Bank, Pass, Table};
use ft_layout::entry_word::VERSION;
use ft_layout::{used_entries_follow_a_dict, used_entries_follow_a_set, versions_change_nothing};
use ft_model::{Call, Reply};
use ft_search::raise_version;
use ft_section::Object;

/// Makes the version of the entry at a place even, where it is odd.
fn close_at(bank: &Bank, pass: &mut Pass, o: Object, table: Table, place: u64, fill: u64)
    requires pass { IsPassOf bank.now pass.old }
    requires place { place < rows (kind_in (shape_of bank.now).starts o) (class_of (table_id table)) }
    requires closing { IsClosing (shape_of bank.now) o table place fill (view pass.old) }
    ensures pass { IsPassOf bank.now pass.new }
    ensures stack { stack_of pass.new ≡ stack_of pass.old }
    ensures only { OnlyPut o (view pass.old) (view pass.new) }
    ensures references { SameReferences (view pass.old) (view pass.new) }
    ensures closing { IsClosing (shape_of bank.now) o table (place + 1) fill (view pass.new) }
    ensures keeps { KeepsEntries o (table_id table) (view pass.old) (view pass.new) }
{
    let _ = fill;
    used_entries_follow_a_dict();
    used_entries_follow_a_set();
    versions_change_nothing();
    let version = word_of(bank, pass, o, table, place, VERSION);
    if version % 2 == 1 {
        raise_version(bank, pass, o, table, place);
    }
}

/// Makes the versions of as many entries even, where they are odd.
fn close_all(bank: &Bank, pass: &mut Pass, o: Object, table: Table, fill: u64)
    requires pass { IsPassOf bank.now pass.old }
    requires fill { fill ≤ rows (kind_in (shape_of bank.now).starts o) (class_of (table_id table)) }
    requires closing { IsClosing (shape_of bank.now) o table 0 fill (view pass.old) }
    ensures pass { IsPassOf bank.now pass.new }
    ensures stack { stack_of pass.new ≡ stack_of pass.old }
    ensures only { OnlyPut o (view pass.old) (view pass.new) }
    ensures references { SameReferences (view pass.old) (view pass.new) }
    ensures closing { IsClosing (shape_of bank.now) o table fill fill (view pass.new) }
    ensures keeps { KeepsEntries o (table_id table) (view pass.old) (view pass.new) }
{
    for place in 0..fill {
        close_at(bank, pass, o, table, place, fill);
    }
}

/// Raises the counter for a call, and makes the versions of the entries that were put and of the container even again;
/// that many entries of its table are used. Answers the number of the write.
pub(crate) fn finish_entries(
    bank: &Bank,
    pass: &mut Pass,
    o: Object,
    table: Table,
    fill: u64,
    called: &Call,
    said: &Reply,
) -> u64
    requires pass { IsPassOf bank.now pass.old }
    requires fill { fill ≤ rows (kind_in (shape_of bank.now).starts o) (class_of (table_id table)) }
    requires may { MayFinishAll (shape_of bank.now) o table fill called.now said.now (view pass.old) }
    ensures pass { IsPassOf bank.now pass.new }
    ensures stack { stack_of pass.new ≡ stack_of pass.old }
    ensures ends { EndsWrite called.now said.now result (view pass.old) (view pass.new) }
    ensures references { SameReferences (view pass.old) (view pass.new) }
    ensures keeps { KeepsEntries o (table_id table) (view pass.old) (view pass.new) }
{
    let number = bank.commit(pass, called, said);
    close_all(bank, pass, o, table, fill);
    bank.stop_write(pass, o);
    number
}
