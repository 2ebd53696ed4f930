//! `clear` of a dict or a set, under its lock. Its root names no table before the counter is raised, the references of
//! boxes that its values had are dropped, and the table that it had is retired.
ghost use Rattle.std.specs.Prelude.{◌≡◌, ◌<◌, true, false};
ghost use Rattle.ft_model.specs.declared.reply.Reply.TheVariants as reply;
ghost use Rattle.ft_trace.specs.Acts.{flight, is_writing, used};
ghost use Rattle.ft_model.specs.Classes.{IsClass};
ghost use Rattle.ft_trace.specs.Addresses.{container_count};
ghost use Rattle.ft_trace.specs.Holds.{held_unboxed, known_state};
ghost use Rattle.ft_trace.specs.Pictures.{root_in};
ghost use Rattle.ft_trace.specs.ContainerStates.{kind_in, may_empty};
ghost use Rattle.ft_bank.specs.Passes.{shape_of, view, IsPassOf};
ghost use Rattle.ft_bank.specs.PassSections.{stack_of};
ghost use Rattle.ft_bank.specs.SameBoxes.{SameReferences};
ghost use Rattle.ft_bank.specs.Whole.{OnlyLoaded, OnlyPut, Wrote};
ghost use Rattle.ft_bank.specs.WriteSteps.{with_block};
ghost use Rattle.ft_search.specs.OneEntryWrites.{HasTable, Leaves, MayWriteEntries};
ghost use Rattle.ft_search.specs.Rounds.{kind_by};
ghost use Rattle.ft_table_calls.specs.Dropping.{AreValuePlaces};
ghost use Rattle.ft_reads.specs.Clears.{IsCleared};
ghost use Rattle.ft_whole_tables.specs.Clearing.{HasRootOf, cleared_kept};

use ft_bank::{Bank, Pass, Table};
use ft_keys::{Way, room_of};
use ft_layout::block_word;
use ft_layout::entry_word::VALUE_KIND;
use ft_model::{Call, Reply};
use ft_search::{mask_of, table_named, write_nothing};
use ft_section::{Object, Stamp};
use ft_table_calls::{ValuePlaces, drop_values, retire_old};

/// Which words of a block are the number of pairs or elements, and how many entries were used, as a bank counts
/// them.
const COUNT: u64 = block_word::USED - block_word::ROOT;

pub(crate) const FILL: u64 = block_word::FILL - block_word::ROOT;

/// The table of a dict or a set whose lock the pass has, or none.
pub fn root_table(bank: &Bank, pass: &mut Pass, o: Object) -> Option<Table>
    requires pass { IsPassOf bank.now pass.old }
    requires may { MayWriteEntries (shape_of bank.now) o (view pass.old) }
    ensures pass { IsPassOf bank.now pass.new }
    ensures stack { stack_of pass.new ≡ stack_of pass.old }
    ensures only { OnlyLoaded (view pass.old) (view pass.new) }
    ensures may { MayWriteEntries (shape_of bank.now) o (view pass.new) }
    ensures root { HasRootOf (shape_of bank.now) o result (view pass.new) }
{
    let root = bank.read_block(pass, o, 0);
    table_named(root)
}

/// Where the values of a table of this class lie that is searched this way.
fn value_places(way: Way, class: u32) -> ValuePlaces
    requires { IsClass class }
    ensures { AreValuePlaces (kind_by way) class result }
{
    let mask = mask_of(class);
    ValuePlaces {
        first: mask + 1 + VALUE_KIND,
        step: 8,
        rows: room_of(way, mask),
    }
}

/// Puts into the block that nothing is there and no entry was used.
fn put_no_counts(bank: &Bank, pass: &mut Pass, o: Object)
    requires pass { IsPassOf bank.now pass.old }
    requires container { o < container_count (shape_of bank.now) }
    requires odd { is_writing o (view pass.old).log ≡ true }
    ensures pass { IsPassOf bank.now pass.new }
    ensures stack { stack_of pass.new ≡ stack_of pass.old }
    ensures only { OnlyPut o (view pass.old) (view pass.new) }
    ensures words { held_unboxed o (view pass.new) ≡ with_block (with_block (held_unboxed o (view pass.old)) 1 0) 2 0 }
{
    bank.put_block(pass, o, COUNT, 0);
    bank.put_block(pass, o, FILL, 0);
}

/// Clears a dict or a set that has a table, as the write of the call: puts 0 into its root, and drops the references of
/// boxes that the values of the table had. Answers the number of the write.
fn clear_table(
    bank: &Bank,
    pass: &mut Pass,
    o: Object,
    way: Way,
    table: Table,
    called: &Call,
) -> u64
    requires pass { IsPassOf bank.now pass.old }
    requires may { MayWriteEntries (shape_of bank.now) o (view pass.old) }
    requires kind { kind_in (shape_of bank.now).starts o ≡ kind_by way }
    requires used { used (view pass.old).log ≡ false }
    requires table { HasTable (shape_of bank.now) o table (view pass.old) }
    requires leaves { Leaves o called.now reply.Done (cleared_kept (known_state o (view pass.old))) (view pass.old) }
    requires empties { may_empty called.now ≡ true }
    ensures pass { IsPassOf bank.now pass.new }
    ensures stack { stack_of pass.new ≡ stack_of pass.old }
    ensures wrote { Wrote called.now reply.Done result (view pass.old) (view pass.new) }
    ensures references { SameReferences (view pass.old) (view pass.new) }
    ensures root { root_in (held_unboxed o (view pass.new)) ≡ 0 }
{
    bank.start_write(pass, o);
    bank.put_root(pass, o, None);
    let places = value_places(way, table.class);
    drop_values(bank, pass, o, table, places);
    put_no_counts(bank, pass, o);
    let number = bank.commit(pass, called, &Reply::Done);
    bank.stop_write(pass, o);
    number
}

/// Clears a dict or a set that has no table, as the write of the call: it has nothing, and is left as it is.
/// Answers the number of the write.
fn clear_bare(bank: &Bank, pass: &mut Pass, o: Object, called: &Call) -> u64
    requires pass { IsPassOf bank.now pass.old }
    requires may { MayWriteEntries (shape_of bank.now) o (view pass.old) }
    requires bare { root_in (held_unboxed o (view pass.old)) ≡ 0 }
    requires leaves { Leaves o called.now reply.Done (cleared_kept (known_state o (view pass.old))) (view pass.old) }
    ensures pass { IsPassOf bank.now pass.new }
    ensures stack { stack_of pass.new ≡ stack_of pass.old }
    ensures wrote { Wrote called.now reply.Done result (view pass.old) (view pass.new) }
    ensures references { SameReferences (view pass.old) (view pass.new) }
    ensures root { root_in (held_unboxed o (view pass.new)) ≡ 0 }
{
    write_nothing(bank, pass, o, called, &Reply::Done)
}

/// Clears a dict or a set, as the write of the call. Answers the number of the write.
fn clear_root(
    bank: &Bank,
    pass: &mut Pass,
    o: Object,
    way: Way,
    old: Option<Table>,
    called: &Call,
) -> u64
    requires pass { IsPassOf bank.now pass.old }
    requires may { MayWriteEntries (shape_of bank.now) o (view pass.old) }
    requires kind { kind_in (shape_of bank.now).starts o ≡ kind_by way }
    requires used { used (view pass.old).log ≡ false }
    requires root { HasRootOf (shape_of bank.now) o old (view pass.old) }
    requires leaves { Leaves o called.now reply.Done (cleared_kept (known_state o (view pass.old))) (view pass.old) }
    requires empties { may_empty called.now ≡ true }
    ensures pass { IsPassOf bank.now pass.new }
    ensures stack { stack_of pass.new ≡ stack_of pass.old }
    ensures wrote { Wrote called.now reply.Done result (view pass.old) (view pass.new) }
    ensures references { SameReferences (view pass.old) (view pass.new) }
    ensures root { root_in (held_unboxed o (view pass.new)) ≡ 0 }
{
    match old {
        Some(table) => clear_table(bank, pass, o, way, table, called),
        None => clear_bare(bank, pass, o, called),
    }
}

/// `o.clear()`, by a pass that has the lock of the dict or the set o (Python manual, Mapping Types, Set Types), as
/// the call of its kind: it has nothing then, and no table.
pub fn clear_keyed(bank: &Bank, pass: &mut Pass, o: Object, way: Way, called: &Call) -> Stamp
    requires pass { IsPassOf bank.now pass.old }
    requires may { MayWriteEntries (shape_of bank.now) o (view pass.old) }
    requires kind { kind_in (shape_of bank.now).starts o ≡ kind_by way }
    requires used { used (view pass.old).log ≡ false }
    requires idle { flight (view pass.old).log ≡ 0 }
    requires leaves { Leaves o called.now reply.Done (cleared_kept (known_state o (view pass.old))) (view pass.old) }
    requires empties { may_empty called.now ≡ true }
    ensures pass { IsPassOf bank.now pass.new }
    ensures stack { stack_of pass.new ≡ stack_of pass.old }
    ensures cleared { IsCleared called.now result (view pass.old) (view pass.new) }
{
    let old = root_table(bank, pass, o);
    let number = clear_root(bank, pass, o, way, old, called);
    retire_old(bank, pass, old);
    Stamp {
        number,
        wrote: true,
    }
}
