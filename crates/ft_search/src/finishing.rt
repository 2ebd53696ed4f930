//! The end of a write of a dict or a set: the counter is raised, which is the write, and then the versions
//! are made even again.
ghost use Rattle.std.specs.Prelude.{◌≡◌, ◌≢◌, ℕ, ◌<◌};
ghost use Rattle.ft_trace.specs.Addresses.{class_of};
ghost use Rattle.ft_trace.specs.Boxes.{place_use, use_taken};
ghost use Rattle.ft_trace.specs.Holds.{held_words, held_unboxed, known_state};
ghost use Rattle.ft_trace.specs.Kinds.{rows};
ghost use Rattle.ft_trace.specs.Pictures.{root_in};
ghost use Rattle.ft_trace.specs.ContainerStates.{kind_in};
ghost use Rattle.ft_bank.specs.Passes.{shape_of, view, IsPassOf};
ghost use Rattle.ft_bank.specs.PassSections.{stack_of};
ghost use Rattle.ft_bank.specs.SameBoxes.{SameReferences};
ghost use Rattle.ft_bank.specs.TableNames.{table_id};
ghost use Rattle.ft_bank.specs.Whole.{EndsWrite, Wrote};
ghost use Rattle.ft_search.specs.OneEntryWrites.{Leaves, MayFinish, MayWriteEntries, WritesEntries, raised_at};

use crate::entries::raise_version;
use ft_bank::{Bank, Pass, Table};
use ft_model::{Call, Reply};

/// Raises the counter for a call, and makes the versions of the entry at a place and of the container even
/// again. Answers the number of the write.
#[inline(always)]
pub fn finish_entry(
    bank: &Bank,
    pass: &mut Pass,
    o: u32,
    table: Table,
    place: u64,
    called: &Call,
    said: &Reply,
) -> u64
    requires pass { IsPassOf bank.now pass.old }
    requires writes { WritesEntries (shape_of bank.now) o table (view pass.old) }
    requires place { place < rows (kind_in (shape_of bank.now).starts o) (class_of (table_id table)) }
    requires may { MayFinish o table place called.now said.now (view pass.old) }
    ensures pass { IsPassOf bank.now pass.new }
    ensures stack { stack_of pass.new ≡ stack_of pass.old }
    ensures ends { EndsWrite called.now said.now result (view pass.old) (view pass.new) }
    ensures references { SameReferences (view pass.old) (view pass.new) }
    ensures words { held_unboxed o (view pass.new) ≡ raised_at (table_id table) place (held_unboxed o (view pass.old)) }
    ensures raw { held_words o (view pass.new) ≡ raised_at (table_id table) place (held_words o (view pass.old)) }
    ensures stored { (b : ℕ) → place_use b (view pass.new).log ≢ use_taken }
{
    let number = bank.commit(pass, called, said);
    raise_version(bank, pass, o, table, place);
    bank.stop_write(pass, o);
    number
}

/// Makes a call as a write that leaves the dict or the set, whose lock the pass has, as it is. Answers the
/// number of the write.
pub fn write_nothing(bank: &Bank, pass: &mut Pass, o: u32, called: &Call, said: &Reply) -> u64
    requires pass { IsPassOf bank.now pass.old }
    requires may { MayWriteEntries (shape_of bank.now) o (view pass.old) }
    requires leaves { Leaves o called.now said.now (known_state o (view pass.old)) (view pass.old) }
    ensures pass { IsPassOf bank.now pass.new }
    ensures stack { stack_of pass.new ≡ stack_of pass.old }
    ensures wrote { Wrote called.now said.now result (view pass.old) (view pass.new) }
    ensures references { SameReferences (view pass.old) (view pass.new) }
    ensures root { root_in (held_unboxed o (view pass.new)) ≡ root_in (held_unboxed o (view pass.old)) }
{
    bank.start_write(pass, o);
    let number = bank.commit(pass, called, said);
    bank.stop_write(pass, o);
    number
}
