//! `clear` of a dict, under its lock. Its root names no table before the counter is raised, and the table that it had
//! is retired.
ghost use Rattle.std.specs.Prelude.{◌≡◌, false};
ghost use Rattle.ft_model.specs.declared.call.Call.TheVariants as call;
ghost use Rattle.ft_model.specs.declared.call.DictCall.TheVariants as dict;
ghost use Rattle.ft_model.specs.declared.script.Kind.TheVariants as kind;
ghost use Rattle.ft_trace.specs.Acts.{flight, used};
ghost use Rattle.ft_trace.specs.ContainerStates.{kind_in};
ghost use Rattle.ft_bank.specs.Passes.{shape_of, view, IsPassOf};
ghost use Rattle.ft_bank.specs.PassSections.{stack_of};
ghost use Rattle.ft_table_calls.specs.Adding.{KeepsCursors};
ghost use Rattle.ft_search.specs.OneEntryWrites.{MayWriteEntries};
ghost use Rattle.ft_reads.specs.Clears.{IsCleared};

use ft_bank::{Bank, Pass};
use ft_keys::Way;
use ft_section::{Object, Stamp};
use ft_whole_tables::clear_as;

/// `d.clear()`, by a pass that has the dict's lock (Python manual, Mapping Types): the dict has no table then.
pub fn clear_by(bank: &Bank, pass: &mut Pass, d: Object) -> Stamp
    requires pass { IsPassOf bank.now pass.old }
    requires may { MayWriteEntries (shape_of bank.now) d (view pass.old) }
    requires dict { kind_in (shape_of bank.now).starts d ≡ kind.Dict }
    requires used { used (view pass.old).log ≡ false }
    requires idle { flight (view pass.old).log ≡ 0 }
    ensures pass { IsPassOf bank.now pass.new }
    ensures stack { stack_of pass.new ≡ stack_of pass.old }
    ensures cleared { IsCleared (call.Dict d dict.Clear) result (view pass.old) (view pass.new) }
    ensures cursors { KeepsCursors (view pass.old) (view pass.new) }
{
    clear_as(bank, pass, Way::Dict, d)
}
