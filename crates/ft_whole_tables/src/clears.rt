//! `clear` of a dict or a set as a call of its kind, under its lock.
ghost use Rattle.std.specs.Prelude.{◌≡◌, false};
ghost use Rattle.ft_trace.specs.Acts.{flight, used};
ghost use Rattle.ft_trace.specs.ContainerStates.{kind_in};
ghost use Rattle.ft_bank.specs.Passes.{shape_of, view, IsPassOf};
ghost use Rattle.ft_bank.specs.PassSections.{stack_of};
ghost use Rattle.ft_table_calls.specs.Adding.{KeepsCursors};
ghost use Rattle.ft_search.specs.OneEntryWrites.{MayWriteEntries};
ghost use Rattle.ft_search.specs.Rounds.{kind_by};
ghost use Rattle.ft_reads.specs.Clears.{IsCleared};
ghost use Rattle.ft_whole_tables.specs.Clearing.{clear_call};

use crate::clearing::clear_keyed;
use ft_bank::{Bank, Pass};
use ft_keys::Way;
use ft_model::{Call, DictCall, SetCall};
use ft_section::{Object, Stamp};

/// The call that clears a dict or a set.
fn clearing_call(way: Way, container: Object) -> Call
    ensures { result ≡ clear_call way container }
{
    match way {
        Way::Dict => Call::Dict {
            container,
            call: DictCall::Clear,
        },
        Way::Set => Call::Set {
            container,
            call: SetCall::Clear,
        },
    }
}

/// `d.clear()` or `s.clear()`, by a pass that has the lock (Python manual, Mapping Types, Set Types): the container has
/// no table then.
pub fn clear_as(bank: &Bank, pass: &mut Pass, way: Way, c: Object) -> Stamp
    requires pass { IsPassOf bank.now pass.old }
    requires may { MayWriteEntries (shape_of bank.now) c (view pass.old) }
    requires kind { kind_in (shape_of bank.now).starts c ≡ kind_by way }
    requires used { used (view pass.old).log ≡ false }
    requires idle { flight (view pass.old).log ≡ 0 }
    ensures pass { IsPassOf bank.now pass.new }
    ensures stack { stack_of pass.new ≡ stack_of pass.old }
    ensures cleared { IsCleared (clear_call way c) result (view pass.old) (view pass.new) }
    ensures cursors { KeepsCursors (view pass.old) (view pass.new) }
{
    let called = clearing_call(way, c);
    clear_keyed(bank, pass, c, way, &called)
}
