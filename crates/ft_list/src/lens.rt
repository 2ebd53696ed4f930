//! How many items a list has: read without the lock, between two loads of the list's version, and under the
//! lock.
ghost use Rattle.std.specs.Prelude.{◌≡◌, ◌<◌};
ghost use Rattle.ft_model.specs.declared.call.Call.TheVariants as call;
ghost use Rattle.ft_model.specs.declared.call.ListCall.TheVariants as list;
ghost use Rattle.ft_model.specs.declared.script.Kind.TheVariants as kind;
ghost use Rattle.ft_trace.specs.Addresses.{container_count};
ghost use Rattle.ft_trace.specs.ContainerStates.{kind_in};
ghost use Rattle.ft_bank.specs.Passes.{shape_of, view, IsPassOf};
ghost use Rattle.ft_bank.specs.PassSections.{stack_of};
ghost use Rattle.ft_search.specs.Lengths.{IsGlanceOf};

use ft_bank::{Bank, Pass};
use ft_model::{Call, ListCall};
use ft_section::{Look, Object};

/// `len(l)` without the lock (Python manual, Sequence Types).
///
/// # Errors
///
/// `Contended` where two loads of the version of the list gave an odd number or two different ones. It never
/// answers `NoMemory`.
pub fn look_len(bank: &Bank, pass: &mut Pass, l: Object) -> Look
    requires pass { IsPassOf bank.now pass.old }
    requires container { l < container_count (shape_of bank.now) }
    requires list { kind_in (shape_of bank.now).starts l ≡ kind.List }
    requires left { 0 < (view pass.old).left }
    ensures pass { IsPassOf bank.now pass.new }
    ensures sections { stack_of pass.new ≡ stack_of pass.old }
    ensures looked { IsGlanceOf l (call.List l list.Len) (view pass.old) (view pass.new) result }
{
    let call = Call::List {
        container: l,
        call: ListCall::Len,
    };
    ft_search::look_len(bank, pass, l, &call)
}
