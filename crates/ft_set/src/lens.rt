//! How many elements a set has: read without the lock, between two loads of the set's version.
ghost use Rattle.std.specs.Prelude.{◌≡◌, ◌<◌};
ghost use Rattle.ft_model.specs.declared.call.Call.TheVariants as call;
ghost use Rattle.ft_model.specs.declared.call.SetCall.TheVariants as set;
ghost use Rattle.ft_model.specs.declared.script.Kind.TheVariants as kind;
ghost use Rattle.ft_trace.specs.Addresses.{container_count};
ghost use Rattle.ft_trace.specs.ContainerStates.{kind_in};
ghost use Rattle.ft_bank.specs.Passes.{shape_of, view, IsPassOf};
ghost use Rattle.ft_bank.specs.PassSections.{stack_of};
ghost use Rattle.ft_search.specs.Lengths.{IsGlanceOf};

use ft_bank::{Bank, Pass};
use ft_model::{Call, SetCall};
use ft_section::{Look, Object};

/// `len(s)` without the lock (Python manual, Set Types).
///
/// # Errors
///
/// `Contended` where two loads of the version of the set gave an odd number or two different ones. It never
/// answers `NoMemory`.
pub fn look_len(bank: &Bank, pass: &mut Pass, s: Object) -> Look
    requires pass { IsPassOf bank.now pass.old }
    requires container { s < container_count (shape_of bank.now) }
    requires set { kind_in (shape_of bank.now).starts s ≡ kind.Set }
    requires left { 0 < (view pass.old).left }
    ensures pass { IsPassOf bank.now pass.new }
    ensures sections { stack_of pass.new ≡ stack_of pass.old }
    ensures looked { IsGlanceOf s (call.Set s set.Len) (view pass.old) (view pass.new) result }
{
    let call = Call::Set {
        container: s,
        call: SetCall::Len,
    };
    ft_search::look_len(bank, pass, s, &call)
}
