//! How many pairs a dict has: read without the lock, between two loads of the dict's version.
ghost use Rattle.std.specs.Prelude.{◌≡◌, ◌<◌};
ghost use Rattle.ft_model.specs.declared.call.Call.TheVariants as call;
ghost use Rattle.ft_model.specs.declared.call.DictCall.TheVariants as dict;
ghost use Rattle.ft_model.specs.declared.script.Kind.TheVariants as kind;
ghost use Rattle.ft_trace.specs.Addresses.{container_count};
ghost use Rattle.ft_trace.specs.ContainerStates.{kind_in};
ghost use Rattle.ft_bank.specs.Passes.{shape_of, view, IsPassOf};
ghost use Rattle.ft_bank.specs.PassSections.{stack_of};
ghost use Rattle.ft_search.specs.Lengths.{IsGlanceOf};

use ft_bank::{Bank, Pass};
use ft_model::{Call, DictCall};
use ft_section::{Look, Object};

/// `len(d)` without the lock (Python manual, Mapping Types).
///
/// # Errors
///
/// `Contended` where two loads of the version of the dict gave an odd number or two different ones. It never
/// answers `NoMemory`.
pub fn look_len(bank: &Bank, pass: &mut Pass, d: Object) -> Look
    requires pass { IsPassOf bank.now pass.old }
    requires container { d < container_count (shape_of bank.now) }
    requires dict { kind_in (shape_of bank.now).starts d ≡ kind.Dict }
    requires left { 0 < (view pass.old).left }
    ensures pass { IsPassOf bank.now pass.new }
    ensures sections { stack_of pass.new ≡ stack_of pass.old }
    ensures looked { IsGlanceOf d (call.Dict d dict.Len) (view pass.old) (view pass.new) result }
{
    let call = Call::Dict {
        container: d,
        call: DictCall::Len,
    };
    ft_search::look_len(bank, pass, d, &call)
}
