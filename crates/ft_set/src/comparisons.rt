//! `s == t`: two sets compared element by element, without their locks.
ghost use Rattle.std.specs.Prelude.{◌≡◌, ◌<◌};
ghost use Rattle.ft_model.specs.declared.call.Call.TheVariants as call;
ghost use Rattle.ft_model.specs.declared.call.SetCall.TheVariants as set;
ghost use Rattle.ft_model.specs.declared.script.Kind.TheVariants as kind;
ghost use Rattle.ft_trace.specs.Addresses.{container_count};
ghost use Rattle.ft_trace.specs.ContainerStates.{kind_in};
ghost use Rattle.ft_bank.specs.Passes.{shape_of, view, IsPassOf};
ghost use Rattle.ft_bank.specs.PassSections.{stack_of};
ghost use Rattle.ft_reads.specs.Pairs.{IsGlanceOfBoth};

use ft_bank::{Bank, Pass};
use ft_section::{Look, Object};
use ft_whole_tables::{Comparison, look_comparison};

/// `s == t` without locks (Python manual, Set Types).
///
/// # Errors
///
/// `Contended` where two loads of the version of one of the sets gave an odd number or two different ones. It never
/// answers `NoMemory`.
#[inline]
pub fn look_eq(bank: &Bank, pass: &mut Pass, s: Object, t: Object) -> Look
    requires pass { IsPassOf bank.now pass.old }
    requires container { s < container_count (shape_of bank.now) }
    requires other { t < container_count (shape_of bank.now) }
    requires set { kind_in (shape_of bank.now).starts s ≡ kind.Set }
    requires other_set { kind_in (shape_of bank.now).starts t ≡ kind.Set }
    requires left { 0 < (view pass.old).left }
    ensures pass { IsPassOf bank.now pass.new }
    ensures sections { stack_of pass.new ≡ stack_of pass.old }
    ensures looked { IsGlanceOfBoth s t (call.Set s (set.Eq t)) (view pass.old) (view pass.new) result }
{
    look_comparison(bank, pass, Comparison::SameSets, s, t)
}
