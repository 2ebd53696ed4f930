//! The look-up of one element of a set without the lock. Additions, removals and growths for other
//! elements never make it contended, unless the root was read 0.
ghost use Rattle.std.specs.Prelude.{◌≡◌, ◌<◌};
ghost use Rattle.ft_model.specs.declared.call.Call.TheVariants as call;
ghost use Rattle.ft_model.specs.declared.call.SetCall.TheVariants as set;
ghost use Rattle.ft_model.specs.declared.script.Kind.TheVariants as kind;
ghost use Rattle.ft_trace.specs.Acts.{announces};
ghost use Rattle.ft_trace.specs.Addresses.{container_count};
ghost use Rattle.ft_trace.specs.Boxes.{IsSettled};
ghost use Rattle.ft_trace.specs.ContainerStates.{kind_in};
ghost use Rattle.ft_bank.specs.KeyHashes.{IsKeyIn};
ghost use Rattle.ft_bank.specs.Passes.{shape_of, view, IsPassOf};
ghost use Rattle.ft_bank.specs.PassSections.{stack_of};
ghost use Rattle.ft_bank.specs.SameBoxes.{HoldsFew};
ghost use Rattle.ft_keys.specs.declared.walk.Way.TheVariants as way;
ghost use Rattle.ft_search.specs.SearchCosts.{LoadsRounds};
ghost use Rattle.ft_search.specs.KeyLooks.{IsLookOf};

use ft_bank::{Bank, Pass};
use ft_keys::Way;
use ft_model::{Call, Key, Reply, SetCall};
use ft_search::{Looked, answer_look, look_up};
use ft_section::{Look, Object};

/// `k in s`, without the lock (Python manual, Set Types). It goes in rounds, one more for each change of the root that
/// it finds, and in each loads at most as many index words as one search may.
///
/// # Errors
///
/// `Contended` where two loads of the version of the element's own entry gave an odd number or two
/// different ones; of the container's version, where its root was read 0. It never answers `NoMemory`.
#[inline(always)]
pub fn look_has(bank: &Bank, pass: &mut Pass, s: Object, key: Key) -> Look
    requires pass { IsPassOf bank.now pass.old }
    requires container { s < container_count (shape_of bank.now) }
    requires set { kind_in (shape_of bank.now).starts s ≡ kind.Set }
    requires key { IsKeyIn (shape_of bank.now) key }
    requires online { 0 < announces (view pass.old).log }
    requires left { 0 < (view pass.old).left }
    requires settled { IsSettled (view pass.old).log }
    requires few { HoldsFew (view pass.old) }
    ensures pass { IsPassOf bank.now pass.new }
    ensures sections { stack_of pass.new ≡ stack_of pass.old }
    ensures looked { IsLookOf s key (call.Set s (set.Has key)) (view pass.old) (view pass.new) result }
    ensures loads { LoadsRounds way.Set s (view pass.old) (view pass.new) }
{
    let call = Call::Set {
        container: s,
        call: SetCall::Has { key },
    };
    match look_up(bank, pass, s, Way::Set, key) {
        Looked::Here(_, _, number) => { answer_look(bank, pass, &call, Reply::Truth(true), number) }
        Looked::Absent(number) => { answer_look(bank, pass, &call, Reply::Truth(false), number) }
        Looked::Contended(first, second) => Look::Contended(first, second),
    }
}
