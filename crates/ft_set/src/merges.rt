//! Calls on two sets that write the first one: those of its elements stay that the other one has, or hasn't, and it gets
//! those of the other one too, all or those that it lacks.
ghost use Rattle.std.specs.Prelude.{◌≡◌, false};
ghost use Rattle.ft_model.specs.declared.call.Call.TheVariants as call;
ghost use Rattle.ft_model.specs.declared.call.SetCall.TheVariants as set;
ghost use Rattle.ft_model.specs.declared.script.Kind.TheVariants as kind;
ghost use Rattle.ft_trace.specs.Acts.{flight, used};
ghost use Rattle.ft_trace.specs.ContainerStates.{kind_in};
ghost use Rattle.ft_bank.specs.Passes.{shape_of, view, IsPassOf};
ghost use Rattle.ft_bank.specs.PassSections.{stack_of};
ghost use Rattle.ft_search.specs.MadeCalls.{MadeAs};
ghost use Rattle.ft_search.specs.OneEntryWrites.{MayWriteEntries};
ghost use Rattle.ft_merging.specs.Joining.{JoinsBy};
ghost use Rattle.ft_merging.specs.Parting.{PartsBy};

use ft_bank::{Bank, Pass};
use ft_keys::Way;
use ft_layout::{used_entries_follow_a_dict, used_entries_follow_a_set};
use ft_merging::{join_by, thin_by};
use ft_model::{Call, Reply, SetCall};
use ft_parting::part_by;
use ft_search::written;
use ft_section::{Object, Stamp};
use ft_table_calls::Added;

/// `s &= t`, by a pass that has both locks (Python manual, Set Types): a set that is named twice stays as it is.
pub(crate) fn and_locked(bank: &Bank, pass: &mut Pass, s: Object, t: Object) -> (Reply, Stamp)
    requires pass { IsPassOf bank.now pass.old }
    requires may { MayWriteEntries (shape_of bank.now) s (view pass.old) }
    requires other { MayWriteEntries (shape_of bank.now) t (view pass.old) }
    requires set { kind_in (shape_of bank.now).starts s ≡ kind.Set }
    requires other_set { kind_in (shape_of bank.now).starts t ≡ kind.Set }
    ensures pass { IsPassOf bank.now pass.new }
    ensures stack { stack_of pass.new ≡ stack_of pass.old }
    ensures made { MadeAs (call.Set s (set.And t)) result.0 result.1 (view pass.old) (view pass.new) }
{
    let called = Call::Set {
        container: s,
        call: SetCall::And { other: t },
    };
    let number = thin_by(bank, pass, s, t, true, &called);
    (Reply::Done, written(number))
}

/// `s -= t`, by a pass that has both locks (Python manual, Set Types): a set that is named twice is empty then.
pub(crate) fn sub_locked(bank: &Bank, pass: &mut Pass, s: Object, t: Object) -> (Reply, Stamp)
    requires pass { IsPassOf bank.now pass.old }
    requires may { MayWriteEntries (shape_of bank.now) s (view pass.old) }
    requires other { MayWriteEntries (shape_of bank.now) t (view pass.old) }
    requires set { kind_in (shape_of bank.now).starts s ≡ kind.Set }
    requires other_set { kind_in (shape_of bank.now).starts t ≡ kind.Set }
    ensures pass { IsPassOf bank.now pass.new }
    ensures stack { stack_of pass.new ≡ stack_of pass.old }
    ensures made { MadeAs (call.Set s (set.Sub t)) result.0 result.1 (view pass.old) (view pass.new) }
{
    let called = Call::Set {
        container: s,
        call: SetCall::Sub { other: t },
    };
    let number = thin_by(bank, pass, s, t, false, &called);
    (Reply::Done, written(number))
}

/// `s |= t` (Python manual, Set Types), by a pass that has both locks: those of t that s lacks are added, in their
/// order; a set that is named twice stays as it is. All are added, or none.
///
/// # Errors
///
/// Those of [`join_by`].
pub fn or_by(bank: &Bank, pass: &mut Pass, s: Object, t: Object) -> Added
    requires pass { IsPassOf bank.now pass.old }
    requires may { MayWriteEntries (shape_of bank.now) s (view pass.old) }
    requires other { MayWriteEntries (shape_of bank.now) t (view pass.old) }
    requires used { used (view pass.old).log ≡ false }
    requires idle { flight (view pass.old).log ≡ 0 }
    requires set { kind_in (shape_of bank.now).starts s ≡ kind.Set }
    requires other_set { kind_in (shape_of bank.now).starts t ≡ kind.Set }
    ensures pass { IsPassOf bank.now pass.new }
    ensures stack { stack_of pass.new ≡ stack_of pass.old }
    ensures added { JoinsBy (shape_of bank.now) s t (call.Set s (set.Or t)) (view pass.old) (view pass.new) result }
{
    used_entries_follow_a_dict();
    used_entries_follow_a_set();
    let called = Call::Set {
        container: s,
        call: SetCall::Or { other: t },
    };
    join_by(bank, pass, s, t, Way::Set, &called)
}

/// `s ^= t` (Python manual, Set Types), by a pass that has both locks: those that both have go, and those of t that s
/// lacks are added, in their order; a set that is named twice is empty then. All of it is done, or nothing.
///
/// # Errors
///
/// Those of [`part_by`].
pub fn xor_by(bank: &Bank, pass: &mut Pass, s: Object, t: Object) -> Added
    requires pass { IsPassOf bank.now pass.old }
    requires may { MayWriteEntries (shape_of bank.now) s (view pass.old) }
    requires other { MayWriteEntries (shape_of bank.now) t (view pass.old) }
    requires used { used (view pass.old).log ≡ false }
    requires idle { flight (view pass.old).log ≡ 0 }
    requires set { kind_in (shape_of bank.now).starts s ≡ kind.Set }
    requires other_set { kind_in (shape_of bank.now).starts t ≡ kind.Set }
    ensures pass { IsPassOf bank.now pass.new }
    ensures stack { stack_of pass.new ≡ stack_of pass.old }
    ensures added { PartsBy (shape_of bank.now) s t (call.Set s (set.Xor t)) (view pass.old) (view pass.new) result }
{
    used_entries_follow_a_dict();
    used_entries_follow_a_set();
    let called = Call::Set {
        container: s,
        call: SetCall::Xor { other: t },
    };
    part_by(bank, pass, s, t, &called)
}
