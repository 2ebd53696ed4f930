//! `update` of a dict with another one, under the locks of both.
ghost use Rattle.std.specs.Prelude.{◌≡◌, false};
ghost use Rattle.ft_model.specs.declared.call.Call.TheVariants as call;
ghost use Rattle.ft_model.specs.declared.call.DictCall.TheVariants as dict;
ghost use Rattle.ft_model.specs.declared.script.Kind.TheVariants as kind;
ghost use Rattle.ft_trace.specs.Acts.{flight, used};
ghost use Rattle.ft_trace.specs.ContainerStates.{kind_in};
ghost use Rattle.ft_bank.specs.Passes.{shape_of, view, IsPassOf};
ghost use Rattle.ft_bank.specs.PassSections.{stack_of};
ghost use Rattle.ft_search.specs.OneEntryWrites.{MayWriteEntries};
ghost use Rattle.ft_merging.specs.Joining.{JoinsBy};

use ft_bank::{Bank, Pass};
use ft_keys::Way;
use ft_layout::{used_entries_follow_a_dict, used_entries_follow_a_set};
use ft_merging::join_by;
use ft_model::{Call, DictCall};
use ft_section::Object;
use ft_table_calls::Added;

/// `d.update(e)` (Python manual, Mapping Types), by a pass that has both locks: a key of e that d has gets the value of
/// e in its place, and the others are added in their order; a dict that is named twice stays as it is. A value that
/// stands in a box stands in that box in both then; where d has an equal value at the key already, that one stays. All
/// of it is done, or nothing.
///
/// # Errors
///
/// Those of [`join_by`].
pub fn update_by(bank: &Bank, pass: &mut Pass, d: Object, e: Object) -> Added
    requires pass { IsPassOf bank.now pass.old }
    requires may { MayWriteEntries (shape_of bank.now) d (view pass.old) }
    requires other { MayWriteEntries (shape_of bank.now) e (view pass.old) }
    requires used { used (view pass.old).log ≡ false }
    requires idle { flight (view pass.old).log ≡ 0 }
    requires dict { kind_in (shape_of bank.now).starts d ≡ kind.Dict }
    requires other_dict { kind_in (shape_of bank.now).starts e ≡ kind.Dict }
    ensures pass { IsPassOf bank.now pass.new }
    ensures stack { stack_of pass.new ≡ stack_of pass.old }
    ensures added { JoinsBy (shape_of bank.now) d e (call.Dict d (dict.Update e)) (view pass.old) (view pass.new) result }
{
    used_entries_follow_a_dict();
    used_entries_follow_a_set();
    let called = Call::Dict {
        container: d,
        call: DictCall::Update { other: e },
    };
    join_by(bank, pass, d, e, Way::Dict, &called)
}
