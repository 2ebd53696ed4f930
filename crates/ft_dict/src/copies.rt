//! `copyto` of a dict, under the locks of both: the other dict gets its pairs, in their order, with new
//! serials, in a table of their class; where there are no pairs it gives its table up.
ghost use Rattle.std.specs.Prelude.{◌≡◌, false};
ghost use Rattle.ft_model.specs.declared.script.Kind.TheVariants as kind;
ghost use Rattle.ft_trace.specs.Acts.{flight, used};
ghost use Rattle.ft_trace.specs.ContainerStates.{kind_in};
ghost use Rattle.ft_bank.specs.Passes.{shape_of, view, IsPassOf};
ghost use Rattle.ft_bank.specs.PassSections.{stack_of};
ghost use Rattle.ft_table_calls.specs.Adding.{KeepsCursors};
ghost use Rattle.ft_search.specs.OneEntryWrites.{MayWriteEntries};
ghost use Rattle.ft_dict.specs.DictCopies.{CopiesTo};

use ft_bank::{Bank, Pass};
use ft_model::{Call, DictCall};
use ft_replacing::copy_into;
use ft_section::Object;
use ft_table_calls::Added;

/// `copyto d e`, by a pass that has the locks of both dicts: e has the pairs of d then, in their order, and shares the
/// boxes of their values. A dict that is named twice has its own pairs, with new serials, and its values in their boxes.
///
/// # Errors
///
/// Those of [`copy_into`].
pub fn copyto_by(bank: &Bank, pass: &mut Pass, d: Object, e: Object) -> Added
    requires pass { IsPassOf bank.now pass.old }
    requires may { MayWriteEntries (shape_of bank.now) d (view pass.old) }
    requires other { MayWriteEntries (shape_of bank.now) e (view pass.old) }
    requires dict { kind_in (shape_of bank.now).starts d ≡ kind.Dict }
    requires other_dict { kind_in (shape_of bank.now).starts e ≡ kind.Dict }
    requires used { used (view pass.old).log ≡ false }
    requires idle { flight (view pass.old).log ≡ 0 }
    ensures pass { IsPassOf bank.now pass.new }
    ensures stack { stack_of pass.new ≡ stack_of pass.old }
    ensures copied { CopiesTo (shape_of bank.now) d e (view pass.old) (view pass.new) result }
    ensures cursors { KeepsCursors (view pass.old) (view pass.new) }
{
    let called = Call::Dict {
        container: d,
        call: DictCall::CopyTo { other: e },
    };
    copy_into(bank, pass, d, e, &called)
}
