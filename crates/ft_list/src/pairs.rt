//! `l == m`: two lists compared item by item, without their locks and under them.
ghost use Rattle.std.specs.Prelude.{◌≡◌, ◌<◌};
ghost use Rattle.ft_model.specs.declared.call.Call.TheVariants as call;
ghost use Rattle.ft_model.specs.declared.call.ListCall.TheVariants as list;
ghost use Rattle.ft_model.specs.Lists.{same_items};
ghost use Rattle.ft_trace.specs.Addresses.{container_count};
ghost use Rattle.ft_trace.specs.ContainerStates.{kind_in};
ghost use Rattle.ft_model.specs.declared.script.Kind.TheVariants as kind;
ghost use Rattle.ft_bank.specs.Passes.{shape_of, view, IsPassOf};
ghost use Rattle.ft_bank.specs.PassSections.{stack_of};
ghost use Rattle.ft_list.specs.ListWrites.{MayWriteList};
ghost use Rattle.ft_list.specs.Pairs.{AreOfItems};
ghost use Rattle.ft_reads.specs.Pairs.{ReadsBoth};
ghost use Rattle.ft_search.specs.MadeCalls.{MadeAs};

use crate::locked::LENGTH;
use crate::reads::read_item;
use ft_bank::{Bank, Pass};
use ft_model::{Call, ListCall, Reply};
use ft_search::answer_held;
use ft_section::{Object, Stamp};

/// Whether two lists have equal items in the same order.
pub(crate) fn are_alike(bank: &Bank, pass: &mut Pass, l: Object, m: Object) -> bool
    requires pass { IsPassOf bank.now pass.old }
    requires container { l < container_count (shape_of bank.now) }
    requires other { m < container_count (shape_of bank.now) }
    requires list { kind_in (shape_of bank.now).starts l ≡ kind.List }
    requires other_list { kind_in (shape_of bank.now).starts m ≡ kind.List }
    ensures pass { IsPassOf bank.now pass.new }
    ensures reads { ReadsBoth (shape_of bank.now) l m
        (AreOfItems (shape_of bank.now) (λ items others. result ≡ same_items items others)) pass.old pass.new }
{
    let count = bank.read_block(pass, l, LENGTH);
    let other_count = bank.read_block(pass, m, LENGTH);
    if count != other_count {
        return false;
    }
    for place in 0..count {
        let item = read_item(bank, pass, l, place);
        let other = read_item(bank, pass, m, place);
        if item != other {
            return false;
        }
    }
    true
}

/// `l == m`, by a pass that has both locks.
pub(crate) fn eq_locked(bank: &Bank, pass: &mut Pass, l: Object, m: Object) -> (Reply, Stamp)
    requires pass { IsPassOf bank.now pass.old }
    requires may { MayWriteList (shape_of bank.now) l (view pass.old) }
    requires other { MayWriteList (shape_of bank.now) m (view pass.old) }
    ensures pass { IsPassOf bank.now pass.new }
    ensures stack { stack_of pass.new ≡ stack_of pass.old }
    ensures made { MadeAs (call.List l (list.Eq m)) result.0 result.1 (view pass.old) (view pass.new) }
{
    let alike = are_alike(bank, pass, l, m);
    let called = Call::List {
        container: l,
        call: ListCall::Eq { other: m },
    };
    answer_held(bank, pass, &called, Reply::Truth(alike))
}
