//! Searches for a value in a list whose lock the pass has: `l.index(v)`, `l.count(v)` and `v in l`.
ghost use Rattle.std.specs.Prelude.{◌≡◌};
ghost use Rattle.std.specs.Option.{option_map_or};
ghost use Rattle.ft_model.specs.declared.call.Call.TheVariants as call;
ghost use Rattle.ft_model.specs.declared.call.ListCall.TheVariants as list;
ghost use Rattle.ft_model.specs.declared.reply.Raise.TheVariants as raise;
ghost use Rattle.ft_model.specs.declared.reply.Reply.TheVariants as reply;
ghost use Rattle.ft_bank.specs.Passes.{shape_of, view, IsPassOf};
ghost use Rattle.ft_bank.specs.PassSections.{stack_of};
ghost use Rattle.ft_list.specs.ListWrites.{MayWriteList};
ghost use Rattle.ft_search.specs.MadeCalls.{MadeAs};

use crate::scans::{count_equal, first_equal};
use ft_bank::{Bank, Pass};
use ft_model::{Call, ListCall, Raise, Reply, Value};
use ft_search::answer_held;
use ft_section::{Object, Stamp};

/// What `l.index(v)` replies: the place of the first equal item, or a ValueError.
fn place_reply(found: Option<u64>) -> Reply
    ensures { result ≡ option_map_or reply.Count found (reply.Raised raise.NoValue) }
{
    match found {
        Some(place) => Reply::Count(place),
        None => Reply::Raised(Raise::NoValue),
    }
}

/// `l.index(v)`, by a pass that has the list's lock.
pub(crate) fn index_locked(bank: &Bank, pass: &mut Pass, l: Object, value: Value) -> (Reply, Stamp)
    requires pass { IsPassOf bank.now pass.old }
    requires may { MayWriteList (shape_of bank.now) l (view pass.old) }
    ensures pass { IsPassOf bank.now pass.new }
    ensures stack { stack_of pass.new ≡ stack_of pass.old }
    ensures made { MadeAs (call.List l (list.Index value)) result.0 result.1 (view pass.old) (view pass.new) }
{
    let found = first_equal(bank, pass, l, value);
    let called = Call::List {
        container: l,
        call: ListCall::Index { value },
    };
    answer_held(bank, pass, &called, place_reply(found))
}

/// `l.count(v)`, by a pass that has the list's lock.
pub(crate) fn count_locked(bank: &Bank, pass: &mut Pass, l: Object, value: Value) -> (Reply, Stamp)
    requires pass { IsPassOf bank.now pass.old }
    requires may { MayWriteList (shape_of bank.now) l (view pass.old) }
    ensures pass { IsPassOf bank.now pass.new }
    ensures stack { stack_of pass.new ≡ stack_of pass.old }
    ensures made { MadeAs (call.List l (list.Count value)) result.0 result.1 (view pass.old) (view pass.new) }
{
    let equal = count_equal(bank, pass, l, value);
    let called = Call::List {
        container: l,
        call: ListCall::Count { value },
    };
    answer_held(bank, pass, &called, Reply::Count(equal))
}

/// `v in l`, by a pass that has the list's lock.
pub(crate) fn has_locked(bank: &Bank, pass: &mut Pass, l: Object, value: Value) -> (Reply, Stamp)
    requires pass { IsPassOf bank.now pass.old }
    requires may { MayWriteList (shape_of bank.now) l (view pass.old) }
    ensures pass { IsPassOf bank.now pass.new }
    ensures stack { stack_of pass.new ≡ stack_of pass.old }
    ensures made { MadeAs (call.List l (list.Has value)) result.0 result.1 (view pass.old) (view pass.new) }
{
    let found = first_equal(bank, pass, l, value);
    let called = Call::List {
        container: l,
        call: ListCall::Has { value },
    };
    answer_held(bank, pass, &called, Reply::Truth(found.is_some()))
}
