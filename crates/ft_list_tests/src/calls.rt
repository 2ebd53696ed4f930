//! Calls on the two lists of a bank, under their locks and without.
ghost use Rattle.std.specs.Prelude.{◌≡◌, ◌<◌, true, IfSome};
ghost use Rattle.ft_model.specs.declared.script.Kind.TheVariants as kind;
ghost use Rattle.ft_bank.specs.Passes.{shape_of, IsPassOf};
ghost use Rattle.ft_trace.specs.Addresses.{container_count};
ghost use Rattle.ft_trace.specs.ContainerStates.{kind_in};
ghost use Rattle.ft_section.specs.declared.answers.Step.TheVariants as steps;
ghost use Rattle.ft_list_tests.specs.TestCalls.{HasTwoLists, MayLook, MayTryAny};

use ft_bank::{Bank, Pass};
use ft_list::{
    look_eq, look_get, look_has, look_items, look_len, try_append, try_clear, try_count, try_del,
    try_eq, try_extend, try_get, try_has, try_index, try_insert, try_items, try_len, try_pop,
    try_remove, try_reverse, try_set, try_slice,
};
use ft_model::{ListCall, Reply};
use ft_qsbr::enter;
use ft_section::{Look, Stamp, Step};
use std::alloc::Global;

/// The reply and the stamp of a call that was made under locks.
fn made(step: Step) -> Option<(Reply, Stamp)>
    ensures { IfSome result (λ made. step ≡ steps.Done made.0 made.1) }
{
    match step {
        Step::Done(reply, stamp) => Some((reply, stamp)),
        _ => None,
    }
}

/// Whether it is the number of one of the two lists.
pub(crate) fn is_list(bank: &Bank, l: u32) -> bool
    requires lists { HasTwoLists bank.now }
    ensures container { result ≡ true → l < container_count (shape_of bank.now) }
    ensures list { kind_in (shape_of bank.now).starts l ≡ kind.List }
{
    let _ = bank;
    l < 2
}

/// `l.extend(m)`.
fn extend(bank: &Bank, pass: &mut Pass, l: u32, m: u32) -> Option<(Reply, Stamp)>
    requires lists { HasTwoLists bank.now }
    requires may { MayTryAny bank.now pass.old }
    ensures may { IfSome result (λ made. MayTryAny bank.now pass.new) }
{
    if pass.left() == 0 || !is_list(bank, l) || !is_list(bank, m) {
        return None;
    }
    made(try_extend(bank, pass, l, m))
}

/// `l == m`.
fn equal(bank: &Bank, pass: &mut Pass, l: u32, m: u32) -> Option<(Reply, Stamp)>
    requires lists { HasTwoLists bank.now }
    requires may { MayTryAny bank.now pass.old }
    ensures may { IfSome result (λ made. MayTryAny bank.now pass.new) }
{
    if pass.left() == 0 || !is_list(bank, l) || !is_list(bank, m) {
        return None;
    }
    made(try_eq(bank, pass, l, m))
}

/// What a call under the locks of its lists replies that makes no cursor, and its stamp; `None` where it wasn't made.
pub(crate) fn try_call(
    bank: &Bank,
    pass: &mut Pass,
    alloc: Global,
    l: u32,
    call: ListCall,
) -> Option<(Reply, Stamp)>
    requires lists { HasTwoLists bank.now }
    requires may { MayTryAny bank.now pass.old }
    ensures may { IfSome result (λ made. MayTryAny bank.now pass.new) }
{
    if pass.left() == 0 || !is_list(bank, l) {
        return None;
    }
    match call {
        ListCall::Append { value } => made(try_append(bank, pass, l, value)),
        ListCall::Insert { index, value } => made(try_insert(bank, pass, l, index, value)),
        ListCall::Get { index } => made(try_get(bank, pass, l, index)),
        ListCall::Set { index, value } => made(try_set(bank, pass, l, index, value)),
        ListCall::Del { index } => made(try_del(bank, pass, l, index)),
        ListCall::Pop { index } => made(try_pop(bank, pass, l, index)),
        ListCall::Remove { value } => made(try_remove(bank, pass, l, value)),
        ListCall::Index { value } => made(try_index(bank, pass, l, value)),
        ListCall::Count { value } => made(try_count(bank, pass, l, value)),
        ListCall::Has { value } => made(try_has(bank, pass, l, value)),
        ListCall::Reverse => made(try_reverse(bank, pass, l)),
        ListCall::Extend { other } => extend(bank, pass, l, other),
        ListCall::Slice { start, end } => made(try_slice(bank, pass, alloc, l, start, end)),
        ListCall::Clear => made(try_clear(bank, pass, l)),
        ListCall::Len => made(try_len(bank, pass, l)),
        ListCall::Items => made(try_items(bank, pass, alloc, l)),
        ListCall::Eq { other } => equal(bank, pass, l, other),
        ListCall::Iter { .. } | ListCall::Reversed { .. } => None,
    }
}

/// `l == m`, looked for without locks.
fn look_equal(bank: &Bank, reader: &mut Pass, l: u32, m: u32) -> Option<Look>
    requires lists { HasTwoLists bank.now }
    requires pass { MayLook bank.now reader.old }
    ensures pass { MayLook bank.now reader.new }
{
    if reader.left() == 0 || !is_list(bank, l) || !is_list(bank, m) {
        return None;
    }
    Some(look_eq(bank, reader, l, m))
}

/// What a look comes to by a pass that goes online for it; `None` where the call is not made so.
pub(crate) fn look_call(
    bank: &Bank,
    reader: &mut Pass,
    alloc: Global,
    l: u32,
    call: ListCall,
) -> Option<Look>
    requires lists { HasTwoLists bank.now }
    requires pass { MayLook bank.now reader.old }
    ensures pass { MayLook bank.now reader.new }
{
    enter(bank, reader);
    if reader.left() == 0 || !is_list(bank, l) {
        return None;
    }
    match call {
        ListCall::Get { index } => Some(look_get(bank, reader, l, index)),
        ListCall::Has { value } => Some(look_has(bank, reader, l, value)),
        ListCall::Len => Some(look_len(bank, reader, l)),
        ListCall::Items => Some(look_items(bank, reader, alloc, l)),
        ListCall::Eq { other } => look_equal(bank, reader, l, other),
        _ => None,
    }
}
