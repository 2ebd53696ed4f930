//! Each call on dicts, made by a pass that has the locks of its dicts.
ghost use Rattle.std.specs.Prelude.{◌≡◌, ◌<◌, is_some};
ghost use Rattle.ft_model.specs.declared.call.Call.TheVariants as calls;
ghost use Rattle.ft_model.specs.declared.call.DictCall.TheVariants as dict;
ghost use Rattle.ft_bank.specs.Passes.{shape_of, view};
ghost use Rattle.ft_bank.specs.PassSections.{stack_of};
ghost use Rattle.ft_table_calls.specs.TriesUnderLocks.{objects_in};
ghost use Rattle.ft_bank.specs.KeyHashes.{IsKeyIn};
ghost use Rattle.ft_section.specs.declared.answers.Objects.TheVariants.{One};
ghost use Rattle.ft_section.specs.LockTakings.{HasLocks};
ghost use Rattle.ft_section.specs.Ready.{IsMaking};
ghost use Rattle.ft_dict.specs.DictMaking.{FitsDict, IsDictIn, DictCallMakes};

use crate::boxed::{set_boxed, setdefault_boxed};
use crate::clears::clear_by;
use crate::copies::copyto_by;
use crate::deletes::{del_locked, pop_locked, popd_locked};
use crate::lasts::popitem_locked;
use crate::locked::{get_locked, getd_locked};
use crate::merges::update_by;
use crate::values::{set_by, setdefault_by};
use ft_bank::{Bank, Pass};
use ft_keys::Way;
use ft_model::{Call, DictCall, Key, Reply, Value};
use ft_search::len_locked;
use ft_section::Object;
use ft_table_calls::{Made, Maker};
use ft_whole_tables::{Comparison, compare_locked, has_locked, items_locked};
use std::alloc::Global;

/// Makes calls on dicts.
#[derive(Clone, Copy)]
pub struct DictMaker {
    /// Whence the memory of copies comes.
    pub alloc: Option<Global>,
}

impl Maker for DictMaker {
    ghost use Rattle.std.specs.Prelude.{is_some};
    ghost use Rattle.ft_dict.specs.DictMaking.{FitsDict, MakesDict};

    ghost fits = { λ it k called. FitsDict (is_some it.alloc) k called };

    ghost makes = { λ it k called made v w. MakesDict k called made v w };

    #[inline(always)]
    fn make(&self, bank: &Bank, pass: &mut Pass, called: &Call) -> Made {
        match called {
            Call::Dict { container, call } => {
                make_dict(bank, pass, self.alloc, *container, call, called)
            }
            _ => unreachable!(),
        }
    }
}

/// Makes the call that sets the value at a key, for whoever knows that it is this one: no other call is looked for
/// under the lock.
#[derive(Clone, Copy)]
pub struct ValueSetter;

impl Maker for ValueSetter {
    ghost use Rattle.ft_dict.specs.DictMaking.{FitsSetting, MakesDict};

    ghost fits = { λ it k called. FitsSetting k called };

    ghost makes = { λ it k called made v w. MakesDict k called made v w };

    #[inline(always)]
    fn make(&self, bank: &Bank, pass: &mut Pass, called: &Call) -> Made {
        match *called {
            Call::Dict {
                container,
                call: DictCall::Set { key, value },
            } => set_value(bank, pass, container, key, value),
            _ => unreachable!(),
        }
    }
}

/// Sets the value at a key of the dict `d`, by a pass that has its lock.
#[tactic(auto, using(crate::proofs::DictTries::may_enter))]
#[inline(always)]
fn set_value(bank: &Bank, pass: &mut Pass, d: Object, key: Key, value: Value) -> Made
    requires making { IsMaking bank.now pass.old }
    requires locks { HasLocks (view pass.old) (One d) }
    requires dict { IsDictIn (shape_of bank.now) d }
    requires key { IsKeyIn (shape_of bank.now) key }
    requires left { 0 < (view pass.old).left }
    ensures making { IsMaking bank.now pass.new }
    ensures stack { stack_of pass.new ≡ stack_of pass.old }
    ensures made { DictCallMakes (shape_of bank.now) d (dict.Set key value) result (view pass.old) (view pass.new) }
{
    if value.is_boxed() {
        return Made::after(set_boxed(bank, pass, d, key, value), Reply::Done);
    }
    Made::after(set_by(bank, pass, d, key, value), Reply::Done)
}

/// Puts a default at a key of the dict `d`, by a pass that has its lock.
#[tactic(auto, using(crate::proofs::DictTries::may_enter))]
#[inline(never)]
fn set_default(bank: &Bank, pass: &mut Pass, d: Object, key: Key, default: Value) -> Made
    requires making { IsMaking bank.now pass.old }
    requires locks { HasLocks (view pass.old) (One d) }
    requires dict { IsDictIn (shape_of bank.now) d }
    requires key { IsKeyIn (shape_of bank.now) key }
    requires left { 0 < (view pass.old).left }
    ensures making { IsMaking bank.now pass.new }
    ensures stack { stack_of pass.new ≡ stack_of pass.old }
    ensures made { DictCallMakes (shape_of bank.now) d (dict.SetDefault key default) result (view pass.old) (view pass.new) }
{
    if default.is_boxed() {
        let (added, said) = setdefault_boxed(bank, pass, d, key, default);
        return Made::after(added, said);
    }
    let (added, said) = setdefault_by(bank, pass, d, key, default);
    Made::after(added, said)
}

/// Makes a call on the dict `d`, by a pass that has the locks of its dicts.
#[tactic(auto, using(crate::proofs::DictTries::may_enter, ft_search::proofs::ReadMidst::stands_in))]
#[inline(never)]
fn make_dict(
    bank: &Bank,
    pass: &mut Pass,
    alloc: Option<Global>,
    d: Object,
    call: &DictCall,
    called: &Call,
) -> Made
    requires making { IsMaking bank.now pass.old }
    requires call { called.now ≡ calls.Dict d call.now }
    requires locks { HasLocks (view pass.old) (objects_in (calls.Dict d call.now)) }
    requires fits { FitsDict (is_some alloc) (shape_of bank.now) (calls.Dict d call.now) }
    requires left { 0 < (view pass.old).left }
    ensures making { IsMaking bank.now pass.new }
    ensures stack { stack_of pass.new ≡ stack_of pass.old }
    ensures made { DictCallMakes (shape_of bank.now) d call.now result (view pass.old) (view pass.new) }
{
    match *call {
        DictCall::Get { key } => Made::done(get_locked(bank, pass, d, key)),
        DictCall::GetOr { key, default } => Made::done(getd_locked(bank, pass, d, key, default)),
        DictCall::Has { key } => Made::done(has_locked(bank, pass, Way::Dict, d, key)),
        DictCall::Len => Made::done(len_locked(bank, pass, d, called)),
        DictCall::Set { key, value } => set_value(bank, pass, d, key, value),
        DictCall::SetDefault { key, default } => set_default(bank, pass, d, key, default),
        DictCall::Update { other } => Made::after(update_by(bank, pass, d, other), Reply::Done),
        DictCall::CopyTo { other } => Made::after(copyto_by(bank, pass, d, other), Reply::Done),
        DictCall::Del { key } => Made::done(del_locked(bank, pass, d, key)),
        DictCall::Pop { key } => Made::done(pop_locked(bank, pass, d, key)),
        DictCall::PopOr { key, default } => Made::done(popd_locked(bank, pass, d, key, default)),
        DictCall::PopItem => Made::done(popitem_locked(bank, pass, d)),
        DictCall::Clear => Made::Done(Reply::Done, clear_by(bank, pass, d)),
        DictCall::Items => match alloc {
            Some(alloc) => Made::copied(items_locked(bank, pass, alloc, Way::Dict, d)),
            None => unreachable!(),
        },
        DictCall::Eq { other } => {
            Made::done(compare_locked(bank, pass, Comparison::SameDicts, d, other))
        }
        DictCall::Iter { .. }
        | DictCall::KeysAnd { .. }
        | DictCall::KeysSub { .. }
        | DictCall::KeysOr { .. }
        | DictCall::KeysXor { .. }
        | DictCall::ItemsHas { .. }
        | DictCall::Reversed { .. } => unreachable!(),
    }
}
