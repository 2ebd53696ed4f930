//! Each call on sets, made by a pass that has the locks of its sets.
ghost use Rattle.std.specs.Prelude.{◌≡◌, ◌<◌, is_some};
ghost use Rattle.ft_model.specs.declared.call.Call.TheVariants as calls;
ghost use Rattle.ft_model.specs.declared.call.SetCall.TheVariants as set;
ghost use Rattle.ft_bank.specs.Passes.{shape_of, view};
ghost use Rattle.ft_bank.specs.PassSections.{stack_of};
ghost use Rattle.ft_table_calls.specs.TriesUnderLocks.{objects_in};
ghost use Rattle.ft_bank.specs.KeyHashes.{IsKeyIn};
ghost use Rattle.ft_section.specs.declared.answers.Objects.TheVariants.{One};
ghost use Rattle.ft_section.specs.LockTakings.{HasLocks};
ghost use Rattle.ft_section.specs.Ready.{IsMaking};
ghost use Rattle.ft_set.specs.SetMaking.{FitsSet, IsSetIn, SetCallMakes};

use crate::adds::add_by;
use crate::clears::clear_by;
use crate::deletes::{discard_locked, remove_locked};
use crate::firsts::pop_locked;
use crate::merges::{and_locked, or_by, sub_locked, xor_by};
use ft_bank::{Bank, Pass};
use ft_keys::Way;
use ft_model::{Call, Key, Reply, SetCall};
use ft_search::len_locked;
use ft_section::Object;
use ft_table_calls::{Made, Maker};
use ft_whole_tables::{Comparison, compare_locked, has_locked, items_locked};
use std::alloc::Global;

/// Makes calls on sets.
#[derive(Clone, Copy)]
pub struct SetMaker {
    /// Whence the memory of copies comes.
    pub alloc: Option<Global>,
}

impl Maker for SetMaker {
    ghost use Rattle.std.specs.Prelude.{is_some};
    ghost use Rattle.ft_set.specs.SetMaking.{FitsSet, MakesSet};

    ghost fits = { λ it k called. FitsSet (is_some it.alloc) k called };

    ghost makes = { λ it k called made v w. MakesSet k called made v w };

    #[inline(always)]
    fn make(&self, bank: &Bank, pass: &mut Pass, called: &Call) -> Made {
        match called {
            Call::Set { container, call } => {
                make_set(bank, pass, self.alloc, *container, call, called)
            }
            _ => unreachable!(),
        }
    }
}

/// Makes the calls that add or discard one element, for whoever knows that it is one of these: no other call is looked
/// for under the lock.
#[derive(Clone, Copy)]
pub struct ElementMaker;

impl Maker for ElementMaker {
    ghost use Rattle.ft_set.specs.SetMaking.{FitsElement, MakesSet};

    ghost fits = { λ it k called. FitsElement k called };

    ghost makes = { λ it k called made v w. MakesSet k called made v w };

    #[inline(always)]
    fn make(&self, bank: &Bank, pass: &mut Pass, called: &Call) -> Made {
        match *called {
            Call::Set {
                container,
                call: SetCall::Add { key },
            } => add(bank, pass, container, key),
            Call::Set {
                container,
                call: SetCall::Discard { key },
            } => discard(bank, pass, container, key),
            _ => unreachable!(),
        }
    }
}

/// Adds an element to the set `s`, by a pass that has its lock.
#[tactic(auto, using(crate::proofs::SetTries::may_enter))]
#[inline(always)]
fn add(bank: &Bank, pass: &mut Pass, s: Object, key: Key) -> Made
    requires making { IsMaking bank.now pass.old }
    requires locks { HasLocks (view pass.old) (One s) }
    requires set { IsSetIn (shape_of bank.now) s }
    requires key { IsKeyIn (shape_of bank.now) key }
    requires left { 0 < (view pass.old).left }
    ensures making { IsMaking bank.now pass.new }
    ensures stack { stack_of pass.new ≡ stack_of pass.old }
    ensures made { SetCallMakes (shape_of bank.now) s (set.Add key) result (view pass.old) (view pass.new) }
{
    Made::after(add_by(bank, pass, s, key), Reply::Done)
}

/// Discards an element of the set `s`, by a pass that has its lock.
#[tactic(auto, using(crate::proofs::SetTries::may_enter))]
#[inline(always)]
fn discard(bank: &Bank, pass: &mut Pass, s: Object, key: Key) -> Made
    requires making { IsMaking bank.now pass.old }
    requires locks { HasLocks (view pass.old) (One s) }
    requires set { IsSetIn (shape_of bank.now) s }
    requires key { IsKeyIn (shape_of bank.now) key }
    requires left { 0 < (view pass.old).left }
    ensures making { IsMaking bank.now pass.new }
    ensures stack { stack_of pass.new ≡ stack_of pass.old }
    ensures made { SetCallMakes (shape_of bank.now) s (set.Discard key) result (view pass.old) (view pass.new) }
{
    Made::done(discard_locked(bank, pass, s, key))
}

/// Makes a call on the set `s`, by a pass that has the locks of its sets.
#[tactic(auto, using(crate::proofs::SetTries::may_enter, ft_search::proofs::ReadMidst::stands_in))]
#[inline(never)]
fn make_set(
    bank: &Bank,
    pass: &mut Pass,
    alloc: Option<Global>,
    s: Object,
    call: &SetCall,
    called: &Call,
) -> Made
    requires making { IsMaking bank.now pass.old }
    requires call { called.now ≡ calls.Set s call.now }
    requires locks { HasLocks (view pass.old) (objects_in (calls.Set s call.now)) }
    requires fits { FitsSet (is_some alloc) (shape_of bank.now) (calls.Set s call.now) }
    requires left { 0 < (view pass.old).left }
    ensures making { IsMaking bank.now pass.new }
    ensures stack { stack_of pass.new ≡ stack_of pass.old }
    ensures made { SetCallMakes (shape_of bank.now) s call.now result (view pass.old) (view pass.new) }
{
    match *call {
        SetCall::Has { key } => Made::done(has_locked(bank, pass, Way::Set, s, key)),
        SetCall::Len => Made::done(len_locked(bank, pass, s, called)),
        SetCall::Add { key } => add(bank, pass, s, key),
        SetCall::Or { other } => Made::after(or_by(bank, pass, s, other), Reply::Done),
        SetCall::Xor { other } => Made::after(xor_by(bank, pass, s, other), Reply::Done),
        SetCall::And { other } => Made::done(and_locked(bank, pass, s, other)),
        SetCall::Sub { other } => Made::done(sub_locked(bank, pass, s, other)),
        SetCall::Discard { key } => discard(bank, pass, s, key),
        SetCall::Remove { key } => Made::done(remove_locked(bank, pass, s, key)),
        SetCall::Pop => Made::done(pop_locked(bank, pass, s)),
        SetCall::Clear => Made::Done(Reply::Done, clear_by(bank, pass, s)),
        SetCall::Items => match alloc {
            Some(alloc) => Made::copied(items_locked(bank, pass, alloc, Way::Set, s)),
            None => unreachable!(),
        },
        SetCall::Eq { other } => {
            Made::done(compare_locked(bank, pass, Comparison::SameSets, s, other))
        }
        SetCall::Subset { other } => {
            Made::done(compare_locked(bank, pass, Comparison::Subset, s, other))
        }
        SetCall::Disjoint { other } => {
            Made::done(compare_locked(bank, pass, Comparison::Disjoint, s, other))
        }
        SetCall::Iter { .. } => unreachable!(),
    }
}
