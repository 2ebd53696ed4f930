//! Calls on sets that are known where they are made: a method for each, as for dicts.
ghost use Rattle.ft_model.specs.declared.call.Call.TheVariants as calls;
ghost use Rattle.ft_model.specs.declared.call.SetCall.TheVariants as set;
ghost use Rattle.ft_engine.specs.Attempts.{MayAttempt};
ghost use Rattle.ft_engine.specs.Callers.{IsCallerOf, IsIdle};
ghost use Rattle.ft_engine.specs.MadeCalls.{IsCallFor, IsLookFor};

use crate::caller::Caller;
use crate::calling::Called;
use crate::engine::Engine;
use crate::set_call::{try_add, try_discard};
use ft_model::{Call, Key, SetCall};
use ft_section::{Look, Object};
use ft_set::{look_has, look_len};
use std::alloc::Global;
use std::sync::Wait;

impl Engine {
    /// `k in s` by a look: what `look` answers for it.
    ///
    /// # Errors
    ///
    /// `Contended` as `look`.
    #[inline(always)]
    pub fn set_has(&self, caller: &mut Caller, s: Object, key: Key) -> Look
        requires caller { IsCallerOf self.now caller.old }
        requires may { MayAttempt self.now caller.old (calls.Set s (set.Has key)) }
        requires idle { IsIdle caller.old }
        ensures { IsLookFor self.now (calls.Set s (set.Has key)) result caller.old caller.new }
    {
        let look = look_has(&self.bank, &mut caller.pass, s, key);
        caller.count_look(&look);
        look
    }

    /// `len(s)` by a look: what `look` answers for it.
    ///
    /// # Errors
    ///
    /// `Contended` as `look`.
    #[inline(always)]
    pub fn set_len(&self, caller: &mut Caller, s: Object) -> Look
        requires caller { IsCallerOf self.now caller.old }
        requires may { MayAttempt self.now caller.old (calls.Set s set.Len) }
        requires idle { IsIdle caller.old }
        ensures { IsLookFor self.now (calls.Set s set.Len) result caller.old caller.new }
    {
        let look = look_len(&self.bank, &mut caller.pass, s);
        caller.count_look(&look);
        look
    }

    /// `s.add(k)`: what `call` answers for it.
    #[inline(always)]
    pub fn set_add<R: Wait>(
        &self,
        rt: &R,
        alloc: Global,
        caller: &mut Caller,
        s: Object,
        key: Key,
    ) -> Called
        requires caller { IsCallerOf self.now caller.old }
        requires may { MayAttempt self.now caller.old (calls.Set s (set.Add key)) }
        ensures { IsCallFor self.now (calls.Set s (set.Add key)) result caller.old caller.new }
    {
        let call = Call::Set {
            container: s,
            call: SetCall::Add { key },
        };
        if !caller.is_free() {
            return self.call_in_turn(rt, alloc, caller, &call);
        }
        let step = try_add(&self.bank, &mut caller.pass, s, key);
        self.end_at_once(rt, alloc, caller, &call, step)
    }

    /// `s.discard(k)`: what `call` answers for it.
    #[inline(always)]
    pub fn set_discard<R: Wait>(
        &self,
        rt: &R,
        alloc: Global,
        caller: &mut Caller,
        s: Object,
        key: Key,
    ) -> Called
        requires caller { IsCallerOf self.now caller.old }
        requires may { MayAttempt self.now caller.old (calls.Set s (set.Discard key)) }
        ensures { IsCallFor self.now (calls.Set s (set.Discard key)) result caller.old caller.new }
    {
        let call = Call::Set {
            container: s,
            call: SetCall::Discard { key },
        };
        if !caller.is_free() {
            return self.call_in_turn(rt, alloc, caller, &call);
        }
        let step = try_discard(&self.bank, &mut caller.pass, s, key);
        self.end_at_once(rt, alloc, caller, &call, step)
    }
}
